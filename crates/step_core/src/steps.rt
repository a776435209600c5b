//! Steps, what they did, and why they were refused.

ghost use Rattle.std.specs.Prelude.{◌≡◌};

mod building;

use crate::Move;
pub(crate) use building::{grant_of, move_for};
use fast_path::Call;
use fat_monitor::{Action, Answer, Cause, Reply};
use lock_word::{ObjectId, Split, ThreadId, Word};
use std::error::Error;
use std::fmt;

/// One step of a world.
#[derive(Clone, Copy, PartialEq, Eq, Debug)]
pub enum Step {
    /// The thread becomes live and takes the lowest free index.
    Attach { thread: ThreadId },
    /// The thread begins a call.
    Begin { thread: ThreadId, call: Call },
    /// The thread does the next atomic step of its call.
    Go { thread: ThreadId },
    /// The thread's wait is over: its deadline has come.
    Expire { thread: ThreadId },
    /// The thread's wait is over for no reason that a program can see: a spurious wake-up (JLS SE
    /// 8, 17.2.1).
    Spurious { thread: ThreadId },
    /// This is the moment now, in nanoseconds; it never falls.
    Tick { now: u64 },
}

/// What is asked of a world.
#[derive(Clone, Copy)]
pub enum Request {
    /// A step of it.
    Step(Step),
    /// At rest, that its words are written in this split.
    Relayout(Split),
}

/// The one thing that a step did to the words or the fat monitors.
#[derive(Clone, Copy, PartialEq, Eq, Debug)]
pub enum Atomic {
    /// Nothing: a thread was attached, a call began, or the moment was told.
    Label,
    /// The object's word was loaded.
    Load {
        object: ObjectId,
        word: Word,
    },
    /// The free word was exchanged for the thread's own.
    Won {
        object: ObjectId,
        old: Word,
        new: Word,
    },
    /// The word was not the free one any more, and stays.
    Lost {
        object: ObjectId,
        word: Word,
    },
    /// The thread's own thin word was overwritten.
    Stored {
        object: ObjectId,
        old: Word,
        new: Word,
    },
    /// A fat monitor was bound to the object.
    Bound {
        object: ObjectId,
        monitor: u32,
    },
    /// None could be bound, for this cause.
    NotBound {
        object: ObjectId,
        cause: Cause,
    },
    /// An action on the fat monitors was made.
    Acted {
        action: Action,
        answer: Answer,
    },
}

/// What an accepted step did.
#[derive(Clone, Copy, PartialEq, Eq, Debug)]
pub struct Did {
    pub atomic: Atomic,
    /// The moves of the abstract machine, in order: those that are there come first.
    pub moves: [Option<Move>; 3],
    /// The reply of the call that ended.
    pub reply: Option<Reply>,
}

/// Why a step was refused. The world is then unchanged.
///
/// Attach answers the first of Known, NoIndex and Memory whose cause holds; Begin of NoThread,
/// NoObject and InCall; Go of NoThread, NotCalling and Parked; Expire of NoThread and NotDue;
/// Spurious of NoThread and NotWaiting; Tick Backwards.
#[derive(Clone, Copy, PartialEq, Eq, Debug)]
pub enum Fault {
    /// Every index belongs to a live thread.
    NoIndex = 1,
    /// The system has no memory for one more thread.
    Memory = 2,
    /// The thread is live already.
    Known = 3,
    /// The thread is not live.
    NoThread = 4,
    /// The call names an object that the world does not have.
    NoObject = 5,
    /// The thread is in a call already.
    InCall = 6,
    /// The thread is in no call.
    NotCalling = 7,
    /// The thread stands in an entry line or a wait set.
    Parked = 8,
    /// The thread does not wait, or its wait has no deadline, or the moment is before that.
    NotDue = 9,
    /// The moment would fall.
    Backwards = 10,
    /// The thread does not wait.
    NotWaiting = 28,
}

impl Fault {
    ghost use Rattle.step_core.specs.Names.{fault_number};

    /// The number by which a report names the fault.
    pub fn number(self) -> u8
        ensures { result ≡ fault_number self }
    {
        self as u8
    }
}

impl fmt::Display for Fault {
    ghost use Rattle.std.specs.Prelude.{Some};
    ghost use Rattle.step_core.specs.Names.{fault_name};

    ghost output = { λ x. Some (fault_name x) };

    fn fmt<W: fmt::Write>(&self, f: &mut fmt::Formatter<W>) -> fmt::Result {
        f.write_str(match self {
            Fault::NoIndex => "NoIndex",
            Fault::Memory => "Memory",
            Fault::Known => "Known",
            Fault::NoThread => "NoThread",
            Fault::NoObject => "NoObject",
            Fault::InCall => "InCall",
            Fault::NotCalling => "NotCalling",
            Fault::Parked => "Parked",
            Fault::NotDue => "NotDue",
            Fault::Backwards => "Backwards",
            Fault::NotWaiting => "NotWaiting",
        })
    }
}

impl Error for Fault {}
