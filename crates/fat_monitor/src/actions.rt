//! What a thread may ask of a fat monitor, and what it is told.

ghost use Rattle.std.specs.Prelude.{◌≡◌};

use lock_word::ThreadId;
use std::error::Error;
use std::fmt;

/// Why a call was refused.
#[derive(Clone, Copy, PartialEq, Eq, Debug)]
pub enum Cause {
    /// Every fat monitor is bound.
    NoMonitor = 11,
    /// The system has no memory for one more fat monitor.
    Memory = 12,
    /// The thread holds the object 65,535 times already.
    TooDeep = 13,
    /// The thread that is to end owns an object.
    StillOwner = 14,
    /// The thread that the call names is not live.
    NoThread = 15,
}

/// What a call answers.
#[derive(Clone, Copy, PartialEq, Eq, Debug)]
pub enum Reply {
    /// The thread owns the object, once more than before.
    Entered,
    /// The thread holds the object once less.
    Exited,
    /// The wait is over, and the thread holds the object as often as before it.
    WaitOver,
    /// The wait was ended by an interrupt, which is forgotten: `InterruptedException`. The thread
    /// holds the object as often as before.
    Interrupted,
    /// A thread of the wait set has left it, or all have, if there was one.
    Notified,
    /// Yes: the thread owns the object, or the one asked about is interrupted.
    Yes,
    /// No, it does not, or is not.
    No,
    /// The thread that the call names was interrupted.
    Done,
    /// The thread is not live any more.
    Ended,
    /// The thread does not own the object: `IllegalMonitorStateException`.
    IllegalMonitorState,
    /// The time of a wait is out of range: `IllegalArgumentException`.
    IllegalArgument,
    /// The call was refused, and nothing was changed.
    Refused(Cause),
}

/// Why a thread left a wait set.
#[derive(Clone, Copy, PartialEq, Eq, Debug)]
pub enum Why {
    /// It was notified.
    Notified,
    /// It was interrupted.
    Interrupted,
    /// Its time was over.
    Elapsed,
    /// For no reason that a program can see: a spurious wake-up (JLS SE 8, 17.2.1).
    Spurious,
}

/// Where an attached thread stands towards the fat monitors.
#[derive(Clone, Copy, PartialEq, Eq)]
pub enum Post {
    /// In no action.
    Out,
    /// In the entry line, behind another owner.
    Entering {
        monitor: u32,
    },
    /// In the wait set. It gave up `holds` holds, 1 to 65,535. The deadline is the moment in
    /// nanoseconds at which the wait is over; a wait of no limit has none.
    Waiting {
        monitor: u32,
        holds: u16,
        deadline: Option<u128>,
    },
    /// In the entry line, on its way back from the wait set.
    Back {
        monitor: u32,
        holds: u16,
        why: Why,
    },
    /// Its action was granted, with this reply, which it has not collected yet.
    Granted(Reply),
}

/// One action on the fat monitors.
#[derive(Clone, Copy, PartialEq, Eq, Debug)]
pub enum Action {
    /// Own the monitor, or hold it once more, or stand in its entry line behind another owner.
    Enter {
        monitor: u32,
    },
    /// Hold the monitor once less. With the last hold it goes to the first of its entry line.
    Exit {
        monitor: u32,
    },
    /// Give up the monitor, and stand in its wait set until a notify, an interrupt, or the end of
    /// its time: milliseconds from 0 on and nanoseconds 0 to 999,999, where 0 and 0 mean no limit.
    Wait {
        monitor: u32,
        millis: i64,
        nanos: i32,
    },
    /// Send the thread that has waited longest back to the entry line.
    Notify {
        monitor: u32,
    },
    /// Send all threads of the wait set back to the entry line, in the order in which they joined.
    NotifyAll {
        monitor: u32,
    },
    /// Does the thread own the monitor?
    Holds {
        monitor: u32,
    },
    /// Set the interrupt flag of the thread, which leaves the wait set that it stands in.
    Interrupt {
        target: ThreadId,
    },
    /// Is the thread interrupted? Its flag is clear then.
    Interrupted,
    /// Is that thread interrupted?
    IsInterrupted {
        target: ThreadId,
    },
    /// Leave the wait set, where the time of the wait is over.
    Expire,
    /// Leave the wait set by an internal action of the implementation: a spurious wake-up.
    Spurious,
    /// Take the reply that was granted.
    Collect,
    /// Be attached no longer, where the thread owns no monitor.
    End,
}

/// What an action answers.
#[derive(Clone, Copy, PartialEq, Eq, Debug)]
pub enum Answer {
    /// The call that made the action has this reply.
    Reply(Reply),
    /// The thread stands in a line, and has no reply until it is granted one.
    Parked,
    /// The thread left its wait set by itself, and has no reply until it is granted one.
    Quiet,
}

/// What an action did.
#[derive(Clone, Copy, PartialEq, Eq)]
pub struct Done {
    /// What the thread is told.
    pub answer: Answer,
    /// The thread that left a line by this action, and became the owner of its monitor.
    pub granted: Option<ThreadId>,
    /// The thread that a notify took out of the wait set.
    pub chosen: Option<ThreadId>,
}

/// Why an action was not made. Nothing was changed then.
#[derive(Clone, Copy, PartialEq, Eq, Debug)]
pub enum ActFault {
    /// The thread has no granted reply to collect.
    Parked,
    /// The thread does not wait, or its wait has no deadline, or the moment is before that.
    NotDue,
    /// The thread does not wait.
    NotWaiting,
}

impl fmt::Display for ActFault {
    ghost use Rattle.std.specs.Prelude.{Some};
    ghost use Rattle.fat_monitor.specs.Names.{act_fault_text};

    ghost output = { λ x. Some (act_fault_text x) };

    fn fmt<W: fmt::Write>(&self, f: &mut fmt::Formatter<W>) -> fmt::Result {
        f.write_str(match self {
            ActFault::Parked => "no reply is granted",
            ActFault::NotDue => "no wait of the thread is over",
            ActFault::NotWaiting => "the thread does not wait",
        })
    }
}

impl Error for ActFault {}

impl Cause {
    ghost use Rattle.fat_monitor.specs.Names.{cause_number};

    /// The number of the cause.
    pub fn number(self) -> u8
        ensures { result ≡ cause_number self }
    {
        self as u8
    }
}

impl Reply {
    ghost use Rattle.fat_monitor.specs.Numbers.{reply_number};

    /// The number of the reply, 0 to 15: of a refusal that of its cause.
    pub fn number(self) -> u8
        ensures { result ≡ reply_number self }
    {
        match self {
            Reply::Entered => 0,
            Reply::Exited => 1,
            Reply::WaitOver => 2,
            Reply::Interrupted => 3,
            Reply::Notified => 4,
            Reply::Yes => 5,
            Reply::No => 6,
            Reply::Done => 7,
            Reply::Ended => 8,
            Reply::IllegalMonitorState => 9,
            Reply::IllegalArgument => 10,
            Reply::Refused(cause) => cause.number(),
        }
    }
}

impl fmt::Display for Cause {
    ghost use Rattle.std.specs.Prelude.{Some};
    ghost use Rattle.fat_monitor.specs.Names.{cause_name};

    ghost output = { λ x. Some (cause_name x) };

    fn fmt<W: fmt::Write>(&self, f: &mut fmt::Formatter<W>) -> fmt::Result {
        f.write_str(match self {
            Cause::NoMonitor => "NoMonitor",
            Cause::Memory => "Memory",
            Cause::TooDeep => "TooDeep",
            Cause::StillOwner => "StillOwner",
            Cause::NoThread => "NoThread",
        })
    }
}

impl fmt::Display for Reply {
    ghost use Rattle.std.specs.Prelude.{Some};
    ghost use Rattle.fat_monitor.specs.Names.{reply_name};

    ghost output = { λ x. Some (reply_name x) };

    fn fmt<W: fmt::Write>(&self, f: &mut fmt::Formatter<W>) -> fmt::Result {
        let name = match self {
            Reply::Entered => "Entered",
            Reply::Exited => "Exited",
            Reply::WaitOver => "WaitOver",
            Reply::Interrupted => "Interrupted",
            Reply::Notified => "Notified",
            Reply::Yes => "Yes",
            Reply::No => "No",
            Reply::Done => "Done",
            Reply::Ended => "Ended",
            Reply::IllegalMonitorState => "IllegalMonitorState",
            Reply::IllegalArgument => "IllegalArgument",
            Reply::Refused(cause) => return write!(f, "Refused {cause}"),
        };
        f.write_str(name)
    }
}

/// An action is written by its name alone.
impl fmt::Display for Action {
    ghost use Rattle.std.specs.Prelude.{Some};
    ghost use Rattle.fat_monitor.specs.Names.{action_name};

    ghost output = { λ x. Some (action_name x) };

    fn fmt<W: fmt::Write>(&self, f: &mut fmt::Formatter<W>) -> fmt::Result {
        f.write_str(match self {
            Action::Enter { .. } => "Enter",
            Action::Exit { .. } => "Exit",
            Action::Wait { .. } => "Wait",
            Action::Notify { .. } => "Notify",
            Action::NotifyAll { .. } => "NotifyAll",
            Action::Holds { .. } => "Holds",
            Action::Interrupt { .. } => "Interrupt",
            Action::Interrupted => "Interrupted",
            Action::IsInterrupted { .. } => "IsInterrupted",
            Action::Expire => "Expire",
            Action::Spurious => "Spurious",
            Action::Collect => "Collect",
            Action::End => "End",
        })
    }
}
