//! Runs of moves where memory is ample, which no contract can say, and between them moves that are
//! not lawful: those of a few threads here, and those of crowds.

use crate::rows::expect_none;
use fast_path::Call;
use fat_monitor::{Cause, Reply};
use jls_check::{Machine, MoveFault};
use lock_word::{Memory, ObjectId, ThreadId};
use std::alloc::Global;
use step_core::Move;

macro_rules! calls {
    ($thread:expr, $call:expr) => {
        Move::Call {
            thread: $thread,
            call: $call,
        }
    };
}

macro_rules! returns {
    ($thread:expr, $reply:expr) => {
        Move::Return {
            thread: $thread,
            reply: $reply,
        }
    };
}

macro_rules! notifies {
    ($thread:expr, $chosen:expr) => {
        Move::Notify {
            thread: $thread,
            chosen: $chosen,
        }
    };
}

macro_rules! refuses {
    ($thread:expr, $cause:expr) => {
        Move::Refuse {
            thread: $thread,
            cause: $cause,
        }
    };
}

mod crowds;
mod memory;

const OBJECT: ObjectId = ObjectId(0);

/// A wait of no limit.
const WAIT: Call = Call::Wait {
    object: OBJECT,
    millis: 0,
    nanos: 0,
};

/// What a machine answers.
type Answer = Result<(), MoveFault>;

const LAWFUL: Answer = Ok(());

const BROKEN: Answer = Err(MoveFault::Broken);

/// What a machine answers, of which nothing is claimed here.
fn take(machine: &mut Machine, made: Move) -> Answer {
    machine.take(made)
}

/// The first of these moves that is answered otherwise.
fn first_other(machine: &mut Machine, moves: &[(Move, Answer)]) -> Option<usize> {
    for (row, &(made, answer)) in moves.iter().enumerate() {
        if take(machine, made) != answer {
            return Some(row);
        }
    }
    None
}

/// The same of a new machine with one object.
fn first_of_new(alloc: Global, moves: &[(Move, Answer)]) -> Result<Option<usize>, Memory> {
    let mut machine = Machine::new(alloc, 1)?;
    Ok(first_other(&mut machine, moves))
}

const WAITER: ThreadId = ThreadId(7);

const NOTIFIER: ThreadId = ThreadId(9);

const OWNER: ThreadId = ThreadId(3);

const ATTACHED_TWICE: [(Move, Answer); 2] = [
    (
        Move::Attach {
            thread: ThreadId(0),
        },
        LAWFUL,
    ),
    (
        Move::Attach {
            thread: ThreadId(0),
        },
        BROKEN,
    ),
];

const WAITS_AND_IS_NOTIFIED: [(Move, Answer); 23] = [
    (Move::Attach { thread: WAITER }, LAWFUL),
    (Move::Attach { thread: NOTIFIER }, LAWFUL),
    (calls!(WAITER, Call::Enter(OBJECT)), LAWFUL),
    (Move::Lock { thread: WAITER }, LAWFUL),
    (returns!(WAITER, Reply::Entered), LAWFUL),
    (calls!(WAITER, WAIT), LAWFUL),
    (Move::Wait { thread: WAITER }, LAWFUL),
    (calls!(NOTIFIER, Call::Enter(OBJECT)), LAWFUL),
    (Move::Lock { thread: NOTIFIER }, LAWFUL),
    (returns!(NOTIFIER, Reply::Entered), LAWFUL),
    (calls!(NOTIFIER, Call::Notify(OBJECT)), LAWFUL),
    (notifies!(NOTIFIER, None), BROKEN),
    (notifies!(NOTIFIER, Some(NOTIFIER)), BROKEN),
    (Move::Expire { thread: WAITER }, BROKEN),
    (Move::Relock { thread: WAITER }, BROKEN),
    (notifies!(NOTIFIER, Some(WAITER)), LAWFUL),
    (Move::Relock { thread: WAITER }, BROKEN),
    (returns!(NOTIFIER, Reply::Notified), LAWFUL),
    (calls!(NOTIFIER, Call::Exit(OBJECT)), LAWFUL),
    (Move::Unlock { thread: NOTIFIER }, LAWFUL),
    (Move::Relock { thread: WAITER }, LAWFUL),
    (returns!(WAITER, Reply::Interrupted), BROKEN),
    (returns!(WAITER, Reply::WaitOver), LAWFUL),
];

const OWNER_ENDS: [(Move, Answer); 11] = [
    (Move::Attach { thread: OWNER }, LAWFUL),
    (calls!(OWNER, Call::Enter(OBJECT)), LAWFUL),
    (calls!(OWNER, Call::End), BROKEN),
    (refuses!(OWNER, Cause::NoMonitor), BROKEN),
    (Move::Illegal { thread: OWNER }, BROKEN),
    (Move::Lock { thread: OWNER }, LAWFUL),
    (returns!(OWNER, Reply::Entered), LAWFUL),
    (calls!(OWNER, Call::End), LAWFUL),
    (Move::End { thread: OWNER }, BROKEN),
    (refuses!(OWNER, Cause::StillOwner), LAWFUL),
    (calls!(OWNER, Call::Exit(ObjectId(1))), BROKEN),
];

/// Runs of moves, by name.
const RUNS: [(&str, &[(Move, Answer)]); 3] = [
    ("a thread is attached once", &ATTACHED_TWICE),
    (
        "a notified thread locks again after the notifier",
        &WAITS_AND_IS_NOTIFIED,
    ),
    ("an owner does not end", &OWNER_ENDS),
];

#[test]
fn moves_of_a_few_threads(rt: HostRuntime) {
    for (name, moves) in RUNS {
        expect_none(&rt, name, first_of_new(rt.alloc(), moves));
    }
}
