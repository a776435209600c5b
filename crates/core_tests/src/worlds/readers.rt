//! What the readers answer.

use super::*;
use crate::rows::expect_none;
use fat_monitor::Why;

const STRANGER: ThreadId = ThreadId(2);

/// The longest wait.
const LONGEST: Call = Call::Wait {
    object: A,
    millis: i64::MAX,
    nanos: 999_999,
};

/// The thread is in that wait, which began at the last moment that there is.
const WAITING: Doing = Doing::Waits {
    object: A,
    holds: 1,
    deadline: Some(9_223_390_483_598_849_517_551_614),
};

/// The thread is back from it, for no reason.
const BACK: Doing = Doing::Back {
    object: A,
    holds: 1,
    why: Why::Spurious,
};

/// The thread x owns the object, waits, and comes back while y owns it.
const ASKS: [Ask; 22] = [
    Ask::Does(Step::Attach { thread: X }),
    Ask::Does(Step::Attach { thread: Y }),
    Ask::Enters(1),
    Ask::Has(1, 4, 0),
    Ask::Knows(Y, Some(2), Some(Doing::Idle), Some(false)),
    Ask::IsAt(2, Some(Y)),
    Ask::IsAt(0, None),
    Ask::Knows(STRANGER, None, None, None),
    Ask::Shows(0x0001_00A5, X, 1),
    Ask::Knows(X, Some(1), Some(Doing::Idle), Some(false)),
    Ask::Does(Step::Tick { now: u64::MAX }),
    begins!(X, LONGEST),
    Ask::Goes(4),
    Ask::Has(1, 4, u64::MAX),
    Ask::Knows(X, Some(1), Some(WAITING), Some(false)),
    Ask::Waits(X, true),
    Ask::Waits(Y, false),
    begins!(Y, Call::Enter(A)),
    Ask::Does(Step::Go { thread: Y }),
    Ask::Does(Step::Go { thread: Y }),
    Ask::Does(Step::Spurious { thread: X }),
    Ask::Knows(X, Some(1), Some(BACK), Some(false)),
];

#[test]
fn a_world_shows_what_was_done(rt: HostRuntime) {
    expect_none(&rt, "readers", first_of_new(rt.alloc(), Split::Wide, &ASKS));
}
