//! The programs. The files of `data` have the same as texts, one each and in the same order, which
//! `bench/explored.py` and `thinmon explore` read.

use step_core::{Call, ObjectId, ThreadId};

/// A program: how many objects and fat monitors there are, and the threads, each with its calls and
/// how often it makes each.
pub(crate) struct Classic {
    pub(crate) name: &'static str,
    pub(crate) lows: &'static [u8],
    pub(crate) monitors: u32,
    pub(crate) threads: &'static [&'static [(Call, u16)]],
    pub(crate) moments: &'static [u64],
    pub(crate) spurious: bool,
}

const A: ObjectId = ObjectId(0);

const B: ObjectId = ObjectId(1);

const X: ThreadId = ThreadId(0);

const Y: ThreadId = ThreadId(1);

const Z: ThreadId = ThreadId(2);

const ENTER: (Call, u16) = (Call::Enter(A), 1);

const EXIT: (Call, u16) = (Call::Exit(A), 1);

const NOTIFY: (Call, u16) = (Call::Notify(A), 1);

const NOTIFY_ALL: (Call, u16) = (Call::NotifyAll(A), 1);

const WAIT: (Call, u16) = (
    Call::Wait {
        object: A,
        millis: 0,
        nanos: 0,
    },
    1,
);

const WAIT_5: (Call, u16) = (
    Call::Wait {
        object: A,
        millis: 5,
        nanos: 0,
    },
    1,
);

const END: (Call, u16) = (Call::End, 1);

const INTERRUPT_X: (Call, u16) = (Call::Interrupt(X), 1);

const INTERRUPT_Y: (Call, u16) = (Call::Interrupt(Y), 1);

const INTERRUPT_Z: (Call, u16) = (Call::Interrupt(Z), 1);

const ASK_Y: (Call, u16) = (Call::IsInterrupted(Y), 1);

const ASK_Z: (Call, u16) = (Call::IsInterrupted(Z), 1);

pub(crate) const CLASSICS: [Classic; 19] = [
    Classic {
        name: "two_enters",
        lows: &[0xA5],
        monitors: 4,
        threads: &[&[ENTER, EXIT], &[ENTER, EXIT]],
        moments: &[],
        spurious: false,
    },
    Classic {
        name: "lock_order_inversion",
        lows: &[0xA5, 0x5A],
        monitors: 4,
        threads: &[
            &[ENTER, (Call::Enter(B), 1), (Call::Exit(B), 1), EXIT],
            &[(Call::Enter(B), 1), ENTER, EXIT, (Call::Exit(B), 1)],
        ],
        moments: &[],
        spurious: false,
    },
    Classic {
        name: "lost_wakeup",
        lows: &[0xA5],
        monitors: 4,
        threads: &[&[ENTER, WAIT, EXIT], &[ENTER, NOTIFY, EXIT]],
        moments: &[],
        spurious: false,
    },
    Classic {
        name: "two_waiters_one_notify",
        lows: &[0xA5],
        monitors: 4,
        threads: &[
            &[ENTER, WAIT, EXIT],
            &[ENTER, WAIT, EXIT],
            &[ENTER, NOTIFY, EXIT],
        ],
        moments: &[],
        spurious: false,
    },
    Classic {
        name: "two_waiters_notifyall",
        lows: &[0xA5],
        monitors: 4,
        threads: &[
            &[ENTER, WAIT, EXIT],
            &[ENTER, WAIT, EXIT],
            &[ENTER, NOTIFY_ALL, EXIT],
        ],
        moments: &[],
        spurious: false,
    },
    Classic {
        name: "notify_and_interrupt",
        lows: &[0xA5],
        monitors: 4,
        threads: &[&[ENTER, WAIT, EXIT], &[ENTER, NOTIFY, EXIT], &[INTERRUPT_X]],
        moments: &[],
        spurious: false,
    },
    Classic {
        name: "timed_wait_against_notify",
        lows: &[0xA5],
        monitors: 4,
        threads: &[&[ENTER, WAIT_5, EXIT], &[ENTER, NOTIFY, EXIT]],
        moments: &[5_000_000],
        spurious: false,
    },
    Classic {
        name: "a_nested_wait_keeps_its_count",
        lows: &[0xA5],
        monitors: 4,
        threads: &[
            &[ENTER, ENTER, WAIT, EXIT, EXIT],
            &[ENTER, NOTIFY_ALL, EXIT],
        ],
        moments: &[],
        spurious: false,
    },
    Classic {
        name: "contention_inflates",
        lows: &[0xA5],
        monitors: 4,
        threads: &[
            &[ENTER, EXIT],
            &[ENTER, EXIT],
            &[(Call::Holds(A), 1), (Call::IsInterrupted(X), 1)],
        ],
        moments: &[],
        spurious: false,
    },
    Classic {
        name: "deep_nesting",
        lows: &[0xA5],
        monitors: 4,
        threads: &[
            &[(Call::Enter(A), 257), (Call::Exit(A), 257)],
            &[ENTER, EXIT],
        ],
        moments: &[],
        spurious: false,
    },
    Classic {
        name: "an_exit_without_a_hold",
        lows: &[0xA5],
        monitors: 4,
        threads: &[&[EXIT], &[ENTER, EXIT]],
        moments: &[],
        spurious: false,
    },
    Classic {
        name: "a_spurious_wake",
        lows: &[0xA5],
        monitors: 4,
        threads: &[&[ENTER, WAIT, EXIT]],
        moments: &[],
        spurious: true,
    },
    Classic {
        name: "three_in_line",
        lows: &[0xA5],
        monitors: 4,
        threads: &[&[ENTER, EXIT], &[ENTER, EXIT], &[ENTER, EXIT]],
        moments: &[],
        spurious: false,
    },
    Classic {
        name: "no_monitor_left",
        lows: &[0xA5],
        monitors: 0,
        threads: &[&[ENTER, WAIT, EXIT], &[ENTER, EXIT]],
        moments: &[],
        spurious: false,
    },
    Classic {
        name: "an_end_with_a_hold",
        lows: &[0xA5],
        monitors: 4,
        threads: &[&[ENTER, END, EXIT, END], &[INTERRUPT_X]],
        moments: &[],
        spurious: false,
    },
    Classic {
        name: "notify_and_interrupt_with_a_second_waiter",
        lows: &[0xA5],
        monitors: 4,
        threads: &[
            &[ENTER, WAIT, EXIT],
            &[ENTER, ASK_Z, WAIT, EXIT],
            &[ENTER, INTERRUPT_Z, NOTIFY, EXIT],
            &[INTERRUPT_X],
        ],
        moments: &[],
        spurious: false,
    },
    Classic {
        name: "a_wait_in_a_loop",
        lows: &[0xA5],
        monitors: 4,
        threads: &[
            &[ENTER, WAIT, ASK_Y, WAIT, ASK_Y, EXIT],
            &[ENTER, INTERRUPT_Y, NOTIFY_ALL, EXIT],
        ],
        moments: &[],
        spurious: true,
    },
    Classic {
        name: "producer_and_consumer",
        lows: &[0xA5],
        monitors: 4,
        threads: &[
            &[ENTER, ASK_Z, WAIT, NOTIFY, EXIT],
            &[ENTER, ASK_Z, WAIT, EXIT],
            &[ENTER, INTERRUPT_Z, NOTIFY, EXIT],
        ],
        moments: &[],
        spurious: false,
    },
    Classic {
        name: "producer_and_consumer_notifyall",
        lows: &[0xA5],
        monitors: 4,
        threads: &[
            &[ENTER, ASK_Z, WAIT, NOTIFY_ALL, EXIT],
            &[ENTER, ASK_Z, WAIT, EXIT],
            &[ENTER, INTERRUPT_Z, NOTIFY_ALL, EXIT],
        ],
        moments: &[],
        spurious: false,
    },
];
