//! What the abstract machine shows of a thread, and its moves.

use fast_path::Call;
use fat_monitor::{Cause, Reply, Why};
use lock_word::{ObjectId, ThreadId};

/// What a live thread is doing.
#[derive(Clone, Copy, PartialEq, Eq)]
pub enum Doing {
    /// It is in no call.
    Idle,
    /// It has made this call, which has no answer yet.
    Wants(Call),
    /// It stands in the object's wait set, and gave up so many holds. The deadline is a moment in
    /// nanoseconds; a wait of no limit has none.
    Waits {
        object: ObjectId,
        holds: u16,
        deadline: Option<u128>,
    },
    /// It left the wait set for this reason, and has to lock the object as often as before.
    Back {
        object: ObjectId,
        holds: u16,
        why: Why,
    },
    /// Its call has this reply, which it has not returned with yet.
    Has(Reply),
}

/// A move of the abstract machine.
#[derive(Clone, Copy, PartialEq, Eq, Debug)]
pub enum Move {
    /// The thread becomes live.
    Attach {
        thread: ThreadId,
    },
    /// It makes a call.
    Call {
        thread: ThreadId,
        call: Call,
    },
    /// Its call returns with this reply.
    Return {
        thread: ThreadId,
        reply: Reply,
    },
    /// It locks the object that it wants to enter.
    Lock {
        thread: ThreadId,
    },
    /// It unlocks, once, the object that it wants to leave.
    Unlock {
        thread: ThreadId,
    },
    /// Its call is for the owner of the object alone, and it is not the owner.
    Illegal {
        thread: ThreadId,
    },
    /// It owns the object, and the time that it wants to wait is out of range.
    BadArgument {
        thread: ThreadId,
    },
    /// It owns the object that it wants to wait on, and is interrupted: it does not wait, and the
    /// interrupt is forgotten.
    Early {
        thread: ThreadId,
    },
    /// It joins the wait set of the object that it owns, and gives up all its locks.
    Wait {
        thread: ThreadId,
    },
    /// It takes this thread out of the wait set of the object that it owns; None where nobody
    /// waits.
    Notify {
        thread: ThreadId,
        chosen: Option<ThreadId>,
    },
    /// It takes all threads out of the wait set of the object that it owns.
    NotifyAll {
        thread: ThreadId,
    },
    /// It interrupts the thread that its call names, which leaves the wait set that it is in.
    Interrupt {
        thread: ThreadId,
    },
    /// It is told whether it is interrupted, and is not any more.
    TestClear {
        thread: ThreadId,
    },
    /// Its time is over, and it leaves the wait set.
    Expire {
        thread: ThreadId,
    },
    /// It leaves the wait set by an internal action of the implementation: a spurious wake-up.
    Spurious {
        thread: ThreadId,
    },
    /// It is back from a wait set, and locks the object as often as before; where an interrupt took
    /// it out of there, the interrupt is forgotten.
    Relock {
        thread: ThreadId,
    },
    /// Its question is answered.
    Ask {
        thread: ThreadId,
    },
    /// Its call is refused for this cause.
    Refuse {
        thread: ThreadId,
        cause: Cause,
    },
    /// It owns no object, and is to be live no longer.
    End {
        thread: ThreadId,
    },
    /// This is the moment now, in nanoseconds.
    Time {
        now: u64,
    },
}
