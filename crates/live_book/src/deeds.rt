//! What the record says.

use fat_monitor::{Action, Answer};
use lock_word::{ObjectId, ThreadId};

/// One deed on the fat monitors, and what came of it.
#[derive(Clone, Copy, PartialEq, Eq)]
pub enum Deed {
    /// The thread held the object so often, and got this monitor for it.
    Bound {
        object: ObjectId,
        holds: u16,
        monitor: u32,
    },
    /// The thread made the action, and was told this.
    Acted {
        action: Action,
        answer: Answer,
    },
    /// The thread told the moment, in nanoseconds.
    Ticked {
        now: u64,
    },
}

/// A place of the record that is used: a deed, and who did it.
#[derive(Clone, Copy, PartialEq, Eq)]
pub struct Logged {
    pub thread: ThreadId,
    pub deed: Deed,
}
