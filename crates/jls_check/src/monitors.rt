//! What is kept of each object: its monitor, and how many threads wait on it.

ghost use Rattle.std.specs.Prelude.{◌≡◌, ◌≤◌, ◌↔◌, IsTrue, MatchOption};
ghost use Rattle.jls_check.specs.Monitors.{is_owned_by, joined, HasWaiter, CanCountOneMore};
ghost use Rattle.jls_check.specs.MachineState.{left_by};
ghost use Rattle.jls_check.specs.Taking.{may_be_locked, less_held, held_by};

use crate::threads::Live;
use lock_word::ThreadId;
use step_core::Doing;

/// The monitor of an object: who owns it, and how many times it is locked (JLS SE 8, 17.1).
#[derive(Clone, Copy, PartialEq, Eq)]
pub struct Held {
    pub owner: Option<ThreadId>,
    pub count: u16,
}

/// What is kept of an object.
#[derive(Clone, Copy)]
pub(crate) struct ObjectRecord {
    pub(crate) held: Held,
    // How many threads are in its wait set (JLS SE 8, 17.2).
    pub(crate) waiting: u64,
}

/// Nobody owns the monitor.
pub(crate) const UNHELD: Held = Held {
    owner: None,
    count: 0,
};

/// Nobody owns the monitor, and nobody waits.
pub(crate) const UNTOUCHED: ObjectRecord = ObjectRecord {
    held: UNHELD,
    waiting: 0,
};

impl Held {
    /// The thread has locked the monitor so many times.
    pub(crate) fn by(thread: ThreadId, count: u16) -> Held
        ensures { result ≡ held_by thread count }
    {
        Held {
            owner: Some(thread),
            count,
        }
    }

    pub(crate) fn is_owned_by(self, thread: ThreadId) -> bool
        ensures { result ≡ is_owned_by self.owner thread }
    {
        match self.owner {
            Some(owner) => owner.0 == thread.0,
            None => false,
        }
    }

    /// Whether the thread may lock the monitor once more.
    pub(crate) fn may_be_locked(self, thread: ThreadId) -> bool
        ensures { result ≡ may_be_locked self thread }
    {
        (self.owner.is_none() || self.is_owned_by(thread)) && self.count < u16::MAX
    }

    /// The monitor with one lock less of its owner.
    pub(crate) fn less(self, thread: ThreadId) -> Held
        requires { 1 ≤ self.count }
        ensures { result ≡ less_held thread self.count }
    {
        if self.count == 1 {
            UNHELD
        } else {
            Held::by(thread, self.count - 1)
        }
    }
}

pub(crate) fn is_same_owner(one: Option<ThreadId>, other: Option<ThreadId>) -> bool
    ensures { IsTrue result ↔ (one ≡ other) }
{
    one == other
}

/// A thread did this, if it was live, and does that from now on: it leaves the wait set that it was
/// in, and joins the one that it goes into.
pub(crate) fn count_waits(objects: &mut [ObjectRecord], was: Option<Live>, act: Doing)
    requires waited { MatchOption was (Unit {0}) (λ x. HasWaiter objects.old x.act) }
    requires room { CanCountOneMore (left_by objects.old was) act }
    ensures { objects.new ≡ joined (left_by objects.old was) act }
{
    if let Some(
        Live {
            act: Doing::Waits { object, .. },
            ..
        },
    ) = was
    {
        objects[object.0 as usize].waiting -= 1;
    }
    if let Doing::Waits { object, .. } = act {
        objects[object.0 as usize].waiting += 1;
    }
}
