//! The proof of a bind.

ghost use Rattle.std.specs.Prelude.{◌≡◌, ◌≤◌};

use lock_word::{ObjectId, ThreadId};
use std::marker::Model;

/// What a bind bound. Only [`Fats::bind`](crate::Fats::bind) makes one, so whoever is handed a
/// receipt knows that the monitor was bound to this object, with this owner and these holds.
#[derive(PartialEq, Eq, Drop)]
pub struct Receipt {
    object: ObjectId,
    owner: ThreadId,
    holds: u16,
    monitor: u32,
}

impl Model for Receipt {
    ghost use Rattle.std.specs.Prelude.{◌≤◌};
    ghost use Rattle.fat_monitor.specs.Binding.{Binding};

    ghost Value = { Binding };

    ghost view = { λ r.
        record { object = r.object; owner = r.owner; holds = r.holds; monitor = r.monitor } };

    ghost invariant = { λ r. (1 ≤ r.holds) × (r.holds ≤ 4096) × (r.monitor ≤ 8388607) };

    ghost inverse = { λ b.
        record { object = b.object; owner = b.owner; holds = b.holds; monitor = b.monitor } };
}

impl Receipt {
    /// Makes the receipt of a bind.
    pub(crate) fn new(object: ObjectId, owner: ThreadId, holds: u16, monitor: u32) -> Receipt
        requires low { 1 ≤ holds }
        requires high { holds ≤ 4096 }
        requires numbered { monitor ≤ 8388607 }
        ensures { result
            ≡ record { object = object; owner = owner; holds = holds; monitor = monitor } }
    {
        Receipt {
            object,
            owner,
            holds,
            monitor,
        }
    }

    /// The object whose monitor was bound.
    pub fn object(&self) -> ObjectId
        ensures { result ≡ self.now.object }
    {
        self.object
    }

    /// The thread that owned the object when its monitor was bound.
    pub fn owner(&self) -> ThreadId
        ensures { result ≡ self.now.owner }
    {
        self.owner
    }

    /// How many times the owner held the object then, 1 to 4,096.
    pub fn holds(&self) -> u16
        ensures value { result ≡ self.now.holds }
        ensures low { 1 ≤ result }
        ensures high { result ≤ 4096 }
    {
        self.holds
    }

    /// The number of the monitor, 0 to 8,388,607.
    pub fn monitor(&self) -> u32
        ensures value { result ≡ self.now.monitor }
        ensures high { result ≤ 8388607 }
    {
        self.monitor
    }
}
