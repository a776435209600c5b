//! A book behind the gate whose type has a model.
ghost use Rattle.std.specs.Prelude.{◌≡◌, ◌≤◌, length, [], List};
ghost use Rattle.lock_word.specs.declared.ObjectId.{ObjectId};

use header_words::Kept;
use lock_word::ObjectId;
use std::alloc::Global;
use std::marker::Model;

/// The objects that are bound, by monitor number, of which callers see the list alone.
#[derive(Drop)]
pub struct Ledger {
    objects: Vec<ObjectId>,
}

impl Model for Ledger {
    ghost Value = { List ObjectId };

    ghost view = { λ l. l.objects.items };

    ghost invariant = { λ l. length l.objects.items ≤ 8 };
}

impl Ledger {
    pub fn new(alloc: Global) -> Ledger
        ensures { result ≡ [] }
    {
        Ledger {
            objects: Vec::new(alloc),
        }
    }

    /// How many objects are bound: at most 8, which is told by the invariant of the type alone.
    pub fn len(&self) -> usize
        ensures count { result ≡ length self.now }
        ensures few { result ≤ 8 }
    {
        self.objects.len()
    }
}

impl Kept for Ledger {
    ghost bound = { λ l. l };

    fn object(&self, monitor: u32) -> Option<ObjectId> {
        self.objects.get(monitor as usize).copied()
    }
}
