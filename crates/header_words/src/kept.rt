//! The book behind the gate.
use lock_word::ObjectId;

/// A book that can be kept behind the gate: a list of bound objects, by monitor number, and
/// whatever else it has. The rule of the words sees the list alone.
pub trait Kept {
    ghost use Rattle.std.specs.Prelude.{◌≡◌, List, slice_get};
    ghost use Rattle.lock_word.specs.declared.ObjectId.{ObjectId};

    ghost bound: { Self → List ObjectId };

    /// The object to which the monitor is bound.
    fn object(&self, monitor: u32) -> Option<ObjectId>
        ensures { result ≡ slice_get (bound self.now) monitor };
}

/// A book in a box is kept as the book is: a take then moves one pointer.
impl<B: Kept> Kept for Box<B> {
    ghost bound = { λ b. B.bound b.value };

    fn object(&self, monitor: u32) -> Option<ObjectId> {
        self.as_ref().object(monitor)
    }
}
