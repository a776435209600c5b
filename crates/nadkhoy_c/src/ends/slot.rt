//! The slot of the end of a live service in C's memory.

ghost use Rattle.std.specs.Prelude.{◌≡◌, Some, None, IsSome, IfSome, IsNone, true, false};

use super::raw::RawEnd;
use c_slots::Parts;
use live_seats::ServiceEnd;
use std::alloc::Global;
use std::mem;

/// The end of a service, or none: all zeros is the empty slot.
#[repr(C)]
pub struct EndSlot {
    raw: RawEnd,
    full: bool,
    ghost full_has: { full ≡ true → IsSome raw.value },
    ghost empty_has: { full ≡ false → IsNone raw.value },
}

impl EndSlot {
    /// Whether there is one.
    #[tactic(auto, using(crate::proofs::Options::none_is))]
    pub fn is_full(&self) -> bool
        ensures full { result ≡ true → IsSome self.now.raw.value }
        ensures empty { result ≡ false → self.now.raw.value ≡ None }
    {
        self.full
    }

    /// The empty slot.
    pub fn empty(alloc: Global) -> EndSlot
        ensures { result.raw.value ≡ None }
    {
        EndSlot {
            raw: RawEnd::none(alloc),
            full: false,
        }
    }

    /// A slot with this end.
    pub fn of(raw: RawEnd) -> EndSlot
        requires { IsSome raw.value }
        ensures { result.raw.value ≡ raw.value }
    {
        EndSlot { raw, full: true }
    }

    /// A slot with the end in this box.
    pub fn of_box(end: Box<ServiceEnd>) -> EndSlot
        ensures { result.raw.value ≡ Some end.value }
    {
        EndSlot {
            raw: RawEnd::of_parts(Parts::of(end)),
            full: true,
        }
    }

    /// The end, which leaves the slot empty; None where it is.
    pub fn take(&mut self, alloc: Global) -> Option<Box<ServiceEnd>>
        ensures end { IfSome result (λ b. self.old.raw.value ≡ Some b.value) }
        ensures none { result ≡ None → self.old.raw.value ≡ None }
        ensures left { self.new.raw.value ≡ None }
    {
        mem::replace(self, EndSlot::empty(alloc)).into_end()
    }

    #[tactic(auto, using(crate::proofs::Options::none_is))]
    fn into_end(self) -> Option<Box<ServiceEnd>>
        ensures end { IfSome result (λ b. self.raw.value ≡ Some b.value) }
        ensures none { result ≡ None → self.raw.value ≡ None }
    {
        let EndSlot { raw, full } = self;
        if full {
            Some(raw.into_parts().into_box())
        } else {
            None
        }
    }
}

// A slot that is written over gives the end back.
impl Drop for EndSlot {
    fn drop(self) {
        drop(self.into_end());
    }
}
