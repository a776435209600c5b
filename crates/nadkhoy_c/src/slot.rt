//! The slot of a world in C's memory.

ghost use Rattle.std.specs.Prelude.{◌≡◌, Some, None, IsSome, IfSome, IsNone, true, false};

use crate::raw::RawWorld;
use c_slots::Parts;
use std::alloc::Global;
use std::mem;
use step_core::World;

/// A world, or none: all zeros is the empty slot.
#[repr(C)]
pub struct WorldSlot {
    raw: RawWorld,
    full: bool,
    ghost full_has: { full ≡ true → IsSome raw.value },
    ghost empty_has: { full ≡ false → IsNone raw.value },
}

impl WorldSlot {
    /// Whether there is a world.
    #[tactic(auto, using(crate::proofs::Options::none_is))]
    pub fn is_full(&self) -> bool
        ensures full { result ≡ true → IsSome self.now.raw.value }
        ensures empty { result ≡ false → self.now.raw.value ≡ None }
    {
        self.full
    }

    /// The empty slot.
    pub fn empty(alloc: Global) -> WorldSlot
        ensures { result.raw.value ≡ None }
    {
        WorldSlot {
            raw: RawWorld::none(alloc),
            full: false,
        }
    }

    /// A slot with this world.
    pub fn of(world: Box<World>) -> WorldSlot
        ensures { result.raw.value ≡ Some world.value }
    {
        WorldSlot {
            raw: RawWorld::of_parts(Parts::of(world)),
            full: true,
        }
    }

    /// The world, which leaves the slot empty; None where it is.
    pub fn take(&mut self, alloc: Global) -> Option<Box<World>>
        ensures world { IfSome result (λ b. self.old.raw.value ≡ Some b.value) }
        ensures none { result ≡ None → self.old.raw.value ≡ None }
        ensures left { self.new.raw.value ≡ None }
    {
        mem::replace(self, WorldSlot::empty(alloc)).into_world()
    }

    #[tactic(auto, using(crate::proofs::Options::none_is))]
    fn into_world(self) -> Option<Box<World>>
        ensures world { IfSome result (λ b. self.raw.value ≡ Some b.value) }
        ensures none { result ≡ None → self.raw.value ≡ None }
    {
        let WorldSlot { raw, full } = self;
        if full {
            Some(raw.into_parts().into_box())
        } else {
            None
        }
    }
}

// A slot that is written over gives its world back.
impl Drop for WorldSlot {
    fn drop(self) {
        drop(self.into_world());
    }
}
