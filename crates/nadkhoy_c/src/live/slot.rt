//! The slot of a seat in C's memory.

ghost use Rattle.std.specs.Prelude.{◌≡◌, Some, None, IsSome, IfSome, IsNone, true, false};

use super::raw::RawSeat;
use live_seats::SeatOrder;
use std::alloc::Global;
use std::mem;

/// A seat at a live service, or none: all zeros is the empty slot.
#[repr(C)]
pub struct LiveSlot {
    raw: RawSeat,
    full: bool,
    alloc: Global,
    ghost full_has: { full ≡ true → IsSome raw.value },
    ghost empty_has: { full ≡ false → IsNone raw.value },
}

impl LiveSlot {
    /// Whether there is a seat.
    #[tactic(auto, using(crate::proofs::Options::none_is))]
    pub fn is_full(&self) -> bool
        ensures full { result ≡ true → IsSome self.now.raw.value }
        ensures empty { result ≡ false → self.now.raw.value ≡ None }
    {
        self.full
    }

    /// The empty slot.
    pub fn empty(alloc: Global) -> LiveSlot
        ensures { result.raw.value ≡ None }
    {
        LiveSlot {
            raw: RawSeat::none(alloc),
            full: false,
            alloc,
        }
    }

    /// A slot with this seat.
    pub fn of(alloc: Global, raw: RawSeat) -> LiveSlot
        requires { IsSome raw.value }
        ensures { result.raw.value ≡ raw.value }
    {
        LiveSlot {
            raw,
            full: true,
            alloc,
        }
    }

    /// The seat, which leaves the slot empty; None where it is.
    pub fn take(&mut self, alloc: Global) -> Option<RawSeat>
        ensures seat { IfSome result (λ r. (self.old.raw.value ≡ r.value) × IsSome r.value) }
        ensures none { result ≡ None → self.old.raw.value ≡ None }
        ensures left { self.new.raw.value ≡ None }
    {
        mem::replace(self, LiveSlot::empty(alloc)).into_seat()
    }

    #[tactic(auto, using(crate::proofs::Options::none_is))]
    fn into_seat(self) -> Option<RawSeat>
        ensures seat { IfSome result (λ r. (self.raw.value ≡ r.value) × IsSome r.value) }
        ensures none { result ≡ None → self.raw.value ≡ None }
    {
        let LiveSlot {
            raw,
            full,
            alloc: _,
        } = self;
        if full { Some(raw) } else { None }
    }
}

// A seat leaves its service. This is a function of its own, so that a slot that is written has
// nothing of it.
#[inline(never)]
fn leave(alloc: Global, seat: RawSeat)
    requires { IsSome seat.value }
{
    let _ = seat.serve(alloc, SeatOrder::Leave);
}

// A slot that is written over gives its seat up.
impl Drop for LiveSlot {
    fn drop(self) {
        let alloc = self.alloc;
        if let Some(seat) = self.into_seat() {
            leave(alloc, seat);
        }
    }
}
