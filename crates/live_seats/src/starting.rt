//! The start of a call on an object: a seat that has its reply at once tells no more than that.

ghost use Rattle.std.specs.Prelude.{◌≡◌, Some, IsSome, false};
ghost use Rattle.live_turns.specs.Ways.{Belongs};
ghost use Rattle.live_seats.specs.Seats.{SeatState, SeatStarts, Starts};
ghost use Rattle.live_seats.specs.Kept.{StartsKept};

use crate::house::House;
use crate::member::Member;
use crate::orders::Started;
use crate::pass_orders::is_idle;
use crate::seat::Seat;
use c_slots::{MaybeParts, Parts};
use fast_path::MonitorCall;
use live_turns::{Crew, TurnPass, Turns};
use std::alloc::Global;
use std::ops::Deref;

/// What came of the start of a call, with the seat that made it, taken apart.
pub struct Begun<L: Crew> {
    pub seat: MaybeParts<Seat<L>, Global>,
    pub started: Started,
}

// The start of a call of a pass.
#[inline(always)]
fn start<L: Crew>(turns: &Turns<L>, pass: &mut TurnPass<L>, call: MonitorCall) -> Started
    requires belongs { Belongs turns.now false pass.old.holding }
    ensures belongs { Belongs turns.now false pass.new.holding }
    ensures starts { Starts turns.now call result pass.old pass.new }
{
    if !is_idle(pass) {
        return Started::InCall;
    }
    match turns.start_on(pass, call) {
        Ok(Some(reply)) => Started::Said(reply),
        Ok(None) => Started::GoesOn,
        Err(fault) => Started::Fault(fault),
    }
}

// The start of a call of the pass of a member.
#[inline(always)]
fn start_at<L: Crew>(home: &Option<House<L>>, pass: &mut TurnPass<L>, call: MonitorCall) -> Started
    requires there { home.now ≡ Some pass.old.holding.words.opening }
    requires gate { pass.old.holding.words.has_gate ≡ false }
    ensures belongs { Belongs pass.old.holding.words.opening false pass.new.holding }
    ensures starts { Starts pass.old.holding.words.opening call result pass.old pass.new }
{
    match home {
        Some(house) => start(&house.turns, pass, call),
        None => unreachable!(),
    }
}

impl<L: Crew> Member<L> {
    // The start of a call.
    #[inline(always)]
    fn start(&mut self, call: MonitorCall) -> Started
        ensures { SeatStarts self.old call result (Some self.new) }
    {
        start_at(Deref::deref(&self.home), &mut self.pass, call)
    }
}

// The start of a call of a seat.
#[inline(always)]
fn started<L: Crew>(seat: &mut Seat<L>, call: MonitorCall) -> Started
    requires some { IsSome seat.old.member }
    ensures { (v : SeatState) × (q : SeatState) × (seat.old.member ≡ Some v)
        × (seat.new.member ≡ Some q) × SeatStarts v call result (Some q) }
{
    match &mut seat.member {
        Some(member) => member.start(call),
        None => unreachable!(),
    }
}

impl<L: Crew> Seat<L> {
    /// Starts a call on an object, of a seat that is taken apart, by its steps on the word of the
    /// object: a load, and an exchange or a store where the word calls for one. Where they are the
    /// whole call this is what [`serve`](Seat::serve) does with
    /// [`BeginOn`](crate::SeatOrder::BeginOn), but what is told of it is small. Where the call goes
    /// on, [`Turn`](crate::SeatOrder::Turn) does.
    #[inline(always)]
    pub fn start(seat: Parts<Seat<L>, Global>, call: MonitorCall) -> Begun<L>
        requires { IsSome seat.value.member }
        ensures { StartsKept seat.value.member call result.started result.seat.value }
    {
        let mut seat = seat.into_box();
        let started = started(&mut *seat, call);
        Begun {
            seat: MaybeParts::of(Parts::of(seat)),
            started,
        }
    }
}
