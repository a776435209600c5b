//! Orders that a pass carries out by one turn.

ghost use Rattle.std.specs.Prelude.{◌≡◌, false, true};
ghost use Rattle.live_turns.specs.Points.{standing_of};
ghost use Rattle.live_turns.specs.Ways.{Belongs};
ghost use Rattle.step_core.specs.declared.places.Place.TheVariants.{Idle};
ghost use Rattle.step_core.specs.declared.paths.Point.TheVariants.{At};
ghost use Rattle.live_seats.specs.Seats.{IsOfPass, Serves};
ghost use Rattle.live_seats.specs.declared.orders.SeatOrder.TheVariants.{BeginOn, BeginAbout, Turn, Tick};

use crate::orders::{SeatOrder, Told};
use fast_path::{InterruptCall, MonitorCall};
use live_turns::{Crew, TurnPass, Turned, Turns};
use step_core::{Place, Point};

#[inline(always)]
pub(crate) fn is_idle<L: Crew>(pass: &TurnPass<L>) -> bool
    ensures idle { result ≡ true → pass.now.point ≡ At Idle }
    ensures busy { result ≡ false → pass.now.point ≡ At Idle → ⊥ }
{
    match pass.point() {
        Point::At(Place::Idle) => true,
        _ => false,
    }
}

// What a turn came to.
fn told(turned: Turned) -> Told
    ensures { result ≡ Told.Turned (standing_of turned) turned.granted }
{
    Told::Turned {
        standing: turned.standing(),
        granted: turned.granted,
    }
}

// The turn of a call on an object that its start has not ended.
#[inline(never)]
fn go_on<L: Crew>(turns: &Turns<L>, pass: &mut TurnPass<L>) -> Told
    requires belongs { Belongs turns.now false pass.old.holding }
    requires calling { pass.old.point ≡ At Idle → ⊥ }
    ensures belongs { Belongs turns.now false pass.new.holding }
    ensures serves { Serves turns.now Turn result pass.old pass.new }
{
    match turns.turn(pass) {
        Ok(turned) => told(turned),
        Err(fault) => Told::Fault(fault),
    }
}

// The first turn of a call on an object.
fn begin_on<L: Crew>(turns: &Turns<L>, pass: &mut TurnPass<L>, call: MonitorCall) -> Told
    requires belongs { Belongs turns.now false pass.old.holding }
    ensures belongs { Belongs turns.now false pass.new.holding }
    ensures serves { Serves turns.now (BeginOn call) result pass.old pass.new }
{
    if !is_idle(pass) {
        return Told::InCall;
    }
    match turns.begin_on(pass, call) {
        Ok(turned) => told(turned),
        Err(fault) => Told::Fault(fault),
    }
}

// The first turn of a call about interrupts.
fn begin_about<L: Crew>(turns: &Turns<L>, pass: &mut TurnPass<L>, call: InterruptCall) -> Told
    requires belongs { Belongs turns.now false pass.old.holding }
    ensures belongs { Belongs turns.now false pass.new.holding }
    ensures serves { Serves turns.now (BeginAbout call) result pass.old pass.new }
{
    if !is_idle(pass) {
        return Told::InCall;
    }
    match turns.begin_about(pass, call) {
        Ok(turned) => told(turned),
        Err(fault) => Told::Fault(fault),
    }
}

// One more turn.
fn turn<L: Crew>(turns: &Turns<L>, pass: &mut TurnPass<L>) -> Told
    requires belongs { Belongs turns.now false pass.old.holding }
    ensures belongs { Belongs turns.now false pass.new.holding }
    ensures serves { Serves turns.now Turn result pass.old pass.new }
{
    if is_idle(pass) {
        return Told::NotCalling;
    }
    go_on(turns, pass)
}

// Tells the moment.
fn tick<L: Crew>(turns: &Turns<L>, pass: &mut TurnPass<L>, now: u64) -> Told
    requires belongs { Belongs turns.now false pass.old.holding }
    ensures belongs { Belongs turns.now false pass.new.holding }
    ensures serves { Serves turns.now (Tick now) result pass.old pass.new }
{
    if !is_idle(pass) {
        return Told::InCall;
    }
    match turns.tick(pass, now) {
        Ok(told) => Told::Ticked(told),
        Err(fault) => Told::Fault(fault),
    }
}

/// What a pass does at an order that it carries out itself.
pub(crate) fn carry_out<L: Crew>(turns: &Turns<L>, pass: &mut TurnPass<L>, order: SeatOrder) -> Told
    requires belongs { Belongs turns.now false pass.old.holding }
    requires own { IsOfPass order }
    ensures belongs { Belongs turns.now false pass.new.holding }
    ensures serves { Serves turns.now order result pass.old pass.new }
{
    match order {
        SeatOrder::BeginOn(call) => begin_on(turns, pass, call),
        SeatOrder::BeginAbout(call) => begin_about(turns, pass, call),
        SeatOrder::Turn => turn(turns, pass),
        SeatOrder::Tick(now) => tick(turns, pass, now),
        SeatOrder::Thread => Told::Thread(pass.thread()),
        SeatOrder::Share | SeatOrder::Leave => unreachable!(),
    }
}
