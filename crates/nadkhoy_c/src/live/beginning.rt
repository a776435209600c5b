//! How a call begins. An enter or an exit that has its reply at once passes on no more than that.

ghost use Rattle.std.specs.Prelude.{◌≡◌, None, IsSome};
ghost use Rattle.live_seats.specs.Seats.{IsOfPass};
ghost use Rattle.live_seats.specs.declared.orders.SeatOrder.TheVariants as order;
ghost use Rattle.nadkhoy_c.specs.Live.{Answers, HasAnswered, order_from_numbers, turned_out};

use super::raw::{RawSeat, StartedSeat};
use super::slot::LiveSlot;
use super::telling::{order_of, started_status, told_status, write_said, write_turned};
use crate::plain::{PlainCall, PlainTurned};
use crate::status::Status;
use fast_path::MonitorCall;
use live_seats::{SeatOrder, Started};
use std::alloc::Global;

// An order that the pass of a seat carries out, for an empty slot: what is answered of it.
fn carry_out(
    alloc: Global,
    slot: &mut LiveSlot,
    seat: RawSeat,
    order: SeatOrder,
    turned: &mut PlainTurned,
) -> u32
    requires seat { IsSome seat.value }
    requires own { IsOfPass order }
    ensures { HasAnswered turned_out order seat.value turned.old result
        slot.new.raw.value turned.new }
{
    let answered = seat.serve(alloc, order);
    *slot = LiveSlot::of(alloc, answered.seat);
    write_turned(answered.told, turned);
    told_status(answered.told)
}

/// One more turn of a call, for an empty slot. This is a function of its own, so that a call that
/// has its reply at once has nothing of it.
#[inline(never)]
pub(crate) fn take_turn(
    alloc: Global,
    slot: &mut LiveSlot,
    seat: RawSeat,
    turned: &mut PlainTurned,
) -> u32
    requires seat { IsSome seat.value }
    ensures { HasAnswered turned_out order.Turn seat.value turned.old result
        slot.new.raw.value turned.new }
{
    carry_out(alloc, slot, seat, SeatOrder::Turn, turned)
}

/// Any call, for an empty slot, if the numbers name one.
#[inline(never)]
pub(crate) fn begin_other(
    alloc: Global,
    slot: &mut LiveSlot,
    seat: RawSeat,
    call: &PlainCall,
    turned: &mut PlainTurned,
) -> u32
    requires seat { IsSome seat.value }
    ensures { Answers turned_out (order_from_numbers call.now) seat.value turned.old result
        slot.new.raw.value turned.new }
{
    let Some(order) = order_of(call) else {
        *slot = LiveSlot::of(alloc, seat);
        return Status::NoStep.number();
    };
    carry_out(alloc, slot, seat, order, turned)
}

/// An enter or an exit, for an empty slot: its start, and where that has not ended it, one turn
/// more.
#[inline(always)]
pub(crate) fn begin_lock(
    alloc: Global,
    slot: &mut LiveSlot,
    seat: RawSeat,
    call: MonitorCall,
    turned: &mut PlainTurned,
) -> u32
    requires seat { IsSome seat.value }
    ensures { HasAnswered turned_out (order.BeginOn call) seat.value turned.old result
        slot.new.raw.value turned.new }
{
    let StartedSeat { seat, started } = seat.start(call);
    if let Started::GoesOn = started {
        return take_turn(alloc, slot, seat, turned);
    }
    *slot = LiveSlot::of(alloc, seat);
    write_said(started, turned);
    started_status(started)
}
