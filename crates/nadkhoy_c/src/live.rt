//! The live service for programs in C: seats at a service, each in a slot of its own, that several
//! threads of the system may use at once.

ghost use Rattle.std.specs.Prelude.{◌≡◌, ◌≤◌, Option, Some, None, length};
ghost use Rattle.live_seats.specs.Ends.{Closes};
ghost use Rattle.live_seats.specs.declared.ending.ServiceEnd.{ServiceEnd};
ghost use Rattle.live_seats.specs.Seats.{SeatState, Shares};
ghost use Rattle.live_seats.specs.declared.orders.SeatOrder.TheVariants as order;
ghost use Rattle.nadkhoy_c.specs.Ends.{ClosesSeat, HasClosed};
ghost use Rattle.nadkhoy_c.specs.Live.{Answers, AnswersMissing, IsNewService, Opens, SharesSeat, leave_status, order_from_numbers, turned_out, number_out};
ghost use Rattle.nadkhoy_c.specs.RawSeat.{HasServed};

mod beginning;
mod raw;
mod slot;
mod telling;

use crate::ends::{EndSlot, RawEnd, closing_status};
use crate::plain::{PlainCall, PlainTurned};
use crate::status::Status;
use beginning::{begin_lock, begin_other, take_turn};
use live_seats::{Closing, Draft, SeatOrder, Told};
pub use raw::{Answered, Finished, OpenedSeat, RawSeat, StartedSeat};
pub use slot::LiveSlot;
use std::alloc::Global;
use std::sync::ledger::Blank;
use telling::{lock_call, told_status, write_number};

// Opens a service in an empty slot, where the sizes are in range.
fn open(
    alloc: Global,
    lows: &[u8],
    monitors: u32,
    passes: u16,
    places: u32,
    slot: &mut LiveSlot,
) -> u32
    requires empty { slot.old.raw.value ≡ None }
    requires objects { length lows.now ≤ 65535 }
    requires some { 1 ≤ passes }
    requires few { passes ≤ 64 }
    requires monitors { monitors ≤ 8388608 }
    ensures { IsNewService lows.now monitors passes result slot.new.raw.value }
{
    let Ok(lows) = lows.to_vec(alloc) else {
        return Status::Memory.number();
    };
    let draft = Draft {
        lows,
        monitors,
        passes,
        places,
    };
    let started = RawSeat::open(alloc, Blank::new(u64::from(passes)), draft);
    if !started.found {
        return Status::Memory.number();
    }
    *slot = LiveSlot::of(alloc, started.seat);
    Status::Done.number()
}

/// Opens a service with a free object for each low byte, 0 to 65,535 of them; with at most
/// `monitors` fat monitors, 0 to 8,388,608; with passes for the threads 1 to `passes`, 1 to 64;
/// with a record of `places` places, 0 to 1,048,576. The slot is to be empty: it has a seat of the
/// thread `passes` then, to which the other passes are left.
///
/// Answers the first of InUse, Range and Memory that holds, or Done.
#[unsafe(no_mangle)]
pub extern "C" fn nadkhoy_live_open(
    alloc: Global,
    lows: &[u8],
    monitors: u32,
    passes: u16,
    places: u32,
    slot: &mut LiveSlot,
) -> u32
    ensures { Opens slot.old.raw.value lows.now monitors passes places result slot.new.raw.value }
{
    if slot.is_full() {
        return Status::InUse.number();
    }
    if lows.len() > 65_535
        || monitors > 8_388_608
        || passes < 1
        || passes > 64
        || places > 1_048_576
    {
        return Status::Range.number();
    }
    open(alloc, lows, monitors, passes, places, slot)
}

// Puts a new seat into an empty slot, if there is one.
fn put_seat(alloc: Global, slot: &mut LiveSlot, told: Told, seat: RawSeat)
    requires empty { slot.old.raw.value ≡ None }
    requires shares { (v : SeatState) × (q : Option SeatState) × Shares v told q seat.value }
    ensures { slot.new.raw.value ≡ seat.value }
{
    match told {
        Told::Shared => *slot = LiveSlot::of(alloc, seat),
        Told::InCall | Told::NotCalling | Told::Turned { .. } | Told::Ticked(_) | Told::Fault(_) =>
            {}
        Told::Thread(_) | Told::NoPass | Told::Memory | Told::Left => {}
    }
}

/// Makes a seat of the same service in an empty slot, with the highest pass that is left to the
/// seat.
///
/// Answers Closed, InUse where the other slot is full, NoPass, Memory or Done.
#[unsafe(no_mangle)]
pub extern "C" fn nadkhoy_live_share(
    alloc: Global,
    slot: &mut LiveSlot,
    other: &mut LiveSlot,
) -> u32
    ensures { SharesSeat slot.old.raw.value other.old.raw.value result
        slot.new.raw.value other.new.raw.value }
{
    let Some(seat) = slot.take(alloc) else {
        return Status::Closed.number();
    };
    if other.is_full() {
        *slot = LiveSlot::of(alloc, seat);
        return Status::InUse.number();
    }
    let Answered {
        seat,
        other: next,
        told,
    } = seat.serve(alloc, SeatOrder::Share);
    *slot = LiveSlot::of(alloc, seat);
    put_seat(alloc, other, told, next);
    told_status(told)
}

/// Begins a call and takes its first turn. It does at once all that can be done at once, and never
/// waits.
///
/// Answers Closed, NoStep where the numbers name no call or an end, 6 (InCall) where the seat is in
/// a call, the fault of the live service that ended the call, or Done, and writes only then.
#[unsafe(no_mangle)]
pub extern "C" fn nadkhoy_live_begin(
    alloc: Global,
    slot: &mut LiveSlot,
    call: &PlainCall,
    turned: &mut PlainTurned,
) -> u32
    ensures answers { Answers turned_out (order_from_numbers call.now) slot.old.raw.value
        turned.old result slot.new.raw.value turned.new }
    ensures missing { AnswersMissing (order_from_numbers call.now) slot.old.raw.value result }
{
    let Some(seat) = slot.take(alloc) else {
        return Status::Closed.number();
    };
    match lock_call(call) {
        Some(call) => begin_lock(alloc, slot, seat, call, turned),
        None => begin_other(alloc, slot, seat, call, turned),
    }
}

/// Takes one more turn of the call that the seat is in.
///
/// Answers Closed, 7 (NotCalling) where it is in none, the fault that ended the call, or Done, and
/// writes only then.
#[unsafe(no_mangle)]
pub extern "C" fn nadkhoy_live_turn(
    alloc: Global,
    slot: &mut LiveSlot,
    turned: &mut PlainTurned,
) -> u32
    ensures { Answers turned_out (Some order.Turn) slot.old.raw.value turned.old result
        slot.new.raw.value turned.new }
{
    let Some(seat) = slot.take(alloc) else {
        return Status::Closed.number();
    };
    take_turn(alloc, slot, seat, turned)
}

/// Tells the moment, in nanoseconds, and writes 1; or 0 where another seat has the gate, and
/// nothing was done.
///
/// Answers Closed, 6 (InCall) where the seat is in a call, the fault for which the moment was not
/// told, or Done, and writes only then.
#[unsafe(no_mangle)]
pub extern "C" fn nadkhoy_live_tick(
    alloc: Global,
    slot: &mut LiveSlot,
    now: u64,
    told: &mut u32,
) -> u32
    ensures { Answers number_out (Some (order.Tick now)) slot.old.raw.value told.old result
        slot.new.raw.value told.new }
{
    let Some(seat) = slot.take(alloc) else {
        return Status::Closed.number();
    };
    let answered = seat.serve(alloc, SeatOrder::Tick(now));
    *slot = LiveSlot::of(alloc, answered.seat);
    write_number(answered.told, told);
    told_status(answered.told)
}

/// Writes the number of the thread as which the seat makes its calls.
///
/// Answers Closed or Done.
#[unsafe(no_mangle)]
pub extern "C" fn nadkhoy_live_thread(alloc: Global, slot: &mut LiveSlot, thread: &mut u32) -> u32
    ensures { Answers number_out (Some order.Thread) slot.old.raw.value thread.old result
        slot.new.raw.value thread.new }
{
    let Some(seat) = slot.take(alloc) else {
        return Status::Closed.number();
    };
    let answered = seat.serve(alloc, SeatOrder::Thread);
    *slot = LiveSlot::of(alloc, answered.seat);
    write_number(answered.told, thread);
    told_status(answered.told)
}

/// Gives the seat up, and leaves the slot empty. Its pass goes back to the service, with those that
/// are left to it. The last one who leaves gives back what the service took.
///
/// Answers Closed or Done.
#[unsafe(no_mangle)]
pub extern "C" fn nadkhoy_live_leave(alloc: Global, slot: &mut LiveSlot) -> u32
    ensures status { result ≡ leave_status slot.old.raw.value }
    ensures empty { slot.new.raw.value ≡ None }
{
    match slot.take(alloc) {
        Some(seat) => told_status(seat.serve(alloc, SeatOrder::Leave).told),
        None => Status::Closed.number(),
    }
}

// Puts a seat back into an empty slot, if it is there.
fn put_back(alloc: Global, slot: &mut LiveSlot, told: Closing, seat: RawSeat)
    requires empty { slot.old.raw.value ≡ None }
    requires closes { (v : SeatState) × (e : Option ServiceEnd) × Closes v told seat.value e }
    ensures { slot.new.raw.value ≡ seat.value }
{
    match told {
        Closing::Others | Closing::WrongPass | Closing::Memory => {
            *slot = LiveSlot::of(alloc, seat);
        }
        Closing::Done | Closing::Torn => {}
    }
}

// Puts the end of a service into an empty slot, if it was closed.
fn put_end(slot: &mut EndSlot, told: Closing, end: RawEnd)
    requires empty { slot.old.raw.value ≡ None }
    requires closes { (v : SeatState) × (q : Option SeatState) × Closes v told q end.value }
    ensures { slot.new.raw.value ≡ end.value }
{
    match told {
        Closing::Done => *slot = EndSlot::of(end),
        Closing::Others | Closing::WrongPass | Closing::Memory | Closing::Torn => {}
    }
}

/// Closes the service of a seat, where there is no other seat, and puts its words, its record and
/// its counts into `end`, which is empty; the slot of the seat is empty then.
///
/// Answers Closed, InUse where `end` is full, OtherSeats where there are other seats, WrongPass
/// where passes are missing, Memory, 18 (Torn) where a pass is torn, or Done. Where it answers 18
/// the seat is gone. After WrongPass and Memory it may have more passes left to it, and after the
/// other refusals it is as it was.
#[unsafe(no_mangle)]
pub extern "C" fn nadkhoy_live_close(alloc: Global, slot: &mut LiveSlot, end: &mut EndSlot) -> u32
    ensures { ClosesSeat slot.old.raw.value end.old.raw.value result
        slot.new.raw.value end.new.raw.value }
{
    let Some(seat) = slot.take(alloc) else {
        return Status::Closed.number();
    };
    if end.is_full() {
        *slot = LiveSlot::of(alloc, seat);
        return Status::InUse.number();
    }
    let Finished {
        seat,
        end: made,
        told,
    } = seat.close(alloc);
    put_back(alloc, slot, told, seat);
    put_end(end, told, made);
    closing_status(told)
}
