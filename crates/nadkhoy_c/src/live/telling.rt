//! What a seat tells, as numbers, and which order a call is.

ghost use Rattle.std.specs.Prelude.{◌≡◌, IfSome, Some, None};
ghost use Rattle.live_seats.specs.Seats.{told_of};
ghost use Rattle.live_seats.specs.declared.orders.SeatOrder.TheVariants.{BeginOn};
ghost use Rattle.live_turns.specs.declared.standings.Standing.TheVariants.{Said};
ghost use Rattle.nadkhoy_c.specs.Live.{plain_turned, told_status, turned_out, number_out, order_from_numbers, standing_number, granted_number};

use crate::plain::{PlainCall, PlainTurned};
use crate::reading::call_of;
use crate::status::Status;
use crate::writing::{cause_of, reply_number};
use fast_path::{MonitorCall, Operation, Subject};
use fat_monitor::Reply;
use live_seats::{SeatOrder, Started, Told};
use live_turns::Standing;
use step_core::{ObjectId, ThreadId};

/// The order that begins the call that the numbers name; None where they name none, or the end of a
/// thread, which a live service does not have.
pub(crate) fn order_of(plain: &PlainCall) -> Option<SeatOrder>
    ensures { result ≡ order_from_numbers plain.now }
{
    match call_of(plain)?.subject() {
        Subject::Monitor(call) => Some(SeatOrder::BeginOn(call)),
        Subject::Interrupt(call) => Some(SeatOrder::BeginAbout(call)),
        Subject::End => None,
    }
}

/// The call that the numbers name, if it enters or exits.
#[inline(always)]
pub(crate) fn lock_call(plain: &PlainCall) -> Option<MonitorCall>
    ensures { IfSome result (λ c. order_from_numbers plain.now ≡ Some (BeginOn c)) }
{
    let operation = match plain.kind {
        1 => Operation::Enter,
        2 => Operation::Exit,
        _ => return None,
    };
    let object = ObjectId(plain.target);
    Some(MonitorCall { object, operation })
}

fn standing_number(standing: Standing) -> u32
    ensures { result ≡ standing_number standing }
{
    match standing {
        Standing::Said(_) => 1,
        Standing::Contended => 2,
        Standing::GateTaken => 3,
        Standing::Parked => 4,
    }
}

fn granted_number(granted: Option<ThreadId>) -> u32
    ensures { result ≡ granted_number granted }
{
    match granted {
        Some(thread) => thread.0,
        None => 0,
    }
}

// What a turn came to, as numbers.
fn plain_turned(standing: Standing, granted: Option<ThreadId>) -> PlainTurned
    ensures { result ≡ plain_turned standing granted }
{
    let (reply, cause) = match standing {
        Standing::Said(reply) => (reply_number(reply), cause_of(reply)),
        _ => (0, 0),
    };
    PlainTurned {
        standing: standing_number(standing),
        reply,
        cause,
        granted: granted_number(granted),
    }
}

/// The status of what a seat tells.
pub(crate) fn told_status(told: Told) -> u32
    ensures { result ≡ told_status told }
{
    match told {
        Told::InCall => 6,
        Told::NotCalling => 7,
        Told::Fault(fault) => u32::from(fault.number()),
        Told::NoPass => Status::NoPass.number(),
        Told::Memory => Status::Memory.number(),
        Told::Turned { .. } | Told::Ticked(_) | Told::Thread(_) | Told::Shared | Told::Left => {
            Status::Done.number()
        }
    }
}

/// Writes what a turn came to, if one was taken.
pub(crate) fn write_turned(told: Told, turned: &mut PlainTurned)
    ensures { turned.new ≡ turned_out told turned.old }
{
    if let Told::Turned { standing, granted } = told {
        *turned = plain_turned(standing, granted);
    }
}

/// Writes whether the moment was told, or the number of a thread, if that is what a seat tells.
pub(crate) fn write_number(told: Told, number: &mut u32)
    ensures { number.new ≡ number_out told number.old }
{
    match told {
        Told::Ticked(told) => *number = u32::from(told),
        Told::Thread(thread) => *number = thread.0,
        _ => {}
    }
}

// A call that has its reply, as numbers.
#[inline(always)]
fn plain_said(reply: Reply) -> PlainTurned
    ensures { result ≡ plain_turned (Said reply) None }
{
    PlainTurned {
        standing: 1,
        reply: reply_number(reply),
        cause: cause_of(reply),
        granted: 0,
    }
}

/// Writes what the start of a call came to, if that is its reply.
#[inline(always)]
pub(crate) fn write_said(started: Started, turned: &mut PlainTurned)
    ensures { turned.new ≡ turned_out (told_of started) turned.old }
{
    if let Started::Said(reply) = started {
        *turned = plain_said(reply);
    }
}

/// The status of what the start of a call came to; that of a call that goes on is not told.
#[inline(always)]
pub(crate) fn started_status(started: Started) -> u32
    ensures { result ≡ told_status (told_of started) }
{
    match started {
        Started::Said(_) => Status::Done.number(),
        Started::GoesOn => 7,
        Started::InCall => 6,
        Started::Fault(fault) => u32::from(fault.number()),
    }
}
