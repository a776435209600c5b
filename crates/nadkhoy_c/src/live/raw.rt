//! A seat at a live service behind a pointer that C may keep.

ghost use Rattle.std.specs.Prelude.{◌≡◌, ◌≤◌, Option, Some, None, IsSome, length};
ghost use Rattle.live_seats.specs.Seats.{SeatState, HasOpened};
ghost use Rattle.nadkhoy_c.specs.Ends.{HasClosed};
ghost use Rattle.nadkhoy_c.specs.RawSeat.{Numbers, seat_owns, HasServed, HasStarted};

use crate::ends::RawEnd;
use c_slots::{MaybeParts, Parts};
use fast_path::MonitorCall;
use live_seats::{Begun, Closing, Draft, Ended, Opened, Seat, SeatOrder, Served, Started, Told};
use std::alloc::Global;
use std::marker::{Brand, Model};
use std::ptr;
use std::sync::ledger::Blank;

/// A boxed seat, or nothing. One that is dropped gives nothing back. The numbers of its crew were
/// picked when its service was opened.
#[repr(C)]
#[derive(Drop)]
pub struct RawSeat {
    at: *mut (),
    alloc: Global,
    pub ghost numbers: { Numbers },
    pub ghost value: { Option SeatState },
}

impl Model for RawSeat {
    ghost also_owns = { λ r. seat_owns r.numbers r.alloc r.at r.value };
}

/// The seat of a service that was opened, if there was memory for it.
#[derive(Drop)]
pub struct OpenedSeat {
    pub seat: RawSeat,
    /// Whether there is one.
    pub found: bool,
}

/// What came of an order: the seat afterwards, a new one if there is one, and what is told.
#[derive(Drop)]
pub struct Answered {
    pub seat: RawSeat,
    pub other: RawSeat,
    pub told: Told,
}

/// What came of the start of a call.
#[derive(Drop)]
pub struct StartedSeat {
    pub seat: RawSeat,
    pub started: Started,
}

/// What came of a close: the seat afterwards if it is not gone, the end of the service if it was
/// closed, and what is told.
#[derive(Drop)]
pub struct Finished {
    pub seat: RawSeat,
    pub end: RawEnd,
    pub told: Closing,
}

impl RawSeat {
    /// Opens a service. There is no seat only where the system refused memory.
    pub fn open(alloc: Global, blank: Blank, draft: Draft) -> OpenedSeat
        requires parts { blank.parts ≡ draft.passes }
        requires objects { length draft.lows.items ≤ 65535 }
        requires some { 1 ≤ draft.passes }
        requires few { draft.passes ≤ 64 }
        requires monitors { draft.monitors ≤ 8388608 }
        ensures { HasOpened draft result.found result.seat.value }
    {
        let Opened { seat, found } = Seat::<Brand>::open(alloc, blank, draft);
        let MaybeParts { ptr, alloc } = seat;
        OpenedSeat {
            seat: RawSeat {
                at: ptr as *mut (),
                alloc,
            },
            found,
        }
    }

    /// Carries out an order of a seat.
    pub fn serve(self, alloc: Global, order: SeatOrder) -> Answered
        requires { IsSome self.value }
        ensures { HasServed self.value order result.told result.seat.value result.other.value }
    {
        let RawSeat { at, alloc: heap } = self;
        let ptr = at as *mut Seat<Brand>;
        let Served { seat, other, told } = Seat::<Brand>::serve(
            alloc,
            Parts { ptr, alloc: heap },
            order,
        );
        let MaybeParts {
            ptr: at,
            alloc: heap,
        } = seat;
        let MaybeParts {
            ptr: next,
            alloc: with,
        } = other;
        Answered {
            seat: RawSeat {
                at: at as *mut (),
                alloc: heap,
            },
            other: RawSeat {
                at: next as *mut (),
                alloc: with,
            },
            told,
        }
    }

    /// Starts a call on an object, by its steps on the word of the object.
    #[inline(always)]
    pub fn start(self, call: MonitorCall) -> StartedSeat
        requires { IsSome self.value }
        ensures { HasStarted self.value call result.started result.seat.value }
    {
        let RawSeat { at, alloc: heap } = self;
        let ptr = at as *mut Seat<Brand>;
        let Begun { seat, started } = Seat::<Brand>::start(Parts { ptr, alloc: heap }, call);
        let MaybeParts {
            ptr: at,
            alloc: heap,
        } = seat;
        StartedSeat {
            seat: RawSeat {
                at: at as *mut (),
                alloc: heap,
            },
            started,
        }
    }

    /// Closes the service of a seat.
    pub fn close(self, alloc: Global) -> Finished
        requires { IsSome self.value }
        ensures { HasClosed self.value result.told result.seat.value result.end.value }
    {
        let RawSeat { at, alloc: heap } = self;
        let ptr = at as *mut Seat<Brand>;
        let Ended { seat, end, told } = Seat::<Brand>::close(alloc, Parts { ptr, alloc: heap });
        let MaybeParts {
            ptr: at,
            alloc: heap,
        } = seat;
        let MaybeParts {
            ptr: made,
            alloc: with,
        } = end;
        Finished {
            seat: RawSeat {
                at: at as *mut (),
                alloc: heap,
            },
            end: RawEnd {
                at: made as *mut (),
                alloc: with,
            },
            told,
        }
    }

    /// No seat: the pointer is null.
    pub fn none(alloc: Global) -> RawSeat
        ensures { result.value ≡ None }
    {
        RawSeat {
            at: ptr::null_mut(),
            alloc,
        }
    }
}
