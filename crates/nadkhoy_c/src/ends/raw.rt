//! The end of a live service behind a pointer that C may keep.

ghost use Rattle.std.specs.Prelude.{◌≡◌, Option, Some, None, IsSome};
ghost use Rattle.std.specs.Coded.{coded_option};
ghost use Rattle.nadkhoy_c.specs.RawEnd.{end_owns, EndValue};
ghost use Rattle.live_seats.specs.contracts.ending.ServiceEnd.{the_row};

use c_slots::Parts;
use live_seats::ServiceEnd;
use std::alloc::Global;
use std::marker::Model;
use std::ptr;

/// The boxed end of a service, or nothing. One that is dropped gives nothing back.
#[repr(C)]
#[derive(Drop)]
pub struct RawEnd {
    pub(crate) at: *mut (),
    pub(crate) alloc: Global,
    pub ghost value: { Option EndValue } by { coded_option the_row.coded },
}

impl Model for RawEnd {
    ghost also_owns = { λ r. end_owns r.alloc r.at r.value };
}

impl RawEnd {
    /// The end in a box.
    pub fn of_parts(parts: Parts<ServiceEnd, Global>) -> RawEnd
        ensures { result.value ≡ Some parts.value }
    {
        let Parts { ptr, alloc } = parts;
        RawEnd {
            at: ptr as *mut (),
            alloc,
        }
    }

    /// The box of the end.
    pub fn into_parts(self) -> Parts<ServiceEnd, Global>
        requires { IsSome self.value }
        ensures { self.value ≡ Some result.value }
    {
        let RawEnd { at, alloc } = self;
        Parts {
            ptr: at as *mut ServiceEnd,
            alloc,
        }
    }

    /// No end: the pointer is null.
    pub fn none(alloc: Global) -> RawEnd
        ensures { result.value ≡ None }
    {
        RawEnd {
            at: ptr::null_mut(),
            alloc,
        }
    }
}
