//! A world behind a pointer that C may keep.

ghost use Rattle.std.specs.Prelude.{◌≡◌, Option, Some, None, IsSome};
ghost use Rattle.std.specs.Coded.{coded_option};
ghost use Rattle.nadkhoy_c.specs.Raw.{world_owns, Value};
ghost use Rattle.step_core.specs.contracts.worlds.World.{the_row};

use c_slots::Parts;
use std::alloc::Global;
use std::marker::Model;
use std::ptr;
use step_core::World;

/// A boxed world, or nothing. One that is dropped gives nothing back.
#[repr(C)]
#[derive(Drop)]
pub struct RawWorld {
    at: *mut (),
    alloc: Global,
    pub ghost value: { Option Value } by { coded_option the_row.coded },
}

impl Model for RawWorld {
    ghost also_owns = { λ r. world_owns r.alloc r.at r.value };
}

impl RawWorld {
    /// The world of a box.
    pub fn of_parts(parts: Parts<World, Global>) -> RawWorld
        ensures { result.value ≡ Some parts.value }
    {
        let Parts { ptr, alloc } = parts;
        RawWorld {
            at: ptr as *mut (),
            alloc,
        }
    }

    /// The box of the world.
    pub fn into_parts(self) -> Parts<World, Global>
        requires { IsSome self.value }
        ensures { self.value ≡ Some result.value }
    {
        let RawWorld { at, alloc } = self;
        Parts {
            ptr: at as *mut World,
            alloc,
        }
    }

    /// No world: the pointer is null.
    pub fn none(alloc: Global) -> RawWorld
        ensures { result.value ≡ None }
    {
        RawWorld {
            at: ptr::null_mut(),
            alloc,
        }
    }
}
