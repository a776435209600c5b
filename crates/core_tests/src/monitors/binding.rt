//! Monitors that are bound.

ghost use Rattle.std.specs.Prelude.{◌<◌};
ghost use Rattle.fat_monitor.specs.FatState.{thread_count};

use crate::monitors::{Ask, OBJECT, SEVEN, attach_both, binds};
use fat_monitor::{Cause, Fats};

pub(super) const RECEIPT: [Ask; 3] = [
    Ask::Binds(3, Ok(0)),
    Ask::Shows(0, Some(OBJECT), Some(SEVEN), 3),
    Ask::Binds(1, Err(Cause::NoMonitor)),
];

pub(super) const RESERVED: [Ask; 5] = [
    Ask::Reserves(1),
    Ask::Reserves(0),
    Ask::HasSpare(1),
    Ask::Binds(3, Ok(0)),
    Ask::HasSpare(0),
];

/// The first bind that does not get the next monitor, of a million.
fn first_other_bind(fats: &mut Fats) -> Option<usize> {
    for number in 0..1_000_000 {
        if !binds(fats, 1, Ok(number)) {
            return Some(number as usize);
        }
    }
    None
}

/// Whether a million are bound, and one more is refused.
fn binds_a_million(fats: &mut Fats) -> bool
    requires { thread_count fats.old < 50 }
{
    attach_both(fats) && first_other_bind(fats) == None && binds(fats, 1, Err(Cause::NoMonitor))
}

#[test]
fn a_million_monitors_are_bound(rt: HostRuntime) {
    let mut fats = Fats::new(rt.alloc(), 1_000_000);
    assert!(rt; binds_a_million(&mut fats));
}
