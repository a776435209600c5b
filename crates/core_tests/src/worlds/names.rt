//! How a report names a fault.

use crate::texts::is_written;
use step_core::{Fault, RelayoutFault};

#[test]
fn faults_have_numbers_and_names(rt: HostRuntime) {
    const FAULTS: [(Fault, u8, &str); 11] = [
        (Fault::NoIndex, 1, "NoIndex"),
        (Fault::Memory, 2, "Memory"),
        (Fault::Known, 3, "Known"),
        (Fault::NoThread, 4, "NoThread"),
        (Fault::NoObject, 5, "NoObject"),
        (Fault::InCall, 6, "InCall"),
        (Fault::NotCalling, 7, "NotCalling"),
        (Fault::Parked, 8, "Parked"),
        (Fault::NotDue, 9, "NotDue"),
        (Fault::Backwards, 10, "Backwards"),
        (Fault::NotWaiting, 28, "NotWaiting"),
    ];
    for (fault, number, name) in &FAULTS {
        let is_named = fault.number() == *number && is_written(rt.alloc(), fault, name);
        assert!(rt; is_named, "{name}");
    }
}

#[test]
fn faults_of_a_relayout_have_numbers_and_names(rt: HostRuntime) {
    const FAULTS: [(RelayoutFault, u8, &str); 4] = [
        (RelayoutFault::Memory, 2, "Memory"),
        (RelayoutFault::NoMonitor, 11, "NoMonitor"),
        (RelayoutFault::NotAtRest, 29, "NotAtRest"),
        (RelayoutFault::IndexTooWide, 30, "IndexTooWide"),
    ];
    for (fault, number, name) in &FAULTS {
        let is_named = fault.number() == *number && is_written(rt.alloc(), fault, name);
        assert!(rt; is_named, "{name}");
    }
}
