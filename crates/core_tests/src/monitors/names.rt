//! What is written, and the numbers of causes.

use crate::texts::is_written;
use fat_monitor::{ActFault, Action, AttachFault, Backwards, Cause, Reply};

#[test]
fn names_and_faults_are_written_out(rt: HostRuntime) {
    const FAULTS: [(ActFault, &str); 3] = [
        (ActFault::Parked, "no reply is granted"),
        (ActFault::NotDue, "no wait of the thread is over"),
        (ActFault::NotWaiting, "the thread does not wait"),
    ];
    for (fault, text) in &FAULTS {
        assert!(rt; is_written(rt.alloc(), fault, text), "{text}");
    }
    let refused = Reply::Refused(Cause::TooDeep);
    let known = "the thread is attached already";
    assert!(rt; is_written(rt.alloc(), &refused, "Refused TooDeep"));
    assert!(rt; is_written(rt.alloc(), &Action::Enter { monitor: 0 }, "Enter"));
    assert!(rt; is_written(rt.alloc(), &AttachFault::Known, known));
    assert!(rt; is_written(rt.alloc(), &Backwards, "the moment would fall"));
}

#[test]
fn causes_have_numbers(rt: HostRuntime) {
    const ROWS: [(Cause, u8); 5] = [
        (Cause::NoMonitor, 11),
        (Cause::Memory, 12),
        (Cause::TooDeep, 13),
        (Cause::StillOwner, 14),
        (Cause::NoThread, 15),
    ];
    for &(cause, number) in &ROWS {
        assert!(rt; cause.number() == number);
    }
}
