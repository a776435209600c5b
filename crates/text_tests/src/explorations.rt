//! Programs with more than one outcome, explored with want of memory: two threads that may come to
//! a deadlock, and a timed wait.

use super::deadlock::{
    DEADLOCK, DEADLOCK_HISTORIES, DEADLOCK_OF_THE_MACHINE, DEADLOCK_REPORT, DEADLOCK_SMALL,
};
use super::programs::{Explored, explores};
use super::timed_wait::{TIMED, TIMED_HISTORIES, TIMED_OF_THE_MACHINE, TIMED_REPORT, TIMED_SMALL};
use explore_runs::WitnessForm;
use std::alloc::Global;
use std::process::Abort;

fn explores_deadlock(rt: &impl Abort, alloc: Global) -> bool {
    explores(
        rt,
        alloc,
        DEADLOCK,
        Explored::Core(WitnessForm::Script),
        157,
        DEADLOCK_REPORT,
    )
}

#[test]
fn a_refused_exploration_of_a_deadlock_succeeds_when_tried_again(rt: HostRuntime) {
    assert!(rt; explores_deadlock(&rt, rt.alloc()) || explores_deadlock(&rt, rt.alloc()));
}

fn explores_deadlock_with_histories(rt: &impl Abort, alloc: Global) -> bool {
    explores(
        rt,
        alloc,
        DEADLOCK,
        Explored::Core(WitnessForm::History),
        157,
        DEADLOCK_HISTORIES,
    )
}

#[test]
fn a_refused_exploration_of_a_deadlock_with_histories_succeeds_when_tried_again(rt: HostRuntime) {
    assert!(rt;
        explores_deadlock_with_histories(&rt, rt.alloc())
            || explores_deadlock_with_histories(&rt, rt.alloc())
    );
}

fn explores_deadlock_on_the_machine(rt: &impl Abort, alloc: Global) -> bool {
    explores(
        rt,
        alloc,
        DEADLOCK_SMALL,
        Explored::Machine,
        33,
        DEADLOCK_OF_THE_MACHINE,
    )
}

#[test]
fn a_refused_exploration_of_a_deadlock_on_the_machine_succeeds_when_tried_again(rt: HostRuntime) {
    assert!(rt;
        explores_deadlock_on_the_machine(&rt, rt.alloc())
            || explores_deadlock_on_the_machine(&rt, rt.alloc())
    );
}

fn explores_timed(rt: &impl Abort, alloc: Global) -> bool {
    explores(
        rt,
        alloc,
        TIMED,
        Explored::Core(WitnessForm::Script),
        144,
        TIMED_REPORT,
    )
}

#[test]
fn a_refused_exploration_of_a_timed_wait_succeeds_when_tried_again(rt: HostRuntime) {
    assert!(rt; explores_timed(&rt, rt.alloc()) || explores_timed(&rt, rt.alloc()));
}

fn explores_timed_with_histories(rt: &impl Abort, alloc: Global) -> bool {
    explores(
        rt,
        alloc,
        TIMED,
        Explored::Core(WitnessForm::History),
        144,
        TIMED_HISTORIES,
    )
}

#[test]
fn a_refused_exploration_of_a_timed_wait_with_histories_succeeds_when_tried_again(rt: HostRuntime) {
    assert!(rt;
        explores_timed_with_histories(&rt, rt.alloc())
            || explores_timed_with_histories(&rt, rt.alloc())
    );
}

fn explores_timed_on_the_machine(rt: &impl Abort, alloc: Global) -> bool {
    explores(
        rt,
        alloc,
        TIMED_SMALL,
        Explored::Machine,
        22,
        TIMED_OF_THE_MACHINE,
    )
}

#[test]
fn a_refused_exploration_of_a_timed_wait_on_the_machine_succeeds_when_tried_again(rt: HostRuntime) {
    assert!(rt;
        explores_timed_on_the_machine(&rt, rt.alloc())
            || explores_timed_on_the_machine(&rt, rt.alloc())
    );
}
