//! Two works that are driven.

ghost use Rattle.std.specs.Prelude.{◌≡◌, ◌≤◌, IfOk, length};
ghost use Rattle.std.specs.List.{All};
ghost use Rattle.live_threads.specs.Driving.{IsLive, CanDrive};

use crate::threads::{OBJECT, close_both, open_two};
use fast_path::Call;
use fat_monitor::Reply;
use live_threads::{Gate, Live, LivePass, Work, Worked, drive};
use live_turns::{Crew, LiveFault};
use lock_word::{Memory, Word};
use std::alloc::Global;
use std::marker::Brand;
use std::process::Abort;
use std::sync::Wait;
use std::sync::atomic::{AtomicBool, Ordering};
use std::sync::ledger::Blank;
use std::test::Fail;
use std::thread::{Threads, yield_now};
use std::time::Clock;

/// What the calls of a worker are to come to, and whether it is to be stopped.
#[derive(Clone, Copy)]
struct Outcome<'a> {
    answers: &'a [Result<Reply, LiveFault>],
    stopped: bool,
}

/// Drives two works, and hands out what came of each.
fn drive_both<L: Crew + Send + Sync, G: Gate + Sync, R: Threads + Wait + Clock + Sync>(
    rt: &R,
    alloc: Global,
    live: &Live<L>,
    gate: &G,
    works: (Work<L>, Work<L>),
) -> Result<(Worked<L>, Worked<L>), Fail>
    requires first { CanDrive live.now works.0 }
    requires second { CanDrive live.now works.1 }
    ensures first { IfOk result (λ r. r.0.pass.words.opening ≡ live.entry.now) }
    ensures second { IfOk result (λ r. r.1.pass.words.opening ≡ live.entry.now) }
{
    let works = vec![in alloc; works.0, works.1]?;
    let Ok(mut worked) = drive(rt, alloc, live, works, gate) else {
        return Err(Fail::from("memory"));
    };
    let Some(second) = worked.pop() else {
        return Err(Fail::from("two works"));
    };
    let Some(first) = worked.pop() else {
        return Err(Fail::from("two works"));
    };
    Ok((first, second))
}

/// A worker came to this outcome. Hands out its pass.
fn came_to<L: Crew>(rt: &impl Abort, worked: Worked<L>, outcome: Outcome<'_>) -> LivePass<L>
    ensures pass { result ≡ worked.pass }
{
    assert!(rt; worked.answers.as_slice() == outcome.answers);
    assert!(rt; worked.stopped == outcome.stopped);
    worked.pass
}

/// Drives two works of these calls, on one object, looks at the outcome of each, closes the
/// service, and tells the word of the object after the close, and how many deeds both did.
fn two_are_driven<L: Crew + Send + Sync, G: Gate + Sync, R: Threads + Wait + Clock + Sync + Abort>(
    rt: &R,
    alloc: Global,
    blank: Blank,
    places: u32,
    gate: &G,
    calls: (Vec<Call>, Vec<Call>),
    outcomes: (Outcome<'_>, Outcome<'_>),
) -> Result<(Word, u64), Fail>
    requires name { blank.name ≡ L.name }
    requires parts { (blank.parts ≡ L.parts) × (L.parts ≡ 2) }
    requires crew { (L.passes ≡ 2) × (L.monitors ≡ 1) × (L.places ≡ places) }
    requires first { All IsLive calls.0.items }
    requires second { All IsLive calls.1.items }
{
    let (live, first, second) = open_two::<L>(alloc, blank, 0xa5, 1, places)?;
    let first = Work {
        pass: first,
        calls: calls.0,
    };
    let second = Work {
        pass: second,
        calls: calls.1,
    };
    let (first, second) = drive_both(rt, alloc, &live, gate, (first, second))?;
    let first = came_to(rt, first, outcomes.0);
    let second = came_to(rt, second, outcomes.1);
    close_both(alloc, live, first, second)
}

/// Lets every call be made.
pub(crate) struct Open;

impl Gate for Open {
    fn before(&self, _worker: usize, _call: usize) -> bool {
        true
    }

    fn after(&self, _worker: usize, _call: usize) {}
}

/// Stops worker 0 before its second call.
struct First;

impl Gate for First {
    fn before(&self, worker: usize, call: usize) -> bool {
        worker != 0 || call < 2
    }

    fn after(&self, _worker: usize, _call: usize) {}
}

/// Lets a call be made once the other worker is about to make one too.
#[derive(Drop)]
struct Both {
    first: AtomicBool,
    second: AtomicBool,
}

impl Gate for Both {
    fn before(&self, worker: usize, _call: usize) -> bool {
        let (mine, other) = if worker == 0 {
            (&self.first, &self.second)
        } else {
            (&self.second, &self.first)
        };
        mine.store(true, Ordering::SeqCst);
        for _ in 0..10_000_000u32 {
            if other.load(Ordering::SeqCst) {
                return true;
            }
            yield_now();
        }
        false
    }

    fn after(&self, _worker: usize, _call: usize) {}
}

/// An enter, so many rounds of a notify and a wait, and a last notify and the exit.
fn rounds(alloc: Global, times: u32) -> Result<Vec<Call>, Memory>
    ensures { IfOk result (λ v. All IsLive v.items) }
{
    let mut calls = vec![in alloc; Call::Enter(OBJECT)]?;
    for _ in 0..times {
        calls.push(Call::Notify(OBJECT))?;
        calls.push(Call::Wait {
            object: OBJECT,
            millis: 0,
            nanos: 0,
        })?;
    }
    calls.push(Call::Notify(OBJECT))?;
    calls.push(Call::Exit(OBJECT))?;
    Ok(calls)
}

/// Their answers.
fn answers_of_rounds(alloc: Global, times: u32) -> Result<Vec<Result<Reply, LiveFault>>, Memory> {
    let mut answers = vec![in alloc; Ok(Reply::Entered)]?;
    for _ in 0..times {
        answers.push(Ok(Reply::Notified))?;
        answers.push(Ok(Reply::WaitOver))?;
    }
    answers.push(Ok(Reply::Notified))?;
    answers.push(Ok(Reply::Exited))?;
    Ok(answers)
}

#[test]
fn two_workers_hand_an_object_to_each_other(rt: HostRuntime) -> Result<(), Fail> {
    let alloc = rt.alloc();
    let calls = (rounds(alloc, 1_000)?, rounds(alloc, 1_000)?);
    let blank = Blank::new(2);
    let wanted = answers_of_rounds(alloc, 1_000)?;
    let outcome = Outcome {
        answers: wanted.as_slice(),
        stopped: false,
    };
    let outcomes = (outcome, outcome);
    let closed = two_are_driven::<Brand, _, _>(&rt, alloc, blank, 8_000, &Open, calls, outcomes)?;
    // The second comer's enter parks, or finds the object without an owner.
    assert!(&rt; closed == (Word(0x8000_00a5), 6_005) || closed == (Word(0x8000_00a5), 6_006));
    Ok(())
}

fn holds_once(alloc: Global) -> Result<Vec<Call>, Memory>
    ensures { IfOk result (λ v. All IsLive v.items) }
{
    Ok(vec![in alloc; Call::Holds(OBJECT)]?)
}

fn holds_twice(alloc: Global) -> Result<Vec<Call>, Memory>
    ensures { IfOk result (λ v. All IsLive v.items) }
{
    Ok(vec![in alloc; Call::Holds(OBJECT), Call::Interrupted]?)
}

const ONE_AND_STOPPED: Outcome<'static> = Outcome {
    answers: &[Ok(Reply::No)],
    stopped: true,
};

const ONE: Outcome<'static> = Outcome {
    answers: &[Ok(Reply::No)],
    stopped: false,
};

const TWO: Outcome<'static> = Outcome {
    answers: &[Ok(Reply::No), Ok(Reply::No)],
    stopped: false,
};

#[test]
fn a_gate_stops_a_worker_before_its_second_call(rt: HostRuntime) -> Result<(), Fail> {
    let alloc = rt.alloc();
    let calls = (holds_twice(alloc)?, holds_twice(alloc)?);
    let blank = Blank::new(2);
    let outcomes = (ONE_AND_STOPPED, TWO);
    two_are_driven::<Brand, _, _>(&rt, alloc, blank, 10, &First, calls, outcomes)?;
    Ok(())
}

#[test]
fn workers_run_side_by_side(rt: HostRuntime) -> Result<(), Fail> {
    let alloc = rt.alloc();
    let both = Both {
        first: AtomicBool::new(false),
        second: AtomicBool::new(false),
    };
    let calls = (holds_once(alloc)?, holds_once(alloc)?);
    let blank = Blank::new(2);
    let outcomes = (ONE, ONE);
    two_are_driven::<Brand, _, _>(&rt, alloc, blank, 10, &both, calls, outcomes)?;
    Ok(())
}
