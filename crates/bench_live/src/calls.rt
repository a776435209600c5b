//! Calls of the live service: thin calls, calls at a fat monitor, and two threads that hand an
//! object to each other.

mod rounds;
mod runs;

use crate::BenchFault;
use crate::measures::Measure;
use rounds::Work;
use runs::{doze, measure};
use std::alloc::Global;
use std::io::Print;
use std::marker::Brand;
use std::sync::Wait;
use std::sync::ledger::Blank;
use std::thread::Threads;
use std::time::{Clock, CpuClock, Duration};

const RUNS: usize = 5;

// One run of this work.
fn once<R: Threads + Wait + Clock + Sync>(
    rt: &R,
    alloc: Global,
    work: Work,
    rounds: u32,
) -> Result<Measure, BenchFault> {
    let places = work.places(rounds);
    measure::<Brand, R>(rt, alloc, Blank::new(2), work, rounds, places)
}

// The shortest time of a round of this work, in picoseconds.
fn best<R: Threads + Wait + Clock + Sync>(
    rt: &R,
    alloc: Global,
    work: Work,
    asked: u32,
) -> Result<u128, BenchFault> {
    let rounds = work.rounds(asked);
    let mut least = u128::MAX;
    for _ in 0..RUNS {
        least = least.min(once(rt, alloc, work, rounds)?.time);
    }
    Ok(least.saturating_mul(1000) / u128::from(rounds.max(1)))
}

// One line of the report: counts where no number of rounds was given, and else times.
fn report<R: Threads + Wait + Clock + Print + Sync>(
    rt: &R,
    alloc: Global,
    name: &str,
    works: (Work, Work),
    asked: Option<u32>,
) -> Result<(), BenchFault> {
    let (work, base) = works;
    let Some(asked) = asked else {
        let ours = once(rt, alloc, work, work.rounds(1_000))?.done;
        let theirs = once(rt, alloc, base, base.rounds(1_000))?.done;
        println!(rt; "{name}: {ours}, beside {theirs}")?;
        return Ok(());
    };
    let ours = best(rt, alloc, work, asked)?;
    let theirs = best(rt, alloc, base, asked)?;
    let percent = ours.saturating_mul(100) / theirs.max(1);
    println!(rt; "{name}: {ours} ps, beside {theirs} ps: {percent} percent")?;
    Ok(())
}

// The line of a thread that waits.
fn report_doze<R: Threads + Wait + Clock + CpuClock + Print + Sync>(
    rt: &R,
    alloc: Global,
    timed: bool,
) -> Result<(), BenchFault> {
    let pause = Duration::from_millis(if timed { 1_000 } else { 1 });
    let used = doze::<Brand, R>(rt, alloc, Blank::new(2), pause)?;
    match used {
        Some(nanos) if timed => {
            println!(rt; "a wait of one second: {nanos} ns of processor time")?;
        }
        Some(_) => println!(rt; "a wait is over")?,
        None => println!(rt; "a wait has another reply")?,
    }
    Ok(())
}

/// A line for each kind of work, and one for a thread that waits.
pub fn report_calls<R: Threads + Wait + Clock + CpuClock + Print + Sync>(
    rt: &R,
    alloc: Global,
    asked: Option<u32>,
) -> Result<(), BenchFault> {
    let rows = [
        (
            "first enter and last exit, beside the bare operations",
            (Work::Lock, Work::BareLock),
        ),
        (
            "nested enter and exit, beside the bare operations",
            (Work::Nest, Work::BareNest),
        ),
        (
            "enter and exit on a fat monitor, beside a thin pair",
            (Work::Fat, Work::Lock),
        ),
        (
            "the same by two threads, beside one",
            (Work::Contend, Work::Fat),
        ),
        (
            "a notify and a wait by each of two, beside a load and a store of a bare word by each",
            (Work::HandOn, Work::BareHandOn),
        ),
        (
            "the same, both asleep, beside awake",
            (Work::HandOnAsleep, Work::HandOn),
        ),
    ];
    for (name, works) in rows {
        report(rt, alloc, name, works, asked)?;
    }
    report_doze(rt, alloc, asked.is_some())
}
