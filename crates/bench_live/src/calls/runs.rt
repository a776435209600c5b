//! Runs of the benchmark, each on a service of its own.

ghost use Rattle.std.specs.Prelude.{◌≡◌, IfOk};

use crate::BenchFault;
use crate::bare::{bare_lock, bare_nest};
use crate::calls::rounds::{
    HandedOn, OBJECT, Work, bare_hand_on, hand_on, inflate, nested_pairs, notify_after, pairs,
    wait_once,
};
use crate::measures::Measure;
use live_threads::{Live, LivePass};
use live_turns::Crew;
use std::alloc::Global;
use std::sync::Wait;
use std::sync::atomic::AtomicU64;
use std::sync::ledger::Blank;
use std::thread::{Threads, join};
use std::time::{Clock, CpuClock, Duration, Instant};

// The two threads hand the object to each other; the time is that of the rounds without the pauses.
fn hand_on_in_two<L: Crew + Send + Sync, R: Threads + Wait + Clock + Sync>(
    rt: &R,
    live: &Live<L>,
    first: &mut LivePass<L>,
    second: &mut LivePass<L>,
    rounds: u32,
    pause: Duration,
) -> HandedOn
    requires first { first.old.words.opening ≡ live.now }
    requires second { second.old.words.opening ≡ live.now }
{
    let (one, two) = join(
        rt,
        || hand_on(rt, live, first, rounds, pause),
        || hand_on(rt, live, second, rounds, pause),
    );
    HandedOn {
        done: one.done.wrapping_add(two.done),
        slept: one.slept.wrapping_add(two.slept),
    }
}

// The two threads hand a bare word to each other.
fn bare_hand_on_in_two<R: Threads + Wait + Sync>(rt: &R, word: &AtomicU64, rounds: u32) -> u32 {
    let (one, two) = join(
        rt,
        || bare_hand_on(rt, word, 0, rounds),
        || bare_hand_on(rt, word, 1, rounds),
    );
    one.wrapping_add(two)
}

// Two threads enter and exit an object that they contend for.
fn contend<L: Crew + Send + Sync, R: Threads + Wait + Clock + Sync>(
    rt: &R,
    live: &Live<L>,
    first: &mut LivePass<L>,
    second: &mut LivePass<L>,
    rounds: u32,
) -> u32
    requires first { first.old.words.opening ≡ live.now }
    requires second { second.old.words.opening ≡ live.now }
{
    let (one, two) = join(
        rt,
        || pairs(rt, live, first, rounds),
        || pairs(rt, live, second, rounds),
    );
    one.wrapping_add(two)
}

// Does the rounds of a work, and tells how long they took.
fn run<L: Crew + Send + Sync, R: Threads + Wait + Clock + Sync>(
    rt: &R,
    live: &Live<L>,
    first: &mut LivePass<L>,
    second: &mut LivePass<L>,
    work: Work,
    rounds: u32,
) -> Result<Measure, BenchFault>
    requires first { first.old.words.opening ≡ live.now }
    requires second { second.old.words.opening ≡ live.now }
{
    let word = AtomicU64::new(0);
    let fat = matches!(work, Work::Fat | Work::Contend);
    let ready = !fat || inflate(rt, live, first);
    let start = Instant::now(rt)?;
    let mut slept = 0;
    let done = match work {
        _ if !ready => 0,
        Work::BareLock => bare_lock(&word, rounds),
        Work::BareNest => bare_nest(&word, rounds),
        Work::Lock | Work::Fat => pairs(rt, live, first, rounds),
        Work::Nest => nested_pairs(rt, live, first, rounds),
        Work::Contend => contend(rt, live, first, second, rounds),
        Work::BareHandOn => bare_hand_on_in_two(rt, &word, rounds),
        Work::HandOn | Work::HandOnAsleep => {
            let awake = matches!(work, Work::HandOn);
            let pause = Duration::from_micros(if awake { 0 } else { 1_000 });
            let handed = hand_on_in_two(rt, live, first, second, rounds, pause);
            slept = handed.slept;
            handed.done
        }
    };
    let time = start.elapsed(rt)?.as_nanos().saturating_sub(slept);
    Ok(Measure { done, time })
}

// A service with one object, one monitor and a record of so many places, and its two passes.
fn open_for_two<L: Crew>(
    alloc: Global,
    blank: Blank,
    places: u32,
) -> Result<(Live<L>, LivePass<L>, LivePass<L>), BenchFault>
    requires name { blank.name ≡ L.name }
    requires parts { (blank.parts ≡ L.parts) × (L.parts ≡ 2) }
    requires crew { (L.passes ≡ 2) × (L.monitors ≡ 1) × (L.places ≡ places) }
    ensures first { IfOk result (λ r. r.1.words.opening ≡ r.0) }
    ensures second { IfOk result (λ r. r.2.words.opening ≡ r.0) }
{
    let (live, mut passes) = Live::<L>::open(alloc, blank, &[0], 1, 2, places)?;
    let Some(second) = passes.pop() else {
        return Err(BenchFault::Passes);
    };
    let Some(first) = passes.pop() else {
        return Err(BenchFault::Passes);
    };
    Ok((live, first, second))
}

/// A run of this work, on a service with a record of so many places.
pub fn measure<L: Crew + Send + Sync, R: Threads + Wait + Clock + Sync>(
    rt: &R,
    alloc: Global,
    blank: Blank,
    work: Work,
    rounds: u32,
    places: u32,
) -> Result<Measure, BenchFault>
    requires name { blank.name ≡ L.name }
    requires parts { (blank.parts ≡ L.parts) × (L.parts ≡ 2) }
    requires crew { (L.passes ≡ 2) × (L.monitors ≡ 1) × (L.places ≡ places) }
{
    let (live, mut first, mut second) = open_for_two::<L>(alloc, blank, places)?;
    run(rt, &live, &mut first, &mut second, work, rounds)
}

// The first thread waits, and the second notifies after so long.
fn doze_of_two<L: Crew + Send + Sync, R: Threads + Wait + Clock + CpuClock + Sync>(
    rt: &R,
    live: &Live<L>,
    first: &mut LivePass<L>,
    second: &mut LivePass<L>,
    pause: Duration,
) -> Result<Option<u128>, BenchFault>
    requires first { first.old.words.opening ≡ live.now }
    requires second { second.old.words.opening ≡ live.now }
{
    // The one that notifies enters once this one waits.
    let _entered = live.enter(rt, first, OBJECT);
    let start = rt.process_cpu_time()?;
    let (waited, notified) = join(
        rt,
        || wait_once(rt, live, first),
        || notify_after(rt, live, second, pause),
    );
    let used = rt.process_cpu_time()?.saturating_sub(start);
    Ok((waited && notified).then_some(used.as_nanos()))
}

/// The processor time of the process while one of its threads waits for so long and the other
/// sleeps, in nanoseconds; None where the wait or the notify had another reply.
pub fn doze<L: Crew + Send + Sync, R: Threads + Wait + Clock + CpuClock + Sync>(
    rt: &R,
    alloc: Global,
    blank: Blank,
    pause: Duration,
) -> Result<Option<u128>, BenchFault>
    requires name { blank.name ≡ L.name }
    requires parts { (blank.parts ≡ L.parts) × (L.parts ≡ 2) }
    requires crew { (L.passes ≡ 2) × (L.monitors ≡ 1) × (L.places ≡ 100) }
{
    let (live, mut first, mut second) = open_for_two::<L>(alloc, blank, 100)?;
    doze_of_two(rt, &live, &mut first, &mut second, pause)
}
