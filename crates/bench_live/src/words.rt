//! Pairs of calls on header words, and on the book behind the gate, against the bare atomic
//! operations that they stand for.

ghost use Rattle.std.specs.Prelude.{◌≡◌, length};

mod book;
mod gates;
mod lanes;

use crate::BenchFault;
use crate::measures::Measure;
use gates::{bare_in_threads, take_in_threads};
use lanes::{Setup, Work, in_threads};
use std::alloc::{AllocError, Global};
use std::io::Print;
use std::sync::atomic::AtomicU64;
use std::thread::Threads;
use std::time::Clock;

const WORDS: usize = 256;

const RUNS: usize = 7;

// What is measured.
#[derive(Clone, Copy)]
enum Task {
    // Work on words, each thread on its own.
    Words(Work),
    // Takes and gives of the book, by all threads.
    Take,
    // The bare operations of these, on one word.
    BareTake,
}

// A pair of calls, and the bare operations that it stands for.
type Pair = (&'static str, Task, Task);

const LOCKS: Pair = (
    "acquire and release",
    Task::Words(Work::Lock),
    Task::Words(Work::BareLock),
);

const NESTS: Pair = (
    "nest and unnest",
    Task::Words(Work::Nest),
    Task::Words(Work::BareNest),
);

const TAKES: Pair = ("take and give", Task::Take, Task::BareTake);

// A row of the report: how many threads do a pair.
type Row = (u32, Pair);

const ROWS: [Row; 8] = [
    (1, LOCKS),
    (1, NESTS),
    (2, LOCKS),
    (2, NESTS),
    (4, LOCKS),
    (4, NESTS),
    (1, TAKES),
    (2, TAKES),
];

fn measure<R: Clock + Threads + Sync>(
    setup: &Setup<'_, R>,
    alloc: Global,
    threads: u32,
    task: Task,
) -> Result<Measure, BenchFault>
    requires { length setup.now.lows.now ≡ WORDS }
{
    match task {
        Task::Words(work) => in_threads(setup, alloc, threads, work),
        Task::Take => take_in_threads(setup, alloc, threads),
        Task::BareTake => bare_in_threads(setup, threads),
    }
}

// The shortest times of the task and of its bare operations, which take turns, in picoseconds a
// round.
fn best<R: Clock + Threads + Sync>(
    setup: &Setup<'_, R>,
    alloc: Global,
    threads: u32,
    task: Task,
    base: Task,
) -> Result<(u128, u128), BenchFault>
    requires { length setup.now.lows.now ≡ WORDS }
{
    let mut least = u128::MAX;
    let mut least_bare = u128::MAX;
    for _ in 0..RUNS {
        let run = measure(setup, alloc, threads, task)?;
        least = least.min(run.time);
        let bare = measure(setup, alloc, threads, base)?;
        least_bare = least_bare.min(bare.time);
    }
    let rounds = u128::from(setup.rounds.max(1));
    Ok((
        least.saturating_mul(1000) / rounds,
        least_bare.saturating_mul(1000) / rounds,
    ))
}

// As many bare words as there are objects.
fn bare_words(alloc: Global) -> Result<Vec<AtomicU64>, AllocError> {
    let mut words = Vec::new(alloc);
    for _ in 0..WORDS {
        words.push(AtomicU64::new(0))?;
    }
    Ok(words)
}

// One line of the report: counts where no number of rounds was given, and else times.
fn report<R: Clock + Threads + Print + Sync>(
    setup: &Setup<'_, R>,
    alloc: Global,
    row: &Row,
    timed: bool,
) -> Result<(), BenchFault>
    requires { length setup.now.lows.now ≡ WORDS }
{
    let (threads, (name, calls, bare)) = *row;
    if timed {
        let (ours, theirs) = best(setup, alloc, threads, calls, bare)?;
        let percent = ours.saturating_mul(100) / theirs.max(1);
        println!(setup.rt;
            "threads {threads}, {name}: {ours} ps by calls, {theirs} ps bare, {percent} percent"
        )?;
    } else {
        let ours = measure(setup, alloc, threads, calls)?.done;
        let theirs = measure(setup, alloc, threads, bare)?.done;
        println!(setup.rt; "threads {threads}, {name}: {ours} by calls, {theirs} bare")?;
    }
    Ok(())
}

/// A line for each pair of calls, done by one thread or more.
pub fn report_words<R: Clock + Threads + Print + Sync>(
    rt: &R,
    alloc: Global,
    rounds: Option<u32>,
) -> Result<(), BenchFault> {
    let bare = bare_words(alloc)?;
    let setup = Setup {
        rt,
        lows: &[0; WORDS],
        bare: bare.as_slice(),
        rounds: rounds.unwrap_or(1_000),
    };
    for row in &ROWS {
        report(&setup, alloc, row, rounds.is_some())?;
    }
    Ok(())
}
