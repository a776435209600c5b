//! The jobs that a user of the service waits for, at a size that can be timed.
//!
//! The words are a job, how many steps it has, and a seed: each seed gives other inputs of the same
//! kinds and sizes. A job prints a digest of all its results, and no times; `bench/run` times it.
//! The job `all` does all of them, one after the other.
#![tactic(auto)]

mod calls;
mod courses;
mod digests;
mod draws;
mod histories;
mod hosts;
mod results;
mod rounds;
mod scripts;
mod texts;
mod worlds;

use crate::digests::Digest;
use crate::draws::Draws;
use fat_monitor::Reply;
use history::FileFault;
use live_turns::LiveFault;
use lock_word::Memory;
use std::alloc::{AllocError, AllocFailed, Global};
use std::io::Print;
use std::marker::Brand;
use std::num::ParseIntError;
use std::sync::Wait;
use std::sync::ledger::Blank;
use std::thread::Threads;
use std::time::Clock;
use std::{env, io};
use thiserror::Error;

/// Why a job was not done to its end.
#[derive(Debug, Drop, Error)]
pub enum JobFault {
    #[error("out of memory")]
    Memory,
    #[error("the words are a job, a number of steps and a seed")]
    Words,
    #[error("a word is no number")]
    Number(#[from] ParseIntError),
    #[error("a file: {0}")]
    File(#[from] FileFault),
    #[error("a call met the fault {0}")]
    Call(LiveFault),
    #[error("a call had the reply {0}")]
    Reply(Reply),
    #[error("a history was judged otherwise")]
    Judged,
    #[error("the passes are not those of the service")]
    Passes,
    #[error("the system: {0}")]
    System(#[from] io::Error),
}

impl From<Memory> for JobFault {
    fn from(_: Memory) -> Self {
        JobFault::Memory
    }
}

impl From<AllocError> for JobFault {
    fn from(_: AllocError) -> Self {
        JobFault::Memory
    }
}

impl<T: Drop> From<AllocFailed<T>> for JobFault {
    fn from(_: AllocFailed<T>) -> Self {
        JobFault::Memory
    }
}

/// The digest of what came of the live calls.
fn live<R: Threads + Wait + Clock + Sync>(
    rt: &R,
    alloc: Global,
    steps: u32,
    seed: u64,
) -> Result<u64, JobFault> {
    let mut digest = Digest::new();
    let mut draws = Draws::new(seed);
    let (thin, fat, two) = (draws.number(), draws.number(), draws.number());
    digest.mix(hosts::run_thin::<Brand, R>(rt, alloc, Blank::new(2), steps, thin)?);
    digest.mix(hosts::run_fat::<Brand, R>(rt, alloc, Blank::new(2), steps / 32, fat)?);
    digest.mix(hosts::run_two::<Brand, R>(rt, alloc, Blank::new(2), steps / 256, two)?);
    Ok(digest.value())
}

/// Does a job, if the word names one, and prints its digest.
fn report<R: Threads + Wait + Clock + Print + Sync>(
    rt: &R,
    alloc: Global,
    job: &str,
    steps: u32,
    seed: u64,
) -> Result<(), JobFault> {
    let digest = match job {
        "play" => texts::play(alloc, steps, seed)?,
        "record" => texts::record(alloc, steps, seed)?,
        "check" => texts::check(alloc, steps, seed)?,
        "stranger" => texts::check_strangers(alloc, steps, seed)?,
        "step" => worlds::step(alloc, steps, seed)?,
        "live" => live(rt, alloc, steps, seed)?,
        _ => return Err(JobFault::Words),
    };
    println!(rt; "{job} {digest:016x}")?;
    Ok(())
}

const JOBS: [&str; 6] = ["play", "record", "check", "stranger", "step", "live"];

fn main(rt: HostRuntime) -> Result<(), JobFault> {
    let alloc = rt.alloc();
    let mut words = env::args(&rt)?.skip(1);
    let (Some(job), Some(steps), Some(seed)) = (words.next(), words.next(), words.next()) else {
        return Err(JobFault::Words);
    };
    let steps = steps.parse::<u32>()?;
    let seed = u64::from(seed.parse::<u32>()?);
    if job.as_str() != "all" {
        return report(&rt, alloc, job.as_str(), steps, seed);
    }
    for job in JOBS {
        report(&rt, alloc, job, steps, seed)?;
    }
    Ok(())
}
