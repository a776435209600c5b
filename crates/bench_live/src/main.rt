//! Measures header words, and the calls of the live service.
//!
//! `words`: pairs of calls on header words, and on the book behind the gate, against the bare
//! atomic operations that they stand for. `calls`: thin calls of the live service against the bare
//! atomic operations that they stand for; calls at a fat monitor against thin ones, and of two
//! threads that contend against those of one; and two threads that hand an object to each other,
//! awake and asleep, against two that hand on a bare word.
//!
//! The first argument is `words` or `calls`; with none, both are measured. With no second one the
//! program does 1,000 rounds of each kind of work, of the dearer calls fewer, and prints how many
//! succeeded; of the takes and gives of the gate, how many the book has counted; and whether a
//! timed wait was over. With a number of rounds in place of the 1,000 it prints the time of a
//! round, in picoseconds of the best of some runs, and the processor time of a thread that waits
//! for one second.
#![tactic(auto)]

mod bare;
mod calls;
mod measures;
mod words;

use calls::report_calls;
use lock_word::Memory;
use std::alloc::{AllocError, AllocGlobal};
use std::env::Env;
use std::num::ParseIntError;
use std::{env, io};
use thiserror::Error;
use words::report_words;

/// Why the benchmark was not run to its end.
#[derive(Debug, Drop, Error)]
pub enum BenchFault {
    #[error("out of memory")]
    Memory(#[from] Memory),
    #[error("out of memory for the book or the bare words")]
    NotAllocated(#[from] AllocError),
    #[error("there are not as many passes as threads")]
    Passes,
    #[error("the object or the book is taken, though one pass is there")]
    Taken,
    #[error("the first argument is neither words nor calls")]
    Part,
    #[error("the second argument is no number of rounds")]
    Rounds(#[from] ParseIntError),
    #[error("the system: {0}")]
    System(#[from] io::Error),
}

// What the program is asked to measure, and the number of rounds, if it is given one.
#[derive(Clone, Copy)]
struct Asked {
    words: bool,
    calls: bool,
    rounds: Option<u32>,
}

fn read_arguments<R: AllocGlobal + Env>(rt: &R) -> Result<Asked, BenchFault> {
    let mut arguments = env::args(rt)?;
    let Some(part) = arguments.nth(1) else {
        return Ok(Asked {
            words: true,
            calls: true,
            rounds: None,
        });
    };
    let words = part.as_str() == "words";
    let calls = part.as_str() == "calls";
    if !words && !calls {
        return Err(BenchFault::Part);
    }
    let rounds = match arguments.next() {
        Some(text) => Some(text.parse::<u32>()?),
        None => None,
    };
    Ok(Asked {
        words,
        calls,
        rounds,
    })
}

fn main(rt: HostRuntime) -> Result<(), BenchFault> {
    let asked = read_arguments(&rt)?;
    if asked.words {
        report_words(&rt, rt.alloc(), asked.rounds)?;
    }
    if asked.calls {
        report_calls(&rt, rt.alloc(), asked.rounds)?;
    }
    Ok(())
}
