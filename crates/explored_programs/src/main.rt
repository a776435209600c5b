//! Explores small programs that show what monitors do: of each, how many states it has, how many of
//! them nothing changes any more, and what the threads have come to there.
#![tactic(auto)]

mod classics;
mod outcomes;
mod programs;
mod trouble;

use classics::{CLASSICS, Classic};
use explore::{ExploreFault, explore};
use std::process::ExitCode;
use trouble::Trouble;

/// No program here has more states.
const MOST_STATES: u32 = 1_000_000;

fn main(rt: HostRuntime) -> ExitCode {
    match explore_all(&rt) {
        Ok(()) => ExitCode::SUCCESS,
        Err(trouble) => {
            let _ = eprintln!(rt; "explored_programs: {trouble}");
            ExitCode::FAILURE
        }
    }
}

/// Explores each program, one after the other.
fn explore_all<R: Print + AllocGlobal>(rt: &R) -> Result<(), Trouble> {
    for classic in &CLASSICS {
        explore_one(rt, classic)?;
    }
    ask_for_few(rt, &CLASSICS[0], 61)
}

/// Explores a program that has this many states, and asks for one less, which are too few.
fn ask_for_few<R: Print + AllocGlobal>(
    rt: &R,
    classic: &Classic,
    states: u32,
) -> Result<(), Trouble> {
    let program = programs::program_of(rt.alloc(), classic)?;
    let found = explore(rt.alloc(), &program, states)?;
    match explore(rt.alloc(), &program, states.saturating_sub(1)) {
        Err(ExploreFault::TooManyStates) => {
            println!(rt;
                "{}: {} states are enough, and one less too few",
                classic.name,
                found.states()
            )?;
            Ok(())
        }
        Err(ExploreFault::Memory) => Err(Trouble::Memory),
        Ok(_) => Err(Trouble::TooLarge),
    }
}

/// Explores a program, and prints its outcomes.
fn explore_one<R: Print + AllocGlobal>(rt: &R, classic: &Classic) -> Result<(), Trouble> {
    let program = programs::program_of(rt.alloc(), classic)?;
    let found = explore(rt.alloc(), &program, MOST_STATES)?;
    let outcomes = outcomes::outcomes_of(rt.alloc(), &program, &found)?;
    println!(rt;
        "program {}: {} states, {} ends",
        classic.name,
        found.states(),
        outcomes.len()
    )?;
    outcomes::print(rt, &outcomes)
}
