//! Plays the examples: each script of a folder is to have the report and the history beside it, and
//! the dump beside it if there is one, each script of the table `bad_scripts` its first bad line,
//! and each long example, which is made here, its report and a history of so many moves.
//!
//! The folder is the word behind the program's name, or the one that the program runs in. There is
//! one line for each example, and the exit status is 1 where one came out otherwise.
#![tactic(auto)]

mod bad_scripts;
mod comparing;
mod drafts;
mod dumps;
mod files;
mod limits;
mod long_runs;

use std::process::ExitCode;
use std::rt::{Env, Files};
use std::{env, io};

fn main(rt: HostRuntime) -> ExitCode {
    match play_all(&rt) {
        Ok(true) => ExitCode::SUCCESS,
        Ok(false) => ExitCode::FAILURE,
        Err(error) => {
            let _ = eprintln!(rt; "played_examples: {error}");
            ExitCode::FAILURE
        }
    }
}

/// Plays all examples, and answers whether each came out as expected.
fn play_all<R>(rt: &R) -> io::Result<bool>
where
    R: Env + Files + Print + AllocGlobal + Clone + Drop,
{
    let folder = match env::args(rt)?.nth(1) {
        Some(word) => word,
        None => String::from_str(rt.alloc(), ".")?,
    };
    let files = files::play(rt, &folder)?;
    let dumps = dumps::play(rt, &folder)?;
    let bad_scripts = bad_scripts::play(rt, &folder)?;
    let long_runs = long_runs::play(rt)?;
    let limits = limits::play(rt)?;
    Ok(files && dumps && bad_scripts && long_runs && limits)
}
