//! Plays moves on two checkers: the one of `jls_check`, which is proved, and a plain one that was
//! written apart from it. The moves are those of a table of cells, moves at random, and the moves
//! of random worlds. What is printed is the same each time; the exit status is 1 where the checkers
//! disagree, or say otherwise than was expected.
#![tactic(auto)]

mod both;
mod cells;
mod plain;
mod random;
mod random_moves;
mod random_worlds;
mod trouble;

use std::process::ExitCode;
use std::rt::Files;
use trouble::Trouble;

fn main(rt: HostRuntime) -> ExitCode {
    match play(&rt) {
        Ok(()) => ExitCode::SUCCESS,
        Err(trouble) => {
            let _ = eprintln!(rt; "checked_moves: {trouble}");
            ExitCode::FAILURE
        }
    }
}

/// Has both checkers judge all moves.
fn play<R>(rt: &R) -> Result<(), Trouble>
where
    R: Files + Print + AllocGlobal + Clone + Drop,
{
    cells::play(rt)?;
    random_moves::play(rt)?;
    random_worlds::play(rt)
}
