//! Writing the history of some choices: the moves that they hand out.

ghost use Rattle.std.specs.Prelude.{◌≡◌, ◌++◌, ◌∷◌, [], IfOk, IfSome, OnOk, is_some};
ghost use Rattle.step_core.specs.Step.{moves_made};
ghost use Rattle.history.specs.Histories.{moves_text, objects_text};
ghost use Rattle.explore.specs.States.{played};
ghost use Rattle.explore_runs.specs.Reports.{history_text};
ghost use Rattle.explore_java.specs.JavaRuns.{attaches_of};
ghost use Rattle.explore_runs.specs.Steps.{script_moves};

use explore::{Choice, Program, State};
use history_moves::{first_line, push_move};
use lock_word::{Memory, ThreadId};
use std::alloc::Global;
use step_core::Move;

/// The moves that some choices of a program hand out, behind those of its attaches, as a script has
/// them that makes the choices; None where one of them cannot be made.
pub fn moves_of(
    alloc: Global,
    program: &Program,
    choices: &[Choice],
) -> Result<Option<Vec<Move>>, Memory>
    ensures moves { IfOk result (λ o. IfSome o (λ moves.
        moves.items ≡ script_moves program.now choices.now)) }
    ensures made { IfOk result (λ o. is_some o ≡ is_some (played program.now choices.now)) }
{
    let mut moves = attaches_of(alloc, program)?;
    let mut state = State::open(alloc, program)?;
    'choices: for choice in choices {
        let did = match state.make_and_tell(program, *choice)? {
            Some(did) => did,
            None => return Ok(None),
        };
        push_made(&mut moves, &did.moves)?;
    }
    Ok(Some(moves))
}

/// The moves of the attaches with which a program begins.
pub(crate) fn attaches_of(alloc: Global, program: &Program) -> Result<Vec<Move>, Memory>
    ensures { IfOk result (λ moves. moves.items ≡ attaches_of program.now) }
{
    let mut moves = Vec::new(alloc);
    'threads: for thread in 0..program.starts.len() {
        let thread = ThreadId(thread as u32);
        moves.push(Move::Attach { thread })?;
    }
    Ok(moves)
}

/// Puts the moves that are there behind the others.
fn push_made(moves: &mut Vec<Move>, made: &[Option<Move>]) -> Result<(), Memory>
    ensures { OnOk result (moves.new.items ≡ moves.old.items ++ moves_made made.now) }
{
    'made: for one in made {
        push_one(moves, *one)?;
    }
    Ok(())
}

/// Puts a move behind the others, if it is there.
fn push_one(moves: &mut Vec<Move>, one: Option<Move>) -> Result<(), Memory>
    ensures { OnOk result (moves.new.items ≡ moves.old.items ++ moves_made (one ∷ [])) }
{
    if let Some(made) = one {
        moves.push(made)?;
    }
    Ok(())
}

/// Writes the history of some moves, behind a line that says how many lines it has.
pub(crate) fn put_history(
    alloc: Global,
    report: &mut Vec<u8>,
    objects: u16,
    moves: &[Move],
) -> Result<(), Memory>
    ensures { OnOk result (report.new.items
        ≡ report.old.items ++ history_text objects moves.now) }
{
    let lines = 1 + moves.len();
    let head = format!(in alloc; "history {lines}\n")?;
    report.extend_from_slice(head.as_bytes())?;
    put_objects(alloc, report, objects)?;
    put_moves(report, moves)
}

/// Writes the first line of a history.
#[tactic(auto, unfolding(history::specs::Histories::objects_text))]
fn put_objects(alloc: Global, report: &mut Vec<u8>, objects: u16) -> Result<(), Memory>
    ensures { OnOk result (report.new.items ≡ report.old.items ++ objects_text objects) }
{
    let line = first_line(alloc, objects)?;
    report.extend_from_slice(line.as_bytes())?;
    report.push(b'\n')?;
    Ok(())
}

/// Writes a line for each move.
fn put_moves(report: &mut Vec<u8>, moves: &[Move]) -> Result<(), Memory>
    ensures { OnOk result (report.new.items ≡ report.old.items ++ moves_text moves.now) }
{
    'moves: for made in moves {
        put_move(report, made)?;
    }
    Ok(())
}

#[tactic(auto, unfolding(history::specs::Histories::move_text))]
fn put_move(report: &mut Vec<u8>, made: &Move) -> Result<(), Memory>
    ensures { OnOk result (report.new.items
        ≡ report.old.items ++ moves_text (made.now ∷ [])) }
{
    push_move(report, made)?;
    report.push(b'\n')?;
    Ok(())
}
