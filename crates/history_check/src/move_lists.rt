//! Reading a history that is a run, for its moves.

ghost use Rattle.std.specs.Prelude.{◌≡◌, ◌≤◌, [], ℕ, List, IfOk, IfErr, length};
ghost use Rattle.step_core.specs.declared.machine.Move.{Move as MoveData};
ghost use Rattle.history_check.specs.Histories.{IsFaultOf, IsRunFrom, IsRunOf};

use crate::MOST_BYTES;
use crate::checks::{Check, cut_line};
use history_moves::{MoveReader, line_first};
use lock_word::Memory;
use std::alloc::Global;
use step_core::Move;
use text_streams::FileFault;

/// The moves of a history.
#[derive(Drop)]
pub struct MoveList {
    /// How many objects there are.
    pub objects: u16,
    pub moves: Vec<Move>,
}

/// Reads the text of a history whose moves are a run of the machine.
///
/// Else the answer is the first fault in the order of lines, as that of [`replay`](crate::replay)
/// is. The text has at most [`MOST_BYTES`] bytes.
pub fn read_moves(alloc: Global, text: &[u8]) -> Result<MoveList, FileFault>
    requires { length text.now ≤ MOST_BYTES }
    ensures run { IfOk result (λ list. IsRunFrom text.now list.objects list.moves.items) }
    ensures fault { IfErr result (IsFaultOf text.now Unit ⊥) }
{
    let mut check = Check::new(alloc);
    check.feed(text)?;
    check.finish()?;
    Ok(moves_of(alloc, text)?)
}

/// The moves of a history that was checked.
fn moves_of(alloc: Global, text: &[u8]) -> Result<MoveList, Memory>
    requires { (ms : List MoveData) × IsRunOf text.now ms }
    ensures { IfOk result (λ list. IsRunFrom text.now list.objects list.moves.items) }
{
    let Some((line, rest)) = cut_line(text) else {
        unreachable!()
    };
    let Some(objects) = line_first(alloc, line)? else {
        unreachable!()
    };
    let mut reader = MoveReader::new(alloc);
    let mut moves = Vec::new(alloc);
    let mut left = rest;
    'lines: while let Some((line, behind)) = cut_line(left) {
        let Some(made) = reader.line_move(line)? else {
            unreachable!()
        };
        moves.push(made)?;
        left = behind;
    }
    Ok(MoveList { objects, moves })
}
