//! Playing the moves of columns.

ghost use Rattle.std.specs.Prelude.{◌≡◌, ◌++◌, List, OnOk};
ghost use Rattle.std.specs.List.{AllZip};
ghost use Rattle.jls_check.specs.MachineState.{state};
ghost use Rattle.step_core.specs.Machine.{State, Run};
ghost use Rattle.step_core.specs.Step.{moves_made};
ghost use Rattle.pictures.specs.Pictures.{CanRun, Makes, all_moves};
ghost use Rattle.pictures.specs.Arrows.{IsLawful, Tells, TellsOne};
ghost use Rattle.pictures.specs.Late.{IsKept};
ghost use Rattle.pictures.specs.declared.picture.Arrow.{Arrow as ArrowData};

use crate::arrows::put_arrows;
use crate::columns::Column;
use crate::late::{LateLane, bring_touched};
use crate::picture::Arrow;
use jls_check::{Machine, MoveFault};
use lock_word::{Memory, ThreadId};
use step_core::Move;

/// Plays the moves of the column with a number, which are lawful, adds their arrows, and brings the
/// lanes of those whom they touch up to the column.
pub(crate) fn play_moves(
    machine: &mut Machine,
    arrows: &mut Vec<Arrow>,
    lanes: &mut [LateLane],
    threads: &[ThreadId],
    column: u32,
    moves: &[Option<Move>],
) -> Result<(), Memory>
    requires { (end : State) × Run (state machine.old) (moves_made moves.now) end }
    ensures told { OnOk result ((here : List ArrowData)
        × Tells threads.now column (state machine.old) (moves_made moves.now) (state machine.new) here
        × (arrows.new.items ≡ arrows.old.items ++ here)) }
    ensures kept { OnOk result
        (AllZip (IsKept column (state machine.old) (state machine.new)) lanes.old lanes.new) }
{
    'moves: for made in moves {
        play_move(machine, arrows, lanes, threads, column, *made)?;
    }
    Ok(())
}

/// Plays a move, if it is there, adds its arrows, and brings up the lanes of those whom it touches.
fn play_move(
    machine: &mut Machine,
    arrows: &mut Vec<Arrow>,
    lanes: &mut [LateLane],
    threads: &[ThreadId],
    column: u32,
    made: Option<Move>,
) -> Result<(), Memory>
    requires { IsLawful (state machine.old) made }
    ensures told { OnOk result (TellsOne threads.now column (state machine.old) made
        (state machine.new) arrows.old.items arrows.new.items) }
    ensures kept { OnOk result
        (AllZip (IsKept column (state machine.old) (state machine.new)) lanes.old lanes.new) }
{
    let Some(made) = made else {
        return Ok(());
    };
    put_arrows(arrows, machine, threads, column, made)?;
    bring_touched(lanes, machine, made, column)?;
    take_move(machine, Some(made))?;
    Ok(())
}

/// Takes a move, if it is there.
fn take_move(machine: &mut Machine, made: Option<Move>) -> Result<(), Memory>
    requires { IsLawful (state machine.old) made }
    ensures { OnOk result (Makes (state machine.old) made (state machine.new)) }
{
    let Some(made) = made else {
        return Ok(());
    };
    match machine.take(made) {
        Ok(()) => Ok(()),
        Err(MoveFault::Memory) => Err(Memory),
        Err(MoveFault::Broken) => unreachable!(),
    }
}

/// Plays the moves of some columns, which are lawful.
pub(crate) fn play_columns(machine: &mut Machine, columns: &[Column]) -> Result<(), Memory>
    requires { CanRun (state machine.old) (all_moves columns.now) }
    ensures { OnOk result
        (Run (state machine.old) (all_moves columns.now) (state machine.new)) }
{
    'columns: for column in columns {
        play_column(machine, &column.moves)?;
    }
    Ok(())
}

fn play_column(machine: &mut Machine, moves: &[Option<Move>]) -> Result<(), Memory>
    requires { CanRun (state machine.old) (moves_made moves.now) }
    ensures { OnOk result
        (Run (state machine.old) (moves_made moves.now) (state machine.new)) }
{
    'moves: for made in moves {
        take_move(machine, *made)?;
    }
    Ok(())
}
