//! Lanes that lag behind: a lane is brought up to date where a move touches its thread, and not in
//! every column.

ghost use Rattle.std.specs.Prelude.{◌≤◌, IfOk, OnOk, length};
ghost use Rattle.std.specs.List.{AllZip};
ghost use Rattle.jls_check.specs.MachineState.{state};
ghost use Rattle.pictures.specs.Late.{IsBrought, IsFinished, IsKept, IsOpenLane};
ghost use Rattle.pictures.specs.Made.{calls_made, replies_made};
ghost use Rattle.pictures.specs.Touched.{touched_by};

use crate::columns::Column;
use crate::marks::{CallMade, ReplyMade, calls_made, calls_of, replies_made, replies_of};
use crate::picture::Lane;
use crate::picturing::MOST_COLUMNS;
use crate::spans::put_columns;
use crate::touched::{Touched, is_touched, touched_by};
use jls_check::Machine;
use lock_word::ThreadId;
use std::alloc::{AllocError, Global};
use step_core::Move;

/// A lane whose spans cover the first columns. In those behind them its thread is as it is now.
#[derive(Drop)]
pub(crate) struct LateLane {
    pub(crate) lane: Lane,
    pub(crate) covered: u32,
}

/// The lanes of some threads before the first column, with all their calls and replies.
pub(crate) fn open_lanes(
    alloc: Global,
    columns: &[Column],
    threads: &[ThreadId],
) -> Result<Vec<LateLane>, AllocError>
    requires { length columns.now ≤ MOST_COLUMNS }
    ensures { IfOk result (λ lanes.
        AllZip (IsOpenLane (calls_made 0 columns.now) (replies_made 0 columns.now))
        threads.now lanes.items) }
{
    let calls = calls_made(alloc, columns)?;
    let replies = replies_made(alloc, columns)?;
    let mut lanes = Vec::new(alloc);
    'threads: for thread in threads {
        lanes.push(open_lane(alloc, &calls, &replies, *thread)?)?;
    }
    Ok(lanes)
}

fn open_lane(
    alloc: Global,
    calls: &[CallMade],
    replies: &[ReplyMade],
    thread: ThreadId,
) -> Result<LateLane, AllocError>
    ensures { IfOk result (IsOpenLane calls.now replies.now thread) }
{
    Ok(LateLane {
        lane: Lane {
            thread,
            spans: Vec::new(alloc),
            calls: calls_of(alloc, calls, thread)?,
            replies: replies_of(alloc, replies, thread)?,
        },
        covered: 0,
    })
}

/// Brings the lanes of those whom a move touches up to the column with this number, in which the
/// machine is to make the move.
pub(crate) fn bring_touched(
    lanes: &mut [LateLane],
    machine: &Machine,
    made: Move,
    column: u32,
) -> Result<(), AllocError>
    ensures { OnOk result
        (AllZip (IsBrought column (state machine.now) (touched_by (state machine.now) made))
        lanes.old lanes.new) }
{
    let touched = touched_by(machine, made);
    'lanes: for late in lanes.iter_mut() {
        bring_if_touched(late, machine, touched, column)?;
    }
    Ok(())
}

fn bring_if_touched(
    late: &mut LateLane,
    machine: &Machine,
    touched: Touched,
    column: u32,
) -> Result<(), AllocError>
    ensures { OnOk result (IsBrought column (state machine.now) touched late.old late.new) }
{
    if is_touched(machine, touched, late.lane.thread) {
        bring_up(late, machine, column)?;
    }
    Ok(())
}

/// Brings a lane up to the column with this number: in those that it lacks, its thread is as the
/// machine says.
fn bring_up(late: &mut LateLane, machine: &Machine, column: u32) -> Result<(), AllocError>
    ensures kept { OnOk result
        (IsKept column (state machine.now) (state machine.now) late.old late.new) }
    ensures covered { OnOk result (column ≤ late.new.covered) }
{
    if late.covered < column {
        let live = machine.live(late.lane.thread);
        put_columns(&mut late.lane.spans, live, column - late.covered)?;
        late.covered = column;
    }
    Ok(())
}

/// The lanes, each with this many columns.
pub(crate) fn finished_lanes(
    alloc: Global,
    lanes: Vec<LateLane>,
    machine: &Machine,
    columns: u32,
) -> Result<Vec<Lane>, AllocError>
    ensures { IfOk result (λ finished.
        AllZip (IsFinished columns (state machine.now)) lanes.items finished.items) }
{
    let mut finished = Vec::new(alloc);
    'lanes: for late in lanes {
        finished.push(finished_lane(late, machine, columns)?)?;
    }
    Ok(finished)
}

fn finished_lane(late: LateLane, machine: &Machine, columns: u32) -> Result<Lane, AllocError>
    ensures { IfOk result (IsFinished columns (state machine.now) late) }
{
    let mut late = late;
    bring_up(&mut late, machine, columns)?;
    Ok(late.lane)
}
