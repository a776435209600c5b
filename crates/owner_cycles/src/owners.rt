//! The cycles of owners of a world.

ghost use Rattle.std.specs.Prelude.{◌≡◌, ℕ, ◌<◌, List, IfOk, OnOk, length, map, vec_items};
ghost use Rattle.step_core.specs.Cycles.{AreCycles};
ghost use Rattle.step_core.specs.Machine.{State};
ghost use Rattle.step_core.specs.Shown.{shown};
ghost use Rattle.owner_cycles.specs.Rows.{IsIn};
ghost use Rattle.owner_cycles.specs.Threads.{AreLiveThreads, AreNexts, thread_at_position};

use crate::rows::cycles_of_row;
use crate::waits::{live_threads, nexts_of, positions_of};
use lock_word::{Memory, ThreadId};
use std::alloc::{AllocError, Global};
use step_core::World;

/// The cycles of owners of a world: each from its lowest thread on, along the owners, and by lowest
/// thread.
pub fn cycles(alloc: Global, world: &World) -> Result<Vec<Vec<ThreadId>>, Memory>
    ensures { IfOk result (λ cycles. AreCycles (shown world.now) (map vec_items cycles.items)) }
{
    let threads = live_threads(alloc, world)?;
    Ok(cycles_among(alloc, world, &threads)?)
}

/// The cycles of owners of a world that has these live threads.
pub fn cycles_among(
    alloc: Global,
    world: &World,
    threads: &[ThreadId],
) -> Result<Vec<Vec<ThreadId>>, AllocError>
    requires { AreLiveThreads (shown world.now) threads.now }
    ensures { IfOk result (λ cycles. AreCycles (shown world.now) (map vec_items cycles.items)) }
{
    let nexts = nexts_of(alloc, world, threads)?;
    cycles_along(alloc, threads, &nexts)
}

/// The cycles of owners of a state in which each of these threads waits for the next one that is
/// told here, if one is. All live threads are among them, by rising number.
pub fn cycles_along(
    alloc: Global,
    threads: &[ThreadId],
    nexts: &[Option<ThreadId>],
) -> Result<Vec<Vec<ThreadId>>, AllocError>
    requires { (s : State) × AreNexts s threads.now nexts.now }
    ensures { IfOk result (λ cycles. (s : State) → AreNexts s threads.now nexts.now
        → AreCycles s (map vec_items cycles.items)) }
{
    let row = positions_of(alloc, threads, nexts)?;
    let positions = cycles_of_row(alloc, &row)?;
    let cycles = threads_of_all(alloc, threads, &positions)?;
    Ok(cycles)
}

/// For each list of positions, the threads there.
fn threads_of_all(
    alloc: Global,
    threads: &[ThreadId],
    lists: &[Vec<usize>],
) -> Result<Vec<Vec<ThreadId>>, AllocError>
    requires { (list : List ℕ) (position : ℕ) → IsIn list (map vec_items lists.now)
        → IsIn position list → position < length threads.now }
    ensures { IfOk result (λ all. map vec_items all.items
        ≡ map (map (thread_at_position threads.now)) (map vec_items lists.now)) }
{
    let mut all = Vec::new(alloc);
    'lists: for positions in lists {
        all.push(threads_of(alloc, threads, positions)?)?;
    }
    Ok(all)
}

/// The threads at some positions.
fn threads_of(
    alloc: Global,
    threads: &[ThreadId],
    positions: &[usize],
) -> Result<Vec<ThreadId>, AllocError>
    requires { (position : ℕ) → IsIn position positions.now → position < length threads.now }
    ensures { IfOk result (λ found. found.items
        ≡ map (thread_at_position threads.now) positions.now) }
{
    let mut found = Vec::new(alloc);
    'positions: for position in positions {
        found.push(threads[*position])?;
    }
    Ok(found)
}
