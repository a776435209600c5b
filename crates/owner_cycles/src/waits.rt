//! The live threads of a world, and for whom each of them waits.

ghost use Rattle.std.specs.Prelude.{◌≡◌, ℕ, IfOk, OnOk, length, map};
ghost use Rattle.std.specs.List.{Contains};
ghost use Rattle.std.specs.List.Sorted.{IsStrictlyIncreasing};
ghost use Rattle.step_core.specs.Cycles.{next};
ghost use Rattle.step_core.specs.Shown.{shown};
ghost use Rattle.owner_cycles.specs.Threads.{AreLiveThreads, Ascend, HasPositions, HaveBerths};
ghost use Rattle.owner_cycles.specs.Threads.{IsPosition, threads_numbered, with_holder};

use lock_word::ThreadId;
use std::alloc::{AllocError, Global};
use step_core::World;

/// The live threads of a world, by rising number.
pub fn live_threads(alloc: Global, world: &World) -> Result<Vec<ThreadId>, AllocError>
    ensures { IfOk result (λ threads. AreLiveThreads (shown world.now) threads.items) }
{
    let mut numbers = berthed_numbers(alloc, world)?;
    put_in_order(&mut numbers);
    let threads = with_numbers(alloc, &numbers)?;
    Ok(threads)
}

/// The numbers of the threads of a world, by index.
fn berthed_numbers(alloc: Global, world: &World) -> Result<Vec<u32>, AllocError>
    ensures { IfOk result (λ numbers.
        HaveBerths world.now.berths (length world.now.berths) numbers.items) }
{
    let mut numbers = Vec::new(alloc);
    'berths: for berth in 0..world.indices() {
        add_holder(&mut numbers, world.thread_at(berth + 1))?;
    }
    Ok(numbers)
}

/// Adds the number of the thread that has a berth, if one has it.
fn add_holder(numbers: &mut Vec<u32>, holder: Option<ThreadId>) -> Result<(), AllocError>
    ensures { OnOk result (numbers.new.items ≡ with_holder numbers.old.items holder) }
{
    if let Some(thread) = holder {
        numbers.push(thread.0)?;
    }
    Ok(())
}

/// Orders numbers, and keeps one of those that are equal.
fn put_in_order(numbers: &mut Vec<u32>)
    ensures rises { IsStrictlyIncreasing numbers.new.items }
    ensures keeps { (n : ℕ) → Contains numbers.old.items n → Contains numbers.new.items n }
    ensures adds_none { (n : ℕ) → Contains numbers.new.items n → Contains numbers.old.items n }
{
    numbers.sort_unstable();
    numbers.dedup();
}

/// The threads with some numbers.
fn with_numbers(alloc: Global, numbers: &[u32]) -> Result<Vec<ThreadId>, AllocError>
    ensures { IfOk result (λ threads. threads.items ≡ threads_numbered numbers.now) }
{
    let mut threads = Vec::new(alloc);
    'numbers: for number in numbers {
        threads.push(ThreadId(*number))?;
    }
    Ok(threads)
}

/// For each of some threads, its next one.
pub(crate) fn nexts_of(
    alloc: Global,
    world: &World,
    threads: &[ThreadId],
) -> Result<Vec<Option<ThreadId>>, AllocError>
    ensures { IfOk result (λ nexts. nexts.items ≡ map (next (shown world.now)) threads.now) }
{
    let mut nexts = Vec::new(alloc);
    'threads: for thread in threads {
        nexts.push(next_of(world, *thread))?;
    }
    Ok(nexts)
}

/// For each of some threads, if it is there, its position among others by rising number.
pub(crate) fn positions_of(
    alloc: Global,
    threads: &[ThreadId],
    nexts: &[Option<ThreadId>],
) -> Result<Vec<Option<usize>>, AllocError>
    requires { Ascend threads.now }
    ensures { IfOk result (λ row. HasPositions threads.now nexts.now row.items) }
{
    let mut row = Vec::new(alloc);
    'nexts: for next in nexts {
        row.push(position_of(threads, *next))?;
    }
    Ok(row)
}

/// The position of a thread among some by rising number.
fn position_of(threads: &[ThreadId], thread: Option<ThreadId>) -> Option<usize>
    requires { Ascend threads.now }
    ensures { IsPosition threads.now thread result }
{
    match threads.binary_search(&thread?) {
        Ok(position) => Some(position),
        Err(_) => None,
    }
}

/// The owner of the object that a thread wants to enter or comes back to, where that is another
/// thread.
fn next_of(world: &World, thread: ThreadId) -> Option<ThreadId>
    ensures { result ≡ next (shown world.now) thread }
{
    let object = world.doing(thread)?.object_wanted()?;
    let owner = world.owner(object)?;
    if owner == thread { None } else { Some(owner) }
}
