//! The cycles of a row, in which each number leads to one other number at most.

ghost use Rattle.std.specs.Prelude.{◌≡◌, ℕ, ◌<◌, length, map, vec_items, IfOk, OnOk};
ghost use Rattle.owner_cycles.specs.Rows.{AreCleared, AreCyclesOfRow, AreOffCycles, IsIn, IsPartFrom};
ghost use Rattle.owner_cycles.specs.Rows.{IsRing, IsRow, IsWalk, leads_to, with_path};

use std::alloc::{AllocError, Global};

/// A walk along a row: the numbers that it met, in order, and where it stopped.
#[derive(Drop)]
struct Walk {
    path: Vec<usize>,
    end: Option<usize>,
}

/// The cycles of a row, each from its lowest number on, by lowest number.
pub(crate) fn cycles_of_row(
    alloc: Global,
    row: &[Option<usize>],
) -> Result<Vec<Vec<usize>>, AllocError>
    requires { IsRow row.now }
    ensures { IfOk result (λ cycles. AreCyclesOfRow row.now (map vec_items cycles.items)) }
{
    // With the others out of the way, a walk from the lowest number of a cycle goes round it once.
    let mut seen = off_cycles(alloc, row)?;
    let mut cycles = Vec::new(alloc);
    'starts: for start in 0..row.len() {
        let walk = walk_from(alloc, row, &mut seen, start)?;
        add_path(&mut cycles, walk.path)?;
    }
    Ok(cycles)
}

/// Adds a path, unless it is empty.
fn add_path(paths: &mut Vec<Vec<usize>>, path: Vec<usize>) -> Result<(), AllocError>
    ensures { OnOk result (map vec_items paths.new.items
        ≡ with_path (map vec_items paths.old.items) path.items) }
{
    if !path.is_empty() {
        paths.push(path)?;
    }
    Ok(())
}

/// Whether each number of a row stands on no cycle.
fn off_cycles(alloc: Global, row: &[Option<usize>]) -> Result<Vec<bool>, AllocError>
    requires { IsRow row.now }
    ensures { IfOk result (λ off. AreOffCycles row.now off.items) }
{
    let mut seen = vec![in alloc; false; row.len()]?;
    let mut off = vec![in alloc; true; row.len()]?;
    'starts: for start in 0..row.len() {
        let walk = walk_from(alloc, row, &mut seen, start)?;
        clear(&mut off, ring_of(&walk));
    }
    Ok(off)
}

/// Walks along a row from a number on, until it meets one that was seen or comes to an end. What it
/// meets is seen then.
fn walk_from(
    alloc: Global,
    row: &[Option<usize>],
    seen: &mut [bool],
    start: usize,
) -> Result<Walk, AllocError>
    requires row { IsRow row.now }
    requires start { start < length row.now }
    requires seen { length seen.old ≡ length row.now }
    ensures long { length seen.new ≡ length seen.old }
    ensures walk { IfOk result (λ walk.
        IsWalk (leads_to row.now) seen.old seen.new start walk.path.items walk.end) }
{
    let mut path = Vec::new(alloc);
    let mut at = Some(start);
    'walk: while let Some(number) = at {
        if seen[number] {
            return Ok(Walk { path, end: at });
        }
        path.push(number)?;
        seen[number] = true;
        at = row[number];
    }
    Ok(Walk { path, end: at })
}

/// The part of a walk's path that its end closes to a cycle.
fn ring_of(walk: &Walk) -> &[usize]
    ensures { IsRing walk.now.end walk.now.path.items result.now }
{
    match walk.end {
        Some(end) => part_from(&walk.path, end),
        None => &[],
    }
}

/// The part of a path from a number on, which is empty where the number is not on it.
fn part_from(path: &[usize], number: usize) -> &[usize]
    ensures { IsPartFrom number path.now result.now }
{
    'positions: for position in 0..path.len() {
        if path[position] == number {
            return &path[position..];
        }
    }
    &[]
}

/// Makes the numbers of a part not seen.
fn clear(seen: &mut [bool], part: &[usize])
    requires { (v : ℕ) → IsIn v part.now → v < length seen.old }
    ensures { AreCleared seen.old seen.new part.now }
{
    'part: for number in part {
        seen[*number] = false;
    }
}
