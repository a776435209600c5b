//! The threads and objects that are drawn, by rising number.

ghost use Rattle.std.specs.Prelude.{◌≡◌, ◌++◌, ◌<◌, ◌≤◌, OnOk, IfOk, IsErrOf};
ghost use Rattle.std.specs.List.{flat_map};
ghost use Rattle.jls_check.specs.MachineState.{state};
ghost use Rattle.pictures.specs.Pictures.{AreInOrder, HasManyLanes, IsCast, all_attached, all_live};
ghost use Rattle.pictures.specs.Pictures.{all_named, all_owned, all_used, attached, lane_numbers};
ghost use Rattle.pictures.specs.Pictures.{live_number, named, number_of, owned_number};
ghost use Rattle.pictures.specs.Pictures.{object_of_act, strip_numbers, threads_numbered};
ghost use Rattle.pictures.specs.Pictures.{used_number};
ghost use Rattle.pictures.specs.declared.faults.PictureFault.TheVariants.{TooManyColumns, TooManyLanes};

use crate::columns::Column;
use crate::faults::PictureFault;
use crate::picturing::MOST_LANES;
use jls_check::Machine;
use lock_word::{ObjectId, ThreadId};
use std::alloc::{AllocError, Global};
use step_core::{Doing, Move};

/// The numbers of the threads and objects that are drawn.
#[derive(Drop)]
pub(crate) struct Cast {
    pub(crate) threads: Vec<u32>,
    pub(crate) objects: Vec<u32>,
}

/// Who and what is drawn of some columns, where the machine has played the front of them.
pub(crate) fn cast_of(
    alloc: Global,
    machine: &Machine,
    front: &[Column],
    columns: &[Column],
) -> Result<Cast, PictureFault>
    ensures cast { IfOk result (IsCast (state machine.now) front.now columns.now) }
    ensures lanes { IsErrOf result TooManyLanes
        → HasManyLanes (state machine.now) front.now columns.now }
    ensures columns { IsErrOf result TooManyColumns → ⊥ }
{
    let threads = lane_numbers(alloc, machine, front, columns)?;
    let objects = strip_numbers(alloc, machine, front, columns)?;
    if threads.len() > MOST_LANES || objects.len() > MOST_LANES {
        return Err(PictureFault::TooManyLanes);
    }
    Ok(Cast { threads, objects })
}

/// The numbers of the threads that are live before the columns, and of those that are attached in
/// some column.
fn lane_numbers(
    alloc: Global,
    machine: &Machine,
    front: &[Column],
    columns: &[Column],
) -> Result<Vec<u32>, AllocError>
    ensures { IfOk result (λ numbers. AreInOrder
        (lane_numbers (state machine.now) front.now columns.now) numbers.items) }
{
    let mut threads = Vec::new(alloc);
    put_all_attached(&mut threads, front)?;
    let mut numbers = Vec::new(alloc);
    put_all_live(&mut numbers, machine, &threads)?;
    put_all_attached(&mut numbers, columns)?;
    put_in_order(&mut numbers);
    Ok(numbers)
}

/// The numbers of the objects that are named by what a thread does before the columns, or have an
/// owner then, and of those that a call in some column names.
fn strip_numbers(
    alloc: Global,
    machine: &Machine,
    front: &[Column],
    columns: &[Column],
) -> Result<Vec<u32>, AllocError>
    ensures { IfOk result (λ numbers. AreInOrder
        (strip_numbers (state machine.now) front.now columns.now) numbers.items) }
{
    let mut threads = Vec::new(alloc);
    put_all_attached(&mut threads, front)?;
    let mut objects = Vec::new(alloc);
    put_all_named(&mut objects, front)?;
    let mut numbers = Vec::new(alloc);
    put_all_used(&mut numbers, machine, &threads)?;
    put_all_owned(&mut numbers, machine, &objects)?;
    put_all_named(&mut numbers, columns)?;
    put_in_order(&mut numbers);
    Ok(numbers)
}

// ---- before the columns

/// Adds those of some numbers that are of live threads.
fn put_all_live(
    numbers: &mut Vec<u32>,
    machine: &Machine,
    threads: &[u32],
) -> Result<(), AllocError>
    ensures { OnOk result (numbers.new.items
        ≡ numbers.old.items ++ all_live (state machine.now) threads.now) }
{
    'threads: for number in threads {
        put_live(numbers, machine, *number)?;
    }
    Ok(())
}

fn put_live(numbers: &mut Vec<u32>, machine: &Machine, number: u32) -> Result<(), AllocError>
    ensures { OnOk result (numbers.new.items ≡ numbers.old.items
        ++ live_number number ((state machine.now).thread (record { 0 = number }))) }
{
    if let Some(_) = machine.live(ThreadId(number)) {
        numbers.push(number)?;
    }
    Ok(())
}

/// Adds the numbers of the objects that are named by what some threads do.
fn put_all_used(
    numbers: &mut Vec<u32>,
    machine: &Machine,
    threads: &[u32],
) -> Result<(), AllocError>
    ensures { OnOk result (numbers.new.items
        ≡ numbers.old.items ++ all_used (state machine.now) threads.now) }
{
    'threads: for number in threads {
        put_used(numbers, machine, *number)?;
    }
    Ok(())
}

fn put_used(numbers: &mut Vec<u32>, machine: &Machine, number: u32) -> Result<(), AllocError>
    ensures { OnOk result (numbers.new.items ≡ numbers.old.items
        ++ used_number ((state machine.now).thread (record { 0 = number }))) }
{
    match machine.live(ThreadId(number)) {
        Some(live) => put_number(numbers, object_of_act(live.act)),
        None => Ok(()),
    }
}

/// The object that is named by what a thread does.
fn object_of_act(act: Doing) -> Option<ObjectId>
    ensures { result ≡ object_of_act act }
{
    match act {
        Doing::Wants(call) => call.object(),
        Doing::Waits { object, .. } | Doing::Back { object, .. } => Some(object),
        Doing::Idle | Doing::Has(_) => None,
    }
}

/// Adds those of some numbers that are of objects with an owner.
fn put_all_owned(
    numbers: &mut Vec<u32>,
    machine: &Machine,
    objects: &[u32],
) -> Result<(), AllocError>
    ensures { OnOk result (numbers.new.items
        ≡ numbers.old.items ++ all_owned (state machine.now) objects.now) }
{
    'objects: for number in objects {
        put_owned(numbers, machine, *number)?;
    }
    Ok(())
}

fn put_owned(numbers: &mut Vec<u32>, machine: &Machine, number: u32) -> Result<(), AllocError>
    ensures { OnOk result (numbers.new.items ≡ numbers.old.items
        ++ owned_number number ((state machine.now).monitor (record { 0 = number })).owner) }
{
    let held = machine.held(ObjectId(number));
    if let Some(_) = held.owner {
        numbers.push(number)?;
    }
    Ok(())
}

// ---- in the columns

/// Adds the numbers of the threads that are attached in some column.
fn put_all_attached(numbers: &mut Vec<u32>, columns: &[Column]) -> Result<(), AllocError>
    ensures { OnOk result (numbers.new.items ≡ numbers.old.items ++ all_attached columns.now) }
{
    'columns: for column in columns {
        put_attached(numbers, &column.moves)?;
    }
    Ok(())
}

fn put_attached(numbers: &mut Vec<u32>, moves: &[Option<Move>]) -> Result<(), AllocError>
    ensures { OnOk result (numbers.new.items ≡ numbers.old.items ++ flat_map attached moves.now) }
{
    'moves: for made in moves {
        put_attach(numbers, *made)?;
    }
    Ok(())
}

fn put_attach(numbers: &mut Vec<u32>, made: Option<Move>) -> Result<(), AllocError>
    ensures { OnOk result (numbers.new.items ≡ numbers.old.items ++ attached made) }
{
    if let Some(Move::Attach { thread }) = made {
        numbers.push(thread.0)?;
    }
    Ok(())
}

/// Adds the numbers of the objects that a call in some column names.
fn put_all_named(numbers: &mut Vec<u32>, columns: &[Column]) -> Result<(), AllocError>
    ensures { OnOk result (numbers.new.items ≡ numbers.old.items ++ all_named columns.now) }
{
    'columns: for column in columns {
        put_named(numbers, &column.moves)?;
    }
    Ok(())
}

fn put_named(numbers: &mut Vec<u32>, moves: &[Option<Move>]) -> Result<(), AllocError>
    ensures { OnOk result (numbers.new.items ≡ numbers.old.items ++ flat_map named moves.now) }
{
    'moves: for made in moves {
        put_name(numbers, *made)?;
    }
    Ok(())
}

fn put_name(numbers: &mut Vec<u32>, made: Option<Move>) -> Result<(), AllocError>
    ensures { OnOk result (numbers.new.items ≡ numbers.old.items ++ named made) }
{
    match made {
        Some(Move::Call { call, .. }) => put_number(numbers, call.object()),
        _ => Ok(()),
    }
}

fn put_number(numbers: &mut Vec<u32>, object: Option<ObjectId>) -> Result<(), AllocError>
    ensures { OnOk result (numbers.new.items ≡ numbers.old.items ++ number_of object) }
{
    if let Some(object) = object {
        numbers.push(object.0)?;
    }
    Ok(())
}

/// Orders numbers, and keeps one of those that are equal.
fn put_in_order(numbers: &mut Vec<u32>)
    ensures { AreInOrder numbers.old.items numbers.new.items }
{
    numbers.sort_unstable();
    numbers.dedup();
}

/// The threads with some numbers.
pub(crate) fn threads_numbered(alloc: Global, numbers: &[u32]) -> Result<Vec<ThreadId>, AllocError>
    ensures { IfOk result (λ threads. threads.items ≡ threads_numbered numbers.now) }
{
    let mut threads = Vec::new(alloc);
    'numbers: for number in numbers {
        threads.push(ThreadId(*number))?;
    }
    Ok(threads)
}
