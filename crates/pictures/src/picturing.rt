//! The picture of a history.

ghost use Rattle.std.specs.Prelude.{◌≡◌, ◌↔◌, ◌⊎◌, ◌<◌, ◌≤◌, ◌++◌, ◌^◌, ◌-◌, IfErr, IfOk, OnOk, IsErrOf, length};
ghost use Rattle.jls_check.specs.MachineState.{state};
ghost use Rattle.step_core.specs.Machine.{Run, opening};
ghost use Rattle.pictures.specs.Pictures.{AreDrawn, AreOpenStrips, CanRun, IsPicture};
ghost use Rattle.pictures.specs.Pictures.{HasTooManyCycles, HasTooManyLanes, IsWithin};
ghost use Rattle.pictures.specs.Pictures.{all_hand_overs, all_moves};
ghost use Rattle.pictures.specs.Pictures.{AreShort, IsFilm, IsOpenStrip, IsRun};
ghost use Rattle.pictures.specs.Pictures.{threads_numbered};
ghost use Rattle.pictures.specs.declared.faults.PictureFault.TheVariants.{TooManyColumns, TooManyLanes};

use crate::arrows::put_hand_overs;
use crate::columns::Column;
use crate::cycles::cycles_of;
use crate::faults::PictureFault;
use crate::late::{finished_lanes, open_lanes};
use crate::marks::{moments_of, refusals_of};
use crate::order::{cast_of, threads_numbered};
use crate::picture::{Arrow, Lane, Picture, Strip};
use crate::playing::{play_columns, play_moves};
use crate::spans::mark_strips;
use jls_check::Machine;
use lock_word::{Memory, ObjectId, ThreadId, Word};
use std::alloc::{AllocError, Global};

/// The most columns of a picture.
pub const MOST_COLUMNS: usize = 20_000;

/// The most lanes of a picture, and the most strips.
pub const MOST_LANES: usize = 200;

/// What a machine that plays columns has to say, and the machine behind them.
#[derive(Drop)]
struct Film {
    lanes: Vec<Lane>,
    strips: Vec<Strip>,
    arrows: Vec<Arrow>,
    machine: Machine,
}

/// The picture of columns that are a run of the machine with so many objects (`docs/MACHINE.md`),
/// where those in front of them are played and not drawn: a lane for each thread that is live then
/// or is attached, a strip for each object that is in use then or that a call names, and the cycles
/// of owners behind the last column.
///
/// For each column there may be the header words behind it of the objects that are
/// [drawn](drawn_objects), in their order.
pub fn picture_of(
    alloc: Global,
    objects: u32,
    front: &[Column],
    columns: &[Column],
    words: &[Vec<Word>],
) -> Result<Picture, PictureFault>
    requires run { IsRun objects front.now columns.now }
    requires front { length front.now < 2 ^ 32 - 1 }
    ensures picture { IfOk result (IsPicture objects front.now columns.now words.now) }
    ensures within { IfOk result IsWithin }
    ensures columns { IsErrOf result TooManyColumns ↔ (MOST_COLUMNS < length columns.now) }
    ensures lanes { IsErrOf result TooManyLanes
        → HasTooManyLanes objects front.now columns.now
        ⊎ HasTooManyCycles objects front.now columns.now }
{
    few_enough(columns)?;
    let machine = machine_behind(alloc, objects, front)?;
    let cast = cast_of(alloc, &machine, front, columns)?;
    let threads = threads_numbered(alloc, &cast.threads)?;
    let mut film = film_of(alloc, machine, columns, &threads, &cast.objects, words)?;
    put_all_hand_overs(&mut film.arrows, &film.strips)?;
    let cycles = cycles_of(alloc, &film.machine, &threads)?;
    Ok(Picture {
        first: front.len() as u32 + 1,
        columns: columns.len() as u32,
        lanes: film.lanes,
        strips: film.strips,
        arrows: film.arrows,
        moments: moments_of(alloc, columns)?,
        refusals: refusals_of(alloc, columns)?,
        cycles,
    })
}

/// The numbers of the objects that have strips in the [picture](picture_of) of these columns.
pub fn drawn_objects(
    alloc: Global,
    objects: u32,
    front: &[Column],
    columns: &[Column],
) -> Result<Vec<u32>, PictureFault>
    requires { IsRun objects front.now columns.now }
    ensures drawn { IfOk result (λ drawn.
        AreDrawn objects front.now columns.now drawn.items) }
    ensures within { IfOk result (λ drawn. length drawn.items ≤ MOST_LANES) }
    ensures columns { IsErrOf result TooManyColumns ↔ (MOST_COLUMNS < length columns.now) }
    ensures lanes { IsErrOf result TooManyLanes → HasTooManyLanes objects front.now columns.now }
{
    few_enough(columns)?;
    let machine = machine_behind(alloc, objects, front)?;
    let cast = cast_of(alloc, &machine, front, columns)?;
    Ok(cast.objects)
}

/// That there are no more columns than a picture shows.
fn few_enough(columns: &[Column]) -> Result<(), PictureFault>
    ensures few { OnOk result (length columns.now ≤ MOST_COLUMNS) }
    ensures many { IfErr result (λ fault.
        (fault ≡ TooManyColumns) × (MOST_COLUMNS < length columns.now)) }
{
    if columns.len() > MOST_COLUMNS {
        return Err(PictureFault::TooManyColumns);
    }
    Ok(())
}

/// The machine with so many objects behind some columns, which are lawful.
fn machine_behind(alloc: Global, objects: u32, front: &[Column]) -> Result<Machine, Memory>
    requires { CanRun (opening objects) (all_moves front.now) }
    ensures { IfOk result (λ machine. Run (opening objects) (all_moves front.now) (state machine)) }
{
    let mut machine = Machine::new(alloc, objects)?;
    play_columns(&mut machine, front)?;
    Ok(machine)
}

/// What a machine says that plays the columns.
fn film_of(
    alloc: Global,
    machine: Machine,
    columns: &[Column],
    threads: &[ThreadId],
    drawn: &[u32],
    words: &[Vec<Word>],
) -> Result<Film, Memory>
    requires run { CanRun (state machine) (all_moves columns.now) }
    requires few { length columns.now ≤ MOST_COLUMNS }
    ensures { IfOk result
        (IsFilm (state machine) columns.now threads.now drawn.now words.now) }
{
    let mut lanes = open_lanes(alloc, columns, threads)?;
    let mut strips = open_strips(alloc, drawn)?;
    let mut arrows = Vec::new(alloc);
    let mut machine = machine;
    let mut number = 0u32;
    'columns: for column in columns {
        play_moves(
            &mut machine,
            &mut arrows,
            &mut lanes,
            threads,
            number,
            &column.moves,
        )?;
        mark_strips(&mut strips, &machine, words, number)?;
        number += 1;
    }
    Ok(Film {
        lanes: finished_lanes(alloc, lanes, &machine, number)?,
        strips,
        arrows,
        machine,
    })
}

/// The strips of some objects before the first column.
fn open_strips(alloc: Global, drawn: &[u32]) -> Result<Vec<Strip>, AllocError>
    ensures { IfOk result (λ strips. AreOpenStrips drawn.now strips.items) }
{
    let mut strips = Vec::new(alloc);
    'drawn: for number in drawn {
        strips.push(open_strip(alloc, *number))?;
    }
    Ok(strips)
}

fn open_strip(alloc: Global, number: u32) -> Strip
    ensures { IsOpenStrip number result }
{
    Strip {
        object: ObjectId(number),
        spans: Vec::new(alloc),
    }
}

/// Adds what the strips hand over.
fn put_all_hand_overs(arrows: &mut Vec<Arrow>, strips: &[Strip]) -> Result<(), AllocError>
    requires { AreShort strips.now }
    ensures { OnOk result (arrows.new.items ≡ arrows.old.items ++ all_hand_overs strips.now) }
{
    'strips: for strip in strips {
        put_hand_overs(arrows, &strip.spans)?;
    }
    Ok(())
}
