//! Playing the steps of a script that a window shows.

ghost use Rattle.std.specs.Prelude.{◌≡◌, ◌<◌, ◌-◌, ◌^◌, true, List, IfErr, IfOk, OnOk, length};
ghost use Rattle.step_core.specs.Machine.{Run, opening};
ghost use Rattle.step_core.specs.Shown.{shown};
ghost use Rattle.step_core.specs.World.{WorldState};
ghost use Rattle.history.specs.Histories.{first_world};
ghost use Rattle.pictures.specs.Pictures.{IsRun, all_moves};
ghost use Rattle.drawing.specs.Columns.{strip_objects};
ghost use Rattle.drawing.specs.Drawings.{IsPictureReason, IsPlanReason, IsPlayed};
ghost use Rattle.drawing.specs.Drawings.{IsTrialReason};
ghost use Rattle.drawing.specs.Windows.{IsBeyond};

use crate::columns::{WordedColumns, play_steps, play_worded_steps};
use crate::faults::DrawFault;
use crate::windows::Window;
use history::Plan;
use lock_word::Word;
use pictures::{Column, PictureFault, Strip, drawn_objects};
use std::alloc::{AllocError, Global};
use step_core::{Request, World};
use text_streams::FileFault;

/// The part of a script that a window shows, as it was played.
#[derive(Drop)]
pub(crate) struct Played {
    /// The columns in front of the window.
    pub(crate) front: Vec<Column>,
    pub(crate) columns: Vec<Column>,
    /// The numbers of the objects that have strips.
    pub(crate) drawn: Vec<u32>,
    /// The header words of these objects behind each column.
    pub(crate) words: Vec<Vec<Word>>,
    /// The world behind the last column.
    pub(crate) world: World,
}

/// Plays a script up to the end of a window.
///
/// The part in the window is played twice, first to know which objects are drawn.
pub(crate) fn play_plan(alloc: Global, plan: &Plan, window: Window) -> Result<Played, DrawFault>
    ensures within { OnOk result (IsBeyond window (length plan.now.steps.items) → ⊥) }
    ensures played { IfOk result (λ played. (worlds : List WorldState)
        × IsPlayed plan.now window played worlds) }
    ensures opens { OnOk result
        (shown (first_world plan.now) ≡ opening (length plan.now.lows.items)) }
    ensures few { IfOk result (λ played. length played.front.items < 2 ^ 32 - 1) }
    ensures fault { IfErr result (IsPlanReason plan.now window) }
{
    let cut = window.cut(plan.steps.len())?;
    let objects = plan.lows.len() as u32;
    let mut world = World::new(alloc, &plan.lows, plan.monitors, plan.indices, plan.split)?;
    let front = play_steps(alloc, &mut world, &plan.steps[..cut.begin])?;
    let steps = &plan.steps[cut.begin..cut.end];
    let drawn = drawn_in(alloc, objects, &world, &front, steps)?;
    let WordedColumns { columns, words } = play_worded_steps(alloc, &mut world, steps, &drawn)?;
    Ok(Played {
        front,
        columns,
        drawn,
        words,
        world,
    })
}

/// The objects that have strips where steps are played from a world on, which the columns in front
/// of them lead to.
fn drawn_in(
    alloc: Global,
    objects: u32,
    world: &World,
    front: &[Column],
    steps: &[Request],
) -> Result<Vec<u32>, DrawFault>
    requires { Run (opening objects) (all_moves front.now) (shown world.now) }
    ensures fault { IfErr result (IsTrialReason objects front.now world.now steps.now) }
{
    let mut trial = world.clone()?;
    let columns = play_steps(alloc, &mut trial, steps)?;
    objects_in(alloc, objects, front, &columns)
}

/// The objects that have strips where columns are drawn, with others in front of them.
fn objects_in(
    alloc: Global,
    objects: u32,
    front: &[Column],
    columns: &[Column],
) -> Result<Vec<u32>, DrawFault>
    requires { IsRun objects front.now columns.now }
    ensures fault { IfErr result (IsPictureReason objects front.now columns.now) }
{
    match drawn_objects(alloc, objects, front, columns) {
        Ok(drawn) => Ok(drawn),
        Err(PictureFault::TooManyColumns) => Err(DrawFault::TooManyColumns),
        Err(PictureFault::TooManyLanes) => Err(DrawFault::TooManyLanes),
        Err(PictureFault::Memory) => Err(DrawFault::File(FileFault::Memory)),
    }
}

/// Whether these are the objects of some strips, in their order.
pub(crate) fn are_drawn(alloc: Global, strips: &[Strip], drawn: &[u32]) -> Result<bool, AllocError>
    ensures { IfOk result (λ same. same ≡ true → strip_objects strips.now ≡ drawn.now) }
{
    let numbers = strip_objects(alloc, strips)?;
    Ok(numbers.as_slice() == drawn)
}

/// The numbers of the objects of some strips.
fn strip_objects(alloc: Global, strips: &[Strip]) -> Result<Vec<u32>, AllocError>
    ensures { IfOk result (λ numbers. numbers.items ≡ strip_objects strips.now) }
{
    let mut numbers = Vec::new(alloc);
    'strips: for strip in strips {
        numbers.push(strip.object.0)?;
    }
    Ok(numbers)
}
