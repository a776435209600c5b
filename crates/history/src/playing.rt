//! Playing a script, for the world that it leads to.

ghost use Rattle.std.specs.Prelude.{◌≡◌, ◌<◌, List, Err, IfErr, IfOk, OnOk, Some, length};
ghost use Rattle.text_streams.specs.declared.faults.FileFault.TheVariants.{Memory as WantOfMemory};
ghost use Rattle.script_text.specs.declared.lines.Line.{Line as LineData};
ghost use Rattle.script_text.specs.Lines.{IsScript, script_text};
ghost use Rattle.script_text.specs.Scripts.{IsReasonFor};
ghost use Rattle.step_core.specs.declared.steps.Fault.TheVariants.{Memory as OutOfMemory};
ghost use Rattle.history.specs.Histories.{first_world};
ghost use Rattle.history.specs.Plays.{PlaysOne, IsPlayOf, Plays};

use crate::names::Names;
use crate::plans::{Plan, plan_of};
use crate::running::plan_in;
use lock_word::Memory;
use script_text::{MOST_BYTES, Script};
use std::alloc::Global;
use step_core::{Fault, RelayoutFault, Request, World};
use text_streams::FileFault;

/// Plays a script: the world behind its last step, with the names of its threads and objects.
///
/// A step that is refused for want of memory ends the play; one that is refused otherwise changes
/// nothing.
pub fn play(alloc: Global, script: &Script<'_>) -> Result<(World, Names), FileFault>
    ensures played { IfOk result (λ play. IsPlayOf script.now play.0 play.1) }
    ensures memory { IfErr result (λ fault. fault ≡ WantOfMemory) }
{
    let plan = plan_of(alloc, script.lines())?;
    let world = world_of(alloc, &plan)?;
    Ok((world, plan.names))
}

/// Plays the script that some bytes are the text of: the world behind its last step, with the names
/// of its threads and objects. Else a fault tells why there is none.
///
/// It is [`play`] of what [`read_script`](script_text::read_script) answers, with no list of the
/// lines.
pub fn play_text(alloc: Global, bytes: &[u8]) -> Result<(World, Names), FileFault>
    ensures played { IfOk result (λ play. (lines : List LineData) × IsScript lines
        × (bytes.now ≡ script_text lines) × IsPlayOf lines play.0 play.1) }
    ensures too_long { MOST_BYTES < length bytes.now → result ≡ Err FileFault.Read }
    ensures fault { IfErr result (IsReasonFor bytes.now) }
{
    let plan = plan_in(alloc, bytes)?;
    let world = world_of(alloc, &plan)?;
    Ok((world, plan.names))
}

/// The world that a plan leads to.
fn world_of(alloc: Global, plan: &Plan) -> Result<World, Memory>
    ensures { IfOk result (λ world. Plays (first_world plan.now) plan.now.steps.items world) }
{
    let mut world = World::new(alloc, &plan.lows, plan.monitors, plan.indices, plan.split)?;
    do_steps(&mut world, &plan.steps)?;
    Ok(world)
}

/// Does steps and relayouts, one after the other.
fn do_steps(world: &mut World, steps: &[Request]) -> Result<(), Memory>
    ensures { OnOk result (Plays world.old steps.now world.new) }
{
    'steps: for request in steps {
        do_request(world, *request)?;
    }
    Ok(())
}

/// Does a step or a relayout.
fn do_request(world: &mut World, request: Request) -> Result<(), Memory>
    ensures { OnOk result (PlaysOne world.old request world.new) }
{
    match request {
        Request::Step(step) => { unless_memory(world.step(step).err()) }
        Request::Relayout(split) => match world.relayout(split) {
            Err(RelayoutFault::Memory) => Err(Memory),
            Ok(_) | Err(_) => Ok(()),
        },
    }
}

/// Whether an answer is another than want of memory.
fn unless_memory(fault: Option<Fault>) -> Result<(), Memory>
    ensures { OnOk result (fault ≡ Some OutOfMemory → ⊥) }
{
    match fault {
        Some(Fault::Memory) => Err(Memory),
        _ => Ok(()),
    }
}
