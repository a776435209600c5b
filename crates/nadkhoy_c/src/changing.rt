//! The calls that change a world.

ghost use Rattle.std.specs.Prelude.{◌≡◌, ◌≤◌, length, Bool, Some, None, IfOk};
ghost use Rattle.lock_word.specs.Layout.{greatest_index};
ghost use Rattle.step_core.specs.World.{opening_world};
ghost use Rattle.nadkhoy_c.specs.Changing.{AfterCall, after_step, after_relayout_call, open_as, Opened};
ghost use Rattle.nadkhoy_c.specs.Reading.{split_of};

use crate::plain::{PlainDid, PlainStep};
use crate::reading::{split_of, step_of};
use crate::slot::WorldSlot;
use crate::status::Status;
use crate::writing::plain_did;
use std::alloc::Global;
use step_core::{Memory, Split, World};

/// Makes a world in an empty slot, where the sizes are in range.
pub(crate) fn open(
    alloc: Global,
    lows: &[u8],
    monitors: u32,
    indices: u16,
    split: u32,
    slot: &mut WorldSlot,
) -> u32
    requires { slot.old.raw.value ≡ None }
    ensures { (room : Bool) × (record { answer = result; world = slot.new.raw.value }
        ≡ open_as room lows.now monitors indices (split_of split)) }
{
    let Some(split) = split_of(split) else {
        return Status::NoSplit.number();
    };
    let most = split.greatest_index();
    if lows.len() > 65_535 || monitors > 8_388_608 || indices < 1 || indices > most {
        return Status::Range.number();
    }
    let Ok(world) = boxed(alloc, lows, monitors, indices, split) else {
        return Status::Memory.number();
    };
    *slot = WorldSlot::of(world);
    Status::Done.number()
}

fn boxed(
    alloc: Global,
    lows: &[u8],
    monitors: u32,
    indices: u16,
    split: Split,
) -> Result<Box<World>, Memory>
    requires objects { length lows.now ≤ 65535 }
    requires monitors { monitors ≤ 8388608 }
    requires low { 1 ≤ indices }
    requires high { indices ≤ greatest_index split }
    ensures { IfOk result (λ b. b.value ≡ opening_world lows.now monitors indices split) }
{
    let world = World::new(alloc, lows, monitors, indices, split)?;
    Ok(Box::new(alloc, world)?)
}

/// Does a step, and writes what it did where it was accepted.
pub(crate) fn step(world: &mut World, plain: &PlainStep, did: &mut PlainDid) -> u32
    ensures exact { (room : Bool)
        × (record { answer = result; world = Some world.new; out = did.new }
        ≡ after_step room (Some world.old) plain.now did.old) }
    ensures refused { (result ≡ 0 → ⊥) → (world.new ≡ world.old) × (did.new ≡ did.old) }
{
    let Some(step) = step_of(plain) else {
        return Status::NoStep.number();
    };
    match world.step(step) {
        Ok(done) => {
            *did = plain_did(&done);
            Status::Done.number()
        }
        Err(fault) => u32::from(fault.number()),
    }
}

/// Writes the words in a split, and how many locks were inflated for it.
pub(crate) fn relayout(world: &mut World, split: u32, inflated: &mut u32) -> u32
    ensures exact { (room : Bool)
        × (record { answer = result; world = Some world.new; out = inflated.new }
        ≡ after_relayout_call room (Some world.old) split inflated.old) }
    ensures refused { (result ≡ 0 → ⊥) → (world.new ≡ world.old) × (inflated.new ≡ inflated.old) }
{
    let Some(split) = split_of(split) else {
        return Status::NoSplit.number();
    };
    match world.relayout(split) {
        Ok(count) => {
            *inflated = count;
            Status::Done.number()
        }
        Err(fault) => u32::from(fault.number()),
    }
}
