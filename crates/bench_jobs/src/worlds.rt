//! The job over the core alone: stepping worlds.

ghost use Rattle.std.specs.Prelude.{◌≤◌, length};

use crate::JobFault;
use crate::courses::{Course, Mix, Shape};
use crate::digests::Digest;
use lock_word::{ObjectId, Split};
use std::alloc::Global;
use step_core::{Fault, Step, World};

/// Does all steps, and mixes what they did.
fn do_steps(world: &mut World, steps: &[Step], digest: &mut Digest) -> Result<(), JobFault> {
    for step in steps {
        match world.step(*step) {
            Ok(did) => digest.mix_did(&did),
            Err(Fault::Memory) => return Err(JobFault::Memory),
            Err(fault) => digest.mix(u64::from(fault.number())),
        }
    }
    Ok(())
}

/// A world of so many objects for as many threads as there can be, with a monitor for each object.
fn world_of(alloc: Global, objects: u32) -> Result<World, JobFault> {
    let mut lows = vec![in alloc; 0xA5; objects as usize]?;
    lows.truncate(65_535);
    Ok(World::new(alloc, &lows, 65_535, 32_767, Split::Wide)?)
}

/// Steps worlds with few threads and with many, whose numbers stand in any order.
pub fn step(alloc: Global, steps: u32, seed: u64) -> Result<u64, JobFault> {
    let mut digest = Digest::new();
    let shapes = [
        (Mix::Thin, 4_096, 64),
        (Mix::Every, 1_000, 2_000),
        (Mix::Every, 60_000, 32_767),
        (Mix::Ending, 500, 50),
    ];
    for (mix, objects, threads) in shapes {
        let shape = Shape {
            mix,
            objects,
            used: objects,
            threads,
            spread: true,
            steps,
        };
        let course = Course::play(alloc, shape, seed)?;
        let mut world = world_of(alloc, objects)?;
        do_steps(&mut world, &course.steps, &mut digest)?;
        for number in 0..world.objects() {
            digest.mix(u64::from(world.word(ObjectId(number)).0));
        }
    }
    Ok(digest.value())
}
