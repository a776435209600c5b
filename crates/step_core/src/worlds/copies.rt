//! A copy of a world in the memory of another.

ghost use Rattle.std.specs.Prelude.{◌≡◌, ◌≤◌, length, OnOk, OnErr, [], vec_capacity};
ghost use Rattle.lock_word.specs.declared.Split.{Split};
ghost use Rattle.step_core.specs.World.{opening_world};

use super::World;
use crate::Place;
use fat_monitor::Fats;
use lock_word::{Split, Word};
use std::alloc::AllocError;
use thread_index::Indices;

impl World {
    /// Makes `copy` the same world, whatever it was: nothing but its memory is left of it. Where it
    /// has the same threads at the same indices and in the same slots, as a former copy of this
    /// world mostly has, it asks for little or no memory. On want of memory it is a world without
    /// objects, for one thread, in which nothing has happened, and this world is as it was.
    pub fn clone_into(&self, copy: &mut World) -> Result<(), AllocError>
        ensures same { OnOk result (copy.new ≡ self.now) }
        ensures empty { OnErr result (copy.new ≡ opening_world [] 0 1 Split.Wide) }
    {
        let copied = self.write_over(
            &mut copy.words,
            &mut copy.indices,
            &mut copy.places,
            &mut copy.fats,
        );
        if copied.is_ok() {
            copy.split = self.split;
            return Ok(());
        }
        let alloc = *self.words.allocator();
        let Ok(indices) = Indices::new(alloc, 1) else {
            unreachable!();
        };
        copy.split = Split::Wide;
        copy.words.clear();
        copy.indices = indices;
        copy.places.clear();
        copy.places.push_reserved(Place::Idle);
        copy.fats = Fats::new(alloc, 0);
        Err(AllocError)
    }

    /// Writes the parts of this world over those of another. On `Err` they are no world's; there
    /// is room for a place all the same.
    fn write_over(
        &self,
        words: &mut Vec<Word>,
        indices: &mut Indices,
        places: &mut Vec<Place>,
        fats: &mut Fats,
    ) -> Result<(), AllocError>
        ensures words { OnOk result (words.new.items ≡ self.now.words) }
        ensures indices { OnOk result (indices.new ≡ self.now.berths) }
        ensures places { OnOk result (places.new.items ≡ self.now.places) }
        ensures fats { OnOk result (fats.new ≡ self.now.fats) }
        ensures one_at_least { 1 ≤ length indices.old }
        ensures room { vec_capacity places.old ≤ vec_capacity places.new }
    {
        self.indices.clone_into(indices)?;
        words.clear();
        words.extend_from_slice(&self.words)?;
        places.clear();
        places.extend_from_slice(&self.places)?;
        self.fats.clone_into(fats)
    }
}
