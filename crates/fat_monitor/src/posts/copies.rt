//! A copy of the attached threads in the memory of others.

ghost use Rattle.std.specs.Prelude.{◌≡◌, ◌↔◌, OnOk, OnErr, IsTrue, Some};
ghost use Rattle.slab.specs.Slab.{Updates};
ghost use Rattle.fat_monitor.specs.Slots.{AreWrittenOver, LeadsTo, nobody_posted};

use super::{Posts, Record};
use slab::Slab;
use std::alloc::{AllocError, Global};

impl Posts {
    /// Makes `copy` the same records of the same threads. Where each record is of the thread that
    /// has this slot in `copy`, and there are no others, the records and the count of waiters are
    /// written over; else `copy` is made anew. On `Err` no thread is attached.
    pub(crate) fn clone_into(&self, alloc: Global, copy: &mut Posts) -> Result<(), AllocError>
        ensures same { OnOk result (copy.new ≡ self.now) }
        ensures empty { OnErr result (copy.new ≡ nobody_posted) }
    {
        let are_as_many = copy.records.len() == self.records.len();
        if are_as_many && write_all_over(&mut copy.records, &self.records) {
            copy.waiting = self.waiting;
            return Ok(());
        }
        *copy = Posts::new(alloc);
        *copy = self.clone()?;
        Ok(())
    }
}

// Writes records over those of the same threads, each in the slot of its key; false where a record
// has no such slot.
fn write_all_over(over: &mut Slab<Record>, records: &Slab<Record>) -> bool
    ensures { IsTrue result → AreWrittenOver records.now over.old over.new }
{
    for (key, record) in records.iter() {
        if !write_over(over, key, *record) {
            return false;
        }
    }
    true
}

// Writes a record over that of the same thread, where the slot of this key has one.
fn write_over(over: &mut Slab<Record>, key: usize, from: Record) -> bool
    ensures led { IsTrue result ↔ LeadsTo over.old from.thread.0 key }
    ensures written { IsTrue result → Updates over.old over.new key (Some from) }
{
    let Some(at) = over.get_mut(key) else {
        return false;
    };
    if at.thread.0 != from.thread.0 {
        return false;
    }
    *at = from;
    true
}
