//! Hints where the record of a thread stands, by the number of the thread.
//!
//! A table from numbers to positions takes a hash for each look. Whoever has such a table asks the
//! hints first, and takes the position that they name where the record there is that of the thread;
//! else it looks into its table. So an answer never rests on a hint: hints may be old, missing or
//! another thread's, since threads whose numbers have the same low bits share one.
#![tactic(auto)]

ghost use Rattle.std.specs.Prelude.{◌≡◌, ◌-◌, ◌/◌, ◌&&◌, ◌<◌, ◌≤◌, length, nat_lt, replicate};
ghost use Rattle.std.specs.Prelude.{slice_index, slice_set};
ghost use Rattle.std.specs.Bool.{OnTrue, OnFalse};
ghost use Rattle.std.specs.Int.Bits.{bit_and};
ghost use Rattle.thread_hints.specs.Hints.{width_for};

use std::alloc::{AllocError, Global};
use std::marker::Model;

/// How many hints there are before any memory is asked for.
const FEW: usize = 64;

/// The most hints.
const MOST: usize = 65_536;

/// A position for each of some numbers, told apart by their low bits.
#[derive(Drop)]
pub struct Hints {
    alloc: Global,
    few: [u32; FEW],
    // Where there are hints here, they stand in for the few.
    many: Vec<u32>,
}

impl Model for Hints {
    ghost use Rattle.std.specs.Prelude.{ℕ, List, ◌≤◌, length};
    ghost use Rattle.thread_hints.specs.Hints.{hints_in};

    ghost Value = { List ℕ };

    ghost view = { λ h. hints_in h.few h.many.items };

    ghost invariant = { λ h. (1 ≤ length (hints_in h.few h.many.items))
        × (length (hints_in h.few h.many.items) ≤ 65536) };
}

impl Hints {
    /// Position 0 for each number. No memory is asked for.
    pub fn new(alloc: Global) -> Hints
        ensures { result ≡ replicate 64 0 }
    {
        Hints {
            alloc,
            few: [0; FEW],
            many: Vec::new(alloc),
        }
    }

    /// The hints that are in use.
    #[inline(always)]
    fn positions(&self) -> &[u32]
        ensures positions { result.now ≡ self.now }
        ensures some { 1 ≤ length result.now }
        ensures few { length result.now ≤ 65536 }
    {
        if self.many.is_empty() {
            &self.few
        } else {
            &self.many
        }
    }

    /// The position that was noted last for a number with the same low bits; 0 where there is none.
    #[inline(always)]
    pub fn position(&self, number: u32) -> u32
        ensures { result
            ≡ slice_index self.now (bit_and number (length self.now - 1)) }
    {
        let positions = self.positions();
        positions[number as usize & (positions.len() - 1)]
    }

    /// Notes a position for a number, and for those with the same low bits.
    pub fn note(&mut self, number: u32, position: u32)
        ensures { self.new
            ≡ slice_set self.old (bit_and number (length self.old - 1)) position }
    {
        let low = number as usize & (self.positions().len() - 1);
        if self.many.is_empty() {
            self.few[low] = position;
        } else {
            self.many[low] = position;
        }
    }

    /// Whether there should be more hints for so many records: fewer than twice as many are there,
    /// and fewer than the most.
    pub fn are_few_for(&self, records: usize) -> bool
        ensures { result
            ≡ (nat_lt (length self.now) 65536 && nat_lt (length self.now / 2) records) }
    {
        let count = self.positions().len();
        count < MOST && count / 2 < records
    }

    /// Makes as many hints as so many records should have, with position 0 for each number, and
    /// says whether it did: not where there are as many or more, or where the system refuses the
    /// memory.
    pub fn widen_for(&mut self, records: usize) -> bool
        ensures wider { OnTrue result (self.new ≡ replicate (width_for records) 0) }
        ensures more { OnTrue result (length self.old < width_for records) }
        ensures same { OnFalse result (self.new ≡ self.old) }
    {
        let wanted = width_for(records);
        if wanted <= self.positions().len() {
            return false;
        }
        match vec![in self.alloc; 0; wanted] {
            Ok(wider) => {
                self.many = wider;
                true
            }
            Err(_) => false,
        }
    }
}

impl Clone for Hints {
    ghost use Rattle.std.specs.Prelude.{◌≡◌};

    ghost is_clone = { λ hints copy. copy ≡ hints };

    /// The same hints. Memory is asked for only where there are many.
    fn clone(&self) -> Result<Hints, AllocError> {
        Ok(Hints {
            alloc: self.alloc,
            few: self.few,
            many: Vec::from_slice(self.alloc, &self.many)?,
        })
    }
}

/// How many hints so many records should have: twice as many, or the most. A row grows by four
/// times, so that its growths are few.
fn width_for(records: usize) -> usize
    ensures { result ≡ width_for records }
{
    match records {
        0..=32 => FEW,
        33..=128 => 256,
        129..=512 => 1_024,
        513..=2_048 => 4_096,
        2_049..=8_192 => 16_384,
        _ => MOST,
    }
}
