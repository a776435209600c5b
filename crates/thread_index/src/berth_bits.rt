//! Which berths are taken: a bit for each, and a second row with a bit for each full word.

ghost use Rattle.std.specs.Prelude.{◌≡◌, ◌*◌, ◌/◌, ◌<◌, ◌≤◌, [], length, OnOk};
ghost use Rattle.thread_index.specs.BitRows.{bit_of, AreSetBelow, SameBits, SetsBit, AreTwoRows};

use crate::bit_row::BitRow;
use std::alloc::{AllocError, Global};

/// Which of the berths are taken.
///
/// The second row has a bit for each word of the first, which is 1 where all 64 berths of the word
/// are taken: so the lowest free berth is found by looking at the few words of the second row and
/// at one word of the first.
#[derive(Drop)]
pub(crate) struct BerthBits {
    taken: BitRow,
    full: BitRow,
    ghost rows: { AreTwoRows taken.words.items full.words.items },
}

impl BerthBits {
    /// Every berth is free.
    pub(crate) fn new(alloc: Global) -> BerthBits
        ensures { result.taken.words.items ≡ [] }
    {
        BerthBits {
            taken: BitRow::new(alloc),
            full: BitRow::new(alloc),
        }
    }

    /// The lowest berth that is free: past the last word, each is.
    pub(crate) fn lowest_free(&self) -> usize
        ensures free { bit_of self.now.taken.words.items result ≡ 0 }
        ensures lowest { AreSetBelow self.now.taken.words.items result }
    {
        let j = self.full.lowest_clear();
        64 * j + self.taken.word(j).trailing_ones() as usize
    }

    /// Makes room for the bit of a berth. No bit changes.
    pub(crate) fn make_room(&mut self, berth: usize) -> Result<(), AllocError>
        requires next { berth / 64 ≤ length self.old.taken.words.items }
        requires few { berth < 32768 }
        ensures ok { OnOk result (berth < 64 * length self.new.taken.words.items) }
        ensures longer { length self.old.taken.words.items ≤ length self.new.taken.words.items }
        ensures bits { SameBits self.old.taken.words.items self.new.taken.words.items }
    {
        let j = berth / 64;
        self.full.make_word(j / 64)?;
        self.taken.make_word(j)
    }

    /// Says that a free berth is taken.
    pub(crate) fn take(&mut self, berth: usize)
        requires room { berth < 64 * length self.old.taken.words.items }
        requires free { bit_of self.old.taken.words.items berth ≡ 0 }
        ensures bits { SetsBit self.old.taken.words.items self.new.taken.words.items berth 1 }
        ensures length { length self.new.taken.words.items ≡ length self.old.taken.words.items }
    {
        let j = berth / 64;
        self.taken.set(berth);
        if self.taken.word(j) == u64::MAX {
            self.full.set(j);
        }
    }

    /// Says that a berth is free.
    pub(crate) fn give(&mut self, berth: usize)
        requires room { berth < 64 * length self.old.taken.words.items }
        ensures bits { SetsBit self.old.taken.words.items self.new.taken.words.items berth 0 }
        ensures length { length self.new.taken.words.items ≡ length self.old.taken.words.items }
    {
        self.taken.clear(berth);
        self.full.clear(berth / 64);
    }
}

impl Clone for BerthBits {
    ghost use Rattle.std.specs.Prelude.{◌≡◌};

    ghost is_clone = { λ bits copy. copy.taken.words.items ≡ bits.taken.words.items };

    /// The same berths are taken.
    fn clone(&self) -> Result<BerthBits, AllocError> {
        Ok(BerthBits {
            taken: self.taken.clone()?,
            full: self.full.clone()?,
        })
    }
}
