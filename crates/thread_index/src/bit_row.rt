//! A row of bits in words of 64.

ghost use Rattle.std.specs.Prelude.{◌≡◌, ◌+◌, ◌*◌, ◌/◌, ◌<◌, ◌≤◌, ℕ, [], length, max, slice_index};
ghost use Rattle.std.specs.Prelude.{OnOk};
ghost use Rattle.thread_index.specs.BitRows.{bit_of, AreSetBelow, SameOtherWords, SetsBit};

use std::alloc::{AllocError, Global};

/// Bits in words of 64: position 0 is the lowest bit of the first word. Past the last word each is
/// 0.
#[derive(Drop)]
pub(crate) struct BitRow {
    words: Vec<u64>,
}

impl BitRow {
    /// Every bit is 0.
    pub(crate) fn new(alloc: Global) -> BitRow
        ensures { result.words.items ≡ [] }
    {
        BitRow {
            words: Vec::new(alloc),
        }
    }

    /// A word: past the last, each is 0.
    pub(crate) fn word(&self, j: usize) -> u64
        ensures { result ≡ slice_index self.now.words.items j }
    {
        self.words.get(j).copied().unwrap_or(0)
    }

    /// The lowest position whose bit is 0.
    pub(crate) fn lowest_clear(&self) -> usize
        requires few { length self.now.words.items ≤ 512 }
        ensures clear { bit_of self.now.words.items result ≡ 0 }
        ensures lowest { AreSetBelow self.now.words.items result }
        ensures few { result ≤ 32768 }
    {
        for (j, &word) in self.words.iter().enumerate() {
            if word != u64::MAX {
                return 64 * j + word.trailing_ones() as usize;
            }
        }
        64 * self.words.len()
    }

    /// Makes the word after the last, where it is this one. No bit changes.
    pub(crate) fn make_word(&mut self, j: usize) -> Result<(), AllocError>
        requires { j ≤ length self.old.words.items }
        ensures ok { OnOk result (j < length self.new.words.items) }
        ensures words { (i : ℕ)
            → slice_index self.new.words.items i ≡ slice_index self.old.words.items i }
        ensures longer { length self.old.words.items ≤ length self.new.words.items }
        ensures few { length self.new.words.items ≤ max (length self.old.words.items) (j + 1) }
    {
        if j == self.words.len() {
            self.words.push(0)?;
        }
        Ok(())
    }

    /// Makes a bit 1.
    pub(crate) fn set(&mut self, position: usize)
        requires { position < 64 * length self.old.words.items }
        ensures bits { SetsBit self.old.words.items self.new.words.items position 1 }
        ensures words { SameOtherWords self.old.words.items self.new.words.items (position / 64) }
        ensures length { length self.new.words.items ≡ length self.old.words.items }
    {
        self.words[position / 64] |= 1 << (position % 64);
    }

    /// Makes a bit 0.
    pub(crate) fn clear(&mut self, position: usize)
        requires { position < 64 * length self.old.words.items }
        ensures bits { SetsBit self.old.words.items self.new.words.items position 0 }
        ensures words { SameOtherWords self.old.words.items self.new.words.items (position / 64) }
        ensures length { length self.new.words.items ≡ length self.old.words.items }
    {
        self.words[position / 64] &= !(1 << (position % 64));
    }
}

impl Clone for BitRow {
    ghost use Rattle.std.specs.Prelude.{◌≡◌};

    ghost is_clone = { λ row copy. copy.words.items ≡ row.words.items };

    /// The same bits.
    fn clone(&self) -> Result<BitRow, AllocError> {
        Ok(BitRow {
            words: Vec::from_slice(*self.words.allocator(), &self.words)?,
        })
    }
}
