//! The header words of Java objects, and the locks that they show.
//!
//! A header word has 32 bits. Bits 31 to 8 are the lock; bits 7 to 0 belong to others, such as a
//! collector, and are never changed. `docs/SERVICE.md` has the layout.
#![tactic(auto)]

ghost use Rattle.std.specs.Prelude.{◌≡◌, ◌<◌, ◌^◌, ◌↔◌, ℕ, IfSome, IsNone, Some};
ghost use Rattle.lock_word.specs.declared.Lock.{Lock};
ghost use Rattle.lock_word.specs.declared.Split.{Split};
ghost use Rattle.lock_word.specs.Names.{hex_digit};
ghost use Rattle.lock_word.specs.Layout.{greatest_index, greatest_count, word_of, lock_of, low_of, count_of};
ghost use Rattle.lock_word.specs.Layout.{with_lock, Fits, IsMalformed};

use std::alloc::{AllocError, AllocFailed};
use std::error::Error;
use std::{fmt, str};

/// A thread, by the number that the virtual machine gave it.
#[derive(Clone, Copy, PartialEq, Eq, PartialOrd, Ord, Hash, Debug)]
pub struct ThreadId(pub u32);

/// An object, by its number: 0 is the first object of a world.
#[derive(Clone, Copy, PartialEq, Eq, PartialOrd, Ord, Hash, Debug)]
pub struct ObjectId(pub u32);

/// The header word of an object. It is written as eight upper-case hexadecimal digits.
#[derive(Clone, Copy, PartialEq, Eq, Hash, Debug)]
pub struct Word(pub u32);

impl fmt::Display for Word {
    ghost use Rattle.std.specs.Prelude.{Some};
    ghost use Rattle.lock_word.specs.Names.{word_text};

    ghost output = { λ word. Some (word_text word.0) };

    fn fmt<W: fmt::Write>(&self, f: &mut fmt::Formatter<W>) -> fmt::Result {
        let bits = self.0;
        let digits = [
            hex_digit(bits / 0x1000_0000),
            hex_digit(bits / 0x100_0000 % 16),
            hex_digit(bits / 0x10_0000 % 16),
            hex_digit(bits / 0x1_0000 % 16),
            hex_digit(bits / 0x1000 % 16),
            hex_digit(bits / 0x100 % 16),
            hex_digit(bits / 0x10 % 16),
            hex_digit(bits % 16),
        ];
        f.write_str(str::from_utf8(&digits).map_err(|_| fmt::Error)?)
    }
}

/// An upper-case hexadecimal digit, in ASCII.
fn hex_digit(digit: u32) -> u8
    requires { digit < 16 }
    ensures { result ≡ hex_digit digit }
{
    let digit = digit as u8;
    if digit < 10 {
        b'0' + digit
    } else {
        b'A' + (digit - 10)
    }
}

/// How a thin lock divides bits 30 to 8 of its word between the index of its owner and its count.
/// The other locks have the same words in both splits.
#[derive(Clone, Copy, PartialEq, Eq)]
pub enum Split {
    /// 15 bits of index, 1 to 32,767, and 8 bits of count, 0 to 255: for many threads.
    Wide,
    /// 11 bits of index, 1 to 2,047, and 12 bits of count, 0 to 4,095: for deep nesting.
    Deep,
}

impl Split {
    /// The greatest index of a thread.
    pub fn greatest_index(self) -> u16
        ensures { result ≡ greatest_index self }
    {
        match self {
            Split::Wide => 32_767,
            Split::Deep => 2_047,
        }
    }

    /// The greatest count of a thin lock, which is one less than the most holds that it shows.
    pub fn greatest_count(self) -> u16
        ensures { result ≡ greatest_count self }
    {
        match self {
            Split::Wide => 255,
            Split::Deep => 4_095,
        }
    }
}

/// What bits 31 to 8 of a header word say of the object's monitor.
#[derive(Clone, Copy, PartialEq, Eq, Debug)]
pub enum Lock {
    /// Nobody owns the monitor.
    Free,
    /// The thread with this index owns the monitor and holds it `count + 1` times. The split has
    /// the ranges of the two.
    Thin { index: u16, count: u16 },
    /// The fat monitor with this number, 0 to 8,388,607, has owner and holds.
    Fat { monitor: u32 },
}

impl Lock {
    /// How often a thin lock is held, less one; 0 for another lock.
    #[inline(always)]
    pub fn count(self) -> u16
        ensures { result ≡ count_of self }
    {
        match self {
            Lock::Thin { count, .. } => count,
            Lock::Free | Lock::Fat { .. } => 0,
        }
    }
}

/// Want of memory: the system refused a growth. Whatever was asked to grow is unchanged.
#[derive(Clone, Copy, PartialEq, Eq, Debug)]
pub struct Memory;

impl fmt::Display for Memory {
    ghost use Rattle.std.specs.Prelude.{Some, codes};

    ghost output = { λ _. Some (codes "out of memory") };

    fn fmt<W: fmt::Write>(&self, f: &mut fmt::Formatter<W>) -> fmt::Result {
        f.write_str("out of memory")
    }
}

impl Error for Memory {}

impl From<AllocError> for Memory {
    fn from(_: AllocError) -> Self {
        Memory
    }
}

impl<T: Drop> From<AllocFailed<T>> for Memory {
    fn from(_: AllocFailed<T>) -> Self {
        Memory
    }
}

/// The lock that a word shows, and the low byte that it keeps for others.
///
/// None for a word that no lock has: index 0 with a count other than 0.
pub fn decode(split: Split, word: Word) -> Option<(Lock, u8)>
    ensures shown { IfSome result (λ r. (r.0 ≡ lock_of split word.0) × (r.1 ≡ low_of word.0)) }
    ensures spelled { IfSome result (λ r. Fits split r.0 × (word.0 ≡ word_of split r.0 r.1)) }
    ensures none { IsNone result ↔ IsMalformed split word.0 }
{
    let bits = word.0;
    let low = (bits % 256) as u8;
    if bits >= 0x8000_0000 {
        let monitor = (bits - 0x8000_0000) / 256;
        return Some((Lock::Fat { monitor }, low));
    }
    let (index, count) = match split {
        Split::Wide => ((bits / 0x1_0000) as u16, (bits / 256 % 0x100) as u16),
        Split::Deep => ((bits / 0x10_0000) as u16, (bits / 256 % 0x1000) as u16),
    };
    if index > 0 {
        return Some((Lock::Thin { index, count }, low));
    }
    if count > 0 {
        return None;
    }
    Some((Lock::Free, low))
}

/// The word that shows a lock and keeps a low byte.
pub fn encode(split: Split, lock: Lock, low: u8) -> Word
    requires { Fits split lock }
    ensures { result.0 ≡ word_of split lock low }
{
    let low = u32::from(low);
    match lock {
        Lock::Free => Word(low),
        Lock::Thin { index, count } => {
            let index = match split {
                Split::Wide => u32::from(index) * 0x1_0000,
                Split::Deep => u32::from(index) * 0x10_0000,
            };
            Word(index + u32::from(count) * 256 + low)
        }
        Lock::Fat { monitor } => Word(0x8000_0000 + monitor * 256 + low),
    }
}

/// The lock of a word that decodes.
pub fn lock_of(split: Split, word: Word) -> Lock
    requires { IsMalformed split word.0 → ⊥ }
    ensures { result ≡ lock_of split word.0 }
{
    match decode(split, word) {
        Some((lock, _)) => lock,
        None => unreachable!(),
    }
}

/// The word with this lock, and with the low byte of the word that was there.
pub fn with_lock(split: Split, word: Word, lock: Lock) -> Word
    requires { Fits split lock }
    ensures { result.0 ≡ with_lock split word.0 lock }
{
    encode(split, lock, (word.0 % 256) as u8)
}

/// The layout is one to one in each split: what `encode` writes, `decode` reads back; a word that
/// is not malformed is the one word of its lock and low byte; and another lock leaves the low byte
/// as it is.
#[tactic(auto, using(crate::proofs::Words::read_back, crate::proofs::Words::one_spelling, crate::proofs::Words::low_kept))]
pub fn layout_is_one_to_one()
    ensures read_back { (s : Split) (l : Lock) (low : ℕ) → Fits s l → low < 256
        → (lock_of s (word_of s l low) ≡ l) × (low_of (word_of s l low) ≡ low)
        × (IsMalformed s (word_of s l low) → ⊥) }
    ensures one_spelling { (s : Split) (w : ℕ) → w < 2 ^ 32 → (IsMalformed s w → ⊥)
        → Fits s (lock_of s w) × (word_of s (lock_of s w) (low_of w) ≡ w) }
    ensures low_kept { (s : Split) (w : ℕ) (l : Lock) → low_of (with_lock s w l) ≡ low_of w }
{}
