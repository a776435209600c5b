//! Hints of the numbers of names, which spare most lines a look-up by hash.
//!
//! A hint may be wrong: whoever takes one compares the name that has its number. So nothing is said
//! of what the hints are, and a table that is not there, or has no room, costs time alone.

ghost use Rattle.std.specs.Prelude.{◌≤◌, length};

use std::alloc::{AllocError, Global};

/// How many hints the first table has.
const FEWEST_HINTS: usize = 16;

/// The most hints that a table has. Where names are more than these, there are no hints: too many
/// would be of another name.
const MOST_HINTS: usize = 65_536;

/// 2^64 over the golden ratio, as Knuth takes it for multiplicative hashing.
const MULTIPLIER: u64 = 0x9e37_79b9_7f4a_7c15;

/// What the bytes of a name are mixed to. The upper half tells the name's position in a table of
/// hints, and the lower half is the mark of the name there.
#[derive(Clone, Copy)]
pub(crate) struct Mixed(u64);

/// The number of a name, and its mark: a hint of another name mostly has another mark, so that this
/// is seen without a look at that name.
#[derive(Clone, Copy)]
struct NameHint {
    number: u32,
    mark: u32,
}

/// A table that tells the number of a name by what its bytes are mixed to. Each position has the
/// name that was put there last.
#[derive(Drop)]
pub(crate) struct NameHints {
    hints: Vec<NameHint>,
}

/// Fewer than eight bytes as one number: the first four, the next two and the last one, as far as
/// they are there.
fn number_of_few(bytes: &[u8]) -> u64 {
    let mut number = 0;
    let mut rest = bytes;
    if let [a, b, c, d, after @ ..] = rest {
        number = u64::from(u32::from_le_bytes([*a, *b, *c, *d]));
        rest = after;
    }
    if let [a, b, after @ ..] = rest {
        number = number << 16 | u64::from(u16::from_le_bytes([*a, *b]));
        rest = after;
    }
    if let [a, ..] = rest {
        number = number << 8 | u64::from(*a);
    }
    number
}

/// The last eight bytes as one number, or all of them where they are fewer.
fn number_at_end(bytes: &[u8]) -> u64 {
    match bytes {
        [.., a, b, c, d, e, f, g, h] => u64::from_le_bytes([*a, *b, *c, *d, *e, *f, *g, *h]),
        _ => number_of_few(bytes),
    }
}

/// One more word in what was mixed so far: multiplicative hashing, as Knuth has it, with the upper
/// half of the product mixed into its lower half.
fn mixed_with(mixed: u64, word: u64) -> u64 {
    let product = mixed.wrapping_add(word).wrapping_mul(MULTIPLIER);
    product ^ product >> 32
}

impl Mixed {
    /// The length of a name and its bytes, mixed: eight bytes at a time, and where fewer are left
    /// the last eight again, as many hashes do.
    pub(crate) fn of(name: &str) -> Mixed {
        let bytes = name.as_bytes();
        let mut mixed = bytes.len() as u64;
        let mut rest = bytes;
        'words: while let [a, b, c, d, e, f, g, h, after @ ..] = rest {
            let word = u64::from_le_bytes([*a, *b, *c, *d, *e, *f, *g, *h]);
            mixed = mixed_with(mixed, word);
            rest = after;
        }
        if rest.is_empty() {
            return Mixed(mixed);
        }
        Mixed(mixed_with(mixed, number_at_end(bytes)))
    }

    /// The position in a table of so many hints.
    fn position(self, hints: usize) -> usize {
        ((self.0 >> 32) as usize).wrapping_mul(hints) >> 32
    }

    fn mark(self) -> u32 {
        (self.0 & 0xffff_ffff) as u32
    }
}

impl NameHints {
    /// No hint.
    pub(crate) fn new(alloc: Global) -> NameHints {
        NameHints {
            hints: Vec::new(alloc),
        }
    }

    /// Whether there is no table.
    pub(crate) fn is_empty(&self) -> bool {
        self.hints.is_empty()
    }

    /// The number of the name that was put at the position of this one last, where it has its mark.
    pub(crate) fn number(&self, name: Mixed) -> Option<u32> {
        let hint = self.hints.get(name.position(self.hints.len()))?;
        if hint.mark == name.mark() {
            Some(hint.number)
        } else {
            None
        }
    }

    /// Puts the number of a name at its position, if the position is there.
    pub(crate) fn put(&mut self, name: Mixed, number: u32) {
        let position = name.position(self.hints.len());
        if let Some(hint) = self.hints.get_mut(position) {
            *hint = NameHint {
                number,
                mark: name.mark(),
            };
        }
    }

    /// Puts the number of a name that was added to these. Where the table has few hints for as
    /// many, a larger one takes its place, if there is memory for one; and where they are more than
    /// a table may have, the table goes.
    pub(crate) fn add(&mut self, alloc: Global, names: &[String], word: &str, number: u32)
        requires { length names.now ≤ 4294967295 }
    {
        if names.len() > MOST_HINTS {
            self.clear(alloc);
            return;
        }
        if names.len() > self.hints.len() / 2 && self.hints.len() < MOST_HINTS {
            let larger = NameHints::with_names(alloc, names);
            if let Ok(larger) = larger {
                *self = larger;
                return;
            }
        }
        self.put(Mixed::of(word), number);
    }

    /// Gives the memory of the table back.
    pub(crate) fn clear(&mut self, alloc: Global) {
        *self = NameHints::new(alloc);
    }

    /// A table with these names, with four times as many positions where there may be as many.
    fn with_names(alloc: Global, names: &[String]) -> Result<NameHints, AllocError>
        requires { length names.now ≤ 4294967295 }
    {
        let len = (names.len() * 4).clamp(FEWEST_HINTS, MOST_HINTS);
        let none = NameHint { number: 0, mark: 0 };
        let mut hints = NameHints {
            hints: vec![in alloc; none; len]?,
        };
        'names: for (number, name) in names.iter().enumerate() {
            hints.put(Mixed::of(name.as_str()), number as u32);
        }
        Ok(hints)
    }
}
