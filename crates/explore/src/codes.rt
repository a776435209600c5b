//! The bytes that stand for a state.

ghost use Rattle.std.specs.Prelude.{◌≡◌, ◌++◌, ◌∷◌, OnOk};
ghost use Rattle.explore.specs.Codes.{AreSmall, IsCoded, alone, code_of, dense, pair_of};
ghost use Rattle.explore.specs.States.{ProgramState};

use fat_monitor::numbers_tell_replies_apart;
use lock_word::Memory;
use std::hash::{Hash, Hasher};
use step_core::numbers_tell_worlds_apart;

/// The bytes that stand for a state, and for no other.
#[derive(PartialEq, Eq, Drop)]
pub(crate) struct Code {
    pub(crate) bytes: Vec<u8>,
}

impl Hash for Code {
    ghost use Rattle.std.specs.Prelude.{◌∷◌, []};
    ghost use Rattle.std.specs.Cmp.Rules.{hashing};
    ghost use Rattle.std.proofs.Common.{rules};

    ghost hash_input = { λ code. code.bytes.items ∷ [] };

    ghost respects_eq = { Prim.search (hashing, rules) };

    /// All bytes at once, where the hash of a `Vec` takes each by itself.
    fn hash<H: Hasher>(&self, state: &mut H) {
        state.write(&self.bytes);
    }
}

/// Two states with one code are the same state.
pub(crate) fn codes_tell_states_apart()
    ensures { (s t : ProgramState) → IsCoded s → IsCoded t → code_of s ≡ code_of t → s ≡ t }
{
    numbers_tell_worlds_apart();
    numbers_tell_replies_apart();
}

/// Puts positions behind the numbers that are there.
pub(crate) fn push_positions(positions: &[usize], numbers: &mut Vec<u64>) -> Result<(), Memory>
    ensures { OnOk result (numbers.new.items ≡ numbers.old.items ++ positions.now) }
{
    'positions: for position in positions {
        numbers.push(*position as u64)?;
    }
    Ok(())
}

/// Writes the numbers as bytes, in place of those that are there. Most numbers are small: two that
/// follow each other mostly share a byte.
pub(crate) fn put_dense(numbers: &[u64], bytes: &mut Vec<u8>) -> Result<(), Memory>
    ensures bytes { OnOk result (bytes.new.items ≡ dense numbers.now) }
    ensures small { OnOk result (AreSmall numbers.now) }
{
    bytes.clear();
    let mut at = 0;
    'numbers: while at < numbers.len() {
        let number = numbers[at];
        match pair_of(number, numbers.get(at + 1).copied()) {
            Some(both) => {
                bytes.push(both)?;
                at += 2;
            }
            None => {
                push_alone(number, bytes)?;
                at += 1;
            }
        }
    }
    Ok(())
}

/// Puts 255, with which no number begins, behind the bytes that are there, and then the numbers of
/// replies, a byte each: these are copied all at once.
pub(crate) fn push_replies(numbers: &[u8], bytes: &mut Vec<u8>) -> Result<(), Memory>
    ensures { OnOk result (bytes.new.items ≡ bytes.old.items ++ 255 ∷ numbers.now) }
{
    bytes.push(255)?;
    bytes.extend_from_slice(numbers)?;
    Ok(())
}

/// The byte that a number shares with the next one, where both are small.
#[inline(always)]
fn pair_of(number: u64, next: Option<u64>) -> Option<u8>
    ensures { result ≡ pair_of number next }
{
    match next {
        Some(next) if number < 15 && next < 16 => Some((16 * number + next) as u8),
        _ => None,
    }
}

/// Writes a number by itself: its byte behind 240, or its four or eight bytes behind 241 or 242.
/// The word of an object that is not free has five bytes so.
#[inline(always)]
fn push_alone(number: u64, bytes: &mut Vec<u8>) -> Result<(), Memory>
    ensures { OnOk result (bytes.new.items ≡ bytes.old.items ++ alone number) }
{
    if number < 256 {
        bytes.extend_from_slice(&[240, number as u8])?;
    } else if number < 4_294_967_296 {
        bytes.push(241)?;
        bytes.extend_from_slice(&(number as u32).to_le_bytes())?;
    } else {
        bytes.push(242)?;
        bytes.extend_from_slice(&number.to_le_bytes())?;
    }
    Ok(())
}
