//! The lines of a history, with no line feed.

ghost use Rattle.std.specs.Prelude.{◌≡◌, ℕ, List, IfOk, IfSome, IfNone, string_bytes};
ghost use Rattle.serde_json.specs.Data.{Data};
ghost use Rattle.serde_json.specs.View.{view};
ghost use Rattle.serde_json.specs.Written.{compact_text};
ghost use Rattle.step_core.specs.declared.machine.Move.{Move as MoveData};
ghost use Rattle.history_moves.specs.Moves.{data_of, first_data};
ghost use Rattle.history_moves.specs.Lines.{IsFirst, IsMove, IsTextOf};

use crate::quick::quick_move;
use crate::spelled::bytes::spelled_move;
use crate::spelled::tokens::token_move;
use crate::values::reading::{read_first, read_move};
use crate::writing::values::{write_first, write_move};
use json::Scratch;
use lock_word::Memory;
use serde_json::Value;
use std::alloc::Global;
use std::str;
use step_core::Move;

/// The line of a move: its compact text, with its keys in byte order. [`line_move`] reads it as
/// that move.
pub fn move_line(alloc: Global, made: &Move) -> Result<String, Memory>
    ensures text { IfOk result (λ line. string_bytes line ≡ compact_text (data_of made.now)) }
    ensures reads { IfOk result (λ line. IsMove (string_bytes line) made.now) }
{
    Ok(write_move(alloc, made)?.to_string(alloc)?)
}

/// The first line of a history of so many objects.
pub fn first_line(alloc: Global, objects: u16) -> Result<String, Memory>
    ensures text { IfOk result (λ line. string_bytes line ≡ compact_text (first_data objects)) }
    ensures reads { IfOk result (λ line. IsFirst (string_bytes line) objects) }
{
    Ok(write_first(alloc, objects)?.to_string(alloc)?)
}

/// The value that a line is the text of.
fn value_of(alloc: Global, line: &[u8]) -> Result<Option<Value>, Memory>
    ensures found { IfOk result (λ o. IfSome o (λ v. IsTextOf line.now (view v))) }
    ensures none { IfOk result (λ o. IfNone o ((d : Data) → IsTextOf line.now d → ⊥)) }
{
    match Value::from_slice(alloc, line) {
        Ok(value) => Ok(Some(value)),
        Err(error) => {
            if error.is_memory() {
                Err(Memory)
            } else {
                Ok(None)
            }
        }
    }
}

/// The move that a line is, where it is just as [`move_line`] writes it: the quick way for most
/// lines of a history.
fn written_line(line: &[u8]) -> Option<Move>
    ensures { IfSome result (IsMove line.now) }
{
    quick_move(line)
}

/// The move that a line is, as serde_json reads a value: with any white space between its tokens,
/// its keys in any order, and the last one of a key that is written twice.
///
/// A line that is not just as a move is written is read by its value. [`MoveReader::line_move`] has
/// the same answers, and quicker ways for lines of other spellings.
pub fn line_move(alloc: Global, line: &[u8]) -> Result<Option<Move>, Memory>
    ensures found { IfOk result (λ o. IfSome o (IsMove line.now)) }
    ensures none { IfOk result (λ o. IfNone o ((m : MoveData) → IsMove line.now m → ⊥)) }
{
    if let Some(made) = written_line(line) {
        return Ok(Some(made));
    }
    value_line(alloc, line)
}

/// The move that a line is, by the value that it is the text of: the one way that answers for each
/// line. It is kept out of line, so that the readers of usual lines need no room for it.
#[inline(never)]
#[tactic(auto, unfolding(crate::specs::Lines::IsMove))]
fn value_line(alloc: Global, line: &[u8]) -> Result<Option<Move>, Memory>
    ensures found { IfOk result (λ o. IfSome o (IsMove line.now)) }
    ensures none { IfOk result (λ o. IfNone o ((m : MoveData) → IsMove line.now m → ⊥)) }
{
    match value_of(alloc, line)? {
        Some(value) => Ok(read_move(&value)),
        None => Ok(None),
    }
}

/// A line of this many bytes or more is read by its value, so that no room is kept for its tokens.
const TOO_LONG_FOR_TOKENS: usize = 4096;

/// A line of this many bytes or more is not read straight from its bytes: it is mostly blanks, and
/// the reader of tokens passes over many blanks at once. Of the shortest moves, with blanks between
/// all tokens, a line just below takes 6,700 instructions by its bytes, and one above 3,600 by its
/// tokens.
const TOO_LONG_FOR_BYTES: usize = 512;

/// A reader of lines, which keeps from line to line what it needs for lines that are read from
/// their tokens, those with an escape and long ones: room for a line below 4,096 bytes, from the
/// first such line on.
#[derive(Drop)]
pub struct MoveReader {
    alloc: Global,
    scratch: Option<Box<Scratch>>,
}

/// Room for the tokens of a line; None without memory.
#[cold]
#[inline(never)]
fn new_scratch(alloc: Global) -> Option<Box<Scratch>> {
    Box::new(alloc, Scratch::new(alloc)).ok()
}

impl MoveReader {
    /// A reader of lines. It asks for no memory yet.
    pub fn new(alloc: Global) -> MoveReader {
        MoveReader {
            alloc,
            scratch: None,
        }
    }

    /// The move that a line is, as the free function [`line_move`] has it; by the ways that the
    /// head of this crate lists.
    pub fn line_move(&mut self, line: &[u8]) -> Result<Option<Move>, Memory>
        ensures found { IfOk result (λ o. IfSome o (IsMove line.now)) }
        ensures none { IfOk result (λ o. IfNone o ((m : MoveData) → IsMove line.now m → ⊥)) }
    {
        if let Some(made) = written_line(line) {
            return Ok(Some(made));
        }
        if let Some(made) = self.spelled_line(line) {
            return Ok(Some(made));
        }
        value_line(self.alloc, line)
    }

    /// The move that a line is, from its bytes or its tokens: a way for most lines of any spelling.
    /// A line that its bytes do not tell is read from its tokens only where it has an escape or is
    /// long, since the tokens of hardly any other tell more.
    #[inline(never)]
    fn spelled_line(&mut self, line: &[u8]) -> Option<Move>
        ensures { IfSome result (IsMove line.now) }
    {
        if line.len() >= TOO_LONG_FOR_TOKENS {
            return None;
        }
        let text = str::from_utf8(line).ok()?;
        if line.len() < TOO_LONG_FOR_BYTES {
            if let Some(made) = spelled_move(text) {
                return Some(made);
            }
            if !line.contains(&b'\\') {
                return None;
            }
        }
        self.token_line(text)
    }

    /// The move that a text is, from its tokens. Room for these is made for the first such line.
    fn token_line(&mut self, text: &str) -> Option<Move>
        ensures { IfSome result (IsMove text.now) }
    {
        if self.scratch.is_none() {
            self.scratch = new_scratch(self.alloc);
        }
        match &mut self.scratch {
            Some(scratch) => token_move(text, scratch),
            None => None,
        }
    }
}

/// The number of objects that a line tells.
#[tactic(auto, unfolding(crate::specs::Lines::IsFirst))]
pub fn line_first(alloc: Global, line: &[u8]) -> Result<Option<u16>, Memory>
    ensures found { IfOk result (λ o. IfSome o (IsFirst line.now)) }
    ensures none { IfOk result (λ o. IfNone o ((n : ℕ) → IsFirst line.now n → ⊥)) }
{
    match value_of(alloc, line)? {
        Some(value) => Ok(read_first(&value)),
        None => Ok(None),
    }
}

/// A line is one move at most, and tells one number of objects at most.
pub fn each_line_is_one_move()
    ensures moves { (line : List ℕ) (m n : MoveData) → IsMove line m → IsMove line n → m ≡ n }
    ensures objects { (line : List ℕ) (m n : ℕ) → IsFirst line m → IsFirst line n → m ≡ n }
{}
