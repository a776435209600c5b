//! Reading a line of any spelling with no escape, straight from its bytes.
//!
//! What is read from the front of a line is told by what the lexer of JSON makes of the line, and
//! of what stands behind.

ghost use Rattle.std.specs.Prelude.{◌≡◌, ◌∷◌, [], ◌++◌, true, IfSome, IsTrue};
ghost use Rattle.json.specs.Token.{string, end_object};
ghost use Rattle.json.specs.Word.{ends_word as ends_a_word};
ghost use Rattle.json.specs.Lex.{lex, between, class, space, token, colon};
ghost use Rattle.json.specs.Print.{escape, escape_byte};
ghost use Rattle.history_moves.specs.Lines.{IsMove};
ghost use Rattle.history_moves.specs.GatheredMembers.{key_text, BeginsWith};

use crate::pieces::{behind, number_in};
use crate::spelled::gathered::{GatheredMembers, Key, Scalar, key_front};
use step_core::Move;

#[inline(always)]
fn is_blank(byte: u8) -> bool
    ensures { IsTrue result → class byte ≡ space }
{
    matches!(byte, b' ' | b'\t' | b'\n' | b'\r')
}

/// What stands behind the blanks that come first. Most often there is none, which the first
/// comparison tells.
#[inline(always)]
fn past_blanks(bytes: &[u8]) -> &[u8]
    ensures { lex between result.now ≡ lex between bytes.now }
{
    let mut rest = bytes;
    'blanks: while let Some((first, after)) = rest.split_first() {
        if *first > b' ' || !is_blank(*first) {
            return rest;
        }
        rest = after;
    }
    rest
}

/// A letter stands for itself in a string.
#[inline(always)]
fn is_letter(byte: u8) -> bool
    ensures { IsTrue result → escape_byte byte ≡ byte ∷ [] }
{
    byte.is_ascii_alphabetic()
}

/// A word of letters up to its quotation mark, and what stands behind that.
#[inline(always)]
fn letters_in(bytes: &[u8]) -> Option<(&[u8], &[u8])>
    ensures text { IfSome result (λ r. bytes.now ≡ r.0.now ++ 34 ∷ r.1.now) }
    ensures plain { IfSome result (λ r. escape r.0.now ≡ r.0.now) }
{
    let mut count = 0;
    'letters: while count < bytes.len() && is_letter(bytes[count]) {
        count += 1;
    }
    let (word, rest) = bytes.split_at(count);
    Some((word, behind(rest, b"\"")?))
}

/// A key with its quotation marks, and what stands behind its colon.
#[inline(always)]
fn key_in(bytes: &[u8]) -> Option<(Key, &[u8])>
    ensures { IfSome result
        (λ r. lex between bytes.now ≡ token (string (key_text r.0)) ∷ colon ∷ lex between r.1.now) }
{
    let (key, after) = key_front(behind(past_blanks(bytes), b"\"")?)?;
    let after = past_blanks(behind(after, b"\"")?);
    Some((key, behind(after, b":")?))
}

/// Whether a number or a literal may end before these bytes.
#[inline(always)]
fn ends_word(bytes: &[u8]) -> bool
    ensures { IsTrue result → ends_a_word bytes.now ≡ true }
{
    match bytes.first() {
        Some(first) => matches!(*first, b',' | b'}') || is_blank(*first),
        None => false,
    }
}

/// A value, and what stands behind it.
#[inline(always)]
fn value_in(bytes: &[u8]) -> Option<(Scalar<'_>, &[u8])>
    ensures { IfSome result (λ r. BeginsWith bytes.now r.0 r.1.now) }
{
    let bytes = past_blanks(bytes);
    if let Some(after) = behind(bytes, b"\"") {
        let (word, after) = letters_in(after)?;
        return Some((Scalar::Text(word), after));
    }
    if let Some((number, after)) = number_in(bytes) {
        return if ends_word(after) {
            Some((Scalar::Number(number), after))
        } else {
            None
        };
    }
    let after = behind(bytes, b"null")?;
    if ends_word(after) {
        Some((Scalar::Null, after))
    } else {
        None
    }
}

/// Whether an object ends here, and with it the line.
#[inline(always)]
fn is_last(bytes: &[u8]) -> bool
    ensures { IsTrue result → lex between bytes.now ≡ token end_object ∷ [] }
{
    match behind(bytes, b"}") {
        Some(after) => past_blanks(after).is_empty(),
        None => false,
    }
}

/// The move that a text is, where it is an object with no escape in a key, whose values are words
/// of letters, null and numbers of 64 bits that are not negative; of a key that comes twice, the
/// last value stays. None also of other texts, which may be moves.
pub(crate) fn spelled_move(text: &str) -> Option<Move>
    ensures { IfSome result (IsMove text.now) }
{
    let mut rest = behind(past_blanks(text.as_bytes()), b"{")?;
    let mut found = GatheredMembers::new();
    'members: loop {
        let (key, after) = key_in(rest)?;
        let (value, after) = value_in(after)?;
        if !found.take(key, value) {
            return None;
        }
        let after = past_blanks(after);
        let Some(more) = behind(after, b",") else {
            return if is_last(after) {
                found.made_move()
            } else {
                None
            };
        };
        rest = more;
    }
}
