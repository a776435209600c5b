//! The names of threads and objects.

ghost use Rattle.std.specs.Prelude.{◌≡◌, ◌++◌, IfSome, Some, not, position};
ghost use Rattle.std.specs.Int.{is_in_range};
ghost use Rattle.std.specs.List.{list_all};
ghost use Rattle.script_text.specs.Words.{is_name_byte, is_name, name_from};

use std::marker::Model;
use std::{fmt, str};

/// The most bytes that a name has.
const LONGEST_NAME: usize = 32;

/// The name of a thread or an object: 1 to 32 of the bytes `a` to `z`, `0` to `9` and `_`, the
/// first a letter.
#[derive(Drop)]
pub struct Name<'a> {
    text: &'a str,
}

impl<'a> Model for Name<'a> {
    ghost use Rattle.std.specs.Prelude.{◌≡◌, List, ℕ, true};
    ghost use Rattle.script_text.specs.Words.{is_name};

    ghost Value = { List ℕ };

    ghost view = { λ n. n.text.now };

    ghost invariant = { λ n. is_name n.text.now ≡ true };
}

/// The bytes that may stand in a name, each at its own position, and a dot at every other.
static NAME_BYTES: [u8; 256] = *b"\
    ................................\
    ................0123456789......\
    ..............................._\
    .abcdefghijklmnopqrstuvwxyz.....\
    ................................\
    ................................\
    ................................\
    ................................";

/// One look at a table, since each byte of a script's names is asked here: comparisons take more
/// than twice as many instructions.
#[inline(always)]
fn may_stand_in_name(byte: u8) -> bool
    ensures { result ≡ is_name_byte byte }
{
    NAME_BYTES[byte as usize] != b'.'
}

fn is_letter(byte: u8) -> bool
    ensures { result ≡ is_in_range 97 122 byte }
{
    matches!(byte, b'a'..=b'z')
}

fn are_right(bytes: &[u8]) -> bool
    ensures { result ≡ list_all is_name_byte bytes.now }
{
    bytes.iter().all(|byte| may_stand_in_name(*byte))
}

fn is_right(bytes: &[u8]) -> bool
    ensures { result ≡ is_name bytes.now }
{
    match bytes {
        [] => false,
        [first, rest @ ..] => { is_letter(*first) && rest.len() < LONGEST_NAME && are_right(rest) }
    }
}

/// How many bytes come before the first that stands in no name, if there is such a byte.
#[inline(always)]
fn name_len(bytes: &[u8]) -> Option<usize>
    ensures { result ≡ position (λ b. not (is_name_byte b)) bytes.now }
{
    bytes.iter().position(|byte| !may_stand_in_name(*byte))
}

impl<'a> Name<'a> {
    /// The name that a text is.
    pub fn from_text(text: &'a str) -> Option<Name<'a>>
        ensures { result ≡ name_from text.now }
    {
        if is_right(text.as_bytes()) {
            Some(Name { text })
        } else {
            None
        }
    }

    /// The name that some bytes are.
    pub(crate) fn from_bytes(bytes: &'a [u8]) -> Option<Name<'a>>
        ensures { result ≡ name_from bytes.now }
    {
        if !is_right(bytes) {
            return None;
        }
        // The bytes of a name are ASCII.
        let text = unsafe { str::from_utf8_unchecked(bytes) };
        Some(Name { text })
    }

    /// The name in front of some bytes, up to the first byte that stands in no name, and what is
    /// left of them. None where there is no such byte, or what comes before it is no name.
    #[inline(always)]
    pub(crate) fn at_front(bytes: &'a [u8]) -> Option<(Name<'a>, &'a [u8])>
        ensures { IfSome result (λ front. bytes.now ≡ front.0 ++ front.1.now) }
    {
        let len = name_len(bytes)?;
        let (word, rest) = bytes.split_at(len);
        let [first, ..] = word else {
            return None;
        };
        if !is_letter(*first) || len > LONGEST_NAME {
            return None;
        }
        // The bytes of a name are ASCII.
        let text = unsafe { str::from_utf8_unchecked(word) };
        Some((Name { text }, rest))
    }

    /// The text of the name.
    pub fn as_str(&self) -> &'a str
        ensures { result.now ≡ self.now }
    {
        self.text
    }
}

impl fmt::Display for Name<'_> {
    ghost output = { λ name. Some name };

    fn fmt<W: fmt::Write>(&self, f: &mut fmt::Formatter<W>) -> fmt::Result {
        f.write_str(self.as_str())
    }
}
