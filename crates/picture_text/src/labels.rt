//! Writing words that are cut to the room that they have.

ghost use Rattle.std.specs.Prelude.{◌≡◌, ◌++◌, OnOk, length, string_bytes, take};
ghost use Rattle.std.specs.Str.{chars, encode_utf8_all};
ghost use Rattle.picture_text.specs.Labels.{cut, cut_label, room_in};
ghost use Rattle.picture_text.specs.Nodes.{escaped, node_text};

use crate::elements::{Point, begin_label, end};
use crate::escapes::{put_char, put_escaped};
use std::alloc::AllocError;

/// How many characters there is room for in a width in units.
pub(crate) fn room_in(width: u64) -> u64
    ensures { result ≡ room_in width }
{
    width.saturating_sub(4) / 6
}

/// Writes words at a point, cut to the room that they have, in characters. Where it is less than 3,
/// nothing is written.
#[tactic(auto, unfolding(crate::specs::Labels::cut_label))]
pub(crate) fn put_cut_label(
    text: &mut String,
    look: &str,
    at: Point,
    room: u64,
    words: &str,
) -> Result<(), AllocError>
    ensures { OnOk result (string_bytes text.new ≡ string_bytes text.old
        ++ node_text (cut_label look.now at.x at.y room words.now)) }
{
    if room < 3 {
        return Ok(());
    }
    begin_label(text, look, at)?;
    put_cut(text, words, room)?;
    end(text, "text")
}

/// Writes at most so many characters of some words: where some are left out, the last one is `…`.
#[tactic(auto, unfolding(crate::specs::Labels::cut))]
pub(crate) fn put_cut(text: &mut String, words: &str, room: u64) -> Result<(), AllocError>
    ensures { OnOk result (string_bytes text.new
        ≡ string_bytes text.old ++ escaped (cut room words.now)) }
{
    if count_of(words) as u64 <= room {
        return put_escaped(text, words);
    }
    put_first(text, words, room.saturating_sub(1))?;
    put_escaped(text, "…")
}

/// How many characters some words have.
fn count_of(words: &str) -> usize
    ensures { result ≡ length (chars words.now) }
{
    words.chars().count()
}

/// Writes the first characters of some words, as many as this.
fn put_first(text: &mut String, words: &str, count: u64) -> Result<(), AllocError>
    ensures { OnOk result (string_bytes text.new ≡ string_bytes text.old
        ++ escaped (encode_utf8_all (take count (chars words.now)))) }
{
    let mut left = count;
    'chars: for ch in words.chars() {
        if left == 0 {
            return Ok(());
        }
        put_char(text, ch)?;
        left -= 1;
    }
    Ok(())
}
