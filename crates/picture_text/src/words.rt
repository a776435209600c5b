//! The header words of objects, below their owners.

ghost use Rattle.std.specs.Prelude.{◌≡◌, ◌≤◌, ◌<◌, ◌++◌, IfOk, OnOk, string_bytes};
ghost use Rattle.picture_text.specs.Layout.{Fits};
ghost use Rattle.picture_text.specs.Nodes.{node_text};
ghost use Rattle.picture_text.specs.Strips.{word_node, word_title, word_where, word_words};

use crate::elements::{Point, begin, begin_group, end};
use crate::escapes::put_escaped;
use crate::labels::{put_cut_label, room_in};
use crate::layout::{Layout, Stretch};
use crate::naming::{Naming, put_object};
use crate::spans::put_columns;
use lock_word::{ObjectId, Word};
use std::alloc::{AllocError, Global};
use std::fmt::Write;

/// A header word, and what it shows whatever its split. Nothing in it is escaped.
fn word_words(alloc: Global, word: Word) -> Result<String, AllocError>
    ensures { IfOk result (λ words. string_bytes words ≡ word_words word) }
{
    let mut words = String::new(alloc);
    write!(words, "{word}")?;
    let bits = word.0;
    if bits >= 0x8000_0000 {
        write!(words, " fat {}", (bits - 0x8000_0000) / 256)?;
        return Ok(words);
    }
    words.push_str(if bits < 256 { " free" } else { " thin" })?;
    Ok(words)
}

/// Writes what a header word says of itself.
#[tactic(auto, unfolding(crate::specs::Strips::word_title))]
fn put_word_title(
    text: &mut String,
    naming: &Naming<'_>,
    layout: Layout,
    object: ObjectId,
    word: Word,
    words: &str,
    stretch: Stretch,
) -> Result<(), AllocError>
    requires fits { Fits layout }
    requires words { words.now ≡ word_words word }
    requires from { stretch.from ≤ 20_000 }
    requires to { stretch.to ≤ 20_000 }
    ensures { OnOk result (string_bytes text.new ≡ string_bytes text.old
        ++ node_text (word_title naming.now layout object word stretch)) }
{
    begin(text, "title")?;
    put_object(text, naming, object)?;
    put_escaped(text, " has word ")?;
    put_escaped(text, words)?;
    put_columns(text, layout, stretch)?;
    end(text, "title")
}

/// Writes a header word.
#[tactic(auto, unfolding(crate::specs::Strips::word_node))]
fn put_word(
    alloc: Global,
    text: &mut String,
    naming: &Naming<'_>,
    layout: Layout,
    number: u64,
    object: ObjectId,
    word: Word,
    stretch: Stretch,
) -> Result<(), AllocError>
    requires fits { Fits layout }
    requires number { number < 200 }
    requires from { stretch.from ≤ 20_000 }
    requires to { stretch.to ≤ 20_000 }
    ensures { OnOk result (string_bytes text.new ≡ string_bytes text.old
        ++ node_text (word_node naming.now layout number object word stretch)) }
{
    let words = word_words(alloc, word)?;
    begin_group(text, "header")?;
    put_word_title(text, naming, layout, object, word, &words, stretch)?;
    let x = layout.x_at(stretch.from) + 2;
    let y = layout.strip_top(number) + 30;
    let room = room_in(layout.width_of(stretch));
    put_cut_label(text, "word", Point { x, y }, room, &words)?;
    end(text, "g")
}

/// Writes a header word, if there is one.
pub(crate) fn put_word_where(
    alloc: Global,
    text: &mut String,
    naming: &Naming<'_>,
    layout: Layout,
    number: u64,
    object: ObjectId,
    word: Option<Word>,
    stretch: Stretch,
) -> Result<(), AllocError>
    requires fits { Fits layout }
    requires number { number < 200 }
    requires from { stretch.from ≤ 20_000 }
    requires to { stretch.to ≤ 20_000 }
    ensures { OnOk result (string_bytes text.new ≡ string_bytes text.old
        ++ node_text (word_where naming.now layout number object word stretch)) }
{
    match word {
        Some(word) => put_word(alloc, text, naming, layout, number, object, word, stretch),
        None => Ok(()),
    }
}
