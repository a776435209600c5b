//! Spans: more columns of a lane or a strip.

ghost use Rattle.std.specs.Prelude.{◌≡◌, ◌++◌, ◌∷◌, [], OnOk, IfSome};
ghost use Rattle.jls_check.specs.MachineState.{state};
ghost use Rattle.pictures.specs.Spans.{AllMarkedStrips, IsMarkedStrip, covered};
ghost use Rattle.pictures.specs.Spans.{repeated, strip_covered, strip_words, word_in};

use crate::picture::{Span, Strip, StripSpan};
use crate::same::{are_same, are_same_words};
use jls_check::{Held, Live, Machine};
use lock_word::Word;
use std::alloc::AllocError;

/// Adds so many columns that say this of a thread.
pub(crate) fn put_columns(
    spans: &mut Vec<Span>,
    live: Option<Live>,
    columns: u32,
) -> Result<(), AllocError>
    ensures { OnOk result (covered spans.new.items
        ≡ covered spans.old.items ++ repeated columns live) }
{
    if let Some(last) = spans.pop() {
        if let Some(longer) = longer(last, live, columns) {
            spans.push(longer)?;
            return Ok(());
        }
        spans.push(last)?;
    }
    spans.push(Span { columns, live })?;
    Ok(())
}

/// The span with so many more columns, if it says this already.
#[tactic(auto, using(crate::proofs::MoreColumns::repeated_sum))]
fn longer(span: Span, live: Option<Live>, columns: u32) -> Option<Span>
    ensures { IfSome result (λ longer. repeated longer.columns longer.live
        ≡ repeated span.columns span.live ++ repeated columns live) }
{
    if !are_same(span.live, live) {
        return None;
    }
    Some(Span {
        columns: span.columns.checked_add(columns)?,
        live,
    })
}

/// Gives each strip one more column, which has this number, in which its object is as the machine
/// says, and has the word that is told of it.
pub(crate) fn mark_strips(
    strips: &mut [Strip],
    machine: &Machine,
    words: &[Vec<Word>],
    column: u32,
) -> Result<(), AllocError>
    ensures { OnOk result
        (AllMarkedStrips (state machine.now) words.now column 0 strips.old strips.new) }
{
    'strips: for (position, strip) in strips.iter_mut().enumerate() {
        mark_strip(strip, machine, word_in(words, column, position))?;
    }
    Ok(())
}

/// The word behind a column of the strip at a position, if it is told.
fn word_in(words: &[Vec<Word>], column: u32, strip: usize) -> Option<Word>
    ensures { result ≡ word_in words.now column strip }
{
    match words.get(column as usize) {
        Some(row) => row.get(strip).copied(),
        None => None,
    }
}

fn mark_strip(strip: &mut Strip, machine: &Machine, word: Option<Word>) -> Result<(), AllocError>
    ensures { OnOk result (IsMarkedStrip (state machine.now) word strip.old strip.new) }
{
    let held = machine.held(strip.object);
    put_strip_span(&mut strip.spans, held, word)
}

/// Adds a column that says this of an object.
fn put_strip_span(
    spans: &mut Vec<StripSpan>,
    held: Held,
    word: Option<Word>,
) -> Result<(), AllocError>
    ensures held { OnOk result
        (strip_covered spans.new.items ≡ strip_covered spans.old.items ++ held ∷ []) }
    ensures words { OnOk result
        (strip_words spans.new.items ≡ strip_words spans.old.items ++ word ∷ []) }
{
    if let Some(last) = spans.pop() {
        if let Some(longer) = longer_strip(last, held, word) {
            spans.push(longer)?;
            return Ok(());
        }
        spans.push(last)?;
    }
    spans.push(StripSpan {
        columns: 1,
        held,
        word,
    })?;
    Ok(())
}

/// The span with one more column, if it says this already.
#[tactic(auto, using(crate::proofs::MoreColumns::repeated_more))]
fn longer_strip(span: StripSpan, held: Held, word: Option<Word>) -> Option<StripSpan>
    ensures held { IfSome result (λ longer. repeated longer.columns longer.held
        ≡ repeated span.columns span.held ++ held ∷ []) }
    ensures words { IfSome result (λ longer. repeated longer.columns longer.word
        ≡ repeated span.columns span.word ++ word ∷ []) }
{
    if span.held != held || !are_same_words(span.word, word) || span.columns == u32::MAX {
        return None;
    }
    Some(StripSpan {
        columns: span.columns + 1,
        held,
        word,
    })
}
