//! What a world refuses, each at the top of its column.

ghost use Rattle.std.specs.Prelude.{◌≡◌, ◌<◌, ◌++◌, IfOk, OnOk, length, string_bytes};
ghost use Rattle.picture_text.specs.Layout.{Fits};
ghost use Rattle.picture_text.specs.Nodes.{escaped, node_text};
ghost use Rattle.picture_text.specs.Naming.{thread_node};
ghost use Rattle.picture_text.specs.Refusals.{asked_node, fault_words, refusal_at, refusal_node};
ghost use Rattle.picture_text.specs.Refusals.{refusal_title, refusals_below, split_words, step_node};
ghost use Rattle.picture_text.specs.Refusals.{told_node};

use crate::elements::{Point, begin, begin_group, end};
use crate::escapes::{put_counted, put_escaped};
use crate::layout::Layout;
use crate::marks::{put_column, put_cross_lines};
use crate::naming::{Naming, call_words, put_thread};
use lock_word::{Split, ThreadId};
use pictures::{Refusal, RefusalMark};
use std::alloc::{AllocError, Global};
use std::fmt::Write;
use step_core::Step;

/// Writes a verb and the thread behind it.
fn put_verb(
    text: &mut String,
    naming: &Naming<'_>,
    verb: &str,
    thread: ThreadId,
) -> Result<(), AllocError>
    ensures { OnOk result (string_bytes text.new ≡ string_bytes text.old
        ++ (escaped verb.now ++ node_text (thread_node naming.now thread))) }
{
    put_escaped(text, verb)?;
    put_thread(text, naming, thread)
}

/// Writes a step as a script does.
#[tactic(auto, unfolding(crate::specs::Refusals::step_node))]
fn put_step(
    alloc: Global,
    text: &mut String,
    naming: &Naming<'_>,
    step: Step,
) -> Result<(), AllocError>
    ensures { OnOk result (string_bytes text.new
        ≡ string_bytes text.old ++ node_text (step_node naming.now step)) }
{
    match step {
        Step::Attach { thread } => put_verb(text, naming, "attach ", thread),
        Step::Begin { thread, call } => {
            let words = call_words(alloc, naming, call)?;
            put_verb(text, naming, "begin ", thread)?;
            put_escaped(text, " ")?;
            put_escaped(text, &words)
        }
        Step::Go { thread } => put_verb(text, naming, "go ", thread),
        Step::Expire { thread } => put_verb(text, naming, "expire ", thread),
        Step::Spurious { thread } => put_verb(text, naming, "spurious ", thread),
        Step::Tick { now } => put_counted(text, "tick ", now),
    }
}

fn split_words(split: Split) -> &'static str
    ensures { result.now ≡ split_words split }
{
    match split {
        Split::Wide => "relayout wide",
        Split::Deep => "relayout deep",
    }
}

/// Writes what is refused.
#[tactic(auto, unfolding(crate::specs::Refusals::asked_node))]
fn put_asked(
    alloc: Global,
    text: &mut String,
    naming: &Naming<'_>,
    refusal: Refusal,
) -> Result<(), AllocError>
    ensures { OnOk result (string_bytes text.new
        ≡ string_bytes text.old ++ node_text (asked_node naming.now refusal)) }
{
    match refusal {
        Refusal::Step { step, .. } => put_step(alloc, text, naming, step),
        Refusal::Relayout { split, .. } => put_escaped(text, split_words(split)),
    }
}

/// Why it is refused. Nothing in it is escaped.
#[tactic(auto, unfolding(crate::specs::Refusals::fault_words))]
fn fault_words(alloc: Global, refusal: Refusal) -> Result<String, AllocError>
    ensures { IfOk result (λ words. string_bytes words ≡ fault_words refusal) }
{
    let mut words = String::new(alloc);
    match refusal {
        Refusal::Step { fault, .. } => write!(words, "{fault}")?,
        Refusal::Relayout { fault, .. } => write!(words, "{fault}")?,
    }
    Ok(words)
}

/// Writes why it is refused.
fn put_fault(alloc: Global, text: &mut String, refusal: Refusal) -> Result<(), AllocError>
    ensures { OnOk result (string_bytes text.new
        ≡ string_bytes text.old ++ escaped (fault_words refusal)) }
{
    let words = fault_words(alloc, refusal)?;
    put_escaped(text, &words)
}

/// Writes what is refused and why.
#[tactic(auto, unfolding(crate::specs::Refusals::told_node))]
fn put_told(
    alloc: Global,
    text: &mut String,
    naming: &Naming<'_>,
    refusal: Refusal,
) -> Result<(), AllocError>
    ensures { OnOk result (string_bytes text.new
        ≡ string_bytes text.old ++ node_text (told_node naming.now refusal)) }
{
    put_asked(alloc, text, naming, refusal)?;
    put_escaped(text, " is refused: ")?;
    put_fault(alloc, text, refusal)
}

/// Writes what a refusal says of itself.
#[tactic(auto, unfolding(crate::specs::Refusals::refusal_title))]
fn put_refusal_title(
    alloc: Global,
    text: &mut String,
    naming: &Naming<'_>,
    layout: Layout,
    mark: RefusalMark,
) -> Result<(), AllocError>
    requires { Fits layout }
    ensures { OnOk result (string_bytes text.new ≡ string_bytes text.old
        ++ node_text (refusal_title naming.now layout mark)) }
{
    begin(text, "title")?;
    put_told(alloc, text, naming, mark.refusal)?;
    put_column(text, layout, mark.column)?;
    end(text, "title")
}

/// Writes a refusal.
#[tactic(auto, unfolding(crate::specs::Refusals::refusal_node))]
fn put_refusal(
    alloc: Global,
    text: &mut String,
    naming: &Naming<'_>,
    layout: Layout,
    mark: RefusalMark,
) -> Result<(), AllocError>
    requires { Fits layout }
    ensures { OnOk result (string_bytes text.new ≡ string_bytes text.old
        ++ node_text (refusal_node naming.now layout mark)) }
{
    let x = layout.x_at(u64::from(mark.column)) + 1;
    begin_group(text, "refusal")?;
    put_refusal_title(alloc, text, naming, layout, mark)?;
    put_cross_lines(text, Point { x, y: 39 })?;
    end(text, "g")
}

/// Writes the refusal with a number, if there is one.
#[tactic(auto, unfolding(crate::specs::Refusals::refusal_at))]
fn put_refusal_at(
    alloc: Global,
    text: &mut String,
    naming: &Naming<'_>,
    layout: Layout,
    refusals: &[RefusalMark],
    number: usize,
) -> Result<(), AllocError>
    requires { Fits layout }
    ensures { OnOk result (string_bytes text.new ≡ string_bytes text.old
        ++ node_text (refusal_at naming.now layout refusals.now number)) }
{
    match refusals.get(number) {
        Some(mark) => put_refusal(alloc, text, naming, layout, *mark),
        None => Ok(()),
    }
}

/// Writes the refusals.
pub(crate) fn put_refusals(
    alloc: Global,
    text: &mut String,
    naming: &Naming<'_>,
    layout: Layout,
    refusals: &[RefusalMark],
) -> Result<(), AllocError>
    requires { Fits layout }
    ensures { OnOk result (string_bytes text.new ≡ string_bytes text.old
        ++ node_text (refusals_below naming.now layout refusals.now (length refusals.now))) }
{
    'refusals: for number in 0..refusals.len() {
        put_refusal_at(alloc, text, naming, layout, refusals, number)?;
    }
    Ok(())
}
