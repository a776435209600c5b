//! Who owns the objects: a strip for each object.

ghost use Rattle.std.specs.Prelude.{◌≡◌, ◌≤◌, ◌<◌, ℕ, ◌++◌, IfOk, OnOk, length, nat_eq, slice_get};
ghost use Rattle.std.specs.Prelude.{string_bytes};
ghost use Rattle.std.specs.HashMap.{get as map_get};
ghost use Rattle.picture_text.specs.Layout.{Fits};
ghost use Rattle.picture_text.specs.Nodes.{node_text};
ghost use Rattle.picture_text.specs.Positions.{position_in};
ghost use Rattle.picture_text.specs.Strips.{free_node, free_title, held_node, legend_node};
ghost use Rattle.picture_text.specs.Strips.{owned_node, owner_words, strip_at, strip_below};
ghost use Rattle.picture_text.specs.Strips.{strip_end, strip_from, strip_node, strip_span};
ghost use Rattle.picture_text.specs.Strips.{strips_below};

use crate::bars::{put_bar_where, put_owns_title};
use crate::elements::{Point, begin, begin_bar, begin_group, begin_line, end};
use crate::escapes::put_escaped;
use crate::labels::{put_cut_label, room_in};
use crate::layout::{Layout, Stretch};
use crate::naming::{Naming, object_words, put_object, thread_words};
use crate::spans::put_columns;
use crate::words::put_word_where;
use jls_check::Held;
use lock_word::{ObjectId, ThreadId};
use pictures::{Lane, Strip, StripSpan};
use std::alloc::{AllocError, Global};
use std::collections::HashMap;
use std::fmt::Write;

/// The owner of an object, and how many times it has locked it. Nothing in it is escaped.
fn owner_words(
    alloc: Global,
    naming: &Naming<'_>,
    thread: ThreadId,
    count: u16,
) -> Result<String, AllocError>
    ensures { IfOk result (λ words. string_bytes words ≡ owner_words naming.now thread count) }
{
    let mut words = thread_words(alloc, naming, thread)?;
    write!(words, " x{count}")?;
    Ok(words)
}

/// Writes a span of a strip in which a thread owns the object.
#[tactic(auto, unfolding(crate::specs::Strips::owned_node))]
fn put_owned(
    alloc: Global,
    text: &mut String,
    naming: &Naming<'_>,
    layout: Layout,
    number: u64,
    object: ObjectId,
    thread: ThreadId,
    count: u16,
    stretch: Stretch,
) -> Result<(), AllocError>
    requires fits { Fits layout }
    requires number { number < 200 }
    requires from { stretch.from ≤ 20_000 }
    requires to { stretch.to ≤ 20_000 }
    ensures { OnOk result (string_bytes text.new ≡ string_bytes text.old
        ++ node_text (owned_node naming.now layout number object thread count stretch)) }
{
    let x = layout.x_at(stretch.from);
    let width = layout.width_of(stretch);
    let y = layout.strip_top(number);
    begin_bar(text, number % 8, Point { x, y }, width, 8)?;
    put_owns_title(text, naming, layout, object, thread, count, stretch)?;
    end(text, "rect")?;
    let words = owner_words(alloc, naming, thread, count)?;
    let at = Point {
        x: x + 2,
        y: y + 18,
    };
    put_cut_label(text, "label", at, room_in(width), &words)
}

/// Writes that an object is free in some columns.
#[tactic(auto, unfolding(crate::specs::Strips::free_title))]
fn put_free_title(
    text: &mut String,
    naming: &Naming<'_>,
    layout: Layout,
    object: ObjectId,
    stretch: Stretch,
) -> Result<(), AllocError>
    requires fits { Fits layout }
    requires from { stretch.from ≤ 20_000 }
    requires to { stretch.to ≤ 20_000 }
    ensures { OnOk result (string_bytes text.new ≡ string_bytes text.old
        ++ node_text (free_title naming.now layout object stretch)) }
{
    begin(text, "title")?;
    put_object(text, naming, object)?;
    put_escaped(text, " is free")?;
    put_columns(text, layout, stretch)?;
    end(text, "title")
}

/// Writes a span of a strip in which nobody owns the object.
#[tactic(auto, unfolding(crate::specs::Strips::free_node))]
fn put_free(
    text: &mut String,
    naming: &Naming<'_>,
    layout: Layout,
    number: u64,
    object: ObjectId,
    stretch: Stretch,
) -> Result<(), AllocError>
    requires fits { Fits layout }
    requires number { number < 200 }
    requires from { stretch.from ≤ 20_000 }
    requires to { stretch.to ≤ 20_000 }
    ensures { OnOk result (string_bytes text.new ≡ string_bytes text.old
        ++ node_text (free_node naming.now layout number object stretch)) }
{
    let x = layout.x_at(stretch.from);
    let top = layout.strip_top(number);
    let y = top + 4;
    let to = Point {
        x: layout.x_at(stretch.to),
        y,
    };
    begin_line(text, "free", Point { x, y }, to)?;
    put_free_title(text, naming, layout, object, stretch)?;
    end(text, "line")?;
    let at = Point {
        x: x + 2,
        y: top + 18,
    };
    put_cut_label(text, "label", at, room_in(layout.width_of(stretch)), "free")
}

/// Writes who owns an object, in its strip and in the lane of the owner.
#[tactic(auto, unfolding(crate::specs::Strips::held_node))]
fn put_held(
    alloc: Global,
    text: &mut String,
    naming: &Naming<'_>,
    layout: Layout,
    number: u64,
    object: ObjectId,
    held: Held,
    stretch: Stretch,
    positions: &HashMap<u32, u64>,
    lanes: &[Lane],
) -> Result<(), AllocError>
    requires fits { Fits layout }
    requires number { number < 200 }
    requires from { stretch.from ≤ 20_000 }
    requires to { stretch.to ≤ 20_000 }
    requires map { (q : ℕ)
        → map_get nat_eq positions.now q ≡ position_in lanes.now (length lanes.now) q }
    requires lanes { length lanes.now ≤ 200 }
    ensures { OnOk result (string_bytes text.new ≡ string_bytes text.old
        ++ node_text (held_node naming.now layout lanes.now number object
        held.owner held.count stretch)) }
{
    match held.owner {
        Some(thread) => {
            let count = held.count;
            put_owned(
                alloc, text, naming, layout, number, object, thread, count, stretch,
            )?;
            put_bar_where(
                text, naming, layout, number, object, thread, count, stretch, positions, lanes,
            )
        }
        None => put_free(text, naming, layout, number, object, stretch),
    }
}

/// Writes what is said of an object in some columns.
#[tactic(auto, unfolding(crate::specs::Strips::strip_span))]
fn put_strip_span(
    alloc: Global,
    text: &mut String,
    naming: &Naming<'_>,
    layout: Layout,
    number: u64,
    object: ObjectId,
    span: StripSpan,
    stretch: Stretch,
    positions: &HashMap<u32, u64>,
    lanes: &[Lane],
) -> Result<(), AllocError>
    requires fits { Fits layout }
    requires number { number < 200 }
    requires from { stretch.from ≤ 20_000 }
    requires to { stretch.to ≤ 20_000 }
    requires map { (q : ℕ)
        → map_get nat_eq positions.now q ≡ position_in lanes.now (length lanes.now) q }
    requires lanes { length lanes.now ≤ 200 }
    ensures { OnOk result (string_bytes text.new ≡ string_bytes text.old
        ++ node_text (strip_span naming.now layout lanes.now number object span stretch)) }
{
    put_held(
        alloc, text, naming, layout, number, object, span.held, stretch, positions, lanes,
    )?;
    put_word_where(
        alloc, text, naming, layout, number, object, span.word, stretch,
    )
}

/// Writes the span with a number, which begins at this column.
#[tactic(auto, unfolding(crate::specs::Strips::strip_from))]
fn put_strip_from(
    alloc: Global,
    text: &mut String,
    naming: &Naming<'_>,
    layout: Layout,
    number: u64,
    object: ObjectId,
    spans: &[StripSpan],
    index: usize,
    from: u64,
    positions: &HashMap<u32, u64>,
    lanes: &[Lane],
) -> Result<(), AllocError>
    requires fits { Fits layout }
    requires number { number < 200 }
    requires from { from ≤ 20_000 }
    requires map { (q : ℕ)
        → map_get nat_eq positions.now q ≡ position_in lanes.now (length lanes.now) q }
    requires lanes { length lanes.now ≤ 200 }
    ensures { OnOk result (string_bytes text.new ≡ string_bytes text.old
        ++ node_text (strip_from naming.now layout lanes.now number object from
        (slice_get spans.now index))) }
{
    match spans.get(index) {
        Some(span) => {
            let to = layout.end_of(from, span.columns);
            let stretch = Stretch { from, to };
            put_strip_span(
                alloc, text, naming, layout, number, object, *span, stretch, positions, lanes,
            )
        }
        None => Ok(()),
    }
}

/// Where the span with a number ends, which begins at this column.
#[tactic(auto, unfolding(crate::specs::Strips::strip_end))]
fn strip_end(layout: Layout, spans: &[StripSpan], index: usize, from: u64) -> u64
    requires fits { Fits layout }
    requires from { from ≤ 20_000 }
    ensures end { result ≡ strip_end layout from (slice_get spans.now index) }
    ensures most { result ≤ 20_000 }
{
    match spans.get(index) {
        Some(span) => layout.end_of(from, span.columns),
        None => from,
    }
}

/// Writes all that is said of an object.
fn put_strip_spans(
    alloc: Global,
    text: &mut String,
    naming: &Naming<'_>,
    layout: Layout,
    number: u64,
    object: ObjectId,
    spans: &[StripSpan],
    positions: &HashMap<u32, u64>,
    lanes: &[Lane],
) -> Result<(), AllocError>
    requires fits { Fits layout }
    requires number { number < 200 }
    requires map { (q : ℕ)
        → map_get nat_eq positions.now q ≡ position_in lanes.now (length lanes.now) q }
    requires lanes { length lanes.now ≤ 200 }
    ensures { OnOk result (string_bytes text.new ≡ string_bytes text.old
        ++ node_text (strip_below naming.now layout lanes.now number object spans.now
        (length spans.now))) }
{
    let mut from = 0u64;
    'spans: for index in 0..spans.len() {
        put_strip_from(
            alloc, text, naming, layout, number, object, spans, index, from, positions, lanes,
        )?;
        from = strip_end(layout, spans, index, from);
    }
    Ok(())
}

/// Writes the pattern and the name of an object.
#[tactic(auto, unfolding(crate::specs::Strips::legend_node))]
fn put_legend(
    alloc: Global,
    text: &mut String,
    naming: &Naming<'_>,
    layout: Layout,
    number: u64,
    object: ObjectId,
) -> Result<(), AllocError>
    requires fits { Fits layout }
    requires number { number < 200 }
    ensures { OnOk result (string_bytes text.new ≡ string_bytes text.old
        ++ node_text (legend_node naming.now layout number object)) }
{
    let y = layout.strip_top(number);
    begin_bar(text, number % 8, Point { x: 4, y }, 16, 8)?;
    begin(text, "title")?;
    put_object(text, naming, object)?;
    end(text, "title")?;
    end(text, "rect")?;
    let words = object_words(alloc, naming, object)?;
    put_cut_label(text, "name", Point { x: 24, y: y + 8 }, 14, &words)
}

/// Writes a strip.
#[tactic(auto, unfolding(crate::specs::Strips::strip_node))]
fn put_strip(
    alloc: Global,
    text: &mut String,
    naming: &Naming<'_>,
    layout: Layout,
    number: u64,
    strip: &Strip,
    positions: &HashMap<u32, u64>,
    lanes: &[Lane],
) -> Result<(), AllocError>
    requires fits { Fits layout }
    requires number { number < 200 }
    requires map { (q : ℕ)
        → map_get nat_eq positions.now q ≡ position_in lanes.now (length lanes.now) q }
    requires lanes { length lanes.now ≤ 200 }
    ensures { OnOk result (string_bytes text.new ≡ string_bytes text.old
        ++ node_text (strip_node naming.now layout lanes.now number strip.now)) }
{
    let object = strip.object;
    begin_group(text, "strip")?;
    put_legend(alloc, text, naming, layout, number, object)?;
    put_strip_spans(
        alloc,
        text,
        naming,
        layout,
        number,
        object,
        &strip.spans,
        positions,
        lanes,
    )?;
    end(text, "g")
}

/// Writes the strip with a number.
#[tactic(auto, unfolding(crate::specs::Strips::strip_at))]
fn put_strip_at(
    alloc: Global,
    text: &mut String,
    naming: &Naming<'_>,
    layout: Layout,
    strips: &[Strip],
    number: usize,
    positions: &HashMap<u32, u64>,
    lanes: &[Lane],
) -> Result<(), AllocError>
    requires fits { Fits layout }
    requires number { number < 200 }
    requires map { (q : ℕ)
        → map_get nat_eq positions.now q ≡ position_in lanes.now (length lanes.now) q }
    requires lanes { length lanes.now ≤ 200 }
    ensures { OnOk result (string_bytes text.new ≡ string_bytes text.old
        ++ node_text (strip_at naming.now layout lanes.now strips.now number)) }
{
    match strips.get(number) {
        Some(strip) => {
            put_strip(
                alloc,
                text,
                naming,
                layout,
                number as u64,
                strip,
                positions,
                lanes,
            )
        }
        None => Ok(()),
    }
}

/// Writes all strips, and the bars of the owners.
pub(crate) fn put_strips(
    alloc: Global,
    text: &mut String,
    naming: &Naming<'_>,
    layout: Layout,
    strips: &[Strip],
    positions: &HashMap<u32, u64>,
    lanes: &[Lane],
) -> Result<(), AllocError>
    requires fits { Fits layout }
    requires strips { length strips.now ≤ 200 }
    requires map { (q : ℕ)
        → map_get nat_eq positions.now q ≡ position_in lanes.now (length lanes.now) q }
    requires lanes { length lanes.now ≤ 200 }
    ensures { OnOk result (string_bytes text.new ≡ string_bytes text.old
        ++ node_text (strips_below naming.now layout lanes.now strips.now (length strips.now))) }
{
    'strips: for number in 0..strips.len() {
        put_strip_at(
            alloc, text, naming, layout, strips, number, positions, lanes,
        )?;
    }
    Ok(())
}
