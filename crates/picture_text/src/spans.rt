//! What a thread is doing, drawn from column to column.

ghost use Rattle.std.specs.Prelude.{◌≡◌, ◌≤◌, ◌++◌, OnOk, length, slice_get, string_bytes};
ghost use Rattle.picture_text.specs.Layout.{Fits};
ghost use Rattle.picture_text.specs.Nodes.{node_text};
ghost use Rattle.picture_text.specs.Spans.{back_node, columns_node};
ghost use Rattle.picture_text.specs.Spans.{doing_look, doing_node, doing_shape};
ghost use Rattle.picture_text.specs.Spans.{end_from, flag_title, has_node};
ghost use Rattle.picture_text.specs.Spans.{span_from, waits_node, wants_node};
ghost use Rattle.picture_text.specs.Spans.{flag_mark, flag_node, idle_node, is_idle, span_node};
ghost use Rattle.picture_text.specs.Spans.{span_title, spans_below, state_node, why_words};

use crate::elements::{Point, begin, begin_box, begin_label, begin_line, end};
use crate::escapes::{put_counted, put_escaped};
use crate::labels::{put_cut_label, room_in};
use crate::layout::{Layout, Stretch};
use crate::naming::{Naming, call_words, put_object, put_reply_name, put_thread};
use fast_path::Call;
use fat_monitor::{Reply, Why};
use jls_check::Live;
use lock_word::{ObjectId, ThreadId};
use pictures::Span;
use std::alloc::{AllocError, Global};
use step_core::Doing;

/// Writes the numbers of some columns.
#[tactic(auto, unfolding(crate::specs::Spans::columns_node))]
pub(crate) fn put_columns(
    text: &mut String,
    layout: Layout,
    stretch: Stretch,
) -> Result<(), AllocError>
    requires fits { Fits layout }
    requires from { stretch.from ≤ 20_000 }
    requires to { stretch.to ≤ 20_000 }
    ensures { OnOk result (string_bytes text.new
        ≡ string_bytes text.old ++ node_text (columns_node layout stretch)) }
{
    let from = layout.first + stretch.from;
    let to = (layout.first + stretch.to).saturating_sub(1);
    put_counted(text, ", columns ", from)?;
    put_counted(text, " to ", to)
}

fn why_words(why: Why) -> &'static str
    ensures { result.now ≡ why_words why }
{
    match why {
        Why::Notified => "notified",
        Why::Interrupted => "interrupted",
        Why::Elapsed => "its time is over",
        Why::Spurious => "spurious",
    }
}

/// Writes what a thread is doing, in words.
#[tactic(auto, unfolding(crate::specs::Spans::doing_node))]
fn put_doing(
    alloc: Global,
    text: &mut String,
    naming: &Naming<'_>,
    doing: Doing,
) -> Result<(), AllocError>
    ensures { OnOk result (string_bytes text.new
        ≡ string_bytes text.old ++ node_text (doing_node naming.now doing)) }
{
    match doing {
        Doing::Idle => put_escaped(text, " is in no call"),
        Doing::Wants(call) => put_wants(alloc, text, naming, call),
        Doing::Waits { object, holds, .. } => put_waits(text, naming, object, holds),
        Doing::Back { object, holds, why } => put_back(text, naming, object, holds, why),
        Doing::Has(reply) => put_has(text, reply),
    }
}

/// Writes which call a thread wants.
fn put_wants(
    alloc: Global,
    text: &mut String,
    naming: &Naming<'_>,
    call: Call,
) -> Result<(), AllocError>
    ensures { OnOk result (string_bytes text.new
        ≡ string_bytes text.old ++ node_text (wants_node naming.now call)) }
{
    put_escaped(text, " wants ")?;
    let words = call_words(alloc, naming, call)?;
    put_escaped(text, &words)
}

/// Writes that a thread waits.
fn put_waits(
    text: &mut String,
    naming: &Naming<'_>,
    object: ObjectId,
    holds: u16,
) -> Result<(), AllocError>
    ensures { OnOk result (string_bytes text.new
        ≡ string_bytes text.old ++ node_text (waits_node naming.now object holds)) }
{
    put_escaped(text, " waits on ")?;
    put_object(text, naming, object)?;
    put_counted(text, ", gave up ", u64::from(holds))
}

/// Writes that a thread has left a wait set.
fn put_back(
    text: &mut String,
    naming: &Naming<'_>,
    object: ObjectId,
    holds: u16,
    why: Why,
) -> Result<(), AllocError>
    ensures { OnOk result (string_bytes text.new
        ≡ string_bytes text.old ++ node_text (back_node naming.now object holds why)) }
{
    put_escaped(text, " back from ")?;
    put_object(text, naming, object)?;
    put_escaped(text, " (")?;
    put_escaped(text, why_words(why))?;
    put_counted(text, "), holds ", u64::from(holds))
}

/// Writes which reply a thread has.
fn put_has(text: &mut String, reply: Reply) -> Result<(), AllocError>
    ensures { OnOk result (string_bytes text.new
        ≡ string_bytes text.old ++ node_text (has_node reply)) }
{
    put_escaped(text, " has reply ")?;
    put_reply_name(text, reply)
}

/// Writes what a thread is doing in some columns, and which these are.
#[tactic(auto, unfolding(crate::specs::Spans::span_title))]
fn put_span_title(
    alloc: Global,
    text: &mut String,
    naming: &Naming<'_>,
    layout: Layout,
    thread: ThreadId,
    doing: Doing,
    stretch: Stretch,
) -> Result<(), AllocError>
    requires fits { Fits layout }
    requires from { stretch.from ≤ 20_000 }
    requires to { stretch.to ≤ 20_000 }
    ensures { OnOk result (string_bytes text.new ≡ string_bytes text.old
        ++ node_text (span_title naming.now layout thread doing stretch)) }
{
    begin(text, "title")?;
    put_thread(text, naming, thread)?;
    put_doing(alloc, text, naming, doing)?;
    put_columns(text, layout, stretch)?;
    end(text, "title")
}

/// How a box looks, and the word in it.
fn doing_look(doing: Doing) -> &'static str
    ensures { result.now ≡ doing_look doing }
{
    match doing {
        Doing::Idle => "idle",
        Doing::Wants(Call::Enter(_)) => "entry",
        Doing::Wants(_) => "wants",
        Doing::Waits { .. } => "waits",
        Doing::Back { .. } => "back",
        Doing::Has(_) => "has",
    }
}

fn is_idle(doing: Doing) -> bool
    ensures { result ≡ is_idle doing }
{
    match doing {
        Doing::Idle => true,
        Doing::Wants(_) | Doing::Waits { .. } | Doing::Back { .. } | Doing::Has(_) => false,
    }
}

/// Writes what a thread is doing in some columns.
#[tactic(auto, unfolding(crate::specs::Spans::doing_shape))]
fn put_shape(
    alloc: Global,
    text: &mut String,
    naming: &Naming<'_>,
    layout: Layout,
    thread: ThreadId,
    doing: Doing,
    stretch: Stretch,
    top: u64,
) -> Result<(), AllocError>
    requires fits { Fits layout }
    requires from { stretch.from ≤ 20_000 }
    requires to { stretch.to ≤ 20_000 }
    requires top { top ≤ 400_000 }
    ensures { OnOk result (string_bytes text.new ≡ string_bytes text.old
        ++ node_text (doing_shape naming.now layout thread doing stretch top)) }
{
    if is_idle(doing) {
        put_idle(alloc, text, naming, layout, thread, doing, stretch, top)
    } else {
        put_state(alloc, text, naming, layout, thread, doing, stretch, top)
    }
}

/// Writes the line of a thread that is in no call.
#[tactic(auto, unfolding(crate::specs::Spans::idle_node))]
fn put_idle(
    alloc: Global,
    text: &mut String,
    naming: &Naming<'_>,
    layout: Layout,
    thread: ThreadId,
    doing: Doing,
    stretch: Stretch,
    top: u64,
) -> Result<(), AllocError>
    requires fits { Fits layout }
    requires from { stretch.from ≤ 20_000 }
    requires to { stretch.to ≤ 20_000 }
    requires top { top ≤ 400_000 }
    ensures { OnOk result (string_bytes text.new ≡ string_bytes text.old
        ++ node_text (idle_node naming.now layout thread doing stretch top)) }
{
    let y = top + 23;
    let from = Point {
        x: layout.x_at(stretch.from),
        y,
    };
    let to = Point {
        x: layout.x_at(stretch.to),
        y,
    };
    begin_line(text, "idle", from, to)?;
    put_span_title(alloc, text, naming, layout, thread, doing, stretch)?;
    end(text, "line")
}

/// Writes the box of a thread that is in a call.
#[tactic(auto, unfolding(crate::specs::Spans::state_node))]
fn put_state(
    alloc: Global,
    text: &mut String,
    naming: &Naming<'_>,
    layout: Layout,
    thread: ThreadId,
    doing: Doing,
    stretch: Stretch,
    top: u64,
) -> Result<(), AllocError>
    requires fits { Fits layout }
    requires from { stretch.from ≤ 20_000 }
    requires to { stretch.to ≤ 20_000 }
    requires top { top ≤ 400_000 }
    ensures { OnOk result (string_bytes text.new ≡ string_bytes text.old
        ++ node_text (state_node naming.now layout thread doing stretch top)) }
{
    let x = layout.x_at(stretch.from);
    let width = layout.width_of(stretch);
    let look = doing_look(doing);
    begin_box(text, look, Point { x, y: top + 14 }, width, 18)?;
    put_span_title(alloc, text, naming, layout, thread, doing, stretch)?;
    end(text, "rect")?;
    let at = Point {
        x: x + 3,
        y: top + 27,
    };
    put_cut_label(text, "state", at, room_in(width), look)
}

/// Writes that a thread is interrupted in some columns.
#[tactic(auto, unfolding(crate::specs::Spans::flag_title))]
fn put_flag_title(
    text: &mut String,
    naming: &Naming<'_>,
    layout: Layout,
    thread: ThreadId,
    stretch: Stretch,
) -> Result<(), AllocError>
    requires fits { Fits layout }
    requires from { stretch.from ≤ 20_000 }
    requires to { stretch.to ≤ 20_000 }
    ensures { OnOk result (string_bytes text.new ≡ string_bytes text.old
        ++ node_text (flag_title naming.now layout thread stretch)) }
{
    begin(text, "title")?;
    put_thread(text, naming, thread)?;
    put_escaped(text, " interrupted")?;
    put_columns(text, layout, stretch)?;
    end(text, "title")
}

/// Writes that a thread is interrupted, if it is.
#[tactic(auto, unfolding(crate::specs::Spans::flag_node))]
fn put_flag(
    text: &mut String,
    naming: &Naming<'_>,
    layout: Layout,
    thread: ThreadId,
    flag: bool,
    stretch: Stretch,
    top: u64,
) -> Result<(), AllocError>
    requires fits { Fits layout }
    requires from { stretch.from ≤ 20_000 }
    requires to { stretch.to ≤ 20_000 }
    requires top { top ≤ 400_000 }
    ensures { OnOk result (string_bytes text.new ≡ string_bytes text.old
        ++ node_text (flag_node naming.now layout thread flag stretch top)) }
{
    if !flag {
        return Ok(());
    }
    let x = layout.x_at(stretch.from);
    let width = layout.width_of(stretch);
    let corner = Point { x, y: top + 34 };
    begin_box(text, "flag", corner, width, 3)?;
    put_flag_title(text, naming, layout, thread, stretch)?;
    end(text, "rect")?;
    put_flag_mark(text, Point { x, y: top + 31 }, width)
}

/// Writes the mark of an interrupt, where there is room for it.
#[tactic(auto, unfolding(crate::specs::Spans::flag_mark))]
fn put_flag_mark(text: &mut String, at: Point, width: u64) -> Result<(), AllocError>
    requires x { at.x ≤ 2_000_000 }
    requires width { width ≤ 2_000_000 }
    ensures { OnOk result (string_bytes text.new
        ≡ string_bytes text.old ++ node_text (flag_mark at.x at.y width)) }
{
    if width < 8 {
        return Ok(());
    }
    let right = Point {
        x: at.x + width - 8,
        y: at.y,
    };
    begin_label(text, "mark", right)?;
    put_escaped(text, "!")?;
    end(text, "text")
}

/// Writes what is said of a thread in some columns.
#[tactic(auto, unfolding(crate::specs::Spans::span_node))]
fn put_span(
    alloc: Global,
    text: &mut String,
    naming: &Naming<'_>,
    layout: Layout,
    thread: ThreadId,
    live: Option<Live>,
    stretch: Stretch,
    top: u64,
) -> Result<(), AllocError>
    requires fits { Fits layout }
    requires from { stretch.from ≤ 20_000 }
    requires to { stretch.to ≤ 20_000 }
    requires top { top ≤ 400_000 }
    ensures { OnOk result (string_bytes text.new ≡ string_bytes text.old
        ++ node_text (span_node naming.now layout thread live stretch top)) }
{
    match live {
        Some(live) => {
            put_shape(alloc, text, naming, layout, thread, live.act, stretch, top)?;
            put_flag(text, naming, layout, thread, live.flag, stretch, top)
        }
        None => Ok(()),
    }
}

/// Writes the span with a number, which begins at this column.
#[tactic(auto, unfolding(crate::specs::Spans::span_from))]
fn put_span_at(
    alloc: Global,
    text: &mut String,
    naming: &Naming<'_>,
    layout: Layout,
    thread: ThreadId,
    spans: &[Span],
    number: usize,
    from: u64,
    top: u64,
) -> Result<(), AllocError>
    requires fits { Fits layout }
    requires from { from ≤ 20_000 }
    requires top { top ≤ 400_000 }
    ensures { OnOk result (string_bytes text.new ≡ string_bytes text.old
        ++ node_text (span_from naming.now layout thread top from (slice_get spans.now number))) }
{
    match spans.get(number) {
        Some(span) => {
            let to = layout.end_of(from, span.columns);
            let stretch = Stretch { from, to };
            put_span(alloc, text, naming, layout, thread, span.live, stretch, top)
        }
        None => Ok(()),
    }
}

/// Where the span with a number ends, which begins at this column.
#[tactic(auto, unfolding(crate::specs::Spans::end_from))]
fn end_at(layout: Layout, spans: &[Span], number: usize, from: u64) -> u64
    requires fits { Fits layout }
    requires from { from ≤ 20_000 }
    ensures end { result ≡ end_from layout from (slice_get spans.now number) }
    ensures most { result ≤ 20_000 }
{
    match spans.get(number) {
        Some(span) => layout.end_of(from, span.columns),
        None => from,
    }
}

/// Writes all that is said of a thread, whose lane has its top edge there.
pub(crate) fn put_spans(
    alloc: Global,
    text: &mut String,
    naming: &Naming<'_>,
    layout: Layout,
    thread: ThreadId,
    spans: &[Span],
    top: u64,
) -> Result<(), AllocError>
    requires fits { Fits layout }
    requires top { top ≤ 400_000 }
    ensures { OnOk result (string_bytes text.new ≡ string_bytes text.old
        ++ node_text (spans_below naming.now layout thread top spans.now (length spans.now))) }
{
    let mut from = 0u64;
    'spans: for number in 0..spans.len() {
        put_span_at(
            alloc, text, naming, layout, thread, spans, number, from, top,
        )?;
        from = end_at(layout, spans, number, from);
    }
    Ok(())
}
