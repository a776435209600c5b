//! The calls of a thread and its replies, each at its column.

ghost use Rattle.std.specs.Prelude.{◌≡◌, ◌≤◌, ◌<◌, ◌+◌, ◌++◌, IfOk, OnOk, length, slice_get};
ghost use Rattle.std.specs.Prelude.{string_bytes};
ghost use Rattle.picture_text.specs.Layout.{Fits};
ghost use Rattle.picture_text.specs.Marks.{call_at, call_limit, call_node, call_title, calls_below};
ghost use Rattle.picture_text.specs.Marks.{column_node, cross_lines, cross_node, indent_of};
ghost use Rattle.picture_text.specs.Marks.{is_refused, replies_below, reply_at, reply_limit};
ghost use Rattle.picture_text.specs.Marks.{reply_node, reply_title, reply_words};
ghost use Rattle.picture_text.specs.Nodes.{node_text};
ghost use Rattle.picture_text.specs.Naming.{call_text};
ghost use Rattle.picture_text.specs.Pieces.{tick_node};

use crate::elements::{Point, begin, begin_group, begin_line, end};
use crate::escapes::{put_counted, put_escaped};
use crate::labels::{put_cut_label, room_in};
use crate::layout::Layout;
use crate::naming::{Naming, call_words, put_reply_name, put_thread};
use fat_monitor::Reply;
use lock_word::ThreadId;
use pictures::{CallMark, ReplyMark};
use std::alloc::{AllocError, Global};
use std::fmt::Write;

/// Writes the number of a column.
#[tactic(auto, unfolding(crate::specs::Marks::column_node))]
pub(crate) fn put_column(text: &mut String, layout: Layout, column: u32) -> Result<(), AllocError>
    requires { Fits layout }
    ensures { OnOk result (string_bytes text.new
        ≡ string_bytes text.old ++ node_text (column_node layout column)) }
{
    let number = layout.first + u64::from(column);
    put_counted(text, ", column ", number)
}

/// Writes a line from one point to another that says nothing of itself.
#[tactic(auto, unfolding(crate::specs::Pieces::tick_node))]
pub(crate) fn put_tick(text: &mut String, from: Point, to: Point) -> Result<(), AllocError>
    ensures { OnOk result (string_bytes text.new ≡ string_bytes text.old
        ++ node_text (tick_node from.x from.y to.x to.y)) }
{
    begin_line(text, "tick", from, to)?;
    end(text, "line")
}

/// Where the room of a call ends, in front of this one.
fn call_limit(layout: Layout, calls: &[CallMark], number: usize) -> u64
    requires fits { Fits layout }
    requires number { number < length calls.now }
    ensures { result ≡ call_limit layout (slice_get calls.now (number + 1)) }
{
    match calls.get(number + 1) {
        Some(mark) => layout.x_at(u64::from(mark.column)),
        None => layout.right(),
    }
}

/// Writes what a call says of itself.
#[tactic(auto, unfolding(crate::specs::Marks::call_title))]
fn put_call_title(
    text: &mut String,
    naming: &Naming<'_>,
    layout: Layout,
    thread: ThreadId,
    mark: CallMark,
    words: &str,
) -> Result<(), AllocError>
    requires fits { Fits layout }
    requires words { words.now ≡ call_text naming.now mark.call }
    ensures { OnOk result (string_bytes text.new ≡ string_bytes text.old
        ++ node_text (call_title naming.now layout thread mark)) }
{
    begin(text, "title")?;
    put_thread(text, naming, thread)?;
    put_escaped(text, " calls ")?;
    put_escaped(text, words)?;
    put_column(text, layout, mark.column)?;
    end(text, "title")
}

/// Writes a call in the lane with this top edge, up to this limit.
#[tactic(auto, unfolding(crate::specs::Marks::call_node))]
fn put_call(
    alloc: Global,
    text: &mut String,
    naming: &Naming<'_>,
    layout: Layout,
    thread: ThreadId,
    top: u64,
    limit: u64,
    mark: CallMark,
) -> Result<(), AllocError>
    requires fits { Fits layout }
    requires top { top ≤ 400_000 }
    ensures { OnOk result (string_bytes text.new ≡ string_bytes text.old
        ++ node_text (call_node naming.now layout thread top limit mark)) }
{
    let words = call_words(alloc, naming, mark.call)?;
    let x = layout.x_at(u64::from(mark.column));
    begin_group(text, "call")?;
    put_call_title(text, naming, layout, thread, mark, &words)?;
    put_tick(text, Point { x, y: top + 2 }, Point { x, y: top + 14 })?;
    let at = Point {
        x: x + 2,
        y: top + 10,
    };
    let room = room_in(limit.saturating_sub(x));
    put_cut_label(text, "label", at, room, &words)?;
    end(text, "g")
}

/// Writes the call with a number, if there is one.
#[tactic(auto, unfolding(crate::specs::Marks::call_at))]
fn put_call_at(
    alloc: Global,
    text: &mut String,
    naming: &Naming<'_>,
    layout: Layout,
    thread: ThreadId,
    calls: &[CallMark],
    number: usize,
    top: u64,
) -> Result<(), AllocError>
    requires fits { Fits layout }
    requires number { number < length calls.now }
    requires top { top ≤ 400_000 }
    ensures { OnOk result (string_bytes text.new ≡ string_bytes text.old
        ++ node_text (call_at naming.now layout thread top calls.now number)) }
{
    let limit = call_limit(layout, calls, number);
    match calls.get(number) {
        Some(mark) => put_call(alloc, text, naming, layout, thread, top, limit, *mark),
        None => Ok(()),
    }
}

/// Writes the calls of a thread, in the lane with this top edge.
pub(crate) fn put_calls(
    alloc: Global,
    text: &mut String,
    naming: &Naming<'_>,
    layout: Layout,
    thread: ThreadId,
    calls: &[CallMark],
    top: u64,
) -> Result<(), AllocError>
    requires fits { Fits layout }
    requires top { top ≤ 400_000 }
    ensures { OnOk result (string_bytes text.new ≡ string_bytes text.old
        ++ node_text (calls_below naming.now layout thread top calls.now (length calls.now))) }
{
    'calls: for number in 0..calls.len() {
        put_call_at(alloc, text, naming, layout, thread, calls, number, top)?;
    }
    Ok(())
}

// ---- replies

fn is_refused(reply: Reply) -> bool
    ensures { result ≡ is_refused reply }
{
    matches!(reply, Reply::Refused(_))
}

/// The words of a reply beside its mark.
fn reply_words(alloc: Global, reply: Reply) -> Result<String, AllocError>
    ensures { IfOk result (λ words. string_bytes words ≡ reply_words reply) }
{
    let mut words = String::new(alloc);
    match reply {
        Reply::Refused(cause) => write!(words, "{cause}")?,
        _ => write!(words, "{reply}")?,
    }
    Ok(words)
}

/// Writes the cross of a refusal.
#[tactic(auto, unfolding(crate::specs::Marks::cross_node))]
fn put_cross(text: &mut String, reply: Reply, corner: Point) -> Result<(), AllocError>
    requires x { corner.x ≤ 2_000_000 }
    requires y { corner.y ≤ 2_000_000 }
    ensures { OnOk result (string_bytes text.new ≡ string_bytes text.old
        ++ node_text (cross_node reply corner.x corner.y)) }
{
    if !is_refused(reply) {
        return Ok(());
    }
    put_cross_lines(text, corner)
}

/// Writes a cross.
pub(crate) fn put_cross_lines(text: &mut String, corner: Point) -> Result<(), AllocError>
    requires x { corner.x ≤ 2_000_000 }
    requires y { corner.y ≤ 2_000_000 }
    ensures { OnOk result (string_bytes text.new ≡ string_bytes text.old
        ++ node_text (cross_lines corner.x corner.y)) }
{
    let Point { x, y } = corner;
    let (right, bottom) = (x + 8, y + 8);
    begin_line(
        text,
        "cross",
        corner,
        Point {
            x: right,
            y: bottom,
        },
    )?;
    end(text, "line")?;
    begin_line(text, "cross", Point { x, y: bottom }, Point { x: right, y })?;
    end(text, "line")
}

fn indent_of(reply: Reply) -> u64
    ensures indent { result ≡ indent_of reply }
    ensures most { result ≤ 10 }
{
    if is_refused(reply) { 10 } else { 2 }
}

/// Where the room of a reply ends, in front of this one.
fn reply_limit(layout: Layout, replies: &[ReplyMark], number: usize) -> u64
    requires fits { Fits layout }
    requires number { number < length replies.now }
    ensures { result ≡ reply_limit layout (slice_get replies.now (number + 1)) }
{
    match replies.get(number + 1) {
        Some(mark) => layout.x_at(u64::from(mark.column)),
        None => layout.right(),
    }
}

/// Writes what a reply says of itself.
#[tactic(auto, unfolding(crate::specs::Marks::reply_title))]
fn put_reply_title(
    text: &mut String,
    naming: &Naming<'_>,
    layout: Layout,
    thread: ThreadId,
    mark: ReplyMark,
) -> Result<(), AllocError>
    requires { Fits layout }
    ensures { OnOk result (string_bytes text.new ≡ string_bytes text.old
        ++ node_text (reply_title naming.now layout thread mark)) }
{
    let reply = mark.reply;
    begin(text, "title")?;
    put_thread(text, naming, thread)?;
    put_escaped(text, " returns with ")?;
    put_reply_name(text, reply)?;
    put_column(text, layout, mark.column)?;
    end(text, "title")
}

/// Writes a reply in a row with this top edge, up to this limit.
#[tactic(auto, unfolding(crate::specs::Marks::reply_node))]
fn put_reply(
    alloc: Global,
    text: &mut String,
    naming: &Naming<'_>,
    layout: Layout,
    thread: ThreadId,
    top: u64,
    limit: u64,
    mark: ReplyMark,
) -> Result<(), AllocError>
    requires fits { Fits layout }
    requires top { top ≤ 400_000 }
    ensures { OnOk result (string_bytes text.new ≡ string_bytes text.old
        ++ node_text (reply_node naming.now layout thread top limit mark)) }
{
    let words = reply_words(alloc, mark.reply)?;
    let x = layout.x_at(u64::from(mark.column));
    begin_group(text, "reply")?;
    put_reply_title(text, naming, layout, thread, mark)?;
    put_tick(text, Point { x, y: top }, Point { x, y: top + 12 })?;
    put_cross(
        text,
        mark.reply,
        Point {
            x: x + 1,
            y: top + 3,
        },
    )?;
    let left = x + indent_of(mark.reply);
    let at = Point {
        x: left,
        y: top + 10,
    };
    let room = room_in(limit.saturating_sub(left));
    put_cut_label(text, "label", at, room, &words)?;
    end(text, "g")
}

/// Writes the reply with a number, if there is one.
#[tactic(auto, unfolding(crate::specs::Marks::reply_at))]
fn put_reply_at(
    alloc: Global,
    text: &mut String,
    naming: &Naming<'_>,
    layout: Layout,
    thread: ThreadId,
    replies: &[ReplyMark],
    number: usize,
    top: u64,
) -> Result<(), AllocError>
    requires fits { Fits layout }
    requires number { number < length replies.now }
    requires top { top ≤ 400_000 }
    ensures { OnOk result (string_bytes text.new ≡ string_bytes text.old
        ++ node_text (reply_at naming.now layout thread top replies.now number)) }
{
    let limit = reply_limit(layout, replies, number);
    match replies.get(number) {
        Some(mark) => put_reply(alloc, text, naming, layout, thread, top, limit, *mark),
        None => Ok(()),
    }
}

/// Writes the replies of a thread, in a row with this top edge.
pub(crate) fn put_replies(
    alloc: Global,
    text: &mut String,
    naming: &Naming<'_>,
    layout: Layout,
    thread: ThreadId,
    replies: &[ReplyMark],
    top: u64,
) -> Result<(), AllocError>
    requires fits { Fits layout }
    requires top { top ≤ 400_000 }
    ensures { OnOk result (string_bytes text.new ≡ string_bytes text.old
        ++ node_text (replies_below naming.now layout thread top replies.now
        (length replies.now))) }
{
    'replies: for number in 0..replies.len() {
        put_reply_at(alloc, text, naming, layout, thread, replies, number, top)?;
    }
    Ok(())
}
