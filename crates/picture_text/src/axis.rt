//! The numbers of columns and the moments, above the lanes.

ghost use Rattle.std.specs.Prelude.{◌≡◌, ◌≤◌, ◌<◌, ◌+◌, ◌++◌, IfOk, OnOk, length, slice_get};
ghost use Rattle.std.specs.Prelude.{string_bytes};
ghost use Rattle.picture_text.specs.Axis.{moment_at, moment_limit, moment_node, moment_words};
ghost use Rattle.picture_text.specs.Axis.{moments_below, number_at, number_node, numbers_below};
ghost use Rattle.picture_text.specs.Axis.{step_of};
ghost use Rattle.picture_text.specs.Layout.{Fits};
ghost use Rattle.picture_text.specs.Nodes.{node_text};

use crate::elements::{Point, begin, begin_group, begin_label, begin_line, end};
use crate::escapes::put_escaped;
use crate::labels::{put_cut_label, room_in};
use crate::layout::Layout;
use crate::marks::put_tick;
use pictures::MomentMark;
use std::alloc::{AllocError, Global};
use std::fmt::Write;

/// How many columns lie between two numbers.
fn step_of(unit: u64) -> u64
    ensures step { result ≡ step_of unit }
    ensures some { 1 ≤ result }
{
    match unit {
        48.. => 1,
        24.. => 2,
        10.. => 5,
        5.. => 10,
        _ => 25,
    }
}

/// Writes the number of a column, and a line through all lanes.
#[tactic(auto, unfolding(crate::specs::Axis::number_node))]
fn put_number(text: &mut String, layout: Layout, column: u64) -> Result<(), AllocError>
    requires fits { Fits layout }
    requires column { column ≤ 20_000 }
    ensures { OnOk result (string_bytes text.new
        ≡ string_bytes text.old ++ node_text (number_node layout column)) }
{
    let x = layout.middle_at(column);
    let to = Point {
        x,
        y: layout.lane_top(layout.lanes),
    };
    begin_line(text, "grid", Point { x, y: 20 }, to)?;
    end(text, "line")?;
    begin_label(text, "number", Point { x, y: 14 })?;
    let number = layout.first + column;
    write!(text, "{number}")?;
    end(text, "text")
}

/// Writes the number of a column, if it is one of those that are told.
#[tactic(auto, unfolding(crate::specs::Axis::number_at))]
fn put_number_at(text: &mut String, layout: Layout, column: u64) -> Result<(), AllocError>
    requires fits { Fits layout }
    requires column { column ≤ 20_000 }
    ensures { OnOk result (string_bytes text.new
        ≡ string_bytes text.old ++ node_text (number_at layout column)) }
{
    if (layout.first + column) % step_of(layout.unit) == 0 {
        return put_number(text, layout, column);
    }
    Ok(())
}

/// Writes the numbers of columns.
pub(crate) fn put_numbers(text: &mut String, layout: Layout) -> Result<(), AllocError>
    requires fits { Fits layout }
    ensures { OnOk result (string_bytes text.new
        ≡ string_bytes text.old ++ node_text (numbers_below layout layout.columns)) }
{
    'columns: for column in 0..layout.columns {
        put_number_at(text, layout, column)?;
    }
    Ok(())
}

/// A moment in words.
fn moment_words(alloc: Global, mark: MomentMark) -> Result<String, AllocError>
    ensures { IfOk result (λ words. string_bytes words ≡ moment_words mark) }
{
    let mut words = String::new(alloc);
    write!(words, "{} ns", mark.now)?;
    Ok(words)
}

/// Where the room of a moment ends, in front of the next one.
fn moment_limit(layout: Layout, moments: &[MomentMark], number: usize) -> u64
    requires fits { Fits layout }
    requires number { number < length moments.now }
    ensures { result ≡ moment_limit layout (slice_get moments.now (number + 1)) }
{
    match moments.get(number + 1) {
        Some(mark) => layout.x_at(u64::from(mark.column)),
        None => layout.right(),
    }
}

/// Writes a moment, up to this limit.
#[tactic(auto, unfolding(crate::specs::Axis::moment_node))]
fn put_moment(
    alloc: Global,
    text: &mut String,
    layout: Layout,
    limit: u64,
    mark: MomentMark,
) -> Result<(), AllocError>
    requires { Fits layout }
    ensures { OnOk result (string_bytes text.new
        ≡ string_bytes text.old ++ node_text (moment_node layout limit mark)) }
{
    let words = moment_words(alloc, mark)?;
    let x = layout.x_at(u64::from(mark.column));
    begin_group(text, "moment")?;
    begin(text, "title")?;
    put_escaped(text, &words)?;
    end(text, "title")?;
    put_tick(text, Point { x, y: 24 }, Point { x, y: 38 })?;
    let room = room_in(limit.saturating_sub(x));
    put_cut_label(text, "label", Point { x: x + 2, y: 34 }, room, &words)?;
    end(text, "g")
}

/// Writes the moment with a number.
#[tactic(auto, unfolding(crate::specs::Axis::moment_at))]
fn put_moment_at(
    alloc: Global,
    text: &mut String,
    layout: Layout,
    moments: &[MomentMark],
    number: usize,
) -> Result<(), AllocError>
    requires fits { Fits layout }
    requires number { number < length moments.now }
    ensures { OnOk result (string_bytes text.new
        ≡ string_bytes text.old ++ node_text (moment_at layout moments.now number)) }
{
    let limit = moment_limit(layout, moments, number);
    match moments.get(number) {
        Some(mark) => put_moment(alloc, text, layout, limit, *mark),
        None => Ok(()),
    }
}

/// Writes the moments.
pub(crate) fn put_moments(
    alloc: Global,
    text: &mut String,
    layout: Layout,
    moments: &[MomentMark],
) -> Result<(), AllocError>
    requires { Fits layout }
    ensures { OnOk result (string_bytes text.new ≡ string_bytes text.old
        ++ node_text (moments_below layout moments.now (length moments.now))) }
{
    'moments: for number in 0..moments.len() {
        put_moment_at(alloc, text, layout, moments, number)?;
    }
    Ok(())
}
