//! The moves that lead from one thread to another.

ghost use Rattle.std.specs.Prelude.{◌≡◌, ◌≤◌, ◌<◌, ℕ, ◌++◌, IfSome, OnOk, length, nat_eq};
ghost use Rattle.std.specs.Prelude.{slice_get, string_bytes};
ghost use Rattle.std.specs.HashMap.{get as map_get};
ghost use Rattle.picture_text.specs.Arrows.{arrow_between, arrow_in, arrow_look, arrow_node};
ghost use Rattle.picture_text.specs.Arrows.{arrow_title, arrow_words};
ghost use Rattle.picture_text.specs.Arrows.{arrows_below, ends_at, leaves_at};
ghost use Rattle.picture_text.specs.Layout.{Fits};
ghost use Rattle.picture_text.specs.Nodes.{node_text};
ghost use Rattle.picture_text.specs.Positions.{position_in};

use crate::elements::{Point, begin, begin_line, end};
use crate::escapes::{put_counted, put_escaped};
use crate::layout::Layout;
use crate::naming::{Naming, put_thread};
use crate::positions::position_of;
use pictures::{Arrow, ArrowKind, Lane};
use std::alloc::AllocError;
use std::collections::HashMap;

fn arrow_look(kind: ArrowKind) -> &'static str
    ensures { result.now ≡ arrow_look kind }
{
    match kind {
        ArrowKind::Notify => "notify",
        ArrowKind::Interrupt => "interrupt",
        ArrowKind::HandOver => "handover",
    }
}

fn arrow_words(kind: ArrowKind) -> &'static str
    ensures { result.now ≡ arrow_words kind }
{
    match kind {
        ArrowKind::Notify => " wakes ",
        ArrowKind::Interrupt => " interrupts ",
        ArrowKind::HandOver => " hands over to ",
    }
}

/// Writes what an arrow says of itself.
#[tactic(auto, unfolding(crate::specs::Arrows::arrow_title))]
fn put_arrow_title(
    text: &mut String,
    naming: &Naming<'_>,
    layout: Layout,
    arrow: Arrow,
) -> Result<(), AllocError>
    requires { Fits layout }
    ensures { OnOk result (string_bytes text.new ≡ string_bytes text.old
        ++ node_text (arrow_title naming.now layout arrow)) }
{
    begin(text, "title")?;
    put_thread(text, naming, arrow.from)?;
    put_escaped(text, arrow_words(arrow.kind))?;
    put_thread(text, naming, arrow.to)?;
    put_counted(
        text,
        ", column ",
        layout.first + u64::from(arrow.from_column),
    )?;
    put_counted(text, " to ", layout.first + u64::from(arrow.to_column))?;
    end(text, "title")
}

/// Where an arrow from one lane to another leaves the first.
fn leaves_at(layout: Layout, from: u64, to: u64) -> u64
    requires fits { Fits layout }
    requires lane { from ≤ 200 }
    ensures { result ≡ leaves_at layout from to }
{
    let top = layout.lane_top(from);
    if from < to { top + 32 } else { top + 14 }
}

/// Where it ends in the second.
fn ends_at(layout: Layout, from: u64, to: u64) -> u64
    requires fits { Fits layout }
    requires lane { to ≤ 200 }
    ensures { result ≡ ends_at layout from to }
{
    let top = layout.lane_top(to);
    if to < from { top + 32 } else { top + 14 }
}

/// Writes an arrow from a lane to another.
#[tactic(auto, unfolding(crate::specs::Arrows::arrow_node))]
fn put_arrow(
    text: &mut String,
    naming: &Naming<'_>,
    layout: Layout,
    arrow: Arrow,
    from: u64,
    to: u64,
) -> Result<(), AllocError>
    requires fits { Fits layout }
    requires from { from ≤ 200 }
    requires to { to ≤ 200 }
    ensures { OnOk result (string_bytes text.new ≡ string_bytes text.old
        ++ node_text (arrow_node naming.now layout arrow from to)) }
{
    let start = Point {
        x: layout.middle_at(u64::from(arrow.from_column)),
        y: leaves_at(layout, from, to),
    };
    let stop = Point {
        x: layout.middle_at(u64::from(arrow.to_column)),
        y: ends_at(layout, from, to),
    };
    begin_line(text, arrow_look(arrow.kind), start, stop)?;
    put_arrow_title(text, naming, layout, arrow)?;
    end(text, "line")
}

/// Writes an arrow, if both threads have a lane.
#[tactic(auto, unfolding(crate::specs::Arrows::arrow_between))]
fn put_arrow_between(
    text: &mut String,
    naming: &Naming<'_>,
    layout: Layout,
    arrow: Arrow,
    from: Option<u64>,
    to: Option<u64>,
) -> Result<(), AllocError>
    requires fits { Fits layout }
    requires from { IfSome from (λ k. k ≤ 200) }
    requires to { IfSome to (λ k. k ≤ 200) }
    ensures { OnOk result (string_bytes text.new ≡ string_bytes text.old
        ++ node_text (arrow_between naming.now layout arrow from to)) }
{
    match (from, to) {
        (Some(from), Some(to)) => put_arrow(text, naming, layout, arrow, from, to),
        (Some(_), None) => Ok(()),
        (None, _) => Ok(()),
    }
}

/// Writes the arrow with a number.
#[tactic(auto, unfolding(crate::specs::Arrows::arrow_in))]
fn put_arrow_at(
    text: &mut String,
    naming: &Naming<'_>,
    layout: Layout,
    arrows: &[Arrow],
    number: usize,
    positions: &HashMap<u32, u64>,
    lanes: &[Lane],
) -> Result<(), AllocError>
    requires fits { Fits layout }
    requires map { (q : ℕ)
        → map_get nat_eq positions.now q ≡ position_in lanes.now (length lanes.now) q }
    requires lanes { length lanes.now ≤ 200 }
    ensures { OnOk result (string_bytes text.new ≡ string_bytes text.old
        ++ node_text (arrow_in naming.now layout lanes.now (slice_get arrows.now number))) }
{
    match arrows.get(number) {
        Some(arrow) => {
            let from = position_of(positions, lanes, arrow.from);
            let to = position_of(positions, lanes, arrow.to);
            put_arrow_between(text, naming, layout, *arrow, from, to)
        }
        None => Ok(()),
    }
}

/// Writes all arrows.
pub(crate) fn put_arrows(
    text: &mut String,
    naming: &Naming<'_>,
    layout: Layout,
    arrows: &[Arrow],
    positions: &HashMap<u32, u64>,
    lanes: &[Lane],
) -> Result<(), AllocError>
    requires fits { Fits layout }
    requires map { (q : ℕ)
        → map_get nat_eq positions.now q ≡ position_in lanes.now (length lanes.now) q }
    requires lanes { length lanes.now ≤ 200 }
    ensures { OnOk result (string_bytes text.new ≡ string_bytes text.old
        ++ node_text (arrows_below naming.now layout lanes.now arrows.now (length arrows.now))) }
{
    'arrows: for number in 0..arrows.len() {
        put_arrow_at(text, naming, layout, arrows, number, positions, lanes)?;
    }
    Ok(())
}
