//! The cycles of owners: a line for each below the strips, and a frame in each of its lanes.

ghost use Rattle.std.specs.Prelude.{◌≡◌, ◌≤◌, ◌<◌, ℕ, ◌++◌, IfSome, OnOk, length, nat_eq};
ghost use Rattle.std.specs.Prelude.{slice_get, string_bytes};
ghost use Rattle.std.specs.HashMap.{get as map_get};
ghost use Rattle.picture_text.specs.Axis.{cycle_at, cycle_node, cycle_parts, cycles_below};
ghost use Rattle.picture_text.specs.Axis.{member_in, members_below};
ghost use Rattle.picture_text.specs.Axis.{stuck_below, stuck_in, stuck_node};
ghost use Rattle.picture_text.specs.Axis.{stuck_where};
ghost use Rattle.picture_text.specs.Layout.{Fits};
ghost use Rattle.picture_text.specs.Nodes.{node_text};
ghost use Rattle.picture_text.specs.Positions.{position_in};

use crate::elements::{Point, begin_box, begin_label, end};
use crate::escapes::put_escaped;
use crate::layout::Layout;
use crate::naming::{Naming, put_thread};
use crate::positions::position_of;
use lock_word::ThreadId;
use pictures::Lane;
use std::alloc::AllocError;
use std::collections::HashMap;

/// Writes a thread of a cycle, behind a space.
#[tactic(auto, unfolding(crate::specs::Axis::member_in))]
fn put_member(
    text: &mut String,
    naming: &Naming<'_>,
    cycle: &[ThreadId],
    number: usize,
) -> Result<(), AllocError>
    ensures { OnOk result (string_bytes text.new ≡ string_bytes text.old
        ++ node_text (member_in naming.now (slice_get cycle.now number))) }
{
    match cycle.get(number) {
        Some(thread) => {
            put_escaped(text, " ")?;
            put_thread(text, naming, *thread)
        }
        None => Ok(()),
    }
}

/// Writes the threads of a cycle.
fn put_members(text: &mut String, naming: &Naming<'_>, cycle: &[ThreadId]) -> Result<(), AllocError>
    ensures { OnOk result (string_bytes text.new ≡ string_bytes text.old
        ++ node_text (members_below naming.now cycle.now (length cycle.now))) }
{
    'members: for number in 0..cycle.len() {
        put_member(text, naming, cycle, number)?;
    }
    Ok(())
}

/// Writes the line of a cycle.
#[tactic(auto, unfolding(crate::specs::Axis::cycle_node))]
fn put_cycle_line(
    text: &mut String,
    naming: &Naming<'_>,
    y: u64,
    cycle: &[ThreadId],
) -> Result<(), AllocError>
    ensures { OnOk result (string_bytes text.new
        ≡ string_bytes text.old ++ node_text (cycle_node naming.now y cycle.now)) }
{
    begin_label(text, "cycle", Point { x: 4, y })?;
    put_escaped(text, "cycle")?;
    put_members(text, naming, cycle)?;
    end(text, "text")
}

/// Writes the frame in the last column of a lane.
#[tactic(auto, unfolding(crate::specs::Axis::stuck_node))]
fn put_stuck(text: &mut String, layout: Layout, lane: u64) -> Result<(), AllocError>
    requires fits { Fits layout }
    requires lane { lane ≤ 200 }
    ensures { OnOk result (string_bytes text.new
        ≡ string_bytes text.old ++ node_text (stuck_node layout lane)) }
{
    let corner = Point {
        x: layout.x_at(layout.columns.saturating_sub(1)),
        y: layout.lane_top(lane) + 12,
    };
    begin_box(text, "stuck", corner, layout.unit, 22)?;
    end(text, "rect")
}

/// Writes the frame of a thread, if it has a lane.
#[tactic(auto, unfolding(crate::specs::Axis::stuck_where))]
fn put_stuck_where(text: &mut String, layout: Layout, lane: Option<u64>) -> Result<(), AllocError>
    requires fits { Fits layout }
    requires lane { IfSome lane (λ k. k ≤ 200) }
    ensures { OnOk result (string_bytes text.new
        ≡ string_bytes text.old ++ node_text (stuck_where layout lane)) }
{
    match lane {
        Some(lane) => put_stuck(text, layout, lane),
        None => Ok(()),
    }
}

/// Writes the frame of the thread with this number in a cycle.
#[tactic(auto, unfolding(crate::specs::Axis::stuck_in))]
fn put_stuck_at(
    text: &mut String,
    layout: Layout,
    cycle: &[ThreadId],
    number: usize,
    positions: &HashMap<u32, u64>,
    lanes: &[Lane],
) -> Result<(), AllocError>
    requires fits { Fits layout }
    requires map { (q : ℕ)
        → map_get nat_eq positions.now q ≡ position_in lanes.now (length lanes.now) q }
    requires lanes { length lanes.now ≤ 200 }
    ensures { OnOk result (string_bytes text.new ≡ string_bytes text.old
        ++ node_text (stuck_in layout lanes.now (slice_get cycle.now number))) }
{
    match cycle.get(number) {
        Some(thread) => {
            let lane = position_of(positions, lanes, *thread);
            put_stuck_where(text, layout, lane)
        }
        None => Ok(()),
    }
}

/// Writes the frames of a cycle's threads.
fn put_all_stuck(
    text: &mut String,
    layout: Layout,
    cycle: &[ThreadId],
    positions: &HashMap<u32, u64>,
    lanes: &[Lane],
) -> Result<(), AllocError>
    requires fits { Fits layout }
    requires map { (q : ℕ)
        → map_get nat_eq positions.now q ≡ position_in lanes.now (length lanes.now) q }
    requires lanes { length lanes.now ≤ 200 }
    ensures { OnOk result (string_bytes text.new ≡ string_bytes text.old
        ++ node_text (stuck_below layout lanes.now cycle.now (length cycle.now))) }
{
    'members: for number in 0..cycle.len() {
        put_stuck_at(text, layout, cycle, number, positions, lanes)?;
    }
    Ok(())
}

/// Writes the line and the frames of a cycle.
#[tactic(auto, unfolding(crate::specs::Axis::cycle_parts))]
fn put_cycle(
    text: &mut String,
    naming: &Naming<'_>,
    layout: Layout,
    number: u64,
    cycle: &[ThreadId],
    positions: &HashMap<u32, u64>,
    lanes: &[Lane],
) -> Result<(), AllocError>
    requires fits { Fits layout }
    requires number { number ≤ 200 }
    requires map { (q : ℕ)
        → map_get nat_eq positions.now q ≡ position_in lanes.now (length lanes.now) q }
    requires lanes { length lanes.now ≤ 200 }
    ensures { OnOk result (string_bytes text.new ≡ string_bytes text.old
        ++ node_text (cycle_parts naming.now layout lanes.now number cycle.now)) }
{
    let y = layout.strip_top(layout.strips) + 14 + 14 * number;
    put_cycle_line(text, naming, y, cycle)?;
    put_all_stuck(text, layout, cycle, positions, lanes)
}

/// Writes the cycle with a number.
#[tactic(auto, unfolding(crate::specs::Axis::cycle_at))]
fn put_cycle_at(
    text: &mut String,
    naming: &Naming<'_>,
    layout: Layout,
    cycles: &[Vec<ThreadId>],
    number: usize,
    positions: &HashMap<u32, u64>,
    lanes: &[Lane],
) -> Result<(), AllocError>
    requires fits { Fits layout }
    requires number { number ≤ 200 }
    requires map { (q : ℕ)
        → map_get nat_eq positions.now q ≡ position_in lanes.now (length lanes.now) q }
    requires lanes { length lanes.now ≤ 200 }
    ensures { OnOk result (string_bytes text.new ≡ string_bytes text.old
        ++ node_text (cycle_at naming.now layout lanes.now number (slice_get cycles.now number))) }
{
    match cycles.get(number) {
        Some(cycle) => { put_cycle(text, naming, layout, number as u64, cycle, positions, lanes) }
        None => Ok(()),
    }
}

/// Writes all cycles.
pub(crate) fn put_cycles(
    text: &mut String,
    naming: &Naming<'_>,
    layout: Layout,
    cycles: &[Vec<ThreadId>],
    positions: &HashMap<u32, u64>,
    lanes: &[Lane],
) -> Result<(), AllocError>
    requires fits { Fits layout }
    requires cycles { length cycles.now ≤ 200 }
    requires map { (q : ℕ)
        → map_get nat_eq positions.now q ≡ position_in lanes.now (length lanes.now) q }
    requires lanes { length lanes.now ≤ 200 }
    ensures { OnOk result (string_bytes text.new ≡ string_bytes text.old
        ++ node_text (cycles_below naming.now layout lanes.now cycles.now (length cycles.now))) }
{
    'cycles: for number in 0..cycles.len() {
        put_cycle_at(text, naming, layout, cycles, number, positions, lanes)?;
    }
    Ok(())
}
