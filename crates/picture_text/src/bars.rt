//! A bar in the lane of each owner of an object.

ghost use Rattle.std.specs.Prelude.{◌≡◌, ◌≤◌, ◌<◌, ℕ, ◌++◌, OnOk, length, nat_eq, string_bytes};
ghost use Rattle.std.specs.HashMap.{get as map_get};
ghost use Rattle.picture_text.specs.Layout.{Fits};
ghost use Rattle.picture_text.specs.Nodes.{node_text};
ghost use Rattle.picture_text.specs.Positions.{position_in, position_of};
ghost use Rattle.picture_text.specs.Strips.{bar_node, bar_where, count_node, owns_title};

use crate::elements::{Point, begin, begin_bar, begin_label, end};
use crate::escapes::{put_counted, put_escaped};
use crate::layout::{Layout, Stretch};
use crate::naming::{Naming, put_object, put_thread};
use crate::positions::position_of;
use crate::spans::put_columns;
use lock_word::{ObjectId, ThreadId};
use pictures::Lane;
use std::alloc::AllocError;
use std::collections::HashMap;
use std::fmt::Write;

/// Writes who owns an object in some columns.
#[tactic(auto, unfolding(crate::specs::Strips::owns_title))]
pub(crate) fn put_owns_title(
    text: &mut String,
    naming: &Naming<'_>,
    layout: Layout,
    object: ObjectId,
    thread: ThreadId,
    count: u16,
    stretch: Stretch,
) -> Result<(), AllocError>
    requires fits { Fits layout }
    requires from { stretch.from ≤ 20_000 }
    requires to { stretch.to ≤ 20_000 }
    ensures { OnOk result (string_bytes text.new ≡ string_bytes text.old
        ++ node_text (owns_title naming.now layout object thread count stretch)) }
{
    begin(text, "title")?;
    put_thread(text, naming, thread)?;
    put_escaped(text, " owns ")?;
    put_object(text, naming, object)?;
    put_counted(text, " x", u64::from(count))?;
    put_columns(text, layout, stretch)?;
    end(text, "title")
}

/// Writes how many times an object is locked, where there is room for it.
#[tactic(auto, unfolding(crate::specs::Strips::count_node))]
fn put_count(text: &mut String, at: Point, width: u64, count: u16) -> Result<(), AllocError>
    ensures { OnOk result (string_bytes text.new ≡ string_bytes text.old
        ++ node_text (count_node at.x at.y width count)) }
{
    if width < 20 {
        return Ok(());
    }
    begin_label(text, "count", at)?;
    write!(text, "{count}")?;
    end(text, "text")
}

/// Writes the bar of an owner in the lane at a position.
#[tactic(auto, unfolding(crate::specs::Strips::bar_node))]
fn put_bar(
    text: &mut String,
    naming: &Naming<'_>,
    layout: Layout,
    number: u64,
    object: ObjectId,
    thread: ThreadId,
    count: u16,
    stretch: Stretch,
    lane: u64,
) -> Result<(), AllocError>
    requires fits { Fits layout }
    requires number { number < 200 }
    requires from { stretch.from ≤ 20_000 }
    requires to { stretch.to ≤ 20_000 }
    requires lane { lane < 200 }
    ensures { OnOk result (string_bytes text.new ≡ string_bytes text.old
        ++ node_text (bar_node naming.now layout number object thread count stretch lane)) }
{
    let x = layout.x_at(stretch.from);
    let width = layout.width_of(stretch);
    let top = layout.lane_top(lane);
    let y = top + 40 + 8 * number;
    begin_bar(text, number % 8, Point { x, y }, width, 7)?;
    put_owns_title(text, naming, layout, object, thread, count, stretch)?;
    end(text, "rect")?;
    let at = Point {
        x: x + 2,
        y: top + 46 + 8 * number,
    };
    put_count(text, at, width, count)
}

/// Writes the bar of an owner, if it has a lane.
#[tactic(auto, unfolding(crate::specs::Strips::bar_where))]
pub(crate) fn put_bar_where(
    text: &mut String,
    naming: &Naming<'_>,
    layout: Layout,
    number: u64,
    object: ObjectId,
    thread: ThreadId,
    count: u16,
    stretch: Stretch,
    positions: &HashMap<u32, u64>,
    lanes: &[Lane],
) -> Result<(), AllocError>
    requires fits { Fits layout }
    requires number { number < 200 }
    requires from { stretch.from ≤ 20_000 }
    requires to { stretch.to ≤ 20_000 }
    requires map { (q : ℕ)
        → map_get nat_eq positions.now q ≡ position_in lanes.now (length lanes.now) q }
    requires lanes { length lanes.now ≤ 200 }
    ensures { OnOk result (string_bytes text.new ≡ string_bytes text.old
        ++ node_text (bar_where naming.now layout number object thread count stretch
        (position_of lanes.now thread))) }
{
    match position_of(positions, lanes, thread) {
        Some(lane) => {
            put_bar(
                text, naming, layout, number, object, thread, count, stretch, lane,
            )
        }
        None => Ok(()),
    }
}
