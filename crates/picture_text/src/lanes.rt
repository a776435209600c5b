//! The lanes of threads.

ghost use Rattle.std.specs.Prelude.{◌≡◌, ◌≤◌, ◌<◌, ◌++◌, OnOk, length, string_bytes};
ghost use Rattle.picture_text.specs.Layout.{Fits};
ghost use Rattle.picture_text.specs.Lanes.{lane_at, lane_node, lanes_below};
ghost use Rattle.picture_text.specs.Nodes.{node_text};

use crate::elements::{Point, begin_group, end};
use crate::labels::put_cut_label;
use crate::layout::Layout;
use crate::marks::{put_calls, put_replies};
use crate::naming::{Naming, thread_words};
use crate::spans::put_spans;
use pictures::Lane;
use std::alloc::{AllocError, Global};

/// Writes the lane with this top edge.
#[tactic(auto, unfolding(crate::specs::Lanes::lane_node))]
fn put_lane(
    alloc: Global,
    text: &mut String,
    naming: &Naming<'_>,
    layout: Layout,
    top: u64,
    lane: &Lane,
) -> Result<(), AllocError>
    requires fits { Fits layout }
    requires top { top ≤ 332_848 }
    ensures { OnOk result (string_bytes text.new ≡ string_bytes text.old
        ++ node_text (lane_node naming.now layout top lane.now)) }
{
    begin_group(text, "lane")?;
    let name = thread_words(alloc, naming, lane.thread)?;
    put_cut_label(text, "name", Point { x: 4, y: top + 27 }, 17, &name)?;
    put_spans(alloc, text, naming, layout, lane.thread, &lane.spans, top)?;
    put_calls(alloc, text, naming, layout, lane.thread, &lane.calls, top)?;
    let below = top + 40 + 8 * layout.strips;
    put_replies(
        alloc,
        text,
        naming,
        layout,
        lane.thread,
        &lane.replies,
        below,
    )?;
    end(text, "g")
}

/// Writes the lane at a position.
#[tactic(auto, unfolding(crate::specs::Lanes::lane_at))]
fn put_lane_at(
    alloc: Global,
    text: &mut String,
    naming: &Naming<'_>,
    layout: Layout,
    lanes: &[Lane],
    number: usize,
) -> Result<(), AllocError>
    requires fits { Fits layout }
    requires number { number ≤ 200 }
    ensures { OnOk result (string_bytes text.new ≡ string_bytes text.old
        ++ node_text (lane_at naming.now layout lanes.now number)) }
{
    match lanes.get(number) {
        Some(lane) => {
            let top = layout.lane_top(number as u64);
            put_lane(alloc, text, naming, layout, top, lane)
        }
        None => Ok(()),
    }
}

/// Writes all lanes.
pub(crate) fn put_lanes(
    alloc: Global,
    text: &mut String,
    naming: &Naming<'_>,
    layout: Layout,
    lanes: &[Lane],
) -> Result<(), AllocError>
    requires fits { Fits layout }
    requires lanes { length lanes.now ≤ 200 }
    ensures { OnOk result (string_bytes text.new ≡ string_bytes text.old
        ++ node_text (lanes_below naming.now layout lanes.now (length lanes.now))) }
{
    'lanes: for number in 0..lanes.len() {
        put_lane_at(alloc, text, naming, layout, lanes, number)?;
    }
    Ok(())
}
