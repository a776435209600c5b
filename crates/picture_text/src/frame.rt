//! The whole picture.

ghost use Rattle.std.specs.Prelude.{◌≡◌, ◌≤◌, ◌++◌, ◌∷◌, [], IfOk, OnOk, codes, length};
ghost use Rattle.std.specs.Prelude.{string_bytes};
ghost use Rattle.picture_text.specs.Frame.{IsDrawable, about_node, above_node, body_node};
ghost use Rattle.picture_text.specs.Frame.{defs_node};
ghost use Rattle.picture_text.specs.Frame.{description_words, first_patterns};
ghost use Rattle.picture_text.specs.Frame.{ground_node, head_node};
ghost use Rattle.picture_text.specs.Frame.{last_patterns, style_node};
ghost use Rattle.picture_text.specs.Frame.{marker_attributes, marker_node, markers_node};
ghost use Rattle.picture_text.specs.Frame.{path_attributes, pattern_attributes};
ghost use Rattle.picture_text.specs.Frame.{pattern_node, root_attributes};
ghost use Rattle.picture_text.specs.Frame.{strip_height_of, style_words, svg_text};
ghost use Rattle.picture_text.specs.Layout.{Fits, layout_of};
ghost use Rattle.picture_text.specs.Nodes.{escaped, node_text, opening};

use crate::arrows::put_arrows;
use crate::axis::{put_moments, put_numbers};
use crate::cycles::put_cycles;
use crate::elements::{Point, begin, begin_box, begin_look, end};
use crate::escapes::put_escaped;
use crate::lanes::put_lanes;
use crate::layout::{Layout, unit_of};
use crate::naming::Naming;
use crate::positions::positions;
use crate::refusals::put_refusals;
use crate::strips::put_strips;
use lock_word::Memory;
use pictures::Picture;
use std::alloc::{AllocError, Global};
use std::fmt::Write;

/// What is told of a picture to those who do not see it.
pub(crate) const DESCRIPTION: &str =
    "A lane for each thread, a strip for each object. Time goes right.";

/// How the pieces of a picture look.
pub(crate) const STYLE: &str =
    "text{font:10px monospace;fill:#000}.number{text-anchor:middle}.ground{fill:#fff}\
.idle{stroke:#777}.free{stroke:#bbb}.tick{stroke:#555}.grid{stroke:#ddd}\
.entry{fill:#fde3cc;stroke:#000;stroke-width:2}.wants{fill:#f3f3f3;stroke:#000}\
.waits{fill:#fff;stroke:#000;stroke-dasharray:5 3}\
.back{fill:#fff;stroke:#000;stroke-width:2;stroke-dasharray:1 2}\
.has{fill:#dce9f9;stroke:#000}.flag{fill:#c00}.mark{fill:#c00;font-weight:bold}\
.cross{stroke:#c00;stroke-width:2}.cycle{fill:#c00}\
.stuck{fill:none;stroke:#c00;stroke-width:3}\
.hatch{fill:none;stroke:#333}.head{fill:#000}.open{fill:none;stroke:#000}\
.count,.state{paint-order:stroke;stroke:#fff;stroke-width:2px}.count{font-size:7px}\
.notify{stroke:#06c;stroke-width:2;marker-end:url(#a0)}\
.interrupt{stroke:#c00;stroke-width:2;stroke-dasharray:2 2;marker-end:url(#a1)}\
.handover{stroke:#080;stroke-width:1;stroke-dasharray:7 3;marker-end:url(#a2)}\
.p0{fill:url(#p0);stroke:#000}.p1{fill:url(#p1);stroke:#000}\
.p2{fill:url(#p2);stroke:#000}.p3{fill:url(#p3);stroke:#000}\
.p4{fill:url(#p4);stroke:#000}.p5{fill:url(#p5);stroke:#000}\
.p6{fill:url(#p6);stroke:#000}.p7{fill:url(#p7);stroke:#000}";

/// Writes the description.
#[tactic(auto, unfolding(crate::specs::Frame::description_words))]
fn put_description(text: &mut String) -> Result<(), AllocError>
    ensures { OnOk result (string_bytes text.new
        ≡ string_bytes text.old ++ escaped description_words) }
{
    put_escaped(text, DESCRIPTION)
}

/// Writes the style.
#[tactic(auto, unfolding(crate::specs::Frame::style_words))]
fn put_style(text: &mut String) -> Result<(), AllocError>
    ensures { OnOk result (string_bytes text.new
        ≡ string_bytes text.old ++ escaped style_words) }
{
    put_escaped(text, STYLE)
}

/// Begins a picture of this width and height.
#[tactic(auto, unfolding(crate::specs::Nodes::opening, crate::specs::Nodes::escaped, crate::specs::Frame::root_attributes))]
fn begin_root(text: &mut String, width: u64, height: u64) -> Result<(), AllocError>
    ensures { OnOk result (string_bytes text.new
        ≡ string_bytes text.old ++ opening (codes "svg") (root_attributes width height)) }
{
    let zero = 0u64;
    write!(
        text,
        "<svg xmlns=\"http://www.w3.org/2000/svg\" version=\"1.1\" width=\"{width}\" \
         height=\"{height}\" viewBox=\"{zero} {zero} {width} {height}\">"
    )
}

/// Begins a path.
#[tactic(auto, unfolding(crate::specs::Nodes::opening, crate::specs::Frame::path_attributes))]
fn begin_path(text: &mut String, look: &str, path: &str) -> Result<(), AllocError>
    ensures { OnOk result (string_bytes text.new
        ≡ string_bytes text.old ++ opening (codes "path") (path_attributes look.now path.now)) }
{
    begin_look(text, "path", look)?;
    write!(text, "\" d=\"")?;
    put_escaped(text, path)?;
    write!(text, "\">")
}

/// Begins a pattern.
#[tactic(auto, unfolding(crate::specs::Nodes::opening, crate::specs::Nodes::escaped, crate::specs::Frame::pattern_attributes))]
fn begin_pattern(text: &mut String, number: u64) -> Result<(), AllocError>
    ensures { OnOk result (string_bytes text.new
        ≡ string_bytes text.old ++ opening (codes "pattern") (pattern_attributes number)) }
{
    let size = 6u64;
    write!(
        text,
        "<pattern id=\"p{number}\" patternUnits=\"userSpaceOnUse\" \
         width=\"{size}\" height=\"{size}\">"
    )
}

/// Writes a pattern.
#[tactic(auto, unfolding(crate::specs::Frame::pattern_node))]
fn put_pattern(text: &mut String, number: u64, path: &str) -> Result<(), AllocError>
    ensures { OnOk result (string_bytes text.new
        ≡ string_bytes text.old ++ node_text (pattern_node number path.now)) }
{
    begin_pattern(text, number)?;
    begin_path(text, "hatch", path)?;
    end(text, "path")?;
    end(text, "pattern")
}

/// Writes the first four patterns.
#[tactic(auto, unfolding(crate::specs::Frame::first_patterns))]
fn put_first_patterns(text: &mut String) -> Result<(), AllocError>
    ensures { OnOk result (string_bytes text.new
        ≡ string_bytes text.old ++ node_text first_patterns) }
{
    put_pattern(text, 0, "M0 6L6 0")?;
    put_pattern(text, 1, "M0 0L6 6")?;
    put_pattern(text, 2, "M0 3H6")?;
    put_pattern(text, 3, "M3 0V6")
}

/// Writes the last four patterns.
#[tactic(auto, unfolding(crate::specs::Frame::last_patterns))]
fn put_last_patterns(text: &mut String) -> Result<(), AllocError>
    ensures { OnOk result (string_bytes text.new
        ≡ string_bytes text.old ++ node_text last_patterns) }
{
    put_pattern(text, 4, "M0 0H6V6")?;
    put_pattern(text, 5, "M2 3H4")?;
    put_pattern(text, 6, "M0 0L3 6")?;
    put_pattern(text, 7, "M2 2H4V4")
}

/// Begins the head of an arrow.
#[tactic(auto, unfolding(crate::specs::Nodes::opening, crate::specs::Nodes::escaped, crate::specs::Frame::marker_attributes))]
fn begin_marker(text: &mut String, number: u64) -> Result<(), AllocError>
    ensures { OnOk result (string_bytes text.new
        ≡ string_bytes text.old ++ opening (codes "marker") (marker_attributes number)) }
{
    write!(
        text,
        "<marker id=\"a{number}\" viewBox=\"0 0 10 10\" refX=\"9\" refY=\"5\" \
         markerWidth=\"7\" markerHeight=\"7\" orient=\"auto\">"
    )
}

/// Writes the head of an arrow.
#[tactic(auto, unfolding(crate::specs::Frame::marker_node))]
fn put_marker(text: &mut String, number: u64, look: &str, path: &str) -> Result<(), AllocError>
    ensures { OnOk result (string_bytes text.new
        ≡ string_bytes text.old ++ node_text (marker_node number look.now path.now)) }
{
    begin_marker(text, number)?;
    begin_path(text, look, path)?;
    end(text, "path")?;
    end(text, "marker")
}

/// Writes the heads of arrows.
#[tactic(auto, unfolding(crate::specs::Frame::markers_node))]
fn put_markers(text: &mut String) -> Result<(), AllocError>
    ensures { OnOk result (string_bytes text.new
        ≡ string_bytes text.old ++ node_text markers_node) }
{
    put_marker(text, 0, "head", "M0 0L9 5L0 10Z")?;
    put_marker(text, 1, "open", "M0 0L9 5L0 10")?;
    put_marker(text, 2, "head", "M0 5L5 1L9 5L5 9Z")
}

/// Writes a title and a description.
#[tactic(auto, unfolding(crate::specs::Frame::about_node))]
fn put_about(text: &mut String) -> Result<(), AllocError>
    ensures { OnOk result (string_bytes text.new
        ≡ string_bytes text.old ++ node_text about_node) }
{
    begin(text, "title")?;
    put_escaped(text, "Monitors")?;
    end(text, "title")?;
    begin(text, "desc")?;
    put_description(text)?;
    end(text, "desc")
}

/// Writes the element of the style.
#[tactic(auto, unfolding(crate::specs::Frame::style_node))]
fn put_style_node(text: &mut String) -> Result<(), AllocError>
    ensures { OnOk result (string_bytes text.new
        ≡ string_bytes text.old ++ node_text style_node) }
{
    begin(text, "style")?;
    put_style(text)?;
    end(text, "style")
}

/// Writes patterns and heads of arrows.
#[tactic(auto, unfolding(crate::specs::Frame::defs_node))]
fn put_defs(text: &mut String) -> Result<(), AllocError>
    ensures { OnOk result (string_bytes text.new
        ≡ string_bytes text.old ++ node_text defs_node) }
{
    begin(text, "defs")?;
    put_first_patterns(text)?;
    put_last_patterns(text)?;
    put_markers(text)?;
    end(text, "defs")
}

/// Writes a white ground.
#[tactic(auto, unfolding(crate::specs::Frame::ground_node))]
fn put_ground(text: &mut String, layout: Layout, cycles: u64) -> Result<(), AllocError>
    requires fits { Fits layout }
    requires cycles { cycles ≤ 200 }
    ensures { OnOk result (string_bytes text.new
        ≡ string_bytes text.old ++ node_text (ground_node layout cycles)) }
{
    let corner = Point { x: 0, y: 0 };
    begin_box(
        text,
        "ground",
        corner,
        layout.right(),
        layout.bottom(cycles),
    )?;
    end(text, "rect")
}

/// Writes what stands in front of the lanes.
#[tactic(auto, unfolding(crate::specs::Frame::head_node))]
fn put_head(text: &mut String, layout: Layout, cycles: u64) -> Result<(), AllocError>
    requires fits { Fits layout }
    requires cycles { cycles ≤ 200 }
    ensures { OnOk result (string_bytes text.new
        ≡ string_bytes text.old ++ node_text (head_node layout cycles)) }
{
    put_about(text)?;
    put_style_node(text)?;
    put_defs(text)?;
    put_ground(text, layout, cycles)
}

/// The height of a strip.
fn strip_height_of(naming: &Naming<'_>) -> u64
    ensures height { result ≡ strip_height_of naming.now }
    ensures most { result ≤ 40 }
{
    match naming {
        Naming::Names(_) => 40,
        Naming::Numbers => 28,
    }
}

/// Where the things of a picture lie.
fn layout_of(picture: &Picture, strip_height: u64) -> Layout
    requires drawable { IsDrawable picture.now }
    requires height { strip_height ≤ 40 }
    ensures layout { result ≡ layout_of picture.now strip_height }
    ensures fits { Fits result }
{
    Layout {
        first: u64::from(picture.first),
        columns: u64::from(picture.columns),
        unit: unit_of(u64::from(picture.columns)),
        lanes: picture.lanes.len() as u64,
        strips: picture.strips.len() as u64,
        strip_height,
    }
}

/// Writes what stands above the lanes.
#[tactic(auto, unfolding(crate::specs::Frame::above_node))]
fn put_above(
    alloc: Global,
    text: &mut String,
    naming: &Naming<'_>,
    layout: Layout,
    picture: &Picture,
) -> Result<(), AllocError>
    requires { Fits layout }
    ensures { OnOk result (string_bytes text.new ≡ string_bytes text.old
        ++ node_text (above_node naming.now layout picture.now)) }
{
    put_numbers(text, layout)?;
    put_moments(alloc, text, layout, &picture.moments)?;
    put_refusals(alloc, text, naming, layout, &picture.refusals)
}

/// Writes all that is drawn.
#[tactic(auto, unfolding(crate::specs::Frame::body_node))]
fn put_body(
    alloc: Global,
    text: &mut String,
    naming: &Naming<'_>,
    layout: Layout,
    picture: &Picture,
) -> Result<(), AllocError>
    requires fits { Fits layout }
    requires drawable { IsDrawable picture.now }
    ensures { OnOk result (string_bytes text.new ≡ string_bytes text.old
        ++ node_text (body_node naming.now layout picture.now)) }
{
    let lanes = &picture.lanes;
    let map = positions(alloc, lanes)?;
    put_above(alloc, text, naming, layout, picture)?;
    put_lanes(alloc, text, naming, layout, lanes)?;
    let strips = &picture.strips;
    put_strips(alloc, text, naming, layout, strips, &map, lanes)?;
    put_arrows(text, naming, layout, &picture.arrows, &map, lanes)?;
    put_cycles(text, naming, layout, &picture.cycles, &map, lanes)
}

/// The text of a picture: one SVG 1.1 file, of at most 20,000 columns, 200 lanes, 200 strips and
/// 200 cycles. Lengths are in SVG's units of a pixel.
pub fn picture_text(alloc: Global, naming: &Naming<'_>, picture: &Picture) -> Result<String, Memory>
    requires { IsDrawable picture.now }
    ensures { IfOk result (λ text. string_bytes text ≡ svg_text naming.now picture.now) }
{
    let layout = layout_of(picture, strip_height_of(naming));
    let cycles = picture.cycles.len() as u64;
    let mut text = String::new(alloc);
    begin_root(&mut text, layout.right(), layout.bottom(cycles))?;
    put_head(&mut text, layout, cycles)?;
    put_body(alloc, &mut text, naming, layout, picture)?;
    end(&mut text, "svg")?;
    text.push_str("\n")?;
    Ok(text)
}
