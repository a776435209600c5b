//! Writing the elements of which a picture is made.

ghost use Rattle.std.specs.Prelude.{◌≡◌, ◌++◌, ◌∷◌, [], OnOk, codes, string_bytes};
ghost use Rattle.picture_text.specs.Nodes.{escaped, opening, closing};
ghost use Rattle.picture_text.specs.Pieces.{bar_attributes, box_attributes};
ghost use Rattle.picture_text.specs.Pieces.{line_attributes, point_attributes};
ghost use Rattle.picture_text.specs.Pieces.{word};

use crate::escapes::put_escaped;
use std::alloc::AllocError;
use std::fmt::Write;

/// A point in a picture, in units from its left and top edges.
#[derive(Clone, Copy)]
pub(crate) struct Point {
    pub(crate) x: u64,
    pub(crate) y: u64,
}

/// Begins an element with a look, up to the quote that ends the look.
pub(crate) fn begin_look(text: &mut String, name: &str, look: &str) -> Result<(), AllocError>
    ensures { OnOk result (string_bytes text.new ≡ string_bytes text.old
        ++ 60 ∷ name.now ++ (codes " class=\"" ++ escaped look.now)) }
{
    write!(text, "<{name} class=\"")?;
    put_escaped(text, look)
}

/// Begins a box: its left and top edges, its width and its height, in units.
#[tactic(auto, unfolding(crate::specs::Nodes::opening, crate::specs::Pieces::box_attributes))]
pub(crate) fn begin_box(
    text: &mut String,
    look: &str,
    corner: Point,
    width: u64,
    height: u64,
) -> Result<(), AllocError>
    ensures { OnOk result (string_bytes text.new ≡ string_bytes text.old
        ++ opening (codes "rect") (box_attributes look.now corner.x corner.y width height)) }
{
    begin_look(text, "rect", look)?;
    let Point { x, y } = corner;
    write!(
        text,
        "\" x=\"{x}\" y=\"{y}\" width=\"{width}\" height=\"{height}\">"
    )
}

/// Begins a box in the pattern with this number.
#[tactic(auto, unfolding(crate::specs::Nodes::opening, crate::specs::Nodes::escaped, crate::specs::Pieces::bar_attributes))]
pub(crate) fn begin_bar(
    text: &mut String,
    pattern: u64,
    corner: Point,
    width: u64,
    height: u64,
) -> Result<(), AllocError>
    ensures { OnOk result (string_bytes text.new ≡ string_bytes text.old
        ++ opening (codes "rect") (bar_attributes pattern corner.x corner.y width height)) }
{
    write!(text, "<rect class=\"p{pattern}")?;
    let Point { x, y } = corner;
    write!(
        text,
        "\" x=\"{x}\" y=\"{y}\" width=\"{width}\" height=\"{height}\">"
    )
}

/// Begins a line from one point to another.
#[tactic(auto, unfolding(crate::specs::Nodes::opening, crate::specs::Pieces::line_attributes))]
pub(crate) fn begin_line(
    text: &mut String,
    look: &str,
    from: Point,
    to: Point,
) -> Result<(), AllocError>
    ensures { OnOk result (string_bytes text.new ≡ string_bytes text.old
        ++ opening (codes "line") (line_attributes look.now from.x from.y to.x to.y)) }
{
    begin_look(text, "line", look)?;
    write!(
        text,
        "\" x1=\"{}\" y1=\"{}\" x2=\"{}\" y2=\"{}\">",
        from.x, from.y, to.x, to.y
    )
}

/// Begins words at a point.
#[tactic(auto, unfolding(crate::specs::Nodes::opening, crate::specs::Pieces::point_attributes))]
pub(crate) fn begin_label(text: &mut String, look: &str, at: Point) -> Result<(), AllocError>
    ensures { OnOk result (string_bytes text.new ≡ string_bytes text.old
        ++ opening (codes "text") (point_attributes look.now at.x at.y)) }
{
    begin_look(text, "text", look)?;
    write!(text, "\" x=\"{}\" y=\"{}\">", at.x, at.y)
}

/// Begins a group.
#[tactic(auto, unfolding(crate::specs::Nodes::opening))]
pub(crate) fn begin_group(text: &mut String, look: &str) -> Result<(), AllocError>
    ensures { OnOk result (string_bytes text.new ≡ string_bytes text.old
        ++ opening (codes "g") (word (codes "class") look.now ∷ [])) }
{
    begin_look(text, "g", look)?;
    text.push_str("\">")
}

/// Begins an element that has no attribute.
#[tactic(auto, unfolding(crate::specs::Nodes::opening))]
pub(crate) fn begin(text: &mut String, name: &str) -> Result<(), AllocError>
    ensures { OnOk result (string_bytes text.new
        ≡ string_bytes text.old ++ opening name.now []) }
{
    write!(text, "<{name}>")
}

/// Ends an element.
#[tactic(auto, unfolding(crate::specs::Nodes::closing))]
pub(crate) fn end(text: &mut String, name: &str) -> Result<(), AllocError>
    ensures { OnOk result (string_bytes text.new ≡ string_bytes text.old ++ closing name.now) }
{
    write!(text, "</{name}>")
}
