//! Pictures of histories as SVG 1.1: a lane for each thread, and a strip for each object.
//!
//! The text is that of a tree of elements, byte for byte: `specs/Nodes.antt` says what the text of a
//! tree is, `specs/Layout.antt` where things lie, and `specs/Frame.antt` what the whole tree is.
#![tactic(auto)]

mod arrows;
mod axis;
mod bars;
mod cycles;
mod elements;
mod escapes;
mod frame;
mod labels;
mod lanes;
mod layout;
mod marks;
mod naming;
mod positions;
mod refusals;
mod spans;
mod strips;
mod words;

pub use frame::picture_text;
pub use naming::Naming;
