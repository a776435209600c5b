//! A history as a picture, before anybody draws it: what the abstract machine of `docs/MACHINE.md`
//! says of each thread and of each object, column by column, and which moves lead from one thread
//! to another.
#![tactic(auto)]

mod arrows;
mod columns;
mod cycles;
mod faults;
mod late;
mod marks;
mod order;
mod picture;
mod picturing;
mod playing;
mod same;
mod spans;
mod touched;

pub use columns::{Column, Refusal};
pub use faults::PictureFault;
pub use picture::{
    Arrow, ArrowKind, CallMark, Lane, MomentMark, Picture, RefusalMark, ReplyMark, Span, Strip,
    StripSpan,
};
pub use picturing::{MOST_COLUMNS, MOST_LANES, drawn_objects, picture_of};
