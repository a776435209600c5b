//! Drawing scripts and histories: a picture of what every thread does and of who owns which object,
//! as SVG.
//!
//! `docs/DRAW.md` says what a picture shows and what is proved of it.
#![tactic(auto)]

mod columns;
mod drawings;
mod faults;
mod playing;
mod windows;

pub use drawings::{draw_moves, draw_script};
pub use faults::DrawFault;
pub use windows::Window;
