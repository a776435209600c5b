//! The words behind `thinmon`: what they order, doing it, and how the program ends.
//!
//! The program `thinmon` is `serve`, and nothing else.
#![tactic(auto)]

mod ends;
mod orders;
mod progress;
mod serving;

pub use ends::{FaultLine, ProgramEnd, TaskFault, end_for};
pub use orders::{Exploration, Order, Task, read_words};
pub use serving::{serve, serve_words};
