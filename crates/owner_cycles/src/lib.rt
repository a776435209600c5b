//! Cycles of owners: threads of which each wants the monitor that the next one owns.
#![tactic(auto)]

mod owners;
mod rows;
mod waits;

pub use owners::{cycles, cycles_along, cycles_among};
pub use waits::live_threads;
