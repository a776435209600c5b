//! The states of a small program on the Java machine itself: each that its runs lead to, with moves
//! that lead there.
//!
//! It knows no header word, no thread index and no fat monitor. Any waiting thread may be notified,
//! any thread may lock an object that is free, and nothing is refused for want of a monitor or of
//! memory.
#![tactic(auto)]

mod codes;
mod found;
mod laws;
mod moves;
mod search;
mod states;

pub use found::JavaFound;
pub use laws::the_states_are_those_of_the_machine;
pub use search::{explore_java, explore_java_watched};
pub use states::{JavaState, replay};
