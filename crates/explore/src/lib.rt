//! Every interleaving of a small program: the states that its steps lead to, each with a list of
//! choices that leads there.
#![tactic(auto)]

mod calls;
mod choices;
mod codes;
mod found;
mod laws;
mod programs;
mod queue;
mod replies;
mod search;
mod states;
mod trail;
mod tried;
mod watching;

pub use found::{ExploreFault, Found};
pub use laws::a_play_has_the_replies_of_its_steps;
pub use programs::{Choice, Program, are_in_order};
pub use search::{explore, explore_watched};
pub use states::{State, play};
pub use watching::{Nobody, Watch};
