//! The calls of the live service that wait: each is a loop over the turns of `live_turns`, which
//! backs off between two turns and adds nothing to what they did. The opening and the close never
//! wait.
#![tactic(auto)]

mod bells;
mod calls;
mod driving;
mod ending;
mod live;
mod looking;
mod loops;
mod opening;
mod waiting;

pub use driving::{DriveFault, Gate, Work, Worked, drive};
pub use ending::LiveClose;
pub use live::{Live, LivePass};
