//! The header words of objects, which threads share, and the atomic steps by which threads lock,
//! nest, unlock and inflate the objects; and a book behind a gate, which has bound every monitor
//! that a word shows.
#![tactic(auto)]

mod close;
mod event;
mod gate;
mod headers;
mod kept;
mod open;
mod pass;
mod rule;

pub use close::CloseFault;
pub use event::{Event, EventKind, events_keep_low_bytes};
pub use headers::Headers;
pub use kept::Kept;
pub use open::OpenFault;
pub use pass::Pass;
