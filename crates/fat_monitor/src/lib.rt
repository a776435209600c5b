//! Fat monitors: owner, holds, entry line and wait set of the objects whose header word does not
//! hold them; the attached threads, each with where it stands and whether it is interrupted; and
//! the moment.
//!
//! `docs/MACHINE.md` has the rules of Java monitors (JLS SE 8, 17.1 and 17.2) that the actions
//! follow, and `docs/SERVICE.md` the lines.
#![tactic(auto)]

mod actions;
mod laws;
mod monitors;
mod posts;
mod receipts;
mod replies;
mod times;

pub use actions::{ActFault, Action, Answer, Cause, Done, Post, Reply, Why};
pub use laws::{a_removed_thread_joins_the_entry_line, numbers_tell_replies_apart};
pub use monitors::{AttachFault, Backwards, Fats, Monitor};
pub use receipts::Receipt;
pub use times::are_good;
