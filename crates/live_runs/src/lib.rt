//! Running live scripts, each of their threads on a thread of the system, and the text of what came
//! of it.
//!
//! `docs/FORMATS.md` has the form of a live script and of that text.
#![tactic(auto)]

mod faults;
mod playing;
mod running;
mod texts;
mod works;

pub use faults::RunFault;
pub use playing::run_script;
pub use running::run_live;
pub use texts::live_text;
