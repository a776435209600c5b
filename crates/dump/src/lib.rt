//! Thread dumps: what each live thread of a world is doing, and the cycles of owners.
//!
//! `docs/FORMATS.md` has the form of a dump.
#![tactic(auto)]

mod dumping;
mod reports;

pub use dumping::dump_script;
pub use owner_cycles::{cycles, cycles_along};
pub use reports::{put_call, put_cycle, report};
