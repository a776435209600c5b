//! Live scripts: scripts whose threads run on threads of the system.
//!
//! `docs/FORMATS.md` has their form. `specs/Rules.antt` says which scripts are live: those of
//! attaches and begins. `read_live` answers one exactly where the bytes are its text, and else the
//! first line that breaks a rule.
#![tactic(auto)]

mod plans;
mod rules;
mod scripts;

pub use plans::{LivePlan, plan_of};
pub use scripts::{LiveScript, one_fault, read_live};
pub use text_streams::FileFault;
