//! The texts of programs to be explored: their objects, the calls of each thread, and their clock.
//!
//! `docs/FORMATS.md` has the form of a program. `specs/Lines.antt` says which words each line has,
//! and `specs/Drafts.antt` which lines may follow others. [`read_program`] answers the program
//! that some bytes are, and else the first line that breaks a rule.
#![tactic(auto)]

mod drafts;
mod lines;
mod numbering;
mod reading;

pub use numbering::NamedProgram;
pub use reading::read_program;
pub use text_streams::FileFault;
