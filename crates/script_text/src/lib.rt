//! The texts of scripts: which bytes are the text of which lines, read and written.
//!
//! `docs/FORMATS.md` has the form of a script. `specs/Lines.antt` has it as definitions: the text
//! of a line, what a line can say, and which lines may follow others. `read_script` answers the
//! lines exactly where the bytes are their text, and else the first line that breaks a rule.
#![tactic(auto)]

mod declared;
mod lines;
mod names;
mod numbering;
mod printing;
mod quick;
mod reading;
mod scripts;
mod walking;

pub use declared::Declared;
pub use lines::{Call, Line, StepLine};
pub use names::Name;
pub use reading::{call_of_words, line_of_words, number_of, words_in};
pub use scripts::{
    MOST_BYTES, Script, cut_line, one_fault, print_script, read_beginning, read_script,
};
pub use text_streams::FileFault;
pub use walking::ScriptReader;
