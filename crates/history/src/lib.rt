//! Scripts of monitor steps, played on a world: the reports of what they did, and the histories of
//! the moves that they hand out.
//!
//! `docs/FORMATS.md` has the forms of all three.
#![tactic(auto)]

mod hints;
mod histories;
mod names;
mod plans;
mod playing;
mod reports;
mod running;
mod words;

pub use histories::moves;
pub use history_check::{one_answer, replay};
pub use names::Names;
pub use plans::{Plan, call_of};
pub use playing::{play, play_text};
pub use reports::{owner_name, put_standing, put_threads, wait_sets_of};
pub use running::{plan_in, read_all, run};
pub use script_text::{Script, print_script, read_script};
pub use text_streams::{FileFault, ReaderSource, Sink, Source, WriterSink};
