//! Checking histories: whether the moves of a history are a run of the abstract machine of
//! `docs/MACHINE.md` (JLS SE 8, 17.1 and 17.2), and else which line is the first that is wrong.
//!
//! `docs/FORMATS.md` has the form of a history. `specs/Histories.antt` has it as definitions: which
//! bytes are the history of a run, which line is no line of one, and which move is not lawful
//! behind those before it. [`replay`] holds one line and the machine, whatever the length of the
//! history.
#![tactic(auto)]

mod checks;
mod move_lists;
mod replaying;

pub use move_lists::{MoveList, read_moves};
pub use replaying::{MOST_BYTES, one_answer, replay};
pub use text_streams::{FileFault, ReaderSource, Sink, Source, WriterSink};
