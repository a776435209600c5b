//! Where scripts and histories come from, where reports go, and why one was not carried to its end.
//!
//! A [`Source`] and a [`Sink`] tell by contract which bytes they gave and took, and whether they
//! failed; [`ReaderSource`] and [`WriterSink`] make one of any reader and writer.
#![tactic(auto)]

mod ends;
mod faults;
mod feeds;
mod writing;

pub use ends::{ReaderSource, Sink, Source, WriterSink};
pub use faults::FileFault;
pub use feeds::line_end;
pub use writing::write_out;
