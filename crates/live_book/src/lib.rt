//! The book of the live service: its fat monitors, the record of all that was done to them, and the
//! faults that it and a live call tell.
//!
//! One thread at a time has the book: `header_words` keeps it behind the gate of the words that the
//! threads share.
#![tactic(auto)]

mod book;
mod deeds;
mod faults;
mod places;

pub use book::Book;
pub use deeds::{Deed, Logged};
pub use faults::{BookFault, LiveFault};
