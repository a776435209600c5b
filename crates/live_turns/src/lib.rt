//! The live service, turn by turn: the calls that several threads make at once on header words that
//! they share, and behind the gate of these words the book of `live_book`, with the fat monitors
//! and the record of all that was done to them.
//!
//! Each thread has a [`TurnPass`], and drives its calls on the shared [`Turns`] by turns, each of
//! which does at once all that can be done at once. Nothing here needs a handle: no turn waits,
//! asks for memory, or knows of threads of the system. Memory is asked for by the opening and the
//! close.
//!
//! A turn is at the word of its object (`at_word`) or at the book (`at_gate`). An action on a fat
//! monitor goes through four functions, each of which adds one thing:
//!
//! | Function | Adds |
//! |---|---|
//! | `Turns::turn_from_action` | takes the gate, and gives it back |
//! | `Hand::act_on` | checks that the pass is where the book has it; tells what the turn came to |
//! | `Desk::note_action` | notes the deed in the pass's own list, and in the tally |
//! | `Book::act` of `live_book` | makes the action on the monitors, and logs it in the record |
#![tactic(auto)]

mod agreeing;
mod at_gate;
mod at_word;
mod calls;
mod closed;
mod desks;
mod ending;
mod hands;
mod laws;
mod looking;
mod numbered;
mod opening;
mod pass;
mod standings;
mod starting;
mod turns;

pub use closed::{Closed, TurnsClose};
pub use desks::Crew;
pub use laws::no_live_call_is_refused_for_want_of_memory;
pub use live_book::{Book, BookFault, Deed, LiveFault, Logged};
pub use numbered::{Numbered, has_each};
pub use pass::TurnPass;
pub use standings::{Standing, Turned};
pub use turns::Turns;
