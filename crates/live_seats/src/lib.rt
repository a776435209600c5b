//! Seats at a live service: each is a share of the service and the right to make calls in it under
//! one thread number. A seat carries out one order at a time, by one turn of a call at most.
#![tactic(auto)]

mod closing;
mod ending;
mod house;
mod member;
mod opening;
mod orders;
mod pass_orders;
mod seat;
mod serving;
mod starting;
mod unclosed;

pub use closing::Ended;
pub use ending::{Closing, ServiceEnd};
pub use opening::{Draft, Opened};
pub use orders::{SeatOrder, Started, Told};
pub use seat::Seat;
pub use serving::Served;
pub use starting::Begun;
