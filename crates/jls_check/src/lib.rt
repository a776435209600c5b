//! The checker of moves: it judges a list of moves of the abstract machine of `docs/MACHINE.md`
//! (JLS SE 8, 17.1 and 17.2), and says yes exactly to those that are a run, want of memory apart.
//!
//! It knows no header word, no thread index and no fat monitor, and takes any lawful choice: any
//! waiting thread may be notified, any thread may lock an object that is free.
#![tactic(auto)]

mod acts;
mod changes;
mod faults;
mod machine;
mod monitors;
mod numbers;
mod owners;
mod rows;
mod slots;
mod threads;
mod waits;

pub use faults::MoveFault;
pub use machine::Machine;
pub use monitors::Held;
pub use numbers::numbers_tell_machines_apart;
pub use threads::Live;
