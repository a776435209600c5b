//! The monitor service of a Java virtual machine, one atomic step at a time.
//!
//! A [`World`] has the header words of its objects, its threads with an index each, the place of
//! each thread in its call, and the fat monitors. [`World::step`] does one atomic step of a call:
//! one load, exchange or store of one header word, one bind of a fat monitor, or one action on the
//! fat monitors. To attach a thread, to begin a call, to let a timed wait expire, to wake a waiter
//! spuriously and to tell the moment are steps too. Each step hands out the moves of the abstract
//! machine of `docs/MACHINE.md` (JLS SE 8, 17.1 and 17.2) that it made.
//!
//! A caller attaches a thread once, begins its calls one after another, and does the Go steps of
//! each:
//!
//! ```text
//! use step_core::{Answer, Atomic, Call, Fault, Reply, Step, ThreadId, World};
//!
//! /// Begins a call, and lets the thread go. None: it is parked, another thread owns the object,
//! /// or the call is an End that takes more Go steps.
//! fn make_call(world: &mut World, thread: ThreadId, call: Call) -> Result<Option<Reply>, Fault> {
//!     world.step(Step::Begin { thread, call })?;
//!     // Any other call replies, parks or meets another thread within four Go steps.
//!     for _ in 0..4 {
//!         let did = world.step(Step::Go { thread })?;
//!         if did.reply.is_some() {
//!             return Ok(did.reply);
//!         }
//!         if let Atomic::Acted { answer: Answer::Parked, .. } = did.atomic {
//!             // No Go until a step has made the move Lock or Relock of this thread: a step of
//!             // another thread, or the Expire or Spurious that ends its own wait.
//!             return Ok(None);
//!         }
//!     }
//!     Ok(None)
//! }
//! ```
//!
//! The crate `embedding` is a whole program, and `docs/EMBEDDING.md` has the loop of a runtime, the
//! faults and causes, costs and limits.
#![tactic(auto)]

mod control;
mod cycles;
mod going;
mod laws;
mod machine;
mod paths;
mod places;
mod stages;
mod steps;
mod worlds;

// What a caller of a world names beside it, so that it needs no other crate of the service.
pub use cycles::a_cycle_of_owners_stays;
pub use fast_path::{Call, InterruptCall, MonitorCall, Operation};
pub use fat_monitor::{Action, Answer, Cause, Reply, Why};
pub use laws::{
    a_waiter_throws_or_keeps_its_interrupt, every_call_is_patient, every_list_of_steps_is_a_run,
    every_list_of_steps_keeps_the_world, every_move_keeps_what_lasts, no_notification_is_lost,
    numbers_tell_worlds_apart,
};
pub use lock_word::{Lock, Memory, ObjectId, Split, ThreadId, Word, decode};
pub use machine::{Doing, Move};
pub use paths::Point;
pub use places::{Place, Stage};
pub use stages::{action_about, action_on};
pub use steps::{Atomic, Did, Fault, Request, Step};
pub use worlds::{RelayoutFault, World};
