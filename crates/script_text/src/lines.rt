//! The lines of a script, as they are written.

use crate::names::Name;
use lock_word::Split;

/// A call, as a `begin` line has it.
#[derive(Drop)]
pub enum Call<'a> {
    Enter(Name<'a>),
    Exit(Name<'a>),
    /// The time is any number of 64 bits and any of 32: the call itself finds out whether they are
    /// in their ranges.
    Wait {
        object: Name<'a>,
        millis: i64,
        nanos: i32,
    },
    Notify(Name<'a>),
    NotifyAll(Name<'a>),
    Holds(Name<'a>),
    Interrupt(Name<'a>),
    Interrupted,
    IsInterrupted(Name<'a>),
    End,
}

/// A line behind those of the objects: a step, or a relayout.
#[derive(Drop)]
pub enum StepLine<'a> {
    Attach(Name<'a>),
    Begin { thread: Name<'a>, call: Call<'a> },
    Go(Name<'a>),
    Expire(Name<'a>),
    /// A spurious wake-up of a thread that waits.
    Spurious(Name<'a>),
    /// The moment, in nanoseconds.
    Tick(u64),
    /// The split in which all words are written from here on.
    Relayout(Split),
}

/// A line of a script.
#[derive(Drop)]
pub enum Line<'a> {
    /// The most fat monitors, 0 to 8,388,608; the most live threads, 1 to the greatest index of the
    /// split; and the split of the header words.
    World {
        monitors: u32,
        indices: u16,
        split: Split,
    },
    /// An object and the low byte of its word.
    Object {
        name: Name<'a>,
        low: u8,
    },
    Step(StepLine<'a>),
}
