//! What a run of a benchmark comes to.

/// What a run did, and how long it took.
#[derive(Clone, Copy)]
pub struct Measure {
    /// The rounds that succeeded, of all threads.
    pub done: u32,
    /// In nanoseconds.
    pub time: u128,
}
