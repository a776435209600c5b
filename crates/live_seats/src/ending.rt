//! What comes of a close.

use live_turns::Closed;
use lock_word::ThreadId;

/// What a service that was closed leaves.
#[derive(Drop)]
pub struct ServiceEnd {
    /// The words of its objects, its record, and how many deeds each pass did.
    pub closed: Closed,
    /// The thread of each pass, in the order of the counts.
    pub threads: Vec<ThreadId>,
}

/// What came of a close.
#[derive(Clone, Copy, PartialEq, Eq)]
pub enum Closing {
    /// The service is closed, and the seat is gone.
    Done,
    /// There are other seats. Nothing was done.
    Others,
    /// There is no other seat, and the passes that the seat has now are not all of the service's,
    /// each once.
    WrongPass,
    /// The system refused memory. The seat has also what passes came back.
    Memory,
    /// The deeds of a pass are not those that the record has under its number. The seat is gone.
    Torn,
}
