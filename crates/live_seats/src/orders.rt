//! What a seat is asked to do, and what came of it.

use fast_path::{InterruptCall, MonitorCall};
use fat_monitor::Reply;
use live_turns::{LiveFault, Standing};
use lock_word::ThreadId;

/// What a seat is asked to do.
#[derive(Clone, Copy)]
pub enum SeatOrder {
    /// The first turn of a call on an object.
    BeginOn(MonitorCall),
    /// The first turn of a call about interrupts.
    BeginAbout(InterruptCall),
    /// One more turn of the call that the seat is in.
    Turn,
    /// To tell the moment, in nanoseconds.
    Tick(u64),
    /// To say under which thread number the seat makes its calls.
    Thread,
    /// To give one of the passes that are left to a new seat.
    Share,
    /// To leave the service: the pass is given up, with those that are left.
    Leave,
}

/// What came of the start of a call on an object, by its steps on the word alone.
#[derive(Clone, Copy, PartialEq, Eq)]
pub enum Started {
    /// They are the whole call, and this is its reply.
    Said(Reply),
    /// The seat is in the middle of the call, and goes on by turns.
    GoesOn,
    /// The call was not begun: the seat is in a call.
    InCall,
    /// The call has ended for this fault.
    Fault(LiveFault),
}

/// What came of an order.
#[derive(Clone, Copy, PartialEq, Eq)]
pub enum Told {
    /// The call was not begun, or the moment not told: the seat is in a call.
    InCall,
    /// The seat is in no call of which a turn could be taken.
    NotCalling,
    /// A turn was taken: where the call stands, and the thread that the turn made an owner.
    Turned {
        standing: Standing,
        granted: Option<ThreadId>,
    },
    /// The moment was told; or not, since another pass had the gate.
    Ticked(bool),
    /// The call has ended, or the moment was not told, for this fault.
    Fault(LiveFault),
    /// The seat makes its calls under this thread number.
    Thread(ThreadId),
    /// There is a new seat.
    Shared,
    /// No pass is left.
    NoPass,
    /// The system refused memory for a new seat.
    Memory,
    /// The seat is gone.
    Left,
}
