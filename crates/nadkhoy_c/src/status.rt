//! What a call answers.

ghost use Rattle.std.specs.Prelude.{◌≡◌};
ghost use Rattle.nadkhoy_c.specs.Statuses.{status_number};

/// What a call answers that is no fault of the core or of the live service. Such a fault keeps its
/// own number, which is below 101. A seat that cannot take an order where its call stands answers
/// with a number of the core too: 6 (InCall) where it is in a call, 7 (NotCalling) where it is in
/// none.
#[derive(Clone, Copy, PartialEq, Eq)]
pub enum Status {
    /// It is done.
    Done = 0,
    /// The system has no memory for the world, the service, the seat or the end of a service.
    Memory = 2,
    /// The slot is empty.
    Closed = 101,
    /// The slot is full already.
    InUse = 102,
    /// The world, or the service that has ended, has no such object.
    NoObject = 103,
    /// No such thread is live, or no live thread has the index.
    NoThread = 104,
    /// The number of the step, or of the call that is to begin, is none; or a live service has no
    /// such call.
    NoStep = 105,
    /// The number of the split is none.
    NoSplit = 106,
    /// There are too many objects, monitors or places, or too few or too many indices or passes.
    Range = 107,
    /// The seat has no pass left for another seat, or the service that has ended had no such pass.
    NoPass = 108,
    /// Other seats are at the service.
    OtherSeats = 109,
    /// Passes of the service are missing.
    WrongPass = 110,
    /// The record has no such deed.
    NoDeed = 111,
}

impl Status {
    /// The number that C is told.
    pub fn number(self) -> u32
        ensures { result ≡ status_number self }
    {
        match self {
            Status::Done => 0,
            Status::Memory => 2,
            Status::Closed => 101,
            Status::InUse => 102,
            Status::NoObject => 103,
            Status::NoThread => 104,
            Status::NoStep => 105,
            Status::NoSplit => 106,
            Status::Range => 107,
            Status::NoPass => 108,
            Status::OtherSeats => 109,
            Status::WrongPass => 110,
            Status::NoDeed => 111,
        }
    }
}
