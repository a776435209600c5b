//! Why the book, or a live call, refuses.

ghost use Rattle.std.specs.Prelude.{◌≡◌};

use std::error::Error;
use std::fmt;

/// Why the book did nothing.
#[derive(Clone, Copy, PartialEq, Eq, Debug)]
pub enum BookFault {
    /// The record has too few free places. This is looked at first.
    RecordFull,
    /// Every monitor is bound.
    NoMonitor,
    /// The thread does not wait, or its wait has no deadline, or the moment is before that.
    NotDue,
    /// The thread has no granted reply to collect.
    Parked,
    /// The moment that was told is before the one that was told last.
    Backwards,
}

impl fmt::Display for BookFault {
    ghost use Rattle.std.specs.Prelude.{Some};
    ghost use Rattle.live_book.specs.Names.{book_fault_text};

    ghost output = { λ x. Some (book_fault_text x) };

    fn fmt<W: fmt::Write>(&self, f: &mut fmt::Formatter<W>) -> fmt::Result {
        f.write_str(match self {
            BookFault::RecordFull => "the record has too few free places",
            BookFault::NoMonitor => "every monitor is bound",
            BookFault::NotDue => "no wait of the thread is over",
            BookFault::Parked => "no reply is granted",
            BookFault::Backwards => "the moment would fall",
        })
    }
}

impl Error for BookFault {}

/// Why a live call has no reply.
#[derive(Clone, Copy, PartialEq, Eq, Debug)]
pub enum LiveFault {
    /// The moment would fall.
    Backwards = 10,
    /// The record has too few free places.
    RecordFull = 16,
    /// The pass is not where the book has it, or its own list of deeds is full and the record is
    /// not.
    Torn = 18,
    /// The call names an object that the service does not have.
    NoObject = 19,
    /// The call names a thread that the service does not have.
    NoThread = 20,
}

impl LiveFault {
    ghost use Rattle.live_book.specs.Names.{live_fault_number};

    /// The number of the fault.
    pub fn number(self) -> u8
        ensures { result ≡ live_fault_number self }
    {
        self as u8
    }
}

/// A fault is written by its name.
impl fmt::Display for LiveFault {
    ghost use Rattle.std.specs.Prelude.{Some};
    ghost use Rattle.live_book.specs.Names.{live_fault_name};

    ghost output = { λ x. Some (live_fault_name x) };

    fn fmt<W: fmt::Write>(&self, f: &mut fmt::Formatter<W>) -> fmt::Result {
        f.write_str(match self {
            LiveFault::Backwards => "Backwards",
            LiveFault::RecordFull => "RecordFull",
            LiveFault::Torn => "Torn",
            LiveFault::NoObject => "NoObject",
            LiveFault::NoThread => "NoThread",
        })
    }
}

impl Error for LiveFault {}
