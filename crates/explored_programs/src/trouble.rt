//! Why the program stops.

use explore::ExploreFault;
use lock_word::Memory;
use std::alloc::{AllocError, AllocFailed};
use std::{fmt, io};
use thiserror::Error;

/// Why the program stops.
#[derive(Debug, Drop, Error)]
pub(crate) enum Trouble {
    #[error("no memory")]
    Memory,
    #[error("a program is too large")]
    TooLarge,
    #[error("a program has too many states")]
    TooManyStates,
    #[error("a witness leads nowhere")]
    NoWitness,
    #[error("the system: {0}")]
    System(#[from] io::Error),
}

impl From<Memory> for Trouble {
    fn from(_: Memory) -> Trouble {
        Trouble::Memory
    }
}

impl From<AllocError> for Trouble {
    fn from(_: AllocError) -> Trouble {
        Trouble::Memory
    }
}

impl<T: Drop> From<AllocFailed<T>> for Trouble {
    fn from(_: AllocFailed<T>) -> Trouble {
        Trouble::Memory
    }
}

impl From<fmt::Error> for Trouble {
    fn from(_: fmt::Error) -> Trouble {
        Trouble::Memory
    }
}

impl From<ExploreFault> for Trouble {
    fn from(fault: ExploreFault) -> Trouble {
        match fault {
            ExploreFault::Memory => Trouble::Memory,
            ExploreFault::TooManyStates => Trouble::TooManyStates,
        }
    }
}
