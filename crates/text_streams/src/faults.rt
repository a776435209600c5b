//! Why a script was not played, or a history not checked, to its end.

ghost use Rattle.std.specs.Prelude.{◌≡◌};
ghost use Rattle.text_streams.specs.declared.faults.FileFault.TheVariants.{Memory as OutOfMemory};

use lock_word::Memory;
use std::alloc::{AllocError, AllocFailed};
use thiserror::Error;

/// Why a script was not played, or a history not checked, to its end. Lines are numbered from 1.
#[derive(Clone, Copy, PartialEq, Eq, Debug, Error)]
pub enum FileFault {
    /// The line with this number is the first of a script that breaks a rule.
    #[error("bad line {0}")]
    BadLine(u64),
    /// The line with this number is the first of a history that is no line of one.
    #[error("bad move {0}")]
    BadMove(u64),
    /// The move on the line with this number is the first that is not lawful.
    #[error("broken at {0}")]
    Broken(u64),
    /// The bytes could not be read, or are more than a script or a history may have.
    #[error("read failed")]
    Read,
    /// The output could not be written whole.
    #[error("write failed")]
    Write,
    /// The system refused memory.
    #[error("out of memory")]
    Memory,
}

impl From<Memory> for FileFault {
    ghost from_gives = { λ _ fault. fault ≡ OutOfMemory };

    fn from(_: Memory) -> Self {
        FileFault::Memory
    }
}

impl From<AllocError> for FileFault {
    ghost from_gives = { λ _ fault. fault ≡ OutOfMemory };

    fn from(_: AllocError) -> Self {
        FileFault::Memory
    }
}

impl<T: Drop> From<AllocFailed<T>> for FileFault {
    ghost from_gives = { λ _ fault. fault ≡ OutOfMemory };

    fn from(_: AllocFailed<T>) -> Self {
        FileFault::Memory
    }
}
