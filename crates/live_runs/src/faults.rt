//! Why a live script was not run to its end.

use lock_word::Memory;
use std::alloc::AllocError;
use text_streams::FileFault;
use thiserror::Error;

/// Why a live script was not run to its end.
#[derive(Clone, Copy, PartialEq, Eq, Debug, Error)]
pub enum RunFault {
    /// It could not be read, or its text not be written; or the system refused memory.
    #[error("{0}")]
    File(FileFault),
    /// The deeds of a thread were not those that the record had under its number.
    #[error("fault 18 Torn")]
    Torn,
}

impl From<FileFault> for RunFault {
    ghost use Rattle.std.specs.Prelude.{◌≡◌};
    ghost use Rattle.live_runs.specs.declared.faults.RunFault.TheVariants.{File};

    ghost from_gives = { λ cause fault. fault ≡ File cause };

    fn from(fault: FileFault) -> Self {
        RunFault::File(fault)
    }
}

impl From<Memory> for RunFault {
    ghost use Rattle.std.specs.Prelude.{◌≡◌};
    ghost use Rattle.live_runs.specs.Faults.{out_of_memory};

    ghost from_gives = { λ _ fault. fault ≡ out_of_memory };

    fn from(_: Memory) -> Self {
        RunFault::File(FileFault::Memory)
    }
}

impl From<AllocError> for RunFault {
    ghost use Rattle.std.specs.Prelude.{◌≡◌};
    ghost use Rattle.live_runs.specs.Faults.{out_of_memory};

    ghost from_gives = { λ _ fault. fault ≡ out_of_memory };

    fn from(_: AllocError) -> Self {
        RunFault::File(FileFault::Memory)
    }
}
