//! Why a program was not explored.

use lock_word::Memory;
use std::alloc::AllocError;
use text_streams::FileFault;
use thiserror::Error;

/// Why a program was not explored to its end.
#[derive(Clone, Copy, PartialEq, Eq, Debug, Error)]
pub enum ExploreTextFault {
    /// A fault of reading or writing, or want of memory.
    #[error("{0}")]
    File(FileFault),
    /// There are more states than this, as many as were asked for at most.
    #[error("too many states: more than {0}")]
    TooManyStates(u32),
}

impl From<FileFault> for ExploreTextFault {
    ghost use Rattle.std.specs.Prelude.{◌≡◌};
    ghost use Rattle.explore_runs.specs.declared.faults.ExploreTextFault.TheVariants.{File};

    ghost from_gives = { λ cause fault. fault ≡ File cause };

    fn from(fault: FileFault) -> Self {
        ExploreTextFault::File(fault)
    }
}

impl From<Memory> for ExploreTextFault {
    ghost use Rattle.std.specs.Prelude.{◌≡◌};
    ghost use Rattle.explore_runs.specs.Faults.{out_of_memory};

    ghost from_gives = { λ _ fault. fault ≡ out_of_memory };

    fn from(_: Memory) -> Self {
        ExploreTextFault::File(FileFault::Memory)
    }
}

impl From<AllocError> for ExploreTextFault {
    ghost use Rattle.std.specs.Prelude.{◌≡◌};
    ghost use Rattle.explore_runs.specs.Faults.{out_of_memory};

    ghost from_gives = { λ _ fault. fault ≡ out_of_memory };

    fn from(_: AllocError) -> Self {
        ExploreTextFault::File(FileFault::Memory)
    }
}
