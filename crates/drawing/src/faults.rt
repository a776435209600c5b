//! Why nothing was drawn.

use lock_word::Memory;
use std::alloc::AllocError;
use text_streams::FileFault;
use thiserror::Error;

/// Why nothing was drawn.
#[derive(Clone, Copy, PartialEq, Eq, Debug, Error)]
pub enum DrawFault {
    /// A fault of reading or writing, or want of memory.
    #[error("{0}")]
    File(FileFault),
    /// There are more columns than [`MOST_COLUMNS`](pictures::MOST_COLUMNS).
    #[error("too many columns: more than 20000")]
    TooManyColumns,
    /// There are more threads, objects or cycles of owners than
    /// [`MOST_LANES`](pictures::MOST_LANES).
    #[error("too many lanes: more than 200")]
    TooManyLanes,
    /// The window begins with this column, and the last one stands in front of it.
    #[error("no such column: {0}")]
    NoSuchColumn(u32),
}

impl From<FileFault> for DrawFault {
    ghost use Rattle.std.specs.Prelude.{◌≡◌};
    ghost use Rattle.drawing.specs.declared.faults.DrawFault.TheVariants.{File};

    ghost from_gives = { λ cause fault. fault ≡ File cause };

    fn from(fault: FileFault) -> Self {
        DrawFault::File(fault)
    }
}

impl From<Memory> for DrawFault {
    ghost use Rattle.std.specs.Prelude.{◌≡◌};
    ghost use Rattle.drawing.specs.Faults.{out_of_memory};

    ghost from_gives = { λ _ fault. fault ≡ out_of_memory };

    fn from(_: Memory) -> Self {
        DrawFault::File(FileFault::Memory)
    }
}

impl From<AllocError> for DrawFault {
    ghost use Rattle.std.specs.Prelude.{◌≡◌};
    ghost use Rattle.drawing.specs.Faults.{out_of_memory};

    ghost from_gives = { λ _ fault. fault ≡ out_of_memory };

    fn from(_: AllocError) -> Self {
        DrawFault::File(FileFault::Memory)
    }
}
