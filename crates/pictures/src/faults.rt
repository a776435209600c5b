//! Why there is no picture.

use lock_word::Memory;
use std::alloc::AllocError;

/// Why columns have no picture.
#[derive(Clone, Copy, PartialEq, Eq, Debug)]
pub enum PictureFault {
    /// There are more columns than [`MOST_COLUMNS`](crate::MOST_COLUMNS).
    TooManyColumns,
    /// There are more threads, more objects, or more cycles of owners behind the last column, than
    /// [`MOST_LANES`](crate::MOST_LANES).
    TooManyLanes,
    /// The system refused memory.
    Memory,
}

impl From<Memory> for PictureFault {
    ghost use Rattle.std.specs.Prelude.{◌≡◌};
    ghost use Rattle.pictures.specs.declared.faults.PictureFault.TheVariants.{Memory as NoMemory};

    ghost from_gives = { λ _ fault. fault ≡ NoMemory };

    fn from(_: Memory) -> Self {
        PictureFault::Memory
    }
}

impl From<AllocError> for PictureFault {
    ghost use Rattle.std.specs.Prelude.{◌≡◌};
    ghost use Rattle.pictures.specs.declared.faults.PictureFault.TheVariants.{Memory as NoMemory};

    ghost from_gives = { λ _ fault. fault ≡ NoMemory };

    fn from(_: AllocError) -> Self {
        PictureFault::Memory
    }
}
