//! Why a move was not taken.

use std::fmt;
use thiserror::Error;

/// Why a move was not taken. The state is then as it was.
#[derive(Clone, Copy, PartialEq, Eq, Debug, Error)]
pub enum MoveFault {
    /// The move is not lawful now.
    Broken,
    /// The system has no memory for one more thread. Only an Attach is answered so.
    Memory,
}

impl fmt::Display for MoveFault {
    ghost use Rattle.std.specs.Prelude.{Some};
    ghost use Rattle.jls_check.specs.Texts.{fault_text};

    ghost output = { λ x. Some (fault_text x) };

    fn fmt<W: fmt::Write>(&self, f: &mut fmt::Formatter<W>) -> fmt::Result {
        f.write_str(match self {
            MoveFault::Broken => "the move is not lawful",
            MoveFault::Memory => "out of memory",
        })
    }
}
