//! Why the program stopped.

use std::alloc::AllocError;
use std::{fmt, io};
use step_core::{Memory, Move};
use thiserror::Error;

/// Why the program stopped.
#[derive(Drop, Error)]
pub enum Trouble {
    /// The checkers say different things of a move.
    #[error("{made:?}: jls_check says lawful={proved}, the plain checker lawful={plain}")]
    Disagreement {
        made: Move,
        proved: bool,
        plain: bool,
    },
    /// A line of the table of cells is at fault.
    #[error("cells.txt, line {line}: {fault}")]
    Line {
        line: usize,
        fault: LineFault,
    },
    /// A world handed out a move that both checkers refuse.
    #[error("world {world} handed out {made:?}, which is not lawful")]
    UnlawfulStep {
        world: u32,
        made: Move,
    },
    /// A world shows another state than the moves lead to.
    #[error("world {world} does not show the state that its moves lead to")]
    OtherState {
        world: u32,
    },
    #[error(transparent)]
    Memory(#[from] Memory),
    #[error(transparent)]
    NotAllocated(#[from] AllocError),
    #[error("the system: {0}")]
    System(#[from] io::Error),
}

/// Its text, which has all that it says.
impl fmt::Debug for Trouble {
    fn fmt<W: fmt::Write>(&self, f: &mut fmt::Formatter<W>) -> fmt::Result {
        fmt::Display::fmt(self, f)
    }
}

/// What is wrong with a line of the table of cells.
#[derive(Clone, Copy)]
pub enum LineFault {
    /// Both checkers say otherwise of the move than the line.
    OtherVerdict { made: Move, found: bool },
    /// A move that leads to the cell is not lawful itself.
    NoWay { made: Move },
    /// The line cannot be read.
    Unread(ReadFault),
}

impl fmt::Display for LineFault {
    fn fmt<W: fmt::Write>(&self, f: &mut fmt::Formatter<W>) -> fmt::Result {
        match self {
            LineFault::OtherVerdict { made, found } => {
                write!(f, "both checkers say lawful={found} of {made:?}")
            }
            LineFault::NoWay { made } => {
                write!(f, "{made:?} on the way to the cell is not lawful")
            }
            LineFault::Unread(fault) => f.write_str(fault.text()),
        }
    }
}

/// Why a line of the table of cells cannot be read.
#[derive(Clone, Copy)]
pub enum ReadFault {
    Verdict,
    Bracket,
    Heading,
    Reason,
    Setup,
    Judged,
}

impl ReadFault {
    fn text(self) -> &'static str {
        match self {
            ReadFault::Verdict => {
                "it begins with none of '#', '[', 'lawful', 'unlawful' and 'then'"
            }
            ReadFault::Bracket => "a heading ends with ']'",
            ReadFault::Heading => "a cell has a heading above it",
            ReadFault::Reason => "a cell has a reason, and ':' behind it",
            ReadFault::Setup => "a setup cannot be read",
            ReadFault::Judged => "its last part is no single move",
        }
    }
}
