//! How the program ends, and with which exit status.

ghost use Rattle.std.specs.Prelude.{◌≡◌};
ghost use Rattle.clap.specs.Values.{kind_of};
ghost use Rattle.command_line.specs.ProgramEnds.{end_for, status_of};

use clap::error::ErrorKind;
use drawing::DrawFault;
use explore_runs::ExploreTextFault;
use history::FileFault;
use live_runs::RunFault;
use std::fmt;
use thiserror::Error;

/// Why an order was not carried out.
#[derive(Clone, Copy, PartialEq, Eq, Debug, Error)]
pub enum TaskFault {
    /// A fault of reading, writing or running, or want of memory.
    #[error("{0}")]
    Run(RunFault),
    /// A program has more states than this.
    #[error("too many states: more than {0}")]
    TooManyStates(u32),
    /// A picture has more columns than 20,000.
    #[error("too many columns: more than 20000")]
    TooManyColumns,
    /// A picture has more lanes than 200: more threads, objects or cycles of owners.
    #[error("too many lanes: more than 200")]
    TooManyLanes,
    /// What is to be drawn has no column with this number.
    #[error("no such column: {0}")]
    NoSuchColumn(u32),
}

impl From<RunFault> for TaskFault {
    ghost use Rattle.std.specs.Prelude.{◌≡◌};
    ghost use Rattle.command_line.specs.declared.ends.TaskFault.TheVariants.{Run};

    ghost from_gives = { λ cause fault. fault ≡ Run cause };

    fn from(fault: RunFault) -> Self {
        TaskFault::Run(fault)
    }
}

impl From<FileFault> for TaskFault {
    ghost use Rattle.std.specs.Prelude.{◌≡◌};
    ghost use Rattle.command_line.specs.declared.ends.TaskFault.TheVariants.{Run};
    ghost use Rattle.live_runs.specs.declared.faults.RunFault.TheVariants.{File};

    ghost from_gives = { λ cause fault. fault ≡ Run (File cause) };

    fn from(fault: FileFault) -> Self {
        TaskFault::Run(RunFault::File(fault))
    }
}

impl From<ExploreTextFault> for TaskFault {
    ghost use Rattle.std.specs.Prelude.{◌≡◌};
    ghost use Rattle.command_line.specs.ProgramEnds.{fault_of_exploring};

    ghost from_gives = { λ cause fault. fault ≡ fault_of_exploring cause };

    fn from(fault: ExploreTextFault) -> Self {
        match fault {
            ExploreTextFault::File(fault) => TaskFault::Run(RunFault::File(fault)),
            ExploreTextFault::TooManyStates(most) => TaskFault::TooManyStates(most),
        }
    }
}

impl From<DrawFault> for TaskFault {
    ghost use Rattle.std.specs.Prelude.{◌≡◌};
    ghost use Rattle.command_line.specs.ProgramEnds.{fault_of_drawing};

    ghost from_gives = { λ cause fault. fault ≡ fault_of_drawing cause };

    fn from(fault: DrawFault) -> Self {
        match fault {
            DrawFault::File(fault) => TaskFault::Run(RunFault::File(fault)),
            DrawFault::TooManyColumns => TaskFault::TooManyColumns,
            DrawFault::TooManyLanes => TaskFault::TooManyLanes,
            DrawFault::NoSuchColumn(column) => TaskFault::NoSuchColumn(column),
        }
    }
}

/// How the program ends.
#[derive(Clone, Copy, PartialEq, Eq, Debug)]
pub enum ProgramEnd {
    /// The order was carried out.
    Done,
    /// Help or the version was asked for.
    Shown,
    /// The order was not carried out, for this fault.
    Failed(TaskFault),
    /// The words are no order.
    Misused,
}

impl ProgramEnd {
    /// The exit status.
    pub fn status(self) -> u8
        ensures { result ≡ status_of self }
    {
        match self {
            ProgramEnd::Done | ProgramEnd::Shown => 0,
            ProgramEnd::Failed(_) => 1,
            ProgramEnd::Misused => 2,
        }
    }
}

/// The line that tells a fault, without its end.
#[derive(Clone, Copy, Drop)]
pub struct FaultLine(pub TaskFault);

impl fmt::Display for FaultLine {
    fn fmt<W: fmt::Write>(&self, f: &mut fmt::Formatter<W>) -> fmt::Result {
        write!(f, "thinmon: {}", self.0)
    }
}

/// How the program ends where its words are no order: want of memory is a fault, and a request for
/// help is none.
pub fn end_for(error: &clap::Error) -> ProgramEnd
    ensures { result ≡ end_for (kind_of error.now) }
{
    match error.kind() {
        ErrorKind::OutOfMemory => {
            ProgramEnd::Failed(TaskFault::Run(RunFault::File(FileFault::Memory)))
        }
        ErrorKind::DisplayHelp | ErrorKind::DisplayVersion => ProgramEnd::Shown,
        _ => ProgramEnd::Misused,
    }
}
