//! Does what the words of the command line order, over files and streams.

ghost use Rattle.std.specs.Prelude.{◌≡◌, ℕ, Err, IfSome, OnOk, map, string_bytes};
ghost use Rattle.std.specs.Process.{exit_status};
ghost use Rattle.clap.specs.Faults.{fault_of};
ghost use Rattle.clap.specs.Values.{kind_of};
ghost use Rattle.command_line.specs.Orders.{program_words};
ghost use Rattle.command_line.specs.declared.ends.ProgramEnd.{ProgramEnd};
ghost use Rattle.command_line.specs.ProgramEnds.{EndsFor, end_for, status_of};
ghost use Rattle.command_line.specs.declared.ends.TaskFault.TheVariants.{TooManyStates};
ghost use Rattle.command_line.specs.Tasks.{HasTooManyStates, IsDone};

use crate::ends::{FaultLine, ProgramEnd, TaskFault, end_for};
use crate::orders::{Exploration, Order, Task, read_words};
use crate::progress::Progress;
use drawing::{draw_moves, draw_script};
use dump::dump_script;
use explore_runs::{explore_java_text, explore_text};
use history::{FileFault, ReaderSource, Sink, Source, WriterSink, moves, replay, run};
use live_runs::{RunFault, run_live};
use std::process::ExitCode;
use std::rt::{Env, Files};
use std::sync::Wait;
use std::thread::Threads;
use std::time::Clock;
use std::{env, fs, io};

/// Does what the words of the command line order, and answers the exit status. Where standard error
/// is a terminal, it is told there how far an exploration has come.
pub fn serve<R>(rt: &R, is_terminal: bool) -> ExitCode
where
    R: Env + Files + Input + Print + Eprint + AllocGlobal + Threads + Wait + Clock + Sync,
    // The status is one that an end of the program has.
    ensures { (end : ProgramEnd) × (exit_status result ≡ status_of end) }
{
    let end = match words_behind_name(rt) {
        Ok(words) => serve_words(rt, &words, is_terminal),
        Err(error) => refuse_words(rt, &error),
    };
    ExitCode::from(end.status())
}

/// The words of the command line behind the program's name.
fn words_behind_name<R: Env + AllocGlobal>(rt: &R) -> io::Result<Vec<String>> {
    let words = env::args(rt)?.skip(1).collect(rt.alloc())?;
    Ok(words)
}

/// Does what the words behind the program's name order, and tells how that ended. A fault is told
/// in one line on standard error.
pub fn serve_words<R>(rt: &R, words: &[String], is_terminal: bool) -> ProgramEnd
where
    R: Files + Input + Print + Eprint + AllocGlobal + Threads + Wait + Clock + Sync,
    // Words that are an order end as an order does, and others by what is wrong with them.
    ensures { EndsFor (fault_of program_words (map string_bytes words.now)) result }
{
    match read_words(rt.alloc(), words) {
        Ok(order) => match carry_out(rt, order, is_terminal) {
            Ok(()) => ProgramEnd::Done,
            Err(fault) => tell_fault(rt, fault),
        },
        Err(error) => answer(rt, &error),
    }
}

fn tell_fault(rt: &impl Eprint, fault: TaskFault) -> ProgramEnd
    ensures { result ≡ ProgramEnd.Failed fault }
{
    let _ = rt.eprintln(FaultLine(fault));
    ProgramEnd::Failed(fault)
}

/// Tells why the words of the command line could not be had.
fn refuse_words(rt: &impl Eprint, error: &io::Error) -> ProgramEnd {
    if error.kind() == io::ErrorKind::OutOfMemory {
        return tell_fault(rt, TaskFault::Run(RunFault::File(FileFault::Memory)));
    }
    let _ = rt.eprintln("thinmon: a word of the command line is not text");
    ProgramEnd::Misused
}

/// Prints a help or the version, or what is wrong with the words of the command line.
fn answer(rt: &(impl Print + Eprint), error: &clap::Error) -> ProgramEnd
    ensures { result ≡ end_for (kind_of error.now) }
{
    let end = end_for(error);
    if let ProgramEnd::Failed(fault) = end {
        return tell_fault(rt, fault);
    }
    let _ = error.print(rt);
    end
}

/// Carries an order out on its file, or on standard input.
fn carry_out<R>(rt: &R, order: Order<'_>, is_terminal: bool) -> Result<(), TaskFault>
where
    R: Files + Input + Print + Eprint + AllocGlobal + Threads + Wait + Clock + Sync,
{
    let mut sink = WriterSink::new(io::writer(rt));
    match order.file {
        Some(path) => {
            let file = fs::open(rt, path).map_err(|error| fault_of_opening(&error))?;
            let mut source = ReaderSource::new(file);
            do_task(rt, order.task, is_terminal, &mut source, &mut sink)
        }
        None => {
            let mut source = ReaderSource::new(rt.reader());
            do_task(rt, order.task, is_terminal, &mut source, &mut sink)
        }
    }
}

/// Does a task on what a source gives.
fn do_task<R, S: Source, W: Sink>(
    rt: &R,
    task: Task,
    is_terminal: bool,
    source: &mut S,
    sink: &mut W,
) -> Result<(), TaskFault>
where
    R: AllocGlobal + Eprint + Threads + Wait + Clock + Sync,
    requires { S.given source.old ≡ 0 }
    ensures done { OnOk result (IsDone task (S.left source.old) (S.left source.new)
        (S.given source.new) (W.holds sink.old) (W.holds sink.new)) }
    // Too many states are told only of a program that has more than its limit.
    ensures many { (n : ℕ) → result ≡ Err (TooManyStates n)
        → IfSome (S.left source.old) (λ input. HasTooManyStates task input n) }
{
    let alloc = rt.alloc();
    match task {
        Task::Run => run(alloc, source, sink)?,
        Task::Moves => moves(alloc, source, sink)?,
        Task::Check => replay(alloc, source, sink)?,
        Task::Dump => dump_script(alloc, source, sink)?,
        Task::Live => run_live(rt, alloc, source, sink)?,
        Task::Explore(exploration) => {
            let Exploration { most, witness } = exploration;
            let mut progress = Progress::new(rt, is_terminal);
            explore_text(alloc, source, sink, most, witness, &mut progress)?;
        }
        Task::ExploreJava(most) => {
            let mut progress = Progress::new(rt, is_terminal);
            explore_java_text(alloc, source, sink, most, &mut progress)?;
        }
        Task::Draw(window) => draw_script(alloc, window, source, sink)?,
        Task::DrawMoves(window) => draw_moves(alloc, window, source, sink)?,
    }
    Ok(())
}

/// Why a file could not be opened.
fn fault_of_opening(error: &io::Error) -> FileFault {
    if error.kind() == io::ErrorKind::OutOfMemory {
        FileFault::Memory
    } else {
        FileFault::Read
    }
}
