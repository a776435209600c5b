//! Plays a script and compares how it comes out with what is wanted.

ghost use Rattle.std.specs.Prelude.{◌≡◌, ◌↔◌, IsNone};

use history::{FileFault, ReaderSource, WriterSink, moves, print_script, read_script, replay, run};
use std::alloc::{AllocError, Global};
use std::fmt::{Display, Formatter, Write};
use std::{fmt, io, str};

/// The first line in which two texts differ.
#[derive(Clone, Copy)]
pub struct Difference<'a> {
    /// The number of the line, from 1.
    line: u64,
    /// What stands there.
    written: &'a str,
    /// What is wanted there.
    wanted: &'a str,
}

impl Display for Difference<'_> {
    fn fmt<W: Write>(&self, f: &mut Formatter<W>) -> fmt::Result {
        let line = self.line;
        let written = self.written;
        let wanted = self.wanted;
        write!(f, "line {line} is '{written}' and is to be '{wanted}'")
    }
}

/// The first line in which a text differs from the wanted one. A line that one of them lacks counts
/// as empty.
pub fn first_difference<'a>(written: &'a str, wanted: &'a str) -> Option<Difference<'a>>
    ensures { IsNone result ↔ (written.now ≡ wanted.now) }
{
    if written == wanted {
        return None;
    }
    let mut line = 1u64;
    let mut wanted_lines = wanted.split('\n');
    for written in written.split('\n') {
        let wanted = wanted_lines.next();
        if wanted != Some(written) {
            let wanted = wanted.unwrap_or("");
            return Some(Difference {
                line,
                written,
                wanted,
            });
        }
        line = line.saturating_add(1);
    }
    Some(Difference {
        line,
        written: "",
        wanted: wanted_lines.next().unwrap_or(""),
    })
}

/// The report of a script, or why it has none.
pub fn play(alloc: Global, script: &[u8]) -> Result<Vec<u8>, FileFault> {
    let mut sink = WriterSink::new(Vec::new(alloc));
    run(alloc, &mut ReaderSource::new(script), &mut sink)?;
    Ok(sink.into_inner())
}

/// Whether a script is read, and its text is what was read.
fn is_printed_again(alloc: Global, script: &[u8]) -> Result<bool, FileFault> {
    let lines = read_script(alloc, script)?;
    let text = print_script(alloc, &lines)?;
    Ok(text.as_bytes() == script)
}

/// The history of a script, or why it has none.
fn history_of(alloc: Global, script: &[u8]) -> Result<Vec<u8>, FileFault> {
    let mut sink = WriterSink::new(Vec::new(alloc));
    moves(alloc, &mut ReaderSource::new(script), &mut sink)?;
    Ok(sink.into_inner())
}

/// What is said of a history, or its fault.
fn check(alloc: Global, history: &[u8]) -> Result<Vec<u8>, FileFault> {
    let mut sink = WriterSink::new(Vec::new(alloc));
    replay(alloc, &mut ReaderSource::new(history), &mut sink)?;
    Ok(sink.into_inner())
}

/// A history with its first Lock twice, and the number of the second one's line.
fn lock_twice(alloc: Global, history: &str) -> Result<Option<(String, u64)>, AllocError> {
    let mut twice = String::new(alloc);
    let mut number = 0u64;
    let mut second = None;
    for line in history.split_inclusive('\n') {
        twice.push_str(line)?;
        number = number.saturating_add(1);
        if second.is_none() && line.starts_with("{\"move\":\"Lock\",") {
            twice.push_str(line)?;
            second = Some(number.saturating_add(1));
        }
    }
    Ok(second.map(|number| (twice, number)))
}

/// Whether a history is a run of so many moves, and broken where its first Lock is twice.
fn is_run(alloc: Global, history: &str, moves: u64) -> Result<bool, FileFault> {
    let answer = check(alloc, history.as_bytes())?;
    if answer.as_slice() != format!(in alloc; "run of {moves} moves\n")?.as_bytes() {
        return Ok(false);
    }
    match lock_twice(alloc, history)? {
        Some((twice, second)) => {
            let broken = check(alloc, twice.as_bytes());
            Ok(broken.is_err_and(|fault| fault == FileFault::Broken(second)))
        }
        None => Ok(true),
    }
}

/// Whether a text of an example is the wanted one; else the first line that differs is printed.
fn is_wanted<R: Print>(rt: &R, name: &str, written: &str, wanted: &str) -> io::Result<bool> {
    match first_difference(written, wanted) {
        None => Ok(true),
        Some(difference) => {
            println!(rt; "{name}: {difference}")?;
            Ok(false)
        }
    }
}

/// What is to come of a script.
#[derive(Clone, Copy)]
pub struct Wanted<'a> {
    pub report: &'a str,
    /// Its history, where that is written down.
    pub history: Option<&'a str>,
    /// How many moves the history has.
    pub moves: u64,
}

/// Plays a script, and prints whether its report and its history are the wanted ones.
pub fn compare<R>(rt: &R, name: &str, script: &[u8], wanted: Wanted<'_>) -> io::Result<bool>
where
    R: Print + AllocGlobal,
{
    let played = play(rt.alloc(), script);
    let told = history_of(rt.alloc(), script);
    match (&played, &told) {
        (Ok(report), Ok(history)) => is_as_wanted(rt, name, script, report, history, wanted),
        (Err(fault), _) | (_, Err(fault)) => {
            println!(rt; "{name}: {fault}")?;
            Ok(false)
        }
    }
}

/// The same, of a script that has this report and this history.
fn is_as_wanted<R>(
    rt: &R,
    name: &str,
    script: &[u8],
    report: &[u8],
    history: &[u8],
    wanted: Wanted<'_>,
) -> io::Result<bool>
where
    R: Print + AllocGlobal,
{
    let (Ok(report), Ok(history)) = (str::from_utf8(report), str::from_utf8(history)) else {
        println!(rt; "{name}: its report or its history is no text")?;
        return Ok(false);
    };
    if !is_wanted(rt, name, report, wanted.report)? {
        return Ok(false);
    }
    if !is_wanted(rt, name, history, wanted.history.unwrap_or(history))? {
        return Ok(false);
    }
    let moves = wanted.moves;
    let wrong = if !is_printed_again(rt.alloc(), script).unwrap_or(false) {
        "its script is printed otherwise"
    } else if !is_run(rt.alloc(), history, moves).unwrap_or(false) {
        "its history is checked otherwise"
    } else {
        println!(rt; "{name}: as its report says, a run of {moves} moves")?;
        return Ok(true);
    };
    println!(rt; "{name}: {wrong}")?;
    Ok(false)
}

/// Whether a script ends in a fault.
pub fn ends_in(alloc: Global, script: &[u8], fault: FileFault) -> bool {
    play(alloc, script).is_err_and(|found| found == fault)
}

/// Plays a script, and prints whether it ends in the wanted fault.
pub fn compare_fault<R>(rt: &R, name: &str, script: &[u8], wanted: FileFault) -> io::Result<bool>
where
    R: Print + AllocGlobal,
{
    let is_right = ends_in(rt.alloc(), script, wanted);
    if is_right {
        println!(rt; "{name}: {wanted}, as it should")?;
    } else {
        println!(rt; "{name}: not {wanted}")?;
    }
    Ok(is_right)
}
