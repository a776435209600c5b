//! The lines of the table of cells, and the setups in them.

use super::setups::Setup;
use super::words::{read_call, read_move, read_object, read_thread, read_wait, thread_named};
use crate::trouble::ReadFault;
use std::str::SplitWhitespace;
use step_core::{Move, ThreadId};

/// A line of the table.
#[derive(Clone, Copy)]
pub enum Line<'a> {
    /// It is empty, or a comment.
    Blank,
    /// The cells below are of this kind of move.
    Heading(&'a str),
    Cell(Cell<'a>),
}

/// A move that is judged.
#[derive(Clone, Copy)]
pub struct Cell<'a> {
    /// It goes on where the cell above it ended.
    pub goes_on: bool,
    pub lawful: bool,
    /// The setups before it, if there are any; they are not read yet.
    pub before: Option<&'a str>,
    pub judged: Move,
}

/// Reads a line.
pub fn read_line(text: &str) -> Result<Line<'_>, ReadFault> {
    if text.is_empty() || text.starts_with('#') {
        return Ok(Line::Blank);
    }
    if let Some(rest) = text.strip_prefix('[') {
        let kind = rest.strip_suffix(']').ok_or(ReadFault::Bracket)?;
        return Ok(Line::Heading(kind));
    }
    match text.strip_prefix("then ") {
        Some(rest) => read_verdict(true, rest),
        None => read_verdict(false, text),
    }
}

/// Reads a cell from its verdict on.
fn read_verdict(goes_on: bool, text: &str) -> Result<Line<'_>, ReadFault> {
    if let Some(rest) = text.strip_prefix("lawful ") {
        return read_cell(goes_on, true, rest);
    }
    if let Some(rest) = text.strip_prefix("unlawful ") {
        return read_cell(goes_on, false, rest);
    }
    Err(ReadFault::Verdict)
}

/// Reads a cell behind its verdict.
fn read_cell(goes_on: bool, lawful: bool, text: &str) -> Result<Line<'_>, ReadFault> {
    let (why, moves) = text.split_once(':').ok_or(ReadFault::Reason)?;
    if why.trim().is_empty() {
        return Err(ReadFault::Reason);
    }
    let mut parts = moves.rsplitn(2, ';');
    let judged = parts.next().and_then(read_setup);
    let Some(Setup::Makes(judged)) = judged else {
        return Err(ReadFault::Judged);
    };
    let before = parts.next();
    Ok(Line::Cell(Cell {
        goes_on,
        lawful,
        before,
        judged,
    }))
}

/// Reads a setup, and how often it is done.
pub fn read_setups(text: &str) -> Option<(u32, Setup)> {
    match text.split_once(" times ") {
        Some((times, setup)) => Some((times.trim().parse::<u32>().ok()?, read_setup(setup)?)),
        None => Some((1, read_setup(text)?)),
    }
}

/// Reads a setup that is done once.
fn read_setup(text: &str) -> Option<Setup> {
    let mut words = text.split_whitespace();
    let first = words.next()?;
    let setup = match thread_named(first) {
        Some(thread) => read_act(thread, &mut words)?,
        None => Setup::Makes(read_move(first, &mut words)?),
    };
    match words.next() {
        Some(_) => None,
        None => Some(setup),
    }
}

/// Reads what a thread does.
fn read_act(thread: ThreadId, words: &mut SplitWhitespace<'_>) -> Option<Setup> {
    match words.next()? {
        "enters" => Some(Setup::Enters(thread, read_object(words)?)),
        "exits" => Some(Setup::Exits(thread, read_object(words)?)),
        "interrupts" => Some(Setup::Interrupts(thread, read_thread(words)?)),
        "waits" => Some(Setup::Waits(thread, read_wait(words)?)),
        "calls" => {
            let call = read_call(words)?;
            Some(Setup::Makes(Move::Call { thread, call }))
        }
        _ => None,
    }
}
