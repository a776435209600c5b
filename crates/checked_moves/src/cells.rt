//! The table of cells, `cells.txt`, which its head describes: moves that both checkers judge, each
//! after some setups and with the verdict that is wanted.

mod lines;
mod setups;
mod words;

use crate::both::Both;
use crate::trouble::{LineFault, ReadFault, Trouble};
use lines::{Cell, Line, read_line, read_setups};
use setups::Setup;
use std::alloc::Global;
use std::fs;
use std::io::Print;
use std::rt::Files;
use step_core::{Move, ObjectId, ThreadId};

/// The table, in the folder that the program runs in.
const TABLE: &str = "cells.txt";

/// The thread whose moves are judged.
const T: ThreadId = ThreadId(1);

/// Another thread.
const U: ThreadId = ThreadId(2);

/// A thread that is not live until a setup makes it so.
const V: ThreadId = ThreadId(3);

/// A thread that is never live.
const GONE: ThreadId = ThreadId(9);

const OBJECTS: u32 = 2;

const A: ObjectId = ObjectId(0);

const B: ObjectId = ObjectId(1);

/// An object that does not exist.
const MISSING: ObjectId = ObjectId(2);

/// The cells of one kind of move that were judged.
#[derive(Clone, Copy)]
struct Judged<'a> {
    kind: &'a str,
    lawful: u32,
    unlawful: u32,
}

/// Has both checkers judge each cell, and prints how many cells there are of each kind of move.
pub fn play<R>(rt: &R) -> Result<(), Trouble>
where
    R: Files + Print + AllocGlobal + Clone + Drop,
{
    let table = fs::read_to_string(rt, TABLE)?;
    let mut both = Both::new(rt.alloc(), OBJECTS)?;
    play_table(rt, &table, &mut both)
}

/// The same, of a table that was read, by these checkers.
fn play_table<R>(rt: &R, table: &str, both: &mut Both) -> Result<(), Trouble>
where
    R: Print + AllocGlobal,
{
    let mut judged: Option<Judged> = None;
    for (above, text) in table.lines().enumerate() {
        let line = above.saturating_add(1);
        match read_line(text).map_err(|fault| unread(line, fault))? {
            Line::Blank => {}
            Line::Heading(kind) => {
                print(rt, judged)?;
                judged = Some(Judged::of(kind));
            }
            Line::Cell(cell) => {
                let Some(judged) = &mut judged else {
                    return Err(unread(line, ReadFault::Heading));
                };
                judge(rt.alloc(), both, line, cell)?;
                judged.count(cell.lawful);
            }
        }
    }
    print(rt, judged)
}

/// This line cannot be read.
fn unread(line: usize, fault: ReadFault) -> Trouble {
    let fault = LineFault::Unread(fault);
    Trouble::Line { line, fault }
}

impl Judged<'_> {
    /// No cells of this kind yet.
    fn of(kind: &str) -> Judged<'_> {
        Judged {
            kind,
            lawful: 0,
            unlawful: 0,
        }
    }

    /// One cell more.
    fn count(&mut self, lawful: bool) {
        if lawful {
            self.lawful = self.lawful.saturating_add(1);
        } else {
            self.unlawful = self.unlawful.saturating_add(1);
        }
    }
}

/// Prints how many cells there were of a kind of move, if there was one.
fn print<R: Print>(rt: &R, judged: Option<Judged<'_>>) -> Result<(), Trouble> {
    if let Some(judged) = judged {
        let Judged {
            kind,
            lawful,
            unlawful,
        } = judged;
        println!(rt; "{kind}: {lawful} lawful, {unlawful} not lawful")?;
    }
    Ok(())
}

/// Both checkers, where T and U are live.
fn opening(alloc: Global, line: usize) -> Result<Both, Trouble> {
    let mut both = Both::new(alloc, OBJECTS)?;
    way(&mut both, line, Move::Attach { thread: T })?;
    way(&mut both, line, Move::Attach { thread: U })?;
    Ok(both)
}

/// Both checkers are to judge the move of a cell as it says. They begin anew for it, unless it goes
/// on where the cell above it ended.
fn judge(alloc: Global, both: &mut Both, line: usize, cell: Cell<'_>) -> Result<(), Trouble> {
    if !cell.goes_on {
        *both = opening(alloc, line)?;
    }
    if let Some(before) = cell.before {
        follow(both, line, before)?;
    }
    let made = cell.judged;
    let found = both.judge(made)?;
    if found != cell.lawful {
        let fault = LineFault::OtherVerdict { made, found };
        return Err(Trouble::Line { line, fault });
    }
    Ok(())
}

/// Does the setups of a cell, which are lawful.
fn follow(both: &mut Both, line: usize, before: &str) -> Result<(), Trouble> {
    for text in before.split(';') {
        let Some((times, setup)) = read_setups(text) else {
            return Err(unread(line, ReadFault::Setup));
        };
        repeat(both, line, times, setup)?;
    }
    Ok(())
}

/// Does a setup so often.
fn repeat(both: &mut Both, line: usize, times: u32, setup: Setup) -> Result<(), Trouble> {
    for _ in 0..times {
        enact(both, line, setup)?;
    }
    Ok(())
}

/// Makes the moves of a setup.
fn enact(both: &mut Both, line: usize, setup: Setup) -> Result<(), Trouble> {
    for made in setup.moves() {
        if let Some(made) = made {
            way(both, line, made)?;
        }
    }
    Ok(())
}

/// Makes a move on the way to a cell, which is lawful.
fn way(both: &mut Both, line: usize, made: Move) -> Result<(), Trouble> {
    if !both.judge(made)? {
        let fault = LineFault::NoWay { made };
        return Err(Trouble::Line { line, fault });
    }
    Ok(())
}
