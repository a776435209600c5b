//! Scripts with a bad line, from a table: each row has the number of the first bad line, a space,
//! and the script.
//!
//! In the script of a row `|` stands for a line feed, `~` for a carriage return, and `^` for the
//! byte FF, which is no text. No script has one of these three.

use crate::comparing::{ends_in, play as report_of};
use crate::files::text_of;
use history::FileFault;
use std::alloc::{AllocError, Global};
use std::io;
use std::rt::Files;

/// Plays the table `bad_scripts` of a folder, and the front of a script up to each of its bytes.
pub fn play<R: Files + Print + AllocGlobal>(rt: &R, folder: &str) -> io::Result<bool> {
    let rows = play_rows(rt, folder)?;
    let cuts = play_cuts(rt, folder)?;
    Ok(rows && cuts)
}

fn play_rows<R: Files + Print + AllocGlobal>(rt: &R, folder: &str) -> io::Result<bool> {
    judge_rows(rt, &text_of(rt, folder, "bad_scripts", "")?)
}

/// Prints each row of a table that is not so, and how many are.
fn judge_rows<R: Print + AllocGlobal>(rt: &R, table: &str) -> io::Result<bool> {
    let mut played = 0u64;
    let mut right = 0u64;
    for row in table.lines() {
        played = played.saturating_add(1);
        if is_right(rt.alloc(), row)? {
            right = right.saturating_add(1);
        } else {
            println!(rt; "bad_scripts: not so: {row}")?;
        }
    }
    println!(rt; "bad_scripts: {right} of {played} have their first bad line")?;
    Ok(right == played)
}

fn play_cuts<R: Files + Print + AllocGlobal>(rt: &R, folder: &str) -> io::Result<bool> {
    let script = text_of(rt, folder, "one_enter", ".script")?;
    tell_cuts(rt, wrong_cuts(rt.alloc(), script.as_bytes()))
}

/// Prints how many fronts of the script are wrong.
fn tell_cuts<R: Print>(rt: &R, wrong: u64) -> io::Result<bool> {
    println!(rt; "one_enter, cut after each byte: {wrong} wrong")?;
    Ok(wrong == 0)
}

/// Whether the script of a row has the first bad line that the row says.
fn is_right(alloc: Global, row: &str) -> Result<bool, AllocError> {
    let Some((number, text)) = row.split_once(' ') else {
        return Ok(false);
    };
    let Ok(number) = number.parse::<u64>() else {
        return Ok(false);
    };
    let script: Vec<u8> = text.bytes().map(meant_by).collect(alloc)?;
    Ok(has_bad_line(alloc, &script, number))
}

/// The byte that one of a row stands for.
fn meant_by(byte: u8) -> u8 {
    match byte {
        b'|' => b'\n',
        b'~' => b'\r',
        b'^' => 0xFF,
        _ => byte,
    }
}

fn has_bad_line(alloc: Global, script: &[u8], number: u64) -> bool {
    ends_in(alloc, script, FileFault::BadLine(number))
}

/// How many fronts of a script come out otherwise than they should: a front that ends within a line
/// has that line bad, the empty one line 1, and any other is a script.
fn wrong_cuts(alloc: Global, script: &[u8]) -> u64 {
    let mut wrong = 0u64;
    let mut line = 1u64;
    let mut is_whole = false;
    for (count, byte) in script.iter().enumerate() {
        let (front, _) = script.split_at(count);
        let is_right = if is_whole {
            report_of(alloc, front).is_ok()
        } else {
            has_bad_line(alloc, front, line)
        };
        if !is_right {
            wrong = wrong.saturating_add(1);
        }
        is_whole = *byte == b'\n';
        if is_whole {
            line = line.saturating_add(1);
        }
    }
    wrong
}
