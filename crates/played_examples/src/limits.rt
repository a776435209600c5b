//! Scripts at the limits: the most objects and threads, and the most bytes.

use crate::comparing::{Wanted, compare, compare_fault};
use history::FileFault;
use std::alloc::{AllocError, Global};
use std::fmt::Write;
use std::io;

/// The most objects that a script declares.
const MOST_OBJECTS: u32 = 65_535;

/// The most threads that are live at once.
const MOST_THREADS: u32 = 32_767;

/// Plays scripts at the limits, and such as go beyond them by one.
pub fn play<R: Print + AllocGlobal>(rt: &R) -> io::Result<bool> {
    let objects = play_objects(rt)?;
    let threads = play_threads(rt)?;
    let bytes = play_bytes(rt)?;
    Ok(objects && threads && bytes)
}

/// As many objects as a script may declare, and one more.
fn play_objects<R: Print + AllocGlobal>(rt: &R) -> io::Result<bool> {
    let (mut script, report) = many_objects(rt.alloc())?;
    let most = compare(
        rt,
        "objects_65535",
        script.as_bytes(),
        with_moves(&report, 0),
    )?;
    script.push_str("object one_more A5\n")?;
    let bad_line = FileFault::BadLine(65_537);
    let too_many = compare_fault(rt, "objects_65536", script.as_bytes(), bad_line)?;
    Ok(most && too_many)
}

/// As many threads as there are indices, and one more in the same script.
fn play_threads<R: Print + AllocGlobal>(rt: &R) -> io::Result<bool> {
    let (script, report) = many_threads(rt.alloc())?;
    let wanted = with_moves(&report, MOST_THREADS as u64);
    compare(rt, "threads_32767", script.as_bytes(), wanted)
}

/// As many bytes as a script may have, and one more.
fn play_bytes<R: Print + AllocGlobal>(rt: &R) -> io::Result<bool> {
    let (mut script, report) = many_bytes(rt.alloc())?;
    let most = compare(
        rt,
        "bytes_16777216",
        script.as_bytes(),
        with_moves(&report, 0),
    )?;
    script.push('\n')?;
    let too_long = compare_fault(rt, "bytes_16777217", script.as_bytes(), FileFault::Read)?;
    Ok(most && too_long)
}

/// This report, and a history of so many moves.
fn with_moves(report: &str, moves: u64) -> Wanted<'_> {
    Wanted {
        report,
        history: None,
        moves,
    }
}

/// A world with as many objects, monitors and indices as a script may declare.
fn many_objects(alloc: Global) -> Result<(String, String), AllocError> {
    let mut script = String::from_str(alloc, "world 8388608 32767\n")?;
    let mut report = String::new(alloc);
    for number in 0..MOST_OBJECTS {
        writeln!(script, "object o{number} A5")?;
        writeln!(
            report,
            "object o{number} 000000A5 owner - holds 0 waiting -"
        )?;
    }
    Ok((script, report))
}

/// A world with as many live threads as there are indices, and one for which there is none.
fn many_threads(alloc: Global) -> Result<(String, String), AllocError> {
    let mut script = format!(in alloc; "world 4 {MOST_THREADS}\n")?;
    let mut report = String::new(alloc);
    for index in 1..=MOST_THREADS {
        writeln!(script, "attach t{index}")?;
        writeln!(report, "attach t{index} index {index}")?;
    }
    script.push_str("attach one_more\n")?;
    report.push_str("fault 1 NoIndex\n")?;
    Ok((script, report))
}

/// A script of as many bytes as one may have, 16,777,216: a world in 10, a step in 6, and 508,400
/// steps in 33 each.
fn many_bytes(alloc: Global) -> Result<(String, String), AllocError> {
    let mut script = String::from_str(alloc, "world 4 4\n")?;
    let mut report = String::new(alloc);
    script.push_str("go xy\n")?;
    report.push_str("fault 4 NoThread\n")?;
    for _ in 0..508_400 {
        script.push_str("go abcdefghijklmnopqrstuvwxyz_01\n")?;
        report.push_str("fault 4 NoThread\n")?;
    }
    Ok((script, report))
}
