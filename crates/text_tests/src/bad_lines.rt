//! Scripts with a bad line, which is told before want of memory, and before many names are kept.

use history::{FileFault, play_text};
use std::alloc::Global;
use std::process::Abort;
use std::test::Fail;

/// A script whose last line is bad, behind names of threads and objects and steps of all kinds.
const BAD: &[u8] = b"world 4 4\nobject a A5\nobject b 00\nattach x\nattach y\nbegin x wait a 1 0\n\
    go x\nexpire x\nspurious y\ntick 7\nrelayout deep\nbegin y interrupt x\ngo\n";

/// Which of its lines that is.
const BAD_LINE: u64 = 13;

/// The fault of a script; None where it has none.
fn fault_of(alloc: Global, text: &[u8]) -> Option<FileFault> {
    match play_text(alloc, text) {
        Ok(_) => None,
        Err(fault) => Some(fault),
    }
}

#[test]
fn a_bad_line_is_told_whichever_request_is_refused(rt: HostRuntime) {
    assert!(rt; fault_of(rt.alloc(), BAD) == Some(FileFault::BadLine(BAD_LINE)));
}

/// A script of so many threads, each in a line of its own, and then some more lines.
fn crowd(alloc: Global, threads: u32, more: &str) -> Result<String, Fail> {
    let mut text = format!(in alloc; "world 4 4\nobject a 00\n")?;
    for number in 0..threads {
        text.push_str("go t")?;
        text.push_str(number.to_string(alloc)?.as_str())?;
        text.push_str("\n")?;
    }
    text.push_str(more)?;
    Ok(text)
}

/// Lines that are the end of a script behind some threads, and which of them is the first bad one.
const ENDS: [(&str, Option<u64>); 7] = [
    ("attach t0\ntick 1\n", None),
    ("", None),
    ("object b 00\n", Some(1)),
    ("attach t0\nobject a 00\nattach\n", Some(2)),
    ("tick 1\ntick 01\nattach\n", Some(2)),
    ("begin t0 wait a 1 0\nbegin t0 wait a 1\n", Some(2)),
    ("attach t0\nattach t1", Some(2)),
];

/// Each of the ends is told behind so many threads.
fn assert_ends_told(rt: &impl Abort, alloc: Global, threads: u32) -> Result<(), Fail> {
    for (end, bad) in ENDS {
        let text = crowd(alloc, threads, end)?;
        let fault = bad.map(|line| told_behind(threads, line));
        assert!(rt;
            fault_of(alloc, text.as_bytes()) == fault,
            "{threads} {end}"
        );
    }
    Ok(())
}

/// The fault of the line that is so many behind those of the threads, the world and the object.
fn told_behind(threads: u32, line: u64) -> FileFault {
    FileFault::BadLine(line.wrapping_add(u64::from(threads)).wrapping_add(2))
}

#[test]
fn a_bad_line_is_told_behind_few_threads_and_many(rt: HostRuntime) -> Result<(), Fail> {
    for threads in [1, 4_096, 4_097] {
        assert_ends_told(&rt, rt.alloc(), threads)?;
    }
    let text = crowd(rt.alloc(), 66_000, "attach t65999\nattach\n")?;
    assert!(rt; fault_of(rt.alloc(), text.as_bytes()) == Some(told_behind(66_000, 2)));
    Ok(())
}
