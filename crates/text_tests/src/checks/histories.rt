//! Histories, and what is said of them.

use super::{ENTERS, LOCKS_TWICE, assert_tells, check_of, fault_of};
use history_check::FileFault;
use std::alloc::{AllocError, Global};
use std::process::Abort;
use std::test::Fail;

const NO_MOVES: &[u8] = b"{\"objects\":0}\n";

#[test]
fn a_run(rt: HostRuntime) -> Result<(), Fail> {
    assert_tells(&rt, rt.alloc(), ENTERS, b"run of 4 moves\n")?;
    assert_tells(&rt, rt.alloc(), NO_MOVES, b"run of 0 moves\n")?;
    Ok(())
}

/// What is told of each history is the fault beside it.
fn assert_faults(rt: &impl Abort, alloc: Global, rows: &[(&str, FileFault)]) {
    for &(history, fault) in rows {
        assert!(rt;
            fault_of(alloc, history.as_bytes()) == Some(fault),
            "{history}"
        );
    }
}

const FIRST_FAULTS: [(&str, FileFault); 4] = [
    ("", FileFault::BadMove(1)),
    ("\n", FileFault::BadMove(1)),
    ("{\"objects\":1}", FileFault::BadMove(1)),
    (
        "{\"objects\":1}\r\n{\"move\":\"Time\",\"now\":0}",
        FileFault::BadMove(2),
    ),
];

#[test]
fn the_first_fault_in_the_order_of_lines(rt: HostRuntime) {
    assert!(rt; fault_of(rt.alloc(), LOCKS_TWICE) == Some(FileFault::Broken(5)));
    assert_faults(&rt, rt.alloc(), &FIRST_FAULTS);
}

/// The second line has an unknown name, or a member too many, or is a first line once more, or
/// empty.
const BAD_SECOND_LINES: [(&str, FileFault); 4] = [
    (
        "{\"objects\":1}\n{\"move\":\"Steal\",\"thread\":0}\n",
        FileFault::BadMove(2),
    ),
    (
        "{\"objects\":1}\n{\"move\":\"Attach\",\"thread\":0,\"object\":0}\n",
        FileFault::BadMove(2),
    ),
    ("{\"objects\":1}\n{\"objects\":1}\n", FileFault::BadMove(2)),
    ("{\"objects\":1}\n\n", FileFault::BadMove(2)),
];

#[test]
fn a_bad_second_line(rt: HostRuntime) {
    assert_faults(&rt, rt.alloc(), &BAD_SECOND_LINES);
}

/// A history of one move, whose line has so many bytes with its spaces and its line feed.
fn with_long_line(alloc: Global, bytes: u16) -> Result<Vec<u8>, AllocError> {
    let mut history = Vec::new(alloc);
    history.extend_from_slice(b"{\"objects\":1}\n{\"move\":\"Attach\",\"thread\":0}")?;
    for _ in 29..bytes {
        history.push(b' ')?;
    }
    history.push(b'\n')?;
    Ok(history)
}

/// What is written of a history of one move, whose line has so many bytes, or why nothing is.
fn check_of_line(rt: &impl Abort, alloc: Global, bytes: u16) -> Result<Vec<u8>, FileFault> {
    let history = with_long_line(alloc, bytes)?;
    // The first line has 14 bytes.
    assert!(rt; history.len() == 14 + usize::from(bytes));
    check_of(alloc, history.as_slice())
}

#[test]
fn the_longest_line_and_one_that_is_longer(rt: HostRuntime) -> Result<(), Fail> {
    let text = check_of_line(&rt, rt.alloc(), 4096)?;
    assert!(rt; text.as_slice() == b"run of 1 moves\n".as_slice());
    let fault = check_of_line(&rt, rt.alloc(), 4097).err();
    assert!(rt; fault == Some(FileFault::BadMove(2)));
    Ok(())
}

/// An enter of no object, a line without an end, and a moment that falls.
const UNLAWFUL_OR_BADLY_FORMED: [(&str, FileFault); 3] = [
    (
        "{\"objects\":0}\n{\"move\":\"Attach\",\"thread\":0}\n{\"call\":\"Enter\",\"move\":\"Call\",\"object\":0,\"thread\":0}\n",
        FileFault::Broken(3),
    ),
    (
        "{\"objects\":0}\n{\"move\":\"Lock\",\"thread\":0}",
        FileFault::BadMove(2),
    ),
    (
        "{\"objects\":0}\n{\"move\":\"Time\",\"now\":2}\n{\"move\":\"Time\",\"now\":1}\n",
        FileFault::Broken(3),
    ),
];

#[test]
fn unlawful_and_badly_formed(rt: HostRuntime) {
    assert_faults(&rt, rt.alloc(), &UNLAWFUL_OR_BADLY_FORMED);
}
