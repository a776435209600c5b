//! Readers that give a little at a time, and readers that fail.

use super::{ENTERS, LOCKS_TWICE, assert_tells, fault_of};
use crate::pieces::{PiecesReader, Then};
use history_check::FileFault;
use std::alloc::Global;
use std::process::Abort;
use std::test::Fail;

/// A history of which so many bytes are read at a time is checked as one that is read whole.
fn assert_read_by(rt: &impl Abort, alloc: Global, at_once: usize) -> Result<(), FileFault> {
    let locks_twice = PiecesReader::new(LOCKS_TWICE, at_once, Then::Ends);
    let fault = fault_of(alloc, locks_twice);
    assert!(rt; fault == Some(FileFault::Broken(5)), "{at_once} at once");
    let enters = PiecesReader::new(ENTERS, at_once, Then::Ends);
    assert_tells(rt, alloc, enters, b"run of 4 moves\n")
}

const AT_ONCE: [usize; 4] = [1, 2, 3, 4095];

#[test]
fn readers_that_give_a_little(rt: HostRuntime) -> Result<(), Fail> {
    for &at_once in &AT_ONCE {
        assert_read_by(&rt, rt.alloc(), at_once)?;
    }
    Ok(())
}

/// A failed read is told only where no whole line before it is wrong.
#[test]
fn readers_that_fail(rt: HostRuntime) {
    for count in 0..=LOCKS_TWICE.len() {
        let (bytes, _) = LOCKS_TWICE.split_at(count);
        let fault = fault_of(rt.alloc(), PiecesReader::new(bytes, 3, Then::Fails));
        // The line feed of line 5 is byte 150.
        let wanted = if count < 150 {
            FileFault::Read
        } else {
            FileFault::Broken(5)
        };
        assert!(rt; fault == Some(wanted), "{count} bytes");
    }
}

/// How many bytes are read of a history that goes on with spaces for ever, until its fault is told.
fn given_until(rt: &impl Abort, alloc: Global, history: &[u8], fault: FileFault) -> u64 {
    let mut reader = PiecesReader::new(history, 4096, Then::GoesOn);
    assert!(rt; fault_of(alloc, &mut reader) == Some(fault));
    reader.given
}

#[test]
fn no_more_is_read_than_the_fault_needs(rt: HostRuntime) {
    assert!(rt; given_until(&rt, rt.alloc(), LOCKS_TWICE, FileFault::Broken(5)) <= 16_384);
    assert!(rt; given_until(&rt, rt.alloc(), b"", FileFault::BadMove(1)) == 4096);
}

/// The history of [`ENTERS`], as another hand writes it: with blanks, its keys in another order,
/// and escapes.
const ENTERS_SPELLED: &[u8] = br#" { "objects" : 1 }
{ "thread" : 0, "move" : "Attach" }
{ "thread" : 0, "call" : "Enter", "object" : 0, "move" : "C\u0061ll" }
{"move":"Lock","thread":0}
{"thread":0,"m\u006fve":"Lock","move":"Return","reply":"Entered"}
"#;

#[test]
fn readers_that_give_a_little_of_other_spellings(rt: HostRuntime) -> Result<(), Fail> {
    for at_once in 1..=220 {
        let reader = PiecesReader::new(ENTERS_SPELLED, at_once, Then::Ends);
        assert_tells(&rt, rt.alloc(), reader, b"run of 4 moves\n")?;
    }
    Ok(())
}
