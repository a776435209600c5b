//! Lines that are written.

use history_moves::{first_line, move_line, push_move};
use std::alloc::Global;
use std::process::Abort;
use std::test::Fail;
use step_core::{Call, Cause, Move, ObjectId, Reply, ThreadId};

const THREAD: ThreadId = ThreadId(0);

const OBJECT: ObjectId = ObjectId(0);

/// Each move is written as the line beside it, and added to a history as that.
fn assert_written(rt: &impl Abort, alloc: Global, rows: &[(Move, &str)]) -> Result<(), Fail> {
    for &(made, line) in rows {
        assert!(rt; move_line(alloc, &made)?.as_str() == line, "{line}");
        let mut text = Vec::new(alloc);
        push_move(&mut text, &made)?;
        assert!(rt; text.as_slice() == line.as_bytes(), "{line}");
    }
    Ok(())
}

const FIRST_ENTER: [(Move, &str); 4] = [
    (
        Move::Attach { thread: THREAD },
        r#"{"move":"Attach","thread":0}"#,
    ),
    (
        Move::Call {
            thread: THREAD,
            call: Call::Enter(OBJECT),
        },
        r#"{"call":"Enter","move":"Call","object":0,"thread":0}"#,
    ),
    (
        Move::Lock { thread: THREAD },
        r#"{"move":"Lock","thread":0}"#,
    ),
    (
        Move::Return {
            thread: THREAD,
            reply: Reply::Entered,
        },
        r#"{"move":"Return","reply":"Entered","thread":0}"#,
    ),
];

#[test]
fn a_first_enter(rt: HostRuntime) -> Result<(), Fail> {
    assert!(rt; first_line(rt.alloc(), 1)?.as_str() == r#"{"objects":1}"#);
    assert_written(&rt, rt.alloc(), &FIRST_ENTER)
}

const CALLS: [(Move, &str); 3] = [
    (
        Move::Call {
            thread: THREAD,
            call: Call::Wait {
                object: OBJECT,
                millis: -1,
                nanos: 5,
            },
        },
        r#"{"call":"Wait","millis":-1,"move":"Call","nanos":5,"object":0,"thread":0}"#,
    ),
    (
        Move::Call {
            thread: THREAD,
            call: Call::Interrupt(ThreadId(7)),
        },
        r#"{"call":"Interrupt","move":"Call","target":7,"thread":0}"#,
    ),
    (
        Move::Call {
            thread: THREAD,
            call: Call::End,
        },
        r#"{"call":"End","move":"Call","thread":0}"#,
    ),
];

#[test]
fn calls_and_their_members(rt: HostRuntime) -> Result<(), Fail> {
    assert_written(&rt, rt.alloc(), &CALLS)
}

const CHOICES_CAUSES_AND_MOMENTS: [(Move, &str); 4] = [
    (
        Move::Notify {
            thread: THREAD,
            chosen: None,
        },
        r#"{"chosen":null,"move":"Notify","thread":0}"#,
    ),
    (
        Move::Return {
            thread: THREAD,
            reply: Reply::Refused(Cause::TooDeep),
        },
        r#"{"cause":"TooDeep","move":"Return","reply":"Refused","thread":0}"#,
    ),
    (
        Move::Spurious { thread: THREAD },
        r#"{"move":"Spurious","thread":0}"#,
    ),
    (
        Move::Time {
            now: 18_446_744_073_709_551_615,
        },
        r#"{"move":"Time","now":18446744073709551615}"#,
    ),
];

#[test]
fn choices_causes_and_moments(rt: HostRuntime) -> Result<(), Fail> {
    assert_written(&rt, rt.alloc(), &CHOICES_CAUSES_AND_MOMENTS)
}
