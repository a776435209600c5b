//! Lines that are read, and lines that are no move.

use history_moves::{line_first, line_move};
use std::alloc::Global;
use std::process::Abort;
use step_core::{Call, Cause, Move, ObjectId, ThreadId};

/// The greatest thread.
const LAST: ThreadId = ThreadId(4_294_967_295);

/// First lines, each with the number of objects that it is read as; None: it is no first line.
const FIRST_LINES: [(&str, Option<u16>); 6] = [
    (r#"{"objects":0}"#, Some(0)),
    (r#" { "objects" : 65535 } "#, Some(65_535)),
    (r#"{"objects":65536}"#, None),
    (r#"{"objects":1,"threads":1}"#, None),
    (r#"{"objects":1} 2"#, None),
    ("", None),
];

#[test]
fn first_lines(rt: HostRuntime) {
    for &(line, objects) in &FIRST_LINES {
        assert!(rt;
            line_first(rt.alloc(), line.as_bytes()) == Ok(objects),
            "{line}"
        );
    }
}

/// Each line is read as the move beside it; None: it is no move.
fn assert_read(rt: &impl Abort, alloc: Global, rows: &[(&str, Option<Move>)]) {
    for &(line, made) in rows {
        assert!(rt; line_move(alloc, line.as_bytes()) == Ok(made), "{line}");
    }
}

const ATTACH: Option<Move> = Some(Move::Attach { thread: LAST });

const REFUSE: Option<Move> = Some(Move::Refuse {
    thread: LAST,
    cause: Cause::TooDeep,
});

const NOBODY: Option<Move> = Some(Move::Notify {
    thread: LAST,
    chosen: None,
});

const SPELLINGS: [(&str, Option<Move>); 4] = [
    (r#"{"thread":4294967295,"move":"Attach"}"#, ATTACH),
    ("{\"move\": \"Attach\", \"thread\":\t4294967295 }\r", ATTACH),
    (
        r#"{"thread":1,"thread":4294967295,"move":"Refuse","cause":"TooDeep"}"#,
        REFUSE,
    ),
    (
        r#"{"thread":4294967295,"move":"Notify","chosen":null}"#,
        NOBODY,
    ),
];

#[test]
fn other_spellings(rt: HostRuntime) {
    assert_read(&rt, rt.alloc(), &SPELLINGS);
}

const NO_NUMBERS: [(&str, Option<Move>); 6] = [
    (r#"{"move":"Attach","thread":4294967296}"#, None),
    (r#"{"move":"Attach","thread":"0"}"#, None),
    (r#"{"move":"Attach","thread":-0}"#, None),
    (r#"{"move":"Attach","thread":1.0}"#, None),
    (r#"{"move":"Attach","thread":1e0}"#, None),
    (r#"{"move":"Attach","thread":null}"#, None),
];

#[test]
fn numbers_that_are_none(rt: HostRuntime) {
    assert_read(&rt, rt.alloc(), &NO_NUMBERS);
}

const NO_KEYS_OR_WORDS: [(&str, Option<Move>); 6] = [
    (r#"{"move":"Attach"}"#, None),
    (r#"{"move":"Attach","object":0,"thread":0}"#, None),
    (r#"{"move":"attach","thread":0}"#, None),
    (r#"{"move":"Time","now":0,"thread":0}"#, None),
    (r#"{"move":"Return","reply":"Refused","thread":0}"#, None),
    (
        r#"{"cause":"Memory","move":"Return","reply":"Done","thread":0}"#,
        None,
    ),
];

#[test]
fn keys_and_words_that_are_none(rt: HostRuntime) {
    assert_read(&rt, rt.alloc(), &NO_KEYS_OR_WORDS);
    // A byte that is no text.
    assert!(rt; line_move(rt.alloc(), b"\xff") == Ok(None));
}

const LEAST_TIMES: Option<Move> = Some(Move::Call {
    thread: ThreadId(1),
    call: Call::Wait {
        object: ObjectId(0),
        millis: -9_223_372_036_854_775_808,
        nanos: -2_147_483_648,
    },
});

const TIMES: [(&str, Option<Move>); 8] = [
    (
        r#"{"call":"Wait","millis":-9223372036854775808,"move":"Call","nanos":-2147483648,"object":0,"thread":1}"#,
        LEAST_TIMES,
    ),
    (
        r#"{"call":"Wait","millis":9223372036854775808,"move":"Call","nanos":0,"object":0,"thread":1}"#,
        None,
    ),
    (
        r#"{"call":"Wait","millis":0,"move":"Call","nanos":2147483648,"object":0,"thread":1}"#,
        None,
    ),
    (
        r#"{"call":"Wait","millis":-0,"move":"Call","nanos":0,"object":0,"thread":1}"#,
        None,
    ),
    (
        r#"{"call":"Wait","millis":-9223372036854775809,"move":"Call","nanos":0,"object":0,"thread":1}"#,
        None,
    ),
    (
        r#"{"call":"Wait","millis":0,"move":"Call","nanos":-2147483649,"object":0,"thread":1}"#,
        None,
    ),
    (
        r#"{"call":"Wait","millis":-01,"move":"Call","nanos":0,"object":0,"thread":1}"#,
        None,
    ),
    (
        r#"{"call":"Wait","millis":-,"move":"Call","nanos":0,"object":0,"thread":1}"#,
        None,
    ),
];

#[test]
fn times_of_a_wait(rt: HostRuntime) {
    assert_read(&rt, rt.alloc(), &TIMES);
}

const LAST_MOMENT: Option<Move> = Some(Move::Time {
    now: 18_446_744_073_709_551_615,
});

/// Moments of 20 digits and of 21, as they are written and with a blank.
const MOMENTS: [(&str, Option<Move>); 6] = [
    (r#"{"move":"Time","now":18446744073709551615}"#, LAST_MOMENT),
    (
        r#"{"move":"Time","now": 18446744073709551615}"#,
        LAST_MOMENT,
    ),
    (r#"{"move":"Time","now":18446744073709551616}"#, None),
    (r#"{"move":"Time","now": 18446744073709551616}"#, None),
    (r#"{"move":"Time","now":99999999999999999999}"#, None),
    (r#"{"move":"Time","now":184467440737095516150}"#, None),
];

#[test]
fn moments(rt: HostRuntime) {
    assert_read(&rt, rt.alloc(), &MOMENTS);
}
