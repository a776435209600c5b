//! Lines in many spellings. One reader, which goes through all of them, reads each as it is read
//! alone.

ghost use Rattle.std.specs.Prelude.{◌≤◌, length};

use history_moves::{MoveReader, line_move};
use std::alloc::{AllocError, Global};
use std::process::Abort;
use std::test::Fail;

/// The members of a move of each kind.
const KINDS: [&str; 33] = [
    r#""move":"Attach"|"thread":7"#,
    r#""move":"Lock"|"thread":0"#,
    r#""move":"Unlock"|"thread":4294967295"#,
    r#""move":"Illegal"|"thread":1"#,
    r#""move":"BadArgument"|"thread":1"#,
    r#""move":"Early"|"thread":1"#,
    r#""move":"Wait"|"thread":1"#,
    r#""move":"NotifyAll"|"thread":1"#,
    r#""move":"Interrupt"|"thread":1"#,
    r#""move":"TestClear"|"thread":1"#,
    r#""move":"Ask"|"thread":1"#,
    r#""move":"Expire"|"thread":1"#,
    r#""move":"Spurious"|"thread":1"#,
    r#""move":"Relock"|"thread":1"#,
    r#""move":"End"|"thread":1"#,
    r#""move":"Time"|"now":12345678901234567890"#,
    r#""move":"Time"|"now":1234567890123456789"#,
    r#""move":"Notify"|"thread":1|"chosen":null"#,
    r#""move":"Notify"|"thread":1|"chosen":2"#,
    r#""move":"Refuse"|"thread":1|"cause":"TooDeep""#,
    r#""move":"Return"|"thread":1|"reply":"Entered""#,
    r#""move":"\u0052eturn"|"thread":1|"reply":"D\u006fne""#,
    r#""move":"Return"|"thread":1|"reply":"Refused"|"cause":"Memory""#,
    r#""move":"Call"|"thread":1|"call":"Enter"|"object":3"#,
    r#""\u006dove":"Call"|"thread":1|"call":"NotifyAll"|"\u006fbject":3"#,
    r#""move":"Call"|"thread":1|"call":"Holds"|"object":4294967296"#,
    r#""move":"Call"|"thread":1|"call":"Interrupt"|"target":5"#,
    r#""move":"Call"|"thread":1|"call":"IsInterrupted"|"target":1"#,
    r#""move":"Call"|"thread":1|"call":"Interrupted""#,
    r#""move":"Call"|"thread":1|"call":"End""#,
    r#""move":"Call"|"thread":1|"call":"Wait"|"millis":9|"nanos":8|"object":7"#,
    r#""move":"Call"|"thread":1|"call":"Wait"|"millis":-9|"nanos":-8|"object":7"#,
    r#""move":"Call"|"thread":1|"call":"Wait"|"millis":9223372036854775808|"nanos":2147483648|"object":7"#,
];

/// A member more: none, one that came before, one that no move has, or one of another move.
const MORE: [&str; 10] = [
    "",
    r#""thread":1"#,
    r#""move":"Lock""#,
    r#""\u006dove":"Attach""#,
    r#""move":1"#,
    r#""other":1"#,
    r#""now":5"#,
    r#""chosen":null"#,
    r#""call":"Enter""#,
    r#""":"""#,
];

/// What stands before, between and behind members.
const BLANKS: [(&str, &str, &str); 5] = [
    ("{", ",", "}"),
    (" { ", " , ", " } \r"),
    ("{\t", ",\n", "\n}"),
    ("{", ",,", "}"),
    ("{", ",", "} {}"),
];

/// Values of any kind, as a member may have them.
const VALUES: [&str; 24] = [
    "0",
    "00",
    "01",
    "-0",
    "-1",
    "1.0",
    "1e0",
    "1E400",
    "4294967296",
    "999999999999999999",
    "1000000000000000000",
    "9999999999999999999",
    "18446744073709551615",
    "18446744073709551616",
    r#""1""#,
    r#""\ud834\udd1e""#,
    r#""\ud834""#,
    r#""Call""#,
    "null",
    "nul",
    "true",
    "[1]",
    "{}",
    r#"{"thread":1}"#,
];

/// The begin of a move in which the value of one member is open, and its end.
const OPEN: [(&str, &str); 10] = [
    (r#"{"thread":"#, r#","move":"Attach"}"#),
    (r#"{"thread":1,"move":"#, "}"),
    (r#"{"thread":1,"move":"Call","call":"Enter","object":"#, "}"),
    (r#"{"thread":1,"move":"Call","call":"End","object":"#, "}"),
    (r#"{"thread":1,"move":"Call","call":"#, r#","object":1}"#),
    (r#"{"thread":1,"move":"Notify","chosen":"#, "}"),
    (r#"{"move":"Time" ,"now":"#, "}"),
    (r#"{"thread":1,"move":"Refuse","cause":"#, "}"),
    (
        r#"{"thread":1,"move":"Call","call":"Wait","object":1,"nanos":0,"millis":"#,
        "}",
    ),
    (
        r#"{"thread":1,"move":"Call","call":"Wait","object":1,"millis":0,"nanos":"#,
        "}",
    ),
];

/// The reader finds the move that `line_move` finds.
fn assert_agrees(rt: &impl Abort, alloc: Global, reader: &mut MoveReader, line: &[u8]) {
    let read = reader.line_move(line);
    assert!(rt; read == line_move(alloc, line));
}

/// The same, and for the line with an escape in the first key that may have one here.
fn assert_escaped_agrees(
    rt: &impl Abort,
    alloc: Global,
    reader: &mut MoveReader,
    line: &str,
) -> Result<(), AllocError> {
    assert_agrees(rt, alloc, reader, line.as_bytes());
    if let Some((front, back)) = line.split_once("\"move\"") {
        let escaped = format!(in alloc; "{front}\"\\u006dove\"{back}")?;
        assert_agrees(rt, alloc, reader, escaped.as_bytes());
    }
    Ok(())
}

/// Adds members, each behind a separator.
fn push_each(line: &mut String, members: &[&str], between: &str) -> Result<(), AllocError> {
    for member in members {
        line.push_str(between)?;
        line.push_str(member)?;
    }
    Ok(())
}

/// Members from a position on, and then those before it.
fn push_rotated(
    line: &mut String,
    members: &[&str],
    first: usize,
    blanks: (&str, &str, &str),
) -> Result<(), AllocError>
    requires { first ≤ length members.now }
{
    let (begin, between, end) = blanks;
    line.push_str(begin)?;
    let (front, back) = members.split_at(first);
    if let Some((head, rest)) = back.split_first() {
        line.push_str(head)?;
        push_each(line, rest, between)?;
    }
    push_each(line, front, between)?;
    line.push_str(end)
}

/// The lines of a kind of move, with one member more, in each rotation.
fn assert_rotations_agree(
    rt: &impl Abort,
    alloc: Global,
    reader: &mut MoveReader,
    kind: &str,
    more: &str,
) -> Result<(), AllocError> {
    let mut members = Vec::new(alloc);
    for member in kind.split('|') {
        members.push(member)?;
    }
    if !more.is_empty() {
        members.push(more)?;
    }
    for &blanks in &BLANKS {
        for first in 0..members.len() {
            let mut line = String::new(alloc);
            push_rotated(&mut line, &members, first, blanks)?;
            assert_escaped_agrees(rt, alloc, reader, &line)?;
        }
    }
    Ok(())
}

#[test]
fn orders_blanks_and_members_more(rt: HostRuntime) -> Result<(), Fail> {
    let alloc = rt.alloc();
    let mut reader = MoveReader::new(alloc);
    for &kind in &KINDS {
        for &more in &MORE {
            assert_rotations_agree(&rt, alloc, &mut reader, kind, more)?;
        }
    }
    Ok(())
}

#[test]
fn values_of_any_kind(rt: HostRuntime) -> Result<(), Fail> {
    let alloc = rt.alloc();
    let mut reader = MoveReader::new(alloc);
    for &(begin, end) in &OPEN {
        for &value in &VALUES {
            let line = format!(in alloc; "{begin}{value}{end}")?;
            assert_escaped_agrees(&rt, alloc, &mut reader, &line)?;
        }
    }
    Ok(())
}

/// A line with an escape.
const NOTIFY: &str = r#"{"thread":1, "move":"N\u006ftify", "chosen":null}"#;

/// Lines with none, with null and with numbers.
const PLAIN: [&str; 3] = [
    r#"{"thread":1, "move":"Notify", "chosen":null}"#,
    r#"{"thread":12 , "move":"Notify", "chosen":34}"#,
    r#"{ "thread" : 1 , "call":"Wait", "move":"Call", "millis":0 , "nanos":5, "object":6 }"#,
];

/// Bytes that end a text or a value, that are no text, or that are blanks somewhere.
const OTHERS: &[u8] = b"\xff\"\\ 1,:}{.e-\x00\r\t\n\x0b\x0c\x7fa";

/// A line with a byte more anywhere, or another byte there, or cut there.
fn assert_cut_and_filled_agree(
    rt: &impl Abort,
    alloc: Global,
    reader: &mut MoveReader,
    whole: &str,
) -> Result<(), AllocError> {
    let bytes = whole.as_bytes();
    for count in 0..=bytes.len() {
        let (front, back) = bytes.split_at(count);
        assert_agrees(rt, alloc, reader, front);
        for byte in OTHERS {
            let mut line = Vec::new(alloc);
            line.extend_from_slice(front)?;
            line.push(*byte)?;
            line.extend_from_slice(back)?;
            assert_agrees(rt, alloc, reader, &line);
            if let Some((_, rest)) = back.split_first() {
                let mut line = Vec::new(alloc);
                line.extend_from_slice(front)?;
                line.push(*byte)?;
                line.extend_from_slice(rest)?;
                assert_agrees(rt, alloc, reader, &line);
            }
        }
    }
    Ok(())
}

/// Lines that lack a member or a value, and lines with bytes that are blanks elsewhere.
const ODD: [&str; 12] = [
    "",
    " ",
    "{",
    "{}",
    r#"{"thread":1}"#,
    r#"{"thread"}"#,
    r#"{"thread":}"#,
    r#"{"thread":1,}"#,
    r#"{"thread":1 "move":"Lock"}"#,
    "\u{feff}{\"thread\":1,\"move\":\"Lock\"}",
    "{\u{85}\"thread\":1,\"move\":\"Lock\"}",
    r#"[{"thread":1,"move":"Lock"}]"#,
];

#[test]
fn odd_lines(rt: HostRuntime) {
    let alloc = rt.alloc();
    let mut reader = MoveReader::new(alloc);
    for line in &ODD {
        assert_agrees(&rt, alloc, &mut reader, line.as_bytes());
        assert!(rt; matches!(reader.line_move(line.as_bytes()), Ok(None)));
    }
}

#[test]
fn cut_lines_and_other_bytes(rt: HostRuntime) -> Result<(), Fail> {
    let alloc = rt.alloc();
    let mut reader = MoveReader::new(alloc);
    assert_cut_and_filled_agree(&rt, alloc, &mut reader, NOTIFY)?;
    for &whole in &PLAIN {
        assert_cut_and_filled_agree(&rt, alloc, &mut reader, whole)?;
        assert!(rt; matches!(reader.line_move(whole.as_bytes()), Ok(Some(_))));
    }
    Ok(())
}

/// A line with blanks behind it, or behind its brace, up to so many bytes.
fn padded(alloc: Global, line: &str, bytes: usize, first: bool) -> Result<Vec<u8>, AllocError> {
    let mut padded = Vec::new(alloc);
    let Some((brace, rest)) = line.as_bytes().split_first() else {
        return Ok(padded);
    };
    padded.push(*brace)?;
    if first {
        for _ in line.len()..bytes {
            padded.push(b' ')?;
        }
    }
    padded.extend_from_slice(rest)?;
    for _ in padded.len()..bytes {
        padded.push(b' ')?;
    }
    Ok(padded)
}

/// Lines on both sides of the longest that a reader keeps room for, and of the longest that it
/// reads straight from the bytes, and short ones between them.
#[test]
fn long_lines_and_short_ones(rt: HostRuntime) -> Result<(), Fail> {
    let alloc = rt.alloc();
    let mut reader = MoveReader::new(alloc);
    for &bytes in &[49usize, 4094, 4095, 4096, 60, 4097, 9000, 49, 511, 512, 513] {
        for line in [NOTIFY, PLAIN[0]] {
            for first in [false, true] {
                let line = padded(alloc, line, bytes, first)?;
                assert_agrees(&rt, alloc, &mut reader, &line);
                assert!(rt; matches!(reader.line_move(&line), Ok(Some(_))));
            }
        }
    }
    Ok(())
}
