//! Pictures: what is drawn of a script and of a history, windows of them, too many columns, refused
//! steps, and want of memory.

use super::checks::LOCKS_TWICE;
use super::streams::{HISTORY, SCRIPT};
use drawing::{DrawFault, Window, draw_moves, draw_script};
use history::{FileFault, ReaderSource, WriterSink};
use std::alloc::Global;
use std::process::Abort;
use std::str;
use std::test::Fail;

/// Words that the picture of the script has to have, for what its thread does.
const SCRIPT_WORDS: [&str; 5] = [
    "<title>x is in no call, columns 1 to 1</title>",
    "<title>x calls enter a, column 2</title>",
    "<title>x returns with Entered, column 4</title>",
    "<title>a is free, columns 1 to 3</title>",
    "<title>a has word 000100A5 thin, columns 4 to 4</title>",
];

/// And those of its history, in which a column is a move.
const HISTORY_WORDS: [&str; 4] = [
    "<title>thread 0 is in no call, columns 1 to 1</title>",
    "<title>thread 0 calls enter 0, column 2</title>",
    "<title>thread 0 returns with Entered, column 4</title>",
    "<title>thread 0 owns object 0 x1, columns 3 to 4</title>",
];

/// Whether bytes are the text of one element with these words in it.
fn is_picture(bytes: &[u8], words: &[&str]) -> bool {
    let Ok(text) = str::from_utf8(bytes) else {
        return false;
    };
    for wanted in words {
        if !text.contains(*wanted) {
            return false;
        }
    }
    text.starts_with("<svg ") && text.ends_with("</svg>\n")
}

/// Whether the picture of the script begins with these bytes, where memory is refused no more.
fn script_begins_with(alloc: Global, front: &[u8]) -> bool {
    let mut sink = WriterSink::new(Vec::new(alloc));
    let mut source = ReaderSource::new(SCRIPT);
    let outcome = draw_script(alloc, Window::whole(), &mut source, &mut sink);
    outcome.is_ok() && sink.into_inner().as_slice().starts_with(front)
}

/// The same of the history.
fn history_begins_with(alloc: Global, front: &[u8]) -> bool {
    let mut sink = WriterSink::new(Vec::new(alloc));
    let mut source = ReaderSource::new(HISTORY);
    let outcome = draw_moves(alloc, Window::whole(), &mut source, &mut sink);
    outcome.is_ok() && sink.into_inner().as_slice().starts_with(front)
}

/// Whether a script is drawn. Where it is not, memory was refused, and nothing was written; or the
/// writer was refused some, which has a front of the picture.
fn draws_script(rt: &impl Abort, alloc: Global) -> bool {
    let mut sink = WriterSink::new(Vec::new(alloc));
    let outcome = draw_script(
        alloc,
        Window::whole(),
        &mut ReaderSource::new(SCRIPT),
        &mut sink,
    );
    let bytes = sink.into_inner();
    let is_right = match outcome {
        Ok(()) => is_picture(bytes.as_slice(), &SCRIPT_WORDS),
        Err(DrawFault::File(FileFault::Write)) => script_begins_with(alloc, bytes.as_slice()),
        Err(fault) => fault == DrawFault::File(FileFault::Memory) && bytes.is_empty(),
    };
    assert!(rt; is_right);
    outcome.is_ok()
}

/// The same of a history.
fn draws_history(rt: &impl Abort, alloc: Global) -> bool {
    let mut sink = WriterSink::new(Vec::new(alloc));
    let outcome = draw_moves(
        alloc,
        Window::whole(),
        &mut ReaderSource::new(HISTORY),
        &mut sink,
    );
    let bytes = sink.into_inner();
    let is_right = match outcome {
        Ok(()) => is_picture(bytes.as_slice(), &HISTORY_WORDS),
        Err(DrawFault::File(FileFault::Write)) => history_begins_with(alloc, bytes.as_slice()),
        Err(fault) => fault == DrawFault::File(FileFault::Memory) && bytes.is_empty(),
    };
    assert!(rt; is_right);
    outcome.is_ok()
}

#[test]
fn a_refused_drawing_succeeds_when_tried_again(rt: HostRuntime) {
    assert!(rt; draws_script(&rt, rt.alloc()) || draws_script(&rt, rt.alloc()));
}

#[test]
fn a_refused_drawing_of_moves_succeeds_when_tried_again(rt: HostRuntime) {
    assert!(rt; draws_history(&rt, rt.alloc()) || draws_history(&rt, rt.alloc()));
}

/// A script of so many ticks.
fn ticks(alloc: Global, count: usize) -> Result<Vec<u8>, Fail> {
    let mut text = Vec::from_slice(alloc, b"world 1 1\n")?;
    for _ in 0..count {
        text.extend_from_slice(b"tick 0\n")?;
    }
    Ok(text)
}

/// How many columns there are, the first that is drawn, and what comes of it.
const MANY: [(usize, u32, Result<(), DrawFault>); 4] = [
    (20_000, 1, Ok(())),
    (20_001, 1, Err(DrawFault::TooManyColumns)),
    (20_001, 2, Ok(())),
    (20_002, 2, Err(DrawFault::TooManyColumns)),
];

#[test]
fn twenty_thousand_columns_and_one_more(rt: HostRuntime) -> Result<(), Fail> {
    let alloc = rt.alloc();
    for (count, first, ending) in MANY {
        let text = ticks(alloc, count)?;
        let mut sink = WriterSink::new(Vec::new(alloc));
        let mut source = ReaderSource::new(text.as_slice());
        let window = Window { first, last: None };
        let outcome = draw_script(alloc, window, &mut source, &mut sink);
        assert!(rt; outcome == ending && sink.into_inner().is_empty() == outcome.is_err());
    }
    Ok(())
}

#[test]
fn a_history_that_is_no_run_is_not_drawn(rt: HostRuntime) {
    let alloc = rt.alloc();
    let mut sink = WriterSink::new(Vec::new(alloc));
    let mut source = ReaderSource::new(LOCKS_TWICE);
    let outcome = draw_moves(alloc, Window::whole(), &mut source, &mut sink);
    assert!(rt; outcome == Err(DrawFault::File(FileFault::Broken(5))));
    assert!(rt; sink.into_inner().is_empty());
}

/// A script of which a step is refused, and then another.
const REFUSED: &[u8] = b"world 1 1\nattach x\ngo x\nattach y\n";

/// Texts that are drawn or not: the window, what comes of it, and words that the picture has.
const WINDOWS: [(&[u8], u32, Option<u32>, Result<(), DrawFault>, &[&str]); 8] = [
    (
        REFUSED,
        1,
        None,
        Ok(()),
        &[
            "<title>go x is refused: NotCalling, column 2</title>",
            "<title>attach y is refused: NoIndex, column 3</title>",
        ],
    ),
    (
        SCRIPT,
        2,
        Some(3),
        Ok(()),
        &[
            "<title>x calls enter a, column 2</title>",
            "<title>x wants enter a, columns 2 to 3</title>",
            "<title>a has word 000000A5 free, columns 2 to 3</title>",
        ],
    ),
    (
        SCRIPT,
        4,
        None,
        Ok(()),
        &[
            "<title>x returns with Entered, column 4</title>",
            "<title>a has word 000100A5 thin, columns 4 to 4</title>",
        ],
    ),
    (SCRIPT, 1, Some(40), Ok(()), &SCRIPT_WORDS),
    (SCRIPT, 3, Some(2), Ok(()), &[]),
    (SCRIPT, 5, None, Err(DrawFault::NoSuchColumn(5)), &[]),
    (b"world 1 1\n", 1, None, Ok(()), &[]),
    (
        b"world 1 1\n",
        2,
        Some(9),
        Err(DrawFault::NoSuchColumn(2)),
        &[],
    ),
];

#[test]
fn windows_of_scripts(rt: HostRuntime) {
    for (text, first, last, ending, words) in WINDOWS {
        let mut sink = WriterSink::new(Vec::new(rt.alloc()));
        let window = Window { first, last };
        let outcome = draw_script(rt.alloc(), window, &mut ReaderSource::new(text), &mut sink);
        let bytes = sink.into_inner();
        let is_right = match outcome {
            Ok(()) => is_picture(bytes.as_slice(), words),
            Err(_) => bytes.is_empty(),
        };
        assert!(rt; outcome == ending && is_right, "from {first}");
    }
}

/// The same of the history: four columns.
const HISTORY_WINDOWS: [(u32, Option<u32>, Result<(), DrawFault>, &[&str]); 4] = [
    (
        3,
        Some(3),
        Ok(()),
        &["<title>thread 0 owns object 0 x1, columns 3 to 3</title>"],
    ),
    (
        4,
        None,
        Ok(()),
        &["<title>thread 0 returns with Entered, column 4</title>"],
    ),
    (1, None, Ok(()), &HISTORY_WORDS),
    (5, None, Err(DrawFault::NoSuchColumn(5)), &[]),
];

#[test]
fn windows_of_histories(rt: HostRuntime) {
    for (first, last, ending, words) in HISTORY_WINDOWS {
        let mut sink = WriterSink::new(Vec::new(rt.alloc()));
        let window = Window { first, last };
        let outcome = draw_moves(
            rt.alloc(),
            window,
            &mut ReaderSource::new(HISTORY),
            &mut sink,
        );
        let bytes = sink.into_inner();
        let is_right = match outcome {
            Ok(()) => is_picture(bytes.as_slice(), words),
            Err(_) => bytes.is_empty(),
        };
        assert!(rt; outcome == ending && is_right, "from {first}");
    }
}
