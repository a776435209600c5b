//! Histories of scripts whose reader fails; and scripts that `run` and `dump_script` read line by
//! line, beside what `read_script` says of them.

mod names;

use super::pieces::{PiecesReader, Then};
use dump::dump_script;
use history::{FileFault, ReaderSource, WriterSink, moves, read_script, run};
use live_runs::{RunFault, run_live};
use std::alloc::Global;
use std::sync::Wait;
use std::thread::Threads;
use std::time::Clock;

/// A script, and behind it a line that is none.
const LINES: &[u8] = b"world 4 4\nobject a A5\nattach x\nbegin x enter a\ngo x\ngo x\ngo\n";

/// Whether a reader that does this behind these bytes is a failed read of a history, a report and a
/// dump, and nothing is written.
fn is_failed_read(alloc: Global, bytes: &[u8], then: Then) -> bool {
    let fault = Err(FileFault::Read);
    let mut sink = WriterSink::new(Vec::new(alloc));
    let mut source = ReaderSource::new(PiecesReader::new(bytes, 1, then));
    let history = moves(alloc, &mut source, &mut sink);
    let mut source = ReaderSource::new(PiecesReader::new(bytes, 1, then));
    let report = run(alloc, &mut source, &mut sink);
    let mut source = ReaderSource::new(PiecesReader::new(bytes, 1, then));
    let dump = dump_script(alloc, &mut source, &mut sink);
    history == fault && report == fault && dump == fault && sink.into_inner().is_empty()
}

/// Wherever the reader fails, that is the fault, also behind a bad line, and nothing is written.
#[test]
fn a_script_whose_reader_fails(rt: HostRuntime) {
    for count in 0..=LINES.len() {
        let (bytes, _) = LINES.split_at(count);
        assert!(rt;
            is_failed_read(rt.alloc(), bytes, Then::Fails),
            "{count} bytes"
        );
    }
}

/// A text that is too long is a failed read, also where its first line is bad.
#[test]
fn a_script_that_is_too_long(rt: HostRuntime) {
    assert!(rt; is_failed_read(rt.alloc(), b"go\n", Then::GoesOn));
    assert!(rt; is_failed_read(rt.alloc(), LINES, Then::GoesOn));
}

/// Whether a reader that does this behind these bytes is a failed read of a live run, and nothing
/// is written.
fn is_failed_live_read<R: Threads + Wait + Clock + Sync>(
    rt: &R,
    alloc: Global,
    bytes: &[u8],
    then: Then,
) -> bool {
    let mut source = ReaderSource::new(PiecesReader::new(bytes, 1, then));
    let mut sink = WriterSink::new(Vec::new(alloc));
    let is_read = match run_live(rt, alloc, &mut source, &mut sink) {
        Err(RunFault::File(fault)) => fault == FileFault::Read,
        _ => false,
    };
    is_read && sink.into_inner().is_empty()
}

/// Wherever the reader of a live script fails, that is the fault, also behind a bad line, and
/// nothing is written; and so where the text is too long.
#[test]
fn a_live_script_whose_reader_fails(rt: HostRuntime) {
    for count in 0..=LINES.len() {
        let (bytes, _) = LINES.split_at(count);
        assert!(rt;
            is_failed_live_read(&rt, rt.alloc(), bytes, Then::Fails),
            "{count} bytes"
        );
    }
    assert!(rt; is_failed_live_read(&rt, rt.alloc(), b"go\n", Then::GoesOn));
    assert!(rt; is_failed_live_read(&rt, rt.alloc(), LINES, Then::GoesOn));
}

/// Texts that are no script, each with a bad line of another kind or in another place, and some
/// that are one.
const TEXTS: [&[u8]; 32] = [
    b"",
    b"\n",
    b"world 4 4",
    b"world 4 4\n",
    b"object a 00\n",
    b"attach x\n",
    b"world 4 4\nworld 4 4\n",
    b"world 4 4\nobject a 00\nworld 4 4\n",
    b"world 4 4\nattach x\nworld 4 4 deep\n",
    b"world 4 4\nattach x\nobject a 00\n",
    b"world 4 4\nobject a 00\nobject a 00\n",
    b"world 4 4\nobject a 00\nobject b 00\nobject a 01\ngo",
    b"world 4 4\nobject a 00\ngo",
    b"world 4 4\nobject a 00\nattach x",
    b"world 4 4\nobject a 00\nattach x\n\n",
    b"world 4 4\nobject a 00\nattach x\nbegin x enter\n",
    b"world 4 4\nobject a 00\nattach x\r\n",
    b"world 4 4\nobject a 0\xff\nattach x\n",
    b"world 4 4\nobject a_name_of_thirty_two_bytes_here1 00\nobject a_name_of_thirty_two_bytes_here2 00\n",
    b"world 4 4\nobject a_name_of_thirty_two_bytes_here1 00\nobject a_name_of_thirty_two_bytes_here1 00\n",
    b"world 4 4\nobject a_name_of_thirty_three_bytes_is_1 00\n",
    b"world 1 1\ntick 1\ntick 2\ngo nobody\n",
    b"go x\n",
    b"world 4 4\nobject a 00\nattach x\ngo x\r\n",
    b"world 4 4\nobject a 00\nattach x\ngo x \n",
    b"world 4 4\nobject a 00\nattach x\ngo a_name_of_thirty_three_bytes_is_1\n",
    b"world 4 4\nobject a 00\nattach x\nbegin x exit a",
    b"world 4 4\nobject a 00\nattach x\nbegin x enter A\n",
    b"world 4 4\nobject a 00\nattach x\nbegin x exit a b\n",
    b"world 4 4\nobject a 00\nattach x\nbegin x enter a\nobject b 00\n",
    b"world 4 4\nobject a 00\nattach x\nbegin x wait a 0 0\nbegin x wait a 0 00\n",
    b"world 4 4\nobject a 00\nattach x\nbegin x enter a\ngo x\ngo x\nbegin x exit a\ngo x\ngo x\n",
];

/// Whether `run` finds the fault that `read_script` finds, and writes nothing where there is one.
fn is_judged_alike(alloc: Global, bytes: &[u8]) -> bool {
    let fault = read_script(alloc, bytes).err();
    let mut sink = WriterSink::new(Vec::new(alloc));
    let outcome = run(alloc, &mut ReaderSource::new(bytes), &mut sink);
    outcome.err() == fault && (fault.is_none() || sink.into_inner().is_empty())
}

/// The same of `dump_script`.
fn is_dumped_alike(alloc: Global, bytes: &[u8]) -> bool {
    let fault = read_script(alloc, bytes).err();
    let mut sink = WriterSink::new(Vec::new(alloc));
    let outcome = dump_script(alloc, &mut ReaderSource::new(bytes), &mut sink);
    outcome.err() == fault && (fault.is_none() || sink.into_inner().is_empty())
}

#[test]
fn bad_lines_of_each_kind(rt: HostRuntime) {
    for (number, text) in TEXTS.iter().enumerate() {
        assert!(rt; is_judged_alike(rt.alloc(), text), "text {number}");
        assert!(rt; is_dumped_alike(rt.alloc(), text), "text {number}, dumped");
    }
}
