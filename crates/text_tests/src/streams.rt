//! What no script shows: readers and writers that fail.

use super::memory::tells_moves;
use super::pieces::{FullWriter, PiecesReader, Then};
use history::{FileFault, ReaderSource, WriterSink, run};
use std::alloc::Global;
use std::io;
use std::io::Read;
use std::process::Abort;
use std::test::Fail;

pub(crate) const SCRIPT: &[u8] = b"world 4 4\nobject a A5\nattach x\nbegin x enter a\ngo x\ngo x\n";

pub(crate) const REPORT: &[u8] =
    b"attach x index 1\nbegin x\ngo x load a 000000A5\ngo x won a 000000A5 000100A5 = Entered\nobject a 000100A5 owner x holds 1 waiting -\n";

pub(crate) const HISTORY: &[u8] = b"{\"objects\":1}
{\"move\":\"Attach\",\"thread\":0}
{\"call\":\"Enter\",\"move\":\"Call\",\"object\":0,\"thread\":0}
{\"move\":\"Lock\",\"thread\":0}
{\"move\":\"Return\",\"reply\":\"Entered\",\"thread\":0}
";

/// Gives bytes without end.
#[derive(Drop)]
struct EndlessReader;

impl Read for EndlessReader {
    fn read(&mut self, buf: &mut [u8]) -> io::Result<usize> {
        Ok(buf.len())
    }
}

/// Whether a run of what a reader gives ends so, and writes this text.
fn ends_so<R: Read + Drop>(
    alloc: Global,
    reader: R,
    ending: Result<(), FileFault>,
    text: &[u8],
) -> bool {
    let mut sink = WriterSink::new(Vec::new(alloc));
    let outcome = run(alloc, &mut ReaderSource::new(reader), &mut sink);
    outcome == ending && sink.into_inner().as_slice() == text
}

#[test]
fn readers_that_fail(rt: HostRuntime) {
    let fault = Err(FileFault::Read);
    for count in 0..=SCRIPT.len() {
        let (bytes, _) = SCRIPT.split_at(count);
        let reader = PiecesReader::new(bytes, 1, Then::Fails);
        assert!(rt; ends_so(rt.alloc(), reader, fault, b""), "{count} bytes");
    }
    assert!(rt; ends_so(rt.alloc(), EndlessReader, fault, b""));
}

const AT_ONCE: [usize; 5] = [1, 2, 56, 57, 4095];

#[test]
fn readers_that_give_a_little(rt: HostRuntime) {
    for &at_once in &AT_ONCE {
        let reader = PiecesReader::new(SCRIPT, at_once, Then::Ends);
        assert!(rt;
            ends_so(rt.alloc(), reader, Ok(()), REPORT),
            "{at_once} at once"
        );
    }
}

/// Writes a report with room for so many of its bytes, which are taken.
fn assert_fills(rt: &impl Abort, alloc: Global, room: usize, is_silent: bool) {
    let mut sink = WriterSink::new(FullWriter::new(alloc, room, is_silent));
    let outcome = run(alloc, &mut ReaderSource::new(SCRIPT), &mut sink);
    let wanted = if room == REPORT.len() {
        Ok(())
    } else {
        Err(FileFault::Write)
    };
    let writer = sink.into_inner();
    let is_front = writer.taken.len() == room && REPORT.starts_with(writer.taken.as_slice());
    assert!(rt;
        outcome == wanted && is_front,
        "{room} bytes, silent: {is_silent}"
    );
}

#[test]
fn writers_that_fail(rt: HostRuntime) {
    for room in 0..=REPORT.len() {
        assert_fills(&rt, rt.alloc(), room, false);
        assert_fills(&rt, rt.alloc(), room, true);
    }
}

#[test]
fn the_moves_of_a_script(rt: HostRuntime) {
    assert!(rt; tells_moves(&rt, rt.alloc()));
}

const FAULTS: [(FileFault, &str); 6] = [
    (FileFault::BadLine(7), "bad line 7"),
    (FileFault::BadMove(7), "bad move 7"),
    (FileFault::Broken(5), "broken at 5"),
    (FileFault::Read, "read failed"),
    (FileFault::Write, "write failed"),
    (FileFault::Memory, "out of memory"),
];

#[test]
fn texts_of_faults(rt: HostRuntime) -> Result<(), Fail> {
    for (fault, text) in FAULTS {
        let told = format!(in rt.alloc(); "{fault}")?;
        assert!(rt; told.as_str() == text, "{told}");
    }
    Ok(())
}
