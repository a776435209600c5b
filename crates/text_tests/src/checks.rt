//! Checks of histories: `history_check`.

mod histories;
mod readers;

use history_check::{FileFault, ReaderSource, WriterSink, replay};
use std::alloc::Global;
use std::io::Read;
use std::process::Abort;

/// A thread is attached and enters an object.
const ENTERS: &[u8] = b"{\"objects\":1}
{\"move\":\"Attach\",\"thread\":0}
{\"call\":\"Enter\",\"move\":\"Call\",\"object\":0,\"thread\":0}
{\"move\":\"Lock\",\"thread\":0}
{\"move\":\"Return\",\"reply\":\"Entered\",\"thread\":0}
";

/// The same, but it locks twice: line 5 is not lawful, and line 7 is no line of a history.
pub(crate) const LOCKS_TWICE: &[u8] = b"{\"objects\":1}
{\"move\":\"Attach\",\"thread\":0}
{\"call\":\"Enter\",\"move\":\"Call\",\"object\":0,\"thread\":0}
{\"move\":\"Lock\",\"thread\":0}
{\"move\":\"Lock\",\"thread\":0}
{\"move\":\"Return\",\"reply\":\"Entered\",\"thread\":0}
{\"move\":\"Unlock\"}
";

/// What is written of a history, or why nothing is.
fn check_of<R: Read + Drop>(alloc: Global, reader: R) -> Result<Vec<u8>, FileFault> {
    let mut sink = WriterSink::new(Vec::new(alloc));
    replay(alloc, &mut ReaderSource::new(reader), &mut sink)?;
    Ok(sink.into_inner())
}

/// This is what is written of a history.
fn assert_tells<R: Read + Drop>(
    rt: &impl Abort,
    alloc: Global,
    reader: R,
    text: &[u8],
) -> Result<(), FileFault> {
    let told = check_of(alloc, reader)?;
    assert!(rt; told.as_slice() == text);
    Ok(())
}

fn fault_of<R: Read + Drop>(alloc: Global, reader: R) -> Option<FileFault> {
    check_of(alloc, reader).err()
}
