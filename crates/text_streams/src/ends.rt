//! Where bytes come from and where they go: readers and writers that tell whether they have failed.

ghost use Rattle.std.specs.Prelude.{◌≡◌, ◌+◌, ◌<◌, ◌≤◌, ◌^◌, ℕ, List, Option, length, take, IsTrue};
ghost use Rattle.std.specs.Prelude.{MatchOption, Some, None, false};
ghost use Rattle.std.specs.Io.KnownBytes.{Keeps, Appends, Consumes, IsAtEnd};

use std::io::{Read, Write};

/// What gives bytes, and tells where it fails.
pub trait Source {
    // The bytes that are left, where they are known.
    ghost left: { Self → Option (List ℕ) };

    ghost has_failed: { Self → Type 0 };

    // How many bytes it gave.
    ghost given: { Self → ℕ };

    /// Fills the front of a chunk with the next bytes and says how many: 0 at the end, None where
    /// the source fails, which takes none of the bytes that are left.
    fn fill(&mut self, chunk: &mut [u8]) -> Option<usize>
        requires { given self.old + length chunk.old < 2 ^ 64 }
        ensures cases { MatchOption result
            (has_failed self.new × Keeps (left self.old) (left self.new)
            × (given self.new ≡ given self.old))
            (λ n. (n ≤ length chunk.new)
            × (given self.new ≡ given self.old + n)
            × Consumes (left self.old) (left self.new) (take n chunk.new)
            × (n ≡ 0 → 0 < length chunk.new → IsAtEnd (left self.new))
            × (has_failed self.new → has_failed self.old)) };
}

/// What takes bytes, and tells where it fails.
pub trait Sink {
    // The bytes that it holds, where they are known.
    ghost holds: { Self → Option (List ℕ) };

    ghost has_failed: { Self → Type 0 };

    /// Takes some bytes, from the front, and says how many; None where the sink fails.
    fn put(&mut self, bytes: &[u8]) -> Option<usize>
        requires { 0 < length bytes.now }
        ensures cases { MatchOption result
            (has_failed self.new × Keeps (holds self.old) (holds self.new))
            (λ n. (0 < n) × (n ≤ length bytes.now)
            × Appends (holds self.old) (holds self.new) (take n bytes.now)
            × (has_failed self.new → has_failed self.old)) };
}

/// A reader that notes whether it has failed, and how many bytes it gave.
#[derive(Drop)]
pub struct ReaderSource<R> {
    reader: R,
    failed: bool,
    given: u64,
}

impl<R> ReaderSource<R> {
    /// A reader that gave nothing yet.
    pub fn new(reader: R) -> ReaderSource<R>
        ensures { result ≡ record { reader = reader; failed = false; given = 0 } }
    {
        ReaderSource {
            reader,
            failed: false,
            given: 0,
        }
    }
}

impl<R: Read> Source for ReaderSource<R> {
    ghost left = { λ source. R.remaining source.reader };

    ghost has_failed = { λ source. IsTrue source.failed };

    ghost given = { λ source. source.given };

    fn fill(&mut self, chunk: &mut [u8]) -> Option<usize> {
        match self.reader.read(chunk) {
            Ok(count) => {
                self.given += count as u64;
                Some(count)
            }
            Err(_) => {
                self.failed = true;
                None
            }
        }
    }
}

/// A writer that notes whether it has failed. One that takes no byte of some has failed.
#[derive(Drop)]
pub struct WriterSink<W> {
    writer: W,
    failed: bool,
}

impl<W> WriterSink<W> {
    /// A writer that took nothing yet.
    pub fn new(writer: W) -> WriterSink<W>
        ensures { result ≡ record { writer = writer; failed = false } }
    {
        WriterSink {
            writer,
            failed: false,
        }
    }

    /// The writer.
    pub fn into_inner(self) -> W
        ensures { result ≡ self.writer }
    {
        self.writer
    }
}

impl<W: Write> Sink for WriterSink<W> {
    ghost holds = { λ sink. W.contents sink.writer };

    ghost has_failed = { λ sink. IsTrue sink.failed };

    fn put(&mut self, bytes: &[u8]) -> Option<usize> {
        match self.writer.write(bytes) {
            Ok(0) => {
                self.failed = true;
                None
            }
            Ok(count) => Some(count),
            Err(_) => {
                self.failed = true;
                None
            }
        }
    }
}
