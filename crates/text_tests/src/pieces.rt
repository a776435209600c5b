//! A reader that gives a little at a time, and a writer that takes a little at a time; both note
//! whether they failed.

ghost use Rattle.std.specs.Prelude.{◌≤◌, length};

use std::alloc::Global;
use std::io;
use std::io::{ErrorKind, Read, Write};

/// Gives some bytes, so many at a time, and then ends, fails, or goes on with spaces for ever.
#[derive(Drop)]
pub(crate) struct PiecesReader<'a> {
    bytes: &'a [u8],
    at_once: usize,
    then: Then,
    /// How many bytes it gave.
    pub(crate) given: u64,
    pub(crate) has_failed: bool,
}

#[derive(Clone, Copy)]
pub(crate) enum Then {
    Ends,
    /// Tells its end once, and fails where it is asked once more.
    EndsOnce,
    Fails,
    GoesOn,
}

impl<'a> PiecesReader<'a> {
    pub(crate) fn new(bytes: &'a [u8], at_once: usize, then: Then) -> Self {
        PiecesReader {
            bytes,
            at_once,
            then,
            given: 0,
            has_failed: false,
        }
    }

    /// Gives some of the bytes that are left.
    fn give(&mut self, buf: &mut [u8]) -> usize
        ensures bound { result ≤ length buf.new }
    {
        let count = self.at_once.min(buf.len()).min(self.bytes.len());
        let (front, rest) = self.bytes.split_at(count);
        let (room, _) = buf.split_at_mut(count);
        room.copy_from_slice(front);
        self.bytes = rest;
        count
    }
}

impl<'a> Read for PiecesReader<'a> {
    fn read(&mut self, buf: &mut [u8]) -> io::Result<usize> {
        let count = match self.then {
            Then::Fails if self.bytes.is_empty() => {
                self.has_failed = true;
                return Err(io::Error::from(ErrorKind::UnexpectedEof));
            }
            Then::EndsOnce if self.bytes.is_empty() => {
                self.then = Then::Fails;
                0
            }
            Then::GoesOn if self.bytes.is_empty() => {
                buf.fill(b' ');
                buf.len()
            }
            _ => self.give(buf),
        };
        self.given = self.given.saturating_add(count as u64);
        Ok(count)
    }
}

/// Takes a byte at a time, until it has no more room.
#[derive(Drop)]
pub(crate) struct FullWriter {
    pub(crate) taken: Vec<u8>,
    room: usize,
    // Whether it answers with no byte, and not with an error, where it has no room.
    is_silent: bool,
    pub(crate) has_failed: bool,
}

impl FullWriter {
    pub(crate) fn new(alloc: Global, room: usize, is_silent: bool) -> Self {
        FullWriter {
            taken: Vec::new(alloc),
            room,
            is_silent,
            has_failed: false,
        }
    }
}

impl Write for FullWriter {
    fn write(&mut self, buf: &[u8]) -> io::Result<usize> {
        if self.taken.len() >= self.room {
            self.has_failed = true;
            return if self.is_silent {
                Ok(0)
            } else {
                Err(io::Error::from(ErrorKind::StorageFull))
            };
        }
        let Some(first) = buf.first() else {
            return Ok(0);
        };
        self.taken.push(*first)?;
        Ok(1)
    }

    fn flush(&mut self) -> io::Result<()> {
        Ok(())
    }
}
