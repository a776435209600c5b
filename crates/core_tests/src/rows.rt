//! Tables of rows, each with what is asked and what has to be answered.

use lock_word::Memory;
use std::process::Abort;

/// Asserts that no row of a table was answered otherwise than it says; `other` is the first that was.
pub(crate) fn expect_none(rt: &impl Abort, name: &str, other: Result<Option<usize>, Memory>) {
    match other {
        Ok(None) => {}
        Ok(Some(row)) => panic!(rt; "{name}: row {row}"),
        Err(Memory) => panic!(rt; "{name}: memory"),
    }
}
