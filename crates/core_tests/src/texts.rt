//! How values are written.

use std::alloc::Global;
use std::fmt::Display;

/// Whether the value is written so.
pub(crate) fn is_written<T: Display>(alloc: Global, value: &T, text: &str) -> bool {
    match format!(in alloc; "{value}") {
        Ok(written) => written.as_str() == text,
        Err(_) => false,
    }
}
