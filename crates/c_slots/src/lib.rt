//! What is kept for a program in C: a value on the heap, behind a pointer that has no type there.
//!
//! A struct that C may keep can name no type of ours that has a number of 128 bits or a cell in it,
//! so a static library has a struct of its own for each type: an erased pointer, its allocator, and
//! the value as a ghost. [`Parts`] is what such a struct is made from and taken apart into. What is
//! owned stays so: `proofs/Erased.antt` proves that once, for every such struct.
#![tactic(auto)]

mod maybe;
mod parts;

pub use maybe::MaybeParts;
pub use parts::Parts;
