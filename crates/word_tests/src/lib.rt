//! Tests of the shared header words, of the book behind their gate, and of what is kept for a
//! program in C, a module for each crate.
#![tactic(auto)]

#[cfg(test)]
mod book;
#[cfg(test)]
mod headers;
mod ledger;
mod names;
#[cfg(test)]
mod slots;
