//! Tests of the words of the command line (`words`), and of want of memory while they are read
//! (`memory`). They stand apart from those of texts, which need not wait for the whole program.
#![tactic(auto)]

#[cfg(test)]
mod memory;
#[cfg(test)]
mod words;
