//! Tests of the live service, a module for each crate.
#![tactic(auto)]

#[cfg(test)]
mod threads;
#[cfg(test)]
mod turns;
