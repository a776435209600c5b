//! A long run of the live service: threads of the system make calls of every kind at random, and
//! what must hold afterwards is checked from outside.
//!
//! A round opens a service of four objects with 2 to 8 threads, and closes it. All threads but one
//! are workers, which make 10,000 calls each; the last tells the moments and notifies, so that
//! every wait ends. With no argument there are 2 rounds, with 8 and 7 threads, and else as many as
//! the argument says: `rt run -- 250` makes more than 10,000,000 calls.
#![tactic(auto)]

mod accounts;
mod keeping;
mod outcomes;
mod passes;
mod plans;
mod replies;
mod rounds;
mod seeds;
mod trouble;

use outcomes::play_apart;
use std::env;
use std::io::Print;
use trouble::Trouble;

/// How many rounds there are where no argument says so.
const ROUNDS: u32 = 2;

fn main(rt: HostRuntime) -> Result<(), Trouble> {
    let alloc = rt.alloc();
    let rounds = match env::args(&rt)?.nth(1) {
        Some(text) => text.parse::<u32>()?,
        None => ROUNDS,
    };
    let mut calls = 0u64;
    for round in 0..rounds {
        calls = calls.wrapping_add(play_apart(rt, alloc, round)?);
    }
    println!(&rt; "{rounds} rounds, {calls} calls: each had a reply that such a call has")?;
    println!(&rt; "each account has one payment for each enter of its object")?;
    println!(&rt; "each record has as many deeds as the threads of its round did")?;
    Ok(())
}
