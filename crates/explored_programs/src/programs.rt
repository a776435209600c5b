//! A program to be explored, made of the table.

use crate::classics::Classic;
use crate::trouble::Trouble;
use explore::{Program, are_in_order};
use lock_word::Split;
use std::alloc::Global;
use step_core::Call;

/// How many threads may be live at once.
const INDICES: u16 = 4;

/// The program of a row of the table.
pub(crate) fn program_of(alloc: Global, classic: &Classic) -> Result<Program, Trouble> {
    let lows = Vec::from_slice(alloc, classic.lows)?;
    let moments = Vec::from_slice(alloc, classic.moments)?;
    let mut calls = Vec::new(alloc);
    let mut starts = Vec::new(alloc);
    for thread in classic.threads {
        starts.push(calls.len())?;
        push_calls(&mut calls, thread)?;
    }
    let is_small = lows.len() <= 65_535
        && classic.monitors <= 8_388_608
        && starts.len() <= usize::from(INDICES)
        && calls.len() <= 1024
        && moments.len() <= 1_048_576
        && are_in_order(&starts, calls.len());
    if !is_small {
        return Err(Trouble::TooLarge);
    }
    Ok(Program {
        lows,
        monitors: classic.monitors,
        indices: INDICES,
        split: Split::Wide,
        calls,
        starts,
        moments,
        spurious: classic.spurious,
    })
}

/// Puts the calls of a thread behind those that are there, each as often as it is made.
fn push_calls(calls: &mut Vec<Call>, thread: &[(Call, u16)]) -> Result<(), Trouble> {
    for (call, times) in thread {
        for _ in 0..*times {
            calls.push(*call)?;
        }
    }
    Ok(())
}
