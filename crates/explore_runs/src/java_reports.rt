//! The report of a program that was explored on the Java machine.

ghost use Rattle.std.specs.Prelude.{◌≡◌, ◌<◌, ◌++◌, All, IfOk, OnOk, length, string_bytes};
ghost use Rattle.indexmap.specs.IndexMap.{index_map_len};
ghost use Rattle.explore_java.specs.JavaFound.{FindsAll, IsAt, end_at};
ghost use Rattle.explore_java.specs.JavaStates.{JavaProgramState};
ghost use Rattle.explore_runs.specs.JavaOutcomes.{IsJavaOutcome};
ghost use Rattle.explore_runs.specs.JavaReports.{AreJavaTallied, IsJavaReport, java_history};
ghost use Rattle.explore_runs.specs.JavaReports.{java_part, java_parts};
ghost use Rattle.explore_runs.specs.Tallies.{outcome_tallies};

use crate::histories::{attaches_of, put_history};
use crate::java_outcomes::java_outcome_of;
use crate::reports::{put_counts, put_head};
use crate::tallies::{Tally, count_end};
use explore::Program;
use explore_java::{JavaFound, replay};
use indexmap::IndexMap;
use lock_word::Memory;
use program_text::NamedProgram;
use std::alloc::Global;

/// The report of a program of which all states on the Java machine were found: how many states and
/// steps there are, and then each outcome, with how many states end so, and the history that leads
/// to the first of them.
pub fn java_report_of(
    alloc: Global,
    named: &NamedProgram,
    found: &JavaFound,
) -> Result<Vec<u8>, Memory>
    requires { FindsAll named.now.program found.now }
    ensures { IfOk result (λ text.
        IsJavaReport named.now.names named.now.program found.now text.items) }
{
    let tallies = java_tallies_of(alloc, named, found)?;
    let mut report = Vec::new(alloc);
    put_counts(alloc, &mut report, found.states(), found.steps())?;
    put_java_outcomes(alloc, &mut report, &named.program, found, &tallies)?;
    Ok(report)
}

/// The outcomes that the ends have come to, in the order in which each comes first.
fn java_tallies_of(
    alloc: Global,
    named: &NamedProgram,
    found: &JavaFound,
) -> Result<IndexMap<String, Tally>, Memory>
    requires { FindsAll named.now.program found.now }
    ensures { IfOk result (λ tallies. AreJavaTallied named.now.names named.now.program found.now
        (outcome_tallies tallies.entries)) }
{
    let mut tallies = IndexMap::new(alloc);
    'ends: for at in 0..found.ends().len() {
        let text = java_text_of(alloc, named, found, java_end_in(&named.program, found, at))?;
        count_end(&mut tallies, text, at)?;
    }
    Ok(tallies)
}

/// The text of the state with a number.
fn java_text_of(
    alloc: Global,
    named: &NamedProgram,
    found: &JavaFound,
    number: u32,
) -> Result<String, Memory>
    requires all { FindsAll named.now.program found.now }
    requires there { number < length found.now.witnesses }
    ensures { IfOk result (λ text. (s : JavaProgramState)
        × IsAt named.now.program found.now.witnesses number s
        × IsJavaOutcome named.now.names named.now.program s (string_bytes text)) }
{
    let moves = found.witness(alloc, number)?;
    let state = replay(alloc, &named.program, &moves)?;
    java_outcome_of(alloc, &named.names, &named.program, &state)
}

/// Writes each outcome, in the order in which they come first.
fn put_java_outcomes(
    alloc: Global,
    report: &mut Vec<u8>,
    program: &Program,
    found: &JavaFound,
    tallies: &IndexMap<String, Tally>,
) -> Result<(), Memory>
    requires all { FindsAll program.now found.now }
    requires first { All (λ tally. tally.first < length found.now.ends)
        (outcome_tallies tallies.now.entries) }
    ensures { OnOk result (report.new.items ≡ report.old.items ++ java_parts program.now found.now
        (outcome_tallies tallies.now.entries) (index_map_len tallies.now)) }
{
    'outcomes: for at in 0..tallies.len() {
        match tallies.get_index(at) {
            Some((text, tally)) => {
                put_java_part(alloc, report, program, found, at + 1, text.as_str(), *tally)?
            }
            None => unreachable!(),
        }
    }
    Ok(())
}

/// Writes an outcome, with its number.
fn put_java_part(
    alloc: Global,
    report: &mut Vec<u8>,
    program: &Program,
    found: &JavaFound,
    number: usize,
    text: &str,
    tally: Tally,
) -> Result<(), Memory>
    requires all { FindsAll program.now found.now }
    requires there { tally.first < length found.now.ends }
    ensures { OnOk result (report.new.items ≡ report.old.items ++ java_part program.now found.now
        number (record { text = text.now; first = tally.first; ends = tally.ends })) }
{
    put_head(alloc, report, number, tally.ends)?;
    report.extend_from_slice(text.as_bytes())?;
    put_java_history(alloc, report, program, found, tally.first)
}

/// Writes the history that leads to an end.
fn put_java_history(
    alloc: Global,
    report: &mut Vec<u8>,
    program: &Program,
    found: &JavaFound,
    at: usize,
) -> Result<(), Memory>
    requires all { FindsAll program.now found.now }
    requires there { at < length found.now.ends }
    ensures { OnOk result (report.new.items
        ≡ report.old.items ++ java_history program.now found.now at) }
{
    let mut moves = attaches_of(alloc, program)?;
    let made = found.witness(alloc, java_end_in(program, found, at))?;
    moves.extend_from_slice(&made)?;
    put_history(alloc, report, program.lows.len() as u16, &moves)
}

/// The state that is an end with this number among the ends.
fn java_end_in(program: &Program, found: &JavaFound, at: usize) -> u32
    requires all { FindsAll program.now found.now }
    requires at { at < length found.now.ends }
    ensures end { result ≡ end_at found.now at }
    ensures there { result < length found.now.witnesses }
{
    found.ends()[at]
}
