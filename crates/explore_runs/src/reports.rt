//! The report of a program that was explored.

ghost use Rattle.std.specs.Prelude.{◌≡◌, ◌<◌, ◌++◌, ◌∷◌, [], All, IfOk, OnOk, length, string_bytes};
ghost use Rattle.explore.specs.Found.{FindsAll, IsAt, witness_at};
ghost use Rattle.explore.specs.States.{ProgramState};
ghost use Rattle.indexmap.specs.IndexMap.{index_map_len};
ghost use Rattle.explore_runs.specs.Outcomes.{IsOutcome};
ghost use Rattle.explore_runs.specs.Reports.{IsReport, counts_part, end_at};
ghost use Rattle.explore_runs.specs.Reports.{history_part, outcome_part, script_part, witness_part};
ghost use Rattle.explore_runs.specs.Tallies.{AreTallied, outcome_tallies, tally_parts};
ghost use Rattle.explore.specs.States.{played};
ghost use Rattle.std.specs.Prelude.{Some, codes, decimal};

use crate::histories::{moves_of, put_history};
use crate::outcomes::outcome_of;
use crate::scripts::put_script;
use crate::tallies::{Tally, count_end};
use explore::{Choice, Found, Program, play};
use indexmap::IndexMap;
use lock_word::Memory;
use program_text::NamedProgram;
use std::alloc::Global;

/// What stands behind an outcome: how it comes to that.
#[derive(Clone, Copy, PartialEq, Eq, Debug)]
pub enum WitnessForm {
    /// The script that leads there.
    Script,
    /// The history of the moves that this script hands out.
    History,
}

/// The report of a program of which all states were found: how many states and steps there are, and
/// then each outcome, with how many states end so, and how it comes to the first of them.
pub fn report_of(
    alloc: Global,
    named: &NamedProgram,
    found: &Found,
    form: WitnessForm,
) -> Result<Vec<u8>, Memory>
    requires { FindsAll named.now.program found.now }
    ensures { IfOk result (λ text.
        IsReport form named.now.names named.now.program found.now text.items) }
{
    let tallies = tallies_of(alloc, named, found)?;
    let mut report = Vec::new(alloc);
    put_counts(alloc, &mut report, found.states(), found.steps())?;
    put_outcomes(alloc, &mut report, named, found, form, &tallies)?;
    Ok(report)
}

/// The outcomes that the ends have come to, in the order in which each comes first.
fn tallies_of(
    alloc: Global,
    named: &NamedProgram,
    found: &Found,
) -> Result<IndexMap<String, Tally>, Memory>
    requires { FindsAll named.now.program found.now }
    ensures { IfOk result (λ tallies. AreTallied named.now.names named.now.program found.now
        (outcome_tallies tallies.entries)) }
{
    let mut tallies = IndexMap::new(alloc);
    'ends: for at in 0..found.ends().len() {
        let text = text_of(alloc, named, found, end_in(&named.program, found, at))?;
        count_end(&mut tallies, text, at)?;
    }
    Ok(tallies)
}

/// The text of the state with a number.
fn text_of(
    alloc: Global,
    named: &NamedProgram,
    found: &Found,
    number: u32,
) -> Result<String, Memory>
    requires all { FindsAll named.now.program found.now }
    requires there { number < length found.now.witnesses }
    ensures { IfOk result (λ text. (s : ProgramState)
        × IsAt named.now.program found.now.witnesses number s
        × IsOutcome named.now.names named.now.program s (string_bytes text)) }
{
    let choices = found.witness(alloc, number)?;
    match play(alloc, &named.program, &choices)? {
        Some(state) => outcome_of(alloc, &named.names, &named.program, &state),
        None => unreachable!(),
    }
}

/// Writes how many states and steps there are.
pub(crate) fn put_counts(
    alloc: Global,
    report: &mut Vec<u8>,
    states: usize,
    steps: u64,
) -> Result<(), Memory>
    ensures { OnOk result (report.new.items ≡ report.old.items ++ counts_part states steps) }
{
    let line = format!(in alloc; "states {states} steps {steps}\n")?;
    report.extend_from_slice(line.as_bytes())?;
    Ok(())
}

/// Writes each outcome, in the order in which they come first.
fn put_outcomes(
    alloc: Global,
    report: &mut Vec<u8>,
    named: &NamedProgram,
    found: &Found,
    form: WitnessForm,
    tallies: &IndexMap<String, Tally>,
) -> Result<(), Memory>
    requires all { FindsAll named.now.program found.now }
    requires first { All (λ tally. tally.first < length found.now.ends)
        (outcome_tallies tallies.now.entries) }
    ensures { OnOk result (report.new.items ≡ report.old.items ++ tally_parts form
        named.now.names named.now.program found.now (outcome_tallies tallies.now.entries)
        (index_map_len tallies.now)) }
{
    'outcomes: for at in 0..tallies.len() {
        match tallies.get_index(at) {
            Some((text, tally)) => {
                put_part(
                    alloc,
                    report,
                    named,
                    found,
                    form,
                    at + 1,
                    text.as_str(),
                    *tally,
                )?
            }
            None => unreachable!(),
        }
    }
    Ok(())
}

/// Writes an outcome, with its number.
fn put_part(
    alloc: Global,
    report: &mut Vec<u8>,
    named: &NamedProgram,
    found: &Found,
    form: WitnessForm,
    number: usize,
    text: &str,
    tally: Tally,
) -> Result<(), Memory>
    requires all { FindsAll named.now.program found.now }
    requires there { tally.first < length found.now.ends }
    ensures { OnOk result (report.new.items ≡ report.old.items ++ outcome_part form
        named.now.names named.now.program
        (witness_at found.now.witnesses (end_at found.now tally.first)) number tally.ends
        text.now) }
{
    put_head(alloc, report, number, tally.ends)?;
    report.extend_from_slice(text.as_bytes())?;
    let choices = found.witness(alloc, end_in(&named.program, found, tally.first))?;
    put_witness(alloc, report, named, form, &choices)?;
    Ok(())
}

/// Writes the number of an outcome, and how many ends have it.
pub(crate) fn put_head(
    alloc: Global,
    report: &mut Vec<u8>,
    number: usize,
    ends: usize,
) -> Result<(), Memory>
    ensures { OnOk result (report.new.items ≡ report.old.items ++ (codes "outcome "
        ++ decimal number ++ codes " ends " ++ decimal ends ++ 10 ∷ [])) }
{
    let line = format!(in alloc; "outcome {number} ends {ends}\n")?;
    report.extend_from_slice(line.as_bytes())?;
    Ok(())
}

/// Writes how it comes to the state that some choices lead to.
fn put_witness(
    alloc: Global,
    report: &mut Vec<u8>,
    named: &NamedProgram,
    form: WitnessForm,
    choices: &[Choice],
) -> Result<(), Memory>
    requires { (s : ProgramState) × (played named.now.program choices.now ≡ Some s) }
    ensures { OnOk result (report.new.items ≡ report.old.items
        ++ witness_part form named.now.names named.now.program choices.now) }
{
    match form {
        WitnessForm::Script => put_script_part(alloc, report, named, choices),
        WitnessForm::History => put_history_part(alloc, report, &named.program, choices),
    }
}

/// The state that is an end with this number among the ends.
fn end_in(program: &Program, found: &Found, at: usize) -> u32
    requires all { FindsAll program.now found.now }
    requires at { at < length found.now.ends }
    ensures end { result ≡ end_at found.now at }
    ensures there { result < length found.now.witnesses }
{
    found.ends()[at]
}

/// Writes the script that makes some choices, behind a line that says how many lines it has.
fn put_script_part(
    alloc: Global,
    report: &mut Vec<u8>,
    named: &NamedProgram,
    choices: &[Choice],
) -> Result<(), Memory>
    ensures { OnOk result (report.new.items ≡ report.old.items
        ++ script_part named.now.names named.now.program choices.now) }
{
    let program = &named.program;
    let lines = 1 + program.lows.len() + program.starts.len() + choices.len();
    let mut script = format!(in alloc; "script {lines}\n")?;
    put_script(alloc, &mut script, &named.names, program, choices)?;
    report.extend_from_slice(script.as_bytes())?;
    Ok(())
}

/// Writes the history of some choices that can be made, behind a line that says how many lines it
/// has.
fn put_history_part(
    alloc: Global,
    report: &mut Vec<u8>,
    program: &Program,
    choices: &[Choice],
) -> Result<(), Memory>
    requires { (s : ProgramState) × (played program.now choices.now ≡ Some s) }
    ensures { OnOk result (report.new.items
        ≡ report.old.items ++ history_part program.now choices.now) }
{
    match moves_of(alloc, program, choices)? {
        Some(moves) => put_history(alloc, report, program.lows.len() as u16, &moves),
        None => unreachable!(),
    }
}
