//! Running a script: from a reader's bytes to a writer's report.

ghost use Rattle.std.specs.Prelude.{◌≡◌, ◌+◌, ◌<◌, ◌≤◌, ◌⊎◌, [], ℕ, List, length, take, IsErrOf};
ghost use Rattle.std.specs.Prelude.{string_bytes};
ghost use Rattle.std.specs.Prelude.{IfSome, OnOk, OnErr, IfOk, IfErr, Err};
ghost use Rattle.std.specs.Io.KnownBytes.{Keeps, Appends};
ghost use Rattle.script_text.specs.Lines.{IsFirstBad};
ghost use Rattle.script_text.specs.Positions.{HasCome};
ghost use Rattle.script_text.specs.Scripts.{IsReasonFor, IsScriptText};
ghost use Rattle.history.specs.PlanSoFar.{IsPlanSoFar};
ghost use Rattle.history.specs.Plans.{IsPlanOf};
ghost use Rattle.history.specs.Reports.{IsReportOf};
ghost use Rattle.history.specs.declared.plans.Plan.{Plan as PlanData};
ghost use Rattle.text_streams.specs.declared.faults.FileFault.TheVariants.{BadLine, BadMove};
ghost use Rattle.text_streams.specs.declared.faults.FileFault.TheVariants.{Broken};
ghost use Rattle.text_streams.specs.declared.faults.FileFault.TheVariants.{Read as ReadFault};
ghost use Rattle.text_streams.specs.declared.faults.FileFault.TheVariants.{Write as WriteFault};
ghost use Rattle.text_streams.specs.declared.faults.FileFault.TheVariants.{Memory};

use crate::names::Names;
use crate::plans::Plan;
use crate::reports::report_of;
use script_text::{Line, MOST_BYTES, ScriptReader, read_script};
use std::alloc::Global;
use std::simd::prelude::*;
use text_streams::{FileFault, Sink, Source, write_out};

/// How many bytes are read at once.
const CHUNK: usize = 4096;

/// With more threads than this the lines behind are checked before the names of more are kept, so
/// that a script with a bad line costs little more than it takes to find that line.
const FEW_THREADS: u32 = 4096;

/// How many bytes the shortest line of a step has, with its line feed: a `go` and a name of a
/// letter.
const SHORTEST_STEP: usize = 5;

/// How many blocks of bytes a lane of eight bits can count.
const MOST_BLOCKS: usize = 255;

/// Reads a script to its end, plays it, and writes its report.
///
/// The whole script is read and played before the first byte of the report is written.
pub fn run<S: Source, W: Sink>(alloc: Global, source: &mut S, sink: &mut W) -> Result<(), FileFault>
    requires { S.given source.old ≡ 0 }
    // At Ok, neither end has failed in the run, the bytes were the text of a script within its
    // limit, and the whole of its report was written.
    ensures written { OnOk result ((plan : PlanData) × IfSome (S.left source.old) (IsPlanOf plan)
        × (report : List ℕ) × IsReportOf plan report
        × Appends (W.holds sink.old) (W.holds sink.new) report) }
    ensures read_whole { OnOk result (S.has_failed source.new → S.has_failed source.old) }
    ensures written_whole { OnOk result (W.has_failed sink.new → W.has_failed sink.old) }
    ensures a_script { OnOk result (IfSome (S.left source.old) IsScriptText) }
    ensures within { OnOk result (IfSome (S.left source.old) (λ input. length input ≤ MOST_BYTES)) }

    // Else a fault tells its cause, and only where writing failed was something written: the front
    // of the report.
    ensures bad_line { (line : ℕ) → result ≡ Err (BadLine line)
        → IfSome (S.left source.old) (λ input. IsFirstBad input line) }
    ensures read { IsErrOf result ReadFault
        → S.has_failed source.new ⊎ MOST_BYTES < S.given source.new }
    ensures write { IsErrOf result WriteFault → W.has_failed sink.new }
    ensures cut { IsErrOf result WriteFault → (plan : PlanData)
        × IfSome (S.left source.old) (IsPlanOf plan)
        × (report : List ℕ) × IsReportOf plan report
        × (n : ℕ) × Appends (W.holds sink.old) (W.holds sink.new) (take n report) }
    ensures unwritten { IfErr result (λ fault.
        (fault ≡ WriteFault) ⊎ Keeps (W.holds sink.old) (W.holds sink.new)) }
    // But for a failed read and want of memory, a fault comes only once the text was read whole.
    ensures read_first { IfErr result (λ fault. (fault ≡ ReadFault) ⊎ (fault ≡ FileFault.Memory)
        ⊎ ((S.has_failed source.new → S.has_failed source.old)
        × IfSome (S.left source.old) (λ input. length input ≤ MOST_BYTES))) }
    // No fault is one of a history.
    ensures kinds { (line : ℕ) → (result ≡ Err (BadMove line) ⊎ result ≡ Err (Broken line)) → ⊥ }
{
    let bytes = read_all(alloc, source)?;
    let report = report_in(alloc, bytes)?;
    write_out(sink, report.as_bytes())
}

/// The report of the script that some bytes are the text of. The bytes are given back before it is
/// played.
fn report_in(alloc: Global, bytes: Vec<u8>) -> Result<String, FileFault>
    ensures a_script { OnOk result (IsScriptText bytes.items) }
    ensures report { IfOk result (λ report. (plan : PlanData) × IsPlanOf plan bytes.items
        × IsReportOf plan (string_bytes report)) }
    ensures fault { IfErr result (IsReasonFor bytes.items) }
{
    let plan = plan_in(alloc, &bytes)?;
    drop(bytes);
    let report = report_of(alloc, &plan)?;
    Ok(report)
}

/// What the script plays that some bytes are the text of: its world, and its steps with numbers for
/// names. Else a fault tells why there is none.
pub fn plan_in(alloc: Global, bytes: &[u8]) -> Result<Plan, FileFault>
    ensures a_script { OnOk result (IsScriptText bytes.now) }
    ensures a_plan { IfOk result (λ plan. IsPlanOf plan bytes.now) }
    ensures too_long { MOST_BYTES < length bytes.now → result ≡ Err FileFault.Read }
    ensures fault { IfErr result (IsReasonFor bytes.now) }
{
    match plan_as_read(alloc, bytes) {
        Err(FileFault::Memory) => Err(fault_in_want(alloc, bytes)),
        answer => answer,
    }
}

/// The fault of a script for whose plan memory ran short: a bad line comes before want of memory.
/// The plan is given back by now, so there is memory for reading the lines.
fn fault_in_want(alloc: Global, bytes: &[u8]) -> FileFault
    ensures { IsReasonFor bytes.now result }
{
    match read_script(alloc, bytes) {
        Err(fault) => fault,
        Ok(_) => FileFault::Memory,
    }
}

/// What a script plays, or why there is no plan: each line is taken as it is read, and the steps
/// that most lines are take a way of their own.
fn plan_as_read(alloc: Global, bytes: &[u8]) -> Result<Plan, FileFault>
    ensures a_script { OnOk result (IsScriptText bytes.now) }
    ensures a_plan { IfOk result (λ plan. IsPlanOf plan bytes.now) }
    ensures too_long { MOST_BYTES < length bytes.now → result ≡ Err FileFault.Read }
    ensures fault { IfErr result (IsReasonFor bytes.now) }
{
    let mut lines = ScriptReader::new(bytes)?;
    let mut plan = first_plan(alloc, &mut lines, bytes)?;
    let mut is_checked = false;
    'lines: loop {
        if !is_checked && plan.names.thread_count() > FEW_THREADS {
            lines.check_rest(alloc, &plan.names)?;
            is_checked = true;
        }
        if let Some(step) = lines.next_usual() {
            plan.take_step(&step)?;
            continue;
        }
        if let Some(step) = lines.next_seldom() {
            plan.take_step_apart(&step)?;
            continue;
        }
        let Some(line) = lines.next(alloc, &plan.names)? else {
            plan.names.forget_hints();
            return Ok(plan);
        };
        plan.take_line(&line)?;
    }
}

/// How many steps a script of these bytes can have: one a line, each of five bytes or more.
fn most_steps(bytes: &[u8]) -> usize {
    line_feeds(bytes).min(bytes.len() / SHORTEST_STEP)
}

/// How many line feeds there are.
fn line_feeds(bytes: &[u8]) -> usize {
    let (blocks, rest) = bytes.as_chunks::<16>();
    let mut count = rest.iter().filter(|byte| **byte == b'\n').count();
    for some in blocks.chunks(MOST_BLOCKS) {
        count = count.wrapping_add(line_feeds_in(some));
    }
    count
}

/// How many line feeds there are in no more blocks than [`MOST_BLOCKS`]: each lane counts those at
/// its position.
fn line_feeds_in(blocks: &[[u8; 16]]) -> usize {
    let mut counts = u8x16::splat(0);
    for block in blocks {
        let found = u8x16::from_array(*block).simd_eq(u8x16::splat(b'\n'));
        counts += found.select(u8x16::splat(1), u8x16::splat(0));
    }
    usize::from(counts.cast::<u16>().reduce_sum())
}

/// The world of the first line, without objects and steps. Room is asked for as many steps as these
/// bytes can have, which are counted only where the first line is right.
fn first_plan(alloc: Global, lines: &mut ScriptReader<'_>, bytes: &[u8]) -> Result<Plan, FileFault>
    requires { HasCome lines.old.rest [] [] lines.old }
    ensures plan { IfOk result (λ plan. IsPlanSoFar lines.old.rest plan lines.new) }
    ensures fault { IfErr result (IsReasonFor lines.old.rest) }
{
    let names = Names::new(alloc);
    let Some(line) = lines.next(alloc, &names)? else {
        unreachable!()
    };
    let Line::World {
        monitors,
        indices,
        split,
    } = line
    else {
        unreachable!()
    };
    Ok(Plan::new(alloc, monitors, indices, split, most_steps(bytes)))
}

/// Reads a source to its end, which must come within the bytes that a script may have.
pub fn read_all<S: Source>(alloc: Global, source: &mut S) -> Result<Vec<u8>, FileFault>
    requires { S.given source.old ≡ 0 }
    ensures all { IfOk result (λ bytes. IfSome (S.left source.old) (λ input. bytes.items ≡ input)) }
    ensures few { IfOk result (λ bytes. length bytes.items ≤ MOST_BYTES) }
    ensures whole { OnOk result (S.has_failed source.new → S.has_failed source.old) }
    ensures fault { IfErr result (λ e. (e ≡ Memory)
        ⊎ ((e ≡ ReadFault) × (S.has_failed source.new ⊎ MOST_BYTES < S.given source.new))) }
{
    let mut bytes = Vec::new(alloc);
    let mut chunk = [0u8; CHUNK];
    'reading: while bytes.len() <= MOST_BYTES {
        let Some(count) = source.fill(&mut chunk) else {
            return Err(FileFault::Read);
        };
        if count == 0 {
            return Ok(bytes);
        }
        let (front, _) = chunk.split_at(count);
        bytes.extend_from_slice(front)?;
    }
    Err(FileFault::Read)
}
