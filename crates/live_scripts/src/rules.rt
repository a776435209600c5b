//! Which lines of a script may run.

ghost use Rattle.std.specs.Prelude.{◌≡◌, ◌==◌, ◌++◌, [], IfOk, OnOk, if◌then◌else◌, map};
ghost use Rattle.script_text.specs.Names.{is_named};
ghost use Rattle.live_scripts.specs.Rules.{attached_in, indices_of, is_live_call};
ghost use Rattle.live_scripts.specs.Rules.{is_wide, may_do, may_run_with};
ghost use Rattle.live_scripts.specs.Running.{IsRunning};

use lock_word::Split;
use script_text::{Call, Line, Name, StepLine};
use std::alloc::AllocError;

/// The most threads of a live script: a service has at most so many passes.
const MOST_THREADS: usize = 64;

fn is_attached(threads: &[&str], name: &Name<'_>) -> bool
    ensures { result ≡ is_named (map (λ t. t.now) threads.now) name.now }
{
    threads.contains(&name.as_str())
}

fn is_live_call(call: &Call<'_>) -> bool
    ensures { result ≡ is_live_call call.now }
{
    !matches!(call, Call::End)
}

fn may_do(most: u16, threads: &[&str], line: &StepLine<'_>) -> bool
    ensures { result ≡ may_do most (map (λ t. t.now) threads.now) line.now }
{
    match line {
        StepLine::Attach(thread) => {
            !is_attached(threads, thread)
                && threads.len() < usize::from(most)
                && threads.len() < MOST_THREADS
        }
        StepLine::Begin { thread, call } => is_attached(threads, thread) && is_live_call(call),
        StepLine::Go(_)
        | StepLine::Expire(_)
        | StepLine::Spurious(_)
        | StepLine::Tick(_)
        | StepLine::Relayout(_) => false,
    }
}

fn may_run(most: u16, threads: &[&str], line: &Line<'_>) -> bool
    ensures { result ≡ may_run_with most (map (λ t. t.now) threads.now) line.now }
{
    match line {
        Line::World { split, .. } => matches!(split, Split::Wide),
        Line::Object { .. } => true,
        Line::Step(step) => may_do(most, threads, step),
    }
}

/// How many threads the world of this line may have.
fn indices_of(line: &Line<'_>) -> u16
    ensures { result ≡ indices_of line.now }
{
    match line {
        Line::World { indices, .. } => *indices,
        Line::Object { .. } | Line::Step(_) => 0,
    }
}

/// How many threads there may be behind this line and `count` lines before it.
fn most_after(count: usize, most: u16, line: &Line<'_>) -> u16
    ensures { result ≡ (if count == 0 then indices_of line.now else most) }
{
    if count == 0 { indices_of(line) } else { most }
}

/// Notes the thread that a line attaches.
pub(crate) fn note<'a>(threads: &mut Vec<&'a str>, line: &Line<'a>) -> Result<(), AllocError>
    ensures { OnOk result (map (λ t. t.now) threads.new.items
        ≡ map (λ t. t.now) threads.old.items ++ attached_in line.now) }
{
    match line {
        Line::Step(StepLine::Attach(thread)) => {
            threads.push(thread.as_str())?;
            Ok(())
        }
        _ => Ok(()),
    }
}

/// Counts the lines of a script that may run, up to the first that may not, and notes the threads
/// that they attach.
pub(crate) fn running_lines<'a>(
    lines: &[Line<'a>],
    threads: &mut Vec<&'a str>,
) -> Result<usize, AllocError>
    requires { threads.old.items ≡ [] }
    ensures { IfOk result (λ n. IsRunning lines.now n (map (λ t. t.now) threads.new.items)) }
{
    let mut most = 0;
    let mut count = 0;
    'lines: for line in lines {
        if !may_run(most, threads, line) {
            return Ok(count);
        }
        note(threads, line)?;
        most = most_after(count, most, line);
        count += 1;
    }
    Ok(count)
}
