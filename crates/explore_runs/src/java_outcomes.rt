//! Writing what the threads and objects of a program have come to on the Java machine.

ghost use Rattle.std.specs.Prelude.{◌≡◌, ◌<◌, ◌++◌, IfOk, OnOk, length, map, string_bytes};
ghost use Rattle.std.specs.Prelude.{vec_items};
ghost use Rattle.step_core.specs.Cycles.{AreCycles};
ghost use Rattle.step_core.specs.Machine.{is_waiting};
ghost use Rattle.jls_check.specs.MachineState.{state};
ghost use Rattle.jls_check.specs.Numbers.{AreBelow};
ghost use Rattle.explore_java.specs.JavaStates.{count_of};
ghost use Rattle.explore_runs.specs.JavaOutcomes.{IsJavaOutcome, java_object_line};
ghost use Rattle.explore_runs.specs.JavaOutcomes.{java_object_lines, java_thread_line};
ghost use Rattle.explore_runs.specs.JavaOutcomes.{java_thread_lines, java_waiters};
ghost use Rattle.explore_runs.specs.Outcomes.{doing_text};

use crate::outcomes::{interrupt_text, put_cycle_lines, put_replies, put_stuck};
use dump::cycles_along;
use explore::Program;
use explore_java::JavaState;
use history::{Names, owner_name, put_threads};
use jls_check::Machine;
use lock_word::{Memory, ObjectId, ThreadId};
use std::alloc::{AllocError, Global};
use std::fmt::Write;
use step_core::Doing;

/// The text of a state of the Java machine: a line for each thread of the program, one for each
/// object, and one for each cycle of owners.
pub fn java_outcome_of(
    alloc: Global,
    names: &Names,
    program: &Program,
    state: &JavaState,
) -> Result<String, Memory>
    requires { AreBelow (count_of program.now) state.now.machine }
    ensures { IfOk result (λ text.
        IsJavaOutcome names.now program.now state.now (string_bytes text)) }
{
    let mut text = String::new(alloc);
    put_java_thread_lines(&mut text, names, program, state)?;
    put_java_object_lines(alloc, &mut text, names, program, state.machine())?;
    let cycles = java_cycles(alloc, program, state.machine())?;
    put_cycle_lines(&mut text, names, &cycles)?;
    Ok(text)
}

/// Writes the line of each thread.
fn put_java_thread_lines(
    text: &mut String,
    names: &Names,
    program: &Program,
    state: &JavaState,
) -> Result<(), AllocError>
    ensures { OnOk result (string_bytes text.new ≡ string_bytes text.old
        ++ java_thread_lines names.now program.now state.now (length program.now.starts.items)) }
{
    'threads: for thread in 0..program.starts.len() {
        put_java_thread_line(text, names, program, state, thread)?;
    }
    Ok(())
}

/// Writes the line of a thread: its replies, where it is stuck, and whether it is interrupted.
fn put_java_thread_line(
    text: &mut String,
    names: &Names,
    program: &Program,
    state: &JavaState,
    thread: usize,
) -> Result<(), AllocError>
    requires { thread < length program.now.starts.items }
    ensures { OnOk result (string_bytes text.new
        ≡ string_bytes text.old ++ java_thread_line names.now program.now state.now thread) }
{
    let id = ThreadId(thread as u32);
    write!(text, "thread {}", names.name_of_thread(id))?;
    let start = program.starts[thread];
    let end = program.end_of(id);
    put_replies(text, state.replies(), start, end.saturating_sub(start))?;
    put_java_doing(text, names, state.machine(), id)?;
    text.push_str("\n")
}

/// Writes where a thread is stuck, and whether it is interrupted.
fn put_java_doing(
    text: &mut String,
    names: &Names,
    machine: &Machine,
    thread: ThreadId,
) -> Result<(), AllocError>
    ensures { OnOk result (string_bytes text.new
        ≡ string_bytes text.old ++ doing_text names.now ((state machine.now).thread thread)) }
{
    let Some(live) = machine.live(thread) else {
        return Ok(());
    };
    put_stuck(text, names, live.act)?;
    text.push_str(interrupt_text(live.flag))
}

/// Writes the line of each object.
fn put_java_object_lines(
    alloc: Global,
    text: &mut String,
    names: &Names,
    program: &Program,
    machine: &Machine,
) -> Result<(), AllocError>
    ensures { OnOk result (string_bytes text.new ≡ string_bytes text.old
        ++ java_object_lines names.now (state machine.now) (length program.now.starts.items)
        (length program.now.lows.items)) }
{
    'objects: for number in 0..program.lows.len() {
        let object = ObjectId(number as u32);
        let waiters = java_waiters_of(alloc, program, machine, object)?;
        put_java_object_line(text, names, machine, object, &waiters)?;
    }
    Ok(())
}

/// The threads of a program that are in the wait set of an object, by rising number.
fn java_waiters_of(
    alloc: Global,
    program: &Program,
    machine: &Machine,
    object: ObjectId,
) -> Result<Vec<ThreadId>, AllocError>
    ensures { IfOk result (λ threads. threads.items
        ≡ java_waiters (state machine.now) object (length program.now.starts.items)) }
{
    let mut waiters = Vec::new(alloc);
    'threads: for number in 0..program.starts.len() {
        let thread = ThreadId(number as u32);
        if waits_on(machine, thread, object) {
            waiters.push(thread)?;
        }
    }
    Ok(waiters)
}

/// Whether a thread is in the wait set of an object.
fn waits_on(machine: &Machine, thread: ThreadId, object: ObjectId) -> bool
    ensures { result ≡ is_waiting ((state machine.now).thread thread) object }
{
    let Some(live) = machine.live(thread) else {
        return false;
    };
    match live.act {
        Doing::Waits {
            object: awaited,
            ..
        } => awaited.0 == object.0,
        _ => false,
    }
}

/// Writes the line of an object, in whose wait set these threads are.
fn put_java_object_line(
    text: &mut String,
    names: &Names,
    machine: &Machine,
    object: ObjectId,
    waiters: &[ThreadId],
) -> Result<(), AllocError>
    ensures { OnOk result (string_bytes text.new ≡ string_bytes text.old
        ++ java_object_line names.now (state machine.now) object waiters.now) }
{
    let held = machine.held(object);
    write!(text, "object {}", names.name_of_object(object))?;
    let owner = owner_name(names, held.owner);
    write!(text, " owner {owner} holds {} waiting ", held.count)?;
    put_threads(text, names, waiters)?;
    text.push_str("\n")
}

/// The cycles of owners of a machine that has no other live threads than those of a program.
fn java_cycles(
    alloc: Global,
    program: &Program,
    machine: &Machine,
) -> Result<Vec<Vec<ThreadId>>, AllocError>
    requires { AreBelow (count_of program.now) machine.now }
    ensures { IfOk result (λ cycles.
        AreCycles (state machine.now) (map vec_items cycles.items)) }
{
    let mut threads = Vec::new(alloc);
    let mut nexts = Vec::new(alloc);
    'threads: for number in 0..program.starts.len() {
        let thread = ThreadId(number as u32);
        threads.push(thread)?;
        nexts.push(machine.next_of(thread))?;
    }
    cycles_along(alloc, &threads, &nexts)
}
