//! Writing what the threads and objects of a program have come to.

ghost use Rattle.std.specs.Prelude.{◌≡◌, ◌<◌, ◌+◌, ◌-◌, ◌^◌, ◌++◌, IfOk, OnOk, length, map, string_bytes};
ghost use Rattle.std.specs.Prelude.{vec_items, slice_get};
ghost use Rattle.std.specs.List.{flat_map};
ghost use Rattle.dump.specs.Reports.{cycle_text};
ghost use Rattle.step_core.specs.Shown.{shown};
ghost use Rattle.explore_runs.specs.Outcomes.{IsOutcome, doing_text, interrupt_text, object_line};
ghost use Rattle.explore_runs.specs.Outcomes.{object_lines, replies_text, reply_text, reply_word};
ghost use Rattle.explore_runs.specs.Outcomes.{stuck_text, thread_line, thread_lines};

use dump::{cycles, put_call, put_cycle};
use explore::{Program, State};
use fat_monitor::Reply;
use history::{Names, put_standing, put_threads, wait_sets_of};
use lock_word::{Memory, ObjectId, ThreadId};
use std::alloc::{AllocError, Global};
use std::fmt::Write;
use step_core::{Doing, World};

/// The text of a state: a line for each thread of the program, one for each object, and one for
/// each cycle of owners.
pub fn outcome_of(
    alloc: Global,
    names: &Names,
    program: &Program,
    state: &State,
) -> Result<String, Memory>
    ensures { IfOk result (λ text.
        IsOutcome names.now program.now state.now (string_bytes text)) }
{
    let mut text = String::new(alloc);
    put_thread_lines(&mut text, names, program, state)?;
    put_object_lines(alloc, &mut text, names, state.world())?;
    let cycles = cycles(alloc, state.world())?;
    put_cycle_lines(&mut text, names, &cycles)?;
    Ok(text)
}

/// Writes the line of each thread.
fn put_thread_lines(
    text: &mut String,
    names: &Names,
    program: &Program,
    state: &State,
) -> Result<(), AllocError>
    ensures { OnOk result (string_bytes text.new ≡ string_bytes text.old
        ++ thread_lines names.now program.now state.now (length program.now.starts.items)) }
{
    'threads: for thread in 0..program.starts.len() {
        put_thread_line(text, names, program, state, thread)?;
    }
    Ok(())
}

/// Writes the line of a thread: its replies, where it is stuck, and whether it is interrupted.
fn put_thread_line(
    text: &mut String,
    names: &Names,
    program: &Program,
    state: &State,
    thread: usize,
) -> Result<(), AllocError>
    requires { thread < length program.now.starts.items }
    ensures { OnOk result (string_bytes text.new
        ≡ string_bytes text.old ++ thread_line names.now program.now state.now thread) }
{
    let id = ThreadId(thread as u32);
    write!(text, "thread {}", names.name_of_thread(id))?;
    let start = program.starts[thread];
    let end = program.end_of(id);
    put_replies(text, state.replies(), start, end.saturating_sub(start))?;
    put_doing(text, names, state.world(), id)?;
    text.push_str("\n")
}

/// Writes the replies of so many calls, from this one on.
pub(crate) fn put_replies(
    text: &mut String,
    replies: &[Option<Reply>],
    start: usize,
    count: usize,
) -> Result<(), AllocError>
    requires { start + count < 2 ^ 64 }
    ensures { OnOk result (string_bytes text.new
        ≡ string_bytes text.old ++ replies_text replies.now start count) }
{
    'calls: for call in 0..count {
        put_reply_of(text, replies, start, call)?;
    }
    Ok(())
}

/// Writes the reply of a call, if it has one.
fn put_reply_of(
    text: &mut String,
    replies: &[Option<Reply>],
    start: usize,
    call: usize,
) -> Result<(), AllocError>
    requires { start + call < 2 ^ 64 }
    ensures { OnOk result (string_bytes text.new
        ≡ string_bytes text.old ++ reply_text (slice_get replies.now (start + call))) }
{
    match replies.get(start + call) {
        Some(Some(reply)) => put_reply(text, *reply),
        Some(None) => Ok(()),
        None => Ok(()),
    }
}

/// Writes a reply behind a space.
fn put_reply(text: &mut String, reply: Reply) -> Result<(), AllocError>
    ensures { OnOk result (string_bytes text.new ≡ string_bytes text.old ++ reply_word reply) }
{
    match reply {
        Reply::Refused(cause) => write!(text, " Refused/{cause}"),
        _ => write!(text, " {reply}"),
    }
}

/// Writes where a thread is stuck, and whether it is interrupted.
fn put_doing(
    text: &mut String,
    names: &Names,
    world: &World,
    thread: ThreadId,
) -> Result<(), AllocError>
    ensures { OnOk result (string_bytes text.new
        ≡ string_bytes text.old ++ doing_text names.now ((shown world.now).thread thread)) }
{
    let (Some(doing), Some(is_interrupted)) = (world.doing(thread), world.flag(thread)) else {
        return Ok(());
    };
    put_stuck(text, names, doing)?;
    text.push_str(interrupt_text(is_interrupted))
}

pub(crate) fn interrupt_text(is_interrupted: bool) -> &'static str
    ensures { result.now ≡ interrupt_text is_interrupted }
{
    if is_interrupted { " interrupted" } else { "" }
}

/// Writes where a thread is stuck in a call, if it is in one.
pub(crate) fn put_stuck(text: &mut String, names: &Names, doing: Doing) -> Result<(), AllocError>
    ensures { OnOk result (string_bytes text.new
        ≡ string_bytes text.old ++ stuck_text names.now doing) }
{
    match doing {
        Doing::Idle => Ok(()),
        Doing::Wants(call) => {
            text.push_str(" stuck ")?;
            put_call(text, names, call)
        }
        Doing::Waits { object, holds, .. } => {
            write!(
                text,
                " stuck waits {} {holds}",
                names.name_of_object(object)
            )
        }
        Doing::Back { object, holds, .. } => {
            write!(text, " stuck back {} {holds}", names.name_of_object(object))
        }
        Doing::Has(reply) => {
            text.push_str(" stuck has")?;
            put_reply(text, reply)
        }
    }
}

/// Writes the line of each object.
fn put_object_lines(
    alloc: Global,
    text: &mut String,
    names: &Names,
    world: &World,
) -> Result<(), AllocError>
    ensures { OnOk result (string_bytes text.new ≡ string_bytes text.old
        ++ object_lines names.now world.now (shown world.now).objects) }
{
    let wait_sets = wait_sets_of(alloc, names, world)?;
    'objects: for number in 0..world.objects() {
        let waiters = &wait_sets[number as usize];
        put_object_line(text, names, world, ObjectId(number), waiters)?;
    }
    Ok(())
}

/// Writes the line of an object, in whose wait set these threads are.
fn put_object_line(
    text: &mut String,
    names: &Names,
    world: &World,
    object: ObjectId,
    waiters: &[ThreadId],
) -> Result<(), AllocError>
    requires { object.0 < length world.now.words }
    ensures { OnOk result (string_bytes text.new ≡ string_bytes text.old
        ++ object_line names.now world.now object waiters.now) }
{
    write!(text, "object {}", names.name_of_object(object))?;
    put_standing(text, names, world, object)?;
    text.push_str(" waiting ")?;
    put_threads(text, names, waiters)?;
    text.push_str("\n")
}

/// Writes the line of each cycle of owners.
pub(crate) fn put_cycle_lines(
    text: &mut String,
    names: &Names,
    cycles: &[Vec<ThreadId>],
) -> Result<(), AllocError>
    ensures { OnOk result (string_bytes text.new ≡ string_bytes text.old
        ++ flat_map (cycle_text names.now) (map vec_items cycles.now)) }
{
    'cycles: for cycle in cycles {
        put_cycle(text, names, cycle)?;
    }
    Ok(())
}
