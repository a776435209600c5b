//! The text of a dump.

ghost use Rattle.std.specs.Prelude.{◌≡◌, ◌++◌, ◌∷◌, [], IfOk, OnOk, codes, map, string_bytes};
ghost use Rattle.std.specs.Prelude.{vec_items};
ghost use Rattle.std.specs.List.{flat_map, join_with_byte};
ghost use Rattle.script_text.specs.Lines.{call_words};
ghost use Rattle.dump.specs.Reports.{IsDump, act_text, cycle_text, cycles_text, deadline_text};
ghost use Rattle.dump.specs.Reports.{flag_text, line_in, named_call, why_text};

use history::Names;
use lock_word::{Memory, ThreadId};
use owner_cycles::{cycles_among, live_threads};
use std::alloc::{AllocError, Global};
use std::fmt::Write;
use step_core::{Call, Doing, Why, World};

/// A dump of a world: a line for each live thread, by rising number, and then one for each cycle of
/// owners, or `no cycle`. `docs/FORMATS.md` has its form.
///
/// Each live thread, each object and each target of a call that was begun should have a name: for
/// one that has none stands `-`.
pub fn report(alloc: Global, world: &World, names: &Names) -> Result<String, Memory>
    ensures { IfOk result (λ text. IsDump world.now names.now (string_bytes text)) }
{
    let threads = live_threads(alloc, world)?;
    let cycles = cycles_among(alloc, world, &threads)?;
    let mut text = String::new(alloc);
    put_threads(&mut text, world, names, &threads)?;
    put_cycles(&mut text, names, &cycles)?;
    Ok(text)
}

/// Writes a line for each of some threads.
fn put_threads(
    text: &mut String,
    world: &World,
    names: &Names,
    threads: &[ThreadId],
) -> Result<(), AllocError>
    ensures { OnOk result (string_bytes text.new
        ≡ string_bytes text.old ++ flat_map (line_in world.now names.now) threads.now) }
{
    'threads: for thread in threads {
        put_thread(text, world, names, *thread)?;
    }
    Ok(())
}

/// Writes the line of a live thread.
fn put_thread(
    text: &mut String,
    world: &World,
    names: &Names,
    thread: ThreadId,
) -> Result<(), AllocError>
    ensures { OnOk result (string_bytes text.new
        ≡ string_bytes text.old ++ line_in world.now names.now thread) }
{
    let (Some(doing), Some(flag)) = (world.doing(thread), world.flag(thread)) else {
        return Ok(());
    };
    let name = names.name_of_thread(thread);
    let index = world.index(thread).unwrap_or(0);
    write!(text, "thread {name} index {index} ")?;
    put_doing(text, names, doing)?;
    let flag = flag_word(flag);
    writeln!(text, " flag {flag}")
}

fn flag_word(flag: bool) -> &'static str
    ensures { result.now ≡ flag_text flag }
{
    if flag { "yes" } else { "no" }
}

/// Writes what a thread is doing.
fn put_doing(text: &mut String, names: &Names, doing: Doing) -> Result<(), AllocError>
    ensures { OnOk result (string_bytes text.new
        ≡ string_bytes text.old ++ act_text names.now doing) }
{
    match doing {
        Doing::Idle => write!(text, "idle"),
        Doing::Wants(call) => {
            write!(text, "wants ")?;
            put_call(text, names, call)
        }
        Doing::Waits {
            object,
            holds,
            deadline,
        } => {
            let object = names.name_of_object(object);
            write!(text, "waits {object} {holds} ")?;
            put_deadline(text, deadline)
        }
        Doing::Back { object, holds, why } => {
            let object = names.name_of_object(object);
            let why = why_word(why);
            write!(text, "back {object} {holds} {why}")
        }
        Doing::Has(reply) => write!(text, "has {reply}"),
    }
}

/// Writes a moment, or `-`.
fn put_deadline(text: &mut String, deadline: Option<u128>) -> Result<(), AllocError>
    ensures { OnOk result (string_bytes text.new
        ≡ string_bytes text.old ++ deadline_text deadline) }
{
    match deadline {
        Some(moment) => write!(text, "{moment}"),
        None => write!(text, "-"),
    }
}

fn why_word(why: Why) -> &'static str
    ensures { result.now ≡ why_text why }
{
    match why {
        Why::Notified => "Notified",
        Why::Interrupted => "Interrupted",
        Why::Elapsed => "Elapsed",
        Why::Spurious => "Spurious",
    }
}

/// Writes a call, as a script does.
pub fn put_call(text: &mut String, names: &Names, call: Call) -> Result<(), AllocError>
    ensures { OnOk result (string_bytes text.new ≡ string_bytes text.old
        ++ join_with_byte 32 (call_words (named_call names.now call))) }
{
    match call {
        Call::Enter(object) => {
            let object = names.name_of_object(object);
            write!(text, "enter {object}")
        }
        Call::Exit(object) => {
            let object = names.name_of_object(object);
            write!(text, "exit {object}")
        }
        Call::Wait {
            object,
            millis,
            nanos,
        } => {
            let object = names.name_of_object(object);
            write!(text, "wait {object} {millis} {nanos}")
        }
        Call::Notify(object) => {
            let object = names.name_of_object(object);
            write!(text, "notify {object}")
        }
        Call::NotifyAll(object) => {
            let object = names.name_of_object(object);
            write!(text, "notifyall {object}")
        }
        Call::Holds(object) => {
            let object = names.name_of_object(object);
            write!(text, "holds {object}")
        }
        Call::Interrupt(target) => {
            let target = names.name_of_thread(target);
            write!(text, "interrupt {target}")
        }
        Call::Interrupted => write!(text, "interrupted"),
        Call::IsInterrupted(target) => { put_is_interrupted(text, names.name_of_thread(target)) }
        Call::End => write!(text, "end"),
    }
}

/// Writes the call isInterrupted of a thread with this name.
fn put_is_interrupted(text: &mut String, target: &str) -> Result<(), AllocError>
    ensures { OnOk result (string_bytes text.new ≡ string_bytes text.old
        ++ join_with_byte 32 (codes "isinterrupted" ∷ target.now ∷ [])) }
{
    write!(text, "isinterrupted {target}")
}

/// Writes a line for each cycle, or that there is none.
fn put_cycles(text: &mut String, names: &Names, cycles: &[Vec<ThreadId>]) -> Result<(), AllocError>
    ensures { OnOk result (string_bytes text.new ≡ string_bytes text.old
        ++ cycles_text names.now (map vec_items cycles.now)) }
{
    if cycles.is_empty() {
        return writeln!(text, "no cycle");
    }
    put_each_cycle(text, names, cycles)
}

/// Writes a line for each cycle.
fn put_each_cycle(
    text: &mut String,
    names: &Names,
    cycles: &[Vec<ThreadId>],
) -> Result<(), AllocError>
    ensures { OnOk result (string_bytes text.new ≡ string_bytes text.old
        ++ flat_map (cycle_text names.now) (map vec_items cycles.now)) }
{
    'cycles: for cycle in cycles {
        put_cycle(text, names, cycle)?;
    }
    Ok(())
}

/// Writes the line of a cycle of owners: the names of its threads behind `cycle`.
pub fn put_cycle(text: &mut String, names: &Names, cycle: &[ThreadId]) -> Result<(), AllocError>
    ensures { OnOk result (string_bytes text.new
        ≡ string_bytes text.old ++ cycle_text names.now cycle.now) }
{
    write!(text, "cycle")?;
    'threads: for thread in cycle {
        let name = names.name_of_thread(*thread);
        write!(text, " {name}")?;
    }
    writeln!(text)
}
