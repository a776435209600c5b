//! What the threads of a live script call.

ghost use Rattle.std.specs.Prelude.{◌≡◌, ◌≤◌, ◌<◌, ◌++◌, IfOk, OnOk, length, map};
ghost use Rattle.script_text.specs.Names.{position_of};
ghost use Rattle.live_scripts.specs.Rules.{IsLiveScript, attached_threads};
ghost use Rattle.live_scripts.specs.Plans.{call_in, calls_in, calls_of, lows_in, lows_of};
ghost use Rattle.live_scripts.specs.Plans.{monitors_in, object_of, objects_in, objects_of};
ghost use Rattle.live_scripts.specs.Plans.{thread_of};
ghost use Rattle.live_scripts.specs.LivePlans.{IsPlanOf};

use crate::LiveScript;
use crate::rules::note;
use fast_path::Call;
use lock_word::{Memory, ObjectId, ThreadId};
use script_text::{Line, Name, StepLine};
use std::alloc::Global;

/// The names of a live script, and what its threads call by the numbers of them. Objects are
/// numbered from 0 in the order of their lines, threads from 1 in the order of theirs. An object
/// that is not declared has the number of the objects, which none has; a thread that is not
/// attached the number of the threads and 1.
#[derive(Drop)]
pub struct LivePlan<'a> {
    /// The most fat monitors.
    pub monitors: u32,
    pub threads: Vec<&'a str>,
    pub objects: Vec<&'a str>,
    /// The low byte of each object.
    pub lows: Vec<u8>,
    /// The calls of each thread, in order.
    pub calls: Vec<Vec<Call>>,
}

/// The position of a name: for one that is not there, how many names there are.
fn position_of(names: &[&str], name: &str) -> usize
    ensures within { result ≤ length names.now }
    ensures position { result ≡ position_of (map (λ t. t.now) names.now) name.now }
{
    let mut position = 0;
    'names: for other in names {
        if name == *other {
            return position;
        }
        position += 1;
    }
    position
}

fn object_of(objects: &[&str], name: &Name<'_>) -> ObjectId
    requires { length objects.now ≤ 65535 }
    ensures { result ≡ object_of (map (λ t. t.now) objects.now) name.now }
{
    ObjectId(position_of(objects, name.as_str()) as u32)
}

fn thread_of(threads: &[&str], name: &Name<'_>) -> ThreadId
    requires { length threads.now ≤ 64 }
    ensures { result ≡ thread_of (map (λ t. t.now) threads.now) name.now }
{
    ThreadId(position_of(threads, name.as_str()) as u32 + 1)
}

fn call_of(objects: &[&str], threads: &[&str], call: &script_text::Call<'_>) -> Call
    requires objects { length objects.now ≤ 65535 }
    requires threads { length threads.now ≤ 64 }
    ensures { result
        ≡ call_in (map (λ t. t.now) objects.now) (map (λ t. t.now) threads.now) call.now }
{
    match call {
        script_text::Call::Enter(object) => Call::Enter(object_of(objects, object)),
        script_text::Call::Exit(object) => Call::Exit(object_of(objects, object)),
        script_text::Call::Wait {
            object,
            millis,
            nanos,
        } => Call::Wait {
            object: object_of(objects, object),
            millis: *millis,
            nanos: *nanos,
        },
        script_text::Call::Notify(object) => Call::Notify(object_of(objects, object)),
        script_text::Call::NotifyAll(object) => Call::NotifyAll(object_of(objects, object)),
        script_text::Call::Holds(object) => Call::Holds(object_of(objects, object)),
        script_text::Call::Interrupt(target) => Call::Interrupt(thread_of(threads, target)),
        script_text::Call::Interrupted => Call::Interrupted,
        script_text::Call::IsInterrupted(target) => {
            Call::IsInterrupted(thread_of(threads, target))
        }
        script_text::Call::End => Call::End,
    }
}

/// Adds the call that a line has for a thread, if it has one.
fn take_call(
    calls: &mut Vec<Call>,
    objects: &[&str],
    threads: &[&str],
    thread: &str,
    line: &Line<'_>,
) -> Result<(), Memory>
    requires objects { length objects.now ≤ 65535 }
    requires threads { length threads.now ≤ 64 }
    ensures { OnOk result (calls.new.items ≡ calls.old.items
        ++ calls_in (map (λ t. t.now) objects.now)
        (map (λ t. t.now) threads.now) thread.now line.now) }
{
    match line {
        Line::Step(
            StepLine::Begin {
                thread: caller,
                call,
            },
        ) => {
            if caller.as_str() == thread {
                calls.push(call_of(objects, threads, call))?;
            }
            Ok(())
        }
        _ => Ok(()),
    }
}

/// The calls of a thread.
fn calls_of(
    alloc: Global,
    lines: &[Line<'_>],
    objects: &[&str],
    threads: &[&str],
    thread: &str,
) -> Result<Vec<Call>, Memory>
    requires objects { length objects.now ≤ 65535 }
    requires threads { length threads.now ≤ 64 }
    ensures { IfOk result (λ calls. calls.items
        ≡ calls_of (map (λ t. t.now) objects.now)
        (map (λ t. t.now) threads.now) thread.now lines.now) }
{
    let mut calls = Vec::new(alloc);
    'lines: for line in lines {
        take_call(&mut calls, objects, threads, thread, line)?;
    }
    Ok(calls)
}

/// The names of the threads that some lines attach.
fn threads_of<'a>(alloc: Global, lines: &[Line<'a>]) -> Result<Vec<&'a str>, Memory>
    ensures { IfOk result (λ v. map (λ t. t.now) v.items ≡ attached_threads lines.now) }
{
    let mut threads = Vec::new(alloc);
    'lines: for line in lines {
        note(&mut threads, line)?;
    }
    Ok(threads)
}

/// The names of the objects that some lines declare.
fn objects_of<'a>(alloc: Global, lines: &[Line<'a>]) -> Result<Vec<&'a str>, Memory>
    ensures { IfOk result (λ v. map (λ t. t.now) v.items ≡ objects_of lines.now) }
{
    let mut objects = Vec::new(alloc);
    'lines: for line in lines {
        note_object(&mut objects, line)?;
    }
    Ok(objects)
}

/// Notes the object that a line declares.
fn note_object<'a>(objects: &mut Vec<&'a str>, line: &Line<'a>) -> Result<(), Memory>
    ensures { OnOk result (map (λ t. t.now) objects.new.items
        ≡ map (λ t. t.now) objects.old.items ++ objects_in line.now) }
{
    match line {
        Line::Object { name, .. } => {
            objects.push(name.as_str())?;
            Ok(())
        }
        _ => Ok(()),
    }
}

/// The low bytes of the objects that some lines declare.
fn lows_of(alloc: Global, lines: &[Line<'_>]) -> Result<Vec<u8>, Memory>
    ensures { IfOk result (λ lows. lows.items ≡ lows_of lines.now) }
{
    let mut lows = Vec::new(alloc);
    'lines: for line in lines {
        note_low(&mut lows, line)?;
    }
    Ok(lows)
}

/// Notes the low byte of the object that a line declares.
fn note_low(lows: &mut Vec<u8>, line: &Line<'_>) -> Result<(), Memory>
    ensures { OnOk result (lows.new.items ≡ lows.old.items ++ lows_in line.now) }
{
    match line {
        Line::Object { low, .. } => {
            lows.push(*low)?;
            Ok(())
        }
        _ => Ok(()),
    }
}

/// The most fat monitors of the world of some lines.
fn monitors_in(lines: &[Line<'_>]) -> u32
    ensures { result ≡ monitors_in lines.now }
{
    match lines.first() {
        Some(Line::World { monitors, .. }) => *monitors,
        _ => 0,
    }
}

/// The calls of each thread.
fn rows_of(
    alloc: Global,
    lines: &[Line<'_>],
    objects: &[&str],
    threads: &[&str],
) -> Result<Vec<Vec<Call>>, Memory>
    requires objects { length objects.now ≤ 65535 }
    requires threads { length threads.now ≤ 64 }
    ensures { IfOk result (λ rows. map (λ v. v.items) rows.items
        ≡ map (λ t. calls_of (map (λ t. t.now) objects.now)
        (map (λ t. t.now) threads.now) t.now lines.now) threads.now) }
{
    let mut rows = Vec::new(alloc);
    'threads: for thread in threads {
        rows.push(calls_of(alloc, lines, objects, threads, thread)?)?;
    }
    Ok(rows)
}

/// The names of a live script, and what its threads call.
pub fn plan_of<'a>(alloc: Global, script: &LiveScript<'a>) -> Result<LivePlan<'a>, Memory>
    ensures plan { IfOk result (IsPlanOf script.now) }
    ensures rules { IsLiveScript script.now }
{
    let lines = script.lines();
    let threads = threads_of(alloc, lines)?;
    let objects = objects_of(alloc, lines)?;
    let lows = lows_of(alloc, lines)?;
    let calls = rows_of(alloc, lines, &objects, &threads)?;
    Ok(LivePlan {
        monitors: monitors_in(lines),
        threads,
        objects,
        lows,
        calls,
    })
}
