//! What the threads and objects of a program have come to where nothing changes any more.

use crate::trouble::Trouble;
use explore::{Found, Program, State, play};
use std::alloc::Global;
use std::fmt::Write;
use step_core::{Call, Doing, ObjectId, Reply, ThreadId, World};

/// The names of the threads and of the objects, by number.
const THREADS: [&str; 4] = ["x", "y", "z", "w"];

const OBJECTS: [&str; 2] = ["a", "b"];

/// The text of each end, in order of the bytes.
pub(crate) fn outcomes_of(
    alloc: Global,
    program: &Program,
    found: &Found,
) -> Result<Vec<String>, Trouble> {
    let mut outcomes = Vec::new(alloc);
    for end in found.ends() {
        outcomes.push(outcome_of(alloc, program, found, *end)?)?;
    }
    outcomes.sort()?;
    Ok(outcomes)
}

/// The text of an end: where its witness leads.
fn outcome_of(
    alloc: Global,
    program: &Program,
    found: &Found,
    end: u32,
) -> Result<String, Trouble> {
    if end as usize >= found.states() {
        return Err(Trouble::NoWitness);
    }
    let choices = found.witness(alloc, end)?;
    let Some(state) = play(alloc, program, &choices)? else {
        return Err(Trouble::NoWitness);
    };
    text_of(alloc, program, &state)
}

/// The text of a state: its threads, and its objects.
fn text_of(alloc: Global, program: &Program, state: &State) -> Result<String, Trouble> {
    let mut text = String::new(alloc);
    for thread in 0..program.starts.len() {
        if thread > 0 {
            text.push_str(" | ")?;
        }
        push_thread(&mut text, program, state, thread as u8)?;
    }
    for object in 0..state.world().objects() {
        text.push_str(" | ")?;
        push_object(&mut text, state.world(), ObjectId(object))?;
    }
    Ok(text)
}

/// A thread: its replies, and where it is stuck, if it is, and whether it is interrupted.
fn push_thread(
    text: &mut String,
    program: &Program,
    state: &State,
    thread: u8,
) -> Result<(), Trouble> {
    let name = name_at(&THREADS, usize::from(thread));
    write!(text, "{name}: ")?;
    push_replies(text, replies_of(program, state, usize::from(thread)))?;
    let id = ThreadId(u32::from(thread));
    if let Some(doing) = state.world().doing(id) {
        push_doing(text, doing)?;
    }
    if state.world().flag(id) == Some(true) {
        text.push_str(" flag")?;
    }
    Ok(())
}

/// The replies of a thread, as far as it has come.
fn replies_of<'a>(program: &Program, state: &'a State, thread: usize) -> &'a [Option<Reply>] {
    let replies = state.replies();
    let start = start_of(&program.starts, thread, 0);
    let end = start_of(&program.starts, thread.saturating_add(1), replies.len());
    part_of(replies, start, end)
}

/// Where the calls of a thread begin, or the other place if there is no such thread.
fn start_of(starts: &[usize], thread: usize, other: usize) -> usize {
    match starts.get(thread) {
        Some(start) => *start,
        None => other,
    }
}

/// The replies from one place to another, or none where these are no places.
fn part_of(replies: &[Option<Reply>], start: usize, end: usize) -> &[Option<Reply>] {
    match replies.get(start..end) {
        Some(part) => part,
        None => &[],
    }
}

/// Replies in their order: one that comes several times stands once, with how often it came.
fn push_replies(text: &mut String, replies: &[Option<Reply>]) -> Result<(), Trouble> {
    let mut last = None;
    let mut times = 0u32;
    for reply in replies {
        if *reply != last {
            push_run(text, last, times)?;
            if last.is_some() && reply.is_some() {
                text.push_str(", ")?;
            }
            last = *reply;
            times = 0;
        }
        times = times.saturating_add(1);
    }
    push_run(text, last, times)?;
    if replies.first().copied().flatten().is_none() {
        text.push_str("-")?;
    }
    Ok(())
}

/// A reply that came so often.
fn push_run(text: &mut String, reply: Option<Reply>, times: u32) -> Result<(), Trouble> {
    let Some(reply) = reply else {
        return Ok(());
    };
    if times == 1 {
        write!(text, "{reply}")?;
    } else {
        write!(text, "{reply} x{times}")?;
    }
    Ok(())
}

/// Where a thread is stuck in a call.
fn push_doing(text: &mut String, doing: Doing) -> Result<(), Trouble> {
    match doing {
        Doing::Idle => {}
        Doing::Wants(Call::Enter(object)) => write!(text, " stuck enter {}", name_of(object))?,
        Doing::Waits { object, holds, .. } => {
            write!(text, " stuck waits {} {holds}", name_of(object))?;
        }
        Doing::Back { object, holds, .. } => {
            write!(text, " stuck back {} {holds}", name_of(object))?;
        }
        _ => text.push_str(" stuck")?,
    }
    Ok(())
}

/// An object: its owner and holds.
fn push_object(text: &mut String, world: &World, object: ObjectId) -> Result<(), Trouble> {
    let name = name_of(object);
    if object.0 >= world.objects() {
        return Ok(());
    }
    match world.owner(object) {
        Some(owner) => {
            let thread = name_at(&THREADS, owner.0 as usize);
            write!(text, "{name}: {thread} {}", world.holds(object))?;
        }
        None => write!(text, "{name}: free")?,
    }
    Ok(())
}

fn name_of(object: ObjectId) -> &'static str {
    name_at(&OBJECTS, object.0 as usize)
}

/// The name that stands at this place.
fn name_at(names: &[&'static str], at: usize) -> &'static str {
    match names.get(at) {
        Some(name) => name,
        None => "?",
    }
}

/// Prints each text once, with how many ends have it.
pub(crate) fn print<R: Print>(rt: &R, outcomes: &[String]) -> Result<(), Trouble> {
    let mut times = 0u32;
    for at in 0..outcomes.len() {
        times = times.saturating_add(1);
        let is_last = match outcomes.get(at.saturating_add(1)) {
            Some(next) => *next != outcomes[at],
            None => true,
        };
        if is_last {
            println!(rt; "  {times} x {}", outcomes[at])?;
            times = 0;
        }
    }
    Ok(())
}
