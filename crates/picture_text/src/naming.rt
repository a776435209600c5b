//! How threads, objects and calls are named in a picture.

ghost use Rattle.std.specs.Prelude.{◌≡◌, ◌++◌, ◌∷◌, [], IfOk, OnOk, decimal, string_bytes};
ghost use Rattle.std.specs.List.{join_with_byte};
ghost use Rattle.script_text.specs.Lines.{call_words};
ghost use Rattle.picture_text.specs.Naming.{call_text, numbered_call, object_node, object_words};
ghost use Rattle.picture_text.specs.Naming.{thread_node, thread_words};
ghost use Rattle.picture_text.specs.Nodes.{escaped, node_text};
ghost use Rattle.fat_monitor.specs.Names.{reply_name};

use crate::escapes::{put_counted, put_escaped};
use dump::put_call;
use fast_path::Call;
use fat_monitor::Reply;
use lock_word::{ObjectId, ThreadId};
use std::alloc::{AllocError, Global};
use std::fmt::Write;

/// What a picture calls threads and objects.
#[derive(Clone, Copy)]
pub enum Naming<'a> {
    /// The names of a script.
    Names(&'a history::Names),
    /// Their numbers, as in a history of moves.
    Numbers,
}

/// Writes what a thread is called.
#[tactic(auto, unfolding(crate::specs::Naming::thread_node))]
pub(crate) fn put_thread(
    text: &mut String,
    naming: &Naming<'_>,
    thread: ThreadId,
) -> Result<(), AllocError>
    ensures { OnOk result (string_bytes text.new
        ≡ string_bytes text.old ++ node_text (thread_node naming.now thread)) }
{
    match naming {
        Naming::Names(names) => put_escaped(text, names.name_of_thread(thread)),
        Naming::Numbers => put_counted(text, "thread ", u64::from(thread.0)),
    }
}

/// Writes what an object is called.
#[tactic(auto, unfolding(crate::specs::Naming::object_node))]
pub(crate) fn put_object(
    text: &mut String,
    naming: &Naming<'_>,
    object: ObjectId,
) -> Result<(), AllocError>
    ensures { OnOk result (string_bytes text.new
        ≡ string_bytes text.old ++ node_text (object_node naming.now object)) }
{
    match naming {
        Naming::Names(names) => put_escaped(text, names.name_of_object(object)),
        Naming::Numbers => put_counted(text, "object ", u64::from(object.0)),
    }
}

/// What a thread is called beside its lane. Nothing in it is escaped.
pub(crate) fn thread_words(
    alloc: Global,
    naming: &Naming<'_>,
    thread: ThreadId,
) -> Result<String, AllocError>
    ensures { IfOk result (λ words. string_bytes words ≡ thread_words naming.now thread) }
{
    let mut words = String::new(alloc);
    match naming {
        Naming::Names(names) => words.push_str(names.name_of_thread(thread))?,
        Naming::Numbers => write!(words, "thread {}", thread.0)?,
    }
    Ok(words)
}

/// What an object is called beside its strip. Nothing in it is escaped.
pub(crate) fn object_words(
    alloc: Global,
    naming: &Naming<'_>,
    object: ObjectId,
) -> Result<String, AllocError>
    ensures { IfOk result (λ words. string_bytes words ≡ object_words naming.now object) }
{
    let mut words = String::new(alloc);
    match naming {
        Naming::Names(names) => words.push_str(names.name_of_object(object))?,
        Naming::Numbers => write!(words, "object {}", object.0)?,
    }
    Ok(words)
}

/// Writes a reply by its name; of a refusal the cause too.
#[tactic(auto, using(crate::proofs::Escaping::escaped_reply))]
pub(crate) fn put_reply_name(text: &mut String, reply: Reply) -> Result<(), AllocError>
    ensures { OnOk result (string_bytes text.new
        ≡ string_bytes text.old ++ escaped (reply_name reply)) }
{
    write!(text, "{reply}")
}

/// A call as a script writes it. Nothing in it is escaped.
pub(crate) fn call_words(
    alloc: Global,
    naming: &Naming<'_>,
    call: Call,
) -> Result<String, AllocError>
    ensures { IfOk result (λ words. string_bytes words ≡ call_text naming.now call) }
{
    let mut words = String::new(alloc);
    match naming {
        Naming::Names(names) => put_call(&mut words, names, call)?,
        Naming::Numbers => put_numbered_call(&mut words, call)?,
    }
    Ok(words)
}

/// Writes a call with numbers for names.
fn put_numbered_call(text: &mut String, call: Call) -> Result<(), AllocError>
    ensures { OnOk result (string_bytes text.new ≡ string_bytes text.old
        ++ join_with_byte 32 (call_words (numbered_call call))) }
{
    match call {
        Call::Enter(object) => put_verb(text, "enter", object.0),
        Call::Exit(object) => put_verb(text, "exit", object.0),
        Call::Wait {
            object,
            millis,
            nanos,
        } => write!(text, "wait {} {millis} {nanos}", object.0),
        Call::Notify(object) => put_verb(text, "notify", object.0),
        Call::NotifyAll(object) => put_verb(text, "notifyall", object.0),
        Call::Holds(object) => put_verb(text, "holds", object.0),
        Call::Interrupt(target) => put_verb(text, "interrupt", target.0),
        Call::Interrupted => text.push_str("interrupted"),
        Call::IsInterrupted(target) => put_verb(text, "isinterrupted", target.0),
        Call::End => text.push_str("end"),
    }
}

/// Writes a verb, and the number of what it is done to.
fn put_verb(text: &mut String, verb: &str, number: u32) -> Result<(), AllocError>
    ensures { OnOk result (string_bytes text.new ≡ string_bytes text.old
        ++ join_with_byte 32 (verb.now ∷ decimal number ∷ [])) }
{
    write!(text, "{verb} {number}")
}
