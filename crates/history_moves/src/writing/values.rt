//! Writing moves.

ghost use Rattle.std.specs.Prelude.{◌≡◌, [], codes, IfOk, OnOk};
ghost use Rattle.serde_json.specs.View.{members_view, view};
ghost use Rattle.serde_json.specs.Data.{object, string, put as with_member};
ghost use Rattle.history_moves.specs.Moves.{IsFirstData, IsMoveData, Fits, data_of, first_data};
ghost use Rattle.fat_monitor.specs.Names.{cause_name};
ghost use Rattle.history_moves.specs.Moves.{of_number, of_signed, plain_members, bare_members};
ghost use Rattle.history_moves.specs.Moves.{object_members, target_members, wait_members};
ghost use Rattle.history_moves.specs.Moves.{reply_members, refused_members, notify_members};
ghost use Rattle.history_moves.specs.Moves.{refuse_members, call_members, time_members};
ghost use Rattle.history_moves.specs.Moves.{members_of_move};

use crate::words::name_of_cause;
use fast_path::Call;
use fat_monitor::{Cause, Reply};
use lock_word::{Memory, ObjectId, ThreadId};
use serde_json::{Map, Value, json, put};
use std::alloc::{AllocError, Global};
use step_core::Move;

/// Adds a text to the members of an object.
fn put_text(
    members: &mut Map<String, Value>,
    alloc: Global,
    key: &str,
    text: &str,
) -> Result<(), AllocError>
    ensures { OnOk result (members_view members.new.entries
        ≡ with_member key.now (string text.now) (members_view members.old.entries)) }
{
    put(members, alloc, key, Value::try_from_str(alloc, text)?)
}

/// Adds a number to the members of an object.
fn put_number(
    members: &mut Map<String, Value>,
    alloc: Global,
    key: &str,
    number: u64,
) -> Result<(), AllocError>
    ensures { OnOk result (members_view members.new.entries
        ≡ with_member key.now (of_number number) (members_view members.old.entries)) }
{
    put(members, alloc, key, Value::from(number))
}

/// Adds a signed number to the members of an object.
fn put_signed(
    members: &mut Map<String, Value>,
    alloc: Global,
    key: &str,
    number: i64,
) -> Result<(), AllocError>
    ensures { OnOk result (members_view members.new.entries
        ≡ with_member key.now (of_signed number) (members_view members.old.entries)) }
{
    put(members, alloc, key, Value::from(number))
}

fn put_plain(
    members: &mut Map<String, Value>,
    alloc: Global,
    name: &str,
    thread: ThreadId,
) -> Result<(), AllocError>
    requires { members.old.entries ≡ [] }
    ensures { OnOk result (members_view members.new.entries ≡ plain_members name.now thread) }
{
    put_text(members, alloc, "move", name)?;
    put_number(members, alloc, "thread", u64::from(thread.0))
}

fn put_bare(
    members: &mut Map<String, Value>,
    alloc: Global,
    verb: &str,
    thread: ThreadId,
) -> Result<(), AllocError>
    requires { members.old.entries ≡ [] }
    ensures { OnOk result (members_view members.new.entries ≡ bare_members verb.now thread) }
{
    put_plain(members, alloc, "Call", thread)?;
    put_text(members, alloc, "call", verb)
}

fn put_object(
    members: &mut Map<String, Value>,
    alloc: Global,
    verb: &str,
    on: ObjectId,
    thread: ThreadId,
) -> Result<(), AllocError>
    requires { members.old.entries ≡ [] }
    ensures { OnOk result (members_view members.new.entries ≡ object_members verb.now on thread) }
{
    put_bare(members, alloc, verb, thread)?;
    put_number(members, alloc, "object", u64::from(on.0))
}

fn put_target(
    members: &mut Map<String, Value>,
    alloc: Global,
    verb: &str,
    target: ThreadId,
    thread: ThreadId,
) -> Result<(), AllocError>
    requires { members.old.entries ≡ [] }
    ensures { OnOk result (members_view members.new.entries
        ≡ target_members verb.now target thread) }
{
    put_bare(members, alloc, verb, thread)?;
    put_number(members, alloc, "target", u64::from(target.0))
}

fn put_wait(
    members: &mut Map<String, Value>,
    alloc: Global,
    on: ObjectId,
    millis: i64,
    nanos: i32,
    thread: ThreadId,
) -> Result<(), AllocError>
    requires { members.old.entries ≡ [] }
    ensures { OnOk result (members_view members.new.entries ≡ wait_members on millis nanos thread) }
{
    put_object(members, alloc, "Wait", on, thread)?;
    put_signed(members, alloc, "millis", millis)?;
    put_signed(members, alloc, "nanos", i64::from(nanos))
}

fn put_reply(
    members: &mut Map<String, Value>,
    alloc: Global,
    word: &str,
    thread: ThreadId,
) -> Result<(), AllocError>
    requires { members.old.entries ≡ [] }
    ensures { OnOk result (members_view members.new.entries ≡ reply_members word.now thread) }
{
    put_plain(members, alloc, "Return", thread)?;
    put_text(members, alloc, "reply", word)
}

fn put_refused(
    members: &mut Map<String, Value>,
    alloc: Global,
    cause: Cause,
    thread: ThreadId,
) -> Result<(), AllocError>
    requires { members.old.entries ≡ [] }
    ensures { OnOk result (members_view members.new.entries
        ≡ refused_members (cause_name cause) thread) }
{
    put_reply(members, alloc, "Refused", thread)?;
    put_text(members, alloc, "cause", name_of_cause(cause))
}

fn put_refuse(
    members: &mut Map<String, Value>,
    alloc: Global,
    cause: Cause,
    thread: ThreadId,
) -> Result<(), AllocError>
    requires { members.old.entries ≡ [] }
    ensures { OnOk result (members_view members.new.entries
        ≡ refuse_members (cause_name cause) thread) }
{
    put_plain(members, alloc, "Refuse", thread)?;
    put_text(members, alloc, "cause", name_of_cause(cause))
}

fn put_notify(
    members: &mut Map<String, Value>,
    alloc: Global,
    chosen: Option<ThreadId>,
    thread: ThreadId,
) -> Result<(), AllocError>
    requires { members.old.entries ≡ [] }
    ensures { OnOk result (members_view members.new.entries ≡ notify_members chosen thread) }
{
    put_plain(members, alloc, "Notify", thread)?;
    match chosen {
        Some(chosen) => put_number(members, alloc, "chosen", u64::from(chosen.0)),
        None => put(members, alloc, "chosen", Value::Null),
    }
}

fn put_time(members: &mut Map<String, Value>, alloc: Global, now: u64) -> Result<(), AllocError>
    requires { members.old.entries ≡ [] }
    ensures { OnOk result (members_view members.new.entries ≡ time_members now) }
{
    put_text(members, alloc, "move", "Time")?;
    put_number(members, alloc, "now", now)
}

fn put_call(
    members: &mut Map<String, Value>,
    alloc: Global,
    call: Call,
    thread: ThreadId,
) -> Result<(), AllocError>
    requires { members.old.entries ≡ [] }
    ensures { OnOk result (members_view members.new.entries ≡ call_members call thread) }
{
    match call {
        Call::Enter(object) => put_object(members, alloc, "Enter", object, thread),
        Call::Exit(object) => put_object(members, alloc, "Exit", object, thread),
        Call::Notify(object) => put_object(members, alloc, "Notify", object, thread),
        Call::NotifyAll(object) => put_object(members, alloc, "NotifyAll", object, thread),
        Call::Holds(object) => put_object(members, alloc, "Holds", object, thread),
        Call::Wait {
            object,
            millis,
            nanos,
        } => put_wait(members, alloc, object, millis, nanos, thread),
        Call::Interrupt(target) => put_target(members, alloc, "Interrupt", target, thread),
        Call::IsInterrupted(target) => put_target(members, alloc, "IsInterrupted", target, thread),
        Call::Interrupted => put_bare(members, alloc, "Interrupted", thread),
        Call::End => put_bare(members, alloc, "End", thread),
    }
}

fn put_return(
    members: &mut Map<String, Value>,
    alloc: Global,
    reply: Reply,
    thread: ThreadId,
) -> Result<(), AllocError>
    requires { members.old.entries ≡ [] }
    ensures { OnOk result (members_view members.new.entries
        ≡ members_of_move (Move.Return thread reply)) }
{
    match reply {
        Reply::Entered => put_reply(members, alloc, "Entered", thread),
        Reply::Exited => put_reply(members, alloc, "Exited", thread),
        Reply::WaitOver => put_reply(members, alloc, "WaitOver", thread),
        Reply::Interrupted => put_reply(members, alloc, "Interrupted", thread),
        Reply::Notified => put_reply(members, alloc, "Notified", thread),
        Reply::Yes => put_reply(members, alloc, "Yes", thread),
        Reply::No => put_reply(members, alloc, "No", thread),
        Reply::Done => put_reply(members, alloc, "Done", thread),
        Reply::Ended => put_reply(members, alloc, "Ended", thread),
        Reply::IllegalMonitorState => put_reply(members, alloc, "IllegalMonitorState", thread),
        Reply::IllegalArgument => put_reply(members, alloc, "IllegalArgument", thread),
        Reply::Refused(cause) => put_refused(members, alloc, cause, thread),
    }
}

/// Adds the members of a move to those of an object that has none.
fn put_move(members: &mut Map<String, Value>, alloc: Global, made: Move) -> Result<(), AllocError>
    requires { members.old.entries ≡ [] }
    ensures written { OnOk result (members_view members.new.entries ≡ members_of_move made) }
    ensures fits { Fits made }
{
    match made {
        Move::Attach { thread } => put_plain(members, alloc, "Attach", thread),
        Move::Lock { thread } => put_plain(members, alloc, "Lock", thread),
        Move::Unlock { thread } => put_plain(members, alloc, "Unlock", thread),
        Move::Illegal { thread } => put_plain(members, alloc, "Illegal", thread),
        Move::BadArgument { thread } => put_plain(members, alloc, "BadArgument", thread),
        Move::Early { thread } => put_plain(members, alloc, "Early", thread),
        Move::Wait { thread } => put_plain(members, alloc, "Wait", thread),
        Move::NotifyAll { thread } => put_plain(members, alloc, "NotifyAll", thread),
        Move::Interrupt { thread } => put_plain(members, alloc, "Interrupt", thread),
        Move::TestClear { thread } => put_plain(members, alloc, "TestClear", thread),
        Move::Ask { thread } => put_plain(members, alloc, "Ask", thread),
        Move::Expire { thread } => put_plain(members, alloc, "Expire", thread),
        Move::Spurious { thread } => put_plain(members, alloc, "Spurious", thread),
        Move::Relock { thread } => put_plain(members, alloc, "Relock", thread),
        Move::End { thread } => put_plain(members, alloc, "End", thread),
        Move::Call { thread, call } => put_call(members, alloc, call, thread),
        Move::Return { thread, reply } => put_return(members, alloc, reply, thread),
        Move::Notify { thread, chosen } => put_notify(members, alloc, chosen, thread),
        Move::Refuse { thread, cause } => put_refuse(members, alloc, cause, thread),
        Move::Time { now } => put_time(members, alloc, now),
    }
}

fn write_made(alloc: Global, made: Move) -> Result<Value, AllocError>
    ensures written { IfOk result (λ v. view v ≡ data_of made) }
    ensures fits { Fits made }
{
    let mut members = Map::new(alloc);
    put_move(&mut members, alloc, made)?;
    Ok(Value::Object(members))
}

/// A move as a value, which [`read_move`] reads as that move.
///
/// [`read_move`]: crate::read_move
pub fn write_move(alloc: Global, made: &Move) -> Result<Value, Memory>
    ensures { IfOk result (λ v. IsMoveData (view v) made.now) }
{
    Ok(write_made(alloc, *made)?)
}

/// The first line of a history as a value.
pub(crate) fn write_first(alloc: Global, objects: u16) -> Result<Value, AllocError>
    ensures { IfOk result (λ v. IsFirstData (view v) objects) }
{
    json!(in alloc; {"objects": objects})
}
