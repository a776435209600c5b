//! Reading moves.

ghost use Rattle.std.specs.Prelude.{◌≡◌, ℕ, option_and_then, IfSome, IfNone};
ghost use Rattle.serde_json.specs.Data.{Data};
ghost use Rattle.serde_json.specs.View.{view};
ghost use Rattle.step_core.specs.declared.machine.Move.{Move as MoveData};
ghost use Rattle.history_moves.specs.Moves.{IsFirstData, IsMoveData};
ghost use Rattle.history_moves.specs.Members.{IsOrderedData};
ghost use Rattle.history_moves.specs.Reading.{cause_at, wait_call, is_targeted, call_of, call_from};
ghost use Rattle.history_moves.specs.Reading.{reply_from, refused_from, three_from, thread_move};
ghost use Rattle.history_moves.specs.Reading.{move_named, move_from, first_from};

use crate::pieces::comparing::same_bytes;
use crate::values::members::{
    Fields, count_in, nanos_at, object_at, target_at, thread_at, whole_at,
};
use crate::words::{
    bare_call_named, cause_named, object_call_named, plain_named, reply_named, target_call_named,
};
use fast_path::Call;
use fat_monitor::{Cause, Reply};
use lock_word::ThreadId;
use serde_json::Value;
use step_core::Move;

/// The most objects that a history has.
const MOST_OBJECTS: u64 = 65_535;

fn cause_at<F: Fields>(fields: &F) -> Option<Cause>
    ensures { result ≡ cause_at (F.seen fields.now) }
{
    cause_named(fields.cause()?)
}

fn is_targeted(verb: &[u8]) -> bool
    ensures { result ≡ is_targeted verb.now }
{
    same_bytes(verb, b"Interrupt") || same_bytes(verb, b"IsInterrupted")
}

fn wait_call<F: Fields>(fields: &F) -> Option<Call>
    ensures { result ≡ wait_call (F.seen fields.now) }
{
    let object = object_at(fields)?;
    let millis = fields.millis()?;
    let nanos = nanos_at(fields)?;
    Some(Call::Wait {
        object,
        millis,
        nanos,
    })
}

/// The call with this name in a move of so many members.
fn call_of<F: Fields>(count: usize, fields: &F, verb: &[u8]) -> Option<Call>
    ensures { result ≡ call_of count (F.seen fields.now) verb.now }
{
    if count == 3 {
        return bare_call_named(verb);
    }
    if count == 4 && is_targeted(verb) {
        return target_call_named(verb, target_at(fields)?);
    }
    if count == 4 {
        return object_call_named(verb, object_at(fields)?);
    }
    if count == 6 && same_bytes(verb, b"Wait") {
        return wait_call(fields);
    }
    None
}

fn call_from<F: Fields>(count: usize, fields: &F, thread: ThreadId) -> Option<Move>
    ensures { result ≡ call_from count (F.seen fields.now) thread }
{
    let verb = fields.verb()?;
    let call = call_of(count, fields, verb)?;
    Some(Move::Call { thread, call })
}

fn reply_from<F: Fields>(fields: &F, thread: ThreadId) -> Option<Move>
    ensures { result ≡ reply_from (F.seen fields.now) thread }
{
    let reply = reply_named(fields.reply()?)?;
    Some(Move::Return { thread, reply })
}

fn refused_from<F: Fields>(fields: &F, thread: ThreadId) -> Option<Move>
    ensures { result ≡ refused_from (F.seen fields.now) thread }
{
    let word = fields.reply()?;
    if !same_bytes(word, b"Refused") {
        return None;
    }
    let cause = cause_at(fields)?;
    Some(Move::Return {
        thread,
        reply: Reply::Refused(cause),
    })
}

/// The move of a thread with this name and three members.
fn move_of_three<F: Fields>(fields: &F, name: &[u8], thread: ThreadId) -> Option<Move>
    ensures { result ≡ three_from (F.seen fields.now) name.now thread }
{
    if same_bytes(name, b"Return") {
        return reply_from(fields, thread);
    }
    if same_bytes(name, b"Notify") {
        let chosen = fields.chosen()?;
        return Some(Move::Notify { thread, chosen });
    }
    if same_bytes(name, b"Refuse") {
        let cause = cause_at(fields)?;
        return Some(Move::Refuse { thread, cause });
    }
    None
}

/// The move of a thread with this name and so many members.
fn thread_move<F: Fields>(count: usize, fields: &F, name: &[u8], thread: ThreadId) -> Option<Move>
    ensures { result ≡ thread_move count (F.seen fields.now) name.now thread }
{
    if count == 2 {
        return plain_named(name, thread);
    }
    if same_bytes(name, b"Call") {
        return call_from(count, fields, thread);
    }
    if count == 3 {
        return move_of_three(fields, name, thread);
    }
    if count == 4 && same_bytes(name, b"Return") {
        return refused_from(fields, thread);
    }
    None
}

pub(crate) fn move_named<F: Fields>(count: usize, fields: &F, name: &[u8]) -> Option<Move>
    ensures { result ≡ move_named count (F.seen fields.now) name.now }
{
    if count == 2 && same_bytes(name, b"Time") {
        let now = fields.now()?;
        return Some(Move::Time { now });
    }
    thread_move(count, fields, name, thread_at(fields)?)
}

#[tactic(auto, unfolding(crate::specs::Reading::move_from))]
fn found_move(value: &Value) -> Option<Move>
    ensures found { result ≡ move_from (view value.now) }
    ensures ordered { IfSome result (λ _. IsOrderedData (view value.now)) }
{
    let count = count_in(value)?;
    let name = value.name()?;
    move_named(count, value, name)
}

/// The move that a value is. A value is one exactly where it is the object that [`write_move`]
/// makes of that move: no member more or less, and each in its range.
///
/// [`write_move`]: crate::write_move
pub fn read_move(value: &Value) -> Option<Move>
    ensures found { IfSome result (IsMoveData (view value.now)) }
    ensures none { IfNone result ((m : MoveData) → IsMoveData (view value.now) m → ⊥) }
{
    found_move(value)
}

#[tactic(auto, unfolding(crate::specs::Reading::first_from))]
fn found_first(value: &Value) -> Option<u16>
    ensures found { result ≡ first_from (view value.now) }
    ensures ordered { IfSome result (λ _. IsOrderedData (view value.now)) }
{
    let count = count_in(value)?;
    if count != 1 {
        return None;
    }
    let objects = whole_at(value, "objects")?;
    if objects <= MOST_OBJECTS {
        Some(objects as u16)
    } else {
        None
    }
}

/// The number of objects that a value tells.
pub(crate) fn read_first(value: &Value) -> Option<u16>
    ensures found { IfSome result (IsFirstData (view value.now)) }
    ensures none { IfNone result ((n : ℕ) → IsFirstData (view value.now) n → ⊥) }
{
    found_first(value)
}

/// A value is one move at most, and tells one number of objects at most. So a move that is written
/// is read back.
pub fn each_value_is_one_move()
    ensures moves { (d : Data) (m n : MoveData) → IsMoveData d m → IsMoveData d n → m ≡ n }
    ensures objects { (d : Data) (m n : ℕ) → IsFirstData d m → IsFirstData d n → m ≡ n }
{}
