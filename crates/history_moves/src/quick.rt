//! Reading a line that is just as a move is written: with no blank, and its keys in byte order.

ghost use Rattle.std.specs.Prelude.{◌≡◌, ◌++◌, codes, IfSome};
ghost use Rattle.history_moves.specs.Texts.{Reads};

use crate::pieces::comparing::same_bytes;
use crate::pieces::{
    behind, is_end, number_in, signed_in, small_number_in, small_signed_in, thread_in, word_in,
};
use crate::words::{
    bare_call_named, cause_named, object_call_named, plain_named, reply_named, target_call_named,
};
use fast_path::Call;
use fat_monitor::Reply;
use lock_word::{ObjectId, ThreadId};
use step_core::Move;

/// The move that a line is, where the line is the one text that the move is written with. None
/// where it is not: such a line is left to the readers of any spelling.
pub(crate) fn quick_move(line: &[u8]) -> Option<Move>
    ensures { IfSome result (Reads line.now) }
{
    if let Some(rest) = behind(line, b"{\"move\":\"") {
        return named_move(rest);
    }
    if let Some(rest) = behind(line, b"{\"call\":\"") {
        return call_move(rest);
    }
    if let Some(rest) = behind(line, b"{\"chosen\":") {
        return notify_move(rest);
    }
    caused_move(behind(line, b"{\"cause\":\"")?)
}

/// A move whose name comes first.
fn named_move(rest: &[u8]) -> Option<Move>
    ensures { IfSome result (Reads (codes "{\"move\":\"" ++ rest.now)) }
{
    let (name, after) = word_in(rest)?;
    if let Some(thread) = thread_in(after) {
        return plain_named(name, thread);
    }
    if same_bytes(name, b"Return") {
        return return_move(after);
    }
    if same_bytes(name, b"Time") {
        return time_move(after);
    }
    None
}

/// A return with a reply that no cause belongs to.
fn return_move(rest: &[u8]) -> Option<Move>
    ensures { IfSome result (Reads (codes "{\"move\":\"Return\"" ++ rest.now)) }
{
    let (word, after) = word_in(behind(rest, b",\"reply\":\"")?)?;
    let thread = thread_in(after)?;
    let reply = reply_named(word)?;
    Some(Move::Return { thread, reply })
}

/// A moment.
fn time_move(rest: &[u8]) -> Option<Move>
    ensures { IfSome result (Reads (codes "{\"move\":\"Time\"" ++ rest.now)) }
{
    let (now, after) = number_in(behind(rest, b",\"now\":")?)?;
    if is_end(after) {
        Some(Move::Time { now })
    } else {
        None
    }
}

/// A call, whose verb comes first.
fn call_move(rest: &[u8]) -> Option<Move>
    ensures { IfSome result (Reads (codes "{\"call\":\"" ++ rest.now)) }
{
    let (verb, after) = word_in(rest)?;
    if let Some(after) = behind(after, b",\"move\":\"Call\"") {
        return plain_call_move(verb, after);
    }
    if same_bytes(verb, b"Wait") {
        return wait_move(after);
    }
    None
}

/// A call that is no wait.
fn plain_call_move(verb: &[u8], rest: &[u8]) -> Option<Move>
    ensures { IfSome result
        (Reads (codes "{\"call\":\"" ++ (verb.now ++ (codes "\",\"move\":\"Call\"" ++ rest.now)))) }
{
    if let Some(rest) = behind(rest, b",\"object\":") {
        let (object, after) = small_number_in(rest)?;
        let thread = thread_in(after)?;
        let call = object_call_named(verb, ObjectId(object))?;
        return Some(Move::Call { thread, call });
    }
    targeted_call_move(verb, rest)
}

/// A call that names no object.
fn targeted_call_move(verb: &[u8], rest: &[u8]) -> Option<Move>
    ensures { IfSome result
        (Reads (codes "{\"call\":\"" ++ (verb.now ++ (codes "\",\"move\":\"Call\"" ++ rest.now)))) }
{
    if let Some(rest) = behind(rest, b",\"target\":") {
        let (target, after) = small_number_in(rest)?;
        let thread = thread_in(after)?;
        let call = target_call_named(verb, ThreadId(target))?;
        return Some(Move::Call { thread, call });
    }
    let thread = thread_in(rest)?;
    let call = bare_call_named(verb)?;
    Some(Move::Call { thread, call })
}

/// A wait.
fn wait_move(rest: &[u8]) -> Option<Move>
    ensures { IfSome result (Reads (codes "{\"call\":\"Wait\"" ++ rest.now)) }
{
    let (millis, after) = signed_in(behind(rest, b",\"millis\":")?)?;
    let (nanos, after) = small_signed_in(behind(after, b",\"move\":\"Call\",\"nanos\":")?)?;
    let (object, after) = small_number_in(behind(after, b",\"object\":")?)?;
    let thread = thread_in(after)?;
    let call = Call::Wait {
        object: ObjectId(object),
        millis,
        nanos,
    };
    Some(Move::Call { thread, call })
}

/// A notify, of which the thread that was chosen comes first.
fn notify_move(rest: &[u8]) -> Option<Move>
    ensures { IfSome result (Reads (codes "{\"chosen\":" ++ rest.now)) }
{
    if let Some(after) = behind(rest, b"null,\"move\":\"Notify\"") {
        let thread = thread_in(after)?;
        return Some(Move::Notify {
            thread,
            chosen: None,
        });
    }
    let (chosen, after) = small_number_in(rest)?;
    let thread = thread_in(behind(after, b",\"move\":\"Notify\"")?)?;
    Some(Move::Notify {
        thread,
        chosen: Some(ThreadId(chosen)),
    })
}

/// A refusal, or the return from one.
fn caused_move(rest: &[u8]) -> Option<Move>
    ensures { IfSome result (Reads (codes "{\"cause\":\"" ++ rest.now)) }
{
    let (word, after) = word_in(rest)?;
    let cause = cause_named(word)?;
    if let Some(after) = behind(after, b",\"move\":\"Refuse\"") {
        let thread = thread_in(after)?;
        return Some(Move::Refuse { thread, cause });
    }
    let thread = thread_in(behind(after, b",\"move\":\"Return\",\"reply\":\"Refused\"")?)?;
    Some(Move::Return {
        thread,
        reply: Reply::Refused(cause),
    })
}
