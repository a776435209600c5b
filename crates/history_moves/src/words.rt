//! What the words stand for that name moves, calls, replies and causes. They are told apart by
//! comparisons, one after the other, since a `match` on a slice goes byte by byte, both in its
//! proof and in what is compiled.

ghost use Rattle.std.specs.Prelude.{◌≡◌, option_map};
ghost use Rattle.fat_monitor.specs.Names.{cause_name};
ghost use Rattle.history_moves.specs.Words.{among, object_calls, target_calls, bare_calls};
ghost use Rattle.history_moves.specs.Words.{short_replies, causes, plain_from};

use crate::pieces::comparing::same_bytes;
use fast_path::Call;
use fat_monitor::{Cause, Reply};
use lock_word::{ObjectId, ThreadId};
use step_core::Move;

pub(crate) fn object_call_named(verb: &[u8], object: ObjectId) -> Option<Call>
    ensures { result ≡ option_map (λ made. made object) (among object_calls verb.now) }
{
    if same_bytes(verb, b"Enter") {
        return Some(Call::Enter(object));
    }
    if same_bytes(verb, b"Exit") {
        return Some(Call::Exit(object));
    }
    if same_bytes(verb, b"Notify") {
        return Some(Call::Notify(object));
    }
    if same_bytes(verb, b"NotifyAll") {
        return Some(Call::NotifyAll(object));
    }
    if same_bytes(verb, b"Holds") {
        return Some(Call::Holds(object));
    }
    None
}

pub(crate) fn target_call_named(verb: &[u8], target: ThreadId) -> Option<Call>
    ensures { result ≡ option_map (λ made. made target) (among target_calls verb.now) }
{
    if same_bytes(verb, b"Interrupt") {
        return Some(Call::Interrupt(target));
    }
    if same_bytes(verb, b"IsInterrupted") {
        return Some(Call::IsInterrupted(target));
    }
    None
}

pub(crate) fn bare_call_named(verb: &[u8]) -> Option<Call>
    ensures { result ≡ among bare_calls verb.now }
{
    if same_bytes(verb, b"Interrupted") {
        return Some(Call::Interrupted);
    }
    if same_bytes(verb, b"End") {
        return Some(Call::End);
    }
    None
}

/// A reply that no cause belongs to.
pub(crate) fn reply_named(word: &[u8]) -> Option<Reply>
    ensures { result ≡ among short_replies word.now }
{
    if same_bytes(word, b"Entered") {
        return Some(Reply::Entered);
    }
    if same_bytes(word, b"Exited") {
        return Some(Reply::Exited);
    }
    if same_bytes(word, b"WaitOver") {
        return Some(Reply::WaitOver);
    }
    if same_bytes(word, b"Interrupted") {
        return Some(Reply::Interrupted);
    }
    if same_bytes(word, b"Notified") {
        return Some(Reply::Notified);
    }
    if same_bytes(word, b"Yes") {
        return Some(Reply::Yes);
    }
    if same_bytes(word, b"No") {
        return Some(Reply::No);
    }
    if same_bytes(word, b"Done") {
        return Some(Reply::Done);
    }
    if same_bytes(word, b"Ended") {
        return Some(Reply::Ended);
    }
    if same_bytes(word, b"IllegalMonitorState") {
        return Some(Reply::IllegalMonitorState);
    }
    if same_bytes(word, b"IllegalArgument") {
        return Some(Reply::IllegalArgument);
    }
    None
}

pub(crate) fn cause_named(word: &[u8]) -> Option<Cause>
    ensures { result ≡ among causes word.now }
{
    if same_bytes(word, b"NoMonitor") {
        return Some(Cause::NoMonitor);
    }
    if same_bytes(word, b"Memory") {
        return Some(Cause::Memory);
    }
    if same_bytes(word, b"TooDeep") {
        return Some(Cause::TooDeep);
    }
    if same_bytes(word, b"StillOwner") {
        return Some(Cause::StillOwner);
    }
    if same_bytes(word, b"NoThread") {
        return Some(Cause::NoThread);
    }
    None
}

pub(crate) fn name_of_cause(cause: Cause) -> &'static str
    ensures { result.now ≡ cause_name cause }
{
    match cause {
        Cause::NoMonitor => "NoMonitor",
        Cause::Memory => "Memory",
        Cause::TooDeep => "TooDeep",
        Cause::StillOwner => "StillOwner",
        Cause::NoThread => "NoThread",
    }
}

/// A move of which nothing is told but the thread. Long by its rows, one for each name.
pub(crate) fn plain_named(name: &[u8], thread: ThreadId) -> Option<Move>
    ensures { result ≡ plain_from name.now thread }
{
    if same_bytes(name, b"Attach") {
        return Some(Move::Attach { thread });
    }
    if same_bytes(name, b"Lock") {
        return Some(Move::Lock { thread });
    }
    if same_bytes(name, b"Unlock") {
        return Some(Move::Unlock { thread });
    }
    if same_bytes(name, b"Illegal") {
        return Some(Move::Illegal { thread });
    }
    if same_bytes(name, b"BadArgument") {
        return Some(Move::BadArgument { thread });
    }
    if same_bytes(name, b"Early") {
        return Some(Move::Early { thread });
    }
    if same_bytes(name, b"Wait") {
        return Some(Move::Wait { thread });
    }
    if same_bytes(name, b"NotifyAll") {
        return Some(Move::NotifyAll { thread });
    }
    if same_bytes(name, b"Interrupt") {
        return Some(Move::Interrupt { thread });
    }
    if same_bytes(name, b"TestClear") {
        return Some(Move::TestClear { thread });
    }
    if same_bytes(name, b"Ask") {
        return Some(Move::Ask { thread });
    }
    if same_bytes(name, b"Expire") {
        return Some(Move::Expire { thread });
    }
    if same_bytes(name, b"Spurious") {
        return Some(Move::Spurious { thread });
    }
    if same_bytes(name, b"Relock") {
        return Some(Move::Relock { thread });
    }
    if same_bytes(name, b"End") {
        return Some(Move::End { thread });
    }
    None
}
