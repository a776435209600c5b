//! What the call and the act of a thread say.

ghost use Rattle.std.specs.Prelude.{◌≡◌, ◌↔◌, IsTrue};
ghost use Rattle.fat_monitor.specs.Replies.{yes_or_no};
ghost use Rattle.step_core.specs.Machine.{owner_only, after_interrupt};
ghost use Rattle.jls_check.specs.Taking.{has_reply};

use fast_path::Call;
use fat_monitor::{Reply, Why};
use lock_word::ObjectId;
use step_core::Doing;

/// The object whose owner alone may make this call.
pub(crate) fn owner_only(call: Call) -> Option<ObjectId>
    ensures { result ≡ owner_only call }
{
    match call {
        Call::Exit(object) | Call::Notify(object) | Call::NotifyAll(object) => Some(object),
        Call::Wait { object, .. } => Some(object),
        _ => None,
    }
}

/// What a thread does once it has been interrupted: it comes back, if it waited.
pub(crate) fn after_interrupt(act: Doing) -> Doing
    ensures { result ≡ after_interrupt act }
{
    match act {
        Doing::Waits { object, holds, .. } => Doing::Back {
            object,
            holds,
            why: Why::Interrupted,
        },
        _ => act,
    }
}

pub(crate) fn yes_or_no(answer: bool) -> Reply
    ensures { result ≡ yes_or_no answer }
{
    if answer { Reply::Yes } else { Reply::No }
}

/// Whether a thread that does this has this reply.
pub(crate) fn has(act: Doing, reply: Reply) -> bool
    ensures { result ≡ has_reply act reply }
{
    match act {
        Doing::Has(other) => is_same(other, reply),
        _ => false,
    }
}

fn is_same(one: Reply, other: Reply) -> bool
    ensures { IsTrue result ↔ (one ≡ other) }
{
    one == other
}
