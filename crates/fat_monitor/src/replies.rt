//! What an action tells, and what a grant gives.

ghost use Rattle.std.specs.Prelude.{◌≡◌, Ok};
ghost use Rattle.fat_monitor.specs.FatState.{FatState, is_owned_by};
ghost use Rattle.fat_monitor.specs.Acting.{holds_granted, reply_granted, reply_back, replies};
ghost use Rattle.fat_monitor.specs.Replies.{yes_or_no};

use crate::{Answer, Done, Post, Reply, Why};
use lock_word::ThreadId;

/// Whether this thread is the owner.
pub(crate) fn is_owner(owner: Option<ThreadId>, thread: ThreadId) -> bool
    ensures { result ≡ is_owned_by owner thread }
{
    match owner {
        Some(other) => other.0 == thread.0,
        None => false,
    }
}

/// How often a thread with this post holds the monitor that it is granted, and what its call
/// replies.
pub(crate) fn granted_to(post: Post) -> (u16, Reply)
    ensures { result ≡ (holds_granted post, reply_granted post) }
{
    match post {
        Post::Back { holds, why, .. } => (holds, reply_back(why)),
        _ => (1, Reply::Entered),
    }
}

/// What a wait replies that was ended for this reason (JLS SE 8, 17.2.1).
fn reply_back(why: Why) -> Reply
    ensures { result ≡ reply_back why }
{
    match why {
        Why::Interrupted => Reply::Interrupted,
        Why::Notified | Why::Elapsed | Why::Spurious => Reply::WaitOver,
    }
}

/// The answer to a question.
pub(crate) fn yes_or_no(answer: bool) -> Reply
    ensures { result ≡ yes_or_no answer }
{
    if answer { Reply::Yes } else { Reply::No }
}

/// The call that made the action has this reply, and no other thread is named.
pub(crate) fn reply_with(reply: Reply) -> Done
    ensures { (f : FatState) → record { answer = Ok result; after = f } ≡ replies f reply }
{
    tell(Answer::Reply(reply), None, None)
}

pub(crate) fn tell(answer: Answer, granted: Option<ThreadId>, chosen: Option<ThreadId>) -> Done
    ensures { result ≡ record { answer = answer; granted = granted; chosen = chosen } }
{
    Done {
        answer,
        granted,
        chosen,
    }
}
