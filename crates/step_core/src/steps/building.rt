//! What a step did, built: its atomic step, and the moves that it hands out.

ghost use Rattle.std.specs.Prelude.{◌≡◌};
ghost use Rattle.step_core.specs.Did.{move_for, no_move, one_move, move_and_return, return_alone};
ghost use Rattle.step_core.specs.Did.{grant_of, move_grant_and_return, parking};

use crate::{Atomic, Did, Move};
use fast_path::Call;
use fat_monitor::{Fats, Post, Reply};
use lock_word::ThreadId;

/// The move by which a call gets this reply; a notify tells whom it chose.
pub(crate) fn move_for(call: Call, reply: Reply, chosen: Option<ThreadId>, thread: ThreadId) -> Move
    ensures { result ≡ move_for call reply chosen thread }
{
    match reply {
        Reply::Entered => Move::Lock { thread },
        Reply::Exited => Move::Unlock { thread },
        Reply::WaitOver => Move::Relock { thread },
        Reply::Interrupted => Move::Early { thread },
        Reply::Done => Move::Interrupt { thread },
        Reply::Notified => match call {
            Call::NotifyAll(_) => Move::NotifyAll { thread },
            _ => Move::Notify { thread, chosen },
        },
        Reply::Ended => Move::End { thread },
        Reply::Yes | Reply::No => match call {
            Call::Interrupted => Move::TestClear { thread },
            _ => Move::Ask { thread },
        },
        Reply::IllegalMonitorState => Move::Illegal { thread },
        Reply::IllegalArgument => Move::BadArgument { thread },
        Reply::Refused(cause) => Move::Refuse { thread, cause },
    }
}

/// The move by which the thread that was granted a monitor became its owner.
pub(crate) fn grant_of(fats: &Fats, granted: Option<ThreadId>) -> Option<Move>
    ensures { result ≡ grant_of fats.now granted }
{
    let thread = granted?;
    match fats.post(thread) {
        Some(Post::Granted(Reply::Entered)) => Some(Move::Lock { thread }),
        _ => Some(Move::Relock { thread }),
    }
}

impl Did {
    /// No move is made.
    #[inline(always)]
    pub(crate) fn no_move(atomic: Atomic) -> Did
        ensures { result ≡ no_move atomic }
    {
        Did {
            atomic,
            moves: [None, None, None],
            reply: None,
        }
    }

    /// One move is made, and the call goes on.
    #[inline(always)]
    pub(crate) fn one_move(atomic: Atomic, made: Move) -> Did
        ensures { result ≡ one_move atomic made }
    {
        Did {
            atomic,
            moves: [Some(made), None, None],
            reply: None,
        }
    }

    /// The call gets its reply by this move, and returns with it.
    #[inline(always)]
    pub(crate) fn move_and_return(atomic: Atomic, made: Move, thread: ThreadId, reply: Reply) -> Did
        ensures { result ≡ move_and_return atomic made thread reply }
    {
        Did {
            atomic,
            moves: [Some(made), Some(Move::Return { thread, reply }), None],
            reply: Some(reply),
        }
    }

    /// The call returns with the reply that it has.
    #[inline(always)]
    pub(crate) fn return_alone(atomic: Atomic, thread: ThreadId, reply: Reply) -> Did
        ensures { result ≡ return_alone atomic thread reply }
    {
        Did {
            atomic,
            moves: [Some(Move::Return { thread, reply }), None, None],
            reply: Some(reply),
        }
    }

    /// The call gets its reply, another thread may have become the owner, and the call returns.
    pub(crate) fn move_grant_and_return(
        atomic: Atomic,
        made: Move,
        granted: Option<Move>,
        thread: ThreadId,
        reply: Reply,
    ) -> Did
        ensures { result ≡ move_grant_and_return atomic made granted thread reply }
    {
        let Some(grant) = granted else {
            return Did::move_and_return(atomic, made, thread, reply);
        };
        Did {
            atomic,
            moves: [
                Some(made),
                Some(grant),
                Some(Move::Return { thread, reply }),
            ],
            reply: Some(reply),
        }
    }

    /// The call parks: a wait joins the wait set, and another thread may have become the owner.
    pub(crate) fn parking(
        call: Call,
        atomic: Atomic,
        thread: ThreadId,
        granted: Option<Move>,
    ) -> Did
        ensures { result ≡ parking call atomic thread granted }
    {
        match call {
            Call::Wait { .. } => Did {
                atomic,
                moves: [Some(Move::Wait { thread }), granted, None],
                reply: None,
            },
            _ => Did::no_move(atomic),
        }
    }
}
