//! What an action changes of the kept places of the record.

ghost use Rattle.std.specs.Prelude.{◌≡◌};
ghost use Rattle.live_book.specs.Places.{gained, freed};

use fat_monitor::{Action, Answer, Reply};

/// How many places more are kept after an action with this answer.
#[inline(always)]
pub(crate) fn gained(action: Action, answer: Answer) -> u32
    ensures { result ≡ gained action answer }
{
    match (action, answer) {
        (Action::Enter { .. }, Answer::Reply(Reply::Entered)) => 1,
        (Action::Enter { .. } | Action::Wait { .. }, Answer::Parked) => 2,
        _ => 0,
    }
}

/// How many places less are kept after an action with this answer, before which so many threads
/// waited, and after which so many still wait.
#[inline(always)]
pub(crate) fn freed(action: Action, answer: Answer, waited: u16, waiting: u16) -> u32
    ensures { result ≡ freed action answer waited waiting }
{
    match action {
        Action::Exit { .. } => u32::from(answer == Answer::Reply(Reply::Exited)),
        Action::Collect => 1,
        Action::Notify { .. }
        | Action::NotifyAll { .. }
        | Action::Interrupt { .. }
        | Action::Expire
        | Action::Spurious => u32::from(waited.saturating_sub(waiting)),
        _ => 0,
    }
}
