//! The queue of a search: states that are still to be visited, kept as they are.

ghost use Rattle.std.specs.Prelude.{◌≡◌, ◌∷◌, IfNone, IfSome, Some, slice_get};
ghost use Rattle.explore.specs.declared.queue.Queued.{Queued};

use crate::states::State;
use std::collections::VecDeque;

/// How many states a queue has at most. Of one that is found while it is full, only the code and
/// how it was found are kept: it is made anew when it is visited.
pub(crate) const MOST_QUEUED: usize = 4_096;

/// A state in the queue, with its number.
#[derive(Drop)]
pub(crate) struct Queued {
    pub(crate) number: usize,
    pub(crate) state: State,
}

/// Takes the first state of a queue, where it has this number.
pub(crate) fn take_queued(queue: &mut VecDeque<Queued>, at: u32) -> Option<State>
    ensures none { IfNone result (queue.new.items ≡ queue.old.items) }
    ensures other { IfNone result ((q : Queued) → slice_get queue.old.items 0 ≡ Some q
        → q.number ≡ at → ⊥) }
    ensures some { IfSome result (λ s. queue.old.items
        ≡ record { number = at; state = s } ∷ queue.new.items) }
{
    if queue.front()?.number != at as usize {
        return None;
    }
    let first = queue.pop_front()?;
    Some(first.state)
}
