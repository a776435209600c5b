//! Whether the record has just the deeds of a pass under its number.

ghost use Rattle.std.specs.Prelude.{◌≡◌, true, false};
ghost use Rattle.live_turns.specs.Ends.{own_of};

use crate::{Deed, Logged};
use fat_monitor::{Action, Answer, Reply};

// Whether two places of a record say the same. The prover does not find that a derived equality of
// so many cases is equality, so the cases are written out.
fn same(left: &Logged, right: &Logged) -> bool
    ensures same { result ≡ true → left.now ≡ right.now }
    ensures other { result ≡ false → left.now ≡ right.now → ⊥ }
{
    left.thread.0 == right.thread.0 && same_deed(left.deed, right.deed)
}

// Whether these are one deed.
fn same_deed(left: Deed, right: Deed) -> bool
    ensures same { result ≡ true → left ≡ right }
    ensures other { result ≡ false → left ≡ right → ⊥ }
{
    match (left, right) {
        (
            Deed::Bound {
                object,
                holds,
                monitor,
            },
            Deed::Bound {
                object: other,
                holds: count,
                monitor: number,
            },
        ) => object.0 == other.0 && holds == count && monitor == number,
        (
            Deed::Acted { action, answer },
            Deed::Acted {
                action: other,
                answer: second,
            },
        ) => same_action(action, other) && same_answer(answer, second),
        (Deed::Ticked { now }, Deed::Ticked { now: other }) => now == other,
        _ => false,
    }
}

// Whether these are one action.
fn same_action(left: Action, right: Action) -> bool
    ensures same { result ≡ true → left ≡ right }
    ensures other { result ≡ false → left ≡ right → ⊥ }
{
    left == right
}

// Whether these are one answer.
fn same_answer(left: Answer, right: Answer) -> bool
    ensures same { result ≡ true → left ≡ right }
    ensures other { result ≡ false → left ≡ right → ⊥ }
{
    match (left, right) {
        (Answer::Reply(reply), Answer::Reply(other)) => same_reply(reply, other),
        (Answer::Parked, Answer::Parked) | (Answer::Quiet, Answer::Quiet) => true,
        _ => false,
    }
}

// Whether these are one reply.
fn same_reply(left: Reply, right: Reply) -> bool
    ensures same { result ≡ true → left ≡ right }
    ensures other { result ≡ false → left ≡ right → ⊥ }
{
    left == right
}

/// Whether the record has just these deeds under this number.
pub(crate) fn agrees(log: &[Logged], own: &[Logged], thread: u16) -> bool
    ensures own { result ≡ true → own_of thread log.now ≡ own.now }
    ensures other { result ≡ false → own_of thread log.now ≡ own.now → ⊥ }
{
    let mut next = 0;
    for entry in log {
        if entry.thread.0 == u32::from(thread) {
            if next >= own.len() || !same(&own[next], entry) {
                return false;
            }
            next += 1;
        }
    }
    next == own.len()
}
