//! Reading steps and splits from numbers.

ghost use Rattle.std.specs.Prelude.{◌≡◌};
ghost use Rattle.nadkhoy_c.specs.Reading.{call_from_numbers, step_from_numbers, split_of};

use crate::plain::{PlainCall, PlainStep};
use step_core::{Call, ObjectId, Split, Step, ThreadId};

/// The call that the numbers name; None where its kind is none.
pub(crate) fn call_of(plain: &PlainCall) -> Option<Call>
    ensures { result ≡ call_from_numbers plain.now }
{
    let object = ObjectId(plain.target);
    let target = ThreadId(plain.target);
    match plain.kind {
        1 => Some(Call::Enter(object)),
        2 => Some(Call::Exit(object)),
        3 => Some(Call::Wait {
            object,
            millis: plain.millis,
            nanos: plain.nanos,
        }),
        4 => Some(Call::Notify(object)),
        5 => Some(Call::NotifyAll(object)),
        6 => Some(Call::Holds(object)),
        7 => Some(Call::Interrupt(target)),
        8 => Some(Call::Interrupted),
        9 => Some(Call::IsInterrupted(target)),
        10 => Some(Call::End),
        _ => None,
    }
}

/// The step that the numbers name; None where its kind or the kind of its call is none.
pub(crate) fn step_of(plain: &PlainStep) -> Option<Step>
    ensures { result ≡ step_from_numbers plain.now }
{
    let thread = ThreadId(plain.thread);
    match plain.kind {
        1 => Some(Step::Attach { thread }),
        2 => match call_of(&plain.call) {
            Some(call) => Some(Step::Begin { thread, call }),
            None => None,
        },
        3 => Some(Step::Go { thread }),
        4 => Some(Step::Expire { thread }),
        5 => Some(Step::Spurious { thread }),
        6 => Some(Step::Tick { now: plain.moment }),
        _ => None,
    }
}

/// The split that a number names.
pub(crate) fn split_of(number: u32) -> Option<Split>
    ensures { result ≡ split_of number }
{
    match number {
        1 => Some(Split::Wide),
        2 => Some(Split::Deep),
        _ => None,
    }
}
