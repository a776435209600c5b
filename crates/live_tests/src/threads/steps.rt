//! What a thread does with its pass, step by step, and what comes of each step.

ghost use Rattle.std.specs.Prelude.{◌≡◌};

use crate::threads::signs::{Sign, Signs};
use fast_path::Call;
use fat_monitor::Reply;
use live_threads::{Live, LivePass};
use live_turns::{Crew, LiveFault};
use std::process::Abort;
use std::sync::Wait;
use std::time::Clock;

/// What a thread does next.
#[derive(Clone, Copy, Debug)]
pub(crate) enum Step {
    /// Makes a call, which has this reply.
    Makes(Call, Reply),
    /// Makes a call, which has this fault.
    Fails(Call, LiveFault),
    /// Tells a moment, which has this answer.
    Tells(u64, Result<(), LiveFault>),
    /// Finds so many places of the record used.
    Finds(u32),
    /// Has the book while it gives the sign `Ready`, and until `Done` is given.
    Lends,
    Gives(Sign),
    Awaits(Sign),
}

/// Whether a call is answered so.
fn is_answered<L: Crew, R: Wait + Clock>(
    rt: &R,
    live: &Live<L>,
    pass: &mut LivePass<L>,
    call: Call,
    answer: Result<Reply, LiveFault>,
) -> bool
    requires here { pass.old.words.opening ≡ live.now }
    ensures here { pass.new.words.opening ≡ live.now }
{
    let told = match call {
        Call::Enter(object) => live.enter(rt, pass, object),
        Call::Exit(object) => live.exit(rt, pass, object),
        Call::Wait {
            object,
            millis,
            nanos,
        } => live.wait_on(rt, pass, object, millis, nanos),
        Call::Notify(object) => live.notify(rt, pass, object),
        Call::NotifyAll(object) => live.notify_all(rt, pass, object),
        Call::Holds(object) => live.holds(rt, pass, object),
        Call::Interrupt(thread) => live.interrupt(rt, pass, thread),
        Call::Interrupted => live.interrupted(rt, pass),
        Call::IsInterrupted(thread) => live.is_interrupted(rt, pass, thread),
        // The live service has no such call.
        Call::End => return false,
    };
    told == answer
}

/// Whether a step comes to what it should.
fn is_done<L: Crew, R: Wait + Clock>(
    rt: &R,
    live: &Live<L>,
    pass: &mut LivePass<L>,
    signs: &Signs,
    step: Step,
) -> bool
    requires here { pass.old.words.opening ≡ live.now }
    ensures here { pass.new.words.opening ≡ live.now }
{
    match step {
        Step::Makes(call, reply) => is_answered(rt, live, pass, call, Ok(reply)),
        Step::Fails(call, fault) => is_answered(rt, live, pass, call, Err(fault)),
        Step::Tells(now, answer) => live.tick(rt, pass, now) == answer,
        Step::Finds(places) => live.look(rt, pass, |book| book.used() == places),
        Step::Lends => live.look(rt, pass, |_| {
            signs.give(Sign::Ready);
            signs.is_seen(Sign::Done)
        }),
        Step::Gives(sign) => {
            signs.give(sign);
            true
        }
        Step::Awaits(sign) => signs.is_seen(sign),
    }
}

/// Takes these steps, each of which comes to what it should. Calls wait by one runtime, and a step
/// that comes to something else ends the test by the other.
pub(crate) fn are_done<L: Crew, R: Wait + Clock>(
    test: &impl Abort,
    rt: &R,
    live: &Live<L>,
    pass: &mut LivePass<L>,
    signs: &Signs,
    steps: &[Step],
)
    requires here { pass.old.words.opening ≡ live.now }
    ensures here { pass.new.words.opening ≡ live.now }
{
    for &step in steps {
        assert!(test; is_done(rt, live, pass, signs, step), "{step:?}");
    }
}
