//! Whom a move touches: every thread for which the machine may say something else behind it.

ghost use Rattle.std.specs.Prelude.{◌≡◌};
ghost use Rattle.jls_check.specs.MachineState.{state};
ghost use Rattle.pictures.specs.Touched.{is_touched, touched_by, touched_by_call};

use crate::arrows::{call_in, is_waiting};
use fast_path::Call;
use jls_check::Machine;
use lock_word::{ObjectId, ThreadId};
use step_core::Move;

/// The threads that a move touches.
#[derive(Clone, Copy)]
pub(crate) enum Touched {
    Nobody,
    One(ThreadId),
    Two(ThreadId, ThreadId),
    /// A thread, and each that waits on the object.
    Waiters { thread: ThreadId, object: ObjectId },
}

/// Whom a move touches that the machine is to make.
pub(crate) fn touched_by(machine: &Machine, made: Move) -> Touched
    ensures { result ≡ touched_by (state machine.now) made }
{
    match made {
        Move::Notify {
            thread,
            chosen: Some(chosen),
        } => Touched::Two(thread, chosen),
        Move::NotifyAll { thread } | Move::Interrupt { thread } => {
            touched_by_call(thread, call_in(machine.live(thread)))
        }
        Move::Attach { thread }
        | Move::Call { thread, .. }
        | Move::Return { thread, .. }
        | Move::Lock { thread }
        | Move::Unlock { thread }
        | Move::Illegal { thread }
        | Move::BadArgument { thread }
        | Move::Early { thread }
        | Move::Wait { thread }
        | Move::Notify { thread, .. }
        | Move::TestClear { thread }
        | Move::Expire { thread }
        | Move::Spurious { thread }
        | Move::Relock { thread }
        | Move::Ask { thread }
        | Move::Refuse { thread, .. }
        | Move::End { thread } => Touched::One(thread),
        Move::Time { .. } => Touched::Nobody,
    }
}

/// Whom a thread's call touches when it acts.
fn touched_by_call(thread: ThreadId, call: Option<Call>) -> Touched
    ensures { result ≡ touched_by_call thread call }
{
    match call {
        Some(Call::NotifyAll(object)) => Touched::Waiters { thread, object },
        Some(Call::Interrupt(target)) => Touched::Two(thread, target),
        _ => Touched::One(thread),
    }
}

/// Whether a thread is among those that are touched.
pub(crate) fn is_touched(machine: &Machine, touched: Touched, thread: ThreadId) -> bool
    ensures { result ≡ is_touched (state machine.now) touched thread }
{
    match touched {
        Touched::Nobody => false,
        Touched::One(one) => thread.0 == one.0,
        Touched::Two(one, other) => thread.0 == one.0 || thread.0 == other.0,
        Touched::Waiters {
            thread: caller,
            object,
        } => thread.0 == caller.0 || is_waiting(machine, thread, object),
    }
}
