//! Arrows from one thread to another.

ghost use Rattle.std.specs.Prelude.{◌≡◌, ◌≤◌, ◌<◌, ◌+◌, ◌^◌, ◌++◌, ◌∷◌, [], OnOk, IfOk, None, length};
ghost use Rattle.jls_check.specs.MachineState.{state, thread_of};
ghost use Rattle.std.specs.Option.{option_map};
ghost use Rattle.step_core.specs.Machine.{is_waiting};
ghost use Rattle.pictures.specs.Arrows.{arrow_at, arrows_of, arrows_of_call, arrows_to_waiters};
ghost use Rattle.pictures.specs.Arrows.{arrow_to_waiter};
ghost use Rattle.pictures.specs.Arrows.{call_in, hand_over, hand_overs, last_after};
ghost use Rattle.pictures.specs.Spans.{strip_covered};

use crate::picture::{Arrow, ArrowKind, StripSpan};
use fast_path::Call;
use jls_check::{Live, Machine};
use lock_word::{ObjectId, ThreadId};
use std::alloc::AllocError;
use step_core::{Doing, Move};

/// Who owned an object last, and the column in which it gave the object up.
#[derive(Clone, Copy)]
pub(crate) struct LastOwner {
    pub(crate) thread: ThreadId,
    pub(crate) until: u32,
}

/// Adds the arrows of a move that the machine is to make in this column.
pub(crate) fn put_arrows(
    arrows: &mut Vec<Arrow>,
    machine: &Machine,
    threads: &[ThreadId],
    column: u32,
    made: Move,
) -> Result<(), AllocError>
    ensures { OnOk result (arrows.new.items ≡ arrows.old.items
        ++ arrows_of threads.now column (state machine.now) made) }
{
    match made {
        Move::Notify {
            thread,
            chosen: Some(chosen),
        } => {
            arrows.push(arrow_at(ArrowKind::Notify, column, thread, chosen))?;
            Ok(())
        }
        Move::NotifyAll { thread } | Move::Interrupt { thread } => {
            let call = call_in(machine.live(thread));
            put_arrows_of_call(arrows, machine, threads, column, thread, call)
        }
        _ => Ok(()),
    }
}

/// An arrow within a column.
fn arrow_at(kind: ArrowKind, column: u32, from: ThreadId, to: ThreadId) -> Arrow
    ensures { result ≡ arrow_at kind column from to }
{
    Arrow {
        kind,
        from_column: column,
        from,
        to_column: column,
        to,
    }
}

/// Adds the arrows of a call that acts.
fn put_arrows_of_call(
    arrows: &mut Vec<Arrow>,
    machine: &Machine,
    threads: &[ThreadId],
    column: u32,
    thread: ThreadId,
    call: Option<Call>,
) -> Result<(), AllocError>
    ensures { OnOk result (arrows.new.items ≡ arrows.old.items
        ++ arrows_of_call threads.now column (state machine.now) thread call) }
{
    match call {
        Some(Call::NotifyAll(object)) => {
            put_arrows_to_waiters(arrows, machine, threads, column, thread, object)
        }
        Some(Call::Interrupt(target)) => {
            arrows.push(arrow_at(ArrowKind::Interrupt, column, thread, target))?;
            Ok(())
        }
        _ => Ok(()),
    }
}

/// The call that a thread has made and that has no answer yet.
pub(crate) fn call_in(live: Option<Live>) -> Option<Call>
    ensures { result ≡ call_in (option_map thread_of live) }
{
    match live?.act {
        Doing::Wants(call) => Some(call),
        _ => None,
    }
}

/// Adds an arrow to each of these threads that waits on the object.
fn put_arrows_to_waiters(
    arrows: &mut Vec<Arrow>,
    machine: &Machine,
    threads: &[ThreadId],
    column: u32,
    from: ThreadId,
    object: ObjectId,
) -> Result<(), AllocError>
    ensures { OnOk result (arrows.new.items ≡ arrows.old.items
        ++ arrows_to_waiters (state machine.now) column from object threads.now) }
{
    'threads: for thread in threads {
        put_arrow_to_waiter(arrows, machine, column, from, object, *thread)?;
    }
    Ok(())
}

/// Adds an arrow to a thread, if it waits on the object.
fn put_arrow_to_waiter(
    arrows: &mut Vec<Arrow>,
    machine: &Machine,
    column: u32,
    from: ThreadId,
    object: ObjectId,
    to: ThreadId,
) -> Result<(), AllocError>
    ensures { OnOk result (arrows.new.items ≡ arrows.old.items
        ++ arrow_to_waiter (state machine.now) column from object to) }
{
    if is_waiting(machine, to, object) {
        arrows.push(arrow_at(ArrowKind::Notify, column, from, to))?;
    }
    Ok(())
}

/// Whether a thread is in the wait set of an object.
pub(crate) fn is_waiting(machine: &Machine, thread: ThreadId, object: ObjectId) -> bool
    ensures { result ≡ is_waiting ((state machine.now).thread thread) object }
{
    match machine.live(thread) {
        Some(
            Live {
                act: Doing::Waits {
                    object: awaited,
                    ..
                },
                ..
            },
        ) => awaited.0 == object.0,
        _ => false,
    }
}

/// Adds an arrow from each owner of an object to the next one, where they are two.
pub(crate) fn put_hand_overs(arrows: &mut Vec<Arrow>, spans: &[StripSpan]) -> Result<(), AllocError>
    requires { length (strip_covered spans.now) < 2 ^ 32 }
    ensures { OnOk result (arrows.new.items
        ≡ arrows.old.items ++ hand_overs None 0 spans.now) }
{
    let mut last = None;
    let mut column = 0u32;
    'spans: for span in spans {
        put_hand_over(arrows, last, column, span.held.owner)?;
        column += span.columns;
        last = last_after(last, column, span.held.owner);
    }
    Ok(())
}

/// Adds the arrow from the owner that was last to the one that owns from a column on.
fn put_hand_over(
    arrows: &mut Vec<Arrow>,
    last: Option<LastOwner>,
    column: u32,
    owner: Option<ThreadId>,
) -> Result<(), AllocError>
    ensures { OnOk result (arrows.new.items ≡ arrows.old.items ++ hand_over last column owner) }
{
    let (Some(last), Some(owner)) = (last, owner) else {
        return Ok(());
    };
    if last.thread.0 != owner.0 {
        arrows.push(Arrow {
            kind: ArrowKind::HandOver,
            from_column: last.until,
            from: last.thread,
            to_column: column,
            to: owner,
        })?;
    }
    Ok(())
}

/// Who owned last, once this one has owned until a column.
fn last_after(last: Option<LastOwner>, until: u32, owner: Option<ThreadId>) -> Option<LastOwner>
    ensures { result ≡ last_after last until owner }
{
    match owner {
        Some(thread) => Some(LastOwner { thread, until }),
        None => last,
    }
}
