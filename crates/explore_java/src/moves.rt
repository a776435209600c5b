//! The moves that are tried in a state.

ghost use Rattle.std.specs.Prelude.{◌≡◌, ◌++◌, ◌∷◌, [], IfOk, OnOk};
ghost use Rattle.step_core.specs.declared.machine.Move.TheVariants.{Refuse};
ghost use Rattle.explore_java.specs.Moves.{call_moves, doing_moves, moves_in, notifies};
ghost use Rattle.explore_java.specs.Moves.{thread_moves};
ghost use Rattle.explore_java.specs.JavaStates.{count_of};

use crate::states::JavaState;
use explore::Program;
use fast_path::Call;
use fat_monitor::Cause;
use lock_word::{Memory, ThreadId};
use std::alloc::{AllocError, Global};
use step_core::{Doing, Move};

/// The moves that are tried in a state: each that can be made there is among them, and the machine
/// refuses the others.
pub(crate) fn moves_in(
    alloc: Global,
    program: &Program,
    state: &JavaState,
) -> Result<Vec<Move>, Memory>
    ensures { IfOk result (λ ms. ms.items ≡ moves_in program.now state.now) }
{
    let mut moves = Vec::new(alloc);
    'threads: for thread in 0..program.starts.len() {
        push_thread_moves(program, state, thread as u32, &mut moves)?;
    }
    if let Some(now) = state.next_moment(program) {
        moves.push(Move::Time { now })?;
    }
    Ok(moves)
}

/// Puts the moves of a thread that are tried behind those that are there.
fn push_thread_moves(
    program: &Program,
    state: &JavaState,
    thread: u32,
    moves: &mut Vec<Move>,
) -> Result<(), AllocError>
    ensures { OnOk result (moves.new.items
        ≡ moves.old.items ++ thread_moves program.now state.now thread) }
{
    match state.machine().live(ThreadId(thread)) {
        Some(live) => push_doing_moves(program, state, ThreadId(thread), live.act, moves),
        None => Ok(()),
    }
}

/// The same, where the thread is doing this.
fn push_doing_moves(
    program: &Program,
    state: &JavaState,
    thread: ThreadId,
    doing: Doing,
    moves: &mut Vec<Move>,
) -> Result<(), AllocError>
    ensures { OnOk result (moves.new.items
        ≡ moves.old.items ++ doing_moves program.now state.now thread doing) }
{
    match doing {
        Doing::Idle => match state.next_call(program, thread.0) {
            Some(call) => Ok(moves.push(Move::Call { thread, call })?),
            None => Ok(()),
        },
        Doing::Wants(call) => push_call_moves(program, thread, call, moves),
        Doing::Waits { .. } if program.spurious => {
            push_both(Move::Expire { thread }, Move::Spurious { thread }, moves)
        }
        Doing::Waits { .. } => Ok(moves.push(Move::Expire { thread })?),
        Doing::Back { .. } => Ok(moves.push(Move::Relock { thread })?),
        Doing::Has(reply) => Ok(moves.push(Move::Return { thread, reply })?),
    }
}

/// The same, where the thread has made this call.
fn push_call_moves(
    program: &Program,
    thread: ThreadId,
    call: Call,
    moves: &mut Vec<Move>,
) -> Result<(), AllocError>
    ensures { OnOk result (moves.new.items
        ≡ moves.old.items ++ call_moves (count_of program.now) thread call) }
{
    let illegal = Move::Illegal { thread };
    match call {
        Call::Enter(_) => push_or_refuse(thread, Move::Lock { thread }, Cause::TooDeep, moves),
        Call::Exit(_) => push_both(Move::Unlock { thread }, illegal, moves),
        Call::Wait { .. } => {
            push_both(Move::Wait { thread }, illegal, moves)?;
            push_both(Move::BadArgument { thread }, Move::Early { thread }, moves)
        }
        Call::Notify(_) => {
            let chosen = None;
            push_both(illegal, Move::Notify { thread, chosen }, moves)?;
            push_notifies(thread, program.starts.len() as u32, moves)
        }
        Call::NotifyAll(_) => push_both(Move::NotifyAll { thread }, illegal, moves),
        Call::Holds(_) => Ok(moves.push(Move::Ask { thread })?),
        Call::Interrupt(_) => {
            push_or_refuse(thread, Move::Interrupt { thread }, Cause::NoThread, moves)
        }
        Call::Interrupted => Ok(moves.push(Move::TestClear { thread })?),
        Call::IsInterrupted(_) => {
            push_or_refuse(thread, Move::Ask { thread }, Cause::NoThread, moves)
        }
        Call::End => push_or_refuse(thread, Move::End { thread }, Cause::StillOwner, moves),
    }
}

/// Puts a move behind those that are there, and a refusal of the call for this cause.
fn push_or_refuse(
    thread: ThreadId,
    made: Move,
    cause: Cause,
    moves: &mut Vec<Move>,
) -> Result<(), AllocError>
    ensures { OnOk result (moves.new.items
        ≡ moves.old.items ++ made ∷ Refuse thread cause ∷ []) }
{
    push_both(made, Move::Refuse { thread, cause }, moves)
}

/// Puts two moves behind those that are there.
fn push_both(first: Move, second: Move, moves: &mut Vec<Move>) -> Result<(), AllocError>
    ensures { OnOk result (moves.new.items ≡ moves.old.items ++ first ∷ second ∷ []) }
{
    moves.extend_from_slice(&[first, second])
}

/// A notify of each of the threads below a number.
fn push_notifies(thread: ThreadId, threads: u32, moves: &mut Vec<Move>) -> Result<(), AllocError>
    ensures { OnOk result (moves.new.items ≡ moves.old.items ++ notifies thread threads) }
{
    'choosing: for chosen in 0..threads {
        moves.push(Move::Notify {
            thread,
            chosen: Some(ThreadId(chosen)),
        })?;
    }
    Ok(())
}
