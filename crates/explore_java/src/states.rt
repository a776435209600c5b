//! A state of a program on the Java machine.

ghost use Rattle.std.specs.Prelude.{◌≡◌, IfOk, IsSome, OnOk, Some, None, true, false, slice_get};
ghost use Rattle.std.specs.Prelude.{if◌then◌else◌, length};
ghost use Rattle.explore_java.specs.JavaStates.{after, attached, code_of, count_of};
ghost use Rattle.explore_java.specs.JavaStates.{JavaProgramState, is_left, next_call, noted};
ghost use Rattle.explore_java.specs.JavaStates.{opening, played};
ghost use Rattle.explore_java.specs.JavaStates.{with_call, with_reply};
ghost use Rattle.jls_check.specs.MachineState.{IsSound, opening_machine};
ghost use Rattle.jls_check.specs.Numbers.{AreBelow};

use crate::codes::{Code, push_positions, push_replies};
use explore::Program;
use fast_path::Call;
use fat_monitor::Reply;
use jls_check::{Machine, MoveFault};
use lock_word::{Memory, ThreadId};
use std::alloc::{AllocError, Global};
use std::marker::Model;
use step_core::Move;

/// A state of a program: the machine, how far each thread and the clock have come, and the replies
/// with which calls have returned.
#[derive(Drop)]
pub struct JavaState {
    machine: Machine,
    nexts: Vec<usize>,
    replies: Vec<Option<Reply>>,
    told: usize,
}

impl Model for JavaState {
    ghost use Rattle.explore_java.specs.JavaStates.{JavaProgramState};
    ghost use Rattle.std.specs.Coded.{codes};
    ghost use Rattle.std.specs.FinMap as map;

    ghost Value = { JavaProgramState };

    ghost coded = { Prim.hlevel (codes, map.code) };

    ghost view = { λ s. record {
      machine = s.machine;
      nexts = s.nexts.items;
      replies = s.replies.items;
      told = s.told;
    } };
}

impl JavaState {
    /// The state in which a program begins: its threads were attached in their order.
    pub fn open(alloc: Global, program: &Program) -> Result<JavaState, Memory>
        ensures opening { IfOk result (λ s. s ≡ opening program.now) }
        ensures below { IfOk result (λ s. AreBelow (count_of program.now) s.machine) }
    {
        Ok(JavaState {
            machine: first_machine(alloc, program)?,
            nexts: Vec::from_slice(alloc, &program.starts)?,
            replies: vec![in alloc; None; program.calls.len()]?,
            told: 0,
        })
    }

    /// The machine.
    pub fn machine(&self) -> &Machine
        ensures { result.now ≡ self.now.machine }
    {
        &self.machine
    }

    /// The reply with which each call of the program has returned; None where it has not.
    pub fn replies(&self) -> &[Option<Reply>]
        ensures { result.now ≡ self.now.replies }
    {
        &self.replies
    }

    /// The next call of a thread, if it has one left.
    pub(crate) fn next_call(&self, program: &Program, thread: u32) -> Option<Call>
        ensures { result ≡ next_call program.now self.now thread }
    {
        if thread as usize >= program.starts.len() {
            return None;
        }
        let next = *self.nexts.get(thread as usize)?;
        if next < program.end_of(ThreadId(thread)) {
            program.calls.get(next).copied()
        } else {
            None
        }
    }

    /// The next moment that the clock tells, if it has one left.
    pub(crate) fn next_moment(&self, program: &Program) -> Option<u64>
        ensures { result ≡ slice_get program.now.moments.items self.now.told }
    {
        program.moments.get(self.told).copied()
    }

    /// Makes a move that the program leaves to the machine and that is no refusal for want. False:
    /// it is not lawful here, and nothing changes.
    pub(crate) fn make(&mut self, program: &Program, made: Move) -> bool
        requires left { is_left program.now self.old made ≡ true }
        requires below { AreBelow (count_of program.now) self.old.machine }
        ensures made { after program.now self.old made
            ≡ (if result then Some self.new else None) }
        ensures kept { result ≡ false → self.new ≡ self.old }
        ensures below { AreBelow (count_of program.now) self.new.machine }
    {
        match self.machine.take(made) {
            Ok(()) => {
                self.note(program, made);
                true
            }
            Err(MoveFault::Broken) => false,
            // An attach alone may want memory, and none is left to the machine.
            Err(MoveFault::Memory) => unreachable!(),
        }
    }

    /// Notes that a move was made.
    fn note(&mut self, program: &Program, made: Move)
        requires { is_left program.now self.old made ≡ true }
        ensures { self.new ≡ noted self.old made self.old.machine }
    {
        match made {
            Move::Call { thread, .. } => self.note_call(program, thread.0 as usize),
            Move::Return { thread, reply } => self.note_reply(thread.0 as usize, reply),
            Move::Time { .. } => self.told += 1,
            _ => {}
        }
    }

    /// Notes that a thread has made its next call.
    fn note_call(&mut self, program: &Program, thread: usize)
        requires { IsSome (next_call program.now self.old thread) }
        ensures { self.new ≡ with_call self.old thread (slice_get self.old.nexts thread) }
    {
        if let Some(next) = self.nexts.get_mut(thread) {
            *next += 1;
        }
    }

    /// Notes that the call that a thread has made last has returned with this reply.
    fn note_reply(&mut self, thread: usize, reply: Reply)
        ensures { self.new ≡ with_reply self.old reply (slice_get self.old.nexts thread) }
    {
        if thread < self.nexts.len() {
            let next = self.nexts[thread];
            if 0 < next && next - 1 < self.replies.len() {
                self.replies[next - 1] = Some(reply);
            }
        }
    }

    /// The numbers that stand for the state, and for no other of the program. They are written
    /// into `room` first, so that the code has no place to spare.
    pub(crate) fn code(
        &self,
        alloc: Global,
        program: &Program,
        room: &mut Vec<u64>,
    ) -> Result<Code, Memory>
        ensures code { IfOk result (λ code. code.numbers.items ≡ code_of program.now self.now) }
        ensures sound { OnOk result (IsSound self.now.machine) }
    {
        room.clear();
        self.machine
            .push_numbers(program.starts.len() as u32, room)?;
        room.extend_from_slice(&[self.told as u64, self.nexts.len() as u64])?;
        push_positions(&self.nexts, room)?;
        push_replies(&self.replies, room)?;
        Ok(Code {
            numbers: Vec::from_slice(alloc, room)?,
        })
    }
}

impl Clone for JavaState {
    ghost use Rattle.std.specs.Prelude.{◌≡◌};

    ghost is_clone = { λ state copy. copy ≡ state };

    /// The same state.
    fn clone(&self) -> Result<JavaState, AllocError> {
        Ok(JavaState {
            machine: self.machine.clone()?,
            nexts: Vec::from_slice(*self.nexts.allocator(), &self.nexts)?,
            replies: Vec::from_slice(*self.replies.allocator(), &self.replies)?,
            told: self.told,
        })
    }
}

/// The state that some moves lead to, which can be made one after the other: those of a witness.
pub fn replay(alloc: Global, program: &Program, moves: &[Move]) -> Result<JavaState, Memory>
    requires { (s : JavaProgramState) × (played program.now moves.now ≡ Some s) }
    ensures state { IfOk result (λ s. played program.now moves.now ≡ Some s) }
    ensures below { IfOk result (λ s. AreBelow (count_of program.now) s.machine) }
{
    let mut state = JavaState::open(alloc, program)?;
    'moves: for made in moves {
        if !state.make(program, *made) {
            unreachable!();
        }
    }
    Ok(state)
}

/// The machine in which the threads of a program were attached, in their order.
fn first_machine(alloc: Global, program: &Program) -> Result<Machine, Memory>
    ensures { IfOk result (λ m. m
        ≡ attached (opening_machine (length program.now.lows.items)) (count_of program.now)) }
{
    let mut machine = Machine::new(alloc, program.lows.len() as u32)?;
    'attaching: for number in 0..program.starts.len() {
        let thread = ThreadId(number as u32);
        match machine.take(Move::Attach { thread }) {
            // No two threads have one number, so no attach is unlawful here. An unlawful one would
            // change nothing, and `attached` says the same.
            Ok(()) | Err(MoveFault::Broken) => {}
            Err(MoveFault::Memory) => return Err(Memory),
        }
    }
    Ok(machine)
}
