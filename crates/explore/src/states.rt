//! A state of a program.

ghost use Rattle.std.specs.Prelude.{◌≡◌, ◌≤◌, IfOk, OnErr, OnOk, length, Some, None};
ghost use Rattle.std.specs.Prelude.{if◌then◌else◌, false, ◌<◌, IfSome, vec_len};
ghost use Rattle.explore.specs.declared.programs.Choice.TheVariants as Choice;
ghost use Rattle.std.specs.Prelude.{is_some};
ghost use Rattle.explore.specs.States.{opening, after, did_of, played, played_from};
ghost use Rattle.explore.specs.States.{step_at, step_for};
ghost use Rattle.explore.specs.States.{moved, replied, chosen, thread_of};
ghost use Rattle.explore.specs.Codes.{code_of, front_numbers, IsCoded};
ghost use Rattle.step_core.specs.Numbers.{IsNumbered};
ghost use Rattle.explore.specs.Wants.{wants_memory};
ghost use Rattle.explore.specs.Allowed.{allows, doing_at, is_over};
ghost use Rattle.step_core.specs.Sound.{IsSound};

use crate::codes::{Code, push_positions, push_replies, put_dense};
use crate::programs::{Choice, Program};
use crate::replies::NumberedReplies;
use fat_monitor::Reply;
use lock_word::{Memory, ThreadId};
use std::alloc::{AllocError, Global};
use std::marker::Model;
use step_core::{Atomic, Cause, Did, Doing, Step, World};

/// A state of a program: its world, how far each thread and the clock have come, and the replies.
#[derive(Drop)]
pub struct State {
    // In a box, since a search moves states more often than it copies them.
    world: Box<World>,
    nexts: Vec<usize>,
    replies: NumberedReplies,
    told: usize,
}

impl Model for State {
    ghost use Rattle.explore.specs.States.{ProgramState};
    ghost use Rattle.std.specs.Coded.{codes};
    ghost use Rattle.std.specs.FinMap as map;

    ghost Value = { ProgramState };

    ghost coded = { Prim.hlevel (codes, map.code) };

    ghost view = { λ s. record {
      world = s.world.value;
      nexts = s.nexts.items;
      replies = s.replies;
      told = s.told;
    } };
}

impl State {
    /// The state in which a program begins.
    pub fn open(alloc: Global, program: &Program) -> Result<State, Memory>
        ensures { IfOk result (λ s. s ≡ opening program.now) }
    {
        let nexts = Vec::from_slice(alloc, &program.starts)?;
        let replies = NumberedReplies::none(alloc, program.calls.len())?;
        Ok(State {
            world: Box::new(alloc, first_world(alloc, program)?)?,
            nexts,
            replies,
            told: 0,
        })
    }

    /// Its world.
    pub fn world(&self) -> &World
        ensures { result.now ≡ self.now.world }
    {
        &self.world
    }

    /// The reply of each call of the program; None where it has none yet.
    pub fn replies(&self) -> &[Option<Reply>]
        ensures { result.now ≡ self.now.replies }
    {
        self.replies.as_slice()
    }

    /// The bytes that stand for the state, and for no other. The numbers and bytes of another code
    /// may be there: they are taken for their room, and let go.
    pub(crate) fn code(
        &self,
        alloc: Global,
        numbers: &mut Vec<u64>,
        bytes: &mut Vec<u8>,
    ) -> Result<Code, Memory>
        ensures code { IfOk result (λ code. code.bytes.items ≡ code_of self.now) }
        ensures coded { OnOk result (IsCoded self.now) }
    {
        self.put_numbers(numbers)?;
        put_dense(numbers, bytes)?;
        push_replies(self.replies.numbers(), bytes)?;
        Ok(Code {
            bytes: Vec::from_slice(alloc, bytes)?,
        })
    }

    /// Writes the numbers of the state but those of the replies, in place of those that are there.
    fn put_numbers(&self, numbers: &mut Vec<u64>) -> Result<(), Memory>
        ensures written { OnOk result (numbers.new.items ≡ front_numbers self.now) }
        ensures numbered { OnOk result (IsNumbered self.now.world) }
    {
        numbers.clear();
        self.world.push_numbers(numbers)?;
        numbers.extend_from_slice(&[self.told as u64, self.nexts.len() as u64])?;
        push_positions(&self.nexts, numbers)
    }

    /// Makes `copy` the same state, in the memory that it has. On want of memory the copy is not to
    /// be used any more.
    fn clone_into(&self, copy: &mut State) -> Result<(), AllocError>
        ensures { OnOk result (copy.new ≡ self.now) }
    {
        copy.told = self.told;
        copy.nexts.clear();
        copy.nexts.extend_from_slice(&self.nexts)?;
        self.replies.copy_into(&mut copy.replies)?;
        World::clone_into(&self.world, &mut copy.world)
    }

    /// Makes a choice. False: it cannot be made here, and nothing changes. On want of memory the
    /// state is not to be used any more.
    pub fn make(&mut self, program: &Program, choice: Choice) -> Result<bool, Memory>
        ensures made { IfOk result (λ yes. after program.now self.old choice
            ≡ (if yes then Some self.new else None)) }
        ensures kept { IfOk result (λ yes. yes ≡ false → self.new ≡ self.old) }
    {
        let did = self.make_and_tell(program, choice)?;
        Ok(did.is_some())
    }

    /// Makes a choice, and tells what its step did. None: it cannot be made here, and nothing
    /// changes. On want of memory the state is not to be used any more.
    #[inline(always)]
    pub fn make_and_tell(
        &mut self,
        program: &Program,
        choice: Choice,
    ) -> Result<Option<Did>, Memory>
        ensures made { IfOk result (λ did. after program.now self.old choice
            ≡ (if is_some did then Some self.new else None)) }
        ensures kept { IfOk result (λ did. is_some did ≡ false → self.new ≡ self.old) }
        ensures told { IfOk result (λ did. did ≡ did_of program.now self.old choice) }
    {
        let Some(step) = self.step_for(program, choice) else {
            return Ok(None);
        };
        let Ok(did) = self.world.step(step) else {
            return Ok(None);
        };
        if wants_memory(&did) {
            return Err(Memory);
        }
        self.note(choice, did.reply);
        Ok(Some(did))
    }

    /// Makes choices one behind the other, up to the first that cannot be made. False: there is
    /// one.
    fn play_on(&mut self, program: &Program, choices: &[Choice]) -> Result<bool, Memory>
        ensures { IfOk result (λ all. played_from program.now choices.now (Some self.old)
            ≡ (if all then Some self.new else None)) }
    {
        'playing: for choice in choices {
            if !self.make(program, *choice)? {
                return Ok(false);
            }
        }
        Ok(true)
    }

    /// Whether a choice may be made here, as far as what its thread is doing tells. Where this says
    /// no it cannot be made; where it says yes, making it may show that it cannot.
    pub(crate) fn may_make(&self, program: &Program, choice: Choice, doing: Option<Doing>) -> bool
        requires sound { IsSound self.now.world }
        requires doing { doing ≡ doing_at self.now.world (thread_of (chosen choice)) }
        ensures { result ≡ false → after program.now self.now choice ≡ None }
    {
        self.step_for(program, choice).is_some() && allows(choice, doing, self.world.now())
    }

    /// Notes that a choice was made, and the reply of its thread's call, if it has one.
    fn note(&mut self, choice: Choice, reply: Option<Reply>)
        requires { choice ≡ Choice.Tick → self.old.told < 1048576 }
        ensures { self.new ≡ replied (moved self.old choice self.old.world) (chosen choice) reply }
    {
        if let Choice::Tick = choice {
            self.told += 1;
        }
        let Some(reply) = reply else {
            return;
        };
        let thread = chosen(choice);
        if thread < self.nexts.len() {
            let at = self.nexts[thread];
            if at < self.replies.len() {
                self.replies.note(at, reply);
                self.nexts[thread] = at + 1;
            }
        }
    }

    /// The step of the world that a choice means here, if it means one: the world may refuse it.
    pub fn step_for(&self, program: &Program, choice: Choice) -> Option<Step>
        ensures value { result ≡ step_for program.now self.now choice }
        ensures told { IfSome result (λ x. choice ≡ Choice.Tick → self.now.told < 1048576) }
    {
        let thread = match choice {
            Choice::Tick => {
                let now = *program.moments.get(self.told)?;
                return Some(Step::Tick { now });
            }
            Choice::Begin { thread }
            | Choice::Go { thread }
            | Choice::Expire { thread }
            | Choice::Spurious { thread } => thread,
        };
        let next = *self.nexts.get(usize::from(thread))?;
        if usize::from(thread) < program.starts.len() {
            step_at(program, choice, next)
        } else {
            None
        }
    }
}

/// The step of a choice of a thread whose next call stands here.
fn step_at(program: &Program, choice: Choice, next: usize) -> Option<Step>
    ensures { result ≡ step_at program.now choice next }
{
    match choice {
        Choice::Begin { thread } => {
            let thread = ThreadId(u32::from(thread));
            if next >= program.end_of(thread) {
                return None;
            }
            let call = *program.calls.get(next)?;
            Some(Step::Begin { thread, call })
        }
        Choice::Go { thread } => {
            let thread = ThreadId(u32::from(thread));
            Some(Step::Go { thread })
        }
        Choice::Expire { thread } => {
            let thread = ThreadId(u32::from(thread));
            Some(Step::Expire { thread })
        }
        Choice::Spurious { thread } => {
            let thread = ThreadId(u32::from(thread));
            if program.spurious {
                Some(Step::Spurious { thread })
            } else {
                None
            }
        }
        Choice::Tick => None,
    }
}

/// The state behind a list of choices; None where one of them cannot be made.
pub fn play(alloc: Global, program: &Program, choices: &[Choice]) -> Result<Option<State>, Memory>
    ensures { IfOk result (λ s. s ≡ played program.now choices.now) }
{
    let mut state = State::open(alloc, program)?;
    let all = state.play_on(program, choices)?;
    Ok(all.then_some(state))
}

/// The world in which a program begins: each of its threads is attached.
fn first_world(alloc: Global, program: &Program) -> Result<World, Memory>
    ensures { IfOk result (λ w. w ≡ (opening program.now).world) }
{
    let mut world = World::new(
        alloc,
        &program.lows,
        program.monitors,
        program.indices,
        program.split,
    )?;
    'attaching: for thread in 0..program.starts.len() {
        let thread = ThreadId(thread as u32);
        // A program has no more threads than indices, and each number once: no other fault comes.
        match world.step(Step::Attach { thread }) {
            Ok(_) => {}
            Err(_) => return Err(Memory),
        }
    }
    Ok(world)
}

/// Whether a choice may be made while its thread does this, at this moment.
fn allows(choice: Choice, doing: Option<Doing>, now: u64) -> bool
    ensures { result ≡ allows choice doing now }
{
    match choice {
        Choice::Begin { .. } => matches!(doing, Some(Doing::Idle)),
        Choice::Go { .. } => matches!(doing, Some(Doing::Wants(_) | Doing::Has(_))),
        Choice::Expire { .. } => match doing {
            Some(Doing::Waits { deadline, .. }) => is_over(deadline, now),
            _ => false,
        },
        Choice::Spurious { .. } => matches!(doing, Some(Doing::Waits { .. })),
        Choice::Tick => true,
    }
}

/// Whether a wait with this deadline is over; one without is not.
fn is_over(deadline: Option<u128>, now: u64) -> bool
    ensures { result ≡ is_over now deadline }
{
    match deadline {
        Some(deadline) => deadline <= u128::from(now),
        None => false,
    }
}

/// The thread of a choice; of a tick, which is no thread's, the first.
pub(crate) fn chosen_thread(choice: Choice) -> ThreadId
    ensures { result ≡ thread_of (chosen choice) }
{
    ThreadId(chosen(choice) as u32)
}

/// The number of the thread of a choice.
fn chosen(choice: Choice) -> usize
    ensures { result ≡ chosen choice }
{
    match choice {
        Choice::Begin { thread }
        | Choice::Go { thread }
        | Choice::Expire { thread }
        | Choice::Spurious { thread } => usize::from(thread),
        Choice::Tick => 0,
    }
}

/// Whether a step bound no monitor for want of memory.
fn wants_memory(did: &Did) -> bool
    ensures { result ≡ wants_memory did.now.atomic }
{
    matches!(
        did.atomic,
        Atomic::NotBound {
            cause: Cause::Memory,
            ..
        }
    )
}

impl Clone for State {
    ghost is_clone = { λ state copy. copy ≡ state };

    fn clone(&self) -> Result<State, AllocError> {
        // The world comes last: a want of memory before leaves none to give back.
        let nexts = Vec::from_slice(*self.nexts.allocator(), &self.nexts)?;
        let replies = self.replies.copy()?;
        Ok(State {
            world: self.world.clone()?,
            nexts,
            replies,
            told: self.told,
        })
    }
}

/// How many states are kept for their memory. A search needs few: most copies lead to states that
/// were found before, and are kept here then. The memory of the others is better given back.
const MOST_REUSABLE: usize = 64;

/// Keeps a state that is needed no more for its memory, or gives it back where enough are kept.
pub(crate) fn keep(reusable: &mut Vec<State>, state: State) -> Result<(), Memory>
    ensures { vec_len reusable.old ≤ 64 → vec_len reusable.new ≤ 64 }
{
    if reusable.len() < MOST_REUSABLE {
        reusable.push(state)?;
    }
    Ok(())
}

/// A copy of a state, in the memory of a reusable one where there is one.
#[inline(always)]
pub(crate) fn copy_of(reusable: &mut Vec<State>, state: &State) -> Result<State, Memory>
    ensures { IfOk result (λ s. s ≡ state.now) }
{
    match reusable.pop() {
        Some(mut copy) => {
            state.clone_into(&mut copy)?;
            Ok(copy)
        }
        None => Ok(state.clone()?),
    }
}
