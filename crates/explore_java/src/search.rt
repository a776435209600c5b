//! The search: states are visited in the order in which they were found.

ghost use Rattle.std.specs.Prelude.{◌≡◌, ◌+◌, ◌<◌, ◌≤◌, ◌++◌, ◌∷◌, [], length, true, false, None};
ghost use Rattle.std.specs.Prelude.{IfErr, IfOk, IfSome, OnOk, Some, if◌then◌else◌, is_some};
ghost use Rattle.explore_java.specs.JavaFound.{witnesses, witness_at, IsAt, FindsAll, IsReason};
ghost use Rattle.explore_java.specs.JavaFound.{AreParents};
ghost use Rattle.explore_java.specs.JavaStates.{after, count_of, is_left, played};
ghost use Rattle.jls_check.specs.Numbers.{AreBelow};
ghost use Rattle.explore_java.specs.JavaSearches.{
  AreTried,
  IsNear,
  IsSearch,
  IsVisited,
  Leads,
  StaysIn,
  behind,
};
ghost use Rattle.explore_java.specs.Moves.{moves_in};

use crate::codes::{Code, codes_tell_states_apart};
use crate::found::{JavaFound, Node};
use crate::moves::moves_in;
use crate::states::JavaState;
use explore::{ExploreFault, Nobody, Program, Watch};
use indexmap::IndexSet;
use lock_word::Memory;
use std::alloc::{AllocError, Global};
use std::collections::VecDeque;
use step_core::Move;

/// A search that goes on: the states that were found, and those that are still to be visited.
#[derive(Drop)]
struct Search {
    codes: IndexSet<Code>,
    nodes: Vec<Node>,
    queue: VecDeque<JavaState>,
    /// Room for the numbers of a state, kept from one to the next.
    room: Vec<u64>,
    ghost parents: { AreParents nodes.items },
}

impl Search {
    /// Takes in the state that a move led to from the state `parent`.
    fn add(
        &mut self,
        alloc: Global,
        program: &Program,
        state: JavaState,
        parent: u32,
        made: Move,
    ) -> Result<(), Memory>
        requires search { IsSearch program.now self.old.codes.keys (witnesses self.old.nodes.items)
            self.old.queue.items (parent + 1) }
        requires leads { played program.now
            (witness_at (witnesses self.old.nodes.items) parent ++ made ∷ []) ≡ Some state }
        requires below { AreBelow (count_of program.now) state.machine }
        ensures search { OnOk result (IsSearch program.now self.new.codes.keys
            (witnesses self.new.nodes.items) self.new.queue.items (parent + 1)) }
        ensures stays { OnOk result (StaysIn (witnesses self.old.nodes.items)
            (witnesses self.new.nodes.items)) }
        ensures found { OnOk result (IsNear program.now (witnesses self.new.nodes.items) state
            (behind (witnesses self.new.nodes.items) parent)) }
    {
        let is_new = self.add_code(alloc, program, &state, parent, made)?;
        if is_new {
            self.queue.push_back(state)?;
        }
        Ok(())
    }

    /// Takes in the code of the state that a move led to from the state `parent` and, where it is
    /// new, how it was found. Answers whether it is new: the state is to wait then.
    fn add_code(
        &mut self,
        alloc: Global,
        program: &Program,
        state: &JavaState,
        parent: u32,
        made: Move,
    ) -> Result<bool, Memory>
        requires search { IsSearch program.now self.old.codes.keys (witnesses self.old.nodes.items)
            self.old.queue.items (parent + 1) }
        requires leads { played program.now
            (witness_at (witnesses self.old.nodes.items) parent ++ made ∷ []) ≡ Some state.now }
        requires below { AreBelow (count_of program.now) state.now.machine }
        ensures search { IfOk result (λ is_new. IsSearch program.now self.new.codes.keys
            (witnesses self.new.nodes.items)
            (if is_new then self.old.queue.items ++ state.now ∷ [] else self.old.queue.items)
            (parent + 1)) }
        ensures queue { OnOk result (self.new.queue.items ≡ self.old.queue.items) }
        ensures stays { OnOk result (StaysIn (witnesses self.old.nodes.items)
            (witnesses self.new.nodes.items)) }
        ensures found { OnOk result (IsNear program.now (witnesses self.new.nodes.items) state.now
            (behind (witnesses self.new.nodes.items) parent)) }
    {
        codes_tell_states_apart();
        let code = state.code(alloc, program, &mut self.room)?;
        let (_number, is_new) = self.codes.insert_full(code)?;
        if is_new {
            self.nodes.push(Node { parent, made })?;
        }
        Ok(is_new)
    }

    /// Tries a move in the state whose number is `at`. The state comes back where it cannot be
    /// made.
    fn try_move(
        &mut self,
        alloc: Global,
        program: &Program,
        mut state: JavaState,
        at: u32,
        made: Move,
    ) -> Result<Option<JavaState>, Memory>
        requires search { IsSearch program.now self.old.codes.keys (witnesses self.old.nodes.items)
            self.old.queue.items (at + 1) }
        requires here { IsAt program.now (witnesses self.old.nodes.items) at state }
        requires left { is_left program.now state made ≡ true }
        ensures search { OnOk result (IsSearch program.now self.new.codes.keys
            (witnesses self.new.nodes.items) self.new.queue.items (at + 1)) }
        ensures stays { OnOk result (StaysIn (witnesses self.old.nodes.items)
            (witnesses self.new.nodes.items)) }
        ensures back { IfOk result (λ back. IfSome back (λ s. s ≡ state)) }
        ensures none { IfOk result (λ back. is_some back ≡ true
            → after program.now state made ≡ None) }
        ensures some { IfOk result (λ back. is_some back ≡ false → Leads program.now
            (witnesses self.new.nodes.items) (behind (witnesses self.new.nodes.items) at)
            state made) }
    {
        if !state.make(program, made) {
            return Ok(Some(state));
        }
        self.add(alloc, program, state, at, made)?;
        Ok(None)
    }

    /// Tries moves in copies of the state whose number is `at`, and answers how many can be made.
    fn try_all(
        &mut self,
        alloc: Global,
        program: &Program,
        moves: &[Move],
        state: &JavaState,
        at: u32,
    ) -> Result<u64, Memory>
        requires search { IsSearch program.now self.old.codes.keys (witnesses self.old.nodes.items)
            self.old.queue.items (at + 1) }
        requires here { IsAt program.now (witnesses self.old.nodes.items) at state.now }
        requires all { moves.now ≡ moves_in program.now state.now }
        ensures search { OnOk result (IsSearch program.now self.new.codes.keys
            (witnesses self.new.nodes.items) self.new.queue.items (at + 1)) }
        ensures stays { OnOk result (StaysIn (witnesses self.old.nodes.items)
            (witnesses self.new.nodes.items)) }
        ensures tried { IfOk result (AreTried program.now (witnesses self.new.nodes.items)
            (behind (witnesses self.new.nodes.items) at) state.now moves.now (length moves.now)) }
    {
        let mut count = 0;
        let mut spare = None;
        'trying: for made in moves {
            let copy = copy_of(state, spare.take())?;
            spare = self.try_move(alloc, program, copy, at, *made)?;
            if spare.is_none() {
                count += 1;
            }
        }
        Ok(count)
    }

    /// A search that has found where the program begins, and visited nothing.
    fn open(alloc: Global, program: &Program) -> Result<Search, Memory>
        ensures { IfOk result (λ s. IsVisited program.now s.codes.keys
            (witnesses s.nodes.items) s.queue.items [] 0 0) }
    {
        let first = JavaState::open(alloc, program)?;
        let mut codes = IndexSet::new(alloc);
        let mut queue = VecDeque::new(alloc);
        let mut room = Vec::new(alloc);
        let code = first.code(alloc, program, &mut room)?;
        queue.push_back(first)?;
        codes.insert_full(code)?;
        Ok(Search {
            codes,
            nodes: Vec::new(alloc),
            queue,
            room,
        })
    }

    /// Visits the next state, whose number is `at`: notes it where it is an end, and counts the
    /// moves that can be made. False: there is none.
    fn visit(
        &mut self,
        alloc: Global,
        program: &Program,
        ends: &mut Vec<u32>,
        steps: &mut u64,
        at: u32,
    ) -> Result<bool, Memory>
        requires visited { IsVisited program.now self.old.codes.keys
            (witnesses self.old.nodes.items) self.old.queue.items ends.old.items steps.old at }
        ensures visited { IfOk result (λ went. IsVisited program.now self.new.codes.keys
            (witnesses self.new.nodes.items) self.new.queue.items ends.new.items steps.new
            (if went then at + 1 else at)) }
        ensures last { IfOk result (λ went. went ≡ false → self.new.queue.items ≡ []) }
    {
        let Some(state) = self.queue.pop_front() else {
            return Ok(false);
        };
        let moves = moves_in(alloc, program, &state)?;
        let count = self.try_all(alloc, program, &moves, &state, at)?;
        note_end(ends, count == 0, at)?;
        *steps += count;
        Ok(true)
    }

    /// Whether more states were found than this.
    fn is_over(&self, most: u32) -> bool
        ensures { result ≡ true → most < length (witnesses self.now.nodes.items) }
    {
        self.nodes.len() + 1 > most as usize
    }

    /// Whether each state that was found was visited.
    fn is_done(&self) -> bool
        ensures done { result ≡ true → self.now.queue.items ≡ [] }
        ensures more { result ≡ false → 0 < length self.now.queue.items }
    {
        self.queue.is_empty()
    }
}

/// A copy of a state: the one that is at hand, or else a new one.
fn copy_of(state: &JavaState, at_hand: Option<JavaState>) -> Result<JavaState, AllocError>
    requires { IfSome at_hand (λ s. s ≡ state.now) }
    ensures { IfOk result (λ s. s ≡ state.now) }
{
    match at_hand {
        Some(copy) => Ok(copy),
        None => state.clone(),
    }
}

/// Notes the number of a state that is an end.
fn note_end(ends: &mut Vec<u32>, is_end: bool, at: u32) -> Result<(), Memory>
    ensures { OnOk result (ends.new.items
        ≡ (if is_end then ends.old.items ++ at ∷ [] else ends.old.items)) }
{
    if is_end {
        ends.push(at)?;
    }
    Ok(())
}

/// All states of a program on the Java machine itself, each once, where there are at most this
/// many: each state to which moves lead that the program leaves to the machine and that are no
/// refusals for want.
pub fn explore_java(alloc: Global, program: &Program, most: u32) -> Result<JavaFound, ExploreFault>
    ensures all { IfOk result (FindsAll program.now) }
    ensures few { IfOk result (λ f. length f.witnesses ≤ most) }
    ensures reason { IfErr result (IsReason program.now most) }
{
    explore_java_watched(alloc, program, most, &mut Nobody)
}

/// The same as [`explore_java`], and a watch is told how far it has come.
pub fn explore_java_watched<W: Watch>(
    alloc: Global,
    program: &Program,
    most: u32,
    watch: &mut W,
) -> Result<JavaFound, ExploreFault>
    ensures all { IfOk result (FindsAll program.now) }
    ensures few { IfOk result (λ f. length f.witnesses ≤ most) }
    ensures reason { IfErr result (IsReason program.now most) }
{
    let found = find_all(alloc, program, most, watch);
    watch.end();
    found
}

/// Visits each state that is found, and tells a watch of it.
fn find_all<W: Watch>(
    alloc: Global,
    program: &Program,
    most: u32,
    watch: &mut W,
) -> Result<JavaFound, ExploreFault>
    ensures all { IfOk result (FindsAll program.now) }
    ensures few { IfOk result (λ f. length f.witnesses ≤ most) }
    ensures reason { IfErr result (IsReason program.now most) }
{
    let mut search = Search::open(alloc, program)?;
    let mut ends = Vec::new(alloc);
    let mut steps = 0;
    'visiting: for at in 0..most {
        if !search.visit(alloc, program, &mut ends, &mut steps, at)? {
            return Ok(JavaFound {
                nodes: search.nodes,
                ends,
                steps,
            });
        }
        if search.is_over(most) {
            return Err(ExploreFault::TooManyStates);
        }
        watch.tell(search.nodes.len().saturating_add(1), search.queue.len());
    }
    // As many states were visited as were asked for: where one is left, there are more. Where none
    // was asked for, the first one is left.
    if !search.is_done() {
        return Err(ExploreFault::TooManyStates);
    }
    Ok(JavaFound {
        nodes: search.nodes,
        ends,
        steps,
    })
}
