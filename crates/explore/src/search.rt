//! The search: states are visited in the order in which they were found.

ghost use Rattle.std.specs.Prelude.{◌≡◌, ◌+◌, ◌<◌, ◌≤◌, ◌++◌, ◌∷◌, [], length, true, false};
ghost use Rattle.std.specs.Prelude.{IfErr, IfOk, OnOk, Some, None};
ghost use Rattle.explore.specs.declared.programs.Choice.{Choice};
ghost use Rattle.explore.specs.States.{played};
ghost use Rattle.explore.specs.Found.{witnesses, witness_at, IsAt, FindsAll, IsReason, AreParents};
ghost use Rattle.explore.specs.Found.{all_choices};
ghost use Rattle.explore.specs.Trails.{AreReached};
ghost use Rattle.explore.specs.Searches.{
  IsSearch,
  StaysIn,
  HasNumber,
  IsExpanded,
  IsTried,
  IsVisited,
  behind,
};
ghost use Rattle.std.specs.Prelude.{if◌then◌else◌};

use crate::choices::{choices_of, note_end, sift};
use crate::codes::{Code, codes_tell_states_apart};
use crate::found::{ExploreFault, Found, Node, choices_to};
use crate::programs::{Choice, Program};
use crate::queue::{MOST_QUEUED, Queued, take_queued};
use crate::states::{State, copy_of, keep};
use crate::trail::Trail;
use crate::tried::{Expanded, Tried, tried_from};
use crate::watching::{Nobody, Watch};
use indexmap::IndexSet;
use lock_word::Memory;
use std::alloc::Global;
use std::collections::VecDeque;

/// A search that goes on: the states that were found, and those that are still to be visited.
#[derive(Drop)]
struct Search {
    codes: IndexSet<Code>,
    nodes: Vec<Node>,
    // States that are still to be visited, in their order. Of one that is not here only its code is
    // kept, and how it was found.
    queue: VecDeque<Queued>,
    // States that are needed no more, kept for their memory: a copy is made in that of one of them.
    reusable: Vec<State>,
    // The numbers and bytes of the code that was made last: the next one takes their room.
    numbers: Vec<u64>,
    bytes: Vec<u8>,
    ghost parents: { AreParents nodes.items },
}

impl Search {
    /// Takes in the state that a choice led to from the state `parent`, and answers its number. One
    /// that does not go into the queue is kept for its memory.
    #[inline(always)]
    fn add(
        &mut self,
        alloc: Global,
        program: &Program,
        made: State,
        parent: u32,
        choice: Choice,
    ) -> Result<usize, Memory>
        requires search { IsSearch program.now self.old.codes.keys (witnesses self.old.nodes.items)
            self.old.queue.items (parent + 1) }
        requires leads { played program.now
            (witness_at (witnesses self.old.nodes.items) parent ++ choice ∷ []) ≡ Some made }
        ensures search { OnOk result (IsSearch program.now self.new.codes.keys
            (witnesses self.new.nodes.items) self.new.queue.items (parent + 1)) }
        ensures stays { OnOk result (StaysIn (witnesses self.old.nodes.items)
            (witnesses self.new.nodes.items)) }
        ensures found { IfOk result (λ k.
            HasNumber program.now (witnesses self.new.nodes.items) k made) }
        ensures few { OnOk result (length self.old.queue.items ≤ 4096
            → length self.new.queue.items ≤ 4096) }
    {
        let (number, is_new) = self.add_code(alloc, program, &made, parent, choice)?;
        if is_new && self.queue.len() < MOST_QUEUED {
            let state = made;
            self.queue.push_back(Queued { number, state })?;
        } else {
            keep(&mut self.reusable, made)?;
        }
        Ok(number)
    }

    /// Takes in the code of the state that a choice led to from the state `parent` and, where it is
    /// new, how it was found. Answers its number, and whether it is new.
    #[inline(always)]
    fn add_code(
        &mut self,
        alloc: Global,
        program: &Program,
        made: &State,
        parent: u32,
        choice: Choice,
    ) -> Result<(usize, bool), Memory>
        requires search { IsSearch program.now self.old.codes.keys (witnesses self.old.nodes.items)
            self.old.queue.items (parent + 1) }
        requires leads { played program.now
            (witness_at (witnesses self.old.nodes.items) parent ++ choice ∷ []) ≡ Some made.now }
        ensures search { OnOk result (IsSearch program.now self.new.codes.keys
            (witnesses self.new.nodes.items) self.old.queue.items (parent + 1)) }
        ensures queue { OnOk result (self.new.queue.items ≡ self.old.queue.items) }
        ensures stays { OnOk result (StaysIn (witnesses self.old.nodes.items)
            (witnesses self.new.nodes.items)) }
        ensures found { IfOk result (λ r.
            HasNumber program.now (witnesses self.new.nodes.items) r.0 made.now) }
        ensures new { IfOk result (λ r. length (witnesses self.new.nodes.items)
            ≡ length (witnesses self.old.nodes.items) + (if r.1 then 1 else 0)) }
    {
        codes_tell_states_apart();
        let code = made.code(alloc, &mut self.numbers, &mut self.bytes)?;
        let (number, is_new) = self.codes.insert_full(code)?;
        if is_new {
            self.nodes.push(Node { parent, choice })?;
        }
        Ok((number, is_new))
    }

    /// Tries a choice in the state whose number is `at`. The state is used up.
    #[inline(always)]
    fn try_choice(
        &mut self,
        alloc: Global,
        program: &Program,
        state: State,
        at: u32,
        choice: Choice,
    ) -> Result<Tried, Memory>
        requires search { IsSearch program.now self.old.codes.keys (witnesses self.old.nodes.items)
            self.old.queue.items (at + 1) }
        requires here { IsAt program.now (witnesses self.old.nodes.items) at state }
        ensures search { OnOk result (IsSearch program.now self.new.codes.keys
            (witnesses self.new.nodes.items) self.new.queue.items (at + 1)) }
        ensures stays { OnOk result (StaysIn (witnesses self.old.nodes.items)
            (witnesses self.new.nodes.items)) }
        ensures tried { IfOk result (IsTried program.now (witnesses self.new.nodes.items)
            (behind (witnesses self.new.nodes.items) at) state choice) }
    {
        let mut next = state;
        if !next.make(program, choice)? {
            keep(&mut self.reusable, next)?;
            return Ok(Tried::Refused);
        }
        let number = self.add(alloc, program, next, at, choice)?;
        Ok(tried_from(at, number))
    }

    /// Tries choices in copies of the state whose number is `at`.
    fn expand_copies(
        &mut self,
        alloc: Global,
        program: &Program,
        choices: &[Choice],
        state: &State,
        at: u32,
    ) -> Result<Expanded, Memory>
        requires search { IsSearch program.now self.old.codes.keys (witnesses self.old.nodes.items)
            self.old.queue.items (at + 1) }
        requires here { IsAt program.now (witnesses self.old.nodes.items) at state.now }
        ensures search { OnOk result (IsSearch program.now self.new.codes.keys
            (witnesses self.new.nodes.items) self.new.queue.items (at + 1)) }
        ensures stays { OnOk result (StaysIn (witnesses self.old.nodes.items)
            (witnesses self.new.nodes.items)) }
        ensures expanded { IfOk result (λ x. IsExpanded program.now
            (witnesses self.new.nodes.items) (behind (witnesses self.new.nodes.items) at) state.now
            choices.now x.is_end x.made) }
    {
        let mut is_end = true;
        let mut made = 0;
        'choosing: for choice in choices {
            let next = copy_of(&mut self.reusable, state)?;
            let tried = self.try_choice(alloc, program, next, at, *choice)?;
            is_end &= !tried.changes();
            made += tried.steps();
        }
        Ok(Expanded { is_end, made })
    }

    /// Tries every choice in the state whose number is `at`: the last that may be made in the state
    /// itself, and the others in copies. `possible` is room for those that may be made.
    #[inline(always)]
    fn expand(
        &mut self,
        alloc: Global,
        program: &Program,
        choices: &[Choice],
        possible: &mut Vec<Choice>,
        state: State,
        at: u32,
    ) -> Result<Expanded, Memory>
        requires search { IsSearch program.now self.old.codes.keys (witnesses self.old.nodes.items)
            self.old.queue.items (at + 1) }
        requires here { IsAt program.now (witnesses self.old.nodes.items) at state }
        requires few { length choices.now ≤ 257 }
        ensures search { OnOk result (IsSearch program.now self.new.codes.keys
            (witnesses self.new.nodes.items) self.new.queue.items (at + 1)) }
        ensures stays { OnOk result (StaysIn (witnesses self.old.nodes.items)
            (witnesses self.new.nodes.items)) }
        ensures expanded { IfOk result (λ x. IsExpanded program.now
            (witnesses self.new.nodes.items) (behind (witnesses self.new.nodes.items) at) state
            choices.now x.is_end x.made) }
    {
        sift(program, choices, possible, &state)?;
        match possible.pop() {
            None => {
                keep(&mut self.reusable, state)?;
                Ok(Expanded {
                    is_end: true,
                    made: 0,
                })
            }
            Some(last) => {
                let expanded = self.expand_all(alloc, program, possible, last, state, at)?;
                Ok(expanded)
            }
        }
    }

    /// Tries choices in copies of the state whose number is `at`, and a last one in the state
    /// itself.
    #[inline(always)]
    fn expand_all(
        &mut self,
        alloc: Global,
        program: &Program,
        front: &[Choice],
        last: Choice,
        state: State,
        at: u32,
    ) -> Result<Expanded, Memory>
        requires search { IsSearch program.now self.old.codes.keys (witnesses self.old.nodes.items)
            self.old.queue.items (at + 1) }
        requires here { IsAt program.now (witnesses self.old.nodes.items) at state }
        requires few { length front.now ≤ 257 }
        ensures search { OnOk result (IsSearch program.now self.new.codes.keys
            (witnesses self.new.nodes.items) self.new.queue.items (at + 1)) }
        ensures stays { OnOk result (StaysIn (witnesses self.old.nodes.items)
            (witnesses self.new.nodes.items)) }
        ensures expanded { IfOk result (λ x. IsExpanded program.now
            (witnesses self.new.nodes.items) (behind (witnesses self.new.nodes.items) at) state
            (front.now ++ last ∷ []) x.is_end x.made) }
    {
        let copied = self.expand_copies(alloc, program, front, &state, at)?;
        let tried = self.try_choice(alloc, program, state, at, last)?;
        Ok(Expanded {
            is_end: copied.is_end & !tried.changes(),
            made: copied.made + tried.steps(),
        })
    }

    /// A search that has found where the program begins, and visited nothing.
    fn open(alloc: Global, program: &Program) -> Result<Search, Memory>
        ensures { IfOk result (λ s. IsVisited program.now s.codes.keys
            (witnesses s.nodes.items) s.queue.items [] 0 0) }
    {
        let first = State::open(alloc, program)?;
        let mut codes = IndexSet::new(alloc);
        let mut queue = VecDeque::new(alloc);
        let mut numbers = Vec::new(alloc);
        let mut bytes = Vec::new(alloc);
        let code = first.code(alloc, &mut numbers, &mut bytes)?;
        queue.push_back(Queued {
            number: 0,
            state: first,
        })?;
        codes.insert_full(code)?;
        Ok(Search {
            codes,
            nodes: Vec::new(alloc),
            queue,
            reusable: Vec::new(alloc),
            numbers,
            bytes,
        })
    }

    /// The state with the number `at`, which is visited next: from the queue, or made anew by the
    /// choices of its witness.
    fn next_state(
        &mut self,
        alloc: Global,
        program: &Program,
        trail: &mut Trail,
        at: u32,
    ) -> Result<State, Memory>
        requires search { IsSearch program.now self.old.codes.keys (witnesses self.old.nodes.items)
            self.old.queue.items at }
        requires there { at < length (witnesses self.old.nodes.items) }
        requires reached { AreReached program.now trail.old.reached.items }
        ensures search { OnOk result (IsSearch program.now self.new.codes.keys
            (witnesses self.new.nodes.items) self.new.queue.items (at + 1)) }
        ensures nodes { OnOk result (self.new.nodes.items ≡ self.old.nodes.items) }
        ensures reached { OnOk result (AreReached program.now trail.new.reached.items) }
        ensures here { IfOk result (IsAt program.now (witnesses self.old.nodes.items) at) }
    {
        if let Some(state) = take_queued(&mut self.queue, at) {
            return Ok(state);
        }
        let choices = choices_to(alloc, &self.nodes, at)?;
        match trail.play(alloc, program, &choices, &mut self.reusable)? {
            Some(state) => Ok(state),
            None => unreachable!(),
        }
    }

    /// Visits the next state, whose number is `at`: notes it where it is an end, and counts the
    /// choices that can be made. False: there is none.
    fn visit(
        &mut self,
        alloc: Global,
        program: &Program,
        choices: &[Choice],
        trail: &mut Trail,
        possible: &mut Vec<Choice>,
        ends: &mut Vec<u32>,
        steps: &mut u64,
        at: u32,
    ) -> Result<bool, Memory>
        requires visited { IsVisited program.now self.old.codes.keys
            (witnesses self.old.nodes.items) self.old.queue.items ends.old.items steps.old at }
        requires all { choices.now ≡ all_choices program.now }
        requires reached { AreReached program.now trail.old.reached.items }
        ensures visited { IfOk result (λ went. IsVisited program.now self.new.codes.keys
            (witnesses self.new.nodes.items) self.new.queue.items ends.new.items steps.new
            (if went then at + 1 else at)) }
        ensures reached { OnOk result (AreReached program.now trail.new.reached.items) }
        ensures last { IfOk result (λ went. went ≡ false
            → length (witnesses self.new.nodes.items) ≤ at) }
    {
        if self.is_done(at) {
            return Ok(false);
        }
        let state = self.next_state(alloc, program, trail, at)?;
        let expanded = self.expand(alloc, program, choices, possible, state, at)?;
        note_end(ends, expanded.is_end, at)?;
        *steps += expanded.made;
        Ok(true)
    }

    /// Tells a watch how far the search has come, where the state with the number `at` was visited
    /// last.
    #[inline(always)]
    fn tell<W: Watch>(&self, watch: &mut W, at: u32) {
        let found = self.nodes.len().saturating_add(1);
        watch.tell(found, self.nodes.len().saturating_sub(at as usize));
    }

    /// Whether more states were found than this.
    fn is_over(&self, most: u32) -> bool
        ensures { result ≡ true → most < length (witnesses self.now.nodes.items) }
    {
        self.nodes.len() + 1 > most as usize
    }

    /// Whether no more states were found than this.
    fn is_done(&self, most: u32) -> bool
        ensures done { result ≡ true → length (witnesses self.now.nodes.items) ≤ most }
        ensures more { result ≡ false → most < length (witnesses self.now.nodes.items) }
    {
        self.nodes.len() < most as usize
    }
}

/// All states of a program, each once, where there are at most this many: whatever list of choices
/// leads to a state, it is found.
pub fn explore(alloc: Global, program: &Program, most: u32) -> Result<Found, ExploreFault>
    ensures all { IfOk result (FindsAll program.now) }
    ensures few { IfOk result (λ f. length f.witnesses ≤ most) }
    ensures reason { IfErr result (IsReason program.now most) }
{
    explore_watched(alloc, program, most, &mut Nobody)
}

/// The same as [`explore`], and a watch is told how far it has come.
pub fn explore_watched<W: Watch>(
    alloc: Global,
    program: &Program,
    most: u32,
    watch: &mut W,
) -> Result<Found, ExploreFault>
    ensures all { IfOk result (FindsAll program.now) }
    ensures few { IfOk result (λ f. length f.witnesses ≤ most) }
    ensures reason { IfErr result (IsReason program.now most) }
{
    let found = find_all(alloc, program, most, watch);
    watch.end();
    found
}

/// Visits each state that is found, and tells a watch of it.
fn find_all<W: Watch>(
    alloc: Global,
    program: &Program,
    most: u32,
    watch: &mut W,
) -> Result<Found, ExploreFault>
    ensures all { IfOk result (FindsAll program.now) }
    ensures few { IfOk result (λ f. length f.witnesses ≤ most) }
    ensures reason { IfErr result (IsReason program.now most) }
{
    let choices = choices_of(alloc, program)?;
    let mut search = Search::open(alloc, program)?;
    let mut trail = Trail::new(alloc);
    let mut possible = Vec::new(alloc);
    let mut ends = Vec::new(alloc);
    let mut steps = 0;
    'visiting: for at in 0..most {
        if !search.visit(
            alloc,
            program,
            &choices,
            &mut trail,
            &mut possible,
            &mut ends,
            &mut steps,
            at,
        )? {
            return Ok(Found {
                nodes: search.nodes,
                ends,
                steps,
            });
        }
        if search.is_over(most) {
            return Err(ExploreFault::TooManyStates);
        }
        search.tell(watch, at);
    }
    if !search.is_done(most) {
        return Err(ExploreFault::TooManyStates);
    }
    Ok(Found {
        nodes: search.nodes,
        ends,
        steps,
    })
}
