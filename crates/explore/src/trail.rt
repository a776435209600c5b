//! The choices of a witness, made once more.

ghost use Rattle.std.specs.Prelude.{◌≡◌, ◌≤◌, [], IfOk, OnOk, length, slice_get, take, Some, None};
ghost use Rattle.std.specs.Prelude.{true, false};
ghost use Rattle.explore.specs.States.{played};
ghost use Rattle.explore.specs.Trails.{AreReached, choices_along};

use crate::programs::{Choice, Program};
use crate::states::{State, copy_of, keep};
use lock_word::Memory;
use std::alloc::Global;

/// A choice of a trail, and the state behind it.
#[derive(Drop)]
pub(crate) struct Reached {
    choice: Choice,
    state: State,
}

/// The choices of the list that was played last, but for the last of them, each with the state
/// behind it. Where the next list begins with the same choices, only the others are made.
#[derive(Drop)]
pub(crate) struct Trail {
    pub(crate) reached: Vec<Reached>,
}

impl Trail {
    /// A trail without a choice.
    pub(crate) fn new(alloc: Global) -> Trail
        ensures empty { result.reached.items ≡ [] }
        ensures reached { (p : Program) → AreReached p result.reached.items }
    {
        Trail {
            reached: Vec::new(alloc),
        }
    }

    /// The state behind a list of choices; None where one of them cannot be made. States that are
    /// needed no more are kept for their memory.
    pub(crate) fn play(
        &mut self,
        alloc: Global,
        program: &Program,
        choices: &[Choice],
        reusable: &mut Vec<State>,
    ) -> Result<Option<State>, Memory>
        requires reached { AreReached program.now self.old.reached.items }
        ensures reached { OnOk result (AreReached program.now self.new.reached.items) }
        ensures state { IfOk result (λ s. s ≡ played program.now choices.now) }
    {
        let shared = self.shared_with(choices);
        self.cut(shared, reusable)?;
        if !self.walk_on(alloc, program, choices, reusable)? {
            return Ok(None);
        }
        match self.reached.pop() {
            Some(reached) => Ok(Some(reached.state)),
            None => Ok(Some(State::open(alloc, program)?)),
        }
    }

    /// How many choices the trail and a list have in common, from the first on.
    fn shared_with(&self, choices: &[Choice]) -> usize
        ensures within { result ≤ length choices.now }
        ensures same { choices_along (take result self.now.reached.items)
            ≡ take result choices.now }
        ensures most { (c : Choice) → slice_get choices.now result ≡ Some c
            → slice_get (choices_along self.now.reached.items) result ≡ Some c → ⊥ }
    {
        let mut shared = 0;
        'comparing: for reached in &self.reached {
            match choices.get(shared) {
                Some(choice) if *choice == reached.choice => shared += 1,
                _ => return shared,
            }
        }
        shared
    }

    /// Leaves the first choices of the trail, at most this many, and keeps the states of the others
    /// for their memory.
    fn cut(&mut self, most: usize, reusable: &mut Vec<State>) -> Result<(), Memory>
        ensures { OnOk result (self.new.reached.items ≡ take most self.old.reached.items) }
    {
        'cutting: while self.reached.len() > most {
            if let Some(reached) = self.reached.pop() {
                keep(reusable, reached.state)?;
            }
        }
        Ok(())
    }

    /// Makes the choices that come behind those of the trail. False: one of them cannot be made.
    fn walk_on(
        &mut self,
        alloc: Global,
        program: &Program,
        choices: &[Choice],
        reusable: &mut Vec<State>,
    ) -> Result<bool, Memory>
        requires reached { AreReached program.now self.old.reached.items }
        requires within { length self.old.reached.items ≤ length choices.now }
        requires same { choices_along self.old.reached.items
            ≡ take (length self.old.reached.items) choices.now }
        ensures reached { OnOk result (AreReached program.now self.new.reached.items) }
        ensures there { IfOk result (λ all. all ≡ true
            → choices_along self.new.reached.items ≡ choices.now) }
        ensures nowhere { IfOk result (λ all. all ≡ false → played program.now choices.now ≡ None) }
    {
        'walking: while self.reached.len() < choices.len() {
            let choice = choices[self.reached.len()];
            let mut state = self.copy_of_last(alloc, program, reusable)?;
            if !state.make(program, choice)? {
                return Ok(false);
            }
            self.reached.push(Reached { choice, state })?;
        }
        Ok(true)
    }

    /// A copy of the state at the end of the trail; of one without a choice, the state in which the
    /// program begins.
    fn copy_of_last(
        &self,
        alloc: Global,
        program: &Program,
        reusable: &mut Vec<State>,
    ) -> Result<State, Memory>
        requires { AreReached program.now self.now.reached.items }
        ensures { IfOk result (λ s. played program.now (choices_along self.now.reached.items)
            ≡ Some s) }
    {
        match self.reached.last() {
            Some(reached) => copy_of(reusable, &reached.state),
            None => State::open(alloc, program),
        }
    }
}
