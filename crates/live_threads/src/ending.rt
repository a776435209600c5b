//! The end of a service, and a look at its book.

ghost use Rattle.std.specs.Prelude.{◌≡◌, ◌≤◌, IfOk, IfErr, [], length, map, false, vec_capacity};
ghost use Rattle.std.specs.List.{All};
ghost use Rattle.std.specs.Fn.{FnOnceReturnsAt};
ghost use Rattle.live_turns.specs.Numbers.{HasEach};
ghost use Rattle.live_turns.specs.Ends.{IsEnd, IsLookedAt};
ghost use Rattle.live_turns.specs.Ways.{AddsNoEvent};
ghost use Rattle.live_threads.specs.Calls.{IsAtRest};
ghost use Rattle.live_threads.specs.Ends.{IsHandedBack, IsTornFrom, TellsEnd, at_rest, numbers_of};

use crate::opening::with_parkers;
use crate::{Live, LivePass};
use crossbeam_utils::sync::Parker;
use live_turns::{Closed, Crew, Numbered, TurnPass, TurnsClose, has_each};
use lock_word::Memory;
use std::alloc::Global;

/// Why a service was not closed.
#[derive(Drop)]
pub enum LiveClose<L: Crew> {
    /// The passes are not all of the service's, each once. Everything comes back as it was.
    WrongPass {
        live: Live<L>,
        passes: Vec<LivePass<L>>,
    },
    /// They are, and the system refused memory. Everything comes back as it was.
    Memory {
        live: Live<L>,
        passes: Vec<LivePass<L>>,
    },
    /// The deeds of a pass are not those that the record has under its number. Nothing comes back.
    Torn,
}

impl<L: Crew> Numbered for LivePass<L> {
    ghost numbered = { λ p. p.words.index };

    fn number(&self) -> u16 {
        self.turns.number()
    }
}

// Rows for so many passes and their parkers.
fn rows_for<L: Crew>(alloc: Global, count: usize) -> Result<(Vec<TurnPass<L>>, Vec<Parker>), Memory>
    ensures none { IfOk result (λ r. (r.0.items ≡ []) × (r.1.items ≡ [])) }
    ensures room { IfOk result (λ r. (count ≤ vec_capacity r.0) × (count ≤ vec_capacity r.1)) }
{
    let turns = Vec::with_capacity(alloc, count)?;
    let parkers = Vec::with_capacity(alloc, count)?;
    Ok((turns, parkers))
}

// The passes without their parkers. The two rows and the one that is left have room for all.
fn take_apart<L: Crew>(
    passes: &mut Vec<LivePass<L>>,
    turns: &mut Vec<TurnPass<L>>,
    parkers: &mut Vec<Parker>,
)
    requires none { (turns.old.items ≡ []) × (parkers.old.items ≡ []) }
    requires room { length passes.old.items ≤ vec_capacity turns.old }
    requires space { length passes.old.items ≤ vec_capacity parkers.old }
    ensures turns { turns.new.items ≡ map at_rest passes.old.items }
    ensures rest { All IsAtRest turns.new.items }
    ensures parkers { length parkers.new.items ≡ length passes.old.items }
    ensures empty { passes.new.items ≡ [] }
    ensures left { length passes.old.items ≤ vec_capacity passes.new }
{
    while let Some(pass) = passes.pop() {
        let LivePass {
            turns: turn,
            parker,
        } = pass;
        turns.push_reserved(turn);
        parkers.push_reserved(parker);
    }
    turns.reverse();
    parkers.reverse();
}

impl<L: Crew> Live<L> {
    /// Closes the service: the words of its objects, its record, and how many deeds each pass did.
    ///
    /// A missing pass comes before want of memory; both give everything back as it was.
    pub fn close(self, alloc: Global, passes: Vec<LivePass<L>>) -> Result<Closed, LiveClose<L>>
        requires belong { All (λ p. p.words.opening ≡ self) passes.items }
        requires crew { (L.parts ≡ self.count) × (L.passes ≡ self.count) }
        ensures end { IfOk result (IsEnd self L.monitors (map at_rest passes.items)) }
        ensures all { IfOk result (λ _. HasEach self.count (numbers_of passes.items)) }
        ensures fault { IfErr result (TellsEnd self.count passes.items) }
        ensures torn { IfErr result (IsTornFrom self L.monitors passes.items) }
        ensures back { IfErr result (IsHandedBack self passes.items) }
    {
        if !has_each(&passes, self.turns.passes()) {
            return Err(LiveClose::WrongPass { live: self, passes });
        }
        let Ok((turns, parkers)) = rows_for(alloc, passes.len()) else {
            return Err(LiveClose::Memory { live: self, passes });
        };
        self.close_all(alloc, passes, turns, parkers)
    }

    // The end, where the passes are all there, with the rows that it fills.
    fn close_all(
        self,
        alloc: Global,
        mut passes: Vec<LivePass<L>>,
        mut turns: Vec<TurnPass<L>>,
        mut parkers: Vec<Parker>,
    ) -> Result<Closed, LiveClose<L>>
        requires belong { All (λ p. p.words.opening ≡ self) passes.items }
        requires crew { (L.parts ≡ self.count) × (L.passes ≡ self.count) }
        requires each { HasEach self.count (numbers_of passes.items) }
        requires none { (turns.items ≡ []) × (parkers.items ≡ []) }
        requires room { (length passes.items ≤ vec_capacity turns)
            × (length passes.items ≤ vec_capacity parkers) }
        ensures end { IfOk result (IsEnd self L.monitors (map at_rest passes.items)) }
        ensures fault { IfErr result (TellsEnd self.count passes.items) }
        ensures torn { IfErr result (IsTornFrom self L.monitors passes.items) }
        ensures back { IfErr result (IsHandedBack self passes.items) }
    {
        take_apart(&mut passes, &mut turns, &mut parkers);
        let Live {
            turns: service,
            bells,
        } = self;
        match service.close(alloc, turns) {
            Ok(closed) => Ok(closed),
            Err(TurnsClose::Torn) => Err(LiveClose::Torn),
            Err(
                TurnsClose::Memory {
                    turns: service,
                    passes: turns,
                },
            ) => {
                let live = Live {
                    turns: service,
                    bells,
                };
                let passes = with_parkers(turns, parkers, passes);
                Err(LiveClose::Memory { live, passes })
            }
            Err(TurnsClose::WrongPass { .. }) => unreachable!(),
        }
    }
}
