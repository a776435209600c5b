//! The start of a service.

ghost use Rattle.std.specs.Prelude.{◌≡◌, ◌≤◌, ◌++◌, ◌∷◌, IfOk, IfSome, IfNone, length, map, [], vec_capacity};
ghost use Rattle.std.specs.List.{All};
ghost use Rattle.header_words.specs.Passes.{new_passes};
ghost use Rattle.live_turns.specs.Ways.{PassState, new_holding};
ghost use Rattle.live_threads.specs.Calls.{IsAtRest};

use crate::bells::Bell;
use crate::{Live, LivePass};
use crossbeam_utils::sync::Parker;
use live_turns::{Crew, TurnPass, Turns};
use lock_word::Memory;
use std::alloc::Global;
use std::sync::ledger::Blank;

// So many bells, and the parkers of the threads that listen to them, in the same order.
fn new_bells(alloc: Global, count: u16) -> Result<(Vec<Bell>, Vec<Parker>), Memory>
    ensures { IfOk result (λ r. length r.1.items ≡ count) }
{
    let mut bells = Vec::with_capacity(alloc, usize::from(count))?;
    let mut parkers = Vec::with_capacity(alloc, usize::from(count))?;
    for _ in 0..count {
        let (bell, parker) = Bell::new(alloc)?;
        bells.push_reserved(bell);
        parkers.push_reserved(parker);
    }
    Ok((bells, parkers))
}

// The last pass, if there is one.
fn last_pass<L: Crew>(passes: &mut Vec<TurnPass<L>>) -> Option<TurnPass<L>>
    requires rest { All IsAtRest passes.old.items }
    ensures rest { All IsAtRest passes.new.items }
    ensures this { IfSome result IsAtRest }
    ensures items { IfSome result (λ p. passes.old.items ≡ passes.new.items ++ p ∷ []) }
    ensures none { IfNone result (passes.old.items ≡ []) }
{
    passes.pop()
}

// These passes, each with its parker.
#[tactic(auto, using(live_turns::proofs::Rows::moved_over))]
pub(crate) fn with_parkers<L: Crew>(
    mut turns: Vec<TurnPass<L>>,
    mut parkers: Vec<Parker>,
    mut passes: Vec<LivePass<L>>,
) -> Vec<LivePass<L>>
    requires len { length turns.items ≡ length parkers.items }
    requires rest { All IsAtRest turns.items }
    requires empty { passes.items ≡ [] }
    requires room { length turns.items ≤ vec_capacity passes }
    ensures { result.items ≡ map (λ (p : PassState). p.holding) turns.items }
{
    while let Some(turns) = last_pass(&mut turns) {
        let Some(parker) = parkers.pop() else {
            unreachable!()
        };
        passes.push_reserved(LivePass { turns, parker });
    }
    passes.reverse();
    passes
}

impl<L: Crew> Live<L> {
    /// Makes a service of `lows.len()` free objects, 0 to 65,535, of which object `i` keeps the low
    /// byte `lows[i]`; with at most `monitors` fat monitors, 0 to 8,388,608; with a record of
    /// `places` places; and with passes for the threads 1 to `passes`, 1 to 64 of them. The system
    /// is asked for all memory here; `Err` comes only where it refused some.
    pub fn open(
        alloc: Global,
        blank: Blank,
        lows: &[u8],
        monitors: u32,
        passes: u16,
        places: u32,
    ) -> Result<(Live<L>, Vec<LivePass<L>>), Memory>
        requires name { blank.name ≡ L.name }
        requires parts { (blank.parts ≡ L.parts) × (L.parts ≡ passes) }
        requires crew { (L.passes ≡ passes) × (L.monitors ≡ monitors) × (L.places ≡ places) }
        requires objects { length lows.now ≤ 65535 }
        requires some { 1 ≤ passes }
        requires few { passes ≤ 64 }
        requires monitors { monitors ≤ 8388608 }
        ensures opening { IfOk result (λ r. (r.0.lows ≡ lows.now) × (r.0.count ≡ passes)) }
        ensures passes { IfOk result (λ r. r.1.items
            ≡ map new_holding (new_passes r.0 1 passes)) }
    {
        let (bells, parkers) = new_bells(alloc, passes)?;
        let row = Vec::with_capacity(alloc, usize::from(passes))?;
        let (turns, passes) = Turns::open(alloc, blank, lows, monitors, passes, places)?;
        let live = Live { turns, bells };
        Ok((live, with_parkers(passes, parkers, row)))
    }
}
