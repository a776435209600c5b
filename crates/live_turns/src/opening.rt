//! The start of the turns of a service.

ghost use Rattle.std.specs.Prelude.{◌≡◌, ◌≤◌, IfOk, OnOk, length, map, [], vec_len, vec_capacity};
ghost use Rattle.header_words.specs.Passes.{new_passes};
ghost use Rattle.live_turns.specs.Ways.{new_state};

use crate::desks::{Crew, Desk, Own};
use crate::hands::Hand;
use crate::{Book, Logged, TurnPass, Turns};
use header_words::{Headers, Pass};
use lock_word::Memory;
use std::alloc::Global;
use std::sync::ledger::{Blank, Share};
use step_core::{Place, Point};

// The deeds of a pass that has done nothing.
#[derive(Drop)]
struct Fresh<L: Crew> {
    list: Vec<Logged>,
    share: Share<L>,
    ghost one: { share.parts ≡ 1 },
    ghost nothing: { share.amount ≡ 0 },
    ghost empty: { list.items ≡ [] },
    ghost room: { L.places ≤ vec_capacity list },
}

// Such deeds for each pass, each with its part of the ledger.
fn fresh_owns<L: Crew>(
    alloc: Global,
    count: u16,
    places: u32,
    rest: &mut Share<L>,
) -> Result<Vec<Fresh<L>>, Memory>
    requires parts { rest.old.parts ≡ count }
    requires none { rest.old.amount ≡ 0 }
    requires places { L.places ≡ places }
    ensures len { IfOk result (λ v. vec_len v ≡ count) }
    ensures rest { OnOk result ((rest.new.parts ≡ 0) × (rest.new.amount ≡ 0)) }
{
    let mut owns = Vec::with_capacity(alloc, usize::from(count))?;
    for _ in 0..count {
        let list = Vec::with_capacity(alloc, places as usize)?;
        let share = rest.split_off(1, 0);
        owns.push_reserved(Fresh { list, share });
    }
    Ok(owns)
}

// What lies behind the gate of a service that starts, and such deeds for each pass.
fn new_desk<L: Crew>(
    alloc: Global,
    blank: Blank,
    monitors: u32,
    passes: u16,
    places: u32,
) -> Result<(Box<Desk<L>>, Vec<Fresh<L>>), Memory>
    requires name { blank.name ≡ L.name }
    requires parts { (blank.parts ≡ L.parts) × (L.parts ≡ passes) }
    requires crew { (L.passes ≡ passes) × (L.monitors ≡ monitors) × (L.places ≡ places) }
    requires few { passes ≤ 64 }
    requires monitors { monitors ≤ 8388608 }
    ensures owns { IfOk result (λ r. vec_len r.1 ≡ passes) }
{
    let book = Book::new(alloc, monitors, passes, places)?;
    let (total, mut rest) = blank.open::<L>();
    let owns = fresh_owns(alloc, passes, places, &mut rest)?;
    let desk = Desk { book, total, rest };
    Ok((Box::new(alloc, desk)?, owns))
}

// The passes of these words, each with deeds of its own.
#[tactic(auto, using(crate::proofs::Rows::moved_over))]
fn with_owns<L: Crew>(
    mut words: Vec<Pass<Box<Desk<L>>>>,
    mut owns: Vec<Fresh<L>>,
    mut passes: Vec<TurnPass<L>>,
) -> Vec<TurnPass<L>>
    requires len { vec_len words ≡ vec_len owns }
    requires empty { passes.items ≡ [] }
    requires room { vec_len words ≤ vec_capacity passes }
    ensures { result.items ≡ map new_state words.items }
{
    while let Some(words) = words.pop() {
        let Some(Fresh { list, share }) = owns.pop() else {
            unreachable!()
        };
        let own = Own { list, share };
        passes.push_reserved(TurnPass {
            hand: Hand { words, own },
            point: Point::At(Place::Idle),
        });
    }
    passes.reverse();
    passes
}

impl<L: Crew> Turns<L> {
    /// Makes a service of `lows.len()` free objects, 0 to 65,535, of which object `i` keeps the low
    /// byte `lows[i]`; with at most `monitors` fat monitors, 0 to 8,388,608; with a record of
    /// `places` places; and with passes for the threads 1 to `passes`, 1 to 64 of them. The system
    /// is asked for all memory here; `Err` comes only where it refused some.
    pub fn open(
        alloc: Global,
        blank: Blank,
        lows: &[u8],
        monitors: u32,
        passes: u16,
        places: u32,
    ) -> Result<(Turns<L>, Vec<TurnPass<L>>), Memory>
        requires name { blank.name ≡ L.name }
        requires parts { (blank.parts ≡ L.parts) × (L.parts ≡ passes) }
        requires crew { (L.passes ≡ passes) × (L.monitors ≡ monitors) × (L.places ≡ places) }
        requires objects { length lows.now ≤ 65535 }
        requires some { 1 ≤ passes }
        requires few { passes ≤ 64 }
        requires monitors { monitors ≤ 8388608 }
        ensures opening { IfOk result (λ r. (r.0.lows ≡ lows.now) × (r.0.count ≡ passes)) }
        ensures passes { IfOk result (λ r. r.1.items
            ≡ map new_state (new_passes r.0 1 passes)) }
    {
        let row = Vec::with_capacity(alloc, usize::from(passes))?;
        let (desk, owns) = new_desk(alloc, blank, monitors, passes, places)?;
        let Ok((headers, words)) = Headers::open(alloc, lows, passes, desk) else {
            return Err(Memory);
        };
        let objects = lows.len() as u32;
        let turns = Turns {
            headers,
            objects,
            passes,
        };
        Ok((turns, with_owns(words, owns, row)))
    }
}
