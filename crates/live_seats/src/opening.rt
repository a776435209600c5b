//! The opening of a service.

ghost use Rattle.std.specs.Prelude.{◌≡◌, ◌≤◌, ◌++◌, ◌∷◌, IfOk, IfSome, IfNone, All, Some, length, map, [], false};
ghost use Rattle.std.specs.Arc.{arc_value};
ghost use Rattle.header_words.specs.Passes.{new_passes};
ghost use Rattle.live_turns.specs.Ways.{Belongs, new_state};
ghost use Rattle.live_seats.specs.Seats.{SeatState, IsOpened};
ghost use Rattle.live_seats.specs.Kept.{HasOpenedKept};

use crate::house::{House, free_hooks};
use crate::member::Member;
use crate::seat::Seat;
use c_slots::{MaybeParts, Parts};
use live_turns::{Crew, TurnPass, Turns};
use lock_word::Memory;
use std::alloc::Global;
use std::sync::Arc;
use std::sync::ledger::Blank;

/// What a service is opened with: the low byte of each object, 0 to 65,535 of them; how many fat
/// monitors it may have, 0 to 8,388,608; how many passes there are, 1 to 64; and how many places
/// its record has.
#[derive(Drop)]
pub struct Draft {
    pub lows: Vec<u8>,
    pub monitors: u32,
    pub passes: u16,
    pub places: u32,
}

// The last of these passes of a service, if there is one.
fn last_pass<L: Crew>(turns: &Turns<L>, passes: &mut Vec<TurnPass<L>>) -> Option<TurnPass<L>>
    requires all { All (λ p. Belongs turns.now false p.holding) passes.old.items }
    ensures all { All (λ p. Belongs turns.entry.now false p.holding) passes.new.items }
    ensures this { IfSome result (λ p. Belongs turns.entry.now false p.holding) }
    ensures items { IfSome result (λ p. passes.old.items ≡ passes.new.items ++ p ∷ []) }
    ensures none { IfNone result (passes.old.items ≡ []) }
{
    let _ = turns;
    passes.pop()
}

// A house for a service, behind its share.
fn housed<L: Crew>(
    alloc: Global,
    turns: Turns<L>,
    count: u16,
) -> Result<Arc<Option<House<L>>, Global>, Memory>
    requires few { count ≤ 64 }
    requires crew { L.passes ≡ turns.count }
    ensures { IfOk result (λ a. arc_value a ≡ Some turns) }
{
    let hooks = free_hooks(alloc, &turns, count)?;
    let Ok(home) = Arc::new(alloc, Some(House { turns, hooks })) else {
        return Err(Memory);
    };
    Ok(home)
}

// A seat with the last of these passes.
#[tactic(auto, using(crate::proofs::Passes::new_states_belong))]
fn seated<L: Crew>(
    alloc: Global,
    turns: Turns<L>,
    mut passes: Vec<TurnPass<L>>,
    count: u16,
) -> Result<Member<L>, Memory>
    requires passes { passes.items ≡ map new_state (new_passes turns 1 count) }
    requires some { 1 ≤ count }
    requires few { count ≤ 64 }
    requires crew { L.passes ≡ turns.count }
    ensures { IfOk result (λ s. (s.opening ≡ turns) × (s.limit ≡ L.monitors)
        × (s.rest ++ s.pass ∷ [] ≡ map new_state (new_passes turns 1 count))) }
{
    let Some(pass) = last_pass(&turns, &mut passes) else {
        unreachable!()
    };
    let home = housed(alloc, turns, count)?;
    Ok(Member {
        home,
        pass,
        rest: passes,
    })
}

// Opens a service, for a member that has all its passes.
fn first_member<L: Crew>(alloc: Global, blank: Blank, draft: &Draft) -> Result<Member<L>, Memory>
    requires name { blank.name ≡ L.name }
    requires parts { (blank.parts ≡ L.parts) × (L.parts ≡ draft.now.passes) }
    requires crew { (L.passes ≡ draft.now.passes) × (L.monitors ≡ draft.now.monitors)
        × (L.places ≡ draft.now.places) }
    requires objects { length draft.now.lows.items ≤ 65535 }
    requires some { 1 ≤ draft.now.passes }
    requires few { draft.now.passes ≤ 64 }
    requires monitors { draft.now.monitors ≤ 8388608 }
    ensures { IfOk result (λ s. IsOpened draft.now s) }
{
    let (turns, passes) = Turns::<L>::open(
        alloc,
        blank,
        draft.lows.as_slice(),
        draft.monitors,
        draft.passes,
        draft.places,
    )?;
    seated(alloc, turns, passes, draft.passes)
}

// Keeps a seat with this member.
fn boxed<L: Crew>(alloc: Global, member: Member<L>) -> Result<Box<Seat<L>>, Memory>
    ensures { IfOk result (λ s. s.value ≡ record { member = Some member }) }
{
    let member = Some(member);
    Ok(Box::new(alloc, Seat { member })?)
}

// Opens a service, with a seat that has all its passes.
fn first_seat<L: Crew>(alloc: Global, blank: Blank, draft: &Draft) -> Result<Box<Seat<L>>, Memory>
    requires name { blank.name ≡ L.name }
    requires parts { (blank.parts ≡ L.parts) × (L.parts ≡ draft.now.passes) }
    requires crew { (L.passes ≡ draft.now.passes) × (L.monitors ≡ draft.now.monitors)
        × (L.places ≡ draft.now.places) }
    requires objects { length draft.now.lows.items ≤ 65535 }
    requires some { 1 ≤ draft.now.passes }
    requires few { draft.now.passes ≤ 64 }
    requires monitors { draft.now.monitors ≤ 8388608 }
    ensures { IfOk result (λ s. (v : SeatState) × (s.value ≡ record { member = Some v })
        × IsOpened draft.now v) }
{
    let member = first_member(alloc, blank, draft)?;
    boxed(alloc, member)
}

/// The seat of a service that was opened, taken apart, if there was memory for it.
pub struct Opened<L: Crew> {
    pub seat: MaybeParts<Seat<L>, Global>,
    /// Whether there is one.
    pub found: bool,
}

impl<L: Crew> Seat<L> {
    /// Opens a service: the seat has the last pass, and is left the others. There is none only
    /// where the system refused memory.
    pub fn open(alloc: Global, blank: Blank, draft: Draft) -> Opened<L>
        requires name { blank.name ≡ L.name }
        requires parts { (blank.parts ≡ L.parts) × (L.parts ≡ draft.passes) }
        requires crew { (L.passes ≡ draft.passes) × (L.monitors ≡ draft.monitors)
            × (L.places ≡ draft.places) }
        requires objects { length draft.lows.items ≤ 65535 }
        requires some { 1 ≤ draft.passes }
        requires few { draft.passes ≤ 64 }
        requires monitors { draft.monitors ≤ 8388608 }
        ensures { HasOpenedKept draft result.found result.seat.value }
    {
        match first_seat(alloc, blank, &draft) {
            Ok(seat) => Opened {
                seat: MaybeParts::of(Parts::of(seat)),
                found: true,
            },
            Err(_) => Opened {
                seat: MaybeParts::none(alloc),
                found: false,
            },
        }
    }
}
