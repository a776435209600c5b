//! The close of a service, by the seat that is left.

ghost use Rattle.std.specs.Prelude.{◌≡◌, ◌≤◌, ◌+◌, ◌++◌, ◌∷◌, [], All, IfOk, IfErr, IsSome, OnOk, List, Some, None, length, map, vec_len, vec_capacity, false};
ghost use Rattle.std.specs.Arc.{arc_value};
ghost use Rattle.live_turns.specs.Ways.{PassState, Belongs};
ghost use Rattle.live_turns.specs.Ends.{IsEnd, numbers_of};
ghost use Rattle.live_turns.specs.Numbers.{HasEach};
ghost use Rattle.live_seats.specs.Seats.{SeatState};
ghost use Rattle.live_seats.specs.Ends.{HasEnded, thread_of, all_passes};
ghost use Rattle.live_seats.specs.Unclosed.{IsRefused, Stays, IsThere, IsUnclosed, ClosesKept};

use crate::ending::{Closing, ServiceEnd};
use crate::house::House;
use crate::member::Member;
use crate::seat::Seat;
use crate::unclosed::{Refused, Unclosed, Waits};
use c_slots::{MaybeParts, Parts};
use live_turns::{Closed, Crew, TurnPass, TurnsClose};
use lock_word::{Memory, ThreadId};
use std::alloc::Global;
use std::sync::Arc;

/// What came of a close, with the seat taken apart if it is there, and the end of the service if it
/// was closed.
pub struct Ended<L: Crew> {
    pub seat: MaybeParts<Seat<L>, Global>,
    pub end: MaybeParts<ServiceEnd, Global>,
    pub told: Closing,
}

// Room for all passes, for their threads, and for the end of the service.
fn room_for<L: Crew>(
    alloc: Global,
    rest: &mut Vec<TurnPass<L>>,
) -> Result<(Vec<ThreadId>, Box<ServiceEnd>), Memory>
    ensures items { rest.new.items ≡ rest.old.items }
    ensures len { vec_len rest.new ≡ vec_len rest.old }
    ensures room { OnOk result (vec_len rest.new + 65 ≤ vec_capacity rest.new) }
    ensures none { IfOk result (λ r. r.0.items ≡ []) }
    ensures threads { IfOk result (λ r. vec_len rest.new + 65 ≤ vec_capacity r.0) }
{
    rest.reserve(65)?;
    let threads = Vec::with_capacity(alloc, rest.len() + 65)?;
    let closed = Closed {
        words: Vec::new(alloc),
        logged: Vec::new(alloc),
        counts: Vec::new(alloc),
    };
    let nothing = ServiceEnd {
        closed,
        threads: Vec::new(alloc),
    };
    Ok((threads, Box::new(alloc, nothing)?))
}

// The end of a service, in a box that is there for it.
fn filled(mut end: Box<ServiceEnd>, closed: Closed, threads: Vec<ThreadId>) -> Box<ServiceEnd>
    ensures { result.value ≡ record { closed = closed; threads = threads } }
{
    *end = ServiceEnd { closed, threads };
    end
}

// The threads of these passes.
fn note_threads<L: Crew>(passes: &[TurnPass<L>], threads: &mut Vec<ThreadId>)
    requires none { threads.old.items ≡ [] }
    requires room { length passes.now ≤ vec_capacity threads.old }
    ensures { threads.new.items ≡ map thread_of passes.now }
{
    for pass in passes {
        threads.push_reserved(pass.thread());
    }
}

impl<L: Crew> House<L> {
    // Closes the service with these passes.
    fn close(self, alloc: Global, passes: Vec<TurnPass<L>>) -> Result<Closed, Refused<L>>
        requires belong { All (λ p. Belongs self false p.holding) passes.items }
        requires parts { L.parts ≡ L.passes }
        ensures end { IfOk result (IsEnd self L.monitors passes.items) }
        ensures each { IfOk result (λ _. HasEach self.count (numbers_of passes.items)) }
        ensures refused { IfErr result (IsRefused self L.monitors passes.items) }
    {
        let House { turns, hooks } = self;
        match turns.close(alloc, passes) {
            Ok(closed) => Ok(closed),
            Err(TurnsClose::WrongPass { turns, passes }) => {
                let house = House { turns, hooks };
                let told = Closing::WrongPass;
                Err(Refused::Back {
                    house,
                    passes,
                    told,
                })
            }
            Err(TurnsClose::Memory { turns, passes }) => {
                let house = House { turns, hooks };
                let told = Closing::Memory;
                Err(Refused::Back {
                    house,
                    passes,
                    told,
                })
            }
            Err(TurnsClose::Torn) => Err(Refused::Torn),
        }
    }
}

// Closes the service of a house with these passes, those that came back, and this one.
fn close_house<L: Crew>(
    alloc: Global,
    home: &mut Option<House<L>>,
    pass: TurnPass<L>,
    mut rest: Vec<TurnPass<L>>,
    threads: &mut Vec<ThreadId>,
) -> Result<Closed, Waits<L>>
    requires there { home.old ≡ Some pass.holding.words.opening }
    requires gate { pass.holding.words.has_gate ≡ false }
    requires all { All (λ p. Belongs pass.holding.words.opening false p.holding) rest.items }
    requires parts { L.parts ≡ L.passes }
    requires room { vec_len rest + 65 ≤ vec_capacity rest }
    requires none { threads.old.items ≡ [] }
    requires threads { vec_len rest + 65 ≤ vec_capacity threads.old }
    ensures end { IfOk result (λ c. (more : List PassState)
        × HasEach pass.holding.words.opening.count (numbers_of (all_passes rest.items more pass))
        × IsEnd pass.holding.words.opening L.monitors (all_passes rest.items more pass) c
        × (threads.new.items ≡ map thread_of (all_passes rest.items more pass))) }
    ensures waits { IfErr result (Stays pass.holding.words.opening L.monitors pass rest.items) }
    ensures home { IfErr result (λ w. IsThere home.old w home.new) }
{
    let Some(house) = home.take() else {
        unreachable!()
    };
    house.take(&mut rest);
    rest.push_reserved(pass);
    note_threads(rest.as_slice(), threads);
    match house.close(alloc, rest) {
        Ok(closed) => Ok(closed),
        Err(
            Refused::Back {
                house,
                mut passes,
                told,
            },
        ) => {
            *home = Some(house);
            let Some(pass) = passes.pop() else {
                unreachable!()
            };
            Err(Waits::Here {
                pass,
                rest: passes,
                told,
            })
        }
        Err(Refused::Torn) => Err(Waits::Torn),
    }
}

// Closes the service of a share, if there is no other.
fn close_home<L: Crew>(
    alloc: Global,
    home: &mut Arc<Option<House<L>>, Global>,
    pass: TurnPass<L>,
    rest: Vec<TurnPass<L>>,
    threads: &mut Vec<ThreadId>,
) -> Result<Closed, Waits<L>>
    requires there { arc_value home.old ≡ Some pass.holding.words.opening }
    requires gate { pass.holding.words.has_gate ≡ false }
    requires all { All (λ p. Belongs pass.holding.words.opening false p.holding) rest.items }
    requires parts { L.parts ≡ L.passes }
    requires room { vec_len rest + 65 ≤ vec_capacity rest }
    requires none { threads.old.items ≡ [] }
    requires threads { vec_len rest + 65 ≤ vec_capacity threads.old }
    ensures end { IfOk result (λ c. (more : List PassState)
        × HasEach pass.holding.words.opening.count (numbers_of (all_passes rest.items more pass))
        × IsEnd pass.holding.words.opening L.monitors (all_passes rest.items more pass) c
        × (threads.new.items ≡ map thread_of (all_passes rest.items more pass))) }
    ensures waits { IfErr result (Stays pass.holding.words.opening L.monitors pass rest.items) }
    ensures home { IfErr result (λ w. IsThere (arc_value home.old) w (arc_value home.new)) }
{
    match Arc::get_mut(home) {
        Some(house) => close_house(alloc, house, pass, rest, threads),
        None => Err(Waits::Here {
            pass,
            rest,
            told: Closing::Others,
        }),
    }
}

impl<L: Crew> Member<L> {
    // Closes the service, if there is no other member.
    fn close(self, alloc: Global) -> Result<Box<ServiceEnd>, Unclosed<L>>
        requires parts { L.parts ≡ L.passes }
        ensures end { IfOk result (λ e. HasEnded self e.value) }
        ensures here { IfErr result (IsUnclosed self) }
    {
        let Member {
            mut home,
            pass,
            mut rest,
        } = self;
        let Ok((mut threads, end)) = room_for(alloc, &mut rest) else {
            let member = Member { home, pass, rest };
            return Err(Unclosed::Here {
                member,
                told: Closing::Memory,
            });
        };
        match close_home(alloc, &mut home, pass, rest, &mut threads) {
            Ok(closed) => Ok(filled(end, closed, threads)),
            Err(Waits::Here { pass, rest, told }) => {
                let member = Member { home, pass, rest };
                Err(Unclosed::Here { member, told })
            }
            Err(Waits::Torn) => Err(Unclosed::Torn),
        }
    }
}

// The seat has its member again.
fn stays<L: Crew>(
    alloc: Global,
    mut seat: Box<Seat<L>>,
    member: Member<L>,
    told: Closing,
) -> Ended<L>
    ensures told { result.told ≡ told }
    ensures end { result.end.value ≡ None }
    ensures seat { result.seat.value ≡ Some (record { member = Some member }) }
{
    seat.member = Some(member);
    Ended {
        seat: MaybeParts::of(Parts::of(seat)),
        end: MaybeParts::none(alloc),
        told,
    }
}

impl<L: Crew> Seat<L> {
    /// Closes the service of a seat that is taken apart, where there is no other seat, and all
    /// passes came back. It never waits.
    pub fn close(alloc: Global, seat: Parts<Seat<L>, Global>) -> Ended<L>
        requires some { IsSome seat.value.member }
        requires parts { L.parts ≡ L.passes }
        ensures { ClosesKept seat.value.member result.told result.seat.value
            result.end.value }
    {
        let mut seat = seat.into_box();
        let Some(member) = seat.member.take() else {
            unreachable!()
        };
        match member.close(alloc) {
            Ok(end) => Ended {
                seat: MaybeParts::none(alloc),
                end: MaybeParts::of(Parts::of(end)),
                told: Closing::Done,
            },
            Err(Unclosed::Here { member, told }) => stays(alloc, seat, member, told),
            Err(Unclosed::Torn) => Ended {
                seat: MaybeParts::none(alloc),
                end: MaybeParts::none(alloc),
                told: Closing::Torn,
            },
        }
    }
}
