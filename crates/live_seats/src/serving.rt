//! An order of a seat.

ghost use Rattle.std.specs.Prelude.{◌≡◌, ◌∷◌, [], Some, None, IsSome, IfOk, IfErr, All, false};
ghost use Rattle.std.specs.Arc.{arc_value};
ghost use Rattle.live_turns.specs.Ways.{Belongs};
ghost use Rattle.live_seats.specs.Seats.{SeatState, SeatServes, IsOfPass, HasShared, Serves, Shares};
ghost use Rattle.live_seats.specs.Kept.{ServesKept};
ghost use Rattle.live_seats.specs.declared.orders.SeatOrder.TheVariants.{Share, Leave};

use crate::house::House;
use crate::member::Member;
use crate::orders::{SeatOrder, Told};
use crate::pass_orders::carry_out;
use crate::seat::Seat;
use c_slots::{MaybeParts, Parts};
use live_turns::{Crew, TurnPass};
use std::alloc::Global;
use std::ops::Deref;
use std::sync::Arc;

/// What came of an order, with the seat that carried it out, taken apart, and a new one if there is
/// one.
pub struct Served<L: Crew> {
    pub seat: MaybeParts<Seat<L>, Global>,
    pub other: MaybeParts<Seat<L>, Global>,
    pub told: Told,
}

// What the pass of a member does at an order.
fn carry_out_at<L: Crew>(home: &Option<House<L>>, pass: &mut TurnPass<L>, order: SeatOrder) -> Told
    requires there { home.now ≡ Some pass.old.holding.words.opening }
    requires gate { pass.old.holding.words.has_gate ≡ false }
    requires own { IsOfPass order }
    ensures belongs { Belongs pass.old.holding.words.opening false pass.new.holding }
    ensures serves { Serves pass.old.holding.words.opening order result pass.old pass.new }
{
    match home {
        Some(house) => carry_out(&house.turns, pass, order),
        None => unreachable!(),
    }
}

// The passes come back to their service.
fn come_back<L: Crew>(home: &Option<House<L>>, pass: TurnPass<L>, mut rest: Vec<TurnPass<L>>)
    requires there { home.now ≡ Some pass.holding.words.opening }
    requires gate { pass.holding.words.has_gate ≡ false }
    requires all { All (λ p. Belongs pass.holding.words.opening false p.holding) rest.items }
{
    let Some(house) = home else { unreachable!() };
    while let Some(pass) = rest.pop() {
        house.put(pass);
    }
    house.put(pass);
}

impl<L: Crew> Member<L> {
    // Carries out an order that its pass carries out.
    fn turn(&mut self, order: SeatOrder) -> Told
        requires { IsOfPass order }
        ensures { SeatServes self.old order result (Some self.new) None }
    {
        carry_out_at(Deref::deref(&self.home), &mut self.pass, order)
    }

    // A new seat with this pass; where the system refuses memory for it, the pass comes back.
    fn beside(&self, alloc: Global, pass: TurnPass<L>) -> Result<Box<Seat<L>>, TurnPass<L>>
        requires { Belongs self.now.opening false pass.holding }
        ensures ok { IfOk result (λ u. u.value ≡ record {
          member = Some (record {
            opening = self.now.opening;
            limit = self.now.limit;
            pass = pass;
            rest = [];
          });
        }) }
        ensures back { IfErr result (λ p. p ≡ pass) }
    {
        let Ok(home) = Arc::try_clone(&self.home) else {
            return Err(pass);
        };
        let rest = Vec::new(alloc);
        let member = Some(Member { home, pass, rest });
        match Box::new(alloc, Seat { member }) {
            Ok(seat) => Ok(seat),
            Err(refused) => {
                let Seat { member } = refused.value;
                let Some(Member { pass, .. }) = member else {
                    unreachable!()
                };
                Err(pass)
            }
        }
    }

    // A new seat with the last of the passes that are left.
    fn share(&mut self, alloc: Global) -> Result<Box<Seat<L>>, Told>
        ensures ok { IfOk result (λ x. (u : SeatState) × (x.value ≡ record { member = Some u })
            × HasShared self.old (Some self.new) (Some u)) }
        ensures none { IfErr result (λ t. Shares self.old t (Some self.new) None) }
    {
        let Some(pass) = self.rest.pop() else {
            return Err(Told::NoPass);
        };
        match self.beside(alloc, pass) {
            Ok(other) => Ok(other),
            Err(pass) => {
                self.rest.push_reserved(pass);
                Err(Told::Memory)
            }
        }
    }

    // Leaves the service, to which its passes come back.
    fn leave(self) {
        let Member { home, pass, rest } = self;
        come_back(Deref::deref(&home), pass, rest);
    }
}

// What a seat tells of an order that its pass carries out.
fn told<L: Crew>(seat: &mut Seat<L>, order: SeatOrder) -> Told
    requires some { IsSome seat.old.member }
    requires own { IsOfPass order }
    ensures { (v : SeatState) × (q : SeatState) × (seat.old.member ≡ Some v)
        × (seat.new.member ≡ Some q) × SeatServes v order result (Some q) None }
{
    match &mut seat.member {
        Some(member) => member.turn(order),
        None => unreachable!(),
    }
}

// An order that the pass of a seat carries out.
fn turned<L: Crew>(alloc: Global, mut seat: Box<Seat<L>>, order: SeatOrder) -> Served<L>
    requires some { IsSome seat.value.member }
    requires own { IsOfPass order }
    ensures { ServesKept seat.value.member order result.told result.seat.value result.other.value }
{
    let told = told(&mut *seat, order);
    Served {
        seat: MaybeParts::of(Parts::of(seat)),
        other: MaybeParts::none(alloc),
        told,
    }
}

// A new seat beside one.
fn other_seat<L: Crew>(alloc: Global, seat: &mut Seat<L>) -> Result<Box<Seat<L>>, Told>
    requires some { IsSome seat.old.member }
    ensures ok { IfOk result (λ x. (v : SeatState) × (q : SeatState) × (u : SeatState)
        × (seat.old.member ≡ Some v) × (seat.new.member ≡ Some q)
        × (x.value ≡ record { member = Some u }) × HasShared v (Some q) (Some u)) }
    ensures none { IfErr result (λ t. (v : SeatState) × (q : SeatState)
        × (seat.old.member ≡ Some v) × (seat.new.member ≡ Some q) × Shares v t (Some q) None) }
{
    match &mut seat.member {
        Some(member) => member.share(alloc),
        None => unreachable!(),
    }
}

// A new seat beside one, and what is told of it.
fn shared<L: Crew>(alloc: Global, mut seat: Box<Seat<L>>) -> Served<L>
    requires some { IsSome seat.value.member }
    ensures { ServesKept seat.value.member Share result.told result.seat.value
        result.other.value }
{
    match other_seat(alloc, &mut *seat) {
        Ok(other) => Served {
            seat: MaybeParts::of(Parts::of(seat)),
            other: MaybeParts::of(Parts::of(other)),
            told: Told::Shared,
        },
        Err(told) => Served {
            seat: MaybeParts::of(Parts::of(seat)),
            other: MaybeParts::none(alloc),
            told,
        },
    }
}

// A seat that leaves.
fn left<L: Crew>(alloc: Global, seat: Box<Seat<L>>) -> Served<L>
    requires some { IsSome seat.value.member }
    ensures { ServesKept seat.value.member Leave result.told result.seat.value
        result.other.value }
{
    let Seat { member } = Box::into_inner(seat);
    if let Some(member) = member {
        member.leave();
    }
    Served {
        seat: MaybeParts::none(alloc),
        other: MaybeParts::none(alloc),
        told: Told::Left,
    }
}

impl<L: Crew> Seat<L> {
    /// Carries out an order of a seat that is taken apart: by one turn of a call at most, and
    /// without waiting. Only a new seat asks for memory.
    pub fn serve(alloc: Global, seat: Parts<Seat<L>, Global>, order: SeatOrder) -> Served<L>
        requires { IsSome seat.value.member }
        ensures { ServesKept seat.value.member order result.told result.seat.value
            result.other.value }
    {
        let seat = seat.into_box();
        match order {
            SeatOrder::Share => shared(alloc, seat),
            SeatOrder::Leave => left(alloc, seat),
            _ => turned(alloc, seat, order),
        }
    }
}
