//! What a seat has.

ghost use Rattle.std.specs.Prelude.{◌≡◌, All, Some, false};
ghost use Rattle.std.specs.Arc.{arc_value};
ghost use Rattle.live_turns.specs.Ways.{Belongs};

use crate::house::House;
use live_turns::{Crew, TurnPass};
use std::alloc::Global;
use std::marker::Model;
use std::sync::Arc;

/// A share of a live service, which is there until it is closed; a pass to it; and the passes of
/// those who have no seat.
#[derive(Drop)]
pub(crate) struct Member<L: Crew> {
    pub(crate) home: Arc<Option<House<L>>, Global>,
    pub(crate) pass: TurnPass<L>,
    pub(crate) rest: Vec<TurnPass<L>>,
    pub(crate) ghost there: { arc_value home ≡ Some pass.holding.words.opening },
    pub(crate) ghost gate: { pass.holding.words.has_gate ≡ false },
    pub(crate) ghost all: { All (λ p. Belongs pass.holding.words.opening false p.holding) rest.items },
}

impl<L: Crew> Model for Member<L> {
    ghost use Rattle.live_seats.specs.Seats.{SeatState};

    ghost Value = { SeatState };

    ghost view = { λ s. record {
      opening = s.pass.holding.words.opening;
      limit = L.monitors;
      pass = s.pass;
      rest = s.rest.items;
    } };
}
