//! The pass of a thread to the turns of its calls.

ghost use Rattle.std.specs.Prelude.{◌≡◌};
ghost use Rattle.live_book.specs.Log.{thread_numbered};

use crate::desks::Crew;
use crate::hands::Hand;
use lock_word::ThreadId;
use std::marker::Model;
use step_core::Point;

/// The right to call under one thread number, with the thread's own deeds, and where its call
/// stands. One thread of the system has it at a time.
#[derive(Drop)]
pub struct TurnPass<L: Crew> {
    pub(crate) hand: Hand<L>,
    pub(crate) point: Point,
}

impl<L: Crew> Model for TurnPass<L> {
    ghost use Rattle.live_turns.specs.Ways.{PassState};
    ghost use Rattle.live_turns.specs.Points.{Knows};

    ghost Value = { PassState };

    ghost view = { λ p. record { holding = p.hand; point = p.point } };

    ghost invariant = { λ p. Knows p.point p.hand };
}

impl<L: Crew> TurnPass<L> {
    /// The number of the thread: 1 to the number of passes.
    pub fn thread(&self) -> ThreadId
        ensures { result ≡ thread_numbered self.now.holding.words.index }
    {
        self.hand.thread()
    }

    /// Where the call of the pass stands: at `Idle` where it is in none.
    pub fn point(&self) -> Point
        ensures { result ≡ self.now.point }
    {
        self.point
    }
}
