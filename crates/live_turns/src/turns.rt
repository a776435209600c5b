//! The service: the words that threads share, and the gate to the desk.

ghost use Rattle.std.specs.Prelude.{◌≡◌, true, false, MatchOption};
ghost use Rattle.header_words.specs.Bindings.{Covers};
ghost use Rattle.live_book.specs.Book.{bindings};
ghost use Rattle.live_turns.specs.Ways.{Belongs, TakesGate, GivesGate};

use crate::desks::{Crew, Desk};
use crate::hands::Hand;
use header_words::Headers;
use std::marker::Model;

/// The header words of objects, which threads share, and the book of fat monitors behind their
/// gate.
///
/// A call is driven by turns: each does at once all that can be done at once, and never waits.
#[derive(Drop)]
pub struct Turns<L: Crew> {
    pub(crate) headers: Headers<Box<Desk<L>>>,
    pub(crate) objects: u32,
    pub(crate) passes: u16,
}

impl<L: Crew> Model for Turns<L> {
    ghost use Rattle.std.specs.Prelude.{◌≡◌, length};
    ghost use Rattle.header_words.specs.Passes.{Opening};

    ghost Value = { Opening };

    ghost view = { λ t. t.headers };

    ghost invariant = { λ t. (t.objects ≡ length t.headers.lows) × (t.passes ≡ t.headers.count) };
}

impl<L: Crew> Turns<L> {
    /// How many passes there are: the threads have the numbers 1 to this one.
    pub fn passes(&self) -> u16
        ensures { result ≡ self.now.count }
    {
        self.passes
    }

    // The gate and the desk behind it; None where another pass has the gate.
    pub(crate) fn take(&self, hand: &mut Hand<L>) -> Option<Box<Desk<L>>>
        requires belongs { Belongs self.now false hand.old }
        ensures { MatchOption result (hand.new ≡ hand.old)
            (λ d. TakesGate hand.old hand.new × Belongs self.now true hand.new
            × Covers (bindings d.value.book) hand.new.words.seen) }
    {
        self.headers.take(&mut hand.words)
    }

    // Gives the desk and the gate back.
    pub(crate) fn give(&self, hand: &mut Hand<L>, desk: Box<Desk<L>>)
        requires belongs { Belongs self.now true hand.old }
        requires covers { Covers (bindings desk.value.book) hand.old.words.seen }
        ensures gave { GivesGate hand.old hand.new }
        ensures belongs { Belongs self.now false hand.new }
    {
        self.headers.give(&mut hand.words, desk);
    }
}
