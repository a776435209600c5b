//! A look at the book.

ghost use Rattle.std.specs.Prelude.{◌≡◌};
ghost use Rattle.std.specs.Fn.{FnOnceReturnsAt};
ghost use Rattle.live_turns.specs.Ends.{IsLookedAt};
ghost use Rattle.live_turns.specs.Ways.{AddsNoEvent, VisitsBook};
ghost use Rattle.live_threads.specs.Calls.{IsAtRest};

use crate::waiting::Waiting;
use crate::{Live, LivePass};
use live_turns::{Book, Crew, TurnPass};
use std::sync::Wait;
use std::time::Clock;

impl<L: Crew> Live<L> {
    /// Lends the book to a closure as soon as the gate is open, and answers what it answers. No
    /// call goes on meanwhile that needs the book, so the closure is to be short, and may not call
    /// the service. Thin calls go on.
    pub fn look<F: FnOnce(&Book) -> bool, R: Wait + Clock>(
        &self,
        rt: &R,
        pass: &mut LivePass<L>,
        f: F,
    ) -> bool
        requires here { pass.old.words.opening ≡ self.now }
        requires callable { F.IsAlwaysCallable f }
        ensures here { pass.new.words.opening ≡ self.now }
        ensures words { AddsNoEvent pass.old.words pass.new.words }
        ensures own { pass.new.own ≡ pass.old.own }
        ensures looked { VisitsBook 1 pass.old.words pass.new.words }
        ensures told { IsLookedAt (λ book. FnOnceReturnsAt F.FnOnce f book result) }
    {
        self.lend(rt, &mut pass.turns, f)
    }

    fn lend<F: FnOnce(&Book) -> bool, R: Wait + Clock>(
        &self,
        rt: &R,
        pass: &mut TurnPass<L>,
        f: F,
    ) -> bool
        requires here { pass.old.holding.words.opening ≡ self.now }
        requires rests { IsAtRest pass.old }
        requires callable { F.IsAlwaysCallable f }
        ensures here { pass.new.holding.words.opening ≡ self.now }
        ensures rests { IsAtRest pass.new }
        ensures words { AddsNoEvent pass.old.holding.words pass.new.holding.words }
        ensures own { pass.new.holding.own ≡ pass.old.holding.own }
        ensures looked { VisitsBook 1 pass.old.holding.words pass.new.holding.words }
        ensures told { IsLookedAt (λ book. FnOnceReturnsAt F.FnOnce f book result) }
    {
        let mut waiting = Waiting::new();
        let mut lent = f;
        for _ in rt.forever() {
            match self.turns.look(pass, lent) {
                Ok(told) => return told,
                Err(back) => lent = back,
            }
            waiting.back_off(rt);
        }
        unreachable!()
    }
}
