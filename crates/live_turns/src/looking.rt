//! A look at the book.

ghost use Rattle.std.specs.Prelude.{◌≡◌, IfOk, IfErr, OnErr, OnOk, false};
ghost use Rattle.std.specs.Fn.{FnOnceReturnsAt};
ghost use Rattle.step_core.specs.declared.places.Place.TheVariants.{Idle};
ghost use Rattle.step_core.specs.declared.paths.Point.TheVariants.{At};
ghost use Rattle.live_turns.specs.Ways.{AddsNoEvent, Belongs, VisitsBook};
ghost use Rattle.live_turns.specs.Ends.{IsLookedAt};

use crate::desks::Crew;
use crate::hands::Hand;
use crate::{Book, TurnPass, Turns};

impl<L: Crew> Turns<L> {
    /// Lends the book to a closure while a pass that is in no call has the gate, and answers what
    /// it answers. `Err` gives the closure back where another pass has the gate; nothing was done
    /// then. No call goes on meanwhile that needs the book, so the closure is to be short; it may
    /// not call the service.
    pub fn look<F: FnOnce(&Book) -> bool>(&self, pass: &mut TurnPass<L>, f: F) -> Result<bool, F>
        requires belongs { Belongs self.now false pass.old.holding }
        requires idle { pass.old.point ≡ At Idle }
        requires callable { F.IsAlwaysCallable f }
        ensures belongs { Belongs self.now false pass.new.holding }
        ensures idle { pass.new.point ≡ At Idle }
        ensures words { AddsNoEvent pass.old.holding.words pass.new.holding.words }
        ensures own { pass.new.holding.own ≡ pass.old.holding.own }
        ensures told { IfOk result (λ told.
            IsLookedAt (λ book. FnOnceReturnsAt F.FnOnce f book told)) }
        ensures back { IfErr result (λ g. g ≡ f) }
        ensures looked { OnOk result
            (VisitsBook 1 pass.old.holding.words pass.new.holding.words) }
        ensures kept { OnErr result (pass.new ≡ pass.old) }
    {
        self.lend(&mut pass.hand, f)
    }

    // The same, by what the pass has in hand.
    fn lend<F: FnOnce(&Book) -> bool>(&self, hand: &mut Hand<L>, f: F) -> Result<bool, F>
        requires belongs { Belongs self.now false hand.old }
        requires callable { F.IsAlwaysCallable f }
        ensures belongs { Belongs self.now false hand.new }
        ensures words { AddsNoEvent hand.old.words hand.new.words }
        ensures own { hand.new.own ≡ hand.old.own }
        ensures told { IfOk result (λ told.
            IsLookedAt (λ book. FnOnceReturnsAt F.FnOnce f book told)) }
        ensures back { IfErr result (λ g. g ≡ f) }
        ensures looked { OnOk result (VisitsBook 1 hand.old.words hand.new.words) }
        ensures kept { OnErr result (hand.new ≡ hand.old) }
    {
        let Some(desk) = self.take(hand) else {
            return Err(f);
        };
        let told = f(&desk.book);
        self.give(hand, desk);
        Ok(told)
    }
}
