//! The gate before the book.
ghost use Rattle.std.specs.Prelude.{◌≡◌, MatchOption, true, false};
ghost use Rattle.header_words.specs.Bindings.{Covers};

use crate::headers::Headers;
use crate::kept::Kept;
use crate::pass::Pass;
use crate::rule::{GiveGate, TakeGate};

impl<B: Kept> Headers<B> {
    ghost use Rattle.header_words.specs.Passes.{HasTaken, has_given};

    /// Takes the gate and the book behind it, by one exchange of the gate word; None where another
    /// pass has the gate. It never waits. The book binds every monitor that has been published.
    pub fn take(&self, pass: &mut Pass<B>) -> Option<B>
        requires belongs { pass.old.opening ≡ self.now }
        requires without { pass.old.has_gate ≡ false }
        ensures { MatchOption result
            (pass.new ≡ pass.old)
            (λ book. HasTaken pass.old pass.new × Covers (B.bound book) pass.new.seen) }
    {
        let index = u64::from(pass.index);
        let found = self
            .table
            .shared
            .compare_exchange::<TakeGate>(&mut pass.seat, 0, 0, index);
        if found != 0 {
            return None;
        }
        pass.has_gate = true;
        self.table.shared.exchange(&mut pass.seat, 0, None)
    }

    /// Puts the book behind the gate, and opens the gate by one store of its word.
    pub fn give(&self, pass: &mut Pass<B>, book: B)
        requires belongs { pass.old.opening ≡ self.now }
        requires gate { pass.old.has_gate ≡ true }
        requires covers { Covers (B.bound book) pass.old.seen }
        ensures { pass.new ≡ has_given pass.old }
    {
        let empty = self.table.shared.exchange(&mut pass.seat, 0, Some(book));
        let None = empty else { unreachable!() };
        pass.has_gate = false;
        self.table.shared.store::<GiveGate>(&mut pass.seat, 0, 0);
    }
}
