//! The desk behind the gate: the book of fat monitors, with the tally of its deeds; and the deeds
//! that a pass keeps of its own.

ghost use Rattle.std.specs.Prelude.{◌≡◌, ◌<◌, ◌≤◌, ◌+◌, IfOk, IfErr, OnErr, OnOk, MatchOption, IsOk, ℕ, length, [], ◌∷◌, ◌++◌, vec_len, vec_capacity, Some, true, false, Ok};
ghost use Rattle.fat_monitor.specs.FatState.{post_of};
ghost use Rattle.fat_monitor.specs.Acting.{MayAct, NamesBound};
ghost use Rattle.fat_monitor.specs.declared.actions.Post.TheVariants.{Out};
ghost use Rattle.live_turns.specs.Asked.{IsActionNoted, IsBindNoted, IsTickFault, own_action, is_torn_from, IsAwake};
ghost use Rattle.live_book.specs.declared.faults.LiveFault.{LiveFault};
ghost use Rattle.live_book.specs.Log.{IsThreadOf, IsForBook};
ghost use Rattle.live_book.specs.Book.{bindings};
ghost use Rattle.live_turns.specs.Ways.{by};
ghost use Rattle.live_book.specs.declared.deeds.Deed.TheVariants.{Acted, Ticked};

use crate::{Book, BookFault, Deed, LiveFault, Logged};
use fat_monitor::{Action, Cause, Done, Post, Receipt};
use header_words::Kept;
use lock_word::{ObjectId, ThreadId};
use std::marker::Brand;
use std::sync::ledger::{Book as Tally, Ledger, Share};

/// Which service a ledger is of: how many monitors and passes it has, and places of its record.
pub trait Crew: Ledger {
    ghost monitors: { ℕ };

    ghost passes: { ℕ };

    ghost places: { ℕ };
}

impl Crew for Brand {
    ghost monitors = { 0 };

    ghost passes = { 0 };

    ghost places = { 0 };
}

/// The deeds of one pass, which the ledger counts.
#[derive(Drop)]
pub(crate) struct Own<L: Crew> {
    pub(crate) list: Vec<Logged>,
    pub(crate) share: Share<L>,
    pub(crate) ghost one: { share.parts ≡ 1 },
    pub(crate) ghost counted: { share.amount ≡ vec_len list },
    pub(crate) ghost room: { L.places ≤ vec_capacity list },
}

/// What lies behind the gate: the book of fat monitors, and the tally of its deeds, which the
/// ledger keeps.
#[derive(Drop)]
pub(crate) struct Desk<L: Crew> {
    pub(crate) book: Book,
    pub(crate) total: Tally<L>,
    // What is left of the ledger once each pass has a part.
    pub(crate) rest: Share<L>,
    pub(crate) ghost none: { rest.parts ≡ 0 },
    pub(crate) ghost empty: { rest.amount ≡ 0 },
    pub(crate) ghost passes: { book.passes ≡ L.passes },
    pub(crate) ghost places: { book.places ≡ L.places },
    pub(crate) ghost monitors: { book.fats.limit ≡ L.monitors },
    pub(crate) ghost counted: { length book.log ≡ total.total },
}

impl<L: Crew> Kept for Desk<L> {
    ghost use Rattle.live_book.specs.Book.{bindings};

    ghost bound = { λ d. bindings d.book };

    fn object(&self, monitor: u32) -> Option<ObjectId> {
        self.book.object(monitor)
    }
}

/// Why no monitor was bound.
#[derive(Clone, Copy)]
pub(crate) enum Refusal {
    /// The call is given up.
    Fault(LiveFault),
    /// The call may be refused.
    Cause(Cause),
}

impl<L: Crew> Desk<L> {
    /// Whether the pass of the thread is where the book has it, in a call that has parked or not,
    /// and its own list has room as long as the record has.
    #[inline(always)]
    pub(crate) fn check(
        &self,
        own: &Own<L>,
        thread: ThreadId,
        parked: bool,
    ) -> Result<(), LiveFault>
        ensures thread { OnOk result (IsThreadOf self.now.book.passes thread) }
        ensures out { OnOk result (parked ≡ false → post_of self.now.book.fats thread ≡ Some Out) }
        ensures room { OnOk result (length self.now.book.log < self.now.book.places
            → vec_len own.now.list < vec_capacity own.now.list) }
        ensures fault { IfErr result (λ f. f ≡ LiveFault.Torn) }
        ensures torn { OnErr result
            (is_torn_from self.now.book thread parked own.now.list.items ≡ true) }
        ensures whole { OnOk result
            (is_torn_from self.now.book thread parked own.now.list.items ≡ false) }
    {
        let full = own.list.len() >= self.book.places() as usize;
        self.book.check(thread, parked, full)
    }

    /// Binds a monitor to an object that the thread holds this often, and notes the deed.
    pub(crate) fn note_bind(
        &mut self,
        own: &mut Own<L>,
        thread: ThreadId,
        object: ObjectId,
        holds: u16,
    ) -> Result<Receipt, Refusal>
        requires thread { IsThreadOf self.old.book.passes thread }
        requires room { length self.old.book.log < self.old.book.places
            → vec_len own.old.list < vec_capacity own.old.list }
        requires low { 1 ≤ holds }
        requires high { holds ≤ 256 }
        ensures { IsBindNoted thread object holds result self.old.book self.new.book
            own.old.list.items own.new.list.items }
    {
        let Desk { book, total, .. } = self;
        match book.bind(thread, object, holds) {
            Ok(receipt) => {
                let monitor = receipt.monitor();
                let deed = Deed::Bound {
                    object,
                    holds,
                    monitor,
                };
                note(total, own, Logged { thread, deed });
                Ok(receipt)
            }
            Err(BookFault::RecordFull) => Err(Refusal::Fault(LiveFault::RecordFull)),
            Err(_) => Err(Refusal::Cause(Cause::NoMonitor)),
        }
    }

    /// Makes one fat action, and notes the deed. It stands in place where it is called, so that of
    /// an action that the caller knows nothing is left of the others, and its answer comes by no
    /// copy.
    #[inline(always)]
    pub(crate) fn note_action(
        &mut self,
        own: &mut Own<L>,
        thread: ThreadId,
        action: Action,
    ) -> Result<Done, LiveFault>
        requires thread { IsThreadOf self.old.book.passes thread }
        requires action { IsForBook action }
        requires ready { MayAct self.old.book.fats thread action }
        requires named { NamesBound self.old.book.fats action }
        requires room { length self.old.book.log < self.old.book.places
            → vec_len own.old.list < vec_capacity own.old.list }
        ensures { IsActionNoted thread action result self.old.book self.new.book
            own.old.list.items own.new.list.items }
    {
        let Desk { book, total, .. } = self;
        match book.act(thread, action) {
            Ok(done) => {
                let answer = done.answer;
                let deed = Deed::Acted { action, answer };
                note(total, own, Logged { thread, deed });
                Ok(done)
            }
            Err(BookFault::RecordFull) => Err(LiveFault::RecordFull),
            Err(_) => Err(LiveFault::Torn),
        }
    }

    /// The same, as a function of its own, for an action that is not known beforehand or is seldom
    /// made.
    #[inline(never)]
    pub(crate) fn note_action_apart(
        &mut self,
        own: &mut Own<L>,
        thread: ThreadId,
        action: Action,
    ) -> Result<Done, LiveFault>
        requires thread { IsThreadOf self.old.book.passes thread }
        requires action { IsForBook action }
        requires ready { MayAct self.old.book.fats thread action }
        requires named { NamesBound self.old.book.fats action }
        requires room { length self.old.book.log < self.old.book.places
            → vec_len own.old.list < vec_capacity own.old.list }
        ensures { IsActionNoted thread action result self.old.book self.new.book
            own.old.list.items own.new.list.items }
    {
        self.note_action(own, thread, action)
    }

    /// What a parked thread may do itself: it collects its reply where it was granted one, or its
    /// wait expires where its time is over and `expired` does not say that this was done; None
    /// where it stays parked. The deed is noted. Of a thread that the book has there, nothing is
    /// refused: what it does has its place of the record.
    #[tactic(auto, using(crate::proofs::Asking::waking))]
    pub(crate) fn note_own_action(
        &mut self,
        own: &mut Own<L>,
        thread: ThreadId,
        expired: bool,
    ) -> Result<Option<Done>, LiveFault>
        requires thread { IsThreadOf self.old.book.passes thread }
        requires room { length self.old.book.log < self.old.book.places
            → vec_len own.old.list < vec_capacity own.old.list }
        ensures own { IfOk result (λ o. MatchOption o (own.new.list.items ≡ own.old.list.items)
            (λ d. (own.new.list.items ≡ own.old.list.items
            ++ by thread (Acted (own_action d.answer) d.answer) ∷ [])
            × IsAwake expired d.answer)) }
        ensures bindings { bindings self.new.book ≡ bindings self.old.book }
        ensures made { IsOk result }
    {
        let now = u128::from(self.book.now());
        match self.book.post(thread) {
            Some(Post::Granted(_)) => {
                // Its place of the record is kept, so that only a pass that is torn is refused.
                let Ok(done) = self.note_action(own, thread, Action::Collect) else {
                    return Err(LiveFault::Torn);
                };
                Ok(Some(done))
            }
            Some(
                Post::Waiting {
                    deadline: Some(deadline),
                    ..
                },
            ) if !expired && deadline <= now => {
                // Its place of the record is kept, so that only a pass that is torn is refused.
                let Ok(done) = self.note_action_apart(own, thread, Action::Expire) else {
                    return Err(LiveFault::Torn);
                };
                Ok(Some(done))
            }
            _ => Ok(None),
        }
    }

    /// Tells the moment, in nanoseconds, and notes the deed.
    pub(crate) fn note_tick(
        &mut self,
        own: &mut Own<L>,
        thread: ThreadId,
        now: u64,
    ) -> Result<(), LiveFault>
        requires thread { IsThreadOf self.old.book.passes thread }
        requires room { length self.old.book.log < self.old.book.places
            → vec_len own.old.list < vec_capacity own.old.list }
        ensures own { OnOk result (own.new.list.items ≡ own.old.list.items
            ++ by thread (Ticked now) ∷ []) }
        ensures bindings { bindings self.new.book ≡ bindings self.old.book }
        ensures none { OnErr result (own.new.list.items ≡ own.old.list.items) }
        ensures fault { IfErr result IsTickFault }
    {
        let Desk { book, total, .. } = self;
        match book.tick(thread, now) {
            Ok(()) => {
                let deed = Deed::Ticked { now };
                note(total, own, Logged { thread, deed });
                Ok(())
            }
            Err(BookFault::Backwards) => Err(LiveFault::Backwards),
            Err(_) => Err(LiveFault::RecordFull),
        }
    }
}

// Notes a deed of the pass, which the ledger counts.
#[inline(always)]
fn note<L: Crew>(total: &mut Tally<L>, own: &mut Own<L>, entry: Logged)
    requires { vec_len own.old.list < vec_capacity own.old.list }
    ensures list { own.new.list.items ≡ own.old.list.items ++ entry ∷ [] }
    ensures total { total.new.total ≡ total.old.total + 1 }
{
    let Own { list, share } = own;
    total.add(share, 1);
    list.push_reserved(entry);
}
