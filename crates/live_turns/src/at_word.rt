//! What a turn does at the word of an object: the load that it begins with, and the exchange or the
//! store that the word calls for.

ghost use Rattle.std.specs.Prelude.{◌≡◌, ◌<◌, ◌+◌, ◌↔◌, ℕ, Bool, length, true, false};
ghost use Rattle.lock_word.specs.declared.Lock.TheVariants.{Thin, Fat};
ghost use Rattle.lock_word.specs.declared.Split.TheVariants.{Wide};
ghost use Rattle.lock_word.specs.Layout.{Fits};
ghost use Rattle.fast_path.specs.Table.{next_of};
ghost use Rattle.fast_path.specs.declared.calls.MonitorCall.{MonitorCall};
ghost use Rattle.fast_path.specs.declared.Next.TheVariants as next;
ghost use Rattle.header_words.specs.Bindings.{HasPublish};
ghost use Rattle.header_words.specs.Passes.{PassValue, depth_at};
ghost use Rattle.step_core.specs.declared.places.Place.TheVariants.{InCall};
ghost use Rattle.step_core.specs.declared.places.Stage.TheVariants.{Begun, Taking, Storing};
ghost use Rattle.step_core.specs.declared.paths.Point.TheVariants.{At, Said};
ghost use Rattle.step_core.specs.Go.{entering};
ghost use Rattle.step_core.specs.Path.{point_next};
ghost use Rattle.live_turns.specs.Points.{IsTurnFrom, Knows, Loaded};
ghost use Rattle.live_turns.specs.Ways.{Belongs, Went, VisitsBook};

use crate::desks::Crew;
use crate::hands::Hand;
use crate::{LiveFault, TurnPass, Turned, Turns};
use fast_path::{InterruptCall, MonitorCall, Next, Operation};
use fat_monitor::Reply;
use lock_word::{Lock, ObjectId, Split, lock_of};
use step_core::{Place, Point, Stage};

/// The call that enters an object.
#[inline(always)]
pub(crate) fn entering(object: ObjectId) -> MonitorCall
    ensures { result ≡ entering object }
{
    MonitorCall {
        object,
        operation: Operation::Enter,
    }
}

impl<L: Crew> Turns<L> {
    // Loads the word of an object.
    #[inline(always)]
    pub(crate) fn load(&self, hand: &mut Hand<L>, object: ObjectId) -> Lock
        requires belongs { Belongs self.now false hand.old }
        requires object { object.0 < length self.now.lows }
        ensures belongs { Belongs self.now false hand.new }
        ensures went { (c : MonitorCall) (k : Bool) → c.object ≡ object →
            Went (At (InCall (Begun c k)))
            (point_next c k result (next_of Wide c.operation result hand.old.words.index))
            hand.old hand.new }
        ensures index { hand.new.words.index ≡ hand.old.words.index }
        ensures visit { VisitsBook 0 hand.old.words hand.new.words }
        ensures event { length hand.old.words.mine < length hand.new.words.mine }
        ensures thin { (n : ℕ) → (depth_at hand.new.words object.0 ≡ n + 1)
            ↔ (result ≡ Thin hand.new.words.index n) }
        ensures fits { Fits Wide result }
        ensures fat { (m : ℕ) → result ≡ Fat m → HasPublish m object.0 hand.new.words.seen }
    {
        let word = self.headers.load(&mut hand.words, object);
        lock_of(Split::Wide, word)
    }

    // The store that the word of the object calls for, which has this lock.
    #[inline(always)]
    pub(crate) fn store(&self, hand: &mut Hand<L>, call: MonitorCall, old: Lock, new: Lock) -> Reply
        requires belongs { Belongs self.now false hand.old }
        requires object { call.object.0 < length self.now.lows }
        requires thin { (n : ℕ) → (depth_at hand.old.words call.object.0 ≡ n + 1)
            ↔ (old ≡ Thin hand.old.words.index n) }
        requires fits { Fits Wide old }
        requires calls { next_of Wide call.operation old hand.old.words.index
            ≡ next.Store new }
        ensures belongs { Belongs self.now false hand.new }
        ensures went { Went (At (InCall (Storing call new))) (Said result)
            hand.old hand.new }
        ensures loaded { (p : PassValue) → Loaded false (Said result) p hand.new.words }
        ensures visit { VisitsBook 0 hand.old.words hand.new.words }
    {
        let object = call.object;
        match (call.operation, new) {
            (Operation::Enter, _) => {
                self.headers.nest(&mut hand.words, object);
                Reply::Entered
            }
            (Operation::Exit, Lock::Free) => {
                self.headers.release(&mut hand.words, object);
                Reply::Exited
            }
            (Operation::Exit, Lock::Thin { .. }) => {
                self.headers.unnest(&mut hand.words, object);
                Reply::Exited
            }
            _ => unreachable!(),
        }
    }

    // The exchange of the free word, and the inflation where others were met.
    #[inline(always)]
    fn acquire(&self, hand: &mut Hand<L>, object: ObjectId, contended: bool) -> Turned
        requires belongs { Belongs self.now false hand.old }
        requires object { object.0 < length self.now.lows }
        requires free { depth_at hand.old.words object.0 ≡ 0 }
        ensures belongs { Belongs self.now false hand.new }
        ensures went { Went (At (InCall (Taking object contended))) result.point
            hand.old hand.new }
        ensures knows { Knows result.point hand.new }
        ensures loaded { Loaded result.gate_taken result.point hand.old.words hand.new.words }
    {
        if !self.headers.acquire(&mut hand.words, object) {
            let call = entering(object);
            let contended = true;
            return Turned::at(Stage::Begun { call, contended }, false);
        }
        if contended {
            return self.turn_from_won(hand, object);
        }
        Turned::said(Reply::Entered)
    }

    // A call on an object, from its load on.
    #[inline(always)]
    pub(crate) fn turn_from_load(
        &self,
        hand: &mut Hand<L>,
        call: MonitorCall,
        contended: bool,
    ) -> Result<Turned, LiveFault>
        requires belongs { Belongs self.now false hand.old }
        requires object { call.object.0 < length self.now.lows }
        ensures { IsTurnFrom self.now (At (InCall (Begun call contended))) result
            hand.old hand.new }
    {
        let lock = self.load(hand, call.object);
        match call.operation.next(Split::Wide, lock, hand.index()) {
            Next::Reply(reply) => Ok(Turned::said(reply)),
            Next::Spin => {
                let contended = true;
                Ok(Turned::at(Stage::Begun { call, contended }, false))
            }
            Next::Cas(_) => Ok(self.acquire(hand, call.object, contended)),
            Next::Store(new) => Ok(Turned::said(self.store(hand, call, lock, new))),
            Next::Bind => self.turn_from_bind(hand, call, lock.count()),
            Next::Fat(monitor) => self.turn_from_action_apart(hand, call, monitor),
        }
    }
}
