//! What a turn does at the book, while its pass has the gate. Each takes the gate once, and gives it
//! back; where another pass has the gate, the call stays where it stands.

ghost use Rattle.std.specs.Prelude.{◌≡◌, ◌<◌, ◌≤◌, ◌+◌, IfOk, IfErr, Bool, List, length, true, false, Ok};
ghost use Rattle.lock_word.specs.declared.ObjectId.{ObjectId};
ghost use Rattle.fat_monitor.specs.declared.actions.Reply.TheVariants as reply;
ghost use Rattle.header_words.specs.Bindings.{Binds, Covers, HasPublish};
ghost use Rattle.header_words.specs.Passes.{depth_at};
ghost use Rattle.step_core.specs.declared.places.Place.TheVariants.{InCall};
ghost use Rattle.step_core.specs.declared.places.Stage.TheVariants.{Binding, Acting, Won, Bound, Direct};
ghost use Rattle.step_core.specs.declared.paths.Point.TheVariants.{At, Said};
ghost use Rattle.step_core.specs.Path.{point_published};
ghost use Rattle.live_book.specs.Log.{thread_numbered};
ghost use Rattle.live_book.specs.Book.{bindings};
ghost use Rattle.live_turns.specs.Asked.{IsFullAt};
ghost use Rattle.live_turns.specs.Points.{IsTurnFrom, RestsAtPost};
ghost use Rattle.live_turns.specs.Ways.{Belongs, Went, Halted, VisitsBook, parked};

use crate::at_word::entering;
use crate::desks::{Crew, Desk, Refusal};
use crate::hands::Hand;
use crate::{LiveFault, Turned, Turns};
use fast_path::{InterruptCall, MonitorCall};
use fat_monitor::{Receipt, Reply};
use lock_word::ObjectId;
use step_core::Stage;

impl<L: Crew> Turns<L> {
    /// A call that loaded a fat word: the action on its monitor. It is inlined, down to the book's
    /// enter and exit, so that no answer goes from one function to another by a copy.
    #[inline(always)]
    pub(crate) fn turn_from_action(
        &self,
        hand: &mut Hand<L>,
        call: MonitorCall,
        monitor: u32,
    ) -> Result<Turned, LiveFault>
        requires belongs { Belongs self.now false hand.old }
        requires published { HasPublish monitor call.object.0 hand.old.words.seen }
        ensures { IsTurnFrom self.now (At (InCall (Acting call monitor))) result hand.old hand.new }
    {
        let Some(mut desk) = self.take(hand) else {
            return Ok(Turned::at(Stage::Acting { call, monitor }, true));
        };
        let told = hand.act_on(&mut desk, call, monitor);
        self.give(hand, desk);
        told
    }

    /// The same, as a function of its own, for a turn that seldom comes here: a turn on a thin word
    /// has nothing of it.
    #[inline(never)]
    pub(crate) fn turn_from_action_apart(
        &self,
        hand: &mut Hand<L>,
        call: MonitorCall,
        monitor: u32,
    ) -> Result<Turned, LiveFault>
        requires belongs { Belongs self.now false hand.old }
        requires published { HasPublish monitor call.object.0 hand.old.words.seen }
        ensures { IsTurnFrom self.now (At (InCall (Acting call monitor))) result hand.old hand.new }
    {
        self.turn_from_action(hand, call, monitor)
    }

    /// A call about interrupts: its action.
    #[inline(never)]
    pub(crate) fn turn_from_direct(
        &self,
        hand: &mut Hand<L>,
        call: InterruptCall,
    ) -> Result<Turned, LiveFault>
        requires belongs { Belongs self.now false hand.old }
        ensures { IsTurnFrom self.now (At (InCall (Direct call))) result hand.old hand.new }
    {
        let Some(mut desk) = self.take(hand) else {
            return Ok(Turned::at(Stage::Direct { call }, true));
        };
        let told = hand.act_about(&mut desk, call);
        self.give(hand, desk);
        told
    }

    /// A call that has parked, before or after an expire of its own: what its thread does itself.
    #[inline(never)]
    pub(crate) fn turn_from_post(
        &self,
        hand: &mut Hand<L>,
        expired: bool,
    ) -> Result<Turned, LiveFault>
        requires belongs { Belongs self.now false hand.old }
        ensures { IsTurnFrom self.now (parked expired) result hand.old hand.new }
    {
        let Some(mut desk) = self.take(hand) else {
            return Ok(Turned::parked(expired, true));
        };
        let told = hand.wake_up(&mut desk, expired);
        self.give(hand, desk);
        told
    }

    /// A call that loaded a thin word of its own, which calls for a monitor: the bind, the store of
    /// the fat word, and the action.
    #[inline(never)]
    pub(crate) fn turn_from_bind(
        &self,
        hand: &mut Hand<L>,
        call: MonitorCall,
        count: u16,
    ) -> Result<Turned, LiveFault>
        requires belongs { Belongs self.now false hand.old }
        requires object { call.object.0 < length self.now.lows }
        requires holds { depth_at hand.old.words call.object.0 ≡ count + 1 }
        requires few { count ≤ 255 }
        ensures { IsTurnFrom self.now (At (InCall (Binding call count))) result hand.old hand.new }
    {
        let Some(mut desk) = self.take(hand) else {
            return Ok(Turned::at(Stage::Binding { call, count }, true));
        };
        let told = self.inflate_and_act(hand, &mut desk, call, count);
        self.give(hand, desk);
        told
    }

    /// An enter that has won the word after contention: the inflation. Where that is refused, the
    /// enter drops it, and replies all the same.
    #[inline(never)]
    pub(crate) fn turn_from_won(&self, hand: &mut Hand<L>, object: ObjectId) -> Turned
        requires belongs { Belongs self.now false hand.old }
        requires object { object.0 < length self.now.lows }
        requires holds { depth_at hand.old.words object.0 ≡ 1 }
        ensures { IsTurnFrom self.now (At (InCall (Won object))) (Ok result) hand.old hand.new }
    {
        let Some(mut desk) = self.take(hand) else {
            return Turned::at(Stage::Won { object }, true);
        };
        self.inflate_won(hand, &mut desk, object);
        self.give(hand, desk);
        Turned::said(Reply::Entered)
    }

    // The inflation of an object that the thread holds by its word, and the action of the call, by
    // a pass that has the gate.
    fn inflate_and_act(
        &self,
        hand: &mut Hand<L>,
        desk: &mut Box<Desk<L>>,
        call: MonitorCall,
        count: u16,
    ) -> Result<Turned, LiveFault>
        requires belongs { Belongs self.now true hand.old }
        requires object { call.object.0 < length self.now.lows }
        requires holds { depth_at hand.old.words call.object.0 ≡ count + 1 }
        requires few { count ≤ 255 }
        requires covers { Covers (bindings desk.old.value.book) hand.old.words.seen }
        ensures belongs { Belongs self.now true hand.new }
        ensures covers { Covers (bindings desk.new.value.book) hand.new.words.seen }
        ensures went { IfOk result (λ t.
            Went (At (InCall (Binding call count))) t.point hand.old hand.new) }
        ensures rests { IfOk result (λ t. (t.gate_taken ≡ false) × RestsAtPost t.point) }
        ensures visit { VisitsBook 0 hand.old.words hand.new.words }
        ensures halted { IfErr result (λ f.
            Halted f (At (InCall (Binding call count))) hand.old hand.new) }
        ensures full { IfOk result (λ t. IsFullAt desk.old.value.book t.point) }
    {
        match hand.bind(desk, call.object, count + 1) {
            Ok(receipt) => {
                let monitor = receipt.monitor();
                self.publish(hand, desk, call, receipt);
                hand.act_on(desk, call, monitor)
            }
            Err(Refusal::Cause(cause)) => Ok(Turned::said(Reply::Refused(cause))),
            Err(Refusal::Fault(fault)) => Err(fault),
        }
    }

    // The inflation by an enter that has won the word, by a pass that has the gate; or nothing,
    // where it is refused.
    fn inflate_won(&self, hand: &mut Hand<L>, desk: &mut Box<Desk<L>>, object: ObjectId)
        requires belongs { Belongs self.now true hand.old }
        requires object { object.0 < length self.now.lows }
        requires holds { depth_at hand.old.words object.0 ≡ 1 }
        requires covers { Covers (bindings desk.old.value.book) hand.old.words.seen }
        ensures belongs { Belongs self.now true hand.new }
        ensures covers { Covers (bindings desk.new.value.book) hand.new.words.seen }
        ensures went { Went (At (InCall (Won object))) (Said reply.Entered) hand.old hand.new }
        ensures visit { VisitsBook 0 hand.old.words hand.new.words }
    {
        if let Ok(receipt) = hand.bind(desk, object, 1) {
            self.publish(hand, desk, entering(object), receipt);
        }
    }

    // The store of the word of the monitor that was bound.
    fn publish(&self, hand: &mut Hand<L>, desk: &Box<Desk<L>>, call: MonitorCall, receipt: Receipt)
        requires belongs { Belongs self.now true hand.old }
        requires object { call.object.0 < length self.now.lows }
        requires same { receipt.object ≡ call.object }
        requires owner { receipt.owner ≡ thread_numbered hand.old.words.index }
        requires holds { receipt.holds ≡ depth_at hand.old.words call.object.0 }
        requires low { 1 ≤ hand.old.words.index }
        requires high { hand.old.words.index ≤ 32767 }
        requires few { receipt.monitor ≤ 8388607 }
        requires bound { Binds (bindings desk.now.value.book) receipt.monitor call.object.0 }
        ensures belongs { Belongs self.now true hand.new }
        ensures went { (won : Bool) → Went (At (InCall (Bound call won receipt.monitor)))
            (point_published call won receipt.monitor) hand.old hand.new }
        ensures visit { VisitsBook 0 hand.old.words hand.new.words }
        ensures covers { (objects : List ObjectId) → Covers objects hand.old.words.seen
            → Binds objects receipt.monitor call.object.0
            → Covers objects hand.new.words.seen }
    {
        self.headers.publish(&mut hand.words, desk, receipt);
    }
}
