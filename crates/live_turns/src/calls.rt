//! The calls, turn by turn: the first turn of a call of either kind, and one more turn of the call
//! that a pass is in. A tick tells the moment.

ghost use Rattle.std.specs.Prelude.{◌≡◌, ◌≢◌, ◌<◌, IfOk, IfErr, MatchBool, OnErr, OnOk, length, ◌++◌, false, None};
ghost use Rattle.step_core.specs.declared.places.Place.TheVariants.{Idle, InCall};
ghost use Rattle.step_core.specs.declared.places.Stage.TheVariants.{Begun, Direct};
ghost use Rattle.step_core.specs.declared.paths.Point.TheVariants.{At};
ghost use Rattle.live_turns.specs.Asked.{IsTickFault};
ghost use Rattle.live_book.specs.declared.faults.LiveFault.{LiveFault};
ghost use Rattle.live_turns.specs.Points.{Knows, KnowsStage, resting, GivenUpOn, GivenUpAbout, IsTurnFrom, Loaded, TurnedFrom, Visited, names_stranger};
ghost use Rattle.live_turns.specs.Ways.{AddsNoEvent, Belongs, Went, Halted, VisitsBook, ticked_by};

use crate::desks::Crew;
use crate::hands::Hand;
use crate::{LiveFault, TurnPass, Turned, Turns};
use fast_path::{InterruptCall, MonitorCall};
use step_core::{Place, Point, Stage};

/// Writes where a pass rests after a turn: in no call once it has its reply. It is written in
/// place, so that of a call that is over nothing is copied.
#[inline(always)]
fn rest(rests: &mut Point, point: &Point)
    ensures { rests.new ≡ resting point.now }
{
    match point {
        Point::Said(_) => *rests = Point::At(Place::Idle),
        _ => *rests = *point,
    }
}

impl<L: Crew> Turns<L> {
    /// The first turn of a call on an object (JLS SE 8, 17.1 and 17.2). It does at once all that
    /// can be done at once, and never waits: what to do before the next turn, [`Turned::standing`]
    /// says.
    ///
    /// A fault ends the call: [`NoObject`](LiveFault::NoObject) before anything was done,
    /// [`RecordFull`](LiveFault::RecordFull) before its bind or its action at the book, and
    /// [`Torn`](LiveFault::Torn) where the pass is not where the book has it, or its own list of
    /// deeds is full and the record is not.
    #[inline(always)]
    pub fn begin_on(&self, pass: &mut TurnPass<L>, call: MonitorCall) -> Result<Turned, LiveFault>
        requires belongs { Belongs self.now false pass.old.holding }
        requires idle { pass.old.point ≡ At Idle }
        ensures belongs { Belongs self.now false pass.new.holding }
        ensures went { IfOk result (λ t. Went (At (InCall (Begun call false))) t.point
            pass.old.holding pass.new.holding) }
        ensures point { IfOk result (λ t. pass.new.point ≡ resting t.point) }
        ensures fault { IfErr result (λ f.
            GivenUpOn self.now call f pass.old.holding pass.new.holding) }
        ensures there { OnOk result (call.object.0 < length self.now.lows) }
        ensures over { OnErr result (pass.new.point ≡ At Idle) }
        ensures did { IfOk result (λ t.
            Loaded t.gate_taken t.point pass.old.holding.words pass.new.holding.words) }
        ensures looked { IfErr result (λ f. f ≢ LiveFault.NoObject →
            VisitsBook 1 pass.old.holding.words pass.new.holding.words) }
    {
        if call.object.0 >= self.objects {
            return Err(LiveFault::NoObject);
        }
        let turned = self.turn_from_load(&mut pass.hand, call, false)?;
        rest(&mut pass.point, &turned.point);
        Ok(turned)
    }

    /// The first turn of a call about interrupts (JLS SE 8, 17.2.3), which never parks.
    ///
    /// A fault ends the call: [`NoThread`](LiveFault::NoThread) before anything was done, and else
    /// as for [`begin_on`](Turns::begin_on).
    pub fn begin_about(
        &self,
        pass: &mut TurnPass<L>,
        call: InterruptCall,
    ) -> Result<Turned, LiveFault>
        requires belongs { Belongs self.now false pass.old.holding }
        requires idle { pass.old.point ≡ At Idle }
        ensures belongs { Belongs self.now false pass.new.holding }
        ensures went { IfOk result (λ t. Went (At (InCall (Direct call))) t.point
            pass.old.holding pass.new.holding) }
        ensures point { IfOk result (λ t. pass.new.point ≡ resting t.point) }
        ensures fault { IfErr result (λ f.
            GivenUpAbout self.now call f pass.old.holding pass.new.holding) }
        ensures there { OnOk result (names_stranger self.now call ≡ false) }
        ensures over { OnErr result (pass.new.point ≡ At Idle) }
        ensures did { IfOk result (λ t.
            Visited t.gate_taken t.point pass.old.holding.words pass.new.holding.words) }
        ensures looked { IfErr result (λ f. f ≢ LiveFault.NoThread →
            VisitsBook 1 pass.old.holding.words pass.new.holding.words) }
    {
        if self.is_stranger(call) {
            return Err(LiveFault::NoThread);
        }
        let turned = self.turn_from_direct(&mut pass.hand, call)?;
        rest(&mut pass.point, &turned.point);
        Ok(turned)
    }

    // Whether the call names a thread that the service does not have.
    pub(crate) fn is_stranger(&self, call: InterruptCall) -> bool
        ensures { result ≡ names_stranger self.now call }
    {
        match call {
            InterruptCall::Interrupt(thread) | InterruptCall::IsInterrupted(thread) => thread.0 < 1
                || thread.0 > u32::from(self.passes),
            InterruptCall::Interrupted => false,
        }
    }

    /// One more turn of the call that the pass is in. Of a pass in no call it does nothing: the
    /// pass stays in none, and [`Turned::standing`] says [`Parked`](crate::Standing::Parked).
    ///
    /// A fault ends the call, as for [`begin_on`](Turns::begin_on).
    pub fn turn(&self, pass: &mut TurnPass<L>) -> Result<Turned, LiveFault>
        requires belongs { Belongs self.now false pass.old.holding }
        ensures belongs { Belongs self.now false pass.new.holding }
        ensures went { IfOk result (λ t. Went pass.old.point t.point
            pass.old.holding pass.new.holding) }
        ensures point { IfOk result (λ t. pass.new.point ≡ resting t.point) }
        ensures fault { IfErr result (λ f.
            Halted f pass.old.point pass.old.holding pass.new.holding) }
        ensures over { OnErr result (pass.new.point ≡ At Idle) }
        ensures did { IfOk result (λ t. TurnedFrom pass.old.point t.gate_taken t.point
            pass.old.holding.words pass.new.holding.words) }
        ensures looked { OnErr result
            (VisitsBook 1 pass.old.holding.words pass.new.holding.words) }
    {
        // An action on a monitor, which a call that was started mostly goes on with, is taken with
        // no copy of the point.
        let turned = match pass.point {
            Point::At(Place::InCall(Stage::Acting { call, monitor })) => {
                self.turn_from_action(&mut pass.hand, call, monitor)
            }
            point => self.turn_from(&mut pass.hand, point),
        };
        match turned {
            Ok(turned) => {
                rest(&mut pass.point, &turned.point);
                Ok(turned)
            }
            Err(fault) => {
                pass.point = Point::At(Place::Idle);
                Err(fault)
            }
        }
    }

    // A call that stands at this point.
    #[inline(never)]
    fn turn_from(&self, hand: &mut Hand<L>, point: Point) -> Result<Turned, LiveFault>
        requires belongs { Belongs self.now false hand.old }
        requires knows { Knows point hand.old }
        ensures { IsTurnFrom self.now point result hand.old hand.new }
    {
        match point {
            Point::At(Place::InCall(stage)) => self.turn_from_stage(hand, stage),
            Point::At(Place::AtPost) => self.turn_from_post(hand, false),
            Point::Expired => self.turn_from_post(hand, true),
            _ => Ok(Turned {
                point,
                gate_taken: false,
                granted: None,
            }),
        }
    }

    // A call that stands at this stage.
    fn turn_from_stage(&self, hand: &mut Hand<L>, stage: Stage) -> Result<Turned, LiveFault>
        requires belongs { Belongs self.now false hand.old }
        requires knows { KnowsStage stage hand.old }
        ensures { IsTurnFrom self.now (At (InCall stage)) result hand.old hand.new }
    {
        match stage {
            Stage::Begun { call, contended } => self.turn_from_load(hand, call, contended),
            Stage::Binding { call, count } => self.turn_from_bind(hand, call, count),
            Stage::Acting { call, monitor } => self.turn_from_action_apart(hand, call, monitor),
            Stage::Won { object } => Ok(self.turn_from_won(hand, object)),
            Stage::Direct { call } => self.turn_from_direct(hand, call),
            _ => unreachable!(),
        }
    }

    /// Tells the moment, in nanoseconds, by a pass that is in no call; false where another pass has
    /// the gate, and nothing was done. A timed wait ends at its first turn after its moment was
    /// told, so every sleeper is to be woken then.
    ///
    /// A fault leaves everything as it is: [`Torn`](LiveFault::Torn),
    /// [`RecordFull`](LiveFault::RecordFull) or [`Backwards`](LiveFault::Backwards).
    pub fn tick(&self, pass: &mut TurnPass<L>, now: u64) -> Result<bool, LiveFault>
        requires belongs { Belongs self.now false pass.old.holding }
        requires idle { pass.old.point ≡ At Idle }
        ensures belongs { Belongs self.now false pass.new.holding }
        ensures idle { pass.new.point ≡ At Idle }
        ensures words { AddsNoEvent pass.old.holding.words pass.new.holding.words }
        ensures own { IfOk result (λ told. pass.new.holding.own ≡ pass.old.holding.own
            ++ ticked_by told pass.old.holding.words.index now) }
        ensures none { OnErr result (pass.new.holding.own ≡ pass.old.holding.own) }
        ensures fault { IfErr result IsTickFault }
        ensures looked { IfOk result (λ told. MatchBool told
            (VisitsBook 1 pass.old.holding.words pass.new.holding.words)
            (pass.new ≡ pass.old)) }
        ensures refused { OnErr result
            (VisitsBook 1 pass.old.holding.words pass.new.holding.words) }
    {
        self.tell(&mut pass.hand, now)
    }

    // The same, by what the pass has in hand.
    fn tell(&self, hand: &mut Hand<L>, now: u64) -> Result<bool, LiveFault>
        requires belongs { Belongs self.now false hand.old }
        ensures belongs { Belongs self.now false hand.new }
        ensures words { AddsNoEvent hand.old.words hand.new.words }
        ensures own { IfOk result (λ told. hand.new.own ≡ hand.old.own
            ++ ticked_by told hand.old.words.index now) }
        ensures none { OnErr result (hand.new.own ≡ hand.old.own) }
        ensures fault { IfErr result IsTickFault }
        ensures looked { IfOk result (λ told. MatchBool told
            (VisitsBook 1 hand.old.words hand.new.words) (hand.new ≡ hand.old)) }
        ensures refused { OnErr result (VisitsBook 1 hand.old.words hand.new.words) }
    {
        let Some(mut desk) = self.take(hand) else {
            return Ok(false);
        };
        let told = hand.tick(&mut desk, now);
        self.give(hand, desk);
        told?;
        Ok(true)
    }
}
