//! The start of a call, before any turn that needs the book.

ghost use Rattle.std.specs.Prelude.{◌≡◌, ◌<◌, ◌≤◌, IfOk, IfErr, OnOk, length, false, true};
ghost use Rattle.std.specs.Bool.{OnTrue, OnFalse};
ghost use Rattle.fat_monitor.specs.declared.actions.Reply.TheVariants as reply;
ghost use Rattle.header_words.specs.Passes.{depth_at};
ghost use Rattle.step_core.specs.declared.places.Place.TheVariants.{Idle, InCall};
ghost use Rattle.step_core.specs.declared.places.Stage.TheVariants.{Begun, Taking, Binding, Acting, Direct};
ghost use Rattle.step_core.specs.declared.paths.Point.TheVariants.{At, Said};
ghost use Rattle.step_core.specs.Go.{entering};
ghost use Rattle.live_book.specs.declared.faults.LiveFault.{LiveFault};
ghost use Rattle.live_turns.specs.Points.{RestsStarted, started, names_stranger};
ghost use Rattle.live_turns.specs.Ways.{Belongs, Went, VisitsBook};

use crate::desks::Crew;
use crate::hands::Hand;
use crate::{LiveFault, TurnPass, Turns};
use fast_path::{InterruptCall, MonitorCall, Next};
use fat_monitor::Reply;
use lock_word::{ObjectId, Split};
use step_core::{Place, Point, Stage};

// Where a call stands that goes on. Each is a function of its own, so that a call that is over at
// once has nothing of it.

// It has met another thread at the word.
#[inline(never)]
fn stay_contended(point: &mut Point, call: &MonitorCall)
    ensures { point.new ≡ At (InCall (Begun call.now true)) }
{
    let contended = true;
    *point = Point::At(Place::InCall(Stage::Begun {
        call: *call,
        contended,
    }));
}

// It is to bind a monitor to its object.
#[inline(never)]
fn stay_binding(point: &mut Point, call: &MonitorCall, count: u16)
    ensures { point.new ≡ At (InCall (Binding call.now count)) }
{
    *point = Point::At(Place::InCall(Stage::Binding { call: *call, count }));
}

// It is to act on the monitor of its object.
#[inline(never)]
fn stay_acting(point: &mut Point, call: &MonitorCall, monitor: u32)
    ensures { point.new ≡ At (InCall (Acting call.now monitor)) }
{
    *point = Point::At(Place::InCall(Stage::Acting {
        call: *call,
        monitor,
    }));
}

impl<L: Crew> Turns<L> {
    // The exchange of the free word, by an enter that has met nobody: whether it won the word.
    #[inline(always)]
    fn exchange(&self, hand: &mut Hand<L>, object: ObjectId) -> bool
        requires belongs { Belongs self.now false hand.old }
        requires object { object.0 < length self.now.lows }
        requires free { depth_at hand.old.words object.0 ≡ 0 }
        ensures belongs { Belongs self.now false hand.new }
        ensures won { OnTrue result (Went (At (InCall (Taking object false))) (Said reply.Entered)
            hand.old hand.new) }
        ensures lost { OnFalse result (Went (At (InCall (Taking object false)))
            (At (InCall (Begun (entering object) true))) hand.old hand.new) }
        ensures visit { VisitsBook 0 hand.old.words hand.new.words }
    {
        self.headers.acquire(&mut hand.words, object)
    }

    /// Starts a call on an object (JLS SE 8, 17.1 and 17.2) by its steps on the word of the object:
    /// a load, and an exchange or a store where the word calls for one. They are the whole call
    /// where the object is free or held thinly by the thread, and the call need not wait; the
    /// answer is its reply then. Else it is None, the pass is in the middle of the call, and
    /// [`turn`](Turns::turn) goes on.
    ///
    /// The fault is [`NoObject`](LiveFault::NoObject), before anything was done.
    #[inline(always)]
    pub fn start_on(
        &self,
        pass: &mut TurnPass<L>,
        call: MonitorCall,
    ) -> Result<Option<Reply>, LiveFault>
        requires belongs { Belongs self.now false pass.old.holding }
        requires idle { pass.old.point ≡ At Idle }
        ensures belongs { Belongs self.now false pass.new.holding }
        ensures went { IfOk result (λ said. Went (At (InCall (Begun call false)))
            (started said pass.new.point) pass.old.holding pass.new.holding) }
        ensures rests { IfOk result (λ said. RestsStarted said pass.new.point) }
        ensures there { OnOk result (call.object.0 < length self.now.lows) }
        ensures fault { IfErr result (λ f. (f ≡ LiveFault.NoObject)
            × (length self.now.lows ≤ call.object.0) × (pass.new ≡ pass.old)) }
        ensures did { VisitsBook 0 pass.old.holding.words pass.new.holding.words }
    {
        let object = call.object;
        if object.0 >= self.objects {
            return Err(LiveFault::NoObject);
        }
        let lock = self.load(&mut pass.hand, object);
        match call.operation.next(Split::Wide, lock, pass.hand.index()) {
            Next::Reply(reply) => Ok(Some(reply)),
            Next::Store(new) => Ok(Some(self.store(&mut pass.hand, call, lock, new))),
            Next::Cas(_) => {
                if self.exchange(&mut pass.hand, object) {
                    return Ok(Some(Reply::Entered));
                }
                stay_contended(&mut pass.point, &call);
                Ok(None)
            }
            Next::Spin => {
                stay_contended(&mut pass.point, &call);
                Ok(None)
            }
            Next::Bind => {
                stay_binding(&mut pass.point, &call, lock.count());
                Ok(None)
            }
            Next::Fat(monitor) => {
                stay_acting(&mut pass.point, &call, monitor);
                Ok(None)
            }
        }
    }

    /// Starts a call about interrupts (JLS SE 8, 17.2.3): nothing is done yet, and
    /// [`turn`](Turns::turn) goes on.
    ///
    /// The fault is [`NoThread`](LiveFault::NoThread).
    pub fn start_about(&self, pass: &mut TurnPass<L>, call: InterruptCall) -> Result<(), LiveFault>
        requires idle { pass.old.point ≡ At Idle }
        ensures same { pass.new.holding ≡ pass.old.holding }
        ensures point { OnOk result (pass.new.point ≡ At (InCall (Direct call))) }
        ensures there { OnOk result (names_stranger self.now call ≡ false) }
        ensures fault { IfErr result (λ f. (f ≡ LiveFault.NoThread)
            × (names_stranger self.now call ≡ true) × (pass.new ≡ pass.old)) }
    {
        if self.is_stranger(call) {
            return Err(LiveFault::NoThread);
        }
        pass.point = Point::At(Place::InCall(Stage::Direct { call }));
        Ok(())
    }
}
