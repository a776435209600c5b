//! The calls on the monitors of objects, and those about interrupts.

ghost use Rattle.std.specs.Prelude.{◌≡◌, IfErr, OnOk, OnErr, ◌++◌, true};
ghost use Rattle.fast_path.specs.declared.calls.Operation.TheVariants as op;
ghost use Rattle.fast_path.specs.declared.calls.InterruptCall.TheVariants as about;
ghost use Rattle.live_turns.specs.Asked.{IsTickFault};
ghost use Rattle.live_turns.specs.Ways.{AddsNoEvent, VisitsBook, ticked_by};
ghost use Rattle.live_threads.specs.Calls.{CalledOn, CalledAbout};

use crate::{Live, LivePass};
use fast_path::{InterruptCall, MonitorCall, Operation};
use fat_monitor::Reply;
use live_turns::{Crew, LiveFault};
use lock_word::{ObjectId, ThreadId};
use std::sync::Wait;
use std::time::Clock;

impl<L: Crew> Live<L> {
    /// A call on an object.
    #[inline(always)]
    pub(crate) fn call_on<R: Wait + Clock>(
        &self,
        rt: &R,
        pass: &mut LivePass<L>,
        call: MonitorCall,
    ) -> Result<Reply, LiveFault>
        requires here { pass.old.words.opening ≡ self.now }
        ensures called { CalledOn self.now call result pass.old pass.new }
        ensures here { pass.new.words.opening ≡ self.now }
    {
        let LivePass { turns, parker } = pass;
        self.run_on(rt, turns, parker, call)
    }

    /// A call about interrupts.
    pub(crate) fn call_about<R: Wait + Clock>(
        &self,
        rt: &R,
        pass: &mut LivePass<L>,
        call: InterruptCall,
    ) -> Result<Reply, LiveFault>
        requires here { pass.old.words.opening ≡ self.now }
        ensures called { CalledAbout self.now call result pass.old pass.new }
        ensures here { pass.new.words.opening ≡ self.now }
    {
        let LivePass { turns, parker } = pass;
        self.run_about(rt, turns, parker, call)
    }

    /// Locks the object (`monitorenter`; JLS SE 8, 17.1): waits as long as another thread owns it.
    ///
    /// For a fault of this call and of those below, see
    /// [`Turns::begin_on`](live_turns::Turns::begin_on): the pass is in no call then either, and
    /// can make the next one.
    pub fn enter<R: Wait + Clock>(
        &self,
        rt: &R,
        pass: &mut LivePass<L>,
        object: ObjectId,
    ) -> Result<Reply, LiveFault>
        requires here { pass.old.words.opening ≡ self.now }
        ensures called { CalledOn self.now (record { object = object; operation = op.Enter })
            result pass.old pass.new }
        ensures here { pass.new.words.opening ≡ self.now }
    {
        let operation = Operation::Enter;
        self.call_on(rt, pass, MonitorCall { object, operation })
    }

    /// Unlocks the object once (`monitorexit`).
    pub fn exit<R: Wait + Clock>(
        &self,
        rt: &R,
        pass: &mut LivePass<L>,
        object: ObjectId,
    ) -> Result<Reply, LiveFault>
        requires here { pass.old.words.opening ≡ self.now }
        ensures called { CalledOn self.now (record { object = object; operation = op.Exit })
            result pass.old pass.new }
        ensures here { pass.new.words.opening ≡ self.now }
    {
        let operation = Operation::Exit;
        self.call_on(rt, pass, MonitorCall { object, operation })
    }

    /// Gives up all locks of the object, waits to be notified or interrupted, for this time at
    /// most, and locks it as often again (`Object.wait`; JLS SE 8, 17.2.1). 0 and 0 mean no limit;
    /// the time goes by the moments that [`tick`](Live::tick) tells.
    pub fn wait_on<R: Wait + Clock>(
        &self,
        rt: &R,
        pass: &mut LivePass<L>,
        object: ObjectId,
        millis: i64,
        nanos: i32,
    ) -> Result<Reply, LiveFault>
        requires here { pass.old.words.opening ≡ self.now }
        ensures called { CalledOn self.now
            (record { object = object; operation = op.Wait millis nanos })
            result pass.old pass.new }
        ensures here { pass.new.words.opening ≡ self.now }
    {
        let operation = Operation::Wait { millis, nanos };
        self.call_on(rt, pass, MonitorCall { object, operation })
    }

    /// Wakes one thread that waits on the object, if one does (`Object.notify`; JLS SE 8, 17.2.2).
    pub fn notify<R: Wait + Clock>(
        &self,
        rt: &R,
        pass: &mut LivePass<L>,
        object: ObjectId,
    ) -> Result<Reply, LiveFault>
        requires here { pass.old.words.opening ≡ self.now }
        ensures called { CalledOn self.now (record { object = object; operation = op.Notify })
            result pass.old pass.new }
        ensures here { pass.new.words.opening ≡ self.now }
    {
        let operation = Operation::Notify;
        self.call_on(rt, pass, MonitorCall { object, operation })
    }

    /// Wakes all threads that wait on the object (`Object.notifyAll`).
    pub fn notify_all<R: Wait + Clock>(
        &self,
        rt: &R,
        pass: &mut LivePass<L>,
        object: ObjectId,
    ) -> Result<Reply, LiveFault>
        requires here { pass.old.words.opening ≡ self.now }
        ensures called { CalledOn self.now (record { object = object; operation = op.NotifyAll })
            result pass.old pass.new }
        ensures here { pass.new.words.opening ≡ self.now }
    {
        let operation = Operation::NotifyAll;
        self.call_on(rt, pass, MonitorCall { object, operation })
    }

    /// Does the thread own the object (`Thread.holdsLock`)?
    pub fn holds<R: Wait + Clock>(
        &self,
        rt: &R,
        pass: &mut LivePass<L>,
        object: ObjectId,
    ) -> Result<Reply, LiveFault>
        requires here { pass.old.words.opening ≡ self.now }
        ensures called { CalledOn self.now (record { object = object; operation = op.Holds })
            result pass.old pass.new }
        ensures here { pass.new.words.opening ≡ self.now }
    {
        let operation = Operation::Holds;
        self.call_on(rt, pass, MonitorCall { object, operation })
    }

    /// Interrupts this thread (`Thread.interrupt`; JLS SE 8, 17.2.3).
    pub fn interrupt<R: Wait + Clock>(
        &self,
        rt: &R,
        pass: &mut LivePass<L>,
        target: ThreadId,
    ) -> Result<Reply, LiveFault>
        requires here { pass.old.words.opening ≡ self.now }
        ensures called { CalledAbout self.now (about.Interrupt target) result pass.old pass.new }
        ensures here { pass.new.words.opening ≡ self.now }
    {
        self.call_about(rt, pass, InterruptCall::Interrupt(target))
    }

    /// Is this thread interrupted (`Thread.isInterrupted`)?
    pub fn is_interrupted<R: Wait + Clock>(
        &self,
        rt: &R,
        pass: &mut LivePass<L>,
        target: ThreadId,
    ) -> Result<Reply, LiveFault>
        requires here { pass.old.words.opening ≡ self.now }
        ensures called { CalledAbout self.now (about.IsInterrupted target)
            result pass.old pass.new }
        ensures here { pass.new.words.opening ≡ self.now }
    {
        self.call_about(rt, pass, InterruptCall::IsInterrupted(target))
    }

    /// Is the thread interrupted? It is not any more then (`Thread.interrupted`).
    pub fn interrupted<R: Wait + Clock>(
        &self,
        rt: &R,
        pass: &mut LivePass<L>,
    ) -> Result<Reply, LiveFault>
        requires here { pass.old.words.opening ≡ self.now }
        ensures called { CalledAbout self.now about.Interrupted result pass.old pass.new }
        ensures here { pass.new.words.opening ≡ self.now }
    {
        self.call_about(rt, pass, InterruptCall::Interrupted)
    }

    /// Tells the moment, in nanoseconds, and wakes all threads that sleep, so that each sees
    /// whether its wait is over.
    ///
    /// A fault leaves everything as it is: [`Torn`](LiveFault::Torn),
    /// [`RecordFull`](LiveFault::RecordFull) or [`Backwards`](LiveFault::Backwards).
    pub fn tick<R: Wait + Clock>(
        &self,
        rt: &R,
        pass: &mut LivePass<L>,
        now: u64,
    ) -> Result<(), LiveFault>
        requires here { pass.old.words.opening ≡ self.now }
        ensures here { pass.new.words.opening ≡ self.now }
        ensures words { AddsNoEvent pass.old.words pass.new.words }
        ensures own { OnOk result (pass.new.own ≡ pass.old.own
            ++ ticked_by true pass.old.words.index now) }
        ensures none { OnErr result (pass.new.own ≡ pass.old.own) }
        ensures fault { IfErr result IsTickFault }
        ensures looked { VisitsBook 1 pass.old.words pass.new.words }
    {
        let told = self.tell(rt, &mut pass.turns, now);
        if told.is_ok() {
            self.ring_all();
        }
        told
    }
}
