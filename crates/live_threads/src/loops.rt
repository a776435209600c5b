//! The loops over turns: one call until it has its reply, and one tick until it was told.

ghost use Rattle.std.specs.Prelude.{◌≡◌, IfOk, IfErr, OnOk, OnErr, ◌++◌, true, false};
ghost use Rattle.step_core.specs.declared.paths.Point.TheVariants.{Said};
ghost use Rattle.live_turns.specs.Asked.{IsTickFault};
ghost use Rattle.live_turns.specs.Ways.{AddsNoEvent, Went, Halted, VisitsBook, ticked_by};
ghost use Rattle.live_threads.specs.Calls.{IsAtRest, CalledOn, CalledAbout};

use crate::Live;
use crate::waiting::Waiting;
use crossbeam_utils::sync::Parker;
use fast_path::{InterruptCall, MonitorCall};
use fat_monitor::Reply;
use live_turns::{Crew, LiveFault, Standing, TurnPass};
use std::sync::Wait;
use std::time::Clock;

impl<L: Crew> Live<L> {
    // Waits as long as this standing of a call asks for.
    fn wait<R: Wait + Clock>(
        &self,
        rt: &R,
        waiting: &mut Waiting,
        standing: Standing,
        pass: &TurnPass<L>,
        parker: &Parker,
    ) {
        match (standing, self.bell(pass.thread())) {
            (Standing::Parked, Some(bell)) => waiting.listen(rt, bell, parker),
            _ => waiting.back_off(rt),
        }
    }

    // The turns of a call that was started, until it has its reply.
    #[inline(never)]
    fn finish<R: Wait + Clock>(
        &self,
        rt: &R,
        pass: &mut TurnPass<L>,
        parker: &Parker,
    ) -> Result<Reply, LiveFault>
        requires here { pass.old.holding.words.opening ≡ self.now }
        requires gate { pass.old.holding.words.has_gate ≡ false }
        ensures went { IfOk result (λ r.
            Went pass.old.point (Said r) pass.old.holding pass.new.holding) }
        ensures halted { IfErr result (λ f.
            Halted f pass.old.point pass.old.holding pass.new.holding) }
        ensures here { pass.new.holding.words.opening ≡ self.now }
        ensures rests { IsAtRest pass.new }
    {
        let mut waiting = Waiting::new();
        for _ in rt.forever() {
            let turned = self.turns.turn(pass)?;
            self.ring(turned.granted);
            let standing = turned.standing();
            if let Standing::Said(reply) = standing {
                return Ok(reply);
            }
            self.wait(rt, &mut waiting, standing, pass, parker);
        }
        unreachable!()
    }

    // A call on an object, until it has its reply. What the word alone decides, it does at once.
    #[inline(always)]
    pub(crate) fn run_on<R: Wait + Clock>(
        &self,
        rt: &R,
        pass: &mut TurnPass<L>,
        parker: &Parker,
        call: MonitorCall,
    ) -> Result<Reply, LiveFault>
        requires here { pass.old.holding.words.opening ≡ self.now }
        requires rests { IsAtRest pass.old }
        ensures called { CalledOn self.now call result pass.old.holding pass.new.holding }
        ensures here { pass.new.holding.words.opening ≡ self.now }
        ensures rests { IsAtRest pass.new }
    {
        match self.turns.start_on(pass, call)? {
            Some(reply) => Ok(reply),
            None => self.finish(rt, pass, parker),
        }
    }

    // A call about interrupts, until it has its reply.
    pub(crate) fn run_about<R: Wait + Clock>(
        &self,
        rt: &R,
        pass: &mut TurnPass<L>,
        parker: &Parker,
        call: InterruptCall,
    ) -> Result<Reply, LiveFault>
        requires here { pass.old.holding.words.opening ≡ self.now }
        requires rests { IsAtRest pass.old }
        ensures called { CalledAbout self.now call result pass.old.holding pass.new.holding }
        ensures here { pass.new.holding.words.opening ≡ self.now }
        ensures rests { IsAtRest pass.new }
    {
        self.turns.start_about(pass, call)?;
        self.finish(rt, pass, parker)
    }

    // Tells the moment, as soon as the gate is open.
    pub(crate) fn tell<R: Clock + Wait>(
        &self,
        rt: &R,
        pass: &mut TurnPass<L>,
        now: u64,
    ) -> Result<(), LiveFault>
        requires here { pass.old.holding.words.opening ≡ self.now }
        requires rests { IsAtRest pass.old }
        ensures here { pass.new.holding.words.opening ≡ self.now }
        ensures rests { IsAtRest pass.new }
        ensures words { AddsNoEvent pass.old.holding.words pass.new.holding.words }
        ensures own { OnOk result (pass.new.holding.own ≡ pass.old.holding.own
            ++ ticked_by true pass.old.holding.words.index now) }
        ensures none { OnErr result (pass.new.holding.own ≡ pass.old.holding.own) }
        ensures fault { IfErr result IsTickFault }
        ensures looked { VisitsBook 1 pass.old.holding.words pass.new.holding.words }
    {
        let mut waiting = Waiting::new();
        for _ in rt.forever() {
            if self.turns.tick(pass, now)? {
                return Ok(());
            }
            waiting.back_off(rt);
        }
        unreachable!()
    }
}
