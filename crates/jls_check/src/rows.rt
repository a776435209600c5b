//! The rows of the machine, but those of waits: a function for each kind of move.

ghost use Rattle.std.specs.Prelude.{◌≡◌, Bool};
ghost use Rattle.fat_monitor.specs.declared.actions.Reply.TheVariants.{Ended};
ghost use Rattle.jls_check.specs.Taking as rows;
ghost use Rattle.jls_check.specs.Taking.{taken, after_attach_move};

use crate::MoveFault;
use crate::acts::{has, owner_only, yes_or_no};
use crate::machine::Machine;
use crate::monitors::Held;
use crate::threads::{CallEdge, Live};
use fast_path::Call;
use fat_monitor::{Cause, Reply};
use lock_word::ThreadId;
use step_core::Doing;

impl Machine {
    pub(crate) fn attach(&mut self, thread: ThreadId) -> Result<(), MoveFault>
        ensures { (room : Bool)
            × (record { answer = result; after = self.new }
            ≡ after_attach_move room self.old thread) }
    {
        if self.threads.get(thread).is_some() {
            return Err(MoveFault::Broken);
        }
        let live = Live {
            flag: false,
            act: Doing::Idle,
        };
        let Ok(()) = self.threads.add(thread, live) else {
            return Err(MoveFault::Memory);
        };
        Ok(())
    }

    pub(crate) fn return_with(&mut self, thread: ThreadId, reply: Reply) -> Result<(), MoveFault>
        ensures { record { answer = result; after = self.new }
            ≡ taken self.old (rows.return_with self.old thread reply) }
    {
        match reply {
            Reply::Ended => self.leave(thread),
            _ => self.finish(thread, reply),
        }
    }

    /// The thread is live no longer, if its call has the reply Ended.
    fn leave(&mut self, thread: ThreadId) -> Result<(), MoveFault>
        ensures { record { answer = result; after = self.new }
            ≡ taken self.old (rows.return_with self.old thread Ended) }
    {
        let Some(live) = self.threads.get(thread) else {
            return Err(MoveFault::Broken);
        };
        if !has(live.act, Reply::Ended) {
            return Err(MoveFault::Broken);
        }
        self.threads.remove(thread);
        self.forget_surplus();
        Ok(())
    }

    /// The thread does nothing any more, if its call has the reply.
    fn finish(&mut self, thread: ThreadId, reply: Reply) -> Result<(), MoveFault>
        requires { reply ≡ Ended → ⊥ }
        ensures { record { answer = result; after = self.new }
            ≡ taken self.old (rows.return_with self.old thread reply) }
    {
        if !self.threads.cross(thread, CallEdge::Returns(reply)) {
            return Err(MoveFault::Broken);
        }
        Ok(())
    }

    pub(crate) fn make_call(&mut self, thread: ThreadId, call: Call) -> Result<(), MoveFault>
        ensures { record { answer = result; after = self.new }
            ≡ taken self.old (rows.make_call self.old thread call) }
    {
        if !self.names_an_object(call) {
            return Err(MoveFault::Broken);
        }
        if !self.threads.cross(thread, CallEdge::Begins(call)) {
            return Err(MoveFault::Broken);
        }
        Ok(())
    }

    pub(crate) fn lock(&mut self, thread: ThreadId) -> Result<(), MoveFault>
        ensures { record { answer = result; after = self.new }
            ≡ taken self.old (rows.lock self.old thread) }
    {
        let Some((flag, Call::Enter(object))) = self.wanted(thread) else {
            return Err(MoveFault::Broken);
        };
        let held = self.held(object);
        if !held.may_be_locked(thread) {
            return Err(MoveFault::Broken);
        }
        self.hold(object, Held::by(thread, held.count + 1));
        self.reply(thread, flag, Reply::Entered);
        Ok(())
    }

    pub(crate) fn unlock(&mut self, thread: ThreadId) -> Result<(), MoveFault>
        ensures { record { answer = result; after = self.new }
            ≡ taken self.old (rows.unlock self.old thread) }
    {
        let Some((flag, Call::Exit(object))) = self.wanted(thread) else {
            return Err(MoveFault::Broken);
        };
        let held = self.held(object);
        if !held.is_owned_by(thread) || held.count == 0 {
            return Err(MoveFault::Broken);
        }
        self.hold(object, held.less(thread));
        self.reply(thread, flag, Reply::Exited);
        Ok(())
    }

    pub(crate) fn illegal(&mut self, thread: ThreadId) -> Result<(), MoveFault>
        ensures { record { answer = result; after = self.new }
            ≡ taken self.old (rows.illegal self.old thread) }
    {
        let Some((flag, call)) = self.wanted(thread) else {
            return Err(MoveFault::Broken);
        };
        let Some(object) = owner_only(call) else {
            return Err(MoveFault::Broken);
        };
        if self.owns(thread, object) {
            return Err(MoveFault::Broken);
        }
        self.reply(thread, flag, Reply::IllegalMonitorState);
        Ok(())
    }

    pub(crate) fn test_clear(&mut self, thread: ThreadId) -> Result<(), MoveFault>
        ensures { record { answer = result; after = self.new }
            ≡ taken self.old (rows.test_clear self.old thread) }
    {
        let Some((flag, Call::Interrupted)) = self.wanted(thread) else {
            return Err(MoveFault::Broken);
        };
        self.reply(thread, false, yes_or_no(flag));
        Ok(())
    }

    pub(crate) fn ask(&mut self, thread: ThreadId) -> Result<(), MoveFault>
        ensures { record { answer = result; after = self.new }
            ≡ taken self.old (rows.ask self.old thread) }
    {
        let (flag, answer) = match self.wanted(thread) {
            Some((flag, Call::Holds(object))) => (flag, self.owns(thread, object)),
            Some((flag, Call::IsInterrupted(target))) => match self.threads.get(target) {
                Some(live) => (flag, live.flag),
                None => return Err(MoveFault::Broken),
            },
            _ => return Err(MoveFault::Broken),
        };
        self.reply(thread, flag, yes_or_no(answer));
        Ok(())
    }

    pub(crate) fn refuse(&mut self, thread: ThreadId, cause: Cause) -> Result<(), MoveFault>
        ensures { record { answer = result; after = self.new }
            ≡ taken self.old (rows.refuse_call self.old thread cause) }
    {
        let Some((flag, call)) = self.wanted(thread) else {
            return Err(MoveFault::Broken);
        };
        if !self.may_refuse(thread, call, cause) {
            return Err(MoveFault::Broken);
        }
        self.reply(thread, flag, Reply::Refused(cause));
        Ok(())
    }

    pub(crate) fn end(&mut self, thread: ThreadId) -> Result<(), MoveFault>
        ensures { record { answer = result; after = self.new }
            ≡ taken self.old (rows.end_thread self.old thread) }
    {
        let Some((flag, Call::End)) = self.wanted(thread) else {
            return Err(MoveFault::Broken);
        };
        if self.owns_one(thread) {
            return Err(MoveFault::Broken);
        }
        // A use of a field, by which the counts are known to be those of the state.
        let _ = &self.moment;
        self.reply(thread, flag, Reply::Ended);
        Ok(())
    }

    pub(crate) fn time(&mut self, now: u64) -> Result<(), MoveFault>
        ensures { record { answer = result; after = self.new }
            ≡ taken self.old (rows.time self.old now) }
    {
        if now < self.moment {
            return Err(MoveFault::Broken);
        }
        self.moment = now;
        self.threads.give_back();
        Ok(())
    }
}
