//! The rows of waits: into a wait set, and out of it again.

ghost use Rattle.std.specs.Prelude.{◌≡◌};
ghost use Rattle.jls_check.specs.Taking as rows;
ghost use Rattle.jls_check.specs.Taking.{taken};

use crate::MoveFault;
use crate::acts::after_interrupt;
use crate::machine::{Machine, is_good, over_at};
use crate::monitors::{Held, UNHELD};
use crate::threads::Live;
use fast_path::Call;
use fat_monitor::{Reply, Why};
use lock_word::ThreadId;
use step_core::Doing;

impl Machine {
    pub(crate) fn bad_argument(&mut self, thread: ThreadId) -> Result<(), MoveFault>
        ensures { record { answer = result; after = self.new }
            ≡ taken self.old (rows.bad_argument self.old thread) }
    {
        let Some(wish) = self.wish(thread) else {
            return Err(MoveFault::Broken);
        };
        if is_good(wish.millis, wish.nanos) {
            return Err(MoveFault::Broken);
        }
        self.reply(thread, wish.flag, Reply::IllegalArgument);
        Ok(())
    }

    pub(crate) fn early(&mut self, thread: ThreadId) -> Result<(), MoveFault>
        ensures { record { answer = result; after = self.new }
            ≡ taken self.old (rows.early self.old thread) }
    {
        let Some(wish) = self.wish(thread) else {
            return Err(MoveFault::Broken);
        };
        if !is_good(wish.millis, wish.nanos) || !wish.flag {
            return Err(MoveFault::Broken);
        }
        self.reply(thread, false, Reply::Interrupted);
        Ok(())
    }

    pub(crate) fn wait(&mut self, thread: ThreadId) -> Result<(), MoveFault>
        ensures { record { answer = result; after = self.new }
            ≡ taken self.old (rows.wait self.old thread) }
    {
        let Some(wish) = self.wish(thread) else {
            return Err(MoveFault::Broken);
        };
        if !is_good(wish.millis, wish.nanos) || wish.flag {
            return Err(MoveFault::Broken);
        }
        let object = wish.object;
        let waits = Doing::Waits {
            object,
            holds: self.held(object).count,
            deadline: over_at(self.moment, wish.millis, wish.nanos),
        };
        self.hold(object, UNHELD);
        self.put(thread, false, waits);
        self.note_waiter(thread);
        Ok(())
    }

    pub(crate) fn notify(&mut self, thread: ThreadId, chosen: ThreadId) -> Result<(), MoveFault>
        ensures { record { answer = result; after = self.new }
            ≡ taken self.old (rows.notify self.old thread chosen) }
    {
        let Some((flag, Call::Notify(object))) = self.wanted(thread) else {
            return Err(MoveFault::Broken);
        };
        if !self.owns(thread, object) {
            return Err(MoveFault::Broken);
        }
        let Some(
            Live {
                flag: other,
                act: Doing::Waits {
                    object: awaited,
                    holds,
                    ..
                },
            },
        ) = self.threads.get(chosen)
        else {
            return Err(MoveFault::Broken);
        };
        if awaited.0 != object.0 {
            return Err(MoveFault::Broken);
        }
        let back = Doing::Back {
            object: awaited,
            holds,
            why: Why::Notified,
        };
        self.reply(thread, flag, Reply::Notified);
        self.put(chosen, other, back);
        Ok(())
    }

    pub(crate) fn notify_nobody(&mut self, thread: ThreadId) -> Result<(), MoveFault>
        ensures { record { answer = result; after = self.new }
            ≡ taken self.old (rows.notify_nobody self.old thread) }
    {
        let Some((flag, Call::Notify(object))) = self.wanted(thread) else {
            return Err(MoveFault::Broken);
        };
        if !self.owns(thread, object) || !self.nobody_waits(object) {
            return Err(MoveFault::Broken);
        }
        self.reply(thread, flag, Reply::Notified);
        Ok(())
    }

    pub(crate) fn notify_all(&mut self, thread: ThreadId) -> Result<(), MoveFault>
        ensures { record { answer = result; after = self.new }
            ≡ taken self.old (rows.notify_all self.old thread) }
    {
        let Some((flag, Call::NotifyAll(object))) = self.wanted(thread) else {
            return Err(MoveFault::Broken);
        };
        if !self.owns(thread, object) {
            return Err(MoveFault::Broken);
        }
        self.empty_wait_set(object);
        self.reply(thread, flag, Reply::Notified);
        Ok(())
    }

    pub(crate) fn interrupt(&mut self, thread: ThreadId) -> Result<(), MoveFault>
        ensures { record { answer = result; after = self.new }
            ≡ taken self.old (rows.interrupt self.old thread) }
    {
        let Some((flag, Call::Interrupt(target))) = self.wanted(thread) else {
            return Err(MoveFault::Broken);
        };
        let Some(live) = self.threads.get(target) else {
            return Err(MoveFault::Broken);
        };
        self.put(target, true, after_interrupt(live.act));
        self.reply(thread, thread.0 == target.0 || flag, Reply::Done);
        Ok(())
    }

    pub(crate) fn expire(&mut self, thread: ThreadId) -> Result<(), MoveFault>
        ensures { record { answer = result; after = self.new }
            ≡ taken self.old (rows.expire self.old thread) }
    {
        let Some(
            Live {
                flag,
                act: Doing::Waits {
                    object,
                    holds,
                    deadline: Some(deadline),
                },
            },
        ) = self.threads.get(thread)
        else {
            return Err(MoveFault::Broken);
        };
        if u128::from(self.moment) < deadline {
            return Err(MoveFault::Broken);
        }
        let back = Doing::Back {
            object,
            holds,
            why: Why::Elapsed,
        };
        self.put(thread, flag, back);
        Ok(())
    }

    pub(crate) fn wake(&mut self, thread: ThreadId) -> Result<(), MoveFault>
        ensures { record { answer = result; after = self.new }
            ≡ taken self.old (rows.wake self.old thread) }
    {
        let Some(
            Live {
                flag,
                act: Doing::Waits { object, holds, .. },
            },
        ) = self.threads.get(thread)
        else {
            return Err(MoveFault::Broken);
        };
        let back = Doing::Back {
            object,
            holds,
            why: Why::Spurious,
        };
        self.put(thread, flag, back);
        Ok(())
    }

    pub(crate) fn relock(&mut self, thread: ThreadId) -> Result<(), MoveFault>
        ensures { record { answer = result; after = self.new }
            ≡ taken self.old (rows.relock self.old thread) }
    {
        let Some(
            Live {
                flag,
                act: Doing::Back { object, holds, why },
            },
        ) = self.threads.get(thread)
        else {
            return Err(MoveFault::Broken);
        };
        if self.held(object).owner.is_some() {
            return Err(MoveFault::Broken);
        }
        let (flag, reply) = match why {
            Why::Interrupted => (false, Reply::Interrupted),
            Why::Notified | Why::Elapsed | Why::Spurious => (flag, Reply::WaitOver),
        };
        self.hold(object, Held::by(thread, holds));
        self.reply(thread, flag, reply);
        Ok(())
    }
}
