//! The rows of the table of moves: each move is made where it is lawful.

use super::*;

impl Machine {
    pub(super) fn attach(&mut self, thread: ThreadId) -> Result<bool, AllocError> {
        if self.live(thread).is_some() {
            return Ok(false);
        }
        self.threads.push(Live {
            thread,
            flag: false,
            doing: Doing::Idle,
        })?;
        Ok(true)
    }

    pub(super) fn call(&mut self, thread: ThreadId, call: Call) -> Option<()> {
        let live = self.live(thread)?;
        let Doing::Idle = live.doing else {
            return None;
        };
        if let Some(object) = named(call) {
            let _ = self.monitor(object)?;
        }
        self.put(thread, live.flag, Doing::Wants(call));
        Some(())
    }

    pub(super) fn returns(&mut self, thread: ThreadId, reply: Reply) -> Option<()> {
        let live = self.live(thread)?;
        if live.doing != Doing::Has(reply) {
            return None;
        }
        match reply {
            Reply::Ended => self.threads.retain(|other| other.thread != thread),
            _ => self.put(thread, live.flag, Doing::Idle),
        }
        Some(())
    }

    pub(super) fn lock(&mut self, thread: ThreadId) -> Option<()> {
        let (flag, call) = self.calls(thread)?;
        let Call::Enter(object) = call else {
            return None;
        };
        let monitor = self.monitor(object)?;
        if monitor.owner != None && monitor.owner != Some(thread) {
            return None;
        }
        let count = monitor.count.checked_add(1)?;
        self.answer(thread, flag, Reply::Entered);
        self.give(object, thread, count);
        Some(())
    }

    pub(super) fn unlock(&mut self, thread: ThreadId) -> Option<()> {
        let (flag, call) = self.calls(thread)?;
        let Call::Exit(object) = call else {
            return None;
        };
        let monitor = self.owned(object, thread)?;
        let left = monitor.count.checked_sub(1)?;
        self.answer(thread, flag, Reply::Exited);
        self.give(object, thread, left);
        Some(())
    }

    pub(super) fn illegal(&mut self, thread: ThreadId) -> Option<()> {
        let (flag, call) = self.calls(thread)?;
        let object = for_the_owner(call)?;
        if self.owned(object, thread).is_some() {
            return None;
        }
        self.answer(thread, flag, Reply::IllegalMonitorState);
        Some(())
    }

    pub(super) fn bad_argument(&mut self, thread: ThreadId) -> Option<()> {
        let wish = self.wish(thread)?;
        if is_good(wish.millis, wish.nanos) {
            return None;
        }
        self.answer(thread, wish.flag, Reply::IllegalArgument);
        Some(())
    }

    pub(super) fn early(&mut self, thread: ThreadId) -> Option<()> {
        let wish = self.wish(thread)?;
        if !wish.flag || !is_good(wish.millis, wish.nanos) {
            return None;
        }
        self.answer(thread, false, Reply::Interrupted);
        Some(())
    }

    pub(super) fn wait(&mut self, thread: ThreadId) -> Option<()> {
        let wish = self.wish(thread)?;
        if wish.flag || !is_good(wish.millis, wish.nanos) {
            return None;
        }
        let deadline = over_at(self.moment, wish.millis, wish.nanos)?;
        let waits = Doing::Waits {
            object: wish.object,
            holds: wish.count,
            deadline,
        };
        self.put(thread, false, waits);
        self.give(wish.object, thread, 0);
        Some(())
    }

    pub(super) fn notify(&mut self, thread: ThreadId, chosen: ThreadId) -> Option<()> {
        let (flag, call) = self.calls(thread)?;
        let Call::Notify(object) = call else {
            return None;
        };
        let _ = self.owned(object, thread)?;
        let waiter = self.live(chosen)?;
        let back = awake(waiter.doing, Some(object), Why::Notified)?;
        self.answer(thread, flag, Reply::Notified);
        self.put(chosen, waiter.flag, back);
        Some(())
    }

    pub(super) fn notify_nobody(&mut self, thread: ThreadId) -> Option<()> {
        let (flag, call) = self.calls(thread)?;
        let Call::Notify(object) = call else {
            return None;
        };
        let _ = self.owned(object, thread)?;
        for live in self.threads.iter() {
            if awake(live.doing, Some(object), Why::Notified).is_some() {
                return None;
            }
        }
        self.answer(thread, flag, Reply::Notified);
        Some(())
    }

    pub(super) fn notify_all(&mut self, thread: ThreadId) -> Option<()> {
        let (flag, call) = self.calls(thread)?;
        let Call::NotifyAll(object) = call else {
            return None;
        };
        let _ = self.owned(object, thread)?;
        for live in self.threads.iter_mut() {
            if let Some(back) = awake(live.doing, Some(object), Why::Notified) {
                live.doing = back;
            }
        }
        self.answer(thread, flag, Reply::Notified);
        Some(())
    }

    pub(super) fn interrupt(&mut self, thread: ThreadId) -> Option<()> {
        let (flag, call) = self.calls(thread)?;
        let Call::Interrupt(target) = call else {
            return None;
        };
        let other = self.live(target)?;
        let back = awake(other.doing, None, Why::Interrupted);
        self.put(target, true, back.unwrap_or(other.doing));
        self.answer(thread, flag || target == thread, Reply::Done);
        Some(())
    }

    pub(super) fn test_clear(&mut self, thread: ThreadId) -> Option<()> {
        let (flag, call) = self.calls(thread)?;
        let Call::Interrupted = call else {
            return None;
        };
        self.answer(thread, false, yes_or_no(flag));
        Some(())
    }

    pub(super) fn expire(&mut self, thread: ThreadId) -> Option<()> {
        let live = self.live(thread)?;
        let Doing::Waits {
            deadline: Some(deadline),
            ..
        } = live.doing
        else {
            return None;
        };
        if u128::from(self.moment) < deadline {
            return None;
        }
        let back = awake(live.doing, None, Why::Elapsed)?;
        self.put(thread, live.flag, back);
        Some(())
    }

    pub(super) fn wake(&mut self, thread: ThreadId) -> Option<()> {
        let live = self.live(thread)?;
        let back = awake(live.doing, None, Why::Spurious)?;
        self.put(thread, live.flag, back);
        Some(())
    }

    pub(super) fn relock(&mut self, thread: ThreadId) -> Option<()> {
        let live = self.live(thread)?;
        let Doing::Back { object, holds, why } = live.doing else {
            return None;
        };
        if self.monitor(object)?.owner != None {
            return None;
        }
        match why {
            Why::Notified | Why::Elapsed | Why::Spurious => {
                self.answer(thread, live.flag, Reply::WaitOver)
            }
            Why::Interrupted => self.answer(thread, false, Reply::Interrupted),
        }
        self.give(object, thread, holds);
        Some(())
    }

    pub(super) fn ask(&mut self, thread: ThreadId) -> Option<()> {
        let (flag, call) = self.calls(thread)?;
        let answer = match call {
            Call::Holds(object) => self.owned(object, thread).is_some(),
            Call::IsInterrupted(target) => self.live(target)?.flag,
            _ => return None,
        };
        self.answer(thread, flag, yes_or_no(answer));
        Some(())
    }

    pub(super) fn refuse(&mut self, thread: ThreadId, cause: Cause) -> Option<()> {
        let (flag, call) = self.calls(thread)?;
        let may = match (call, cause) {
            (Call::Enter(object), Cause::NoMonitor | Cause::Memory) => self
                .owned(object, thread)
                .is_some(),
            (Call::Enter(object), Cause::TooDeep) => self.owned(object, thread)?.count == u16::MAX,
            (Call::Wait { .. }, Cause::NoMonitor | Cause::Memory) => {
                let wish = self.wish(thread)?;
                is_good(wish.millis, wish.nanos)
            }
            (Call::Interrupt(target) | Call::IsInterrupted(target), Cause::NoThread) => self
                .live(target)
                .is_none(),
            (Call::End, Cause::StillOwner) => self.owns_one(thread),
            _ => false,
        };
        if !may {
            return None;
        }
        self.answer(thread, flag, Reply::Refused(cause));
        Some(())
    }

    pub(super) fn end(&mut self, thread: ThreadId) -> Option<()> {
        let (flag, call) = self.calls(thread)?;
        let Call::End = call else {
            return None;
        };
        if self.owns_one(thread) {
            return None;
        }
        self.answer(thread, flag, Reply::Ended);
        Some(())
    }

    pub(super) fn time(&mut self, now: u64) -> Option<()> {
        if now < self.moment {
            return None;
        }
        self.moment = now;
        Some(())
    }
}
