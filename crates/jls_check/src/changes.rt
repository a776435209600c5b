//! The changes of what is known that the rows are made of. Each keeps the two counts.

ghost use Rattle.std.specs.Prelude.{◌≡◌, IsSome, MatchOption, length};
ghost use Rattle.fat_monitor.specs.declared.actions.Reply.TheVariants.{Ended};
ghost use Rattle.step_core.specs.declared.machine.Doing.TheVariants.{Has};
ghost use Rattle.step_core.specs.Machine.{ActExists};
ghost use Rattle.jls_check.specs.LiveThreads.{live_of, owned_of};
ghost use Rattle.jls_check.specs.MachineState.{put, put_reply, with_held, IsSound, MayOwn};
ghost use Rattle.jls_check.specs.Taking.{all_left};
ghost use Rattle.jls_check.specs.Emptied.{emptied};

use crate::machine::Machine;
use crate::monitors::{Held, count_waits, is_same_owner};
use crate::threads::Live;
use fat_monitor::{Reply, Why};
use lock_word::{ObjectId, ThreadId};
use step_core::Doing;

/// A look at one note takes as long as a look at this many live threads.
const STEPS_A_NOTE: usize = 32;

impl Machine {
    /// Writes the flag of a live thread, and what it is doing.
    pub(crate) fn put(&mut self, thread: ThreadId, flag: bool, act: Doing)
        requires live { IsSome (live_of self.old.threads thread) }
        requires there { ActExists (length self.old.objects) act }
        requires ends { act ≡ Has Ended → owned_of self.old.threads thread ≡ 0 }
        ensures { self.new ≡ put self.old thread flag act }
    {
        // No more threads wait than are live, so one more can be counted.
        prove!(self.threads.count() < usize::MAX);
        let was = self.threads.set(thread, Live { flag, act });
        count_waits(&mut self.objects, was, act);
    }

    /// The call of a live thread has this reply.
    pub(crate) fn reply(&mut self, thread: ThreadId, flag: bool, reply: Reply)
        requires live { IsSome (live_of self.old.threads thread) }
        requires ends { reply ≡ Ended → owned_of self.old.threads thread ≡ 0 }
        ensures { self.new ≡ put_reply self.old thread flag reply }
    {
        self.put(thread, flag, Doing::Has(reply));
    }

    /// Writes who owns an object, and how often it is locked. Whoever owns it is live, and has not
    /// ended.
    pub(crate) fn hold(&mut self, object: ObjectId, held: Held)
        requires { MatchOption held.owner (Unit {0}) (λ t. MayOwn self.old.threads t) }
        ensures { self.new ≡ with_held self.old object held }
    {
        let position = object.0 as usize;
        if position >= self.objects.len() {
            return;
        }
        let before = self.objects[position].held.owner;
        self.objects[position].held = held;
        // Who keeps the object owns as many as before.
        if is_same_owner(before, held.owner) {
            return;
        }
        self.threads.lose(before);
        self.threads.gain(held.owner);
    }

    /// Notes that a thread began to wait.
    pub(crate) fn note_waiter(&mut self, thread: ThreadId)
        ensures { self.new ≡ self.old }
    {
        self.forget_surplus();
        // Without memory it is not noted.
        let _ = self.waiters.push(thread);
    }

    /// Forgets who began to wait, once there is more than one note for every 64 live threads and 16
    /// more. So to look for the thread of each note takes less time than to go through all threads,
    /// but for a fixed number of looks. Notes that take the memory of more threads than are live
    /// are forgotten too, and that memory is given back.
    pub(crate) fn forget_surplus(&mut self)
        ensures { self.new ≡ self.old }
    {
        let most = self.threads.count() / 64 + 16;
        if self.waiters.len() > most {
            self.waiters.clear();
        }
        if self.waiters.capacity() / 4 > most {
            self.waiters.clear();
            self.waiters.shrink_to_fit();
        }
    }

    /// Every thread leaves the wait set of the object, notified.
    pub(crate) fn empty_wait_set(&mut self, object: ObjectId)
        ensures { self.new ≡ all_left self.old object }
    {
        // A use of a field, by which the counts are known to be those of the state.
        let _ = &self.moment;
        self.wake_noted(object);
        self.wake_all(object);
    }

    /// The same by a look at every live thread, where some still wait.
    fn wake_all(&mut self, object: ObjectId)
        ensures was { IsSound self.old }
        ensures left { self.new ≡ all_left self.old object }
    {
        if self.waiting(object) == 0 {
            return;
        }
        self.objects[object.0 as usize].waiting = 0;
        self.threads.notify_all(object);
    }

    /// Those of the noted threads that wait on the object leave its wait set, notified, the last
    /// one first, until it is empty. A note of a thread that no longer waits is dropped. No more
    /// notes are looked at than take the time of a look at every live thread, and none where more
    /// threads wait than that.
    fn wake_noted(&mut self, object: ObjectId)
        ensures { emptied self.new object ≡ emptied self.old object }
    {
        let mut left = self.waiters.len();
        let last = left.saturating_sub(self.threads.count() / STEPS_A_NOTE);
        if self.waiting(object) > (left - last) as u64 {
            return;
        }
        'noted: while left > last && self.waiting(object) > 0 {
            left -= 1;
            let Some(thread) = self.waiters.get(left).copied() else {
                return;
            };
            if !self.wake_unless_elsewhere(thread, object) && left < self.waiters.len() {
                self.waiters.swap_remove(left);
            }
        }
    }

    /// The thread leaves the wait set of the object, notified, if it is in there. Answers whether
    /// it waits on another object.
    fn wake_unless_elsewhere(&mut self, thread: ThreadId, object: ObjectId) -> bool
        ensures { emptied self.new object ≡ emptied self.old object }
    {
        let Some(live) = self.threads.get(thread) else {
            return false;
        };
        // The deadline is named for the proof, which tells by it what the thread was doing.
        let Doing::Waits {
            object: awaited,
            holds,
            deadline: _deadline,
        } = live.act
        else {
            return false;
        };
        if awaited.0 != object.0 {
            return true;
        }
        let back = Doing::Back {
            object: awaited,
            holds,
            why: Why::Notified,
        };
        self.put(thread, live.flag, back);
        false
    }
}
