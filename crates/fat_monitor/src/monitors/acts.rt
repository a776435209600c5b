//! The actions of an attached thread, and what they share: how a monitor is handed on, and how a
//! thread leaves a line.

ghost use Rattle.std.specs.Prelude.{true, false, ◌≡◌, ℕ, ◌<◌, length, Some, None, Option, Ok};
ghost use Rattle.lock_word.specs.declared.ThreadId.{ThreadId};
ghost use Rattle.wait_lines.specs.declared.Role.{Role};
ghost use Rattle.fat_monitor.specs.declared.actions.Action.{Action};
ghost use Rattle.fat_monitor.specs.declared.actions.Answer.{Answer};
ghost use Rattle.fat_monitor.specs.declared.actions.Post.{Post};
ghost use Rattle.wait_lines.specs.Lines.{key};
ghost use Rattle.fat_monitor.specs.FatState.{post_at, post_of, IsAttached, owns_one, monitor_at};
ghost use Rattle.fat_monitor.specs.FatState.{is_owned_by, first_of, line_key_of, ComesBack};
ghost use Rattle.fat_monitor.specs.Acting.{outcome_of, answers, after_hand_on, after_grant, after_removal, granted_by_removal};

use super::Fats;
use crate::replies::{granted_to, is_owner, reply_with, tell, yes_or_no};
use crate::times::{are_good, deadline};
use crate::{ActFault, Answer, Cause, Done, Post, Reply, Why};
use lock_word::ThreadId;
use wait_lines::Role;

impl Fats {
    #[inline(always)]
    pub(super) fn enter(&mut self, thread: ThreadId, monitor: u32) -> Done
        requires out { post_of self.old thread ≡ Some Post.Out }
        requires bound { monitor < length self.old.monitors }
        ensures { record { answer = Ok result; after = self.new }
            ≡ outcome_of self.old thread (Action.Enter monitor) }
    {
        let Some(owner) = self.owner(monitor) else {
            self.monitors[monitor as usize].give(Some(thread), 1);
            self.posts.hand_over(None, Some(thread));
            return reply_with(Reply::Entered);
        };
        if owner.0 != thread.0 {
            let node = self.lines.join(thread, monitor, Role::Entry);
            self.posts.park(thread, Post::Entering { monitor }, node);
            return tell(Answer::Parked, None, None);
        }
        let holds = self.holds(monitor);
        if holds == u16::MAX {
            return reply_with(Reply::Refused(Cause::TooDeep));
        }
        self.monitors[monitor as usize].give(Some(owner), holds + 1);
        reply_with(Reply::Entered)
    }

    #[inline(always)]
    pub(super) fn exit(&mut self, thread: ThreadId, monitor: u32) -> Done
        requires out { post_of self.old thread ≡ Some Post.Out }
        requires bound { monitor < length self.old.monitors }
        ensures { record { answer = Ok result; after = self.new }
            ≡ outcome_of self.old thread (Action.Exit monitor) }
    {
        if !self.is_owner(monitor, thread) {
            return reply_with(Reply::IllegalMonitorState);
        }
        let holds = self.holds(monitor);
        if holds > 1 {
            self.monitors[monitor as usize].give(Some(thread), holds - 1);
            return reply_with(Reply::Exited);
        }
        let next = self.hand_on(monitor);
        tell(Answer::Reply(Reply::Exited), next, None)
    }

    pub(super) fn wait(&mut self, thread: ThreadId, monitor: u32, millis: i64, nanos: i32) -> Done
        requires out { post_of self.old thread ≡ Some Post.Out }
        requires bound { monitor < length self.old.monitors }
        ensures { record { answer = Ok result; after = self.new }
            ≡ outcome_of self.old thread (Action.Wait monitor millis nanos) }
    {
        if !self.is_owner(monitor, thread) {
            return reply_with(Reply::IllegalMonitorState);
        }
        if !are_good(millis, nanos) {
            return reply_with(Reply::IllegalArgument);
        }
        if self.posts.flag(thread) {
            self.posts.set_flag(thread, false);
            return reply_with(Reply::Interrupted);
        }
        let post = Post::Waiting {
            monitor,
            holds: self.monitors[monitor as usize].holds,
            deadline: deadline(self.moment, millis, nanos),
        };
        let granted = self.hand_on(monitor);
        let node = self.lines.join(thread, monitor, Role::Waiting);
        self.posts.park(thread, post, node);
        tell(Answer::Parked, granted, None)
    }

    pub(super) fn notify(&mut self, thread: ThreadId, monitor: u32) -> Done
        ensures { record { answer = Ok result; after = self.new }
            ≡ outcome_of self.old thread (Action.Notify monitor) }
    {
        if !self.is_owner(monitor, thread) {
            return reply_with(Reply::IllegalMonitorState);
        }
        let chosen = self.lines.first(monitor, Role::Waiting);
        if let Some(waiter) = chosen {
            let _ = self.call_back(waiter, Why::Notified);
        }
        tell(Answer::Reply(Reply::Notified), None, chosen)
    }

    pub(super) fn notify_all(&mut self, thread: ThreadId, monitor: u32) -> Done
        ensures { record { answer = Ok result; after = self.new }
            ≡ outcome_of self.old thread (Action.NotifyAll monitor) }
    {
        if !self.is_owner(monitor, thread) {
            return reply_with(Reply::IllegalMonitorState);
        }
        while let Some(first) = self.lines.first(monitor, Role::Waiting) {
            let _ = self.call_back(first, Why::Notified);
        }
        reply_with(Reply::Notified)
    }

    /// Sets the flag of a thread, and takes it out of the wait set that it stands in.
    pub(super) fn interrupt(&mut self, target: ThreadId) -> Done
        ensures { (t : ThreadId) → record { answer = Ok result; after = self.new }
            ≡ outcome_of self.old t (Action.Interrupt target) }
    {
        let Some(post) = self.posts.get(target) else {
            return reply_with(Reply::Refused(Cause::NoThread));
        };
        self.posts.set_flag(target, true);
        let Post::Waiting { .. } = post else {
            return reply_with(Reply::Done);
        };
        let granted = self.call_back(target, Why::Interrupted);
        tell(Answer::Reply(Reply::Done), granted, None)
    }

    /// Answers whether the thread is interrupted, and clears its flag.
    pub(super) fn test_and_clear(&mut self, thread: ThreadId) -> Done
        requires { IsAttached self.old thread }
        ensures { record { answer = Ok result; after = self.new }
            ≡ outcome_of self.old thread Action.Interrupted }
    {
        let flag = self.posts.flag(thread);
        self.posts.set_flag(thread, false);
        reply_with(yes_or_no(flag))
    }

    /// Answers whether that thread is interrupted.
    pub(super) fn is_interrupted(&self, target: ThreadId) -> Done
        ensures { (t : ThreadId) → record { answer = Ok result; after = self.now }
            ≡ outcome_of self.now t (Action.IsInterrupted target) }
    {
        match self.flag(target) {
            Some(flag) => reply_with(yes_or_no(flag)),
            None => reply_with(Reply::Refused(Cause::NoThread)),
        }
    }

    /// Takes the thread out of the wait set that it stands in, if its deadline has come.
    pub(super) fn expire(&mut self, thread: ThreadId) -> Result<Done, ActFault>
        ensures { record { answer = result; after = self.new }
            ≡ outcome_of self.old thread Action.Expire }
    {
        let Some(
            Post::Waiting {
                deadline: Some(deadline),
                ..
            },
        ) = self.posts.get(thread)
        else {
            return Err(ActFault::NotDue);
        };
        if u128::from(self.moment) < deadline {
            return Err(ActFault::NotDue);
        }
        Ok(self.end_wait(thread, Why::Elapsed))
    }

    /// Takes the thread out of the wait set that it stands in, for no reason that a program can
    /// see.
    pub(super) fn wake(&mut self, thread: ThreadId) -> Result<Done, ActFault>
        ensures { record { answer = result; after = self.new }
            ≡ outcome_of self.old thread Action.Spurious }
    {
        let Some(Post::Waiting { .. }) = self.posts.get(thread) else {
            return Err(ActFault::NotWaiting);
        };
        Ok(self.end_wait(thread, Why::Spurious))
    }

    /// Ends the wait of a thread by itself, for this reason.
    fn end_wait(&mut self, thread: ThreadId, why: Why) -> Done
        requires waits { (m : ℕ) × (n : ℕ) × (d : Option ℕ)
            × (post_of self.old thread ≡ Some (Post.Waiting m n d)) }
        ensures { record { answer = Ok result; after = self.new }
            ≡ answers (after_removal self.old thread why (post_at self.old thread)) Answer.Quiet
            (granted_by_removal self.old thread (post_at self.old thread)) None }
    {
        let granted = self.call_back(thread, why);
        tell(Answer::Quiet, granted, None)
    }

    /// Takes the reply that the thread was granted, if it was granted one.
    pub(super) fn collect(&mut self, thread: ThreadId) -> Result<Done, ActFault>
        requires { IsAttached self.old thread }
        ensures { record { answer = result; after = self.new }
            ≡ outcome_of self.old thread Action.Collect }
    {
        let Some(Post::Granted(reply)) = self.posts.get(thread) else {
            return Err(ActFault::Parked);
        };
        self.posts.set(thread, Post::Out);
        Ok(reply_with(reply))
    }

    /// Removes an attached thread, unless it owns a monitor.
    pub(super) fn end(&mut self, thread: ThreadId) -> Done
        requires { post_of self.old thread ≡ Some Post.Out }
        ensures { record { answer = Ok result; after = self.new }
            ≡ outcome_of self.old thread Action.End }
    {
        if self.owns_one(thread) {
            return reply_with(Reply::Refused(Cause::StillOwner));
        }
        self.remove(thread);
        reply_with(Reply::Ended)
    }

    /// Gives a monitor to the first of its entry line, if there is one, or to nobody.
    fn hand_on(&mut self, monitor: u32) -> Option<ThreadId>
        requires { monitor < length self.old.monitors }
        ensures granted { result ≡ first_of self.old monitor Role.Entry }
        ensures after { self.new
            ≡ after_hand_on self.old monitor (first_of self.old monitor Role.Entry) }
    {
        let Some(next) = self.lines.first(monitor, Role::Entry) else {
            let owner = self.owner(monitor);
            self.monitors[monitor as usize].give(None, 0);
            self.posts.hand_over(owner, None);
            return None;
        };
        let post = self.posts.get(next).unwrap_or(Post::Out);
        self.grant(monitor, next, post);
        Some(next)
    }

    /// Makes a thread that stands in a line of a monitor its owner, with the reply that its post,
    /// or the one that it is to have, comes back to.
    fn grant(&mut self, monitor: u32, thread: ThreadId, post: Post)
        requires bound { monitor < length self.old.monitors }
        requires stands { (r : Role)
            × (line_key_of (post_at self.old thread) ≡ Some (key monitor r)) }
        requires comes { ComesBack post }
        ensures { (r : Role) → line_key_of (post_at self.old thread) ≡ Some (key monitor r)
            → self.new ≡ after_grant self.old monitor thread post r }
    {
        let owner = self.owner(monitor);
        self.lines.leave_at(self.posts.node(thread));
        let (holds, reply) = granted_to(post);
        self.monitors[monitor as usize].give(Some(thread), holds);
        self.posts.hand_over(owner, Some(thread));
        if let Reply::Interrupted = reply {
            self.posts.set_flag(thread, false);
        }
        self.posts.set(thread, Post::Granted(reply));
    }

    /// Takes a thread out of its wait set: behind an owner it goes to the end of the entry line,
    /// and a monitor that nobody owns it gets at once. It answers the thread where it got the
    /// monitor.
    fn call_back(&mut self, thread: ThreadId, why: Why) -> Option<ThreadId>
        requires waits { (m : ℕ) × (n : ℕ) × (d : Option ℕ)
            × (post_of self.old thread ≡ Some (Post.Waiting m n d)) }
        ensures after { self.new ≡ after_removal self.old thread why (post_at self.old thread) }
        ensures granted { result ≡ granted_by_removal self.old thread (post_at self.old thread) }
    {
        let Some(Post::Waiting { monitor, holds, .. }) = self.posts.get(thread) else {
            unreachable!();
        };
        let back = Post::Back {
            monitor,
            holds,
            why,
        };
        if self.owner(monitor).is_none() {
            self.grant(monitor, thread, back);
            return Some(thread);
        }
        self.lines.leave_at(self.posts.node(thread));
        let node = self.lines.join(thread, monitor, Role::Entry);
        self.posts.park(thread, back, node);
        None
    }

    /// Whether a thread owns a monitor.
    fn owns_one(&self, thread: ThreadId) -> bool
        ensures { result ≡ owns_one self.now.monitors thread }
    {
        self.posts.owned(thread) != 0
    }

    /// Whether this thread owns this monitor.
    pub(super) fn is_owner(&self, monitor: u32, thread: ThreadId) -> bool
        ensures { result ≡ is_owned_by (monitor_at self.now monitor).owner thread }
    {
        is_owner(self.owner(monitor), thread)
    }
}
