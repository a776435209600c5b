//! The calls of a course that are made whole, with nobody in between.

use crate::JobFault;
use crate::courses::Course;
use fast_path::Call;
use fat_monitor::Reply;
use lock_word::{ObjectId, ThreadId};
use step_core::Move;

impl Course {
    pub fn enter(&mut self, thread: ThreadId, object: ObjectId) -> Result<(), JobFault> {
        self.call(thread, Call::Enter(object), 2)?;
        self.made(Move::Lock { thread })?;
        self.reply(thread, Reply::Entered)
    }

    pub fn exit(&mut self, thread: ThreadId, object: ObjectId) -> Result<(), JobFault> {
        self.call(thread, Call::Exit(object), 2)?;
        self.made(Move::Unlock { thread })?;
        self.reply(thread, Reply::Exited)
    }

    /// Begins to wait as the owner, for so many milliseconds.
    pub fn wait(
        &mut self,
        thread: ThreadId,
        object: ObjectId,
        millis: i64,
    ) -> Result<(), JobFault> {
        let call = Call::Wait {
            object,
            millis,
            nanos: 0,
        };
        let times = if self.is_fat(object) { 2 } else { 4 };
        self.call(thread, call, times)?;
        self.set_fat(object);
        self.made(Move::Wait { thread })
    }

    /// The loads and actions of a call on a monitor that only looks at it.
    fn looks(&self, object: ObjectId) -> u32 {
        if self.is_fat(object) { 2 } else { 1 }
    }

    /// Notifies as the owner, which chooses this thread.
    pub fn notify(
        &mut self,
        thread: ThreadId,
        object: ObjectId,
        chosen: Option<ThreadId>,
    ) -> Result<(), JobFault> {
        self.call(thread, Call::Notify(object), self.looks(object))?;
        self.made(Move::Notify { thread, chosen })?;
        self.reply(thread, Reply::Notified)
    }

    pub fn notify_all(&mut self, thread: ThreadId, object: ObjectId) -> Result<(), JobFault> {
        self.call(thread, Call::NotifyAll(object), self.looks(object))?;
        self.made(Move::NotifyAll { thread })?;
        self.reply(thread, Reply::Notified)
    }

    pub fn holds(
        &mut self,
        thread: ThreadId,
        object: ObjectId,
        reply: Reply,
    ) -> Result<(), JobFault> {
        self.call(thread, Call::Holds(object), self.looks(object))?;
        self.made(Move::Ask { thread })?;
        self.reply(thread, reply)
    }

    pub fn interrupt(&mut self, thread: ThreadId, target: ThreadId) -> Result<(), JobFault> {
        self.call(thread, Call::Interrupt(target), 1)?;
        self.made(Move::Interrupt { thread })?;
        self.reply(thread, Reply::Done)
    }

    pub fn is_interrupted(
        &mut self,
        thread: ThreadId,
        target: ThreadId,
        reply: Reply,
    ) -> Result<(), JobFault> {
        self.call(thread, Call::IsInterrupted(target), 1)?;
        self.made(Move::Ask { thread })?;
        self.reply(thread, reply)
    }

    pub fn interrupted(&mut self, thread: ThreadId, reply: Reply) -> Result<(), JobFault> {
        self.call(thread, Call::Interrupted, 1)?;
        self.made(Move::TestClear { thread })?;
        self.reply(thread, reply)
    }

    /// An exit of a thread that is not the owner.
    pub fn exit_unowned(&mut self, thread: ThreadId, object: ObjectId) -> Result<(), JobFault> {
        self.call(thread, Call::Exit(object), self.looks(object))?;
        self.made(Move::Illegal { thread })?;
        self.reply(thread, Reply::IllegalMonitorState)
    }

    /// Locks again after a wait, and returns.
    pub fn relock(&mut self, thread: ThreadId, reply: Reply) -> Result<(), JobFault> {
        self.made(Move::Relock { thread })?;
        self.go(thread, 1)?;
        self.reply(thread, reply)
    }

    /// Ends, which looks at each object, and is attached again.
    pub fn end(&mut self, thread: ThreadId) -> Result<(), JobFault> {
        self.call(thread, Call::End, self.shape.objects.wrapping_add(1))?;
        self.made(Move::End { thread })?;
        self.reply(thread, Reply::Ended)?;
        self.attach(thread)
    }
}
