//! Courses as histories.

use crate::JobFault;
use crate::courses::{Course, Shape};
use fast_path::Call;
use fat_monitor::{Cause, Reply};
use itoa::Buffer;
use lock_word::ThreadId;
use std::alloc::Global;
use step_core::Move;

/// How a move is spelled.
#[derive(Clone, Copy, PartialEq, Eq)]
pub enum Hand {
    /// As the service writes it: compact, with keys in the order of their bytes.
    Own,
    /// As a stranger may: with blanks, the thread first, and now and then an escape.
    Stranger,
}

/// A history, as far as it is written.
#[derive(Drop)]
pub struct History {
    pub text: String,
    digits: Buffer,
    hand: Hand,
}

fn reply_word(reply: Reply) -> &'static str {
    match reply {
        Reply::Entered => "Entered",
        Reply::Exited => "Exited",
        Reply::WaitOver => "WaitOver",
        Reply::Interrupted => "Interrupted",
        Reply::Notified => "Notified",
        Reply::Yes => "Yes",
        Reply::No => "No",
        Reply::Done => "Done",
        Reply::Ended => "Ended",
        Reply::IllegalMonitorState => "IllegalMonitorState",
        Reply::IllegalArgument => "IllegalArgument",
        Reply::Refused(_) => "Refused",
    }
}

fn cause_word(cause: Cause) -> &'static str {
    match cause {
        Cause::NoMonitor => "NoMonitor",
        Cause::Memory => "Memory",
        Cause::TooDeep => "TooDeep",
        Cause::StillOwner => "StillOwner",
        Cause::NoThread => "NoThread",
    }
}

impl History {
    /// The first line of a history.
    pub fn new(alloc: Global, objects: u32, hand: Hand) -> Result<History, JobFault> {
        let mut history = History {
            text: String::new(alloc),
            digits: Buffer::new(),
            hand,
        };
        history.text.push_str("{\"objects\":")?;
        history.put_number(u64::from(objects))?;
        history.text.push_str("}\n")?;
        Ok(history)
    }

    fn put(&mut self, text: &str) -> Result<(), JobFault> {
        Ok(self.text.push_str(text)?)
    }

    fn put_number(&mut self, number: u64) -> Result<(), JobFault> {
        self.text.push_str(self.digits.format(number))?;
        Ok(())
    }

    /// Ends a move with its thread; a stranger wrote that first.
    fn end(&mut self, thread: ThreadId) -> Result<(), JobFault> {
        if self.hand == Hand::Own {
            self.put(",\"thread\":")?;
            self.put_number(u64::from(thread.0))?;
        }
        self.put("}\n")
    }

    fn begin(&mut self, thread: ThreadId) -> Result<(), JobFault> {
        if self.hand == Hand::Own {
            return self.put("{");
        }
        self.put("{ \"thread\" : ")?;
        self.put_number(u64::from(thread.0))?;
        self.put(" , ")
    }

    fn put_plain(&mut self, name: &str, thread: ThreadId) -> Result<(), JobFault> {
        self.begin(thread)?;
        self.put("\"move\":\"")?;
        self.put(name)?;
        self.put("\"")?;
        self.end(thread)
    }

    /// A call with what it is about, which is none, an object, or a target.
    fn put_call(
        &mut self,
        verb: &str,
        about: &str,
        number: u32,
        thread: ThreadId,
    ) -> Result<(), JobFault> {
        self.begin(thread)?;
        self.put("\"call\":\"")?;
        self.put(verb)?;
        self.put("\",\"move\":\"Call\"")?;
        if !about.is_empty() {
            self.put(about)?;
            self.put_number(u64::from(number))?;
        }
        self.end(thread)
    }

    fn put_wait(&mut self, number: u32, millis: i64, thread: ThreadId) -> Result<(), JobFault> {
        self.begin(thread)?;
        self.put("\"call\":\"Wait\",\"millis\":")?;
        self.put(if millis == 0 { "0" } else { "1" })?;
        self.put(",\"move\":\"Call\",\"nanos\":0,\"object\":")?;
        self.put_number(u64::from(number))?;
        self.end(thread)
    }

    fn put_made_call(&mut self, call: Call, thread: ThreadId) -> Result<(), JobFault> {
        let on = ",\"object\":";
        let to = ",\"target\":";
        match call {
            Call::Enter(object) => self.put_call("Enter", on, object.0, thread),
            Call::Exit(object) => self.put_call("Exit", on, object.0, thread),
            Call::Notify(object) => self.put_call("Notify", on, object.0, thread),
            Call::NotifyAll(object) => self.put_call("NotifyAll", on, object.0, thread),
            Call::Holds(object) => self.put_call("Holds", on, object.0, thread),
            Call::Wait { object, millis, .. } => self.put_wait(object.0, millis, thread),
            Call::Interrupt(target) => self.put_call("Interrupt", to, target.0, thread),
            Call::IsInterrupted(target) => self.put_call("IsInterrupted", to, target.0, thread),
            Call::Interrupted => self.put_call("Interrupted", "", 0, thread),
            Call::End => self.put_call("End", "", 0, thread),
        }
    }

    fn put_return(&mut self, reply: Reply, thread: ThreadId) -> Result<(), JobFault> {
        self.begin(thread)?;
        if let Reply::Refused(cause) = reply {
            self.put("\"cause\":\"")?;
            self.put(cause_word(cause))?;
            self.put("\",")?;
        }
        // the escape is an R
        let strange = self.hand == Hand::Stranger && reply == Reply::Done;
        self.put(if strange {
            "\"move\":\"\\u0052eturn\""
        } else {
            "\"move\":\"Return\""
        })?;
        self.put(",\"reply\":\"")?;
        self.put(reply_word(reply))?;
        self.put("\"")?;
        self.end(thread)
    }

    fn put_notify(&mut self, chosen: Option<ThreadId>, thread: ThreadId) -> Result<(), JobFault> {
        self.begin(thread)?;
        self.put("\"chosen\":")?;
        match chosen {
            Some(chosen) => self.put_number(u64::from(chosen.0))?,
            None => self.put("null")?,
        }
        self.put(",\"move\":\"Notify\"")?;
        self.end(thread)
    }

    fn put_refuse(&mut self, cause: Cause, thread: ThreadId) -> Result<(), JobFault> {
        self.begin(thread)?;
        self.put("\"cause\":\"")?;
        self.put(cause_word(cause))?;
        self.put("\",\"move\":\"Refuse\"")?;
        self.end(thread)
    }

    fn put_time(&mut self, now: u64) -> Result<(), JobFault> {
        self.put("{\"move\":\"Time\",\"now\":")?;
        self.put_number(now)?;
        self.put("}\n")
    }

    /// Adds the line of a move.
    pub fn put_move(&mut self, made: Move) -> Result<(), JobFault> {
        match made {
            Move::Attach { thread } => self.put_plain("Attach", thread),
            Move::Lock { thread } => self.put_plain("Lock", thread),
            Move::Unlock { thread } => self.put_plain("Unlock", thread),
            Move::Illegal { thread } => self.put_plain("Illegal", thread),
            Move::BadArgument { thread } => self.put_plain("BadArgument", thread),
            Move::Early { thread } => self.put_plain("Early", thread),
            Move::Wait { thread } => self.put_plain("Wait", thread),
            Move::NotifyAll { thread } => self.put_plain("NotifyAll", thread),
            Move::Interrupt { thread } => self.put_plain("Interrupt", thread),
            Move::TestClear { thread } => self.put_plain("TestClear", thread),
            Move::Ask { thread } => self.put_plain("Ask", thread),
            Move::Expire { thread } => self.put_plain("Expire", thread),
            Move::Spurious { thread } => self.put_plain("Spurious", thread),
            Move::Relock { thread } => self.put_plain("Relock", thread),
            Move::End { thread } => self.put_plain("End", thread),
            Move::Call { thread, call } => self.put_made_call(call, thread),
            Move::Return { thread, reply } => self.put_return(reply, thread),
            Move::Notify { thread, chosen } => self.put_notify(chosen, thread),
            Move::Refuse { thread, cause } => self.put_refuse(cause, thread),
            Move::Time { now } => self.put_time(now),
        }
    }
}

/// The history of a course of this shape.
pub fn history_of(alloc: Global, shape: Shape, hand: Hand, seed: u64) -> Result<String, JobFault> {
    let course = Course::play(alloc, shape, seed)?;
    let mut history = History::new(alloc, shape.objects, hand)?;
    for made in &course.moves {
        history.put_move(*made)?;
    }
    Ok(history.text)
}

/// A history in which one thread waits and another wakes all, so many times, beside threads that
/// do nothing.
pub fn crowd_of(alloc: Global, threads: u32, rounds: u32, seed: u64) -> Result<String, JobFault> {
    let shape = Shape {
        mix: crate::courses::Mix::Every,
        objects: 8,
        used: 8,
        threads,
        spread: true,
        steps: 0,
    };
    let mut course = Course::new(alloc, shape, seed)?;
    for _ in 0..rounds {
        let (waiter, thread) = course.two_threads();
        let object = course.object();
        course.enter(waiter, object)?;
        course.wait(waiter, object, 0)?;
        course.enter(thread, object)?;
        course.notify_all(thread, object)?;
        course.exit(thread, object)?;
        course.relock(waiter, Reply::WaitOver)?;
        course.exit(waiter, object)?;
    }
    let mut history = History::new(alloc, shape.objects, Hand::Own)?;
    for made in &course.moves {
        history.put_move(*made)?;
    }
    Ok(history.text)
}
