//! The calls of the service, and what each is about.

ghost use Rattle.std.specs.Prelude.{◌≡◌};
ghost use Rattle.fast_path.specs.Calls.{object_of, subject_of, call_of, call_about};

use lock_word::{ObjectId, ThreadId};

/// What a thread asks of the service.
#[derive(Clone, Copy, PartialEq, Eq, Debug)]
pub enum Call {
    /// Lock the object (`monitorenter`; JLS SE 8, 17.1).
    Enter(ObjectId),
    /// Unlock it once (`monitorexit`).
    Exit(ObjectId),
    /// Give up all locks of it and wait to be notified, for this time at most (`Object.wait`; JLS
    /// SE 8, 17.2.1): milliseconds from 0 on and nanoseconds 0 to 999,999, where 0 and 0 mean no
    /// limit.
    Wait {
        object: ObjectId,
        millis: i64,
        nanos: i32,
    },
    /// Wake one thread that waits on it, if one does (`Object.notify`; JLS SE 8, 17.2.2).
    Notify(ObjectId),
    /// Wake all threads that wait on it (`Object.notifyAll`).
    NotifyAll(ObjectId),
    /// Does the thread own the object (`Thread.holdsLock`)?
    Holds(ObjectId),
    /// Interrupt this thread (`Thread.interrupt`; JLS SE 8, 17.2.3).
    Interrupt(ThreadId),
    /// Is the thread interrupted? It is not any more then (`Thread.interrupted`).
    Interrupted,
    /// Is this thread interrupted (`Thread.isInterrupted`)?
    IsInterrupted(ThreadId),
    /// Be live no longer.
    End,
}

/// What a call asks of the monitor of an object.
#[derive(Clone, Copy)]
pub enum Operation {
    Enter,
    Exit,
    Wait { millis: i64, nanos: i32 },
    Notify,
    NotifyAll,
    Holds,
}

/// A call on the monitor of an object.
#[derive(Clone, Copy)]
pub struct MonitorCall {
    pub object: ObjectId,
    pub operation: Operation,
}

/// A call about the interrupts of threads.
#[derive(Clone, Copy)]
pub enum InterruptCall {
    Interrupt(ThreadId),
    Interrupted,
    IsInterrupted(ThreadId),
}

/// A call, by what it is about.
#[derive(Clone, Copy)]
pub enum Subject {
    /// The monitor of an object.
    Monitor(MonitorCall),
    /// The interrupts of threads.
    Interrupt(InterruptCall),
    /// The end of the thread that calls.
    End,
}

impl Call {
    /// What the call is about.
    pub fn subject(self) -> Subject
        ensures { result ≡ subject_of self }
    {
        let (object, operation) = match self {
            Call::Enter(object) => (object, Operation::Enter),
            Call::Exit(object) => (object, Operation::Exit),
            Call::Wait {
                object,
                millis,
                nanos,
            } => (object, Operation::Wait { millis, nanos }),
            Call::Notify(object) => (object, Operation::Notify),
            Call::NotifyAll(object) => (object, Operation::NotifyAll),
            Call::Holds(object) => (object, Operation::Holds),
            Call::Interrupt(target) => return Subject::Interrupt(InterruptCall::Interrupt(target)),
            Call::Interrupted => return Subject::Interrupt(InterruptCall::Interrupted),
            Call::IsInterrupted(target) => return Subject::Interrupt(InterruptCall::IsInterrupted(
                target,
            )),
            Call::End => return Subject::End,
        };
        Subject::Monitor(MonitorCall { object, operation })
    }

    /// The object that the call names; None for a call about interrupts, and for
    /// [`End`](Call::End).
    pub fn object(self) -> Option<ObjectId>
        ensures { result ≡ object_of self }
    {
        match self.subject() {
            Subject::Monitor(call) => Some(call.object),
            Subject::Interrupt(_) | Subject::End => None,
        }
    }
}

impl MonitorCall {
    /// The same call, among all calls of the service.
    pub fn call(self) -> Call
        ensures { result ≡ call_of self }
    {
        let object = self.object;
        match self.operation {
            Operation::Enter => Call::Enter(object),
            Operation::Exit => Call::Exit(object),
            Operation::Wait { millis, nanos } => Call::Wait {
                object,
                millis,
                nanos,
            },
            Operation::Notify => Call::Notify(object),
            Operation::NotifyAll => Call::NotifyAll(object),
            Operation::Holds => Call::Holds(object),
        }
    }
}

impl InterruptCall {
    /// The same call, among all calls of the service.
    pub fn call(self) -> Call
        ensures { result ≡ call_about self }
    {
        match self {
            InterruptCall::Interrupt(target) => Call::Interrupt(target),
            InterruptCall::Interrupted => Call::Interrupted,
            InterruptCall::IsInterrupted(target) => Call::IsInterrupted(target),
        }
    }
}
