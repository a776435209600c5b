//! The calls of the service, and what each does next once it has loaded the header word of its
//! object.
//!
//! This is the fast path: a thin lock is taken, nested and left by one exchange or one store, and
//! only a word that is fat, full or another thread's leads elsewhere.
#![tactic(auto)]

ghost use Rattle.std.specs.Prelude.{◌≡◌, IsSome};
ghost use Rattle.fast_path.specs.declared.calls.MonitorCall.{MonitorCall};
ghost use Rattle.fast_path.specs.declared.calls.Subject.TheVariants.{Monitor};
ghost use Rattle.fast_path.specs.Calls.{object_of, subject_of};
ghost use Rattle.fast_path.specs.Table.{next_of, when_free, when_own, when_anothers};

mod calls;

pub use calls::{Call, InterruptCall, MonitorCall, Operation, Subject};
use fat_monitor::{Reply, are_good};
use lock_word::{Lock, Split};

/// What a loaded word calls for.
#[derive(Clone, Copy, PartialEq, Eq)]
pub enum Next {
    /// The call has its reply.
    Reply(Reply),
    /// Exchange the free word for one with this lock.
    Cas(Lock),
    /// Store a word with this lock.
    Store(Lock),
    /// Bind a fat monitor to the object, which the thread owns thinly.
    Bind,
    /// Act on the fat monitor with this number.
    Fat(u32),
    /// Another thread owns the object thinly: load again.
    Spin,
}

/// What a loaded lock calls for, where `me` is the index of the thread that calls.
pub fn decide(split: Split, call: Call, lock: Lock, me: u16) -> Next
    requires { IsSome (object_of call) }
    ensures { (c : MonitorCall) → subject_of call ≡ Monitor c
        → result ≡ next_of split c.operation lock me }
{
    match call.subject() {
        Subject::Monitor(call) => call.operation.next(split, lock, me),
        Subject::Interrupt(_) | Subject::End => unreachable!(),
    }
}

impl Operation {
    /// What a loaded lock calls for, where `me` is the index of the thread that calls.
    pub fn next(self, split: Split, lock: Lock, me: u16) -> Next
        ensures { result ≡ next_of split self lock me }
    {
        match lock {
            Lock::Free => self.when_free(me),
            Lock::Thin { index, count } if index == me => self.when_own(split, me, count),
            Lock::Thin { .. } => self.when_anothers(),
            Lock::Fat { monitor } => Next::Fat(monitor),
        }
    }

    /// Nobody owns the object.
    fn when_free(self, me: u16) -> Next
        ensures { result ≡ when_free self me }
    {
        let first = Lock::Thin {
            index: me,
            count: 0,
        };
        let illegal = Next::Reply(Reply::IllegalMonitorState);
        match self {
            Operation::Enter => Next::Cas(first),
            Operation::Exit | Operation::Wait { .. } => illegal,
            Operation::Notify | Operation::NotifyAll => illegal,
            Operation::Holds => Next::Reply(Reply::No),
        }
    }

    /// The thread itself owns the object, and holds it `count + 1` times. Nobody waits on an object
    /// that is held thinly, so a notify wakes nobody.
    fn when_own(self, split: Split, me: u16, count: u16) -> Next
        ensures { result ≡ when_own split self me count }
    {
        let thin = |count| Lock::Thin { index: me, count };
        match self {
            Operation::Enter if count < split.greatest_count() => Next::Store(thin(count + 1)),
            Operation::Enter => Next::Bind,
            Operation::Exit if count > 0 => Next::Store(thin(count - 1)),
            Operation::Exit => Next::Store(Lock::Free),
            Operation::Wait { millis, nanos } if are_good(millis, nanos) => Next::Bind,
            Operation::Wait { .. } => Next::Reply(Reply::IllegalArgument),
            Operation::Notify | Operation::NotifyAll => Next::Reply(Reply::Notified),
            Operation::Holds => Next::Reply(Reply::Yes),
        }
    }

    /// Another thread owns the object thinly.
    fn when_anothers(self) -> Next
        ensures { result ≡ when_anothers self }
    {
        let illegal = Next::Reply(Reply::IllegalMonitorState);
        match self {
            Operation::Enter => Next::Spin,
            Operation::Exit | Operation::Wait { .. } => illegal,
            Operation::Notify | Operation::NotifyAll => illegal,
            Operation::Holds => Next::Reply(Reply::No),
        }
    }
}
