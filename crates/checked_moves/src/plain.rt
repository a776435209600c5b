//! A plain checker of moves, of which nothing is proved but that it returns. It was written from
//! the rows of `Steps` in `step_core/specs/Machine.antt` alone, a function for each row, and walks
//! over all threads and all objects where it looks for one.

mod rows;

use std::alloc::{AllocError, Global};
use step_core::{Call, Cause, Doing, Move, ObjectId, Reply, ThreadId, Why};

/// A live thread.
#[derive(Clone, Copy)]
pub struct Live {
    pub thread: ThreadId,
    pub flag: bool,
    pub doing: Doing,
}

/// The monitor of an object.
#[derive(Clone, Copy)]
pub struct Held {
    pub owner: Option<ThreadId>,
    pub count: u16,
}

const FREE: Held = Held {
    owner: None,
    count: 0,
};

/// A state of the abstract machine.
#[derive(Drop)]
pub struct Machine {
    threads: Vec<Live>,
    // By object.
    monitors: Vec<Held>,
    moment: u64,
}

impl Machine {
    /// The opening state.
    pub fn new(alloc: Global, objects: usize) -> Result<Machine, AllocError> {
        Ok(Machine {
            threads: Vec::new(alloc),
            monitors: vec![in alloc; FREE; objects]?,
            moment: 0,
        })
    }

    pub fn threads(&self) -> &[Live] {
        self.threads.as_slice()
    }

    pub fn monitors(&self) -> &[Held] {
        self.monitors.as_slice()
    }

    pub fn moment(&self) -> u64 {
        self.moment
    }

    /// A live thread.
    pub fn live(&self, thread: ThreadId) -> Option<Live> {
        for live in self.threads.iter() {
            if live.thread == thread {
                return Some(*live);
            }
        }
        None
    }

    /// Makes a move. Where it is not lawful, the state stays and the answer is false.
    pub fn take(&mut self, made: Move) -> Result<bool, AllocError> {
        let lawful = match made {
            Move::Attach { thread } => return self.attach(thread),
            Move::Call { thread, call } => self.call(thread, call),
            Move::Return { thread, reply } => self.returns(thread, reply),
            Move::Lock { thread } => self.lock(thread),
            Move::Unlock { thread } => self.unlock(thread),
            Move::Illegal { thread } => self.illegal(thread),
            Move::BadArgument { thread } => self.bad_argument(thread),
            Move::Early { thread } => self.early(thread),
            Move::Wait { thread } => self.wait(thread),
            Move::Notify {
                thread,
                chosen: Some(chosen),
            } => self.notify(thread, chosen),
            Move::Notify {
                thread,
                chosen: None,
            } => self.notify_nobody(thread),
            Move::NotifyAll { thread } => self.notify_all(thread),
            Move::Interrupt { thread } => self.interrupt(thread),
            Move::TestClear { thread } => self.test_clear(thread),
            Move::Expire { thread } => self.expire(thread),
            Move::Spurious { thread } => self.wake(thread),
            Move::Relock { thread } => self.relock(thread),
            Move::Ask { thread } => self.ask(thread),
            Move::Refuse { thread, cause } => self.refuse(thread, cause),
            Move::End { thread } => self.end(thread),
            Move::Time { now } => self.time(now),
        };
        Ok(lawful.is_some())
    }

    /// The call that a thread has made and that has no answer yet, and its flag.
    fn calls(&self, thread: ThreadId) -> Option<(bool, Call)> {
        let live = self.live(thread)?;
        match live.doing {
            Doing::Wants(call) => Some((live.flag, call)),
            _ => None,
        }
    }

    /// What a thread wants that wants to wait on an object of its own.
    fn wish(&self, thread: ThreadId) -> Option<Wish> {
        let (flag, call) = self.calls(thread)?;
        let Call::Wait {
            object,
            millis,
            nanos,
        } = call
        else {
            return None;
        };
        let monitor = self.owned(object, thread)?;
        Some(Wish {
            flag,
            object,
            count: monitor.count,
            millis,
            nanos,
        })
    }

    /// The monitor of an object that exists.
    pub fn monitor(&self, object: ObjectId) -> Option<Held> {
        self.monitors.get(object.0 as usize).copied()
    }

    /// The same, where this thread owns it.
    fn owned(&self, object: ObjectId, thread: ThreadId) -> Option<Held> {
        let monitor = self.monitor(object)?;
        if monitor.owner == Some(thread) {
            Some(monitor)
        } else {
            None
        }
    }

    fn owns_one(&self, thread: ThreadId) -> bool {
        for monitor in self.monitors.iter() {
            if monitor.owner == Some(thread) {
                return true;
            }
        }
        false
    }

    /// Writes the flag of a live thread, and what it is doing.
    fn put(&mut self, thread: ThreadId, flag: bool, doing: Doing) {
        for live in self.threads.iter_mut() {
            if live.thread == thread {
                live.flag = flag;
                live.doing = doing;
            }
        }
    }

    /// The thread's call has this reply.
    fn answer(&mut self, thread: ThreadId, flag: bool, reply: Reply) {
        self.put(thread, flag, Doing::Has(reply));
    }

    /// The thread owns the object, this often; not at all means that nobody does.
    fn give(&mut self, object: ObjectId, thread: ThreadId, count: u16) {
        if let Some(monitor) = self.monitors.get_mut(object.0 as usize) {
            monitor.owner = if count > 0 { Some(thread) } else { None };
            monitor.count = count;
        }
    }
}

/// What a thread wants that wants to wait on an object of its own, which it holds so often.
#[derive(Clone, Copy)]
struct Wish {
    flag: bool,
    object: ObjectId,
    count: u16,
    millis: i64,
    nanos: i32,
}

/// What a waiting thread is doing once it has left the wait set, where it waits on this object if
/// one is named; None for a thread that does not wait there.
fn awake(doing: Doing, on: Option<ObjectId>, why: Why) -> Option<Doing> {
    let Doing::Waits { object, holds, .. } = doing else {
        return None;
    };
    if on == None || on == Some(object) {
        Some(Doing::Back { object, holds, why })
    } else {
        None
    }
}

fn yes_or_no(answer: bool) -> Reply {
    if answer { Reply::Yes } else { Reply::No }
}

/// Whether the arguments of a wait are in their ranges.
fn is_good(millis: i64, nanos: i32) -> bool {
    millis >= 0 && nanos >= 0 && nanos <= 999_999
}

/// When a wait that begins at this moment is over: never, if it has no limit. None for arguments
/// out of range.
fn over_at(moment: u64, millis: i64, nanos: i32) -> Option<Option<u128>> {
    let millis = u64::try_from(millis).ok()?;
    let nanos = u32::try_from(nanos).ok()?;
    let time = u128::from(millis)
        .checked_mul(1_000_000)?
        .checked_add(u128::from(nanos))?;
    if time == 0 {
        return Some(None);
    }
    Some(Some(u128::from(moment).checked_add(time)?))
}

/// The object that a call names.
fn named(call: Call) -> Option<ObjectId> {
    match call {
        Call::Enter(object) | Call::Holds(object) => Some(object),
        _ => for_the_owner(call),
    }
}

/// The object whose owner alone may make this call.
fn for_the_owner(call: Call) -> Option<ObjectId> {
    match call {
        Call::Exit(object) | Call::Notify(object) | Call::NotifyAll(object) => Some(object),
        Call::Wait { object, .. } => Some(object),
        _ => None,
    }
}
