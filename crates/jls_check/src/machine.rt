//! The machine behind some moves.

ghost use Rattle.std.specs.Prelude.{◌≡◌, ◌↔◌, OnOk, OnErr, IsErrOf, IfOk, IsSome, Bool, true, not};
ghost use Rattle.std.specs.Prelude.{length};
ghost use Rattle.std.specs.Option.{option_map};
ghost use Rattle.step_core.specs.Machine.{opening, over_at, Steps};
ghost use Rattle.step_core.specs.Lasting.{LastsBut, MoveReturns};
ghost use Rattle.jls_check.specs.LiveThreads.{live_of, some_waits};
ghost use Rattle.jls_check.specs.Monitors.{kept_at, waiting_in, owns_one};
ghost use Rattle.jls_check.specs.MachineState.{state, held_at, owns, opening_machine};
ghost use Rattle.jls_check.specs.MachineState.{IsSound, monitor_of};
ghost use Rattle.jls_check.specs.MachineState.{thread_of};
ghost use Rattle.jls_check.specs.Judging.{IsUnlawful, IsAttach};
ghost use Rattle.jls_check.specs.declared.faults.MoveFault.TheVariants.{Broken, Memory as NoMemory};
ghost use Rattle.fast_path.specs.Calls.{object_of};
ghost use Rattle.jls_check.specs.Taking.{after_move, exists_below, is_good, may_refuse};
ghost use Rattle.jls_check.specs.Taking.{wanted, wish};

use crate::MoveFault;
use crate::monitors::{Held, ObjectRecord, UNTOUCHED};
use crate::threads::{Live, Threads};
use fast_path::Call;
use fat_monitor::Cause;
use lock_word::{Memory, ObjectId, ThreadId};
use std::alloc::{AllocError, Global};
use std::marker::Model;
use step_core::{Doing, Move, every_move_keeps_what_lasts};

/// What a thread wants that wants to wait on an object of its own.
#[derive(Clone, Copy)]
pub(crate) struct Wish {
    pub(crate) flag: bool,
    pub(crate) object: ObjectId,
    pub(crate) millis: i64,
    pub(crate) nanos: i32,
}

/// The machine behind the moves that it has taken.
#[derive(Drop)]
pub struct Machine {
    pub(crate) threads: Threads,
    // By object.
    pub(crate) objects: Vec<ObjectRecord>,
    // In nanoseconds.
    pub(crate) moment: u64,
    // Threads that began to wait lately: at most one for every 64 live threads and 17 more. Some of
    // them may wait no longer, and some that wait may be missing; nothing is proved of this list.
    // With it a NotifyAll mostly looks at the threads that wait, and not at every thread.
    pub(crate) waiters: Vec<ThreadId>,
}

impl Model for Machine {
    ghost use Rattle.std.specs.Coded.{codes};
    ghost use Rattle.std.specs.FinMap as map;
    ghost use Rattle.jls_check.specs.MachineState.{MachineState, IsSound};

    ghost Value = { MachineState };

    ghost coded = { Prim.hlevel (codes, map.code) };

    ghost use Rattle.jls_check.specs.View.{machine_in};

    ghost view = { machine_in };

    ghost invariant = { λ a. IsSound (machine_in a) };
}

impl Machine {
    /// The machine before all moves: no thread is live, nobody owns an object, and the moment is 0.
    /// An object is named by a number below `objects`.
    pub fn new(alloc: Global, objects: u32) -> Result<Machine, Memory>
        ensures shown { IfOk result (λ machine. state machine ≡ opening objects) }
        ensures made { IfOk result (λ machine. machine ≡ opening_machine objects) }
    {
        Ok(Machine {
            threads: Threads::new(alloc),
            objects: vec![in alloc; UNTOUCHED; objects as usize]?,
            moment: 0,
            waiters: Vec::new(alloc),
        })
    }

    /// Takes a move, if it is lawful now (JLS SE 8, 17.1 and 17.2). It is refused with
    /// [`Broken`](MoveFault::Broken) exactly where the machine may not make it, and with
    /// [`Memory`](MoveFault::Memory) at most where it is an Attach.
    ///
    /// No notification is lost: a thread that is back from a wait set stays so or has the reply for
    /// its reason, and keeps that until the move Return of just that reply.
    pub fn take(&mut self, made: Move) -> Result<(), MoveFault>
        ensures taken { OnOk result (Steps (state self.old) made (state self.new)) }
        ensures broken { IsErrOf result Broken ↔ IsUnlawful (state self.old) made }
        ensures memory { IsErrOf result NoMemory → IsAttach made }
        ensures kept { OnErr result (self.new ≡ self.old) }
        ensures lasting { OnOk result
            (LastsBut (state self.old) (MoveReturns made) (state self.new)) }
        // The answer and what is known then, in the checker's own terms.
        ensures exact { (room : Bool)
            × (record { answer = result; after = self.new } ≡ after_move room self.old made) }
    {
        // A law, by which a move that is taken keeps what lasts.
        every_move_keeps_what_lasts();
        self.advance(made)
    }

    fn advance(&mut self, made: Move) -> Result<(), MoveFault>
        ensures was { IsSound self.old }
        ensures exact { (room : Bool)
            × (record { answer = result; after = self.new } ≡ after_move room self.old made) }
    {
        // A use of a field, by which the state is known to be sound.
        let _ = &self.moment;
        match made {
            Move::Attach { thread } => self.attach(thread),
            Move::Call { thread, call } => self.make_call(thread, call),
            Move::Return { thread, reply } => self.return_with(thread, reply),
            Move::Lock { thread } => self.lock(thread),
            Move::Unlock { thread } => self.unlock(thread),
            Move::Illegal { thread } => self.illegal(thread),
            Move::BadArgument { thread } => self.bad_argument(thread),
            Move::Early { thread } => self.early(thread),
            Move::Wait { thread } => self.wait(thread),
            Move::Notify {
                thread,
                chosen: Some(chosen),
            } => self.notify(thread, chosen),
            Move::Notify {
                thread,
                chosen: None,
            } => self.notify_nobody(thread),
            Move::NotifyAll { thread } => self.notify_all(thread),
            Move::Interrupt { thread } => self.interrupt(thread),
            Move::TestClear { thread } => self.test_clear(thread),
            Move::Expire { thread } => self.expire(thread),
            Move::Spurious { thread } => self.wake(thread),
            Move::Relock { thread } => self.relock(thread),
            Move::Ask { thread } => self.ask(thread),
            Move::Refuse { thread, cause } => self.refuse(thread, cause),
            Move::End { thread } => self.end(thread),
            Move::Time { now } => self.time(now),
        }
    }

    /// The call that a thread has made and that has no answer yet, and the thread's flag.
    pub(crate) fn wanted(&self, thread: ThreadId) -> Option<(bool, Call)>
        ensures wanted { result ≡ wanted self.now thread }
        ensures live { IsSome result → IsSome (live_of self.now.threads thread) }
    {
        let live = self.live(thread)?;
        match live.act {
            Doing::Wants(call) => Some((live.flag, call)),
            _ => None,
        }
    }

    /// What is kept of an object, where one that does not exist is untouched.
    fn kept(&self, object: ObjectId) -> ObjectRecord
        ensures { result ≡ kept_at self.now.objects object }
    {
        match self.objects.get(object.0 as usize) {
            Some(kept) => *kept,
            None => UNTOUCHED,
        }
    }

    /// Who owns the monitor of an object, and how many times it is locked (JLS SE 8, 17.1). An
    /// object that does not exist is free.
    pub fn held(&self, object: ObjectId) -> Held
        ensures kept { result ≡ held_at self.now object }
        ensures shown { monitor_of result ≡ (state self.now).monitor object }
    {
        self.kept(object).held
    }

    /// The interrupt flag of a live thread (JLS SE 8, 17.2.3), and what it is doing; None where it
    /// is not live.
    pub fn live(&self, thread: ThreadId) -> Option<Live>
        ensures kept { result ≡ live_of self.now.threads thread }
        ensures shown { option_map thread_of result ≡ (state self.now).thread thread }
    {
        self.threads.get(thread)
    }

    /// How many threads wait on the object.
    pub(crate) fn waiting(&self, object: ObjectId) -> u64
        ensures { result ≡ waiting_in self.now.objects object }
    {
        self.kept(object).waiting
    }

    /// Whether nobody waits on the object.
    pub(crate) fn nobody_waits(&self, object: ObjectId) -> bool
        ensures { result ≡ not (some_waits self.now.threads object) }
    {
        // A use of a field, by which the counts are known to be those of the state.
        let _ = &self.moment;
        self.waiting(object) == 0
    }

    /// Whether the thread owns an object.
    pub(crate) fn owns_one(&self, thread: ThreadId) -> bool
        ensures { result ≡ owns_one self.now.objects thread }
    {
        // As above.
        let _ = &self.moment;
        self.threads.owned(thread) != 0
    }

    pub(crate) fn owns(&self, thread: ThreadId, object: ObjectId) -> bool
        ensures { result ≡ owns self.now thread object }
    {
        self.held(object).is_owned_by(thread)
    }

    /// What a thread wants that wants to wait on an object of its own.
    pub(crate) fn wish(&self, thread: ThreadId) -> Option<Wish>
        ensures wish { result ≡ wish self.now thread }
        ensures live { IsSome result → IsSome (live_of self.now.threads thread) }
    {
        let Some(
            (
                flag,
                Call::Wait {
                    object,
                    millis,
                    nanos,
                },
            ),
        ) = self.wanted(thread)
        else {
            return None;
        };
        if !self.owns(thread, object) {
            return None;
        }
        Some(Wish {
            flag,
            object,
            millis,
            nanos,
        })
    }

    /// Whether the object that a call names, if it names one, exists.
    pub(crate) fn names_an_object(&self, call: Call) -> bool
        ensures { result ≡ exists_below (length self.now.objects) (object_of call) }
    {
        match call.object() {
            Some(object) => (object.0 as usize) < self.objects.len(),
            None => true,
        }
    }

    /// Whether the thread, which has made this call, may be refused for this cause.
    pub(crate) fn may_refuse(&self, thread: ThreadId, call: Call, cause: Cause) -> bool
        ensures { result ≡ may_refuse self.now thread call cause }
    {
        match (call, cause) {
            (Call::Enter(object), Cause::NoMonitor | Cause::Memory) => self.owns(thread, object),
            (Call::Enter(object), Cause::TooDeep) => {
                self.owns(thread, object) && self.held(object).count == u16::MAX
            }
            (
                Call::Wait {
                    object,
                    millis,
                    nanos,
                },
                Cause::NoMonitor | Cause::Memory,
            ) => self.owns(thread, object) && is_good(millis, nanos),
            (Call::Interrupt(target) | Call::IsInterrupted(target), Cause::NoThread) => {
                self.threads.get(target).is_none()
            }
            (Call::End, Cause::StillOwner) => self.owns_one(thread),
            _ => false,
        }
    }
}

impl Clone for Machine {
    ghost use Rattle.std.specs.Prelude.{◌≡◌};

    ghost is_clone = { λ machine copy. copy ≡ machine };

    /// A machine of its own in the same state; or want of memory, and then nothing was made.
    fn clone(&self) -> Result<Machine, AllocError> {
        Ok(Machine {
            threads: self.threads.clone()?,
            objects: Vec::from_slice(*self.objects.allocator(), &self.objects)?,
            moment: self.moment,
            waiters: Vec::from_slice(*self.waiters.allocator(), &self.waiters)?,
        })
    }
}

/// Whether the arguments of a wait are in their ranges (JLS SE 8, 17.2.1).
pub(crate) fn is_good(millis: i64, nanos: i32) -> bool
    ensures { result ≡ is_good millis nanos }
{
    0 <= millis && 0 <= nanos && nanos <= 999_999
}

/// When a wait that begins at this moment is over, in nanoseconds; a wait of no limit never is.
pub(crate) fn over_at(moment: u64, millis: i64, nanos: i32) -> Option<u128>
    requires { is_good millis nanos ≡ true }
    ensures { result ≡ over_at moment millis nanos }
{
    let time = millis as u128 * 1_000_000 + nanos as u128;
    if time == 0 {
        None
    } else {
        Some(u128::from(moment) + time)
    }
}
