//! The fat monitors and the threads that may use them.

ghost use Rattle.std.specs.Prelude.{false, ◌≡◌, ◌-◌, ◌<◌, ◌≤◌, ◌↔◌, IfOk, IfErr, OnErr, IsErrOf};
ghost use Rattle.std.specs.Prelude.{OnOk, length, [], ◌∷◌, ◌++◌, Some, None, Option, Ok, vec_capacity};
ghost use Rattle.std.specs.FinMap as map;
ghost use Rattle.lock_word.specs.declared.ThreadId.{ThreadId};
ghost use Rattle.fat_monitor.specs.declared.actions.Action.{Action};
ghost use Rattle.fat_monitor.specs.declared.actions.Cause.{Cause};
ghost use Rattle.fat_monitor.specs.declared.actions.Post.{Post};
ghost use Rattle.fat_monitor.specs.FatState.{FatState, IsSound, opened, post_of, IsAttached};
ghost use Rattle.fat_monitor.specs.FatState.{thread_count, with_thread, without_thread};
ghost use Rattle.fat_monitor.specs.FatState.{with_moment, with_spare, bound_with, objects_of};
ghost use Rattle.fat_monitor.specs.FatState.{refusal, owns_one, StandBehindOwners};
ghost use Rattle.fat_monitor.specs.Acting.{outcome_of, NamesBound, MayAct};

mod acts;
mod numbers;
mod readers;

use crate::posts::Posts;
use crate::replies::{reply_with, yes_or_no};
use crate::{ActFault, Action, Cause, Done, Post, Receipt};
use lock_word::{Memory, ObjectId, ThreadId};
use std::alloc::{AllocError, Global};
use std::error::Error;
use std::fmt;
use std::marker::Model;
use wait_lines::Lines;

/// Why a thread was not attached.
#[derive(Clone, Copy, PartialEq, Eq, Debug)]
pub enum AttachFault {
    /// The thread is attached already.
    Known,
    /// The system has no memory for one more thread.
    Memory,
}

impl fmt::Display for AttachFault {
    ghost use Rattle.std.specs.Prelude.{Some};
    ghost use Rattle.fat_monitor.specs.Names.{fault_text};

    ghost output = { λ x. Some (fault_text x) };

    fn fmt<W: fmt::Write>(&self, f: &mut fmt::Formatter<W>) -> fmt::Result {
        f.write_str(match self {
            AttachFault::Known => "the thread is attached already",
            AttachFault::Memory => "out of memory",
        })
    }
}

impl Error for AttachFault {}

/// The moment that was told is before the one that was told last.
#[derive(Clone, Copy, PartialEq, Eq, Debug)]
pub struct Backwards;

impl fmt::Display for Backwards {
    ghost use Rattle.std.specs.Prelude.{Some};
    ghost use Rattle.fat_monitor.specs.Names.{backwards_text};

    ghost output = { λ x. Some backwards_text };

    fn fmt<W: fmt::Write>(&self, f: &mut fmt::Formatter<W>) -> fmt::Result {
        f.write_str("the moment would fall")
    }
}

impl Error for Backwards {}

/// A bound monitor.
#[derive(Clone, Copy)]
pub struct Monitor {
    object: ObjectId,
    owner: Option<ThreadId>,
    holds: u16,
}

impl Monitor {
    /// Writes who owns the monitor, and how often.
    fn give(&mut self, owner: Option<ThreadId>, holds: u16)
        ensures { self.new ≡ record self.old { owner = owner; holds = holds } }
    {
        self.owner = owner;
        self.holds = holds;
    }
}

/// The fat monitors of a world, numbered 0, 1, 2 and so on in the order of binding, the attached
/// threads, the lines in which they stand, and the moment.
#[derive(Drop)]
pub struct Fats {
    monitors: Vec<Monitor>,
    posts: Posts,
    lines: Lines,
    // In nanoseconds.
    moment: u64,
    limit: u32,
    // How many binds to come have their room already.
    spare: u32,
}

impl Model for Fats {
    ghost use Rattle.std.specs.Coded.{codes};
    ghost use Rattle.std.specs.FinMap as map;
    ghost use Rattle.fat_monitor.specs.FatState.{FatState};

    ghost Value = { FatState };

    ghost coded = { Prim.hlevel (codes, map.code) };

    ghost use Rattle.fat_monitor.specs.Fats.{fat_state_in, IsKept};

    ghost view = { fat_state_in };

    ghost invariant = { IsKept };
}

impl Fats {
    /// No monitor is bound and no thread attached, and the moment is 0. At most `limit` monitors, 0
    /// to 8,388,608, will be bound.
    pub fn new(alloc: Global, limit: u32) -> Fats
        requires { limit ≤ 8388608 }
        ensures opened { result ≡ opened limit }
        ensures sound { IsSound result }
    {
        Fats {
            monitors: Vec::new(alloc),
            posts: Posts::new(alloc),
            lines: Lines::new(alloc),
            moment: 0,
            limit,
            spare: 0,
        }
    }

    /// Attaches a thread, which stands [`Out`](Post::Out) and is not interrupted, and makes room
    /// for it in the lines, so that no later action asks for memory.
    pub fn attach(&mut self, thread: ThreadId) -> Result<(), AttachFault>
        requires { thread_count self.old < 32767 }
        ensures attached { OnOk result (self.new ≡ with_thread self.old thread) }
        ensures here { OnOk result (IsAttached self.new thread) }
        ensures others { (u : ThreadId) → IsAttached self.old u → IsAttached self.new u }
        ensures fresh { OnOk result (post_of self.old thread ≡ None) }
        ensures known { IsErrOf result AttachFault.Known ↔ IsAttached self.old thread }
        ensures err { OnErr result (self.new ≡ self.old) }
        ensures sound { IsSound self.new }
    {
        self.enroll(thread)
    }

    fn enroll(&mut self, thread: ThreadId) -> Result<(), AttachFault>
        requires { thread_count self.old < 32767 }
        ensures was { IsSound self.old }
        ensures attached { OnOk result (self.new ≡ with_thread self.old thread) }
        ensures here { OnOk result (IsAttached self.new thread) }
        ensures others { (u : ThreadId) → IsAttached self.old u → IsAttached self.new u }
        ensures fresh { OnOk result (post_of self.old thread ≡ None) }
        ensures known { IsErrOf result AttachFault.Known ↔ IsAttached self.old thread }
        ensures err { OnErr result (self.new ≡ self.old) }
    {
        let crowded = self.posts.len() == usize::from(self.lines.reservations());
        self.posts.add(thread)?;
        if crowded && self.lines.reserve_one().is_err() {
            self.posts.remove(thread);
            return Err(AttachFault::Memory);
        }
        Ok(())
    }

    /// Removes an attached thread that is out of every action and owns no monitor.
    pub fn remove(&mut self, thread: ThreadId)
        requires out { post_of self.old thread ≡ Some Post.Out }
        requires owns_none { owns_one self.old.monitors thread ≡ false }
        ensures removed { self.new ≡ without_thread self.old thread }
        ensures sound { IsSound self.new }
    {
        self.posts.remove(thread);
    }

    /// Makes room for at least this many binds to come, so that none of them is refused for want of
    /// memory. `Err` comes only where there was less room, and the system refused the memory for
    /// more.
    pub fn reserve_monitors(&mut self, binds: u32) -> Result<(), Memory>
        ensures ok { OnOk result (self.new ≡ with_spare self.old binds) }
        ensures less { OnErr result (self.old.spare < binds) }
        ensures err { OnErr result (self.new ≡ self.old) }
        ensures sound { IsSound self.new }
    {
        if self.spare < binds {
            self.monitors.reserve(binds as usize)?;
            self.spare = binds;
        }
        Ok(())
    }

    /// Binds the next monitor to an object that its owner holds this often, 1 to 4,096 times. It
    /// asks for memory only where no bind has its room already.
    pub fn bind(&mut self, object: ObjectId, owner: ThreadId, holds: u16) -> Result<Receipt, Cause>
        requires attached { IsAttached self.old owner }
        requires low { 1 ≤ holds }
        requires high { holds ≤ 4096 }
        ensures receipt { IfOk result (λ r. r ≡ record {
          object = object;
          owner = owner;
          holds = holds;
          monitor = length self.old.monitors;
        }) }
        ensures bound { OnOk result (self.new ≡ bound_with self.old object owner holds) }
        ensures objects { OnOk result (objects_of self.new ≡ objects_of self.old ++ object ∷ []) }
        ensures room { OnOk result (length self.old.monitors < self.old.limit) }
        ensures cause { IfErr result (λ c. c ≡ refusal self.old) }
        ensures memory { IsErrOf result Cause.Memory → self.old.spare ≡ 0 }
        ensures err { OnErr result (self.new ≡ self.old) }
        ensures sound { IsSound self.new }
    {
        let number = self.monitors.len();
        if number >= self.limit as usize {
            return Err(Cause::NoMonitor);
        }
        let monitor = Monitor {
            object,
            owner: Some(owner),
            holds,
        };
        let Ok(()) = self.monitors.push(monitor) else {
            return Err(Cause::Memory);
        };
        self.spare = self.spare.saturating_sub(1);
        self.posts.hand_over(None, Some(owner));
        Ok(Receipt::new(object, owner, holds, number as u32))
    }

    /// Tells the moment, in nanoseconds, which never falls.
    pub fn tick(&mut self, now: u64) -> Result<(), Backwards>
        ensures ok { OnOk result (self.new ≡ with_moment self.old now) }
        ensures later { OnOk result (self.old.moment ≤ now) }
        ensures earlier { OnErr result (now < self.old.moment) }
        ensures objects { objects_of self.new ≡ objects_of self.old }
        ensures err { OnErr result (self.new ≡ self.old) }
        ensures sound { IsSound self.new }
    {
        if now < self.moment {
            return Err(Backwards);
        }
        self.moment = now;
        Ok(())
    }

    /// One action of an attached thread, on a bound monitor where the action names one. A thread
    /// that stands in a line may only expire, which is refused unless its deadline has come, wake
    /// spuriously, which is refused where it does not wait, and collect, which is refused until it
    /// is granted its reply.
    ///
    /// A thread stands in an entry line only while another thread owns that monitor.
    pub fn act(&mut self, thread: ThreadId, action: Action) -> Result<Done, ActFault>
        requires ready { MayAct self.old thread action }
        requires bound { NamesBound self.old action }
        ensures table { record { answer = result; after = self.new }
            ≡ outcome_of self.old thread action }
        ensures objects { objects_of self.new ≡ objects_of self.old }
        ensures behind { StandBehindOwners self.new }
        ensures sound { IsSound self.new }
    {
        self.act_in_place(thread, action)
    }

    /// What [`act`](Fats::act) does, in place where it is called, with its enter and exit: where a
    /// caller knows which action it makes, nothing is left of the others, and the answer comes by
    /// no copy. It is long for a caller that does not know.
    #[inline(always)]
    pub fn act_in_place(&mut self, thread: ThreadId, action: Action) -> Result<Done, ActFault>
        requires ready { MayAct self.old thread action }
        requires bound { NamesBound self.old action }
        ensures table { record { answer = result; after = self.new }
            ≡ outcome_of self.old thread action }
        ensures objects { objects_of self.new ≡ objects_of self.old }
        ensures behind { StandBehindOwners self.new }
        ensures sound { IsSound self.new }
    {
        self.make(thread, action)
    }

    // In place, as its enter and exit are, for `act_in_place`.
    #[inline(always)]
    fn make(&mut self, thread: ThreadId, action: Action) -> Result<Done, ActFault>
        requires ready { MayAct self.old thread action }
        requires bound { NamesBound self.old action }
        ensures was { IsSound self.old }
        ensures table { record { answer = result; after = self.new }
            ≡ outcome_of self.old thread action }
    {
        // What follows rests on what always holds of these fields.
        let _ = &self.monitors;
        match action {
            Action::Enter { monitor } => Ok(self.enter(thread, monitor)),
            Action::Exit { monitor } => Ok(self.exit(thread, monitor)),
            Action::Wait {
                monitor,
                millis,
                nanos,
            } => Ok(self.wait(thread, monitor, millis, nanos)),
            Action::Notify { monitor } => Ok(self.notify(thread, monitor)),
            Action::NotifyAll { monitor } => Ok(self.notify_all(thread, monitor)),
            Action::Holds { monitor } => Ok(reply_with(yes_or_no(self.is_owner(monitor, thread)))),
            Action::Interrupt { target } => Ok(self.interrupt(target)),
            Action::Interrupted => Ok(self.test_and_clear(thread)),
            Action::IsInterrupted { target } => Ok(self.is_interrupted(target)),
            Action::Expire => self.expire(thread),
            Action::Spurious => self.wake(thread),
            Action::Collect => self.collect(thread),
            Action::End => Ok(self.end(thread)),
        }
    }

    /// Makes `copy` the same fat monitors, threads and lines, at the same moment, with room for as
    /// many binds, mostly in the memory that it has, whatever it was. On `Err` no monitor is bound
    /// in it and no thread attached, and no monitor will be bound.
    pub fn clone_into(&self, copy: &mut Fats) -> Result<(), AllocError>
        ensures same { OnOk result (copy.new ≡ self.now) }
        ensures empty { OnErr result (copy.new ≡ opened 0) }
    {
        let alloc = *self.monitors.allocator();
        let room = self.monitors.len() + self.spare as usize;
        if copy_all(&self.monitors, room, &mut copy.monitors).is_ok()
            && self.posts.clone_into(alloc, &mut copy.posts).is_ok()
            && self.lines.clone_into(&mut copy.lines).is_ok()
        {
            copy.moment = self.moment;
            copy.limit = self.limit;
            copy.spare = self.spare;
            return Ok(());
        }
        *copy = Fats::new(alloc, 0);
        Err(AllocError)
    }
}

/// Makes `copy` the same monitors, with room for `room` in all. On `Err` it has none.
fn copy_all(monitors: &[Monitor], room: usize, copy: &mut Vec<Monitor>) -> Result<(), AllocError>
    ensures same { OnOk result (copy.new.items ≡ monitors.now) }
    ensures capacity { OnOk result (room ≤ vec_capacity copy.new) }
    ensures none { OnErr result (copy.new.items ≡ []) }
{
    copy.clear();
    copy.reserve(room)?;
    copy.extend_from_slice(monitors)
}

impl Clone for Fats {
    ghost use Rattle.std.specs.Prelude.{◌≡◌};

    ghost is_clone = { λ fats copy. copy ≡ fats };

    /// The same fat monitors, threads and lines, at the same moment, with room for as many binds.
    fn clone(&self) -> Result<Fats, AllocError> {
        let room = self.monitors.len() + self.spare as usize;
        let mut monitors = Vec::with_capacity(*self.monitors.allocator(), room)?;
        monitors.extend_from_slice(&self.monitors)?;
        Ok(Fats {
            monitors,
            posts: self.posts.clone()?,
            lines: self.lines.clone()?,
            moment: self.moment,
            limit: self.limit,
            spare: self.spare,
        })
    }
}
