//! The live threads, by their numbers.

ghost use Rattle.std.specs.Prelude.{◌≡◌, ◌+◌, ◌≤◌, ◌<◌, ◌^◌, IsSome, Some, OnOk, OnErr, is_some};
ghost use Rattle.std.specs.Prelude.{MatchOption};
ghost use Rattle.std.specs.FinMap as map;
ghost use Rattle.jls_check.specs.LiveThreads.{live_of, owned_of, with_live, without_live};
ghost use Rattle.jls_check.specs.LiveThreads.{owning_one_less, owning_one_more, all_back};
ghost use Rattle.jls_check.specs.CallEdges.{after_edge, crossed_record, edge_of, crossed};

use crate::acts::has;
use crate::slots::{
    Slot, follow, free_empty, give_back, grow_hints, note, notify_slots, position_noting,
    position_of,
};
use fast_path::Call;
use fat_monitor::Reply;
use lock_word::{Memory, ObjectId, ThreadId};
use std::alloc::{AllocError, Global};
use std::collections::BTreeMap;
use std::marker::Model;
use step_core::Doing;

/// A live thread: its interrupt flag (JLS SE 8, 17.2.3), and what it is doing.
#[derive(Clone, Copy, PartialEq, Eq)]
pub struct Live {
    pub flag: bool,
    pub act: Doing,
}

/// What is kept of a live thread.
#[derive(Clone, Copy)]
pub(crate) struct ThreadRecord {
    pub(crate) live: Live,
    // How many objects it owns.
    pub(crate) owned: u64,
}

/// An edge of a call: its begin or its return.
#[derive(Clone, Copy)]
pub(crate) enum CallEdge {
    Begins(Call),
    Returns(Reply),
}

/// The live threads.
#[derive(Drop)]
pub(crate) struct Threads {
    // One for each of them, in no order.
    slots: Vec<Slot>,
    // Where the slot of a thread is, by the thread's number.
    positions: BTreeMap<u32, usize>,
    // Where the slots of some threads may be, for a look without the map. Nothing is proved of
    // them but that what is found is right whatever they are.
    hints: Vec<u32>,
}

impl Model for Threads {
    ghost use Rattle.std.specs.Coded.{codes};
    ghost use Rattle.std.specs.FinMap as map;
    ghost use Rattle.jls_check.specs.LiveThreads.{LiveThreads};

    ghost Value = { LiveThreads };

    ghost coded = { Prim.hlevel (codes, map.code) };

    ghost use Rattle.jls_check.specs.Slots.{records_in, LeadToSlots, HavePositions};

    ghost view = { λ a. records_in a.slots.items a.positions.entries };

    ghost invariant = { λ a. LeadToSlots a.slots.items a.positions.entries
        × HavePositions a.slots.items a.positions.entries };
}

impl Threads {
    pub(crate) fn new(alloc: Global) -> Threads
        ensures { result ≡ map.empty }
    {
        Threads {
            slots: Vec::new(alloc),
            positions: BTreeMap::new(alloc),
            hints: Vec::new(alloc),
        }
    }

    /// What is kept of a thread; None where it is not live.
    pub(crate) fn kept(&self, thread: ThreadId) -> Option<ThreadRecord>
        ensures { result ≡ map.get self.now thread.0 }
    {
        let position = position_of(&self.slots, &self.positions, &self.hints, thread.0)?;
        let slot = self.slots.get(position)?;
        Some(slot.kept)
    }

    /// How many threads are live.
    pub(crate) fn count(&self) -> usize
        ensures count { result ≡ map.len self.now }
        ensures small { result < 2 ^ 63 }
    {
        self.positions.len()
    }

    pub(crate) fn get(&self, thread: ThreadId) -> Option<Live>
        ensures { result ≡ live_of self.now thread }
    {
        Some(self.kept(thread)?.live)
    }

    /// How many objects a thread owns; none, if it is not live.
    pub(crate) fn owned(&self, thread: ThreadId) -> u64
        ensures { result ≡ owned_of self.now thread }
    {
        match self.kept(thread) {
            Some(kept) => kept.owned,
            None => 0,
        }
    }

    /// Makes a thread live, which is not. It owns nothing.
    pub(crate) fn add(&mut self, thread: ThreadId, live: Live) -> Result<(), Memory>
        requires { live_of self.old thread ≡ None }
        ensures ok { OnOk result (self.new ≡ with_live self.old thread live) }
        ensures err { OnErr result (self.new ≡ self.old) }
    {
        let position = self.slots.len();
        let Ok(()) = self.slots.reserve(1) else {
            return Err(Memory);
        };
        let Ok(_) = self.positions.insert(thread.0, position) else {
            return Err(Memory);
        };
        let kept = ThreadRecord { live, owned: 0 };
        // There is room for it.
        let _ = self.slots.push(Slot {
            number: thread.0,
            kept,
        });
        note(&mut self.hints, thread.0, position);
        grow_hints(&mut self.hints, &self.slots);
        give_back(&mut self.slots, &mut self.hints);
        Ok(())
    }

    /// Writes what a live thread is doing, and its flag, and tells what it did before.
    pub(crate) fn set(&mut self, thread: ThreadId, live: Live) -> Option<Live>
        requires { IsSome (live_of self.old thread) }
        ensures was { result ≡ live_of self.old thread }
        ensures set { self.new ≡ with_live self.old thread live }
    {
        let position = position_noting(&self.slots, &self.positions, &mut self.hints, thread.0)?;
        let Some(slot) = self.slots.get_mut(position) else {
            unreachable!();
        };
        let was = slot.kept.live;
        slot.kept.live = live;
        Some(was)
    }

    /// A live thread that does nothing begins a call, or one whose call has this reply returns; its
    /// flag stays. Answers whether there is such a thread. This looks for the thread once, where
    /// [`get`](Threads::get) and [`set`](Threads::set) would do so twice. Here, where a thread
    /// becomes live and at each moment, the memory of those that have ended is given back: an end
    /// itself asks the system for nothing. It stands in place, so that an edge is never written to
    /// memory.
    #[inline(always)]
    pub(crate) fn cross(&mut self, thread: ThreadId, edge: CallEdge) -> bool
        ensures answer { result ≡ is_some (edge_of self.old thread edge) }
        ensures crossed { self.new ≡ crossed self.old thread edge }
    {
        let Some(position) = position_noting(
            &self.slots,
            &self.positions,
            &mut self.hints,
            thread.0,
        ) else {
            return false;
        };
        let Some(slot) = self.slots.get_mut(position) else {
            unreachable!();
        };
        let taken = take_edge(&mut slot.kept, edge);
        give_back(&mut self.slots, &mut self.hints);
        taken
    }

    /// This thread, if there is one, owns one object less.
    pub(crate) fn lose(&mut self, owner: Option<ThreadId>)
        requires { MatchOption owner (Unit {0}) (λ t. 1 ≤ owned_of self.old t) }
        ensures { self.new ≡ owning_one_less self.old owner }
    {
        let Some(thread) = owner else { return };
        let Some(position) = position_noting(
            &self.slots,
            &self.positions,
            &mut self.hints,
            thread.0,
        ) else {
            return;
        };
        let Some(slot) = self.slots.get_mut(position) else {
            unreachable!();
        };
        slot.kept.owned -= 1;
    }

    /// This thread, if there is one, owns one object more.
    pub(crate) fn gain(&mut self, owner: Option<ThreadId>)
        requires { MatchOption owner (Unit {0}) (λ t. owned_of self.old t < 2 ^ 32) }
        ensures { self.new ≡ owning_one_more self.old owner }
    {
        let Some(thread) = owner else { return };
        let Some(position) = position_noting(
            &self.slots,
            &self.positions,
            &mut self.hints,
            thread.0,
        ) else {
            return;
        };
        let Some(slot) = self.slots.get_mut(position) else {
            unreachable!();
        };
        slot.kept.owned += 1;
    }

    pub(crate) fn remove(&mut self, thread: ThreadId)
        ensures { self.new ≡ without_live self.old thread }
    {
        let Some(position) = self.positions.remove(&thread.0) else {
            return;
        };
        let _ = self.slots.swap_remove(position);
        follow(&self.slots, &mut self.positions, &mut self.hints, position);
        free_empty(&mut self.slots, &mut self.hints);
    }

    /// Gives back the memory of threads that have ended, where it is much.
    pub(crate) fn give_back(&mut self)
        ensures { self.new ≡ self.old }
    {
        give_back(&mut self.slots, &mut self.hints);
    }

    /// Every thread that waits on the object is back, notified. This looks at every live thread.
    pub(crate) fn notify_all(&mut self, object: ObjectId)
        ensures { self.new ≡ all_back self.old object }
    {
        notify_slots(&mut self.slots, object);
    }
}

impl Clone for Threads {
    ghost use Rattle.std.specs.Prelude.{◌≡◌};

    ghost is_clone = { λ threads copy. copy ≡ threads };

    /// The same threads.
    fn clone(&self) -> Result<Threads, AllocError> {
        Ok(Threads {
            slots: Vec::from_slice(*self.slots.allocator(), &self.slots)?,
            positions: self.positions.clone()?,
            hints: Vec::from_slice(*self.hints.allocator(), &self.hints)?,
        })
    }
}

fn take_edge(kept: &mut ThreadRecord, edge: CallEdge) -> bool
    ensures answer { result ≡ is_some (after_edge edge kept.old.live.act) }
    ensures crossed { kept.new ≡ crossed_record kept.old (after_edge edge kept.old.live.act) }
{
    let Some(act) = after_edge(edge, kept.live.act) else {
        return false;
    };
    kept.live.act = act;
    true
}

/// What a thread that did this does past this edge of a call; None where it may not cross it.
fn after_edge(edge: CallEdge, act: Doing) -> Option<Doing>
    ensures { result ≡ after_edge edge act }
{
    match edge {
        CallEdge::Begins(call) => match act {
            Doing::Idle => Some(Doing::Wants(call)),
            _ => None,
        },
        CallEdge::Returns(reply) => {
            if has(act, reply) {
                Some(Doing::Idle)
            } else {
                None
            }
        }
    }
}
