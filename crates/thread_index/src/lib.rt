//! Which live thread has which index.
//!
//! A thin lock shows its owner by an index: of 15 bits in the wide split of header words, 1 to
//! 32,767, and of 11 bits in the deep one, 1 to 2,047; 0 is nobody's. A thread takes the lowest
//! index that is free, keeps it while it lives, and gives it back. A berth is an index less one.
//! What a call costs does not grow with the number of live threads: a table has the berth of each
//! thread, hints spare most looks into it, and bits tell which berths are taken.
#![tactic(auto)]

ghost use Rattle.std.specs.Prelude.{◌≡◌, ◌↔◌, ◌-◌, ◌<◌, ◌≤◌, ◌+◌, ℕ, length, max, replicate};
ghost use Rattle.std.specs.Prelude.{slice_set, is_ok, if◌then◌else◌, IsOk, IsSome, IfOk, IfErr};
ghost use Rattle.std.specs.Prelude.{IfSome, OnOk, OnErr, Some, None, IsTrue};
ghost use Rattle.thread_index.specs.Indices.{berth_of, free_berth, holder_at, holder_of, index_of};
ghost use Rattle.thread_index.specs.Indices.{given_back, IsOneToOne};

mod berth_bits;
mod bit_row;

use berth_bits::BerthBits;
use lock_word::{Memory, ThreadId};
use std::alloc::{AllocError, AllocFailed, Global};
use std::collections::HashMap;
use std::error::Error;
use std::fmt;
use std::marker::Model;
use thread_hints::Hints;

/// Why a thread got no index.
#[derive(Clone, Copy, PartialEq, Eq, Debug)]
pub enum TakeFault {
    /// The thread has an index already.
    Known,
    /// Each index has a thread.
    NoIndex,
    /// The system refused the memory to write a further index down.
    Memory,
}

impl fmt::Display for TakeFault {
    ghost use Rattle.std.specs.Prelude.{Some};
    ghost use Rattle.thread_index.specs.Texts.{take_fault_text};

    ghost output = { λ x. Some (take_fault_text x) };

    fn fmt<W: fmt::Write>(&self, f: &mut fmt::Formatter<W>) -> fmt::Result {
        f.write_str(match self {
            TakeFault::Known => "the thread has an index",
            TakeFault::NoIndex => "every index is taken",
            TakeFault::Memory => "out of memory",
        })
    }
}

impl Error for TakeFault {}

impl<T: Drop> From<AllocFailed<T>> for TakeFault {
    ghost use Rattle.thread_index.specs.declared.TakeFault.{TakeFault};

    ghost from_gives = { λ _ fault. fault ≡ TakeFault.Memory };

    fn from(_: AllocFailed<T>) -> Self {
        TakeFault::Memory
    }
}

impl From<AllocError> for TakeFault {
    ghost use Rattle.thread_index.specs.declared.TakeFault.{TakeFault};

    ghost from_gives = { λ _ fault. fault ≡ TakeFault.Memory };

    fn from(_: AllocError) -> Self {
        TakeFault::Memory
    }
}

/// The indices of the live threads.
#[derive(Drop)]
pub struct Indices {
    /// Who has the berths up to the highest that was ever taken.
    holders: Vec<Option<ThreadId>>,
    /// Which of these berths are taken.
    bits: BerthBits,
    /// The berth of each thread that has one.
    berths: HashMap<u32, u16>,
    /// Where a thread may have its berth, which is looked at before the table: that takes a hash.
    hints: Hints,
    /// How many berths there are.
    limit: u16,
}

impl Model for Indices {
    ghost use Rattle.std.specs.Prelude.{List, Option};
    ghost use Rattle.lock_word.specs.declared.ThreadId.{ThreadId};
    ghost use Rattle.thread_index.specs.Padding.{padded, IsWhole};

    ghost Value = { List (Option ThreadId) };

    ghost view = { λ a. padded a.holders.items a.limit };

    ghost invariant = { λ a. IsWhole a.holders.items a.limit a.bits.taken.words.items a.berths };
}

impl Indices {
    /// Indices 1 to `k`, of which no thread has one. No memory is asked for until one is taken.
    pub fn new(alloc: Global, k: u16) -> Result<Indices, Memory>
        requires some { 1 ≤ k }
        requires few { k ≤ 32767 }
        ensures made { IsOk result }
        ensures free { IfOk result (λ indices. indices ≡ replicate k None) }
        ensures length { IfOk result (λ indices. length indices ≤ 32767) }
    {
        Ok(Indices {
            holders: Vec::new(alloc),
            bits: BerthBits::new(alloc),
            berths: HashMap::new(alloc),
            hints: Hints::new(alloc),
            limit: k,
        })
    }

    /// Gives a thread the lowest index that is free.
    ///
    /// A thread that has an index, or that finds none free, is told so without asking for memory.
    /// `Err(TakeFault::Memory)` comes only where the system refused a growth: another call may
    /// succeed.
    pub fn take(&mut self, id: ThreadId) -> Result<u16, TakeFault>
        ensures low { IfOk result (λ i. 1 ≤ i) }
        ensures high { IfOk result (λ i. i ≤ length self.old) }
        ensures free { IfOk result (λ i. free_berth self.old ≡ Some (i - 1)) }
        ensures unknown { IfOk result (λ _. berth_of self.old id ≡ None) }
        ensures taken { IfOk result (λ i. self.new ≡ slice_set self.old (i - 1) (Some id)) }

        // The faults, in the order in which they are looked for.
        ensures known { (result ≡ Err TakeFault.Known) ↔ IsSome (berth_of self.old id) }
        ensures no_index { (result ≡ Err TakeFault.NoIndex)
            ↔ ((berth_of self.old id ≡ None) × (free_berth self.old ≡ None)) }
        ensures memory { result ≡ Err TakeFault.Memory
            → (berth_of self.old id ≡ None) × IsSome (free_berth self.old) }
        ensures err { OnErr result (self.new ≡ self.old) }

        ensures one_to_one { IsOneToOne self.new }
        ensures length { length self.new ≡ length self.old }
    {
        if self.berth_of(id).is_some() {
            return Err(TakeFault::Known);
        }
        let berth = self.free_berth().ok_or(TakeFault::NoIndex)?;
        self.put(berth, id)?;
        Ok(berth as u16 + 1)
    }

    /// Frees a thread's index, if it has one, and says which it was.
    pub fn give(&mut self, id: ThreadId) -> Option<u16>
        ensures index { result ≡ index_of self.old id }
        ensures given { self.new ≡ given_back self.old (berth_of self.old id) }
        ensures one_to_one { IsOneToOne self.new }
        ensures length { length self.new ≡ length self.old }
    {
        let berth = usize::from(self.berths.remove(&id.0)?);
        self.holders[berth] = None;
        self.bits.give(berth);
        Some(berth as u16 + 1)
    }

    /// The index of a thread, if it has one.
    pub fn index_of(&self, id: ThreadId) -> Option<u16>
        ensures index { result ≡ index_of self.now id }
        ensures low { IfSome result (λ i. 1 ≤ i) }
        ensures high { IfSome result (λ i. i ≤ length self.now) }
        ensures one_to_one { IsOneToOne self.now }
        ensures length { length self.now ≤ 32767 }
    {
        let berth = self.berth_of(id)?;
        Some(berth as u16 + 1)
    }

    /// The thread that has an index. Nobody has index 0, or one beyond the last.
    pub fn id_of(&self, index: u16) -> Option<ThreadId>
        ensures holder { result ≡ holder_of self.now index }
        ensures one_to_one { IsOneToOne self.now }
        ensures length { length self.now ≤ 32767 }
    {
        *self.holders.get(usize::from(index.checked_sub(1)?))?
    }

    /// The berth of a thread.
    #[inline(always)]
    fn berth_of(&self, id: ThreadId) -> Option<usize>
        ensures berth { result ≡ berth_of self.now id }
        ensures within { IfSome result (λ k. k < length self.now) }
        ensures one_to_one { IsOneToOne self.now }
        ensures length { length self.now ≤ 32767 }
    {
        match self.hinted_berth_of(id) {
            Some(berth) => Some(berth),
            None => self.listed_berth_of(id),
        }
    }

    /// The berth of a thread by the table. It is a function of its own, so that a look by a hint
    /// has nothing of it.
    #[inline(never)]
    fn listed_berth_of(&self, id: ThreadId) -> Option<usize>
        ensures berth { result ≡ berth_of self.now id }
        ensures within { IfSome result (λ k. k < length self.now) }
        ensures one_to_one { IsOneToOne self.now }
        ensures length { length self.now ≤ 32767 }
    {
        self.berths.get(&id.0).map(|&berth| usize::from(berth))
    }

    /// The berth that the hints name, where the thread has that berth.
    #[inline(always)]
    fn hinted_berth_of(&self, id: ThreadId) -> Option<usize>
        ensures berth { IfSome result (λ k. berth_of self.now id ≡ Some k) }
        ensures within { IfSome result (λ k. k < length self.now) }
        ensures one_to_one { IsOneToOne self.now }
        ensures length { length self.now ≤ 32767 }
    {
        let berth = self.hints.position(id.0) as usize;
        match self.holders.get(berth) {
            Some(Some(holder)) if holder.0 == id.0 => Some(berth),
            _ => None,
        }
    }

    /// Makes `copy` the same indices, of the same threads. Where it is the same already nothing is
    /// written, and of others nothing is kept. On `Err` it is as it was.
    pub fn clone_into(&self, copy: &mut Indices) -> Result<(), AllocError>
        ensures same { OnOk result (copy.new ≡ self.now) }
        ensures unchanged { OnErr result (copy.new ≡ copy.old) }
        ensures one_at_least { 1 ≤ length copy.old }
    {
        if self.limit == copy.limit && are_same(&self.holders, &copy.holders) {
            return Ok(());
        }
        *copy = self.clone()?;
        Ok(())
    }

    /// Notes the berth of a thread as a hint. Where there are few hints for the berths there are
    /// more from then on, if there is memory for them.
    fn note(&mut self, berth: usize, id: ThreadId)
        requires { berth < 32767 }
        ensures { self.new ≡ self.old }
    {
        let count = self.holders.len();
        if self.hints.are_few_for(count) && self.hints.widen_for(count) {
            note_all(&mut self.hints, &self.holders);
        }
        self.hints.note(id.0, berth as u32);
    }

    /// The lowest berth that nobody has.
    fn free_berth(&self) -> Option<usize>
        ensures berth { result ≡ free_berth self.now }
        ensures within { IfSome result (λ k. k < length self.now) }
    {
        let berth = self.bits.lowest_free();
        (berth < usize::from(self.limit)).then_some(berth)
    }

    /// Puts a thread that has no berth at the lowest free one.
    fn put(&mut self, berth: usize, id: ThreadId) -> Result<(), TakeFault>
        requires unknown { berth_of self.old id ≡ None }
        requires free { free_berth self.old ≡ Some berth }
        ensures value { self.new
            ≡ (if is_ok result then slice_set self.old berth (Some id) else self.old) }
        ensures memory { IfErr result (λ fault. fault ≡ TakeFault.Memory) }
    {
        self.bits.make_room(berth)?;
        write_down(&mut self.holders, berth)?;
        self.berths.insert(id.0, berth as u16)?;
        self.holders[berth] = Some(id);
        self.bits.take(berth);
        self.note(berth, id);
        Ok(())
    }
}

impl Clone for Indices {
    ghost use Rattle.std.specs.Prelude.{◌≡◌};

    ghost is_clone = { λ indices copy. copy ≡ indices };

    /// The same indices, of the same threads.
    fn clone(&self) -> Result<Indices, AllocError> {
        Ok(Indices {
            holders: Vec::from_slice(*self.holders.allocator(), &self.holders)?,
            bits: self.bits.clone()?,
            berths: self.berths.clone()?,
            hints: self.hints.clone()?,
            limit: self.limit,
        })
    }
}

/// Whether these are the same holders at the same berths.
fn are_same(holders: &[Option<ThreadId>], others: &[Option<ThreadId>]) -> bool
    ensures { IsTrue result ↔ (holders.now ≡ others.now) }
{
    if holders.len() != others.len() {
        return false;
    }
    for (berth, holder) in holders.iter().enumerate() {
        if !is_same(*holder, others[berth]) {
            return false;
        }
    }
    true
}

/// Whether this is the same holder, or nobody both times.
fn is_same(holder: Option<ThreadId>, other: Option<ThreadId>) -> bool
    ensures { IsTrue result ↔ (holder ≡ other) }
{
    match (holder, other) {
        (Some(id), Some(other)) => id.0 == other.0,
        (None, None) => true,
        _ => false,
    }
}

/// Notes the berth of each holder.
fn note_all(hints: &mut Hints, holders: &[Option<ThreadId>])
    requires { length holders.now ≤ 32767 }
{
    for (berth, holder) in holders.iter().enumerate() {
        if let Some(id) = holder {
            hints.note(id.0, berth as u32);
        }
    }
}

/// Writes down that nobody has the next berth, where it is this one.
fn write_down(holders: &mut Vec<Option<ThreadId>>, berth: usize) -> Result<(), AllocError>
    requires { berth ≤ length holders.old.items }
    ensures ok { OnOk result (berth < length holders.new.items) }
    ensures same { (k : ℕ) → holder_at holders.new.items k ≡ holder_at holders.old.items k }
    ensures longer { length holders.old.items ≤ length holders.new.items }
    ensures few { length holders.new.items ≤ max (length holders.old.items) (berth + 1) }
{
    if berth == holders.len() {
        holders.push(None)?;
    }
    Ok(())
}
