//! A change between the splits of a header word, in a world at rest.

ghost use Rattle.std.specs.Prelude.{◌≡◌, ◌<◌, ◌≤◌, ◌+◌, ◌-◌, ℕ, List, length, map, count_by};
ghost use Rattle.std.specs.Prelude.{slice_index_or, Bool, true, false, Option, Some, IsSome, OnOk};
ghost use Rattle.std.specs.Prelude.{OnErr, IfErr};
ghost use Rattle.lock_word.specs.declared.ThreadId.{ThreadId};
ghost use Rattle.lock_word.specs.declared.Lock.TheVariants.{Thin};
ghost use Rattle.lock_word.specs.Layout.{lock_of, IsMalformed, Fits, greatest_index};
ghost use Rattle.lock_word.specs.Layout.{greatest_count};
ghost use Rattle.thread_index.specs.Indices.{holder_at, holder_of};
ghost use Rattle.fat_monitor.specs.FatState.{IsAttached, with_spare};
ghost use Rattle.step_core.specs.declared.places.Place.{Place};
ghost use Rattle.step_core.specs.World.{lock_at, low_word};
ghost use Rattle.step_core.specs.Ready.{world_of};
ghost use Rattle.step_core.specs.Shown.{shown};
ghost use Rattle.step_core.specs.Kept.{Keeps};
ghost use Rattle.step_core.specs.Relayout.{IsAtRest, is_at_rest, holder_rests, is_too_deep};
ghost use Rattle.step_core.specs.Relayout.{is_deep_word, deep_in, inflated_at, inflated_below};
ghost use Rattle.step_core.specs.Relayout.{is_same_split, word_in, respelled, after_relayout};
ghost use Rattle.step_core.specs.declared.worlds.relayout.RelayoutFault.TheVariants as fault;

use super::World;
use crate::Doing;
use fat_monitor::Fats;
use lock_word::{Lock, Memory, ObjectId, Split, Word, lock_of, with_lock};
use std::error::Error;
use std::fmt;
use thread_index::Indices;

/// Why a relayout was refused: the first of NotAtRest, IndexTooWide, NoMonitor and Memory whose
/// cause holds. The world is then unchanged.
#[derive(Clone, Copy, PartialEq, Eq, Debug)]
pub enum RelayoutFault {
    /// The system has no memory for the monitors to be bound.
    Memory = 2,
    /// Too few monitors are left for the thin locks whose count does not fit.
    NoMonitor = 11,
    /// A live thread is in a call in which it neither waits nor is back from a wait set.
    NotAtRest = 29,
    /// The world has more indices than the split can write.
    IndexTooWide = 30,
}

impl RelayoutFault {
    ghost use Rattle.step_core.specs.Names.{relayout_fault_number};

    /// The number by which a report names the fault.
    pub fn number(self) -> u8
        ensures { result ≡ relayout_fault_number self }
    {
        self as u8
    }
}

impl fmt::Display for RelayoutFault {
    ghost use Rattle.std.specs.Prelude.{Some};
    ghost use Rattle.step_core.specs.Names.{relayout_fault_name};

    ghost output = { λ x. Some (relayout_fault_name x) };

    fn fmt<W: fmt::Write>(&self, f: &mut fmt::Formatter<W>) -> fmt::Result {
        f.write_str(match self {
            RelayoutFault::Memory => "Memory",
            RelayoutFault::NoMonitor => "NoMonitor",
            RelayoutFault::NotAtRest => "NotAtRest",
            RelayoutFault::IndexTooWide => "IndexTooWide",
        })
    }
}

impl Error for RelayoutFault {}

impl World {
    /// Writes every header word in this split. A thin lock whose count does not fit is inflated: in
    /// the order of objects, each gets the next fat monitor, with its owner and its holds. Answers
    /// how many were.
    ///
    /// It is made at rest, that is while each live thread is in no call, waits, or is back from a
    /// wait set. It makes no move of the abstract machine, and the world shows the same state
    /// before and after it. Where it is refused it leaves the world as it is; at rest and to the
    /// split that the world has, too.
    pub fn relayout(&mut self, split: Split) -> Result<u32, RelayoutFault>
        // The answer and the new world are those of the definition; room is whether memory is
        // granted.
        ensures exact { (room : Bool) × (record { answer = result; after = self.new }
            ≡ after_relayout room self.old split) }
        ensures rest { OnOk result (IsAtRest (shown self.old)) }
        ensures busy { IfErr result (λ f. f ≡ fault.NotAtRest → IsAtRest (shown self.old) → ⊥) }
        ensures unchanged { OnErr result (self.new ≡ self.old) }
        ensures shows { shown self.new ≡ shown self.old }
        ensures kept { Keeps self.old self.new }
        ensures same { OnOk result (split ≡ self.old.split → self.new ≡ self.old) }
    {
        if !self.is_at_rest() {
            return Err(RelayoutFault::NotAtRest);
        }
        if self.has_split(split) {
            return Ok(0);
        }
        if self.indices() > split.greatest_index() {
            return Err(RelayoutFault::IndexTooWide);
        }
        let deep = self.count_deep(split);
        if self.unbound() < deep {
            return Err(RelayoutFault::NoMonitor);
        }
        let Ok(()) = self.reserve(deep) else {
            return Err(RelayoutFault::Memory);
        };
        self.inflate_deep(split);
        self.respell(split);
        Ok(deep)
    }

    /// Whether the words are written in this split.
    fn has_split(&self, split: Split) -> bool
        ensures { result ≡ is_same_split split self.now.split }
    {
        match (split, self.split) {
            (Split::Wide, Split::Wide) | (Split::Deep, Split::Deep) => true,
            (Split::Wide, Split::Deep) | (Split::Deep, Split::Wide) => false,
        }
    }

    /// How many monitors are left to be bound.
    fn unbound(&self) -> u32
        ensures { length self.now.fats.monitors + result ≡ self.now.fats.limit }
    {
        self.fats.limit() - self.fats.bound()
    }

    /// Whether each live thread is in no call, waits, or is back from a wait set.
    fn is_at_rest(&self) -> bool
        ensures { result ≡ is_at_rest self.now }
    {
        for berth in 0..self.indices() {
            if !self.rests(berth + 1) {
                return false;
            }
        }
        true
    }

    /// The same of the thread that has this index, if one has it.
    fn rests(&self, index: u16) -> bool
        ensures { result ≡ holder_rests (shown self.now) (holder_of self.now.berths index) }
    {
        let Some(thread) = self.thread_at(index) else {
            return true;
        };
        !matches!(self.doing(thread), Some(Doing::Wants(_) | Doing::Has(_)))
    }

    /// How many thin locks have a count that does not fit this split.
    fn count_deep(&self, split: Split) -> u32
        ensures { result ≡ deep_in split self.now }
    {
        count_deep(self.words.as_slice(), self.split, split)
    }

    /// Makes room for so many binds to come.
    fn reserve(&mut self, binds: u32) -> Result<(), Memory>
        ensures ok { OnOk result (self.new
            ≡ record self.old { fats = with_spare self.old.fats binds }) }
        ensures less { OnErr result (self.old.fats.spare < binds) }
        ensures unchanged { OnErr result (self.new ≡ self.old) }
    {
        self.fats.reserve_monitors(binds)
    }

    /// Inflates each thin lock whose count does not fit this split, in the order of objects.
    fn inflate_deep(&mut self, split: Split)
        requires rest { IsAtRest (shown self.old) }
        requires room { length self.old.fats.monitors + deep_in split self.old
            ≤ self.old.fats.limit }
        requires spare { deep_in split self.old ≤ self.old.fats.spare }
        ensures exact { self.new ≡ inflated_below split self.old (length self.old.words) }
        ensures fit { (p : ℕ) → p < length self.new.words
            → is_too_deep split (lock_at self.new p) ≡ false }
        ensures shows { shown self.new ≡ shown self.old }
    {
        for object in 0..self.objects() {
            self.inflate(ObjectId(object), split);
        }
    }

    /// Inflates the lock of an object, if it is a thin one whose count does not fit this split.
    fn inflate(&mut self, object: ObjectId, split: Split)
        requires here { object.0 < length self.old.words }
        requires rest { IsAtRest (shown self.old) }
        requires room { is_too_deep split (lock_at self.old object.0) ≡ true
            → (length self.old.fats.monitors < self.old.fats.limit) × (1 ≤ self.old.fats.spare) }
        ensures exact { self.new ≡ inflated_at split self.old object.0 }
        ensures fits { is_too_deep split (lock_at self.new object.0) ≡ false }
        ensures shows { shown self.new ≡ shown self.old }
    {
        inflate(
            self.split,
            &mut self.words,
            &self.indices,
            &mut self.fats,
            object,
            split,
        );
    }

    /// Writes every word in this split, which each lock fits.
    fn respell(&mut self, split: Split)
        requires rest { IsAtRest (shown self.old) }
        requires few { length self.old.berths ≤ greatest_index split }
        requires fit { (p : ℕ) → p < length self.old.words
            → is_too_deep split (lock_at self.old p) ≡ false }
        ensures exact { self.new ≡ respelled split self.old }
        ensures shows { shown self.new ≡ shown self.old }
    {
        respell(&mut self.words, self.split, split);
        self.split = split;
    }
}

/// How many of these words have a thin lock whose count does not fit the split `new`.
fn count_deep(words: &[Word], old: Split, new: Split) -> u32
    requires many { length words.now ≤ 65535 }
    requires formed { (p : ℕ) → IsMalformed old (slice_index_or words.now p (low_word 0)).0 → ⊥ }
    ensures { result ≡ count_by (is_deep_word old new) words.now }
{
    let mut deep = 0;
    for &word in words {
        if is_too_deep(lock_of(old, word), new) {
            deep += 1;
        }
    }
    deep
}

/// Whether this is a thin lock whose count does not fit the split.
fn is_too_deep(lock: Lock, split: Split) -> bool
    ensures { result ≡ is_too_deep split lock }
{
    match lock {
        Lock::Thin { count, .. } => count > split.greatest_count(),
        Lock::Free | Lock::Fat { .. } => false,
    }
}

/// Inflates the lock of an object, if it is a thin one whose count does not fit the split `new`.
/// Its fat word is written in the split `old`.
fn inflate(
    old: Split,
    words: &mut Vec<Word>,
    indices: &Indices,
    fats: &mut Fats,
    object: ObjectId,
    new: Split,
)
    requires here { object.0 < length words.old.items }
    requires formed { IsMalformed old (slice_index_or words.old.items object.0 (low_word 0)).0 → ⊥ }
    requires held { (i n : ℕ)
        → lock_of old (slice_index_or words.old.items object.0 (low_word 0)).0 ≡ Thin i n
        → (1 ≤ i) × (n ≤ greatest_count old) × IsSome (holder_at indices.now (i - 1)) }
    requires live { (k : ℕ) (t : ThreadId) → holder_at indices.now k ≡ Some t
        → IsAttached fats.old t }
    requires room { is_deep_word old new (slice_index_or words.old.items object.0 (low_word 0))
        ≡ true
        → (length fats.old.monitors < fats.old.limit) × (1 ≤ fats.old.spare) }
    ensures { (places : List Place) → world_of old words.new.items indices.now places fats.new
        ≡ inflated_at new (world_of old words.old.items indices.now places fats.old) object.0 }
{
    let position = object.0 as usize;
    let Lock::Thin { index, count } = lock_of(old, words[position]) else {
        return;
    };
    if count <= new.greatest_count() {
        return;
    }
    let Some(owner) = indices.id_of(index) else {
        unreachable!();
    };
    let Ok(receipt) = fats.bind(object, owner, count + 1) else {
        unreachable!();
    };
    let monitor = receipt.monitor();
    words[position] = with_lock(old, words[position], Lock::Fat { monitor });
}

/// Writes each word in the split `new`, which its lock fits.
fn respell(words: &mut Vec<Word>, old: Split, new: Split)
    requires formed { (p : ℕ) → IsMalformed old (slice_index_or words.old.items p (low_word 0)).0
        → ⊥ }
    requires fit { (p : ℕ)
        → Fits new (lock_of old (slice_index_or words.old.items p (low_word 0)).0) }
    ensures { words.new.items ≡ map (word_in old new) words.old.items }
{
    for word in words.iter_mut() {
        *word = with_lock(new, *word, lock_of(old, *word));
    }
}
