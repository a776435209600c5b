//! What passes do to words, one event after another.
ghost use Rattle.std.specs.Prelude.{◌≡◌, ℕ, ◌≤◌};
ghost use Rattle.header_words.specs.WideWords.{Fits, lock_of, with_lock};
ghost use Rattle.lock_word.specs.Layout.{low_of};
ghost use Rattle.header_words.specs.Events.{Legal, effect};
ghost use Rattle.header_words.specs.declared.event.EventKind.{EventKind};

/// What a pass did to the word of an object, by one atomic step: the kind of an event.
pub enum EventKind {
    /// It loaded the word, and this was it.
    Load(u32),
    /// It exchanged the free word for its own thin word.
    Win,
    /// It tried that exchange, and found a word that is not free.
    Lose,
    /// It added one lock to the thin word.
    Nest,
    /// It took one of several locks from the thin word.
    Unnest,
    /// It stored the free word.
    Release,
    /// It stored the fat word of this monitor.
    Publish(u32),
}

/// An event of this kind, with the index of its pass and the number of its object. Contracts speak
/// of events, and no value of it is made.
pub struct Event {
    pub pass: u64,
    pub object: u64,
    pub kind: EventKind,
}

/// No event changes bits 7 to 0 of a word: the word with the lock after it has the low byte of
/// the word before it.
#[tactic(auto, using(crate::proofs::Traces::low_kept_by))]
pub fn events_keep_low_bytes()
    ensures { (i : ℕ) (kind : EventKind) (word : ℕ) → 1 ≤ i → i ≤ 32767 →
        Fits (lock_of word) → Legal i kind (lock_of word) (low_of word) →
        low_of (with_lock word (effect i kind (lock_of word))) ≡ low_of word }
{}
