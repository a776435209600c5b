//! The header words of objects, and the atomic steps on them.
ghost use Rattle.std.specs.Prelude.{◌≡◌, ℕ, ◌+◌, ◌-◌, ◌<◌, ◌≤◌, length, true, false};
ghost use Rattle.std.specs.Bool.{OnTrue, OnFalse};

use crate::kept::Kept;
use crate::pass::{Parts, Pass};
use crate::rule::{
    Exchange, Firsts, Joined, Law, Layout, Look, Nests, Publishes, Releases, StoreKind, Stored,
    Sync, Unnests, View,
};
use atomic_table::Table;
use fat_monitor::Receipt;
use lock_word::{Lock, ObjectId, Split, Word, encode};
use std::alloc::Global;
use std::marker::Model;

/// The header words of the objects of a world, and a book behind a gate, which threads share. Each
/// thread has a [`Pass`] of its own.
#[derive(Drop)]
pub struct Headers<B: Kept> {
    pub(crate) table: Table<Option<B>, View, Layout, Law, Global>,
    pub(crate) layout: Layout,
}

impl<B: Kept> Model for Headers<B> {
    ghost use Rattle.header_words.specs.Passes.{Opening, opening_of, IsHeaders};

    ghost Value = { Opening };

    ghost view = { λ h. opening_of h.table.shared.table_id h.layout };

    ghost invariant = { λ h. IsHeaders h.table.shared.table_id h.table.shared.key h.layout };
}

impl<B: Kept> Headers<B> {
    ghost use Rattle.header_words.specs.Passes.{MakesEvent, HaveMet, depth_at, low_at, word_at};
    ghost use Rattle.header_words.specs.Steps.{MayStore, ShowsDepth};
    ghost use Rattle.header_words.specs.declared.event.EventKind.TheVariants.{Load, Win, Lose, Nest};
    ghost use Rattle.header_words.specs.declared.event.EventKind.TheVariants.{Unnest, Release, Publish};
    ghost use Rattle.lock_word.specs.declared.Lock.TheVariants.{Free, Thin, Fat};
    ghost use Rattle.header_words.specs.Bindings.{Binds, HasPublish};
    ghost use Rattle.header_words.specs.WideWords.{Fits, lock_of};

    /// Loads the word of the object. Other threads may change it at once, unless the pass holds the
    /// object thinly.
    pub fn load(&self, pass: &mut Pass<B>, object: ObjectId) -> Word
        requires belongs { pass.old.opening ≡ self.now }
        requires object { object.0 < length self.now.lows }
        ensures event { MakesEvent object.0 (Load result.0) result.0 pass.old pass.new }
        ensures shows { ShowsDepth pass.old.index (depth_at pass.old object.0)
            (low_at self.now object.0) result.0 }

        // The word of an object that the pass holds is its own.
        ensures own { (c : ℕ) → depth_at pass.old object.0 ≡ c + 1 →
            result.0 ≡ word_at self.now object.0 (Thin pass.old.index c) }

        // A fat word shows a monitor that was published at the object.
        ensures published { (m : ℕ) → lock_of result.0 ≡ Fat m →
            HasPublish m object.0 pass.new.seen }
    {
        let found = self
            .table
            .shared
            .load::<Look>(&mut pass.seat, object.0 as usize + 1);
        Word(found as u32)
    }

    /// Exchanges the free word for the thin word of the pass, with one lock, and says whether it
    /// did: false where the word was not free. It is one exchange, and no load comes before it.
    pub fn acquire(&self, pass: &mut Pass<B>, object: ObjectId) -> bool
        requires belongs { pass.old.opening ≡ self.now }
        requires object { object.0 < length self.now.lows }
        requires free { depth_at pass.old object.0 ≡ 0 }
        ensures won { OnTrue result (MakesEvent object.0 Win
            (word_at self.now object.0 (Thin pass.old.index 0)) pass.old pass.new) }
        ensures lost { OnFalse result ((n : ℕ) × MakesEvent object.0 Lose n pass.old pass.new) }
    {
        let at = object.0 as usize;
        let low = pass.lows[at];
        let index = pass.index;
        let new = encode(Split::Wide, Lock::Thin { index, count: 0 }, low);
        let found = self
            .table
            .shared
            .compare_exchange::<Exchange>(&mut pass.seat, at + 1, u64::from(low), u64::from(new.0));
        if found == u64::from(low) {
            pass.depths[at] = 1;
            return true;
        }
        false
    }

    // An owner's plain store: nobody else changes the word while the pass holds the object thinly.
    // The row of depths is written first, so that the store is the last step of the call.
    fn note_then_store<D: StoreKind>(
        &self,
        pass: &mut Pass<B>,
        object: ObjectId,
        lock: Lock,
        left: u16,
    )
        requires belongs { pass.old.opening ≡ self.now }
        requires object { object.0 < length self.now.lows }
        requires fits { Fits lock }
        requires most { left ≤ 256 }
        requires legal { MayStore pass.old.index (depth_at pass.old object.0) pass.old.has_gate
            (D.kind (word_at self.now object.0 lock)) (low_at self.now object.0) lock left }
        ensures { MakesEvent object.0 (D.kind (word_at self.now object.0 lock))
            (word_at self.now object.0 lock) pass.old pass.new }
    {
        let at = object.0 as usize;
        let low = pass.lows[at];
        let new = encode(Split::Wide, lock, low);
        pass.depths[at] = left;
        self.table
            .shared
            .store::<Stored<D>>(&mut pass.seat, at + 1, u64::from(new.0));
    }

    /// Adds one lock to the thin word of the pass, by one plain store.
    pub fn nest(&self, pass: &mut Pass<B>, object: ObjectId)
        requires belongs { pass.old.opening ≡ self.now }
        requires object { object.0 < length self.now.lows }
        requires some { 1 ≤ depth_at pass.old object.0 }
        requires few { depth_at pass.old object.0 ≤ 255 }
        ensures { MakesEvent object.0 Nest
            (word_at self.now object.0 (Thin pass.old.index (depth_at pass.old object.0)))
            pass.old pass.new }
    {
        let depth = pass.depth(object);
        let index = pass.index();
        let lock = Lock::Thin {
            index,
            count: depth,
        };
        self.note_then_store::<Nests>(pass, object, lock, depth + 1);
    }

    /// Takes one of several locks from the thin word of the pass, by one plain store.
    pub fn unnest(&self, pass: &mut Pass<B>, object: ObjectId)
        requires belongs { pass.old.opening ≡ self.now }
        requires object { object.0 < length self.now.lows }
        requires several { 2 ≤ depth_at pass.old object.0 }
        ensures { MakesEvent object.0 Unnest
            (word_at self.now object.0 (Thin pass.old.index (depth_at pass.old object.0 - 2)))
            pass.old pass.new }
    {
        let depth = pass.depth(object);
        let index = pass.index();
        let lock = Lock::Thin {
            index,
            count: depth - 2,
        };
        self.note_then_store::<Unnests>(pass, object, lock, depth - 1);
    }

    /// Makes the word free again, by one plain store, where the pass has one lock.
    pub fn release(&self, pass: &mut Pass<B>, object: ObjectId)
        requires belongs { pass.old.opening ≡ self.now }
        requires object { object.0 < length self.now.lows }
        requires one { depth_at pass.old object.0 ≡ 1 }
        ensures { MakesEvent object.0 Release (word_at self.now object.0 Free) pass.old pass.new }
    {
        self.note_then_store::<Releases>(pass, object, Lock::Free, 0);
    }

    /// Shows the monitor of the receipt in the word of its object, by one plain store. The monitor
    /// has the holds from then on, and the depth of the pass is 0. The pass has the gate, and the
    /// book in hand binds the monitor to the object.
    pub fn publish(&self, pass: &mut Pass<B>, book: &B, receipt: Receipt)
        requires belongs { pass.old.opening ≡ self.now }
        requires object { receipt.object.0 < length self.now.lows }
        requires owner { receipt.owner.0 ≡ pass.old.index }
        requires holds { receipt.holds ≡ depth_at pass.old receipt.object.0 }
        requires gate { pass.old.has_gate ≡ true }
        requires bound { Binds (B.bound book.now) receipt.monitor receipt.object.0 }
        ensures { MakesEvent receipt.object.0 (Publish receipt.monitor)
            (word_at self.now receipt.object.0 (Fat receipt.monitor)) pass.old pass.new }
    {
        // The book serves its condition alone. The invariants of the two others are needed: low
        // bytes are below 256, and a receipt has at least one hold.
        let _ = book;
        let _ = &self.layout;
        prove!(receipt.holds() >= 1);
        let monitor = receipt.monitor();
        self.note_then_store::<Publishes>(pass, receipt.object(), Lock::Fat { monitor }, 0);
    }

    /// Makes two passes see one trace: all that the one or the other has seen, and all that came
    /// before now. It changes no word.
    pub fn meet(&self, left: Pass<B>, right: Pass<B>) -> (Pass<B>, Pass<B>)
        requires left { left.opening ≡ self.now }
        requires right { right.opening ≡ self.now }
        requires without { (left.has_gate ≡ false) × (right.has_gate ≡ false) }
        ensures { HaveMet left right result.0 result.1 }
    {
        let left_parts = left.into_parts();
        let right_parts = right.into_parts();
        let Parts {
            index: left_index,
            depths: left_depths,
            lows: left_lows,
            has_gate: _,
            seat: mut one,
        } = left_parts;
        let Parts {
            index: right_index,
            depths: right_depths,
            lows: right_lows,
            has_gate: _,
            seat: other,
        } = right_parts;
        self.table.shared.join_seat::<Joined>(&mut one, other);
        self.table.shared.load::<Sync>(&mut one, 0);
        let first = self.table.shared.split_seat::<Firsts>(&mut one);
        (
            Pass {
                index: left_index,
                depths: left_depths,
                lows: left_lows,
                has_gate: false,
                seat: first,
            },
            Pass {
                index: right_index,
                depths: right_depths,
                lows: right_lows,
                has_gate: false,
                seat: one,
            },
        )
    }
}
