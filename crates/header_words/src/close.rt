//! The end of the words of objects.
ghost use Rattle.std.specs.Prelude.{◌≡◌, ◌↔◌, ◌+◌, ◌<◌, ◌≤◌, ℕ, [], length, IfOk, IfErr, IsTrue, All, Contains};
ghost use Rattle.std.specs.Prelude.{map, slice_index, true, false, vec_capacity};
ghost use Rattle.std.specs.Mem.Slots.{slots_items, slots_len, IsFull};
ghost use Rattle.header_words.specs.Passes.{HasAll, LacksOne, indices_of};

use crate::headers::Headers;
use crate::kept::Kept;
use crate::pass::{Parts, Pass};
use crate::rule::{Joined, Layout, View};
use atomic_table::{Closed, Seat};
use lock_word::Word;
use std::alloc::Global;

/// Why the words were not closed. Headers and passes come back as they were.
#[derive(Drop)]
pub enum CloseFault<B: Kept> {
    /// No pass has one of the indices 1 to the number of passes that were opened.
    WrongPass {
        headers: Headers<B>,
        passes: Vec<Pass<B>>,
    },
    /// Each index is there, and the system refused room for the words, of which there is one at
    /// least.
    Memory {
        headers: Headers<B>,
        passes: Vec<Pass<B>>,
    },
}

// Each index from 1 to `count` is some pass's.
fn has_all<B>(passes: &[Pass<B>], count: u16) -> bool
    ensures found { result ≡ true → HasAll count passes.now }
    ensures missing { result ≡ false → LacksOne count passes.now }
{
    for below in 0..count {
        if !has_index(passes, below + 1) {
            return false;
        }
    }
    true
}

fn has_index<B>(passes: &[Pass<B>], index: u16) -> bool
    ensures { IsTrue result ↔ Contains (indices_of passes.now) index }
{
    for pass in passes {
        if pass.index() == index {
            return true;
        }
    }
    false
}

// The words of all objects, of which the first stands behind the word of the gate.
fn words_of<B: Kept>(
    closed: &Closed<Option<B>, Global>,
    mut words: Vec<Word>,
    objects: usize,
) -> Vec<Word>
    requires empty { words.items ≡ [] }
    requires room { objects ≤ vec_capacity words }
    requires there { objects < slots_len closed.now.words }
    requires full { IsFull closed.now.words }
    requires small { (o : ℕ) → o < objects
        → slice_index (slots_items closed.now.words) (o + 1) < 4294967296 }
    ensures len { length result.items ≡ objects }
    ensures each { (o : ℕ) → o < objects → slice_index (map (λ w. w.0) result.items) o
        ≡ slice_index (slots_items closed.now.words) (o + 1) }
{
    for o in 0..objects {
        words.push_reserved(Word(closed.word(o + 1) as u32));
    }
    words
}

impl<B: Kept> Headers<B> {
    ghost use Rattle.header_words.specs.Passes.{IsClosed, TookAll};
    ghost use Rattle.header_words.specs.Faults.{IsHandedBack, TellsFault};

    /// The words in the end, where each index has its pass, and the book.
    ///
    /// A pass that is missing comes before want of memory.
    pub fn close(self, alloc: Global, passes: Vec<Pass<B>>) -> Result<(Vec<Word>, B), CloseFault<B>>
        requires belong { All (λ p. p.opening ≡ self) passes.items }
        requires without { All (λ p. p.has_gate ≡ false) passes.items }
        ensures words { IfOk result (λ r.
            IsClosed self passes.items (map (λ w. w.0) r.0.items) (B.bound r.1)) }
        ensures all { IfOk result (λ _. HasAll self.count passes.items) }
        ensures fault { IfErr result (TellsFault self.count passes.items) }
        ensures back { IfErr result (IsHandedBack self passes.items) }
    {
        if !has_all(passes.as_slice(), self.layout.count) {
            return Err(CloseFault::WrongPass {
                headers: self,
                passes,
            });
        }
        let objects = self.layout.lows.len();
        let Ok(words) = Vec::with_capacity(alloc, objects) else {
            return Err(CloseFault::Memory {
                headers: self,
                passes,
            });
        };
        let seat = self.join_all(passes);
        let Headers { table, layout } = self;
        let mut closed = table.close_with(seat);
        let words = words_of(&closed, words, objects);
        let kept = closed.take(0);
        let Some(book) = kept else { unreachable!() };
        closed.free();
        let Layout { lows: _, count: _ } = layout;
        Ok((words, book))
    }

    // One seat that has the indices of all passes.
    fn join_all(&self, mut passes: Vec<Pass<B>>) -> Seat<Option<B>, View>
        requires some { 0 < length passes.items }
        requires belong { All (λ p. p.opening ≡ self.now) passes.items }
        requires without { All (λ p. p.has_gate ≡ false) passes.items }
        ensures { (result.table_id ≡ self.now.table) × TookAll passes.items result.me.0 }
    {
        let Some(last) = passes.pop() else {
            unreachable!()
        };
        let Parts {
            index: _,
            depths: _,
            lows: _,
            has_gate: _,
            mut seat,
        } = last.into_parts();
        while let Some(pass) = passes.pop() {
            let Parts {
                index: _,
                depths: _,
                lows: _,
                has_gate: _,
                seat: other,
            } = pass.into_parts();
            self.table.shared.join_seat::<Joined>(&mut seat, other);
        }
        seat
    }
}
