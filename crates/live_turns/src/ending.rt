//! The end of a service: the shares of its passes in one, and their own deeds beside the record.

ghost use Rattle.std.specs.Prelude.{◌≡◌, ◌≤◌, ◌<◌, ◌+◌, IfOk, IfErr, OnErr, All, length, map, sum, true, false, vec_capacity, []};
ghost use Rattle.live_book.specs.Log.{Replays, nothing_bound};
ghost use Rattle.live_turns.specs.Ways.{Belongs};
ghost use Rattle.live_turns.specs.Numbers.{HasEach};
ghost use Rattle.live_turns.specs.Ends.{HasOwn, IsEnd, IsHandedBack, IsTorn, IsTornFrom, TellsEnd, count_of, numbers_of, words_of};

use crate::agreeing::agrees;
use crate::closed::{Closed, TurnsClose};
use crate::desks::{Crew, Desk, Own};
use crate::hands::Hand;
use crate::numbered::{Numbered, has_each};
use crate::{Logged, TurnPass, Turns};
use header_words::{CloseFault, Pass};
use lock_word::{Memory, Word};
use std::alloc::{AllocError, Global};
use std::marker::Model;
use std::snapshot::Snapshot;
use std::sync::ledger::Share;
use step_core::Point;

/// What is left of a pass without its words.
#[derive(Drop)]
struct Rest<L: Crew> {
    own: Own<L>,
    point: Point,
    index: u16,
    words: Snapshot<Pass<Box<Desk<L>>>>,
}

impl<L: Crew> Model for Rest<L> {
    ghost use Rattle.std.specs.Prelude.{◌≡◌};
    ghost use Rattle.live_turns.specs.Ways.{PassState};
    ghost use Rattle.live_turns.specs.Points.{Knows};

    ghost Value = { PassState };

    ghost view = { λ r. record {
      holding = record { words = r.words.value; own = r.own.list.items };
      point = r.point;
    } };

    ghost invariant = { λ r. (r.index ≡ r.words.value.index)
        × Knows r.point (record { words = r.words.value; own = r.own.list.items }) };
}

impl<L: Crew> Numbered for TurnPass<L> {
    ghost numbered = { λ p. p.holding.words.index };

    fn number(&self) -> u16 {
        self.hand.index()
    }
}

// How many deeds each pass did.
fn counts_of<L: Crew>(alloc: Global, passes: &[TurnPass<L>]) -> Result<Vec<u64>, AllocError>
    ensures { IfOk result (λ v. v.items ≡ map count_of passes.now) }
{
    let mut counts = Vec::with_capacity(alloc, passes.len())?;
    for pass in passes {
        counts.push(pass.hand.own.list.len() as u64)?;
    }
    Ok(counts)
}

// The shares of all passes in one.
fn gather<L: Crew>(mut rests: Vec<Rest<L>>, mut all: Share<L>) -> Share<L>
    ensures parts { result.parts ≡ all.parts + length rests.items }
    ensures amount { result.amount ≡ all.amount + sum (map count_of rests.items) }
{
    while let Some(rest) = rests.pop() {
        let Rest { own, .. } = rest;
        let Own { list: _, share } = own;
        all.merge(share);
    }
    all
}

// Whether the record has just the own deeds of each pass under its number.
fn all_agree<L: Crew>(log: &[Logged], rests: &[Rest<L>]) -> bool
    ensures own { result ≡ true → All (HasOwn log.now) rests.now }
    ensures other { result ≡ false → All (HasOwn log.now) rests.now → ⊥ }
{
    for rest in rests {
        if !agrees(log, rest.own.list.as_slice(), rest.index) {
            return false;
        }
    }
    true
}

// Rows for the counts of these passes, for their words, and for what is left of them.
fn rows_for<L: Crew>(
    alloc: Global,
    passes: &[TurnPass<L>],
) -> Result<(Vec<u64>, Vec<Pass<Box<Desk<L>>>>, Vec<Rest<L>>), AllocError>
    ensures counts { IfOk result (λ r. r.0.items ≡ map count_of passes.now) }
    ensures none { IfOk result (λ r. (r.1.items ≡ []) × (r.2.items ≡ [])) }
    ensures room { IfOk result (λ r. (length passes.now ≤ vec_capacity r.1)
        × (length passes.now ≤ vec_capacity r.2)) }
{
    let counts = counts_of(alloc, passes)?;
    let words = Vec::with_capacity(alloc, passes.len())?;
    let rests = Vec::with_capacity(alloc, passes.len())?;
    Ok((counts, words, rests))
}

// The words of the passes, and what is left of them. The two rows and the one that comes back have
// room for all.
fn take_apart<L: Crew>(
    passes: &mut Vec<TurnPass<L>>,
    words: &mut Vec<Pass<Box<Desk<L>>>>,
    rests: &mut Vec<Rest<L>>,
)
    requires room { length passes.old.items ≤ vec_capacity words.old }
    requires space { length passes.old.items ≤ vec_capacity rests.old }
    requires none { (words.old.items ≡ []) × (rests.old.items ≡ []) }
    ensures words { words.new.items ≡ map words_of passes.old.items }
    ensures rests { rests.new.items ≡ passes.old.items }
    ensures empty { passes.new.items ≡ [] }
    ensures room { length passes.old.items ≤ vec_capacity passes.new }
{
    while let Some(pass) = passes.pop() {
        let TurnPass { hand, point } = pass;
        let Hand { words: row, own } = hand;
        let index = row.index();
        rests.push_reserved(Rest {
            own,
            point,
            index,
            words: Snapshot::of(&row),
        });
        words.push_reserved(row);
    }
    words.reverse();
    rests.reverse();
}

// The passes again.
fn put_together<L: Crew>(
    mut words: Vec<Pass<Box<Desk<L>>>>,
    mut rests: Vec<Rest<L>>,
    passes: &mut Vec<TurnPass<L>>,
)
    requires same { words.items ≡ map words_of rests.items }
    requires none { passes.old.items ≡ [] }
    requires room { length rests.items ≤ vec_capacity passes.old }
    ensures { passes.new.items ≡ rests.items }
{
    while let Some(rest) = rests.pop() {
        let Rest { own, point, .. } = rest;
        let Some(words) = words.pop() else {
            unreachable!()
        };
        passes.push_reserved(TurnPass {
            hand: Hand { words, own },
            point,
        });
    }
    passes.reverse();
}

impl<L: Crew> Desk<L> {
    // What a desk leaves, with the words of the objects, beside the deeds of these passes.
    fn end(
        self,
        words: Vec<Word>,
        counts: Vec<u64>,
        rests: Vec<Rest<L>>,
    ) -> Result<Closed, TurnsClose<L>>
        requires parts { length rests.items ≡ L.parts }
        requires counts { counts.items ≡ map count_of rests.items }
        ensures end { IfOk result (λ c. (c.words ≡ words) × (c.counts ≡ counts)
            × (c.logged.items ≡ self.book.log) × All (HasOwn c.logged.items) rests.items
            × (length c.logged.items ≡ sum (map count_of rests.items))) }
        ensures replays { IfOk result (λ c. Replays self.book.passes
            (nothing_bound self.book.passes self.book.fats.limit) c.logged.items self.book.fats) }
        ensures torn { IfErr result IsTorn }
        ensures other { OnErr result (All (HasOwn self.book.log) rests.items → ⊥) }
        ensures told { Replays self.book.passes
            (nothing_bound self.book.passes self.book.fats.limit) self.book.log self.book.fats }
        ensures total { length self.book.log ≡ sum (map count_of rests.items) }
    {
        let Desk {
            book,
            mut total,
            rest,
            ..
        } = self;
        let logged = book.into_log();
        let agree = all_agree(&logged, &rests);
        let mut all = gather(rests, rest);
        total.audit(&mut all);
        if !agree {
            return Err(TurnsClose::Torn);
        }
        Ok(Closed {
            words,
            logged,
            counts,
        })
    }
}

impl<L: Crew> Turns<L> {
    /// Closes the service: the words of its objects, its record, and how many deeds each pass did.
    ///
    /// A missing pass comes before want of memory; both give everything back as it was. A pass may
    /// be in the middle of a call, of which the words and the record then have the beginning.
    pub fn close(self, alloc: Global, mut passes: Vec<TurnPass<L>>) -> Result<Closed, TurnsClose<L>>
        requires belong { All (λ p. Belongs self false p.holding) passes.items }
        requires crew { (L.parts ≡ self.count) × (L.passes ≡ self.count) }
        ensures end { IfOk result (IsEnd self L.monitors passes.items) }
        ensures all { IfOk result (λ _. HasEach self.count (numbers_of passes.items)) }
        ensures fault { IfErr result (TellsEnd self.count passes.items) }
        ensures torn { IfErr result (IsTornFrom self L.monitors passes.items) }
        ensures back { IfErr result (IsHandedBack self passes.items) }
    {
        if !has_each(&passes, self.passes) {
            return Err(TurnsClose::WrongPass {
                turns: self,
                passes,
            });
        }
        let Ok((counts, words, rests)) = rows_for(alloc, &passes) else {
            return Err(TurnsClose::Memory {
                turns: self,
                passes,
            });
        };
        self.close_all(alloc, passes, counts, words, rests)
    }

    // The end, where the passes are all there, with the rows that it fills.
    fn close_all(
        self,
        alloc: Global,
        mut passes: Vec<TurnPass<L>>,
        counts: Vec<u64>,
        mut words: Vec<Pass<Box<Desk<L>>>>,
        mut rests: Vec<Rest<L>>,
    ) -> Result<Closed, TurnsClose<L>>
        requires belong { All (λ p. Belongs self false p.holding) passes.items }
        requires crew { (L.parts ≡ self.count) × (L.passes ≡ self.count) }
        requires each { HasEach self.count (numbers_of passes.items) }
        requires counts { counts.items ≡ map count_of passes.items }
        requires none { (words.items ≡ []) × (rests.items ≡ []) }
        requires room { (length passes.items ≤ vec_capacity words)
            × (length passes.items ≤ vec_capacity rests) }
        ensures end { IfOk result (IsEnd self L.monitors passes.items) }
        ensures fault { IfErr result (TellsEnd self.count passes.items) }
        ensures torn { IfErr result (IsTornFrom self L.monitors passes.items) }
        ensures back { IfErr result (IsHandedBack self passes.items) }
    {
        take_apart(&mut passes, &mut words, &mut rests);
        let Turns {
            headers,
            objects,
            passes: count,
        } = self;
        match headers.close(alloc, words) {
            Ok((words, desk)) => Box::into_inner(desk).end(words, counts, rests),
            Err(
                CloseFault::Memory {
                    headers,
                    passes: words,
                },
            ) => {
                put_together(words, rests, &mut passes);
                let turns = Turns {
                    headers,
                    objects,
                    passes: count,
                };
                Err(TurnsClose::Memory { turns, passes })
            }
            Err(CloseFault::WrongPass { .. }) => unreachable!(),
        }
    }
}
