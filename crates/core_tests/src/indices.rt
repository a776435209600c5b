ghost use Rattle.std.specs.Prelude.{◌≤◌};

mod plain;

use crate::rows::expect_none;
use lock_word::ThreadId;
use plain::PlainIndices;
use std::alloc::Global;
use std::test::Fail;
use thread_index::{Indices, TakeFault};

/// What is asked of the indices, where threads go by their numbers, and what has to be answered.
#[derive(Clone, Copy)]
enum Ask {
    Takes(u32, Result<u16, TakeFault>),
    Gives(u32, Option<u16>),
    /// The thread takes this index, and tries again where memory was refused.
    TakesAtLast(u32, u16),
    /// The thread has this index; None: it has none.
    Has(u32, Option<u16>),
    /// The index is this thread's; None: nobody's.
    IsHeld(u16, Option<u32>),
}

/// Whether the thread takes this index; where memory was refused, whether nothing shows of it, and
/// a second take succeeds.
fn takes_at_last(indices: &mut Indices, thread: u32, index: u16) -> bool {
    let thread = ThreadId(thread);
    let first = indices.take(thread);
    if first != Err(TakeFault::Memory) {
        return first == Ok(index);
    }
    indices.index_of(thread) == None
        && indices.id_of(index) == None
        && indices.take(thread) == Ok(index)
}

/// Whether this is the answer.
fn answers(indices: &mut Indices, ask: Ask) -> bool {
    match ask {
        Ask::Takes(thread, answer) => indices.take(ThreadId(thread)) == answer,
        Ask::Gives(thread, answer) => indices.give(ThreadId(thread)) == answer,
        Ask::TakesAtLast(thread, index) => takes_at_last(indices, thread, index),
        Ask::Has(thread, index) => indices.index_of(ThreadId(thread)) == index,
        Ask::IsHeld(index, thread) => indices.id_of(index) == thread.map(ThreadId),
    }
}

/// The first of these that is answered otherwise.
fn first_other(indices: &mut Indices, asks: &[Ask]) -> Option<usize> {
    for (row, &ask) in asks.iter().enumerate() {
        if !answers(indices, ask) {
            return Some(row);
        }
    }
    None
}

/// So many indices, of which no thread has one.
fn open(alloc: Global, limit: u16) -> Indices
    requires some { 1 ≤ limit }
    requires few { limit ≤ 32767 }
{
    Indices::new(alloc, limit).unwrap()
}

#[test]
fn two_indices_and_three_threads(rt: HostRuntime) {
    const ASKS: [Ask; 18] = [
        Ask::Has(7, None),
        Ask::IsHeld(1, None),
        Ask::Takes(7, Ok(1)),
        Ask::Takes(9, Ok(2)),
        Ask::Takes(7, Err(TakeFault::Known)),
        Ask::Takes(8, Err(TakeFault::NoIndex)),
        Ask::Gives(8, None),
        Ask::IsHeld(0, None),
        Ask::IsHeld(1, Some(7)),
        Ask::IsHeld(2, Some(9)),
        Ask::IsHeld(3, None),
        Ask::Gives(7, Some(1)),
        Ask::Has(7, None),
        Ask::IsHeld(1, None),
        Ask::Takes(8, Ok(1)),
        Ask::Has(7, None),
        Ask::Has(8, Some(1)),
        Ask::Has(9, Some(2)),
    ];
    let mut indices = open(rt.alloc(), 2);
    expect_none(&rt, "two indices", Ok(first_other(&mut indices, &ASKS)));
}

/// The first thread that does not get the next index, of so many.
fn first_without(indices: &mut Indices, limit: u16) -> Option<usize>
    requires { limit ≤ 32767 }
{
    for number in 0..limit {
        if indices.take(ThreadId(u32::from(number))) != Ok(number + 1) {
            return Some(usize::from(number));
        }
    }
    None
}

/// The same; or else the first of these that is answered otherwise then.
fn first_behind_all(indices: &mut Indices, asks: &[Ask]) -> Option<usize> {
    match first_without(indices, 32_767) {
        None => first_other(indices, asks),
        without => without,
    }
}

#[test]
fn every_index_is_taken(rt: HostRuntime) {
    const LATE: u32 = 40_000;
    const ASKS: [Ask; 15] = [
        Ask::Takes(LATE, Err(TakeFault::NoIndex)),
        Ask::IsHeld(64, Some(63)),
        Ask::Gives(63, Some(64)),
        Ask::Has(63, None),
        Ask::Takes(LATE, Ok(64)),
        Ask::Takes(63, Err(TakeFault::NoIndex)),
        Ask::Gives(LATE, Some(64)),
        Ask::Takes(63, Ok(64)),
        Ask::IsHeld(32_767, Some(32_766)),
        Ask::Gives(32_766, Some(32_767)),
        Ask::Has(32_766, None),
        Ask::Takes(LATE, Ok(32_767)),
        Ask::Takes(32_766, Err(TakeFault::NoIndex)),
        Ask::Gives(LATE, Some(32_767)),
        Ask::Takes(32_766, Ok(32_767)),
    ];
    let mut indices = open(rt.alloc(), 32_767);
    expect_none(
        &rt,
        "every index",
        Ok(first_behind_all(&mut indices, &ASKS)),
    );
}

/// The thread takes an index, or gives back the one that it has, as this number says. Whether the
/// plain list answers the same.
fn is_as_plain(
    indices: &mut Indices,
    plain: &mut PlainIndices,
    thread: ThreadId,
    number: u32,
) -> bool {
    let is_same = if (number >> 8) % 8 < 5 {
        indices.take(thread).map(usize::from) == plain.take(thread)
    } else {
        indices.give(thread).map(usize::from) == plain.give(thread)
    };
    is_same && indices.index_of(thread).map(usize::from) == plain.index_of(thread)
}

/// The first round in which indices and a plain list answer differently, for threads whose numbers
/// are drawn: of so many, those from the last plain one on end alike, in 16 bits.
fn first_other_round(
    indices: &mut Indices,
    plain: &mut PlainIndices,
    threads: u32,
    plain_ones: u32,
) -> Option<usize>
    requires { 1 ≤ threads }
{
    let mut state = 1u32;
    for round in 0..8_000usize {
        state = state.wrapping_mul(1_664_525).wrapping_add(1_013_904_223);
        let number = (state >> 16) % threads;
        let thread = ThreadId(if number < plain_ones {
            number
        } else {
            number << 16
        });
        if !is_as_plain(indices, plain, thread, state) {
            return Some(round);
        }
    }
    None
}

/// The same of so many indices.
fn first_other_of(alloc: Global, limit: u16, threads: u32, plain_ones: u32) -> Option<usize>
    requires indices { (1 ≤ limit) × (limit ≤ 32767) }
    requires threads { 1 ≤ threads }
{
    let mut indices = open(alloc, limit);
    let mut plain = PlainIndices::new(alloc, usize::from(limit));
    first_other_round(&mut indices, &mut plain, threads, plain_ones)
}

/// Numbers of threads that have the same low bits have one hint together, in a row of any width.
#[test]
fn takes_and_gives_in_no_order(rt: HostRuntime) {
    let other = first_other_of(rt.alloc(), 150, 200, 200);
    expect_none(&rt, "numbers in a row", Ok(other));
    let other = first_other_of(rt.alloc(), 600, 700, 350);
    expect_none(&rt, "numbers that end alike", Ok(other));
}

/// Run with each allocation refused in turn, this meets every refusal.
#[test]
fn what_was_refused_succeeds_when_tried_again(rt: HostRuntime) -> Result<(), Fail> {
    const ASKS: [Ask; 3] = [
        Ask::TakesAtLast(7, 1),
        Ask::TakesAtLast(8, 2),
        Ask::TakesAtLast(9, 3),
    ];
    let mut indices = open(rt.alloc(), 4);
    expect_none(&rt, "refused", Ok(first_other(&mut indices, &ASKS)));
    Ok(())
}
