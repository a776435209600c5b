//! The start of the words of objects.
ghost use Rattle.std.specs.Prelude.{◌≡◌, ℕ, ◌+◌, ◌<◌, ◌≤◌, length, slice_index, IfOk, IfErr, []};
ghost use Rattle.std.specs.Prelude.{◌∷◌, replicate, All};
ghost use Rattle.std.specs.Vec.{vec_len, vec_capacity};
ghost use Rattle.header_words.specs.Passes.{IsNewRow};
ghost use Rattle.header_words.specs.Rule.{opening_view};
ghost use Rattle.header_words.specs.declared.open.OpenFault.TheVariants.{Memory};

use crate::headers::Headers;
use crate::kept::Kept;
use crate::pass::Pass;
use crate::rule::{Firsts, Law, Layout, View};
use atomic_table::{Refused, Seat, Table};
use std::alloc::{AllocError, Global};

/// Why the words were not opened. The book comes back as it was.
#[derive(Drop)]
pub enum OpenFault<B> {
    /// The system refused room for the words or the passes.
    Memory { book: B },
}

// What a pass has of its own, but for its seat.
#[derive(Drop)]
struct Row {
    depths: Vec<u16>,
    lows: Vec<u8>,
}

// All that opening takes from memory, but for the table and its slot.
#[derive(Drop)]
struct Room<B> {
    layout: Layout,
    words: Vec<u64>,
    rows: Vec<Row>,
    passes: Vec<Pass<B>>,
}

// The open gate and the free words.
fn new_words(alloc: Global, lows: &[u8]) -> Result<Vec<u64>, AllocError>
    ensures { IfOk result (λ v. v.items ≡ 0 ∷ lows.now) }
{
    let mut words = Vec::new(alloc);
    words.push(0)?;
    for low in lows {
        words.push(u64::from(*low))?;
    }
    Ok(words)
}

// A row of no locks, and a copy of the low bytes.
fn new_row(alloc: Global, lows: &[u8]) -> Result<Row, AllocError>
    ensures { IfOk result (IsNewRow lows.now) }
{
    Ok(Row {
        depths: vec![in alloc; 0u16; lows.len()]?,
        lows: lows.to_vec(alloc)?,
    })
}

fn new_rows(alloc: Global, lows: &[u8], count: u16) -> Result<Vec<Row>, AllocError>
    ensures rows { IfOk result (λ v. All (IsNewRow lows.now) v.items) }
    ensures len { IfOk result (λ v. vec_len v ≡ count) }
{
    let mut rows = Vec::new(alloc);
    for done in 0..count {
        rows.push(new_row(alloc, lows)?)?;
    }
    Ok(rows)
}

impl<B> Room<B> {
    fn new(alloc: Global, lows: &[u8], count: u16) -> Result<Room<B>, AllocError>
        ensures layout { IfOk result (λ r.
            (r.layout.lows.items ≡ lows.now) × (r.layout.count ≡ count)) }
        ensures words { IfOk result (λ r. r.words.items ≡ 0 ∷ lows.now) }
        ensures rows { IfOk result (λ r. All (IsNewRow lows.now) r.rows.items) }
        ensures len { IfOk result (λ r. vec_len r.rows ≡ count) }
        ensures passes { IfOk result (λ r. r.passes.items ≡ []) }
        ensures room { IfOk result (λ r. count ≤ vec_capacity r.passes) }
    {
        Ok(Room {
            layout: Layout {
                lows: lows.to_vec(alloc)?,
                count,
            },
            words: new_words(alloc, lows)?,
            rows: new_rows(alloc, lows, count)?,
            passes: Vec::with_capacity(alloc, usize::from(count))?,
        })
    }
}

// The table of these words, with the book in its slot, and its first seat, which has all indices.
fn new_table<B: Kept>(
    alloc: Global,
    words: &[u64],
    layout: &Layout,
    book: B,
) -> Result<
    (
        Table<Option<B>, View, Layout, Law, Global>,
        Seat<Option<B>, View>,
    ),
    OpenFault<B>,
>
    requires free { words.now ≡ 0 ∷ layout.now.lows.items }
    requires bytes { (o : ℕ) → slice_index layout.now.lows.items o < 256 }
    requires few { layout.now.count ≤ 32767 }
    ensures size { IfOk result (λ t. (t.0.shared.table_id.words ≡ length words.now)
        × (t.0.shared.table_id.slots ≡ 1)) }
    ensures key { IfOk result (λ t. t.0.shared.key ≡ layout.now) }
    ensures same_table { IfOk result (λ t. t.1.table_id ≡ t.0.shared.table_id) }
    ensures seat { IfOk result (λ t.
        t.1.me ≡ (opening_view layout.now.lows.items layout.now.count, [])) }
    ensures back { IfErr result (λ fault. fault ≡ Memory book) }
{
    let Ok(mut slots) = Vec::with_capacity(alloc, 1) else {
        return Err(OpenFault::Memory { book });
    };
    slots.push_reserved(Some(book));
    match Table::new(alloc, words, slots, layout) {
        Ok(made) => Ok(made),
        Err(Refused { mut slots }) => {
            let last = slots.pop();
            let Some(Some(book)) = last else {
                unreachable!()
            };
            slots.destroy_empty();
            Err(OpenFault::Memory { book })
        }
    }
}

impl<B: Kept> Headers<B> {
    ghost use Rattle.header_words.specs.Passes.{new_passes};

    /// Makes the words of `lows.len()` free objects, of which object `i` keeps the low byte
    /// `lows[i]`, and passes with the indices 1 to `count`, each with a row of depths. The book
    /// lies behind the gate, which is open.
    ///
    /// The only error is want of memory.
    pub fn open(
        alloc: Global,
        lows: &[u8],
        count: u16,
        book: B,
    ) -> Result<(Headers<B>, Vec<Pass<B>>), OpenFault<B>>
        requires objects { length lows.now ≤ 65535 }
        requires some { 1 ≤ count }
        requires few { count ≤ 64 }
        ensures opening { IfOk result (λ r. (r.0.lows ≡ lows.now) × (r.0.count ≡ count)) }
        ensures passes { IfOk result (λ r. r.1.items ≡ new_passes r.0 1 count) }
        ensures back { IfErr result (λ fault. fault ≡ Memory book) }
    {
        let Ok(room) = Room::new(alloc, lows, count) else {
            return Err(OpenFault::Memory { book });
        };
        let Room {
            layout,
            words,
            mut rows,
            mut passes,
        } = room;
        let (table, mut seat) = new_table(alloc, words.as_slice(), &layout, book)?;
        for done in 0..count {
            let Some(Row { depths, lows }) = rows.pop() else {
                unreachable!()
            };
            let given = table.shared.split_seat::<Firsts>(&mut seat);
            passes.push_reserved(Pass {
                index: done + 1,
                depths,
                lows,
                has_gate: false,
                seat: given,
            });
        }
        Ok((Headers { table, layout }, passes))
    }
}
