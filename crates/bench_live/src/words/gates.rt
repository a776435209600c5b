//! What the threads of the benchmark do with the book behind the gate.
ghost use Rattle.std.specs.Prelude.{◌≡◌, ◌<◌, length, true, false, IfOk, IsOk};
ghost use Rattle.std.specs.List.{All};
ghost use Rattle.header_words.specs.Bindings.{Covers};
ghost use Rattle.header_words.specs.Passes.{depth_at};

use crate::BenchFault;
use crate::measures::Measure;
use crate::words::book::Book;
use crate::words::lanes::Setup;
use fat_monitor::{Fats, Receipt};
use header_words::{Headers, Pass};
use lock_word::{Memory, ObjectId, ThreadId};
use std::alloc::Global;
use std::hint::spin_loop;
use std::sync::atomic::{AtomicU64, Ordering};
use std::thread;
use std::thread::Threads;
use std::time::{Clock, Instant};

// A taking is given up after so many tries.
const TRIES: u32 = 1_000_000_000;

const OBJECT: ObjectId = ObjectId(0);

// The receipt of a monitor that this thread holds once, for the first object.
fn new_receipt(alloc: Global, owner: ThreadId) -> Result<Receipt, BenchFault>
    ensures object { IfOk result (λ r. r.object.0 ≡ 0) }
    ensures owner { IfOk result (λ r. r.owner ≡ owner) }
    ensures holds { IfOk result (λ r. r.holds ≡ 1) }
{
    let mut fats = Fats::new(alloc, 1);
    let Ok(()) = fats.attach(owner) else {
        return Err(BenchFault::Memory(Memory));
    };
    fats.bind(OBJECT, owner, 1)
        .map_err(|_| BenchFault::Memory(Memory))
}

// Inflates the first object, while nobody else uses it or the book.
fn inflate(headers: &Headers<Book>, pass: &mut Pass<Book>, alloc: Global) -> Result<(), BenchFault>
    requires belongs { pass.old.opening ≡ headers.now }
    requires object { 0 < length headers.now.lows }
    requires free { depth_at pass.old 0 ≡ 0 }
    requires without { pass.old.has_gate ≡ false }
    ensures belongs { pass.new.opening ≡ headers.now }
    ensures without { pass.new.has_gate ≡ false }
{
    let receipt = new_receipt(alloc, ThreadId(u32::from(pass.index())))?;
    if !headers.acquire(pass, OBJECT) {
        return Err(BenchFault::Taken);
    }
    let Some(mut book) = headers.take(pass) else {
        return Err(BenchFault::Taken);
    };
    let next = book.len();
    let bound = book.bind(OBJECT);
    if !bound || next != receipt.monitor() as usize {
        headers.give(pass, book);
        return Err(BenchFault::Memory(Memory));
    }
    headers.publish(pass, &book, receipt);
    headers.give(pass, book);
    Ok(())
}

// Takes the book, counts that, and gives the book back. False: the gate was taken at each try.
fn hold(headers: &Headers<Book>, pass: &mut Pass<Book>) -> bool
    requires belongs { pass.old.opening ≡ headers.now }
    requires without { pass.old.has_gate ≡ false }
    ensures belongs { pass.new.opening ≡ headers.now }
    ensures without { pass.new.has_gate ≡ false }
{
    for _ in 0..TRIES {
        if let Some(mut book) = headers.take(pass) {
            book.count_taking();
            headers.give(pass, book);
            return true;
        }
        spin_loop();
    }
    false
}

// Takes and gives the book so many times.
fn hold_often(headers: &Headers<Book>, mut pass: Pass<Book>, rounds: u32) -> Pass<Book>
    requires belongs { pass.opening ≡ headers.now }
    requires without { pass.has_gate ≡ false }
    ensures belongs { result.opening ≡ headers.entry.now }
    ensures without { result.has_gate ≡ false }
{
    for _ in 0..rounds {
        if !hold(headers, &mut pass) {
            return pass;
        }
    }
    pass
}

// Takes and gives the book so many times in each of two threads.
fn hold_in_two<R: Threads + Sync>(
    rt: &R,
    headers: &Headers<Book>,
    passes: (Pass<Book>, Pass<Book>),
    rounds: u32,
) -> (Pass<Book>, Pass<Book>)
    requires left { (passes.0.opening ≡ headers.now) × (passes.0.has_gate ≡ false) }
    requires right { (passes.1.opening ≡ headers.now) × (passes.1.has_gate ≡ false) }
    ensures left { (result.0.opening ≡ headers.entry.now) × (result.0.has_gate ≡ false) }
    ensures right { (result.1.opening ≡ headers.entry.now) × (result.1.has_gate ≡ false) }
{
    let (first, second) = passes;
    thread::join(
        rt,
        || hold_often(headers, first, rounds),
        || hold_often(headers, second, rounds),
    )
}

// The same in one thread or in two, of these passes.
fn hold_in_threads<R: Threads + Sync>(
    setup: &Setup<'_, R>,
    headers: &Headers<Book>,
    threads: u32,
    passes: (Pass<Book>, Pass<Book>),
) -> (Pass<Book>, Pass<Book>)
    requires left { (passes.0.opening ≡ headers.now) × (passes.0.has_gate ≡ false) }
    requires right { (passes.1.opening ≡ headers.now) × (passes.1.has_gate ≡ false) }
    ensures left { (result.0.opening ≡ headers.entry.now) × (result.0.has_gate ≡ false) }
    ensures right { (result.1.opening ≡ headers.entry.now) × (result.1.has_gate ≡ false) }
{
    if threads == 1 {
        let (first, second) = passes;
        (hold_often(headers, first, setup.rounds), second)
    } else {
        hold_in_two(setup.rt, headers, passes, setup.rounds)
    }
}

// The two atomic operations of a take and a give, on a bare word, so many times.
fn bare_hold(word: &AtomicU64, rounds: u32) -> u32 {
    let mut done = 0u32;
    for _ in 0..rounds {
        for _ in 0..TRIES {
            if word
                .compare_exchange(0, 1, Ordering::SeqCst, Ordering::SeqCst)
                .is_ok()
            {
                word.store(0, Ordering::SeqCst);
                done = done.wrapping_add(1);
                break;
            }
            spin_loop();
        }
    }
    done
}

// The same in each of two threads.
fn bare_hold_in_two<R: Threads + Sync>(rt: &R, word: &AtomicU64, rounds: u32) -> u32 {
    let (one, two) = thread::join(rt, || bare_hold(word, rounds), || bare_hold(word, rounds));
    one.wrapping_add(two)
}

// How many takings the book has counted, once these two passes are back beside all others.
fn count_takings(
    alloc: Global,
    headers: Headers<Book>,
    mut passes: Vec<Pass<Book>>,
    back: (Pass<Book>, Pass<Book>),
) -> Result<u32, BenchFault>
    requires belong { All (λ p. p.opening ≡ headers) passes.items }
    requires without { All (λ p. p.has_gate ≡ false) passes.items }
    requires left { (back.0.opening ≡ headers) × (back.0.has_gate ≡ false) }
    requires right { (back.1.opening ≡ headers) × (back.1.has_gate ≡ false) }
{
    let (left, right) = headers.meet(back.0, back.1);
    let (Ok(()), Ok(())) = (passes.push(left), passes.push(right)) else {
        return Err(BenchFault::Memory(Memory));
    };
    let Ok((_, book)) = headers.close(alloc, passes) else {
        return Err(BenchFault::Passes);
    };
    Ok(book.takings())
}

/// Times a take and a give by one pass, or by two that fight for the gate, each in a thread of its
/// own.
pub fn take_in_threads<R: Clock + Threads + Sync>(
    setup: &Setup<'_, R>,
    alloc: Global,
    threads: u32,
) -> Result<Measure, BenchFault>
    requires { length setup.now.lows.now ≡ 256 }
{
    let (headers, mut passes) = setup.open(alloc, 2)?;
    let (Some(second), Some(mut first)) = (passes.pop(), passes.pop()) else {
        return Err(BenchFault::Passes);
    };
    inflate(&headers, &mut first, alloc)?;
    let start = Instant::now(setup.rt)?;
    let back = hold_in_threads(setup, &headers, threads, (first, second));
    let time = start.elapsed(setup.rt)?.as_nanos();
    let done = count_takings(alloc, headers, passes, back)?;
    Ok(Measure { done, time })
}

/// Times the bare operations in one thread, or in two that fight for one word.
pub fn bare_in_threads<R: Clock + Threads + Sync>(
    setup: &Setup<'_, R>,
    threads: u32,
) -> Result<Measure, BenchFault> {
    let (word, rounds) = (AtomicU64::new(0), setup.rounds);
    let start = Instant::now(setup.rt)?;
    let done = if threads == 1 {
        bare_hold(&word, rounds)
    } else {
        bare_hold_in_two(setup.rt, &word, rounds)
    };
    let time = start.elapsed(setup.rt)?.as_nanos();
    Ok(Measure { done, time })
}
