//! What the threads of the benchmark do.
ghost use Rattle.std.specs.Prelude.{◌≡◌, ◌+◌, ◌<◌, ◌≤◌, [], length, IfOk};
ghost use Rattle.header_words.specs.Events.{depth};
ghost use Rattle.header_words.specs.Passes.{new_passes};

use crate::BenchFault;
use crate::bare::{bare_lock, bare_nest};
use crate::measures::Measure;
use crate::words::book::Book;
use header_words::{Headers, Pass};
use lock_word::{Memory, ObjectId};
use std::alloc::Global;
use std::sync::atomic::AtomicU64;
use std::thread;
use std::thread::Threads;
use std::time::{Clock, Instant};

/// What a thread does in each round, on its own object or bare word.
#[derive(Clone, Copy)]
pub enum Work {
    /// It acquires and releases the object.
    Lock,
    /// The two atomic operations of such a pair: an exchange and a store.
    BareLock,
    /// It nests and unnests the object.
    Nest,
    /// The two atomic operations of such a pair: two stores.
    BareNest,
}

/// What the threads share: the words of objects, and as many bare words.
#[derive(Clone, Copy)]
pub struct Shared<'a> {
    pub headers: &'a Headers<Book>,
    pub bare: &'a [AtomicU64],
}

fn lock(headers: &Headers<Book>, pass: &mut Pass<Book>, object: ObjectId, rounds: u32) -> u32
    requires belongs { pass.old.opening ≡ headers.now }
    requires object { object.0 < length headers.now.lows }
    requires free { depth object.0 pass.old.mine ≡ 0 }
{
    let mut won = 0u32;
    for _ in 0..rounds {
        if headers.acquire(pass, object) {
            headers.release(pass, object);
            won = won.wrapping_add(1);
        }
    }
    won
}

fn nest(headers: &Headers<Book>, pass: &mut Pass<Book>, object: ObjectId, rounds: u32) -> u32
    requires belongs { pass.old.opening ≡ headers.now }
    requires object { object.0 < length headers.now.lows }
    requires free { depth object.0 pass.old.mine ≡ 0 }
{
    if !headers.acquire(pass, object) {
        return 0;
    }
    for _ in 0..rounds {
        headers.nest(pass, object);
        headers.unnest(pass, object);
    }
    rounds
}

/// Does `rounds` rounds of the work at an object, and returns how many of them succeeded.
fn run(shared: &Shared<'_>, work: Work, rounds: u32, mut pass: Pass<Book>, object: ObjectId) -> u32
    requires belongs { pass.opening ≡ shared.now.headers.now }
    requires object { object.0 < length shared.now.headers.now.lows }
    requires free { pass.mine ≡ [] }
{
    let bare = shared.bare.get(object.0 as usize);
    match (work, bare) {
        (Work::Lock, _) => lock(shared.headers, &mut pass, object, rounds),
        (Work::Nest, _) => nest(shared.headers, &mut pass, object, rounds),
        (Work::BareLock, Some(word)) => bare_lock(word, rounds),
        (Work::BareNest, Some(word)) => bare_nest(word, rounds),
        (_, None) => 0,
    }
}

/// Does the work in two threads, each on an object of its own, 64 words apart.
fn run_two<R: Threads + Sync>(
    rt: &R,
    shared: &Shared<'_>,
    work: Work,
    rounds: u32,
    passes: (Pass<Book>, Pass<Book>),
    object: u32,
) -> u32
    requires left { (passes.0.opening ≡ shared.now.headers.now) × (passes.0.mine ≡ []) }
    requires right { (passes.1.opening ≡ shared.now.headers.now) × (passes.1.mine ≡ []) }
    requires object { object + 64 < length shared.now.headers.now.lows }
    requires small { object < 65536 }
{
    let (left, right) = passes;
    let (one, two) = thread::join(
        rt,
        || run(shared, work, rounds, left, ObjectId(object)),
        || run(shared, work, rounds, right, ObjectId(object + 64)),
    );
    one.wrapping_add(two)
}

/// Does the work in four threads.
fn run_four<R: Threads + Sync>(
    rt: &R,
    shared: &Shared<'_>,
    work: Work,
    rounds: u32,
    left: (Pass<Book>, Pass<Book>),
    right: (Pass<Book>, Pass<Book>),
) -> u32
    requires objects { 192 < length shared.now.headers.now.lows }
    requires first { (left.0.opening ≡ shared.now.headers.now) × (left.0.mine ≡ []) }
    requires second { (left.1.opening ≡ shared.now.headers.now) × (left.1.mine ≡ []) }
    requires third { (right.0.opening ≡ shared.now.headers.now) × (right.0.mine ≡ []) }
    requires fourth { (right.1.opening ≡ shared.now.headers.now) × (right.1.mine ≡ []) }
{
    let (one, two) = thread::join(
        rt,
        ||
            requires { (64 < length shared.now.headers.now.lows)
                × (left.0.opening ≡ shared.now.headers.now) × (left.0.mine ≡ [])
                × (left.1.opening ≡ shared.now.headers.now) × (left.1.mine ≡ []) }
        { run_two(rt, shared, work, rounds, left, 0) },
        ||
            requires { (192 < length shared.now.headers.now.lows)
                × (right.0.opening ≡ shared.now.headers.now) × (right.0.mine ≡ [])
                × (right.1.opening ≡ shared.now.headers.now) × (right.1.mine ≡ []) }
        { run_two(rt, shared, work, rounds, right, 128) },
    );
    one.wrapping_add(two)
}

/// Does the work in one thread, in two or in four.
fn run_some<R: Threads + Sync>(
    setup: &Setup<'_, R>,
    shared: &Shared<'_>,
    threads: u32,
    work: Work,
    left: (Pass<Book>, Pass<Book>),
    right: (Pass<Book>, Pass<Book>),
) -> u32
    requires objects { 192 < length shared.now.headers.now.lows }
    requires first { (left.0.opening ≡ shared.now.headers.now) × (left.0.mine ≡ []) }
    requires second { (left.1.opening ≡ shared.now.headers.now) × (left.1.mine ≡ []) }
    requires third { (right.0.opening ≡ shared.now.headers.now) × (right.0.mine ≡ []) }
    requires fourth { (right.1.opening ≡ shared.now.headers.now) × (right.1.mine ≡ []) }
{
    let rounds = setup.rounds;
    match threads {
        1 => run(shared, work, rounds, left.0, ObjectId(0)),
        2 => run_two(setup.rt, shared, work, rounds, left, 0),
        _ => run_four(setup.rt, shared, work, rounds, left, right),
    }
}

/// Where the threads run, and on what.
#[derive(Drop)]
pub struct Setup<'a, R> {
    pub rt: &'a R,
    pub lows: &'a [u8],
    pub bare: &'a [AtomicU64],
    pub rounds: u32,
}

impl<R> Setup<'_, R> {
    /// Opens the words of the objects, with so many passes and a book that has bound no object.
    pub fn open(
        &self,
        alloc: Global,
        passes: u16,
    ) -> Result<(Headers<Book>, Vec<Pass<Book>>), BenchFault>
        requires lows { length self.now.lows.now ≡ 256 }
        requires some { 1 ≤ passes }
        requires few { passes ≤ 64 }
        ensures opening { IfOk result (λ r.
            (r.0.lows ≡ self.now.lows.now) × (r.0.count ≡ passes)) }
        ensures passes { IfOk result (λ r. r.1.items ≡ new_passes r.0 1 passes) }
    {
        let book = Book::new(alloc)?;
        Headers::open(alloc, self.lows, passes, book).map_err(|_| BenchFault::Memory(Memory))
    }
}

/// Times the work in one thread, in two or in four.
pub fn in_threads<R: Clock + Threads + Sync>(
    setup: &Setup<'_, R>,
    alloc: Global,
    threads: u32,
    work: Work,
) -> Result<Measure, BenchFault>
    requires { length setup.now.lows.now ≡ 256 }
{
    let (headers, mut passes) = setup.open(alloc, 4)?;
    let start = Instant::now(setup.rt)?;
    let (Some(fourth), Some(third)) = (passes.pop(), passes.pop()) else {
        return Err(BenchFault::Passes);
    };
    let (Some(second), Some(first)) = (passes.pop(), passes.pop()) else {
        return Err(BenchFault::Passes);
    };
    let shared = Shared {
        headers: &headers,
        bare: setup.bare,
    };
    let (left, right) = ((first, second), (third, fourth));
    let done = run_some(setup, &shared, threads, work, left, right);
    let time = start.elapsed(setup.rt)?.as_nanos();
    Ok(Measure { done, time })
}
