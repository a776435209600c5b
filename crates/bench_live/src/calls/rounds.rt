//! What the threads of the benchmark do in their rounds.

ghost use Rattle.std.specs.Prelude.{◌≡◌};

use fat_monitor::Reply;
use live_threads::{Live, LivePass};
use live_turns::Crew;
use lock_word::ObjectId;
use std::sync::Wait;
use std::sync::atomic::{AtomicU64, Ordering};
use std::time::{Clock, Duration, Instant};
use std::{hint, thread};

pub const OBJECT: ObjectId = ObjectId(0);

/// What is measured.
#[derive(Clone, Copy, PartialEq, Eq)]
pub enum Work {
    /// The bare exchange and store of a first enter and a last exit.
    BareLock,
    /// The two bare stores of a nested enter and exit.
    BareNest,
    /// A first enter and a last exit of an own object.
    Lock,
    /// A nested enter and exit.
    Nest,
    /// An enter and an exit on a fat monitor, where nobody else is.
    Fat,
    /// The same by two threads that contend.
    Contend,
    /// A load and a store of a bare word by each of two threads, which hand it to each other.
    BareHandOn,
    /// A notify and a wait by each of two threads, which hand an object to each other.
    HandOn,
    /// The same, where each thread lets the other fall asleep before it notifies.
    HandOnAsleep,
}

impl Work {
    /// The rounds of this work, where so many are asked for of the cheapest.
    pub fn rounds(self, asked: u32) -> u32 {
        match self {
            Work::BareLock | Work::BareNest | Work::Lock | Work::Nest => asked,
            Work::Fat | Work::Contend | Work::BareHandOn | Work::HandOn => {
                (asked / 32).min(100_000)
            }
            Work::HandOnAsleep => (asked / 1_000).min(500),
        }
    }

    /// How many places of the record so many rounds of it use at most.
    pub fn places(self, rounds: u32) -> u32 {
        match self {
            Work::BareLock | Work::BareNest | Work::BareHandOn | Work::Lock | Work::Nest => 100,
            _ => rounds.saturating_mul(8).saturating_add(100),
        }
    }
}

// How often a thread looks at a bare word with a single pause between two looks, before it lets
// others run.
const LOOKS: u32 = 128;

// Waits until a bare word has this value.
fn await_value<R: Wait>(rt: &R, word: &AtomicU64, value: u64) {
    let mut looks = 0u32;
    for _ in rt.forever() {
        if word.load(Ordering::SeqCst) == value {
            return;
        }
        if looks < LOOKS {
            looks += 1;
            hint::spin_loop();
        } else {
            thread::yield_now();
        }
    }
}

/// Hands a bare word on, so many times: waits until it has the value that is this thread's turn,
/// and stores that of the other's. The values count up from 0.
pub fn bare_hand_on<R: Wait>(rt: &R, word: &AtomicU64, first: u64, rounds: u32) -> u32 {
    let mut mine = first;
    for _ in 0..rounds {
        await_value(rt, word, mine);
        word.store(mine.wrapping_add(1), Ordering::SeqCst);
        mine = mine.wrapping_add(2);
    }
    rounds
}

/// Enters and exits, and counts the rounds in which both were done.
pub fn pairs<L: Crew, R: Wait + Clock>(
    rt: &R,
    live: &Live<L>,
    pass: &mut LivePass<L>,
    rounds: u32,
) -> u32
    requires here { pass.old.words.opening ≡ live.now }
    ensures here { pass.new.words.opening ≡ live.entry.now }
{
    let mut done = 0u32;
    for _ in 0..rounds {
        let entered = live.enter(rt, pass, OBJECT);
        let exited = live.exit(rt, pass, OBJECT);
        if entered.is_ok() && exited.is_ok() {
            done = done.wrapping_add(1);
        }
    }
    done
}

/// Enters and exits as an owner.
pub fn nested_pairs<L: Crew, R: Wait + Clock>(
    rt: &R,
    live: &Live<L>,
    pass: &mut LivePass<L>,
    rounds: u32,
) -> u32
    requires here { pass.old.words.opening ≡ live.now }
    ensures here { pass.new.words.opening ≡ live.entry.now }
{
    let _entered = live.enter(rt, pass, OBJECT);
    pairs(rt, live, pass, rounds)
}

/// Inflates the object, while nobody else is there: by the wait of an owner that is interrupted.
pub fn inflate<L: Crew, R: Wait + Clock>(rt: &R, live: &Live<L>, pass: &mut LivePass<L>) -> bool
    requires here { pass.old.words.opening ≡ live.now }
    ensures here { pass.new.words.opening ≡ live.entry.now }
{
    let me = pass.thread();
    let _entered = live.enter(rt, pass, OBJECT);
    let _done = live.interrupt(rt, pass, me);
    let waited = live.wait_on(rt, pass, OBJECT, 0, 0);
    let _exited = live.exit(rt, pass, OBJECT);
    waited == Ok(Reply::Interrupted)
}

/// What a thread did that hands an object on.
#[derive(Clone, Copy)]
pub struct HandedOn {
    pub done: u32,
    /// How long it slept of its own accord, in nanoseconds.
    pub slept: u128,
}

// Sleeps so long, and says how long it was.
fn sleep<R: Clock>(rt: &R, pause: Duration) -> u128 {
    if pause.is_zero() {
        return 0;
    }
    let Ok(start) = Instant::now(rt) else {
        return 0;
    };
    thread::sleep(rt, pause);
    match start.elapsed(rt) {
        Ok(slept) => slept.as_nanos(),
        Err(_) => 0,
    }
}

/// Enters; pauses, notifies and waits so many times; notifies, and exits.
pub fn hand_on<L: Crew, R: Wait + Clock>(
    rt: &R,
    live: &Live<L>,
    pass: &mut LivePass<L>,
    rounds: u32,
    pause: Duration,
) -> HandedOn
    requires here { pass.old.words.opening ≡ live.now }
    ensures here { pass.new.words.opening ≡ live.entry.now }
{
    let mut done = 0u32;
    let mut slept = 0u128;
    let _entered = live.enter(rt, pass, OBJECT);
    for _ in 0..rounds {
        slept = slept.wrapping_add(sleep(rt, pause));
        let notified = live.notify(rt, pass, OBJECT);
        let waited = live.wait_on(rt, pass, OBJECT, 0, 0);
        if notified.is_ok() && waited == Ok(Reply::WaitOver) {
            done = done.wrapping_add(1);
        }
    }
    let _notified = live.notify(rt, pass, OBJECT);
    let _exited = live.exit(rt, pass, OBJECT);
    HandedOn { done, slept }
}

/// Waits as the owner of the object, until it is notified.
pub fn wait_once<L: Crew, R: Wait + Clock>(rt: &R, live: &Live<L>, pass: &mut LivePass<L>) -> bool
    requires here { pass.old.words.opening ≡ live.now }
{
    let waited = live.wait_on(rt, pass, OBJECT, 0, 0);
    let _exited = live.exit(rt, pass, OBJECT);
    waited == Ok(Reply::WaitOver)
}

/// Notifies after a while.
pub fn notify_after<L: Crew, R: Wait + Clock>(
    rt: &R,
    live: &Live<L>,
    pass: &mut LivePass<L>,
    pause: Duration,
) -> bool
    requires here { pass.old.words.opening ≡ live.now }
{
    thread::sleep(rt, pause);
    let _entered = live.enter(rt, pass, OBJECT);
    let notified = live.notify(rt, pass, OBJECT);
    let _exited = live.exit(rt, pass, OBJECT);
    notified == Ok(Reply::Notified)
}
