//! What two threads that meet tell each other, and a clock that stands still, by which a thread
//! that sleeps does not wake by itself.

use std::io;
use std::sync::Wait;
use std::sync::atomic::{AtomicBool, AtomicU64, Ordering};
use std::thread::yield_now;
use std::time::{Clock, Duration};

/// What one thread tells the other.
#[derive(Clone, Copy, Debug)]
pub(crate) enum Sign {
    /// It has made the calls that go before those of the other.
    Ready,
    /// It has made the calls that go before the last ones of the other.
    Done,
    /// It sleeps, by the clock that stands still.
    Asleep,
}

/// How often a thread that sleeps has looked at the clock: once to know when to wake, and once
/// before it sleeps.
const ASLEEP: u64 = 2;

/// A thread that parked sleeps 10 milliseconds between two looks at the clock. After so many of
/// them, some 20 seconds, nobody will wake it any more.
const LEFT_ALONE: u64 = 2_000;

/// The signs that were given.
#[derive(Drop)]
pub(crate) struct Signs {
    ready: AtomicBool,
    done: AtomicBool,
    // How often the clock that stands still was looked at.
    looks: AtomicU64,
}

impl Signs {
    pub(crate) fn new() -> Signs {
        Signs {
            ready: AtomicBool::new(false),
            done: AtomicBool::new(false),
            looks: AtomicU64::new(0),
        }
    }

    /// Gives a sign. Only the clock that is looked at tells that its thread sleeps.
    pub(crate) fn give(&self, sign: Sign) {
        match sign {
            Sign::Ready => self.ready.store(true, Ordering::SeqCst),
            Sign::Done => self.done.store(true, Ordering::SeqCst),
            Sign::Asleep => {}
        }
    }

    fn is_given(&self, sign: Sign) -> bool {
        match sign {
            Sign::Ready => self.ready.load(Ordering::SeqCst),
            Sign::Done => self.done.load(Ordering::SeqCst),
            Sign::Asleep => self.looks.load(Ordering::SeqCst) >= ASLEEP,
        }
    }

    /// Whether the sign is given before so many looks.
    pub(crate) fn is_seen(&self, sign: Sign) -> bool {
        for _ in 0..10_000_000u32 {
            if self.is_given(sign) {
                return true;
            }
            yield_now();
        }
        false
    }

    /// Whether whoever slept by the clock that stands still was woken each time.
    pub(crate) fn was_woken(&self) -> bool {
        self.looks.load(Ordering::SeqCst) < LEFT_ALONE
    }
}

/// A runtime whose clock stands still, so that who sleeps until a time sleeps until it is woken.
/// Only a thread that parked reads this clock. One that nobody wakes comes back after some 20
/// seconds, so that its test ends.
#[derive(Drop)]
pub(crate) struct Stopped<'a, R> {
    pub(crate) rt: &'a R,
    pub(crate) signs: &'a Signs,
}

impl<'a, R: Wait> Wait for Stopped<'a, R> {}

impl<'a, R: Clock> Clock for Stopped<'a, R> {
    fn monotonic(&self) -> io::Result<Duration> {
        let looks = self.signs.looks.fetch_add(1, Ordering::SeqCst);
        Ok(Duration::from_secs(looks.saturating_sub(LEFT_ALONE)))
    }

    fn since_1970(&self) -> io::Result<Duration> {
        self.rt.since_1970()
    }

    // Who meets another thread at a word or at the gate lets it run.
    fn sleep(&self, _duration: Duration) {
        yield_now();
    }
}
