//! How a call backs off between two of its turns. No proof rests on it.

use crate::bells::Bell;
use crossbeam_utils::Backoff;
use crossbeam_utils::sync::Parker;
use std::sync::Wait;
use std::time::{Clock, Duration};
use std::{hint, thread};

// The shortest and the longest sleep of a call that meets other threads, in microseconds.
const FIRST_SLEEP: u64 = 50;

const LONGEST_SLEEP: u64 = 1_000;

// How often a parked call looks at its bell before it sleeps: first with one pause of the processor
// between two looks, so that it hears the bell at once, and then it lets others run. All looks
// together take longer than to wake a thread that sleeps: so of two threads that hand an object to
// each other, one that had to sleep does not make the other sleep too.
const LOOKS: u32 = 512;

const YIELDS: u32 = 64;

// How long a parked call sleeps at most before it looks again, in milliseconds.
const PARKED_SLEEP: u64 = 10;

/// How long a call has backed off already.
#[derive(Drop)]
pub(crate) struct Waiting {
    meeting: Backoff,
    next_sleep: u64,
    // Whether the call has parked and slept: from then on it sleeps at once.
    has_slept: bool,
}

impl Waiting {
    /// A call that has not backed off yet.
    pub(crate) fn new() -> Waiting {
        Waiting {
            meeting: Backoff::new(),
            next_sleep: FIRST_SLEEP,
            has_slept: false,
        }
    }

    /// Waits before the next turn of a call that met another thread, at the word or at the gate: it
    /// spins, then yields, and then sleeps, longer each time.
    pub(crate) fn back_off<R: Clock>(&mut self, rt: &R) {
        if !self.meeting.is_completed() {
            self.meeting.snooze();
            return;
        }
        thread::sleep(rt, Duration::from_micros(self.next_sleep));
        self.next_sleep = self.next_sleep.saturating_mul(2).min(LONGEST_SLEEP);
    }

    /// Waits before the next turn of a call that has parked, until the bell rings, or for some
    /// milliseconds: it looks at the bell for some ten microseconds, and then sleeps.
    pub(crate) fn listen<R: Wait + Clock>(&mut self, rt: &R, bell: &Bell, parker: &Parker) {
        self.meeting.reset();
        self.next_sleep = FIRST_SLEEP;
        if !self.has_slept && hears(bell) {
            return;
        }
        self.has_slept = true;
        parker.park_timeout(rt, Duration::from_millis(PARKED_SLEEP));
        bell.has_rung();
    }
}

// Whether the bell rings while it is looked at.
fn hears(bell: &Bell) -> bool {
    for look in 0..LOOKS + YIELDS {
        if bell.has_rung() {
            return true;
        }
        if look < LOOKS {
            hint::spin_loop();
        } else {
            thread::yield_now();
        }
    }
    false
}
