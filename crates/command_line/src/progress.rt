//! How far an exploration has come, told on standard error while it goes on.

use explore::Watch;
use std::time::{Clock, Duration, Instant};

/// How many states are visited between two looks at the clock.
const STRIDE: usize = 4_096;

/// How many seconds pass between two lines at least.
const PAUSE: u64 = 1;

/// Tells on standard error how far an exploration has come, at most once a second, in a line that
/// is written over, and is gone when the exploration is over. A line that cannot be written is let
/// go.
#[derive(Drop)]
pub(crate) struct Progress<'a, R> {
    rt: &'a R,
    // How many states were visited.
    visited: usize,
    // How many those are when the clock is looked at next.
    next: usize,
    // When the first state had been visited.
    began: Option<Instant>,
    // How much time had passed since then when something was told last; none where nothing was.
    told: Duration,
}

impl<'a, R: Clock> Progress<'a, R> {
    /// Progress of an exploration, which is told where standard error is a terminal and there is a
    /// clock.
    pub(crate) fn new(rt: &'a R, is_terminal: bool) -> Progress<'a, R> {
        Progress {
            rt,
            visited: 0,
            next: if is_terminal { 0 } else { usize::MAX },
            began: None,
            told: Duration::ZERO,
        }
    }

    /// How much time has passed since this was asked first.
    fn passed(&mut self) -> Option<Duration> {
        let now = Instant::now(self.rt).ok()?;
        match self.began {
            Some(began) => Some(now.duration_since(began)),
            None => {
                self.began = Some(now);
                None
            }
        }
    }
}

/// How many states a second that is, where so many were found in this time.
fn rate_of(found: usize, passed: Duration) -> u64 {
    let millis = u64::try_from(passed.as_millis()).unwrap_or(u64::MAX);
    (found as u64)
        .saturating_mul(1_000)
        .checked_div(millis)
        .unwrap_or(0)
}

impl<R: Clock + Eprint> Watch for Progress<'_, R> {
    fn tell(&mut self, found: usize, waiting: usize) {
        self.visited = self.visited.saturating_add(1);
        if self.visited < self.next {
            return;
        }
        self.next = self.visited.saturating_add(STRIDE);
        let passed = self.passed().unwrap_or(Duration::ZERO);
        if passed.saturating_sub(self.told).as_secs() >= PAUSE {
            self.told = passed;
            let rate = rate_of(found, passed);
            let _ = eprint!(self.rt;
                "\rthinmon: {found} states, {waiting} to visit, {rate} a second\x1b[K"
            );
        }
    }

    fn end(&mut self) {
        if !self.told.is_zero() {
            let _ = eprint!(self.rt; "\r\x1b[K");
        }
    }
}
