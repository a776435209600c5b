//! What came of a round, told to the thread that waits for it.

use crate::rounds::play_round;
use crate::trouble::Trouble;
use lock_word::Memory;
use std::alloc::Global;
use std::sync::{Arc, Condvar, Mutex, Wait};
use std::thread;
use std::thread::Threads;
use std::time::Clock;

/// How many calls the workers of a round made, or what must not happen: told by the thread that
/// played the round, or by the keeper where it met a fault.
#[derive(Drop)]
pub struct Outcome {
    told: Mutex<Option<Result<u64, Trouble>>>,
    is_told: Condvar,
}

impl Outcome {
    fn new() -> Outcome {
        Outcome {
            told: Mutex::new(None),
            is_told: Condvar::new(),
        }
    }

    /// Tells what came of the round. What was told first stays.
    pub fn tell<R: Wait>(&self, rt: &R, outcome: Result<u64, Trouble>) {
        let mut told = self.told.lock(rt);
        if told.is_none() {
            *told = Some(outcome);
        }
        self.is_told.notify_all();
    }

    /// What came of the round, once it was told.
    fn wait<R: Wait>(&self, rt: &R) -> Result<u64, Trouble> {
        let told = self.told.lock(rt);
        let mut told = self.is_told.wait_while(rt, told, |told| told.is_none());
        match told.take() {
            Some(outcome) => outcome,
            None => unreachable!(),
        }
    }
}

/// Plays a round on a thread of its own, and tells how many calls its workers made.
///
/// Where the keeper met a fault, nobody ends the waits of the workers any more, so that no join of
/// them may ever end. Then the threads of the round are left as they are, and end with the program.
pub fn play_apart<R: Threads + Wait + Clock + Copy + Send + Sync + 'static>(
    rt: R,
    alloc: Global,
    round: u32,
) -> Result<u64, Trouble> {
    let Ok(outcome) = Arc::new(alloc, Outcome::new()) else {
        return Err(Trouble::Memory(Memory));
    };
    let Ok(theirs) = Arc::try_clone(&outcome) else {
        return Err(Trouble::Memory(Memory));
    };
    let Ok(player) = thread::spawn(&rt, move || {
        let played = play_round(&rt, alloc, round, &theirs);
        theirs.tell(&rt, played);
    }) else {
        return Err(Trouble::Thread);
    };
    let calls = outcome.wait(&rt)?;
    player.join(&rt);
    Ok(calls)
}
