//! The bare atomic operations that calls on words are measured against.

use std::sync::atomic::{AtomicU64, Ordering};

/// The exchange and the store of a first enter and a last exit, so many times: how many won.
pub fn bare_lock(word: &AtomicU64, rounds: u32) -> u32 {
    let mut won = 0u32;
    for _ in 0..rounds {
        if word
            .compare_exchange(0, 0x1_0000, Ordering::SeqCst, Ordering::SeqCst)
            .is_ok()
        {
            word.store(0, Ordering::SeqCst);
            won = won.wrapping_add(1);
        }
    }
    won
}

/// The two stores of a nested enter and exit, so many times.
pub fn bare_nest(word: &AtomicU64, rounds: u32) -> u32 {
    for _ in 0..rounds {
        word.store(0x1_0100, Ordering::SeqCst);
        word.store(0x1_0000, Ordering::SeqCst);
    }
    word.store(0, Ordering::SeqCst);
    rounds
}
