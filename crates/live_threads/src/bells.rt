//! How a thread that sleeps is woken. No proof rests on it.

use crossbeam_utils::CachePadded;
use crossbeam_utils::atomic::AtomicCell;
use crossbeam_utils::sync::{Parker, Unparker};
use lock_word::Memory;
use std::alloc::Global;

/// A flag in a cache line of its own, and the thread that sleeps by it. It may ring for nothing.
#[derive(Drop)]
pub(crate) struct Bell {
    rung: CachePadded<AtomicCell<bool>>,
    sleeper: Unparker,
}

impl Bell {
    /// A bell, and the parker of the thread that listens to it.
    pub(crate) fn new(alloc: Global) -> Result<(Bell, Parker), Memory> {
        let parker = Parker::new(alloc)?;
        let sleeper = parker.unparker().clone()?;
        let rung = CachePadded::new(AtomicCell::new(false));
        Ok((Bell { rung, sleeper }, parker))
    }

    /// Rings, and wakes the thread where it sleeps.
    pub(crate) fn ring(&self) {
        let rung: &AtomicCell<bool> = &self.rung;
        rung.store(true);
        self.sleeper.unpark();
    }

    /// Whether it has rung since it was asked last.
    pub(crate) fn has_rung(&self) -> bool {
        let rung: &AtomicCell<bool> = &self.rung;
        rung.load() && rung.swap(false)
    }
}
