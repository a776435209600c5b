//! Lines as one plain list of those who stand in them, in order of joining, which each call walks.

use lock_word::ThreadId;
use std::alloc::{AllocError, Global};
use wait_lines::{All, Role};

#[derive(Clone, Copy)]
struct Arrival {
    thread: ThreadId,
    monitor: u32,
    role: Role,
}

#[derive(Drop)]
pub(super) struct PlainLines {
    arrivals: Vec<Arrival>,
}

impl PlainLines {
    pub(super) fn new(alloc: Global) -> PlainLines {
        PlainLines {
            arrivals: Vec::new(alloc),
        }
    }

    pub(super) fn join(
        &mut self,
        thread: ThreadId,
        monitor: u32,
        role: Role,
    ) -> Result<(), AllocError> {
        self.arrivals.push(Arrival {
            thread,
            monitor,
            role,
        })?;
        Ok(())
    }

    pub(super) fn leave(&mut self, thread: ThreadId) {
        self.arrivals.retain(|arrival| arrival.thread != thread);
    }

    /// Whether just those who stand in a line come, in their order.
    pub(super) fn is_all(&self, mut line: All<'_>, monitor: u32, role: Role) -> bool {
        for arrival in &self.arrivals {
            let stands = arrival.monitor == monitor && arrival.role == role;
            if stands && line.next() != Some(arrival.thread) {
                return false;
            }
        }
        line.next() == None
    }
}
