//! Indices as a plain list of holders, which each call walks.

ghost use Rattle.std.specs.Prelude.{◌<◌, length, IfSome};

use lock_word::ThreadId;
use std::alloc::Global;
use thread_index::TakeFault;

#[derive(Drop)]
pub(super) struct PlainIndices {
    holders: Vec<Option<ThreadId>>,
    limit: usize,
}

impl PlainIndices {
    pub(super) fn new(alloc: Global, limit: usize) -> PlainIndices {
        PlainIndices {
            holders: Vec::new(alloc),
            limit,
        }
    }

    pub(super) fn take(&mut self, id: ThreadId) -> Result<usize, TakeFault> {
        if self.berth_of(Some(id)).is_some() {
            return Err(TakeFault::Known);
        }
        match self.berth_of(None) {
            Some(berth) => {
                self.holders[berth] = Some(id);
                Ok(berth + 1)
            }
            None if self.holders.len() < self.limit => {
                self.holders.push(Some(id))?;
                Ok(self.holders.len())
            }
            None => Err(TakeFault::NoIndex),
        }
    }

    pub(super) fn give(&mut self, id: ThreadId) -> Option<usize> {
        let berth = self.berth_of(Some(id))?;
        self.holders[berth] = None;
        Some(berth + 1)
    }

    pub(super) fn index_of(&self, id: ThreadId) -> Option<usize> {
        Some(self.berth_of(Some(id))? + 1)
    }

    /// The first berth of a holder; None: the first that is free.
    fn berth_of(&self, wanted: Option<ThreadId>) -> Option<usize>
        ensures { IfSome result (λ k. k < length self.now.holders.items) }
    {
        self.holders.iter().position(|&holder| holder == wanted)
    }
}
