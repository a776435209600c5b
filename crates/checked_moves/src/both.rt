//! Both checkers, which judge the same moves.

use crate::plain;
use crate::trouble::Trouble;
use jls_check::{Machine, MoveFault};
use std::alloc::Global;
use step_core::{Memory, Move};

/// Both checkers, behind the same moves.
#[derive(Drop)]
pub struct Both {
    proved: Machine,
    pub plain: plain::Machine,
}

impl Both {
    /// Both before all moves, with so many objects.
    pub fn new(alloc: Global, objects: u32) -> Result<Both, Trouble> {
        Ok(Both {
            proved: Machine::new(alloc, objects)?,
            plain: plain::Machine::new(alloc, objects as usize)?,
        })
    }

    /// Whether a move is lawful, where both say the same; it is made then.
    pub fn judge(&mut self, made: Move) -> Result<bool, Trouble> {
        let proved = match self.proved.take(made) {
            Ok(()) => true,
            Err(MoveFault::Broken) => false,
            Err(MoveFault::Memory) => return Err(Trouble::Memory(Memory)),
        };
        let plain = self.plain.take(made)?;
        if proved != plain {
            return Err(Trouble::Disagreement {
                made,
                proved,
                plain,
            });
        }
        Ok(proved)
    }
}
