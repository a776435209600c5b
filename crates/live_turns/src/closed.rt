//! What a close leaves, and what it gives back.

use crate::desks::Crew;
use crate::{Logged, TurnPass, Turns};
use lock_word::Word;

/// What a closed service leaves.
#[derive(Drop)]
pub struct Closed {
    /// The header word of each object.
    pub words: Vec<Word>,
    /// The record: all deeds at the book, in their order.
    pub logged: Vec<Logged>,
    /// How many deeds each pass did, in the order of the passes.
    pub counts: Vec<u64>,
}

/// Why a service was not closed.
#[derive(Drop)]
pub enum TurnsClose<L: Crew> {
    /// The passes are not all of the service's, each once. Everything comes back as it was.
    WrongPass {
        turns: Turns<L>,
        passes: Vec<TurnPass<L>>,
    },
    /// They are, and the system refused memory. Everything comes back as it was.
    Memory {
        turns: Turns<L>,
        passes: Vec<TurnPass<L>>,
    },
    /// The deeds of a pass are not those that the record has under its number. Nothing comes back.
    Torn,
}
