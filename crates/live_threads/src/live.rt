//! The service, and the passes to it.

ghost use Rattle.std.specs.Prelude.{◌≡◌, false};
ghost use Rattle.live_book.specs.Log.{thread_numbered};

use crate::bells::Bell;
use crossbeam_utils::sync::Parker;
use live_turns::{Crew, TurnPass, Turns};
use lock_word::ThreadId;
use std::marker::Model;

/// The monitors of objects, which threads share.
///
/// Its calls wait where they meet other threads: they drive the turns of [`Turns`], and back off
/// between two of them.
#[derive(Drop)]
pub struct Live<L: Crew> {
    pub(crate) turns: Turns<L>,
    // The bell of each thread, from thread 1 on.
    pub(crate) bells: Vec<Bell>,
}

impl<L: Crew> Model for Live<L> {
    ghost use Rattle.header_words.specs.Passes.{Opening};

    ghost Value = { Opening };

    ghost view = { λ l. l.turns };
}

/// The right to call under one thread number. One thread of the system has it at a time, and
/// between two calls it is in none.
#[derive(Drop)]
pub struct LivePass<L: Crew> {
    pub(crate) turns: TurnPass<L>,
    pub(crate) parker: Parker,
}

impl<L: Crew> Model for LivePass<L> {
    ghost use Rattle.live_turns.specs.Ways.{Holding};
    ghost use Rattle.live_threads.specs.Calls.{IsAtRest};

    ghost Value = { Holding };

    ghost view = { λ p. p.turns.holding };

    ghost invariant = { λ p. IsAtRest p.turns };
}

impl<L: Crew> LivePass<L> {
    /// The number of the thread: 1 to the number of passes.
    pub fn thread(&self) -> ThreadId
        ensures { result ≡ thread_numbered self.now.words.index }
    {
        self.turns.thread()
    }
}

impl<L: Crew> Live<L> {
    // The bell of a thread.
    pub(crate) fn bell(&self, thread: ThreadId) -> Option<&Bell> {
        self.bells.get((thread.0 as usize).checked_sub(1)?)
    }

    // Rings the bell of the thread that was made an owner, if one was.
    pub(crate) fn ring(&self, granted: Option<ThreadId>) {
        let Some(thread) = granted else {
            return;
        };
        if let Some(bell) = self.bell(thread) {
            bell.ring();
        }
    }

    // Rings all bells.
    pub(crate) fn ring_all(&self) {
        for bell in &self.bells {
            bell.ring();
        }
    }
}
