//! Where the calls of a thread stand among those of its program.

ghost use Rattle.std.specs.Prelude.{◌≡◌};
ghost use Rattle.explore.specs.States.{end_of};

use crate::programs::Program;
use lock_word::ThreadId;

impl Program {
    /// Where in `calls` those of a thread end: where the next thread's begin, or behind all.
    pub fn end_of(&self, thread: ThreadId) -> usize
        ensures { result ≡ end_of self.now thread.0 }
    {
        match self.starts.get(thread.0 as usize + 1) {
            Some(next) => *next,
            None => self.calls.len(),
        }
    }
}
