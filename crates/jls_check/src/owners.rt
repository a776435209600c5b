//! For whom a thread waits.

ghost use Rattle.std.specs.Prelude.{◌≡◌};
ghost use Rattle.step_core.specs.Cycles.{next};
ghost use Rattle.jls_check.specs.MachineState.{state};

use crate::machine::Machine;
use lock_word::ThreadId;

impl Machine {
    /// The owner of the object that a thread wants to enter or comes back to, where that is another
    /// thread: a cycle of owners goes from each thread to its next.
    pub fn next_of(&self, thread: ThreadId) -> Option<ThreadId>
        ensures { result ≡ next (state self.now) thread }
    {
        let object = self.live(thread)?.act.object_wanted()?;
        let owner = self.held(object).owner?;
        if owner.0 == thread.0 {
            None
        } else {
            Some(owner)
        }
    }
}
