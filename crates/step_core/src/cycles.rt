//! Cycles of owners: threads each of which waits for an object that the next one owns. What a
//! thread wants, and the law of cycles.

ghost use Rattle.std.specs.Prelude.{◌≡◌, ℕ, List, Bool};
ghost use Rattle.std.specs.List.{Contains};
ghost use Rattle.lock_word.specs.declared.ThreadId.{ThreadId};
ghost use Rattle.fat_monitor.specs.declared.actions.Reply.{Reply};
ghost use Rattle.step_core.specs.declared.steps.Request.{Request};
ghost use Rattle.step_core.specs.declared.machine.Move.{Move};
ghost use Rattle.step_core.specs.declared.machine.Move.TheVariants as move;
ghost use Rattle.step_core.specs.Machine.{State, Run, Steps};
ghost use Rattle.step_core.specs.Shown.{shown};
ghost use Rattle.step_core.specs.Requests.{world_after};
ghost use Rattle.step_core.specs.Lasting.{NeverReturns};
ghost use Rattle.step_core.specs.Laws.{OfEveryList};
ghost use Rattle.step_core.specs.Cycles.{IsCycle, object_wanted};

use crate::machine::Doing;
use fast_path::Call;
use lock_word::ObjectId;

impl Doing {
    /// The object that a thread which does this wants to enter, or comes back to.
    pub fn object_wanted(self) -> Option<ObjectId>
        ensures { result ≡ object_wanted self }
    {
        match self {
            Doing::Wants(Call::Enter(object)) | Doing::Back { object, .. } => Some(object),
            Doing::Idle | Doing::Wants(_) | Doing::Waits { .. } | Doing::Has(_) => None,
        }
    }
}

/// A cycle of owners stays the same cycle, whatever move the abstract machine makes, so over every
/// run and every list of steps; and none of its threads returns from its call.
#[tactic(auto, using(crate::proofs::Lists::Rings::cycle_laws))]
pub fn a_cycle_of_owners_stays()
    ensures stays { (s s' : State) (m : Move) (c : List ThreadId)
        → IsCycle s c → Steps s m s' → IsCycle s' c }
    ensures silent { (s s' : State) (c : List ThreadId) (t : ThreadId) (r : Reply)
        → IsCycle s c → Contains c t → Steps s (move.Return t r) s' → ⊥ }
    ensures lasts { (s s' : State) (ms : List Move) (c : List ThreadId)
        → IsCycle s c → Run s ms s' → IsCycle s' c }
    ensures kept { OfEveryList (λ lows w steps v. (c : List ThreadId) (more : List (Request × Bool))
        → IsCycle (shown v) c → IsCycle (shown (world_after v more)) c) }
    ensures never { OfEveryList (λ lows w steps v.
        (c : List ThreadId) (t : ThreadId) (r : Reply) (more : List (Request × Bool))
        → IsCycle (shown v) c → Contains c t → NeverReturns v t r more) }
{}
