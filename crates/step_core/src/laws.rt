//! The laws of every list of steps: of any number of threads, in any interleaving, and whatever
//! memory is granted. A list of steps pairs each step with whether the growth that it asks for is
//! granted.

ghost use Rattle.std.specs.Prelude.{◌≡◌, ◌⊎◌, ℕ, ◌+◌, ◌<◌, List, length, Bool, true, false, Option};
ghost use Rattle.std.specs.Prelude.{Some, None, ◌++◌};
ghost use Rattle.lock_word.specs.declared.ThreadId.{ThreadId};
ghost use Rattle.lock_word.specs.declared.ObjectId.{ObjectId};
ghost use Rattle.fat_monitor.specs.declared.actions.Reply.{Reply};
ghost use Rattle.fat_monitor.specs.declared.actions.Reply.TheVariants.{WaitOver};
ghost use Rattle.fat_monitor.specs.declared.actions.Reply.TheVariants.{Interrupted as Throws};
ghost use Rattle.fat_monitor.specs.declared.actions.Why.{Why};
ghost use Rattle.fat_monitor.specs.declared.actions.Why.TheVariants.{Notified, Interrupted};
ghost use Rattle.fat_monitor.specs.declared.actions.Why.TheVariants.{Elapsed, Spurious};
ghost use Rattle.thread_index.specs.Indices.{IsOneToOne};
ghost use Rattle.fast_path.specs.declared.Call.TheVariants as call;
ghost use Rattle.step_core.specs.declared.steps.Request.{Request};
ghost use Rattle.step_core.specs.declared.machine.Doing.{Doing};
ghost use Rattle.step_core.specs.declared.machine.Doing.TheVariants as doing;
ghost use Rattle.step_core.specs.declared.machine.Move.{Move};
ghost use Rattle.step_core.specs.declared.machine.Move.TheVariants as move;
ghost use Rattle.step_core.specs.Machine.{State, Run, Steps, Calls, opening, Is};
ghost use Rattle.step_core.specs.Shown.{shown};
ghost use Rattle.step_core.specs.Requests.{moves_after, world_after};
ghost use Rattle.step_core.specs.Labels.{labels_of, labels_after};
ghost use Rattle.step_core.specs.Patient.{goes_of, AllLinger};
ghost use Rattle.step_core.specs.Lasting.{IsBack, IsNotified, HasReply, NeverReturns, LastsBut};
ghost use Rattle.step_core.specs.Lasting.{MoveReturns};
ghost use Rattle.step_core.specs.Kept.{Keeps};
ghost use Rattle.step_core.specs.Laws.{OfEveryList};
ghost use Rattle.step_core.specs.World.{WorldState};
ghost use Rattle.step_core.specs.Numbers.{numbers_of, IsNumbered};

/// The moves that the steps hand out are a run of the abstract machine, from its opening state to
/// the state that the world shows then; and the labels of the run are exactly those of the accepted
/// steps.
#[tactic(auto, using(crate::proofs::Lists::Reached::reached_run, crate::proofs::Lists::Reached::reached_labels))]
pub fn every_list_of_steps_is_a_run()
    ensures run { OfEveryList (λ lows w steps v.
        Run (opening (length lows)) (moves_after w steps) (shown v)) }
    ensures labels { OfEveryList (λ lows w steps v.
        labels_of (moves_after w steps) ≡ labels_after w steps) }
{}

/// Live threads have distinct indices; the objects, and bits 7 to 0 of each word, are those of the
/// opening.
#[tactic(auto, using(crate::proofs::Lists::Reached::reached_distinct))]
pub fn every_list_of_steps_keeps_the_world()
    ensures distinct { OfEveryList (λ lows w steps v. IsOneToOne v.berths) }
    ensures kept { OfEveryList (λ lows w steps v. Keeps w v) }
{}

/// A call replies, parks or meets another thread within four Go steps of its thread: where it does
/// none of that over more steps, its thread makes fewer than four accepted Go steps of them. An end
/// takes one for each object, and one more.
#[tactic(auto, using(crate::proofs::Lists::Reached::reached_four, crate::proofs::Lists::Reached::reached_all))]
pub fn every_call_is_patient()
    ensures within_four { OfEveryList (λ lows w steps v.
        (t : ThreadId) (flag : Bool) (act : Doing) (more : List (Request × Bool))
        → Is (shown v) t flag act → (act ≡ doing.Idle → ⊥) → (act ≡ doing.Wants call.End → ⊥)
        → AllLinger v t more → goes_of t more < 4) }
    ensures within_all { OfEveryList (λ lows w steps v.
        (t : ThreadId) (flag : Bool) (more : List (Request × Bool))
        → Is (shown v) t flag (doing.Wants call.End)
        → AllLinger v t more → goes_of t more < length lows + 1) }
{}

/// A thread that was notified stays so, whatever steps come, until its call has the reply that its
/// wait is over, and so does one whose time was over, or that woke spuriously; one that an
/// interrupt took out of the wait set stays so until its call has the reply Interrupted; and a
/// reply, however it was given, is kept until the thread's own Go returns with it.
#[tactic(auto, using(crate::proofs::Lists::Reached::reached_lasts))]
pub fn no_notification_is_lost()
    ensures notified { OfEveryList (λ lows w steps v.
        (u : ThreadId) (o : ObjectId) (n : ℕ) (more : List (Request × Bool))
        → IsNotified (shown v) u o n → NeverReturns v u WaitOver more
        → IsNotified (shown (world_after v more)) u o n
        ⊎ HasReply (shown (world_after v more)) u WaitOver) }
    ensures interrupted { OfEveryList (λ lows w steps v.
        (u : ThreadId) (o : ObjectId) (n : ℕ) (more : List (Request × Bool))
        → IsBack (shown v) u o n Interrupted → NeverReturns v u Throws more
        → IsBack (shown (world_after v more)) u o n Interrupted
        ⊎ HasReply (shown (world_after v more)) u Throws) }
    ensures elapsed { OfEveryList (λ lows w steps v.
        (u : ThreadId) (o : ObjectId) (n : ℕ) (more : List (Request × Bool))
        → IsBack (shown v) u o n Elapsed → NeverReturns v u WaitOver more
        → IsBack (shown (world_after v more)) u o n Elapsed
        ⊎ HasReply (shown (world_after v more)) u WaitOver) }
    ensures spurious { OfEveryList (λ lows w steps v.
        (u : ThreadId) (o : ObjectId) (n : ℕ) (more : List (Request × Bool))
        → IsBack (shown v) u o n Spurious → NeverReturns v u WaitOver more
        → IsBack (shown (world_after v more)) u o n Spurious
        ⊎ HasReply (shown (world_after v more)) u WaitOver) }
    ensures kept { OfEveryList (λ lows w steps v.
        (u : ThreadId) (r : Reply) (more : List (Request × Bool))
        → HasReply (shown v) u r → NeverReturns v u r more
        → HasReply (shown (world_after v more)) u r) }
{}

/// A waiter that is both notified and interrupted (JLS SE 8, 17.2.4), move by move of the abstract
/// machine. Where the interrupt comes first, the waiter leaves the wait set for it, a notify goes
/// to another member of the set, if there is one, and the wait throws, when the interrupt is
/// forgotten. Where the notification comes first, the wait returns normally, with the interrupt
/// pending. It never returns normally with its interrupt forgotten.
#[tactic(auto, using(crate::proofs::Lists::Waiters::both_orders))]
pub fn a_waiter_throws_or_keeps_its_interrupt()
    ensures first_interrupted { (s s' : State) (t u : ThreadId) (mine theirs : Bool)
        (o : ObjectId) (n : ℕ) (d : Option ℕ)
        → Calls s t mine (call.Interrupt u) → Is s u theirs (doing.Waits o n d)
        → Steps s (move.Interrupt t) s' → Is s' u true (doing.Back o n Interrupted) }
    ensures not_chosen { (s s' : State) (t u v : ThreadId) (flag : Bool)
        (o : ObjectId) (n : ℕ) (w : Why)
        → Is s u flag (doing.Back o n w) → Steps s (move.Notify t (Some v)) s' → v.0 ≡ u.0
        → ⊥ }
    ensures another { (s s' : State) (t v : ThreadId) (f g : Bool)
        (o : ObjectId) (n : ℕ) (d : Option ℕ)
        → Calls s t f (call.Notify o) → Is s v g (doing.Waits o n d)
        → Steps s (move.Notify t None) s' → ⊥ }
    ensures thrown { (s s' : State) (m : Move) (u : ThreadId) (flag : Bool) (o : ObjectId) (n : ℕ)
        → Steps s m s' → Is s u flag (doing.Back o n Interrupted)
        → IsBack s' u o n Interrupted ⊎ Is s' u false (doing.Has Throws) }
    ensures first_notified { (s s' : State) (t u : ThreadId) (mine theirs : Bool)
        (o : ObjectId) (n : ℕ)
        → Calls s t mine (call.Interrupt u) → Is s u theirs (doing.Back o n Notified)
        → Steps s (move.Interrupt t) s' → Is s' u true (doing.Back o n Notified) }
    ensures pending { (s s' : State) (m : Move) (u : ThreadId) (o : ObjectId) (n : ℕ) → Steps s m s'
        → Is s u true (doing.Back o n Notified)
        → Is s' u true (doing.Back o n Notified) ⊎ Is s' u true (doing.Has WaitOver) }
    ensures returned { (s s' : State) (m : Move) (u : ThreadId) → Steps s m s'
        → Is s u true (doing.Has WaitOver)
        → Is s' u true (doing.Has WaitOver) ⊎ Is s' u true doing.Idle }
    ensures never { (s s' : State) (m : Move) (u : ThreadId) (o : ObjectId) (n : ℕ) (w : Why)
        → Steps s m s' → Is s u true (doing.Back o n w)
        → Is s' u false (doing.Has WaitOver) → ⊥ }
{}

/// What each move of the abstract machine leaves: a thread that is back from a wait set, for
/// whatever reason, stays so or has the reply for its reason, a notified one with the interrupt
/// that it has; and a reply is kept until the move Return of just that reply.
#[tactic(auto, using(crate::proofs::Clauses::Lasting::move_lasts))]
pub fn every_move_keeps_what_lasts()
    ensures { (s s' : State) (m : Move) → Steps s m s' → LastsBut s (MoveReturns m) s' }
{}

/// Two worlds with the same numbers are the same world, whatever numbers stand behind them: so
/// lists of numbers may stand one behind the other, and no world's list begins another's.
#[tactic(auto, using(crate::proofs::Numbers::worlds_apart))]
pub fn numbers_tell_worlds_apart()
    ensures { (v w : WorldState) (a b : List ℕ) → IsNumbered v → IsNumbered w
        → numbers_of v ++ a ≡ numbers_of w ++ b → (v ≡ w) × (a ≡ b) }
{}
