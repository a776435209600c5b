//! What the states that are found have to do with the runs of the Java machine.

ghost use Rattle.std.specs.Prelude.{◌≡◌, ◌<◌, ◌≤◌, ◌++◌, ℕ, List, Bool, Some, false, length};
ghost use Rattle.lock_word.specs.declared.ThreadId.{ThreadId};
ghost use Rattle.step_core.specs.declared.machine.Doing.{Doing};
ghost use Rattle.step_core.specs.declared.machine.Move.{Move};
ghost use Rattle.step_core.specs.Machine.{Is, State, Steps};
ghost use Rattle.jls_check.specs.MachineState.{state};
ghost use Rattle.explore.specs.declared.programs.Program.{Program};
ghost use Rattle.explore_java.specs.JavaFound.{AreStates, FindsAll, FoundJavaStates, IsAt, end_at};
ghost use Rattle.explore_java.specs.JavaFound.{move_at, witness_at};
ghost use Rattle.explore_java.specs.Moves.{moves_in};
ghost use Rattle.explore_java.specs.JavaRuns.{IsLeft, IsOutcomeOf, IsRunOf, Rests, Shows};
ghost use Rattle.explore_java.specs.JavaRuns.{NoneForWant, returns_in};
ghost use Rattle.explore_java.specs.JavaRuns.{attaches_of, is_for_want};
ghost use Rattle.explore_java.specs.JavaStates.{JavaProgramState, after, count_of, replies_of};
ghost use Rattle.explore.specs.States.{thread_of};

/// The states that a search finds are just those that runs of the Java machine lead to, which the
/// program may make and in which nothing is refused for want of a monitor or of memory; and its
/// ends are the outcomes among them.
///
/// The first six clauses ask for less than a search that has found all: they hold of the states of
/// which a search tells that they are too many, too.
pub fn the_states_are_those_of_the_machine()
    // The moves that lead to a state are such a run, behind the attaches of the program's threads.
    ensures run { (p : Program) (ws : List (List Move)) (k : ℕ) (t : JavaProgramState)
        → AreStates p ws → k < length ws → IsAt p ws k t
        → IsRunOf p (attaches_of p ++ witness_at ws k) (state t.machine) }
    // Nothing is refused in it for want.
    ensures wants { (p : Program) (ws : List (List Move)) (k : ℕ) (t : JavaProgramState)
        → AreStates p ws → k < length ws → IsAt p ws k t
        → NoneForWant (attaches_of p ++ witness_at ws k) }
    // The calls of each thread return in the run with the replies that the state has for them.
    ensures returns { (p : Program) (ws : List (List Move)) (k j : ℕ) (t : JavaProgramState)
        → AreStates p ws → k < length ws → IsAt p ws k t → j < count_of p
        → returns_in (thread_of j) (attaches_of p ++ witness_at ws k) ≡ replies_of p t j }
    // The moves that can be made in a state are those that the machine may make and the program
    // leaves to it, but for refusals for want: each of these can be made,
    ensures made { (p : Program) (ws : List (List Move)) (k : ℕ) (t : JavaProgramState)
        (m : Move) (y : State) → AreStates p ws → k < length ws → IsAt p ws k t
        → IsLeft p (attaches_of p ++ witness_at ws k) m → is_for_want m ≡ false
        → Steps (state t.machine) m y
        → (u : JavaProgramState) × (after p t m ≡ Some u) × (state u.machine ≡ y) }
    // and no other.
    ensures lawful { (p : Program) (ws : List (List Move)) (k : ℕ) (t u : JavaProgramState)
        (m : Move) → AreStates p ws → k < length ws → IsAt p ws k t → after p t m ≡ Some u
        → IsLeft p (attaches_of p ++ witness_at ws k) m × (is_for_want m ≡ false)
        × Steps (state t.machine) m (state u.machine) }
    // Each is among those that are counted there,
    ensures counted { (p : Program) (ws : List (List Move)) (k : ℕ) (t u : JavaProgramState)
        (m : Move) → AreStates p ws → k < length ws → IsAt p ws k t → after p t m ≡ Some u
        → (i : ℕ) × (i < length (moves_in p t)) × (move_at (moves_in p t) i ≡ m) }
    // and it is counted once.
    ensures once { (p : Program) (t : JavaProgramState) (i j : ℕ)
        → i < j → j < length (moves_in p t)
        → move_at (moves_in p t) i ≡ move_at (moves_in p t) j → ⊥ }
    // The moves that lead to an end are an outcome: behind them the machine can make none that the
    // program leaves to it, not even such a refusal.
    ensures end { (p : Program) (f : FoundJavaStates) (i : ℕ) (t : JavaProgramState)
        → FindsAll p f → i < length f.ends → IsAt p f.witnesses (end_at f i) t
        → IsOutcomeOf p (attaches_of p ++ witness_at f.witnesses (end_at f i))
        (state t.machine) }
    // What each thread is doing there.
    ensures rests { (p : Program) (f : FoundJavaStates) (i : ℕ) (t : JavaProgramState)
        (u : ThreadId) (flag : Bool) (d : Doing)
        → FindsAll p f → i < length f.ends → IsAt p f.witnesses (end_at f i) t
        → Is (state t.machine) u flag d → Rests p (state t.machine) u d }
    // Whatever such a run leads to is found, with moves that are no more than those of the run.
    ensures found { (p : Program) (f : FoundJavaStates) (ms : List Move) (x : State)
        → FindsAll p f → IsRunOf p ms x → NoneForWant ms
        → (k : ℕ) × (k < length f.witnesses) × (t : JavaProgramState)
        × IsAt p f.witnesses k t × Shows p ms x t
        × (length (attaches_of p ++ witness_at f.witnesses k) ≤ length ms) }
    // And an outcome of the machine is found among the ends.
    ensures outcome { (p : Program) (f : FoundJavaStates) (ms : List Move) (x : State)
        → FindsAll p f → IsOutcomeOf p ms x → NoneForWant ms
        → (i : ℕ) × (i < length f.ends) × (t : JavaProgramState)
        × IsAt p f.witnesses (end_at f i) t × Shows p ms x t
        × (length (attaches_of p ++ witness_at f.witnesses (end_at f i)) ≤ length ms) }
{}
