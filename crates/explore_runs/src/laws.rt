//! What a script of choices plays, and what the Java machine says of its outcome.

ghost use Rattle.std.specs.Prelude.{◌≡◌, ◌<◌, ◌-◌, ℕ, Bool, List, Some, length};
ghost use Rattle.std.specs.List.{flat_map};
ghost use Rattle.lock_word.specs.declared.ThreadId.{ThreadId};
ghost use Rattle.step_core.specs.declared.machine.Doing.{Doing};
ghost use Rattle.step_core.specs.Machine.{Is};
ghost use Rattle.step_core.specs.Shown.{shown};
ghost use Rattle.history.specs.NameLists.{NameLists};
ghost use Rattle.explore.specs.declared.programs.Choice.{Choice};
ghost use Rattle.explore.specs.declared.programs.Program.{Program};
ghost use Rattle.explore.specs.Found.{IsEnd};
ghost use Rattle.explore.specs.Replies.{replies_of};
ghost use Rattle.explore.specs.States.{ProgramState, end_of, played, start_of, thread_of};
ghost use Rattle.program_text.specs.Programs.{IsProgramIn};
ghost use Rattle.program_text.specs.declared.numbering.NamedProgram.{
  NamedProgram as NamedProgramData,
};
ghost use Rattle.jls_check.specs.MachineState.{state};
ghost use Rattle.explore_java.specs.JavaFound.{FindsAll, FoundJavaStates, IsAt, end_at};
ghost use Rattle.explore_java.specs.JavaRuns.{AreBytes, IsOutcomeOf, IsRunOf, Rests};
ghost use Rattle.explore_java.specs.JavaRuns.{NoneForWant, returns_in};
ghost use Rattle.explore_java.specs.JavaStates.{JavaProgramState};
ghost use Rattle.explore_java.specs.JavaStates.{replies_of as java_replies_of};
ghost use Rattle.explore_runs.specs.JavaOutcomes.{IsJavaOutcome};
ghost use Rattle.explore_runs.specs.Outcomes.{IsOutcome, replies_text, reply_word};
ghost use Rattle.explore_runs.specs.Replays.{HasFewStrangers, IsNamed, Replays};
ghost use Rattle.explore_runs.specs.Steps.{LeadTo, empty_world, replies_told};
ghost use Rattle.explore_runs.specs.Steps.{script_moves, script_steps};

/// The script of choices that lead to a state is a script, and whatever it is read as plays to the
/// world of that state: each of its steps is accepted, with all memory granted, and they hand out
/// to each thread the replies that the state has for its calls. The names have to be those of the
/// program. For a state that is no outcome, the calls may name at most one thread that the program
/// has not.
pub fn a_script_leads_to_its_state()
    // The text of an outcome, read as a script and played.
    ensures outcomes { (names : NameLists) (p : Program) (cs : List Choice) (s : ProgramState)
        → IsNamed names p → played p cs ≡ Some s → IsEnd p s → Replays names p cs s }
    // The same of any state, where the calls name at most one thread that the program has not.
    ensures played { (names : NameLists) (p : Program) (cs : List Choice) (s : ProgramState)
        → IsNamed names p → HasFewStrangers names p → played p cs ≡ Some s → Replays names p cs s }
    // The names of a program that was read from a text are right so.
    ensures named { (bytes : List ℕ) (named : NamedProgramData) → IsProgramIn bytes named
        → IsNamed named.names named.program }
    // The steps alone, whatever the names are.
    ensures steps { (p : Program) (cs : List Choice) (s : ProgramState) → played p cs ≡ Some s
        → LeadTo (empty_world p) (script_steps p cs) s.world }
    // The replies of the steps are those of the state.
    ensures replies { (p : Program) (cs : List Choice) (s : ProgramState) (k : ℕ)
        → played p cs ≡ Some s → k < length p.starts.items
        → replies_told (empty_world p) (script_steps p cs) (thread_of k) ≡ replies_of p s k }
    // And these are the replies that the text of an outcome tells in the thread's line.
    ensures told { (p : Program) (s : ProgramState) (k : ℕ)
        → replies_text s.replies (start_of p k) (end_of p k - start_of p k)
        ≡ flat_map reply_word (replies_of p s k) }
{}

/// An outcome of the core is one of the Java machine itself, for the same program: the moves of its
/// witness are a run of the machine that the program may make, which leads to what the state shows,
/// and in which the calls of each thread return with the replies that the state has; and behind it
/// the machine can make no move that the program leaves to it, not even a refusal for want of a
/// monitor or of memory. So who is stuck in an outcome is stuck by the rules of JLS SE 8, chapter
/// 17, and not by how locks are kept, as long as the clock tells no more moments and waits end
/// for no reason only where the program allows it. The machine may have other outcomes, too.
pub fn an_outcome_is_one_of_the_machine()
    // The moves of any witness.
    ensures run { (p : Program) (cs : List Choice) (s : ProgramState)
        → AreBytes p.lows.items → played p cs ≡ Some s
        → IsRunOf p (script_moves p cs) (shown s.world) }
    // The replies in them are those of the state.
    ensures returns { (p : Program) (cs : List Choice) (s : ProgramState) (k : ℕ)
        → AreBytes p.lows.items → played p cs ≡ Some s → k < length p.starts.items
        → returns_in (thread_of k) (script_moves p cs) ≡ replies_of p s k }
    // The moves of an outcome.
    ensures outcome { (p : Program) (cs : List Choice) (s : ProgramState)
        → AreBytes p.lows.items → played p cs ≡ Some s → IsEnd p s
        → IsOutcomeOf p (script_moves p cs) (shown s.world) }
    // What each thread is doing there.
    ensures rests { (p : Program) (cs : List Choice) (s : ProgramState)
        (t : ThreadId) (flag : Bool) (d : Doing)
        → AreBytes p.lows.items → played p cs ≡ Some s → IsEnd p s
        → Is (shown s.world) t flag d → Rests p (shown s.world) t d }
{}

/// An outcome of the core is among those that are found on the Java machine, for the same program,
/// where nothing was refused for want of a monitor or of memory on the way: an end is found there
/// that shows the same machine, and in which the calls of each thread have the same replies. Such
/// an end has the same text.
pub fn an_outcome_is_found_on_the_java_machine()
    // The end that is found.
    ensures found { (p : Program) (f : FoundJavaStates) (cs : List Choice) (s : ProgramState)
        → AreBytes p.lows.items → FindsAll p f → played p cs ≡ Some s → IsEnd p s
        → NoneForWant (script_moves p cs)
        → (i : ℕ) × (i < length f.ends) × (t : JavaProgramState)
        × IsAt p f.witnesses (end_at f i) t × (state t.machine ≡ shown s.world)
        × ((k : ℕ) → k < length p.starts.items
        → java_replies_of p t k ≡ replies_of p s k) }
    // Any state that shows the same machine and has the same replies has the text of the outcome.
    ensures texts { (names : NameLists) (p : Program) (cs : List Choice) (s : ProgramState)
        (t : JavaProgramState) (text : List ℕ)
        → IsNamed names p → played p cs ≡ Some s → state t.machine ≡ shown s.world
        → ((k : ℕ) → k < length p.starts.items → java_replies_of p t k ≡ replies_of p s k)
        → IsOutcome names p s text → IsJavaOutcome names p t text }
    // The line of a thread tells the replies that the state has for its calls.
    ensures told { (p : Program) (t : JavaProgramState) (k : ℕ)
        → replies_text t.replies (start_of p k) (end_of p k - start_of p k)
        ≡ flat_map reply_word (java_replies_of p t k) }
{}
