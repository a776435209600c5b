//! What the choices of a program lead to.

ghost use Rattle.std.specs.Prelude.{◌≡◌, ◌<◌, ℕ, List, Some, length};
ghost use Rattle.explore.specs.declared.programs.Choice.{Choice};
ghost use Rattle.explore.specs.declared.programs.Program.{Program};
ghost use Rattle.explore.specs.Replies.{replies_along, replies_of};
ghost use Rattle.explore.specs.States.{ProgramState, opening, played};

/// The replies that the steps of choices hand out to a thread, one after the other, are those that
/// the state behind the choices has for the thread's calls, in the order of the calls.
pub fn a_play_has_the_replies_of_its_steps()
    ensures { (p : Program) (cs : List Choice) (s : ProgramState) (k : ℕ)
        → played p cs ≡ Some s → k < length p.starts.items
        → replies_along p (Some (opening p)) cs k ≡ replies_of p s k }
{}
