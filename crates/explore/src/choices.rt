//! What may be chosen in a program, and what a search notes of choices and ends.

ghost use Rattle.std.specs.Prelude.{◌≡◌, ◌++◌, ◌∷◌, [], IfOk, OnOk, if◌then◌else◌};
ghost use Rattle.std.specs.Prelude.{length};
ghost use Rattle.explore.specs.Found.{all_choices};
ghost use Rattle.explore.specs.Searches.{IsSifted};
ghost use Rattle.step_core.specs.Sound.{IsSound};

use crate::programs::{Choice, Program};
use crate::states::{State, chosen_thread};
use lock_word::{Memory, ThreadId};
use std::alloc::Global;

/// Notes the number of a state that is an end.
pub(crate) fn note_end(ends: &mut Vec<u32>, is_end: bool, at: u32) -> Result<(), Memory>
    ensures { OnOk result (ends.new.items
        ≡ (if is_end then ends.old.items ++ at ∷ [] else ends.old.items)) }
{
    if is_end {
        ends.push(at)?;
    }
    Ok(())
}

/// Lists the choices that may be made in a state, in place of those that are there: those that are
/// left out cannot.
pub(crate) fn sift(
    program: &Program,
    choices: &[Choice],
    possible: &mut Vec<Choice>,
    state: &State,
) -> Result<(), Memory>
    requires { IsSound state.now.world }
    ensures { OnOk result (IsSifted program.now state.now choices.now (length choices.now)
        possible.new.items) }
{
    possible.clear();
    // The choices of a thread stand side by side, so what it is doing is looked up once for them.
    let mut thread = ThreadId(0);
    let mut doing = state.world().doing(thread);
    'sifting: for choice in choices {
        let next = chosen_thread(*choice);
        if next.0 != thread.0 {
            thread = next;
            doing = state.world().doing(next);
        }
        let may = state.may_make(program, *choice, doing);
        note_choice(possible, may, *choice)?;
    }
    Ok(())
}

/// Notes a choice that may be made.
fn note_choice(possible: &mut Vec<Choice>, may: bool, choice: Choice) -> Result<(), Memory>
    ensures { OnOk result (possible.new.items
        ≡ (if may then possible.old.items ++ choice ∷ [] else possible.old.items)) }
{
    if may {
        possible.push(choice)?;
    }
    Ok(())
}

/// All that may be chosen in a program.
pub(crate) fn choices_of(alloc: Global, program: &Program) -> Result<Vec<Choice>, Memory>
    ensures { IfOk result (λ v. v.items ≡ all_choices program.now) }
{
    let mut choices = Vec::new(alloc);
    'threads: for thread in 0..program.starts.len() {
        let thread = thread as u8;
        choices.push(Choice::Begin { thread })?;
        choices.push(Choice::Go { thread })?;
        choices.push(Choice::Expire { thread })?;
        choices.push(Choice::Spurious { thread })?;
    }
    choices.push(Choice::Tick)?;
    Ok(choices)
}
