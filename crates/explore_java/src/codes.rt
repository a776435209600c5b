//! The numbers that stand for a state.

ghost use Rattle.std.specs.Prelude.{◌≡◌, ◌++◌, OnOk, map};
ghost use Rattle.explore.specs.Codes.{answer_number};
ghost use Rattle.explore.specs.declared.programs.Program.{Program};
ghost use Rattle.explore_java.specs.JavaStates.{IsProper, JavaProgramState, code_of};

use fat_monitor::{Reply, numbers_tell_replies_apart};
use jls_check::numbers_tell_machines_apart;
use lock_word::Memory;

/// The numbers that stand for a state of a program, and for no other.
#[derive(PartialEq, Eq, Hash, Drop)]
pub(crate) struct Code {
    pub(crate) numbers: Vec<u64>,
}

/// Two states of a program with one code are the same state.
pub(crate) fn codes_tell_states_apart()
    ensures { (p : Program) (s t : JavaProgramState) → IsProper p s → IsProper p t
        → code_of p s ≡ code_of p t → s ≡ t }
{
    numbers_tell_machines_apart();
    numbers_tell_replies_apart();
}

/// Puts positions behind the numbers that are there.
pub(crate) fn push_positions(positions: &[usize], numbers: &mut Vec<u64>) -> Result<(), Memory>
    ensures { OnOk result (numbers.new.items ≡ numbers.old.items ++ positions.now) }
{
    'positions: for position in positions {
        numbers.push(*position as u64)?;
    }
    Ok(())
}

/// Puts the numbers of replies behind those that are there.
pub(crate) fn push_replies(replies: &[Option<Reply>], numbers: &mut Vec<u64>) -> Result<(), Memory>
    ensures { OnOk result (numbers.new.items
        ≡ numbers.old.items ++ map answer_number replies.now) }
{
    'replies: for reply in replies {
        numbers.push(answer_number(*reply))?;
    }
    Ok(())
}

/// 0 where there is no reply.
fn answer_number(reply: Option<Reply>) -> u64
    ensures { result ≡ answer_number reply }
{
    match reply {
        Some(reply) => u64::from(reply.number()) + 1,
        None => 0,
    }
}
