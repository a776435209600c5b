//! The cycles of owners behind the last column.

ghost use Rattle.std.specs.Prelude.{◌≡◌, ◌≤◌, IfOk, IsErrOf, length, map, vec_items};
ghost use Rattle.jls_check.specs.MachineState.{state};
ghost use Rattle.step_core.specs.Cycles.{AreCycles, next};
ghost use Rattle.pictures.specs.Pictures.{AreAllLive, HasManyCycles};
ghost use Rattle.pictures.specs.declared.faults.PictureFault.TheVariants.{TooManyColumns, TooManyLanes};

use crate::faults::PictureFault;
use crate::picturing::MOST_LANES;
use jls_check::Machine;
use lock_word::ThreadId;
use owner_cycles::cycles_along;
use std::alloc::{AllocError, Global};

/// The cycles of owners of a machine, if they are no more than a picture has lanes. All its live
/// threads, and maybe others, are told by rising number.
pub(crate) fn cycles_of(
    alloc: Global,
    machine: &Machine,
    threads: &[ThreadId],
) -> Result<Vec<Vec<ThreadId>>, PictureFault>
    requires { AreAllLive (state machine.now) threads.now }
    ensures cycles { IfOk result (λ cycles.
        AreCycles (state machine.now) (map vec_items cycles.items)) }
    ensures few { IfOk result (λ cycles. length cycles.items ≤ MOST_LANES) }
    ensures many { IsErrOf result TooManyLanes → HasManyCycles (state machine.now) }
    ensures columns { IsErrOf result TooManyColumns → ⊥ }
{
    let nexts = nexts_of(alloc, machine, threads)?;
    let cycles = cycles_along(alloc, threads, &nexts)?;
    if cycles.len() > MOST_LANES {
        return Err(PictureFault::TooManyLanes);
    }
    Ok(cycles)
}

/// For each of some threads, the one for which it waits.
fn nexts_of(
    alloc: Global,
    machine: &Machine,
    threads: &[ThreadId],
) -> Result<Vec<Option<ThreadId>>, AllocError>
    ensures { IfOk result (λ nexts. nexts.items ≡ map (next (state machine.now)) threads.now) }
{
    let mut nexts = Vec::new(alloc);
    'threads: for thread in threads {
        nexts.push(machine.next_of(*thread))?;
    }
    Ok(nexts)
}
