//! The works of the threads of a live script, and what they came to.

ghost use Rattle.std.specs.Prelude.{◌≡◌, ◌≤◌, ◌++◌, ◌∷◌, [], IfOk, IfSome, IfNone, length, map};
ghost use Rattle.std.specs.Prelude.{vec_capacity};
ghost use Rattle.live_runs.specs.Runs.{told_in, told_in_row};

use fast_path::Call;
use fat_monitor::Reply;
use live_threads::{LivePass, Work, Worked};
use live_turns::{Crew, LiveFault};
use lock_word::Memory;
use std::alloc::Global;

/// What the calls of a worker came to, and whether it was stopped.
pub(crate) type Told = (Vec<Result<Reply, LiveFault>>, bool);

/// A work for each pass, with the calls at its position.
#[tactic(auto, using(live_threads::proofs::Drives::moved_on))]
pub(crate) fn works_of<L: Crew>(
    alloc: Global,
    mut passes: Vec<LivePass<L>>,
    mut rows: Vec<Vec<Call>>,
) -> Result<Vec<Work<L>>, Memory>
    requires { length rows.items ≡ length passes.items }
    ensures passes { IfOk result (λ works. map (λ w. w.pass) works.items ≡ passes.items) }
    ensures calls { IfOk result (λ works. map (λ w. w.calls) works.items ≡ rows.items) }
{
    let mut works = Vec::with_capacity(alloc, passes.len())?;
    while let Some(pass) = last_of(&mut passes) {
        let Some(calls) = last_of(&mut rows) else {
            unreachable!()
        };
        works.push_reserved(Work { pass, calls });
    }
    works.reverse();
    Ok(works)
}

/// The last one, if there is one.
fn last_of<T>(items: &mut Vec<T>) -> Option<T>
    ensures items { IfSome result (λ x. items.old.items ≡ items.new.items ++ x ∷ []) }
    ensures none { IfNone result (items.old.items ≡ []) }
    ensures room { vec_capacity items.new ≡ vec_capacity items.old }
{
    items.pop()
}

/// The passes of these works, and what their calls came to.
#[tactic(auto, using(live_turns::proofs::Rows::moved_over))]
pub(crate) fn taken_apart<L: Crew>(
    alloc: Global,
    mut worked: Vec<Worked<L>>,
) -> Result<(Vec<LivePass<L>>, Vec<Told>), Memory>
    ensures passes { IfOk result (λ r. r.0.items ≡ map (λ d. d.pass) worked.items) }
    ensures told { IfOk result (λ r. map told_in_row r.1.items ≡ map told_in worked.items) }
{
    let mut passes = Vec::with_capacity(alloc, worked.len())?;
    let mut told = Vec::with_capacity(alloc, worked.len())?;
    while let Some(worked) = last_of(&mut worked) {
        let Worked {
            pass,
            answers,
            stopped,
        } = worked;
        passes.push_reserved(pass);
        told.push_reserved((answers, stopped));
    }
    passes.reverse();
    told.reverse();
    Ok((passes, told))
}
