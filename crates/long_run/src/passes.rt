//! The passes of a round, and the works that have them.

ghost use Rattle.std.specs.Prelude.{◌≡◌, ◌<◌, IfOk, IfSome, length};
ghost use Rattle.std.specs.List.{All};
ghost use Rattle.live_threads.specs.Driving.{CanDrive, IsLive};

use crate::accounts::Accounts;
use live_threads::{Live, LivePass, Work, Worked};
use live_turns::Crew;
use lock_word::Memory;
use std::alloc::Global;

/// The last pass, if there is one.
pub fn last_pass<L: Crew>(live: &Live<L>, passes: &mut Vec<LivePass<L>>) -> Option<LivePass<L>>
    requires here { All (λ p. p.words.opening ≡ live.now) passes.old.items }
    ensures last { IfSome result (λ p. p.words.opening ≡ live.entry.now) }
    ensures rest { All (λ p. p.words.opening ≡ live.entry.now) passes.new.items }
{
    passes.pop()
}

/// A work for each plan, with the passes from the last to the first.
pub fn works_of<L: Crew>(
    alloc: Global,
    live: &Live<L>,
    accounts: &Accounts,
    mut passes: Vec<LivePass<L>>,
) -> Result<Vec<Work<L>>, Memory>
    requires here { All (λ p. p.words.opening ≡ live.now) passes.items }
    ensures can { IfOk result (λ ws. All (CanDrive live.entry.now) ws.items) }
{
    let mut works = Vec::with_capacity(alloc, passes.len())?;
    for plan in accounts.plans() {
        let Some(pass) = last_pass(live, &mut passes) else {
            return Ok(works);
        };
        works.push(Work {
            pass,
            calls: plan.copy(alloc)?,
        })?;
    }
    Ok(works)
}

/// The last worker that came back, if there is one.
fn last_worked<L: Crew>(live: &Live<L>, worked: &mut Vec<Worked<L>>) -> Option<Worked<L>>
    requires here { All (λ d. d.pass.words.opening ≡ live.now) worked.old.items }
    ensures last { IfSome result (λ d. d.pass.words.opening ≡ live.entry.now) }
    ensures rest { All (λ d. d.pass.words.opening ≡ live.entry.now) worked.new.items }
    ensures fewer { IfSome result (λ _. length worked.new.items < length worked.old.items) }
{
    worked.pop()
}

/// The passes of the workers, and the keeper's.
pub fn passes_of<L: Crew>(
    alloc: Global,
    live: &Live<L>,
    mut worked: Vec<Worked<L>>,
    keeper: LivePass<L>,
) -> Result<Vec<LivePass<L>>, Memory>
    requires here { All (λ d. d.pass.words.opening ≡ live.now) worked.items }
    requires keeper { keeper.words.opening ≡ live.now }
    ensures here { IfOk result (λ ps. All (λ p. p.words.opening ≡ live.entry.now) ps.items) }
{
    let mut passes = vec![in alloc; keeper]?;
    while let Some(done) = last_worked(live, &mut worked) {
        passes.push(done.pass)?;
    }
    Ok(passes)
}
