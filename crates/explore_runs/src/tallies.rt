//! How many ends have come to each outcome.

ghost use Rattle.std.specs.Prelude.{◌≡◌, ◌≤◌, ◌<◌, All, OnOk, string_bytes};
ghost use Rattle.explore_runs.specs.Tallies.{outcome_tallies, with_end};

use indexmap::IndexMap;
use lock_word::Memory;

/// The first of the ends that have come to an outcome, and how many have.
#[derive(Clone, Copy)]
pub(crate) struct Tally {
    pub(crate) first: usize,
    pub(crate) ends: usize,
}

/// Counts the end with a number for the outcome that has its text.
pub(crate) fn count_end(
    tallies: &mut IndexMap<String, Tally>,
    text: String,
    at: usize,
) -> Result<(), Memory>
    requires few { All (λ tally. tally.ends ≤ at) (outcome_tallies tallies.old.entries) }
    requires fits { at < usize.MAX }
    ensures { OnOk result (outcome_tallies tallies.new.entries
        ≡ with_end (outcome_tallies tallies.old.entries) (string_bytes text) at) }
{
    let tally = match tallies.get(&text) {
        Some(tally) => Tally {
            first: tally.first,
            ends: tally.ends + 1,
        },
        None => Tally { first: at, ends: 1 },
    };
    tallies.insert(text, tally)?;
    Ok(())
}
