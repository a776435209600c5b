//! What a search finds.

ghost use Rattle.std.specs.Prelude.{◌≡◌, ◌<◌, length, IfOk};
ghost use Rattle.explore.specs.Found.{AreParents, witness_at, witnesses};

use crate::programs::Choice;
use lock_word::Memory;
use std::alloc::Global;
use std::marker::Model;

/// A state that was found: the number of the state that it was found from, and the choice.
#[derive(Clone, Copy)]
pub struct Node {
    pub(crate) parent: u32,
    pub(crate) choice: Choice,
}

/// The states of a program, numbered in the order in which they were found.
#[derive(Drop)]
pub struct Found {
    // Of each state but the first.
    pub(crate) nodes: Vec<Node>,
    // The numbers of those that no choice changes.
    pub(crate) ends: Vec<u32>,
    // How many choices can be made in all of them.
    pub(crate) steps: u64,
}

impl Model for Found {
    ghost use Rattle.explore.specs.Found.{FoundStates, witnesses};
    ghost use Rattle.explore.specs.Found.{AreParents};

    ghost Value = { FoundStates };

    ghost view = { λ f. record {
      witnesses = witnesses f.nodes.items;
      ends = f.ends.items;
      steps = f.steps;
    } };

    ghost invariant = { λ f. AreParents f.nodes.items };
}

impl Found {
    /// How many states there are: they are numbered from 0, where the program begins.
    pub fn states(&self) -> usize
        ensures { result ≡ length self.now.witnesses }
    {
        self.nodes.len() + 1
    }

    /// The numbers of the states that no choice changes: none can be made, or each that can leads
    /// to the same state again, as the load of a thin word whose owner never lets go.
    pub fn ends(&self) -> &[u32]
        ensures { result.now ≡ self.now.ends }
    {
        &self.ends
    }

    /// How many steps there are between them: in each state, each choice that can be made there is
    /// one.
    pub fn steps(&self) -> u64
        ensures { result ≡ self.now.steps }
    {
        self.steps
    }

    /// The choices that lead to a state, from where the program begins.
    pub fn witness(&self, alloc: Global, state: u32) -> Result<Vec<Choice>, Memory>
        requires { state < length self.now.witnesses }
        ensures { IfOk result (λ cs. cs.items ≡ witness_at self.now.witnesses state) }
    {
        choices_to(alloc, &self.nodes, state)
    }
}

/// The choices that lead to a state, where the others were found so.
pub(crate) fn choices_to(
    alloc: Global,
    nodes: &Vec<Node>,
    state: u32,
) -> Result<Vec<Choice>, Memory>
    requires parents { AreParents nodes.now.items }
    requires there { state < length (witnesses nodes.now.items) }
    ensures { IfOk result (λ cs. cs.items ≡ witness_at (witnesses nodes.now.items) state) }
{
    let mut choices = Vec::new(alloc);
    let mut at = state;
    'back: while at > 0 {
        let node = nodes[at as usize - 1];
        choices.push(node.choice)?;
        at = node.parent;
    }
    choices.reverse();
    Ok(choices)
}

/// Why a search tells nothing.
#[derive(Clone, Copy, PartialEq, Eq, Debug)]
pub enum ExploreFault {
    /// The system refused memory.
    Memory,
    /// There are more states than were asked for.
    TooManyStates,
}

impl From<Memory> for ExploreFault {
    ghost use Rattle.std.specs.Prelude.{◌≡◌};
    ghost use Rattle.explore.specs.declared.found.ExploreFault.TheVariants.{Memory};

    ghost from_gives = { λ _ fault. fault ≡ Memory };

    fn from(_: Memory) -> ExploreFault {
        ExploreFault::Memory
    }
}
