//! What a search finds.

ghost use Rattle.std.specs.Prelude.{◌≡◌, ◌<◌, length, IfOk};
ghost use Rattle.explore_java.specs.JavaFound.{AreParents, witness_at, witnesses};

use lock_word::Memory;
use std::alloc::Global;
use std::marker::Model;
use step_core::Move;

/// A state that was found: the number of the state that it was found from, and the move.
#[derive(Clone, Copy)]
pub struct Node {
    pub(crate) parent: u32,
    pub(crate) made: Move,
}

/// The states of a program on the Java machine, numbered in the order in which they were found.
#[derive(Drop)]
pub struct JavaFound {
    // Of each state but the first.
    pub(crate) nodes: Vec<Node>,
    // The numbers of those in which no move can be made.
    pub(crate) ends: Vec<u32>,
    // How many moves can be made in all of them.
    pub(crate) steps: u64,
}

impl Model for JavaFound {
    ghost use Rattle.explore_java.specs.JavaFound.{AreParents, FoundJavaStates, witnesses};

    ghost Value = { FoundJavaStates };

    ghost view = { λ f. record {
      witnesses = witnesses f.nodes.items;
      ends = f.ends.items;
      steps = f.steps;
    } };

    ghost invariant = { λ f. AreParents f.nodes.items };
}

impl JavaFound {
    /// How many states there are: they are numbered from 0, where the program begins.
    pub fn states(&self) -> usize
        ensures { result ≡ length self.now.witnesses }
    {
        self.nodes.len() + 1
    }

    /// The numbers of the states in which the machine can make no move that the program leaves to
    /// it.
    pub fn ends(&self) -> &[u32]
        ensures { result.now ≡ self.now.ends }
    {
        &self.ends
    }

    /// How many steps there are between them: in each state, each move that can be made there is
    /// one.
    pub fn steps(&self) -> u64
        ensures { result ≡ self.now.steps }
    {
        self.steps
    }

    /// The moves that lead to a state, behind the attaches of the program's threads.
    pub fn witness(&self, alloc: Global, state: u32) -> Result<Vec<Move>, Memory>
        requires { state < length self.now.witnesses }
        ensures { IfOk result (λ ms. ms.items ≡ witness_at self.now.witnesses state) }
    {
        moves_to(alloc, &self.nodes, state)
    }
}

/// The moves that lead to a state, where the others were found so.
fn moves_to(alloc: Global, nodes: &Vec<Node>, state: u32) -> Result<Vec<Move>, Memory>
    requires parents { AreParents nodes.now.items }
    requires there { state < length (witnesses nodes.now.items) }
    ensures { IfOk result (λ ms. ms.items ≡ witness_at (witnesses nodes.now.items) state) }
{
    let mut moves = Vec::new(alloc);
    let mut at = state;
    'back: while at > 0 {
        let node = nodes[at as usize - 1];
        moves.push(node.made)?;
        at = node.parent;
    }
    moves.reverse();
    Ok(moves)
}
