//! The columns of a picture that is to be made.

ghost use Rattle.std.specs.Prelude.{◌≡◌, ◌∷◌, [], Some, None};

use lock_word::Split;
use step_core::{Fault, Move, RelayoutFault, Step};

/// What a world refused to do, and why.
#[derive(Clone, Copy)]
pub enum Refusal {
    Step { step: Step, fault: Fault },
    Relayout { split: Split, fault: RelayoutFault },
}

/// What happens in a column: its moves, in order, of which those that are there come first.
#[derive(Clone, Copy)]
pub struct Column {
    pub moves: [Option<Move>; 3],
    /// What is refused in it.
    pub refusal: Option<Refusal>,
}

impl Column {
    /// The column of a move alone.
    pub fn of(made: Move) -> Column
        ensures moves { result.moves ≡ Some made ∷ None ∷ None ∷ [] }
        ensures refusal { result.refusal ≡ None }
    {
        Column {
            moves: [Some(made), None, None],
            refusal: None,
        }
    }
}
