//! The moves of the abstract machine as JSON, and the lines of a history.
//!
//! `docs/FORMATS.md` has the form of a history. `specs/Moves.antt` has it as definitions: the
//! members of the object that a move is. A value is read as a move exactly where it is such an
//! object, and a line exactly where it is the text of one; of the many texts of a move, one is
//! written.
//!
//! There are four readers of a line, which agree where they answer; only `values` answers for each
//! line, and tells that one is no move. [`MoveReader::line_move`] decides in this order which of
//! them reads a line:
//!
//! 1. A line that is just as a move is written is read by `quick`.
//! 2. Of the others, a line of 4,096 bytes or more, and one that is no UTF-8, is read by `values`.
//! 3. One of fewer than 512 bytes is read straight from its bytes, by `spelled/bytes.rt`.
//! 4. One of 512 bytes or more, or with an escape that its bytes did not tell, is read from its
//!    tokens, by `spelled/tokens.rt`.
//! 5. What none of these has read is read by `values`: from the value that `serde_json` makes of
//!    it.
//!
//! The free function [`line_move`] has only `quick` and `values`. The members
//! that a line of another spelling has are gathered in `spelled/gathered.rt`; a move is read from
//! them, or from a value, by the functions of `values/reading.rt`. `pieces` and `words` have what
//! the readers share, and `writing` writes moves.
#![tactic(auto)]

mod lines;
mod pieces;
mod quick;
mod spelled;
mod values;
mod words;
mod writing;

pub use lines::{MoveReader, each_line_is_one_move, first_line, line_first, line_move, move_line};
pub use values::reading::{each_value_is_one_move, read_move};
pub use writing::pushing::push_move;
pub use writing::values::write_move;
