//! The columns of a script and of a history.

ghost use Rattle.std.specs.Prelude.{◌≡◌, [], List, Err, IfOk, OnOk};
ghost use Rattle.step_core.specs.Step.{moves_of};
ghost use Rattle.step_core.specs.World.{WorldState, word_at};
ghost use Rattle.step_core.specs.declared.steps.Fault.TheVariants.{Memory as OutOfMemory};
ghost use Rattle.pictures.specs.Marks.{moves_in};
ghost use Rattle.drawing.specs.Columns.{AreColumns, AreColumnsThrough, HaveWords, IsColumn};
ghost use Rattle.drawing.specs.Columns.{columns_of, refusal_of, words_of};

use lock_word::{Memory, ObjectId, Word};
use pictures::{Column, Refusal};
use std::alloc::{AllocError, Global};
use step_core::{Did, Fault, Move, RelayoutFault, Request, Step, World};

/// Columns, and for each of them the header words behind it of some objects.
#[derive(Drop)]
pub(crate) struct WordedColumns {
    pub(crate) columns: Vec<Column>,
    pub(crate) words: Vec<Vec<Word>>,
}

/// Does steps and relayouts, and makes a column of each.
pub(crate) fn play_steps(
    alloc: Global,
    world: &mut World,
    steps: &[Request],
) -> Result<Vec<Column>, Memory>
    ensures { IfOk result (λ columns. AreColumns world.old steps.now world.new columns.items) }
{
    let mut columns = Vec::new(alloc);
    'steps: for request in steps {
        columns.push(column_of(world, *request)?)?;
    }
    Ok(columns)
}

/// The same, with the header words behind each column of the objects with some numbers.
pub(crate) fn play_worded_steps(
    alloc: Global,
    world: &mut World,
    steps: &[Request],
    drawn: &[u32],
) -> Result<WordedColumns, Memory>
    ensures { IfOk result (λ played. (worlds : List WorldState)
        × AreColumnsThrough world.old steps.now world.new worlds played.columns.items
        × HaveWords drawn.now worlds played.words.items) }
{
    let mut columns = Vec::new(alloc);
    let mut words = Vec::new(alloc);
    'steps: for request in steps {
        columns.push(column_of(world, *request)?)?;
        words.push(words_of(alloc, world, drawn)?)?;
    }
    Ok(WordedColumns { columns, words })
}

/// The header words of the objects with some numbers.
fn words_of(alloc: Global, world: &World, drawn: &[u32]) -> Result<Vec<Word>, AllocError>
    ensures { IfOk result (λ words. words.items ≡ words_of world.now drawn.now) }
{
    let mut words = Vec::new(alloc);
    'drawn: for number in drawn {
        words.push(word_of(world, *number))?;
    }
    Ok(words)
}

/// The header word of the object with a number; past the last object stands the free word.
fn word_of(world: &World, number: u32) -> Word
    ensures { result ≡ word_at world.now number }
{
    if number < world.objects() {
        world.word(ObjectId(number))
    } else {
        Word(0)
    }
}

/// Does a step or a relayout, and makes a column of it.
fn column_of(world: &mut World, request: Request) -> Result<Column, Memory>
    ensures { IfOk result (IsColumn world.old request world.new) }
{
    match request {
        Request::Step(step) => {
            let answer = world.step(step);
            column_in(step, answer)
        }
        Request::Relayout(split) => match world.relayout(split) {
            Ok(_) => Ok(no_moves(None)),
            Err(RelayoutFault::Memory) => Err(Memory),
            Err(fault) => Ok(no_moves(Some(Refusal::Relayout { split, fault }))),
        },
    }
}

/// The column of an answer, unless it is want of memory.
fn column_in(step: Step, answer: Result<Did, Fault>) -> Result<Column, Memory>
    ensures moves { IfOk result (λ column. moves_in column ≡ moves_of answer) }
    ensures refusal { IfOk result (λ column. column.refusal ≡ refusal_of step answer) }
    ensures memory { OnOk result (answer ≡ Err OutOfMemory → ⊥) }
{
    match answer {
        Ok(did) => {
            let moves = did.moves;
            Ok(Column {
                moves,
                refusal: None,
            })
        }
        Err(Fault::Memory) => Err(Memory),
        Err(fault) => Ok(no_moves(Some(Refusal::Step { step, fault }))),
    }
}

/// A column with no move in it.
fn no_moves(refusal: Option<Refusal>) -> Column
    ensures moves { moves_in result ≡ [] }
    ensures refusal { result.refusal ≡ refusal }
{
    let moves = [None; 3];
    Column { moves, refusal }
}

/// The columns of moves, one for each.
pub(crate) fn columns_of(alloc: Global, moves: &[Move]) -> Result<Vec<Column>, AllocError>
    ensures { IfOk result (λ columns. columns.items ≡ columns_of moves.now) }
{
    let mut columns = Vec::new(alloc);
    'moves: for made in moves {
        columns.push(Column::of(*made))?;
    }
    Ok(columns)
}
