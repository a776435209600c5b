//! Histories: the moves that the steps of a script hand out.

ghost use Rattle.std.specs.Prelude.{◌≡◌, ◌≤◌, ◌<◌, ◌⊎◌, ◌++◌, ◌∷◌, [], ℕ, List, Err, IfErr, IfOk};
ghost use Rattle.std.specs.Prelude.{IfSome, IsErrOf, OnOk, length, take};
ghost use Rattle.std.specs.Io.KnownBytes.{Keeps, Appends};
ghost use Rattle.script_text.specs.Lines.{IsFirstBad};
ghost use Rattle.text_streams.specs.declared.faults.FileFault.TheVariants.{BadLine, BadMove};
ghost use Rattle.text_streams.specs.declared.faults.FileFault.TheVariants.{Broken};
ghost use Rattle.text_streams.specs.declared.faults.FileFault.TheVariants.{Read as ReadFault};
ghost use Rattle.text_streams.specs.declared.faults.FileFault.TheVariants.{Write as WriteFault};
ghost use Rattle.step_core.specs.Step.{moves_made, moves_of};
ghost use Rattle.step_core.specs.declared.steps.Fault.TheVariants.{Memory as OutOfMemory};
ghost use Rattle.history.specs.Plans.{IsPlanOf};
ghost use Rattle.history.specs.declared.plans.Plan.{Plan as PlanData};
ghost use Rattle.history.specs.Histories.{IsHistoryOf, Tells, TellsOne, moves_text, objects_text};
ghost use Rattle.script_text.specs.Scripts.{IsReasonFor};

use crate::plans::Plan;
use crate::running::{plan_in, read_all};
use history_moves::{first_line, push_move};
use lock_word::Memory;
use script_text::MOST_BYTES;
use std::alloc::Global;
use step_core::{Did, Fault, Move, RelayoutFault, Request, World};
use text_streams::{FileFault, Sink, Source, write_out};

/// Reads a script to its end, plays it, and writes its history: how many objects there are, and a
/// line for each move that its steps hand out.
///
/// The whole script is read and played before the first byte of the history is written.
pub fn moves<S: Source, W: Sink>(
    alloc: Global,
    source: &mut S,
    sink: &mut W,
) -> Result<(), FileFault>
    requires { S.given source.old ≡ 0 }
    // At Ok, neither end has failed in the call, the bytes were the text of a script within its
    // limit, and the whole of its history was written.
    ensures written { OnOk result ((plan : PlanData) × IfSome (S.left source.old) (IsPlanOf plan)
        × (history : List ℕ) × IsHistoryOf plan history
        × Appends (W.holds sink.old) (W.holds sink.new) history) }
    ensures read_whole { OnOk result (S.has_failed source.new → S.has_failed source.old) }
    ensures written_whole { OnOk result (W.has_failed sink.new → W.has_failed sink.old) }
    ensures within { OnOk result (IfSome (S.left source.old) (λ input. length input ≤ MOST_BYTES)) }

    // Else a fault tells its cause, and only where writing failed was something written: the front
    // of the history.
    ensures bad_line { (line : ℕ) → result ≡ Err (BadLine line)
        → IfSome (S.left source.old) (λ input. IsFirstBad input line) }
    ensures read { IsErrOf result ReadFault
        → S.has_failed source.new ⊎ MOST_BYTES < S.given source.new }
    ensures write { IsErrOf result WriteFault → W.has_failed sink.new }
    ensures cut { IsErrOf result WriteFault → (plan : PlanData)
        × IfSome (S.left source.old) (IsPlanOf plan)
        × (history : List ℕ) × IsHistoryOf plan history
        × (n : ℕ) × Appends (W.holds sink.old) (W.holds sink.new) (take n history) }
    ensures unwritten { IfErr result (λ fault.
        (fault ≡ WriteFault) ⊎ Keeps (W.holds sink.old) (W.holds sink.new)) }
    // But for a failed read and want of memory, a fault comes only once the text was read whole.
    ensures read_first { IfErr result (λ fault. (fault ≡ ReadFault) ⊎ (fault ≡ FileFault.Memory)
        ⊎ ((S.has_failed source.new → S.has_failed source.old)
        × IfSome (S.left source.old) (λ input. length input ≤ MOST_BYTES))) }
    // No fault is one of a history.
    ensures kinds { (line : ℕ) → (result ≡ Err (BadMove line) ⊎ result ≡ Err (Broken line)) → ⊥ }
{
    let bytes = read_all(alloc, source)?;
    let history = history_in(alloc, bytes)?;
    write_out(sink, &history)
}

/// Plays a script and writes its history: how many objects there are, and then a line for each move
/// that its steps hand out.
fn history_of(alloc: Global, plan: &Plan) -> Result<Vec<u8>, Memory>
    ensures { IfOk result (λ history. IsHistoryOf plan.now history.items) }
{
    let mut world = World::new(alloc, &plan.lows, plan.monitors, plan.indices, plan.split)?;
    let mut history = opening_text(alloc, plan.lows.len() as u16)?;
    tell_steps(&mut world, &plan.steps, &mut history)?;
    Ok(history)
}

/// The history of the script that some bytes are the text of. The bytes are given back before it is
/// played.
fn history_in(alloc: Global, bytes: Vec<u8>) -> Result<Vec<u8>, FileFault>
    ensures history { IfOk result (λ history. (plan : PlanData) × IsPlanOf plan bytes.items
        × IsHistoryOf plan history.items) }
    ensures fault { IfErr result (IsReasonFor bytes.items) }
{
    let plan = plan_in(alloc, &bytes)?;
    drop(bytes);
    let history = history_of(alloc, &plan)?;
    Ok(history)
}

/// The first line of a history, with its line feed.
#[tactic(auto, unfolding(crate::specs::Histories::objects_text))]
fn opening_text(alloc: Global, objects: u16) -> Result<Vec<u8>, Memory>
    ensures { IfOk result (λ text. text.items ≡ objects_text objects) }
{
    let line = first_line(alloc, objects)?;
    let mut text = Vec::from_slice(alloc, line.as_bytes())?;
    text.push(b'\n')?;
    Ok(text)
}

/// Does steps and relayouts, and writes the moves that they hand out.
fn tell_steps(world: &mut World, steps: &[Request], history: &mut Vec<u8>) -> Result<(), Memory>
    ensures { OnOk result (Tells world.old steps.now world.new
        history.old.items history.new.items) }
{
    'steps: for request in steps {
        tell(world, *request, history)?;
    }
    Ok(())
}

/// Does a step, and writes its moves; or a relayout, which has none.
fn tell(world: &mut World, request: Request, history: &mut Vec<u8>) -> Result<(), Memory>
    ensures { OnOk result (TellsOne world.old request world.new
        history.old.items history.new.items) }
{
    match request {
        Request::Step(step) => {
            let answer = world.step(step);
            put_answer(history, answer)
        }
        Request::Relayout(split) => match world.relayout(split) {
            Err(RelayoutFault::Memory) => Err(Memory),
            Ok(_) | Err(_) => Ok(()),
        },
    }
}

/// Writes the moves of an answer, unless it is want of memory.
fn put_answer(history: &mut Vec<u8>, answer: Result<Did, Fault>) -> Result<(), Memory>
    ensures told { OnOk result (history.new.items
        ≡ history.old.items ++ moves_text (moves_of answer)) }
    ensures memory { OnOk result (answer ≡ Err OutOfMemory → ⊥) }
{
    match answer {
        Ok(did) => put_moves(history, &did.moves),
        Err(Fault::Memory) => Err(Memory),
        Err(_) => Ok(()),
    }
}

/// Writes the moves that are there.
fn put_moves(history: &mut Vec<u8>, moves: &[Option<Move>]) -> Result<(), Memory>
    ensures { OnOk result (history.new.items
        ≡ history.old.items ++ moves_text (moves_made moves.now)) }
{
    'moves: for made in moves {
        put_made(history, made)?;
    }
    Ok(())
}

/// Writes a move, if it is there.
fn put_made(history: &mut Vec<u8>, made: &Option<Move>) -> Result<(), Memory>
    ensures { OnOk result (history.new.items
        ≡ history.old.items ++ moves_text (moves_made (made.now ∷ []))) }
{
    match made {
        Some(made) => put_move(history, made),
        None => Ok(()),
    }
}

#[tactic(auto, unfolding(crate::specs::Histories::move_text))]
fn put_move(history: &mut Vec<u8>, made: &Move) -> Result<(), Memory>
    ensures { OnOk result (history.new.items
        ≡ history.old.items ++ moves_text (made.now ∷ [])) }
{
    push_move(history, made)?;
    history.push(b'\n')?;
    Ok(())
}
