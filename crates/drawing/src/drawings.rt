//! Drawing: from a reader's bytes to a writer's picture.

ghost use Rattle.std.specs.Prelude.{◌≡◌, ◌≤◌, ◌<◌, ◌-◌, ◌^◌, ◌⊎◌, ◌++◌, ℕ, List, length, string_bytes};
ghost use Rattle.std.specs.Prelude.{take};
ghost use Rattle.std.specs.Prelude.{IsErrOf, IfSome, OnOk, IfErr, IfOk, Err};
ghost use Rattle.std.specs.Io.KnownBytes.{Keeps, Appends};
ghost use Rattle.text_streams.specs.declared.faults.FileFault.TheVariants.{BadLine, BadMove};
ghost use Rattle.text_streams.specs.declared.faults.FileFault.TheVariants.{Broken};
ghost use Rattle.text_streams.specs.declared.faults.FileFault.TheVariants.{Read as ReadFault};
ghost use Rattle.text_streams.specs.declared.faults.FileFault.TheVariants.{Write as WriteFault};
ghost use Rattle.text_streams.specs.declared.faults.FileFault.TheVariants.{Memory as MemoryFault};
ghost use Rattle.drawing.specs.declared.faults.DrawFault.TheVariants.{File, TooManyColumns};
ghost use Rattle.drawing.specs.declared.faults.DrawFault.TheVariants.{NoSuchColumn, TooManyLanes};
ghost use Rattle.drawing.specs.Columns.{HaveWords};
ghost use Rattle.drawing.specs.Drawings.{IsHistoryDrawing, IsHistoryReason};
ghost use Rattle.drawing.specs.Drawings.{IsMovesDrawing, IsMovesReason, IsPictureReason};
ghost use Rattle.drawing.specs.Drawings.{IsPlanDrawing, IsPlanReason, IsPlayedDrawing};
ghost use Rattle.drawing.specs.Drawings.{IsScriptDrawing, IsScriptReason};
ghost use Rattle.step_core.specs.Machine.{State, Run, opening};
ghost use Rattle.step_core.specs.Shown.{shown};
ghost use Rattle.step_core.specs.World.{WorldState};
ghost use Rattle.pictures.specs.Pictures.{IsPicture, IsRun, IsWithin, all_moves};

use crate::columns::columns_of;
use crate::faults::DrawFault;
use crate::playing::{Played, are_drawn, play_plan};
use crate::windows::Window;
use history::{Plan, plan_in, read_all};
use history_check::{MoveList, read_moves};
use lock_word::Word;
use picture_text::{Naming, picture_text};
use pictures::{Column, Picture, PictureFault, picture_of};
use script_text::MOST_BYTES;
use std::alloc::Global;
use text_streams::{FileFault, Sink, Source, write_out};

/// Reads a script to its end, plays it, and writes a picture of it as SVG: a column for each step
/// that the window shows.
///
/// The whole script is read, and all is drawn, before the first byte is written. Of the steps
/// behind the window none is played.
pub fn draw_script<S: Source, W: Sink>(
    alloc: Global,
    window: Window,
    source: &mut S,
    sink: &mut W,
) -> Result<(), DrawFault>
    requires { S.given source.old ≡ 0 }
    // At Ok, neither end has failed in the call, the bytes were the text of a script within its
    // limit, and the whole picture was written.
    ensures written { OnOk result ((text : List ℕ)
        × IfSome (S.left source.old) (λ input. IsScriptDrawing window input text)
        × Appends (W.holds sink.old) (W.holds sink.new) text) }
    ensures read_whole { OnOk result (S.has_failed source.new → S.has_failed source.old) }
    ensures written_whole { OnOk result (W.has_failed sink.new → W.has_failed sink.old) }
    ensures within { OnOk result (IfSome (S.left source.old) (λ input. length input ≤ MOST_BYTES)) }

    // Else a fault tells its cause, and only where writing failed was something written: the front
    // of the picture.
    ensures bad_line { (line : ℕ) → result ≡ Err (File (BadLine line))
        → IfSome (S.left source.old) (λ input. IsScriptReason window input (File (BadLine line))) }
    ensures columns { IsErrOf result TooManyColumns
        → IfSome (S.left source.old) (λ input. IsScriptReason window input TooManyColumns) }
    ensures lanes { IsErrOf result TooManyLanes
        → IfSome (S.left source.old) (λ input. IsScriptReason window input TooManyLanes) }
    ensures no_column { (n : ℕ) → result ≡ Err (NoSuchColumn n)
        → IfSome (S.left source.old) (λ input. IsScriptReason window input (NoSuchColumn n)) }
    ensures read { IsErrOf result (File ReadFault)
        → S.has_failed source.new ⊎ MOST_BYTES < S.given source.new }
    ensures write { IsErrOf result (File WriteFault) → W.has_failed sink.new }
    ensures cut { IsErrOf result (File WriteFault) → (text : List ℕ)
        × IfSome (S.left source.old) (λ input. IsScriptDrawing window input text)
        × (n : ℕ) × Appends (W.holds sink.old) (W.holds sink.new) (take n text) }
    ensures unwritten { IfErr result (λ fault.
        (fault ≡ File WriteFault) ⊎ Keeps (W.holds sink.old) (W.holds sink.new)) }
    // But for a failed read and want of memory, a fault comes only once the text was read whole.
    ensures read_first { IfErr result (λ fault. (fault ≡ File ReadFault)
        ⊎ (fault ≡ File MemoryFault) ⊎ ((S.has_failed source.new → S.has_failed source.old)
        × IfSome (S.left source.old) (λ input. length input ≤ MOST_BYTES))) }
    // No fault is one of a history.
    ensures kinds { (line : ℕ) → (result ≡ Err (File (BadMove line))
        ⊎ result ≡ Err (File (Broken line))) → ⊥ }
{
    let bytes = read_all(alloc, source)?;
    let text = script_drawing(alloc, window, &bytes)?;
    write_out(sink, text.as_bytes())?;
    Ok(())
}

/// Reads a history to its end, checks it, and writes a picture of it as SVG: a column for each move
/// that the window shows. Here a history has at most 16,777,216 bytes.
///
/// The whole history is read and checked, and all is drawn, before the first byte is written.
pub fn draw_moves<S: Source, W: Sink>(
    alloc: Global,
    window: Window,
    source: &mut S,
    sink: &mut W,
) -> Result<(), DrawFault>
    requires { S.given source.old ≡ 0 }
    // At Ok, neither end has failed in the call, the bytes were the history of a run, and the whole
    // picture was written.
    ensures written { OnOk result ((text : List ℕ)
        × IfSome (S.left source.old) (λ input. IsHistoryDrawing window input text)
        × Appends (W.holds sink.old) (W.holds sink.new) text) }
    ensures read_whole { OnOk result (S.has_failed source.new → S.has_failed source.old) }
    ensures written_whole { OnOk result (W.has_failed sink.new → W.has_failed sink.old) }
    ensures within { OnOk result (IfSome (S.left source.old) (λ input. length input ≤ MOST_BYTES)) }

    // Else a fault tells its cause, and only where writing failed was something written: the front
    // of the picture.
    ensures bad_move { (line : ℕ) → result ≡ Err (File (BadMove line))
        → IfSome (S.left source.old) (λ input. IsHistoryReason window input (File (BadMove line))) }
    ensures broken { (line : ℕ) → result ≡ Err (File (Broken line))
        → IfSome (S.left source.old) (λ input. IsHistoryReason window input (File (Broken line))) }
    ensures columns { IsErrOf result TooManyColumns
        → IfSome (S.left source.old) (λ input. IsHistoryReason window input TooManyColumns) }
    ensures lanes { IsErrOf result TooManyLanes
        → IfSome (S.left source.old) (λ input. IsHistoryReason window input TooManyLanes) }
    ensures no_column { (n : ℕ) → result ≡ Err (NoSuchColumn n)
        → IfSome (S.left source.old) (λ input. IsHistoryReason window input (NoSuchColumn n)) }
    ensures read { IsErrOf result (File ReadFault)
        → S.has_failed source.new ⊎ MOST_BYTES < S.given source.new }
    ensures write { IsErrOf result (File WriteFault) → W.has_failed sink.new }
    ensures cut { IsErrOf result (File WriteFault) → (text : List ℕ)
        × IfSome (S.left source.old) (λ input. IsHistoryDrawing window input text)
        × (n : ℕ) × Appends (W.holds sink.old) (W.holds sink.new) (take n text) }
    ensures unwritten { IfErr result (λ fault.
        (fault ≡ File WriteFault) ⊎ Keeps (W.holds sink.old) (W.holds sink.new)) }
    // But for a failed read and want of memory, a fault comes only once the text was read whole.
    ensures read_first { IfErr result (λ fault. (fault ≡ File ReadFault)
        ⊎ (fault ≡ File MemoryFault) ⊎ ((S.has_failed source.new → S.has_failed source.old)
        × IfSome (S.left source.old) (λ input. length input ≤ MOST_BYTES))) }
    // No fault is one of a script.
    ensures kinds { (line : ℕ) → result ≡ Err (File (BadLine line)) → ⊥ }
{
    let bytes = read_all(alloc, source)?;
    let text = history_drawing(alloc, window, &bytes)?;
    write_out(sink, text.as_bytes())?;
    Ok(())
}

/// The picture of the script that some bytes are the text of.
fn script_drawing(alloc: Global, window: Window, bytes: &[u8]) -> Result<String, DrawFault>
    ensures drawing { IfOk result (λ text.
        IsScriptDrawing window bytes.now (string_bytes text)) }
    ensures fault { IfErr result (IsScriptReason window bytes.now) }
{
    let plan = plan_in(alloc, bytes)?;
    plan_drawing(alloc, window, &plan)
}

/// The picture of what a script plays.
fn plan_drawing(alloc: Global, window: Window, plan: &Plan) -> Result<String, DrawFault>
    ensures drawing { IfOk result (λ text. IsPlanDrawing plan.now window (string_bytes text)) }
    ensures fault { IfErr result (IsPlanReason plan.now window) }
{
    let played = play_plan(alloc, plan, window)?;
    let objects = plan.lows.len() as u32;
    played_drawing(alloc, &Naming::Names(&plan.names), objects, &played)
}

/// The picture of what was played.
fn played_drawing(
    alloc: Global,
    naming: &Naming<'_>,
    objects: u32,
    played: &Played,
) -> Result<String, DrawFault>
    requires run { Run (opening objects)
        (all_moves played.now.front.items ++ all_moves played.now.columns.items)
        (shown played.now.world) }
    requires front { length played.now.front.items < 2 ^ 32 - 1 }
    ensures drawing { (worlds : List WorldState)
        → HaveWords played.now.drawn.items worlds played.now.words.items
        → length worlds ≡ length played.now.columns.items
        → IfOk result (λ text. IsPlayedDrawing naming.now objects played.now worlds
        (string_bytes text)) }
    ensures fault { IfErr result
        (IsPictureReason objects played.now.front.items played.now.columns.items) }
{
    let Played {
        front,
        columns,
        words,
        ..
    } = played;
    let picture = picture_in(alloc, objects, front, columns, words)?;
    // Where memory was short at one of the two plays alone, other objects may have strips than the
    // first play found.
    if !are_drawn(alloc, &picture.strips, &played.drawn)? {
        return Err(DrawFault::File(FileFault::Memory));
    }
    let text = picture_text(alloc, naming, &picture)?;
    Ok(text)
}

/// The picture of columns that are a run of the machine with so many objects, where others are in
/// front of them.
fn picture_in(
    alloc: Global,
    objects: u32,
    front: &[Column],
    columns: &[Column],
    words: &[Vec<Word>],
) -> Result<Picture, DrawFault>
    requires run { IsRun objects front.now columns.now }
    requires front { length front.now < 2 ^ 32 - 1 }
    ensures picture { IfOk result (IsPicture objects front.now columns.now words.now) }
    ensures within { IfOk result IsWithin }
    ensures fault { IfErr result (IsPictureReason objects front.now columns.now) }
{
    match picture_of(alloc, objects, front, columns, words) {
        Ok(picture) => Ok(picture),
        Err(PictureFault::TooManyColumns) => Err(DrawFault::TooManyColumns),
        Err(PictureFault::TooManyLanes) => Err(DrawFault::TooManyLanes),
        Err(PictureFault::Memory) => Err(DrawFault::File(FileFault::Memory)),
    }
}

/// The picture of the history that some bytes are the text of.
fn history_drawing(alloc: Global, window: Window, bytes: &[u8]) -> Result<String, DrawFault>
    requires { length bytes.now ≤ MOST_BYTES }
    ensures drawing { IfOk result (λ text.
        IsHistoryDrawing window bytes.now (string_bytes text)) }
    ensures fault { IfErr result (IsHistoryReason window bytes.now) }
{
    let list = read_moves(alloc, bytes)?;
    list_drawing(alloc, window, &list)
}

/// The picture of moves that are a run.
fn list_drawing(alloc: Global, window: Window, list: &MoveList) -> Result<String, DrawFault>
    requires { (end : State) × Run (opening list.now.objects) list.now.moves.items end }
    ensures drawing { IfOk result (λ text.
        IsMovesDrawing list.now.objects list.now.moves.items window (string_bytes text)) }
    ensures fault { IfErr result
        (IsMovesReason list.now.objects list.now.moves.items window) }
{
    let cut = window.cut(list.moves.len())?;
    let front = columns_of(alloc, &list.moves[..cut.begin])?;
    let columns = columns_of(alloc, &list.moves[cut.begin..cut.end])?;
    let picture = picture_in(alloc, u32::from(list.objects), &front, &columns, &[])?;
    let text = picture_text(alloc, &Naming::Numbers, &picture)?;
    Ok(text)
}
