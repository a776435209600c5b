//! Checking a history: from a reader's bytes to a writer's.

ghost use Rattle.std.specs.Prelude.{◌≡◌, ◌⊎◌, ◌++◌, [], ℕ, List, take, option_map, OnOk, IfErr};
ghost use Rattle.std.specs.Prelude.{MatchResult};
ghost use Rattle.std.specs.Io.KnownBytes.{Keeps, Appends};
ghost use Rattle.text_streams.specs.declared.faults.FileFault.TheVariants.{Write as WriteFault};
ghost use Rattle.text_streams.specs.declared.faults.FileFault.TheVariants.{Memory};
ghost use Rattle.step_core.specs.declared.machine.Move.{Move as MoveData};
ghost use Rattle.history_check.specs.Behind.{state_of};
ghost use Rattle.history_check.specs.Histories.{IsRightSoFar, IsBadMove, IsBroken, IsOpen, IsRunOf};
ghost use Rattle.history_check.specs.Histories.{run_text};
ghost use Rattle.history_check.specs.Replays.{IsReadAsRun, IsFaulty};

use crate::checks::Check;
use std::alloc::Global;
use text_streams::{FileFault, Sink, Source, write_out};

/// The most bytes of a history.
pub const MOST_BYTES: usize = 1_073_741_824;

/// How many bytes are read at once.
const CHUNK: usize = 4096;

/// Checks a history, and writes `run of N moves` and a line feed where its N moves are a run of the
/// machine.
///
/// Else the answer is the first fault in the order of lines: [`BadMove`](FileFault::BadMove) at a
/// line that is no line of a history, [`Broken`](FileFault::Broken) at a move that is not lawful
/// behind those before it, and [`Read`](FileFault::Read) where the bytes in front of a failed read,
/// or in front of the limit of [`MOST_BYTES`], are right. No more is read than the answer needs,
/// but for the last 4,096 bytes.
pub fn replay<S: Source, W: Sink>(
    alloc: Global,
    source: &mut S,
    sink: &mut W,
) -> Result<(), FileFault>
    requires { S.given source.old ≡ 0 }
    // At Ok the whole history is a run, neither end has failed in the call, and the number of moves
    // was written.
    ensures run { OnOk result ((count : ℕ)
        × IsReadAsRun (S.left source.old) (S.left source.new) (S.given source.new) count
        × Appends (W.holds sink.old) (W.holds sink.new) (run_text count)) }
    ensures read_whole { OnOk result (S.has_failed source.new → S.has_failed source.old) }
    ensures written_whole { OnOk result (W.has_failed sink.new → W.has_failed sink.old) }

    // Else a fault tells its cause, and only where writing failed was something written: the front
    // of the line.
    ensures fault { IfErr result (λ e. (e ≡ Memory)
        ⊎ (((e ≡ WriteFault) × W.has_failed sink.new)
        ⊎ IsFaulty (S.left source.old) (S.left source.new) (S.given source.new)
        (S.has_failed source.new) e)) }
    ensures unwritten { IfErr result (λ e.
        (e ≡ WriteFault) ⊎ Keeps (W.holds sink.old) (W.holds sink.new)) }
    ensures cut { IfErr result (λ e. e ≡ WriteFault → (count : ℕ)
        × IsReadAsRun (S.left source.old) (S.left source.new) (S.given source.new) count
        × (n : ℕ) × Appends (W.holds sink.old) (W.holds sink.new) (take n (run_text count))) }
{
    let mut check = Check::new(alloc);
    let count = count_moves(source, &mut check)?;
    let text = format!(in alloc; "run of {count} moves\n")?;
    write_out(sink, text.as_bytes())
}

/// Feeds a check with all bytes of a source, and tells the number of moves.
fn count_moves<S: Source>(source: &mut S, check: &mut Check) -> Result<u64, FileFault>
    requires nothing { S.given source.old ≡ 0 }
    requires fresh { IsRightSoFar [] check.old.count (option_map state_of check.old.machine)
        check.old.line.items }
    ensures told { MatchResult result
        (IsReadAsRun (S.left source.old) (S.left source.new) (S.given source.new))
        (IsFaulty (S.left source.old) (S.left source.new) (S.given source.new)
        (S.has_failed source.new)) }
    ensures whole { OnOk result (S.has_failed source.new → S.has_failed source.old) }
{
    let mut chunk = [0u8; CHUNK];
    let mut given = 0usize;
    'reading: loop {
        let Some(count) = source.fill(&mut chunk) else {
            return Err(FileFault::Read);
        };
        if count == 0 {
            return check.finish();
        }
        let (front, _) = chunk.split_at(count);
        let room = MOST_BYTES - given;
        if count > room {
            let (inside, _) = front.split_at(room);
            check.feed(inside)?;
            return Err(FileFault::Read);
        }
        check.feed(front)?;
        given += count;
    }
}

/// What came of a history has one answer, however it is cut, and more bytes do not change a fault.
pub fn one_answer()
    ensures bad { (came : List ℕ) (m n : ℕ)
        → IsBadMove came Unit m → IsBadMove came Unit n → m ≡ n }
    ensures broken { (came : List ℕ) (m n : ℕ) → IsBroken came m → IsBroken came n → m ≡ n }
    ensures bad_or_broken { (came : List ℕ) (m n : ℕ)
        → IsBadMove came Unit m → IsBroken came n → ⊥ }
    ensures bad_or_run { (came : List ℕ) (n : ℕ) (ms : List MoveData)
        → IsBadMove came Unit n → IsRunOf came ms → ⊥ }
    ensures broken_or_run { (came : List ℕ) (n : ℕ) (ms : List MoveData)
        → IsBroken came n → IsRunOf came ms → ⊥ }
    ensures runs { (came : List ℕ) (ms ns : List MoveData)
        → IsRunOf came ms → IsRunOf came ns → ms ≡ ns }
    ensures bad_or_open { (came : List ℕ) (n : ℕ) → IsBadMove came ⊥ n → IsOpen came → ⊥ }
    ensures broken_or_open { (came : List ℕ) (n : ℕ) → IsBroken came n → IsOpen came → ⊥ }
    ensures bad_stays { (came more : List ℕ) (n : ℕ)
        → IsBadMove came ⊥ n → IsBadMove (came ++ more) ⊥ n }
    ensures broken_stays { (came more : List ℕ) (n : ℕ)
        → IsBroken came n → IsBroken (came ++ more) n }
{}
