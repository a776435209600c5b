//! Running a live script: from a reader's bytes to a writer's text.

ghost use Rattle.std.specs.Prelude.{◌≡◌, ◌<◌, ◌≤◌, ◌⊎◌, ℕ, List, length, string_bytes, take};
ghost use Rattle.std.specs.Prelude.{IsErrOf, IfSome, OnOk, IfErr, IfOk, Err};
ghost use Rattle.std.specs.Io.KnownBytes.{Keeps, Appends};
ghost use Rattle.live_scripts.specs.Rules.{IsFirstBadLive};
ghost use Rattle.text_streams.specs.declared.faults.FileFault.TheVariants.{BadLine, BadMove};
ghost use Rattle.text_streams.specs.declared.faults.FileFault.TheVariants.{Broken};
ghost use Rattle.text_streams.specs.declared.faults.FileFault.TheVariants.{Read as ReadFault};
ghost use Rattle.text_streams.specs.declared.faults.FileFault.TheVariants.{Write as WriteFault};
ghost use Rattle.text_streams.specs.declared.faults.FileFault.TheVariants.{Memory as MemoryFault};
ghost use Rattle.live_runs.specs.declared.faults.RunFault.TheVariants.{File, Torn};
ghost use Rattle.live_runs.specs.Faults.{IsRunReason};
ghost use Rattle.live_runs.specs.Runs.{IsTextOfRun, IsTornText};

use crate::RunFault;
use crate::playing::run_script;
use history::read_all;
use live_scripts::read_live;
use script_text::MOST_BYTES;
use std::alloc::Global;
use std::sync::Wait;
use std::thread::Threads;
use std::time::Clock;
use text_streams::{Sink, Source, write_out};

/// Reads a live script to its end, runs it, and writes what came of it.
///
/// The whole script is read and run before the first byte is written.
pub fn run_live<S: Source, W: Sink, R: Threads + Wait + Clock + Sync>(
    rt: &R,
    alloc: Global,
    source: &mut S,
    sink: &mut W,
) -> Result<(), RunFault>
    requires { S.given source.old ≡ 0 }
    // At Ok, neither end has failed in the call, the bytes were the text of a live script within
    // the limit of scripts, and the whole text of a run of it was written.
    ensures written { OnOk result ((text : List ℕ)
        × IfSome (S.left source.old) (λ input. IsTextOfRun input text)
        × Appends (W.holds sink.old) (W.holds sink.new) text) }
    ensures read_whole { OnOk result (S.has_failed source.new → S.has_failed source.old) }
    ensures written_whole { OnOk result (W.has_failed sink.new → W.has_failed sink.old) }
    ensures within { OnOk result (IfSome (S.left source.old) (λ input. length input ≤ MOST_BYTES)) }

    // Else a fault tells its cause, and only where writing failed was something written: the front
    // of the text.
    ensures bad_line { (line : ℕ) → result ≡ Err (File (BadLine line))
        → IfSome (S.left source.old) (λ input. IsFirstBadLive input line) }
    ensures read { IsErrOf result (File ReadFault)
        → S.has_failed source.new ⊎ MOST_BYTES < S.given source.new }
    ensures write { IsErrOf result (File WriteFault) → W.has_failed sink.new }
    ensures cut { IsErrOf result (File WriteFault) → (text : List ℕ)
        × IfSome (S.left source.old) (λ input. IsTextOfRun input text)
        × (n : ℕ) × Appends (W.holds sink.old) (W.holds sink.new) (take n text) }
    ensures unwritten { IfErr result (λ fault.
        (fault ≡ File WriteFault) ⊎ Keeps (W.holds sink.old) (W.holds sink.new)) }
    // But for a failed read and want of memory, a fault comes only once the text was read whole.
    ensures read_first { IfErr result (λ fault. (fault ≡ File ReadFault) ⊎ (fault ≡ File MemoryFault)
        ⊎ ((S.has_failed source.new → S.has_failed source.old)
        × IfSome (S.left source.old) (λ input. length input ≤ MOST_BYTES))) }
    // Torn is told where the script was run, and its record is not that of its passes.
    ensures torn { IsErrOf result Torn → IfSome (S.left source.old) IsTornText }
    // No fault is one of a history.
    ensures kinds { (line : ℕ) → (result ≡ Err (File (BadMove line))
        ⊎ result ≡ Err (File (Broken line))) → ⊥ }
{
    let bytes = read_all(alloc, source)?;
    let text = run_in(rt, alloc, &bytes)?;
    write_out(sink, text.as_bytes())?;
    Ok(())
}

/// What came of the live script that some bytes are the text of.
fn run_in<R: Threads + Wait + Clock + Sync>(
    rt: &R,
    alloc: Global,
    bytes: &[u8],
) -> Result<String, RunFault>
    ensures run { IfOk result (λ text. IsTextOfRun bytes.now (string_bytes text)) }
    ensures fault { IfErr result (IsRunReason bytes.now) }
{
    let script = read_live(alloc, bytes)?;
    run_script(rt, alloc, &script)
}
