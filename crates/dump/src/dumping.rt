//! Dumping a script: from a reader's bytes to a writer's dump.

ghost use Rattle.std.specs.Prelude.{◌≡◌, ◌<◌, ◌≤◌, ◌⊎◌, ℕ, List, length, string_bytes, take};
ghost use Rattle.std.specs.Prelude.{IsErrOf, IfSome, OnOk, IfErr, IfOk, Err};
ghost use Rattle.std.specs.Io.KnownBytes.{Keeps, Appends};
ghost use Rattle.script_text.specs.Lines.{IsFirstBad};
ghost use Rattle.script_text.specs.Scripts.{IsReasonFor};
ghost use Rattle.text_streams.specs.declared.faults.FileFault.TheVariants.{BadLine, BadMove};
ghost use Rattle.text_streams.specs.declared.faults.FileFault.TheVariants.{Broken};
ghost use Rattle.text_streams.specs.declared.faults.FileFault.TheVariants.{Read as ReadFault};
ghost use Rattle.text_streams.specs.declared.faults.FileFault.TheVariants.{Write as WriteFault};
ghost use Rattle.dump.specs.Dumps.{IsDumpOf};

use crate::reports::report;
use history::{FileFault, Sink, Source, play_text, read_all};
use script_text::MOST_BYTES;
use std::alloc::Global;
use text_streams::write_out;

/// Reads a script to its end, plays it, and writes a dump of the world that it leads to.
///
/// The whole script is read and played before the first byte of the dump is written.
pub fn dump_script<S: Source, W: Sink>(
    alloc: Global,
    source: &mut S,
    sink: &mut W,
) -> Result<(), FileFault>
    requires { S.given source.old ≡ 0 }
    // At Ok, neither end has failed in the call, the bytes were the text of a script within its
    // limit, and the whole of a dump of the world that it leads to was written.
    ensures written { OnOk result ((text : List ℕ)
        × IfSome (S.left source.old) (λ input. IsDumpOf input text)
        × Appends (W.holds sink.old) (W.holds sink.new) text) }
    ensures read_whole { OnOk result (S.has_failed source.new → S.has_failed source.old) }
    ensures written_whole { OnOk result (W.has_failed sink.new → W.has_failed sink.old) }
    ensures within { OnOk result (IfSome (S.left source.old) (λ input. length input ≤ MOST_BYTES)) }

    // Else a fault tells its cause, and only where writing failed was something written: the front
    // of the dump.
    ensures bad_line { (line : ℕ) → result ≡ Err (BadLine line)
        → IfSome (S.left source.old) (λ input. IsFirstBad input line) }
    ensures read { IsErrOf result ReadFault
        → S.has_failed source.new ⊎ MOST_BYTES < S.given source.new }
    ensures write { IsErrOf result WriteFault → W.has_failed sink.new }
    ensures cut { IsErrOf result WriteFault → (text : List ℕ)
        × IfSome (S.left source.old) (λ input. IsDumpOf input text)
        × (n : ℕ) × Appends (W.holds sink.old) (W.holds sink.new) (take n text) }
    ensures unwritten { IfErr result (λ fault.
        (fault ≡ WriteFault) ⊎ Keeps (W.holds sink.old) (W.holds sink.new)) }
    // But for a failed read and want of memory, a fault comes only once the text was read whole.
    ensures read_first { IfErr result (λ fault. (fault ≡ ReadFault) ⊎ (fault ≡ FileFault.Memory)
        ⊎ ((S.has_failed source.new → S.has_failed source.old)
        × IfSome (S.left source.old) (λ input. length input ≤ MOST_BYTES))) }
    // No fault is one of a history.
    ensures kinds { (line : ℕ) → (result ≡ Err (BadMove line) ⊎ result ≡ Err (Broken line)) → ⊥ }
{
    let bytes = read_all(alloc, source)?;
    let text = dump_in(alloc, &bytes)?;
    write_out(sink, text.as_bytes())
}

/// The dump of the world that the script leads to which some bytes are the text of.
fn dump_in(alloc: Global, bytes: &[u8]) -> Result<String, FileFault>
    ensures dump { IfOk result (λ text. IsDumpOf bytes.now (string_bytes text)) }
    ensures fault { IfErr result (IsReasonFor bytes.now) }
{
    let (world, names) = play_text(alloc, bytes)?;
    let text = report(alloc, &world, &names)?;
    Ok(text)
}
