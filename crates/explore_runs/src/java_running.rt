//! Exploring a program on the Java machine: from a reader's bytes to a writer's report.

ghost use Rattle.std.specs.Prelude.{◌≡◌, ◌<◌, ◌≤◌, ◌⊎◌, ℕ, List, length, take};
ghost use Rattle.std.specs.Prelude.{IsErrOf, IfSome, OnOk, IfErr, IfOk, Err};
ghost use Rattle.std.specs.Io.KnownBytes.{Keeps, Appends};
ghost use Rattle.text_streams.specs.declared.faults.FileFault.TheVariants.{BadLine, BadMove};
ghost use Rattle.text_streams.specs.declared.faults.FileFault.TheVariants.{Broken};
ghost use Rattle.text_streams.specs.declared.faults.FileFault.TheVariants.{Read as ReadFault};
ghost use Rattle.text_streams.specs.declared.faults.FileFault.TheVariants.{Write as WriteFault};
ghost use Rattle.text_streams.specs.declared.faults.FileFault.TheVariants.{Memory as MemoryFault};
ghost use Rattle.explore_runs.specs.declared.faults.ExploreTextFault.TheVariants.{File, TooManyStates};
ghost use Rattle.explore_runs.specs.JavaReports.{IsExploreJavaReason, IsJavaReportOfText};

use crate::faults::ExploreTextFault;
use crate::java_reports::java_report_of;
use explore::{ExploreFault, Watch};
use explore_java::explore_java_watched;
use history::read_all;
use program_text::read_program;
use script_text::MOST_BYTES;
use std::alloc::Global;
use text_streams::{FileFault, Sink, Source, write_out};

/// Reads a program to its end, explores it on the Java machine itself, and writes the report of its
/// outcomes, with the history that leads to each: any waiting thread may be notified, any thread
/// may lock an object that is free, and nothing is refused for want of a monitor or of memory. Where
/// it has more states than `most`, nothing is written. A watch is told how far the exploration has
/// come, and that it is over, before anything is written.
///
/// The whole program is read and explored before the first byte is written.
pub fn explore_java_text<S: Source, W: Sink, A: Watch>(
    alloc: Global,
    source: &mut S,
    sink: &mut W,
    most: u32,
    watch: &mut A,
) -> Result<(), ExploreTextFault>
    requires { S.given source.old ≡ 0 }
    // At Ok, neither end has failed in the call, the bytes were the text of a program within the
    // limit of scripts, and the whole report was written.
    ensures written { OnOk result ((text : List ℕ)
        × IfSome (S.left source.old) (λ input. IsJavaReportOfText input most text)
        × Appends (W.holds sink.old) (W.holds sink.new) text) }
    ensures read_whole { OnOk result (S.has_failed source.new → S.has_failed source.old) }
    ensures written_whole { OnOk result (W.has_failed sink.new → W.has_failed sink.old) }
    ensures within { OnOk result (IfSome (S.left source.old) (λ input. length input ≤ MOST_BYTES)) }

    // Else a fault tells its cause, and only where writing failed was something written: the front
    // of the report.
    ensures bad_line { (line : ℕ) → result ≡ Err (File (BadLine line))
        → IfSome (S.left source.old) (λ input.
        IsExploreJavaReason input most (File (BadLine line))) }
    ensures many { (n : ℕ) → result ≡ Err (TooManyStates n)
        → IfSome (S.left source.old) (λ input. IsExploreJavaReason input most (TooManyStates n)) }
    ensures read { IsErrOf result (File ReadFault)
        → S.has_failed source.new ⊎ MOST_BYTES < S.given source.new }
    ensures write { IsErrOf result (File WriteFault) → W.has_failed sink.new }
    ensures cut { IsErrOf result (File WriteFault) → (text : List ℕ)
        × IfSome (S.left source.old) (λ input. IsJavaReportOfText input most text)
        × (n : ℕ) × Appends (W.holds sink.old) (W.holds sink.new) (take n text) }
    ensures unwritten { IfErr result (λ fault.
        (fault ≡ File WriteFault) ⊎ Keeps (W.holds sink.old) (W.holds sink.new)) }
    // But for a failed read and want of memory, a fault comes only once the text was read whole.
    ensures read_first { IfErr result (λ fault. (fault ≡ File ReadFault)
        ⊎ (fault ≡ File MemoryFault) ⊎ ((S.has_failed source.new → S.has_failed source.old)
        × IfSome (S.left source.old) (λ input. length input ≤ MOST_BYTES))) }
    // No fault is one of a history.
    ensures kinds { (line : ℕ) → (result ≡ Err (File (BadMove line))
        ⊎ result ≡ Err (File (Broken line))) → ⊥ }
{
    let bytes = read_all(alloc, source)?;
    let text = explore_java_in(alloc, &bytes, most, watch)?;
    write_out(sink, &text)?;
    Ok(())
}

/// The report of the program that some bytes are the text of, on the Java machine.
fn explore_java_in<A: Watch>(
    alloc: Global,
    bytes: &[u8],
    most: u32,
    watch: &mut A,
) -> Result<Vec<u8>, ExploreTextFault>
    ensures report { IfOk result (λ text. IsJavaReportOfText bytes.now most text.items) }
    ensures fault { IfErr result (IsExploreJavaReason bytes.now most) }
{
    let named = read_program(alloc, bytes)?;
    let found = match explore_java_watched(alloc, &named.program, most, watch) {
        Ok(found) => found,
        Err(ExploreFault::Memory) => return Err(ExploreTextFault::File(FileFault::Memory)),
        Err(ExploreFault::TooManyStates) => return Err(ExploreTextFault::TooManyStates(most)),
    };
    let text = java_report_of(alloc, &named, &found)?;
    Ok(text)
}
