//! Writing a text whole.

ghost use Rattle.std.specs.Prelude.{◌≡◌, ℕ, take, OnOk, OnErr, IfErr};
ghost use Rattle.std.specs.Io.KnownBytes.{Appends};
ghost use Rattle.text_streams.specs.declared.faults.FileFault.TheVariants.{Write as WriteFault};

use crate::ends::Sink;
use crate::faults::FileFault;

/// Hands all the bytes to a sink, in as many pieces as it takes them. Where the sink fails, it
/// holds a front of them.
pub fn write_out<W: Sink>(sink: &mut W, bytes: &[u8]) -> Result<(), FileFault>
    ensures ok { OnOk result (Appends (W.holds sink.old) (W.holds sink.new) bytes.now) }
    ensures whole { OnOk result (W.has_failed sink.new → W.has_failed sink.old) }
    ensures prefix { OnErr result ((n : ℕ)
        × Appends (W.holds sink.old) (W.holds sink.new) (take n bytes.now)) }
    ensures fault { IfErr result (λ e. (e ≡ WriteFault) × W.has_failed sink.new) }
{
    let mut rest = bytes;
    'writing: while !rest.is_empty() {
        let Some(count) = sink.put(rest) else {
            return Err(FileFault::Write);
        };
        let (_, after) = rest.split_at(count);
        rest = after;
    }
    Ok(())
}
