//! Reading live scripts.

ghost use Rattle.std.specs.Prelude.{◌≡◌, ◌<◌, ◌≤◌, List, ℕ, length, IfErr, IfOk, MatchOption, Err};
ghost use Rattle.script_text.specs.declared.lines.Line.{Line as LineData};
ghost use Rattle.script_text.specs.Lines.{IsBeginning, script_text};
ghost use Rattle.live_scripts.specs.Rules.{IsFirstBadLive, IsLiveReasonFor, IsLiveScript};
ghost use Rattle.live_scripts.specs.Reading.{GivesLive};

use crate::rules::running_lines;
use script_text::{Line, MOST_BYTES, read_beginning};
use std::alloc::{AllocError, Global};
use std::marker::Model;
use text_streams::FileFault;

/// A script whose threads may run on threads of the system.
#[derive(Drop)]
pub struct LiveScript<'a> {
    lines: Vec<Line<'a>>,
}

impl<'a> Model for LiveScript<'a> {
    ghost use Rattle.std.specs.Prelude.{List};
    ghost use Rattle.script_text.specs.declared.lines.Line.{Line as LineData};
    ghost use Rattle.live_scripts.specs.Rules.{IsLiveScript};

    ghost Value = { List LineData };

    ghost view = { λ s. s.lines.items };

    ghost invariant = { λ s. IsLiveScript s.lines.items };
}

impl<'a> LiveScript<'a> {
    /// The lines: the world, then the objects, then the attaches and begins.
    pub fn lines(&self) -> &[Line<'a>]
        ensures lines { result.now ≡ self.now }
        ensures rules { IsLiveScript result.now }
    {
        &self.lines
    }
}

/// The number of the first bad line, where these lines are the longest beginning that keeps the
/// rules of scripts, and these bytes are left; None where they are a live script.
fn first_bad(alloc: Global, lines: &[Line<'_>], rest: &[u8]) -> Result<Option<u64>, AllocError>
    ensures { IfOk result (λ bad. (bytes : List ℕ) → IsBeginning bytes lines.now rest.now
        → MatchOption bad (IsLiveScript lines.now × (bytes ≡ script_text lines.now))
        (λ n. IsFirstBadLive bytes n)) }
{
    let mut threads = Vec::new(alloc);
    let count = running_lines(lines, &mut threads)?;
    if count < lines.len() || !rest.is_empty() || threads.is_empty() {
        return Ok(Some(count as u64 + 1));
    }
    Ok(None)
}

/// The live script that some bytes are, or why they are none: the first line that is bad, or more
/// bytes than a script has, whatever their lines are. A script with no thread is bad at the line
/// behind its last.
pub fn read_live<'a>(alloc: Global, bytes: &'a [u8]) -> Result<LiveScript<'a>, FileFault>
    // What is read is written so.
    ensures found { IfOk result (λ script. IsLiveScript script × (bytes.now ≡ script_text script)) }
    // What is written so is read, unless memory runs out.
    ensures only { (ls : List LineData) → IsLiveScript ls → bytes.now ≡ script_text ls
        → length bytes.now ≤ MOST_BYTES → GivesLive result ls }
    ensures too_long { MOST_BYTES < length bytes.now → result ≡ Err FileFault.Read }
    ensures fault { IfErr result (IsLiveReasonFor bytes.now) }
{
    if bytes.len() > MOST_BYTES {
        return Err(FileFault::Read);
    }
    let (lines, rest) = read_beginning(alloc, bytes)?;
    match first_bad(alloc, &lines, rest)? {
        Some(number) => Err(FileFault::BadLine(number)),
        None => Ok(LiveScript { lines }),
    }
}

/// No bytes have two first bad lines, and none that have one are a live script.
pub fn one_fault()
    ensures one { (bs : List ℕ) (m n : ℕ) → IsFirstBadLive bs m → IsFirstBadLive bs n → m ≡ n }
    ensures none { (bs : List ℕ) (n : ℕ) (ls : List LineData)
        → IsFirstBadLive bs n → IsLiveScript ls → bs ≡ script_text ls → ⊥ }
{}
