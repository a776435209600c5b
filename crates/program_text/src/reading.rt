//! Reading the text of a program.

ghost use Rattle.std.specs.Prelude.{◌≡◌, ◌<◌, ◌≤◌, ◌+◌, IfOk, IfErr, OnOk, Ok, Err, Some, None, length, if◌then◌else◌};
ghost use Rattle.script_text.specs.Lines.{parts_of};
ghost use Rattle.program_text.specs.Drafts.{draft_from, draft_in, first_in, next_draft};
ghost use Rattle.program_text.specs.Programs.{IsProgramIn, IsFaultOf, IsProgramReason};

use crate::drafts::Draft;
use crate::lines::line_in;
use crate::numbering::{NamedProgram, calls_of};
use explore::Program;
use lock_word::Memory;
use script_text::{MOST_BYTES, cut_line};
use std::alloc::Global;
use text_streams::FileFault;

/// The program that some bytes are the text of, or why they are none: the first line that is bad,
/// or more bytes than a program has, whatever their lines are.
pub fn read_program(alloc: Global, bytes: &[u8]) -> Result<NamedProgram, FileFault>
    ensures program { IfOk result (IsProgramIn bytes.now) }
    ensures too_long { MOST_BYTES < length bytes.now → result ≡ Err FileFault.Read }
    ensures fault { IfErr result (IsProgramReason bytes.now) }
{
    if bytes.len() > MOST_BYTES {
        return Err(FileFault::Read);
    }
    let Draft {
        monitors,
        indices,
        split,
        mut names,
        lows,
        starts,
        calls,
        moments,
        spurious,
        ..
    } = draft_of(alloc, bytes)?;
    let calls = calls_of(alloc, &mut names, &calls)?;
    let program = Program {
        lows,
        monitors,
        indices,
        split,
        calls,
        starts,
        moments,
        spurious: spurious > 0,
    };
    Ok(NamedProgram { program, names })
}

/// What some bytes say.
fn draft_of<'a>(alloc: Global, bytes: &'a [u8]) -> Result<Draft<'a>, FileFault>
    requires { length bytes.now ≤ MOST_BYTES }
    ensures whole { IfOk result (λ draft. draft_in bytes.now ≡ Ok draft) }
    ensures fault { IfErr result (IsFaultOf (draft_in bytes.now)) }
{
    let Some((first, rest)) = cut_line(bytes) else {
        return Err(FileFault::BadLine(1));
    };
    let Some(mut draft) = first_draft(alloc, first)? else {
        return Err(FileFault::BadLine(1));
    };
    take_lines(alloc, &mut draft, rest)?;
    Ok(draft)
}

/// What the first line says, if it is a world.
fn first_draft<'a>(alloc: Global, bytes: &[u8]) -> Result<Option<Draft<'a>>, Memory>
    ensures draft { IfOk result (λ draft. draft ≡ first_in bytes.now) }
{
    match line_in(alloc, bytes)? {
        Some(line) => Ok(Draft::open(alloc, &line)),
        None => Ok(None),
    }
}

/// Takes the lines that some bytes are, to the end of the text.
fn take_lines<'a>(alloc: Global, draft: &mut Draft<'a>, bytes: &'a [u8]) -> Result<(), FileFault>
    requires { draft.old.lines + length bytes.now ≤ MOST_BYTES }
    ensures whole { OnOk result (draft_from draft.old (parts_of bytes.now) ≡ Ok draft.new) }
    ensures fault { IfErr result (IsFaultOf (draft_from draft.old (parts_of bytes.now))) }
{
    let mut rest = bytes;
    'lines: while let Some((part, after)) = cut_line(rest) {
        let number = draft.next_line();
        if !take_next(alloc, draft, part)? {
            return Err(FileFault::BadLine(number));
        }
        rest = after;
    }
    if !draft.is_whole(rest) {
        return Err(FileFault::BadLine(draft.next_line()));
    }
    Ok(())
}

/// Takes the line that some bytes are. False: there is none that may follow, and the draft is not
/// to be used any more.
#[tactic(auto, unfolding(crate::specs::Drafts::next_draft))]
fn take_next<'a>(alloc: Global, draft: &mut Draft<'a>, bytes: &'a [u8]) -> Result<bool, Memory>
    requires { draft.old.lines ≤ 16777216 }
    ensures taken { IfOk result (λ yes. next_draft draft.old bytes.now
        ≡ (if yes then Some draft.new else None)) }
    ensures more { draft.new.lines ≤ draft.old.lines + 1 }
{
    match line_in(alloc, bytes)? {
        Some(line) => Ok(draft.take(line)?),
        None => Ok(false),
    }
}
