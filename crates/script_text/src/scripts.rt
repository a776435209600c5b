//! Scripts: lines that follow one another by the rules.

ghost use Rattle.std.specs.Prelude.{◌≡◌, ◌<◌, ◌≤◌, ◌++◌, ◌∷◌, ◌==◌, ◌&&◌, ◌||◌, [], ℕ, List, true};
ghost use Rattle.std.specs.Prelude.{length, map, string_bytes, IfErr, IfOk, IfSome};
ghost use Rattle.std.specs.Prelude.{MatchOption, OnOk, Err, None, Ok, Some, option_map};
ghost use Rattle.script_text.specs.declared.lines.Line.{Line as LineData};
ghost use Rattle.script_text.specs.Lines.{is_object, may_follow, next_from, lines_from, parts_of};
ghost use Rattle.script_text.specs.Lines.{script_text, IsBeginning, IsFirstBad, IsScript};
ghost use Rattle.script_text.specs.LinesSoFar.{IsNoted, may_follow_by, with_object};
ghost use Rattle.script_text.specs.Scripts.{Gives, IsReasonFor};

use crate::declared::Declared;
use crate::lines::Line;
use crate::numbering::number_of_name;
use crate::printing::print_lines;
use crate::reading::line_of;
use indexmap::IndexSet;
use lock_word::Memory;
use std::alloc::{AllocError, Global};
use std::marker::Model;
use text_streams::{FileFault, line_end};

/// The most bytes that a script has.
pub const MOST_BYTES: usize = 16_777_216;

/// The most objects that a script declares.
const MOST_OBJECTS: usize = 65_535;

/// A script: lines that keep the rules.
#[derive(Drop)]
pub struct Script<'a> {
    lines: Vec<Line<'a>>,
}

impl<'a> Model for Script<'a> {
    ghost use Rattle.std.specs.Prelude.{List};
    ghost use Rattle.script_text.specs.declared.lines.Line.{Line as LineData};
    ghost use Rattle.script_text.specs.Lines.{IsScript};

    ghost Value = { List LineData };

    ghost view = { λ s. s.lines.items };

    ghost invariant = { λ s. IsScript s.lines.items };
}

impl<'a> Script<'a> {
    /// The lines: the world, then the objects, then the steps.
    pub fn lines(&self) -> &[Line<'a>]
        ensures lines { result.now ≡ self.now }
        ensures rules { IsScript result.now }
    {
        &self.lines
    }
}

fn is_object_line(line: &Line<'_>) -> bool
    ensures { result ≡ is_object line.now }
{
    matches!(line, Line::Object { .. })
}

/// Whether a line may follow those that the three values note.
pub(crate) fn follows<D: Declared>(
    first: bool,
    declaring: bool,
    objects: &D,
    line: &Line<'_>,
) -> bool
    ensures { result ≡ may_follow_by first declaring (D.names objects.now) line.now }
{
    match line {
        Line::World { .. } => first,
        Line::Object { name, .. } => {
            !first && declaring && !objects.has(name) && objects.count() < MOST_OBJECTS
        }
        Line::Step(_) => !first,
    }
}

/// Notes the name of an object line.
fn note_object(
    alloc: Global,
    objects: &mut IndexSet<String>,
    line: &Line<'_>,
) -> Result<(), AllocError>
    ensures { OnOk result (map string_bytes objects.new.keys
        ≡ with_object (map string_bytes objects.old.keys) line.now) }
{
    match line {
        Line::Object { name, .. } => {
            number_of_name(alloc, objects, name)?;
            Ok(())
        }
        _ => Ok(()),
    }
}

/// The line that a part of the bytes is, where it may follow those before it.
#[tactic(auto, using(crate::proofs::NotedLaws::next_steps))]
fn next_of<'a>(
    alloc: Global,
    lines: &[Line<'a>],
    declaring: bool,
    objects: &IndexSet<String>,
    part: &'a [u8],
) -> Result<Option<Line<'a>>, AllocError>
    requires { IsNoted lines.now declaring (map string_bytes objects.now.keys) }
    ensures { IfOk result (λ line. line ≡ next_from lines.now part.now) }
{
    let Some(line) = line_of(alloc, part)? else {
        return Ok(None);
    };
    let may_stand = follows(lines.is_empty(), declaring, objects, &line);
    if may_stand { Ok(Some(line)) } else { Ok(None) }
}

/// Whether objects may follow a line.
pub(crate) fn still_declaring(first: bool, declaring: bool, line: &Line<'_>) -> bool
    ensures { result ≡ (declaring && (first || is_object line.now)) }
{
    declaring && (first || is_object_line(line))
}

/// Takes a line that follows the others, and tells whether objects may follow it.
#[tactic(auto, using(crate::proofs::NotedLaws::noted_more))]
fn take_line<'a>(
    alloc: Global,
    lines: &mut Vec<Line<'a>>,
    declaring: bool,
    objects: &mut IndexSet<String>,
    line: Line<'a>,
) -> Result<bool, AllocError>
    requires noted { IsNoted lines.old.items declaring (map string_bytes objects.old.keys) }
    requires follows { may_follow lines.old.items line ≡ true }
    ensures items { OnOk result (lines.new.items ≡ lines.old.items ++ line.entry ∷ []) }
    ensures noted { IfOk result (λ d.
        IsNoted (lines.old.items ++ line.entry ∷ []) d (map string_bytes objects.new.keys)) }
{
    note_object(alloc, objects, &line)?;
    let declaring = still_declaring(lines.is_empty(), declaring, &line);
    lines.push(line)?;
    Ok(declaring)
}

/// The bytes before the first line feed, and those after it; None where there is no line feed.
pub fn cut_line(bytes: &[u8]) -> Option<(&[u8], &[u8])>
    ensures parts { MatchOption result (parts_of bytes.now ≡ bytes.now ∷ [])
        (λ cut. parts_of bytes.now ≡ cut.0.now ∷ parts_of cut.1.now) }
    ensures shorter { IfSome result (λ cut. length cut.1.now < length bytes.now) }
{
    match line_end(bytes) {
        None => None,
        Some(end) => {
            let (line, _) = bytes.split_at(end);
            let (_, rest) = bytes.split_at(end + 1);
            Some((line, rest))
        }
    }
}

/// Takes the line that a part of the bytes is, where it may follow the others, and tells whether
/// objects may follow it; None where no such line is there.
#[tactic(auto, using(crate::proofs::ScriptLaws::next_follows))]
fn take_next<'a>(
    alloc: Global,
    lines: &mut Vec<Line<'a>>,
    declaring: bool,
    objects: &mut IndexSet<String>,
    part: &'a [u8],
) -> Result<Option<bool>, AllocError>
    requires { IsNoted lines.old.items declaring (map string_bytes objects.old.keys) }
    ensures { IfOk result (λ taken. MatchOption taken
        ((lines.new.items ≡ lines.old.items) × (next_from lines.old.items part.now ≡ None))
        (λ d. (option_map (λ line. lines.old.items ++ line ∷ [])
        (next_from lines.old.items part.now) ≡ Some lines.new.items)
        × IsNoted lines.new.items d (map string_bytes objects.new.keys))) }
{
    let Some(line) = next_of(alloc, lines, declaring, objects, part)? else {
        return Ok(None);
    };
    Ok(Some(take_line(alloc, lines, declaring, objects, line)?))
}

/// Takes the lines of the longest beginning of some bytes that keeps the rules, and answers the
/// bytes that are left.
#[tactic(auto, using(crate::proofs::Beginnings::beginning_steps))]
fn take_lines<'a>(
    alloc: Global,
    lines: &mut Vec<Line<'a>>,
    objects: &mut IndexSet<String>,
    bytes: &'a [u8],
) -> Result<&'a [u8], AllocError>
    requires empty { lines.old.items ≡ [] }
    requires noted { IsNoted lines.old.items true (map string_bytes objects.old.keys) }
    ensures { IfOk result (λ rest. IsBeginning bytes.now lines.new.items rest.now) }
{
    let mut declaring = true;
    let mut rest = bytes;
    'lines: while let Some((part, after)) = cut_line(rest) {
        let Some(still) = take_next(alloc, lines, declaring, objects, part)? else {
            return Ok(rest);
        };
        declaring = still;
        rest = after;
    }
    Ok(rest)
}

/// The lines of the longest beginning of some bytes that keeps the rules, and the bytes that are
/// left.
pub fn read_beginning<'a>(
    alloc: Global,
    bytes: &'a [u8],
) -> Result<(Vec<Line<'a>>, &'a [u8]), AllocError>
    ensures { IfOk result (λ r. IsBeginning bytes.now r.0.items r.1.now) }
{
    let mut lines = Vec::new(alloc);
    let mut objects = IndexSet::new(alloc);
    let rest = take_lines(alloc, &mut lines, &mut objects, bytes)?;
    Ok((lines, rest))
}

/// The lines that some bytes are, or the first that is bad.
fn lines_of<'a>(alloc: Global, bytes: &'a [u8]) -> Result<Vec<Line<'a>>, FileFault>
    ensures { Gives (λ v. v.items) result (lines_from [] (parts_of bytes.now)) }
{
    let (lines, rest) = read_beginning(alloc, bytes)?;
    if lines.is_empty() || !rest.is_empty() {
        return Err(FileFault::BadLine(lines.len() as u64 + 1));
    }
    Ok(lines)
}

/// The script that some bytes are, or why they are none: the first line that is bad, or more bytes
/// than a script has, whatever their lines are.
pub fn read_script<'a>(alloc: Global, bytes: &'a [u8]) -> Result<Script<'a>, FileFault>
    // What is read is written so.
    ensures found { IfOk result (λ script. IsScript script × (bytes.now ≡ script_text script)) }
    // What is written so is read, unless memory runs out.
    ensures only { (ls : List LineData) → IsScript ls → bytes.now ≡ script_text ls
        → length bytes.now ≤ MOST_BYTES → Gives (λ script. script) result (Ok ls) }
    ensures too_long { MOST_BYTES < length bytes.now → result ≡ Err FileFault.Read }
    ensures fault { IfErr result (IsReasonFor bytes.now) }
{
    if bytes.len() > MOST_BYTES {
        return Err(FileFault::Read);
    }
    let lines = lines_of(alloc, bytes)?;
    Ok(Script { lines })
}

/// The one text of the script.
pub fn print_script(alloc: Global, script: &Script<'_>) -> Result<String, Memory>
    ensures { IfOk result (λ text. string_bytes text ≡ script_text script.now) }
{
    Ok(print_lines(alloc, &script.lines)?)
}

/// No bytes have two first bad lines, and none that have one are a script.
pub fn one_fault()
    ensures one { (bs : List ℕ) (m n : ℕ) → IsFirstBad bs m → IsFirstBad bs n → m ≡ n }
    ensures none { (bs : List ℕ) (n : ℕ) (ls : List LineData)
        → IsFirstBad bs n → IsScript ls → bs ≡ script_text ls → ⊥ }
{}
