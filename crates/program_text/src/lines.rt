//! The lines of a program.

ghost use Rattle.std.specs.Prelude.{◌≡◌, IfOk, Some, None, map, option_map, option_and_then};
ghost use Rattle.program_text.specs.Lines.{clock_from, numbers_from, shared_line};
ghost use Rattle.program_text.specs.Lines.{program_line_at, program_line_from};
ghost use Rattle.program_text.specs.Lines.{spurious_from, thread_from};
ghost use Rattle.program_text.specs.declared.lines.ProgramLine.TheVariants.{Call as CallLine};
ghost use Rattle.script_text.specs.Lines.{call_from, line_from, words_of};
ghost use Rattle.std.specs.Char.{is_ascii};
ghost use Rattle.std.specs.List.{list_all};

use lock_word::Split;
use script_text::{Call, Line, Name, call_of_words, line_of_words, number_of, words_in};
use std::alloc::{AllocError, Global};
use std::marker::Model;
use std::str;

/// Moments, in nanoseconds, in the order in which a clock tells them.
#[derive(Drop)]
pub struct Moments {
    pub(crate) moments: Vec<u64>,
}

impl Model for Moments {
    ghost use Rattle.std.specs.Prelude.{List, ℕ};

    ghost Value = { List ℕ };

    ghost view = { λ m. m.moments.items };
}

/// A line of a program.
#[derive(Drop)]
pub enum ProgramLine<'a> {
    /// As in a script.
    World {
        monitors: u32,
        indices: u16,
        split: Split,
    },
    /// As in a script.
    Object {
        name: Name<'a>,
        low: u8,
    },
    /// A thread, whose calls follow.
    Thread(Name<'a>),
    /// A call of the thread above it.
    Call(Call<'a>),
    /// The moments that the clock tells, one after the other.
    Clock(Moments),
    /// How often each wait may end for no reason.
    Spurious(u64),
}

fn thread_of<'a>(words: &[&'a str]) -> Option<ProgramLine<'a>>
    ensures { result ≡ thread_from (map (λ word. word.now) words.now) }
{
    match words {
        &[word] => Some(ProgramLine::Thread(Name::from_text(word)?)),
        [] => None,
        [_, _, ..] => None,
    }
}

fn spurious_of<'a>(words: &[&'a str]) -> Option<ProgramLine<'a>>
    ensures { result ≡ spurious_from (map (λ word. word.now) words.now) }
{
    match words {
        &[word] => Some(ProgramLine::Spurious(number_of(word)?)),
        [] => None,
        [_, _, ..] => None,
    }
}

fn call_line<'a>(words: &[&'a str]) -> Option<ProgramLine<'a>>
    ensures { result ≡ option_map CallLine (call_from (map (λ word. word.now) words.now)) }
{
    Some(ProgramLine::Call(call_of_words(words)?))
}

/// The numbers that some words are, if each is one.
fn numbers_of(alloc: Global, words: &[&str]) -> Result<Option<Vec<u64>>, AllocError>
    ensures { IfOk result (λ numbers. option_map (λ v. v.items) numbers
        ≡ numbers_from (map (λ word. word.now) words.now)) }
{
    let mut numbers = Vec::new(alloc);
    'words: for word in words {
        let Some(number) = number_of(word) else {
            return Ok(None);
        };
        numbers.push(number)?;
    }
    Ok(Some(numbers))
}

fn clock_of<'a>(alloc: Global, words: &[&'a str]) -> Result<Option<ProgramLine<'a>>, AllocError>
    ensures { IfOk result (λ line. line ≡ clock_from (map (λ word. word.now) words.now)) }
{
    if words.is_empty() {
        return Ok(None);
    }
    match numbers_of(alloc, words)? {
        Some(moments) => Ok(Some(ProgramLine::Clock(Moments { moments }))),
        None => Ok(None),
    }
}

/// The line of a program that a line of a script is.
fn shared_line<'a>(line: Line<'a>) -> Option<ProgramLine<'a>>
    ensures { result ≡ shared_line line.entry }
{
    match line {
        Line::World {
            monitors,
            indices,
            split,
        } => Some(ProgramLine::World {
            monitors,
            indices,
            split,
        }),
        Line::Object { name, low } => Some(ProgramLine::Object { name, low }),
        Line::Step(_) => None,
    }
}

/// The line of a program that some words of a script's line are: its world, or an object.
fn script_line<'a>(words: &[&'a str]) -> Option<ProgramLine<'a>>
    ensures { result ≡ option_and_then shared_line (line_from (map (λ word. word.now) words.now)) }
{
    shared_line(line_of_words(words)?)
}

/// The line that some words are.
fn program_line_of<'a>(
    alloc: Global,
    words: &[&'a str],
) -> Result<Option<ProgramLine<'a>>, AllocError>
    ensures { IfOk result (λ line.
        line ≡ program_line_from (map (λ word. word.now) words.now)) }
{
    let [verb, rest @ ..] = words else {
        return Ok(None);
    };
    match *verb {
        "thread" => Ok(thread_of(rest)),
        "call" => Ok(call_line(rest)),
        "clock" => clock_of(alloc, rest),
        "spurious" => Ok(spurious_of(rest)),
        _ => Ok(script_line(words)),
    }
}

/// The line that some bytes are, with no line feed. Each byte of a line is one of ASCII.
#[tactic(auto, using(crate::proofs::Parts::ascii_text), unfolding(crate::specs::Lines::program_line_at))]
pub(crate) fn line_in<'a>(
    alloc: Global,
    bytes: &'a [u8],
) -> Result<Option<ProgramLine<'a>>, AllocError>
    ensures { IfOk result (λ line. line ≡ program_line_at bytes.now) }
{
    if !is_ascii(bytes) {
        return Ok(None);
    }
    match str::from_utf8(bytes) {
        Ok(text) => line_of_text(alloc, text),
        Err(_) => unreachable!(),
    }
}

fn is_ascii(bytes: &[u8]) -> bool
    ensures { result ≡ list_all is_ascii bytes.now }
{
    bytes.iter().all(|byte| byte.is_ascii())
}

fn line_of_text<'a>(alloc: Global, text: &'a str) -> Result<Option<ProgramLine<'a>>, AllocError>
    ensures { IfOk result (λ line. line ≡ program_line_from (words_of text.now)) }
{
    let words = words_in(alloc, text)?;
    program_line_of(alloc, &words)
}
