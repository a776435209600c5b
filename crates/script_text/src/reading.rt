//! Reading the words of a line.

ghost use Rattle.std.specs.Prelude.{◌≡◌, ◌==◌, ◌-◌, ◌^◌, ◌&&◌, nat_lt, nat_le, pos, negsuc, Some};
ghost use Rattle.std.specs.Prelude.{None, if◌then◌else◌, IfOk, map, option_map, option_and_then};
ghost use Rattle.std.specs.List.{list_all};
ghost use Rattle.std.specs.Char.{is_ascii_digit};
ghost use Rattle.script_text.specs.declared.lines.Line.TheVariants.{Object, Step};
ghost use Rattle.script_text.specs.Words.{is_numeral, signed_from, nanos_from, number_from};
ghost use Rattle.script_text.specs.Words.{name_from, hex_from, low_from};
ghost use Rattle.script_text.specs.Lines.{begin_from, call_alone, call_naming, call_with};
ghost use Rattle.script_text.specs.Lines.{call_timed, wait_from, world_of, split_from};
ghost use Rattle.script_text.specs.Lines.{step_of_thread, step_of_two, line_of_three};
ghost use Rattle.script_text.specs.Lines.{line_of_four, line_from};
ghost use Rattle.script_text.specs.Lines.{call_from, words_of, line_at};

use crate::lines::{Call, Line, StepLine};
use crate::names::Name;
use crate::quick::quick_line;
use lock_word::Split;
use std::alloc::{AllocError, Global};
use std::str;

fn hex_of(digit: u8) -> Option<u8>
    ensures { result ≡ hex_from digit }
{
    match digit {
        b'0'..=b'9' => Some(digit - b'0'),
        b'A'..=b'F' => Some(digit - b'A' + 10),
        _ => None,
    }
}

/// The low byte that some bytes are, two upper-case hexadecimal digits.
pub(crate) fn low_of(word: &[u8]) -> Option<u8>
    ensures { result ≡ low_from word.now }
{
    match word {
        [high, low] => {
            let high = hex_of(*high)?;
            let low = hex_of(*low)?;
            Some(high * 16 + low)
        }
        _ => None,
    }
}

fn is_digits(text: &str) -> bool
    ensures { result ≡ list_all is_ascii_digit text.now }
{
    text.as_bytes().iter().all(|byte| byte.is_ascii_digit())
}

fn is_number(word: &str) -> bool
    ensures { result ≡ is_numeral word.now }
{
    match word.as_bytes() {
        [] => false,
        [first, rest @ ..] => (rest.is_empty() || *first != b'0') && is_digits(word),
    }
}

/// The number of 64 bits that a word is: decimal digits, with no leading zero and no sign.
pub fn number_of(word: &str) -> Option<u64>
    ensures { result ≡ number_from word.now }
{
    if is_number(word) {
        word.parse().ok()
    } else {
        None
    }
}

fn below_zero(size: u64) -> Option<i64>
    ensures { result
        ≡ (if nat_lt 0 size && nat_le size (2 ^ 63) then Some (negsuc (size - 1)) else None) }
{
    if size > 0 && size <= 0x8000_0000_0000_0000 {
        Some(-1 - (size - 1) as i64)
    } else {
        None
    }
}

fn from_zero(size: u64) -> Option<i64>
    ensures { result ≡ (if nat_lt size (2 ^ 63) then Some (pos size) else None) }
{
    if size < 0x8000_0000_0000_0000 {
        Some(size as i64)
    } else {
        None
    }
}

pub(crate) fn signed_of(word: &str) -> Option<i64>
    ensures { result ≡ signed_from word.now }
{
    match word.as_bytes() {
        [] => None,
        [first, ..] => {
            if *first == b'-' {
                below_zero(number_of(&word[1..])?)
            } else {
                from_zero(number_of(word)?)
            }
        }
    }
}

pub(crate) fn nanos_of(word: &str) -> Option<i32>
    ensures { result ≡ nanos_from word.now }
{
    let number = signed_of(word)?;
    if -2_147_483_648 <= number && number < 2_147_483_648 {
        Some(number as i32)
    } else {
        None
    }
}

fn world_of<'a>(split: Split, monitors: &str, indices: &str) -> Option<Line<'a>>
    ensures { result ≡ world_of split monitors.now indices.now }
{
    let monitors = number_of(monitors)?;
    let indices = number_of(indices)?;
    let most = u64::from(split.greatest_index());
    if monitors > 8_388_608 || indices < 1 || indices > most {
        return None;
    }
    Some(Line::World {
        monitors: monitors as u32,
        indices: indices as u16,
        split,
    })
}

fn call_alone<'a>(verb: &str) -> Option<Call<'a>>
    ensures { result ≡ call_alone verb.now }
{
    match verb {
        "interrupted" => Some(Call::Interrupted),
        "end" => Some(Call::End),
        _ => None,
    }
}

fn call_with<'a>(verb: &str, name: Name<'a>) -> Option<Call<'a>>
    ensures { result ≡ call_with verb.now name.entry }
{
    match verb {
        "enter" => Some(Call::Enter(name)),
        "exit" => Some(Call::Exit(name)),
        "notify" => Some(Call::Notify(name)),
        "notifyall" => Some(Call::NotifyAll(name)),
        "holds" => Some(Call::Holds(name)),
        "interrupt" => Some(Call::Interrupt(name)),
        "isinterrupted" => Some(Call::IsInterrupted(name)),
        _ => None,
    }
}

fn call_naming<'a>(verb: &str, word: &'a str) -> Option<Call<'a>>
    ensures { result ≡ call_naming verb.now word.now }
{
    let name = Name::from_text(word)?;
    call_with(verb, name)
}

fn wait_of<'a>(name: &'a str, millis: &str, nanos: &str) -> Option<Call<'a>>
    ensures { result ≡ wait_from name.now millis.now nanos.now }
{
    let object = Name::from_text(name)?;
    let millis = signed_of(millis)?;
    let nanos = nanos_of(nanos)?;
    Some(Call::Wait {
        object,
        millis,
        nanos,
    })
}

fn call_timed<'a>(verb: &str, name: &'a str, millis: &str, nanos: &str) -> Option<Call<'a>>
    ensures { result ≡ call_timed verb.now name.now millis.now nanos.now }
{
    if verb == "wait" {
        wait_of(name, millis, nanos)
    } else {
        None
    }
}

fn begin_of<'a>(verb: &str, thread: &'a str, call: Option<Call<'a>>) -> Option<Line<'a>>
    ensures { result ≡ option_map Step (begin_from verb.now thread.now call.entry) }
{
    if verb != "begin" {
        return None;
    }
    let thread = Name::from_text(thread)?;
    let call = call?;
    Some(Line::Step(StepLine::Begin { thread, call }))
}

fn step_of_two<'a>(verb: &str, word: &'a str) -> Option<StepLine<'a>>
    ensures { result ≡ step_of_two verb.now word.now }
{
    match verb {
        "tick" => Some(StepLine::Tick(number_of(word)?)),
        "relayout" => Some(StepLine::Relayout(split_of(word)?)),
        _ => step_of_thread(verb, Name::from_text(word)?),
    }
}

fn step_of_thread<'a>(verb: &str, thread: Name<'a>) -> Option<StepLine<'a>>
    ensures { result ≡ step_of_thread verb.now thread.entry }
{
    match verb {
        "attach" => Some(StepLine::Attach(thread)),
        "go" => Some(StepLine::Go(thread)),
        "expire" => Some(StepLine::Expire(thread)),
        "spurious" => Some(StepLine::Spurious(thread)),
        _ => None,
    }
}

fn split_of(word: &str) -> Option<Split>
    ensures { result ≡ split_from word.now }
{
    match word {
        "wide" => Some(Split::Wide),
        "deep" => Some(Split::Deep),
        _ => None,
    }
}

fn object_of<'a>(name: &'a str, low: &str) -> Option<Line<'a>>
    ensures { result
        ≡ option_and_then (λ name. option_map (Object name) (low_from low.now))
        (name_from name.now) }
{
    let name = Name::from_text(name)?;
    let low = low_of(low.as_bytes())?;
    Some(Line::Object { name, low })
}

fn line_of_three<'a>(verb: &str, first: &'a str, second: &'a str) -> Option<Line<'a>>
    ensures { result ≡ line_of_three verb.now first.now second.now }
{
    if verb == "world" {
        return world_of(Split::Wide, first, second);
    }
    if verb == "object" {
        return object_of(first, second);
    }
    begin_of(verb, first, call_alone(second))
}

fn line_of_four<'a>(verb: &str, first: &'a str, second: &'a str, third: &'a str) -> Option<Line<'a>>
    ensures { result ≡ line_of_four verb.now first.now second.now third.now }
{
    if verb == "world" {
        if third == "deep" {
            return world_of(Split::Deep, first, second);
        }
        return None;
    }
    begin_of(verb, first, call_naming(second, third))
}

/// The line that some words are, which is none where they are none of a script.
pub fn line_of_words<'a>(words: &[&'a str]) -> Option<Line<'a>>
    ensures { result ≡ line_from (map (λ word. word.now) words.now) }
{
    match words {
        &[verb, word] => Some(Line::Step(step_of_two(verb, word)?)),
        &[verb, first, second] => line_of_three(verb, first, second),
        &[verb, first, second, third] => line_of_four(verb, first, second, third),
        &[verb, thread, call, name, millis, nanos] => {
            begin_of(verb, thread, call_timed(call, name, millis, nanos))
        }
        [] => None,
        [_] => None,
        [_, _, _, _, _] => None,
        [_, _, _, _, _, _, _, ..] => None,
    }
}

/// The call that some words are: those behind the thread of a `begin` line.
pub fn call_of_words<'a>(words: &[&'a str]) -> Option<Call<'a>>
    ensures { result ≡ call_from (map (λ word. word.now) words.now) }
{
    match words {
        &[verb] => call_alone(verb),
        &[verb, name] => call_naming(verb, name),
        &[verb, name, millis, nanos] => call_timed(verb, name, millis, nanos),
        [] => None,
        [_, _, _] => None,
        [_, _, _, _, _, ..] => None,
    }
}

/// The words of a text, between each two of which one blank stands.
pub fn words_in<'a>(alloc: Global, text: &'a str) -> Result<Vec<&'a str>, AllocError>
    ensures { IfOk result (λ words. map (λ word. word.now) words.items ≡ words_of text.now) }
{
    text.split(' ').collect(alloc)
}

fn line_of_text<'a>(alloc: Global, text: &'a str) -> Result<Option<Line<'a>>, AllocError>
    ensures { IfOk result (λ line. line ≡ line_from (words_of text.now)) }
{
    let words = words_in(alloc, text)?;
    Ok(line_of_words(&words))
}

/// The line that some bytes are, with no line feed.
#[inline(always)]
#[tactic(auto, using(crate::proofs::LineLaws::line_again))]
pub(crate) fn line_of<'a>(alloc: Global, bytes: &'a [u8]) -> Result<Option<Line<'a>>, AllocError>
    ensures { IfOk result (λ line. line ≡ line_at bytes.now) }
{
    match quick_line(bytes) {
        Some(line) => Ok(Some(line)),
        None => line_by_words(alloc, bytes),
    }
}

/// The line that some bytes are, by a list of their words.
#[inline(never)]
#[tactic(auto, using(crate::proofs::LineLaws::line_at_text, crate::proofs::LineLaws::not_text))]
fn line_by_words<'a>(alloc: Global, bytes: &'a [u8]) -> Result<Option<Line<'a>>, AllocError>
    ensures { IfOk result (λ line. line ≡ line_at bytes.now) }
{
    match str::from_utf8(bytes) {
        Ok(text) => line_of_text(alloc, text),
        Err(_) => Ok(None),
    }
}
