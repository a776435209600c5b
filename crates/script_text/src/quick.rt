//! Reading all lines of a script but the first, with no list of their words.

ghost use Rattle.std.specs.Prelude.{◌≡◌, ◌<◌, ◌^◌, ◌++◌, ◌∷◌, IfSome, codes, decimal};
ghost use Rattle.std.specs.Fmt.{signed_decimal};
ghost use Rattle.script_text.specs.declared.lines.Line.TheVariants.{Step};
ghost use Rattle.script_text.specs.Lines.{split_name};
ghost use Rattle.script_text.specs.Quick.{BeginsWithCall, BeginsWithLine, SaysCall, SaysLine};
ghost use Rattle.script_text.specs.Words.{IsBelow};

use crate::lines::{Call, Line, StepLine};
use crate::names::Name;
use crate::reading::{low_of, nanos_of, number_of, signed_of};
use lock_word::Split;
use std::str;

/// What stands behind these bytes, where they come first.
#[inline(always)]
fn behind<'a>(bytes: &'a [u8], front: &[u8]) -> Option<&'a [u8]>
    ensures { IfSome result (λ rest. bytes.now ≡ front.now ++ rest.now) }
{
    if bytes.len() < front.len() {
        return None;
    }
    let (begin, rest) = bytes.split_at(front.len());
    if begin == front { Some(rest) } else { None }
}

/// A word up to its space, and what stands behind that.
fn word_in(bytes: &[u8]) -> Option<(&[u8], &[u8])>
    ensures { IfSome result (λ r. bytes.now ≡ r.0.now ++ 32 ∷ r.1.now) }
{
    let end = bytes.iter().position(|byte| *byte == b' ')?;
    let (word, _) = bytes.split_at(end);
    let (_, rest) = bytes.split_at(end + 1);
    Some((word, rest))
}

/// A name up to this byte, and what stands behind that.
#[inline(always)]
fn name_before(bytes: &[u8], end: u8) -> Option<(Name<'_>, &[u8])>
    ensures { IfSome result (λ r. bytes.now ≡ r.0 ++ end ∷ r.1.now) }
{
    let (name, rest) = Name::at_front(bytes)?;
    match rest {
        [first, after @ ..] if *first == end => Some((name, after)),
        _ => None,
    }
}

/// The step in front of some bytes, with its line feed, and what stands behind that: a `go`, or the
/// `begin` of an enter or an exit. None of anything else.
#[inline(always)]
pub(crate) fn usual_step(bytes: &[u8]) -> Option<(StepLine<'_>, &[u8])>
    ensures { IfSome result (λ r. BeginsWithLine bytes.now (Step r.0) r.1.now) }
{
    if let Some(rest) = behind(bytes, b"go ") {
        let (thread, rest) = name_before(rest, b'\n')?;
        return Some((StepLine::Go(thread), rest));
    }
    let (thread, rest) = name_before(behind(bytes, b"begin ")?, b' ')?;
    let (call, rest) = usual_call(rest)?;
    Some((StepLine::Begin { thread, call }, rest))
}

/// The enter or exit in front of some bytes, with its line feed, and what stands behind that.
#[inline(always)]
fn usual_call(bytes: &[u8]) -> Option<(Call<'_>, &[u8])>
    ensures { IfSome result (λ r. BeginsWithCall bytes.now r.0 r.1.now) }
{
    if let Some(rest) = behind(bytes, b"enter ") {
        let (object, rest) = name_before(rest, b'\n')?;
        return Some((Call::Enter(object), rest));
    }
    let (object, rest) = name_before(behind(bytes, b"exit ")?, b'\n')?;
    Some((Call::Exit(object), rest))
}

/// The step in front of some bytes, with its line feed, and what stands behind that, where it names
/// a thread and is none that [`usual_step`] knows, and no wait. None of anything else.
#[inline(never)]
pub(crate) fn seldom_step(bytes: &[u8]) -> Option<(StepLine<'_>, &[u8])>
    ensures { IfSome result (λ r. BeginsWithLine bytes.now (Step r.0) r.1.now) }
{
    if let Some(rest) = behind(bytes, b"begin ") {
        let (thread, rest) = name_before(rest, b' ')?;
        let (call, rest) = seldom_call(rest)?;
        return Some((StepLine::Begin { thread, call }, rest));
    }
    if let Some(rest) = behind(bytes, b"attach ") {
        let (thread, rest) = name_before(rest, b'\n')?;
        return Some((StepLine::Attach(thread), rest));
    }
    if let Some(rest) = behind(bytes, b"expire ") {
        let (thread, rest) = name_before(rest, b'\n')?;
        return Some((StepLine::Expire(thread), rest));
    }
    let (thread, rest) = name_before(behind(bytes, b"spurious ")?, b'\n')?;
    Some((StepLine::Spurious(thread), rest))
}

/// The call in front of some bytes, with its line feed, and what stands behind that, where it is no
/// enter, exit or wait.
#[inline(always)]
fn seldom_call(bytes: &[u8]) -> Option<(Call<'_>, &[u8])>
    ensures { IfSome result (λ r. BeginsWithCall bytes.now r.0 r.1.now) }
{
    if let Some(rest) = behind(bytes, b"end\n") {
        return Some((Call::End, rest));
    }
    if let Some(rest) = behind(bytes, b"interrupted\n") {
        return Some((Call::Interrupted, rest));
    }
    if let Some(rest) = behind(bytes, b"notify ") {
        let (object, rest) = name_before(rest, b'\n')?;
        return Some((Call::Notify(object), rest));
    }
    if let Some(rest) = behind(bytes, b"notifyall ") {
        let (object, rest) = name_before(rest, b'\n')?;
        return Some((Call::NotifyAll(object), rest));
    }
    if let Some(rest) = behind(bytes, b"holds ") {
        let (object, rest) = name_before(rest, b'\n')?;
        return Some((Call::Holds(object), rest));
    }
    if let Some(rest) = behind(bytes, b"interrupt ") {
        let (target, rest) = name_before(rest, b'\n')?;
        return Some((Call::Interrupt(target), rest));
    }
    let (target, rest) = name_before(behind(bytes, b"isinterrupted ")?, b'\n')?;
    Some((Call::IsInterrupted(target), rest))
}

/// The line that some bytes are, where it is a step or an `object`. None of any other, which is
/// left to the reader of all lines.
#[inline(always)]
pub(crate) fn quick_line(bytes: &[u8]) -> Option<Line<'_>>
    ensures { IfSome result (SaysLine bytes.now) }
{
    if let Some(rest) = behind(bytes, b"go ") {
        let thread = Name::from_bytes(rest)?;
        return Some(Line::Step(StepLine::Go(thread)));
    }
    if let Some(rest) = behind(bytes, b"begin ") {
        let (thread, rest) = name_before(rest, b' ')?;
        let call = quick_call(rest)?;
        return Some(Line::Step(StepLine::Begin { thread, call }));
    }
    if let Some(rest) = behind(bytes, b"object ") {
        let (name, rest) = name_before(rest, b' ')?;
        let low = low_of(rest)?;
        return Some(Line::Object { name, low });
    }
    if let Some(rest) = behind(bytes, b"attach ") {
        let thread = Name::from_bytes(rest)?;
        return Some(Line::Step(StepLine::Attach(thread)));
    }
    Some(Line::Step(quick_step(bytes)?))
}

/// The step that some bytes are, where it is an `expire`, a `spurious`, a `tick` or a `relayout`.
fn quick_step(bytes: &[u8]) -> Option<StepLine<'_>>
    ensures { IfSome result (λ step. SaysLine bytes.now (Step step)) }
{
    if let Some(rest) = behind(bytes, b"expire ") {
        return Some(StepLine::Expire(Name::from_bytes(rest)?));
    }
    if let Some(rest) = behind(bytes, b"spurious ") {
        return Some(StepLine::Spurious(Name::from_bytes(rest)?));
    }
    if let Some(rest) = behind(bytes, b"tick ") {
        return Some(StepLine::Tick(number_in(rest)?));
    }
    let split = split_in(behind(bytes, b"relayout ")?)?;
    Some(StepLine::Relayout(split))
}

/// The split that some bytes name.
fn split_in(bytes: &[u8]) -> Option<Split>
    ensures { IfSome result (λ split. bytes.now ≡ split_name split) }
{
    if bytes == b"wide".as_slice() {
        return Some(Split::Wide);
    }
    if bytes == b"deep".as_slice() {
        return Some(Split::Deep);
    }
    None
}

/// The number that some bytes are, in decimal digits.
#[tactic(auto, using(crate::proofs::Numerals::number_takes))]
fn number_in(bytes: &[u8]) -> Option<u64>
    ensures { IfSome result (λ n. (bytes.now ≡ decimal n) × (n < 2 ^ 64)) }
{
    number_of(str::from_utf8(bytes).ok()?)
}

/// The milliseconds of a limit that some bytes are.
#[tactic(auto, using(crate::proofs::Signed::signed_takes))]
fn millis_in(bytes: &[u8]) -> Option<i64>
    ensures { IfSome result (λ z. (bytes.now ≡ signed_decimal z) × IsBelow (2 ^ 63) z) }
{
    signed_of(str::from_utf8(bytes).ok()?)
}

/// The nanoseconds of a limit that some bytes are.
#[tactic(auto, using(crate::proofs::Signed::nanos_takes))]
fn nanos_in(bytes: &[u8]) -> Option<i32>
    ensures { IfSome result (λ z. (bytes.now ≡ signed_decimal z) × IsBelow (2 ^ 31) z) }
{
    nanos_of(str::from_utf8(bytes).ok()?)
}

/// The call at the end of a `begin`.
fn quick_call(bytes: &[u8]) -> Option<Call<'_>>
    ensures { IfSome result (SaysCall bytes.now) }
{
    let Some((verb, rest)) = word_in(bytes) else {
        return lone_call(bytes);
    };
    if verb == b"wait".as_slice() {
        return quick_wait(rest);
    }
    let name = Name::from_bytes(rest)?;
    call_named(verb, name)
}

/// The call that names nothing.
fn lone_call(bytes: &[u8]) -> Option<Call<'_>>
    ensures { IfSome result (SaysCall bytes.now) }
{
    if bytes == b"end".as_slice() {
        return Some(Call::End);
    }
    if bytes == b"interrupted".as_slice() {
        return Some(Call::Interrupted);
    }
    None
}

/// The wait with these words behind its verb. Most have no limit, which one comparison tells.
fn quick_wait(bytes: &[u8]) -> Option<Call<'_>>
    ensures { IfSome result (SaysCall (codes "wait " ++ bytes.now)) }
{
    let (object, rest) = name_before(bytes, b' ')?;
    if rest == b"0 0".as_slice() {
        return Some(Call::Wait {
            object,
            millis: 0,
            nanos: 0,
        });
    }
    let (millis, nanos) = word_in(rest)?;
    let millis = millis_in(millis)?;
    let nanos = nanos_in(nanos)?;
    Some(Call::Wait {
        object,
        millis,
        nanos,
    })
}

/// The call with this verb.
fn call_named<'a>(verb: &[u8], name: Name<'a>) -> Option<Call<'a>>
    ensures { IfSome result (SaysCall (verb.now ++ 32 ∷ name.entry)) }
{
    if verb == b"enter".as_slice() {
        return Some(Call::Enter(name));
    }
    if verb == b"exit".as_slice() {
        return Some(Call::Exit(name));
    }
    if verb == b"notify".as_slice() {
        return Some(Call::Notify(name));
    }
    if verb == b"notifyall".as_slice() {
        return Some(Call::NotifyAll(name));
    }
    if verb == b"holds".as_slice() {
        return Some(Call::Holds(name));
    }
    if verb == b"interrupt".as_slice() {
        return Some(Call::Interrupt(name));
    }
    if verb == b"isinterrupted".as_slice() {
        return Some(Call::IsInterrupted(name));
    }
    None
}
