//! The pieces of a line, each read from its front.

pub(crate) mod comparing;

ghost use Rattle.std.specs.Prelude.{◌≡◌, ◌+◌, ◌*◌, ◌++◌, ◌∷◌, ◌<◌, ◌^◌, codes, decimal, IfSome, IsTrue};
ghost use Rattle.std.specs.Fmt.{signed_decimal};
ghost use Rattle.history_moves.specs.Moves.{FitsInt};
ghost use Rattle.history_moves.specs.Texts.{IsLong, thread_text};

use crate::pieces::comparing::same_bytes;
use crate::values::members::{short_signed, small_signed};
use lock_word::ThreadId;

/// Where a number that has one more digit may no longer fit 64 bits.
const LARGE: u64 = 1_000_000_000_000_000_000;

/// What stands behind these bytes, where they come first.
#[inline(always)]
pub(crate) fn behind<'a>(bytes: &'a [u8], front: &[u8]) -> Option<&'a [u8]>
    ensures { IfSome result (λ rest. bytes.now ≡ front.now ++ rest.now) }
{
    if bytes.len() < front.len() {
        return None;
    }
    let (begin, rest) = bytes.split_at(front.len());
    if same_bytes(begin, front) {
        Some(rest)
    } else {
        None
    }
}

/// A word up to its quotation mark, and what stands behind that.
#[inline]
pub(crate) fn word_in(bytes: &[u8]) -> Option<(&[u8], &[u8])>
    ensures { IfSome result (λ r. bytes.now ≡ r.0.now ++ 34 ∷ r.1.now) }
{
    let end = bytes.iter().position(|byte| *byte == b'"')?;
    let (word, _) = bytes.split_at(end);
    let (_, rest) = bytes.split_at(end + 1);
    Some((word, rest))
}

/// The value of a digit that comes first, and what stands behind it.
#[inline(always)]
fn digit_in(bytes: &[u8]) -> Option<(u64, &[u8])>
    ensures digit { IfSome result (λ r. bytes.now ≡ (48 + r.0) ∷ r.1.now) }
    ensures small { IfSome result (λ r. r.0 < 10) }
{
    let (first, rest) = bytes.split_first()?;
    if first.is_ascii_digit() {
        Some((u64::from(*first - b'0'), rest))
    } else {
        None
    }
}

/// The number with one more digit; None where that does not fit 64 bits.
#[inline(always)]
fn with_digit(number: u64, digit: u64) -> Option<u64>
    requires { digit < 10 }
    ensures longer { IfSome result (λ n. n ≡ number * 10 + digit) }
    ensures small { IfSome result (λ n. n < 2 ^ 64) }
{
    if number < LARGE {
        Some(number * 10 + digit)
    } else {
        number.checked_mul(10)?.checked_add(digit)
    }
}

/// A number of 64 bits with no leading zero, and what stands behind its digits.
#[inline]
#[tactic(auto, using(crate::proofs::Digits::first_digit))]
pub(crate) fn number_in(bytes: &[u8]) -> Option<(u64, &[u8])>
    ensures number { IfSome result (λ r. bytes.now ≡ decimal r.0 ++ r.1.now) }
    ensures small { IfSome result (λ r. r.0 < 2 ^ 64) }
{
    let (first, after) = digit_in(bytes)?;
    if first == 0 {
        return Some((first, after));
    }
    let mut number = first;
    let mut rest = after;
    'digits: while let Some((digit, after)) = digit_in(rest) {
        number = with_digit(number, digit)?;
        rest = after;
    }
    Some((number, rest))
}

/// A number of 32 bits, and what stands behind its digits.
#[inline]
pub(crate) fn small_number_in(bytes: &[u8]) -> Option<(u32, &[u8])>
    ensures number { IfSome result (λ r. bytes.now ≡ decimal r.0 ++ r.1.now) }
    ensures small { IfSome result (λ r. r.0 < 2 ^ 32) }
{
    let (number, rest) = number_in(bytes)?;
    if number < 0x1_0000_0000 {
        Some((number as u32, rest))
    } else {
        None
    }
}

/// The number below zero that has these digits. None of zero, and where it does not fit 64 bits.
fn negated(number: u64) -> Option<i64>
    ensures digits { IfSome result (λ z. signed_decimal z ≡ 45 ∷ decimal number) }
    ensures small { IfSome result IsLong }
{
    let less = short_signed(number.checked_sub(1)?)?;
    Some(-1 - less)
}

/// A number of 64 bits that may be below zero, and what stands behind its digits.
#[inline]
pub(crate) fn signed_in(bytes: &[u8]) -> Option<(i64, &[u8])>
    ensures number { IfSome result (λ r. bytes.now ≡ signed_decimal r.0 ++ r.1.now) }
    ensures small { IfSome result (λ r. IsLong r.0) }
{
    if let Some(digits) = behind(bytes, b"-") {
        let (number, rest) = number_in(digits)?;
        return Some((negated(number)?, rest));
    }
    let (number, rest) = number_in(bytes)?;
    Some((short_signed(number)?, rest))
}

/// The same of 32 bits.
#[inline]
pub(crate) fn small_signed_in(bytes: &[u8]) -> Option<(i32, &[u8])>
    ensures number { IfSome result (λ r. bytes.now ≡ signed_decimal r.0 ++ r.1.now) }
    ensures small { IfSome result (λ r. FitsInt r.0) }
{
    let (number, rest) = signed_in(bytes)?;
    Some((small_signed(number)?, rest))
}

/// Whether nothing but the end of an object is left.
#[inline(always)]
pub(crate) fn is_end(bytes: &[u8]) -> bool
    ensures { IsTrue result → bytes.now ≡ codes "}" }
{
    bytes == b"}".as_slice()
}

/// The thread at the end of a line.
#[inline]
pub(crate) fn thread_in(bytes: &[u8]) -> Option<ThreadId>
    ensures text { IfSome result (λ t. bytes.now ≡ thread_text t) }
    ensures small { IfSome result (λ t. t.0 < 2 ^ 32) }
{
    let (number, rest) = small_number_in(behind(bytes, b",\"thread\":")?)?;
    if is_end(rest) {
        Some(ThreadId(number))
    } else {
        None
    }
}
