//! Header words that threads share.

ghost use Rattle.std.specs.Prelude.{◌≡◌, ◌∷◌, [], IfSome, All, length, false};
ghost use Rattle.header_words.specs.Passes.{new_pass, new_passes};

mod gate;
mod limits;
mod memory;
mod words;

use crate::names::Names;
use header_words::{CloseFault, Headers, Kept, OpenFault, Pass};
use lock_word::{ObjectId, Word};
use std::alloc::Global;
use std::process::Abort;

const OBJECT: ObjectId = ObjectId(0);

/// Opens the words of one object, low byte A5, for two passes. Where an allocation is refused, the
/// book comes back, and is opened again.
fn open_for_two(alloc: Global, names: Names) -> Option<(Headers<Names>, Vec<Pass<Names>>)>
    ensures objects { IfSome result (λ r. length r.0.lows ≡ 1) }
    ensures passes { IfSome result (λ r. r.1.items ≡ new_passes r.0 1 2) }
{
    match Headers::open(alloc, &[0xa5], 2, names) {
        Ok(opened) => Some(opened),
        Err(OpenFault::Memory { book }) => Headers::open(alloc, &[0xa5], 2, book).ok(),
    }
}

/// The words of one object, low byte A5, before a new book, and both passes to them.
fn open_two(rt: &impl Abort, alloc: Global) -> (Headers<Names>, Pass<Names>, Pass<Names>)
    ensures objects { length result.0.lows ≡ 1 }
    ensures first { result.1 ≡ new_pass result.0 1 }
    ensures second { result.2 ≡ new_pass result.0 2 }
{
    let Some((headers, mut passes)) = open_for_two(alloc, Names::new(alloc)) else {
        panic!(rt; "memory")
    };
    let Some(second) = passes.pop() else {
        unreachable!()
    };
    let Some(first) = passes.pop() else {
        unreachable!()
    };
    (headers, first, second)
}

/// The words of one object, low byte A5, before this book, and the one pass to them.
fn open_one<B: Kept + Drop>(rt: &impl Abort, alloc: Global, book: B) -> (Headers<B>, Pass<B>)
    ensures objects { length result.0.lows ≡ 1 }
    ensures pass { result.1 ≡ new_pass result.0 1 }
{
    let Ok((headers, mut passes)) = Headers::open(alloc, &[0xa5], 1, book) else {
        panic!(rt; "memory")
    };
    let Some(pass) = passes.pop() else {
        unreachable!()
    };
    (headers, pass)
}

/// Closes the words with all passes.
fn close<B: Kept + Drop>(
    rt: &impl Abort,
    alloc: Global,
    headers: Headers<B>,
    passes: Vec<Pass<B>>,
) -> (Vec<Word>, B)
    requires belong { All (λ p. p.opening ≡ headers) passes.items }
    requires without { All (λ p. p.has_gate ≡ false) passes.items }
{
    let Ok(closed) = headers.close(alloc, passes) else {
        panic!(rt; "the words are closed")
    };
    closed
}

fn only<B: Kept + Drop>(rt: &impl Abort, alloc: Global, pass: Pass<B>) -> Vec<Pass<B>>
    ensures { result.items ≡ pass ∷ [] }
{
    let Ok(passes) = vec![in alloc; pass] else {
        panic!(rt; "memory")
    };
    passes
}

/// Closes the words with their one pass.
fn close_one<B: Kept + Drop>(
    rt: &impl Abort,
    alloc: Global,
    headers: Headers<B>,
    pass: Pass<B>,
) -> (Vec<Word>, B)
    requires belongs { pass.opening ≡ headers }
    requires without { pass.has_gate ≡ false }
{
    let passes = only(rt, alloc, pass);
    close(rt, alloc, headers, passes)
}

/// Closes the words with both passes.
fn close_two(
    rt: &impl Abort,
    alloc: Global,
    headers: Headers<Names>,
    first: Pass<Names>,
    second: Pass<Names>,
) -> (Vec<Word>, Names)
    requires first { (first.opening ≡ headers) × (first.has_gate ≡ false) }
    requires second { (second.opening ≡ headers) × (second.has_gate ≡ false) }
{
    let Ok(passes) = vec![in alloc; first, second] else {
        panic!(rt; "memory")
    };
    close(rt, alloc, headers, passes)
}

/// Closes the words with one of both passes, which is refused: the words and the pass come back.
fn close_too_early(
    rt: &impl Abort,
    alloc: Global,
    headers: Headers<Names>,
    pass: Pass<Names>,
) -> (Headers<Names>, Pass<Names>)
    requires belongs { pass.opening ≡ headers }
    requires without { pass.has_gate ≡ false }
    ensures headers { result.0 ≡ headers }
    ensures belongs { result.1.opening ≡ headers }
    ensures without { result.1.has_gate ≡ false }
{
    let passes = only(rt, alloc, pass);
    let Err(
        CloseFault::WrongPass {
            headers,
            mut passes,
        },
    ) = headers.close(alloc, passes)
    else {
        panic!(rt; "one pass of two")
    };
    match passes.pop() {
        Some(pass) => (headers, pass),
        None => panic!(rt; "the pass comes back"),
    }
}
