//! Want of memory, which only a run with refused allocations meets: what was handed in comes back,
//! and the same succeeds when it is tried again.
ghost use Rattle.std.specs.Prelude.{◌≡◌, [], length, false, All};
ghost use Rattle.header_words.specs.Passes.{new_passes};

use header_words::{CloseFault, Headers, Kept, OpenFault, Pass};
use lock_word::{ObjectId, Word};
use std::alloc::Global;
use std::process::Abort;
use std::test::Fail;

const OBJECT: ObjectId = ObjectId(0);

/// A book without monitors, which asks for no memory and is known again by its mark.
#[derive(Drop)]
struct Marked {
    mark: u32,
}

impl Kept for Marked {
    ghost bound = { λ _. [] };

    fn object(&self, _monitor: u32) -> Option<ObjectId> {
        None
    }
}

/// Opens the words of two objects for two passes; where memory is refused, the book comes back, and
/// is opened again.
fn open_again(rt: &impl Abort, alloc: Global) -> (Headers<Marked>, Vec<Pass<Marked>>)
    ensures objects { length result.0.lows ≡ 2 }
    ensures passes { result.1.items ≡ new_passes result.0 1 2 }
{
    let book = match Headers::open(alloc, &[0xa5, 0x5a], 2, Marked { mark: 7 }) {
        Ok(opened) => return opened,
        Err(OpenFault::Memory { book }) => book,
    };
    assert!(rt; book.mark == 7);
    let Ok(opened) = Headers::open(alloc, &[0xa5, 0x5a], 2, book) else {
        panic!(rt; "refused twice")
    };
    opened
}

/// Acquires the object by the second of both passes, which stay where they are. False where its
/// word is not free.
fn acquire_by_second(headers: &Headers<Marked>, passes: &mut Vec<Pass<Marked>>) -> bool
    requires objects { length headers.now.lows ≡ 2 }
    requires passes { passes.old.items ≡ new_passes headers.now 1 2 }
    ensures belong { All (λ p. p.opening ≡ headers.now) passes.new.items }
    ensures without { All (λ p. p.has_gate ≡ false) passes.new.items }
{
    let Some(mut second) = passes.pop() else {
        unreachable!()
    };
    let acquired = headers.acquire(&mut second, OBJECT);
    passes.push(second).is_ok() && acquired
}

/// Whether these are passes 1 and 2.
fn are_both(passes: &[Pass<Marked>]) -> bool {
    let first = passes.first().map(|pass| pass.index());
    let last = passes.last().map(|pass| pass.index());
    passes.len() == 2 && first == Some(1) && last == Some(2)
}

/// Closes the words; where memory is refused, they come back with their passes, and are closed
/// again.
fn close_again(
    rt: &impl Abort,
    alloc: Global,
    headers: Headers<Marked>,
    passes: Vec<Pass<Marked>>,
) -> (Vec<Word>, Marked)
    requires belong { All (λ p. p.opening ≡ headers) passes.items }
    requires without { All (λ p. p.has_gate ≡ false) passes.items }
{
    let (headers, passes) = match headers.close(alloc, passes) {
        Ok(closed) => return closed,
        Err(CloseFault::Memory { headers, passes }) => (headers, passes),
        Err(CloseFault::WrongPass { .. }) => panic!(rt; "another fault"),
    };
    assert!(rt; are_both(passes.as_slice()));
    let Ok(closed) = headers.close(alloc, passes) else {
        panic!(rt; "refused twice")
    };
    closed
}

/// Whether pass 2 holds the first of both objects once, and nobody the other.
fn is_held_by_second(words: &[Word]) -> bool {
    words == [Word(0x0002_00a5), Word(0x0000_005a)].as_slice()
}

#[test]
fn what_was_refused_comes_back_and_succeeds_again(rt: HostRuntime) -> Result<(), Fail> {
    let (headers, mut passes) = open_again(&rt, rt.alloc());
    assert!(rt; acquire_by_second(&headers, &mut passes));
    let (words, book) = close_again(&rt, rt.alloc(), headers, passes);
    assert!(rt; is_held_by_second(words.as_slice()) && book.mark == 7);
    Ok(())
}
