//! The most objects and passes that there can be.
ghost use Rattle.std.specs.Prelude.{◌≡◌, All, false};

use super::close;
use crate::names::Names;
use header_words::{Headers, Pass};
use lock_word::Word;
use std::alloc::Global;
use std::process::Abort;

/// The words of 65,535 objects, low byte A5, before a new book, and 64 passes to them.
fn open_all(rt: &impl Abort, alloc: Global) -> (Headers<Names>, Vec<Pass<Names>>)
    ensures belong { All (λ p. p.opening ≡ result.0) result.1.items }
    ensures without { All (λ p. p.has_gate ≡ false) result.1.items }
{
    let Ok(lows) = vec![in alloc; 0xa5u8; 65_535] else {
        panic!(rt; "memory")
    };
    let names = Names::new(alloc);
    let Ok((headers, passes)) = Headers::open(alloc, lows.as_slice(), 64, names) else {
        panic!(rt; "memory")
    };
    (headers, passes)
}

fn are_64(passes: &[Pass<Names>]) -> bool {
    passes.len() == 64 && passes.last().map(|pass| pass.index()) == Some(64)
}

fn are_all_free(words: &[Word]) -> bool {
    words.len() == 65_535 && words.iter().all(|word| *word == Word(0x0000_00a5))
}

#[test]
fn all_objects_and_passes_are_opened_and_closed(rt: HostRuntime) {
    let (headers, passes) = open_all(&rt, rt.alloc());
    assert!(rt; are_64(passes.as_slice()));
    let (words, _) = close(&rt, rt.alloc(), headers, passes);
    assert!(rt; are_all_free(words.as_slice()));
}
