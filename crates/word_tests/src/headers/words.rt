//! Words that are locked, and never inflated.
ghost use Rattle.std.specs.Prelude.{◌≡◌, ◌<◌, IfSome, length, false};
ghost use Rattle.lock_word.specs.declared.Lock.TheVariants.{Thin};
ghost use Rattle.header_words.specs.Passes.{depth_at, word_at};

use super::{OBJECT, close_one, close_too_early, close_two, open_one, open_two};
use crate::names::Names;
use header_words::{Headers, Kept, Pass};
use lock_word::Word;
use std::thread::{Threads, join};

// Acquires the object, by at most `tries` tries, nests, unnests and releases it.
fn lock_once(headers: &Headers<Names>, pass: &mut Pass<Names>, tries: u32) -> bool
    requires belongs { pass.old.opening ≡ headers.now }
    requires object { 0 < length headers.now.lows }
    requires free { depth_at pass.old 0 ≡ 0 }
    ensures belongs { pass.new.opening ≡ headers.now }
    ensures free { depth_at pass.new 0 ≡ 0 }
    ensures gate { pass.new.has_gate ≡ pass.old.has_gate }
{
    for _ in 0..tries {
        if headers.acquire(pass, OBJECT) {
            headers.nest(pass, OBJECT);
            headers.unnest(pass, OBJECT);
            headers.release(pass, OBJECT);
            return true;
        }
    }
    false
}

// Locks and unlocks the object so many times. Returns how many times it could.
fn lock_often(headers: &Headers<Names>, mut pass: Pass<Names>, rounds: u32) -> (u32, Pass<Names>)
    requires belongs { pass.opening ≡ headers.now }
    requires object { 0 < length headers.now.lows }
    requires free { depth_at pass 0 ≡ 0 }
    requires without { pass.has_gate ≡ false }
    ensures belongs { result.1.opening ≡ headers.entry.now }
    ensures free { depth_at result.1 0 ≡ 0 }
    ensures without { result.1.has_gate ≡ false }
{
    for done in 0..rounds {
        if !lock_once(headers, &mut pass, 10_000_000) {
            return (done, pass);
        }
    }
    (rounds, pass)
}

// What a load after an acquire that won shows.
fn own_word(headers: &Headers<Names>, pass: &mut Pass<Names>) -> Option<Word>
    requires belongs { pass.old.opening ≡ headers.now }
    requires object { 0 < length headers.now.lows }
    requires free { depth_at pass.old 0 ≡ 0 }
    ensures word { IfSome result (λ w. w.0 ≡ word_at headers.now 0 (Thin pass.old.index 0)) }
    ensures belongs { pass.new.opening ≡ headers.now }
    ensures one { IfSome result (λ _. depth_at pass.new 0 ≡ 1) }
    ensures gate { pass.new.has_gate ≡ pass.old.has_gate }
{
    if headers.acquire(pass, OBJECT) {
        return Some(headers.load(pass, OBJECT));
    }
    None
}

// Acquires the object, nests, unnests and releases it. Whether the words between were those of pass
// 1.
fn locks_and_unlocks(headers: &Headers<Names>, pass: &mut Pass<Names>) -> bool
    requires belongs { pass.old.opening ≡ headers.now }
    requires object { 0 < length headers.now.lows }
    requires free { depth_at pass.old 0 ≡ 0 }
    ensures belongs { pass.new.opening ≡ headers.now }
    ensures gate { pass.new.has_gate ≡ pass.old.has_gate }
{
    let Some(first) = own_word(headers, pass) else {
        return false;
    };
    headers.nest(pass, OBJECT);
    let nested = headers.load(pass, OBJECT);
    let depth = pass.depth(OBJECT);
    headers.unnest(pass, OBJECT);
    headers.release(pass, OBJECT);
    first == Word(0x0001_00a5) && nested == Word(0x0001_01a5) && depth == 2
}

// Whether pass 1 locks and unlocks the object, and holds it no more.
fn is_locked_by_one(headers: &Headers<Names>, pass: &mut Pass<Names>) -> bool
    requires belongs { pass.old.opening ≡ headers.now }
    requires object { 0 < length headers.now.lows }
    requires free { depth_at pass.old 0 ≡ 0 }
    ensures belongs { pass.new.opening ≡ headers.now }
    ensures gate { pass.new.has_gate ≡ pass.old.has_gate }
{
    pass.index() == 1 && locks_and_unlocks(headers, pass) && pass.depth(OBJECT) == 0
}

// Whether nothing is bound, and the word of the one object is free.
fn is_as_at_first(words: &[Word], names: &Names) -> bool {
    names.object(0) == None && words == [Word(0x0000_00a5)].as_slice()
}

#[test]
fn one_pass_locks_an_object(rt: HostRuntime) {
    let (headers, mut pass) = open_one(&rt, rt.alloc(), Names::new(rt.alloc()));
    assert!(rt; is_locked_by_one(&headers, &mut pass));
    let (words, names) = close_one(&rt, rt.alloc(), headers, pass);
    assert!(rt; is_as_at_first(words.as_slice(), &names));
}

#[test]
fn two_threads_take_turns(rt: HostRuntime) {
    let (headers, first, second) = open_two(&rt, rt.alloc());
    let (one, two) = join(
        &rt,
        || lock_often(&headers, first, 1_000),
        || lock_often(&headers, second, 1_000),
    );
    assert!(rt; (one.0, two.0) == (1_000, 1_000));
    let (first, mut second) = headers.meet(one.1, two.1);
    assert!(rt; headers.load(&mut second, OBJECT) == Word(0x0000_00a5));
    let (headers, first) = close_too_early(&rt, rt.alloc(), headers, first);
    let (words, names) = close_two(&rt, rt.alloc(), headers, first, second);
    assert!(rt; is_as_at_first(words.as_slice(), &names));
}
