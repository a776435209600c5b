//! The book behind the gate, and the monitors that are published from it.
ghost use Rattle.std.specs.Prelude.{◌≡◌, ◌<◌, ◌+◌, length, true, false, IfSome, IfNone};
ghost use Rattle.std.specs.Bool.{OnTrue};
ghost use Rattle.header_words.specs.Bindings.{Binds, Covers};
ghost use Rattle.header_words.specs.Passes.{depth_at};

use super::{OBJECT, close_one, close_two, open_one, open_two};
use crate::ledger::Ledger;
use crate::names::{Names, inflate};
use fat_monitor::{Fats, Receipt};
use header_words::{Headers, Kept, Pass};
use lock_word::{Lock, ObjectId, Split, ThreadId, Word, decode};
use std::alloc::Global;
use std::process::Abort;
use std::thread::{Threads, join};

// A pass that finds a fat word takes the book, which binds the monitor to the object.
fn monitor_of<B: Kept>(
    headers: &Headers<B>,
    pass: &mut Pass<B>,
    object: ObjectId,
) -> Option<(u32, B)>
    requires belongs { pass.old.opening ≡ headers.now }
    requires object { object.0 < length headers.now.lows }
    requires without { pass.old.has_gate ≡ false }
    ensures belongs { pass.new.opening ≡ headers.now }
    ensures bound { IfSome result (λ r. Binds (B.bound r.1) r.0 object.0) }
    ensures covers { IfSome result (λ r. Covers (B.bound r.1) pass.new.seen) }
    ensures gate { IfSome result (λ _. pass.new.has_gate ≡ true) }
    ensures none { IfNone result (pass.new.has_gate ≡ false) }
{
    let word = headers.load(pass, object);
    let Some((Lock::Fat { monitor }, _low)) = decode(Split::Wide, word) else {
        return None;
    };
    let book = headers.take(pass)?;
    Some((monitor, book))
}

// The receipt for monitor 0, which a world of fat monitors binds to the object for two holds of
// thread 1.
fn receipt_for_two_holds(rt: &impl Abort, alloc: Global) -> Receipt
    ensures object { result.object.0 ≡ 0 }
    ensures owner { result.owner.0 ≡ 1 }
    ensures holds { result.holds ≡ 2 }
{
    let mut fats = Fats::new(alloc, 1);
    let Ok(()) = fats.attach(ThreadId(1)) else {
        panic!(rt; "the thread is attached")
    };
    let Ok(receipt) = fats.bind(OBJECT, ThreadId(1), 2) else {
        panic!(rt; "the monitor is bound")
    };
    receipt
}

// Acquires the object and nests it, so that the pass holds it twice. False where its word is not
// free.
fn hold_twice<B: Kept>(headers: &Headers<B>, pass: &mut Pass<B>, object: ObjectId) -> bool
    requires belongs { pass.old.opening ≡ headers.now }
    requires object { object.0 < length headers.now.lows }
    requires free { depth_at pass.old object.0 ≡ 0 }
    requires without { pass.old.has_gate ≡ false }
    ensures belongs { pass.new.opening ≡ headers.now }
    ensures index { pass.new.index ≡ pass.old.index }
    ensures without { pass.new.has_gate ≡ false }
    ensures twice { OnTrue result (depth_at pass.new object.0 ≡ 2) }
{
    if !headers.acquire(pass, object) {
        return false;
    }
    headers.nest(pass, object);
    true
}

// Binds the next monitor in the book in hand to the object, and gives the book back.
fn add_and_give(
    headers: &Headers<Names>,
    pass: &mut Pass<Names>,
    mut names: Names,
    object: ObjectId,
) -> bool
    requires belongs { pass.old.opening ≡ headers.now }
    requires gate { pass.old.has_gate ≡ true }
    requires covers { Covers names.objects.items pass.old.seen }
    ensures belongs { pass.new.opening ≡ headers.now }
    ensures gate { pass.new.has_gate ≡ false }
{
    let added = names.bind(object);
    headers.give(pass, names);
    added
}

// Takes the book, adds the object and gives the book back, by at most `tries` tries.
fn add_once(headers: &Headers<Names>, pass: &mut Pass<Names>, object: ObjectId, tries: u32) -> bool
    requires belongs { pass.old.opening ≡ headers.now }
    requires without { pass.old.has_gate ≡ false }
    ensures belongs { pass.new.opening ≡ headers.now }
    ensures without { pass.new.has_gate ≡ false }
{
    for _ in 0..tries {
        if let Some(names) = headers.take(pass) {
            return add_and_give(headers, pass, names, object);
        }
    }
    false
}

// Adds the object so many times. Returns how many times it could.
fn add_often(
    headers: &Headers<Names>,
    mut pass: Pass<Names>,
    object: ObjectId,
    rounds: u32,
) -> (u32, Pass<Names>)
    requires belongs { pass.opening ≡ headers.now }
    requires without { pass.has_gate ≡ false }
    ensures belongs { result.1.opening ≡ headers.entry.now }
    ensures without { result.1.has_gate ≡ false }
{
    for done in 0..rounds {
        if !add_once(headers, &mut pass, object, 10_000_000) {
            return (done, pass);
        }
    }
    (rounds, pass)
}

// Holds the object twice, and publishes the monitor of the receipt for these holds.
fn publish_two_holds(headers: &Headers<Names>, pass: &mut Pass<Names>, receipt: Receipt) -> bool
    requires belongs { pass.old.opening ≡ headers.now }
    requires objects { 0 < length headers.now.lows }
    requires free { depth_at pass.old 0 ≡ 0 }
    requires without { pass.old.has_gate ≡ false }
    requires object { receipt.object.0 ≡ 0 }
    requires owner { receipt.owner.0 ≡ pass.old.index }
    requires holds { receipt.holds ≡ 2 }
    ensures belongs { pass.new.opening ≡ headers.now }
    ensures without { pass.new.has_gate ≡ false }
{
    if !hold_twice(headers, pass, OBJECT) {
        return false;
    }
    match headers.take(pass) {
        Some(names) => inflate(headers, pass, names, receipt),
        None => false,
    }
}

// Whether the object has the fat word of monitor 0, and the pass neither holds it nor can acquire
// it.
fn is_fat(headers: &Headers<Names>, pass: &mut Pass<Names>) -> bool
    requires belongs { pass.old.opening ≡ headers.now }
    requires objects { 0 < length headers.now.lows }
    requires without { pass.old.has_gate ≡ false }
    ensures belongs { pass.new.opening ≡ headers.now }
    ensures without { pass.new.has_gate ≡ false }
{
    headers.load(pass, OBJECT) == Word(0x8000_00a5)
        && pass.depth(OBJECT) == 0
        && !headers.acquire(pass, OBJECT)
}

// Whether the pass is led to monitor 0, which the book has bound to the object.
fn finds_monitor(headers: &Headers<Names>, pass: &mut Pass<Names>) -> bool
    requires belongs { pass.old.opening ≡ headers.now }
    requires objects { 0 < length headers.now.lows }
    requires without { pass.old.has_gate ≡ false }
    ensures belongs { pass.new.opening ≡ headers.now }
    ensures without { pass.new.has_gate ≡ false }
{
    let Some((monitor, names)) = monitor_of(headers, pass, OBJECT) else {
        return false;
    };
    let object = names.object(0);
    headers.give(pass, names);
    monitor == 0 && object == Some(OBJECT)
}

// A shared reference to the value may cross threads, and the value itself.
fn crosses_threads<T: Send + Sync>(_value: &T) {}

// Whether the first pass takes the book, which the second then cannot, and gives it back with this
// object.
fn takes_alone(
    headers: &Headers<Names>,
    first: &mut Pass<Names>,
    second: &mut Pass<Names>,
    object: ObjectId,
) -> bool
    requires first { (first.old.opening ≡ headers.now) × (first.old.has_gate ≡ false) }
    requires second { (second.old.opening ≡ headers.now) × (second.old.has_gate ≡ false) }
    ensures second { OnTrue result
        ((second.new.opening ≡ headers.now) × (second.new.has_gate ≡ false)) }
{
    let Some(names) = headers.take(first) else {
        return false;
    };
    let is_alone = first.has_gate() && headers.take(second).is_none() && !second.has_gate();
    add_and_give(headers, first, names, object) && is_alone && !first.has_gate()
}

// Whether the book has just this object.
fn has_just(headers: &Headers<Names>, pass: &mut Pass<Names>, object: ObjectId) -> bool
    requires belongs { pass.old.opening ≡ headers.now }
    requires without { pass.old.has_gate ≡ false }
{
    let Some(names) = headers.take(pass) else {
        return false;
    };
    let (zeroth, first) = (names.object(0), names.object(1));
    headers.give(pass, names);
    zeroth == Some(object) && first == None
}

#[test]
fn the_book_is_taken_by_one_pass_at_a_time(rt: HostRuntime) {
    let (headers, mut first, mut second) = open_two(&rt, rt.alloc());
    crosses_threads(&headers);
    assert!(rt; takes_alone(&headers, &mut first, &mut second, ObjectId(7)));
    assert!(rt; has_just(&headers, &mut second, ObjectId(7)));
}

// Whether the first pass publishes monitor 0, to which the second is led.
fn leads_to_monitor(
    headers: &Headers<Names>,
    first: &mut Pass<Names>,
    second: &mut Pass<Names>,
    receipt: Receipt,
) -> bool
    requires first { (first.old.opening ≡ headers.now) × (first.old.has_gate ≡ false) }
    requires second { (second.old.opening ≡ headers.now) × (second.old.has_gate ≡ false) }
    requires objects { 0 < length headers.now.lows }
    requires free { depth_at first.old 0 ≡ 0 }
    requires object { receipt.object.0 ≡ 0 }
    requires owner { receipt.owner.0 ≡ first.old.index }
    requires holds { receipt.holds ≡ 2 }
    ensures first { (first.new.opening ≡ headers.now) × (first.new.has_gate ≡ false) }
    ensures second { (second.new.opening ≡ headers.now) × (second.new.has_gate ≡ false) }
{
    publish_two_holds(headers, first, receipt)
        && is_fat(headers, first)
        && finds_monitor(headers, second)
}

// Whether the word of the one object is fat, and its monitor is bound to it.
fn is_bound(words: &[Word], names: &Names) -> bool {
    words == [Word(0x8000_00a5)].as_slice() && names.object(0) == Some(OBJECT)
}

#[test]
fn a_receipt_is_published(rt: HostRuntime) {
    let receipt = receipt_for_two_holds(&rt, rt.alloc());
    let (headers, mut first, mut second) = open_two(&rt, rt.alloc());
    assert!(rt; leads_to_monitor(&headers, &mut first, &mut second, receipt));
    let (words, names) = close_two(&rt, rt.alloc(), headers, first, second);
    assert!(rt; is_bound(words.as_slice(), &names));
}

// Takes the book and gives it back. Whether it had no objects.
fn is_empty(headers: &Headers<Ledger>, pass: &mut Pass<Ledger>) -> bool
    requires belongs { pass.old.opening ≡ headers.now }
    requires without { pass.old.has_gate ≡ false }
    ensures belongs { pass.new.opening ≡ headers.now }
    ensures without { pass.new.has_gate ≡ false }
{
    let Some(ledger) = headers.take(pass) else {
        return false;
    };
    let count = ledger.len();
    headers.give(pass, ledger);
    count == 0
}

#[test]
fn a_type_with_a_model_is_kept(rt: HostRuntime) {
    let (headers, mut pass) = open_one(&rt, rt.alloc(), Ledger::new(rt.alloc()));
    crosses_threads(&headers);
    assert!(rt; is_empty(&headers, &mut pass));
    let (_, ledger) = close_one(&rt, rt.alloc(), headers, pass);
    assert!(rt; ledger.object(0) == None);
}

// Whether the book has 2,000 objects, of which 1,000 are object 1.
fn has_a_thousand_ones(names: &Names) -> bool {
    let objects = names.objects.as_slice();
    let ones = objects.iter().filter(|object| object.0 == 1).count();
    objects.len() == 2_000 && ones == 1_000
}

#[test]
fn two_threads_add_to_the_book(rt: HostRuntime) {
    let (headers, first, second) = open_two(&rt, rt.alloc());
    let (one, two) = join(
        &rt,
        || add_often(&headers, first, ObjectId(1), 1_000),
        || add_often(&headers, second, ObjectId(2), 1_000),
    );
    assert!(rt; (one.0, two.0) == (1_000, 1_000));
    let (first, second) = headers.meet(one.1, two.1);
    let (_, names) = close_two(&rt, rt.alloc(), headers, first, second);
    assert!(rt; has_a_thousand_ones(&names));
}
