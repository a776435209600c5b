//! The most objects, monitors and passes that a service can have, and its longest record; and
//! (`driven`) calls that one thread drives.

ghost use Rattle.std.specs.Prelude.{◌≡◌, ◌≤◌};

mod driven;

use live_turns::{Closed, Crew, TurnPass, Turns};
use lock_word::{ThreadId, Word};
use std::alloc::Global;
use std::marker::Brand;
use std::process::Abort;
use std::sync::ledger::Blank;
use std::test::Fail;

/// How large a service is.
#[derive(Clone, Copy)]
struct Size {
    objects: u16,
    monitors: u32,
    passes: u16,
    places: u32,
}

/// The passes are for the threads 1 to this one.
fn are_numbered<L: Crew>(rt: &impl Abort, passes: &[TurnPass<L>], count: u16) {
    assert!(rt; passes.len() == usize::from(count));
    let last = passes.last().map(|pass| pass.thread());
    assert!(rt; last == Some(ThreadId(u32::from(count))));
}

/// A closed service was of this size, and no deed was done.
fn is_untouched(rt: &impl Abort, closed: &Closed, size: Size) {
    assert!(rt; closed.words.len() == usize::from(size.objects));
    assert!(rt; closed.words.iter().all(|word| *word == Word(0x0000_00a5)));
    assert!(rt; closed.logged.is_empty());
    assert!(rt; closed.counts.len() == usize::from(size.passes));
}

/// Opens a service of this size, and closes it again.
fn opened_and_closed<L: Crew>(
    rt: &impl Abort,
    alloc: Global,
    blank: Blank,
    size: Size,
) -> Result<(), Fail>
    requires name { blank.name ≡ L.name }
    requires parts { (blank.parts ≡ L.parts) × (L.parts ≡ size.passes) }
    requires crew { (L.passes ≡ size.passes) × (L.monitors ≡ size.monitors)
        × (L.places ≡ size.places) }
    requires some { 1 ≤ size.passes }
    requires few { size.passes ≤ 64 }
    requires monitors { size.monitors ≤ 8388608 }
{
    let Size {
        objects,
        monitors,
        passes: count,
        places,
    } = size;
    let lows = vec![in alloc; 0xa5u8; usize::from(objects)]?;
    let (turns, passes) = Turns::<L>::open(alloc, blank, lows.as_slice(), monitors, count, places)?;
    are_numbered(rt, &passes, count);
    let Ok(closed) = turns.close(alloc, passes) else {
        return Err(Fail::from("not closed"));
    };
    is_untouched(rt, &closed, size);
    Ok(())
}

#[test]
fn the_most_objects_monitors_and_passes(rt: HostRuntime) -> Result<(), Fail> {
    let size = Size {
        objects: 65_535,
        monitors: 8_388_608,
        passes: 64,
        places: 1_000,
    };
    opened_and_closed::<Brand>(&rt, rt.alloc(), Blank::new(64), size)
}

#[test]
fn the_longest_record(rt: HostRuntime) -> Result<(), Fail> {
    let size = Size {
        objects: 1,
        monitors: 1,
        passes: 2,
        places: 1_048_576,
    };
    opened_and_closed::<Brand>(&rt, rt.alloc(), Blank::new(2), size)
}
