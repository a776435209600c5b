//! Calls of two threads that wait until they have their reply, and moments. Each scene is a table
//! of what the threads do, which one function plays: one thread after the other (here), or both at
//! once (`meeting`).

ghost use Rattle.std.specs.Prelude.{◌≡◌, IfOk};
ghost use Rattle.std.specs.List.{All};

mod meeting;
mod memory;
mod signs;
mod steps;
mod works;

use crate::threads::signs::Signs;
use crate::threads::steps::{Step, are_done};
use fast_path::Call;
use fat_monitor::{Cause, Reply};
use live_threads::{Live, LiveClose, LivePass};
use live_turns::{Closed, Crew, LiveFault};
use lock_word::{Memory, ObjectId, ThreadId, Word};
use std::alloc::Global;
use std::marker::Brand;
use std::process::Abort;
use std::sync::Wait;
use std::sync::ledger::Blank;
use std::test::Fail;
use std::time::Clock;

pub(crate) const OBJECT: ObjectId = ObjectId(0);

pub(crate) const ENTER: Step = Step::Makes(Call::Enter(OBJECT), Reply::Entered);

pub(crate) const EXIT: Step = Step::Makes(Call::Exit(OBJECT), Reply::Exited);

/// A wait of no limit.
pub(crate) const WAIT: Call = Call::Wait {
    object: OBJECT,
    millis: 0,
    nanos: 0,
};

/// Opens a service of one object, two passes, and so many monitors and places.
pub(crate) fn open_two<L: Crew>(
    alloc: Global,
    blank: Blank,
    low: u8,
    monitors: u16,
    places: u32,
) -> Result<(Live<L>, LivePass<L>, LivePass<L>), Memory>
    requires name { blank.name ≡ L.name }
    requires parts { (blank.parts ≡ L.parts) × (L.parts ≡ 2) }
    requires crew { (L.passes ≡ 2) × (L.monitors ≡ monitors) × (L.places ≡ places) }
    ensures count { IfOk result (λ r. r.0.count ≡ 2) }
    ensures first { IfOk result (λ r. r.1.words.opening ≡ r.0) }
    ensures second { IfOk result (λ r. r.2.words.opening ≡ r.0) }
{
    let monitors = u32::from(monitors);
    let (live, mut passes) = Live::<L>::open(alloc, blank, &[low], monitors, 2, places)?;
    let Some(second) = passes.pop() else {
        unreachable!()
    };
    let Some(first) = passes.pop() else {
        unreachable!()
    };
    Ok((live, first, second))
}

/// The word of the one object of a closed service, and how many deeds both its passes did.
fn word_and_deeds(closed: &Closed) -> Result<(Word, u64), Fail> {
    let word = closed.words.first().ok_or("one object")?;
    let first = closed.counts.first().ok_or("two passes")?;
    let second = closed.counts.get(1).ok_or("two passes")?;
    Ok((*word, first.wrapping_add(*second)))
}

/// Closes a service with one of its passes alone, which is refused: both come back.
fn close_too_early<L: Crew>(
    alloc: Global,
    live: Live<L>,
    pass: LivePass<L>,
) -> Result<(Live<L>, LivePass<L>), Fail>
    requires here { pass.words.opening ≡ live }
    requires crew { (L.parts ≡ live.count) × (L.passes ≡ live.count) }
    ensures live { IfOk result (λ r. r.0 ≡ live) }
    ensures pass { IfOk result (λ r. r.1.words.opening ≡ live) }
{
    let one = vec![in alloc; pass]?;
    let Err(LiveClose::WrongPass { live, mut passes }) = live.close(alloc, one) else {
        return Err(Fail::from("a pass is missing"));
    };
    match passes.pop() {
        Some(pass) => Ok((live, pass)),
        None => Err(Fail::from("the pass comes back")),
    }
}

/// Closes a service with all its passes, and tells the word of its one object and the deeds of all.
fn close<L: Crew>(
    alloc: Global,
    live: Live<L>,
    passes: Vec<LivePass<L>>,
) -> Result<(Word, u64), Fail>
    requires belong { All (λ p. p.words.opening ≡ live) passes.items }
    requires crew { (L.parts ≡ live.count) × (L.passes ≡ live.count) }
{
    match live.close(alloc, passes) {
        Ok(closed) => word_and_deeds(&closed),
        Err(_) => Err(Fail::from("not closed")),
    }
}

/// Closes a service of two passes, the first time with one of them alone.
pub(crate) fn close_both<L: Crew>(
    alloc: Global,
    live: Live<L>,
    first: LivePass<L>,
    second: LivePass<L>,
) -> Result<(Word, u64), Fail>
    requires first { first.words.opening ≡ live }
    requires second { second.words.opening ≡ live }
    requires crew { (L.parts ≡ live.count) × (L.passes ≡ live.count) }
{
    let (live, first) = close_too_early(alloc, live, first)?;
    close(alloc, live, vec![in alloc; first, second]?)
}

/// One of the two threads, by its number.
#[derive(Clone, Copy, PartialEq, Eq)]
enum Who {
    First,
    Second,
}

/// What two threads do one after the other on one object; and what the close leaves of it, the word
/// of the object and how many deeds there were.
#[derive(Clone, Copy)]
struct Scene {
    low: u8,
    monitors: u16,
    places: u32,
    acts: &'static [(Who, &'static [Step])],
    leaves: (Word, u64),
}

/// Each thread takes its steps in turn.
fn go_through<L: Crew, R: Abort + Wait + Clock>(
    rt: &R,
    live: &Live<L>,
    first: &mut LivePass<L>,
    second: &mut LivePass<L>,
    acts: &[(Who, &[Step])],
)
    requires first { first.old.words.opening ≡ live.now }
    requires second { second.old.words.opening ≡ live.now }
    ensures first { first.new.words.opening ≡ live.now }
    ensures second { second.new.words.opening ≡ live.now }
{
    let signs = &Signs::new();
    for &(who, steps) in acts {
        match who {
            Who::First => are_done(rt, rt, live, first, signs, steps),
            Who::Second => are_done(rt, rt, live, second, signs, steps),
        }
    }
}

/// Opens a service, plays a scene, and closes the service.
fn play<L: Crew, R: Abort + Wait + Clock>(
    rt: &R,
    alloc: Global,
    blank: Blank,
    scene: Scene,
) -> Result<(), Fail>
    requires name { blank.name ≡ L.name }
    requires parts { (blank.parts ≡ L.parts) × (L.parts ≡ 2) }
    requires crew { (L.passes ≡ 2) × (L.monitors ≡ scene.monitors) × (L.places ≡ scene.places) }
{
    let Scene {
        low,
        monitors,
        places,
        acts,
        leaves,
    } = scene;
    let (live, mut first, mut second) = open_two::<L>(alloc, blank, low, monitors, places)?;
    assert!(rt; first.thread() == ThreadId(1));
    go_through(rt, &live, &mut first, &mut second, acts);
    let left = close_both(alloc, live, first, second)?;
    assert!(rt; left == leaves);
    Ok(())
}

const OTHER_OBJECT: ObjectId = ObjectId(1);

const NO_MONITOR: Reply = Reply::Refused(Cause::NoMonitor);

/// A wait whose time is out of its range.
const BAD_WAIT: Call = Call::Wait {
    object: OBJECT,
    millis: -1,
    nanos: 0,
};

/// A wait binds its monitor, and finds too few places for its action. Of two places, none is left
/// to ask; its owner leaves all the same.
const TWO_PLACES: Scene = Scene {
    low: 0xa5,
    monitors: 1,
    places: 2,
    acts: &[(
        Who::First,
        &[
            ENTER,
            Step::Fails(WAIT, LiveFault::RecordFull),
            Step::Finds(1),
            Step::Fails(Call::Holds(OBJECT), LiveFault::RecordFull),
            EXIT,
        ],
    )],
    leaves: (Word(0x8000_00a5), 2),
};

/// Of three places, there is one to ask.
const THREE_PLACES: Scene = Scene {
    low: 0xa5,
    monitors: 1,
    places: 3,
    acts: &[(
        Who::First,
        &[
            ENTER,
            Step::Fails(WAIT, LiveFault::RecordFull),
            Step::Finds(1),
            Step::Makes(Call::Holds(OBJECT), Reply::Yes),
            EXIT,
        ],
    )],
    leaves: (Word(0x8000_00a5), 3),
};

/// Calls that name what is not there, and a moment that would fall.
const NOT_THERE: Scene = Scene {
    low: 0xa5,
    monitors: 1,
    places: 10,
    acts: &[
        (
            Who::First,
            &[
                Step::Fails(Call::Enter(OTHER_OBJECT), LiveFault::NoObject),
                Step::Fails(Call::Interrupt(ThreadId(3)), LiveFault::NoThread),
                Step::Tells(5, Ok(())),
            ],
        ),
        (Who::Second, &[Step::Tells(4, Err(LiveFault::Backwards))]),
    ],
    leaves: (Word(0xa5), 1),
};

/// The calls of an owner, whom another thread interrupts: two deeds of that one; and of the owner a
/// bind, a wait, a question and an exit.
const INTERRUPTED: Scene = Scene {
    low: 0xa5,
    monitors: 1,
    places: 10,
    acts: &[
        (
            Who::First,
            &[ENTER, Step::Makes(Call::NotifyAll(OBJECT), Reply::Notified)],
        ),
        (
            Who::Second,
            &[
                Step::Makes(Call::Interrupt(ThreadId(1)), Reply::Done),
                Step::Makes(Call::IsInterrupted(ThreadId(1)), Reply::Yes),
            ],
        ),
        (
            Who::First,
            &[
                Step::Makes(WAIT, Reply::Interrupted),
                Step::Makes(Call::Interrupted, Reply::No),
                EXIT,
            ],
        ),
    ],
    leaves: (Word(0x8000_00a5), 6),
};

/// As many enters, and then as many exits, of an object; between them calls that need a monitor, of
/// which there is none.
const WITHOUT_MONITORS: Scene = Scene {
    low: 0,
    monitors: 0,
    places: 300,
    acts: &[
        (Who::First, &[ENTER; 256]),
        (
            Who::First,
            &[
                Step::Makes(Call::Enter(OBJECT), NO_MONITOR),
                Step::Makes(BAD_WAIT, Reply::IllegalArgument),
                Step::Makes(WAIT, NO_MONITOR),
            ],
        ),
        (Who::First, &[EXIT; 256]),
    ],
    leaves: (Word(0), 0),
};

const SCENES: [Scene; 5] = [
    TWO_PLACES,
    THREE_PLACES,
    NOT_THERE,
    INTERRUPTED,
    WITHOUT_MONITORS,
];

#[test]
fn one_thread_after_the_other(rt: HostRuntime) -> Result<(), Fail> {
    for scene in SCENES {
        play::<Brand, _>(&rt, rt.alloc(), Blank::new(2), scene)?;
    }
    Ok(())
}
