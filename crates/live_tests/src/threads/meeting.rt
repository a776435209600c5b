//! Two threads that meet at one object.

ghost use Rattle.std.specs.Prelude.{◌≡◌};

use crate::threads::signs::{Sign, Signs, Stopped};
use crate::threads::steps::{Step, are_done};
use crate::threads::{ENTER, EXIT, OBJECT, WAIT, open_two};
use fast_path::Call;
use fat_monitor::Reply;
use live_threads::{Live, LivePass};
use live_turns::Crew;
use lock_word::ThreadId;
use std::alloc::Global;
use std::marker::Brand;
use std::process::Abort;
use std::sync::Wait;
use std::sync::ledger::Blank;
use std::test::Fail;
use std::thread::{Threads, join};
use std::time::Clock;

/// What two threads do at once.
#[derive(Clone, Copy)]
struct Meeting {
    // The clock of this thread stands still: what it waits for, another thread has to tell it.
    first: &'static [Step],
    second: &'static [Step],
}

/// Both threads take their steps.
fn meet<L: Crew + Send + Sync, R: Threads + Wait + Clock + Sync + Abort>(
    rt: &R,
    live: &Live<L>,
    first: &mut LivePass<L>,
    second: &mut LivePass<L>,
    meeting: Meeting,
)
    requires first { first.old.words.opening ≡ live.now }
    requires second { second.old.words.opening ≡ live.now }
{
    let signs = &Signs::new();
    let stopped = &Stopped { rt, signs };
    join(
        rt,
        || are_done(rt, stopped, live, first, signs, meeting.first),
        || are_done(rt, rt, live, second, signs, meeting.second),
    );
    assert!(rt; signs.was_woken(), "nobody woke the thread that slept");
}

/// Drops a service of two passes, which is not closed.
fn drop_both<L: Crew>(_live: Live<L>, _first: LivePass<L>, _second: LivePass<L>) {}

/// Opens a service of one monitor, in which two threads meet.
fn have_met<L: Crew + Send + Sync, R: Threads + Wait + Clock + Sync + Abort>(
    rt: &R,
    alloc: Global,
    blank: Blank,
    meeting: Meeting,
) -> Result<(), Fail>
    requires name { blank.name ≡ L.name }
    requires parts { (blank.parts ≡ L.parts) × (L.parts ≡ 2) }
    requires crew { (L.passes ≡ 2) × (L.monitors ≡ 1) × (L.places ≡ 40) }
{
    let (live, mut first, mut second) = open_two::<L>(alloc, blank, 0xa5, 1, 40)?;
    meet(rt, &live, &mut first, &mut second, meeting);
    drop_both(live, first, second);
    Ok(())
}

/// A timed wait that is over at the moment 1.
const A_MOMENT: Call = Call::Wait {
    object: OBJECT,
    millis: 0,
    nanos: 1,
};

const FIRST: ThreadId = ThreadId(1);

const SECOND: ThreadId = ThreadId(2);

/// An owner waits a moment, which passes while another thread owns the object.
const WAITS_A_MOMENT: Meeting = Meeting {
    first: &[
        ENTER,
        Step::Gives(Sign::Ready),
        Step::Makes(A_MOMENT, Reply::WaitOver),
        EXIT,
    ],
    second: &[
        Step::Awaits(Sign::Ready),
        ENTER,
        Step::Tells(1, Ok(())),
        EXIT,
    ],
};

/// One thread has the book, and another enters and exits a free object meanwhile.
const HAS_THE_BOOK: Meeting = Meeting {
    first: &[Step::Lends],
    second: &[
        Step::Awaits(Sign::Ready),
        ENTER,
        EXIT,
        Step::Gives(Sign::Done),
    ],
};

/// A tick wakes a thread that sleeps in a timed wait.
const SLEEPS_UNTIL_A_TICK: Meeting = Meeting {
    first: &[ENTER, Step::Makes(A_MOMENT, Reply::WaitOver), EXIT],
    second: &[Step::Awaits(Sign::Asleep), Step::Tells(1, Ok(()))],
};

/// An exit wakes a thread that sleeps in the entry line. The wait of a thread that is interrupted
/// returns at once, and has made the word fat.
const SLEEPS_UNTIL_AN_EXIT: Meeting = Meeting {
    first: &[Step::Awaits(Sign::Ready), ENTER, EXIT],
    second: &[
        Step::Makes(Call::Interrupt(SECOND), Reply::Done),
        ENTER,
        Step::Makes(WAIT, Reply::Interrupted),
        Step::Gives(Sign::Ready),
        Step::Awaits(Sign::Asleep),
        EXIT,
    ],
};

/// A wait wakes a thread that sleeps in the entry line.
const SLEEPS_UNTIL_A_WAIT: Meeting = Meeting {
    first: &[
        Step::Awaits(Sign::Ready),
        ENTER,
        Step::Makes(Call::Notify(OBJECT), Reply::Notified),
        EXIT,
    ],
    second: &[
        Step::Makes(Call::Interrupt(SECOND), Reply::Done),
        ENTER,
        Step::Makes(WAIT, Reply::Interrupted),
        Step::Gives(Sign::Ready),
        Step::Awaits(Sign::Asleep),
        Step::Makes(WAIT, Reply::WaitOver),
        EXIT,
    ],
};

/// An interrupt wakes a thread that sleeps in a wait set.
const SLEEPS_UNTIL_AN_INTERRUPT: Meeting = Meeting {
    first: &[ENTER, Step::Makes(WAIT, Reply::Interrupted), EXIT],
    second: &[
        Step::Awaits(Sign::Asleep),
        Step::Makes(Call::Interrupt(FIRST), Reply::Done),
    ],
};

/// Notified by an owner, a thread that slept in a wait set sleeps on until the owner leaves.
const SLEEPS_UNTIL_THE_NOTIFIER_LEAVES: Meeting = Meeting {
    first: &[ENTER, Step::Makes(WAIT, Reply::WaitOver), EXIT],
    second: &[
        Step::Awaits(Sign::Asleep),
        ENTER,
        Step::Makes(Call::Notify(OBJECT), Reply::Notified),
        EXIT,
    ],
};

const MEETINGS: [Meeting; 7] = [
    WAITS_A_MOMENT,
    HAS_THE_BOOK,
    SLEEPS_UNTIL_A_TICK,
    SLEEPS_UNTIL_AN_EXIT,
    SLEEPS_UNTIL_A_WAIT,
    SLEEPS_UNTIL_AN_INTERRUPT,
    SLEEPS_UNTIL_THE_NOTIFIER_LEAVES,
];

#[test]
fn two_threads_at_once(rt: HostRuntime) -> Result<(), Fail> {
    for meeting in MEETINGS {
        have_met::<Brand, _>(&rt, rt.alloc(), Blank::new(2), meeting)?;
    }
    Ok(())
}
