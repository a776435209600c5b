//! Want of memory, which only a run with refused allocations meets: what was handed in comes back,
//! and the same succeeds when it is tried again. A run in which nothing is refused looks at the
//! answers.

ghost use Rattle.std.specs.Prelude.{◌≡◌, IfOk, length, ◌∷◌, []};
ghost use Rattle.std.specs.List.{All};
ghost use Rattle.live_threads.specs.Driving.{CanDrive, IsLive};

use crate::threads::OBJECT;
use crate::threads::works::Open;
use fast_path::Call;
use fat_monitor::Reply;
use live_threads::{DriveFault, Live, LiveClose, LivePass, Work, Worked, drive};
use live_turns::{Closed, Crew};
use lock_word::{Memory, Word};
use std::alloc::Global;
use std::marker::Brand;
use std::process::Abort;
use std::sync::Wait;
use std::sync::ledger::Blank;
use std::test::Fail;
use std::thread::Threads;
use std::time::Clock;

/// Opens a service of one object, one monitor, one pass and ten places.
fn open_one<L: Crew>(alloc: Global, blank: Blank) -> Result<(Live<L>, LivePass<L>), Memory>
    requires name { blank.name ≡ L.name }
    requires parts { (blank.parts ≡ L.parts) × (L.parts ≡ 1) }
    requires crew { (L.passes ≡ 1) × (L.monitors ≡ 1) × (L.places ≡ 10) }
    ensures count { IfOk result (λ r. r.0.count ≡ 1) }
    ensures here { IfOk result (λ r. r.1.words.opening ≡ r.0) }
{
    let (live, mut passes) = Live::<L>::open(alloc, blank, &[0xa5], 1, 1, 10)?;
    let Some(pass) = passes.pop() else {
        unreachable!()
    };
    Ok((live, pass))
}

/// A work of one call.
fn one_work<L: Crew>(
    alloc: Global,
    live: &Live<L>,
    pass: LivePass<L>,
) -> Result<Vec<Work<L>>, Memory>
    requires here { pass.words.opening ≡ live.now }
    ensures can { IfOk result (λ ws. All (CanDrive live.entry.now) ws.items) }
{
    let calls = vec![in alloc; Call::Holds(OBJECT)]?;
    Ok(vec![in alloc; Work { pass, calls }]?)
}

/// Drives one work; where memory is refused, the work comes back, and is driven again.
fn drive_again<L: Crew + Send + Sync, R: Threads + Wait + Clock + Sync + Abort>(
    rt: &R,
    alloc: Global,
    live: &Live<L>,
    works: Vec<Work<L>>,
) -> Result<Vec<Worked<L>>, Fail>
    requires can { All (CanDrive live.now) works.items }
    ensures here { IfOk result (λ v. All (λ d. d.pass.words.opening ≡ live.entry.now) v.items) }
{
    let works = match drive(rt, alloc, live, works, &Open) {
        Ok(worked) => return Ok(worked),
        Err(DriveFault::Memory { works }) => works,
    };
    assert!(rt; works.len() == 1);
    match drive(rt, alloc, live, works, &Open) {
        Ok(worked) => Ok(worked),
        Err(DriveFault::Memory { .. }) => Err(Fail::from("refused twice")),
    }
}

/// A closed service did no deed.
fn did_nothing(rt: &impl Abort, closed: &Closed) {
    assert!(rt; closed.words.first() == Some(&Word(0xa5)));
    assert!(rt; closed.logged.is_empty() && closed.counts.first() == Some(&0));
}

/// Closes a service; where memory is refused, all comes back, and is closed again.
fn close_again<L: Crew, R: Abort>(
    rt: &R,
    alloc: Global,
    live: Live<L>,
    passes: Vec<LivePass<L>>,
) -> Result<Closed, LiveClose<L>>
    requires belong { All (λ p. p.words.opening ≡ live) passes.items }
    requires crew { (L.parts ≡ live.count) × (L.passes ≡ live.count) }
{
    match live.close(alloc, passes) {
        Err(LiveClose::Memory { live, passes }) => {
            assert!(rt; passes.len() == 1);
            live.close(alloc, passes)
        }
        outcome => outcome,
    }
}

/// A worker was stopped before its one call, or the call was answered with a no.
fn came_to_a_no<L: Crew>(rt: &impl Abort, done: &Worked<L>) {
    assert!(rt; done.stopped == done.answers.is_empty());
    for answer in &done.answers {
        assert!(rt; *answer == Ok(Reply::No));
    }
}

/// Looks at what one work came to, and closes its service. Whether it was closed: else a growth was
/// refused that hands nothing back.
fn close_after<L: Crew, R: Abort>(
    rt: &R,
    alloc: Global,
    live: Live<L>,
    done: Worked<L>,
) -> Result<bool, Fail>
    requires here { done.pass.words.opening ≡ live }
    requires crew { (L.parts ≡ live.count) × (L.passes ≡ live.count) }
{
    came_to_a_no(rt, &done);
    let Ok(passes) = vec![in alloc; done.pass] else {
        return Ok(false);
    };
    let Ok(closed) = close_again(rt, alloc, live, passes) else {
        return Err(Fail::from("refused twice, or another fault"));
    };
    did_nothing(rt, &closed);
    Ok(true)
}

/// Drives one work, and closes the service. Whether it was closed: else a growth was refused that
/// hands nothing back.
fn drive_and_close<L: Crew + Send + Sync, R: Threads + Wait + Clock + Sync + Abort>(
    rt: &R,
    alloc: Global,
    live: Live<L>,
    pass: LivePass<L>,
) -> Result<bool, Fail>
    requires here { pass.words.opening ≡ live }
    requires crew { (L.parts ≡ live.count) × (L.passes ≡ live.count) }
{
    let Ok(works) = one_work(alloc, &live, pass) else {
        return Ok(false);
    };
    let mut worked = drive_again(rt, alloc, &live, works)?;
    match worked.pop() {
        Some(done) => close_after(rt, alloc, live, done),
        None => Err(Fail::from("one work")),
    }
}

/// Opens a service, drives one work, and closes the service. Whether it was closed: else a growth
/// was refused that hands nothing back.
fn open_drive_and_close<L: Crew + Send + Sync, R: Threads + Wait + Clock + Sync + Abort>(
    rt: &R,
    alloc: Global,
    blank: Blank,
) -> Result<bool, Fail>
    requires name { blank.name ≡ L.name }
    requires parts { (blank.parts ≡ L.parts) × (L.parts ≡ 1) }
    requires crew { (L.passes ≡ 1) × (L.monitors ≡ 1) × (L.places ≡ 10) }
{
    let Ok((live, pass)) = open_one::<L>(alloc, blank) else {
        return Ok(false);
    };
    drive_and_close(rt, alloc, live, pass)
}

#[test]
fn what_was_refused_comes_back_and_succeeds_again(rt: HostRuntime) -> Result<(), Fail> {
    let is_closed = open_drive_and_close::<Brand, _>(&rt, rt.alloc(), Blank::new(1))?
        || open_drive_and_close::<Brand, _>(&rt, rt.alloc(), Blank::new(1))?;
    assert!(&rt; is_closed, "refused twice");
    Ok(())
}
