//! A live script, played on a service of its own.

ghost use Rattle.std.specs.Prelude.{◌≡◌, All, IfOk, IfErr, length, map, string_bytes, vec_items};
ghost use Rattle.header_words.specs.Passes.{new_passes};
ghost use Rattle.live_scripts.specs.LivePlans.{IsPlanOf};
ghost use Rattle.live_scripts.specs.Plans.{calls_of, lows_of, monitors_in, objects_of};
ghost use Rattle.live_scripts.specs.Rules.{IsLiveScript, attached_threads};
ghost use Rattle.live_turns.specs.Ends.{IsEnd};
ghost use Rattle.live_turns.specs.Numbers.{HasEach};
ghost use Rattle.live_turns.specs.Ways.{new_holding};
ghost use Rattle.live_threads.specs.Ends.{at_rest, numbers_of};
ghost use Rattle.live_runs.specs.Faults.{IsOfClose, IsOfRun};
ghost use Rattle.live_runs.specs.Runs.{IsLiveRun};

use crate::RunFault;
use crate::texts::live_text;
use crate::works::{taken_apart, works_of};
use live_scripts::{LivePlan, LiveScript, plan_of};
use live_threads::{Gate, Live, LiveClose, LivePass, Work, drive};
use live_turns::{Closed, Crew};
use std::alloc::Global;
use std::marker::Brand;
use std::sync::Wait;
use std::sync::ledger::Blank;
use std::thread::Threads;
use std::time::Clock;
use text_streams::FileFault;

/// How many deeds the record of a run has room for.
const PLACES: u32 = 65_536;

/// Lets every call be made.
struct Open;

impl Gate for Open {
    fn before(&self, _worker: usize, _call: usize) -> bool {
        true
    }

    fn after(&self, _worker: usize, _call: usize) {}
}

/// Runs a live script, each of its threads on a thread of the system, and tells what came of it.
/// Where its threads wait for each other for ever, so does this.
pub fn run_script<R: Threads + Wait + Clock + Sync>(
    rt: &R,
    alloc: Global,
    script: &LiveScript<'_>,
) -> Result<String, RunFault>
    ensures run { IfOk result (λ text. IsLiveRun script.now (string_bytes text)) }
    ensures fault { IfErr result (IsOfRun script.now) }
{
    let plan = plan_of(alloc, script)?;
    let passes = plan.threads.len() as u16;
    play::<Brand, R>(
        rt,
        alloc,
        Blank::new(u64::from(passes)),
        script,
        plan,
        passes,
    )
}

/// Runs a live script that has this plan, with so many threads.
fn play<L: Crew + Send + Sync, R: Threads + Wait + Clock + Sync>(
    rt: &R,
    alloc: Global,
    blank: Blank,
    script: &LiveScript<'_>,
    plan: LivePlan<'_>,
    passes: u16,
) -> Result<String, RunFault>
    requires name { blank.name ≡ L.name }
    requires parts { (blank.parts ≡ L.parts) × (L.parts ≡ passes) }
    requires crew { (L.passes ≡ passes) × (L.monitors ≡ plan.monitors) × (L.places ≡ 65536) }
    requires script { IsLiveScript script.now }
    requires plan { IsPlanOf script.now plan }
    requires threads { length plan.threads.items ≡ passes }
    ensures run { IfOk result (λ text. IsLiveRun script.now (string_bytes text)) }
    ensures fault { IfErr result (IsOfRun script.now) }
{
    let LivePlan {
        monitors,
        lows,
        calls,
        ..
    } = plan;
    let (live, passes) = Live::<L>::open(alloc, blank, &lows, monitors, passes, PLACES)?;
    let works = works_of(alloc, passes, calls)?;
    drive_all(rt, alloc, script, live, works)
}

/// Drives the works of a live script on its service, and closes it.
fn drive_all<L: Crew + Send + Sync, R: Threads + Wait + Clock + Sync>(
    rt: &R,
    alloc: Global,
    script: &LiveScript<'_>,
    live: Live<L>,
    works: Vec<Work<L>>,
) -> Result<String, RunFault>
    requires script { IsLiveScript script.now }
    requires lows { live.lows ≡ lows_of script.now }
    requires threads { live.count ≡ length (attached_threads script.now) }
    requires crew { (L.parts ≡ live.count) × (L.passes ≡ live.count)
        × (L.monitors ≡ monitors_in script.now) }
    requires passes { map (λ w. w.pass) works.items
        ≡ map new_holding (new_passes live 1 live.count) }
    requires calls { map (λ w. vec_items w.calls) works.items
        ≡ map (λ t. calls_of (objects_of script.now) (attached_threads script.now) t script.now)
        (attached_threads script.now) }
    ensures run { IfOk result (λ text. IsLiveRun script.now (string_bytes text)) }
    ensures fault { IfErr result (IsOfRun script.now) }
{
    let Ok(worked) = drive(rt, alloc, &live, works, &Open) else {
        return Err(RunFault::File(FileFault::Memory));
    };
    let (passes, told) = taken_apart(alloc, worked)?;
    let closed = end_of(alloc, live, passes)?;
    Ok(live_text(alloc, script, &told, &closed)?)
}

/// Closes the service of a run, of which each pass is there.
fn end_of<L: Crew>(
    alloc: Global,
    live: Live<L>,
    passes: Vec<LivePass<L>>,
) -> Result<Closed, RunFault>
    requires belong { All (λ p. p.words.opening ≡ live) passes.items }
    requires crew { (L.parts ≡ live.count) × (L.passes ≡ live.count) }
    requires back { HasEach live.count (numbers_of passes.items) }
    ensures end { IfOk result (IsEnd live L.monitors (map at_rest passes.items)) }
    ensures fault { IfErr result (IsOfClose live L.monitors (map at_rest passes.items)) }
{
    match live.close(alloc, passes) {
        Ok(closed) => Ok(closed),
        Err(LiveClose::WrongPass { .. }) => unreachable!(),
        Err(LiveClose::Memory { .. }) => Err(RunFault::File(FileFault::Memory)),
        Err(LiveClose::Torn) => Err(RunFault::Torn),
    }
}
