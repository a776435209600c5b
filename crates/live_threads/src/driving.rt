//! Works that are driven side by side, each by a thread of its own.

ghost use Rattle.std.specs.Prelude.{◌≡◌, ◌≤◌, ◌<◌, ◌+◌, ◌++◌, ◌∷◌, IfOk, IfErr, IfSome, IfNone, [], length, map, reverse, vec_capacity};
ghost use Rattle.std.specs.List.{All};
ghost use Rattle.live_threads.specs.Driving.{Called, CanDrive, Driven, AllDriven, HandsBack, IsLive};

use crate::{Live, LivePass};
use crossbeam_utils::atomic::AtomicCell;
use fast_path::{Call, Subject};
use fat_monitor::Reply;
use live_turns::{Crew, LiveFault};
use lock_word::Memory;
use std::alloc::Global;
use std::snapshot::Snapshot;
use std::sync::Wait;
use std::thread;
use std::thread::{Promise, Scope, Threads};
use std::time::Clock;

/// Asked before each call of a worker, and told after it. Workers are numbered from 0 on, as the
/// works that they were given, and the calls of each from 1 on.
pub trait Gate {
    /// Whether the worker is to make the call; it is stopped where not.
    fn before(&self, worker: usize, call: usize) -> bool;

    fn after(&self, worker: usize, call: usize);
}

/// Calls to make with a pass, one after another. None of them is an End: threads of the service do
/// not end.
#[derive(Drop)]
pub struct Work<L: Crew> {
    pub pass: LivePass<L>,
    pub calls: Vec<Call>,
}

/// The pass of a work, and what its calls came to, in order.
#[derive(Drop)]
pub struct Worked<L: Crew> {
    pub pass: LivePass<L>,
    pub answers: Vec<Result<Reply, LiveFault>>,
    /// Whether the driver's gate stopped the work, or no thread could be started for it.
    pub stopped: bool,
}

/// Why no work was driven.
#[derive(Drop)]
pub enum DriveFault<L: Crew> {
    /// The system refused memory before a thread was started. The works come back as they were.
    Memory { works: Vec<Work<L>> },
}

// A work, with room for its answers.
#[derive(Drop)]
struct Job<L: Crew> {
    work: Work<L>,
    answers: Vec<Result<Reply, LiveFault>>,
    ghost none: { answers.items ≡ [] },
    ghost room: { length work.calls.items ≤ vec_capacity answers },
}

impl<L: Crew> Live<L> {
    // A call of a live thread.
    fn call<R: Wait + Clock>(
        &self,
        rt: &R,
        pass: &mut LivePass<L>,
        call: Call,
    ) -> Result<Reply, LiveFault>
        requires here { pass.old.words.opening ≡ self.now }
        requires live { IsLive call }
        ensures called { Called self.now call result pass.old pass.new }
        ensures here { pass.new.words.opening ≡ self.now }
    {
        match call.subject() {
            Subject::Monitor(call) => self.call_on(rt, pass, call),
            Subject::Interrupt(call) => self.call_about(rt, pass, call),
            Subject::End => unreachable!(),
        }
    }
}

// The calls of one worker, in order. A flag that is set stops it before its first.
fn work_through<L: Crew, G: Gate, R: Wait + Clock>(
    rt: &R,
    live: &Live<L>,
    gate: &G,
    worker: usize,
    halted: &AtomicCell<bool>,
    job: Job<L>,
) -> Worked<L>
    requires can { CanDrive live.now job.work }
    ensures driven { Driven live.entry.now job.work result }
{
    let Job { work, mut answers } = job;
    let Work { mut pass, calls } = work;
    if halted.load() {
        let stopped = true;
        return Worked {
            pass,
            answers,
            stopped,
        };
    }
    let mut number = 0;
    for call in &calls {
        number += 1;
        if !gate.before(worker, number) {
            let stopped = true;
            return Worked {
                pass,
                answers,
                stopped,
            };
        }
        let answer = live.call(rt, &mut pass, *call);
        answers.push_reserved(answer);
        gate.after(worker, number);
    }
    let stopped = false;
    Worked {
        pass,
        answers,
        stopped,
    }
}

// What a worker promises.
#[derive(Drop)]
struct WorkOf<'a, L: Crew> {
    live: &'a Live<L>,
    work: Snapshot<Work<L>>,
}

impl<'a, L: Crew> Promise<Worked<L>> for WorkOf<'a, L> {
    ghost kept_by = { λ p d. Driven p.live.now p.work.value d };
}

// The last job, if there is one.
fn last_job<L: Crew>(live: &Live<L>, jobs: &mut Vec<Job<L>>) -> Option<Job<L>>
    requires can { All (λ j. CanDrive live.now j.work) jobs.old.items }
    ensures can { IfSome result (λ j. CanDrive live.entry.now j.work) }
    ensures others { All (λ j. CanDrive live.entry.now j.work) jobs.new.items }
    ensures items { IfSome result (λ j. jobs.old.items ≡ jobs.new.items ++ j ∷ []) }
    ensures none { IfNone result (jobs.old.items ≡ []) }
{
    jobs.pop()
}

// Starts a worker for each job, from the last to the first, and then joins them, from the first to
// the last. Where no thread can be started, the work is done here, and its flag stops it at once.
fn start_all<'s, E, L: Crew + Send + Sync, G: Gate + Sync, R: Threads + Wait + Clock + Sync>(
    rt: &'s R,
    scope: &'s Scope<'s, E>,
    live: &'s Live<L>,
    gate: &'s G,
    flags: &'s [AtomicCell<bool>],
    mut jobs: Vec<Job<L>>,
    done: Vec<Worked<L>>,
) -> Vec<Worked<L>>
    requires can { All (λ j. CanDrive live.now j.work) jobs.items }
    requires flags { length jobs.items ≤ length flags.now }
    requires none { done.items ≡ [] }
    requires room { length jobs.items ≤ vec_capacity done }
    ensures driven { AllDriven live.now (map (λ j. j.work) jobs.items) result.items }
    ensures room { vec_capacity result ≡ vec_capacity done }
    ensures count { length result.items ≡ length jobs.items }
{
    let Some(job) = last_job(live, &mut jobs) else {
        return done;
    };
    let worker = jobs.len();
    let halted = &flags[worker];
    let promise = WorkOf {
        live,
        work: Snapshot::of(&job.work),
    };
    let started = scope.spawn_with(
        promise,
        move || work_through(rt, live, gate, worker, halted, job),
    );
    if started.is_err() {
        halted.store(true);
    }
    let mut done = start_all(rt, scope, live, gate, flags, jobs, done);
    let worked = match started {
        Ok(child) => child.join(rt),
        Err(refused) => (refused.value)(),
    };
    done.push_reserved(worked);
    done
}

// As many flags, none of which is set.
fn new_flags(alloc: Global, count: usize) -> Result<Vec<AtomicCell<bool>>, Memory>
    ensures { IfOk result (λ v. length v.items ≡ count) }
{
    let mut flags = Vec::with_capacity(alloc, count)?;
    for _ in 0..count {
        flags.push_reserved(AtomicCell::new(false));
    }
    Ok(flags)
}

// The works, with those of the jobs behind them, from the last to the first.
#[tactic(auto, using(crate::proofs::Drives::moved_back))]
fn taken_back<L: Crew>(mut works: Vec<Work<L>>, mut jobs: Vec<Job<L>>) -> Vec<Work<L>>
    requires room { length works.items + length jobs.items ≤ vec_capacity works }
    ensures { result.items ≡ works.items ++ reverse (map (λ j. j.work) jobs.items) }
{
    while let Some(job) = jobs.pop() {
        works.push_reserved(job.work);
    }
    works
}

// The last work, if there is one.
fn last_work<L: Crew>(works: &mut Vec<Work<L>>) -> Option<Work<L>>
    ensures items { IfSome result (λ w. works.old.items ≡ works.new.items ++ w ∷ []) }
    ensures none { IfNone result (works.old.items ≡ []) }
    ensures room { vec_capacity works.new ≡ vec_capacity works.old }
{
    works.pop()
}

// These works, each with room for its answers. Where the system refuses some, the works come back.
#[tactic(auto, using(crate::proofs::Drives::moved_on))]
fn with_answers<L: Crew>(
    alloc: Global,
    mut works: Vec<Work<L>>,
    mut jobs: Vec<Job<L>>,
) -> Result<Vec<Job<L>>, Vec<Work<L>>>
    requires none { jobs.items ≡ [] }
    requires room { length works.items ≤ vec_capacity jobs }
    ensures jobs { IfOk result (λ js. map (λ j. j.work) js.items ≡ works.items) }
    ensures back { IfErr result (λ ws. ws.items ≡ works.items) }
{
    while let Some(work) = last_work(&mut works) {
        let Ok(answers) = Vec::with_capacity(alloc, work.calls.len()) else {
            works.push_reserved(work);
            return Err(taken_back(works, jobs));
        };
        jobs.push_reserved(Job { work, answers });
    }
    jobs.reverse();
    Ok(jobs)
}

// Drives these jobs, each by a thread of its own.
fn drive_jobs<L: Crew + Send + Sync, G: Gate + Sync, R: Threads + Wait + Clock + Sync>(
    rt: &R,
    live: &Live<L>,
    gate: &G,
    flags: &[AtomicCell<bool>],
    jobs: Vec<Job<L>>,
    done: Vec<Worked<L>>,
) -> Vec<Worked<L>>
    requires can { All (λ j. CanDrive live.now j.work) jobs.items }
    requires flags { length jobs.items ≤ length flags.now }
    requires none { done.items ≡ [] }
    requires room { length jobs.items ≤ vec_capacity done }
    ensures driven { AllDriven live.entry.now (map (λ j. j.work) jobs.items) result.items }
{
    thread::scope(
        thread::scope_env(),
        rt,
        move |scope| -> Vec<Worked<L>>
            requires can { All (λ j. CanDrive live.now j.work) jobs.items }
            requires flags { length jobs.items ≤ length flags.now }
            requires none { done.items ≡ [] }
            requires room { length jobs.items ≤ vec_capacity done }
            ensures driven { AllDriven live.entry.now (map (λ j. j.work) jobs.items) result.items }
        { start_all(rt, scope, live, gate, flags, jobs, done) },
    )
}

/// Drives each work by a thread of its own, which asks the driver's gate before each of its calls,
/// and comes back once all are done, with the works' passes and answers in the order of the works.
/// Where no thread can be started for a work, it makes no call and is stopped.
pub fn drive<L: Crew + Send + Sync, G: Gate + Sync, R: Threads + Wait + Clock + Sync>(
    rt: &R,
    alloc: Global,
    live: &Live<L>,
    works: Vec<Work<L>>,
    gate: &G,
) -> Result<Vec<Worked<L>>, DriveFault<L>>
    requires can { All (CanDrive live.now) works.items }
    ensures driven { IfOk result (λ v. AllDriven live.entry.now works.items v.items) }
    ensures here { IfOk result (λ v. All (λ d. d.pass.words.opening ≡ live.entry.now) v.items) }
    ensures numbers { IfOk result (λ v. map (λ d. d.pass.words.index) v.items
        ≡ map (λ w. w.pass.words.index) works.items) }
    ensures back { IfErr result (HandsBack works.items) }
{
    let count = works.len();
    let Ok(flags) = new_flags(alloc, count) else {
        return Err(DriveFault::Memory { works });
    };
    let Ok(done) = Vec::with_capacity(alloc, count) else {
        return Err(DriveFault::Memory { works });
    };
    let Ok(jobs) = Vec::with_capacity(alloc, count) else {
        return Err(DriveFault::Memory { works });
    };
    match with_answers(alloc, works, jobs) {
        Ok(jobs) => Ok(drive_jobs(rt, live, gate, flags.as_slice(), jobs, done)),
        Err(works) => Err(DriveFault::Memory { works }),
    }
}
