//! What a worker is to call.

ghost use Rattle.std.specs.Prelude.{IfOk};
ghost use Rattle.std.specs.List.{All};
ghost use Rattle.live_threads.specs.Driving.{IsLive};

use crate::seeds::Seed;
use fast_path::Call;
use lock_word::{Memory, ObjectId, ThreadId};
use std::alloc::Global;

/// How many objects a service has.
pub const OBJECTS: u32 = 4;

/// How many calls a worker makes.
pub const CALLS: usize = 10_000;

/// How many calls a task makes at most.
const LONGEST_TASK: usize = 610;

/// How often the deepest task enters its object: more often than a thin word counts.
const DEEP: u32 = 300;

/// The calls of a worker. No thread of the service ends.
#[derive(Drop)]
pub struct Plan {
    pub calls: Vec<Call>,
    ghost live: { All IsLive calls.items },
}

impl Plan {
    /// The same calls, once more.
    pub fn copy(&self, alloc: Global) -> Result<Vec<Call>, Memory>
        ensures { IfOk result (λ calls. All IsLive calls.items) }
    {
        let mut calls = Vec::with_capacity(alloc, self.calls.len())?;
        calls.extend_from_slice(&self.calls)?;
        Ok(calls)
    }

    fn push(&mut self, call: Call) -> Result<(), Memory>
        requires { IsLive call }
    {
        self.calls.push(call)?;
        Ok(())
    }

    /// So many enters, perhaps a wait, and as many exits.
    fn hold(&mut self, object: ObjectId, times: u32, wait: Option<i64>) -> Result<(), Memory> {
        for _ in 0..times {
            self.push(Call::Enter(object))?;
        }
        if let Some(millis) = wait {
            self.push(Call::Wait {
                object,
                millis,
                nanos: 0,
            })?;
        }
        for _ in 0..times {
            self.push(Call::Exit(object))?;
        }
        Ok(())
    }

    /// An object, and within it one with a higher number, so that no two workers wait for each
    /// other.
    fn hold_two(&mut self, seed: &mut Seed) -> Result<(), Memory> {
        let outer = seed.below(OBJECTS - 1);
        let inner = outer + 1 + seed.below(OBJECTS - 1 - outer);
        self.push(Call::Enter(ObjectId(outer)))?;
        self.hold(ObjectId(inner), 1, None)?;
        self.push(Call::Exit(ObjectId(outer)))
    }

    /// A call that tells those who wait for an object.
    fn tell(&mut self, object: ObjectId, all: bool) -> Result<(), Memory> {
        self.push(Call::Enter(object))?;
        let call = if all {
            Call::NotifyAll(object)
        } else {
            Call::Notify(object)
        };
        self.push(call)?;
        self.push(Call::Exit(object))
    }

    /// One task at random.
    fn task(&mut self, seed: &mut Seed, threads: u16) -> Result<(), Memory> {
        let object = ObjectId(seed.below(OBJECTS));
        let thread = ThreadId(1 + seed.below(u32::from(threads).max(1)));
        match seed.below(400) {
            0 => self.hold(object, DEEP, None),
            1 => self.hold(object, DEEP, Some(1)),
            2..=9 => self.hold(object, 1, Some(0)),
            10..=39 => self.hold(object, 1, Some(i64::from(1 + seed.below(3)))),
            40..=79 => self.tell(object, false),
            80..=119 => self.tell(object, true),
            120..=159 => self.hold_two(seed),
            160..=219 => self.hold(object, 2 + seed.below(4), None),
            220..=229 => self.push(Call::Interrupt(thread)),
            230..=249 => self.push(Call::IsInterrupted(thread)),
            250..=279 => self.push(Call::Interrupted),
            280..=299 => self.push(Call::Holds(object)),
            _ => self.hold(object, 1, None),
        }
    }
}

/// The calls of each worker, where one of the threads is no worker.
pub fn plans_of(alloc: Global, round: u32, threads: u16) -> Result<Vec<Plan>, Memory> {
    let mut plans = Vec::new(alloc);
    for worker in 1..threads {
        plans.push(plan_of(alloc, round, worker, threads)?)?;
    }
    Ok(plans)
}

/// The calls of a worker in a round with so many threads: tasks at random, and then questions.
fn plan_of(alloc: Global, round: u32, worker: u16, threads: u16) -> Result<Plan, Memory> {
    let mut seed = Seed::new(round, worker);
    let mut plan = Plan {
        calls: Vec::with_capacity(alloc, CALLS)?,
    };
    for _ in 0..CALLS {
        if plan.calls.len() + LONGEST_TASK > CALLS {
            break;
        }
        plan.task(&mut seed, threads)?;
    }
    for _ in plan.calls.len()..CALLS {
        plan.push(Call::Holds(ObjectId(seed.below(OBJECTS))))?;
    }
    Ok(plan)
}
