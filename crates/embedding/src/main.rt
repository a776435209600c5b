//! A small runtime over a [`World`] alone, whose loop `docs/EMBEDDING.md` tells in words: two
//! threads make the calls of a list each, one step at a time in turn, and every step is printed
//! with what it did.
#![tactic(auto)]

use std::io;
use std::io::Print;
use step_core::{
    Answer, Atomic, Call, Did, Doing, Fault, Memory, Move, ObjectId, Split, Step, ThreadId, World,
};
use thiserror::Error;

/// Why the runtime stopped.
#[derive(Debug, Drop, Error)]
enum Trouble {
    #[error("{0}")]
    Memory(#[from] Memory),
    #[error("a step was refused: {0}")]
    Refused(#[from] Fault),
    #[error("the system: {0}")]
    System(#[from] io::Error),
}

/// A thread, its calls and how many of them it has begun, and its next step, unless it is parked or
/// done.
#[derive(Drop)]
struct JavaThread {
    id: ThreadId,
    calls: [Call; 8],
    begun: usize,
    next: Option<Step>,
}

impl JavaThread {
    /// A thread that is to be attached, and then to make these calls.
    fn new(id: ThreadId, calls: [Call; 8]) -> JavaThread {
        JavaThread {
            id,
            calls,
            begun: 0,
            next: Some(Step::Attach { thread: id }),
        }
    }

    /// The step that begins the next of the calls, if there is one more.
    fn begin(&mut self) -> Option<Step> {
        let call = *self.calls.get(self.begun)?;
        self.begun = self.begun.saturating_add(1);
        let thread = self.id;
        Some(Step::Begin { thread, call })
    }
}

#[derive(Drop)]
struct Runtime {
    world: World,
    threads: [JavaThread; 2],
}

impl Runtime {
    /// Goes on until no thread can, and no wait ends by its time.
    fn run<R: Print>(&mut self, rt: &R) -> Result<(), Trouble> {
        for _ in 0..u64::MAX {
            self.round(rt)?;
            if self.threads.iter().all(|t| t.next.is_none()) && !self.pass_time(rt)? {
                break;
            }
        }
        Ok(())
    }

    /// Does the next step of each thread that has one.
    fn round<R: Print>(&mut self, rt: &R) -> Result<(), Trouble> {
        for at in 0..self.threads.len() {
            if let Some(step) = self.threads[at].next {
                let did = self.step(rt, step)?;
                let java = &mut self.threads[at];
                java.next = match did.atomic {
                    // It is attached now, or its call has returned: it begins the next one.
                    _ if did.reply.is_some() || matches!(step, Step::Attach { .. }) => java.begin(),
                    // It stands in a line now, and has no Go until a step grants it the monitor.
                    Atomic::Acted { answer, .. } if answer == Answer::Parked => None,
                    _ => Some(Step::Go { thread: java.id }),
                };
            }
        }
        Ok(())
    }

    /// Tells the first deadline of a wait, and ends that wait. False where no wait has a deadline
    /// that a moment can come to.
    fn pass_time<R: Print>(&mut self, rt: &R) -> Result<bool, Trouble> {
        let mut first = (u128::MAX, ThreadId(0));
        for JavaThread { id, .. } in &self.threads {
            if let Some(Doing::Waits { deadline, .. }) = self.world.doing(*id) {
                first = first.min((deadline.unwrap_or(u128::MAX), *id));
            }
        }
        let (deadline, thread) = first;
        let Ok(now) = u64::try_from(deadline) else {
            return Ok(false);
        };
        self.step(rt, Step::Tick { now })?;
        self.step(rt, Step::Expire { thread })?;
        Ok(true)
    }

    /// Does a step, and prints what it did. Where it granted the monitor to a parked thread, which
    /// its second move says, that thread has a Go next.
    fn step<R: Print>(&mut self, rt: &R, step: Step) -> Result<Did, Trouble> {
        let did = self.world.step(step)?;
        print_atomic(rt, step, did.atomic)?;
        for made in did.moves.iter().flatten() {
            println!(rt; "    {made:?}")?;
        }
        if let Some(Move::Lock { thread } | Move::Relock { thread }) = did.moves[1] {
            for parked in self.threads.iter_mut().filter(|t| t.id == thread) {
                parked.next = Some(Step::Go { thread });
            }
        }
        Ok(did)
    }
}

/// Prints a step with what it did to the words and the fat monitors.
fn print_atomic<R: Print>(rt: &R, step: Step, atomic: Atomic) -> io::Result<()> {
    match atomic {
        Atomic::Load { word, .. } => println!(rt; "{step:?}: load {word}"),
        Atomic::Won { old, new, .. } => println!(rt; "{step:?}: won {old} {new}"),
        Atomic::Lost { word, .. } => println!(rt; "{step:?}: lost {word}"),
        Atomic::Stored { old, new, .. } => println!(rt; "{step:?}: stored {old} {new}"),
        Atomic::Acted { action, answer } => println!(rt; "{step:?}: {action} {answer:?}"),
        other => println!(rt; "{step:?}: {other:?}"),
    }
}

fn main(rt: HostRuntime) -> Result<(), Trouble> {
    let (object, one, two) = (ObjectId(0), ThreadId(10), ThreadId(20));
    let (enter, exit, end) = (Call::Enter(object), Call::Exit(object), Call::End);
    let (notify, interrupt) = (Call::Notify(object), Call::Interrupt(one));
    let wait = |millis: i64| Call::Wait {
        object,
        millis,
        nanos: 0,
    };
    // The three waits of thread one end by the notify, by their time, and by the interrupt.
    let one_calls = [enter, enter, wait(5), wait(5), wait(0), exit, exit, end];
    let two_calls = [enter, notify, exit, enter, wait(8), interrupt, exit, end];
    let threads = [
        JavaThread::new(one, one_calls),
        JavaThread::new(two, two_calls),
    ];
    // One object with the low byte A5, one fat monitor, two indices.
    let world = World::new(rt.alloc(), &[0xA5], 1, 2, Split::Wide)?;
    let mut runtime = Runtime { world, threads };
    runtime.run(&rt)
}
