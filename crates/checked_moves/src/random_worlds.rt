//! Worlds whose steps are drawn at random: both checkers take each move that a world hands out, and
//! the world shows the state that its moves lead to.

use crate::both::Both;
use crate::plain;
use crate::random::Random;
use crate::random_moves::{draw_call, draw_owner_call};
use crate::trouble::Trouble;
use std::alloc::Global;
use std::io;
use std::io::Print;
use step_core::{Atomic, Did, Doing, ObjectId, Split, Step, ThreadId, World};

const WORLDS: u32 = 120;

const STEPS: u32 = 400;

const SEED: u64 = 0xFEDC_BA98_7654_3210;

/// The low bytes of the objects.
const LOWS: [u8; 3] = [0xA5, 0x00, 0xFF];

/// Threads are drawn of these, of which there are more than some worlds have indices.
const THREADS: u32 = 5;

/// How much later the moment is told at most, in nanoseconds.
const LATER: u32 = 1_500_000;

/// How many steps were accepted, of each kind, and what came of them.
#[derive(Clone, Copy)]
struct Tally {
    attach: u32,
    begin: u32,
    go: u32,
    expire: u32,
    spurious: u32,
    tick: u32,
    refused: u32,
    moves: u32,
    replies: u32,
    bound: u32,
}

const NOTHING: Tally = Tally {
    attach: 0,
    begin: 0,
    go: 0,
    expire: 0,
    spurious: 0,
    tick: 0,
    refused: 0,
    moves: 0,
    replies: 0,
    bound: 0,
};

impl Tally {
    /// A step was accepted.
    fn count(&mut self, step: Step, did: &Did) {
        let count = match step {
            Step::Attach { .. } => &mut self.attach,
            Step::Begin { .. } => &mut self.begin,
            Step::Go { .. } => &mut self.go,
            Step::Expire { .. } => &mut self.expire,
            Step::Spurious { .. } => &mut self.spurious,
            Step::Tick { .. } => &mut self.tick,
        };
        *count = count.saturating_add(1);
        if did.reply.is_some() {
            self.replies = self.replies.saturating_add(1);
        }
        if let Atomic::Bound { .. } = did.atomic {
            self.bound = self.bound.saturating_add(1);
        }
    }
}

/// Plays the worlds, and prints how much was done in them.
pub fn play<R: Print + AllocGlobal>(rt: &R) -> Result<(), Trouble> {
    let mut random = Random::new(SEED);
    let mut tally = NOTHING;
    for number in 0..WORLDS {
        play_world(rt.alloc(), &mut random, number, &mut tally)?;
    }
    print(rt, tally)?;
    Ok(())
}

/// Plays one world.
fn play_world(
    alloc: Global,
    random: &mut Random,
    number: u32,
    tally: &mut Tally,
) -> Result<(), Trouble> {
    let mut watched = Watched::new(alloc, random, number)?;
    watched.play(random, tally)
}

/// Prints how much was done.
fn print<R: Print>(rt: &R, tally: Tally) -> io::Result<()> {
    let Tally {
        attach,
        begin,
        go,
        expire,
        spurious,
        tick,
        refused,
        moves,
        replies,
        bound,
    } = tally;
    println!(rt; "random worlds: {WORLDS}, of {STEPS} steps each, {refused} of them refused")?;
    println!(rt;
        "Attach {attach}, Begin {begin}, Go {go}, Expire {expire}, Spurious {spurious}, Tick {tick}"
    )?;
    println!(rt; "moves {moves}, all lawful; replies {replies}; monitors bound {bound}")
}

/// A world, and both checkers, which take its moves.
#[derive(Drop)]
struct Watched {
    number: u32,
    world: World,
    both: Both,
}

impl Watched {
    /// A world in which nothing was done yet; every other one is deep.
    fn new(alloc: Global, random: &mut Random, number: u32) -> Result<Watched, Trouble> {
        let split = if number % 2 == 0 {
            Split::Wide
        } else {
            Split::Deep
        };
        let monitors = random.below(4);
        let indices = 1 + random.below(5) as u16;
        let world = World::new(alloc, &LOWS, monitors, indices, split)?;
        let both = Both::new(alloc, world.objects())?;
        Ok(Watched {
            number,
            world,
            both,
        })
    }

    /// Does steps at random.
    fn play(&mut self, random: &mut Random, tally: &mut Tally) -> Result<(), Trouble> {
        for _ in 0..STEPS {
            let step = draw_step(random, &self.world);
            self.step(step, tally)?;
        }
        Ok(())
    }

    /// Does a step. Both checkers take its moves, and the world shows the state that they lead to.
    fn step(&mut self, step: Step, tally: &mut Tally) -> Result<(), Trouble> {
        match self.world.step(step) {
            Ok(did) => {
                tally.count(step, &did);
                self.follow(&did, tally)?;
            }
            Err(_) => tally.refused = tally.refused.saturating_add(1),
        }
        let world = self.number;
        if !agrees(&self.world, &self.both.plain) {
            return Err(Trouble::OtherState { world });
        }
        Ok(())
    }

    /// Both checkers take the moves of a step.
    fn follow(&mut self, did: &Did, tally: &mut Tally) -> Result<(), Trouble> {
        let world = self.number;
        for made in did.moves {
            let Some(made) = made else { continue };
            if !self.both.judge(made)? {
                return Err(Trouble::UnlawfulStep { world, made });
            }
            tally.moves = tally.moves.saturating_add(1);
        }
        Ok(())
    }
}

/// A step that fits what its thread is doing, for the most part.
fn draw_step(random: &mut Random, world: &World) -> Step {
    let thread = ThreadId(random.below(THREADS));
    if random.once_in(6) {
        return draw_any(random, thread, world.now());
    }
    match world.doing(thread) {
        None => Step::Attach { thread },
        Some(Doing::Idle) => {
            let call = if owns_first(world, thread) {
                draw_owner_call(random)
            } else {
                draw_call(random)
            };
            Step::Begin { thread, call }
        }
        Some(Doing::Waits { .. }) if random.once_in(6) => Step::Spurious { thread },
        Some(Doing::Waits { .. }) if random.once_in(2) => Step::Expire { thread },
        Some(_) => Step::Go { thread },
    }
}

/// Whether the thread owns the first object.
fn owns_first(world: &World, thread: ThreadId) -> bool {
    0 < world.objects() && world.owner(ObjectId(0)) == Some(thread)
}

/// A step of any kind.
fn draw_any(random: &mut Random, thread: ThreadId, now: u64) -> Step {
    let by = u64::from(random.below(LATER));
    match random.below(8) {
        0 => Step::Attach { thread },
        1 => Step::Begin {
            thread,
            call: draw_call(random),
        },
        2 => Step::Go { thread },
        3 => Step::Expire { thread },
        4 => Step::Spurious { thread },
        5 => Step::Tick {
            now: now.saturating_sub(by),
        },
        _ => Step::Tick {
            now: now.saturating_add(by),
        },
    }
}

/// Whether the world shows the state of the checker, and has no other thread.
fn agrees(world: &World, plain: &plain::Machine) -> bool {
    let mut same = world.now() == plain.moment();
    for number in 0..THREADS {
        let thread = ThreadId(number);
        let live = plain.live(thread);
        same &= world.doing(thread) == live.map(|live| live.doing);
        same &= world.flag(thread) == live.map(|live| live.flag);
    }
    same && agree_on_objects(world, plain)
}

fn agree_on_objects(world: &World, plain: &plain::Machine) -> bool {
    let mut same = true;
    for number in 0..world.objects() {
        let object = ObjectId(number);
        let Some(held) = plain.monitor(object) else {
            return false;
        };
        same &= world.owner(object) == held.owner;
        same &= world.holds(object) == held.count;
    }
    same
}
