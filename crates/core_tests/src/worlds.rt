//! What no script can show: memory that is refused, copies in the memory of other worlds, what the
//! readers answer, and how faults are named.

use fast_path::Call;
use fat_monitor::{Cause, Reply};
use lock_word::{Memory, ObjectId, Split, ThreadId, Word};
use std::alloc::Global;
use step_core::{Did, Doing, Fault, RelayoutFault, Step, World};

/// The step in which the thread begins a call.
macro_rules! calls {
    ($thread:expr, $call:expr) => {
        Step::Begin {
            thread: $thread,
            call: $call,
        }
    };
}

/// That step is accepted.
macro_rules! begins {
    ($thread:expr, $call:expr) => {
        Ask::Does(calls!($thread, $call))
    };
}

mod copies;
mod memory;
mod names;
mod readers;

const X: ThreadId = ThreadId(0);

const Y: ThreadId = ThreadId(1);

const A: ObjectId = ObjectId(0);

/// An enter of x, which does not go on yet.
const ENTER: Step = Step::Begin {
    thread: X,
    call: Call::Enter(A),
};

/// What is asked of a world with one object, and what has to be answered.
#[derive(Clone, Copy)]
enum Ask {
    /// The step is accepted.
    Does(Step),
    /// So many steps of x in its call are accepted.
    Goes(u32),
    /// So many enters of x, of an object that nobody else wants, take two steps each.
    Enters(u32),
    /// The attach is accepted, or refused memory; then nothing shows of it, and it is accepted when
    /// it is tried again.
    Attaches(ThreadId),
    /// The next step of x in its 257th enter binds a monitor, or is refused memory; then x owns the
    /// object as before, and begins that enter again, up to that step.
    Binds,
    /// A step of y in its call, one of so many, has this reply, and those before it have none.
    Replies(u32, Reply),
    /// A relayout to the wide split succeeds, or is refused memory; then nothing shows of it, and
    /// it succeeds when it is tried again.
    LaysOut,
    /// The word of the object is this, and it is owned by the thread, which holds it so often.
    Shows(u32, ThreadId, u16),
    /// The same of one of two words.
    ShowsEither(u32, u32, ThreadId, u16),
    /// The thread has this index, is doing this, and has this flag.
    Knows(ThreadId, Option<u16>, Option<Doing>, Option<bool>),
    /// This thread has the index.
    IsAt(u16, Option<ThreadId>),
    /// There are so many objects and indices, and this is the moment.
    Has(u32, u16, u64),
    /// Whether the thread is in the wait set of the object.
    Waits(ThreadId, bool),
}

/// What a step comes to, of which nothing is claimed here.
fn take(world: &mut World, step: Step) -> Result<Did, Fault> {
    world.step(step)
}

fn does(world: &mut World, step: Step) -> bool {
    take(world, step).is_ok()
}

fn goes(world: &mut World, times: u32) -> bool {
    for _ in 0..times {
        if !does(world, Step::Go { thread: X }) {
            return false;
        }
    }
    true
}

fn enters(world: &mut World, times: u32) -> bool {
    for _ in 0..times {
        if !does(world, ENTER) || !goes(world, 2) {
            return false;
        }
    }
    true
}

fn knows(
    world: &World,
    thread: ThreadId,
    index: Option<u16>,
    doing: Option<Doing>,
    flag: Option<bool>,
) -> bool {
    world.index(thread) == index && world.doing(thread) == doing && world.flag(thread) == flag
}

fn shows(world: &World, word: u32, owner: ThreadId, holds: u16) -> bool {
    A.0 < world.objects()
        && world.word(A) == Word(word)
        && world.owner(A) == Some(owner)
        && world.holds(A) == holds
}

fn attaches(world: &mut World, thread: ThreadId) -> bool {
    let step = Step::Attach { thread };
    match take(world, step) {
        Ok(_) => true,
        Err(fault) => {
            fault == Fault::Memory && knows(world, thread, None, None, None) && does(world, step)
        }
    }
}

fn binds(world: &mut World) -> bool {
    match take(world, Step::Go { thread: X }) {
        Ok(
            Did {
                reply: Some(reply),
                ..
            },
        ) => {
            reply == Reply::Refused(Cause::Memory)
                && shows(world, 0x0001_FFA5, X, 256)
                && enters(world, 1)
        }
        Ok(_) => true,
        Err(_) => false,
    }
}

fn replies(world: &mut World, most: u32, reply: Reply) -> bool {
    for _ in 0..most {
        match take(world, Step::Go { thread: Y }) {
            Ok(Did { reply: None, .. }) => {}
            Ok(Did { reply: told, .. }) => return told == Some(reply),
            Err(_) => return false,
        }
    }
    false
}

/// What a relayout to the wide split comes to, of which nothing is claimed here.
fn relayout(world: &mut World) -> Result<u32, RelayoutFault> {
    world.relayout(Split::Wide)
}

fn lays_out(world: &mut World) -> bool {
    let first = relayout(world);
    if first != Err(RelayoutFault::Memory) {
        return first == Ok(1);
    }
    shows(world, 0x0011_00A5, X, 257) && relayout(world) == Ok(1)
}

/// Whether this is the answer.
fn answers(world: &mut World, ask: Ask) -> bool {
    match ask {
        Ask::Does(step) => does(world, step),
        Ask::Goes(times) => goes(world, times),
        Ask::Enters(times) => enters(world, times),
        Ask::Attaches(thread) => attaches(world, thread),
        Ask::Binds => binds(world),
        Ask::Replies(most, reply) => replies(world, most, reply),
        Ask::LaysOut => lays_out(world),
        _ => tells(world, ask),
    }
}

/// Whether a reader answers so.
fn tells(world: &World, ask: Ask) -> bool {
    match ask {
        Ask::Shows(word, owner, holds) => shows(world, word, owner, holds),
        Ask::ShowsEither(one, other, owner, holds) => {
            shows(world, one, owner, holds) || shows(world, other, owner, holds)
        }
        Ask::Knows(thread, index, doing, flag) => knows(world, thread, index, doing, flag),
        Ask::IsAt(index, thread) => world.thread_at(index) == thread,
        Ask::Has(objects, indices, now) => {
            world.objects() == objects && world.indices() == indices && world.now() == now
        }
        Ask::Waits(thread, waits) => A.0 < world.objects() && world.waiting(A, thread) == waits,
        _ => false,
    }
}

/// A world with one object, low byte A5, and no threads.
fn opening(alloc: Global, split: Split) -> Result<World, Memory> {
    World::new(alloc, &[0xA5], 4, 4, split)
}

/// The same, made anew where memory was refused.
fn opened(alloc: Global, split: Split) -> Result<World, Memory> {
    match opening(alloc, split) {
        Ok(world) => Ok(world),
        Err(Memory) => opening(alloc, split),
    }
}

/// The first of these that is answered otherwise.
fn first_other(world: &mut World, asks: &[Ask]) -> Option<usize> {
    for (row, &ask) in asks.iter().enumerate() {
        if !answers(world, ask) {
            return Some(row);
        }
    }
    None
}

/// The same of a new world.
fn first_of_new(alloc: Global, split: Split, asks: &[Ask]) -> Result<Option<usize>, Memory> {
    let mut world = opened(alloc, split)?;
    Ok(first_other(&mut world, asks))
}
