//! Writing what a world shows as numbers.

ghost use Rattle.std.specs.Prelude.{◌≡◌, ◌<◌, length, Some};
ghost use Rattle.step_core.specs.Shown.{shown};
ghost use Rattle.nadkhoy_c.specs.Showing.{plain_doing, why_number, one_if, plain_sizes, object_shown, thread_shown, waiting_shown, holder_shown, waits_until, Reading};

use crate::plain::{PlainDoing, PlainObject, PlainSizes, PlainThread};
use crate::status::Status;
use crate::writing::{NO_CALL, cause_of, plain_call, reply_number};
use step_core::{Doing, ObjectId, ThreadId, Why, World};

const NOTHING: PlainDoing = PlainDoing {
    kind: 0,
    object: 0,
    holds: 0,
    why: 0,
    reply: 0,
    cause: 0,
    has_deadline: 0,
    deadline_high: 0,
    deadline_low: 0,
    call: NO_CALL,
};

fn one_if(test: bool) -> u32
    ensures { result ≡ one_if test }
{
    if test { 1 } else { 0 }
}

fn why_number(why: Why) -> u32
    ensures { result ≡ why_number why }
{
    match why {
        Why::Notified => 1,
        Why::Interrupted => 2,
        Why::Elapsed => 3,
        Why::Spurious => 4,
    }
}

fn waits_until(object: ObjectId, holds: u16, deadline: Option<u128>) -> PlainDoing
    ensures { result ≡ waits_until object holds deadline }
{
    let (has_deadline, deadline) = match deadline {
        Some(deadline) => (1, deadline),
        None => (0, 0),
    };
    PlainDoing {
        kind: 3,
        object: object.0,
        holds: u32::from(holds),
        has_deadline,
        deadline_high: (deadline / 0x1_0000_0000_0000_0000) as u64,
        deadline_low: (deadline % 0x1_0000_0000_0000_0000) as u64,
        ..NOTHING
    }
}

fn plain_doing(doing: Doing) -> PlainDoing
    ensures { result ≡ plain_doing doing }
{
    match doing {
        Doing::Idle => PlainDoing { kind: 1, ..NOTHING },
        Doing::Wants(call) => PlainDoing {
            kind: 2,
            call: plain_call(call),
            ..NOTHING
        },
        Doing::Waits {
            object,
            holds,
            deadline,
        } => waits_until(object, holds, deadline),
        Doing::Back { object, holds, why } => PlainDoing {
            kind: 4,
            object: object.0,
            holds: u32::from(holds),
            why: why_number(why),
            ..NOTHING
        },
        Doing::Has(reply) => PlainDoing {
            kind: 5,
            reply: reply_number(reply),
            cause: cause_of(reply),
            ..NOTHING
        },
    }
}

/// The sizes of a world, and its moment.
pub(crate) fn sizes(world: &World) -> PlainSizes
    ensures { result ≡ plain_sizes world.now }
{
    PlainSizes {
        moment: world.now(),
        objects: world.objects(),
        indices: u32::from(world.indices()),
    }
}

/// Writes what the world shows of an object, if it has it.
pub(crate) fn object(world: &World, number: u32, out: &mut PlainObject) -> u32
    ensures { record { answer = result; out = out.new } ≡ object_shown world.now number out.old }
{
    if number >= world.objects() {
        return Status::NoObject.number();
    }
    let object = ObjectId(number);
    let (is_owned, owner) = match world.owner(object) {
        Some(owner) => (1, owner.0),
        None => (0, 0),
    };
    *out = PlainObject {
        word: world.word(object).0,
        is_owned,
        owner,
        holds: u32::from(world.holds(object)),
    };
    Status::Done.number()
}

/// Writes what the world shows of a thread, if it is live.
pub(crate) fn thread(world: &World, number: u32, out: &mut PlainThread) -> u32
    ensures { record { answer = result; out = out.new } ≡ thread_shown world.now number out.old }
{
    let thread = ThreadId(number);
    let (Some(index), Some(flag), Some(doing)) = (
        world.index(thread),
        world.flag(thread),
        world.doing(thread),
    ) else {
        return Status::NoThread.number();
    };
    *out = PlainThread {
        index: u32::from(index),
        is_interrupted: one_if(flag),
        doing: plain_doing(doing),
    };
    Status::Done.number()
}

/// Writes whether a thread is in the wait set of an object, 1 or 0, if the world has it.
pub(crate) fn waiting(world: &World, object: u32, thread: u32, out: &mut u32) -> u32
    ensures { record { answer = result; out = out.new }
        ≡ waiting_shown world.now object thread out.old }
{
    if object >= world.objects() {
        return Status::NoObject.number();
    }
    *out = one_if(world.waiting(ObjectId(object), ThreadId(thread)));
    Status::Done.number()
}

/// Writes the thread that has an index, if one has it.
pub(crate) fn holder(world: &World, index: u16, out: &mut u32) -> u32
    ensures { record { answer = result; out = out.new } ≡ holder_shown world.now index out.old }
{
    let Some(thread) = world.thread_at(index) else {
        return Status::NoThread.number();
    };
    *out = thread.0;
    Status::Done.number()
}
