//! The monitor service for programs in C, in two parts: the core, by worlds that do one step at a
//! time, and the live service, by seats that threads of the system use at once.
#![tactic(auto)]

ghost use Rattle.std.specs.Prelude.{◌≡◌, Bool, None};
ghost use Rattle.nadkhoy_c.specs.Changing.{AfterCall, Opened, after_open, after_step, after_relayout_call, free_status};
ghost use Rattle.nadkhoy_c.specs.Showing.{Reading, read, sizes_shown, object_shown, thread_shown, waiting_shown, holder_shown};

mod changing;
mod ends;
mod laws;
mod live;
mod plain;
mod raw;
mod reading;
mod showing;
mod slot;
mod status;
mod writing;

pub use ends::{EndSlot, RawEnd};
pub use laws::every_call_is_read_back;
pub use live::{Answered, Finished, LiveSlot, OpenedSeat, RawSeat, StartedSeat};
pub use plain::{
    PlainAtomic, PlainCall, PlainDeed, PlainDid, PlainDoing, PlainEnd, PlainMove, PlainObject,
    PlainPass, PlainSizes, PlainStep, PlainThread, PlainTurned,
};
pub use raw::RawWorld;
pub use slot::WorldSlot;
pub use status::Status;
use std::alloc::Global;

/// Makes a world with a free object for each low byte, 0 to 65,535 of them; with at most `monitors`
/// fat monitors, 0 to 8,388,608; with at most `indices` live threads at once, 1 to 32,767, or 2,047
/// where the split is 2. The slot is to be empty; it stays so where the world is refused.
///
/// Answers the first of InUse, NoSplit, Range and Memory that holds, or Done.
#[unsafe(no_mangle)]
pub extern "C" fn nadkhoy_open(
    alloc: Global,
    lows: &[u8],
    monitors: u32,
    indices: u16,
    split: u32,
    slot: &mut WorldSlot,
) -> u32
    ensures { (room : Bool) × (record { answer = result; world = slot.new.raw.value }
        ≡ after_open room slot.old.raw.value lows.now monitors indices split) }
{
    if slot.is_full() {
        return Status::InUse.number();
    }
    changing::open(alloc, lows, monitors, indices, split, slot)
}

/// Does one step, and writes what it did. A step that is refused leaves the world and `did` as they
/// are.
///
/// Answers Closed, NoStep, the fault of the core, or Done.
#[unsafe(no_mangle)]
pub extern "C" fn nadkhoy_step(
    alloc: Global,
    slot: &mut WorldSlot,
    step: &PlainStep,
    did: &mut PlainDid,
) -> u32
    ensures exact { (room : Bool)
        × (record { answer = result; world = slot.new.raw.value; out = did.new }
        ≡ after_step room slot.old.raw.value step.now did.old) }
    ensures refused { (result ≡ 0 → ⊥)
        → (slot.new.raw.value ≡ slot.old.raw.value) × (did.new ≡ did.old) }
{
    let Some(mut world) = slot.take(alloc) else {
        return Status::Closed.number();
    };
    let status = changing::step(&mut world, step, did);
    *slot = WorldSlot::of(world);
    status
}

/// Writes each header word in a split, at rest, and how many locks were inflated for it. One that
/// is refused leaves the world and `inflated` as they are.
///
/// Answers Closed, NoSplit, the fault of the core, or Done.
#[unsafe(no_mangle)]
pub extern "C" fn nadkhoy_relayout(
    alloc: Global,
    slot: &mut WorldSlot,
    split: u32,
    inflated: &mut u32,
) -> u32
    ensures exact { (room : Bool)
        × (record { answer = result; world = slot.new.raw.value; out = inflated.new }
        ≡ after_relayout_call room slot.old.raw.value split inflated.old) }
    ensures refused { (result ≡ 0 → ⊥)
        → (slot.new.raw.value ≡ slot.old.raw.value) × (inflated.new ≡ inflated.old) }
{
    let Some(mut world) = slot.take(alloc) else {
        return Status::Closed.number();
    };
    let status = changing::relayout(&mut world, split, inflated);
    *slot = WorldSlot::of(world);
    status
}

/// Gives the world back, and leaves the slot empty.
///
/// Answers Closed or Done.
#[unsafe(no_mangle)]
pub extern "C" fn nadkhoy_free(alloc: Global, slot: &mut WorldSlot) -> u32
    ensures status { result ≡ free_status slot.old.raw.value }
    ensures empty { slot.new.raw.value ≡ None }
{
    match slot.take(alloc) {
        Some(_) => Status::Done.number(),
        None => Status::Closed.number(),
    }
}

/// Writes the sizes of the world, and its moment.
///
/// Answers Closed or Done.
#[unsafe(no_mangle)]
pub extern "C" fn nadkhoy_sizes(alloc: Global, slot: &mut WorldSlot, sizes: &mut PlainSizes) -> u32
    ensures exact { record { answer = result; out = sizes.new }
        ≡ read sizes_shown slot.old.raw.value sizes.old }
    ensures kept { slot.new.raw.value ≡ slot.old.raw.value }
{
    let Some(world) = slot.take(alloc) else {
        return Status::Closed.number();
    };
    *sizes = showing::sizes(&world);
    let status = Status::Done.number();
    *slot = WorldSlot::of(world);
    status
}

/// Writes what the world shows of an object.
///
/// Answers Closed, NoObject or Done, and writes only then.
#[unsafe(no_mangle)]
pub extern "C" fn nadkhoy_object(
    alloc: Global,
    slot: &mut WorldSlot,
    object: u32,
    shown: &mut PlainObject,
) -> u32
    ensures exact { record { answer = result; out = shown.new }
        ≡ read (λ w x. object_shown w object x) slot.old.raw.value shown.old }
    ensures kept { slot.new.raw.value ≡ slot.old.raw.value }
{
    let Some(world) = slot.take(alloc) else {
        return Status::Closed.number();
    };
    let status = showing::object(&world, object, shown);
    *slot = WorldSlot::of(world);
    status
}

/// Writes what the world shows of a live thread.
///
/// Answers Closed, NoThread or Done, and writes only then.
#[unsafe(no_mangle)]
pub extern "C" fn nadkhoy_thread(
    alloc: Global,
    slot: &mut WorldSlot,
    thread: u32,
    shown: &mut PlainThread,
) -> u32
    ensures exact { record { answer = result; out = shown.new }
        ≡ read (λ w x. thread_shown w thread x) slot.old.raw.value shown.old }
    ensures kept { slot.new.raw.value ≡ slot.old.raw.value }
{
    let Some(world) = slot.take(alloc) else {
        return Status::Closed.number();
    };
    let status = showing::thread(&world, thread, shown);
    *slot = WorldSlot::of(world);
    status
}

/// Writes 1 where a thread is in the wait set of an object, and 0 where it is not, or is not live.
///
/// Answers Closed, NoObject or Done, and writes only then.
#[unsafe(no_mangle)]
pub extern "C" fn nadkhoy_waiting(
    alloc: Global,
    slot: &mut WorldSlot,
    object: u32,
    thread: u32,
    answer: &mut u32,
) -> u32
    ensures exact { record { answer = result; out = answer.new }
        ≡ read (λ w x. waiting_shown w object thread x) slot.old.raw.value answer.old }
    ensures kept { slot.new.raw.value ≡ slot.old.raw.value }
{
    let Some(world) = slot.take(alloc) else {
        return Status::Closed.number();
    };
    let status = showing::waiting(&world, object, thread, answer);
    *slot = WorldSlot::of(world);
    status
}

/// Writes the thread that has an index.
///
/// Answers Closed, NoThread or Done, and writes only then.
#[unsafe(no_mangle)]
pub extern "C" fn nadkhoy_holder(
    alloc: Global,
    slot: &mut WorldSlot,
    index: u16,
    thread: &mut u32,
) -> u32
    ensures exact { record { answer = result; out = thread.new }
        ≡ read (λ w x. holder_shown w index x) slot.old.raw.value thread.old }
    ensures kept { slot.new.raw.value ≡ slot.old.raw.value }
{
    let Some(world) = slot.take(alloc) else {
        return Status::Closed.number();
    };
    let status = showing::holder(&world, index, thread);
    *slot = WorldSlot::of(world);
    status
}
