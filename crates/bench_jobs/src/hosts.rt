//! The job over the live service: calls that wait, on threads of the system.

ghost use Rattle.std.specs.Prelude.{◌≡◌, ◌≤◌, ◌+◌, IfOk, length};

use crate::JobFault;
use crate::digests::Digest;
use crate::draws::Draws;
use fat_monitor::Reply;
use live_threads::{Live, LiveClose, LivePass};
use live_turns::{Closed, Crew, LiveFault};
use lock_word::ObjectId;
use std::alloc::Global;
use std::sync::Wait;
use std::sync::ledger::Blank;
use std::thread::{Threads, join};
use std::time::Clock;

const OBJECTS: u32 = 1_024;

/// The places of the records.
const THIN_PLACES: u32 = 1_000;

const FAT_PLACES: u32 = 1_048_576;

/// The call must have this reply, which is mixed.
fn expect(
    digest: &mut Digest,
    answer: Result<Reply, LiveFault>,
    wanted: Reply,
) -> Result<(), JobFault> {
    match answer {
        Ok(reply) if reply == wanted => {
            digest.mix_reply(reply);
            Ok(())
        }
        Ok(reply) => Err(JobFault::Reply(reply)),
        Err(fault) => Err(JobFault::Call(fault)),
    }
}

/// Enters and exits objects, nested and not.
fn thin_pairs<L: Crew, R: Wait + Clock>(
    rt: &R,
    live: &Live<L>,
    pass: &mut LivePass<L>,
    digest: &mut Digest,
    steps: u32,
    seed: u64,
) -> Result<(), JobFault>
    requires here { pass.old.words.opening ≡ live.now }
    ensures here { pass.new.words.opening ≡ live.entry.now }
{
    let mut draws = Draws::new(seed);
    let mut object = ObjectId(0);
    for _ in 0..steps {
        expect(digest, live.enter(rt, pass, object), Reply::Entered)?;
        expect(digest, live.enter(rt, pass, object), Reply::Entered)?;
        expect(digest, live.exit(rt, pass, object), Reply::Exited)?;
        expect(digest, live.exit(rt, pass, object), Reply::Exited)?;
        let other = ObjectId(draws.below(OBJECTS));
        digest.mix(u64::from(other.0));
        expect(digest, live.enter(rt, pass, other), Reply::Entered)?;
        expect(digest, live.exit(rt, pass, other), Reply::Exited)?;
        object = other;
    }
    Ok(())
}

/// Inflates an object, while nobody else is there: by the wait of an owner that is interrupted.
fn inflate<L: Crew, R: Wait + Clock>(
    rt: &R,
    live: &Live<L>,
    pass: &mut LivePass<L>,
    digest: &mut Digest,
    object: ObjectId,
) -> Result<(), JobFault>
    requires here { pass.old.words.opening ≡ live.now }
    ensures here { pass.new.words.opening ≡ live.entry.now }
{
    let me = pass.thread();
    expect(digest, live.enter(rt, pass, object), Reply::Entered)?;
    expect(digest, live.interrupt(rt, pass, me), Reply::Done)?;
    expect(
        digest,
        live.wait_on(rt, pass, object, 0, 0),
        Reply::Interrupted,
    )?;
    expect(digest, live.exit(rt, pass, object), Reply::Exited)
}

/// Enters and exits an object with a fat monitor, so many pairs of times: now and then nested. What
/// comes back is a digest of the replies.
fn fat_pairs<L: Crew, R: Wait + Clock>(
    rt: &R,
    live: &Live<L>,
    pass: &mut LivePass<L>,
    object: ObjectId,
    pairs: u32,
    seed: u64,
) -> Result<u64, JobFault>
    requires here { pass.old.words.opening ≡ live.now }
    ensures here { pass.new.words.opening ≡ live.entry.now }
{
    let mut digest = Digest::new();
    let mut draws = Draws::new(seed);
    for _ in 0..pairs / 2 {
        expect(&mut digest, live.enter(rt, pass, object), Reply::Entered)?;
        if draws.below(4) == 0 {
            expect(&mut digest, live.enter(rt, pass, object), Reply::Entered)?;
            expect(&mut digest, live.exit(rt, pass, object), Reply::Exited)?;
        } else {
            expect(&mut digest, live.exit(rt, pass, object), Reply::Exited)?;
            expect(&mut digest, live.enter(rt, pass, object), Reply::Entered)?;
        }
        expect(&mut digest, live.exit(rt, pass, object), Reply::Exited)?;
    }
    Ok(digest.value())
}

/// Inflates some objects, one after the other, and enters and exits each.
fn fat_rounds<L: Crew, R: Wait + Clock>(
    rt: &R,
    live: &Live<L>,
    pass: &mut LivePass<L>,
    digest: &mut Digest,
    pairs: u32,
    seed: u64,
) -> Result<(), JobFault>
    requires here { pass.old.words.opening ≡ live.now }
    ensures here { pass.new.words.opening ≡ live.entry.now }
{
    let mut draws = Draws::new(seed);
    for number in 0..64 {
        let object = ObjectId(draws.below(16).wrapping_mul(64).wrapping_add(number));
        inflate(rt, live, pass, digest, object)?;
        digest.mix(fat_pairs(rt, live, pass, object, pairs, draws.number())?);
    }
    Ok(())
}

/// Closes a service of two passes.
fn close<L: Crew>(
    alloc: Global,
    live: Live<L>,
    first: LivePass<L>,
    second: LivePass<L>,
) -> Result<Closed, JobFault>
    requires first { first.words.opening ≡ live }
    requires second { second.words.opening ≡ live }
    requires crew { (L.parts ≡ live.count) × (L.passes ≡ live.count) }
{
    let passes = vec![in alloc; first, second]?;
    match live.close(alloc, passes) {
        Ok(closed) => Ok(closed),
        Err(LiveClose::Memory { .. }) => Err(JobFault::Memory),
        Err(_) => Err(JobFault::Passes),
    }
}

/// A service of some objects with a monitor each, and its two passes.
fn open_for_two<L: Crew>(
    alloc: Global,
    blank: Blank,
    places: u32,
) -> Result<(Live<L>, LivePass<L>, LivePass<L>), JobFault>
    requires name { blank.name ≡ L.name }
    requires parts { (blank.parts ≡ L.parts) × (L.parts ≡ 2) }
    requires crew { (L.passes ≡ 2) × (L.monitors ≡ 1024) × (L.places ≡ places) }
    ensures first { IfOk result (λ r. r.1.words.opening ≡ r.0) }
    ensures second { IfOk result (λ r. r.2.words.opening ≡ r.0) }
    ensures count { IfOk result (λ r. r.0.count ≡ 2) }
{
    let lows = [0xA5u8; 1_024];
    let (live, mut passes) = Live::<L>::open(alloc, blank, &lows, OBJECTS, 2, places)?;
    let (Some(second), Some(first)) = (passes.pop(), passes.pop()) else {
        return Err(JobFault::Passes);
    };
    Ok((live, first, second))
}

fn mix_words(digest: &mut Digest, closed: &Closed) {
    for word in &closed.words {
        digest.mix(u64::from(word.0));
    }
}

/// Mixes the words, and all deeds in their order.
fn mix_closed(digest: &mut Digest, closed: &Closed) {
    mix_words(digest, closed);
    digest.mix_record(&closed.logged);
    digest.mix(closed.logged.len() as u64);
}

/// One thread enters and exits objects that nobody else uses.
pub fn run_thin<L: Crew, R: Wait + Clock>(
    rt: &R,
    alloc: Global,
    blank: Blank,
    steps: u32,
    seed: u64,
) -> Result<u64, JobFault>
    requires name { blank.name ≡ L.name }
    requires parts { (blank.parts ≡ L.parts) × (L.parts ≡ 2) }
    requires crew { (L.passes ≡ 2) × (L.monitors ≡ 1024) × (L.places ≡ THIN_PLACES) }
{
    let mut digest = Digest::new();
    let (live, mut first, second) = open_for_two::<L>(alloc, blank, THIN_PLACES)?;
    thin_pairs(rt, &live, &mut first, &mut digest, steps, seed)?;
    mix_closed(&mut digest, &close(alloc, live, first, second)?);
    Ok(digest.value())
}

/// One thread enters and exits objects with fat monitors, and the service is closed.
pub fn run_fat<L: Crew, R: Wait + Clock>(
    rt: &R,
    alloc: Global,
    blank: Blank,
    steps: u32,
    seed: u64,
) -> Result<u64, JobFault>
    requires name { blank.name ≡ L.name }
    requires parts { (blank.parts ≡ L.parts) × (L.parts ≡ 2) }
    requires crew { (L.passes ≡ 2) × (L.monitors ≡ 1024) × (L.places ≡ FAT_PLACES) }
{
    let mut digest = Digest::new();
    let (live, mut first, second) = open_for_two::<L>(alloc, blank, FAT_PLACES)?;
    fat_rounds(rt, &live, &mut first, &mut digest, steps / 64, seed)?;
    mix_closed(&mut digest, &close(alloc, live, first, second)?);
    Ok(digest.value())
}

/// Two threads enter and exit one object with a fat monitor. What is mixed is the same however they
/// meet: the replies of the calls and the deeds, thread by thread.
pub fn run_two<L: Crew + Send + Sync, R: Threads + Wait + Clock + Sync>(
    rt: &R,
    alloc: Global,
    blank: Blank,
    steps: u32,
    seed: u64,
) -> Result<u64, JobFault>
    requires name { blank.name ≡ L.name }
    requires parts { (blank.parts ≡ L.parts) × (L.parts ≡ 2) }
    requires crew { (L.passes ≡ 2) × (L.monitors ≡ 1024) × (L.places ≡ FAT_PLACES) }
{
    let mut digest = Digest::new();
    let (live, mut first, second) = open_for_two::<L>(alloc, blank, FAT_PLACES)?;
    let mut draws = Draws::new(seed);
    let object = ObjectId(draws.below(OBJECTS));
    inflate(rt, &live, &mut first, &mut digest, object)?;
    let seeds = (draws.number(), draws.number());
    let (one, two) = meet(rt, &live, (first, second), object, steps, seeds);
    digest.mix(one.digest?);
    digest.mix(two.digest?);
    let threads = [one.pass.thread(), two.pass.thread()];
    let closed = close(alloc, live, one.pass, two.pass)?;
    mix_words(&mut digest, &closed);
    for thread in threads {
        digest.mix_deeds_of(thread, &closed.logged);
    }
    Ok(digest.value())
}

/// What a thread got on an object that another wanted, too, and its pass.
#[derive(Drop)]
struct Met<L: Crew> {
    digest: Result<u64, JobFault>,
    pass: LivePass<L>,
}

/// Enters and exits the object with a pass, which comes back.
fn fat_pairs_with<L: Crew, R: Wait + Clock>(
    rt: &R,
    live: &Live<L>,
    mut pass: LivePass<L>,
    object: ObjectId,
    pairs: u32,
    seed: u64,
) -> Met<L>
    requires { pass.words.opening ≡ live.now }
    ensures { result.pass.words.opening ≡ live.entry.now }
{
    let digest = fat_pairs(rt, live, &mut pass, object, pairs, seed);
    Met { digest, pass }
}

/// Both threads enter and exit the object, each with its pass and in the order of its own seed. The
/// passes come back.
fn meet<L: Crew + Send + Sync, R: Threads + Wait + Clock + Sync>(
    rt: &R,
    live: &Live<L>,
    passes: (LivePass<L>, LivePass<L>),
    object: ObjectId,
    pairs: u32,
    seeds: (u64, u64),
) -> (Met<L>, Met<L>)
    requires first { passes.0.words.opening ≡ live.now }
    requires second { passes.1.words.opening ≡ live.now }
    ensures first { result.0.pass.words.opening ≡ live.entry.now }
    ensures second { result.1.pass.words.opening ≡ live.entry.now }
{
    let (first, second) = passes;
    join(
        rt,
        move || -> Met<L>
            requires { first.words.opening ≡ live.now }
            ensures { result.pass.words.opening ≡ live.entry.now }
        { fat_pairs_with(rt, live, first, object, pairs, seeds.0) },
        move || -> Met<L>
            requires { second.words.opening ≡ live.now }
            ensures { result.pass.words.opening ≡ live.entry.now }
        { fat_pairs_with(rt, live, second, object, pairs, seeds.1) },
    )
}
