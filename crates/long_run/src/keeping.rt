//! The thread that tells the moments, and that notifies, until the workers are done.

ghost use Rattle.std.specs.Prelude.{◌≡◌};

use crate::outcomes::Outcome;
use crate::plans::OBJECTS;
use crate::trouble::Trouble;
use crossbeam_utils::atomic::AtomicCell;
use live_threads::{Live, LivePass};
use live_turns::{Crew, LiveFault};
use lock_word::ObjectId;
use std::sync::Wait;
use std::thread;
use std::time::{Clock, Duration};

/// How much time passes from one moment to the next, in nanoseconds.
const MOMENT: u64 = 1_000_000;

/// After how many moments all who wait are notified.
const MOMENTS: u64 = 8;

/// The keeper's pass, once the workers are done, and the fault that it met, if any.
#[derive(Drop)]
pub struct Kept<L: Crew> {
    pub pass: LivePass<L>,
    pub fault: Option<LiveFault>,
}

/// Notifies all who wait for an object.
fn notify<L: Crew, R: Wait + Clock>(
    rt: &R,
    live: &Live<L>,
    pass: &mut LivePass<L>,
) -> Result<(), LiveFault>
    requires here { pass.old.words.opening ≡ live.now }
    ensures here { pass.new.words.opening ≡ live.entry.now }
{
    for object in 0..OBJECTS {
        live.enter(rt, pass, ObjectId(object))?;
        live.notify_all(rt, pass, ObjectId(object))?;
        live.exit(rt, pass, ObjectId(object))?;
    }
    Ok(())
}

/// Tells moments and notifies until the workers are done.
fn go_on<L: Crew, R: Wait + Clock>(
    rt: &R,
    live: &Live<L>,
    pass: &mut LivePass<L>,
    is_over: &AtomicCell<bool>,
) -> Result<(), LiveFault>
    requires here { pass.old.words.opening ≡ live.now }
    ensures here { pass.new.words.opening ≡ live.entry.now }
{
    let mut moments = 0u64;
    for _ in rt.forever() {
        if is_over.load() {
            return Ok(());
        }
        moments = moments.wrapping_add(1);
        live.tick(rt, pass, moments.wrapping_mul(MOMENT))?;
        if moments % MOMENTS == 0 {
            notify(rt, live, pass)?;
        }
        thread::sleep(rt, Duration::from_nanos(MOMENT));
    }
    Ok(())
}

/// Keeps the workers going until they are done, with a pass that comes back. A fault is told at
/// once: without the keeper the workers may never be done.
pub fn keep<L: Crew, R: Wait + Clock>(
    rt: &R,
    live: &Live<L>,
    mut pass: LivePass<L>,
    is_over: &AtomicCell<bool>,
    outcome: &Outcome,
) -> Kept<L>
    requires here { pass.words.opening ≡ live.now }
    ensures here { result.pass.words.opening ≡ live.entry.now }
{
    let fault = go_on(rt, live, &mut pass, is_over).err();
    if let Some(fault) = fault {
        outcome.tell(rt, Err(Trouble::Keeper(fault)));
    }
    Kept { pass, fault }
}
