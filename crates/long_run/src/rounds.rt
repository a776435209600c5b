//! One round: a service, its workers, its keeper, and its end.

ghost use Rattle.std.specs.Prelude.{◌≡◌, ◌≤◌, IfOk, IfSome};
ghost use Rattle.std.specs.List.{All};
ghost use Rattle.live_threads.specs.Driving.{CanDrive};

use crate::accounts::Accounts;
use crate::keeping::{Kept, keep};
use crate::outcomes::Outcome;
use crate::passes::{last_pass, passes_of, works_of};
use crate::plans::{CALLS, OBJECTS, plans_of};
use crate::trouble::Trouble;
use crossbeam_utils::atomic::AtomicCell;
use live_threads::{Live, LiveClose, LivePass, Work, Worked, drive};
use live_turns::{Closed, Crew};
use lock_word::Memory;
use std::alloc::Global;
use std::marker::Brand;
use std::sync::Wait;
use std::sync::ledger::Blank;
use std::thread::{Threads, join};
use std::time::Clock;

/// The low byte of each object.
const LOWS: [u8; 4] = [0x00, 0x5a, 0xa5, 0xff];

/// The places of a record: three for each call of seven workers, and nearly as many for the keeper.
const PLACES: u32 = 400_000;

/// How many workers the largest round has.
const WORKERS: u32 = 7;

/// Plays a round, and tells how many calls its workers made. A fault of its keeper is told at once.
pub fn play_round<R: Threads + Wait + Clock + Sync>(
    rt: &R,
    alloc: Global,
    round: u32,
    outcome: &Outcome,
) -> Result<u64, Trouble> {
    let workers = WORKERS - round % WORKERS;
    let threads = workers as u16 + 1;
    let blank = Blank::new(u64::from(threads));
    let closed = play::<Brand, R>(rt, alloc, blank, round, threads, outcome)?;
    check_record(&closed)?;
    Ok(u64::from(workers) * CALLS as u64)
}

/// Opens a service for so many threads, has them work, and closes it.
fn play<L: Crew + Send + Sync, R: Threads + Wait + Clock + Sync>(
    rt: &R,
    alloc: Global,
    blank: Blank,
    round: u32,
    threads: u16,
    outcome: &Outcome,
) -> Result<Closed, Trouble>
    requires name { blank.name ≡ L.name }
    requires parts { (blank.parts ≡ L.parts) × (L.parts ≡ threads) }
    requires crew { (L.passes ≡ threads) × (L.monitors ≡ 4) × (L.places ≡ 400000) }
    requires some { 1 ≤ threads }
    requires few { threads ≤ 64 }
{
    let (live, passes) = Live::<L>::open(alloc, blank, &LOWS, OBJECTS, threads, PLACES)?;
    let passes = play_on(rt, alloc, &live, round, threads, passes, outcome)?;
    close(alloc, live, passes)
}

/// Closes a service with all its passes.
fn close<L: Crew>(alloc: Global, live: Live<L>, passes: Vec<LivePass<L>>) -> Result<Closed, Trouble>
    requires here { All (λ p. p.words.opening ≡ live) passes.items }
    requires crew { (L.parts ≡ live.count) × (L.passes ≡ live.count) }
{
    match live.close(alloc, passes) {
        Ok(closed) => Ok(closed),
        Err(LiveClose::WrongPass { .. }) => Err(Trouble::Passes),
        Err(LiveClose::Memory { .. }) => Err(Trouble::Memory(Memory)),
        Err(LiveClose::Torn) => Err(Trouble::Torn),
    }
}

/// Has so many threads work at a service, and checks the accounts that they kept.
fn play_on<L: Crew + Send + Sync, R: Threads + Wait + Clock + Sync>(
    rt: &R,
    alloc: Global,
    live: &Live<L>,
    round: u32,
    threads: u16,
    passes: Vec<LivePass<L>>,
    outcome: &Outcome,
) -> Result<Vec<LivePass<L>>, Trouble>
    requires here { All (λ p. p.words.opening ≡ live.now) passes.items }
    ensures here { IfOk result (λ ps. All (λ p. p.words.opening ≡ live.entry.now) ps.items) }
{
    let plans = plans_of(alloc, round, threads)?;
    let accounts = Accounts::new(alloc, plans)?;
    let passes = work(rt, alloc, live, &accounts, passes, outcome)?;
    accounts.check()?;
    Ok(passes)
}

/// The workers make their calls, and the last thread keeps them going; all passes come back.
fn work<L: Crew + Send + Sync, R: Threads + Wait + Clock + Sync>(
    rt: &R,
    alloc: Global,
    live: &Live<L>,
    accounts: &Accounts,
    mut passes: Vec<LivePass<L>>,
    outcome: &Outcome,
) -> Result<Vec<LivePass<L>>, Trouble>
    requires here { All (λ p. p.words.opening ≡ live.now) passes.items }
    ensures here { IfOk result (λ ps. All (λ p. p.words.opening ≡ live.entry.now) ps.items) }
{
    let Some(keeper) = last_pass(live, &mut passes) else {
        return Err(Trouble::Passes);
    };
    let works = works_of(alloc, live, accounts, passes)?;
    let is_over = AtomicCell::new(false);
    let is_over = &is_over;
    let (driven, kept) = join(
        rt,
        move || -> Option<Vec<Worked<L>>>
            requires { All (CanDrive live.now) works.items }
            ensures { IfSome result
                (λ v. All (λ d. d.pass.words.opening ≡ live.entry.now) v.items) }
        { drive_all(rt, alloc, live, accounts, works, is_over) },
        move || -> Kept<L>
            requires { keeper.words.opening ≡ live.now }
            ensures { result.pass.words.opening ≡ live.entry.now }
        { keep(rt, live, keeper, is_over, outcome) },
    );
    let Some(worked) = driven else {
        return Err(Trouble::Memory(Memory));
    };
    come_back(alloc, live, accounts, worked, kept)
}

/// All passes, once the workers and the keeper have come back with what they should.
fn come_back<L: Crew>(
    alloc: Global,
    live: &Live<L>,
    accounts: &Accounts,
    worked: Vec<Worked<L>>,
    kept: Kept<L>,
) -> Result<Vec<LivePass<L>>, Trouble>
    requires here { All (λ d. d.pass.words.opening ≡ live.now) worked.items }
    requires keeper { kept.pass.words.opening ≡ live.now }
    ensures here { IfOk result (λ ps. All (λ p. p.words.opening ≡ live.entry.now) ps.items) }
{
    if let Some(fault) = kept.fault {
        return Err(Trouble::Keeper(fault));
    }
    accounts.check_answers(&worked)?;
    Ok(passes_of(alloc, live, worked, kept.pass)?)
}

/// Drives the works, and tells that they are done.
fn drive_all<L: Crew + Send + Sync, R: Threads + Wait + Clock + Sync>(
    rt: &R,
    alloc: Global,
    live: &Live<L>,
    accounts: &Accounts,
    works: Vec<Work<L>>,
    is_over: &AtomicCell<bool>,
) -> Option<Vec<Worked<L>>>
    requires can { All (CanDrive live.now) works.items }
    ensures here { IfSome result (λ v. All (λ d. d.pass.words.opening ≡ live.entry.now) v.items) }
{
    let driven = drive(rt, alloc, live, works, accounts);
    is_over.store(true);
    driven.ok()
}

/// Each deed of the record must be one that some thread did.
fn check_record(closed: &Closed) -> Result<(), Trouble> {
    let logged = closed.logged.len() as u64;
    let mut counted = 0u64;
    for count in &closed.counts {
        counted = counted.wrapping_add(*count);
    }
    if logged != counted {
        return Err(Trouble::Record { logged, counted });
    }
    Ok(())
}
