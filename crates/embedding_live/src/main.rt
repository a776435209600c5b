//! A small runtime over [`Live`]: two threads of the system pay into one account, which they read
//! and write by a plain load and a plain store under the monitor of one object.
//!
//! `docs/LIVE.md` tells the calls in words.
#![tactic(auto)]

mod account;

ghost use Rattle.std.specs.Prelude.{◌≡◌, IfOk};

use account::{Account, Paid, Start, pay_in_with};
use fat_monitor::Reply;
use live_threads::{Live, LiveClose, LivePass};
use live_turns::{Closed, Crew, LiveFault};
use lock_word::Memory;
use std::alloc::Global;
use std::io;
use std::io::Print;
use std::marker::Brand;
use std::sync::Wait;
use std::sync::ledger::Blank;
use std::thread::{Threads, join};
use std::time::Clock;
use thiserror::Error;

/// Why the runtime stopped.
#[derive(Debug, Drop, Error)]
pub enum Trouble {
    #[error("{0}")]
    Memory(#[from] Memory),
    #[error("a call met the fault {0}")]
    Fault(LiveFault),
    #[error("a call had the reply {0}")]
    Reply(Reply),
    #[error("the passes are not those of the service")]
    Passes,
    #[error("the deeds of a pass are not those of the record")]
    Torn,
    #[error("the system: {0}")]
    System(#[from] io::Error),
}

/// How often each thread pays in.
const TIMES: u32 = 1_000;

/// Each call uses two places at most, and what a thread waits for a few more.
const PLACES: u32 = 20_000;

/// Both threads pay in, each with its pass, and the passes come back.
fn pay_in<L: Crew + Send + Sync, R: Threads + Wait + Clock + Sync>(
    rt: &R,
    live: &Live<L>,
    passes: (LivePass<L>, LivePass<L>),
    account: &Account,
) -> Result<(LivePass<L>, LivePass<L>), Trouble>
    requires first { passes.0.words.opening ≡ live.now }
    requires second { passes.1.words.opening ≡ live.now }
    ensures first { IfOk result (λ p. p.0.words.opening ≡ live.entry.now) }
    ensures second { IfOk result (λ p. p.1.words.opening ≡ live.entry.now) }
{
    let (first, second) = passes;
    let (one, two) = join(
        rt,
        move || -> Paid<L>
            requires { first.words.opening ≡ live.now }
            ensures { result.pass.words.opening ≡ live.entry.now }
        { pay_in_with(rt, live, first, account, Start::WhenTold, TIMES) },
        move || -> Paid<L>
            requires { second.words.opening ≡ live.now }
            ensures { result.pass.words.opening ≡ live.entry.now }
        { pay_in_with(rt, live, second, account, Start::AtOnce, TIMES) },
    );
    one.outcome?;
    two.outcome?;
    Ok((one.pass, two.pass))
}

/// Opens a service of one object, has both threads pay in, and closes it.
fn run<L: Crew + Send + Sync, R: Threads + Wait + Clock + Sync>(
    rt: &R,
    alloc: Global,
    blank: Blank,
    account: &Account,
) -> Result<Closed, Trouble>
    requires name { blank.name ≡ L.name }
    requires parts { (blank.parts ≡ L.parts) × (L.parts ≡ 2) }
    requires crew { (L.passes ≡ 2) × (L.monitors ≡ 1) × (L.places ≡ 20000) }
{
    let (live, mut passes) = Live::<L>::open(alloc, blank, &[0xA5], 1, 2, PLACES)?;
    let (Some(second), Some(first)) = (passes.pop(), passes.pop()) else {
        return Err(Trouble::Passes);
    };
    let (first, second) = pay_in(rt, &live, (first, second), account)?;
    close(alloc, live, first, second)
}

/// Closes a service of two passes.
fn close<L: Crew>(
    alloc: Global,
    live: Live<L>,
    first: LivePass<L>,
    second: LivePass<L>,
) -> Result<Closed, Trouble>
    requires first { first.words.opening ≡ live }
    requires second { second.words.opening ≡ live }
    requires crew { (L.parts ≡ live.count) × (L.passes ≡ live.count) }
{
    let Ok(passes) = vec![in alloc; first, second] else {
        return Err(Trouble::Memory(Memory));
    };
    match live.close(alloc, passes) {
        Ok(closed) => Ok(closed),
        Err(LiveClose::WrongPass { .. }) => Err(Trouble::Passes),
        Err(LiveClose::Memory { .. }) => Err(Trouble::Memory(Memory)),
        Err(LiveClose::Torn) => Err(Trouble::Torn),
    }
}

/// How many deeds all passes did together.
fn deeds_of(closed: &Closed) -> u64 {
    let mut deeds = 0u64;
    for count in &closed.counts {
        deeds = deeds.wrapping_add(*count);
    }
    deeds
}

fn main(rt: HostRuntime) -> Result<(), Trouble> {
    let account = Account::new();
    let closed = run::<Brand, _>(&rt, rt.alloc(), Blank::new(2), &account)?;
    let balance = account.balance();
    println!(&rt; "2 threads paid in {TIMES} times each: {balance}")?;
    if deeds_of(&closed) == closed.logged.len() as u64 {
        println!(&rt; "each deed of the record is some pass's")?;
    }
    Ok(())
}
