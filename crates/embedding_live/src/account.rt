//! The account, and what each thread does with it.

ghost use Rattle.std.specs.Prelude.{◌≡◌};

use crate::Trouble;
use crossbeam_utils::atomic::AtomicCell;
use fat_monitor::Reply;
use live_threads::{Live, LivePass};
use live_turns::{Crew, LiveFault};
use lock_word::ObjectId;
use std::sync::Wait;
use std::time::Clock;

const OBJECT: ObjectId = ObjectId(0);

/// What only the owner of the object reads and writes.
#[derive(Drop)]
pub struct Account {
    balance: AtomicCell<u64>,
    is_open: AtomicCell<bool>,
}

impl Account {
    /// An account with nothing on it, which is not open yet.
    pub fn new() -> Self {
        Account {
            balance: AtomicCell::new(0),
            is_open: AtomicCell::new(false),
        }
    }

    /// What was paid in.
    pub fn balance(&self) -> u64 {
        self.balance.load()
    }

    /// Pays 1 in, by a load and a store that are not one atomic step.
    fn pay_in(&self) {
        let balance = self.balance.load();
        self.balance.store(balance.wrapping_add(1));
    }
}

/// The call must have this reply.
fn expect(answer: Result<Reply, LiveFault>, wanted: Reply) -> Result<(), Trouble> {
    match answer {
        Ok(reply) if reply == wanted => Ok(()),
        Ok(reply) => Err(Trouble::Reply(reply)),
        Err(fault) => Err(Trouble::Fault(fault)),
    }
}

/// Pays in so many times, each time as the owner of the object.
fn pay_in_often<L: Crew, R: Wait + Clock>(
    rt: &R,
    live: &Live<L>,
    pass: &mut LivePass<L>,
    account: &Account,
    times: u32,
) -> Result<(), Trouble>
    requires here { pass.old.words.opening ≡ live.now }
    ensures here { pass.new.words.opening ≡ live.entry.now }
{
    for _ in 0..times {
        expect(live.enter(rt, pass, OBJECT), Reply::Entered)?;
        account.pay_in();
        expect(live.exit(rt, pass, OBJECT), Reply::Exited)?;
    }
    Ok(())
}

/// When a thread begins to pay in.
#[derive(Clone, Copy)]
pub enum Start {
    /// Once the account is open.
    WhenTold,
    /// At once: it opens the account.
    AtOnce,
}

/// A pass that comes back from a thread, and how its calls ended.
#[derive(Drop)]
pub struct Paid<L: Crew> {
    pub pass: LivePass<L>,
    pub outcome: Result<(), Trouble>,
}

/// Waits until the account is open, and then pays in so many times.
fn begin_when_told<L: Crew, R: Wait + Clock>(
    rt: &R,
    live: &Live<L>,
    pass: &mut LivePass<L>,
    account: &Account,
    times: u32,
) -> Result<(), Trouble>
    requires here { pass.old.words.opening ≡ live.now }
    ensures here { pass.new.words.opening ≡ live.entry.now }
{
    expect(live.enter(rt, pass, OBJECT), Reply::Entered)?;
    if !account.is_open.load() {
        expect(live.wait_on(rt, pass, OBJECT, 0, 0), Reply::WaitOver)?;
    }
    expect(live.exit(rt, pass, OBJECT), Reply::Exited)?;
    pay_in_often(rt, live, pass, account, times)
}

/// Opens the account, tells whoever waits for that, and pays in so many times.
fn begin_at_once<L: Crew, R: Wait + Clock>(
    rt: &R,
    live: &Live<L>,
    pass: &mut LivePass<L>,
    account: &Account,
    times: u32,
) -> Result<(), Trouble>
    requires here { pass.old.words.opening ≡ live.now }
    ensures here { pass.new.words.opening ≡ live.entry.now }
{
    expect(live.enter(rt, pass, OBJECT), Reply::Entered)?;
    account.is_open.store(true);
    expect(live.notify_all(rt, pass, OBJECT), Reply::Notified)?;
    expect(live.exit(rt, pass, OBJECT), Reply::Exited)?;
    pay_in_often(rt, live, pass, account, times)
}

/// Pays in with a pass, which comes back.
pub fn pay_in_with<L: Crew, R: Wait + Clock>(
    rt: &R,
    live: &Live<L>,
    mut pass: LivePass<L>,
    account: &Account,
    start: Start,
    times: u32,
) -> Paid<L>
    requires here { pass.words.opening ≡ live.now }
    ensures here { result.pass.words.opening ≡ live.entry.now }
{
    let outcome = match start {
        Start::WhenTold => begin_when_told(rt, live, &mut pass, account, times),
        Start::AtOnce => begin_at_once(rt, live, &mut pass, account, times),
    };
    Paid { pass, outcome }
}
