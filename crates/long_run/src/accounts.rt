//! Accounts, into which only the owner of an object pays.

use crate::plans::{OBJECTS, Plan};
use crate::replies;
use crate::trouble::Trouble;
use crossbeam_utils::atomic::AtomicCell;
use fast_path::Call;
use live_threads::{Gate, Worked};
use live_turns::Crew;
use lock_word::{Memory, ObjectId};
use std::alloc::Global;

/// An account for each object, and what the workers call. A worker pays 1 in after each enter,
/// while it owns the object, by a load and a store that are not one atomic step.
#[derive(Drop)]
pub struct Accounts {
    plans: Vec<Plan>,
    balances: Vec<AtomicCell<u64>>,
}

impl Accounts {
    /// Empty accounts, for these calls of the workers.
    pub fn new(alloc: Global, plans: Vec<Plan>) -> Result<Self, Memory> {
        let mut balances = Vec::new(alloc);
        for _ in 0..OBJECTS {
            balances.push(AtomicCell::new(0))?;
        }
        Ok(Accounts { plans, balances })
    }

    /// The call that a worker makes, both numbered as `Gate` does.
    fn call(&self, worker: usize, call: usize) -> Option<Call> {
        let plan = self.plans.get(worker)?;
        plan.calls.get(call.checked_sub(1)?).copied()
    }

    /// What each worker calls.
    pub fn plans(&self) -> &[Plan] {
        &self.plans
    }

    fn pay_in(&self, object: ObjectId) {
        if let Some(account) = self.balances.get(object.0 as usize) {
            let balance = account.load();
            account.store(balance.wrapping_add(1));
        }
    }

    fn balance_of(&self, object: ObjectId) -> u64 {
        match self.balances.get(object.0 as usize) {
            Some(account) => account.load(),
            None => 0,
        }
    }

    /// How often an object is entered by all workers.
    fn enters_of(&self, object: ObjectId) -> u64 {
        let mut enters = 0u64;
        for plan in &self.plans {
            enters = enters.wrapping_add(enters_in(&plan.calls, object));
        }
        enters
    }

    /// Each call of each worker must have its reply.
    pub fn check_answers<L: Crew>(&self, worked: &[Worked<L>]) -> Result<(), Trouble> {
        for (worker, plan) in self.plans.iter().enumerate() {
            let Some(done) = worked.get(worker) else {
                return Err(Trouble::Passes);
            };
            replies::check(&plan.calls, &done.answers)?;
        }
        Ok(())
    }

    /// Each account must have what was paid in.
    pub fn check(&self) -> Result<(), Trouble> {
        for object in 0..OBJECTS {
            let enters = self.enters_of(ObjectId(object));
            let balance = self.balance_of(ObjectId(object));
            if balance != enters {
                return Err(Trouble::Account {
                    object,
                    enters,
                    balance,
                });
            }
        }
        Ok(())
    }
}

fn enters_in(plan: &[Call], object: ObjectId) -> u64 {
    let mut enters = 0u64;
    for call in plan {
        if *call == Call::Enter(object) {
            enters = enters.wrapping_add(1);
        }
    }
    enters
}

impl Gate for Accounts {
    fn before(&self, _worker: usize, _call: usize) -> bool {
        true
    }

    fn after(&self, worker: usize, call: usize) {
        if let Some(Call::Enter(object)) = self.call(worker, call) {
            self.pay_in(object);
        }
    }
}
