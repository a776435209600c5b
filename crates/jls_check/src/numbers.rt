//! A machine as a list of numbers.

ghost use Rattle.std.specs.Prelude.{◌≡◌, ◌++◌, List, ℕ, OnOk};
ghost use Rattle.fat_monitor.specs.Numbers.{BeginsWith, owner_number};
ghost use Rattle.step_core.specs.Numbers.{signed_numbers};
ghost use Rattle.jls_check.specs.MachineState.{IsSound, MachineState};
ghost use Rattle.jls_check.specs.Numbers.{AreBelow, call_numbers, doing_numbers, numbers_of};
ghost use Rattle.jls_check.specs.Numbers.{object_numbers, objects_numbers, record_numbers};
ghost use Rattle.jls_check.specs.Numbers.{threads_numbers};

use crate::Machine;
use crate::monitors::ObjectRecord;
use crate::threads::ThreadRecord;
use fast_path::Call;
use lock_word::{Memory, ThreadId};
use std::alloc::AllocError;
use step_core::Doing;

/// One more than the highest number of 64 bits.
const TWO_TO_64: u128 = 0x1_0000_0000_0000_0000;

/// Two machines whose threads have numbers below this one, and that have the same numbers, are the
/// same, whatever numbers stand behind them.
pub fn numbers_tell_machines_apart()
    ensures { (n : ℕ) (v w : MachineState) (a b : List ℕ) → AreBelow n v → AreBelow n w
        → numbers_of n v ++ a ≡ numbers_of n w ++ b → (v ≡ w) × (a ≡ b) }
{}

impl Machine {
    /// Puts the numbers of the machine behind those that are there: the moment, and how many objects
    /// there are; of each object its owner, how often it is locked and how many threads wait on it;
    /// and each thread below this number. Two machines without other threads have the same numbers
    /// exactly where they are the same, as the law [`numbers_tell_machines_apart`] says.
    ///
    /// On want of memory the list begins with its old content, and may have some of these numbers
    /// behind it.
    #[tactic(auto, using(fat_monitor::proofs::Fronts::fronts))]
    pub fn push_numbers(&self, threads: u32, numbers: &mut Vec<u64>) -> Result<(), Memory>
        ensures written { OnOk result
            (numbers.new.items ≡ numbers.old.items ++ numbers_of threads self.now) }
        ensures front { BeginsWith numbers.new.items numbers.old.items }
        // It holds of every machine; a caller that has its value alone learns it here.
        ensures sound { IsSound self.now }
    {
        numbers.extend_from_slice(&[self.moment, self.objects.len() as u64])?;
        push_objects(&self.objects, numbers)?;
        self.push_threads(threads, numbers)
    }

    /// Puts the numbers of the threads below this one behind those that are there.
    #[tactic(auto, using(fat_monitor::proofs::Fronts::fronts))]
    fn push_threads(&self, threads: u32, numbers: &mut Vec<u64>) -> Result<(), Memory>
        ensures written { OnOk result (numbers.new.items
            ≡ numbers.old.items ++ threads_numbers self.now.threads threads) }
        ensures front { BeginsWith numbers.new.items numbers.old.items }
    {
        'threads: for thread in 0..threads {
            push_record(self.threads.kept(ThreadId(thread)), numbers)?;
        }
        Ok(())
    }
}

/// Puts three numbers for each object behind those that are there.
#[tactic(auto, using(fat_monitor::proofs::Fronts::fronts))]
fn push_objects(objects: &[ObjectRecord], numbers: &mut Vec<u64>) -> Result<(), AllocError>
    ensures written { OnOk result
        (numbers.new.items ≡ numbers.old.items ++ objects_numbers objects.now) }
    ensures front { BeginsWith numbers.new.items numbers.old.items }
{
    'objects: for object in objects {
        push_object(*object, numbers)?;
    }
    Ok(())
}

/// Puts the owner of an object, how often it is locked, and how many threads wait on it.
#[tactic(auto, using(fat_monitor::proofs::Fronts::fronts))]
fn push_object(object: ObjectRecord, numbers: &mut Vec<u64>) -> Result<(), AllocError>
    ensures written { OnOk result
        (numbers.new.items ≡ numbers.old.items ++ object_numbers object) }
    ensures front { BeginsWith numbers.new.items numbers.old.items }
{
    let owner = owner_number(object.held.owner);
    numbers.extend_from_slice(&[owner, u64::from(object.held.count), object.waiting])
}

/// The number of an owner, or of nobody.
fn owner_number(owner: Option<ThreadId>) -> u64
    ensures { result ≡ owner_number owner }
{
    match owner {
        Some(thread) => u64::from(thread.0) + 1,
        None => 0,
    }
}

/// Puts what is kept of a thread: its flag, how many objects it owns, and what it is doing.
#[tactic(auto, using(fat_monitor::proofs::Fronts::fronts))]
fn push_record(kept: Option<ThreadRecord>, numbers: &mut Vec<u64>) -> Result<(), AllocError>
    ensures written { OnOk result
        (numbers.new.items ≡ numbers.old.items ++ record_numbers kept) }
    ensures front { BeginsWith numbers.new.items numbers.old.items }
{
    let Some(kept) = kept else {
        return numbers.extend_from_slice(&[0]);
    };
    numbers.extend_from_slice(&[u64::from(kept.live.flag) + 1, kept.owned])?;
    push_doing(kept.live.act, numbers)
}

/// Puts what a thread is doing, its kind first.
#[tactic(auto, using(fat_monitor::proofs::Fronts::fronts))]
fn push_doing(act: Doing, numbers: &mut Vec<u64>) -> Result<(), AllocError>
    ensures written { OnOk result (numbers.new.items ≡ numbers.old.items ++ doing_numbers act) }
    ensures front { BeginsWith numbers.new.items numbers.old.items }
{
    match act {
        Doing::Idle => numbers.extend_from_slice(&[0]),
        Doing::Wants(call) => {
            numbers.push(1)?;
            push_call(call, numbers)
        }
        Doing::Waits {
            object,
            holds,
            deadline: None,
        } => numbers.extend_from_slice(&[2, u64::from(object.0), u64::from(holds), 0]),
        Doing::Waits {
            object,
            holds,
            deadline: Some(moment),
        } => numbers.extend_from_slice(&[
            2,
            u64::from(object.0),
            u64::from(holds),
            1,
            (moment / TWO_TO_64) as u64,
            (moment % TWO_TO_64) as u64,
        ]),
        Doing::Back { object, holds, why } => {
            numbers.extend_from_slice(&[3, u64::from(object.0), u64::from(holds), why as u64])
        }
        Doing::Has(reply) => numbers.extend_from_slice(&[4, u64::from(reply.number())]),
    }
}

/// Puts a call, its kind first.
#[tactic(auto, using(fat_monitor::proofs::Fronts::fronts))]
fn push_call(call: Call, numbers: &mut Vec<u64>) -> Result<(), AllocError>
    ensures written { OnOk result (numbers.new.items ≡ numbers.old.items ++ call_numbers call) }
    ensures front { BeginsWith numbers.new.items numbers.old.items }
{
    match call {
        Call::Enter(object) => numbers.extend_from_slice(&[0, u64::from(object.0)]),
        Call::Exit(object) => numbers.extend_from_slice(&[1, u64::from(object.0)]),
        Call::Wait {
            object,
            millis,
            nanos,
        } => {
            let [below, distance] = signed_numbers(millis);
            let [nanos_below, nanos_distance] = signed_numbers(i64::from(nanos));
            numbers.extend_from_slice(&[
                2,
                u64::from(object.0),
                below,
                distance,
                nanos_below,
                nanos_distance,
            ])
        }
        Call::Notify(object) => numbers.extend_from_slice(&[3, u64::from(object.0)]),
        Call::NotifyAll(object) => numbers.extend_from_slice(&[4, u64::from(object.0)]),
        Call::Holds(object) => numbers.extend_from_slice(&[5, u64::from(object.0)]),
        Call::Interrupt(thread) => numbers.extend_from_slice(&[6, u64::from(thread.0)]),
        Call::Interrupted => numbers.extend_from_slice(&[7, 0]),
        Call::IsInterrupted(thread) => numbers.extend_from_slice(&[8, u64::from(thread.0)]),
        Call::End => numbers.extend_from_slice(&[9, 0]),
    }
}

/// Whether the number is below 0, and how far it is from 0 or from -1.
fn signed_numbers(number: i64) -> [u64; 2]
    ensures { result ≡ signed_numbers number }
{
    if number < 0 {
        [1, (-1 - number) as u64]
    } else {
        [0, number as u64]
    }
}
