//! A world as a list of numbers.

ghost use Rattle.std.specs.Prelude.{◌≡◌, ◌<◌, ◌^◌, ℕ, ◌++◌, length, slice_index, OnOk, OnErr};
ghost use Rattle.thread_index.specs.Indices.{holder_at};
ghost use Rattle.fat_monitor.specs.Numbers.{BeginsWith};
ghost use Rattle.step_core.specs.Numbers.{berths_numbers, call_numbers, holder_numbers};
ghost use Rattle.step_core.specs.Numbers.{interrupt_numbers, lock_numbers, numbers_of};
ghost use Rattle.step_core.specs.Numbers.{place_numbers, signed_numbers, stage_numbers};
ghost use Rattle.step_core.specs.Numbers.{words_numbers, IsNumbered};

use super::World;
use crate::{Place, Stage};
use fast_path::{InterruptCall, MonitorCall, Operation};
use lock_word::{Lock, Memory, Word};
use std::alloc::AllocError;

impl World {
    /// Puts the numbers of the world behind those that are there. Two worlds have the same numbers
    /// exactly where they are the same, as the law
    /// [`numbers_tell_worlds_apart`](crate::numbers_tell_worlds_apart) says.
    ///
    /// On want of memory the list has its old content.
    #[tactic(auto, using(fat_monitor::proofs::Fronts::fronts))]
    pub fn push_numbers(&self, numbers: &mut Vec<u64>) -> Result<(), Memory>
        ensures written { OnOk result
            (numbers.new.items ≡ numbers.old.items ++ numbers_of self.now) }
        ensures unchanged { OnErr result (numbers.new.items ≡ numbers.old.items) }
        ensures fits { OnOk result ((k : ℕ) → k < length (numbers_of self.now)
            → slice_index (numbers_of self.now) k < 2 ^ 64) }
        ensures numbered { OnOk result (IsNumbered self.now) }
    {
        let before = numbers.len();
        let pushed = self.push_parts(numbers);
        if pushed.is_err() {
            numbers.truncate(before);
        }
        pushed
    }

    #[tactic(auto, using(fat_monitor::proofs::Fronts::fronts))]
    fn push_parts(&self, numbers: &mut Vec<u64>) -> Result<(), Memory>
        ensures written { OnOk result
            (numbers.new.items ≡ numbers.old.items ++ numbers_of self.now) }
        ensures front { BeginsWith numbers.new.items numbers.old.items }
        ensures numbered { OnOk result (IsNumbered self.now) }
    {
        let split = self.split as u64;
        numbers.extend_from_slice(&[split, self.words.len() as u64, self.places.len() as u64])?;
        push_words(&self.words, numbers)?;
        self.push_berths(numbers)?;
        self.fats.push_numbers(numbers)
    }

    // Each berth with its place.
    #[tactic(auto, using(fat_monitor::proofs::Fronts::fronts))]
    fn push_berths(&self, numbers: &mut Vec<u64>) -> Result<(), Memory>
        ensures written { OnOk result (numbers.new.items ≡ numbers.old.items
            ++ berths_numbers self.now.fats self.now.berths self.now.places) }
        ensures front { BeginsWith numbers.new.items numbers.old.items }
    {
        for (berth, place) in self.places.iter().enumerate() {
            self.push_holder(berth as u16, numbers)?;
            push_place(*place, numbers)?;
        }
        Ok(())
    }

    // Who has a berth.
    #[tactic(auto, using(fat_monitor::proofs::Fronts::fronts))]
    fn push_holder(&self, berth: u16, numbers: &mut Vec<u64>) -> Result<(), Memory>
        requires { berth < length self.now.berths }
        ensures written { OnOk result (numbers.new.items ≡ numbers.old.items
            ++ holder_numbers self.now.fats (holder_at self.now.berths berth)) }
        ensures front { BeginsWith numbers.new.items numbers.old.items }
    {
        let Some(thread) = self.indices.id_of(berth + 1) else {
            numbers.push(0)?;
            return Ok(());
        };
        numbers.push(u64::from(thread.0) + 1)?;
        self.fats.push_thread(thread, numbers)
    }
}

#[tactic(auto, using(fat_monitor::proofs::Fronts::fronts))]
fn push_words(words: &[Word], numbers: &mut Vec<u64>) -> Result<(), AllocError>
    ensures written { OnOk result
        (numbers.new.items ≡ numbers.old.items ++ words_numbers words.now) }
    ensures front { BeginsWith numbers.new.items numbers.old.items }
{
    for word in words {
        numbers.push(u64::from(word.0))?;
    }
    Ok(())
}

#[tactic(auto, using(fat_monitor::proofs::Fronts::fronts))]
fn push_place(place: Place, numbers: &mut Vec<u64>) -> Result<(), AllocError>
    ensures written { OnOk result
        (numbers.new.items ≡ numbers.old.items ++ place_numbers place) }
    ensures front { BeginsWith numbers.new.items numbers.old.items }
{
    match place {
        Place::Idle => numbers.extend_from_slice(&[0]),
        Place::AtPost => numbers.extend_from_slice(&[1]),
        Place::Ending { loaded } => numbers.extend_from_slice(&[2, u64::from(loaded)]),
        Place::InCall(stage) => push_stage(stage, numbers),
    }
}

#[tactic(auto, using(fat_monitor::proofs::Fronts::fronts))]
fn push_stage(stage: Stage, numbers: &mut Vec<u64>) -> Result<(), AllocError>
    ensures written { OnOk result
        (numbers.new.items ≡ numbers.old.items ++ stage_numbers stage) }
    ensures front { BeginsWith numbers.new.items numbers.old.items }
{
    let call = match stage {
        Stage::Begun { call, contended } => {
            numbers.extend_from_slice(&[3, u64::from(contended)])?;
            call
        }
        Stage::Taking { object, contended } => {
            return numbers.extend_from_slice(&[4, u64::from(contended), u64::from(object.0)]);
        }
        Stage::Storing { call, lock } => {
            let [kind, first, second] = lock_numbers(lock);
            numbers.extend_from_slice(&[5, kind, first, second])?;
            call
        }
        Stage::Binding { call, count } => {
            numbers.extend_from_slice(&[6, u64::from(count)])?;
            call
        }
        Stage::Acting { call, monitor } => {
            numbers.extend_from_slice(&[7, u64::from(monitor)])?;
            call
        }
        Stage::Won { object } => return numbers.extend_from_slice(&[8, u64::from(object.0)]),
        Stage::Bound { call, won, monitor } => {
            numbers.extend_from_slice(&[9, u64::from(won), u64::from(monitor)])?;
            call
        }
        Stage::Inflated { call, monitor } => {
            numbers.extend_from_slice(&[10, u64::from(monitor)])?;
            call
        }
        Stage::Direct { call } => {
            let [kind, target] = interrupt_numbers(call);
            return numbers.extend_from_slice(&[11, kind, target]);
        }
    };
    push_call(call, numbers)
}

#[tactic(auto, using(fat_monitor::proofs::Fronts::fronts))]
fn push_call(call: MonitorCall, numbers: &mut Vec<u64>) -> Result<(), AllocError>
    ensures written { OnOk result
        (numbers.new.items ≡ numbers.old.items ++ call_numbers call) }
    ensures front { BeginsWith numbers.new.items numbers.old.items }
{
    let object = u64::from(call.object.0);
    match call.operation {
        Operation::Enter => numbers.extend_from_slice(&[object, 0]),
        Operation::Exit => numbers.extend_from_slice(&[object, 1]),
        Operation::Wait { millis, nanos } => {
            let [below, distance] = signed_numbers(millis);
            let [nanos_below, nanos_distance] = signed_numbers(i64::from(nanos));
            numbers.extend_from_slice(&[object, 2, below, distance, nanos_below, nanos_distance])
        }
        Operation::Notify => numbers.extend_from_slice(&[object, 3]),
        Operation::NotifyAll => numbers.extend_from_slice(&[object, 4]),
        Operation::Holds => numbers.extend_from_slice(&[object, 5]),
    }
}

/// Whether the number is below 0, and how far it is from 0 or from -1.
fn signed_numbers(number: i64) -> [u64; 2]
    ensures { result ≡ signed_numbers number }
{
    if number < 0 {
        [1, (-1 - number) as u64]
    } else {
        [0, number as u64]
    }
}

fn lock_numbers(lock: Lock) -> [u64; 3]
    ensures { result ≡ lock_numbers lock }
{
    match lock {
        Lock::Free => [0, 0, 0],
        Lock::Thin { index, count } => [1, u64::from(index), u64::from(count)],
        Lock::Fat { monitor } => [2, u64::from(monitor), 0],
    }
}

fn interrupt_numbers(call: InterruptCall) -> [u64; 2]
    ensures { result ≡ interrupt_numbers call }
{
    match call {
        InterruptCall::Interrupt(target) => [0, u64::from(target.0)],
        InterruptCall::Interrupted => [1, 0],
        InterruptCall::IsInterrupted(target) => [2, u64::from(target.0)],
    }
}
