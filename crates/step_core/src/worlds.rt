//! The world, and its steps.

ghost use Rattle.std.specs.Prelude.{◌≡◌, ◌+◌, ◌<◌, ◌≤◌, length, Bool, true, Option, IfOk, IfErr};
ghost use Rattle.std.specs.Prelude.{IfSome, OnOk, OnErr, Some, None, map};
ghost use Rattle.std.specs.Option.{option_map};
ghost use Rattle.lock_word.specs.Layout.{greatest_index};
ghost use Rattle.fat_monitor.specs.FatState.{monitor_at, StandBehindOwners};
ghost use Rattle.thread_index.specs.Indices.{index_of, holder_of};
ghost use Rattle.step_core.specs.Machine.{Run, opening, Thread, ActExists, is_waiting};
ghost use Rattle.step_core.specs.World.{low_word, opening_world, word_at};
ghost use Rattle.step_core.specs.Shown.{shown, doing_of, doing_in};
ghost use Rattle.step_core.specs.Sound.{IsSound};
ghost use Rattle.step_core.specs.declared.steps.Step.TheVariants as step;
ghost use Rattle.step_core.specs.Step.{step_of, moves_of};
ghost use Rattle.step_core.specs.Changes.{Changes};
ghost use Rattle.step_core.specs.Labels.{HasLabels};
ghost use Rattle.step_core.specs.Refused.{IsRefused, IsAcceptable};
ghost use Rattle.step_core.specs.Path.{StepsOnPath};
ghost use Rattle.step_core.specs.Spared.{Spares};
ghost use Rattle.step_core.specs.Patient.{IsPatient};
ghost use Rattle.step_core.specs.Lasting.{Lasts};
ghost use Rattle.step_core.specs.Kept.{Keeps};

mod copies;
mod numbers;
mod readers;
mod relayout;

use crate::{Did, Doing, Fault, Place, Stage, Step, control, going};
use fast_path::Call;
use fat_monitor::{Fats, Post, Reply};
use lock_word::{Lock, Memory, ObjectId, Split, ThreadId, Word, lock_of};
pub use relayout::RelayoutFault;
use std::alloc::{AllocError, Global};
use std::marker::Model;
use thread_index::Indices;

/// Objects with a header word each, live threads with an index each, the place of each thread in
/// its call, and the fat monitors.
#[derive(Drop)]
pub struct World {
    split: Split,
    words: Vec<Word>,
    indices: Indices,
    // By berth, which is the index less one.
    places: Vec<Place>,
    fats: Fats,
}

// The word of each free object, which has its low byte alone.
fn free_words(alloc: Global, lows: &[u8]) -> Result<Vec<Word>, Memory>
    ensures { IfOk result (λ words. words.items ≡ map low_word lows.now) }
{
    let mut words = Vec::with_capacity(alloc, lows.len())?;
    for low in lows {
        words.push(Word(u32::from(*low)))?;
    }
    Ok(words)
}

impl Model for World {
    ghost use Rattle.std.specs.Coded.{codes};
    ghost use Rattle.std.specs.FinMap as map;
    ghost use Rattle.step_core.specs.World.{WorldState};
    ghost use Rattle.step_core.specs.View.{world_in};
    ghost use Rattle.step_core.specs.Sound.{IsSound};

    ghost Value = { WorldState };

    ghost coded = { Prim.hlevel (codes, map.code) };

    ghost view = { world_in };

    ghost invariant = { λ a. IsSound (world_in a) };
}

impl World {
    /// A world with one free object for each low byte, 0 to 65,535 of them; with at most `monitors`
    /// fat monitors, 0 to 8,388,608; and without threads, of which at most `indices`, 1 to 32,767,
    /// are live at once: 2,047 where the split is [`Deep`](Split::Deep).
    pub fn new(
        alloc: Global,
        lows: &[u8],
        monitors: u32,
        indices: u16,
        split: Split,
    ) -> Result<World, Memory>
        requires objects { length lows.now ≤ 65535 }
        requires monitors { monitors ≤ 8388608 }
        requires low { 1 ≤ indices }
        requires high { indices ≤ greatest_index split }
        ensures world { IfOk result (λ w. w ≡ opening_world lows.now monitors indices split) }
        ensures shows { IfOk result (λ w. shown w ≡ opening (length lows.now)) }
    {
        let words = free_words(alloc, lows)?;
        let places = vec![in alloc; Place::Idle; usize::from(indices)]?;
        Ok(World {
            split,
            words,
            indices: Indices::new(alloc, indices)?,
            places,
            fats: Fats::new(alloc, monitors),
        })
    }

    /// Does one step. A step that is refused leaves the world as it is.
    ///
    /// The moves that it hands out lead the abstract machine from the state that the world showed
    /// to the one that it shows then. Only an Attach may be refused for want of memory; a Go that
    /// finds no memory for a fat monitor is accepted, and says so in its atomic step.
    #[inline(always)]
    pub fn step(&mut self, step: Step) -> Result<Did, Fault>
        // The answer and the new world are those of the step relation; room is whether memory is
        // granted.
        ensures exact { (room : Bool) × (record { answer = result; after = self.new }
            ≡ step_of room self.old step) }

        // The atomic step names the one change of the words and the fat monitors.
        ensures changes { IfOk result (λ d. Changes self.old step d.atomic self.new) }

        // The moves are a run of the machine, and have the labels of the step.
        ensures run { Run (shown self.old) (moves_of result) (shown self.new) }
        ensures labels { IfOk result (HasLabels step) }

        // A fault is answered where it is the first of the step's faults whose cause holds, and
        // only there.
        ensures refused { IfErr result (IsRefused self.old step) }
        ensures accepted { OnOk result (IsAcceptable self.old step) }
        ensures unchanged { OnErr result (self.new ≡ self.old) }

        // A call that is refused leaves every owner, count, wait set and flag.
        ensures spared { IfOk result (λ d. Spares self.old d.reply self.new) }

        // A Go is one step on the path of its call, from its beginning to its reply.
        ensures path { IfOk result (λ d. StepsOnPath self.old step d self.new) }

        // A thread that is back from a wait set stays so until it has its reply, and a reply stays
        // until it is returned.
        ensures lasting { IfOk result (λ d. Lasts (shown self.old) step d.reply (shown self.new)) }

        // A Go replies, parks, meets another thread, or lowers the steps that its call has left; no
        // other thread's step changes them. The objects stay, and so does the low byte of each
        // word.
        ensures patient { IfOk result (λ d. IsPatient self.old step d self.new) }
        ensures kept { Keeps self.old self.new }

        // A thread stands in an entry line only while another thread owns that monitor.
        ensures behind { StandBehindOwners self.new.fats }
    {
        self.advance(step)
    }

    #[inline(always)]
    fn advance(&mut self, step: Step) -> Result<Did, Fault>
        ensures was { IsSound self.old }
        ensures exact { (room : Bool) × (record { answer = result; after = self.new }
            ≡ step_of room self.old step) }
    {
        match step {
            Step::Attach { thread } => self.attach(thread),
            Step::Begin { thread, call } => self.begin(thread, call),
            Step::Go { thread } => self.go(thread),
            Step::Expire { thread } => self.expire(thread),
            Step::Spurious { thread } => self.wake(thread),
            Step::Tick { now } => self.tick(now),
        }
    }

    #[tactic(auto, using(crate::proofs::Sound::AllSteps::attach_kept))]
    #[inline(always)]
    fn attach(&mut self, thread: ThreadId) -> Result<Did, Fault>
        ensures was { IsSound self.old }
        ensures exact { (room : Bool) × (record { answer = result; after = self.new }
            ≡ step_of room self.old (step.Attach thread)) }
    {
        control::attach(&mut self.indices, &mut self.places, &mut self.fats, thread)
    }

    #[tactic(auto, using(crate::proofs::Sound::AllSteps::begin_kept))]
    #[inline(always)]
    fn begin(&mut self, thread: ThreadId, call: Call) -> Result<Did, Fault>
        ensures was { IsSound self.old }
        ensures exact { record { answer = result; after = self.new }
            ≡ step_of true self.old (step.Begin thread call) }
    {
        control::begin(&self.words, &self.indices, &mut self.places, thread, call)
    }

    #[inline(always)]
    fn go(&mut self, thread: ThreadId) -> Result<Did, Fault>
        ensures was { IsSound self.old }
        ensures exact { (room : Bool) × (record { answer = result; after = self.new }
            ≡ step_of room self.old (step.Go thread)) }
    {
        going::go(
            self.split,
            &mut self.words,
            &mut self.indices,
            &mut self.places,
            &mut self.fats,
            thread,
        )
    }

    #[inline(always)]
    fn expire(&mut self, thread: ThreadId) -> Result<Did, Fault>
        ensures was { IsSound self.old }
        ensures exact { record { answer = result; after = self.new }
            ≡ step_of true self.old (step.Expire thread) }
    {
        control::expire(&self.indices, &mut self.fats, thread)
    }

    #[inline(always)]
    fn wake(&mut self, thread: ThreadId) -> Result<Did, Fault>
        ensures was { IsSound self.old }
        ensures exact { record { answer = result; after = self.new }
            ≡ step_of true self.old (step.Spurious thread) }
    {
        control::wake(&self.indices, &mut self.fats, thread)
    }

    #[inline(always)]
    fn tick(&mut self, now: u64) -> Result<Did, Fault>
        ensures was { IsSound self.old }
        ensures exact { record { answer = result; after = self.new }
            ≡ step_of true self.old (step.Tick now) }
    {
        control::tick(&mut self.fats, now)
    }

    /// The moment that was told last, in nanoseconds; 0 at first.
    pub fn now(&self) -> u64
        ensures { result ≡ (shown self.now).moment }
    {
        self.fats.now()
    }

    /// How many objects there are: they are numbered from 0.
    pub fn objects(&self) -> u32
        ensures { result ≡ (shown self.now).objects }
    {
        self.words.len() as u32
    }

    /// The header word of an object.
    pub fn word(&self, object: ObjectId) -> Word
        requires { object.0 < length self.now.words }
        ensures { result ≡ word_at self.now object.0 }
    {
        self.words[object.0 as usize]
    }

    /// Who owns an object, as its word shows it.
    pub fn owner(&self, object: ObjectId) -> Option<ThreadId>
        requires { object.0 < length self.now.words }
        ensures { result ≡ ((shown self.now).monitor object).owner }
    {
        match lock_of(self.split, self.words[object.0 as usize]) {
            Lock::Free => None,
            Lock::Thin { index, .. } => self.indices.id_of(index),
            Lock::Fat { monitor } => self.fats.owner(monitor),
        }
    }

    /// How often the owner of an object holds it, 0 to 65,535, as its word shows it.
    pub fn holds(&self, object: ObjectId) -> u16
        requires { object.0 < length self.now.words }
        ensures { result ≡ ((shown self.now).monitor object).count }
    {
        match lock_of(self.split, self.words[object.0 as usize]) {
            Lock::Free => 0,
            Lock::Thin { count, .. } => u16::from(count) + 1,
            Lock::Fat { monitor } => self.fats.holds(monitor),
        }
    }

    /// The index of a live thread; None where it is not live.
    pub fn index(&self, thread: ThreadId) -> Option<u16>
        ensures { result ≡ index_of self.now.berths thread }
    {
        self.indices.index_of(thread)
    }

    /// The live thread that has an index; None where none has it.
    pub fn thread_at(&self, index: u16) -> Option<ThreadId>
        ensures { result ≡ holder_of self.now.berths index }
    {
        self.indices.id_of(index)
    }

    /// Whether a live thread is interrupted (JLS SE 8, 17.2.3); None where it is not live.
    pub fn flag(&self, thread: ThreadId) -> Option<bool>
        ensures { result ≡ option_map (λ (x : Thread). x.flag) ((shown self.now).thread thread) }
    {
        self.fats.flag(thread)
    }

    /// What a live thread is doing; None where it is not live.
    pub fn doing(&self, thread: ThreadId) -> Option<Doing>
        ensures shown { result
            ≡ option_map (λ (x : Thread). x.act) ((shown self.now).thread thread) }
        ensures exists { IfSome result (ActExists (length self.now.words)) }
    {
        self.act(thread)
    }

    fn act(&self, thread: ThreadId) -> Option<Doing>
        ensures was { IsSound self.now }
        ensures shown { result
            ≡ option_map (λ (x : Thread). x.act) ((shown self.now).thread thread) }
    {
        let index = self.indices.index_of(thread)?;
        let doing = match self.fats.post(thread) {
            Some(Post::Entering { monitor }) => Doing::Wants(Call::Enter(self.object(monitor))),
            Some(
                Post::Waiting {
                    monitor,
                    holds,
                    deadline,
                },
            ) => {
                let object = self.object(monitor);
                Doing::Waits {
                    object,
                    holds,
                    deadline,
                }
            }
            Some(
                Post::Back {
                    monitor,
                    holds,
                    why,
                },
            ) => {
                let object = self.object(monitor);
                Doing::Back { object, holds, why }
            }
            Some(Post::Granted(reply)) => Doing::Has(reply),
            Some(Post::Out) | None => doing_of(self.places[index as usize - 1]),
        };
        Some(doing)
    }

    /// Whether a thread is in an object's wait set; one that is not live is in none.
    pub fn waiting(&self, object: ObjectId, thread: ThreadId) -> bool
        requires { object.0 < length self.now.words }
        ensures { result ≡ is_waiting ((shown self.now).thread thread) object }
    {
        match self.fats.post(thread) {
            Some(Post::Waiting { monitor, .. }) => self.object(monitor) == object,
            _ => false,
        }
    }

    /// The object of a bound monitor.
    fn object(&self, monitor: u32) -> ObjectId
        ensures { result ≡ (monitor_at self.now.fats monitor).object }
    {
        self.fats.object(monitor).unwrap_or(ObjectId(0))
    }
}

/// What a thread at this place is doing, where it is out of every fat action.
fn doing_of(place: Place) -> Doing
    ensures { result ≡ doing_of place }
{
    match place {
        Place::Idle | Place::AtPost => Doing::Idle,
        Place::InCall(stage) => doing_in(stage),
        Place::Ending { .. } => Doing::Wants(Call::End),
    }
}

/// What a thread at this stage of a call is doing.
fn doing_in(stage: Stage) -> Doing
    ensures { result ≡ doing_in stage }
{
    match stage {
        Stage::Begun { call, .. } | Stage::Storing { call, .. } | Stage::Binding { call, .. } =>
            Doing::Wants(call.call()),
        Stage::Acting { call, .. } | Stage::Inflated { call, .. } => Doing::Wants(call.call()),
        Stage::Direct { call } => Doing::Wants(call.call()),
        Stage::Taking { object, .. } => Doing::Wants(Call::Enter(object)),
        Stage::Won { .. } | Stage::Bound { won: true, .. } => Doing::Has(Reply::Entered),
        Stage::Bound {
            call,
            won: false,
            ..
        } => Doing::Wants(call.call()),
    }
}

impl Clone for World {
    ghost use Rattle.std.specs.Prelude.{◌≡◌};

    ghost is_clone = { λ world copy. copy ≡ world };

    /// A world of its own that is the same; or want of memory, and then nothing was made.
    fn clone(&self) -> Result<World, AllocError> {
        Ok(World {
            split: self.split,
            words: Vec::from_slice(*self.words.allocator(), &self.words)?,
            indices: self.indices.clone()?,
            places: Vec::from_slice(*self.places.allocator(), &self.places)?,
            fats: self.fats.clone()?,
        })
    }
}
