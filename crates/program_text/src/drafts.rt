//! A program as far as its text has been read, and which lines may follow.

ghost use Rattle.std.specs.Prelude.{◌≡◌, ◌≤◌, ◌+◌, ◌&&◌, ◌||◌, IfOk, Some, None, if◌then◌else◌, length};
ghost use Rattle.program_text.specs.Drafts.{is_before_threads, is_among_threads};
ghost use Rattle.program_text.specs.Drafts.{is_before_spurious, may_call, may_tell};
ghost use Rattle.program_text.specs.Drafts.{first_draft, is_whole, names_declared, rise_from};
ghost use Rattle.program_text.specs.Drafts.{with_line};
ghost use Rattle.program_text.specs.declared.lines.ProgramLine.TheVariants as line;

use crate::lines::{Moments, ProgramLine};
use history::Names;
use lock_word::{Memory, Split, ThreadId};
use script_text::{Call, Declared, Name};
use std::alloc::Global;
use std::marker::Model;

/// The most fat monitors of a world.
const MOST_MONITORS: u32 = 8_388_608;

/// The most objects of a program.
const MOST_OBJECTS: usize = 65_535;

/// The most threads of a program.
const MOST_THREADS: usize = 64;

/// The most calls of a program.
const MOST_CALLS: usize = 1_024;

/// The most moments of a clock.
const MOST_MOMENTS: usize = 1_048_576;

/// Which part of a text was read last.
#[derive(Clone, Copy)]
pub enum Part {
    /// The world, or an object.
    Objects,
    /// A thread, or a call of it.
    Threads,
    /// The clock.
    Clock,
    /// How often a wait may end for no reason.
    Spurious,
}

/// What the lines so far say.
#[derive(Drop)]
pub struct Draft<'a> {
    pub(crate) monitors: u32,
    pub(crate) indices: u16,
    pub(crate) split: Split,
    pub(crate) names: Names,
    pub(crate) lows: Vec<u8>,
    pub(crate) starts: Vec<usize>,
    pub(crate) calls: Vec<Call<'a>>,
    pub(crate) moments: Vec<u64>,
    pub(crate) spurious: u64,
    pub(crate) part: Part,
    pub(crate) lines: u64,
}

impl<'a> Model for Draft<'a> {
    ghost use Rattle.program_text.specs.Drafts.{DraftState, IsWithin};

    ghost Value = { DraftState };

    ghost view = { λ d. record {
      monitors = d.monitors;
      indices = d.indices;
      split = d.split;
      names = d.names;
      lows = d.lows.items;
      starts = d.starts.items;
      calls = d.calls.items;
      moments = d.moments.items;
      spurious = d.spurious;
      part = d.part;
      lines = d.lines;
    } };

    ghost invariant = { λ d. IsWithin (record {
      monitors = d.monitors;
      indices = d.indices;
      split = d.split;
      names = d.names;
      lows = d.lows.items;
      starts = d.starts.items;
      calls = d.calls.items;
      moments = d.moments.items;
      spurious = d.spurious;
      part = d.part;
      lines = d.lines;
    }) };
}

impl<'a> Draft<'a> {
    /// What the first line says; None where it is no world, or one beyond the limits.
    pub(crate) fn open(alloc: Global, line: &ProgramLine<'_>) -> Option<Draft<'a>>
        ensures { result ≡ first_draft line.now }
    {
        let ProgramLine::World {
            monitors,
            indices,
            split,
        } = line
        else {
            return None;
        };
        let (monitors, indices, split) = (*monitors, *indices, *split);
        if monitors > MOST_MONITORS || indices < 1 || indices > split.greatest_index() {
            return None;
        }
        Some(Draft {
            monitors,
            indices,
            split,
            names: Names::new(alloc),
            lows: Vec::new(alloc),
            starts: Vec::new(alloc),
            calls: Vec::new(alloc),
            moments: Vec::new(alloc),
            spurious: 0,
            part: Part::Objects,
            lines: 1,
        })
    }

    /// The number of the line behind those that came.
    pub(crate) fn next_line(&self) -> u64
        requires { self.now.lines ≤ 16777216 }
        ensures { result ≡ self.now.lines + 1 }
    {
        self.lines + 1
    }

    /// Whether this is a whole program, with these bytes left.
    pub(crate) fn is_whole(&self, rest: &[u8]) -> bool
        ensures { result ≡ is_whole self.now rest.now }
    {
        rest.is_empty() && !self.starts.is_empty()
    }

    /// Takes a line. False: it may not follow those that came, and the draft is not to be used any
    /// more.
    pub(crate) fn take(&mut self, line: ProgramLine<'a>) -> Result<bool, Memory>
        requires { self.old.lines ≤ 16777216 }
        ensures taken { IfOk result (λ yes. with_line self.old line.entry
            ≡ (if yes then Some self.new else None)) }
        ensures more { self.new.lines ≤ self.old.lines + 1 }
    {
        match line {
            ProgramLine::World { .. } => Ok(false),
            ProgramLine::Object { name, low } => self.take_object(&name, low),
            ProgramLine::Thread(name) => self.take_thread(&name),
            ProgramLine::Call(call) => self.take_call(call),
            ProgramLine::Clock(moments) => Ok(self.take_clock(moments)),
            ProgramLine::Spurious(times) => Ok(self.take_spurious(times)),
        }
    }

    fn take_object(&mut self, name: &Name<'_>, low: u8) -> Result<bool, Memory>
        requires { self.old.lines ≤ 16777216 }
        ensures taken { IfOk result (λ yes. with_line self.old (line.Object name.now low)
            ≡ (if yes then Some self.new else None)) }
        ensures more { self.new.lines ≤ self.old.lines + 1 }
    {
        if !is_before_threads(self.part)
            || self.names.has(name)
            || self.lows.len() >= MOST_OBJECTS
        {
            return Ok(false);
        }
        self.names.declare(name)?;
        self.lows.push(low)?;
        self.lines += 1;
        Ok(true)
    }

    #[tactic(auto, using(crate::proofs::Rising::rise_last))]
    fn take_thread(&mut self, name: &Name<'_>) -> Result<bool, Memory>
        requires { self.old.lines ≤ 16777216 }
        ensures taken { IfOk result (λ yes. with_line self.old (line.Thread name.now)
            ≡ (if yes then Some self.new else None)) }
        ensures more { self.new.lines ≤ self.old.lines + 1 }
    {
        let may_add = is_before_threads(self.part) || is_among_threads(self.part);
        let count = self.starts.len();
        if !may_add || count >= MOST_THREADS || count >= usize::from(self.indices) {
            return Ok(false);
        }
        let next = self.names.thread_count();
        let ThreadId(number) = self.names.thread(name)?;
        if number != next {
            return Ok(false);
        }
        self.starts.push(self.calls.len())?;
        self.part = Part::Threads;
        self.lines += 1;
        Ok(true)
    }

    #[tactic(auto, using(crate::proofs::Rising::rise_more))]
    fn take_call(&mut self, call: Call<'a>) -> Result<bool, Memory>
        requires { self.old.lines ≤ 16777216 }
        ensures taken { IfOk result (λ yes. with_line self.old (line.Call call.entry)
            ≡ (if yes then Some self.new else None)) }
        ensures more { self.new.lines ≤ self.old.lines + 1 }
    {
        if !self.may_call(&call) {
            return Ok(false);
        }
        self.calls.push(call)?;
        self.lines += 1;
        Ok(true)
    }

    /// Whether a call may follow.
    fn may_call(&mut self, call: &Call<'_>) -> bool
        ensures may { result ≡ may_call self.old call.now }
        ensures same { self.new ≡ self.old }
    {
        is_among_threads(self.part)
            && self.calls.len() < MOST_CALLS
            && names_declared(&mut self.names, call)
    }

    fn take_clock(&mut self, moments: Moments) -> bool
        requires { self.old.lines ≤ 16777216 }
        ensures taken { with_line self.old (line.Clock moments)
            ≡ (if result then Some self.new else None) }
        ensures more { self.new.lines ≤ self.old.lines + 1 }
    {
        let may_tell = is_among_threads(self.part)
            && moments.moments.len() <= MOST_MOMENTS
            && are_rising(&moments.moments);
        if may_tell {
            self.moments = moments.moments;
            self.part = Part::Clock;
            self.lines += 1;
        }
        may_tell
    }

    fn take_spurious(&mut self, times: u64) -> bool
        requires { self.old.lines ≤ 16777216 }
        ensures taken { with_line self.old (line.Spurious times)
            ≡ (if result then Some self.new else None) }
        ensures more { self.new.lines ≤ self.old.lines + 1 }
    {
        if !is_before_spurious(self.part) {
            return false;
        }
        self.spurious = times;
        self.part = Part::Spurious;
        self.lines += 1;
        true
    }
}

fn is_before_threads(part: Part) -> bool
    ensures { result ≡ is_before_threads part }
{
    matches!(part, Part::Objects)
}

fn is_among_threads(part: Part) -> bool
    ensures { result ≡ is_among_threads part }
{
    matches!(part, Part::Threads)
}

fn is_before_spurious(part: Part) -> bool
    ensures { result ≡ is_before_spurious part }
{
    matches!(part, Part::Threads | Part::Clock)
}

/// Whether moments never fall.
fn are_rising(moments: &[u64]) -> bool
    ensures { result ≡ rise_from 0 moments.now }
{
    let mut last = 0;
    'moments: for moment in moments {
        if *moment < last {
            return false;
        }
        last = *moment;
    }
    true
}

/// Whether the object that a call names is declared, if it names one.
fn names_declared(names: &mut Names, call: &Call<'_>) -> bool
    ensures declared { result ≡ names_declared names.old.objects call.now }
    ensures same { names.new ≡ names.old }
{
    match call {
        Call::Enter(object)
        | Call::Exit(object)
        | Call::Wait { object, .. }
        | Call::Notify(object)
        | Call::NotifyAll(object)
        | Call::Holds(object) => (names.object(object).0 as usize) < names.count(),
        Call::Interrupt(_) | Call::Interrupted | Call::IsInterrupted(_) | Call::End => true,
    }
}
