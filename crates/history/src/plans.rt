//! What a script plays: the world that it makes, and its steps, with numbers for names.

ghost use Rattle.std.specs.Prelude.{◌≡◌, ◌<◌, ◌≤◌, ◌++◌, ◌∷◌, [], false, length, vec_len, OnOk};
ghost use Rattle.std.specs.Prelude.{IfOk};
ghost use Rattle.lock_word.specs.Layout.{greatest_index};
ghost use Rattle.script_text.specs.Lines.{IsScript};
ghost use Rattle.script_text.specs.LinesSoFar.{object_names, with_object};
ghost use Rattle.history.specs.Calls.{call_in, names_with};
ghost use Rattle.script_text.specs.Names.{is_named};
ghost use Rattle.history.specs.Numbering.{FollowsWorld, IsWorldWith, MayTake, low_bytes};
ghost use Rattle.history.specs.Numbering.{names_in_step, names_of, names_then, no_names};
ghost use Rattle.history.specs.Numbering.{request_in, requests_of, requests_then, with_low};

use crate::names::Names;
use fast_path::Call;
use lock_word::{Memory, Split};
use script_text::{Line, Name, StepLine};
use std::alloc::Global;
use step_core::{Request, Step};

/// The world that a script makes, and the steps that it plays on it.
#[derive(Drop)]
pub struct Plan {
    pub names: Names,
    pub monitors: u32,
    pub indices: u16,
    pub split: Split,
    /// The low byte of each object.
    pub lows: Vec<u8>,
    /// The steps, and the relayouts between them.
    pub steps: Vec<Request>,
    ghost monitors_fit: { monitors ≤ 8388608 },
    ghost has_indices: { 1 ≤ indices },
    ghost indices_fit: { indices ≤ greatest_index split },
    ghost objects_fit: { vec_len lows ≤ 65535 },
    ghost objects_are_named: { length names.objects ≡ vec_len lows },
}

impl Plan {
    /// A world without objects and steps. Room for this many steps is asked for; where it is
    /// refused, each step asks for its own.
    pub(crate) fn new(alloc: Global, monitors: u32, indices: u16, split: Split, room: usize) -> Plan
        requires monitors { monitors ≤ 8388608 }
        requires some { 1 ≤ indices }
        requires few { indices ≤ greatest_index split }
        ensures world { (result.monitors ≡ monitors) × (result.indices ≡ indices)
            × (result.split ≡ split) }
        ensures none { (result.names ≡ no_names) × (result.lows.items ≡ []) }
        ensures no_steps { result.steps.items ≡ [] }
    {
        let mut steps = Vec::new(alloc);
        let _ = steps.reserve(room);
        Plan {
            names: Names::new(alloc),
            monitors,
            indices,
            split,
            lows: Vec::new(alloc),
            steps,
        }
    }

    /// Takes a line behind the first.
    #[inline(never)]
    pub(crate) fn take_line(&mut self, line: &Line<'_>) -> Result<(), Memory>
        requires { MayTake self.old.names.objects line.now }
        ensures objects { OnOk result (self.new.names.objects
            ≡ with_object self.old.names.objects line.now) }
        ensures lows { OnOk result (self.new.lows.items ≡ with_low self.old.lows.items line.now) }
        ensures names { OnOk result (self.new.names ≡ names_then self.old.names line.now) }
        ensures steps { OnOk result (self.new.steps.items
            ≡ self.old.steps.items ++ requests_then self.old.names line.now) }
        ensures world { (self.new.monitors ≡ self.old.monitors)
            × (self.new.indices ≡ self.old.indices) × (self.new.split ≡ self.old.split) }
    {
        match line {
            Line::World { .. } => Ok(()),
            Line::Object { name, low } => self.take_object(name, *low),
            Line::Step(step) => self.take_step_apart(step),
        }
    }

    /// Takes a step by a call, as [`take_step`](Plan::take_step) does in place.
    #[inline(never)]
    pub(crate) fn take_step_apart(&mut self, step: &StepLine<'_>) -> Result<(), Memory>
        ensures objects { OnOk result (self.new.names.objects ≡ self.old.names.objects) }
        ensures lows { OnOk result (self.new.lows.items ≡ self.old.lows.items) }
        ensures names { OnOk result (self.new.names ≡ names_in_step self.old.names step.now) }
        ensures steps { OnOk result (self.new.steps.items
            ≡ self.old.steps.items ++ request_in self.old.names step.now ∷ []) }
        ensures world { (self.new.monitors ≡ self.old.monitors)
            × (self.new.indices ≡ self.old.indices) × (self.new.split ≡ self.old.split) }
    {
        self.take_step(step)
    }

    #[inline(never)]
    fn take_object(&mut self, name: &Name<'_>, low: u8) -> Result<(), Memory>
        requires new { is_named self.old.names.objects name.now ≡ false }
        requires room { length self.old.names.objects < 65535 }
        ensures objects { OnOk result (self.new.names.objects
            ≡ self.old.names.objects ++ name.now ∷ []) }
        ensures lows { OnOk result (self.new.lows.items ≡ self.old.lows.items ++ low ∷ []) }
        ensures threads { OnOk result (self.new.names.threads ≡ self.old.names.threads) }
        ensures steps { OnOk result (self.new.steps.items ≡ self.old.steps.items) }
        ensures world { (self.new.monitors ≡ self.old.monitors)
            × (self.new.indices ≡ self.old.indices) × (self.new.split ≡ self.old.split) }
    {
        self.lows.reserve(1)?;
        self.names.declare(name)?;
        self.lows.push(low).unwrap();
        Ok(())
    }

    /// Takes a step. All that it calls up to the look for a name is in place, so that the step of
    /// a usual line is never written to memory as a line.
    #[inline(always)]
    pub(crate) fn take_step(&mut self, step: &StepLine<'_>) -> Result<(), Memory>
        ensures objects { OnOk result (self.new.names.objects ≡ self.old.names.objects) }
        ensures lows { OnOk result (self.new.lows.items ≡ self.old.lows.items) }
        ensures names { OnOk result (self.new.names ≡ names_in_step self.old.names step.now) }
        ensures steps { OnOk result (self.new.steps.items
            ≡ self.old.steps.items ++ request_in self.old.names step.now ∷ []) }
        ensures world { (self.new.monitors ≡ self.old.monitors)
            × (self.new.indices ≡ self.old.indices) × (self.new.split ≡ self.old.split) }
    {
        let request = request_of(&mut self.names, step)?;
        self.steps.push(request)?;
        Ok(())
    }
}

/// The step or relayout that a line is, by the numbers of its names.
#[inline(always)]
fn request_of(names: &mut Names, line: &StepLine<'_>) -> Result<Request, Memory>
    ensures request { IfOk result (λ r. r ≡ request_in names.old line.now) }
    ensures noted { OnOk result (names.new ≡ names_in_step names.old line.now) }
    ensures objects { names.new.objects ≡ names.old.objects }
{
    let step = match line {
        StepLine::Attach(thread) => Step::Attach {
            thread: names.thread(thread)?,
        },
        StepLine::Begin { thread, call } => Step::Begin {
            thread: names.thread(thread)?,
            call: call_of(names, call)?,
        },
        StepLine::Go(thread) => Step::Go {
            thread: names.thread(thread)?,
        },
        StepLine::Expire(thread) => Step::Expire {
            thread: names.thread(thread)?,
        },
        StepLine::Spurious(thread) => Step::Spurious {
            thread: names.thread(thread)?,
        },
        StepLine::Tick(now) => Step::Tick { now: *now },
        StepLine::Relayout(split) => return Ok(Request::Relayout(*split)),
    };
    Ok(Request::Step(step))
}

/// The call that a line has, by the numbers of its names. A target whose name is new gets the next
/// number.
#[inline(always)]
pub fn call_of(names: &mut Names, call: &script_text::Call<'_>) -> Result<Call, Memory>
    ensures call { IfOk result (λ c. c ≡ call_in names.old call.now) }
    ensures noted { OnOk result (names.new ≡ names_with names.old call.now) }
    ensures objects { names.new.objects ≡ names.old.objects }
{
    match call {
        script_text::Call::Enter(object) => Ok(Call::Enter(names.object(object))),
        script_text::Call::Exit(object) => Ok(Call::Exit(names.object(object))),
        script_text::Call::Wait {
            object,
            millis,
            nanos,
        } => Ok(Call::Wait {
            object: names.object(object),
            millis: *millis,
            nanos: *nanos,
        }),
        script_text::Call::Notify(object) => Ok(Call::Notify(names.object(object))),
        script_text::Call::NotifyAll(object) => Ok(Call::NotifyAll(names.object(object))),
        script_text::Call::Holds(object) => Ok(Call::Holds(names.object(object))),
        script_text::Call::Interrupt(target) => Ok(Call::Interrupt(names.thread(target)?)),
        script_text::Call::Interrupted => Ok(Call::Interrupted),
        script_text::Call::IsInterrupted(target) => {
            Ok(Call::IsInterrupted(names.thread(target)?))
        }
        script_text::Call::End => Ok(Call::End),
    }
}

/// Takes the lines behind the first.
fn take_lines(plan: &mut Plan, lines: &[Line<'_>]) -> Result<(), Memory>
    requires none { (plan.old.names ≡ no_names) × (plan.old.lows.items ≡ []) }
    requires no_steps { plan.old.steps.items ≡ [] }
    requires follow { FollowsWorld lines.now }
    ensures objects { OnOk result (plan.new.names.objects ≡ object_names lines.now) }
    ensures lows { OnOk result (plan.new.lows.items ≡ low_bytes lines.now) }
    ensures names { OnOk result (plan.new.names ≡ names_of lines.now) }
    ensures steps { OnOk result (plan.new.steps.items ≡ requests_of lines.now) }
    ensures world { OnOk result ((plan.new.monitors ≡ plan.old.monitors)
        × (plan.new.indices ≡ plan.old.indices) × (plan.new.split ≡ plan.old.split)) }
{
    'lines: for line in lines {
        plan.take_line(line)?;
    }
    Ok(())
}

/// What the lines of a script play, with numbers for their names.
pub(crate) fn plan_of(alloc: Global, lines: &[Line<'_>]) -> Result<Plan, Memory>
    requires { IsScript lines.now }
    ensures world { IfOk result
        (λ plan. IsWorldWith plan.monitors plan.indices plan.split lines.now) }
    ensures objects { IfOk result (λ plan. plan.names.objects ≡ object_names lines.now) }
    ensures lows { IfOk result (λ plan. plan.lows.items ≡ low_bytes lines.now) }
    ensures names { IfOk result (λ plan. plan.names ≡ names_of lines.now) }
    ensures steps { IfOk result (λ plan. plan.steps.items ≡ requests_of lines.now) }
{
    let [first, rest @ ..] = lines else {
        unreachable!()
    };
    let Line::World {
        monitors,
        indices,
        split,
    } = first
    else {
        unreachable!()
    };
    let mut plan = Plan::new(alloc, *monitors, *indices, *split, 0);
    take_lines(&mut plan, rest)?;
    plan.names.forget_hints();
    Ok(plan)
}
