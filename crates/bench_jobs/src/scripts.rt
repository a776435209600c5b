//! Courses as scripts.

use crate::JobFault;
use crate::courses::{Course, Shape};
use fast_path::Call;
use itoa::Buffer;
use lock_word::{ObjectId, ThreadId};
use std::alloc::Global;
use step_core::Step;

/// How names are written.
#[derive(Clone, Copy, PartialEq, Eq)]
pub enum Spelling {
    /// A letter and a number.
    Short,
    /// 32 bytes, of which the last ones tell names apart.
    Long,
}

/// The names of some objects or threads, by number.
fn names(
    alloc: Global,
    short: &str,
    long: &str,
    count: u32,
    spelling: Spelling,
) -> Result<Vec<String>, JobFault> {
    let mut names = Vec::new(alloc);
    let mut digits = Buffer::new();
    for number in 0..count {
        let text = match spelling {
            Spelling::Short => digits.format(number),
            Spelling::Long => digits.format(number.wrapping_add(100_000) % 1_000_000),
        };
        let mut name = match spelling {
            Spelling::Short => String::from_str(alloc, short)?,
            Spelling::Long => String::from_str(alloc, long)?,
        };
        name.push_str(text)?;
        names.push(name)?;
    }
    Ok(names)
}

/// The text of a script, as far as it is written.
#[derive(Drop)]
pub struct Script {
    pub text: String,
    digits: Buffer,
    objects: Vec<String>,
    threads: Vec<String>,
}

impl Script {
    /// The world and the objects of a shape.
    pub fn new(alloc: Global, shape: Shape, spelling: Spelling) -> Result<Script, JobFault> {
        let object = "an_object_with_a_long_name";
        let thread = "a_thread_of_some_long_name";
        let mut script = Script {
            text: String::new(alloc),
            digits: Buffer::new(),
            objects: names(alloc, "o", object, shape.objects, spelling)?,
            threads: names(alloc, "t", thread, shape.threads, spelling)?,
        };
        script.put_world(shape)?;
        Ok(script)
    }

    fn put_world(&mut self, shape: Shape) -> Result<(), JobFault> {
        self.text.push_str("world ")?;
        self.put_number(u64::from(shape.used))?;
        self.text.push_str(" ")?;
        self.put_number(u64::from(shape.threads))?;
        self.text.push_str("\n")?;
        for name in &self.objects {
            self.text.push_str("object ")?;
            self.text.push_str(name.as_str())?;
            self.text.push_str(" A5\n")?;
        }
        Ok(())
    }

    fn put_number(&mut self, number: u64) -> Result<(), JobFault> {
        self.text.push_str(self.digits.format(number))?;
        Ok(())
    }

    fn put_thread(&mut self, thread: ThreadId) -> Result<(), JobFault> {
        match self.threads.get(thread.0 as usize) {
            Some(name) => self.text.push_str(name.as_str())?,
            None => self.text.push_str("nobody")?,
        }
        Ok(())
    }

    fn put_object(&mut self, object: ObjectId) -> Result<(), JobFault> {
        match self.objects.get(object.0 as usize) {
            Some(name) => self.text.push_str(name.as_str())?,
            None => self.text.push_str("nothing")?,
        }
        Ok(())
    }

    fn put_on(&mut self, verb: &str, object: ObjectId) -> Result<(), JobFault> {
        self.text.push_str(verb)?;
        self.put_object(object)
    }

    fn put_about(&mut self, verb: &str, target: ThreadId) -> Result<(), JobFault> {
        self.text.push_str(verb)?;
        self.put_thread(target)
    }

    fn put_call(&mut self, call: Call) -> Result<(), JobFault> {
        match call {
            Call::Enter(object) => self.put_on(" enter ", object),
            Call::Exit(object) => self.put_on(" exit ", object),
            Call::Notify(object) => self.put_on(" notify ", object),
            Call::NotifyAll(object) => self.put_on(" notifyall ", object),
            Call::Holds(object) => self.put_on(" holds ", object),
            Call::Wait { object, millis, .. } => {
                self.put_on(" wait ", object)?;
                let millis = if millis == 0 { " 0 0" } else { " 1 0" };
                Ok(self.text.push_str(millis)?)
            }
            Call::Interrupt(target) => self.put_about(" interrupt ", target),
            Call::IsInterrupted(target) => self.put_about(" isinterrupted ", target),
            Call::Interrupted => Ok(self.text.push_str(" interrupted")?),
            Call::End => Ok(self.text.push_str(" end")?),
        }
    }

    /// Adds the line of a step.
    pub fn put_step(&mut self, step: Step) -> Result<(), JobFault> {
        match step {
            Step::Attach { thread } => self.put_about("attach ", thread)?,
            Step::Begin { thread, call } => {
                self.put_about("begin ", thread)?;
                self.put_call(call)?;
            }
            Step::Go { thread } => self.put_about("go ", thread)?,
            Step::Expire { thread } => self.put_about("expire ", thread)?,
            Step::Spurious { thread } => self.put_about("spurious ", thread)?,
            Step::Tick { now } => {
                self.text.push_str("tick ")?;
                self.put_number(now)?;
            }
        }
        Ok(self.text.push_str("\n")?)
    }
}

/// The script of a course of this shape.
pub fn script_of(
    alloc: Global,
    shape: Shape,
    spelling: Spelling,
    seed: u64,
) -> Result<String, JobFault> {
    let course = Course::play(alloc, shape, seed)?;
    let mut script = Script::new(alloc, shape, spelling)?;
    for step in &course.steps {
        script.put_step(*step)?;
    }
    Ok(script.text)
}

/// The script of so many threads, each of which owns an object and enters that of the next: they
/// wait for each other in one ring. The seed is the first moment, and says who waits first; the last
/// line refuses a step.
pub fn ring_of(alloc: Global, threads: u32, seed: u64) -> Result<String, JobFault> {
    let shape = Shape {
        mix: crate::courses::Mix::Thin,
        objects: threads,
        used: threads,
        threads,
        spread: false,
        steps: 0,
    };
    let mut course = Course::new(alloc, shape, seed)?;
    for number in 0..threads {
        course.enter(ThreadId(number), ObjectId(number))?;
    }
    let first = course.draws.below(threads);
    for number in 0..threads {
        let turned = number.wrapping_add(first);
        let turned = if turned < threads {
            turned
        } else {
            turned.wrapping_sub(threads)
        };
        let next = turned.wrapping_add(1);
        let next = if next < threads { next } else { 0 };
        course.call(ThreadId(turned), Call::Enter(ObjectId(next)), 1)?;
    }
    let mut script = Script::new(alloc, shape, Spelling::Short)?;
    for step in &course.steps {
        script.put_step(*step)?;
    }
    script.put_step(Step::Tick { now: seed })?;
    script.put_step(Step::Tick { now: 0 })?;
    Ok(script.text)
}
