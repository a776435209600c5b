//! Courses: lists of steps with the moves that they make, kept beside them.

use crate::JobFault;
use crate::draws::Draws;
use fast_path::Call;
use fat_monitor::{Cause, Reply};
use lock_word::{ObjectId, ThreadId};
use std::alloc::Global;
use step_core::{Move, Step};

/// What kinds of rounds a course has.
#[derive(Clone, Copy, PartialEq, Eq)]
pub enum Mix {
    /// Calls on thin words, each on its own object.
    Thin,
    /// Calls of every kind but `end`, and threads that contend and wait.
    Every,
    /// The same, and threads that end and come back.
    Ending,
}

/// The sizes of a course.
#[derive(Clone, Copy)]
pub struct Shape {
    pub mix: Mix,
    /// How many objects there are, and how many of them are used.
    pub objects: u32,
    pub used: u32,
    pub threads: u32,
    /// Whether the numbers of threads are spread over 32 bits.
    pub spread: bool,
    /// How many steps there are, at least.
    pub steps: u32,
}

/// Steps and their moves. Between two rounds each thread is in no call and no object is owned.
#[derive(Drop)]
pub struct Course {
    pub shape: Shape,
    pub draws: Draws,
    pub steps: Vec<Step>,
    pub moves: Vec<Move>,
    // Which of the used objects have a fat monitor.
    fat: Vec<bool>,
    pub now: u64,
}

impl Course {
    /// The attaches of all threads.
    pub fn new(alloc: Global, shape: Shape, seed: u64) -> Result<Course, JobFault> {
        let mut course = Course {
            shape,
            draws: Draws::new(seed),
            steps: Vec::new(alloc),
            moves: Vec::new(alloc),
            fat: vec![in alloc; false; shape.used as usize]?,
            now: 0,
        };
        for number in 0..shape.threads {
            course.attach(course.thread(number))?;
        }
        Ok(course)
    }

    /// The thread with this number.
    pub fn thread(&self, number: u32) -> ThreadId {
        if self.shape.spread {
            ThreadId(number.wrapping_mul(0x9E37_79B1))
        } else {
            ThreadId(number)
        }
    }

    /// Two threads.
    pub fn two_threads(&mut self) -> (ThreadId, ThreadId) {
        let first = self.draws.below(self.shape.threads);
        let second = first.wrapping_add(1);
        let second = if second < self.shape.threads {
            second
        } else {
            0
        };
        (self.thread(first), self.thread(second))
    }

    /// An object that is used.
    pub fn object(&mut self) -> ObjectId {
        ObjectId(self.draws.below(self.shape.used))
    }

    pub fn is_fat(&self, object: ObjectId) -> bool {
        match self.fat.get(object.0 as usize) {
            Some(fat) => *fat,
            None => false,
        }
    }

    pub fn set_fat(&mut self, object: ObjectId) {
        if let Some(fat) = self.fat.get_mut(object.0 as usize) {
            *fat = true;
        }
    }

    pub fn made(&mut self, made: Move) -> Result<(), JobFault> {
        Ok(self.moves.push(made)?)
    }

    pub fn attach(&mut self, thread: ThreadId) -> Result<(), JobFault> {
        self.steps.push(Step::Attach { thread })?;
        self.made(Move::Attach { thread })
    }

    /// Goes on so many times.
    pub fn go(&mut self, thread: ThreadId, times: u32) -> Result<(), JobFault> {
        for _ in 0..times {
            self.steps.push(Step::Go { thread })?;
        }
        Ok(())
    }

    /// Begins a call, and goes on so many times.
    pub fn call(&mut self, thread: ThreadId, call: Call, times: u32) -> Result<(), JobFault> {
        self.steps.push(Step::Begin { thread, call })?;
        self.made(Move::Call { thread, call })?;
        self.go(thread, times)
    }

    pub fn reply(&mut self, thread: ThreadId, reply: Reply) -> Result<(), JobFault> {
        self.made(Move::Return { thread, reply })
    }

    pub fn tick(&mut self) -> Result<(), JobFault> {
        self.now = self.now.wrapping_add(1_000_000);
        let now = self.now;
        self.steps.push(Step::Tick { now })?;
        self.made(Move::Time { now })
    }

    pub fn expire(&mut self, thread: ThreadId) -> Result<(), JobFault> {
        self.steps.push(Step::Expire { thread })?;
        self.made(Move::Expire { thread })
    }

    pub fn spurious(&mut self, thread: ThreadId) -> Result<(), JobFault> {
        self.steps.push(Step::Spurious { thread })?;
        self.made(Move::Spurious { thread })
    }

    /// A refused interrupt: nobody has this number.
    pub fn interrupt_nobody(&mut self, thread: ThreadId) -> Result<(), JobFault> {
        let cause = Cause::NoThread;
        self.call(thread, Call::Interrupt(ThreadId(4_000_000_000)), 1)?;
        self.made(Move::Refuse { thread, cause })?;
        self.reply(thread, Reply::Refused(cause))
    }
}
