//! The rounds of a course, each of a few threads on one object.

use crate::JobFault;
use crate::courses::{Course, Mix, Shape};
use fast_path::Call;
use fat_monitor::Reply;
use lock_word::ThreadId;
use std::alloc::Global;
use step_core::Move;

/// How many threads wait together for a broadcast.
const WAITERS: u32 = 5;

impl Course {
    /// A course of this shape.
    pub fn play(alloc: Global, shape: Shape, seed: u64) -> Result<Course, JobFault> {
        let mut course = Course::new(alloc, shape, seed)?;
        for _ in 0..shape.steps {
            if course.steps.len() >= shape.steps as usize {
                break;
            }
            course.round()?;
        }
        Ok(course)
    }

    fn round(&mut self) -> Result<(), JobFault> {
        let drawn = self.draws.below(64);
        match self.shape.mix {
            Mix::Thin => self.thin_round(drawn),
            Mix::Every => self.any_round(drawn),
            Mix::Ending if drawn == 0 => self.end_round(),
            Mix::Ending => self.any_round(drawn),
        }
    }

    fn thin_round(&mut self, drawn: u32) -> Result<(), JobFault> {
        match drawn {
            0..=39 => self.nest(),
            40..=55 => self.lock_once(),
            _ => self.ask(),
        }
    }

    fn any_round(&mut self, drawn: u32) -> Result<(), JobFault> {
        match drawn {
            0..=19 => self.nest(),
            20..=27 => self.lock_once(),
            28..=35 => self.contend(),
            36..=43 => self.hand_on(),
            44..=47 => self.time_out(),
            48..=51 => self.interrupt_wait(),
            52..=53 => self.wake_for_nothing(),
            54..=57 => self.broadcast(),
            _ => self.ask(),
        }
    }

    fn lock_once(&mut self) -> Result<(), JobFault> {
        let (thread, _) = self.two_threads();
        let object = self.object();
        self.enter(thread, object)?;
        self.exit(thread, object)
    }

    fn nest(&mut self) -> Result<(), JobFault> {
        let (thread, _) = self.two_threads();
        let object = self.object();
        self.enter(thread, object)?;
        self.enter(thread, object)?;
        self.exit(thread, object)?;
        self.exit(thread, object)
    }

    /// One thread enters while another is the owner.
    fn contend(&mut self) -> Result<(), JobFault> {
        let (owner, thread) = self.two_threads();
        let object = self.object();
        let fat = self.is_fat(object);
        self.enter(owner, object)?;
        self.call(thread, Call::Enter(object), if fat { 2 } else { 1 })?;
        self.exit(owner, object)?;
        self.go(thread, if fat { 1 } else { 4 })?;
        self.set_fat(object);
        self.made(Move::Lock { thread })?;
        self.reply(thread, Reply::Entered)?;
        self.exit(thread, object)
    }

    /// A thread waits, and another notifies it.
    fn hand_on(&mut self) -> Result<(), JobFault> {
        let (waiter, thread) = self.two_threads();
        let object = self.object();
        self.enter(waiter, object)?;
        self.wait(waiter, object, 0)?;
        self.enter(thread, object)?;
        self.notify(thread, object, Some(waiter))?;
        self.exit(thread, object)?;
        self.relock(waiter, Reply::WaitOver)?;
        self.exit(waiter, object)
    }

    fn time_out(&mut self) -> Result<(), JobFault> {
        let (waiter, _) = self.two_threads();
        let object = self.object();
        self.enter(waiter, object)?;
        self.wait(waiter, object, 1)?;
        self.tick()?;
        self.expire(waiter)?;
        self.relock(waiter, Reply::WaitOver)?;
        self.exit(waiter, object)
    }

    fn wake_for_nothing(&mut self) -> Result<(), JobFault> {
        let (waiter, thread) = self.two_threads();
        let object = self.object();
        self.enter(waiter, object)?;
        self.wait(waiter, object, 0)?;
        self.spurious(waiter)?;
        self.relock(waiter, Reply::WaitOver)?;
        self.exit(waiter, object)?;
        self.exit_unowned(thread, object)
    }

    fn interrupt_wait(&mut self) -> Result<(), JobFault> {
        let (waiter, thread) = self.two_threads();
        let object = self.object();
        self.enter(waiter, object)?;
        self.wait(waiter, object, 0)?;
        self.interrupt(thread, waiter)?;
        self.relock(waiter, Reply::Interrupted)?;
        self.exit(waiter, object)
    }

    /// The thread so many places behind this one.
    fn behind(&self, first: u32, place: u32) -> ThreadId {
        let number = first.wrapping_add(place);
        let most = self.shape.threads;
        self.thread(if number < most {
            number
        } else {
            number.wrapping_sub(most)
        })
    }

    /// Some threads wait, and one wakes them all. There are more threads than these.
    fn broadcast(&mut self) -> Result<(), JobFault> {
        let first = self.draws.below(self.shape.threads);
        let object = self.object();
        for place in 0..WAITERS {
            let waiter = self.behind(first, place);
            self.enter(waiter, object)?;
            self.wait(waiter, object, 0)?;
        }
        let thread = self.behind(first, WAITERS);
        self.enter(thread, object)?;
        self.notify_all(thread, object)?;
        self.exit(thread, object)?;
        for place in 0..WAITERS {
            let waiter = self.behind(first, place);
            self.relock(waiter, Reply::WaitOver)?;
            self.exit(waiter, object)?;
        }
        Ok(())
    }

    fn ask(&mut self) -> Result<(), JobFault> {
        let (thread, other) = self.two_threads();
        let object = self.object();
        self.enter(thread, object)?;
        self.holds(thread, object, Reply::Yes)?;
        self.holds(other, object, Reply::No)?;
        self.notify(thread, object, None)?;
        self.exit(thread, object)?;
        self.interrupt_nobody(thread)?;
        self.interrupt(thread, other)?;
        self.is_interrupted(thread, other, Reply::Yes)?;
        self.interrupted(other, Reply::Yes)
    }

    fn end_round(&mut self) -> Result<(), JobFault> {
        let (thread, _) = self.two_threads();
        self.end(thread)
    }
}
