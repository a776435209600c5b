//! What is told of the fat monitors and of the attached threads.

ghost use Rattle.std.specs.Prelude.{◌≡◌, ◌≤◌, length};
ghost use Rattle.fat_monitor.specs.FatState.{IsSound, post_of, flag_of, monitor_at, object_at};
ghost use Rattle.fat_monitor.specs.FatState.{wait_count};

use super::Fats;
use crate::Post;
use lock_word::{ObjectId, ThreadId};

impl Fats {
    /// Where an attached thread stands; None where it is not attached.
    #[inline(always)]
    pub fn post(&self, thread: ThreadId) -> Option<Post>
        ensures { result ≡ post_of self.now thread }
    {
        self.posts.get(thread)
    }

    /// Whether an attached thread is interrupted; None where it is not attached.
    pub fn flag(&self, thread: ThreadId) -> Option<bool>
        ensures { result ≡ flag_of self.now thread }
    {
        self.posts.get(thread)?;
        Some(self.posts.flag(thread))
    }

    /// The moment that was told last, in nanoseconds; 0 at first.
    pub fn now(&self) -> u64
        ensures value { result ≡ self.now.moment }
        ensures sound { IsSound self.now }
    {
        self.moment
    }

    /// The object whose monitor has this number; None where it is not bound.
    pub fn object(&self, monitor: u32) -> Option<ObjectId>
        ensures { result ≡ object_at self.now monitor }
    {
        self.monitors
            .get(monitor as usize)
            .map(|found| found.object)
    }

    /// The owner of a monitor; None where nobody owns it or it is not bound.
    pub fn owner(&self, monitor: u32) -> Option<ThreadId>
        ensures { result ≡ (monitor_at self.now monitor).owner }
    {
        self.monitors
            .get(monitor as usize)
            .and_then(|found| found.owner)
    }

    /// How often the owner of a monitor holds it, 0 to 65,535; 0 where nobody owns it or it is not
    /// bound.
    pub fn holds(&self, monitor: u32) -> u16
        ensures { result ≡ (monitor_at self.now monitor).holds }
    {
        self.monitors
            .get(monitor as usize)
            .map_or(0, |found| found.holds)
    }

    /// How many threads stand in wait sets, 0 to 32,767. This walks nothing.
    pub fn waiting(&self) -> u16
        ensures { result ≡ wait_count self.now.threads }
    {
        self.posts.waiting() as u16
    }

    /// How many monitors are bound: the number of the next one.
    pub fn bound(&self) -> u32
        ensures value { result ≡ length self.now.monitors }
        ensures most { result ≤ self.now.limit }
        ensures sound { IsSound self.now }
    {
        self.monitors.len() as u32
    }

    /// How many monitors can be bound in all.
    pub fn limit(&self) -> u32
        ensures { result ≡ self.now.limit }
    {
        self.limit
    }

    /// How many binds to come have their room already, and are not refused for want of memory.
    pub fn spare(&self) -> u32
        ensures { result ≡ self.now.spare }
    {
        self.spare
    }
}
