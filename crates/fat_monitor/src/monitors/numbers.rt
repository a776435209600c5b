//! The fat monitors and the attached threads as numbers.

ghost use Rattle.std.specs.Prelude.{◌≡◌, ◌++◌, is_ok, if◌then◌else◌, OnOk, OnErr};
ghost use Rattle.fat_monitor.specs.FatState.{IsSound};
ghost use Rattle.fat_monitor.specs.Numbers.{AreFlagged, BeginsWith, fat_numbers, line_numbers};
ghost use Rattle.fat_monitor.specs.Numbers.{monitor_numbers, owner_number, record_numbers};
ghost use Rattle.fat_monitor.specs.Numbers.{thread_numbers};

use super::{Fats, Monitor};
use crate::{Post, Reply};
use lock_word::{Memory, ThreadId};
use std::alloc::AllocError;
use wait_lines::{All, Role};

/// One more than the highest number of 64 bits.
const TWO_TO_64: u128 = 0x1_0000_0000_0000_0000;

impl Fats {
    /// Puts the numbers of the monitors, with their lines, of the moment and of the limits behind
    /// those that are there; those of the threads are put by [`push_thread`](Fats::push_thread).
    ///
    /// On want of memory the list has its old content, and some of these numbers behind it.
    #[tactic(auto, using(crate::proofs::Fronts::fronts))]
    pub fn push_numbers(&self, numbers: &mut Vec<u64>) -> Result<(), Memory>
        ensures written { OnOk result
            (numbers.new.items ≡ numbers.old.items ++ fat_numbers self.now) }
        ensures front { BeginsWith numbers.new.items numbers.old.items }
        ensures flagged { AreFlagged self.now }
        ensures sound { IsSound self.now }
    {
        self.posts.all_have_flags();
        let reservations = u64::from(self.lines.reservations());
        numbers.extend_from_slice(&[
            self.moment,
            u64::from(self.limit),
            u64::from(self.spare),
            reservations,
            self.monitors.len() as u64,
        ])?;
        for (number, monitor) in self.monitors.iter().enumerate() {
            self.push_monitor(number as u32, *monitor, numbers)?;
        }
        Ok(())
    }

    /// Puts the numbers of the flag and of the post of an attached thread behind those that are
    /// there. On want of memory the list stays as it is.
    pub fn push_thread(&self, thread: ThreadId, numbers: &mut Vec<u64>) -> Result<(), Memory>
        ensures written { OnOk result
            (numbers.new.items ≡ numbers.old.items ++ thread_numbers self.now thread) }
        ensures unchanged { OnErr result (numbers.new.items ≡ numbers.old.items) }
    {
        let post = self.posts.get(thread).unwrap_or(Post::Out);
        push_record(self.posts.flag(thread), post, numbers)?;
        Ok(())
    }

    // A monitor with its entry line and its wait set.
    #[tactic(auto, using(crate::proofs::Fronts::fronts))]
    fn push_monitor(
        &self,
        number: u32,
        monitor: Monitor,
        numbers: &mut Vec<u64>,
    ) -> Result<(), AllocError>
        ensures written { OnOk result (numbers.new.items
            ≡ numbers.old.items ++ monitor_numbers self.now.standing.lines number monitor) }
        ensures front { BeginsWith numbers.new.items numbers.old.items }
    {
        numbers.extend_from_slice(&[
            u64::from(monitor.object.0),
            owner_number(monitor.owner),
            u64::from(monitor.holds),
        ])?;
        push_line(self.lines.all(number, Role::Entry), numbers)?;
        push_line(self.lines.all(number, Role::Waiting), numbers)
    }
}

/// The number of an owner, or of nobody.
fn owner_number(owner: Option<ThreadId>) -> u64
    ensures { result ≡ owner_number owner }
{
    match owner {
        Some(thread) => u64::from(thread.0) + 1,
        None => 0,
    }
}

/// The threads of a line, and then 0.
#[tactic(auto, using(crate::proofs::Fronts::fronts))]
fn push_line(mut line: All<'_>, numbers: &mut Vec<u64>) -> Result<(), AllocError>
    ensures written { OnOk result
        (numbers.new.items ≡ numbers.old.items ++ line_numbers line.entry) }
    ensures front { BeginsWith numbers.new.items numbers.old.items }
{
    while let Some(thread) = line.next() {
        numbers.push(u64::from(thread.0) + 1)?;
    }
    numbers.push(0)?;
    Ok(())
}

/// The flag of a thread, and its post.
fn push_record(flag: bool, post: Post, numbers: &mut Vec<u64>) -> Result<(), AllocError>
    ensures { numbers.new.items ≡ (if is_ok result
        then numbers.old.items ++ record_numbers flag post
        else numbers.old.items) }
{
    let flag = u64::from(flag);
    match post {
        Post::Out => numbers.extend_from_slice(&[flag, 0]),
        Post::Entering { monitor } => { numbers.extend_from_slice(&[flag, 1, u64::from(monitor)]) }
        Post::Waiting {
            monitor,
            holds,
            deadline: None,
        } => numbers.extend_from_slice(&[flag, 2, u64::from(monitor), u64::from(holds), 0]),
        Post::Waiting {
            monitor,
            holds,
            deadline: Some(moment),
        } => numbers.extend_from_slice(&[
            flag,
            2,
            u64::from(monitor),
            u64::from(holds),
            1,
            (moment / TWO_TO_64) as u64,
            (moment % TWO_TO_64) as u64,
        ]),
        Post::Back {
            monitor,
            holds,
            why,
        } => numbers.extend_from_slice(&[
            flag,
            3,
            u64::from(monitor),
            u64::from(holds),
            why as u64,
        ]),
        Post::Granted(reply) => numbers.extend_from_slice(&[flag, 4, u64::from(reply.number())]),
    }
}
