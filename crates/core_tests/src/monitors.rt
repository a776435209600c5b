//! What no script can show: monitors bound one by one, what the readers answer,
//! and what is written.

ghost use Rattle.std.specs.Prelude.{◌+◌, ◌<◌, ◌≤◌};
ghost use Rattle.fat_monitor.specs.FatState.{thread_count};

use crate::rows::expect_none;
use binding::{RECEIPT, RESERVED};
use fat_monitor::{Action, Cause, Done, Fats, Post, Receipt};
use lock_word::{Memory, ObjectId, ThreadId};
use readers::{BOUND, COPIED, GRANTS, RESERVING, WAITER};
use std::alloc::Global;

mod binding;
mod names;
mod readers;

const SEVEN: ThreadId = ThreadId(7);

const EIGHT: ThreadId = ThreadId(8);

const OBJECT: ObjectId = ObjectId(0);

/// Whether the thread is attached now, and was not before.
fn attach(fats: &mut Fats, thread: ThreadId) -> bool
    requires { thread_count fats.old < 100 }
    ensures { thread_count fats.new ≤ thread_count fats.old + 1 }
{
    let Ok(()) = fats.attach(thread) else {
        return false;
    };
    true
}

/// What is asked of fat monitors, and what has to be answered.
#[derive(Clone, Copy)]
enum Ask {
    /// Thread 7 holds the object so often, and binds this monitor to it.
    Binds(u16, Result<u32, Cause>),
    /// There is room for so many binds to come.
    Reserves(u32),
    HasSpare(u32),
    /// The thread acts on a bound monitor.
    Acts(ThreadId, Action, Done),
    /// This is the moment now.
    Ticks(u64),
    /// The monitor belongs to this object and owner, who holds it so often.
    Shows(u32, Option<ObjectId>, Option<ThreadId>, u16),
    /// So many monitors are bound, and so many can be.
    Counts(u32, u32),
    /// This is the moment, and so many threads wait.
    Times(u64, u16),
    Stands(ThreadId, Post),
}

/// Binds the object, which thread 7 then holds so often.
fn bind(fats: &mut Fats, holds: u16) -> Result<Receipt, Cause> {
    if fats.post(SEVEN).is_none() || holds < 1 || holds > 4096 {
        return Err(Cause::NoThread);
    }
    fats.bind(OBJECT, SEVEN, holds)
}

/// Whether this is the answer to a bind, of which a receipt tells what was bound.
fn binds(fats: &mut Fats, holds: u16, answer: Result<u32, Cause>) -> bool {
    match bind(fats, holds) {
        Ok(receipt) => {
            let told = (receipt.object(), receipt.owner(), receipt.holds());
            told == (OBJECT, SEVEN, holds) && answer == Ok(receipt.monitor())
        }
        Err(cause) => answer == Err(cause),
    }
}

/// What an action on a bound monitor comes to; None where the thread is in a call.
fn act(fats: &mut Fats, thread: ThreadId, action: Action) -> Option<Done> {
    match action {
        Action::Enter { monitor } | Action::Exit { monitor } | Action::Wait { monitor, .. }
            if monitor < fats.bound() && fats.post(thread) == Some(Post::Out) => {
            fats.act(thread, action).ok()
        }
        _ => None,
    }
}

/// Whether this is what the readers tell of a monitor.
fn shows(
    fats: &Fats,
    monitor: u32,
    object: Option<ObjectId>,
    owner: Option<ThreadId>,
    holds: u16,
) -> bool {
    fats.object(monitor) == object && fats.owner(monitor) == owner && fats.holds(monitor) == holds
}

/// Whether this is the answer.
fn answers(fats: &mut Fats, ask: Ask) -> bool {
    match ask {
        Ask::Binds(holds, answer) => binds(fats, holds, answer),
        Ask::Reserves(binds) => fats.reserve_monitors(binds) == Ok(()),
        Ask::HasSpare(binds) => fats.spare() == binds,
        Ask::Acts(thread, action, done) => act(fats, thread, action) == Some(done),
        Ask::Ticks(now) => fats.tick(now) == Ok(()),
        Ask::Shows(monitor, object, owner, holds) => shows(fats, monitor, object, owner, holds),
        Ask::Counts(bound, limit) => fats.bound() == bound && fats.limit() == limit,
        Ask::Times(now, waiting) => fats.now() == now && fats.waiting() == waiting,
        Ask::Stands(thread, post) => fats.post(thread) == Some(post),
    }
}

/// Whether threads 8 and 7 are attached now, and were not before.
fn attach_both(fats: &mut Fats) -> bool
    requires { thread_count fats.old < 50 }
{
    attach(fats, EIGHT) && attach(fats, SEVEN)
}

/// The first of these that is answered otherwise.
fn first_other(fats: &mut Fats, asks: &[Ask]) -> Option<usize> {
    for (row, &ask) in asks.iter().enumerate() {
        if !answers(fats, ask) {
            return Some(row);
        }
    }
    None
}

/// The same, once both threads are attached.
fn first_behind_both(fats: &mut Fats, asks: &[Ask]) -> Result<Option<usize>, Memory>
    requires { thread_count fats.old < 50 }
{
    if attach_both(fats) {
        Ok(first_other(fats, asks))
    } else {
        Err(Memory)
    }
}

/// How many monitors can be bound, and what is asked of them.
const TABLES: [(&str, u8, &[Ask]); 5] = [
    ("a receipt tells what was bound", 1, &RECEIPT),
    ("a bind takes room that was reserved", 1, &RESERVED),
    ("a bound monitor shows its owner and holds", 2, &BOUND),
    ("a waiter shows its holds and its deadline", 1, &WAITER),
    ("an answer names the thread that was granted", 1, &GRANTS),
];

#[test]
fn monitors_are_bound_and_acted_on(rt: HostRuntime) {
    for (name, limit, asks) in TABLES {
        let mut fats = Fats::new(rt.alloc(), u32::from(limit));
        expect_none(&rt, name, first_behind_both(&mut fats, asks));
    }
}

/// The first that monitors with a waiter and room for binds, or a copy of them in the memory of
/// others, answer otherwise.
fn first_of_copy(alloc: Global, copy: &mut Fats) -> Result<Option<usize>, Memory> {
    let mut fats = Fats::new(alloc, 5);
    let other = first_behind_both(&mut fats, &RESERVING)?;
    if other.is_some() {
        return Ok(other);
    }
    if fats.clone_into(copy).is_err() {
        return Err(Memory);
    }
    Ok(first_other(&mut fats, &COPIED).or(first_other(copy, &COPIED)))
}

#[test]
fn a_copy_answers_the_same_whatever_its_memory_held(rt: HostRuntime) {
    let alloc = rt.alloc();
    let mut with_none = Fats::new(alloc, 0);
    expect_none(&rt, "no threads", first_of_copy(alloc, &mut with_none));
    let mut with_both = Fats::new(alloc, 9);
    assert!(rt; attach_both(&mut with_both));
    expect_none(&rt, "both", first_of_copy(alloc, &mut with_both));
    let mut with_others = Fats::new(alloc, 1);
    assert!(rt; attach(&mut with_others, SEVEN) && attach(&mut with_others, EIGHT));
    expect_none(
        &rt,
        "in another order",
        first_of_copy(alloc, &mut with_others),
    );
}
