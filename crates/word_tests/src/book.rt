//! Places that are used, kept and freed, and passes that are torn from the book.

ghost use Rattle.std.specs.Prelude.{◌≤◌};

use fat_monitor::{Action, Answer, Done, Post, Reply};
use header_words::Kept;
use live_book::{Book, BookFault, Deed, LiveFault, Logged};
use lock_word::{ObjectId, ThreadId};
use std::alloc::Global;
use std::process::Abort;

const ONE: ThreadId = ThreadId(1);

const TWO: ThreadId = ThreadId(2);

const THREE: ThreadId = ThreadId(3);

const OBJECT: ObjectId = ObjectId(0);

const ENTER: Action = Action::Enter { monitor: 0 };

const EXIT: Action = Action::Exit { monitor: 0 };

const NOTIFY: Action = Action::Notify { monitor: 0 };

const NOTIFY_ALL: Action = Action::NotifyAll { monitor: 0 };

const HOLDS: Action = Action::Holds { monitor: 0 };

const WAIT: Action = Action::Wait {
    monitor: 0,
    millis: 0,
    nanos: 1,
};

/// What an action answers.
type Told = Result<Done, BookFault>;

macro_rules! told {
    ($answer:expr) => {
        Ok(Done {
            answer: $answer,
            granted: None,
            chosen: None,
        })
    };
}

const FULL: BookFault = BookFault::RecordFull;

const PARKED: Told = told!(Answer::Parked);

const ENTERED: Told = told!(Answer::Reply(Reply::Entered));

const EXITED: Told = told!(Answer::Reply(Reply::Exited));

const NOTIFIED: Told = told!(Answer::Reply(Reply::Notified));

const OWNS: Told = told!(Answer::Reply(Reply::Yes));

const WAIT_OVER: Told = told!(Answer::Reply(Reply::WaitOver));

/// What is asked of a book, and what has to be answered.
#[derive(Clone, Copy)]
enum Ask {
    /// The thread holds the object so often, and binds this monitor to it.
    Binds(ThreadId, u16, Result<u32, BookFault>),
    Acts(ThreadId, Action, Told),
    /// The thread tells this moment.
    Ticks(ThreadId, u64, Result<(), BookFault>),
    /// The thread's pass has it parked or not, and its own list of deeds full or not.
    Checks(ThreadId, bool, bool, Result<(), LiveFault>),
    /// So many places are used, and so many free.
    HasPlaces(u32, u32),
    HasPasses(u16),
    /// This is the moment that was told last.
    HasMoment(u64),
    /// Monitor 0 belongs to this object.
    Keeps(ObjectId),
    /// The record has this at a place.
    Logs(usize, Logged),
}

/// What a bind of object 0 comes to; None where the thread may not make it.
fn bind(book: &mut Book, thread: ThreadId, holds: u16) -> Option<Result<u32, BookFault>> {
    if book.post(thread).is_none() || holds < 1 || holds > 256 {
        return None;
    }
    match book.bind(thread, OBJECT, holds) {
        Ok(receipt) => Some(Ok(receipt.monitor())),
        Err(fault) => Some(Err(fault)),
    }
}

/// What an action comes to; None where the thread may not make it.
fn act(book: &mut Book, thread: ThreadId, action: Action) -> Option<Told> {
    let post = book.post(thread)?;
    match action {
        Action::Expire | Action::Collect => Some(book.act(thread, action)),
        Action::Enter { monitor }
        | Action::Exit { monitor }
        | Action::Wait { monitor, .. }
        | Action::Notify { monitor }
        | Action::NotifyAll { monitor }
        | Action::Holds { monitor }
            if post == Post::Out && book.object(monitor).is_some() => {
            Some(book.act(thread, action))
        }
        _ => None,
    }
}

/// What a moment that is told comes to; None where the book does not have the thread.
fn tick(book: &mut Book, thread: ThreadId, now: u64) -> Option<Result<(), BookFault>> {
    let _post = book.post(thread)?;
    Some(book.tick(thread, now))
}

/// Whether this is the answer.
fn answers(book: &mut Book, ask: Ask) -> bool {
    match ask {
        Ask::Binds(thread, holds, answer) => bind(book, thread, holds) == Some(answer),
        Ask::Acts(thread, action, answer) => act(book, thread, action) == Some(answer),
        Ask::Ticks(thread, now, answer) => tick(book, thread, now) == Some(answer),
        Ask::Checks(thread, parked, full, answer) => book.check(thread, parked, full) == answer,
        Ask::HasPlaces(used, free) => book.used() == used && book.free() == free,
        Ask::HasPasses(passes) => book.passes() == passes,
        Ask::HasMoment(now) => book.now() == now,
        Ask::Keeps(object) => Kept::object(book, 0) == Some(object),
        Ask::Logs(place, logged) => book.log().get(place).copied() == Some(logged),
    }
}

/// Asks these questions of a new book of one monitor, with so many passes and places.
fn check(rt: &impl Abort, alloc: Global, passes: u16, places: u32, asks: &[Ask])
    requires { passes ≤ 64 }
{
    let mut book = Book::new(alloc, 1, passes, places).expect(rt, "memory");
    for (row, ask) in asks.iter().enumerate() {
        assert!(rt; answers(&mut book, *ask), "row {row}");
    }
}

#[test]
fn a_full_record_lets_an_owner_leave_and_a_parked_thread_return(rt: HostRuntime) {
    const GRANTED: Told = Ok(Done {
        answer: Answer::Reply(Reply::Exited),
        granted: Some(TWO),
        chosen: None,
    });
    const ASKS: [Ask; 15] = [
        Ask::Binds(ONE, 1, Ok(0)),
        Ask::HasPlaces(1, 4),
        Ask::Acts(TWO, ENTER, PARKED),
        Ask::HasPlaces(2, 1),
        Ask::Acts(ONE, NOTIFY, NOTIFIED),
        Ask::HasPlaces(3, 0),
        Ask::Acts(ONE, HOLDS, Err(FULL)),
        Ask::Ticks(ONE, 1, Err(FULL)),
        Ask::Acts(ONE, EXIT, GRANTED),
        Ask::HasPlaces(4, 0),
        Ask::Acts(TWO, Action::Collect, ENTERED),
        Ask::HasPlaces(5, 0),
        Ask::Acts(TWO, EXIT, EXITED),
        Ask::HasPlaces(6, 0),
        Ask::Keeps(OBJECT),
    ];
    check(&rt, rt.alloc(), 2, 6, &ASKS);
}

#[test]
fn a_bind_that_fits_can_leave_no_place_for_the_wait(rt: HostRuntime) {
    const ASKS: [Ask; 8] = [
        Ask::Binds(ONE, 3, Err(FULL)),
        Ask::Binds(ONE, 1, Ok(0)),
        Ask::HasPlaces(1, 1),
        Ask::Binds(ONE, 1, Err(FULL)),
        Ask::Acts(ONE, WAIT, Err(FULL)),
        Ask::Acts(ONE, HOLDS, OWNS),
        Ask::Acts(ONE, EXIT, EXITED),
        Ask::HasPlaces(3, 0),
    ];
    check(&rt, rt.alloc(), 1, 3, &ASKS);
}

#[test]
fn each_thread_that_a_notify_all_removes_frees_a_place(rt: HostRuntime) {
    const ASKS: [Ask; 11] = [
        Ask::Binds(ONE, 5, Ok(0)),
        Ask::HasPlaces(1, 24),
        Ask::Acts(ONE, WAIT, PARKED),
        Ask::HasPlaces(2, 21),
        Ask::Acts(TWO, ENTER, ENTERED),
        Ask::Acts(TWO, WAIT, PARKED),
        Ask::HasPlaces(4, 16),
        Ask::Acts(THREE, ENTER, ENTERED),
        Ask::HasPlaces(5, 14),
        Ask::Acts(THREE, NOTIFY_ALL, NOTIFIED),
        Ask::HasPlaces(6, 15),
    ];
    check(&rt, rt.alloc(), 3, 30, &ASKS);
}

#[test]
fn a_wait_that_is_over_frees_the_place_of_its_expiry(rt: HostRuntime) {
    /// The thread left its wait set by itself, and owns the monitor, which was free.
    const BACK: Told = Ok(Done {
        answer: Answer::Quiet,
        granted: Some(ONE),
        chosen: None,
    });
    const TICKED: Logged = Logged {
        thread: ONE,
        deed: Deed::Ticked { now: 5 },
    };
    const ASKS: [Ask; 15] = [
        Ask::Binds(ONE, 1, Ok(0)),
        Ask::Acts(ONE, WAIT, PARKED),
        Ask::HasPlaces(2, 2),
        Ask::Acts(ONE, Action::Expire, Err(BookFault::NotDue)),
        Ask::Acts(ONE, Action::Collect, Err(BookFault::Parked)),
        Ask::Ticks(ONE, 5, Ok(())),
        Ask::Ticks(ONE, 4, Err(BookFault::Backwards)),
        Ask::HasMoment(5),
        Ask::HasPlaces(3, 1),
        Ask::Ticks(ONE, 5, Ok(())),
        Ask::Acts(ONE, Action::Expire, BACK),
        Ask::Acts(ONE, Action::Collect, WAIT_OVER),
        Ask::Acts(ONE, EXIT, EXITED),
        Ask::HasPlaces(7, 0),
        Ask::Logs(2, TICKED),
    ];
    check(&rt, rt.alloc(), 1, 7, &ASKS);
}

#[test]
fn a_pass_is_torn_where_the_book_has_it_elsewhere(rt: HostRuntime) {
    const PARKED: bool = true;
    const FULL: bool = true;
    const ASKS: [Ask; 5] = [
        Ask::HasPasses(1),
        Ask::Checks(ONE, !PARKED, !FULL, Ok(())),
        Ask::Checks(ONE, PARKED, !FULL, Err(LiveFault::Torn)),
        Ask::Checks(ONE, !PARKED, FULL, Err(LiveFault::Torn)),
        Ask::Checks(TWO, !PARKED, !FULL, Err(LiveFault::Torn)),
    ];
    check(&rt, rt.alloc(), 1, 5, &ASKS);
    assert!(rt; LiveFault::Torn.number() == 18);
}
