//! What the readers answer.

ghost use Rattle.std.specs.Prelude.{◌<◌};
ghost use Rattle.fat_monitor.specs.FatState.{thread_count};

use crate::monitors::{Ask, EIGHT, OBJECT, SEVEN, attach};
use fat_monitor::{Action, Answer, AttachFault, Done, Fats, Post, Reply};

const PARKED: Done = Done {
    answer: Answer::Parked,
    granted: None,
    chosen: None,
};

/// Whether thread 7 stands here and has this flag; None, None: it is not attached.
fn is_seven(fats: &Fats, post: Option<Post>, flag: Option<bool>) -> bool {
    fats.post(SEVEN) == post && fats.flag(SEVEN) == flag
}

/// Whether thread 7 is attached once, and then shows where it stands and its flag.
fn is_attached_once(fats: &mut Fats) -> bool
    requires { thread_count fats.old < 100 }
{
    is_seven(fats, None, None)
        && attach(fats, SEVEN)
        && is_seven(fats, Some(Post::Out), Some(false))
        && fats.attach(SEVEN) == Err(AttachFault::Known)
}

#[test]
fn a_thread_is_attached_once(rt: HostRuntime) {
    let mut fats = Fats::new(rt.alloc(), 1);
    assert!(rt; is_attached_once(&mut fats));
}

pub(super) const BOUND: [Ask; 5] = [
    Ask::Shows(0, None, None, 0),
    Ask::Binds(256, Ok(0)),
    Ask::Counts(1, 2),
    Ask::Shows(0, Some(OBJECT), Some(SEVEN), 256),
    Ask::Shows(1, None, None, 0),
];

const WAIT: Action = Action::Wait {
    monitor: 0,
    millis: 1,
    nanos: 2,
};

const WAITING: Post = Post::Waiting {
    monitor: 0,
    holds: 3,
    deadline: Some(1_000_012),
};

pub(super) const WAITER: [Ask; 5] = [
    Ask::Binds(3, Ok(0)),
    Ask::Ticks(10),
    Ask::Acts(SEVEN, WAIT, PARKED),
    Ask::Times(10, 1),
    Ask::Stands(SEVEN, WAITING),
];

/// A wait, behind which there is room for three binds.
pub(super) const RESERVING: [Ask; 4] = [
    Ask::Binds(3, Ok(0)),
    Ask::Ticks(10),
    Ask::Acts(SEVEN, WAIT, PARKED),
    Ask::Reserves(3),
];

/// What is told after that.
pub(super) const COPIED: [Ask; 5] = [
    Ask::HasSpare(3),
    Ask::Times(10, 1),
    Ask::Stands(SEVEN, WAITING),
    Ask::Stands(EIGHT, Post::Out),
    Ask::Counts(1, 5),
];

const GRANTED: Done = Done {
    answer: Answer::Reply(Reply::Exited),
    granted: Some(EIGHT),
    chosen: None,
};

pub(super) const GRANTS: [Ask; 4] = [
    Ask::Binds(1, Ok(0)),
    Ask::Acts(EIGHT, Action::Enter { monitor: 0 }, PARKED),
    Ask::Acts(SEVEN, Action::Exit { monitor: 0 }, GRANTED),
    Ask::Stands(EIGHT, Post::Granted(Reply::Entered)),
];
