//! Moves at random, of a few threads and objects, which both checkers judge.

use crate::both::Both;
use crate::plain::Live;
use crate::random::Random;
use crate::trouble::Trouble;
use std::alloc::Global;
use std::io::Print;
use step_core::{Call, Cause, Doing, Move, ObjectId, Reply, ThreadId};

/// Each history begins anew, since threads that enter several objects can wait for each other for
/// good.
const HISTORIES: u32 = 100;

/// The moves of a history.
const MOVES: u32 = 200;

const SEED: u64 = 0x0123_4567_89AB_CDEF;

const OBJECTS: u32 = 3;

const THREADS: u32 = 5;

/// How much later the moment is told at most, in nanoseconds.
const LATER: u32 = 1_500_000;

/// Has both checkers judge the moves, and prints how many are lawful.
pub fn play<R: Print + AllocGlobal>(rt: &R) -> Result<(), Trouble> {
    let mut random = Random::new(SEED);
    let mut lawful = 0u32;
    for _ in 0..HISTORIES {
        let more = play_history(rt.alloc(), &mut random)?;
        lawful = lawful.saturating_add(more);
    }
    let unlawful = (HISTORIES * MOVES).saturating_sub(lawful);
    println!(rt; "random moves: {lawful} lawful, {unlawful} not lawful")?;
    Ok(())
}

/// Has both judge one history, and answers how many of its moves are lawful.
fn play_history(alloc: Global, random: &mut Random) -> Result<u32, Trouble> {
    let mut both = Both::new(alloc, OBJECTS)?;
    let mut lawful = 0u32;
    for _ in 0..MOVES {
        let made = draw(random, &both);
        if both.judge(made)? {
            lawful = lawful.saturating_add(1);
        }
    }
    Ok(lawful)
}

/// A move that fits what its thread is doing, for the most part.
fn draw(random: &mut Random, both: &Both) -> Move {
    let thread = draw_thread(random);
    if random.once_in(20) {
        return draw_time(random, both.plain.moment());
    }
    if random.once_in(3) {
        return draw_any(random, thread);
    }
    match both.plain.live(thread) {
        Some(live) => draw_fitting(random, live),
        None => Move::Attach { thread },
    }
}

/// A moment that is later, or, now and then, earlier.
fn draw_time(random: &mut Random, moment: u64) -> Move {
    let by = u64::from(random.below(LATER));
    let now = if random.once_in(4) {
        moment.saturating_sub(by)
    } else {
        moment.saturating_add(by)
    };
    Move::Time { now }
}

/// A move that goes on where this thread is.
fn draw_fitting(random: &mut Random, live: Live) -> Move {
    let thread = live.thread;
    match live.doing {
        Doing::Idle => {
            let call = draw_call(random);
            Move::Call { thread, call }
        }
        Doing::Wants(call) => draw_answer(random, thread, call),
        Doing::Waits { .. } if random.once_in(4) => Move::Spurious { thread },
        Doing::Waits { .. } => Move::Expire { thread },
        Doing::Back { .. } => Move::Relock { thread },
        Doing::Has(reply) => Move::Return { thread, reply },
    }
}

/// A move that may answer this call.
fn draw_answer(random: &mut Random, thread: ThreadId, call: Call) -> Move {
    if random.once_in(8) {
        return draw_refusal(random, thread);
    }
    match call {
        Call::Enter(_) => Move::Lock { thread },
        Call::Exit(_) if random.once_in(2) => Move::Unlock { thread },
        Call::Wait { .. } => match random.below(4) {
            0 => Move::BadArgument { thread },
            1 => Move::Early { thread },
            2 => Move::Illegal { thread },
            _ => Move::Wait { thread },
        },
        Call::Notify(_) if random.once_in(2) => draw_notify(random, thread),
        Call::NotifyAll(_) if random.once_in(2) => Move::NotifyAll { thread },
        Call::Exit(_) | Call::Notify(_) | Call::NotifyAll(_) => Move::Illegal { thread },
        Call::Holds(_) | Call::IsInterrupted(_) => Move::Ask { thread },
        Call::Interrupt(_) => Move::Interrupt { thread },
        Call::Interrupted => Move::TestClear { thread },
        Call::End => Move::End { thread },
    }
}

/// A move of any kind but Time.
fn draw_any(random: &mut Random, thread: ThreadId) -> Move {
    match random.below(19) {
        0 => Move::Attach { thread },
        1 => Move::Call {
            thread,
            call: draw_call(random),
        },
        2 => Move::Return {
            thread,
            reply: draw_reply(random),
        },
        3 => Move::Lock { thread },
        4 => Move::Unlock { thread },
        5 => Move::Illegal { thread },
        6 => Move::BadArgument { thread },
        7 => Move::Early { thread },
        8 => Move::Wait { thread },
        9 => draw_notify(random, thread),
        10 => Move::NotifyAll { thread },
        11 => Move::Interrupt { thread },
        12 => Move::TestClear { thread },
        13 => Move::Expire { thread },
        14 => Move::Spurious { thread },
        15 => Move::Relock { thread },
        16 => Move::Ask { thread },
        17 => Move::End { thread },
        _ => draw_refusal(random, thread),
    }
}

fn draw_notify(random: &mut Random, thread: ThreadId) -> Move {
    let chosen = if random.once_in(2) {
        Some(draw_thread(random))
    } else {
        None
    };
    Move::Notify { thread, chosen }
}

fn draw_refusal(random: &mut Random, thread: ThreadId) -> Move {
    let cause = draw_cause(random);
    Move::Refuse { thread, cause }
}

fn draw_thread(random: &mut Random) -> ThreadId {
    ThreadId(random.below(THREADS))
}

/// An object, mostly the first; now and then it does not exist.
fn draw_object(random: &mut Random) -> ObjectId {
    if random.once_in(4) {
        return ObjectId(random.below(OBJECTS + 1));
    }
    ObjectId(0)
}

/// A call, of objects and threads as above.
pub fn draw_call(random: &mut Random) -> Call {
    match random.below(24) {
        0..6 => Call::Enter(draw_object(random)),
        6..9 => Call::Exit(draw_object(random)),
        9..13 => draw_wait(random),
        13 | 14 => Call::Notify(draw_object(random)),
        15 => Call::NotifyAll(draw_object(random)),
        16 => Call::Holds(draw_object(random)),
        17..20 => Call::Interrupt(draw_thread(random)),
        20 | 21 => Call::Interrupted,
        22 => Call::IsInterrupted(draw_thread(random)),
        _ => Call::End,
    }
}

/// A call that the owner of the first object may well make.
pub fn draw_owner_call(random: &mut Random) -> Call {
    let object = ObjectId(0);
    match random.below(8) {
        0..4 => draw_wait(random),
        4 => Call::Notify(object),
        5 => Call::NotifyAll(object),
        6 => Call::Enter(object),
        _ => Call::Exit(object),
    }
}

/// A wait of no limit, of a short one, or, now and then, of a time out of range.
fn draw_wait(random: &mut Random) -> Call {
    let object = draw_object(random);
    let (millis, nanos) = match random.below(8) {
        0 => (-1, 0),
        1 => (0, 1_000_000),
        2 | 3 => (0, 999_999),
        4 => (1, 1),
        _ => (0, 0),
    };
    Call::Wait {
        object,
        millis,
        nanos,
    }
}

fn draw_reply(random: &mut Random) -> Reply {
    match random.below(12) {
        0 => Reply::Entered,
        1 => Reply::Exited,
        2 => Reply::WaitOver,
        3 => Reply::Interrupted,
        4 => Reply::Notified,
        5 => Reply::Yes,
        6 => Reply::No,
        7 => Reply::Done,
        8 => Reply::Ended,
        9 => Reply::IllegalMonitorState,
        10 => Reply::IllegalArgument,
        _ => Reply::Refused(draw_cause(random)),
    }
}

fn draw_cause(random: &mut Random) -> Cause {
    match random.below(5) {
        0 => Cause::NoMonitor,
        1 => Cause::Memory,
        2 => Cause::TooDeep,
        3 => Cause::StillOwner,
        _ => Cause::NoThread,
    }
}
