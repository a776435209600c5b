//! The words of moves, calls, replies and causes, and the names of threads and objects.

use super::{A, B, GONE, MISSING, T, U, V};
use std::str::SplitWhitespace;
use step_core::{Call, Cause, Move, ObjectId, Reply, ThreadId};

/// The thread that has this name.
pub fn thread_named(word: &str) -> Option<ThreadId> {
    match word {
        "t" => Some(T),
        "u" => Some(U),
        "v" => Some(V),
        "gone" => Some(GONE),
        _ => None,
    }
}

/// Reads the name of a thread.
pub fn read_thread(words: &mut SplitWhitespace<'_>) -> Option<ThreadId> {
    thread_named(words.next()?)
}

/// Reads the name of an object.
pub fn read_object(words: &mut SplitWhitespace<'_>) -> Option<ObjectId> {
    match words.next()? {
        "a" => Some(A),
        "b" => Some(B),
        "missing" => Some(MISSING),
        _ => None,
    }
}

/// Reads a move behind its name.
pub fn read_move(name: &str, words: &mut SplitWhitespace<'_>) -> Option<Move> {
    if name == "Time" {
        let now = words.next()?.parse::<u64>().ok()?;
        return Some(Move::Time { now });
    }
    let thread = read_thread(words)?;
    match name {
        "Return" => {
            let reply = read_reply(words)?;
            Some(Move::Return { thread, reply })
        }
        "Refuse" => {
            let cause = read_cause(words)?;
            Some(Move::Refuse { thread, cause })
        }
        "Notify" => {
            let chosen = read_chosen(words)?;
            Some(Move::Notify { thread, chosen })
        }
        _ => bare_move(name, thread),
    }
}

/// The move of this name that says no more than its thread.
fn bare_move(name: &str, thread: ThreadId) -> Option<Move> {
    match name {
        "Attach" => Some(Move::Attach { thread }),
        "Lock" => Some(Move::Lock { thread }),
        "Unlock" => Some(Move::Unlock { thread }),
        "Illegal" => Some(Move::Illegal { thread }),
        "BadArgument" => Some(Move::BadArgument { thread }),
        "Early" => Some(Move::Early { thread }),
        "Wait" => Some(Move::Wait { thread }),
        "NotifyAll" => Some(Move::NotifyAll { thread }),
        "Interrupt" => Some(Move::Interrupt { thread }),
        "TestClear" => Some(Move::TestClear { thread }),
        "Expire" => Some(Move::Expire { thread }),
        "Spurious" => Some(Move::Spurious { thread }),
        "Relock" => Some(Move::Relock { thread }),
        "Ask" => Some(Move::Ask { thread }),
        "End" => Some(Move::End { thread }),
        _ => None,
    }
}

/// Reads whom a move Notify takes out of the wait set: a thread or nobody.
fn read_chosen(words: &mut SplitWhitespace<'_>) -> Option<Option<ThreadId>> {
    match words.next()? {
        "nobody" => Some(None),
        name => Some(Some(thread_named(name)?)),
    }
}

/// Reads a call.
pub fn read_call(words: &mut SplitWhitespace<'_>) -> Option<Call> {
    match words.next()? {
        "enter" => Some(Call::Enter(read_object(words)?)),
        "exit" => Some(Call::Exit(read_object(words)?)),
        "wait" => read_wait(words),
        "notify" => Some(Call::Notify(read_object(words)?)),
        "notifyAll" => Some(Call::NotifyAll(read_object(words)?)),
        "holds" => Some(Call::Holds(read_object(words)?)),
        "interrupt" => Some(Call::Interrupt(read_thread(words)?)),
        "interrupted" => Some(Call::Interrupted),
        "isInterrupted" => Some(Call::IsInterrupted(read_thread(words)?)),
        "end" => Some(Call::End),
        _ => None,
    }
}

/// Reads what a wait says: its object, milliseconds and nanoseconds.
pub fn read_wait(words: &mut SplitWhitespace<'_>) -> Option<Call> {
    let object = read_object(words)?;
    let millis = words.next()?.parse::<i64>().ok()?;
    let nanos = words.next()?.parse::<i32>().ok()?;
    Some(Call::Wait {
        object,
        millis,
        nanos,
    })
}

fn read_reply(words: &mut SplitWhitespace<'_>) -> Option<Reply> {
    match words.next()? {
        "Entered" => Some(Reply::Entered),
        "Exited" => Some(Reply::Exited),
        "WaitOver" => Some(Reply::WaitOver),
        "Interrupted" => Some(Reply::Interrupted),
        "Notified" => Some(Reply::Notified),
        "Yes" => Some(Reply::Yes),
        "No" => Some(Reply::No),
        "Done" => Some(Reply::Done),
        "Ended" => Some(Reply::Ended),
        "IllegalMonitorState" => Some(Reply::IllegalMonitorState),
        "IllegalArgument" => Some(Reply::IllegalArgument),
        "Refused" => Some(Reply::Refused(read_cause(words)?)),
        _ => None,
    }
}

fn read_cause(words: &mut SplitWhitespace<'_>) -> Option<Cause> {
    match words.next()? {
        "NoMonitor" => Some(Cause::NoMonitor),
        "Memory" => Some(Cause::Memory),
        "TooDeep" => Some(Cause::TooDeep),
        "StillOwner" => Some(Cause::StillOwner),
        "NoThread" => Some(Cause::NoThread),
        _ => None,
    }
}
