//! Want of memory, which only a run with refused allocations meets. What comes is the right answer,
//! or want of memory, and the same succeeds when it is tried again.

use super::streams::{HISTORY, REPORT, SCRIPT};
use dump::{cycles, dump_script, report};
use history::{
    FileFault, Names, ReaderSource, WriterSink, moves, play, play_text, print_script, read_script,
    replay, run,
};
use history_moves::{move_line, push_move, write_move};
use live_runs::{RunFault, run_live};
use lock_word::Memory;
use std::alloc::Global;
use std::process::Abort;
use std::sync::Wait;
use std::test::Fail;
use std::thread::Threads;
use std::time::Clock;
use step_core::{Call, Move, ObjectId, Reply, ThreadId, World};

macro_rules! calls {
    ($thread:expr, $call:expr) => {
        Move::Call {
            thread: $thread,
            call: $call,
        }
    };
}

macro_rules! returns {
    ($thread:expr, $reply:expr) => {
        Move::Return {
            thread: $thread,
            reply: $reply,
        }
    };
}

/// Two threads that want each other's object.
pub(crate) const CYCLE: &[u8] = b"world 0 2
object a 00
object b 00
attach x
attach y
begin x enter a
go x
go x
begin y enter b
go y
go y
begin x enter b
begin y enter a
";

pub(crate) const CYCLE_DUMP: &[u8] = b"thread x index 1 wants enter b flag no
thread y index 2 wants enter a flag no
cycle x y
";

pub(crate) const LIVE: &[u8] =
    b"world 1 1\nobject a 00\nattach x\nbegin x enter a\nbegin x exit a\n";

pub(crate) const LIVE_TEXT: &[u8] = b"thread x Entered Exited\nobject a 00000000\nactions 0\n";

/// Whether a call wrote the right text whole. Where it did not, it was refused memory, and wrote
/// nothing; or the writer was, which has a front of the text.
fn is_written(
    rt: &impl Abort,
    outcome: Result<(), FileFault>,
    sink: WriterSink<Vec<u8>>,
    text: &[u8],
) -> bool {
    let bytes = sink.into_inner();
    let is_right = match outcome {
        Ok(()) => bytes.as_slice() == text,
        Err(FileFault::Write) => text.starts_with(bytes.as_slice()),
        Err(fault) => fault == FileFault::Memory && bytes.is_empty(),
    };
    assert!(rt; is_right);
    outcome.is_ok()
}

fn runs(rt: &impl Abort, alloc: Global) -> bool {
    let mut sink = WriterSink::new(Vec::new(alloc));
    let outcome = run(alloc, &mut ReaderSource::new(SCRIPT), &mut sink);
    is_written(rt, outcome, sink, REPORT)
}

#[test]
fn a_refused_run_succeeds_when_tried_again(rt: HostRuntime) {
    assert!(rt; runs(&rt, rt.alloc()) || runs(&rt, rt.alloc()));
}

pub(crate) fn tells_moves(rt: &impl Abort, alloc: Global) -> bool {
    let mut sink = WriterSink::new(Vec::new(alloc));
    let outcome = moves(alloc, &mut ReaderSource::new(SCRIPT), &mut sink);
    is_written(rt, outcome, sink, HISTORY)
}

#[test]
fn a_refused_history_succeeds_when_tried_again(rt: HostRuntime) {
    assert!(rt; tells_moves(&rt, rt.alloc()) || tells_moves(&rt, rt.alloc()));
}

fn dumps(rt: &impl Abort, alloc: Global) -> bool {
    let mut sink = WriterSink::new(Vec::new(alloc));
    let outcome = dump_script(alloc, &mut ReaderSource::new(CYCLE), &mut sink);
    is_written(rt, outcome, sink, CYCLE_DUMP)
}

#[test]
fn a_refused_dump_succeeds_when_tried_again(rt: HostRuntime) {
    assert!(rt; dumps(&rt, rt.alloc()) || dumps(&rt, rt.alloc()));
}

fn checks(rt: &impl Abort, alloc: Global) -> bool {
    let mut sink = WriterSink::new(Vec::new(alloc));
    let outcome = replay(alloc, &mut ReaderSource::new(HISTORY), &mut sink);
    is_written(rt, outcome, sink, b"run of 4 moves\n")
}

#[test]
fn a_refused_check_succeeds_when_tried_again(rt: HostRuntime) {
    assert!(rt; checks(&rt, rt.alloc()) || checks(&rt, rt.alloc()));
}

/// A history with an escape, for which its reader keeps room.
const ESCAPED: &[u8] = b"{\"objects\":1}
{ \"thread\" : 0 , \"move\" : \"\\u0041ttach\" }
{ \"thread\" : 1 , \"move\" : \"\\u0041ttach\" }
";

fn checks_escapes(rt: &impl Abort, alloc: Global) -> bool {
    let mut sink = WriterSink::new(Vec::new(alloc));
    let outcome = replay(alloc, &mut ReaderSource::new(ESCAPED), &mut sink);
    is_written(rt, outcome, sink, b"run of 2 moves\n")
}

#[test]
fn a_refused_check_of_escapes_succeeds_when_tried_again(rt: HostRuntime) {
    assert!(rt; checks_escapes(&rt, rt.alloc()) || checks_escapes(&rt, rt.alloc()));
}

/// How many threads of a crowd wait. Their machine asks for more memory several times, and gives
/// some back while they end.
const CROWD: u32 = 100;

/// A thread comes, enters the object and waits.
fn comes(thread: ThreadId) -> [Move; 6] {
    let object = ObjectId(0);
    let wait = Call::Wait {
        object,
        millis: 0,
        nanos: 0,
    };
    [
        Move::Attach { thread },
        calls!(thread, Call::Enter(object)),
        Move::Lock { thread },
        returns!(thread, Reply::Entered),
        calls!(thread, wait),
        Move::Wait { thread },
    ]
}

/// A thread comes, enters the object, notifies all who wait, and exits.
fn notifies(thread: ThreadId) -> [Move; 10] {
    let object = ObjectId(0);
    [
        Move::Attach { thread },
        calls!(thread, Call::Enter(object)),
        Move::Lock { thread },
        returns!(thread, Reply::Entered),
        calls!(thread, Call::NotifyAll(object)),
        Move::NotifyAll { thread },
        returns!(thread, Reply::Notified),
        calls!(thread, Call::Exit(object)),
        Move::Unlock { thread },
        returns!(thread, Reply::Exited),
    ]
}

/// A thread comes back from its wait, exits and ends.
fn goes(thread: ThreadId) -> [Move; 8] {
    [
        Move::Relock { thread },
        returns!(thread, Reply::WaitOver),
        calls!(thread, Call::Exit(ObjectId(0))),
        Move::Unlock { thread },
        returns!(thread, Reply::Exited),
        calls!(thread, Call::End),
        Move::End { thread },
        returns!(thread, Reply::Ended),
    ]
}

/// Adds a line for each move.
fn push_moves(history: &mut Vec<u8>, moves: &[Move]) -> Result<(), Memory> {
    for made in moves {
        push_move(history, made)?;
        history.push(b'\n')?;
    }
    Ok(())
}

/// The history of a crowd that comes to wait, and of the thread that notifies it.
fn waiting_crowd(alloc: Global) -> Result<Vec<u8>, Memory> {
    let mut history = Vec::new(alloc);
    history.extend_from_slice(b"{\"objects\":1}\n")?;
    for index in 0..CROWD {
        push_moves(&mut history, &comes(ThreadId(index)))?;
    }
    push_moves(&mut history, &notifies(ThreadId(CROWD)))?;
    Ok(history)
}

/// The same, and of the crowd that goes.
fn whole_crowd(alloc: Global) -> Result<Vec<u8>, Memory> {
    let mut history = waiting_crowd(alloc)?;
    for index in 0..CROWD {
        push_moves(&mut history, &goes(ThreadId(index)))?;
    }
    Ok(history)
}

fn checks_crowd(rt: &impl Abort, alloc: Global, history: &[u8]) -> bool {
    let mut sink = WriterSink::new(Vec::new(alloc));
    let outcome = replay(alloc, &mut ReaderSource::new(history), &mut sink);
    is_written(rt, outcome, sink, b"run of 1410 moves\n")
}

#[test]
fn a_refused_check_of_a_crowd_succeeds_when_tried_again(rt: HostRuntime) -> Result<(), Fail> {
    let alloc = rt.alloc();
    let history = match whole_crowd(alloc) {
        Ok(history) => history,
        Err(Memory) => whole_crowd(alloc)?,
    };
    assert!(rt; checks_crowd(&rt, alloc, &history) || checks_crowd(&rt, alloc, &history));
    Ok(())
}

fn lives<R: Threads + Wait + Clock + Sync + Abort>(rt: &R, alloc: Global) -> bool {
    let mut sink = WriterSink::new(Vec::new(alloc));
    let outcome = match run_live(rt, alloc, &mut ReaderSource::new(LIVE), &mut sink) {
        Ok(()) => Ok(()),
        Err(RunFault::File(fault)) => Err(fault),
        Err(RunFault::Torn) => panic!(rt; "torn"),
    };
    is_written(rt, outcome, sink, LIVE_TEXT)
}

#[test]
fn a_refused_live_run_succeeds_when_tried_again(rt: HostRuntime) {
    assert!(rt; lives(&rt, rt.alloc()) || lives(&rt, rt.alloc()));
}

/// The script, read and written.
fn printed(alloc: Global) -> Result<String, FileFault> {
    let script = read_script(alloc, SCRIPT)?;
    Ok(print_script(alloc, &script)?)
}

fn prints(rt: &impl Abort, alloc: Global) -> bool {
    let outcome = printed(alloc);
    let is_right = match &outcome {
        Ok(text) => text.as_bytes() == SCRIPT,
        Err(fault) => *fault == FileFault::Memory,
    };
    assert!(rt; is_right);
    outcome.is_ok()
}

#[test]
fn a_refused_print_succeeds_when_tried_again(rt: HostRuntime) {
    assert!(rt; prints(&rt, rt.alloc()) || prints(&rt, rt.alloc()));
}

/// The move with the most members.
const WAIT: Move = Move::Call {
    thread: ThreadId(0),
    call: Call::Wait {
        object: ObjectId(0),
        millis: -1,
        nanos: 5,
    },
};

const WAIT_LINE: &[u8] =
    b"{\"call\":\"Wait\",\"millis\":-1,\"move\":\"Call\",\"nanos\":5,\"object\":0,\"thread\":0}";

/// The line of the wait, by its value.
fn value_line(alloc: Global) -> Result<String, Memory> {
    Ok(write_move(alloc, &WAIT)?.to_string(alloc)?)
}

/// Whether the text is there, and is this one.
fn is_told(rt: &impl Abort, told: Result<String, Memory>, text: &[u8]) -> bool {
    match told {
        Ok(told) => {
            assert!(rt; told.as_bytes() == text);
            true
        }
        Err(Memory) => false,
    }
}

/// Whether the line of the wait was added. Where it was not, nothing was.
fn is_added(rt: &impl Abort, text: &mut Vec<u8>) -> bool {
    let outcome = push_move(text, &WAIT);
    let line: &[u8] = if outcome.is_ok() { WAIT_LINE } else { b"" };
    assert!(rt; text.as_slice() == line);
    outcome.is_ok()
}

#[test]
fn a_refused_line_is_written_when_tried_again(rt: HostRuntime) {
    let alloc = rt.alloc();
    let mut text = Vec::new(alloc);
    assert!(rt;
        is_told(&rt, value_line(alloc), WAIT_LINE) || is_told(&rt, value_line(alloc), WAIT_LINE)
    );
    assert!(rt;
        is_told(&rt, move_line(alloc, &WAIT), WAIT_LINE)
            || is_told(&rt, move_line(alloc, &WAIT), WAIT_LINE)
    );
    assert!(rt; is_added(&rt, &mut text) || is_added(&rt, &mut text));
}

fn played(alloc: Global) -> Result<(World, Names), FileFault> {
    let script = read_script(alloc, CYCLE)?;
    play(alloc, &script)
}

/// Whether the cycle of the world is found.
fn has_cycle(rt: &impl Abort, alloc: Global, world: &World) -> bool {
    match cycles(alloc, world) {
        Ok(found) => {
            let is_right = match found.as_slice() {
                [cycle] => cycle.as_slice() == [ThreadId(0), ThreadId(1)].as_slice(),
                _ => false,
            };
            assert!(rt; is_right);
            true
        }
        Err(Memory) => false,
    }
}

/// Whether the script of two threads was played. Where it was, its dump and its cycle come.
fn is_played(rt: &impl Abort, alloc: Global, outcome: Result<(World, Names), FileFault>) -> bool {
    match outcome {
        Ok((world, names)) => {
            assert!(rt;
                is_told(rt, report(alloc, &world, &names), CYCLE_DUMP)
                    || is_told(rt, report(alloc, &world, &names), CYCLE_DUMP)
            );
            assert!(rt; has_cycle(rt, alloc, &world) || has_cycle(rt, alloc, &world));
            true
        }
        Err(fault) => {
            assert!(rt; fault == FileFault::Memory);
            false
        }
    }
}

#[test]
fn a_refused_play_succeeds_when_tried_again(rt: HostRuntime) {
    let alloc = rt.alloc();
    assert!(rt; is_played(&rt, alloc, played(alloc)) || is_played(&rt, alloc, played(alloc)));
}

#[test]
fn a_refused_play_of_a_text_succeeds_when_tried_again(rt: HostRuntime) {
    let alloc = rt.alloc();
    assert!(rt;
        is_played(&rt, alloc, play_text(alloc, CYCLE))
            || is_played(&rt, alloc, play_text(alloc, CYCLE))
    );
}
