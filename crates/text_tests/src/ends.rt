//! Readers and writers that note whether they failed. A read or a write is told to have failed
//! exactly where one did: never where the reader or the writer was not asked.

use super::checks::LOCKS_TWICE;
use super::memory::{CYCLE, CYCLE_DUMP, LIVE, LIVE_TEXT};
use super::pieces::{FullWriter, PiecesReader, Then};
use super::programs::{ONE_ENTER, ONE_HISTORY, ONE_REPORT};
use super::streams::{HISTORY, REPORT, SCRIPT};
use drawing::{DrawFault, Window, draw_moves, draw_script};
use dump::dump_script;
use explore::Nobody;
use explore_runs::{ExploreTextFault, WitnessForm, explore_java_text, explore_text};
use history::{FileFault, ReaderSource, WriterSink, moves, replay, run};
use live_runs::{RunFault, run_live};
use std::alloc::Global;
use std::process::Abort;
use std::sync::Wait;
use std::thread::Threads;
use std::time::Clock;

/// No program here has more states.
const MOST_STATES: u32 = 100;

/// What is done with a text.
#[derive(Clone, Copy)]
enum Task {
    Run,
    Moves,
    Check,
    Dump,
    Live,
    Explore(WitnessForm),
    ExploreJava,
    Draw,
    DrawMoves,
}

/// What a task comes to that has read this text: what it writes, or its fault.
#[derive(Clone, Copy)]
struct Row {
    task: Task,
    text: &'static [u8],
    outcome: Result<&'static [u8], FileFault>,
}

const ROWS: [Row; 16] = [
    Row {
        task: Task::Run,
        text: SCRIPT,
        outcome: Ok(REPORT),
    },
    Row {
        task: Task::Moves,
        text: SCRIPT,
        outcome: Ok(HISTORY),
    },
    Row {
        task: Task::Dump,
        text: CYCLE,
        outcome: Ok(CYCLE_DUMP),
    },
    Row {
        task: Task::Check,
        text: HISTORY,
        outcome: Ok(b"run of 4 moves\n"),
    },
    Row {
        task: Task::Live,
        text: LIVE,
        outcome: Ok(LIVE_TEXT),
    },
    Row {
        task: Task::Explore(WitnessForm::Script),
        text: ONE_ENTER,
        outcome: Ok(ONE_REPORT),
    },
    Row {
        task: Task::Explore(WitnessForm::History),
        text: ONE_ENTER,
        outcome: Ok(ONE_HISTORY),
    },
    Row {
        task: Task::ExploreJava,
        text: ONE_ENTER,
        outcome: Ok(ONE_HISTORY),
    },
    Row {
        task: Task::Run,
        text: b"world 4 4\ngo\n",
        outcome: Err(FileFault::BadLine(2)),
    },
    Row {
        task: Task::Moves,
        text: b"go\n",
        outcome: Err(FileFault::BadLine(1)),
    },
    Row {
        task: Task::Dump,
        text: b"",
        outcome: Err(FileFault::BadLine(1)),
    },
    Row {
        task: Task::Check,
        text: LOCKS_TWICE,
        outcome: Err(FileFault::Broken(5)),
    },
    Row {
        task: Task::Live,
        text: b"world 1 1\ntick 1\n",
        outcome: Err(FileFault::BadLine(2)),
    },
    Row {
        task: Task::Explore(WitnessForm::Script),
        text: b"world 1 1\nthread x\ngo x\n",
        outcome: Err(FileFault::BadLine(3)),
    },
    Row {
        task: Task::Draw,
        text: b"world 4 4\ngo\n",
        outcome: Err(FileFault::BadLine(2)),
    },
    Row {
        task: Task::DrawMoves,
        text: LOCKS_TWICE,
        outcome: Err(FileFault::Broken(5)),
    },
];

/// Does a task on what the reader gives; or tells its fault, which is one of files.
fn do_task<R: Threads + Wait + Clock + Sync + Abort>(
    rt: &R,
    alloc: Global,
    task: Task,
    reader: &mut PiecesReader<'_>,
    writer: &mut FullWriter,
) -> Result<(), FileFault> {
    let source = &mut ReaderSource::new(reader);
    let sink = &mut WriterSink::new(writer);
    match task {
        Task::Run => run(alloc, source, sink),
        Task::Moves => moves(alloc, source, sink),
        Task::Check => replay(alloc, source, sink),
        Task::Dump => dump_script(alloc, source, sink),
        Task::Live => match run_live(rt, alloc, source, sink) {
            Ok(()) => Ok(()),
            Err(RunFault::File(fault)) => Err(fault),
            Err(RunFault::Torn) => panic!(rt; "torn"),
        },
        Task::Explore(witness) => explored_ending(
            rt,
            explore_text(alloc, source, sink, MOST_STATES, witness, &mut Nobody),
        ),
        Task::ExploreJava => explored_ending(
            rt,
            explore_java_text(alloc, source, sink, MOST_STATES, &mut Nobody),
        ),
        Task::Draw => drawn_ending(rt, draw_script(alloc, Window::whole(), source, sink)),
        Task::DrawMoves => drawn_ending(rt, draw_moves(alloc, Window::whole(), source, sink))
    }
}

/// How an exploration ends that has few states.
fn explored_ending(rt: &impl Abort, ending: Result<(), ExploreTextFault>) -> Result<(), FileFault> {
    match ending {
        Ok(()) => Ok(()),
        Err(ExploreTextFault::File(fault)) => Err(fault),
        Err(ExploreTextFault::TooManyStates(most)) => panic!(rt; "more than {most} states"),
    }
}

/// How a drawing ends that is small enough.
fn drawn_ending(rt: &impl Abort, ending: Result<(), DrawFault>) -> Result<(), FileFault> {
    match ending {
        Ok(()) => Ok(()),
        Err(DrawFault::File(fault)) => Err(fault),
        Err(fault) => panic!(rt; "{fault}"),
    }
}

/// How long the text is that a task writes.
fn length_of(row: Row) -> usize {
    match row.outcome {
        Ok(text) => text.len(),
        Err(_) => 0,
    }
}

/// Gives a task so many bytes of its text, and a writer with so much room. A failed read or write is
/// told exactly where the reader or the writer failed; where neither did, the task comes to what
/// its row says. Whether neither failed.
fn goes_well<R: Threads + Wait + Clock + Sync + Abort>(
    rt: &R,
    alloc: Global,
    row: Row,
    (count, then): (usize, Then),
    room: usize,
) -> bool {
    let (front, _) = row.text.split_at(count.min(row.text.len()));
    let mut reader = PiecesReader::new(front, 7, then);
    let mut writer = FullWriter::new(alloc, room, false);
    let outcome = do_task(rt, alloc, row.task, &mut reader, &mut writer);
    assert!(rt; (outcome == Err(FileFault::Read)) == reader.has_failed);
    assert!(rt; (outcome == Err(FileFault::Write)) == writer.has_failed);
    if reader.has_failed || writer.has_failed {
        return false;
    }
    let taken = writer.taken.as_slice();
    let is_right = match (outcome, row.outcome) {
        (Ok(()), Ok(text)) => taken == text,
        (Err(fault), Err(wanted)) => fault == wanted,
        _ => false,
    };
    assert!(rt; is_right);
    true
}

/// The reader would fail if it were asked again behind its end, and the writer if it were handed a
/// byte more than the text: neither happens.
#[test]
fn no_more_is_asked_than_a_task_needs(rt: HostRuntime) {
    for (number, &row) in ROWS.iter().enumerate() {
        let all = (row.text.len(), Then::EndsOnce);
        assert!(rt;
            goes_well(&rt, rt.alloc(), row, all, length_of(row)),
            "row {number}"
        );
    }
}

/// The reader fails behind each byte of the text.
#[test]
fn a_failed_read_is_one_of_the_reader(rt: HostRuntime) {
    for &row in &ROWS {
        for count in 0..=row.text.len() {
            goes_well(&rt, rt.alloc(), row, (count, Then::Fails), 1_000);
        }
    }
}

/// The writer has too little room, by any number of bytes.
#[test]
fn a_failed_write_is_one_of_the_writer(rt: HostRuntime) {
    for &row in &ROWS {
        for room in 0..length_of(row) {
            let all = (row.text.len(), Then::Ends);
            assert!(rt; !goes_well(&rt, rt.alloc(), row, all, room));
        }
    }
}

/// How many bytes a drawing writes that has so much room for them, if it comes to its end. A write
/// is told to have failed exactly where one did, and nothing else goes wrong.
fn drawn_length<R: Threads + Wait + Clock + Sync + Abort>(
    rt: &R,
    alloc: Global,
    (task, text): (Task, &[u8]),
    room: usize,
) -> Option<usize> {
    let mut reader = PiecesReader::new(text, 7, Then::Ends);
    let mut writer = FullWriter::new(alloc, room, false);
    let outcome = do_task(rt, alloc, task, &mut reader, &mut writer);
    let has_failed = outcome == Err(FileFault::Write);
    assert!(rt; has_failed == writer.has_failed && has_failed == outcome.is_err());
    if has_failed {
        return None;
    }
    Some(writer.taken.len())
}

/// The writer of a drawing has no room, or too little, or just enough.
#[test]
fn a_failed_write_of_a_drawing_is_one_of_the_writer(rt: HostRuntime) {
    for drawing in [(Task::Draw, SCRIPT), (Task::DrawMoves, HISTORY)] {
        let Some(length) = drawn_length(&rt, rt.alloc(), drawing, 100_000) else {
            panic!(rt; "no room");
        };
        for room in [0, 1, 1_000, length / 2, length.saturating_sub(1)] {
            assert!(rt; drawn_length(&rt, rt.alloc(), drawing, room).is_none());
        }
        assert!(rt; drawn_length(&rt, rt.alloc(), drawing, length) == Some(length));
    }
}
