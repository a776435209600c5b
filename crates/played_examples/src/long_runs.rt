//! Runs that are long because a thread enters an object often.

use crate::comparing::{Wanted, compare};
use crate::drafts::{Draft, Shown};
use std::alloc::{AllocError, Global};
use std::io;

/// A run: steps, in which the thread x enters the object often, and what is to come of them.
struct LongRun {
    name: &'static str,
    /// How many monitors the world has, and whether its split is the deep one.
    monitors: u32,
    is_deep: bool,
    before: &'static [Shown],
    /// How often x then enters the free object, as its thin word counts.
    enters: u32,
    after: &'static [Shown],
    /// Steps that come this often behind these.
    often: (u32, &'static [Shown]),
    last: &'static [Shown],
    /// The line of the object at the end.
    object: &'static str,
    /// How many moves the history has: one for an attach, one for a call, and two more where the
    /// call replies.
    moves: u64,
}

/// The enter for which a thin word has no count left.
const ENTER_257: [Shown; 5] = [
    ("begin x enter a", "begin x"),
    ("go x", "go x load a 0001FFA5"),
    ("go x", "go x bind a 0"),
    ("go x", "go x store a 0001FFA5 800000A5"),
    ("go x", "go x act Enter = Entered"),
];

/// An enter of the fat monitor.
const FAT_ENTER: [Shown; 3] = [
    ("begin x enter a", "begin x"),
    ("go x", "go x load a 800000A5"),
    ("go x", "go x act Enter = Entered"),
];

/// An exit of the fat monitor.
const FAT_EXIT: [Shown; 3] = [
    ("begin x exit a", "begin x"),
    ("go x", "go x load a 800000A5"),
    ("go x", "go x act Exit = Exited"),
];

/// One more is refused: a thread holds an object 65,535 times at most.
const ENTER_65536: [Shown; 3] = [
    ("begin x enter a", "begin x"),
    ("go x", "go x load a 800000A5"),
    ("go x", "go x act Enter = Refused TooDeep"),
];

/// In a world without fat monitors the 257th enter is refused, and changes nothing.
const ENTER_257_REFUSED: [Shown; 3] = [
    ("begin x enter a", "begin x"),
    ("go x", "go x load a 0001FFA5"),
    ("go x", "go x nobind a NoMonitor = Refused NoMonitor"),
];

/// The enter for which a deep word has no count left.
const ENTER_4097: [Shown; 5] = [
    ("begin x enter a", "begin x"),
    ("go x", "go x load a 001FFFA5"),
    ("go x", "go x bind a 0"),
    ("go x", "go x store a 001FFFA5 800000A5"),
    ("go x", "go x act Enter = Entered"),
];

/// A relayout inflates a monitor whose count does not fit the wide split, and keeps its holds.
const RELAYOUT: [Shown; 1] = [("relayout wide", "relayout wide inflated 1")];

/// In a world without fat monitors it is refused, and changes nothing.
const RELAYOUT_REFUSED: [Shown; 1] = [("relayout wide", "fault 11 NoMonitor")];

const ATTACH_TWO: [Shown; 2] = [
    ("attach y", "attach y index 2"),
    ("attach z", "attach z index 3"),
];

/// A wait with 200 holds that is interrupted between its bind and its store.
const WAIT_INTERRUPTED: [Shown; 13] = [
    ("begin x wait a 0 0", "begin x"),
    ("go x", "go x load a 0001C7A5"),
    ("go x", "go x bind a 0"),
    ("begin y enter a", "begin y"),
    ("go y", "go y load a 0001C7A5"),
    ("begin z interrupt x", "begin z"),
    ("go z", "go z act Interrupt = Done"),
    ("begin z isinterrupted x", "begin z"),
    ("go z", "go z act IsInterrupted = Yes"),
    ("go x", "go x store a 0001C7A5 800000A5"),
    ("go x", "go x act Wait = Interrupted"),
    ("begin z isinterrupted x", "begin z"),
    ("go z", "go z act IsInterrupted = No"),
];

const RUNS: [LongRun; 10] = [
    LongRun {
        name: "enter_256",
        monitors: 4,
        is_deep: false,
        before: &[],
        enters: 256,
        after: &[],
        often: (0, &[]),
        last: &[],
        object: "object a 0001FFA5 owner x holds 256 waiting -",
        moves: 769,
    },
    LongRun {
        name: "enter_257",
        monitors: 4,
        is_deep: false,
        before: &[],
        enters: 256,
        after: &ENTER_257,
        often: (0, &[]),
        last: &[],
        object: "object a 800000A5 owner x holds 257 waiting -",
        moves: 772,
    },
    LongRun {
        name: "enter_257_and_exits",
        monitors: 4,
        is_deep: false,
        before: &[],
        enters: 256,
        after: &ENTER_257,
        often: (257, &FAT_EXIT),
        last: &[],
        object: "object a 800000A5 owner - holds 0 waiting -",
        moves: 1_543,
    },
    LongRun {
        name: "enter_257_without_monitors",
        monitors: 0,
        is_deep: false,
        before: &[],
        enters: 256,
        after: &ENTER_257_REFUSED,
        often: (0, &[]),
        last: &[],
        object: "object a 0001FFA5 owner x holds 256 waiting -",
        moves: 772,
    },
    LongRun {
        name: "enter_65536",
        monitors: 4,
        is_deep: false,
        before: &[],
        enters: 256,
        after: &ENTER_257,
        often: (65_535 - 257, &FAT_ENTER),
        last: &ENTER_65536,
        object: "object a 800000A5 owner x holds 65535 waiting -",
        moves: 196_609,
    },
    LongRun {
        name: "enter_4096_deep",
        monitors: 4,
        is_deep: true,
        before: &[],
        enters: 4_096,
        after: &[],
        often: (0, &[]),
        last: &[],
        object: "object a 001FFFA5 owner x holds 4096 waiting -",
        moves: 12_289,
    },
    LongRun {
        name: "enter_4097_deep",
        monitors: 4,
        is_deep: true,
        before: &[],
        enters: 4_096,
        after: &ENTER_4097,
        often: (0, &[]),
        last: &[],
        object: "object a 800000A5 owner x holds 4097 waiting -",
        moves: 12_292,
    },
    LongRun {
        name: "relayout_257",
        monitors: 4,
        is_deep: true,
        before: &[],
        enters: 257,
        after: &RELAYOUT,
        often: (0, &[]),
        last: &[],
        object: "object a 800000A5 owner x holds 257 waiting -",
        moves: 772,
    },
    LongRun {
        name: "relayout_257_without_monitors",
        monitors: 0,
        is_deep: true,
        before: &[],
        enters: 257,
        after: &RELAYOUT_REFUSED,
        often: (0, &[]),
        last: &[],
        object: "object a 001100A5 owner x holds 257 waiting -",
        moves: 772,
    },
    LongRun {
        name: "interrupt_while_inflating",
        monitors: 4,
        is_deep: false,
        before: &ATTACH_TWO,
        enters: 200,
        after: &WAIT_INTERRUPTED,
        often: (0, &[]),
        last: &[],
        object: "object a 800000A5 owner x holds 200 waiting -",
        moves: 616,
    },
];

/// Plays the long runs.
pub fn play<R: Print + AllocGlobal>(rt: &R) -> io::Result<bool> {
    let mut all_right = true;
    for run in &RUNS {
        all_right &= play_run(rt, run)?;
    }
    Ok(all_right)
}

fn play_run<R: Print + AllocGlobal>(rt: &R, run: &LongRun) -> io::Result<bool> {
    let draft = draft_of(rt.alloc(), run)?;
    let wanted = Wanted {
        report: &draft.report,
        history: None,
        moves: run.moves,
    };
    compare(rt, run.name, draft.script.as_bytes(), wanted)
}

/// The script of a run, and its report.
fn draft_of(alloc: Global, run: &LongRun) -> Result<Draft, AllocError> {
    let mut draft = Draft::new(alloc, run.is_deep);
    add_steps(&mut draft, run)?;
    Ok(draft)
}

fn add_steps(draft: &mut Draft, run: &LongRun) -> Result<(), AllocError> {
    draft.begin(run.monitors)?;
    draft.add_all(run.before)?;
    draft.enter_thinly(run.enters)?;
    draft.add_all(run.after)?;
    draft.add_often(run.often.0, run.often.1)?;
    draft.add_all(run.last)?;
    draft.end(run.object)
}
