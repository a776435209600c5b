mod plain;

use crate::rows::expect_none;
use lock_word::{Memory, ThreadId};
use plain::PlainLines;
use std::alloc::Global;
use wait_lines::{Lines, Role};

/// What is asked of the lines, where threads go by their numbers, and what has to be answered.
#[derive(Clone, Copy)]
enum Ask {
    /// The thread comes to the end of this monitor's line.
    Joins(u32, u32, Role),
    /// The thread leaves the line in which it stands; false: it stands in none.
    Leaves(u32, bool),
    /// The thread is the first of this monitor's line; None: nobody stands there.
    IsFirst(u32, Role, Option<u32>),
    /// Just these threads stand in this monitor's line, in this order.
    Stand(u32, Role, &'static [u32]),
}

/// Makes room for one more thread, where there is not room for all, and moves this one to the end
/// of a line.
fn add(lines: &mut Lines, thread: u32, monitor: u32, role: Role) -> Result<(), Memory> {
    if lines.reservations() == 32_767 {
        return Err(Memory);
    }
    let thread = ThreadId(thread);
    let _stood = lines.leave(thread);
    lines.reserve_one()?;
    lines.join(thread, monitor, role);
    Ok(())
}

/// Whether just these threads stand in a line, in this order.
fn stand(lines: &Lines, monitor: u32, role: Role, threads: &[u32]) -> bool {
    let mut line = lines.all(monitor, role);
    for thread in threads {
        if line.next() != Some(ThreadId(*thread)) {
            return false;
        }
    }
    line.next() == None
}

/// Whether this is the answer.
fn answers(lines: &mut Lines, ask: Ask) -> bool {
    match ask {
        Ask::Joins(thread, monitor, role) => add(lines, thread, monitor, role).is_ok(),
        Ask::Leaves(thread, stood) => lines.leave(ThreadId(thread)) == stood,
        Ask::IsFirst(monitor, role, thread) => {
            lines.first(monitor, role) == thread.map(ThreadId)
        }
        Ask::Stand(monitor, role, threads) => stand(lines, monitor, role, threads),
    }
}

/// The first of these that is answered otherwise.
fn first_other(lines: &mut Lines, asks: &[Ask]) -> Option<usize> {
    for (row, &ask) in asks.iter().enumerate() {
        if !answers(lines, ask) {
            return Some(row);
        }
    }
    None
}

const TWO_WAIT_AND_ONE_LEAVES: [Ask; 7] = [
    Ask::Joins(5, 0, Role::Waiting),
    Ask::Joins(6, 0, Role::Waiting),
    Ask::IsFirst(0, Role::Waiting, Some(5)),
    Ask::Leaves(5, true),
    Ask::IsFirst(0, Role::Waiting, Some(6)),
    Ask::Stand(0, Role::Waiting, &[6]),
    Ask::Leaves(5, false),
];

const LINES_ARE_APART: [Ask; 6] = [
    Ask::Joins(7, 0, Role::Entry),
    Ask::Joins(8, 1, Role::Waiting),
    Ask::IsFirst(0, Role::Entry, Some(7)),
    Ask::IsFirst(0, Role::Waiting, None),
    Ask::IsFirst(1, Role::Entry, None),
    Ask::IsFirst(1, Role::Waiting, Some(8)),
];

const THE_MIDDLE_ONE_LEAVES: [Ask; 5] = [
    Ask::Joins(3, 9, Role::Entry),
    Ask::Joins(1, 9, Role::Entry),
    Ask::Joins(2, 9, Role::Entry),
    Ask::Leaves(1, true),
    Ask::Stand(9, Role::Entry, &[3, 2]),
];

const TABLES: [(&str, &[Ask]); 3] = [
    ("two wait and one leaves", &TWO_WAIT_AND_ONE_LEAVES),
    ("lines are apart", &LINES_ARE_APART),
    ("the middle one leaves", &THE_MIDDLE_ONE_LEAVES),
];

#[test]
fn threads_join_and_leave(rt: HostRuntime) {
    for (name, asks) in TABLES {
        let mut lines = Lines::new(rt.alloc());
        expect_none(&rt, name, Ok(first_other(&mut lines, asks)));
    }
}

/// Lines, and the plain ones that have to answer the same.
#[derive(Drop)]
struct Both {
    lines: Lines,
    plain: PlainLines,
}

impl Both {
    fn new(alloc: Global) -> Both {
        Both {
            lines: Lines::new(alloc),
            plain: PlainLines::new(alloc),
        }
    }

    /// Moves the thread to the end of a line. False: there was no memory.
    fn join(&mut self, thread: u32, monitor: u32, role: Role) -> bool {
        add(&mut self.lines, thread, monitor, role).is_ok()
            && self.plain.join(ThreadId(thread), monitor, role).is_ok()
    }

    /// Takes the thread out by its node. Whether it has none then, and had one before.
    fn leave_by_node(&mut self, thread: ThreadId) -> bool {
        let Some(node) = self.lines.node_of(thread) else {
            return false;
        };
        self.lines.leave_at(node);
        self.plain.leave(thread);
        self.lines.node_of(thread) == None
    }

    /// Whether a line has the threads of the plain one in their order, and its first as first.
    fn is_same(&self, monitor: u32, role: Role) -> bool {
        let mut line = self.lines.all(monitor, role);
        self.lines.first(monitor, role) == line.next()
            && self
                .plain
                .is_all(self.lines.all(monitor, role), monitor, role)
    }
}

/// Whether threads 0 to 999 come to wait for monitor 3.
fn a_thousand_join(both: &mut Both) -> bool {
    for number in 0..1000 {
        if !both.join(number, 3, Role::Waiting) {
            return false;
        }
    }
    true
}

/// The first turn in which a thread cannot leave that line, or it is then not as the plain one. They
/// leave from the middle outwards: 500, 499, 501, 498 and so on.
fn first_other_turn(both: &mut Both) -> Option<usize> {
    for turn in 0..1000u32 {
        let thread = ThreadId(if turn % 2 == 0 {
            500 + turn / 2
        } else {
            499 - turn / 2
        });
        if !both.leave_by_node(thread) || !both.is_same(3, Role::Waiting) {
            return Some(turn as usize);
        }
    }
    None
}

/// The same, behind the joins; or the turn behind the last one, where somebody stands there still.
fn empties(both: &mut Both) -> Result<Option<usize>, Memory> {
    if !a_thousand_join(both) {
        return Err(Memory);
    }
    match first_other_turn(both) {
        None if both.lines.first(3, Role::Waiting) != None => Ok(Some(1000)),
        other => Ok(other),
    }
}

#[test]
fn a_long_line_is_emptied_from_the_middle_outwards(rt: HostRuntime) {
    let mut both = Both::new(rt.alloc());
    expect_none(&rt, "turn", empties(&mut both));
}

/// A thread joins a line, or leaves the one in which it stands, as this number says. Whether the
/// line that the number names is then as the plain one.
fn joins_or_leaves(both: &mut Both, number: u32) -> bool {
    let thread = ThreadId((number >> 8) % 60);
    let monitor = (number >> 16) % 90;
    let role = if number >> 31 == 0 {
        Role::Entry
    } else {
        Role::Waiting
    };
    both.plain.leave(thread);
    let leaves = (number >> 24) % 4 == 0;
    if leaves {
        both.lines.leave(thread);
    }
    (leaves || both.join(thread.0, monitor, role)) && both.is_same(monitor, role)
}

/// The first of so many rounds in which that is not so.
fn first_other_round(both: &mut Both, rounds: usize) -> Option<usize> {
    let mut state = 1u32;
    for round in 0..rounds {
        state = state.wrapping_mul(1_664_525).wrapping_add(1_013_904_223);
        if !joins_or_leaves(both, state) {
            return Some(round);
        }
    }
    None
}

#[test]
fn threads_join_and_leave_in_no_order(rt: HostRuntime) {
    let mut both = Both::new(rt.alloc());
    expect_none(&rt, "round", Ok(first_other_round(&mut both, 600)));
}

/// How many threads get room, one by one, before one does not.
fn grow(lines: &mut Lines) -> u16 {
    for number in 0..32_767 {
        if lines.reservations() != number || lines.reserve_one().is_err() {
            return number;
        }
    }
    lines.reservations()
}

#[test]
fn there_is_room_for_every_thread(rt: HostRuntime) {
    let mut lines = Lines::new(rt.alloc());
    assert!(rt; grow(&mut lines) == 32_767);
}
