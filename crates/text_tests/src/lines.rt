//! Lines of a script that a reader hands out by the way of the usual ones.

use indexmap::IndexSet;
use script_text::ScriptReader;
use std::alloc::Global;

/// A script with usual steps and others.
const SCRIPT: &[u8] = b"world 4 4\nobject a A5\nattach x\nbegin x enter a\ngo x\ngo x\n\
    begin x holds a\ngo x\nbegin x exit a\ngo x\nexpire x\ntick 1\n";

/// The way by which a line comes.
#[derive(Clone, Copy, PartialEq, Eq)]
enum Way {
    /// A `go`, or the `begin` of an enter or an exit.
    Usual,
    /// Another step that names a thread, and is no wait.
    Seldom,
    Other,
}

/// The ways of its lines.
const WAYS: [Way; 12] = [
    Way::Other,
    Way::Other,
    Way::Seldom,
    Way::Usual,
    Way::Usual,
    Way::Usual,
    Way::Seldom,
    Way::Usual,
    Way::Usual,
    Way::Usual,
    Way::Seldom,
    Way::Other,
];

/// The way by which the next line comes, if there is one.
fn way_of_next(
    alloc: Global,
    lines: &mut ScriptReader<'_>,
    objects: &IndexSet<String>,
) -> Option<Way> {
    if lines.next_usual().is_some() {
        return Some(Way::Usual);
    }
    if lines.next_seldom().is_some() {
        return Some(Way::Seldom);
    }
    match lines.next(alloc, objects) {
        Ok(Some(_)) => Some(Way::Other),
        _ => None,
    }
}

/// Whether each line comes by its way, and no line behind them.
fn come_by_their_ways(alloc: Global) -> bool {
    let objects = IndexSet::<String>::new(alloc);
    let Ok(mut lines) = ScriptReader::new(SCRIPT) else {
        return false;
    };
    for way in WAYS {
        if way_of_next(alloc, &mut lines, &objects) != Some(way) {
            return false;
        }
    }
    matches!(lines.next(alloc, &objects), Ok(None))
}

#[test]
fn usual_lines_come_by_a_way_of_their_own(rt: HostRuntime) {
    assert!(rt; come_by_their_ways(rt.alloc()));
}
