//! The words of the command line, behind the program's name, and the line of a fault. What is told
//! of words that are no order is compared by `orders/`.

use command_line::{Exploration, FaultLine, Order, Task, TaskFault, read_words};
use drawing::Window;
use explore_runs::WitnessForm;
use history::FileFault;
use live_runs::RunFault;
use std::alloc::{AllocError, Global};
use std::process::Abort;
use std::test::Fail;

pub(crate) fn words_of(alloc: Global, line: &str) -> Result<Vec<String>, AllocError> {
    let mut words = Vec::new(alloc);
    for word in line.split_whitespace() {
        words.push(String::from_str(alloc, word)?)?;
    }
    Ok(words)
}

/// A line of words, and the order that it is read as: its task and its file.
const ORDERS: [(&str, Task, Option<&str>); 20] = [
    ("run", Task::Run, None),
    ("run x.script", Task::Run, Some("x.script")),
    ("run -", Task::Run, Some("-")),
    ("run check", Task::Run, Some("check")),
    ("run -- --moves", Task::Run, Some("--moves")),
    ("run --moves", Task::Moves, None),
    ("run --moves x.script", Task::Moves, Some("x.script")),
    ("run x.script --moves", Task::Moves, Some("x.script")),
    ("check", Task::Check, None),
    ("check x.history", Task::Check, Some("x.history")),
    ("check run", Task::Check, Some("run")),
    ("dump", Task::Dump, None),
    ("dump x.script", Task::Dump, Some("x.script")),
    ("dump dump", Task::Dump, Some("dump")),
    ("live", Task::Live, None),
    ("live x.script", Task::Live, Some("x.script")),
    ("explore --any", Task::ExploreJava(10_000_000), None),
    ("explore --any x", Task::ExploreJava(10_000_000), Some("x")),
    ("explore --moves --any", Task::ExploreJava(10_000_000), None),
    (
        "explore x --states 20 --any",
        Task::ExploreJava(20),
        Some("x"),
    ),
];

/// A line of words that order to explore, the most states, what is shown of a witness, and the
/// file.
const EXPLORING: [(&str, u32, WitnessForm, Option<&str>); 9] = [
    ("explore", 10_000_000, WitnessForm::Script, None),
    (
        "explore x.program",
        10_000_000,
        WitnessForm::Script,
        Some("x.program"),
    ),
    ("explore --moves", 10_000_000, WitnessForm::History, None),
    ("explore --states 1", 1, WitnessForm::Script, None),
    (
        "explore --states=4294967295 x",
        4_294_967_295,
        WitnessForm::Script,
        Some("x"),
    ),
    (
        "explore x --moves --states 20",
        20,
        WitnessForm::History,
        Some("x"),
    ),
    ("explore --states +7", 7, WitnessForm::Script, None),
    ("explore --states 007", 7, WitnessForm::Script, None),
    (
        "explore -- --moves",
        10_000_000,
        WitnessForm::Script,
        Some("--moves"),
    ),
];

/// A line of words that order to draw, whether a history, the first and the last column, and the
/// file.
const DRAWING: [(&str, bool, u32, Option<u32>, Option<&str>); 9] = [
    ("draw", false, 1, None, None),
    ("draw x.script", false, 1, None, Some("x.script")),
    ("draw --moves x.history", true, 1, None, Some("x.history")),
    ("draw draw --moves", true, 1, None, Some("draw")),
    ("draw --from 3", false, 3, None, None),
    ("draw --to 9 x.script", false, 1, Some(9), Some("x.script")),
    ("draw --to 9 --from 3", false, 3, Some(9), None),
    ("draw --from 9 --to 3 --moves", true, 9, Some(3), None),
    (
        "draw --from=4294967295 x --moves",
        true,
        4_294_967_295,
        None,
        Some("x"),
    ),
];

/// Whether a line of words is read as this order.
fn is_order(alloc: Global, line: &str, order: Order) -> Result<bool, AllocError> {
    let words = words_of(alloc, line)?;
    match read_words(alloc, &words) {
        Ok(read) => Ok(read == order),
        Err(_) => Ok(false),
    }
}

/// Each line of words is read as the order beside it.
fn assert_orders(
    rt: &impl Abort,
    alloc: Global,
    rows: &[(&str, Task, Option<&str>)],
) -> Result<(), Fail> {
    for &(line, task, file) in rows {
        assert!(rt; is_order(alloc, line, Order { task, file })?, "{line}");
    }
    Ok(())
}

#[test]
fn orders(rt: HostRuntime) -> Result<(), Fail> {
    assert_orders(&rt, rt.alloc(), &ORDERS)
}

#[test]
fn orders_to_explore(rt: HostRuntime) -> Result<(), Fail> {
    for (line, most, witness, file) in EXPLORING {
        let task = Task::Explore(Exploration { most, witness });
        assert!(rt; is_order(rt.alloc(), line, Order { task, file })?, "{line}");
    }
    Ok(())
}

#[test]
fn orders_to_draw(rt: HostRuntime) -> Result<(), Fail> {
    for (line, is_history, first, last, file) in DRAWING {
        let window = Window { first, last };
        let task = if is_history {
            Task::DrawMoves(window)
        } else {
            Task::Draw(window)
        };
        assert!(rt; is_order(rt.alloc(), line, Order { task, file })?, "{line}");
    }
    Ok(())
}

const FAULT_LINES: [(FaultLine, &str); 5] = [
    (
        FaultLine(TaskFault::Run(RunFault::File(FileFault::BadLine(5)))),
        "thinmon: bad line 5",
    ),
    (
        FaultLine(TaskFault::Run(RunFault::File(FileFault::Read))),
        "thinmon: read failed",
    ),
    (
        FaultLine(TaskFault::Run(RunFault::Torn)),
        "thinmon: fault 18 Torn",
    ),
    (
        FaultLine(TaskFault::TooManyStates(10_000_000)),
        "thinmon: too many states: more than 10000000",
    ),
    (
        FaultLine(TaskFault::NoSuchColumn(30)),
        "thinmon: no such column: 30",
    ),
];

#[test]
fn lines_of_faults(rt: HostRuntime) -> Result<(), Fail> {
    for (fault, text) in FAULT_LINES {
        let told = format!(in rt.alloc(); "{fault}")?;
        assert!(rt; told.as_str() == text, "{told}");
    }
    Ok(())
}
