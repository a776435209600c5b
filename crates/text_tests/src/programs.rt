//! Programs that are explored: the first bad line of a text, how many states are asked for, and
//! want of memory.

use explore::Nobody;
use explore_runs::{ExploreTextFault, WitnessForm, explore_java_text, explore_text};
use history::{FileFault, ReaderSource, WriterSink};
use program_text::read_program;
use std::alloc::Global;
use std::process::Abort;
use std::test::Fail;

/// A program with each line that one may have.
const WHOLE: &str = "world 1 2 deep\nobject a 00\nthread x\ncall wait a -1 0\ncall interrupt y\n\
    thread y\ncall end\nclock 0 5 5\nspurious 2\n";

/// A program, and its first bad line; None where it has none.
const PROGRAMS: [(&str, Option<u64>); 29] = [
    (WHOLE, None),
    ("world 1 1\nthread x\n", None),
    ("world 1 1\nthread x\nclock 7\n", None),
    ("world 1 1\nthread x\nspurious 0\n", None),
    ("world 1 1\nthread x\ncall interrupt nobody\n", None),
    ("", Some(1)),
    ("thread x\n", Some(1)),
    ("world 1 2048 deep\nthread x\n", Some(1)),
    ("world 1 1\n", Some(2)),
    ("world 1 1\nobject a 00\n", Some(3)),
    ("world 1 1\nworld 1 1\nthread x\n", Some(2)),
    ("world 1 1\nthread x", Some(2)),
    ("world 1 1\nthread\n", Some(2)),
    ("world 1 1\nthread x y\n", Some(2)),
    ("world 1 1\nthread X\n", Some(2)),
    ("world 1 2\nthread x\nthread x\n", Some(3)),
    ("world 1 1\nthread x\nthread y\n", Some(3)),
    ("world 1 1\nobject a 00\ncall enter a\n", Some(3)),
    ("world 1 1\nobject a 00\nobject a 00\n", Some(3)),
    ("world 1 1\nthread x\ncall enter a\n", Some(3)),
    ("world 1 1\nthread x\nobject a 00\n", Some(3)),
    ("world 1 1\nthread x\ncall lock a\n", Some(3)),
    ("world 1 1\nthread x\nclock\n", Some(3)),
    ("world 1 1\nthread x\nclock 5 4\n", Some(3)),
    ("world 1 1\nthread x\nclock 4\nclock 5\n", Some(4)),
    ("world 1 1\nthread x\nspurious\n", Some(3)),
    ("world 1 1\nthread x\nspurious 1\nclock 5\n", Some(4)),
    ("world 1 1\nthread x\nbegin x end\n", Some(3)),
    ("world 1 1\nthread \u{e9}\n", Some(2)),
];

/// The first bad line of a program, if it has one.
fn bad_line_of(alloc: Global, text: &str) -> Option<FileFault> {
    match read_program(alloc, text.as_bytes()) {
        Ok(_) => None,
        Err(fault) => Some(fault),
    }
}

#[test]
fn first_bad_lines_of_programs(rt: HostRuntime) {
    for (text, line) in PROGRAMS {
        let wanted = line.map(FileFault::BadLine);
        assert!(rt; bad_line_of(rt.alloc(), text) == wanted, "{text}");
    }
}

#[test]
fn a_program_says_what_its_lines_say(rt: HostRuntime) -> Result<(), Fail> {
    let named = read_program(rt.alloc(), WHOLE.as_bytes())?;
    assert!(rt; named.program.monitors == 1 && named.program.indices == 2);
    assert!(rt;
        named.program.calls.len() == 3 && named.program.starts.as_slice() == [0, 2].as_slice()
    );
    assert!(rt; named.program.moments.as_slice() == [0, 5, 5].as_slice() && named.program.spurious);
    Ok(())
}

/// A beginning of a program, and a line that is put behind it so many times, each with its number.
fn text_of(alloc: Global, front: &str, line: &str, times: u32) -> Result<String, Fail> {
    let mut text = String::from_str(alloc, front)?;
    for number in 0..times {
        text.push_str(line)?;
        text.push_str(number.to_string(alloc)?.as_str())?;
        text.push_str("\n")?;
    }
    Ok(text)
}

#[test]
fn the_most_threads_and_calls_and_one_more(rt: HostRuntime) -> Result<(), Fail> {
    let rows = [
        ("world 1 100\n", "thread t", 64, None),
        ("world 1 100\n", "thread t", 65, Some(66)),
        ("world 1 1\nthread x\n", "call interrupt t", 1_024, None),
        (
            "world 1 1\nthread x\n",
            "call interrupt t",
            1_025,
            Some(1_027),
        ),
    ];
    for (front, line, times, bad) in rows {
        let text = text_of(rt.alloc(), front, line, times)?;
        let wanted = bad.map(FileFault::BadLine);
        assert!(rt;
            bad_line_of(rt.alloc(), text.as_str()) == wanted,
            "{times} {line}"
        );
    }
    Ok(())
}

/// A thread that enters an object and exits it: seven states, one behind the other.
pub(crate) const ONE_ENTER: &[u8] =
    b"world 1 1\nobject a 00\nthread x\ncall enter a\ncall exit a\n";

pub(crate) const ONE_REPORT: &[u8] = b"states 7 steps 6
outcome 1 ends 1
thread x Entered Exited
object a owner - holds 0 waiting -
script 9
world 1 1
object a 00
attach x
begin x enter a
go x
go x
begin x exit a
go x
go x
";

/// The same with the history of that script.
pub(crate) const ONE_HISTORY: &[u8] = b"states 7 steps 6
outcome 1 ends 1
thread x Entered Exited
object a owner - holds 0 waiting -
history 8
{\"objects\":1}
{\"move\":\"Attach\",\"thread\":0}
{\"call\":\"Enter\",\"move\":\"Call\",\"object\":0,\"thread\":0}
{\"move\":\"Lock\",\"thread\":0}
{\"move\":\"Return\",\"reply\":\"Entered\",\"thread\":0}
{\"call\":\"Exit\",\"move\":\"Call\",\"object\":0,\"thread\":0}
{\"move\":\"Unlock\",\"thread\":0}
{\"move\":\"Return\",\"reply\":\"Exited\",\"thread\":0}
";

/// What is explored: the core, with this behind each outcome, or the Java machine itself.
#[derive(Clone, Copy)]
pub(crate) enum Explored {
    Core(WitnessForm),
    Machine,
}

/// Explores a program with at most so many states.
fn explore_one(
    alloc: Global,
    program: &[u8],
    explored: Explored,
    most: u32,
    sink: &mut WriterSink<Vec<u8>>,
) -> Result<(), ExploreTextFault> {
    let mut source = ReaderSource::new(program);
    match explored {
        Explored::Core(form) => explore_text(alloc, &mut source, sink, most, form, &mut Nobody),
        Explored::Machine => explore_java_text(alloc, &mut source, sink, most, &mut Nobody),
    }
}

/// Whether the program ends so where this many states are asked for, and this is written.
fn ends_so(
    alloc: Global,
    most: u32,
    explored: Explored,
    ending: Result<(), ExploreTextFault>,
    text: &[u8],
) -> bool {
    let mut sink = WriterSink::new(Vec::new(alloc));
    let outcome = explore_one(alloc, ONE_ENTER, explored, most, &mut sink);
    outcome == ending && sink.into_inner().as_slice() == text
}

#[test]
fn states_that_are_enough_and_one_less(rt: HostRuntime) {
    let few = Err(ExploreTextFault::TooManyStates(6));
    for (explored, report) in [
        (Explored::Core(WitnessForm::Script), ONE_REPORT),
        (Explored::Core(WitnessForm::History), ONE_HISTORY),
        (Explored::Machine, ONE_HISTORY),
    ] {
        assert!(rt; ends_so(rt.alloc(), 7, explored, Ok(()), report));
        assert!(rt; ends_so(rt.alloc(), 6, explored, few, b""));
    }
}

/// Whether a program of so many states is explored. Where it is not, memory was refused, and
/// nothing was written; or the writer was refused some, which has a front of the report.
pub(crate) fn explores(
    rt: &impl Abort,
    alloc: Global,
    program: &[u8],
    explored: Explored,
    states: u32,
    report: &[u8],
) -> bool {
    let mut sink = WriterSink::new(Vec::new(alloc));
    let outcome = explore_one(alloc, program, explored, states, &mut sink);
    let bytes = sink.into_inner();
    let is_right = match outcome {
        Ok(()) => bytes.as_slice() == report,
        Err(ExploreTextFault::File(FileFault::Write)) => report.starts_with(bytes.as_slice()),
        Err(fault) => { fault == ExploreTextFault::File(FileFault::Memory) && bytes.is_empty() }
    };
    assert!(rt; is_right);
    outcome.is_ok()
}

fn explores_one(rt: &impl Abort, alloc: Global, explored: Explored, report: &[u8]) -> bool {
    explores(rt, alloc, ONE_ENTER, explored, 7, report)
}

#[test]
fn a_refused_exploration_succeeds_when_tried_again(rt: HostRuntime) {
    let (rt, alloc) = (&rt, rt.alloc());
    let core = Explored::Core(WitnessForm::Script);
    assert!(rt;
        explores_one(rt, alloc, core, ONE_REPORT) || explores_one(rt, alloc, core, ONE_REPORT)
    );
}

#[test]
fn a_refused_exploration_with_histories_succeeds_when_tried_again(rt: HostRuntime) {
    let (rt, alloc) = (&rt, rt.alloc());
    let core = Explored::Core(WitnessForm::History);
    assert!(rt;
        explores_one(rt, alloc, core, ONE_HISTORY) || explores_one(rt, alloc, core, ONE_HISTORY)
    );
}

// The machine makes the moves of that history, one in each state.
#[test]
fn a_refused_exploration_of_the_machine_succeeds_when_tried_again(rt: HostRuntime) {
    let (rt, alloc) = (&rt, rt.alloc());
    let machine = Explored::Machine;
    assert!(rt;
        explores_one(rt, alloc, machine, ONE_HISTORY)
            || explores_one(rt, alloc, machine, ONE_HISTORY)
    );
}
