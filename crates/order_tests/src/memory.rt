//! Want of memory while the words are read. What comes is the order, or want of memory, and the same
//! succeeds when it is tried again.

use super::words::words_of;
use command_line::{Order, ProgramEnd, Task, TaskFault, end_for, read_words};
use history::FileFault;
use live_runs::RunFault;
use std::alloc::Global;
use std::process::Abort;
use std::test::Fail;

/// The order of the words `run --moves f`.
const MOVES_OF_F: Order<'static> = Order {
    task: Task::Moves,
    file: Some("f"),
};

const FAILED: ProgramEnd = ProgramEnd::Failed(TaskFault::Run(RunFault::File(FileFault::Memory)));

fn reads(rt: &impl Abort, alloc: Global, words: &[String]) -> bool {
    let outcome = read_words(alloc, words);
    let is_right = match &outcome {
        Ok(order) => *order == MOVES_OF_F,
        Err(error) => end_for(error) == FAILED,
    };
    assert!(rt; is_right);
    outcome.is_ok()
}

#[test]
fn refused_words_are_read_when_tried_again(rt: HostRuntime) -> Result<(), Fail> {
    let line = "run --moves f";
    let words = match words_of(rt.alloc(), line) {
        Ok(words) => words,
        Err(_) => words_of(rt.alloc(), line)?,
    };
    assert!(rt; reads(&rt, rt.alloc(), &words) || reads(&rt, rt.alloc(), &words));
    Ok(())
}
