//! Writing the script that makes some choices.

ghost use Rattle.std.specs.Prelude.{◌≡◌, ◌≤◌, ◌<◌, ◌+◌, ◌++◌, ◌∷◌, [], Some, IfOk, OnOk, length, string_bytes};
ghost use Rattle.lock_word.specs.Names.{hex_digit};
ghost use Rattle.explore.specs.States.{opening, played, step_for};
ghost use Rattle.explore_runs.specs.Scripts.{attach_lines, choice_line, choice_lines};
ghost use Rattle.explore_runs.specs.Scripts.{object_lines_from, script_of, step_line, world_line};
ghost use Rattle.script_text.specs.declared.lines.Line.TheVariants as line;
ghost use Rattle.script_text.specs.Lines.{line_text};
ghost use Rattle.step_core.specs.declared.steps.Step.TheVariants as step;

use dump::put_call;
use explore::{Choice, Program, State};
use history::Names;
use lock_word::{Memory, ObjectId, Split, ThreadId};
use std::alloc::{AllocError, Global};
use std::fmt::Write;
use step_core::{Call, Step};

/// Writes the script that makes some choices of a program, and answers the state that they lead
/// to; None where one of them cannot be made.
pub fn put_script(
    alloc: Global,
    text: &mut String,
    names: &Names,
    program: &Program,
    choices: &[Choice],
) -> Result<Option<State>, Memory>
    ensures text { OnOk result (string_bytes text.new
        ≡ string_bytes text.old ++ script_of names.now program.now choices.now) }
    ensures state { IfOk result (λ s. s ≡ played program.now choices.now) }
{
    put_world(text, program.monitors, program.indices, program.split)?;
    put_objects(text, names, &program.lows)?;
    put_attaches(text, names, program.starts.len())?;
    put_choices(alloc, text, names, program, choices)
}

/// Writes the line of a world.
fn put_world(text: &mut String, monitors: u32, indices: u16, split: Split) -> Result<(), AllocError>
    ensures { OnOk result (string_bytes text.new
        ≡ string_bytes text.old ++ world_line monitors indices split) }
{
    write!(text, "world {monitors} {indices}")?;
    match split {
        Split::Wide => text.push_str("\n"),
        Split::Deep => text.push_str(" deep\n"),
    }
}

/// Writes the line of each object.
fn put_objects(text: &mut String, names: &Names, lows: &[u8]) -> Result<(), AllocError>
    requires { length lows.now ≤ 65535 }
    ensures { OnOk result (string_bytes text.new
        ≡ string_bytes text.old ++ object_lines_from names.now 0 lows.now) }
{
    let mut object = 0;
    'objects: for low in lows {
        put_object(text, names.name_of_object(ObjectId(object)), *low)?;
        object += 1;
    }
    Ok(())
}

/// Writes the line of an object with this name.
fn put_object(text: &mut String, name: &str, low: u8) -> Result<(), AllocError>
    ensures { OnOk result (string_bytes text.new
        ≡ string_bytes text.old ++ (line_text (line.Object name.now low) ++ 10 ∷ [])) }
{
    let high = hex_char(low / 16);
    let low = hex_char(low % 16);
    writeln!(text, "object {name} {high}{low}")
}

fn hex_char(digit: u8) -> char
    requires { digit < 16 }
    ensures { result ≡ hex_digit digit }
{
    if digit < 10 {
        char::from(b'0' + digit)
    } else {
        char::from(b'A' + (digit - 10))
    }
}

/// Writes the attach of each of the first threads.
fn put_attaches(text: &mut String, names: &Names, threads: usize) -> Result<(), AllocError>
    requires { threads ≤ 64 }
    ensures { OnOk result (string_bytes text.new
        ≡ string_bytes text.old ++ attach_lines names.now threads) }
{
    'threads: for thread in 0..threads {
        let thread = ThreadId(thread as u32);
        put_step(text, names, Step::Attach { thread })?;
    }
    Ok(())
}

/// Writes the line of a step.
fn put_step(text: &mut String, names: &Names, step: Step) -> Result<(), AllocError>
    ensures { OnOk result (string_bytes text.new
        ≡ string_bytes text.old ++ step_line names.now step) }
{
    match step {
        Step::Attach { thread } => writeln!(text, "attach {}", names.name_of_thread(thread)),
        Step::Begin { thread, call } => put_begin(text, names, thread, call),
        Step::Go { thread } => writeln!(text, "go {}", names.name_of_thread(thread)),
        Step::Expire { thread } => writeln!(text, "expire {}", names.name_of_thread(thread)),
        Step::Spurious { thread } => writeln!(text, "spurious {}", names.name_of_thread(thread)),
        Step::Tick { now } => writeln!(text, "tick {now}"),
    }
}

/// Writes the line of a begin.
fn put_begin(
    text: &mut String,
    names: &Names,
    thread: ThreadId,
    call: Call,
) -> Result<(), AllocError>
    ensures { OnOk result (string_bytes text.new
        ≡ string_bytes text.old ++ step_line names.now (step.Begin thread call)) }
{
    let thread = names.name_of_thread(thread);
    write!(text, "begin {thread} ")?;
    put_call(text, names, call)?;
    text.push_str("\n")
}

/// Writes the line of each choice, and makes it.
fn put_choices(
    alloc: Global,
    text: &mut String,
    names: &Names,
    program: &Program,
    choices: &[Choice],
) -> Result<Option<State>, Memory>
    ensures text { OnOk result (string_bytes text.new ≡ string_bytes text.old
        ++ choice_lines names.now program.now (Some (opening program.now)) choices.now) }
    ensures state { IfOk result (λ s. s ≡ played program.now choices.now) }
{
    let mut state = State::open(alloc, program)?;
    'choices: for choice in choices {
        put_choice(text, names, program, &state, *choice)?;
        if !state.make(program, *choice)? {
            return Ok(None);
        }
    }
    Ok(Some(state))
}

/// Writes the line of the step that a choice means, if it means one.
fn put_choice(
    text: &mut String,
    names: &Names,
    program: &Program,
    state: &State,
    choice: Choice,
) -> Result<(), AllocError>
    ensures { OnOk result (string_bytes text.new ≡ string_bytes text.old
        ++ choice_line names.now (step_for program.now state.now choice)) }
{
    match state.step_for(program, choice) {
        Some(step) => put_step(text, names, step),
        None => Ok(()),
    }
}
