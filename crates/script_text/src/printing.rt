//! Writing scripts.

ghost use Rattle.std.specs.Prelude.{◌≡◌, ◌<◌, ◌++◌, ◌∷◌, [], IfOk, OnOk, string_bytes};
ghost use Rattle.std.specs.List.{join_with_byte};
ghost use Rattle.lock_word.specs.Names.{hex_digit};
ghost use Rattle.script_text.specs.Lines.{call_words, line_text, script_text, step_words};
ghost use Rattle.script_text.specs.declared.lines.Line.TheVariants.{World, Object};
ghost use Rattle.script_text.specs.declared.lines.StepLine.TheVariants.{Begin};
ghost use Rattle.script_text.specs.declared.lines.Call.TheVariants.{Wait};

use crate::lines::{Call, Line, StepLine};
use crate::names::Name;
use lock_word::Split;
use std::alloc::{AllocError, Global};
use std::fmt::Write;

fn hex_char(digit: u8) -> char
    requires { digit < 16 }
    ensures { result ≡ hex_digit digit }
{
    if digit < 10 {
        char::from(b'0' + digit)
    } else {
        char::from(b'A' + (digit - 10))
    }
}

/// Writes a verb with the name behind it, and the line feed.
fn put_named(out: &mut String, verb: &str, name: &Name<'_>) -> Result<(), AllocError>
    ensures { OnOk result (string_bytes out.new
        ≡ string_bytes out.old ++ (join_with_byte 32 (verb.now ∷ name.now ∷ []) ++ 10 ∷ [])) }
{
    writeln!(out, "{verb} {name}")
}

/// Writes a call of wait, and the line feed.
fn put_wait(out: &mut String, object: &Name<'_>, millis: i64, nanos: i32) -> Result<(), AllocError>
    ensures { OnOk result (string_bytes out.new ≡ string_bytes out.old
        ++ (join_with_byte 32 (call_words (Wait object.now millis nanos)) ++ 10 ∷ [])) }
{
    writeln!(out, "wait {object} {millis} {nanos}")
}

/// Writes a call at the end of a line, and the line feed.
fn put_call(out: &mut String, call: &Call<'_>) -> Result<(), AllocError>
    ensures { OnOk result (string_bytes out.new
        ≡ string_bytes out.old ++ (join_with_byte 32 (call_words call.now) ++ 10 ∷ [])) }
{
    match call {
        Call::Enter(object) => put_named(out, "enter", object),
        Call::Exit(object) => put_named(out, "exit", object),
        Call::Wait {
            object,
            millis,
            nanos,
        } => put_wait(out, object, *millis, *nanos),
        Call::Notify(object) => put_named(out, "notify", object),
        Call::NotifyAll(object) => put_named(out, "notifyall", object),
        Call::Holds(object) => put_named(out, "holds", object),
        Call::Interrupt(target) => put_named(out, "interrupt", target),
        Call::Interrupted => out.push_str("interrupted\n"),
        Call::IsInterrupted(target) => put_named(out, "isinterrupted", target),
        Call::End => out.push_str("end\n"),
    }
}

/// Writes a begin of a call, and the line feed.
fn put_begin(out: &mut String, thread: &Name<'_>, call: &Call<'_>) -> Result<(), AllocError>
    ensures { OnOk result (string_bytes out.new ≡ string_bytes out.old
        ++ (join_with_byte 32 (step_words (Begin thread.now call.now)) ++ 10 ∷ [])) }
{
    write!(out, "begin {thread} ")?;
    put_call(out, call)
}

/// Writes a step and its line feed at the end.
fn put_step(out: &mut String, step: &StepLine<'_>) -> Result<(), AllocError>
    ensures { OnOk result (string_bytes out.new
        ≡ string_bytes out.old ++ (join_with_byte 32 (step_words step.now) ++ 10 ∷ [])) }
{
    match step {
        StepLine::Attach(thread) => put_named(out, "attach", thread),
        StepLine::Begin { thread, call } => put_begin(out, thread, call),
        StepLine::Go(thread) => put_named(out, "go", thread),
        StepLine::Expire(thread) => put_named(out, "expire", thread),
        StepLine::Spurious(thread) => put_named(out, "spurious", thread),
        StepLine::Tick(now) => writeln!(out, "tick {now}"),
        StepLine::Relayout(Split::Wide) => out.push_str("relayout wide\n"),
        StepLine::Relayout(Split::Deep) => out.push_str("relayout deep\n"),
    }
}

/// Writes a world and its line feed at the end.
fn put_world(out: &mut String, monitors: u32, indices: u16, split: Split) -> Result<(), AllocError>
    ensures { OnOk result (string_bytes out.new ≡ string_bytes out.old
        ++ (line_text (World monitors indices split) ++ 10 ∷ [])) }
{
    write!(out, "world {monitors} {indices}")?;
    match split {
        Split::Wide => out.push_str("\n"),
        Split::Deep => out.push_str(" deep\n"),
    }
}

/// Writes an object and its line feed at the end.
fn put_object(out: &mut String, name: &Name<'_>, low: u8) -> Result<(), AllocError>
    ensures { OnOk result (string_bytes out.new
        ≡ string_bytes out.old ++ (line_text (Object name.now low) ++ 10 ∷ [])) }
{
    let high = hex_char(low / 16);
    let low = hex_char(low % 16);
    writeln!(out, "object {name} {high}{low}")
}

/// Writes a line and its line feed at the end.
fn put_line(out: &mut String, line: &Line<'_>) -> Result<(), AllocError>
    ensures { OnOk result (string_bytes out.new
        ≡ string_bytes out.old ++ (line_text line.now ++ 10 ∷ [])) }
{
    match line {
        Line::World {
            monitors,
            indices,
            split,
        } => put_world(out, *monitors, *indices, *split),
        Line::Object { name, low } => put_object(out, name, *low),
        Line::Step(step) => put_step(out, step),
    }
}

/// The one text of the lines.
pub(crate) fn print_lines(alloc: Global, lines: &[Line<'_>]) -> Result<String, AllocError>
    ensures { IfOk result (λ text. string_bytes text ≡ script_text lines.now) }
{
    let mut out = String::new(alloc);
    for line in lines {
        put_line(&mut out, line)?;
    }
    Ok(out)
}
