//! A program with numbers for its names.

ghost use Rattle.std.specs.Prelude.{◌≡◌, IfOk, OnOk, length};
ghost use Rattle.program_text.specs.Programs.{calls_from, names_behind};

use explore::Program;
use fast_path::Call;
use history::{Names, call_of};
use lock_word::Memory;
use std::alloc::Global;

/// A program, and the names of its threads and objects by number. Threads are numbered from 0 in
/// the order of their lines, and behind them the targets of calls that no `thread` line has, in the
/// order in which they appear: these are never live. Objects are numbered from 0 in the order of
/// their lines.
#[derive(Drop)]
pub struct NamedProgram {
    pub program: Program,
    pub names: Names,
}

/// Calls by the numbers of their names, one after the other.
pub(crate) fn calls_of(
    alloc: Global,
    names: &mut Names,
    lines: &[script_text::Call<'_>],
) -> Result<Vec<Call>, Memory>
    ensures calls { IfOk result (λ calls. calls.items ≡ calls_from names.old lines.now) }
    ensures names { OnOk result (names.new ≡ names_behind names.old lines.now) }
    ensures count { IfOk result (λ calls. length calls.items ≡ length lines.now) }
{
    let mut calls = Vec::new(alloc);
    'lines: for line in lines {
        calls.push(call_of(names, line)?)?;
    }
    Ok(calls)
}
