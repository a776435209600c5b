//! The examples of a folder: scripts `NAME.script`, each with its report `NAME.report` and its
//! history `NAME.history`.

use crate::comparing::{Wanted, compare};
use std::alloc::{AllocError, Global};
use std::rt::Files;
use std::{fs, io};

/// Plays the examples of a folder in the order of their names.
pub fn play<R>(rt: &R, folder: &str) -> io::Result<bool>
where
    R: Files + Print + AllocGlobal + Clone + Drop,
{
    let mut all_right = true;
    for name in &names_in(rt, folder, ".script")? {
        all_right &= play_example(rt, folder, name)?;
    }
    Ok(all_right)
}

/// Plays the example of this name.
fn play_example<R>(rt: &R, folder: &str, name: &str) -> io::Result<bool>
where
    R: Files + Print + AllocGlobal,
{
    let script = fs::read(rt, format!(in rt.alloc(); "{folder}/{name}.script")?)?;
    let report = text_of(rt, folder, name, ".report")?;
    let history = text_of(rt, folder, name, ".history")?;
    let wanted = Wanted {
        report: &report,
        history: Some(&history),
        // Behind the first line, which tells how many objects there are, each line is a move.
        moves: history.lines().skip(1).count() as u64,
    };
    compare(rt, name, &script, wanted)
}

/// What the file of a folder holds that has this name, with this suffix.
pub fn text_of<R>(rt: &R, folder: &str, name: &str, suffix: &str) -> io::Result<String>
where
    R: Files + AllocGlobal,
{
    fs::read_to_string(rt, format!(in rt.alloc(); "{folder}/{name}{suffix}")?)
}

/// The names of the files of a folder that end with this suffix, without it, in order.
pub fn names_in<R>(rt: &R, folder: &str, suffix: &str) -> io::Result<Vec<String>>
where
    R: Files + AllocGlobal + Clone + Drop,
{
    let mut names = Vec::new(rt.alloc());
    add_names(rt, folder, suffix, &mut names)?;
    names.sort()?;
    Ok(names)
}

fn add_names<R>(rt: &R, folder: &str, suffix: &str, names: &mut Vec<String>) -> io::Result<()>
where
    R: Files + AllocGlobal + Clone + Drop,
{
    for entry in fs::read_dir(rt, folder)? {
        add_name(rt.alloc(), entry?.file_name(), suffix, names)?;
    }
    Ok(())
}

fn add_name(
    alloc: Global,
    file: &str,
    suffix: &str,
    names: &mut Vec<String>,
) -> Result<(), AllocError> {
    if let Some(name) = file.strip_suffix(suffix) {
        names.push(String::from_str(alloc, name)?)?;
    }
    Ok(())
}
