//! The dumps of a folder: `NAME.dump` is that of the script `NAME.script`.

use crate::comparing::first_difference;
use crate::files::{names_in, text_of};
use dump::dump_script;
use history::{FileFault, ReaderSource, WriterSink};
use std::alloc::Global;
use std::rt::Files;
use std::{fs, io, str};

/// Plays the scripts that have a dump beside them, in the order of their names.
pub fn play<R>(rt: &R, folder: &str) -> io::Result<bool>
where
    R: Files + Print + AllocGlobal + Clone + Drop,
{
    let mut all_right = true;
    for name in &names_in(rt, folder, ".dump")? {
        all_right &= play_one(rt, folder, name)?;
    }
    Ok(all_right)
}

/// Plays the script of this name, which has a dump beside it.
fn play_one<R>(rt: &R, folder: &str, name: &str) -> io::Result<bool>
where
    R: Files + Print + AllocGlobal,
{
    let script = fs::read(rt, format!(in rt.alloc(); "{folder}/{name}.script")?)?;
    let dump = text_of(rt, folder, name, ".dump")?;
    compare(rt, name, &script, &dump)
}

/// The dump of a script, or why it has none.
fn dump_of(alloc: Global, script: &[u8]) -> Result<Vec<u8>, FileFault> {
    let mut sink = WriterSink::new(Vec::new(alloc));
    dump_script(alloc, &mut ReaderSource::new(script), &mut sink)?;
    Ok(sink.into_inner())
}

/// Dumps a script, and prints whether the dump is the wanted one.
fn compare<R>(rt: &R, name: &str, script: &[u8], wanted: &str) -> io::Result<bool>
where
    R: Print + AllocGlobal,
{
    match dump_of(rt.alloc(), script) {
        Ok(dump) => is_wanted(rt, name, &dump, wanted),
        Err(fault) => {
            println!(rt; "dump of {name}: {fault}")?;
            Ok(false)
        }
    }
}

/// Prints whether a dump is the wanted one.
fn is_wanted<R: Print>(rt: &R, name: &str, dump: &[u8], wanted: &str) -> io::Result<bool> {
    let Ok(dump) = str::from_utf8(dump) else {
        println!(rt; "dump of {name}: it is no text")?;
        return Ok(false);
    };
    match first_difference(dump, wanted) {
        None => println!(rt; "dump of {name}: as it should be")?,
        Some(difference) => println!(rt; "dump of {name}: {difference}")?,
    }
    Ok(dump == wanted)
}
