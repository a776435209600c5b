//! Reports and faults of scripts with many names, and with names that are alike.

use super::is_judged_alike;
use history::{ReaderSource, WriterSink, read_script, run};
use std::alloc::{AllocError, Global};
use std::fmt::Write;
use std::test::Fail;

/// Names that differ in a digit in the middle; in the last of 32 bytes; and in many bytes of both
/// halves at once.
#[derive(Clone, Copy)]
enum Kind {
    Middle,
    Last,
    Joined,
}

/// Writes a letter for each of the eight lowest bits of a number.
fn push_bits(name: &mut String, bits: u32, zero: &str, one: &str) -> Result<(), AllocError> {
    let mut left = bits;
    for _ in 0..8 {
        name.push_str(if left % 2 == 0 { zero } else { one })?;
        left /= 2;
    }
    Ok(())
}

/// The name with this number, of 300, 26 or 256.
fn name_of(alloc: Global, kind: Kind, number: u32) -> Result<String, Fail> {
    match kind {
        Kind::Middle => Ok(format!(in alloc; "thread_number_{number}_of_many")?),
        Kind::Last => {
            let letter = char::from(b'a' + (number % 26) as u8);
            Ok(format!(in alloc; "a_name_of_thirty_two_bytes_ends{letter}")?)
        }
        Kind::Joined => {
            let mut name = String::new(alloc);
            push_bits(&mut name, number, "a", "i")?;
            push_bits(&mut name, number / 16 + number % 16 * 16, "b", "c")?;
            Ok(name)
        }
    }
}

/// Writes a line for each of so many objects, with this behind its name.
fn put_objects(
    alloc: Global,
    kind: Kind,
    count: u32,
    tail: &str,
    text: &mut String,
) -> Result<(), Fail> {
    for number in 0..count {
        let name = name_of(alloc, kind, number)?;
        write!(text, "object {name} {tail}\n")?;
    }
    Ok(())
}

/// A script of so many objects and threads with names of this kind, and its report.
fn told_names(alloc: Global, kind: Kind, count: u32) -> Result<(String, String), Fail> {
    let mut script = format!(in alloc; "world 1 {count}\n")?;
    let mut report = String::new(alloc);
    put_objects(alloc, kind, count, "A5", &mut script)?;
    for number in 0..count {
        let name = name_of(alloc, kind, number)?;
        let index = u64::from(number) + 1;
        write!(
            script,
            "attach {name}\nbegin {name} holds {name}\ngo {name}\n"
        )?;
        write!(report, "attach {name} index {index}\nbegin {name}\n")?;
        write!(report, "go {name} load {name} 000000A5 = No\n")?;
    }
    let tail = "000000A5 owner - holds 0 waiting -";
    put_objects(alloc, kind, count, tail, &mut report)?;
    Ok((script, report))
}

#[test]
fn names_of_each_kind(rt: HostRuntime) -> Result<(), Fail> {
    for (kind, count) in [(Kind::Middle, 300), (Kind::Last, 26), (Kind::Joined, 256)] {
        let (script, report) = told_names(rt.alloc(), kind, count)?;
        let mut sink = WriterSink::new(Vec::new(rt.alloc()));
        let outcome = run(
            rt.alloc(),
            &mut ReaderSource::new(script.as_bytes()),
            &mut sink,
        );
        assert!(rt; outcome == Ok(()) && sink.into_inner().as_slice() == report.as_bytes());
    }
    Ok(())
}

/// Some objects, and one of them again.
fn with_one_again(alloc: Global, kind: Kind, count: u32, again: u32) -> Result<String, Fail> {
    let mut script = format!(in alloc; "world 1 1\n")?;
    put_objects(alloc, kind, count, "A5", &mut script)?;
    let name = name_of(alloc, kind, again)?;
    write!(script, "object {name} A5\n")?;
    Ok(script)
}

#[test]
fn an_object_that_is_declared_again(rt: HostRuntime) -> Result<(), Fail> {
    for (kind, count) in [(Kind::Middle, 300), (Kind::Last, 26), (Kind::Joined, 256)] {
        for again in [0, 1, 25] {
            let script = with_one_again(rt.alloc(), kind, count, again)?;
            assert!(rt;
                is_judged_alike(rt.alloc(), script.as_bytes()),
                "{count} and {again}"
            );
            let is_fault = read_script(rt.alloc(), script.as_bytes()).is_err();
            assert!(rt; is_fault);
        }
    }
    Ok(())
}
