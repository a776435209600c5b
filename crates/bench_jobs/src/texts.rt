//! The jobs over texts: playing scripts, writing histories, and checking them.

use crate::JobFault;
use crate::courses::{Mix, Shape};
use crate::digests::{Digest, DigestSink};
use crate::draws::Draws;
use crate::histories::{Hand, crowd_of, history_of};
use crate::scripts::{Spelling, ring_of, script_of};
use dump::dump_script;
use history::{FileFault, ReaderSource, moves, replay, run};
use std::alloc::Global;

/// A few objects and many threads, which meet.
fn crowded(steps: u32) -> Shape {
    Shape {
        mix: Mix::Every,
        objects: 1_000,
        used: 1_000,
        threads: 2_000,
        spread: false,
        steps,
    }
}

/// Many objects and few threads, each on its own way.
fn thin(steps: u32) -> Shape {
    Shape {
        mix: Mix::Thin,
        objects: 4_096,
        used: 4_096,
        threads: 64,
        spread: false,
        steps,
    }
}

/// As many objects as there can be, of which two are used, under long names.
fn sparse(steps: u32) -> Shape {
    Shape {
        mix: Mix::Every,
        objects: 65_535,
        used: 2,
        threads: 32_767,
        spread: false,
        steps,
    }
}

/// Threads that end, each of which looks at all objects.
fn ending(steps: u32) -> Shape {
    Shape {
        mix: Mix::Ending,
        objects: 2_000,
        used: 2_000,
        threads: 50,
        spread: false,
        steps,
    }
}

/// Plays scripts of several shapes, and dumps the worlds of rings.
pub fn play(alloc: Global, steps: u32, seed: u64) -> Result<u64, JobFault> {
    let mut sink = DigestSink {
        digest: Digest::new(),
    };
    let plays = [
        (thin(steps), Spelling::Short),
        (crowded(steps), Spelling::Short),
        (ending(steps), Spelling::Short),
        (sparse(steps / 8), Spelling::Long),
    ];
    for (shape, spelling) in plays {
        let script = script_of(alloc, shape, spelling, seed)?;
        run(alloc, &mut ReaderSource::new(script.as_bytes()), &mut sink)?;
    }
    let threads = (steps / 32).clamp(2, 32_767);
    let ring = ring_of(alloc, threads, seed)?;
    dump_script(alloc, &mut ReaderSource::new(ring.as_bytes()), &mut sink)?;
    Ok(sink.digest.value())
}

/// Writes the histories of scripts.
pub fn record(alloc: Global, steps: u32, seed: u64) -> Result<u64, JobFault> {
    let mut sink = DigestSink {
        digest: Digest::new(),
    };
    for shape in [thin(steps), crowded(steps)] {
        let script = script_of(alloc, shape, Spelling::Short, seed)?;
        moves(alloc, &mut ReaderSource::new(script.as_bytes()), &mut sink)?;
    }
    Ok(sink.digest.value())
}

/// Checks a history, and mixes what is said of it.
fn judge(alloc: Global, text: &str, digest: &mut Digest) -> Result<(), JobFault> {
    let mut sink = DigestSink {
        digest: Digest::new(),
    };
    let said = replay(alloc, &mut ReaderSource::new(text.as_bytes()), &mut sink);
    digest.mix(sink.digest.value());
    match said {
        Ok(()) => digest.mix(0),
        Err(FileFault::Broken(line)) => digest.mix(line),
        Err(_) => return Err(JobFault::Judged),
    }
    Ok(())
}

/// Checks histories as the service writes them.
pub fn check(alloc: Global, steps: u32, seed: u64) -> Result<u64, JobFault> {
    let mut digest = Digest::new();
    let spread = Shape {
        spread: true,
        threads: 32_767,
        ..crowded(steps)
    };
    for shape in [thin(steps), crowded(steps), spread] {
        let history = history_of(alloc, shape, Hand::Own, seed)?;
        judge(alloc, history.as_str(), &mut digest)?;
    }
    Ok(digest.value())
}

/// Checks the histories of strangers: with other spellings, another one that is broken in its last
/// line, and one of few waiters in a large crowd.
pub fn check_strangers(alloc: Global, steps: u32, seed: u64) -> Result<u64, JobFault> {
    let mut digest = Digest::new();
    let mut draws = Draws::new(seed);
    let whole = history_of(alloc, crowded(steps), Hand::Stranger, draws.number())?;
    judge(alloc, whole.as_str(), &mut digest)?;
    let mut broken = history_of(alloc, crowded(steps), Hand::Stranger, draws.number())?;
    broken.push_str("{\"move\":\"Lock\",\"thread\":1}\n")?;
    judge(alloc, broken.as_str(), &mut digest)?;
    let rounds = (steps / 1_000)
        .saturating_add(4)
        .saturating_add(draws.below(8));
    let threads = (steps / 16).clamp(2, 32_767);
    let crowd = crowd_of(alloc, threads, rounds, draws.number())?;
    judge(alloc, crowd.as_str(), &mut digest)?;
    Ok(digest.value())
}
