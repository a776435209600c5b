//! Copies of a world in the memory of worlds that are needed no more.

use super::*;
use crate::rows::expect_none;

const Z: ThreadId = ThreadId(2);

const STRANGER: ThreadId = ThreadId(9);

/// The thread x waits, y owns the object, and z is in the middle of an enter.
const ASKS: [Ask; 13] = [
    Ask::Does(Step::Attach { thread: X }),
    Ask::Does(Step::Attach { thread: Y }),
    Ask::Does(Step::Attach { thread: Z }),
    Ask::Enters(1),
    Ask::Does(Step::Tick { now: 7 }),
    begins!(X, WAIT),
    Ask::Goes(4),
    Ask::Waits(X, true),
    begins!(Y, Call::Enter(A)),
    Ask::Does(Step::Go { thread: Y }),
    Ask::Does(Step::Go { thread: Y }),
    begins!(Z, Call::Enter(A)),
    Ask::Does(Step::Go { thread: Z }),
];

/// Other threads at the indices of the others, and one more.
const OTHERS: [Ask; 4] = [
    Ask::Does(Step::Attach { thread: Z }),
    Ask::Does(Step::Attach { thread: STRANGER }),
    Ask::Does(Step::Attach { thread: X }),
    Ask::Does(Step::Attach { thread: Y }),
];

/// The same threads, and one more behind them.
const MORE: [Ask; 4] = [
    Ask::Does(Step::Attach { thread: X }),
    Ask::Does(Step::Attach { thread: Y }),
    Ask::Does(Step::Attach { thread: Z }),
    Ask::Does(Step::Attach { thread: STRANGER }),
];

/// The same threads at the same indices, where x and y ended and came again: x has taken the place
/// of y in memory, and y that of x.
const BACK: [Ask; 10] = [
    Ask::Does(Step::Attach { thread: X }),
    Ask::Does(Step::Attach { thread: Y }),
    Ask::Does(Step::Attach { thread: Z }),
    begins!(X, Call::End),
    Ask::Goes(2),
    begins!(Y, Call::End),
    Ask::Does(Step::Go { thread: Y }),
    Ask::Does(Step::Go { thread: Y }),
    Ask::Does(Step::Attach { thread: X }),
    Ask::Does(Step::Attach { thread: Y }),
];

const WAIT: Call = Call::Wait {
    object: A,
    millis: 5,
    nanos: 0,
};

/// What is done then: z parks, x comes back and is interrupted, y ends, and another thread comes.
const STEPS: [Step; 17] = [
    Step::Go { thread: Z },
    Step::Tick { now: 6_000_000 },
    Step::Expire { thread: X },
    calls!(Y, Call::Exit(A)),
    Step::Go { thread: Y },
    Step::Go { thread: Y },
    Step::Go { thread: Z },
    calls!(Y, Call::Interrupt(X)),
    Step::Go { thread: Y },
    calls!(Z, Call::Exit(A)),
    Step::Go { thread: Z },
    Step::Go { thread: Z },
    Step::Go { thread: X },
    calls!(Y, Call::End),
    Step::Go { thread: Y },
    Step::Go { thread: Y },
    Step::Attach { thread: STRANGER },
];

fn numbers_of(alloc: Global, world: &World) -> Result<Vec<u64>, Memory> {
    let mut numbers = Vec::new(alloc);
    world.push_numbers(&mut numbers)?;
    Ok(numbers)
}

/// Whether two worlds are the same, which their numbers tell.
fn are_same(alloc: Global, world: &World, copy: &World) -> Result<bool, Memory> {
    Ok(numbers_of(alloc, world)? == numbers_of(alloc, copy)?)
}

/// Whether two worlds take as many threads more, and then want an index for the same one.
fn take_as_many(world: &mut World, copy: &mut World) -> bool {
    for number in 10..20 {
        let attach = Step::Attach {
            thread: ThreadId(number),
        };
        let did = take(world, attach);
        if did != take(copy, attach) {
            return false;
        }
        if did.is_err() {
            return did == Err(Fault::NoIndex);
        }
    }
    false
}

/// The first of the steps before which two worlds differ, or that they do not accept alike; behind
/// the last, where they do not take as many threads more.
fn first_apart(
    alloc: Global,
    world: &mut World,
    copy: &mut World,
) -> Result<Option<usize>, Memory> {
    for (row, &step) in STEPS.iter().enumerate() {
        let were_same = are_same(alloc, world, copy)?;
        let did = take(world, step);
        if !were_same || did.is_err() || did != take(copy, step) {
            return Ok(Some(row));
        }
    }
    let end_same = are_same(alloc, world, copy)?
        && take_as_many(world, copy)
        && are_same(alloc, world, copy)?;
    Ok((!end_same).then_some(STEPS.len()))
}

/// The first step apart of a world in the middle of calls and its copy in the memory of another, of
/// which this was asked before.
fn first_apart_in(alloc: Global, mut copy: World, asks: &[Ask]) -> Result<Option<usize>, Memory> {
    let mut world = opened(alloc, Split::Wide)?;
    let others = (first_other(&mut copy, asks), first_other(&mut world, &ASKS));
    if others != (None, None) {
        return Ok(others.0.or(others.1));
    }
    if world.clone_into(&mut copy).is_err() {
        return Err(Memory);
    }
    first_apart(alloc, &mut world, &mut copy)
}

/// A world in which all of that was done.
fn later_world(alloc: Global) -> Result<World, Memory> {
    let mut world = opened(alloc, Split::Wide)?;
    let _ = first_other(&mut world, &ASKS);
    for &step in &STEPS {
        let _ = take(&mut world, step);
    }
    Ok(world)
}

#[test]
fn a_copy_is_the_same_whatever_its_memory_held(rt: HostRuntime) -> Result<(), Memory> {
    let alloc = rt.alloc();
    let larger = World::new(alloc, &[1, 2, 3], 9, 9, Split::Deep)?;
    expect_none(&rt, "larger", first_apart_in(alloc, larger, &[]));
    let smaller = World::new(alloc, &[], 0, 1, Split::Wide)?;
    expect_none(&rt, "smaller", first_apart_in(alloc, smaller, &[]));
    let more_indices = World::new(alloc, &[0xA5], 4, 5, Split::Wide)?;
    expect_none(&rt, "indices", first_apart_in(alloc, more_indices, &ASKS));
    let of_others = opened(alloc, Split::Wide)?;
    expect_none(&rt, "others", first_apart_in(alloc, of_others, &OTHERS));
    let of_more = opened(alloc, Split::Wide)?;
    expect_none(&rt, "more", first_apart_in(alloc, of_more, &MORE));
    let come_back = opened(alloc, Split::Wide)?;
    expect_none(&rt, "back", first_apart_in(alloc, come_back, &BACK));
    let earlier = opened(alloc, Split::Wide)?;
    expect_none(&rt, "earlier", first_apart_in(alloc, earlier, &ASKS[..4]));
    let same = opened(alloc, Split::Wide)?;
    expect_none(&rt, "same", first_apart_in(alloc, same, &ASKS));
    let later = later_world(alloc)?;
    expect_none(&rt, "later", first_apart_in(alloc, later, &[]));
    Ok(())
}
