//! Want of memory: nothing shows but the refusal, and what was refused succeeds when tried
//! again. Run with each allocation refused in turn, this meets every refusal that there is.

use super::*;
use crate::rows::expect_none;
use std::test::Fail;

#[test]
fn what_was_refused_succeeds_when_tried_again(rt: HostRuntime) -> Result<(), Fail> {
    const ASKS: [Ask; 8] = [
        Ask::Attaches(X),
        Ask::Attaches(Y),
        Ask::Enters(256),
        Ask::Does(ENTER),
        Ask::Goes(1),
        Ask::Binds,
        Ask::Goes(2),
        Ask::Shows(0x8000_00A5, X, 257),
    ];
    expect_none(&rt, "binds", first_of_new(rt.alloc(), Split::Wide, &ASKS));
    Ok(())
}

/// An enter of y finds x as the owner, and wins when x is not any more: by a fat word, or by a thin
/// one where its bind was refused.
#[test]
fn an_enter_that_won_stays_though_its_bind_is_refused(rt: HostRuntime) -> Result<(), Fail> {
    const ASKS: [Ask; 9] = [
        Ask::Attaches(X),
        Ask::Attaches(Y),
        Ask::Enters(1),
        begins!(Y, Call::Enter(A)),
        Ask::Does(Step::Go { thread: Y }),
        begins!(X, Call::Exit(A)),
        Ask::Goes(2),
        Ask::Replies(4, Reply::Entered),
        Ask::ShowsEither(0x8000_00A5, 0x0002_00A5, Y, 1),
    ];
    expect_none(&rt, "wins", first_of_new(rt.alloc(), Split::Wide, &ASKS));
    Ok(())
}

#[test]
fn a_refused_relayout_succeeds_when_tried_again(rt: HostRuntime) -> Result<(), Fail> {
    const ASKS: [Ask; 4] = [
        Ask::Attaches(X),
        Ask::Enters(257),
        Ask::LaysOut,
        Ask::Shows(0x8000_00A5, X, 257),
    ];
    expect_none(
        &rt,
        "lays out",
        first_of_new(rt.alloc(), Split::Deep, &ASKS),
    );
    Ok(())
}

/// A world of other sizes, with a thread.
fn other_opened(alloc: Global) -> Result<World, Memory> {
    let mut world = match World::new(alloc, &[1, 2, 3], 9, 2, Split::Deep) {
        Ok(world) => world,
        Err(Memory) => World::new(alloc, &[1, 2, 3], 9, 2, Split::Deep)?,
    };
    if !attaches(&mut world, Y) {
        return Err(Memory);
    }
    Ok(world)
}

/// Makes the copy. Where memory for it is refused, it is a world without objects and threads, to
/// which a thread can be attached, and it is made when that is tried again.
fn copies(world: &World, copy: &mut World) -> bool {
    world.clone_into(copy).is_ok()
        || (copy.objects() == 0
            && copy.thread_at(1).is_none()
            && attaches(copy, X)
            && copy.index(X) == Some(1)
            && world.clone_into(copy).is_ok())
}

/// The first that a world and its copy in the memory of another answer otherwise; some row where
/// the copy is not made.
fn first_of_copy(alloc: Global, asks: &[Ask], told: &[Ask]) -> Result<Option<usize>, Memory> {
    let mut world = opened(alloc, Split::Wide)?;
    let mut copy = other_opened(alloc)?;
    let other = first_other(&mut world, asks);
    if other.is_some() {
        return Ok(other);
    }
    if !copies(&world, &mut copy) {
        return Ok(Some(asks.len()));
    }
    Ok(first_other(&mut world, told).or(first_other(&mut copy, told)))
}

#[test]
fn a_refused_copy_is_made_when_tried_again(rt: HostRuntime) -> Result<(), Fail> {
    const ASKS: [Ask; 3] = [Ask::Attaches(X), Ask::Attaches(Y), Ask::Enters(1)];
    const TOLD: [Ask; 5] = [
        Ask::Has(1, 4, 0),
        Ask::IsAt(1, Some(X)),
        Ask::IsAt(2, Some(Y)),
        Ask::IsAt(3, None),
        Ask::Shows(0x0001_00A5, X, 1),
    ];
    expect_none(&rt, "copies", first_of_copy(rt.alloc(), &ASKS, &TOLD));
    Ok(())
}
