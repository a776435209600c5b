//! The cycles alone, of a script whose dump the examples have.

use dump::cycles;
use history::{FileFault, play, read_script};
use lock_word::ThreadId;
use std::alloc::Global;
use std::test::Fail;
use step_core::World;

/// Two threads that want each other's object, and one that wants the first one's.
const TWO_AND_ONE: &[u8] = b"world 4 4
object a 00
object b 00
attach x
attach y
attach z
begin x enter a
go x
go x
begin y enter b
go y
go y
begin x enter b
go x
begin y enter a
go y
begin z enter a
go z
";

/// The world that a script leads to.
fn world_of(alloc: Global, bytes: &[u8]) -> Result<World, FileFault> {
    let script = read_script(alloc, bytes)?;
    Ok(play(alloc, &script)?.0)
}

/// The cycles of a world, by the numbers of their threads.
fn cycles_in(alloc: Global, world: &World) -> Result<Vec<Vec<ThreadId>>, FileFault> {
    Ok(cycles(alloc, world)?)
}

/// The cycles of the world that a script leads to.
fn cycles_of(alloc: Global, bytes: &[u8]) -> Result<Vec<Vec<ThreadId>>, FileFault> {
    let world = world_of(alloc, bytes)?;
    cycles_in(alloc, &world)
}

/// The threads of a cycle, where it is the only one.
fn only_one(found: &[Vec<ThreadId>]) -> Option<&[ThreadId]> {
    match found {
        [cycle] => Some(cycle.as_slice()),
        _ => None,
    }
}

#[test]
fn two_threads_and_one_that_leads_in(rt: HostRuntime) -> Result<(), Fail> {
    let found = cycles_of(rt.alloc(), TWO_AND_ONE)?;
    assert!(rt; only_one(&found) == Some([ThreadId(0), ThreadId(1)].as_slice()));
    Ok(())
}
