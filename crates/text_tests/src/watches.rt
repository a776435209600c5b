//! What a watch is told of an exploration.

use super::deadlock::DEADLOCK;
use super::programs::ONE_ENTER;
use explore::{ExploreFault, Program, Watch, explore_watched};
use explore_java::explore_java_watched;
use program_text::read_program;
use std::alloc::Global;
use std::test::Fail;

/// A watch that counts what it is told.
#[derive(Drop)]
struct Counts {
    // How often it was told of a state.
    tells: usize,
    // How often it was told that the exploration is over.
    ends: usize,
    // How many states were found when it was told of one last.
    found: usize,
    // Whether all that it was told fits.
    fits: bool,
}

impl Counts {
    fn new() -> Counts {
        Counts {
            tells: 0,
            ends: 0,
            found: 0,
            fits: true,
        }
    }

    /// Whether it was told of so many states, and once that the exploration is over.
    fn has(&self, tells: usize) -> bool {
        self.fits && self.tells == tells && self.ends == 1
    }
}

impl Watch for Counts {
    // Each state that was found was visited, and told of, or is still to be visited.
    fn tell(&mut self, found: usize, waiting: usize) {
        self.tells = self.tells.saturating_add(1);
        let is_whole = waiting.checked_add(self.tells) == Some(found);
        self.fits &= is_whole && self.found <= found && self.ends == 0;
        self.found = found;
    }

    fn end(&mut self) {
        self.ends = self.ends.saturating_add(1);
    }
}

/// How many states the core has, of at most so many, where a watch is told.
fn core_states(
    alloc: Global,
    program: &Program,
    most: u32,
    watch: &mut Counts,
) -> Result<usize, ExploreFault> {
    let found = explore_watched(alloc, program, most, watch)?;
    Ok(found.states())
}

/// The same of the Java machine itself.
fn machine_states(
    alloc: Global,
    program: &Program,
    most: u32,
    watch: &mut Counts,
) -> Result<usize, ExploreFault> {
    let found = explore_java_watched(alloc, program, most, watch)?;
    Ok(found.states())
}

/// A program, how many states are asked for at most, what is answered, and of how many states a
/// watch is told: of each that is visited, but for one from which too many were found.
type Row<'a> = (&'a [u8], u32, Result<usize, ExploreFault>, usize);

const MANY: Result<usize, ExploreFault> = Err(ExploreFault::TooManyStates);

#[test]
fn a_watch_is_told_once_of_each_state_of_the_core(rt: HostRuntime) -> Result<(), Fail> {
    let rows: [Row<'_>; 6] = [
        (ONE_ENTER, 0, MANY, 0),
        (ONE_ENTER, 6, MANY, 5),
        (ONE_ENTER, 7, Ok(7), 7),
        (ONE_ENTER, 8, Ok(7), 7),
        (DEADLOCK, 156, MANY, 154),
        (DEADLOCK, 157, Ok(157), 157),
    ];
    for (text, most, states, tells) in rows {
        let named = read_program(rt.alloc(), text)?;
        let mut counts = Counts::new();
        let found = core_states(rt.alloc(), &named.program, most, &mut counts);
        assert!(rt; found == states && counts.has(tells), "{most} states");
    }
    Ok(())
}

#[test]
fn a_watch_is_told_once_of_each_state_of_the_machine(rt: HostRuntime) -> Result<(), Fail> {
    let rows: [Row<'_>; 6] = [
        (ONE_ENTER, 0, MANY, 0),
        (ONE_ENTER, 6, MANY, 5),
        (ONE_ENTER, 7, Ok(7), 7),
        (ONE_ENTER, 8, Ok(7), 7),
        (DEADLOCK, 114, MANY, 112),
        (DEADLOCK, 115, Ok(115), 115),
    ];
    for (text, most, states, tells) in rows {
        let named = read_program(rt.alloc(), text)?;
        let mut counts = Counts::new();
        let found = machine_states(rt.alloc(), &named.program, most, &mut counts);
        assert!(rt; found == states && counts.has(tells), "{most} states");
    }
    Ok(())
}
