//! Want of memory: an attach that was refused succeeds when tried again, and no other move is
//! judged otherwise. Run with each allocation refused in turn, this meets every refusal that there
//! is.

use super::crowds::{Act, plays};
use std::test::Fail;

const STEP: u32 = 2_654_435_769;

const ACTS: [Act; 3] = [Act::Live(40), Act::Live(9), Act::NotifyFew(100, 2)];

/// Threads come, some of them wait and are notified, most of them end, and they come again: while
/// the list of their records, the hints that lead there and the notes of who waits grow and shrink.
#[test]
fn a_crowd_with_refused_growths_is_judged_alike(rt: HostRuntime) -> Result<(), Fail> {
    let is_judged_alike = match plays(rt.alloc(), STEP, 100, &ACTS) {
        Ok(is_judged_alike) => is_judged_alike,
        Err(_) => plays(rt.alloc(), STEP, 100, &ACTS)?,
    };
    assert!(rt; is_judged_alike);
    Ok(())
}
