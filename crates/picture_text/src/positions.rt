//! At which position the lane of a thread stands.

ghost use Rattle.std.specs.Prelude.{◌≡◌, ◌<◌, ℕ, IfOk, IfSome, OnOk, length, nat_eq};
ghost use Rattle.std.specs.HashMap.{get as map_get};
ghost use Rattle.picture_text.specs.Positions.{position_in, position_of};

use lock_word::ThreadId;
use pictures::Lane;
use std::alloc::{AllocError, Global};
use std::collections::HashMap;

/// The positions of some lanes, by the numbers of their threads.
pub(crate) fn positions(alloc: Global, lanes: &[Lane]) -> Result<HashMap<u32, u64>, AllocError>
    ensures { IfOk result (λ map. (q : ℕ)
        → map_get nat_eq map q ≡ position_in lanes.now (length lanes.now) q) }
{
    let mut map = HashMap::new(alloc);
    'lanes: for number in 0..lanes.len() {
        map.insert(lanes[number].thread.0, number as u64)?;
    }
    Ok(map)
}

/// The position of the lane of a thread, where it has one.
pub(crate) fn position_of(
    positions: &HashMap<u32, u64>,
    lanes: &[Lane],
    thread: ThreadId,
) -> Option<u64>
    requires { (q : ℕ)
        → map_get nat_eq positions.now q ≡ position_in lanes.now (length lanes.now) q }
    ensures position { result ≡ position_of lanes.now thread }
    ensures within { IfSome result (λ k. k < length lanes.now) }
{
    positions.get(&thread.0).copied()
}
