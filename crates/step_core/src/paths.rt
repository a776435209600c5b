//! Where a call stands on its path, from its beginning to its reply.

use crate::Place;
use fat_monitor::Reply;

/// Where a call stands on its path: the atomic steps of its thread lead from one point to the next.
#[derive(Clone, Copy)]
pub enum Point {
    /// At a place that is on its way.
    At(Place),
    /// Its wait ended because its deadline came, and its reply is to be collected.
    Expired,
    /// It has its reply.
    Said(Reply),
}
