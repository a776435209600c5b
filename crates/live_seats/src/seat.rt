//! A seat at a live service.

use crate::member::Member;
use live_turns::Crew;

/// A seat at a live service: its member, who is gone only while the service is being closed.
#[derive(Drop)]
pub struct Seat<L: Crew> {
    pub(crate) member: Option<Member<L>>,
}
