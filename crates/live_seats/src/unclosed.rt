//! What there is of a service that was not closed.

use crate::ending::Closing;
use crate::house::House;
use crate::member::Member;
use live_turns::{Crew, TurnPass};

/// Why a house was not closed.
#[derive(Drop)]
pub(crate) enum Refused<L: Crew> {
    /// It comes back, with the passes.
    Back {
        house: House<L>,
        passes: Vec<TurnPass<L>>,
        told: Closing,
    },
    /// A pass is torn.
    Torn,
}

/// Why a member did not close its service.
#[derive(Drop)]
pub(crate) enum Waits<L: Crew> {
    /// Its passes are here, with those that came back.
    Here {
        pass: TurnPass<L>,
        rest: Vec<TurnPass<L>>,
        told: Closing,
    },
    /// A pass is torn.
    Torn,
}

/// A member that did not close its service.
#[derive(Drop)]
pub(crate) enum Unclosed<L: Crew> {
    /// It is here.
    Here { member: Member<L>, told: Closing },
    /// A pass is torn.
    Torn,
}
