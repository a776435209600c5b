//! What one turn of a call came to, and where the call stands then.

ghost use Rattle.std.specs.Prelude.{◌≡◌, false, None};
ghost use Rattle.live_turns.specs.Points.{standing_of};
ghost use Rattle.live_turns.specs.Ways.{parked};

use fat_monitor::Reply;
use lock_word::ThreadId;
use step_core::{Place, Point, Stage};

/// What one turn of a call came to.
#[derive(Clone, Copy)]
pub struct Turned {
    /// Where the call stands now.
    pub point: Point,
    /// Whether the turn ended because another pass had the gate.
    pub gate_taken: bool,
    /// The thread that the turn made an owner, if it did: its call has a reply now, so it is to be
    /// woken where it sleeps.
    pub granted: Option<ThreadId>,
}

/// Where a call stands, for whoever drives it: what to do before the next turn.
#[derive(Clone, Copy, PartialEq, Eq)]
pub enum Standing {
    /// The call is over, with this reply.
    Said(Reply),
    /// The call met another thread at the word: by its thin word, or by an exchange that was lost.
    /// Back off, and turn again.
    Contended,
    /// Another pass has the gate, which it gives back soon: turn again.
    GateTaken,
    /// The call waits for another thread, or for a moment: sleep until another call's turn has
    /// `granted` this thread, or the moment was told, and turn again.
    Parked,
}

impl Turned {
    /// The call has its reply.
    #[inline(always)]
    pub(crate) fn said(reply: Reply) -> Turned
        ensures { result ≡ record { point = Point.Said reply; gate_taken = false; granted = None } }
    {
        Turned {
            point: Point::Said(reply),
            gate_taken: false,
            granted: None,
        }
    }

    /// The call stands here, and nobody was made an owner.
    #[inline(always)]
    pub(crate) fn at(stage: Stage, gate_taken: bool) -> Turned
        ensures { result ≡ record {
          point = Point.At (Place.InCall stage);
          gate_taken = gate_taken;
          granted = None;
        } }
    {
        Turned {
            point: Point::At(Place::InCall(stage)),
            gate_taken,
            granted: None,
        }
    }

    /// The call has parked, before or after an expire of its own.
    pub(crate) fn parked(expired: bool, gate_taken: bool) -> Turned
        ensures { result ≡ record {
          point = parked expired;
          gate_taken = gate_taken;
          granted = None;
        } }
    {
        let point = if expired {
            Point::Expired
        } else {
            Point::At(Place::AtPost)
        };
        Turned {
            point,
            gate_taken,
            granted: None,
        }
    }

    /// Where the call stands, for whoever drives it.
    #[inline(always)]
    pub fn standing(&self) -> Standing
        ensures { result ≡ standing_of self.now }
    {
        match self.point {
            Point::Said(reply) => Standing::Said(reply),
            _ if self.gate_taken => Standing::GateTaken,
            Point::At(Place::InCall(_)) => Standing::Contended,
            _ => Standing::Parked,
        }
    }
}
