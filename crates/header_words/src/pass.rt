//! The passes of those who lock objects.
ghost use Rattle.std.specs.Prelude.{◌≡◌, ◌<◌, ◌≤◌, length};

use crate::rule::View;
use atomic_table::Seat;
use lock_word::ObjectId;
use std::marker::Model;

/// The right to lock objects under one index, with a row of depths: how many times the pass holds
/// each object thinly. One thread has it at a time. It has its own copy of the low bytes, so that a
/// call reads nothing that threads share but the word. It can be dropped, whatever `B` is; a gate
/// that it has then stays taken for good.
pub struct Pass<B> {
    pub(crate) index: u16,
    pub(crate) depths: Vec<u16>,
    pub(crate) lows: Vec<u8>,
    pub(crate) has_gate: bool,
    pub(crate) seat: Seat<Option<B>, View>,
}

impl<B> Model for Pass<B> {
    ghost use Rattle.header_words.specs.Passes.{PassValue, pass_value, IsPass};

    ghost Value = { PassValue };

    ghost view = { λ p. pass_value p.seat };

    ghost invariant = { λ p. IsPass p.index p.depths.items p.lows.items p.has_gate p.seat };
}

impl<B> Drop for Pass<B> {
    fn drop(self) {
        let Pass {
            index: _,
            depths: _,
            lows: _,
            has_gate: _,
            seat: _,
        } = self;
    }
}

/// What a pass is made of. A type with a `drop` of its own can be taken apart in its own methods
/// only.
pub(crate) struct Parts<B> {
    pub(crate) index: u16,
    pub(crate) depths: Vec<u16>,
    pub(crate) lows: Vec<u8>,
    pub(crate) has_gate: bool,
    pub(crate) seat: Seat<Option<B>, View>,
}

impl<B> Pass<B> {
    ghost use Rattle.header_words.specs.Passes.{HoldsThinly, depth_at, pass_value, IsPass};

    pub(crate) fn into_parts(self) -> Parts<B>
        ensures view { pass_value result.seat ≡ self }
        ensures inside { IsPass result.index result.depths.items result.lows.items result.has_gate
            result.seat }
    {
        let Pass {
            index,
            depths,
            lows,
            has_gate,
            seat,
        } = self;
        Parts {
            index,
            depths,
            lows,
            has_gate,
            seat,
        }
    }

    /// The index of the pass, which its thin words show: 1 to 32,767.
    pub fn index(&self) -> u16
        ensures value { result ≡ self.now.index }
        ensures low { 1 ≤ result }
        ensures high { result ≤ 32767 }
    {
        self.index
    }

    /// How many times the pass holds the object thinly, 0 to 256. Holds by a fat monitor do not
    /// count.
    pub fn depth(&self, object: ObjectId) -> u16
        requires { object.0 < length self.now.opening.lows }
        ensures value { result ≡ depth_at self.now object.0 }
        ensures most { result ≤ 256 }
        ensures thin { HoldsThinly self.now object.0 result }
    {
        self.depths[object.0 as usize]
    }

    /// Whether the pass has the gate: it has taken the book, and not given it back.
    pub fn has_gate(&self) -> bool
        ensures { result ≡ self.now.has_gate }
    {
        self.has_gate
    }
}
