//! The rule that the words and the book follow, and what each step tells the pass that takes it.
use crate::event::Event;
use crate::kept::Kept;
use atomic_table::{Join, Play, Split, TableRule};
use std::marker::PhantomData;

/// An index, and all events of its pass.
pub struct Part {
    pub index: u64,
    pub mine: [Event; 0],
}

/// What a seat knows. No value of it is made. A clause reads an array as a list, of any length.
pub struct View {
    pub lows: [u64; 0],
    pub count: u64,
    pub parts: [Part; 0],
    pub seen: [Event; 0],
    pub earlier: [[Event; 0]; 0],
    /// It has the gate.
    pub has_gate: bool,
    /// How many steps of its own have changed what it knows.
    pub steps: u64,
}

/// The low bytes of the words, and how many passes there are.
#[derive(Drop)]
pub struct Layout {
    pub lows: Vec<u8>,
    pub count: u16,
}

/// There is one trace, which replays to the words, and the book binds all that it publishes.
pub struct Law;

impl<B: Kept> TableRule<Option<B>, View, Layout> for Law {
    ghost use Rattle.header_words.specs.Rule.{Ruled, opening_view};

    ghost holds = { λ layout s. Ruled B.bound layout.lows.items layout.count s };

    ghost first = { λ layout. opening_view layout.lows.items layout.count };
}

/// The load of a word.
pub struct Look;

impl<S> Play<S, View> for Look {
    ghost use Rattle.header_words.specs.Steps.{Loads};

    ghost then = { Loads };
}

/// The exchange of a free word for a thin one.
pub struct Exchange;

impl<S> Play<S, View> for Exchange {
    ghost use Rattle.header_words.specs.Steps.{Exchanges};

    ghost then = { Exchanges };
}

/// Of which kind the event of a store is.
pub trait StoreKind {
    ghost use Rattle.std.specs.Prelude.{ℕ};
    ghost use Rattle.header_words.specs.declared.event.EventKind.{EventKind};

    ghost kind: { ℕ → EventKind };
}

/// An owner's plain store.
pub struct Stored<D> {
    marker: PhantomData<D>,
}

impl<S, D: StoreKind> Play<S, View> for Stored<D> {
    ghost use Rattle.header_words.specs.Steps.{Stores};

    ghost then = { Stores D.kind };
}

/// The store of a release.
pub struct Releases;

impl StoreKind for Releases {
    ghost use Rattle.header_words.specs.declared.event.EventKind.TheVariants.{Release};

    ghost kind = { λ _. Release };
}

/// The store of one more lock.
pub struct Nests;

impl StoreKind for Nests {
    ghost use Rattle.header_words.specs.declared.event.EventKind.TheVariants.{Nest};

    ghost kind = { λ _. Nest };
}

/// The store of one lock less.
pub struct Unnests;

impl StoreKind for Unnests {
    ghost use Rattle.header_words.specs.declared.event.EventKind.TheVariants.{Unnest};

    ghost kind = { λ _. Unnest };
}

/// The store of a fat word.
pub struct Publishes;

impl StoreKind for Publishes {
    ghost use Rattle.header_words.specs.Steps.{publish_of};

    ghost kind = { publish_of };
}

/// Gives the first index of a seat to a new seat.
pub struct Firsts;

impl Split<View> for Firsts {
    ghost use Rattle.header_words.specs.Rule.{kept_view, given_view};

    ghost left = { kept_view };

    ghost right = { given_view };
}

/// Gives the indices of one seat to another.
pub struct Joined;

impl Join<View> for Joined {
    ghost use Rattle.header_words.specs.Rule.{joined_view, spent_view};

    ghost both = { joined_view };

    ghost spent = { spent_view };
}

/// The load of the gate word, by which a seat sees the whole trace.
pub struct Sync;

impl<S> Play<S, View> for Sync {
    ghost use Rattle.header_words.specs.Steps.{Syncs};

    ghost then = { Syncs };
}

/// The exchange of the open gate for the index of a pass.
pub struct TakeGate;

impl<B: Kept> Play<Option<B>, View> for TakeGate {
    ghost use Rattle.header_words.specs.Steps.{Takes};

    ghost then = { Takes B.bound };
}

/// The store of the open gate.
pub struct GiveGate;

impl<S> Play<S, View> for GiveGate {
    ghost use Rattle.header_words.specs.Steps.{Gives};

    ghost then = { Gives };
}
