//! What comes of choices that are tried in a state.

ghost use Rattle.std.specs.Prelude.{◌≡◌, ◌==◌, if◌then◌else◌};
ghost use Rattle.explore.specs.declared.tried.Tried.TheVariants as tried;
ghost use Rattle.explore.specs.Searches.{changes, is_made};

/// What came of a choice that was tried in a state.
#[derive(Clone, Copy)]
pub enum Tried {
    /// It cannot be made there.
    Refused,
    /// It leads to the same state.
    Stays,
    /// It leads to another state.
    Leads,
}

impl Tried {
    /// Whether the choice changes the state.
    pub(crate) fn changes(self) -> bool
        ensures { result ≡ changes self }
    {
        matches!(self, Tried::Leads)
    }

    /// How many steps it is: one, where the choice can be made.
    pub(crate) fn steps(self) -> u64
        ensures { result ≡ (if is_made self then 1 else 0) }
    {
        match self {
            Tried::Refused => 0,
            Tried::Stays | Tried::Leads => 1,
        }
    }
}

/// What came of all choices in a state: whether none changes it, and how many can be made.
#[derive(Clone, Copy)]
pub(crate) struct Expanded {
    pub(crate) is_end: bool,
    pub(crate) made: u64,
}

/// What came of a choice in the state with a number, where it leads to the one with another.
pub(crate) fn tried_from(at: u32, number: usize) -> Tried
    ensures { result ≡ (if number == at then tried.Stays else tried.Leads) }
{
    if number == at as usize {
        Tried::Stays
    } else {
        Tried::Leads
    }
}
