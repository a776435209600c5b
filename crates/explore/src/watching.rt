//! Who is told how far an exploration has come.

/// Who is told how far an exploration has come. What is found rests on nothing that it does.
pub trait Watch {
    /// So many states were found by now, and so many of them are still to be visited: told each
    /// time that a state was visited, unless there are too many then.
    fn tell(&mut self, found: usize, waiting: usize);

    /// The exploration is over, whatever came of it: told once.
    fn end(&mut self);
}

/// Nobody, for an exploration that tells nothing before it is over.
#[derive(Drop, Clone, Copy)]
pub struct Nobody;

impl Watch for Nobody {
    fn tell(&mut self, _found: usize, _waiting: usize) {}

    fn end(&mut self) {}
}
