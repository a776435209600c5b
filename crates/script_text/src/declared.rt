//! The names of the objects that are declared.

use crate::names::Name;
use indexmap::IndexSet;

/// Who knows the names of the objects that are declared, and has them each once.
pub trait Declared {
    ghost use Rattle.std.specs.Prelude.{◌≡◌, List, ℕ, length};
    ghost use Rattle.script_text.specs.Names.{is_named};

    ghost names: { Self → List (List ℕ) };

    /// Whether an object has this name.
    fn has(&self, name: &Name<'_>) -> bool
        ensures { result ≡ is_named (names self.now) name.now };

    /// How many there are.
    fn count(&self) -> usize
        ensures { result ≡ length (names self.now) };
}

impl Declared for IndexSet<String> {
    ghost use Rattle.std.specs.Prelude.{map, string_bytes};

    ghost names = { λ s. map string_bytes s.keys };

    fn has(&self, name: &Name<'_>) -> bool {
        self.contains(name.as_str())
    }

    fn count(&self) -> usize {
        self.len()
    }
}
