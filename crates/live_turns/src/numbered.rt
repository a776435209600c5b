//! Whether the passes of a service are all there.

ghost use Rattle.std.specs.Prelude.{◌≡◌, ◌↔◌, IsTrue, Contains, map, true, false};
ghost use Rattle.live_turns.specs.Numbers.{HasEach, HasNumbers};

/// What has the number of a thread.
pub trait Numbered {
    ghost use Rattle.std.specs.Prelude.{◌≡◌, ℕ};

    ghost numbered: { Self → ℕ };

    /// The number.
    fn number(&self) -> u16
        ensures { result ≡ numbered self.now };
}

/// Whether these have the numbers 1 to `count`, each once.
pub fn has_each<P: Numbered>(passes: &[P], count: u16) -> bool
    ensures found { result ≡ true → HasEach count (map P.numbered passes.now) }
    ensures missing { result ≡ false → HasEach count (map P.numbered passes.now) → ⊥ }
{
    passes.len() == usize::from(count) && has_numbers(passes, count)
}

// Whether each number from 1 to `count` is among these.
fn has_numbers<P: Numbered>(passes: &[P], count: u16) -> bool
    ensures found { result ≡ true → HasNumbers count (map P.numbered passes.now) }
    ensures missing { result ≡ false → HasNumbers count (map P.numbered passes.now) → ⊥ }
{
    for below in 0..count {
        if !has_number(passes, below + 1) {
            return false;
        }
    }
    true
}

// Whether one of these has this number.
fn has_number<P: Numbered>(passes: &[P], number: u16) -> bool
    ensures { IsTrue result ↔ Contains (map P.numbered passes.now) number }
{
    for pass in passes {
        if pass.number() == number {
            return true;
        }
    }
    false
}
