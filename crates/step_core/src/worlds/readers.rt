//! How many threads a world can have.

ghost use Rattle.std.specs.Prelude.{◌≡◌, length};

use crate::World;

impl World {
    /// How many indices there are, so the most threads that are live at once: they are numbered
    /// from 1.
    pub fn indices(&self) -> u16
        ensures { result ≡ length self.now.berths }
    {
        self.places.len() as u16
    }
}
