//! Numbers at random, the same each time.

ghost use Rattle.std.specs.Prelude.{◌<◌};

/// A small generator of numbers: three shifts of 64 bits.
#[derive(Drop)]
pub struct Random {
    bits: u64,
}

impl Random {
    /// The generator of a seed, which is not 0.
    pub fn new(seed: u64) -> Random {
        Random { bits: seed }
    }

    /// A number below the bound.
    pub fn below(&mut self, bound: u32) -> u32
        requires { 0 < bound }
        ensures { result < bound }
    {
        self.bits ^= self.bits << 13;
        self.bits ^= self.bits >> 7;
        self.bits ^= self.bits << 17;
        let high = (self.bits >> 32) as u32;
        high % bound
    }

    /// True once in so many times.
    pub fn once_in(&mut self, times: u32) -> bool
        requires { 0 < times }
    {
        self.below(times) == 0
    }
}
