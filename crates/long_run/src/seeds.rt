//! Numbers that look random, the same each time.

ghost use Rattle.std.specs.Prelude.{◌<◌};

/// A number for each position of a sequence.
#[derive(Drop)]
pub struct Seed {
    position: u64,
}

impl Seed {
    /// The sequence of a worker in a round.
    pub fn new(round: u32, worker: u16) -> Seed {
        let start = (u64::from(round) << 16) | u64::from(worker);
        Seed {
            position: start.wrapping_mul(0xd134_2543_de82_ef95),
        }
    }

    /// The next number, below the bound.
    pub fn below(&mut self, bound: u32) -> u32
        requires { 0 < bound }
        ensures { result < bound }
    {
        self.position = self.position.wrapping_add(0x9e37_79b9_7f4a_7c15);
        let mut bits = self.position;
        bits = (bits ^ (bits >> 30)).wrapping_mul(0xbf58_476d_1ce4_e5b9);
        bits = (bits ^ (bits >> 27)).wrapping_mul(0x94d0_49bb_1331_11eb);
        (bits >> 32) as u32 % bound
    }
}
