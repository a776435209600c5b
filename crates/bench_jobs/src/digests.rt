//! Digests of results.

ghost use Rattle.std.specs.Prelude.{None};

use history::Sink;

/// A digest of words, in order.
#[derive(Drop)]
pub struct Digest {
    mixed: u64,
}

impl Digest {
    pub fn new() -> Digest {
        Digest {
            mixed: 0x243F_6A88_85A3_08D3,
        }
    }

    pub fn mix(&mut self, word: u64) {
        let mixed = (self.mixed ^ word).wrapping_mul(0x9E37_79B9_7F4A_7C15);
        self.mixed = mixed ^ (mixed >> 29);
    }

    pub fn mix_bytes(&mut self, bytes: &[u8]) {
        let mut rest = bytes;
        'words: while let [a, b, c, d, e, f, g, h, after @ ..] = rest {
            self.mix(u64::from_le_bytes([*a, *b, *c, *d, *e, *f, *g, *h]));
            rest = after;
        }
        for byte in rest {
            self.mix(u64::from(*byte));
        }
        self.mix(bytes.len() as u64);
    }

    pub fn value(&self) -> u64 {
        self.mixed
    }
}

/// A sink that keeps a digest of what it takes.
#[derive(Drop)]
pub struct DigestSink {
    pub digest: Digest,
}

impl Sink for DigestSink {
    ghost holds = { λ _. None };

    ghost has_failed = { λ _. ⊥ };

    fn put(&mut self, bytes: &[u8]) -> Option<usize> {
        self.digest.mix_bytes(bytes);
        Some(bytes.len())
    }
}
