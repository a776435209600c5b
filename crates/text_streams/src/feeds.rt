//! Where a line ends.

ghost use Rattle.std.specs.Prelude.{◌≡◌, ◌==◌, position};

use memchr::memchr;

/// The position of the first line feed in some bytes; None where there is none.
pub fn line_end(bytes: &[u8]) -> Option<usize>
    ensures { result ≡ position (λ b. b == 10) bytes.now }
{
    memchr(b'\n', bytes)
}
