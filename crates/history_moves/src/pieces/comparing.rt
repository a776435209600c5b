//! Whether bytes are the same, compared as numbers.

ghost use Rattle.std.specs.Prelude.{◌≡◌, ◌++◌, ◌<◌, ◌^◌, length, IfSome, MatchOption, bytes_eq};
ghost use Rattle.std.specs.Int.{w16, w32, w64, to_le_bytes};

/// The first eight bytes as one number, and what stands behind them.
#[inline(always)]
fn eight_in(bytes: &[u8]) -> Option<(u64, &[u8])>
    ensures cases { MatchOption result (length bytes.now < 8)
        (λ r. bytes.now ≡ to_le_bytes w64 r.0 ++ r.1.now) }
    ensures small { IfSome result (λ r. r.0 < 2 ^ 64) }
{
    if let [a, b, c, d, e, f, g, h, rest @ ..] = bytes {
        Some((u64::from_le_bytes([*a, *b, *c, *d, *e, *f, *g, *h]), rest))
    } else {
        None
    }
}

/// The first four bytes as one number, and what stands behind them.
#[inline(always)]
fn four_in(bytes: &[u8]) -> Option<(u32, &[u8])>
    ensures cases { MatchOption result (length bytes.now < 4)
        (λ r. bytes.now ≡ to_le_bytes w32 r.0 ++ r.1.now) }
    ensures small { IfSome result (λ r. r.0 < 2 ^ 32) }
{
    if let [a, b, c, d, rest @ ..] = bytes {
        Some((u32::from_le_bytes([*a, *b, *c, *d]), rest))
    } else {
        None
    }
}

/// The first two bytes as one number, and what stands behind them.
#[inline(always)]
fn two_in(bytes: &[u8]) -> Option<(u16, &[u8])>
    ensures cases { MatchOption result (length bytes.now < 2)
        (λ r. bytes.now ≡ to_le_bytes w16 r.0 ++ r.1.now) }
    ensures small { IfSome result (λ r. r.0 < 2 ^ 16) }
{
    if let [a, b, rest @ ..] = bytes {
        Some((u16::from_le_bytes([*a, *b]), rest))
    } else {
        None
    }
}

/// Whether the two are the same bytes, compared one at a time.
#[inline(always)]
fn same_by_one(bytes: &[u8], others: &[u8]) -> bool
    ensures { result ≡ bytes_eq bytes.now others.now }
{
    let mut left = bytes;
    let mut right = others;
    'ones: while let Some((byte, after)) = left.split_first() {
        let Some((other, others_after)) = right.split_first() else {
            return false;
        };
        if *byte != *other {
            return false;
        }
        left = after;
        right = others_after;
    }
    right.is_empty()
}

/// Whether the two are the same bytes, the first two of them compared as one number.
#[inline(always)]
fn same_by_two(bytes: &[u8], others: &[u8]) -> bool
    ensures { result ≡ bytes_eq bytes.now others.now }
{
    let Some((number, after)) = two_in(bytes) else {
        return same_by_one(bytes, others);
    };
    let Some((other, others_after)) = two_in(others) else {
        return false;
    };
    if number != other {
        return false;
    }
    same_by_one(after, others_after)
}

/// Whether the two are the same bytes, the first four of them compared as one number.
#[inline(always)]
fn same_by_four(bytes: &[u8], others: &[u8]) -> bool
    ensures { result ≡ bytes_eq bytes.now others.now }
{
    let Some((number, after)) = four_in(bytes) else {
        return same_by_two(bytes, others);
    };
    let Some((other, others_after)) = four_in(others) else {
        return false;
    };
    if number != other {
        return false;
    }
    same_by_two(after, others_after)
}

/// Whether the two are the same bytes, compared eight at a time. It is always inlined: where one of
/// the two is a constant its lengths fold away, and what is left is a comparison of two numbers for
/// each eight bytes, and up to three for the rest, with no loop and no call.
#[inline(always)]
pub(crate) fn same_bytes(bytes: &[u8], others: &[u8]) -> bool
    ensures { result ≡ bytes_eq bytes.now others.now }
{
    if bytes.len() != others.len() {
        return false;
    }
    let mut left = bytes;
    let mut right = others;
    'eights: while let Some((number, after)) = eight_in(left) {
        let Some((other, others_after)) = eight_in(right) else {
            return false;
        };
        if number != other {
            return false;
        }
        left = after;
        right = others_after;
    }
    same_by_four(left, right)
}
