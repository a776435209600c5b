//! The time of a wait.

ghost use Rattle.std.specs.Prelude.{true, ◌≡◌};
ghost use Rattle.fat_monitor.specs.Acting.{deadline, are_good};

/// Whether the time of a wait is in its range (JLS SE 8, 17.2.1).
pub fn are_good(millis: i64, nanos: i32) -> bool
    ensures { result ≡ are_good millis nanos }
{
    0 <= millis && 0 <= nanos && nanos <= 999_999
}

/// When a wait that begins at this moment is over, in nanoseconds; a wait of no limit has no
/// deadline.
pub(crate) fn deadline(now: u64, millis: i64, nanos: i32) -> Option<u128>
    requires { are_good millis nanos ≡ true }
    ensures { result ≡ deadline now millis nanos }
{
    let time = millis as u128 * 1_000_000 + nanos as u128;
    if time == 0 {
        None
    } else {
        Some(u128::from(now) + time)
    }
}
