//! The members of an object, by their keys.

ghost use Rattle.std.specs.Prelude.{◌≡◌, ◌^◌, nat_lt, if◌then◌else◌, None, Some, option_map};
ghost use Rattle.std.specs.Prelude.{IfSome, codes};
ghost use Rattle.serde_json.specs.Data.{Data};
ghost use Rattle.serde_json.specs.View.{view};
ghost use Rattle.history_moves.specs.Members.{IsOrderedData, count_in, text_at, whole_at};
ghost use Rattle.history_moves.specs.Members.{now_at, signed_at, small_signed, millis_at, nanos_at};
ghost use Rattle.history_moves.specs.Members.{thread_number, thread_at, object_at, chosen_at};
ghost use Rattle.history_moves.specs.GatheredMembers.{short_signed};

use lock_word::{ObjectId, ThreadId};
use serde_json::Value;

/// What has the members of a move.
pub(crate) trait Fields {
    // The object that has these members.
    ghost seen: { Self → Data };

    /// The name of the move.
    fn name(&self) -> Option<&[u8]>
        ensures { option_map (λ text. text.now) result ≡ text_at (codes "move") (seen self.now) };

    /// The verb of a call.
    fn verb(&self) -> Option<&[u8]>
        ensures { option_map (λ text. text.now) result ≡ text_at (codes "call") (seen self.now) };

    fn reply(&self) -> Option<&[u8]>
        ensures { option_map (λ text. text.now) result ≡ text_at (codes "reply") (seen self.now) };

    fn cause(&self) -> Option<&[u8]>
        ensures { option_map (λ text. text.now) result ≡ text_at (codes "cause") (seen self.now) };

    fn thread(&self) -> Option<u64>
        ensures { result ≡ whole_at (codes "thread") (seen self.now) };

    fn object(&self) -> Option<u64>
        ensures { result ≡ whole_at (codes "object") (seen self.now) };

    fn target(&self) -> Option<u64>
        ensures { result ≡ whole_at (codes "target") (seen self.now) };

    /// A moment.
    fn now(&self) -> Option<u64>
        ensures { result ≡ now_at (seen self.now) };

    fn millis(&self) -> Option<i64>
        ensures { result ≡ millis_at (seen self.now) };

    fn nanos(&self) -> Option<i64>
        ensures { result ≡ signed_at (codes "nanos") (seen self.now) };

    /// The thread that was chosen, which may be null.
    fn chosen(&self) -> Option<Option<ThreadId>>
        ensures { result ≡ chosen_at (seen self.now) };
}

/// How many members an object has.
pub(crate) fn count_in(value: &Value) -> Option<usize>
    ensures count { result ≡ count_in (view value.now) }
    ensures ordered { IfSome result (λ _. IsOrderedData (view value.now)) }
{
    let members = value.as_object()?;
    Some(members.len())
}

fn text_at<'a>(value: &'a Value, key: &str) -> Option<&'a [u8]>
    ensures { option_map (λ text. text.now) result ≡ text_at key.now (view value.now) }
{
    Some(value.get(key)?.as_str()?.as_bytes())
}

pub(crate) fn whole_at(value: &Value, key: &str) -> Option<u64>
    ensures { result ≡ whole_at key.now (view value.now) }
{
    value.get(key).and_then(Value::as_u64)
}

/// A number of 64 bits that may be negative.
fn signed_at(value: &Value, key: &str) -> Option<i64>
    ensures { result ≡ signed_at key.now (view value.now) }
{
    value.get(key).and_then(Value::as_i64)
}

impl Fields for Value {
    ghost seen = { view };

    fn name(&self) -> Option<&[u8]> {
        text_at(self, "move")
    }

    fn verb(&self) -> Option<&[u8]> {
        text_at(self, "call")
    }

    fn reply(&self) -> Option<&[u8]> {
        text_at(self, "reply")
    }

    fn cause(&self) -> Option<&[u8]> {
        text_at(self, "cause")
    }

    fn thread(&self) -> Option<u64> {
        whole_at(self, "thread")
    }

    fn object(&self) -> Option<u64> {
        whole_at(self, "object")
    }

    fn target(&self) -> Option<u64> {
        whole_at(self, "target")
    }

    fn now(&self) -> Option<u64> {
        whole_at(self, "now")
    }

    fn millis(&self) -> Option<i64> {
        signed_at(self, "millis")
    }

    fn nanos(&self) -> Option<i64> {
        signed_at(self, "nanos")
    }

    fn chosen(&self) -> Option<Option<ThreadId>> {
        let member = self.get("chosen")?;
        if member.is_null() {
            return Some(None);
        }
        Some(Some(ThreadId(small_number(whole_at(self, "chosen")?)?)))
    }
}

/// A number of 32 bits.
pub(crate) fn small_number(number: u64) -> Option<u32>
    ensures { result ≡ (if nat_lt number (2 ^ 32) then Some number else None) }
{
    if number < 0x1_0000_0000 {
        Some(number as u32)
    } else {
        None
    }
}

pub(crate) fn thread_at<F: Fields>(fields: &F) -> Option<ThreadId>
    ensures { result ≡ thread_at (F.seen fields.now) }
{
    Some(ThreadId(small_number(fields.thread()?)?))
}

pub(crate) fn target_at<F: Fields>(fields: &F) -> Option<ThreadId>
    ensures { result ≡ thread_number (codes "target") (F.seen fields.now) }
{
    Some(ThreadId(small_number(fields.target()?)?))
}

pub(crate) fn object_at<F: Fields>(fields: &F) -> Option<ObjectId>
    ensures { result ≡ object_at (F.seen fields.now) }
{
    Some(ObjectId(small_number(fields.object()?)?))
}

/// The number as a signed one.
pub(crate) fn short_signed(number: u64) -> Option<i64>
    ensures { result ≡ short_signed number }
{
    if number < 0x8000_0000_0000_0000 {
        Some(number as i64)
    } else {
        None
    }
}

/// A signed number of 32 bits.
pub(crate) fn small_signed(number: i64) -> Option<i32>
    ensures { result ≡ small_signed number }
{
    if -2_147_483_648 <= number && number < 2_147_483_648 {
        Some(number as i32)
    } else {
        None
    }
}

pub(crate) fn nanos_at<F: Fields>(fields: &F) -> Option<i32>
    ensures { result ≡ nanos_at (F.seen fields.now) }
{
    small_signed(fields.nanos()?)
}
