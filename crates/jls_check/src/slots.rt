//! Where the record of each live thread stands, and hints by which it is mostly found at once.

ghost use Rattle.std.specs.Prelude.{◌≡◌, IsTrue, IsSome, IfSome, MatchOption, Some, slice_get};
ghost use Rattle.std.specs.Prelude.{map as list_map};
ghost use Rattle.std.specs.Map.{lookup};
ghost use Rattle.std.specs.BTreeMap.{is_at, Updates};
ghost use Rattle.std.specs.Ordering.{nat_cmp};
ghost use Rattle.jls_check.specs.Slots.{LeadsTo, HavePositions, notified_slot};

use crate::threads::ThreadRecord;
use fat_monitor::Why;
use lock_word::ObjectId;
use std::collections::BTreeMap;
use step_core::Doing;

/// The record of the live thread with this number.
#[derive(Clone, Copy)]
pub(crate) struct Slot {
    pub(crate) number: u32,
    pub(crate) kept: ThreadRecord,
}

/// Where the slot of a number is; None where it has none.
pub(crate) fn position_of(
    slots: &[Slot],
    positions: &BTreeMap<u32, usize>,
    hints: &[u32],
    number: u32,
) -> Option<usize>
    requires { HavePositions slots.now positions.now.entries }
    ensures { result ≡ lookup (is_at (nat_cmp number)) positions.now.entries }
{
    if let Some(position) = hinted(slots, hints, number) {
        return Some(position);
    }
    positions.get(&number).copied()
}

/// The same, and where no hint leads there, there is one from now on, if there are hints at all.
pub(crate) fn position_noting(
    slots: &[Slot],
    positions: &BTreeMap<u32, usize>,
    hints: &mut [u32],
    number: u32,
) -> Option<usize>
    requires { HavePositions slots.now positions.now.entries }
    ensures { result ≡ lookup (is_at (nat_cmp number)) positions.now.entries }
{
    if let Some(position) = hinted(slots, hints, number) {
        return Some(position);
    }
    let position = positions.get(&number).copied()?;
    note(hints, number, position);
    Some(position)
}

/// Whether the slot at this position is that of the number.
fn is_of(slots: &[Slot], position: usize, number: u32) -> bool
    ensures { IsTrue result → LeadsTo slots.now number position }
{
    match slots.get(position) {
        Some(slot) => slot.number == number,
        None => false,
    }
}

/// The position that this hint names, where the slot there is that of the number.
fn hint_at(slots: &[Slot], hints: &[u32], at: usize, number: u32) -> Option<usize>
    ensures { IfSome result (λ position. LeadsTo slots.now number position) }
{
    let position = hints.get(at).copied()? as usize;
    if is_of(slots, position, number) {
        Some(position)
    } else {
        None
    }
}

/// A position that a hint names, where the slot there is that of the number. Hints may be old,
/// missing or another number's; nothing is proved of them.
fn hinted(slots: &[Slot], hints: &[u32], number: u32) -> Option<usize>
    ensures { IfSome result (λ position. LeadsTo slots.now number position) }
{
    let first = pair_of(hints.len(), number);
    match hint_at(slots, hints, first, number) {
        Some(position) => Some(position),
        None => hint_at(slots, hints, first | 1, number),
    }
}

/// The first of the two hints for a number, where there are so many hints. Numbers that follow one
/// another, lie at equal distances or have low bits in common are spread (multiplicative hashing,
/// as Knuth has it, of a number whose high bits are mixed with its low ones).
fn pair_of(hints: usize, number: u32) -> usize {
    let mixed = (number ^ (number >> 15)).wrapping_mul(0x9E37_79B1) as usize;
    (mixed.wrapping_mul(hints) >> 32) & !1
}

/// Notes where the slot of a number is. Of the two hints that were there, the older goes.
pub(crate) fn note(hints: &mut [u32], number: u32, position: usize) {
    let Ok(position) = u32::try_from(position) else {
        return;
    };
    let first = pair_of(hints.len(), number);
    let second = first | 1;
    if first < hints.len() && second < hints.len() {
        hints[second] = hints[first];
        hints[first] = position;
    }
}

/// Where a slot has come to this position from the end, its number's position follows.
pub(crate) fn follow(
    slots: &[Slot],
    positions: &mut BTreeMap<u32, usize>,
    hints: &mut [u32],
    position: usize,
)
    requires { IfSome (slice_get slots.now position)
        (λ slot. IsSome (lookup (is_at (nat_cmp slot.number)) positions.old.entries)) }
    ensures { MatchOption (slice_get slots.now position)
        (positions.new.entries ≡ positions.old.entries)
        (λ slot. Updates nat_cmp positions.old positions.new slot.number (Some position)) }
{
    let Some(slot) = slots.get(position) else {
        return;
    };
    let Some(moved) = positions.get_mut(&slot.number) else {
        unreachable!();
    };
    *moved = position;
    note_moved(hints, slot.number, slots.len(), position);
}

/// Notes that the slot of a number has gone from one position to another, where a hint led there.
fn note_moved(hints: &mut [u32], number: u32, from: usize, to: usize) {
    let Ok(to) = u32::try_from(to) else {
        return;
    };
    let first = pair_of(hints.len(), number);
    change_hint(hints, first, from, to);
    change_hint(hints, first | 1, from, to);
}

/// Makes this hint, if it names one position, name another.
fn change_hint(hints: &mut [u32], at: usize, from: usize, to: u32) {
    if at < hints.len() && hints[at] as usize == from {
        hints[at] = to;
    }
}

/// Keeps at least 4 hints for each slot. Where there are fewer, there are 8 for each from now on,
/// in new memory and noted anew: the slots that came since the last time have paid for that.
/// Without memory for it the hints stay as they are.
pub(crate) fn grow_hints(hints: &mut Vec<u32>, slots: &[Slot]) {
    if hints.len() / 4 >= slots.len() {
        return;
    }
    let wanted = slots.len().saturating_mul(8).max(16);
    let Ok(fresh) = vec![in *hints.allocator(); 0; wanted] else {
        return;
    };
    *hints = fresh;
    note_all(hints, slots);
}

/// Where there are 16 hints or more for each slot, there are 8 from now on, in the same memory and
/// noted anew: the slots that went since the last time have paid for that. An old hint that stays
/// beside them counts only where the slot that it names has the number, as any other.
fn drop_hints(hints: &mut Vec<u32>, slots: &[Slot]) {
    if hints.len() / 16 >= slots.len() {
        hints.truncate(slots.len().saturating_mul(8));
        note_all(hints, slots);
    }
}

/// Notes where each slot is.
fn note_all(hints: &mut [u32], slots: &[Slot]) {
    for (position, slot) in slots.iter().enumerate() {
        note(hints, slot.number, position);
    }
}

/// Gives memory back where slots take less than a quarter of theirs. In place, since each call and
/// each return asks.
#[inline(always)]
pub(crate) fn give_back(slots: &mut Vec<Slot>, hints: &mut Vec<u32>)
    ensures { slots.new.items ≡ slots.old.items }
{
    if slots.capacity() / 4 > slots.len().saturating_add(4) {
        shrink(slots, hints);
    }
}

/// Leaves room for as many slots again, and for no more hints than there are. Where the system
/// refuses to make it smaller, the memory stays, and the slots keep theirs too, so that it is tried
/// again. Where there are no slots, all of it is freed, which asks for nothing.
#[inline(never)]
fn shrink(slots: &mut Vec<Slot>, hints: &mut Vec<u32>)
    ensures { slots.new.items ≡ slots.old.items }
{
    let count = slots.len();
    drop_hints(hints, slots);
    hints.shrink_to_fit();
    if hints.capacity() == hints.len() {
        slots.shrink_to(count.saturating_mul(2));
    }
}

/// Where there are no slots, frees their memory, if it is much. This asks the system for nothing.
pub(crate) fn free_empty(slots: &mut Vec<Slot>, hints: &mut Vec<u32>)
    ensures { slots.new.items ≡ slots.old.items }
{
    if slots.is_empty() {
        give_back(slots, hints);
    }
}

/// Every thread that waits on the object is back, notified.
pub(crate) fn notify_slots(slots: &mut [Slot], object: ObjectId)
    ensures { slots.new ≡ list_map (notified_slot object) slots.old }
{
    for slot in slots.iter_mut() {
        notify_slot(slot, object);
    }
}

/// The thread is back, notified, if it waits on the object. Else nothing is written.
fn notify_slot(slot: &mut Slot, object: ObjectId)
    ensures { slot.new ≡ notified_slot object slot.old }
{
    match slot.kept.live.act {
        Doing::Waits {
            object: awaited,
            holds,
            ..
        } if awaited.0 == object.0 => {
            slot.kept.live.act = Doing::Back {
                object: awaited,
                holds,
                why: Why::Notified,
            };
        }
        _ => {}
    }
}
