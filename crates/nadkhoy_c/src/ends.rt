//! The end of a live service for programs in C: its words, its record and its counts, which are
//! read by index.

ghost use Rattle.std.specs.Prelude.{◌≡◌, None};
ghost use Rattle.nadkhoy_c.specs.Ends.{deed_shown, end_free_status, end_sizes_shown, pass_shown, read_end, word_shown};

mod raw;
mod reading;
mod slot;

use crate::plain::{PlainDeed, PlainEnd, PlainPass};
use crate::status::Status;
pub use raw::RawEnd;
pub(crate) use reading::closing_status;
pub use slot::EndSlot;
use std::alloc::Global;

/// Writes how many objects, deeds and passes the service had.
///
/// Answers Closed or Done.
#[unsafe(no_mangle)]
pub extern "C" fn nadkhoy_end_sizes(alloc: Global, slot: &mut EndSlot, sizes: &mut PlainEnd) -> u32
    ensures exact { record { answer = result; out = sizes.new }
        ≡ read_end end_sizes_shown slot.old.raw.value sizes.old }
    ensures kept { slot.new.raw.value ≡ slot.old.raw.value }
{
    let Some(end) = slot.take(alloc) else {
        return Status::Closed.number();
    };
    *sizes = reading::end_sizes(&end);
    let status = Status::Done.number();
    *slot = EndSlot::of_box(end);
    status
}

/// Writes the word that an object had in the end.
///
/// Answers Closed, NoObject or Done, and writes only then.
#[unsafe(no_mangle)]
pub extern "C" fn nadkhoy_end_word(
    alloc: Global,
    slot: &mut EndSlot,
    object: u32,
    word: &mut u32,
) -> u32
    ensures exact { record { answer = result; out = word.new }
        ≡ read_end (λ e x. word_shown e object x) slot.old.raw.value word.old }
    ensures kept { slot.new.raw.value ≡ slot.old.raw.value }
{
    let Some(end) = slot.take(alloc) else {
        return Status::Closed.number();
    };
    let status = reading::word(&end, object, word);
    *slot = EndSlot::of_box(end);
    status
}

/// Writes the deed of the record that has an index, of which the first is 0.
///
/// Answers Closed, NoDeed or Done, and writes only then.
#[unsafe(no_mangle)]
pub extern "C" fn nadkhoy_end_deed(
    alloc: Global,
    slot: &mut EndSlot,
    index: u32,
    deed: &mut PlainDeed,
) -> u32
    ensures exact { record { answer = result; out = deed.new }
        ≡ read_end (λ e x. deed_shown e index x) slot.old.raw.value deed.old }
    ensures kept { slot.new.raw.value ≡ slot.old.raw.value }
{
    let Some(end) = slot.take(alloc) else {
        return Status::Closed.number();
    };
    let status = reading::deed(&end, index, deed);
    *slot = EndSlot::of_box(end);
    status
}

/// Writes how many deeds a pass did, and the number of its thread. The passes have the indices from
/// 0 on, in no order.
///
/// Answers Closed, NoPass or Done, and writes only then.
#[unsafe(no_mangle)]
pub extern "C" fn nadkhoy_end_pass(
    alloc: Global,
    slot: &mut EndSlot,
    index: u32,
    pass: &mut PlainPass,
) -> u32
    ensures exact { record { answer = result; out = pass.new }
        ≡ read_end (λ e x. pass_shown e index x) slot.old.raw.value pass.old }
    ensures kept { slot.new.raw.value ≡ slot.old.raw.value }
{
    let Some(end) = slot.take(alloc) else {
        return Status::Closed.number();
    };
    let status = reading::pass(&end, index, pass);
    *slot = EndSlot::of_box(end);
    status
}

/// Gives the end back, and leaves the slot empty.
///
/// Answers Closed or Done.
#[unsafe(no_mangle)]
pub extern "C" fn nadkhoy_end_free(alloc: Global, slot: &mut EndSlot) -> u32
    ensures status { result ≡ end_free_status slot.old.raw.value }
    ensures empty { slot.new.raw.value ≡ None }
{
    match slot.take(alloc) {
        Some(_) => Status::Done.number(),
        None => Status::Closed.number(),
    }
}
