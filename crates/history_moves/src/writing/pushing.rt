//! Adding the text of a move to a history, piece by piece. Each kind of move has its own front as a
//! constant, with all the keys and words that it has for sure: so a line is a copy of one or two
//! constants with digits between them. That makes some functions long, and a history a good deal
//! cheaper to write than through a JSON value.

ghost use Rattle.std.specs.Prelude.{◌≡◌, ◌++◌, codes, decimal, OnOk, OnErr};
ghost use Rattle.std.specs.Fmt.{signed_decimal};
ghost use Rattle.serde_json.specs.Written.{compact_text};
ghost use Rattle.fat_monitor.specs.declared.actions.Reply.TheVariants as reply;
ghost use Rattle.step_core.specs.declared.machine.Move.TheVariants as move;
ghost use Rattle.history_moves.specs.Moves.{data_of};
ghost use Rattle.history_moves.specs.Texts.{IsFrontOf, one_text, two_text, wait_text};

use fast_path::Call;
use fat_monitor::{Cause, Reply};
use itoa::Buffer;
use lock_word::{Memory, ObjectId, ThreadId};
use std::alloc::AllocError;
use step_core::Move;

/// Adds the line of a move, which is its compact text with keys in byte order, without its line
/// feed. It is the text of [`move_line`](crate::move_line), with no string of its own: memory is
/// asked for only where the bytes have no room left. The room that they have may have grown also
/// where memory was wanting.
pub fn push_move(text: &mut Vec<u8>, made: &Move) -> Result<(), Memory>
    ensures told { OnOk result (text.new.items
        ≡ text.old.items ++ compact_text (data_of made.now)) }
    ensures kept { OnErr result (text.new.items ≡ text.old.items) }
{
    let before = text.len();
    if push_made(text, *made).is_err() {
        text.truncate(before);
        return Err(Memory);
    }
    Ok(())
}

/// Adds the digits of a number.
#[inline]
fn push_number(text: &mut Vec<u8>, number: u64) -> Result<(), AllocError>
    ensures told { OnOk result (text.new.items ≡ text.old.items ++ decimal number) }
    ensures front { OnErr result (IsFrontOf text.old.items text.new.items) }
{
    let mut digits = Buffer::new();
    text.extend_from_slice(digits.format(number).as_bytes())
}

/// Adds a front, a number, and the end of the object.
#[inline]
#[tactic(auto, using(crate::proofs::Fronts::front_after))]
fn push_long(text: &mut Vec<u8>, front: &[u8], number: u64) -> Result<(), AllocError>
    ensures told { OnOk result (text.new.items ≡ text.old.items ++ one_text front.now number) }
    ensures front { OnErr result (IsFrontOf text.old.items text.new.items) }
{
    text.extend_from_slice(front)?;
    push_number(text, number)?;
    text.extend_from_slice(b"}")
}

/// The same with a number of 32 bits.
#[inline]
fn push_one(text: &mut Vec<u8>, front: &[u8], number: u32) -> Result<(), AllocError>
    ensures told { OnOk result (text.new.items ≡ text.old.items ++ one_text front.now number) }
    ensures front { OnErr result (IsFrontOf text.old.items text.new.items) }
{
    push_long(text, front, u64::from(number))
}

/// Adds a front, a number, a piece, another number, and the end of the object.
#[inline]
#[tactic(auto, using(crate::proofs::Fronts::front_after))]
fn push_two(
    text: &mut Vec<u8>,
    front: &[u8],
    first: u32,
    middle: &[u8],
    second: u32,
) -> Result<(), AllocError>
    ensures told { OnOk result (text.new.items
        ≡ text.old.items ++ two_text front.now first middle.now second) }
    ensures front { OnErr result (IsFrontOf text.old.items text.new.items) }
{
    text.extend_from_slice(front)?;
    push_number(text, u64::from(first))?;
    push_one(text, middle, second)
}

/// Adds a front and a number that may be negative.
fn push_signed(text: &mut Vec<u8>, front: &[u8], number: i64) -> Result<(), AllocError>
    ensures told { OnOk result (text.new.items
        ≡ text.old.items ++ (front.now ++ signed_decimal number)) }
    ensures front { OnErr result (IsFrontOf text.old.items text.new.items) }
{
    text.extend_from_slice(front)?;
    let mut digits = Buffer::new();
    text.extend_from_slice(digits.format(number).as_bytes())
}

/// The same with a number of 32 bits.
fn push_small_signed(text: &mut Vec<u8>, front: &[u8], number: i32) -> Result<(), AllocError>
    ensures told { OnOk result (text.new.items
        ≡ text.old.items ++ (front.now ++ signed_decimal number)) }
    ensures front { OnErr result (IsFrontOf text.old.items text.new.items) }
{
    let mut digits = Buffer::new();
    text.extend_from_slice(front)?;
    text.extend_from_slice(digits.format(number).as_bytes())
}

/// Adds a wait.
#[tactic(auto, using(crate::proofs::Fronts::front_after))]
fn push_wait(
    text: &mut Vec<u8>,
    object: ObjectId,
    millis: i64,
    nanos: i32,
    thread: ThreadId,
) -> Result<(), AllocError>
    ensures told { OnOk result (text.new.items
        ≡ text.old.items ++ wait_text object millis nanos thread) }
    ensures front { OnErr result (IsFrontOf text.old.items text.new.items) }
{
    push_signed(text, b"{\"call\":\"Wait\",\"millis\":", millis)?;
    push_small_signed(text, b",\"move\":\"Call\",\"nanos\":", nanos)?;
    push_two(text, b",\"object\":", object.0, b",\"thread\":", thread.0)
}

/// Adds a call.
fn push_call(text: &mut Vec<u8>, call: Call, thread: ThreadId) -> Result<(), AllocError>
    ensures told { OnOk result (text.new.items
        ≡ text.old.items ++ compact_text (data_of (move.Call thread call))) }
    ensures front { OnErr result (IsFrontOf text.old.items text.new.items) }
{
    let number = thread.0;
    let end = b",\"thread\":";
    match call {
        Call::Enter(object) => push_two(
            text,
            b"{\"call\":\"Enter\",\"move\":\"Call\",\"object\":",
            object.0,
            end,
            number,
        ),
        Call::Exit(object) => push_two(
            text,
            b"{\"call\":\"Exit\",\"move\":\"Call\",\"object\":",
            object.0,
            end,
            number,
        ),
        Call::Notify(object) => push_two(
            text,
            b"{\"call\":\"Notify\",\"move\":\"Call\",\"object\":",
            object.0,
            end,
            number,
        ),
        Call::NotifyAll(object) => push_two(
            text,
            b"{\"call\":\"NotifyAll\",\"move\":\"Call\",\"object\":",
            object.0,
            end,
            number,
        ),
        Call::Holds(object) => push_two(
            text,
            b"{\"call\":\"Holds\",\"move\":\"Call\",\"object\":",
            object.0,
            end,
            number,
        ),
        Call::Wait {
            object,
            millis,
            nanos,
        } => push_wait(text, object, millis, nanos, thread),
        Call::Interrupt(target) => push_two(
            text,
            b"{\"call\":\"Interrupt\",\"move\":\"Call\",\"target\":",
            target.0,
            end,
            number,
        ),
        Call::IsInterrupted(target) => push_two(
            text,
            b"{\"call\":\"IsInterrupted\",\"move\":\"Call\",\"target\":",
            target.0,
            end,
            number,
        ),
        Call::Interrupted => push_one(
            text,
            b"{\"call\":\"Interrupted\",\"move\":\"Call\",\"thread\":",
            number,
        ),
        Call::End => push_one(
            text,
            b"{\"call\":\"End\",\"move\":\"Call\",\"thread\":",
            number,
        ),
    }
}

/// Adds a return. Each reply has its own front: see above.
fn push_return(text: &mut Vec<u8>, reply: Reply, thread: ThreadId) -> Result<(), AllocError>
    ensures told { OnOk result (text.new.items
        ≡ text.old.items ++ compact_text (data_of (move.Return thread reply))) }
    ensures front { OnErr result (IsFrontOf text.old.items text.new.items) }
{
    let number = thread.0;
    match reply {
        Reply::Entered => push_one(
            text,
            b"{\"move\":\"Return\",\"reply\":\"Entered\",\"thread\":",
            number,
        ),
        Reply::Exited => push_one(
            text,
            b"{\"move\":\"Return\",\"reply\":\"Exited\",\"thread\":",
            number,
        ),
        Reply::WaitOver => push_one(
            text,
            b"{\"move\":\"Return\",\"reply\":\"WaitOver\",\"thread\":",
            number,
        ),
        Reply::Interrupted => push_one(
            text,
            b"{\"move\":\"Return\",\"reply\":\"Interrupted\",\"thread\":",
            number,
        ),
        Reply::Notified => push_one(
            text,
            b"{\"move\":\"Return\",\"reply\":\"Notified\",\"thread\":",
            number,
        ),
        Reply::Yes => push_one(
            text,
            b"{\"move\":\"Return\",\"reply\":\"Yes\",\"thread\":",
            number,
        ),
        Reply::No => push_one(
            text,
            b"{\"move\":\"Return\",\"reply\":\"No\",\"thread\":",
            number,
        ),
        Reply::Done => push_one(
            text,
            b"{\"move\":\"Return\",\"reply\":\"Done\",\"thread\":",
            number,
        ),
        Reply::Ended => push_one(
            text,
            b"{\"move\":\"Return\",\"reply\":\"Ended\",\"thread\":",
            number,
        ),
        Reply::IllegalMonitorState => push_one(
            text,
            b"{\"move\":\"Return\",\"reply\":\"IllegalMonitorState\",\"thread\":",
            number,
        ),
        Reply::IllegalArgument => push_one(
            text,
            b"{\"move\":\"Return\",\"reply\":\"IllegalArgument\",\"thread\":",
            number,
        ),
        Reply::Refused(cause) => push_refused(text, cause, thread),
    }
}

/// Adds the return of a call that was refused.
fn push_refused(text: &mut Vec<u8>, cause: Cause, thread: ThreadId) -> Result<(), AllocError>
    ensures told { OnOk result (text.new.items
        ≡ text.old.items ++ compact_text (data_of (move.Return thread (reply.Refused cause)))) }
    ensures front { OnErr result (IsFrontOf text.old.items text.new.items) }
{
    let number = thread.0;
    match cause {
        Cause::NoMonitor => push_one(
            text,
            b"{\"cause\":\"NoMonitor\",\"move\":\"Return\",\"reply\":\"Refused\",\"thread\":",
            number,
        ),
        Cause::Memory => push_one(
            text,
            b"{\"cause\":\"Memory\",\"move\":\"Return\",\"reply\":\"Refused\",\"thread\":",
            number,
        ),
        Cause::TooDeep => push_one(
            text,
            b"{\"cause\":\"TooDeep\",\"move\":\"Return\",\"reply\":\"Refused\",\"thread\":",
            number,
        ),
        Cause::StillOwner => push_one(
            text,
            b"{\"cause\":\"StillOwner\",\"move\":\"Return\",\"reply\":\"Refused\",\"thread\":",
            number,
        ),
        Cause::NoThread => push_one(
            text,
            b"{\"cause\":\"NoThread\",\"move\":\"Return\",\"reply\":\"Refused\",\"thread\":",
            number,
        ),
    }
}

/// Adds a refusal.
fn push_refuse(text: &mut Vec<u8>, cause: Cause, thread: ThreadId) -> Result<(), AllocError>
    ensures told { OnOk result (text.new.items
        ≡ text.old.items ++ compact_text (data_of (move.Refuse thread cause))) }
    ensures front { OnErr result (IsFrontOf text.old.items text.new.items) }
{
    let number = thread.0;
    match cause {
        Cause::NoMonitor => push_one(
            text,
            b"{\"cause\":\"NoMonitor\",\"move\":\"Refuse\",\"thread\":",
            number,
        ),
        Cause::Memory => push_one(
            text,
            b"{\"cause\":\"Memory\",\"move\":\"Refuse\",\"thread\":",
            number,
        ),
        Cause::TooDeep => push_one(
            text,
            b"{\"cause\":\"TooDeep\",\"move\":\"Refuse\",\"thread\":",
            number,
        ),
        Cause::StillOwner => push_one(
            text,
            b"{\"cause\":\"StillOwner\",\"move\":\"Refuse\",\"thread\":",
            number,
        ),
        Cause::NoThread => push_one(
            text,
            b"{\"cause\":\"NoThread\",\"move\":\"Refuse\",\"thread\":",
            number,
        ),
    }
}

/// Adds a notify.
fn push_notify(
    text: &mut Vec<u8>,
    chosen: Option<ThreadId>,
    thread: ThreadId,
) -> Result<(), AllocError>
    ensures told { OnOk result (text.new.items
        ≡ text.old.items ++ compact_text (data_of (move.Notify thread chosen))) }
    ensures front { OnErr result (IsFrontOf text.old.items text.new.items) }
{
    let number = thread.0;
    match chosen {
        Some(chosen) => push_two(
            text,
            b"{\"chosen\":",
            chosen.0,
            b",\"move\":\"Notify\",\"thread\":",
            number,
        ),
        None => push_one(
            text,
            b"{\"chosen\":null,\"move\":\"Notify\",\"thread\":",
            number,
        ),
    }
}

/// Adds a move. Each kind has its own front: see above.
fn push_made(text: &mut Vec<u8>, made: Move) -> Result<(), AllocError>
    ensures told { OnOk result (text.new.items ≡ text.old.items ++ compact_text (data_of made)) }
    ensures front { OnErr result (IsFrontOf text.old.items text.new.items) }
{
    match made {
        Move::Attach { thread } => push_one(text, b"{\"move\":\"Attach\",\"thread\":", thread.0),
        Move::Lock { thread } => push_one(text, b"{\"move\":\"Lock\",\"thread\":", thread.0),
        Move::Unlock { thread } => push_one(text, b"{\"move\":\"Unlock\",\"thread\":", thread.0),
        Move::Illegal { thread } => push_one(text, b"{\"move\":\"Illegal\",\"thread\":", thread.0),
        Move::BadArgument { thread } => push_one(
            text,
            b"{\"move\":\"BadArgument\",\"thread\":",
            thread.0,
        ),
        Move::Early { thread } => push_one(text, b"{\"move\":\"Early\",\"thread\":", thread.0),
        Move::Wait { thread } => push_one(text, b"{\"move\":\"Wait\",\"thread\":", thread.0),
        Move::NotifyAll { thread } => push_one(
            text,
            b"{\"move\":\"NotifyAll\",\"thread\":",
            thread.0,
        ),
        Move::Interrupt { thread } => push_one(
            text,
            b"{\"move\":\"Interrupt\",\"thread\":",
            thread.0,
        ),
        Move::TestClear { thread } => push_one(
            text,
            b"{\"move\":\"TestClear\",\"thread\":",
            thread.0,
        ),
        Move::Ask { thread } => push_one(text, b"{\"move\":\"Ask\",\"thread\":", thread.0),
        Move::Expire { thread } => push_one(text, b"{\"move\":\"Expire\",\"thread\":", thread.0),
        Move::Spurious { thread } => push_one(
            text,
            b"{\"move\":\"Spurious\",\"thread\":",
            thread.0,
        ),
        Move::Relock { thread } => push_one(text, b"{\"move\":\"Relock\",\"thread\":", thread.0),
        Move::End { thread } => push_one(text, b"{\"move\":\"End\",\"thread\":", thread.0),
        Move::Call { thread, call } => push_call(text, call, thread),
        Move::Return { thread, reply } => push_return(text, reply, thread),
        Move::Notify { thread, chosen } => push_notify(text, chosen, thread),
        Move::Refuse { thread, cause } => push_refuse(text, cause, thread),
        Move::Time { now } => push_long(text, b"{\"move\":\"Time\",\"now\":", now),
    }
}
