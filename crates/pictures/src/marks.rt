//! The marks of columns: calls, replies, moments and refusals.

ghost use Rattle.std.specs.Prelude.{◌≡◌, ◌≤◌, ◌<◌, ◌+◌, ◌^◌, ◌++◌, OnOk, IfOk, length};
ghost use Rattle.pictures.specs.Made.{call_made, calls_made, calls_made_in, own_call, own_calls};
ghost use Rattle.pictures.specs.Made.{own_replies, own_reply, replies_made, replies_made_in};
ghost use Rattle.pictures.specs.Made.{reply_made};
ghost use Rattle.pictures.specs.Marks.{moment_mark, moment_marks, moment_marks_in};
ghost use Rattle.pictures.specs.Marks.{refusal_mark, refusal_marks};

use crate::columns::{Column, Refusal};
use crate::picture::{CallMark, MomentMark, RefusalMark, ReplyMark};
use lock_word::ThreadId;
use std::alloc::{AllocError, Global};
use step_core::Move;

/// A call at its column, and who makes it.
#[derive(Clone, Copy)]
pub(crate) struct CallMade {
    pub(crate) thread: ThreadId,
    pub(crate) mark: CallMark,
}

/// A reply at its column, and whose call it is.
#[derive(Clone, Copy)]
pub(crate) struct ReplyMade {
    pub(crate) thread: ThreadId,
    pub(crate) mark: ReplyMark,
}

/// The calls that are made, each at its column and with who makes it.
pub(crate) fn calls_made(alloc: Global, columns: &[Column]) -> Result<Vec<CallMade>, AllocError>
    requires { length columns.now < 2 ^ 32 }
    ensures { IfOk result (λ made. made.items ≡ calls_made 0 columns.now) }
{
    let mut made = Vec::new(alloc);
    let mut number = 0u32;
    'columns: for column in columns {
        put_calls(&mut made, &column.moves, number)?;
        number += 1;
    }
    Ok(made)
}

fn put_calls(
    made: &mut Vec<CallMade>,
    moves: &[Option<Move>],
    column: u32,
) -> Result<(), AllocError>
    ensures { OnOk result (made.new.items
        ≡ made.old.items ++ calls_made_in column moves.now) }
{
    'moves: for one in moves {
        put_call(made, *one, column)?;
    }
    Ok(())
}

fn put_call(made: &mut Vec<CallMade>, one: Option<Move>, column: u32) -> Result<(), AllocError>
    ensures { OnOk result (made.new.items ≡ made.old.items ++ call_made column one) }
{
    if let Some(Move::Call { thread, call }) = one {
        made.push(CallMade {
            thread,
            mark: CallMark { column, call },
        })?;
    }
    Ok(())
}

/// Those of some calls that a thread makes.
pub(crate) fn calls_of(
    alloc: Global,
    made: &[CallMade],
    thread: ThreadId,
) -> Result<Vec<CallMark>, AllocError>
    ensures { IfOk result (λ calls. calls.items ≡ own_calls thread made.now) }
{
    let mut calls = Vec::new(alloc);
    'made: for one in made {
        put_own_call(&mut calls, *one, thread)?;
    }
    Ok(calls)
}

fn put_own_call(
    calls: &mut Vec<CallMark>,
    made: CallMade,
    thread: ThreadId,
) -> Result<(), AllocError>
    ensures { OnOk result (calls.new.items ≡ calls.old.items ++ own_call thread made) }
{
    if made.thread.0 == thread.0 {
        calls.push(made.mark)?;
    }
    Ok(())
}

/// The replies of calls that return, each at its column and with whose call it is.
pub(crate) fn replies_made(alloc: Global, columns: &[Column]) -> Result<Vec<ReplyMade>, AllocError>
    requires { length columns.now < 2 ^ 32 }
    ensures { IfOk result (λ made. made.items ≡ replies_made 0 columns.now) }
{
    let mut made = Vec::new(alloc);
    let mut number = 0u32;
    'columns: for column in columns {
        put_replies(&mut made, &column.moves, number)?;
        number += 1;
    }
    Ok(made)
}

fn put_replies(
    made: &mut Vec<ReplyMade>,
    moves: &[Option<Move>],
    column: u32,
) -> Result<(), AllocError>
    ensures { OnOk result (made.new.items
        ≡ made.old.items ++ replies_made_in column moves.now) }
{
    'moves: for one in moves {
        put_reply(made, *one, column)?;
    }
    Ok(())
}

fn put_reply(made: &mut Vec<ReplyMade>, one: Option<Move>, column: u32) -> Result<(), AllocError>
    ensures { OnOk result (made.new.items ≡ made.old.items ++ reply_made column one) }
{
    if let Some(Move::Return { thread, reply }) = one {
        made.push(ReplyMade {
            thread,
            mark: ReplyMark { column, reply },
        })?;
    }
    Ok(())
}

/// Those of some replies that a thread has.
pub(crate) fn replies_of(
    alloc: Global,
    made: &[ReplyMade],
    thread: ThreadId,
) -> Result<Vec<ReplyMark>, AllocError>
    ensures { IfOk result (λ replies. replies.items ≡ own_replies thread made.now) }
{
    let mut replies = Vec::new(alloc);
    'made: for one in made {
        put_own_reply(&mut replies, *one, thread)?;
    }
    Ok(replies)
}

fn put_own_reply(
    replies: &mut Vec<ReplyMark>,
    made: ReplyMade,
    thread: ThreadId,
) -> Result<(), AllocError>
    ensures { OnOk result (replies.new.items ≡ replies.old.items ++ own_reply thread made) }
{
    if made.thread.0 == thread.0 {
        replies.push(made.mark)?;
    }
    Ok(())
}

/// The moments that are told, each at its column.
pub(crate) fn moments_of(alloc: Global, columns: &[Column]) -> Result<Vec<MomentMark>, AllocError>
    requires { length columns.now < 2 ^ 32 }
    ensures { IfOk result (λ moments. moments.items ≡ moment_marks 0 columns.now) }
{
    let mut moments = Vec::new(alloc);
    let mut number = 0u32;
    'columns: for column in columns {
        put_moments(&mut moments, &column.moves, number)?;
        number += 1;
    }
    Ok(moments)
}

fn put_moments(
    moments: &mut Vec<MomentMark>,
    moves: &[Option<Move>],
    column: u32,
) -> Result<(), AllocError>
    ensures { OnOk result (moments.new.items
        ≡ moments.old.items ++ moment_marks_in column moves.now) }
{
    'moves: for made in moves {
        put_moment(moments, *made, column)?;
    }
    Ok(())
}

fn put_moment(
    moments: &mut Vec<MomentMark>,
    made: Option<Move>,
    column: u32,
) -> Result<(), AllocError>
    ensures { OnOk result (moments.new.items ≡ moments.old.items ++ moment_mark column made) }
{
    if let Some(Move::Time { now }) = made {
        moments.push(MomentMark { column, now })?;
    }
    Ok(())
}

/// What is refused, each at its column.
pub(crate) fn refusals_of(alloc: Global, columns: &[Column]) -> Result<Vec<RefusalMark>, AllocError>
    requires { length columns.now < 2 ^ 32 }
    ensures { IfOk result (λ refusals. refusals.items ≡ refusal_marks 0 columns.now) }
{
    let mut refusals = Vec::new(alloc);
    let mut number = 0u32;
    'columns: for column in columns {
        put_refusal(&mut refusals, column.refusal, number)?;
        number += 1;
    }
    Ok(refusals)
}

fn put_refusal(
    refusals: &mut Vec<RefusalMark>,
    refusal: Option<Refusal>,
    column: u32,
) -> Result<(), AllocError>
    ensures { OnOk result (refusals.new.items
        ≡ refusals.old.items ++ refusal_mark column refusal) }
{
    if let Some(refusal) = refusal {
        refusals.push(RefusalMark { column, refusal })?;
    }
    Ok(())
}
