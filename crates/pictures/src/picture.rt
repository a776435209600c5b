//! A picture: lanes, strips, arrows and marks.

use crate::columns::Refusal;
use fast_path::Call;
use fat_monitor::Reply;
use jls_check::{Held, Live};
use lock_word::{ObjectId, ThreadId, Word};

/// Some columns in which one thing is said of a thread.
#[derive(Clone, Copy)]
pub struct Span {
    /// How many columns, from the end of the span in front of it on.
    pub columns: u32,
    /// Its flag and what it is doing; None where it is not live.
    pub live: Option<Live>,
}

/// A call, at the column in which it is made, from 0.
#[derive(Clone, Copy)]
pub struct CallMark {
    pub column: u32,
    pub call: Call,
}

/// A reply, at the column in which its call returns, from 0.
#[derive(Clone, Copy)]
pub struct ReplyMark {
    pub column: u32,
    pub reply: Reply,
}

/// What is said of a thread, column by column.
#[derive(Drop)]
pub struct Lane {
    pub thread: ThreadId,
    /// From the first column to the last, without a gap.
    pub spans: Vec<Span>,
    /// The calls that it makes, by column.
    pub calls: Vec<CallMark>,
    /// The replies of its calls that return, by column.
    pub replies: Vec<ReplyMark>,
}

/// Some columns in which one thing is said of an object.
#[derive(Clone, Copy)]
pub struct StripSpan {
    /// How many columns, from the end of the span in front of it on.
    pub columns: u32,
    /// Who owns its monitor, and how many times it is locked.
    pub held: Held,
    /// Its header word, where a script is drawn.
    pub word: Option<Word>,
}

/// What is said of an object, column by column.
#[derive(Drop)]
pub struct Strip {
    pub object: ObjectId,
    /// From the first column to the last, without a gap.
    pub spans: Vec<StripSpan>,
}

/// Why an arrow leads from one thread to another.
#[derive(Clone, Copy, PartialEq, Eq)]
pub enum ArrowKind {
    /// The one took the other out of the wait set, by a notify or a notifyAll.
    Notify,
    /// The one interrupted the other.
    Interrupt,
    /// The one gave up a monitor, and the other is the next that owns it.
    HandOver,
}

/// An arrow from a thread in one column to a thread in this one or a later one.
#[derive(Clone, Copy)]
pub struct Arrow {
    pub kind: ArrowKind,
    pub from_column: u32,
    pub from: ThreadId,
    pub to_column: u32,
    pub to: ThreadId,
}

/// A moment that is told, in nanoseconds, at its column, from 0.
#[derive(Clone, Copy)]
pub struct MomentMark {
    pub column: u32,
    pub now: u64,
}

/// What is refused, at its column, from 0.
#[derive(Clone, Copy)]
pub struct RefusalMark {
    pub column: u32,
    pub refusal: Refusal,
}

/// A history as a picture. A column shows the state behind its moves.
#[derive(Drop)]
pub struct Picture {
    /// The number of the first column in the whole history, from 1.
    pub first: u32,
    /// How many columns there are.
    pub columns: u32,
    /// One for each thread that is live before the first column or in some column, by rising
    /// number.
    pub lanes: Vec<Lane>,
    /// One for each object that is drawn, by rising number.
    pub strips: Vec<Strip>,
    /// In the order of the moves that end them.
    pub arrows: Vec<Arrow>,
    /// In the order of columns.
    pub moments: Vec<MomentMark>,
    /// In the order of columns.
    pub refusals: Vec<RefusalMark>,
    /// The cycles of owners in the last column, each from its lowest thread on.
    pub cycles: Vec<Vec<ThreadId>>,
}
