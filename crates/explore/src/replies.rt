//! The replies of the calls of a program, each with its number.

ghost use Rattle.std.specs.Prelude.{◌≡◌, ◌<◌, [], IfOk, OnErr, OnOk, Some, None, length};
ghost use Rattle.std.specs.Prelude.{map, replicate, slice_set};
ghost use Rattle.explore.specs.Codes.{answer_number};

use fat_monitor::Reply;
use lock_word::Memory;
use std::alloc::{AllocError, Global};
use std::marker::Model;

/// The reply of each call of a program, if it has one, and its number beside it: the numbers are
/// asked for more often than a reply is noted.
#[derive(Drop)]
pub(crate) struct NumberedReplies {
    replies: Vec<Option<Reply>>,
    // Of each reply; 0 where there is none.
    numbers: Vec<u8>,
}

impl Model for NumberedReplies {
    ghost use Rattle.std.specs.Prelude.{◌≡◌, List, Option, map};
    ghost use Rattle.fat_monitor.specs.declared.actions.Reply.{Reply};
    ghost use Rattle.explore.specs.Codes.{answer_number};

    ghost Value = { List (Option Reply) };

    ghost view = { λ a. a.replies.items };

    ghost invariant = { λ a. a.numbers.items ≡ map answer_number a.replies.items };
}

impl NumberedReplies {
    /// No reply yet, to this many calls.
    pub(crate) fn none(alloc: Global, count: usize) -> Result<NumberedReplies, Memory>
        ensures { IfOk result (λ a. a ≡ replicate count None) }
    {
        Ok(NumberedReplies {
            replies: vec![in alloc; None; count]?,
            numbers: vec![in alloc; 0; count]?,
        })
    }

    /// The reply of each call; None where it has none yet.
    pub(crate) fn as_slice(&self) -> &[Option<Reply>]
        ensures { result.now ≡ self.now }
    {
        &self.replies
    }

    /// The number of each reply, 0 where there is none.
    pub(crate) fn numbers(&self) -> &[u8]
        ensures { result.now ≡ map answer_number self.now }
    {
        &self.numbers
    }

    /// How many calls there are.
    pub(crate) fn len(&self) -> usize
        ensures { result ≡ length self.now }
    {
        self.replies.len()
    }

    /// Notes the reply of the call that stands at a position.
    pub(crate) fn note(&mut self, at: usize, reply: Reply)
        requires { at < length self.old }
        ensures { self.new ≡ slice_set self.old at (Some reply) }
    {
        self.replies[at] = Some(reply);
        self.numbers[at] = reply.number() + 1;
    }

    /// A copy.
    pub(crate) fn copy(&self) -> Result<NumberedReplies, AllocError>
        ensures { IfOk result (λ a. a ≡ self.now) }
    {
        let alloc = *self.replies.allocator();
        Ok(NumberedReplies {
            replies: Vec::from_slice(alloc, &self.replies)?,
            numbers: Vec::from_slice(alloc, &self.numbers)?,
        })
    }

    /// Makes `copy` the same, in the memory that it has. On want of memory it has no call.
    pub(crate) fn copy_into(&self, copy: &mut NumberedReplies) -> Result<(), AllocError>
        ensures same { OnOk result (copy.new ≡ self.now) }
        ensures empty { OnErr result (copy.new ≡ []) }
    {
        copy.replies.clear();
        copy.numbers.clear();
        copy.numbers.extend_from_slice(&self.numbers)?;
        let copied = copy.replies.extend_from_slice(&self.replies);
        if copied.is_err() {
            copy.numbers.clear();
        }
        copied
    }
}
