//! The members of an object that were gathered one by one, with no value on the heap.

ghost use Rattle.std.specs.Prelude.{◌≡◌, ◌++◌, IfSome, IsTrue};
ghost use Rattle.serde_json.specs.Data.{object as object_data, string};
ghost use Rattle.history_moves.specs.Moves.{of_number};
ghost use Rattle.history_moves.specs.Reading.{move_from};
ghost use Rattle.history_moves.specs.GatheredMembers.{members_in, nothing, Takes, Fills, IsCounted};
ghost use Rattle.history_moves.specs.GatheredMembers.{key_text, scalar_data, choice};

use crate::pieces::behind;
use crate::values::members::{Fields, short_signed, small_number};
use crate::values::reading::move_named;
use lock_word::ThreadId;
use step_core::Move;

/// The most members of a move.
const MOST_MEMBERS: usize = 6;

/// The keys that members of moves have.
#[derive(Clone, Copy, Drop)]
pub(crate) enum Key {
    Thread,
    Move,
    Call,
    Object,
    Reply,
    Target,
    Millis,
    Nanos,
    Cause,
    Chosen,
    Now,
}

/// The value of a member, as moves have them.
#[derive(Clone, Copy, Drop)]
pub(crate) enum Scalar<'a> {
    Text(&'a [u8]),
    Number(u64),
    Null,
}

/// The members of an object as far as they were read. Each has its key once, the last value that it
/// had there, and one of the kind that a move has there.
#[derive(Clone, Copy, Drop)]
pub(crate) struct GatheredMembers<'a> {
    count: usize,
    name: Option<&'a [u8]>,
    verb: Option<&'a [u8]>,
    reply: Option<&'a [u8]>,
    cause: Option<&'a [u8]>,
    thread: Option<u64>,
    object: Option<u64>,
    target: Option<u64>,
    now: Option<u64>,
    millis: Option<u64>,
    nanos: Option<u64>,
    // None in it stands for null.
    chosen: Option<Option<u64>>,
}

/// The key that comes first, and what stands behind it. No key begins with another, so the first
/// that fits is the only one.
#[inline(always)]
pub(crate) fn key_front(bytes: &[u8]) -> Option<(Key, &[u8])>
    ensures { IfSome result (λ r. bytes.now ≡ key_text r.0 ++ r.1.now) }
{
    if let Some(rest) = behind(bytes, b"thread") {
        return Some((Key::Thread, rest));
    }
    if let Some(rest) = behind(bytes, b"move") {
        return Some((Key::Move, rest));
    }
    if let Some(rest) = behind(bytes, b"call") {
        return Some((Key::Call, rest));
    }
    if let Some(rest) = behind(bytes, b"object") {
        return Some((Key::Object, rest));
    }
    if let Some(rest) = behind(bytes, b"reply") {
        return Some((Key::Reply, rest));
    }
    if let Some(rest) = behind(bytes, b"target") {
        return Some((Key::Target, rest));
    }
    if let Some(rest) = behind(bytes, b"millis") {
        return Some((Key::Millis, rest));
    }
    if let Some(rest) = behind(bytes, b"nanos") {
        return Some((Key::Nanos, rest));
    }
    if let Some(rest) = behind(bytes, b"cause") {
        return Some((Key::Cause, rest));
    }
    if let Some(rest) = behind(bytes, b"chosen") {
        return Some((Key::Chosen, rest));
    }
    Some((Key::Now, behind(bytes, b"now")?))
}

/// Fills a field with a value, and counts it where there was none. False: there was none, and there
/// are as many members as a move can have.
#[inline(always)]
fn fill<T: Copy>(count: &mut usize, slot: &mut Option<T>, value: T) -> bool
    ensures { IsTrue result → Fills slot.old value slot.new count.old count.new }
{
    if slot.is_none() {
        if *count >= MOST_MEMBERS {
            return false;
        }
        *count += 1;
    }
    *slot = Some(value);
    true
}

impl<'a> GatheredMembers<'a> {
    /// No member.
    #[inline(always)]
    pub(crate) fn new() -> GatheredMembers<'a>
        ensures { result ≡ nothing }
    {
        GatheredMembers {
            count: 0,
            name: None,
            verb: None,
            reply: None,
            cause: None,
            thread: None,
            object: None,
            target: None,
            now: None,
            millis: None,
            nanos: None,
            chosen: None,
        }
    }

    /// Takes a member; of a key that came before, the last value stays. False where there are as
    /// many as a move can have, or the value is of another kind than a move has there; the members
    /// are not to be used then.
    #[inline(always)]
    pub(crate) fn take(&mut self, key: Key, value: Scalar<'a>) -> bool
        ensures { IsTrue result → Takes self.old (key_text key) (scalar_data value.entry) self.new }
    {
        match value {
            Scalar::Text(text) => self.add_text(key, text),
            Scalar::Number(number) => self.add_number(key, number),
            Scalar::Null => match key {
                Key::Chosen => fill(&mut self.count, &mut self.chosen, None),
                _ => false,
            },
        }
    }

    #[inline(always)]
    fn add_text(&mut self, key: Key, text: &'a [u8]) -> bool
        ensures { IsTrue result → Takes self.old (key_text key) (string text.now) self.new }
    {
        match key {
            Key::Move => fill(&mut self.count, &mut self.name, text),
            Key::Call => fill(&mut self.count, &mut self.verb, text),
            Key::Reply => fill(&mut self.count, &mut self.reply, text),
            Key::Cause => fill(&mut self.count, &mut self.cause, text),
            _ => false,
        }
    }

    #[inline(always)]
    fn add_number(&mut self, key: Key, number: u64) -> bool
        ensures { IsTrue result → Takes self.old (key_text key) (of_number number) self.new }
    {
        match key {
            Key::Thread => fill(&mut self.count, &mut self.thread, number),
            Key::Object => fill(&mut self.count, &mut self.object, number),
            Key::Target => fill(&mut self.count, &mut self.target, number),
            Key::Millis => fill(&mut self.count, &mut self.millis, number),
            Key::Nanos => fill(&mut self.count, &mut self.nanos, number),
            Key::Chosen => fill(&mut self.count, &mut self.chosen, Some(number)),
            Key::Now => fill(&mut self.count, &mut self.now, number),
            _ => false,
        }
    }

    /// The move that has these members, and no others.
    pub(crate) fn made_move(&self) -> Option<Move>
        ensures { IsCounted self.entry.now
            → result ≡ move_from (object_data (members_in self.entry.now)) }
    {
        move_named(self.count, self, self.name?)
    }
}

/// The thread with this number, or null.
fn choice(number: Option<u64>) -> Option<Option<ThreadId>>
    ensures { result ≡ choice number }
{
    match number {
        None => Some(None),
        Some(number) => Some(Some(ThreadId(small_number(number)?))),
    }
}

impl<'a> Fields for GatheredMembers<'a> {
    ghost seen = { λ g. object_data (members_in g) };

    fn name(&self) -> Option<&[u8]> {
        self.name
    }

    fn verb(&self) -> Option<&[u8]> {
        self.verb
    }

    fn reply(&self) -> Option<&[u8]> {
        self.reply
    }

    fn cause(&self) -> Option<&[u8]> {
        self.cause
    }

    fn thread(&self) -> Option<u64> {
        self.thread
    }

    fn object(&self) -> Option<u64> {
        self.object
    }

    fn target(&self) -> Option<u64> {
        self.target
    }

    fn now(&self) -> Option<u64> {
        self.now
    }

    fn millis(&self) -> Option<i64> {
        short_signed(self.millis?)
    }

    fn nanos(&self) -> Option<i64> {
        short_signed(self.nanos?)
    }

    fn chosen(&self) -> Option<Option<ThreadId>> {
        choice(self.chosen?)
    }
}
