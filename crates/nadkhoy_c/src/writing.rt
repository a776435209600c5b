//! Writing what a step did as numbers.

ghost use Rattle.std.specs.Prelude.{◌≡◌};
ghost use Rattle.nadkhoy_c.specs.Writing.{plain_call, plain_did, plain_move, plain_move_or_none, plain_atomic, reply_number, cause_of, action_number, answer_number, of_thread, on_word, plain_call_about};

use crate::plain::{PlainAtomic, PlainCall, PlainDid, PlainMove};
use step_core::{Action, Answer, Atomic, Call, Cause, Did, Move, ObjectId, Reply, ThreadId, Word};

pub(crate) const NO_CALL: PlainCall = PlainCall {
    millis: 0,
    nanos: 0,
    kind: 0,
    target: 0,
};

pub(crate) const NO_MOVE: PlainMove = PlainMove {
    kind: 0,
    thread: 0,
    reply: 0,
    cause: 0,
    has_chosen: 0,
    chosen: 0,
    moment: 0,
    call: NO_CALL,
};

pub(crate) const NO_CHANGE: PlainAtomic = PlainAtomic {
    kind: 0,
    object: 0,
    before: 0,
    after: 0,
    monitor: 0,
    cause: 0,
    action: 0,
    answer: 0,
};

fn call_about(kind: u32, target: u32) -> PlainCall
    ensures { result ≡ plain_call_about kind target }
{
    PlainCall {
        kind,
        target,
        ..NO_CALL
    }
}

pub(crate) fn plain_call(call: Call) -> PlainCall
    ensures { result ≡ plain_call call }
{
    match call {
        Call::Enter(object) => call_about(1, object.0),
        Call::Exit(object) => call_about(2, object.0),
        Call::Wait {
            object,
            millis,
            nanos,
        } => PlainCall {
            millis,
            nanos,
            kind: 3,
            target: object.0,
        },
        Call::Notify(object) => call_about(4, object.0),
        Call::NotifyAll(object) => call_about(5, object.0),
        Call::Holds(object) => call_about(6, object.0),
        Call::Interrupt(target) => call_about(7, target.0),
        Call::Interrupted => call_about(8, 0),
        Call::IsInterrupted(target) => call_about(9, target.0),
        Call::End => call_about(10, 0),
    }
}

pub(crate) fn reply_number(reply: Reply) -> u32
    ensures { result ≡ reply_number reply }
{
    match reply {
        Reply::Entered => 1,
        Reply::Exited => 2,
        Reply::WaitOver => 3,
        Reply::Interrupted => 4,
        Reply::Notified => 5,
        Reply::Yes => 6,
        Reply::No => 7,
        Reply::Done => 8,
        Reply::Ended => 9,
        Reply::IllegalMonitorState => 10,
        Reply::IllegalArgument => 11,
        Reply::Refused(_) => 12,
    }
}

/// The cause of a refusal, and 0 for another reply.
pub(crate) fn cause_of(reply: Reply) -> u32
    ensures { result ≡ cause_of reply }
{
    match reply {
        Reply::Refused(cause) => u32::from(cause.number()),
        _ => 0,
    }
}

fn of_thread(kind: u32, thread: ThreadId) -> PlainMove
    ensures { result ≡ of_thread kind thread }
{
    PlainMove {
        kind,
        thread: thread.0,
        ..NO_MOVE
    }
}

fn plain_move(it: Move) -> PlainMove
    ensures { result ≡ plain_move it }
{
    match it {
        Move::Attach { thread } => of_thread(1, thread),
        Move::Call { thread, call } => PlainMove {
            call: plain_call(call),
            ..of_thread(2, thread)
        },
        Move::Return { thread, reply } => PlainMove {
            reply: reply_number(reply),
            cause: cause_of(reply),
            ..of_thread(3, thread)
        },
        Move::Lock { thread } => of_thread(4, thread),
        Move::Unlock { thread } => of_thread(5, thread),
        Move::Illegal { thread } => of_thread(6, thread),
        Move::BadArgument { thread } => of_thread(7, thread),
        Move::Early { thread } => of_thread(8, thread),
        Move::Wait { thread } => of_thread(9, thread),
        Move::Notify {
            thread,
            chosen: None,
        } => of_thread(10, thread),
        Move::Notify {
            thread,
            chosen: Some(chosen),
        } => PlainMove {
            has_chosen: 1,
            chosen: chosen.0,
            ..of_thread(10, thread)
        },
        Move::NotifyAll { thread } => of_thread(11, thread),
        Move::Interrupt { thread } => of_thread(12, thread),
        Move::TestClear { thread } => of_thread(13, thread),
        Move::Expire { thread } => of_thread(14, thread),
        Move::Spurious { thread } => of_thread(15, thread),
        Move::Relock { thread } => of_thread(16, thread),
        Move::Ask { thread } => of_thread(17, thread),
        Move::Refuse { thread, cause } => PlainMove {
            cause: u32::from(cause.number()),
            ..of_thread(18, thread)
        },
        Move::End { thread } => of_thread(19, thread),
        Move::Time { now } => PlainMove {
            kind: 20,
            moment: now,
            ..NO_MOVE
        },
    }
}

fn plain_move_or_none(it: Option<Move>) -> PlainMove
    ensures { result ≡ plain_move_or_none it }
{
    match it {
        Some(it) => plain_move(it),
        None => NO_MOVE,
    }
}

pub(crate) fn action_number(action: Action) -> u32
    ensures { result ≡ action_number action }
{
    match action {
        Action::Enter { .. } => 1,
        Action::Exit { .. } => 2,
        Action::Wait { .. } => 3,
        Action::Notify { .. } => 4,
        Action::NotifyAll { .. } => 5,
        Action::Holds { .. } => 6,
        Action::Interrupt { .. } => 7,
        Action::Interrupted => 8,
        Action::IsInterrupted { .. } => 9,
        Action::Expire => 10,
        Action::Spurious => 11,
        Action::Collect => 12,
        Action::End => 13,
    }
}

pub(crate) fn answer_number(answer: Answer) -> u32
    ensures { result ≡ answer_number answer }
{
    match answer {
        Answer::Reply(_) => 1,
        Answer::Parked => 2,
        Answer::Quiet => 3,
    }
}

fn on_word(kind: u32, object: ObjectId, before: Word, after: Word) -> PlainAtomic
    ensures { result ≡ on_word kind object before after }
{
    PlainAtomic {
        kind,
        object: object.0,
        before: before.0,
        after: after.0,
        ..NO_CHANGE
    }
}

fn plain_atomic(atomic: Atomic) -> PlainAtomic
    ensures { result ≡ plain_atomic atomic }
{
    match atomic {
        Atomic::Label => NO_CHANGE,
        Atomic::Load { object, word } => on_word(1, object, word, word),
        Atomic::Won { object, old, new } => on_word(2, object, old, new),
        Atomic::Lost { object, word } => on_word(3, object, word, word),
        Atomic::Stored { object, old, new } => on_word(4, object, old, new),
        Atomic::Bound { object, monitor } => PlainAtomic {
            kind: 5,
            object: object.0,
            monitor,
            ..NO_CHANGE
        },
        Atomic::NotBound { object, cause } => PlainAtomic {
            kind: 6,
            object: object.0,
            cause: u32::from(cause.number()),
            ..NO_CHANGE
        },
        Atomic::Acted { action, answer } => PlainAtomic {
            kind: 7,
            action: action_number(action),
            answer: answer_number(answer),
            ..NO_CHANGE
        },
    }
}

/// What a step did, as numbers.
pub(crate) fn plain_did(did: &Did) -> PlainDid
    ensures { result ≡ plain_did did.now }
{
    let [one, two, three] = did.moves;
    let (reply, cause) = match did.reply {
        Some(reply) => (reply_number(reply), cause_of(reply)),
        None => (0, 0),
    };
    PlainDid {
        atomic: plain_atomic(did.atomic),
        reply,
        cause,
        moves: [
            plain_move_or_none(one),
            plain_move_or_none(two),
            plain_move_or_none(three),
        ],
    }
}
