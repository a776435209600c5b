//! What is read of the end of a service, as numbers.

ghost use Rattle.std.specs.Prelude.{◌≡◌};
ghost use Rattle.nadkhoy_c.specs.Ends.{about_thread, cause_told, closing_status, deed_by, deed_shown, end_sizes, no_deed, deed_on_monitor, pass_shown, plain_action, reply_told, with_numbers, word_shown};

use crate::plain::{PlainDeed, PlainEnd, PlainPass};
use crate::status::Status;
use crate::writing::{action_number, answer_number, cause_of, reply_number};
use live_seats::{Closing, ServiceEnd};
use live_turns::Deed;
use step_core::{Action, Answer, ThreadId};

/// The status of what came of a close.
pub(crate) fn closing_status(told: Closing) -> u32
    ensures { result ≡ closing_status told }
{
    match told {
        Closing::Done => Status::Done.number(),
        Closing::Others => Status::OtherSeats.number(),
        Closing::WrongPass => Status::WrongPass.number(),
        Closing::Memory => Status::Memory.number(),
        Closing::Torn => 18,
    }
}

pub(crate) fn end_sizes(end: &ServiceEnd) -> PlainEnd
    ensures { result ≡ end_sizes end.now }
{
    PlainEnd {
        objects: end.closed.words.len() as u64,
        deeds: end.closed.logged.len() as u64,
        passes: end.threads.len() as u64,
    }
}

/// Writes the word of an object, if there is one.
pub(crate) fn word(end: &ServiceEnd, object: u32, word: &mut u32) -> u32
    ensures { record { answer = result; out = word.new } ≡ word_shown end.now object word.old }
{
    match end.closed.words.get(object as usize) {
        Some(found) => {
            *word = found.0;
            Status::Done.number()
        }
        None => Status::NoObject.number(),
    }
}

fn no_deed(thread: ThreadId) -> PlainDeed
    ensures { result ≡ no_deed thread }
{
    PlainDeed {
        moment: 0,
        millis: 0,
        nanos: 0,
        kind: 0,
        thread: thread.0,
        object: 0,
        holds: 0,
        monitor: 0,
        action: 0,
        target: 0,
        answer: 0,
        reply: 0,
        cause: 0,
    }
}

fn reply_told(answer: Answer) -> u32
    ensures { result ≡ reply_told answer }
{
    match answer {
        Answer::Reply(reply) => reply_number(reply),
        Answer::Parked | Answer::Quiet => 0,
    }
}

fn cause_told(answer: Answer) -> u32
    ensures { result ≡ cause_told answer }
{
    match answer {
        Answer::Reply(reply) => cause_of(reply),
        Answer::Parked | Answer::Quiet => 0,
    }
}

fn plain_action(thread: ThreadId, action: Action, answer: Answer) -> PlainDeed
    ensures { result ≡ plain_action thread action answer }
{
    PlainDeed {
        kind: 2,
        action: action_number(action),
        answer: answer_number(answer),
        reply: reply_told(answer),
        cause: cause_told(answer),
        ..no_deed(thread)
    }
}

fn on_monitor(deed: PlainDeed, monitor: u32) -> PlainDeed
    ensures { result ≡ deed_on_monitor deed monitor }
{
    PlainDeed { monitor, ..deed }
}

fn about_thread(deed: PlainDeed, target: ThreadId) -> PlainDeed
    ensures { result ≡ about_thread deed target }
{
    PlainDeed {
        target: target.0,
        ..deed
    }
}

fn with_numbers(deed: PlainDeed, action: Action) -> PlainDeed
    ensures { result ≡ with_numbers deed action }
{
    match action {
        Action::Enter { monitor } | Action::Exit { monitor } => on_monitor(deed, monitor),
        Action::Wait {
            monitor,
            millis,
            nanos,
        } => PlainDeed {
            monitor,
            millis,
            nanos,
            ..deed
        },
        Action::Notify { monitor } | Action::NotifyAll { monitor } | Action::Holds { monitor } => {
            on_monitor(deed, monitor)
        }
        Action::Interrupt { target } | Action::IsInterrupted { target } => {
            about_thread(deed, target)
        }
        Action::Interrupted | Action::Expire | Action::Spurious | Action::Collect | Action::End =>
            deed,
    }
}

fn deed_by(deed: Deed, thread: ThreadId) -> PlainDeed
    ensures { result ≡ deed_by deed thread }
{
    match deed {
        Deed::Bound {
            object,
            holds,
            monitor,
        } => PlainDeed {
            kind: 1,
            object: object.0,
            holds: u32::from(holds),
            monitor,
            ..no_deed(thread)
        },
        Deed::Acted { action, answer } => {
            with_numbers(plain_action(thread, action, answer), action)
        }
        Deed::Ticked { now } => PlainDeed {
            kind: 3,
            moment: now,
            ..no_deed(thread)
        },
    }
}

/// Writes a deed of the record, if there is one.
pub(crate) fn deed(end: &ServiceEnd, index: u32, deed: &mut PlainDeed) -> u32
    ensures { record { answer = result; out = deed.new } ≡ deed_shown end.now index deed.old }
{
    match end.closed.logged.get(index as usize) {
        Some(logged) => {
            *deed = deed_by(logged.deed, logged.thread);
            Status::Done.number()
        }
        None => Status::NoDeed.number(),
    }
}

/// Writes a pass, if there is one.
pub(crate) fn pass(end: &ServiceEnd, index: u32, pass: &mut PlainPass) -> u32
    ensures { record { answer = result; out = pass.new } ≡ pass_shown end.now index pass.old }
{
    let at = index as usize;
    match (end.threads.get(at), end.closed.counts.get(at)) {
        (Some(thread), Some(deeds)) => {
            *pass = PlainPass {
                deeds: *deeds,
                thread: thread.0,
            };
            Status::Done.number()
        }
        _ => Status::NoPass.number(),
    }
}
