//! Whether two threads do the same, and whether two header words are the same.
//!
//! The `==` of a derive says nothing of the values to a proof, so these say it case by case.

ghost use Rattle.std.specs.Prelude.{◌≡◌, true};

use fast_path::Call;
use fat_monitor::{Cause, Reply, Why};
use jls_check::Live;
use lock_word::Word;
use step_core::Doing;

/// Whether two threads, or the absence of them, are the same.
pub(crate) fn are_same(one: Option<Live>, other: Option<Live>) -> bool
    ensures { result ≡ true → one ≡ other }
{
    match (one, other) {
        (Some(one), Some(other)) => one.flag == other.flag && are_same_acts(one.act, other.act),
        (None, None) => true,
        _ => false,
    }
}

fn are_same_acts(one: Doing, other: Doing) -> bool
    ensures { result ≡ true → one ≡ other }
{
    match (one, other) {
        (Doing::Idle, Doing::Idle) => true,
        (Doing::Wants(one), Doing::Wants(other)) => are_same_calls(one, other),
        (
            Doing::Waits {
                object,
                holds,
                deadline,
            },
            Doing::Waits {
                object: other,
                holds: other_holds,
                deadline: other_deadline,
            },
        ) => object.0 == other.0 && holds == other_holds && deadline == other_deadline,
        (
            Doing::Back { object, holds, why },
            Doing::Back {
                object: other,
                holds: other_holds,
                why: other_why,
            },
        ) => object.0 == other.0 && holds == other_holds && are_same_reasons(why, other_why),
        (Doing::Has(one), Doing::Has(other)) => are_same_replies(one, other),
        _ => false,
    }
}

fn are_same_calls(one: Call, other: Call) -> bool
    ensures { result ≡ true → one ≡ other }
{
    match (one, other) {
        (Call::Enter(one), Call::Enter(other))
        | (Call::Exit(one), Call::Exit(other))
        | (Call::Notify(one), Call::Notify(other))
        | (Call::NotifyAll(one), Call::NotifyAll(other))
        | (Call::Holds(one), Call::Holds(other)) => one.0 == other.0,
        (
            Call::Wait {
                object,
                millis,
                nanos,
            },
            Call::Wait {
                object: other,
                millis: other_millis,
                nanos: other_nanos,
            },
        ) => object.0 == other.0 && millis == other_millis && nanos == other_nanos,
        (Call::Interrupt(one), Call::Interrupt(other))
        | (Call::IsInterrupted(one), Call::IsInterrupted(other)) => one.0 == other.0,
        (Call::Interrupted, Call::Interrupted) | (Call::End, Call::End) => true,
        _ => false,
    }
}

fn are_same_reasons(one: Why, other: Why) -> bool
    ensures { result ≡ true → one ≡ other }
{
    match (one, other) {
        (Why::Notified, Why::Notified)
        | (Why::Interrupted, Why::Interrupted)
        | (Why::Elapsed, Why::Elapsed)
        | (Why::Spurious, Why::Spurious) => true,
        _ => false,
    }
}

fn are_same_replies(one: Reply, other: Reply) -> bool
    ensures { result ≡ true → one ≡ other }
{
    match (one, other) {
        (Reply::Entered, Reply::Entered)
        | (Reply::Exited, Reply::Exited)
        | (Reply::WaitOver, Reply::WaitOver)
        | (Reply::Interrupted, Reply::Interrupted)
        | (Reply::Notified, Reply::Notified)
        | (Reply::Yes, Reply::Yes)
        | (Reply::No, Reply::No)
        | (Reply::Done, Reply::Done)
        | (Reply::Ended, Reply::Ended)
        | (Reply::IllegalMonitorState, Reply::IllegalMonitorState)
        | (Reply::IllegalArgument, Reply::IllegalArgument) => true,
        (Reply::Refused(one), Reply::Refused(other)) => are_same_causes(one, other),
        _ => false,
    }
}

fn are_same_causes(one: Cause, other: Cause) -> bool
    ensures { result ≡ true → one ≡ other }
{
    match (one, other) {
        (Cause::NoMonitor, Cause::NoMonitor)
        | (Cause::Memory, Cause::Memory)
        | (Cause::TooDeep, Cause::TooDeep)
        | (Cause::StillOwner, Cause::StillOwner)
        | (Cause::NoThread, Cause::NoThread) => true,
        _ => false,
    }
}

/// Whether two header words, or the absence of them, are the same.
pub(crate) fn are_same_words(one: Option<Word>, other: Option<Word>) -> bool
    ensures { result ≡ true → one ≡ other }
{
    match (one, other) {
        (Some(one), Some(other)) => one.0 == other.0,
        (None, None) => true,
        _ => false,
    }
}
