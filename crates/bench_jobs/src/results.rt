//! Digests of what steps, moves, calls and deeds are, with all their numbers. Which number stands
//! for which kind is this digest's own.

use crate::digests::Digest;
use fast_path::Call;
use fat_monitor::{Action, Answer, Reply};
use live_turns::{Deed, Logged};
use lock_word::ThreadId;
use step_core::{Atomic, Did, Move};

/// The number of a reply: a refusal has that of its cause, 11 to 15.
fn reply_number(reply: Reply) -> u32 {
    match reply {
        Reply::Entered => 0,
        Reply::Exited => 1,
        Reply::WaitOver => 2,
        Reply::Interrupted => 3,
        Reply::Notified => 4,
        Reply::Yes => 5,
        Reply::No => 6,
        Reply::Done => 7,
        Reply::Ended => 8,
        Reply::IllegalMonitorState => 9,
        Reply::IllegalArgument => 10,
        Reply::Refused(cause) => u32::from(cause.number()),
    }
}

impl Digest {
    /// Mixes what something is, and the first of its numbers.
    fn mix_kind(&mut self, kind: u32, number: u32) {
        self.mix((u64::from(kind) << 32) | u64::from(number));
    }

    fn mix_limit(&mut self, millis: i64, nanos: i32) {
        self.mix(u64::from_le_bytes(millis.to_le_bytes()));
        self.mix(u64::from(u32::from_le_bytes(nanos.to_le_bytes())));
    }

    pub fn mix_reply(&mut self, reply: Reply) {
        self.mix_kind(1, reply_number(reply));
    }

    fn mix_chosen(&mut self, chosen: Option<ThreadId>) {
        match chosen {
            Some(thread) => self.mix_kind(1, thread.0),
            None => self.mix_kind(2, 0),
        }
    }

    fn mix_call(&mut self, call: Call) {
        match call {
            Call::Enter(object) => self.mix_kind(1, object.0),
            Call::Exit(object) => self.mix_kind(2, object.0),
            Call::Wait {
                object,
                millis,
                nanos,
            } => {
                self.mix_kind(3, object.0);
                self.mix_limit(millis, nanos);
            }
            Call::Notify(object) => self.mix_kind(4, object.0),
            Call::NotifyAll(object) => self.mix_kind(5, object.0),
            Call::Holds(object) => self.mix_kind(6, object.0),
            Call::Interrupt(target) => self.mix_kind(7, target.0),
            Call::Interrupted => self.mix_kind(8, 0),
            Call::IsInterrupted(target) => self.mix_kind(9, target.0),
            Call::End => self.mix_kind(10, 0),
        }
    }

    /// Mixes what a move has beside its kind and its thread.
    fn mix_told(&mut self, made: Move) {
        match made {
            Move::Call { call, .. } => self.mix_call(call),
            Move::Return { reply, .. } => self.mix_reply(reply),
            Move::Notify { chosen, .. } => self.mix_chosen(chosen),
            Move::Refuse { cause, .. } => self.mix(u64::from(cause.number())),
            Move::Time { now } => self.mix(now),
            _ => {}
        }
    }

    fn mix_move(&mut self, made: Move) {
        match made {
            Move::Attach { thread } => self.mix_kind(1, thread.0),
            Move::Call { thread, .. } => self.mix_kind(2, thread.0),
            Move::Return { thread, .. } => self.mix_kind(3, thread.0),
            Move::Lock { thread } => self.mix_kind(4, thread.0),
            Move::Unlock { thread } => self.mix_kind(5, thread.0),
            Move::Illegal { thread } => self.mix_kind(6, thread.0),
            Move::BadArgument { thread } => self.mix_kind(7, thread.0),
            Move::Early { thread } => self.mix_kind(8, thread.0),
            Move::Wait { thread } => self.mix_kind(9, thread.0),
            Move::Notify { thread, .. } => self.mix_kind(10, thread.0),
            Move::NotifyAll { thread } => self.mix_kind(11, thread.0),
            Move::Interrupt { thread } => self.mix_kind(12, thread.0),
            Move::TestClear { thread } => self.mix_kind(13, thread.0),
            Move::Expire { thread } => self.mix_kind(14, thread.0),
            Move::Spurious { thread } => self.mix_kind(15, thread.0),
            Move::Relock { thread } => self.mix_kind(16, thread.0),
            Move::Ask { thread } => self.mix_kind(17, thread.0),
            Move::Refuse { thread, .. } => self.mix_kind(18, thread.0),
            Move::End { thread } => self.mix_kind(19, thread.0),
            Move::Time { .. } => self.mix_kind(20, 0),
        }
        self.mix_told(made);
    }

    fn mix_action(&mut self, action: Action) {
        match action {
            Action::Enter { monitor } => self.mix_kind(1, monitor),
            Action::Exit { monitor } => self.mix_kind(2, monitor),
            Action::Wait {
                monitor,
                millis,
                nanos,
            } => {
                self.mix_kind(3, monitor);
                self.mix_limit(millis, nanos);
            }
            Action::Notify { monitor } => self.mix_kind(4, monitor),
            Action::NotifyAll { monitor } => self.mix_kind(5, monitor),
            Action::Holds { monitor } => self.mix_kind(6, monitor),
            Action::Interrupt { target } => self.mix_kind(7, target.0),
            Action::Interrupted => self.mix_kind(8, 0),
            Action::IsInterrupted { target } => self.mix_kind(9, target.0),
            Action::Expire => self.mix_kind(10, 0),
            Action::Spurious => self.mix_kind(11, 0),
            Action::Collect => self.mix_kind(12, 0),
            Action::End => self.mix_kind(13, 0),
        }
    }

    fn mix_answer(&mut self, answer: Answer) {
        match answer {
            Answer::Reply(reply) => self.mix_reply(reply),
            Answer::Parked => self.mix_kind(2, 0),
            Answer::Quiet => self.mix_kind(3, 0),
        }
    }

    fn mix_atomic(&mut self, atomic: Atomic) {
        match atomic {
            Atomic::Label => self.mix_kind(1, 0),
            Atomic::Load { object, word } => {
                self.mix_kind(2, object.0);
                self.mix(u64::from(word.0));
            }
            Atomic::Lost { object, word } => {
                self.mix_kind(3, object.0);
                self.mix(u64::from(word.0));
            }
            Atomic::Won { object, old, new } => {
                self.mix_kind(4, object.0);
                self.mix_kind(old.0, new.0);
            }
            Atomic::Stored { object, old, new } => {
                self.mix_kind(5, object.0);
                self.mix_kind(old.0, new.0);
            }
            Atomic::Bound { object, monitor } => {
                self.mix_kind(6, object.0);
                self.mix(u64::from(monitor));
            }
            Atomic::NotBound { object, cause } => {
                self.mix_kind(7, object.0);
                self.mix(u64::from(cause.number()));
            }
            Atomic::Acted { action, answer } => {
                self.mix_kind(8, 0);
                self.mix_action(action);
                self.mix_answer(answer);
            }
        }
    }

    /// Mixes all that a step did.
    pub fn mix_did(&mut self, did: &Did) {
        self.mix_atomic(did.atomic);
        for made in did.moves {
            if let Some(made) = made {
                self.mix_move(made);
            }
        }
        match did.reply {
            Some(reply) => self.mix_kind(21, reply_number(reply)),
            None => self.mix_kind(22, 0),
        }
    }

    fn mix_deed(&mut self, deed: Deed) {
        match deed {
            Deed::Bound {
                object,
                holds,
                monitor,
            } => {
                self.mix_kind(1, object.0);
                self.mix_kind(u32::from(holds), monitor);
            }
            Deed::Acted { action, answer } => {
                self.mix_kind(2, 0);
                self.mix_action(action);
                self.mix_answer(answer);
            }
            Deed::Ticked { now } => {
                self.mix_kind(3, 0);
                self.mix(now);
            }
        }
    }

    /// Mixes a record.
    pub fn mix_record(&mut self, record: &[Logged]) {
        for logged in record {
            self.mix(u64::from(logged.thread.0));
            self.mix_deed(logged.deed);
        }
    }

    /// Mixes the deed as far as it is the same however the threads meet: an enter that parks has its
    /// reply by a later deed, which collects it.
    fn mix_met(&mut self, deed: Deed) {
        match deed {
            Deed::Acted {
                action: Action::Collect,
                answer,
            } => self.mix_answer(answer),
            Deed::Acted {
                action,
                answer: Answer::Parked,
            } => self.mix_action(action),
            Deed::Acted { action, answer } => {
                self.mix_action(action);
                self.mix_answer(answer);
            }
            Deed::Bound { .. } | Deed::Ticked { .. } => self.mix_deed(deed),
        }
    }

    /// Mixes what a thread did by a record, as far as it is the same however the threads meet.
    pub fn mix_deeds_of(&mut self, thread: ThreadId, record: &[Logged]) {
        for logged in record {
            if logged.thread == thread {
                self.mix_met(logged.deed);
            }
        }
    }
}
