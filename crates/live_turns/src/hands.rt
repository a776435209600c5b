//! What a pass does at the desk: each action once it was checked that the pass is where the book
//! has it.

ghost use Rattle.std.specs.Prelude.{◌≡◌, ◌≤◌, IfOk, IfErr, OnErr, OnOk, ◌++◌, true, false};
ghost use Rattle.header_words.specs.Bindings.{Binds};
ghost use Rattle.step_core.specs.declared.places.Place.TheVariants.{InCall};
ghost use Rattle.step_core.specs.declared.places.Stage.TheVariants.{Acting, Inflated, Direct};
ghost use Rattle.step_core.specs.declared.paths.Point.TheVariants.{At};
ghost use Rattle.step_core.specs.Path.{point_waited};
ghost use Rattle.live_book.specs.Log.{thread_numbered};
ghost use Rattle.live_book.specs.Book.{bindings};
ghost use Rattle.live_turns.specs.Asked.{IsAtDesk, IsBindNoted, IsTickFault, Tells, is_torn_from};
ghost use Rattle.live_book.specs.declared.faults.LiveFault.{LiveFault};
ghost use Rattle.live_turns.specs.Points.{RestsAtPost};
ghost use Rattle.live_turns.specs.Ways.{Went, parked, ticked_by};

use crate::desks::{Crew, Desk, Own, Refusal};
use crate::{LiveFault, Turned};
use fast_path::{InterruptCall, MonitorCall, Operation};
use fat_monitor::{Action, Answer, Done, Receipt};
use header_words::Pass;
use lock_word::{ObjectId, ThreadId};
use std::marker::Model;
use step_core::{Place, Point, action_about, action_on};

/// What a pass has in hand: its pass of the words, and its own deeds.
#[derive(Drop)]
pub(crate) struct Hand<L: Crew> {
    pub(crate) words: Pass<Box<Desk<L>>>,
    pub(crate) own: Own<L>,
}

impl<L: Crew> Model for Hand<L> {
    ghost use Rattle.live_turns.specs.Ways.{Holding};

    ghost Value = { Holding };

    ghost view = { λ p. record { words = p.words; own = p.own.list.items } };
}

// What the answer to the action of a call came to.
#[inline(always)]
fn told(made: Result<Done, LiveFault>) -> Result<Turned, LiveFault>
    ensures { Tells made result }
{
    let done = made?;
    let point = match done.answer {
        Answer::Reply(reply) => Point::Said(reply),
        Answer::Parked | Answer::Quiet => Point::At(Place::AtPost),
    };
    Ok(Turned {
        point,
        gate_taken: false,
        granted: done.granted,
    })
}

// What the answer to an action of a parked thread's own came to.
fn woken(done: Done) -> Turned
    ensures point { result.point ≡ point_waited done.answer }
    ensures gate { result.gate_taken ≡ false }
{
    let point = match done.answer {
        Answer::Reply(reply) => Point::Said(reply),
        Answer::Parked | Answer::Quiet => Point::Expired,
    };
    Turned {
        point,
        gate_taken: false,
        granted: done.granted,
    }
}

impl<L: Crew> Hand<L> {
    /// The thread of the pass.
    pub(crate) fn thread(&self) -> ThreadId
        ensures value { result ≡ thread_numbered self.now.words.index }
        ensures low { 1 ≤ self.now.words.index }
        ensures high { self.now.words.index ≤ 32767 }
    {
        ThreadId(u32::from(self.words.index()))
    }

    /// The index of the pass.
    pub(crate) fn index(&self) -> u16
        ensures { result ≡ self.now.words.index }
    {
        self.words.index()
    }

    /// The fat action of a call on an object, by a pass that is where the book has it. It stands in
    /// place, so that its answer comes by no copy: an enter and an exit name their action, which is
    /// that of `action_on`.
    #[inline(always)]
    #[tactic(auto, using(crate::proofs::Asking::asking))]
    pub(crate) fn act_on(
        &mut self,
        desk: &mut Box<Desk<L>>,
        call: MonitorCall,
        monitor: u32,
    ) -> Result<Turned, LiveFault>
        requires binds { Binds (bindings desk.old.value.book) monitor call.object.0 }
        ensures acting { IsAtDesk (At (InCall (Acting call monitor))) result
            desk.old.value.book desk.new.value.book self.old self.new }
        ensures inflated { IsAtDesk (At (InCall (Inflated call monitor))) result
            desk.old.value.book desk.new.value.book self.old self.new }
    {
        let me = self.thread();
        desk.check(&self.own, me, false)?;
        match call.operation {
            Operation::Enter => told(desk.note_action(
                &mut self.own,
                me,
                Action::Enter { monitor },
            )),
            Operation::Exit => told(desk.note_action(&mut self.own, me, Action::Exit { monitor })),
            operation => {
                let action = action_on(operation, monitor);
                told(desk.note_action_apart(&mut self.own, me, action))
            }
        }
    }

    /// The fat action of a call about interrupts, by a pass that is where the book has it.
    #[tactic(auto, using(crate::proofs::Asking::asking))]
    pub(crate) fn act_about(
        &mut self,
        desk: &mut Box<Desk<L>>,
        call: InterruptCall,
    ) -> Result<Turned, LiveFault>
        ensures { IsAtDesk (At (InCall (Direct call))) result
            desk.old.value.book desk.new.value.book self.old self.new }
    {
        let me = self.thread();
        desk.check(&self.own, me, false)?;
        told(desk.note_action_apart(&mut self.own, me, action_about(call)))
    }

    /// The bind of an object that the pass holds this often, by a pass that is where the book has
    /// it.
    pub(crate) fn bind(
        &mut self,
        desk: &mut Box<Desk<L>>,
        object: ObjectId,
        holds: u16,
    ) -> Result<Receipt, Refusal>
        requires low { 1 ≤ holds }
        requires high { holds ≤ 256 }
        ensures words { self.new.words ≡ self.old.words }
        ensures low { 1 ≤ self.new.words.index }
        ensures high { self.new.words.index ≤ 32767 }
        ensures noted { IsBindNoted (thread_numbered self.old.words.index) object holds result
            desk.old.value.book desk.new.value.book self.old.own self.new.own }
    {
        let me = self.thread();
        if let Err(fault) = desk.check(&self.own, me, false) {
            return Err(Refusal::Fault(fault));
        }
        desk.note_bind(&mut self.own, me, object, holds)
    }

    /// What a parked thread does itself, if there is something to do.
    pub(crate) fn wake_up(
        &mut self,
        desk: &mut Box<Desk<L>>,
        expired: bool,
    ) -> Result<Turned, LiveFault>
        ensures words { self.new.words ≡ self.old.words }
        ensures bindings { bindings desk.new.value.book ≡ bindings desk.old.value.book }
        ensures went { IfOk result (λ t. Went (parked expired) t.point self.old self.new) }
        ensures rests { IfOk result (λ t. (t.gate_taken ≡ false) × RestsAtPost t.point) }
        ensures none { OnErr result (self.new.own ≡ self.old.own) }
        ensures fault { IfErr result (λ f. f ≡ LiveFault.Torn) }
        ensures torn { OnErr result (is_torn_from desk.old.value.book
            (thread_numbered self.old.words.index) true self.old.own ≡ true) }
        ensures whole { OnOk result (is_torn_from desk.old.value.book
            (thread_numbered self.old.words.index) true self.old.own ≡ false) }
    {
        let me = self.thread();
        desk.check(&self.own, me, true)?;
        let Some(done) = desk.note_own_action(&mut self.own, me, expired)? else {
            return Ok(Turned::parked(expired, false));
        };
        Ok(woken(done))
    }

    /// Tells the moment.
    pub(crate) fn tick(&mut self, desk: &mut Box<Desk<L>>, now: u64) -> Result<(), LiveFault>
        ensures words { self.new.words ≡ self.old.words }
        ensures bindings { bindings desk.new.value.book ≡ bindings desk.old.value.book }
        ensures own { OnOk result (self.new.own ≡ self.old.own
            ++ ticked_by true self.old.words.index now) }
        ensures none { OnErr result (self.new.own ≡ self.old.own) }
        ensures fault { IfErr result IsTickFault }
    {
        let me = self.thread();
        desk.check(&self.own, me, false)?;
        desk.note_tick(&mut self.own, me, now)
    }
}
