//! What a Go does at each stage of a call: one function for each kind of atomic step. Each
//! overwrites the thread's place, and hands out what it did: a pair of both would be made and
//! copied at each step.

ghost use Rattle.std.specs.Prelude.{◌≡◌, ◌+◌, ◌-◌, ◌<◌, ◌≤◌, List, length, Bool, true, None, Some};
ghost use Rattle.lock_word.specs.declared.Word.{Word};
ghost use Rattle.lock_word.specs.Layout.{Fits, count_of, greatest_index};
ghost use Rattle.lock_word.specs.declared.Split.{Split};
ghost use Rattle.fat_monitor.specs.declared.actions.Post.TheVariants.{Out};
ghost use Rattle.fat_monitor.specs.FatState.{FatState, IsAttached, post_of};
ghost use Rattle.fat_monitor.specs.Acting.{NamesBound};
ghost use Rattle.fat_monitor.specs.declared.actions.Action.TheVariants.{End};
ghost use Rattle.fast_path.specs.Calls.{call_about, call_of};
ghost use Rattle.fast_path.specs.Table.{next_of};
ghost use Rattle.step_core.specs.World.{lock_at, is_own};
ghost use Rattle.step_core.specs.Ready.{bare, AreFormed, IsReady, IsOwnAction};
ghost use Rattle.step_core.specs.Did.{move_and_return, move_for};
ghost use Rattle.step_core.specs.Go.{after_load, after_take, after_store, after_bind};
ghost use Rattle.step_core.specs.Go.{after_publish, after_act, after_stage, action_on};
ghost use Rattle.step_core.specs.Go.{action_about, bind_cause, entering, stored_reply};
ghost use Rattle.step_core.specs.Step.{after_look};

use crate::steps::{grant_of, move_for};
use crate::{Atomic, Did, Move, Place, Stage};
use fast_path::{Call, InterruptCall, MonitorCall, Next, Operation};
use fat_monitor::{Action, Answer, Cause, Fats, Reply};
use lock_word::{Lock, ObjectId, Split, ThreadId, Word, lock_of, with_lock};

/// One Go of the thread with index `me` from a stage of its call: where it stands then, and what it
/// did.
#[inline(always)]
pub(crate) fn go_from(
    split: Split,
    words: &mut [Word],
    fats: &mut Fats,
    me: u16,
    thread: ThreadId,
    stage: Stage,
    place: &mut Place,
) -> Did
    requires ready { IsReady split words.old fats.old stage }
    requires few { length words.old ≤ 65535 }
    requires formed { AreFormed split words.old }
    requires out { post_of fats.old thread ≡ Some Out }
    requires low { 1 ≤ me }
    requires high { me ≤ greatest_index split }
    ensures { (room : Bool)
        × (record { words = words.new; fats = fats.new; place = place.new; did = result }
        ≡ after_stage room (bare split words.old fats.old) (me - 1) thread stage) }
{
    match stage {
        Stage::Begun { call, contended } => load(split, words, me, thread, call, contended, place),
        Stage::Taking { object, contended } => {
            take(split, words, me, thread, object, contended, place)
        }
        Stage::Storing { call, lock } => store(split, words, thread, call, lock, place),
        Stage::Binding { call, count } => bind(fats, thread, call, false, count + 1, place),
        Stage::Acting { call, monitor } => act_on(fats, thread, call, monitor, place),
        Stage::Won { object } => bind_won(fats, thread, object, place),
        Stage::Bound { call, won, monitor } => {
            publish(split, words, thread, call, won, monitor, place)
        }
        Stage::Inflated { call, monitor } => act_on(fats, thread, call, monitor, place),
        Stage::Direct { call } => act_about(fats, thread, call, place),
    }
}

/// The call that enters an object.
fn entering(object: ObjectId) -> MonitorCall
    ensures { result ≡ entering object }
{
    MonitorCall {
        object,
        operation: Operation::Enter,
    }
}

/// Loads the word of the call's object, and answers where the word says enough.
#[inline(always)]
fn load(
    split: Split,
    words: &[Word],
    me: u16,
    thread: ThreadId,
    call: MonitorCall,
    contended: bool,
    place: &mut Place,
) -> Did
    requires within { call.object.0 < length words.now }
    requires formed { AreFormed split words.now }
    ensures { (f : FatState)
        → record { words = words.now; fats = f; place = place.new; did = result }
        ≡ after_load (bare split words.now f) thread call contended
        (next_of split call.operation (lock_at (bare split words.now f) call.object.0) me) }
{
    let object = call.object;
    let word = words[object.0 as usize];
    let lock = lock_of(split, word);
    let atomic = Atomic::Load { object, word };
    let stage = match call.operation.next(split, lock, me) {
        Next::Reply(reply) => {
            *place = Place::Idle;
            return replied(atomic, call, thread, reply);
        }
        Next::Cas(_) => Stage::Taking { object, contended },
        Next::Store(lock) => Stage::Storing { call, lock },
        Next::Bind => {
            let count = lock.count();
            Stage::Binding { call, count }
        }
        Next::Fat(monitor) => Stage::Acting { call, monitor },
        Next::Spin => Stage::Begun {
            call,
            contended: true,
        },
    };
    *place = Place::InCall(stage);
    Did::no_move(atomic)
}

/// Exchanges the free word for the thread's own, if it is still free.
#[inline(always)]
fn take(
    split: Split,
    words: &mut [Word],
    me: u16,
    thread: ThreadId,
    object: ObjectId,
    contended: bool,
    place: &mut Place,
) -> Did
    requires within { object.0 < length words.old }
    requires formed { AreFormed split words.old }
    requires low { 1 ≤ me }
    requires high { me ≤ greatest_index split }
    ensures { (f : FatState)
        → record { words = words.new; fats = f; place = place.new; did = result }
        ≡ after_take (bare split words.old f) (me - 1) thread object contended
        (lock_at (bare split words.old f) object.0) }
{
    let at = object.0 as usize;
    let old = words[at];
    let Lock::Free = lock_of(split, old) else {
        let call = entering(object);
        let contended = true;
        let atomic = Atomic::Lost { object, word: old };
        *place = Place::InCall(Stage::Begun { call, contended });
        return Did::no_move(atomic);
    };
    let mine = Lock::Thin {
        index: me,
        count: 0,
    };
    let new = with_lock(split, old, mine);
    words[at] = new;
    let atomic = Atomic::Won { object, old, new };
    let made = Move::Lock { thread };
    if contended {
        *place = Place::InCall(Stage::Won { object });
        return Did::one_move(atomic, made);
    }
    *place = Place::Idle;
    Did::move_and_return(atomic, made, thread, Reply::Entered)
}

/// Stores a free or thin word over the thread's own thin one.
#[inline(always)]
fn store(
    split: Split,
    words: &mut [Word],
    thread: ThreadId,
    call: MonitorCall,
    lock: Lock,
    place: &mut Place,
) -> Did
    requires within { call.object.0 < length words.old }
    requires fits { Fits split lock }
    ensures { (f : FatState)
        → record { words = words.new; fats = f; place = place.new; did = result }
        ≡ after_store (bare split words.old f) thread call lock }
{
    let object = call.object;
    let at = object.0 as usize;
    let old = words[at];
    let new = with_lock(split, old, lock);
    words[at] = new;
    let reply = stored_reply(call.operation);
    let atomic = Atomic::Stored { object, old, new };
    *place = Place::Idle;
    replied(atomic, call, thread, reply)
}

/// A call on an object gets this reply by its step on the word, and returns.
#[inline(always)]
fn replied(atomic: Atomic, call: MonitorCall, thread: ThreadId, reply: Reply) -> Did
    ensures { result ≡ move_and_return atomic (move_for (call_of call) reply None thread)
        thread reply }
{
    let made = move_for(call.call(), reply, None, thread);
    Did::move_and_return(atomic, made, thread, reply)
}

/// What a call replies when its free or thin word is stored: only an enter and an exit store one.
fn stored_reply(operation: Operation) -> Reply
    ensures { result ≡ stored_reply operation }
{
    match operation {
        Operation::Exit => Reply::Exited,
        _ => Reply::Entered,
    }
}

/// Binds a fat monitor to the call's object, which the thread holds this often. Where none can be
/// had, an enter that has won already drops the inflation, and any other call is refused.
fn bind(
    fats: &mut Fats,
    thread: ThreadId,
    call: MonitorCall,
    won: bool,
    holds: u16,
    place: &mut Place,
) -> Did
    requires attached { IsAttached fats.old thread }
    requires low { 1 ≤ holds }
    requires high { holds ≤ 4096 }
    ensures { (split : Split) (ws : List Word)
        → (room : Bool)
        × (record { words = ws; fats = fats.new; place = place.new; did = result }
        ≡ after_bind (bare split ws fats.old) thread call won holds (bind_cause room fats.old)) }
{
    let object = call.object;
    let cause = match fats.bind(object, thread, holds) {
        Ok(receipt) => {
            let monitor = receipt.monitor();
            let stage = Stage::Bound { call, won, monitor };
            *place = Place::InCall(stage);
            return Did::no_move(Atomic::Bound { object, monitor });
        }
        Err(cause) => cause,
    };
    let atomic = Atomic::NotBound { object, cause };
    if won {
        *place = Place::Idle;
        return Did::return_alone(atomic, thread, Reply::Entered);
    }
    let made = Move::Refuse { thread, cause };
    *place = Place::Idle;
    Did::move_and_return(atomic, made, thread, Reply::Refused(cause))
}

/// Stores the fat word over the thread's own thin one.
fn publish(
    split: Split,
    words: &mut [Word],
    thread: ThreadId,
    call: MonitorCall,
    won: bool,
    monitor: u32,
    place: &mut Place,
) -> Did
    requires within { call.object.0 < length words.old }
    requires fits { monitor ≤ 8388607 }
    ensures { (f : FatState)
        → record { words = words.new; fats = f; place = place.new; did = result }
        ≡ after_publish (bare split words.old f) thread call won monitor }
{
    let object = call.object;
    let at = object.0 as usize;
    let old = words[at];
    let new = with_lock(split, old, Lock::Fat { monitor });
    words[at] = new;
    let atomic = Atomic::Stored { object, old, new };
    if won {
        *place = Place::Idle;
        return Did::return_alone(atomic, thread, Reply::Entered);
    }
    *place = Place::InCall(Stage::Inflated { call, monitor });
    Did::no_move(atomic)
}

/// Binds a fat monitor to the object of an enter that has won its word.
fn bind_won(fats: &mut Fats, thread: ThreadId, object: ObjectId, place: &mut Place) -> Did
    requires attached { IsAttached fats.old thread }
    ensures { (split : Split) (ws : List Word)
        → (room : Bool)
        × (record { words = ws; fats = fats.new; place = place.new; did = result }
        ≡ after_bind (bare split ws fats.old) thread (entering object) true 1
        (bind_cause room fats.old)) }
{
    bind(fats, thread, entering(object), true, 1, place)
}

/// Makes the action of a call on an object that has this fat monitor.
fn act_on(
    fats: &mut Fats,
    thread: ThreadId,
    call: MonitorCall,
    monitor: u32,
    place: &mut Place,
) -> Did
    requires out { post_of fats.old thread ≡ Some Out }
    requires bound { NamesBound fats.old (action_on call.operation monitor) }
    ensures { (split : Split) (ws : List Word)
        → record { words = ws; fats = fats.new; place = place.new; did = result }
        ≡ after_act (bare split ws fats.old) thread (call_of call)
        (action_on call.operation monitor) }
{
    act(
        fats,
        thread,
        call.call(),
        action_on(call.operation, monitor),
        place,
    )
}

/// Makes the action of a call about interrupts.
fn act_about(fats: &mut Fats, thread: ThreadId, call: InterruptCall, place: &mut Place) -> Did
    requires out { post_of fats.old thread ≡ Some Out }
    ensures { (split : Split) (ws : List Word)
        → record { words = ws; fats = fats.new; place = place.new; did = result }
        ≡ after_act (bare split ws fats.old) thread (call_about call) (action_about call) }
{
    act(fats, thread, call.call(), action_about(call), place)
}

/// Makes the call's own action on a fat monitor: the call has its reply then, or is parked.
fn act(fats: &mut Fats, thread: ThreadId, call: Call, action: Action, place: &mut Place) -> Did
    requires out { post_of fats.old thread ≡ Some Out }
    requires bound { NamesBound fats.old action }
    requires own { IsOwnAction action }
    ensures { (split : Split) (ws : List Word)
        → record { words = ws; fats = fats.new; place = place.new; did = result }
        ≡ after_act (bare split ws fats.old) thread call action }
{
    let Ok(done) = fats.act(thread, action) else {
        unreachable!();
    };
    let granted = grant_of(fats, done.granted);
    let answer = done.answer;
    let atomic = Atomic::Acted { action, answer };
    match answer {
        Answer::Reply(reply) => {
            let made = move_for(call, reply, done.chosen, thread);
            *place = Place::Idle;
            Did::move_grant_and_return(atomic, made, granted, thread, reply)
        }
        Answer::Parked => {
            *place = Place::AtPost;
            Did::parking(call, atomic, thread, granted)
        }
        Answer::Quiet => {
            *place = Place::AtPost;
            Did::no_move(atomic)
        }
    }
}

/// The fat action of an operation's own name.
pub fn action_on(operation: Operation, monitor: u32) -> Action
    ensures { result ≡ action_on operation monitor }
{
    match operation {
        Operation::Enter => Action::Enter { monitor },
        Operation::Exit => Action::Exit { monitor },
        Operation::Wait { millis, nanos } => Action::Wait {
            monitor,
            millis,
            nanos,
        },
        Operation::Notify => Action::Notify { monitor },
        Operation::NotifyAll => Action::NotifyAll { monitor },
        Operation::Holds => Action::Holds { monitor },
    }
}

/// The fat action of the own name of a call about interrupts.
pub fn action_about(call: InterruptCall) -> Action
    ensures { result ≡ action_about call }
{
    match call {
        InterruptCall::Interrupt(target) => Action::Interrupt { target },
        InterruptCall::Interrupted => Action::Interrupted,
        InterruptCall::IsInterrupted(target) => Action::IsInterrupted { target },
    }
}

/// Loads the word of one object after another: a thread that owns one may not end.
pub(crate) fn look(
    split: Split,
    words: &[Word],
    me: u16,
    thread: ThreadId,
    loaded: u32,
    place: &mut Place,
) -> Did
    requires within { loaded < length words.now }
    requires formed { AreFormed split words.now }
    requires low { 1 ≤ me }
    requires few { length words.now ≤ 65535 }
    ensures { (f : FatState)
        → record { words = words.now; fats = f; place = place.new; did = result }
        ≡ after_look (bare split words.now f) (me - 1) thread loaded }
{
    let object = ObjectId(loaded);
    let word = words[loaded as usize];
    let atomic = Atomic::Load { object, word };
    if is_own(lock_of(split, word), me) {
        let cause = Cause::StillOwner;
        let made = Move::Refuse { thread, cause };
        *place = Place::Idle;
        return Did::move_and_return(atomic, made, thread, Reply::Refused(cause));
    }
    let loaded = loaded + 1;
    *place = Place::Ending { loaded };
    Did::no_move(atomic)
}

/// Whether a lock is a thin one of the thread with this index.
fn is_own(lock: Lock, me: u16) -> bool
    ensures { result ≡ is_own lock me }
{
    match lock {
        Lock::Thin { index, .. } => index == me,
        Lock::Free | Lock::Fat { .. } => false,
    }
}
