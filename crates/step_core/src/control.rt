//! The steps that are no Go: a thread is attached or begins a call, a wait ends by itself, the
//! moment is told.

ghost use Rattle.std.specs.Prelude.{◌≡◌, ◌≤◌, List, [], ◌∷◌, length, Bool, true, Option, Some};
ghost use Rattle.std.specs.Prelude.{None, IsSome, is_some, count_by};
ghost use Rattle.lock_word.specs.declared.ThreadId.{ThreadId};
ghost use Rattle.lock_word.specs.declared.Word.{Word};
ghost use Rattle.lock_word.specs.declared.Split.{Split};
ghost use Rattle.thread_index.specs.Indices.{berth_of};
ghost use Rattle.fat_monitor.specs.FatState.{FatState, IsAttached, thread_count};
ghost use Rattle.fast_path.specs.Calls.{subject_of};
ghost use Rattle.step_core.specs.Ready.{world_of};
ghost use Rattle.step_core.specs.Did.{grant_of};
ghost use Rattle.step_core.specs.Step.{first_place, step_of};
ghost use Rattle.step_core.specs.declared.steps.Atomic.TheVariants.{Acted};
ghost use Rattle.step_core.specs.declared.steps.Step.TheVariants as step;
ghost use Rattle.step_core.specs.declared.places.Place.{Place};

use crate::steps::grant_of;
use crate::{Atomic, Did, Fault, Move, Place, Stage};
use fast_path::{Call, Subject};
use fat_monitor::{Action, AttachFault, Done, Fats};
use lock_word::{ThreadId, Word};
use thread_index::{Indices, TakeFault};

/// Attaches a thread, which takes the lowest free index.
#[inline(always)]
pub(crate) fn attach(
    indices: &mut Indices,
    places: &mut Vec<Place>,
    fats: &mut Fats,
    thread: ThreadId,
) -> Result<Did, Fault>
    requires berthed { length places.old.items ≡ length indices.old }
    requires live { IsAttached fats.old thread → IsSome (berth_of indices.old thread) }
    requires counted { thread_count fats.old ≡ count_by is_some indices.old }
    requires few { length indices.old ≤ 32767 }
    ensures { (split : Split) → (words : List Word) → (room : Bool)
        × (record {
          answer = result;
          after = world_of split words indices.new places.new.items fats.new;
        } ≡ step_of room (world_of split words indices.old places.old.items fats.old)
        (step.Attach thread)) }
{
    let index = match indices.take(thread) {
        Ok(index) => index,
        Err(TakeFault::Known) => return Err(Fault::Known),
        Err(TakeFault::NoIndex) => return Err(Fault::NoIndex),
        Err(TakeFault::Memory) => return Err(Fault::Memory),
    };
    match fats.attach(thread) {
        Ok(()) => {}
        Err(AttachFault::Known) => unreachable!(),
        Err(AttachFault::Memory) => {
            let _ = indices.give(thread);
            return Err(Fault::Memory);
        }
    }
    places[index as usize - 1] = Place::Idle;
    Ok(Did::one_move(Atomic::Label, Move::Attach { thread }))
}

/// Begins a call of a thread that is in none.
#[inline(always)]
pub(crate) fn begin(
    words: &[Word],
    indices: &Indices,
    places: &mut Vec<Place>,
    thread: ThreadId,
    call: Call,
) -> Result<Did, Fault>
    requires { length places.old.items ≡ length indices.now }
    ensures { (split : Split) → (fats : FatState)
        → record {
          answer = result;
          after = world_of split words.now indices.now places.new.items fats;
        } ≡ step_of true (world_of split words.now indices.now places.old.items fats)
        (step.Begin thread call) }
{
    let Some(index) = indices.index_of(thread) else {
        return Err(Fault::NoThread);
    };
    match call.object() {
        Some(object) if object.0 as usize >= words.len() => return Err(Fault::NoObject),
        _ => {}
    }
    let berth = index as usize - 1;
    let Place::Idle = places[berth] else {
        return Err(Fault::InCall);
    };
    places[berth] = first_place(call.subject());
    Ok(Did::one_move(Atomic::Label, Move::Call { thread, call }))
}

/// Where a call begins.
fn first_place(subject: Subject) -> Place
    ensures { result ≡ first_place subject }
{
    match subject {
        Subject::Monitor(call) => Place::InCall(Stage::Begun {
            call,
            contended: false,
        }),
        Subject::Interrupt(call) => Place::InCall(Stage::Direct { call }),
        Subject::End => Place::Ending { loaded: 0 },
    }
}

/// Ends the wait of a thread whose deadline has come.
#[inline(always)]
pub(crate) fn expire(indices: &Indices, fats: &mut Fats, thread: ThreadId) -> Result<Did, Fault>
    requires { IsSome (berth_of indices.now thread) → IsAttached fats.old thread }
    ensures { (split : Split) → (words : List Word) → (places : List Place)
        → record { answer = result; after = world_of split words indices.now places fats.new }
        ≡ step_of true (world_of split words indices.now places fats.old) (step.Expire thread) }
{
    if indices.index_of(thread).is_none() {
        return Err(Fault::NoThread);
    }
    let action = Action::Expire;
    let Ok(done) = fats.act(thread, action) else {
        return Err(Fault::NotDue);
    };
    Ok(end_of_wait(fats, action, Move::Expire { thread }, done))
}

/// Ends the wait of a thread for no reason that a program can see.
#[inline(always)]
pub(crate) fn wake(indices: &Indices, fats: &mut Fats, thread: ThreadId) -> Result<Did, Fault>
    requires { IsSome (berth_of indices.now thread) → IsAttached fats.old thread }
    ensures { (split : Split) → (words : List Word) → (places : List Place)
        → record { answer = result; after = world_of split words indices.now places fats.new }
        ≡ step_of true (world_of split words indices.now places fats.old) (step.Spurious thread) }
{
    if indices.index_of(thread).is_none() {
        return Err(Fault::NoThread);
    }
    let action = Action::Spurious;
    let Ok(done) = fats.act(thread, action) else {
        return Err(Fault::NotWaiting);
    };
    Ok(end_of_wait(fats, action, Move::Spurious { thread }, done))
}

/// What a step did by which a wait ended by itself.
#[inline(always)]
fn end_of_wait(fats: &Fats, action: Action, made: Move, done: Done) -> Did
    ensures { result ≡ record {
      atomic = Acted action done.answer;
      moves = Some made ∷ grant_of fats.now done.granted ∷ None ∷ [];
      reply = None;
    } }
{
    let granted = grant_of(fats, done.granted);
    let answer = done.answer;
    Did {
        atomic: Atomic::Acted { action, answer },
        moves: [Some(made), granted, None],
        reply: None,
    }
}

/// Tells the moment.
#[inline(always)]
pub(crate) fn tick(fats: &mut Fats, now: u64) -> Result<Did, Fault>
    ensures { (split : Split) → (words : List Word) → (berths : List (Option ThreadId))
        → (places : List Place)
        → record { answer = result; after = world_of split words berths places fats.new }
        ≡ step_of true (world_of split words berths places fats.old) (step.Tick now) }
{
    match fats.tick(now) {
        Ok(()) => Ok(Did::one_move(Atomic::Label, Move::Time { now })),
        Err(_) => Err(Fault::Backwards),
    }
}
