//! A Go: the next atomic step of a thread's call, by the place where the thread stands.

ghost use Rattle.std.specs.Prelude.{◌≡◌, ℕ, ◌-◌, ◌<◌, ◌≤◌, List, length, Bool, Option, Some, Ok};
ghost use Rattle.lock_word.specs.declared.ThreadId.{ThreadId};
ghost use Rattle.lock_word.specs.declared.Word.{Word};
ghost use Rattle.lock_word.specs.declared.Split.{Split};
ghost use Rattle.thread_index.specs.Indices.{berth_of};
ghost use Rattle.fat_monitor.specs.declared.actions.Action.TheVariants as action;
ghost use Rattle.fat_monitor.specs.declared.actions.Post.TheVariants.{Out};
ghost use Rattle.fat_monitor.specs.FatState.{FatState, IsAttached, post_of};
ghost use Rattle.fat_monitor.specs.Acting.{outcome_of};
ghost use Rattle.step_core.specs.Sound.{IsSound};
ghost use Rattle.step_core.specs.Ready.{world_of};
ghost use Rattle.step_core.specs.declared.steps.Step.TheVariants as step;
ghost use Rattle.step_core.specs.Step.{step_of, after_end, after_collect};

use crate::stages::{go_from, look};
use crate::steps::move_for;
use crate::{Atomic, Did, Fault, Place};
use fast_path::Call;
use fat_monitor::{Action, Answer, Done, Fats, Reply};
use lock_word::{Split, ThreadId, Word};
use thread_index::Indices;

/// Does the next atomic step of a thread's call.
#[inline(always)]
pub(crate) fn go(
    split: Split,
    words: &mut [Word],
    indices: &mut Indices,
    places: &mut [Place],
    fats: &mut Fats,
    thread: ThreadId,
) -> Result<Did, Fault>
    requires { IsSound (world_of split words.old indices.old places.old fats.old) }
    ensures sound { IsSound (world_of split words.new indices.new places.new fats.new) }
    ensures exact { (room : Bool)
        × (record {
          answer = result;
          after = world_of split words.new indices.new places.new fats.new;
        } ≡ step_of room (world_of split words.old indices.old places.old fats.old)
        (step.Go thread)) }
{
    let Some(index) = indices.index_of(thread) else {
        return Err(Fault::NoThread);
    };
    let berth = index as usize - 1;
    match places[berth] {
        Place::Idle => Err(Fault::NotCalling),
        Place::InCall(stage) => {
            let place = &mut places[berth];
            Ok(go_from(split, words, fats, index, thread, stage, place))
        }
        Place::Ending { loaded } if (loaded as usize) < words.len() => {
            let place = &mut places[berth];
            Ok(look(split, words, index, thread, loaded, place))
        }
        Place::Ending { .. } => Ok(end(indices, places, fats, thread, berth)),
        Place::AtPost => collect(places, fats, thread, berth),
    }
}

/// Takes the reply that a thread at its post was granted, if it was granted one.
#[inline(always)]
fn collect(
    places: &mut [Place],
    fats: &mut Fats,
    thread: ThreadId,
    berth: usize,
) -> Result<Did, Fault>
    requires berthed { berth < length places.old }
    requires attached { IsAttached fats.old thread }
    ensures { (split : Split) (words : List Word) (berths : List (Option ThreadId))
        → record { answer = result; after = world_of split words berths places.new fats.new }
        ≡ after_collect (world_of split words berths places.old fats.old) berth thread
        (outcome_of fats.old thread action.Collect).answer
        (outcome_of fats.old thread action.Collect).after }
{
    let action = Action::Collect;
    let Ok(Done { answer, .. }) = fats.act(thread, action) else {
        return Err(Fault::Parked);
    };
    let Answer::Reply(reply) = answer else {
        unreachable!();
    };
    places[berth] = Place::Idle;
    Ok(Did::return_alone(Atomic::Acted { action, answer }, thread, reply))
}

/// Ends a thread that owns no object thinly: unless it owns a fat monitor, it is live no longer,
/// and its index is free.
fn end(
    indices: &mut Indices,
    places: &mut [Place],
    fats: &mut Fats,
    thread: ThreadId,
    berth: usize,
) -> Did
    requires berthed { berth < length places.old }
    requires here { berth_of indices.old thread ≡ Some berth }
    requires out { post_of fats.old thread ≡ Some Out }
    ensures { (split : Split) (words : List Word)
        → record {
          answer = Ok result;
          after = world_of split words indices.new places.new fats.new;
        } ≡ after_end (world_of split words indices.old places.old fats.old) berth thread
        (outcome_of fats.old thread action.End).answer
        (outcome_of fats.old thread action.End).after }
{
    places[berth] = Place::Idle;
    let action = Action::End;
    let Ok(Done { answer, .. }) = fats.act(thread, action) else {
        unreachable!();
    };
    let Answer::Reply(reply) = answer else {
        unreachable!();
    };
    if let Reply::Ended = reply {
        let _ = indices.give(thread);
    }
    let made = move_for(Call::End, reply, None, thread);
    Did::move_and_return(Atomic::Acted { action, answer }, made, thread, reply)
}
