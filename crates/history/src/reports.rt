//! Reports: what each step of a script answered, and how the objects stand behind the last.

ghost use Rattle.std.specs.Prelude.{◌≡◌, ◌<◌, ◌++◌, ◌∷◌, [], Err, IfOk, OnOk, codes, decimal};
ghost use Rattle.std.specs.Prelude.{length, map, string_bytes, unwrap_or, vec_items};
ghost use Rattle.lock_word.specs.Names.{word_text};
ghost use Rattle.script_text.specs.Lines.{split_name};
ghost use Rattle.step_core.specs.Names.{fault_name, fault_number};
ghost use Rattle.step_core.specs.Names.{relayout_fault_name, relayout_fault_number};
ghost use Rattle.thread_index.specs.Indices.{index_of};
ghost use Rattle.history.specs.NameLists.{name_at};
ghost use Rattle.step_core.specs.Shown.{shown};
ghost use Rattle.step_core.specs.declared.steps.Fault.TheVariants.{Memory as OutOfMemory};
ghost use Rattle.step_core.specs.declared.worlds.relayout.RelayoutFault.TheVariants.{Memory as NoMemory};
ghost use Rattle.history.specs.Reports.{AreEmpty, AreWaitSets, IsAdded, IsReportOf, ReportsOne};
ghost use Rattle.history.specs.Reports.{Reports, atomic_text, did_text, ending_text, exchange_text};
ghost use Rattle.history.specs.Reports.{more_threads_text, object_lines, object_text, owner_text};
ghost use Rattle.history.specs.Reports.{relayout_text, shown_word, standing_text, step_text};
ghost use Rattle.history.specs.Reports.{threads_text};

use crate::names::Names;
use crate::plans::Plan;
use crate::words::{act_text, put_reply, put_word, put_words};
use fat_monitor::Answer;
use lock_word::{Memory, ObjectId, Split, ThreadId, Word};
use std::alloc::{AllocError, Global};
use std::fmt::Write;
use step_core::{Atomic, Did, Doing, Fault, RelayoutFault, Request, Step, World};

/// Plays a script and writes its report: a line for each step and relayout, then a line for each
/// object.
pub(crate) fn report_of(alloc: Global, plan: &Plan) -> Result<String, Memory>
    ensures { IfOk result (λ report. IsReportOf plan.now (string_bytes report)) }
{
    let mut world = World::new(alloc, &plan.lows, plan.monitors, plan.indices, plan.split)?;
    let mut report = String::new(alloc);
    put_steps(&mut report, &plan.names, &mut world, &plan.steps)?;
    put_objects(alloc, &mut report, &plan.names, &world)?;
    Ok(report)
}

/// Does steps and relayouts, and writes the line of each.
fn put_steps(
    report: &mut String,
    names: &Names,
    world: &mut World,
    steps: &[Request],
) -> Result<(), Memory>
    ensures { OnOk result (Reports names.now world.old steps.now world.new
        (string_bytes report.old) (string_bytes report.new)) }
{
    'steps: for request in steps {
        put_request(report, names, world, *request)?;
    }
    Ok(())
}

/// Does a step or a relayout, and writes its line.
fn put_request(
    report: &mut String,
    names: &Names,
    world: &mut World,
    request: Request,
) -> Result<(), Memory>
    ensures { OnOk result (ReportsOne names.now world.old request world.new
        (string_bytes report.old) (string_bytes report.new)) }
{
    match request {
        Request::Step(step) => {
            let answer = world.step(step);
            put_answer(report, names, world, step, answer)
        }
        Request::Relayout(split) => {
            let answer = world.relayout(split);
            put_relayout(report, split, answer)
        }
    }
}

/// Writes the line of a step that answered this, unless it is want of memory.
fn put_answer(
    report: &mut String,
    names: &Names,
    world: &World,
    step: Step,
    answer: Result<Did, Fault>,
) -> Result<(), Memory>
    ensures told { OnOk result (string_bytes report.new
        ≡ string_bytes report.old ++ step_text names.now world.now step answer) }
    ensures memory { OnOk result (answer ≡ Err OutOfMemory → ⊥) }
{
    match answer {
        Ok(did) => put_step(report, names, world, step, did)?,
        Err(Fault::Memory) => return Err(Memory),
        Err(fault) => put_fault(report, fault)?,
    }
    Ok(())
}

fn put_fault(report: &mut String, fault: Fault) -> Result<(), AllocError>
    ensures { OnOk result (string_bytes report.new ≡ string_bytes report.old
        ++ codes "fault " ++ decimal (fault_number fault) ++ 32 ∷ fault_name fault ++ 10 ∷ []) }
{
    let number = fault.number();
    writeln!(report, "fault {number} {fault}")
}

/// Writes the line of a relayout that answered this, unless it is want of memory.
fn put_relayout(
    report: &mut String,
    split: Split,
    answer: Result<u32, RelayoutFault>,
) -> Result<(), Memory>
    ensures told { OnOk result (string_bytes report.new
        ≡ string_bytes report.old ++ relayout_text split answer) }
    ensures memory { OnOk result (answer ≡ Err NoMemory → ⊥) }
{
    let name = split_word(split);
    match answer {
        Ok(inflated) => writeln!(report, "relayout {name} inflated {inflated}")?,
        Err(RelayoutFault::Memory) => return Err(Memory),
        Err(fault) => put_relayout_fault(report, fault)?,
    }
    Ok(())
}

fn put_relayout_fault(report: &mut String, fault: RelayoutFault) -> Result<(), AllocError>
    ensures { OnOk result (string_bytes report.new ≡ string_bytes report.old ++ codes "fault "
        ++ decimal (relayout_fault_number fault) ++ 32 ∷ relayout_fault_name fault ++ 10 ∷ []) }
{
    let number = fault.number();
    writeln!(report, "fault {number} {fault}")
}

fn split_word(split: Split) -> &'static str
    ensures { result.now ≡ split_name split }
{
    match split {
        Split::Wide => "wide",
        Split::Deep => "deep",
    }
}

/// Writes the line of a step that was accepted.
fn put_step(
    report: &mut String,
    names: &Names,
    world: &World,
    step: Step,
    did: Did,
) -> Result<(), AllocError>
    ensures { OnOk result (string_bytes report.new
        ≡ string_bytes report.old ++ did_text names.now world.now step did) }
{
    match step {
        Step::Attach { thread } => put_attach(report, names, world, thread),
        Step::Begin { thread, .. } => put_verb(report, "begin ", names.name_of_thread(thread)),
        Step::Expire { thread } => put_verb(report, "expire ", names.name_of_thread(thread)),
        Step::Spurious { thread } => put_verb(report, "spurious ", names.name_of_thread(thread)),
        Step::Tick { now } => writeln!(report, "tick {now}"),
        Step::Go { thread } => put_go(report, names, thread, did),
    }
}

/// Writes the line of a step of which no more is told than its thread. The verb has its blank.
///
/// In place, so that the verb is a constant where it is pushed: a few instructions copy it, and no
/// call.
#[inline(always)]
fn put_verb(report: &mut String, verb: &'static str, name: &str) -> Result<(), AllocError>
    ensures { OnOk result (string_bytes report.new
        ≡ string_bytes report.old ++ verb.now ++ name.now ++ 10 ∷ []) }
{
    report.push_str(verb)?;
    report.push_str(name)?;
    report.push_str("\n")
}

/// Writes the line of a thread that was attached.
fn put_attach(
    report: &mut String,
    names: &Names,
    world: &World,
    thread: ThreadId,
) -> Result<(), AllocError>
    ensures { OnOk result (string_bytes report.new ≡ string_bytes report.old
        ++ codes "attach " ++ name_at names.now.threads thread.0 ++ codes " index "
        ++ decimal (unwrap_or (index_of world.now.berths thread) 0) ++ 10 ∷ []) }
{
    let name = names.name_of_thread(thread);
    let index = world.index(thread).unwrap_or(0);
    writeln!(report, "attach {name} index {index}")
}

/// Writes the line of a thread that went on.
fn put_go(report: &mut String, names: &Names, thread: ThreadId, did: Did) -> Result<(), AllocError>
    ensures { OnOk result (string_bytes report.new ≡ string_bytes report.old
        ++ codes "go " ++ name_at names.now.threads thread.0
        ++ 32 ∷ atomic_text names.now did.atomic ++ ending_text did.reply did.atomic ++ 10 ∷ []) }
{
    report.push_str("go ")?;
    report.push_str(names.name_of_thread(thread))?;
    put_atomic(report, names, did.atomic)?;
    put_ending(report, did)
}

/// Ends the line of a `go`: with the reply, where the call ended, or with ` = parked`, where the
/// thread stands in a line now.
fn put_ending(report: &mut String, did: Did) -> Result<(), AllocError>
    ensures { OnOk result (string_bytes report.new
        ≡ string_bytes report.old ++ ending_text did.reply did.atomic ++ 10 ∷ []) }
{
    match did {
        Did {
            reply: Some(reply),
            ..
        } => put_reply(report, reply),
        Did {
            atomic: Atomic::Acted {
                answer: Answer::Parked,
                ..
            },
            ..
        } => report.push_str(" = parked\n"),
        Did { .. } => report.push_str("\n"),
    }
}

/// Writes a blank, and what a step did to the words or the fat monitors.
fn put_atomic(report: &mut String, names: &Names, atomic: Atomic) -> Result<(), AllocError>
    ensures { OnOk result (string_bytes report.new
        ≡ string_bytes report.old ++ 32 ∷ atomic_text names.now atomic) }
{
    match atomic {
        Atomic::Label => report.push_str(" "),
        Atomic::Load { object, word } => put_seen(report, names, " load ", object, word),
        Atomic::Won { object, old, new } => put_written(report, names, " won ", object, old, new),
        Atomic::Lost { object, word } => put_seen(report, names, " lost ", object, word),
        Atomic::Stored { object, old, new } => {
            put_written(report, names, " store ", object, old, new)
        }
        Atomic::Bound { object, monitor } => {
            let object = names.name_of_object(object);
            write!(report, " bind {object} {monitor}")
        }
        Atomic::NotBound { object, cause } => {
            let object = names.name_of_object(object);
            write!(report, " nobind {object} {cause}")
        }
        Atomic::Acted { action, .. } => report.push_str(act_text(action)),
    }
}

/// Writes that a step saw a word of an object. The verb has its blanks.
///
/// In place, so that the verb is a constant where it is pushed: a few instructions copy it, and no
/// call.
#[inline(always)]
fn put_seen(
    report: &mut String,
    names: &Names,
    verb: &'static str,
    object: ObjectId,
    word: Word,
) -> Result<(), AllocError>
    ensures { OnOk result (string_bytes report.new ≡ string_bytes report.old
        ++ verb.now ++ name_at names.now.objects object.0 ++ 32 ∷ word_text word.0) }
{
    report.push_str(verb)?;
    report.push_str(names.name_of_object(object))?;
    put_word(report, word)
}

/// Writes that a step wrote the word of an object. The verb has its blanks.
///
/// In place, as `put_seen` is.
#[inline(always)]
#[tactic(auto, unfolding(crate::specs::Reports::shown_word))]
fn put_written(
    report: &mut String,
    names: &Names,
    verb: &'static str,
    object: ObjectId,
    old: Word,
    new: Word,
) -> Result<(), AllocError>
    ensures { OnOk result (string_bytes report.new ≡ string_bytes report.old
        ++ verb.now ++ name_at names.now.objects object.0 ++ 32 ∷ exchange_text old new) }
{
    report.push_str(verb)?;
    report.push_str(names.name_of_object(object))?;
    put_words(report, old, new)
}

/// Writes a line for each object of a world.
fn put_objects(
    alloc: Global,
    report: &mut String,
    names: &Names,
    world: &World,
) -> Result<(), AllocError>
    ensures { OnOk result (string_bytes report.new ≡ string_bytes report.old
        ++ object_lines names.now world.now (shown world.now).objects) }
{
    let wait_sets = wait_sets_of(alloc, names, world)?;
    'objects: for number in 0..world.objects() {
        let threads = &wait_sets[number as usize];
        put_object(report, names, world, ObjectId(number), threads)?;
    }
    Ok(())
}

/// Writes the line of an object, in whose wait set these threads are.
#[tactic(auto, unfolding(crate::specs::Reports::shown_word))]
fn put_object(
    report: &mut String,
    names: &Names,
    world: &World,
    object: ObjectId,
    waiting: &[ThreadId],
) -> Result<(), AllocError>
    requires { object.0 < length world.now.words }
    ensures { OnOk result (string_bytes report.new ≡ string_bytes report.old
        ++ object_text names.now world.now object waiting.now) }
{
    put_seen(report, names, "object ", object, world.word(object))?;
    put_standing(report, names, world, object)?;
    report.push_str(" waiting ")?;
    put_threads(report, names, waiting)?;
    report.push_str("\n")
}

/// Writes who owns an object, and how often.
#[tactic(auto, unfolding(crate::specs::Reports::standing_text))]
pub fn put_standing(
    report: &mut String,
    names: &Names,
    world: &World,
    object: ObjectId,
) -> Result<(), AllocError>
    requires { object.0 < length world.now.words }
    ensures { OnOk result (string_bytes report.new
        ≡ string_bytes report.old ++ standing_text names.now world.now object) }
{
    let owner = owner_name(names, world.owner(object));
    let holds = world.holds(object);
    write!(report, " owner {owner} holds {holds}")
}

/// The name of an owner, or `-` where there is none.
pub fn owner_name(names: &Names, owner: Option<ThreadId>) -> &str
    ensures { result.now ≡ owner_text names.now owner }
{
    match owner {
        Some(thread) => names.name_of_thread(thread),
        None => "-",
    }
}

/// The threads in the wait set of each object, by rising number: those that have a name.
pub fn wait_sets_of(
    alloc: Global,
    names: &Names,
    world: &World,
) -> Result<Vec<Vec<ThreadId>>, AllocError>
    ensures { IfOk result (λ sets. AreWaitSets world.now (length names.now.threads) sets.items) }
{
    let mut wait_sets = empty_sets(alloc, world.objects())?;
    'threads: for number in 0..names.thread_count() {
        add_waiter(&mut wait_sets, world, ThreadId(number))?;
    }
    Ok(wait_sets)
}

/// Some sets of no threads.
fn empty_sets(alloc: Global, count: u32) -> Result<Vec<Vec<ThreadId>>, AllocError>
    ensures { IfOk result (λ sets. AreEmpty count sets.items) }
{
    let mut sets = Vec::new(alloc);
    'sets: for _ in 0..count {
        sets.push(Vec::new(alloc))?;
    }
    Ok(sets)
}

/// Adds a thread to the wait set in which it is, if it is in one.
fn add_waiter(
    wait_sets: &mut Vec<Vec<ThreadId>>,
    world: &World,
    thread: ThreadId,
) -> Result<(), AllocError>
    requires { length wait_sets.old.items ≡ length world.now.words }
    ensures { OnOk result (IsAdded world.now thread wait_sets.old.items wait_sets.new.items) }
{
    let Some(Doing::Waits { object, .. }) = world.doing(thread) else {
        return Ok(());
    };
    wait_sets[object.0 as usize].push(thread)?;
    Ok(())
}

/// Writes the names of some threads between commas, or `-` where there is none.
pub fn put_threads(
    report: &mut String,
    names: &Names,
    threads: &[ThreadId],
) -> Result<(), AllocError>
    ensures { OnOk result (string_bytes report.new
        ≡ string_bytes report.old ++ threads_text names.now threads.now) }
{
    let [first, rest @ ..] = threads else {
        return report.push_str("-");
    };
    let name = names.name_of_thread(*first);
    write!(report, "{name}")?;
    put_more_threads(report, names, rest)
}

/// Writes the names of some threads, each behind a comma.
fn put_more_threads(
    report: &mut String,
    names: &Names,
    threads: &[ThreadId],
) -> Result<(), AllocError>
    ensures { OnOk result (string_bytes report.new
        ≡ string_bytes report.old ++ more_threads_text names.now threads.now) }
{
    'threads: for thread in threads {
        let name = names.name_of_thread(*thread);
        write!(report, ",{name}")?;
    }
    Ok(())
}
