//! The text of a live script that was run.

ghost use Rattle.std.specs.Prelude.{◌≡◌, ◌<◌, ◌^◌, ◌++◌, ◌∷◌, [], IfOk, OnOk, length, map};
ghost use Rattle.std.specs.Prelude.{string_bytes, sum, vec_items};
ghost use Rattle.live_scripts.specs.Plans.{objects_of};
ghost use Rattle.live_scripts.specs.Rules.{attached_threads};
ghost use Rattle.live_runs.specs.Texts.{answer_text, answers_text, deeds_text, each_text};
ghost use Rattle.live_runs.specs.Texts.{live_text, object_text, stop_text, thread_text};

use fat_monitor::Reply;
use live_scripts::{LiveScript, plan_of};
use live_turns::{Closed, LiveFault};
use lock_word::{Memory, Word};
use std::alloc::{AllocError, Global};
use std::fmt::Write;

/// The text of a live script that was run: a line for each thread, with what its calls came to; a
/// line for each object, with its word; and how many deeds the record has.
///
/// There is one worker for each thread of the script, in the order of their lines, and one word for
/// each object.
pub fn live_text(
    alloc: Global,
    script: &LiveScript<'_>,
    workers: &[(Vec<Result<Reply, LiveFault>>, bool)],
    closed: &Closed,
) -> Result<String, Memory>
    requires threads { length workers.now ≡ length (attached_threads script.now) }
    requires objects { length closed.now.words.items ≡ length (objects_of script.now) }
    requires deeds { sum closed.now.counts.items < 2 ^ 64 }
    ensures { IfOk result (λ text. string_bytes text ≡ live_text script.now
        (map (λ w. (vec_items w.0, w.1)) workers.now) closed.now) }
{
    let plan = plan_of(alloc, script)?;
    let mut text = String::new(alloc);
    put_threads(&mut text, &plan.threads, workers)?;
    put_objects(&mut text, &plan.objects, &closed.words)?;
    put_deeds(&mut text, &closed.counts)?;
    Ok(text)
}

/// Writes a line for each thread.
fn put_threads(
    text: &mut String,
    names: &[&str],
    workers: &[(Vec<Result<Reply, LiveFault>>, bool)],
) -> Result<(), AllocError>
    requires { length workers.now ≡ length names.now }
    ensures { OnOk result (string_bytes text.new ≡ string_bytes text.old
        ++ each_text thread_text (map (λ t. t.now) names.now)
        (map (λ w. (vec_items w.0, w.1)) workers.now)) }
{
    'threads: for (position, name) in names.iter().enumerate() {
        put_thread(text, name, &workers[position])?;
    }
    Ok(())
}

/// Writes the line of a thread.
fn put_thread(
    text: &mut String,
    name: &str,
    worker: &(Vec<Result<Reply, LiveFault>>, bool),
) -> Result<(), AllocError>
    ensures { OnOk result (string_bytes text.new
        ≡ string_bytes text.old ++ thread_text name.now (vec_items worker.now.0, worker.now.1)) }
{
    write!(text, "thread {name}")?;
    put_answers(text, &worker.0)?;
    let stop = stop_word(worker.1);
    writeln!(text, "{stop}")
}

fn stop_word(stopped: bool) -> &'static str
    ensures { result.now ≡ stop_text stopped }
{
    if stopped { " stopped" } else { "" }
}

/// Writes what calls came to, each behind a space.
fn put_answers(text: &mut String, answers: &[Result<Reply, LiveFault>]) -> Result<(), AllocError>
    ensures { OnOk result (string_bytes text.new
        ≡ string_bytes text.old ++ answers_text answers.now) }
{
    'answers: for answer in answers {
        put_answer(text, *answer)?;
    }
    Ok(())
}

/// Writes what a call came to.
fn put_answer(text: &mut String, answer: Result<Reply, LiveFault>) -> Result<(), AllocError>
    ensures { OnOk result (string_bytes text.new ≡ string_bytes text.old ++ answer_text answer) }
{
    match answer {
        Ok(Reply::Refused(cause)) => write!(text, " Refused/{cause}"),
        Ok(reply) => write!(text, " {reply}"),
        Err(fault) => {
            let number = fault.number();
            write!(text, " fault/{number}/{fault}")
        }
    }
}

/// Writes a line for each object.
fn put_objects(text: &mut String, names: &[&str], words: &[Word]) -> Result<(), AllocError>
    requires { length words.now ≡ length names.now }
    ensures { OnOk result (string_bytes text.new ≡ string_bytes text.old
        ++ each_text object_text (map (λ t. t.now) names.now) (map (λ w. w.0) words.now)) }
{
    'objects: for (position, name) in names.iter().enumerate() {
        put_object(text, name, words[position])?;
    }
    Ok(())
}

/// Writes the line of an object.
fn put_object(text: &mut String, name: &str, word: Word) -> Result<(), AllocError>
    ensures { OnOk result (string_bytes text.new
        ≡ string_bytes text.old ++ object_text name.now word.0) }
{
    writeln!(text, "object {name} {word}")
}

/// Writes how many deeds the passes did together.
fn put_deeds(text: &mut String, counts: &[u64]) -> Result<(), AllocError>
    requires { sum counts.now < 2 ^ 64 }
    ensures { OnOk result (string_bytes text.new
        ≡ string_bytes text.old ++ deeds_text (sum counts.now)) }
{
    let deeds = counts.iter().sum::<u64>();
    writeln!(text, "actions {deeds}")
}
