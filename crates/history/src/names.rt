//! The names of threads and objects, and their numbers.

ghost use Rattle.std.specs.Prelude.{◌≡◌, ◌≤◌, ◌++◌, ◌∷◌, [], false, true, length, map};
ghost use Rattle.std.specs.Prelude.{string_bytes, IfOk, IfSome, MatchOption, OnErr, OnOk};
ghost use Rattle.script_text.specs.Names.{is_named, position_of, with_name};
ghost use Rattle.history.specs.NameLists.{name_at};

use crate::hints::{Mixed, NameHints};
use indexmap::IndexSet;
use lock_word::{Memory, ObjectId, ThreadId};
use script_text::{Declared, Name};
use std::alloc::Global;
use std::marker::Model;

/// The most names that numbers of 32 bits tell apart, with one number left for what has no name.
const MOST_NAMES: usize = 4_294_967_295;

/// The names of a script: those of its threads, numbered from 0 in order of first appearance, and
/// those of its objects, numbered from 0 in order of declaration. A thread and an object may share
/// a name.
#[derive(Drop)]
pub struct Names {
    alloc: Global,
    threads: NameSet,
    objects: NameSet,
}

/// Some names in order of their numbers, and hints of the numbers.
#[derive(Drop)]
struct NameSet {
    names: IndexSet<String>,
    hints: NameHints,
}

impl Model for Names {
    ghost use Rattle.std.specs.Prelude.{◌≤◌, length, map, string_bytes};
    ghost use Rattle.history.specs.NameLists.{NameLists};

    ghost Value = { NameLists };

    ghost view = { λ n. record {
      threads = map string_bytes n.threads.names.keys;
      objects = map string_bytes n.objects.names.keys;
    } };

    ghost invariant = { λ n. (length n.threads.names.keys ≤ 4294967295)
        × (length n.objects.names.keys ≤ 4294967295) };
}

impl Names {
    /// No name.
    pub fn new(alloc: Global) -> Names
        ensures { result ≡ record { threads = []; objects = [] } }
    {
        Names {
            alloc,
            threads: NameSet::new(alloc),
            objects: NameSet::new(alloc),
        }
    }

    /// The thread with a name, which gets the next number where the name is new.
    #[inline(always)]
    pub fn thread(&mut self, name: &Name<'_>) -> Result<ThreadId, Memory>
        ensures found { IfOk result (λ thread.
            thread ≡ record { 0 = position_of self.old.threads name.now }) }
        ensures noted { OnOk result (self.new
            ≡ record self.old { threads = with_name self.old.threads name.now }) }
        ensures err { OnErr result (self.new ≡ self.old) }
    {
        let number = number_of_name(self.alloc, &mut self.threads, name.as_str())?;
        Ok(ThreadId(number))
    }

    /// Declares an object.
    pub fn declare(&mut self, name: &Name<'_>) -> Result<(), Memory>
        requires { is_named self.old.objects name.now ≡ false }
        ensures noted { OnOk result (self.new
            ≡ record self.old { objects = self.old.objects ++ name.now ∷ [] }) }
        ensures err { OnErr result (self.new ≡ self.old) }
    {
        add_name(self.alloc, &mut self.objects, name.as_str())?;
        Ok(())
    }

    /// The object with a name. A name that was not declared stands for the number of the objects,
    /// which no object has.
    #[inline(always)]
    pub fn object(&mut self, name: &Name<'_>) -> ObjectId
        ensures found { result ≡ record { 0 = position_of self.old.objects name.now } }
        ensures same { self.new ≡ self.old }
    {
        ObjectId(position_of(&mut self.objects, name.as_str()))
    }

    /// Gives the memory of the hints back, where no name will be looked for any more.
    pub(crate) fn forget_hints(&mut self)
        ensures { self.new ≡ self.old }
    {
        self.threads.hints.clear(self.alloc);
        self.objects.hints.clear(self.alloc);
    }

    /// How many threads have a name: they are numbered from 0.
    pub fn thread_count(&self) -> u32
        ensures { result ≡ length self.now.threads }
    {
        self.threads.names.len() as u32
    }

    /// The name of a thread, or `-` where it has none.
    pub fn name_of_thread(&self, thread: ThreadId) -> &str
        ensures { result.now ≡ name_at self.now.threads thread.0 }
    {
        name_with_number(&self.threads.names, thread.0)
    }

    /// The name of an object, or `-` where it has none.
    pub fn name_of_object(&self, object: ObjectId) -> &str
        ensures { result.now ≡ name_at self.now.objects object.0 }
    {
        name_with_number(&self.objects.names, object.0)
    }
}

impl NameSet {
    /// No name.
    fn new(alloc: Global) -> NameSet
        ensures { result.names.keys ≡ [] }
    {
        NameSet {
            names: IndexSet::new(alloc),
            hints: NameHints::new(alloc),
        }
    }
}

impl Declared for Names {
    ghost use Rattle.std.specs.Prelude.{List, ℕ};
    ghost use Rattle.history.specs.NameLists.{NameLists};

    ghost names = { λ n. n.objects };

    fn has(&self, name: &Name<'_>) -> bool {
        has_name(&self.objects.names, name.as_str())
    }

    fn count(&self) -> usize {
        self.objects.names.len()
    }
}

#[inline(never)]
fn has_name(names: &IndexSet<String>, word: &str) -> bool
    ensures { result ≡ is_named (map string_bytes names.now.keys) word.now }
{
    names.contains(word)
}

/// The number of a name among some, to which it is added where it is new.
fn number_of_name(alloc: Global, names: &mut NameSet, word: &str) -> Result<u32, Memory>
    requires { length names.old.names.keys ≤ MOST_NAMES }
    ensures fits { length names.new.names.keys ≤ MOST_NAMES }
    ensures number { IfOk result (λ number.
        number ≡ position_of (map string_bytes names.old.names.keys) word.now) }
    ensures names { OnOk result (map string_bytes names.new.names.keys
        ≡ with_name (map string_bytes names.old.names.keys) word.now) }
    ensures err { OnErr result
        (map string_bytes names.new.names.keys ≡ map string_bytes names.old.names.keys) }
{
    match found_name(names, word) {
        Some(number) => Ok(number),
        None => add_name(alloc, names, word),
    }
}

/// Adds a name to some, unless it is there, and tells its number.
fn add_name(alloc: Global, names: &mut NameSet, word: &str) -> Result<u32, Memory>
    requires { length names.old.names.keys ≤ MOST_NAMES }
    ensures fits { length names.new.names.keys ≤ MOST_NAMES }
    ensures number { IfOk result (λ number.
        number ≡ position_of (map string_bytes names.old.names.keys) word.now) }
    ensures names { OnOk result (map string_bytes names.new.names.keys
        ≡ with_name (map string_bytes names.old.names.keys) word.now) }
    ensures err { OnErr result
        (map string_bytes names.new.names.keys ≡ map string_bytes names.old.names.keys) }
{
    if names.names.len() >= MOST_NAMES {
        return Err(Memory);
    }
    let name = String::from_str(alloc, word)?;
    let (number, _) = names.names.insert_full(name)?;
    names
        .hints
        .add(alloc, names.names.as_slice(), word, number as u32);
    Ok(number as u32)
}

/// The number of a name among some: for one that is not there, how many there are.
fn position_of(names: &mut NameSet, word: &str) -> u32
    requires { length names.old.names.keys ≤ MOST_NAMES }
    ensures position { result ≡ position_of (map string_bytes names.old.names.keys) word.now }
    ensures same { names.new.names ≡ names.old.names }
{
    match found_name(names, word) {
        Some(number) => number,
        None => names.names.len() as u32,
    }
}

/// The number of a name among some, if it is there: that of the hint, where the name with that
/// number is the one.
fn found_name(names: &mut NameSet, word: &str) -> Option<u32>
    requires { length names.old.names.keys ≤ MOST_NAMES }
    ensures number { MatchOption result
        ((position_of (map string_bytes names.old.names.keys) word.now
        ≡ length names.old.names.keys)
        × (is_named (map string_bytes names.old.names.keys) word.now ≡ false))
        (λ number. (number ≡ position_of (map string_bytes names.old.names.keys) word.now)
        × (is_named (map string_bytes names.old.names.keys) word.now ≡ true)) }
    ensures same { names.new.names ≡ names.old.names }
{
    if names.hints.is_empty() {
        return listed(&names.names, word);
    }
    let mixed = Mixed::of(word);
    if let Some(number) = hinted(&names.names, names.hints.number(mixed), word) {
        return Some(number);
    }
    let number = listed(&names.names, word)?;
    names.hints.put(mixed, number);
    Some(number)
}

/// The number of a name among some by its hash, if it is there.
fn listed(names: &IndexSet<String>, word: &str) -> Option<u32>
    requires { length names.now.keys ≤ MOST_NAMES }
    ensures { MatchOption result
        ((position_of (map string_bytes names.now.keys) word.now ≡ length names.now.keys)
        × (is_named (map string_bytes names.now.keys) word.now ≡ false))
        (λ number. (number ≡ position_of (map string_bytes names.now.keys) word.now)
        × (is_named (map string_bytes names.now.keys) word.now ≡ true)) }
{
    let number = names.get_index_of(word)? as u32;
    Some(number)
}

/// A number that a hint gave, where it is that of the name.
fn hinted(names: &IndexSet<String>, hint: Option<u32>, word: &str) -> Option<u32>
    ensures { IfSome result (λ number.
        (number ≡ position_of (map string_bytes names.now.keys) word.now)
        × (is_named (map string_bytes names.now.keys) word.now ≡ true)) }
{
    let number = hint?;
    let name = names.as_slice().get(number as usize)?;
    if name.as_str() == word {
        Some(number)
    } else {
        None
    }
}

/// The name that has a number among some, or `-`.
fn name_with_number(names: &IndexSet<String>, number: u32) -> &str
    ensures { result.now ≡ name_at (map string_bytes names.now.keys) number }
{
    match names.get_index(number as usize) {
        Some(name) => name.as_str(),
        None => "-",
    }
}
