//! The attached threads: where each stands, and whether it is interrupted.

ghost use Rattle.std.specs.Prelude.{◌≡◌, ◌<◌, ◌↔◌, OnOk, OnErr, IfSome, IsErrOf, IsSome, Some, None};
ghost use Rattle.std.specs.Prelude.{IsTrue, cond, false, is_some, nat_eq, ℕ};
ghost use Rattle.std.specs.Map.{lookup};
ghost use Rattle.std.specs.Option.{unwrap_or};
ghost use Rattle.std.specs.FinMap as map;
ghost use Rattle.lock_word.specs.declared.ThreadId.{ThreadId};
ghost use Rattle.fat_monitor.specs.declared.actions.Post.{Post};
ghost use Rattle.fat_monitor.specs.FatState.{waits, wait_count};
ghost use Rattle.fat_monitor.specs.Slots.{nobody_posted, with_thread_posted, without_thread_posted};
ghost use Rattle.slab.specs.Slab.{ContainsKey};
ghost use Rattle.fat_monitor.specs.Slots.{HaveKeys, LeadsTo, LeadToRecords};
ghost use Rattle.fat_monitor.specs.Slots.{with_parked, count_of, one_less, one_more, handed_over};

mod copies;

use crate::{AttachFault, Post};
use lock_word::ThreadId;
use slab::Slab;
use std::alloc::{AllocError, Global};
use std::collections::HashMap;
use std::marker::Model;
use thread_hints::Hints;
use wait_lines::Node;

/// What is kept of an attached thread.
#[derive(Clone, Copy)]
struct Record {
    thread: ThreadId,
    post: Post,
    // Where the thread stands, if it stands in a line.
    node: Node,
    // The interrupt flag (JLS SE 8, 17.2.3).
    flag: bool,
    // How many monitors the thread owns.
    owned: u32,
}

/// The post, the node and the interrupt flag of each attached thread, and how many monitors it
/// owns.
#[derive(Drop)]
pub(crate) struct Posts {
    records: Slab<Record>,
    // The key of each attached thread's record, by the thread's number.
    keys: HashMap<u32, usize>,
    // Where a thread may have its record, which is looked at before the keys: they take a hash.
    hints: Hints,
    // How many of the threads stand in wait sets.
    waiting: usize,
}

impl Model for Posts {
    ghost use Rattle.std.specs.Coded.{codes};
    ghost use Rattle.std.specs.FinMap as map;
    ghost use Rattle.std.specs.Prelude.{◌≡◌};
    ghost use Rattle.fat_monitor.specs.FatState.{wait_count};
    ghost use Rattle.fat_monitor.specs.Slots.{Posted, posted_in, posts_in, LeadToRecords, HaveKeys};

    ghost Value = { Posted };

    ghost coded = { Prim.hlevel (codes, map.code) };

    ghost view = { λ p. posted_in p.records p.keys.entries };

    ghost invariant = { λ p. LeadToRecords p.records p.keys.entries
        × HaveKeys p.records p.keys.entries
        × (p.waiting ≡ wait_count (posts_in p.records p.keys.entries)) };
}

// Whether the slot of this key has the record of the thread.
fn is_at(records: &Slab<Record>, key: usize, thread: ThreadId) -> bool
    ensures { IsTrue result → LeadsTo records.now thread.0 key }
{
    match records.get(key) {
        Some(record) => record.thread.0 == thread.0,
        None => false,
    }
}

// The key that a hint names, where the record there is that of the thread.
#[inline(always)]
fn hinted_key_of(records: &Slab<Record>, hints: &Hints, thread: ThreadId) -> Option<usize>
    ensures { IfSome result (λ key. LeadsTo records.now thread.0 key) }
{
    let hint = hints.position(thread.0) as usize;
    if is_at(records, hint, thread) {
        Some(hint)
    } else {
        None
    }
}

// The key of a thread's record; None where the thread is not attached.
#[inline(always)]
fn key_of(
    records: &Slab<Record>,
    keys: &HashMap<u32, usize>,
    hints: &Hints,
    thread: ThreadId,
) -> Option<usize>
    requires { HaveKeys records.now keys.now.entries }
    ensures { result ≡ lookup (nat_eq thread.0) keys.now.entries }
{
    if let Some(key) = hinted_key_of(records, hints, thread) {
        return Some(key);
    }
    listed_key_of(keys, thread)
}

// The same, and where no hint leads there, there is one from now on: the thread may have lost it to
// another whose number has the same low bits.
#[inline(always)]
fn key_noting(
    records: &Slab<Record>,
    keys: &HashMap<u32, usize>,
    hints: &mut Hints,
    thread: ThreadId,
) -> Option<usize>
    requires { HaveKeys records.now keys.now.entries }
    ensures { result ≡ lookup (nat_eq thread.0) keys.now.entries }
{
    if let Some(key) = hinted_key_of(records, hints, thread) {
        return Some(key);
    }
    let key = listed_key_of(keys, thread)?;
    note_one(hints, thread, key);
    Some(key)
}

// The key of the record of an attached thread, which has a hint from now on.
#[inline(always)]
fn attached_key(
    records: &Slab<Record>,
    keys: &HashMap<u32, usize>,
    hints: &mut Hints,
    thread: ThreadId,
) -> usize
    requires leads { LeadToRecords records.now keys.now.entries }
    requires have { HaveKeys records.now keys.now.entries }
    requires attached { IsSome (lookup (nat_eq thread.0) keys.now.entries) }
    ensures found { lookup (nat_eq thread.0) keys.now.entries ≡ Some result }
    ensures there { ContainsKey records.now result }
{
    match key_noting(records, keys, hints, thread) {
        Some(key) => key,
        None => unreachable!(),
    }
}

// The key of a thread's record by the table of keys. It is a function of its own, so that a look by
// a hint has nothing of it.
#[inline(never)]
fn listed_key_of(keys: &HashMap<u32, usize>, thread: ThreadId) -> Option<usize>
    ensures { result ≡ lookup (nat_eq thread.0) keys.now.entries }
{
    keys.get(&thread.0).copied()
}

// Notes the key of a thread's record as a hint. Where there are few hints for the records there are
// more from then on, if there is memory for them.
fn note(hints: &mut Hints, records: &Slab<Record>, thread: ThreadId, key: usize) {
    if hints.are_few_for(records.len()) && hints.widen_for(records.len()) {
        for (key, record) in records.iter() {
            note_one(hints, record.thread, key);
        }
    }
    note_one(hints, thread, key);
}

fn note_one(hints: &mut Hints, thread: ThreadId, key: usize) {
    if let Ok(position) = u32::try_from(key) {
        hints.note(thread.0, position);
    }
}

/// One where a thread with this post stands in a wait set.
fn one_waiting(post: Post) -> usize
    ensures { result ≡ cond (waits post) 1 0 }
{
    match post {
        Post::Waiting { .. } => 1,
        Post::Out | Post::Entering { .. } | Post::Back { .. } | Post::Granted(_) => 0,
    }
}

impl Posts {
    /// No thread is attached.
    pub(crate) fn new(alloc: Global) -> Posts
        ensures { result ≡ nobody_posted }
    {
        Posts {
            records: Slab::new(alloc),
            keys: HashMap::new(alloc),
            hints: Hints::new(alloc),
            waiting: 0,
        }
    }

    /// How many of the attached threads stand in wait sets.
    pub(crate) fn waiting(&self) -> usize
        ensures { result ≡ wait_count self.now.posts }
    {
        self.waiting
    }

    /// How many threads are attached.
    pub(crate) fn len(&self) -> usize
        ensures { result ≡ map.len self.now.posts }
    {
        self.keys.len()
    }

    /// Exactly the attached threads have flags.
    pub(crate) fn all_have_flags(&self)
        ensures { (q : ℕ) → is_some (map.get self.now.flags q)
            ≡ is_some (map.get self.now.posts q) }
    {
        // This rests on what always holds of these fields.
        let _ = &self.keys;
    }

    /// The post of an attached thread. It is found in place, so that a caller who asks for a part
    /// of the post copies no more than that.
    #[inline(always)]
    pub(crate) fn get(&self, thread: ThreadId) -> Option<Post>
        ensures { result ≡ map.get self.now.posts thread.0 }
    {
        let key = key_of(&self.records, &self.keys, &self.hints, thread)?;
        let record = self.records.get(key)?;
        Some(record.post)
    }

    /// Whether a thread is attached and interrupted.
    pub(crate) fn flag(&self, thread: ThreadId) -> bool
        ensures { result ≡ unwrap_or (map.get self.now.flags thread.0) false }
    {
        let Some(key) = key_of(&self.records, &self.keys, &self.hints, thread) else {
            return false;
        };
        match self.records.get(key) {
            Some(record) => record.flag,
            None => unreachable!(),
        }
    }

    /// How many monitors a thread owns; 0 where it is not attached.
    pub(crate) fn owned(&self, thread: ThreadId) -> u32
        ensures count { result ≡ count_of self.now.owned thread }
        ensures attached { 0 < result → IsSome (map.get self.now.posts thread.0) }
    {
        let Some(key) = key_of(&self.records, &self.keys, &self.hints, thread) else {
            return 0;
        };
        match self.records.get(key) {
            Some(record) => record.owned,
            None => unreachable!(),
        }
    }

    /// Attaches a thread, which stands [`Out`](Post::Out), is not interrupted, and owns no monitor.
    pub(crate) fn add(&mut self, thread: ThreadId) -> Result<(), AttachFault>
        ensures ok { OnOk result (self.new ≡ with_thread_posted self.old thread) }
        ensures fresh { OnOk result (map.get self.old.posts thread.0 ≡ None) }
        ensures nodeless { OnOk result (map.get self.old.nodes thread.0 ≡ None) }
        ensures flagless { OnOk result (map.get self.old.flags thread.0 ≡ None) }
        ensures uncounted { OnOk result (map.get self.old.owned thread.0 ≡ None) }
        ensures known { IsErrOf result AttachFault.Known
            ↔ IsSome (map.get self.old.posts thread.0) }
        ensures err { OnErr result (self.new ≡ self.old) }
    {
        if self.keys.contains_key(&thread.0) {
            return Err(AttachFault::Known);
        }
        let Ok(()) = self.records.reserve(1) else {
            return Err(AttachFault::Memory);
        };
        let key = self.records.vacant_key();
        let Ok(_) = self.keys.insert(thread.0, key) else {
            return Err(AttachFault::Memory);
        };
        let record = Record {
            thread,
            post: Post::Out,
            node: Node(0),
            flag: false,
            owned: 0,
        };
        let _ = self.records.insert_reserved(record);
        note(&mut self.hints, &self.records, thread, key);
        Ok(())
    }

    /// Puts an attached thread at another post.
    pub(crate) fn set(&mut self, thread: ThreadId, post: Post)
        requires { IsSome (map.get self.old.posts thread.0) }
        ensures { self.new ≡ record self.old { posts = map.insert self.old.posts thread.0 post } }
    {
        let key = attached_key(&self.records, &self.keys, &mut self.hints, thread);
        let record = &mut self.records[key];
        let before = one_waiting(record.post);
        record.post = post;
        // No more threads wait than are attached.
        let _ = self.keys.len();
        self.waiting = self.waiting - before + one_waiting(post);
    }

    /// The node of an attached thread, at which it stands if it stands in a line.
    pub(crate) fn node(&self, thread: ThreadId) -> Node
        requires { IsSome (map.get self.now.posts thread.0) }
        ensures { map.get self.now.nodes thread.0 ≡ Some result.0 }
    {
        let Some(key) = key_of(&self.records, &self.keys, &self.hints, thread) else {
            unreachable!();
        };
        match self.records.get(key) {
            Some(record) => record.node,
            None => unreachable!(),
        }
    }

    /// Puts an attached thread that joined a line at this node at another post.
    pub(crate) fn park(&mut self, thread: ThreadId, post: Post, node: Node)
        requires { IsSome (map.get self.old.posts thread.0) }
        ensures { self.new ≡ with_parked self.old thread post node.0 }
    {
        let key = attached_key(&self.records, &self.keys, &mut self.hints, thread);
        let record = &mut self.records[key];
        let before = one_waiting(record.post);
        *record = Record {
            thread: record.thread,
            post,
            node,
            flag: record.flag,
            owned: record.owned,
        };
        // No more threads wait than are attached.
        let _ = self.keys.len();
        self.waiting = self.waiting - before + one_waiting(post);
    }

    /// Sets or clears the interrupt flag of an attached thread.
    pub(crate) fn set_flag(&mut self, thread: ThreadId, flag: bool)
        requires { IsSome (map.get self.old.posts thread.0) }
        ensures { self.new ≡ record self.old { flags = map.insert self.old.flags thread.0 flag } }
    {
        let key = attached_key(&self.records, &self.keys, &mut self.hints, thread);
        self.records[key].flag = flag;
    }

    /// Counts a monitor that goes from one owner to another: one less for the thread that owned it,
    /// and one more for the thread that owns it now. It stands in place with both counts, since its
    /// callers know which of the two threads there is.
    #[inline(always)]
    pub(crate) fn hand_over(&mut self, from: Option<ThreadId>, to: Option<ThreadId>)
        requires owned { (t : ThreadId) → from ≡ Some t → 0 < count_of self.old.owned t }
        requires attached { (t : ThreadId) → to ≡ Some t → IsSome (map.get self.old.posts t.0) }
        requires few { (t : ThreadId) → to ≡ Some t → count_of self.old.owned t < 4294967295 }
        ensures { self.new ≡ record self.old { owned = handed_over self.old.owned from to } }
    {
        self.count_one_less(from);
        self.count_one_more(to);
    }

    #[inline(always)]
    fn count_one_less(&mut self, owner: Option<ThreadId>)
        requires { (t : ThreadId) → owner ≡ Some t → 0 < count_of self.old.owned t }
        ensures { self.new ≡ record self.old { owned = one_less self.old.owned owner } }
    {
        let Some(thread) = owner else {
            return;
        };
        let key = attached_key(&self.records, &self.keys, &mut self.hints, thread);
        self.records[key].owned -= 1;
    }

    #[inline(always)]
    fn count_one_more(&mut self, owner: Option<ThreadId>)
        requires attached { (t : ThreadId) → owner ≡ Some t → IsSome (map.get self.old.posts t.0) }
        requires few { (t : ThreadId) → owner ≡ Some t → count_of self.old.owned t < 4294967295 }
        ensures { self.new ≡ record self.old { owned = one_more self.old.owned owner } }
    {
        let Some(thread) = owner else {
            return;
        };
        let key = attached_key(&self.records, &self.keys, &mut self.hints, thread);
        self.records[key].owned += 1;
    }

    /// Drops an attached thread.
    pub(crate) fn remove(&mut self, thread: ThreadId)
        requires { IsSome (map.get self.old.posts thread.0) }
        ensures { self.new ≡ without_thread_posted self.old thread }
    {
        let Some(key) = self.keys.remove(&thread.0) else {
            unreachable!();
        };
        let Some(record) = self.records.try_remove(key) else {
            unreachable!();
        };
        self.waiting -= one_waiting(record.post);
    }
}

impl Clone for Posts {
    ghost use Rattle.std.specs.Prelude.{◌≡◌};

    ghost is_clone = { λ posts copy. copy ≡ posts };

    /// The same records of the same threads.
    fn clone(&self) -> Result<Posts, AllocError> {
        Ok(Posts {
            records: self.records.clone()?,
            keys: self.keys.clone()?,
            hints: self.hints.clone()?,
            waiting: self.waiting,
        })
    }
}
