//! The book of the benchmark.
ghost use Rattle.std.specs.Prelude.{◌≡◌, ◌++◌, [], List, IfOk};
ghost use Rattle.std.specs.Bool.{OnTrue};
ghost use Rattle.std.specs.Vec.{vec_len};
ghost use Rattle.lock_word.specs.declared.ObjectId.{ObjectId};
ghost use Rattle.header_words.specs.Bindings.{Binds};

use header_words::Kept;
use lock_word::ObjectId;
use std::alloc::{AllocError, Global};

// What the book has.
#[derive(Drop)]
struct Entries {
    objects: Vec<ObjectId>,
    takings: u32,
}

/// A list of bound objects, and a count. It lies in a box, so that a take moves one pointer.
#[derive(Drop)]
pub struct Book {
    entries: Box<Entries>,
}

impl Kept for Book {
    ghost bound = { λ b. b.entries.value.objects.items };

    fn object(&self, monitor: u32) -> Option<ObjectId> {
        self.entries.objects.get(monitor as usize).copied()
    }
}

impl Book {
    /// A book that has bound no object.
    pub fn new(alloc: Global) -> Result<Book, AllocError>
        ensures { IfOk result (λ b. b.entries.value.objects.items ≡ []) }
    {
        let entries = Entries {
            objects: Vec::new(alloc),
            takings: 0,
        };
        Ok(Book {
            entries: Box::new(alloc, entries)?,
        })
    }

    /// How many objects are bound.
    pub fn len(&self) -> usize
        ensures { result ≡ vec_len self.now.entries.value.objects }
    {
        self.entries.objects.len()
    }

    /// Binds the next monitor to the object. False, and nothing is bound, where there is no memory.
    #[tactic(auto, using(header_words::proofs::Bindings::binds_last))]
    pub fn bind(&mut self, object: ObjectId) -> bool
        ensures grows { (rest : List ObjectId) × (self.new.entries.value.objects.items ≡
            self.old.entries.value.objects.items ++ rest) }
        ensures bound { OnTrue result (Binds self.new.entries.value.objects.items
            (vec_len self.old.entries.value.objects) object.0) }
    {
        self.entries.objects.push(object).is_ok()
    }

    /// Counts one taking more.
    pub fn count_taking(&mut self)
        ensures { self.new.entries.value.objects ≡ self.old.entries.value.objects }
    {
        self.entries.takings = self.entries.takings.wrapping_add(1);
    }

    /// How many takings were counted.
    pub fn takings(&self) -> u32 {
        self.entries.takings
    }
}
