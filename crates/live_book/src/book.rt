//! The book: the fat monitors, and the record of all that was done to them.

ghost use Rattle.std.specs.Prelude.{◌≡◌, ◌<◌, ◌≤◌, ◌+◌, ◌↔◌, IfOk, OnErr, OnOk, IsErrOf, IsOk, length, [], ◌∷◌, ◌++◌, IsSome, IfSome, true, false};
ghost use Rattle.live_book.specs.declared.faults.LiveFault.{LiveFault};
ghost use Rattle.fat_monitor.specs.FatState.{IsProper, IsSound, object_at, post_of};
ghost use Rattle.fat_monitor.specs.Acting.{MayAct, NamesBound};
ghost use Rattle.live_book.specs.Log.{IsThreadOf, IsForBook, Replays, nothing_bound};
ghost use Rattle.live_book.specs.Places.{kept_of, need};
ghost use Rattle.live_book.specs.Book.{bindings, free_of, opening_book, after_bind, after_act, after_tick, bind_answer, act_answer, tick_answer, is_torn};

use crate::places::{freed, gained};
use crate::{BookFault, Deed, LiveFault, Logged};
use fat_monitor::{ActFault, Action, Done, Fats, Post, Receipt};
use header_words::Kept;
use lock_word::{Memory, ObjectId, ThreadId};
use std::alloc::Global;
use std::marker::Model;

/// The fat monitors of a live service, and the record, in which each deed on them uses a place.
///
/// Places are kept so that an owner can always leave, and a parked call can always return:
///
/// | Who | Keeps |
/// |---|---|
/// | an owner | a place for each of its holds |
/// | a thread that enters behind an owner | 2 |
/// | a thread that waits, and gave up n holds | 2 and n |
/// | a thread that was removed, and comes back to n holds | 1 and n |
/// | a thread that was granted its reply, and has not collected it | 1 |
///
/// Free are the places that are neither used nor kept.
#[derive(Drop)]
pub struct Book {
    fats: Fats,
    log: Vec<Logged>,
    passes: u16,
    places: u32,
    // How many places are kept.
    kept: u32,
}

impl Model for Book {
    ghost use Rattle.std.specs.Coded.{codes};
    ghost use Rattle.std.specs.FinMap as map;
    ghost use Rattle.std.specs.Prelude.{◌≡◌, ◌≤◌, vec_capacity};
    ghost use Rattle.live_book.specs.Places.{kept_of};
    ghost use Rattle.live_book.specs.Book.{BookState, IsBook};

    ghost Value = { BookState };

    ghost coded = { Prim.hlevel (codes, map.code) };

    ghost view = { λ b.
        record { fats = b.fats; log = b.log.items; passes = b.passes; places = b.places } };

    ghost invariant = { λ b.
        IsBook (record { fats = b.fats; log = b.log.items; passes = b.passes; places = b.places })
        × (b.kept ≡ kept_of b.fats) × (b.places ≤ vec_capacity b.log) };
}

// The threads 1 to `passes` are attached, nothing is bound, and each bind has its room.
fn new_fats(alloc: Global, monitors: u32, passes: u16) -> Result<Fats, Memory>
    requires monitors { monitors ≤ 8388608 }
    requires passes { passes ≤ 64 }
    ensures bound { IfOk result (λ f. f ≡ nothing_bound passes monitors) }
    ensures sound { IfOk result IsSound }
{
    let mut fats = Fats::new(alloc, monitors);
    for done in 0..passes {
        let Ok(()) = fats.attach(ThreadId(u32::from(done) + 1)) else {
            return Err(Memory);
        };
    }
    fats.reserve_monitors(monitors)?;
    Ok(fats)
}

impl Kept for Book {
    ghost use Rattle.live_book.specs.Book.{bindings};

    ghost bound = { bindings };

    fn object(&self, monitor: u32) -> Option<ObjectId> {
        Book::object(self, monitor)
    }
}

impl Book {
    /// Nothing is bound, the threads 1 to `passes`, 0 to 64 of them, are out of every action, and
    /// the record has `places` places. There are at most `monitors` monitors, 0 to 8,388,608. The
    /// system is asked for all memory here, and `Err` comes only where it refused some.
    pub fn new(alloc: Global, monitors: u32, passes: u16, places: u32) -> Result<Book, Memory>
        requires monitors { monitors ≤ 8388608 }
        requires passes { passes ≤ 64 }
        ensures { IfOk result (λ b. b ≡ opening_book monitors passes places) }
    {
        Ok(Book {
            fats: new_fats(alloc, monitors, passes)?,
            log: Vec::with_capacity(alloc, places as usize)?,
            passes,
            places,
            kept: 0,
        })
    }

    /// Binds the next monitor to an object that the thread holds this often, 1 to 256 times. It
    /// needs 1 free place, and 1 for each hold.
    pub fn bind(
        &mut self,
        thread: ThreadId,
        object: ObjectId,
        holds: u16,
    ) -> Result<Receipt, BookFault>
        requires thread { IsThreadOf self.old.passes thread }
        requires low { 1 ≤ holds }
        requires high { holds ≤ 256 }
        ensures answer { result ≡ bind_answer self.old thread object holds }
        ensures ok { OnOk result (self.new ≡ after_bind self.old thread object holds) }
        ensures bindings { OnOk result (bindings self.new ≡ bindings self.old ++ object ∷ []) }
        ensures receipt { IfOk result (λ r. r ≡ record {
          object = object;
          owner = thread;
          holds = holds;
          monitor = length (bindings self.old);
        }) }
        ensures place { OnOk result (length self.old.log < self.old.places) }
        ensures err { OnErr result (self.new ≡ self.old) }
    {
        if self.free() < u32::from(holds) + 1 {
            return Err(BookFault::RecordFull);
        }
        let Ok(receipt) = self.fats.bind(object, thread, holds) else {
            return Err(BookFault::NoMonitor);
        };
        self.kept += u32::from(holds);
        let monitor = receipt.monitor();
        let deed = Deed::Bound {
            object,
            holds,
            monitor,
        };
        self.log.push_reserved(Logged { thread, deed });
        Ok(receipt)
    }

    /// One action of a thread. An enter and a wait need 3 free places; an exit of the owner, an
    /// expire and a collect need none; any other action needs 1.
    ///
    /// It stands in place where it is called: of an action that the caller knows nothing is left of
    /// the others, and the answer comes by no copy.
    #[inline(always)]
    pub fn act(&mut self, thread: ThreadId, action: Action) -> Result<Done, BookFault>
        requires thread { IsThreadOf self.old.passes thread }
        requires action { IsForBook action }
        requires ready { MayAct self.old.fats thread action }
        requires bound { NamesBound self.old.fats action }
        ensures answer { result ≡ act_answer self.old thread action }
        ensures ok { IfOk result (λ d. self.new ≡ after_act self.old thread action d.answer) }
        ensures bindings { bindings self.new ≡ bindings self.old }
        ensures limit { OnOk result (self.new.fats.limit ≡ self.old.fats.limit) }
        ensures place { OnOk result (length self.old.log < self.old.places) }
        ensures err { OnErr result (self.new ≡ self.old) }
    {
        if self.free() < self.need(thread, action) {
            return Err(BookFault::RecordFull);
        }
        let waited = self.fats.waiting();
        match self.fats.act_in_place(thread, action) {
            Ok(done) => {
                let answer = done.answer;
                let gained = gained(action, answer);
                let freed = freed(action, answer, waited, self.fats.waiting());
                self.kept = self.kept + gained - freed;
                let deed = Deed::Acted { action, answer };
                self.log.push_reserved(Logged { thread, deed });
                Ok(done)
            }
            Err(ActFault::NotDue) => Err(BookFault::NotDue),
            Err(ActFault::Parked | ActFault::NotWaiting) => Err(BookFault::Parked),
        }
    }

    /// Tells the moment, in nanoseconds, which never falls. It needs 1 free place.
    pub fn tick(&mut self, thread: ThreadId, now: u64) -> Result<(), BookFault>
        requires { IsThreadOf self.old.passes thread }
        ensures answer { result ≡ tick_answer self.old now }
        ensures ok { OnOk result (self.new ≡ after_tick self.old thread now) }
        ensures bindings { bindings self.new ≡ bindings self.old }
        ensures place { OnOk result (length self.old.log < self.old.places) }
        ensures err { OnErr result (self.new ≡ self.old) }
    {
        if self.free() < 1 {
            return Err(BookFault::RecordFull);
        }
        if self.fats.tick(now).is_err() {
            return Err(BookFault::Backwards);
        }
        let deed = Deed::Ticked { now };
        self.log.push_reserved(Logged { thread, deed });
        Ok(())
    }

    /// Whether the pass of a thread is where the book has it, in a call that has parked or not. A
    /// pass has a list of its own deeds with as many places as the record, and `full` says that it
    /// has none left. `Err` is [`Torn`](LiveFault::Torn): the pass is not where the book has it, or
    /// its list is full and the record is not.
    #[inline(always)]
    pub fn check(&self, thread: ThreadId, parked: bool, full: bool) -> Result<(), LiveFault>
        ensures torn { IsErrOf result LiveFault.Torn
            ↔ (is_torn self.now thread parked full ≡ true) }
        ensures whole { IsOk result ↔ (is_torn self.now thread parked full ≡ false) }
        ensures thread { OnOk result (IsThreadOf self.now.passes thread) }
    {
        let Some(post) = self.post(thread) else {
            return Err(LiveFault::Torn);
        };
        let out = matches!(post, Post::Out);
        if out == parked || (full && self.log.len() < self.places as usize) {
            return Err(LiveFault::Torn);
        }
        Ok(())
    }

    /// The object of a bound monitor; None where the monitor is not bound.
    pub fn object(&self, monitor: u32) -> Option<ObjectId>
        ensures { result ≡ object_at self.now.fats monitor }
    {
        self.fats.object(monitor)
    }

    /// Where a thread stands; None where the book does not have the thread.
    #[inline(always)]
    pub fn post(&self, thread: ThreadId) -> Option<Post>
        ensures post { result ≡ post_of self.now.fats thread }
        ensures some { IsSome result ↔ IsThreadOf self.now.passes thread }
        ensures proper { IfSome result (IsProper self.now.fats) }
    {
        self.fats.post(thread)
    }

    /// How many passes there are: the threads have the numbers 1 to this one.
    pub fn passes(&self) -> u16
        ensures { result ≡ self.now.passes }
    {
        self.passes
    }

    /// How many places the record has.
    pub fn places(&self) -> u32
        ensures { result ≡ self.now.places }
    {
        self.places
    }

    /// The moment that was told last, in nanoseconds; 0 at first.
    pub fn now(&self) -> u64
        ensures { result ≡ self.now.fats.moment }
    {
        self.fats.now()
    }

    /// How many places of the record are used.
    pub fn used(&self) -> u32
        ensures { result ≡ length self.now.log }
    {
        // No more are used than there are.
        let _places = self.places;
        self.log.len() as u32
    }

    /// How many places of the record are neither used nor kept.
    pub fn free(&self) -> u32
        ensures free { result ≡ free_of self.now }
        ensures fits { length self.now.log + kept_of self.now.fats ≤ self.now.places }
    {
        self.places - self.used() - self.kept
    }

    /// The record: all deeds, in their order.
    pub fn log(&self) -> &[Logged]
        ensures log { result.now ≡ self.now.log }
        ensures replays { Replays self.now.passes
            (nothing_bound self.now.passes self.now.fats.limit) self.now.log self.now.fats }
    {
        self.log.as_slice()
    }

    /// The record, of which nothing more is made.
    pub fn into_log(self) -> Vec<Logged>
        ensures log { result.items ≡ self.log }
        ensures replays { Replays self.passes
            (nothing_bound self.passes self.fats.limit) result.items self.fats }
        ensures sound { IsSound self.fats }
    {
        let Book { log, .. } = self;
        log
    }

    /// How many free places an action of a thread needs.
    #[inline(always)]
    fn need(&self, thread: ThreadId, action: Action) -> u32
        ensures { result ≡ need self.now.fats thread action }
    {
        match action {
            Action::Enter { .. } | Action::Wait { .. } => 3,
            Action::Exit { monitor } => u32::from(self.fats.owner(monitor) != Some(thread)),
            Action::Expire | Action::Collect => 0,
            _ => 1,
        }
    }
}
