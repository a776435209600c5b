//! The entry lines and the wait sets of monitors (JLS SE 8, 17.2).
//!
//! Each monitor has two lines: the threads that ask for it, and its wait set, the threads that wait
//! until they are notified or interrupted, or their time is over. JLS SE 8 gives neither an order.
//! Here each keeps the order of joining.
#![tactic(auto)]

ghost use Rattle.std.specs.Prelude.{◌≡◌, ◌↔◌, ◌+◌, ◌<◌, ◌≤◌, ℕ, length, IsTrue, IfSome, IfNone};
ghost use Rattle.std.specs.Prelude.{OnOk, OnErr, slice_get};
ghost use Rattle.std.specs.Bool.{OnFalse};
ghost use Rattle.wait_lines.specs.declared.Role.{Role};
ghost use Rattle.wait_lines.specs.Lines.{line, after_join, after_leave, StandsIn, Stands, StandsNowhere};
ghost use Rattle.wait_lines.specs.Lines.{total_count, nobody, standing, IsOrderly, StandsAt};
ghost use Rattle.std.specs.FinMap as map;
ghost use Rattle.lock_word.specs.declared.ThreadId.{ThreadId};

mod iter;
mod links;
mod table;

pub use iter::All;
pub use links::Node;
use links::{Links, Stop};
use lock_word::{Memory, ThreadId};
use std::alloc::{AllocError, Global};
use std::marker::Model;
use table::Table;

/// Which of a monitor's two lines.
#[derive(Clone, Copy, PartialEq, Eq, Debug)]
pub enum Role {
    /// The threads that ask for the monitor, or ask for it again after a wait.
    Entry,
    /// The monitor's wait set.
    Waiting,
}

/// The lines of all monitors, which are named by their numbers.
///
/// A line is linked from node to node, and a table has the record of each line that has a thread,
/// so what a call costs does not grow with the number of lines or of those who stand in them,
/// unless it is said to walk.
///
/// A thread stands in one line at most, and once. Joining asks for no memory: it uses a
/// reservation, and leaving makes that free again.
#[derive(Drop)]
pub struct Lines {
    links: Links,
    table: Table,
}

impl Model for Lines {
    ghost use Rattle.std.specs.Coded.{codes};
    ghost use Rattle.std.specs.FinMap as map;
    ghost use Rattle.wait_lines.specs.Lines.{LinesState};

    ghost Value = { LinesState };

    ghost coded = { Prim.hlevel (codes, map.code) };

    ghost use Rattle.wait_lines.specs.Links.{chart};
    ghost use Rattle.wait_lines.specs.Arrivals.{shown_lines};
    ghost use Rattle.wait_lines.specs.Tables.{IsWhole};

    ghost view = { λ l. shown_lines (chart l.links) };

    ghost invariant = { λ l. IsWhole (chart l.links) l.table };
}

impl Lines {
    /// Nobody stands in a line. No memory is asked for yet.
    pub fn new(alloc: Global) -> Lines
        ensures empty { standing result ≡ nobody }
        ensures nodes { result.nodes ≡ map.empty }
        ensures orderly { IsOrderly (standing result) }
    {
        Lines {
            links: Links::new(alloc),
            table: Table::new(alloc),
        }
    }

    /// Makes room for one more thread to stand in a line at any time. `Err` comes only where the
    /// system refused the memory for it.
    pub fn reserve_one(&mut self) -> Result<(), Memory>
        requires { self.old.reservations < 32767 }
        ensures lines { self.new.lines ≡ self.old.lines }
        ensures nodes { self.new.nodes ≡ self.old.nodes }
        ensures ok { OnOk result (self.new.reservations ≡ self.old.reservations + 1) }
        ensures err { OnErr result (self.new ≡ self.old) }
        ensures orderly { IsOrderly (standing self.new) }
    {
        self.links.reserve()?;
        self.table.grow()?;
        self.links.grow();
        self.table.spread(&self.links);
        Ok(())
    }

    /// For how many threads there is room, 0 to 32,767.
    pub fn reservations(&self) -> u16
        ensures reservations { result ≡ self.now.reservations }
        ensures orderly { IsOrderly (standing self.now) }
    {
        self.links.spots.len() as u16
    }

    /// Takes a thread out of the line that it stands in, and says whether it stood in one. This
    /// walks the lines.
    pub fn leave(&mut self, thread: ThreadId) -> bool
        ensures stood { IsTrue result ↔ Stands self.old.lines thread }
        ensures left { (m : ℕ) (r : Role) → StandsIn self.old.lines thread m r
            → self.new.lines ≡ after_leave self.old.lines thread m r }
        ensures nodes { (n : ℕ) → StandsAt self.old.nodes thread n
            → self.new.nodes ≡ map.remove self.old.nodes thread.0 }
        ensures gone { StandsNowhere self.new.lines thread }
        ensures stays { OnFalse result (self.new ≡ self.old) }
        ensures reservations { self.new.reservations ≡ self.old.reservations }
        ensures orderly { IsOrderly (standing self.new) }
    {
        match self.node_of(thread) {
            Some(node) => {
                self.leave_at(node);
                true
            }
            None => false,
        }
    }

    /// The node at which a thread stands; None where it stands in no line. This walks the lines.
    pub fn node_of(&self, thread: ThreadId) -> Option<Node>
        ensures found { IfSome result (λ n. StandsAt self.now.nodes thread n.0) }
        ensures stands { IfSome result (λ n. Stands self.now.lines thread) }
        ensures none { IfNone result (StandsNowhere self.now.lines thread) }
        ensures no_node { IfNone result ((n : ℕ) → ¬ StandsAt self.now.nodes thread n) }
        ensures orderly { IsOrderly (standing self.now) }
    {
        self.links.node_of(thread)
    }

    /// The thread that joined a line first, of those that stand in it.
    pub fn first(&self, monitor: u32, role: Role) -> Option<ThreadId>
        ensures first { result ≡ slice_get (line self.now.lines monitor role) 0 }
        ensures orderly { IsOrderly (standing self.now) }
    {
        self.all(monitor, role).next()
    }

    /// The threads of a line, in order of joining.
    pub fn all(&self, monitor: u32, role: Role) -> All<'_>
        ensures threads { result ≡ line self.now.lines monitor role }
        ensures few { length result ≤ 32767 }
        ensures orderly { IsOrderly (standing self.now) }
    {
        let first = self.table.first_of(&self.links, monitor, role);
        All::new(&self.links.spots, first)
    }

    /// Puts a thread at the end of a line, and answers its node, which stays its node until it
    /// leaves. No other thread moves.
    pub fn join(&mut self, thread: ThreadId, monitor: u32, role: Role) -> Node
        requires nowhere { StandsNowhere self.old.lines thread }
        requires room { total_count self.old.lines < self.old.reservations }
        ensures joined { self.new.lines ≡ after_join self.old.lines thread monitor role }
        ensures node { self.new.nodes ≡ map.insert self.old.nodes thread.0 result.0 }
        ensures reservations { self.new.reservations ≡ self.old.reservations }
        ensures orderly { IsOrderly (standing self.new) }
    {
        let Stop::At(node) = self.links.first_free else {
            unreachable!();
        };
        let Some(line) = self.table.line_for(&self.links, monitor, role) else {
            unreachable!();
        };
        self.links.unlink(node);
        self.links.put_thread(node, thread);
        self.links.name(line, monitor, role);
        self.links.link(node, Stop::End(line));
        self.table.put(line, monitor, role);
        node
    }

    /// Takes the thread that stands at a node out of its line. No other thread moves.
    pub fn leave_at(&mut self, node: Node)
        requires stands { (t : ThreadId) × StandsAt self.old.nodes t node.0 }
        ensures left { (t : ThreadId) (m : ℕ) (r : Role)
            → StandsAt self.old.nodes t node.0 → StandsIn self.old.lines t m r
            → self.new.lines ≡ after_leave self.old.lines t m r }
        ensures nodes { (t : ThreadId) → StandsAt self.old.nodes t node.0
            → self.new.nodes ≡ map.remove self.old.nodes t.0 }
        ensures reservations { self.new.reservations ≡ self.old.reservations }
        ensures orderly { IsOrderly (standing self.new) }
    {
        let before = self.links.before(Stop::At(node));
        self.links.unlink(node);
        self.links.link(node, Stop::Free);
        self.table.release(&self.links, before);
    }

    /// Makes `copy` the same threads in the same lines, at the same nodes, with room for as many,
    /// in the memory that it has, whoever stood in it. On `Err` nobody stands in a line of it.
    pub fn clone_into(&self, copy: &mut Lines) -> Result<(), AllocError>
        ensures same { OnOk result (copy.new ≡ self.now) }
        ensures empty { OnErr result (standing copy.new ≡ nobody) }
        ensures nodes { OnErr result (copy.new.nodes ≡ map.empty) }
    {
        if self.links.clone_into(&mut copy.links).is_ok()
            && self.table.clone_into(&mut copy.table).is_ok()
        {
            return Ok(());
        }
        *copy = Lines::new(*self.links.spots.allocator());
        Err(AllocError)
    }
}

impl Clone for Lines {
    ghost use Rattle.std.specs.Prelude.{◌≡◌};

    ghost is_clone = { λ lines copy. copy ≡ lines };

    /// The same threads in the same lines, at the same nodes, with room for as many.
    fn clone(&self) -> Result<Lines, AllocError> {
        Ok(Lines {
            links: self.links.clone()?,
            table: self.table.clone()?,
        })
    }
}
