//! Which record each line has.

ghost use Rattle.std.specs.Prelude.{◌≡◌, ◌⊎◌, ◌<◌, [], ◌∷◌, length, true, false, IfSome, IfNone};
ghost use Rattle.std.specs.Prelude.{OnOk, OnErr, ℕ, suc};
ghost use Rattle.wait_lines.specs.Links.{chart, is_node, is_of, ends_at, BeginsAt, IsThere};
ghost use Rattle.wait_lines.specs.Rows.{row_at};
ghost use Rattle.wait_lines.specs.Tables.{bucket_of, with_move, with_record, released, IsInRow};
ghost use Rattle.wait_lines.specs.Tables.{IsReleased, IsWhole};

use crate::Role;
use crate::links::{Links, Node, Stop};
use std::alloc::{AllocError, Global};
use std::marker::Model;

/// The records of lines by the monitors and the roles of their lines.
///
/// The numbers of the records are linked into rows: those of lines with no thread into the row of
/// free ones, and each other into the row of its line's bucket. There are as many buckets as
/// records, or half as many at least, so a row has few records.
#[derive(Drop)]
pub(crate) struct Table {
    rows: Links,
    buckets: u32,
}

impl Model for Table {
    ghost use Rattle.std.specs.Coded.{codes};
    ghost use Rattle.wait_lines.specs.Links.{chart};
    ghost use Rattle.wait_lines.specs.Tables.{TableState, table_of, IsTable};

    ghost Value = { TableState };

    ghost coded = { Prim.hlevel (codes) };

    ghost view = { λ t. table_of (chart t.rows) t.buckets };

    ghost invariant = { λ t. IsTable (chart t.rows) t.buckets };
}

impl Table {
    /// No record.
    pub(crate) fn new(alloc: Global) -> Table
        ensures { result ≡ record { rows = [] ∷ []; size = 0; buckets = 1 } }
    {
        Table {
            rows: Links::new(alloc),
            buckets: 1,
        }
    }

    /// The bucket of a line.
    fn bucket(&self, monitor: u32, role: Role) -> u32
        ensures value { result ≡ bucket_of self.now.buckets monitor role }
        ensures low { result < self.now.buckets }
    {
        let key = 2 * u64::from(monitor) + role as u64;
        (key % u64::from(self.buckets)) as u32
    }

    /// The record of a line in which some thread stands.
    fn find(&self, links: &Links, monitor: u32, role: Role) -> Option<u32>
        requires sized { self.now.size ≡ length links.now.ends.items }
        ensures found { IfSome result (λ k. k < length links.now.ends.items) }
        ensures of { IfSome result (λ k. is_of monitor role (ends_at (chart links.now) k) ≡ true) }
        ensures none { IfNone result ((k : ℕ)
            → IsInRow self.now.rows k (suc (bucket_of self.now.buckets monitor role))
            → is_of monitor role (ends_at (chart links.now) k) ≡ false) }
    {
        if self.rows.ends.is_empty() {
            return None;
        }
        let mut next = self.rows.behind(Stop::End(self.bucket(monitor, role)));
        let mut left = self.rows.spots.len();
        while left > 0 {
            let Stop::At(line) = next else {
                return None;
            };
            if links.ends[line.0 as usize].is_of(monitor, role) {
                return Some(line.0);
            }
            next = self.rows.behind(next);
            left -= 1;
        }
        None
    }

    /// The record of a line, or one of no line where nobody stands in that line.
    pub(crate) fn line_for(&self, links: &Links, monitor: u32, role: Role) -> Option<u32>
        requires { IsWhole (chart links.now) self.now }
        ensures found { IfSome result (λ k. k < length links.now.ends.items) }
        ensures fits { IfSome result (λ k. (is_of monitor role (ends_at (chart links.now) k) ≡ true)
            ⊎ ((is_node (ends_at (chart links.now) k).first ≡ false)
            × ((i : ℕ) → i < length links.now.ends.items
            → is_of monitor role (ends_at (chart links.now) i) ≡ false))) }
        ensures none { IfNone result ((k : ℕ) → k < length links.now.ends.items
            → is_node (ends_at (chart links.now) k).first ≡ true) }
    {
        match self.find(links, monitor, role) {
            Some(line) => Some(line),
            None => self.vacant(),
        }
    }

    /// Where a line begins; an end where nobody stands in it.
    pub(crate) fn first_of(&self, links: &Links, monitor: u32, role: Role) -> Stop
        requires { IsWhole (chart links.now) self.now }
        ensures { BeginsAt (chart links.now) monitor role result }
    {
        match self.find(links, monitor, role) {
            Some(line) => links.ends[line as usize].first,
            None => Stop::Free,
        }
    }

    /// A record of no line.
    fn vacant(&self) -> Option<u32>
        ensures found { IfSome result (λ k. k < self.now.size) }
        ensures vacant { IfSome result (λ k. (j : ℕ) → IsInRow self.now.rows k j → j ≡ 0) }
        ensures none { IfNone result (row_at self.now.rows 0 ≡ []) }
    {
        match self.rows.first_free {
            Stop::At(line) => Some(line.0),
            _ => None,
        }
    }

    /// Moves a record to the end of the row of its line's bucket.
    pub(crate) fn put(&mut self, line: u32, monitor: u32, role: Role)
        requires { line < self.old.size }
        ensures moved { self.new
            ≡ with_move self.old line (suc (bucket_of self.old.buckets monitor role)) }
        ensures here { IsInRow self.new.rows line (suc (bucket_of self.old.buckets monitor role)) }
    {
        let bucket = self.bucket(monitor, role);
        self.rows.unlink(Node(line));
        self.rows.link(Node(line), Stop::End(bucket));
    }

    /// Moves a record to the end of the row of records of no line.
    fn free(&mut self, line: u32)
        requires { line < self.old.size }
        ensures moved { self.new ≡ with_move self.old line 0 }
        ensures here { IsInRow self.new.rows line 0 }
    {
        self.rows.unlink(Node(line));
        self.rows.link(Node(line), Stop::Free);
    }

    /// Moves the record of the line that ends at a stop, if one does and has no thread any more, to
    /// the records of no line.
    pub(crate) fn release(&mut self, links: &Links, stop: Stop)
        requires there { IsThere (chart links.now) stop }
        requires sized { self.old.size ≡ length links.now.ends.items }
        ensures released { self.new ≡ released (chart links.now) stop self.old }
        ensures here { IsReleased (chart links.now) stop self.new }
    {
        if let Stop::End(line) = stop
            && links.is_vacant(line)
        {
            self.free(line);
        }
    }

    /// Makes one more record, which is of no line, and one more bucket to use. `Err` comes only
    /// where the system refused the memory for it.
    pub(crate) fn grow(&mut self) -> Result<(), AllocError>
        requires { self.old.size < 32767 }
        ensures ok { OnOk result (self.new ≡ with_record self.old) }
        ensures err { OnErr result (self.new ≡ self.old) }
    {
        self.rows.reserve()?;
        self.rows.grow();
        Ok(())
    }

    /// Doubles the buckets, where there are at least twice as many records.
    pub(crate) fn spread(&mut self, links: &Links)
        requires { IsWhole (chart links.now) self.old }
        ensures { IsWhole (chart links.now) self.new }
    {
        if self.rows.ends.len() / 2 < self.buckets as usize {
            return;
        }
        self.buckets *= 2;
        for (line, ends) in links.ends.iter().enumerate() {
            if ends.first.is_node() {
                self.put(line as u32, ends.monitor, ends.role);
            }
        }
    }

    /// Makes `copy` the same records in the same rows, in the memory that it has, whatever it was.
    /// On `Err` it has no record.
    pub(crate) fn clone_into(&self, copy: &mut Table) -> Result<(), AllocError>
        ensures same { OnOk result (copy.new ≡ self.now) }
        ensures empty { OnErr result (copy.new ≡ record { rows = [] ∷ []; size = 0; buckets = 1 }) }
    {
        if self.rows.clone_into(&mut copy.rows).is_err() {
            *copy = Table::new(*self.rows.spots.allocator());
            return Err(AllocError);
        }
        copy.buckets = self.buckets;
        Ok(())
    }
}

impl Clone for Table {
    ghost use Rattle.std.specs.Prelude.{◌≡◌};

    ghost is_clone = { λ table copy. copy ≡ table };

    /// The same records in the same rows.
    fn clone(&self) -> Result<Table, AllocError> {
        Ok(Table {
            rows: self.rows.clone()?,
            buckets: self.buckets,
        })
    }
}
