//! A check of a history, which is fed with its bytes.

ghost use Rattle.std.specs.Prelude.{◌≡◌, ◌<◌, ◌≤◌, ◌+◌, ◌^◌, ◌++◌, ◌∷◌, ◌⊎◌, [], ℕ, List};
ghost use Rattle.std.specs.Prelude.{length, IfErr, OnOk, IfSome, option_map, MatchOption};
ghost use Rattle.std.specs.Prelude.{MatchResult};
ghost use Rattle.text_streams.specs.declared.faults.FileFault.TheVariants.{BadMove, Memory};
ghost use Rattle.step_core.specs.declared.machine.Move.{Move as MoveData};
ghost use Rattle.history_check.specs.Behind.{state_of};
ghost use Rattle.history_check.specs.Histories.{NoFeed, LineLeads, Refuses, IsRightSoFar, IsRunOf};
ghost use Rattle.history_check.specs.Histories.{IsFaultOf};

use history_moves::{MoveReader, line_first};
use jls_check::{Machine, MoveFault};
use std::alloc::Global;
use text_streams::{FileFault, line_end};

/// The most bytes of a line, with its line feed.
const LINE: usize = 4096;

/// A history as far as it came: its whole lines were right, and of one more line the front is here.
#[derive(Drop)]
pub(crate) struct Check {
    alloc: Global,
    // None before the first line.
    machine: Option<Machine>,
    // The whole lines.
    count: u64,
    line: Vec<u8>,
    reader: MoveReader,
}

impl Check {
    /// A check of nothing yet.
    pub(crate) fn new(alloc: Global) -> Check
        ensures right { IsRightSoFar [] result.count (option_map state_of result.machine)
            result.line.items }
        ensures none { result.count ≡ 0 }
    {
        Check {
            alloc,
            machine: None,
            count: 0,
            line: Vec::new(alloc),
            reader: MoveReader::new(alloc),
        }
    }

    /// Goes on with the next bytes.
    pub(crate) fn feed(&mut self, bytes: &[u8]) -> Result<(), FileFault>
        requires { self.old.count + length bytes.now + 1 < 2 ^ 64 }
        ensures told { (came : List ℕ)
            → IsRightSoFar came self.old.count (option_map state_of self.old.machine)
            self.old.line.items
            → MatchResult result
            (λ _. IsRightSoFar (came ++ bytes.now) self.new.count
            (option_map state_of self.new.machine) self.new.line.items)
            (λ e. IsFaultOf (came ++ bytes.now) ⊥ ⊥ e) }
        ensures counted { OnOk result (self.new.count ≤ self.old.count + length bytes.now) }
    {
        let mut rest = bytes;
        'pieces: while let Some((piece, after)) = cut_line(rest) {
            self.end_with(piece)?;
            rest = after;
        }
        self.add(rest)
    }

    /// The number of moves, where no more bytes come.
    pub(crate) fn finish(&self) -> Result<u64, FileFault>
        requires { self.now.count + 1 < 2 ^ 64 }
        ensures told { (came : List ℕ)
            → IsRightSoFar came self.now.count (option_map state_of self.now.machine)
            self.now.line.items
            → MatchResult result
            (λ n. (ms : List MoveData) × IsRunOf came ms × (n ≡ length ms))
            (λ e. IsFaultOf came Unit ⊥ e) }
    {
        if !self.line.is_empty() {
            return Err(FileFault::BadMove(self.count + 1));
        }
        if self.machine.is_none() {
            return Err(FileFault::BadMove(self.count + 1));
        }
        Ok(self.count.saturating_sub(1))
    }

    /// Adds bytes with no line feed to the line.
    fn add(&mut self, piece: &[u8]) -> Result<(), FileFault>
        requires { self.old.count + 1 < 2 ^ 64 }
        ensures ok { OnOk result ((self.new.line.items ≡ self.old.line.items ++ piece.now)
            × (self.new.count ≡ self.old.count)
            × (option_map state_of self.new.machine ≡ option_map state_of self.old.machine)) }
        ensures small { OnOk result (length self.old.line.items + length piece.now < LINE) }
        ensures fault { IfErr result (λ e. (e ≡ Memory)
            ⊎ ((e ≡ BadMove (self.old.count + 1))
            × (LINE ≤ length self.old.line.items + length piece.now))) }
    {
        if piece.len() >= LINE || self.line.len() + piece.len() >= LINE {
            return Err(FileFault::BadMove(self.count + 1));
        }
        self.line.extend_from_slice(piece)?;
        Ok(())
    }

    /// Ends the line with these bytes. Where they are the whole line, they are judged where they
    /// are.
    fn end_with(&mut self, piece: &[u8]) -> Result<(), FileFault>
        requires { self.old.count + 1 < 2 ^ 64 }
        ensures ok { OnOk result
            (LineLeads (option_map state_of self.old.machine) (self.old.line.items ++ piece.now)
            (option_map state_of self.new.machine)
            × (self.new.count ≡ self.old.count + 1) × (self.new.line.items ≡ [])) }
        ensures small { OnOk result (length self.old.line.items + length piece.now < LINE) }
        ensures fault { IfErr result (λ e. ((e ≡ Memory)
            ⊎ ((e ≡ BadMove (self.old.count + 1))
            × (LINE ≤ length self.old.line.items + length piece.now)))
            ⊎ ((length self.old.line.items + length piece.now < LINE)
            × Refuses (option_map state_of self.old.machine) (self.old.line.items ++ piece.now)
            (self.old.count + 1) e)) }
    {
        if self.line.is_empty() {
            return self.take_line(piece);
        }
        self.add(piece)?;
        self.end_line()
    }

    /// Takes a whole line.
    fn take_line(&mut self, line: &[u8]) -> Result<(), FileFault>
        requires counted { self.old.count + 1 < 2 ^ 64 }
        requires empty { self.old.line.items ≡ [] }
        ensures ok { OnOk result
            (LineLeads (option_map state_of self.old.machine) line.now
            (option_map state_of self.new.machine)
            × (self.new.count ≡ self.old.count + 1) × (self.new.line.items ≡ [])) }
        ensures small { OnOk result (length line.now < LINE) }
        ensures fault { IfErr result (λ e. ((e ≡ BadMove (self.old.count + 1))
            × (LINE ≤ length line.now))
            ⊎ ((length line.now < LINE)
            × Refuses (option_map state_of self.old.machine) line.now (self.old.count + 1) e)) }
    {
        if line.len() >= LINE {
            return Err(FileFault::BadMove(self.count + 1));
        }
        judge(
            self.alloc,
            &mut self.reader,
            &mut self.machine,
            line,
            self.count + 1,
        )?;
        self.count += 1;
        Ok(())
    }

    /// Ends the line.
    fn end_line(&mut self) -> Result<(), FileFault>
        requires { self.old.count + 1 < 2 ^ 64 }
        ensures ok { OnOk result
            (LineLeads (option_map state_of self.old.machine) self.old.line.items
            (option_map state_of self.new.machine)
            × (self.new.count ≡ self.old.count + 1) × (self.new.line.items ≡ [])) }
        ensures fault { IfErr result (Refuses (option_map state_of self.old.machine)
            self.old.line.items (self.old.count + 1)) }
    {
        judge(
            self.alloc,
            &mut self.reader,
            &mut self.machine,
            &self.line,
            self.count + 1,
        )?;
        self.line.clear();
        self.count += 1;
        Ok(())
    }
}

/// Gives a whole line to the machine.
#[tactic(auto, unfolding(crate::specs::Behind::state_of))]
fn judge(
    alloc: Global,
    reader: &mut MoveReader,
    machine: &mut Option<Machine>,
    line: &[u8],
    number: u64,
) -> Result<(), FileFault>
    ensures ok { OnOk result (LineLeads (option_map state_of machine.old) line.now
        (option_map state_of machine.new)) }
    ensures fault { IfErr result (Refuses (option_map state_of machine.old) line.now number) }
{
    match machine {
        None => {
            let Some(objects) = line_first(alloc, line)? else {
                return Err(FileFault::BadMove(number));
            };
            *machine = Some(Machine::new(alloc, u32::from(objects))?);
            Ok(())
        }
        Some(machine) => {
            let Some(made) = reader.line_move(line)? else {
                return Err(FileFault::BadMove(number));
            };
            match machine.take(made) {
                Ok(()) => Ok(()),
                Err(MoveFault::Broken) => Err(FileFault::Broken(number)),
                Err(MoveFault::Memory) => Err(FileFault::Memory),
            }
        }
    }
}

/// The bytes before the first line feed, and those behind it.
pub(crate) fn cut_line(bytes: &[u8]) -> Option<(&[u8], &[u8])>
    ensures parts { MatchOption result (NoFeed bytes.now)
        (λ cut. NoFeed cut.0.now × (bytes.now ≡ cut.0.now ++ (10 ∷ cut.1.now))) }
{
    match line_end(bytes) {
        None => None,
        Some(end) => {
            let (line, _) = bytes.split_at(end);
            let (_, rest) = bytes.split_at(end + 1);
            Some((line, rest))
        }
    }
}
