//! The lines of a script, handed out one by one.

ghost use Rattle.std.specs.Prelude.{◌≡◌, ◌<◌, ◌≤◌, ◌+◌, ◌++◌, ◌∷◌, [], ℕ, List, false, true, length};
ghost use Rattle.std.specs.Prelude.{Err, IfErr, IfOk, IfSome, IsOk, MatchOption, MatchResult};
ghost use Rattle.std.specs.Prelude.{None, Ok, OnErr};
ghost use Rattle.text_streams.specs.declared.faults.FileFault.TheVariants.{BadLine};
ghost use Rattle.script_text.specs.declared.lines.Line.{Line as LineData};
ghost use Rattle.script_text.specs.declared.lines.Line.TheVariants.{Step};
ghost use Rattle.script_text.specs.Lines.{IsScript, may_follow, parts_of, script_text};
ghost use Rattle.script_text.specs.LinesSoFar.{with_object};
ghost use Rattle.script_text.specs.Positions.{HasCome};
ghost use Rattle.script_text.specs.Scripts.{IsReasonFor, IsScriptText};

use crate::declared::Declared;
use crate::lines::{Line, StepLine};
use crate::quick::{seldom_step, usual_step};
use crate::reading::line_of;
use crate::scripts::{MOST_BYTES, cut_line, follows, still_declaring};
use std::alloc::Global;
use std::marker::Model;
use text_streams::FileFault;

/// Hands out the lines of a script one by one, each where it may follow those before it.
#[derive(Drop)]
pub struct ScriptReader<'a> {
    // How many lines were handed out.
    count: usize,
    // Whether objects may follow them.
    declaring: bool,
    // What is behind them.
    rest: &'a [u8],
}

impl<'a> Model for ScriptReader<'a> {
    ghost use Rattle.std.specs.Prelude.{◌≤◌, ◌+◌, length};
    ghost use Rattle.script_text.specs.Positions.{Position};

    ghost Value = { Position };

    ghost view = { λ r. record { count = r.count; declaring = r.declaring; rest = r.rest.now } };

    ghost invariant = { λ r. r.count + length r.rest.now ≤ 16777216 };
}

impl<'a> ScriptReader<'a> {
    /// A reader of the lines of some bytes, which are to be no more than a script has.
    pub fn new(bytes: &'a [u8]) -> Result<ScriptReader<'a>, FileFault>
        ensures start { IfOk result (HasCome bytes.now [] []) }
        ensures short { length bytes.now ≤ MOST_BYTES → IsOk result }
        ensures too_long { MOST_BYTES < length bytes.now → result ≡ Err FileFault.Read }
        ensures fault { IfErr result (IsReasonFor bytes.now) }
    {
        if bytes.len() > MOST_BYTES {
            return Err(FileFault::Read);
        }
        Ok(ScriptReader {
            count: 0,
            declaring: true,
            rest: bytes,
        })
    }

    /// The next line, or None behind the last line of a script. Else a fault tells why the bytes
    /// are no script: the next line is the first that is bad.
    #[inline(always)]
    pub fn next<D: Declared>(
        &mut self,
        alloc: Global,
        declared: &D,
    ) -> Result<Option<Line<'a>>, FileFault>
        ensures told { (bytes : List ℕ) (came : List LineData)
            → HasCome bytes came (D.names declared.now) self.old
            → MatchResult result
            (λ next. MatchOption next (IsScript came × (bytes ≡ script_text came))
            (λ line. (may_follow came line ≡ true)
            × HasCome bytes (came ++ line ∷ []) (with_object (D.names declared.now) line) self.new))
            (IsReasonFor bytes) }
        ensures shorter { IfOk result
            (λ next. IfSome next (λ _. length self.new.rest < length self.old.rest)) }
        ensures end { result ≡ Ok None → self.new ≡ self.old }
        ensures err { OnErr result (self.new ≡ self.old) }
    {
        let Some((part, after)) = cut_line(self.rest) else {
            self.end()?;
            return Ok(None);
        };
        let Some(line) = line_of(alloc, part)? else {
            return Err(self.bad_line());
        };
        if !follows(self.count == 0, self.declaring, declared, &line) {
            return Err(self.bad_line());
        }
        self.declaring = still_declaring(self.count == 0, self.declaring, &line);
        self.count += 1;
        self.rest = after;
        Ok(Some(line))
    }

    /// The next line, where it is one of the steps that a script has most of: a `go`, or the
    /// `begin` of an enter or an exit. Nothing is taken where it is none of these, or is the first,
    /// or is bad; [`next`](ScriptReader::next) then tells what it is.
    #[inline(always)]
    pub fn next_usual(&mut self) -> Option<StepLine<'a>>
        ensures told { (bytes : List ℕ) (came : List LineData) (names : List (List ℕ))
            → HasCome bytes came names self.old
            → IfSome result (λ step. (may_follow came (Step step) ≡ true)
            × HasCome bytes (came ++ Step step ∷ []) names self.new) }
        ensures shorter { IfSome result (λ _. length self.new.rest < length self.old.rest) }
        ensures none { result ≡ None → self.new ≡ self.old }
    {
        if self.count == 0 {
            return None;
        }
        let (step, after) = usual_step(self.rest)?;
        self.declaring = false;
        self.count += 1;
        self.rest = after;
        Some(step)
    }

    /// The next line, where it is one of the other steps that name a thread, and no wait. It stands
    /// apart, so that [`next_usual`](ScriptReader::next_usual), which stands in place, stays small.
    /// Nothing is taken where it is none of these, or is the first, or is bad.
    pub fn next_seldom(&mut self) -> Option<StepLine<'a>>
        ensures told { (bytes : List ℕ) (came : List LineData) (names : List (List ℕ))
            → HasCome bytes came names self.old
            → IfSome result (λ step. (may_follow came (Step step) ≡ true)
            × HasCome bytes (came ++ Step step ∷ []) names self.new) }
        ensures shorter { IfSome result (λ _. length self.new.rest < length self.old.rest) }
        ensures none { result ≡ None → self.new ≡ self.old }
    {
        if self.count == 0 {
            return None;
        }
        let (step, after) = seldom_step(self.rest)?;
        self.declaring = false;
        self.count += 1;
        self.rest = after;
        Some(step)
    }

    /// Whether the lines that are left are the rest of a script, or which is the first bad one.
    /// None of them is kept or handed out. Where objects may still follow, this looks no further
    /// than the first of them.
    pub fn check_rest<D: Declared>(&self, alloc: Global, declared: &D) -> Result<(), FileFault>
        ensures told { (bytes : List ℕ) (came : List LineData)
            → HasCome bytes came (D.names declared.now) self.now
            → MatchResult result
            (λ _. self.now.declaring ≡ false → IsScriptText bytes)
            (IsReasonFor bytes) }
    {
        let mut ahead = ScriptReader {
            count: self.count,
            declaring: self.declaring,
            rest: self.rest,
        };
        'lines: loop {
            if let Some(_step) = ahead.next_usual() {
                continue;
            }
            let Some(line) = ahead.next(alloc, declared)? else {
                return Ok(());
            };
            if let Line::Object { .. } = line {
                return Ok(());
            }
        }
    }

    /// Whether the lines are a script, where no line is ended behind them.
    #[inline(never)]
    fn end(&self) -> Result<(), FileFault>
        ensures { (bytes : List ℕ) (came : List LineData) (names : List (List ℕ))
            → HasCome bytes came names self.now
            → parts_of self.now.rest ≡ self.now.rest ∷ []
            → MatchResult result (λ _. IsScript came × (bytes ≡ script_text came))
            (IsReasonFor bytes) }
    {
        if self.count == 0 || !self.rest.is_empty() {
            return Err(self.bad_line());
        }
        Ok(())
    }

    /// That the next line is bad.
    fn bad_line(&self) -> FileFault
        ensures { result ≡ BadLine (self.now.count + 1) }
    {
        FileFault::BadLine(self.count as u64 + 1)
    }
}
