//! A window of columns.

ghost use Rattle.std.specs.Prelude.{◌≡◌, ◌≤◌, ◌<◌, ◌-◌, ◌^◌, None, IfErr, IfOk, OnOk};
ghost use Rattle.drawing.specs.Windows.{IsBeyond, begin_of, end_of, end_up_to};
ghost use Rattle.drawing.specs.declared.faults.DrawFault.TheVariants.{NoSuchColumn};

use crate::faults::DrawFault;

/// Which columns are drawn: from the first on and up to the last, if there is one, both by their
/// numbers in the whole, which begin at 1. A first one of 0 is the same as 1, and where the last
/// stands in front of the first, no column is drawn.
#[derive(Clone, Copy, PartialEq, Eq, Debug)]
pub struct Window {
    pub first: u32,
    pub last: Option<u32>,
}

/// Where a window begins and ends in a list, from 0.
#[derive(Clone, Copy)]
pub(crate) struct Cut {
    pub(crate) begin: usize,
    pub(crate) end: usize,
}

impl Window {
    /// All columns.
    pub fn whole() -> Window
        ensures first { result.first ≡ 1 }
        ensures last { result.last ≡ None }
    {
        Window {
            first: 1,
            last: None,
        }
    }

    /// Where it begins and ends in so many columns, unless it is beyond them.
    pub(crate) fn cut(self, columns: usize) -> Result<Cut, DrawFault>
        ensures begin { IfOk result (λ cut. cut.begin ≡ begin_of self) }
        ensures end { IfOk result (λ cut. cut.end ≡ end_of self columns) }
        ensures within { IfOk result (λ cut. (cut.begin ≤ cut.end) × (cut.end ≤ columns)) }
        ensures few { IfOk result (λ cut. cut.begin < 2 ^ 32 - 1) }
        ensures before { OnOk result (IsBeyond self columns → ⊥) }
        ensures beyond { IfErr result (λ fault.
            (fault ≡ NoSuchColumn self.first) × IsBeyond self columns) }
    {
        let begin = self.first.saturating_sub(1) as usize;
        if begin > 0 && begin >= columns {
            return Err(DrawFault::NoSuchColumn(self.first));
        }
        Ok(Cut {
            begin,
            end: usize::max(begin, self.end_among(columns)),
        })
    }

    /// Where it ends in so many columns, if it begins in front of that.
    fn end_among(self, columns: usize) -> usize
        ensures end { result ≡ end_up_to self.last columns }
        ensures within { result ≤ columns }
    {
        match self.last {
            Some(last) => usize::min(last as usize, columns),
            None => columns,
        }
    }
}
