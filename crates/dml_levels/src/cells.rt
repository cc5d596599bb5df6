ghost use Rattle.std.specs.Prelude.{◌≡◌, ◌≤◌, ◌+◌, ◌^◌, length};
ghost use Rattle.std.specs.List.Sorted.{IsNonDecreasing};
ghost use Rattle.dml_levels.specs.Cells.{IsCell, IsGreatest, IsRaised};
ghost use Rattle.dml_levels.specs.Cells as word;

use crate::starts::Starts;
use dml_types::Span;

/// The cells of the addresses of a range: a cell ends where the next range of the list starts.
#[derive(Clone, Copy, Debug, Default)]
pub struct Cells {
    pub first: usize,
    pub end: usize,
}

impl Cells {
    /// Of a range that is not empty, whose place among all ranges that jobs touch is likely this one.
    #[tactic(auto, using(crate::proofs::CellLemmas::cell_le))]
    pub fn of(starts: &Starts, range: usize, span: &Span) -> Cells
        requires sorted { IsNonDecreasing starts.now }
        requires within { span.now.start + span.now.len ≤ 2 ^ 64 }
        ensures { result ≡ word.cells_of starts.now span.now }
    {
        let last = span.start + u64::from(span.len.saturating_sub(1));
        let first = starts.cell_at(span.start, starts.likely(range));
        Cells {
            first,
            end: starts.end_at(last, first),
        }
    }

    /// The greatest height of these cells.
    #[tactic(auto, using(crate::proofs::CellLemmas::greatest_more))]
    pub fn greatest(self, heights: &[u32]) -> u32
        requires { self.end ≤ length heights.now }
        ensures { IsGreatest heights.now (IsCell self) result }
    {
        let mut greatest = 0;
        for cell in self.first..self.end {
            greatest = greatest.max(heights[cell]);
        }
        greatest
    }

    /// Raises these cells to a height, where they stand lower.
    #[tactic(auto, using(crate::proofs::CellLemmas::raised_more))]
    pub fn raise(self, heights: &mut [u32], height: u32)
        requires { self.end ≤ length heights.old }
        ensures { IsRaised heights.old (IsCell self) height heights.new }
    {
        for cell in self.first..self.end {
            heights[cell] = heights[cell].max(height);
        }
    }
}
