ghost use Rattle.std.specs.Prelude.{◌≡◌, ◌≤◌, [], All, false, length};
ghost use Rattle.std.specs.List.{list_any};
ghost use Rattle.std.specs.List.Sorted.{IsNonDecreasing};
ghost use Rattle.dml_types.specs.Job.{is_past};
ghost use Rattle.dml_levels.specs.Cells.{IsCovered, IsGreatest, IsRaised, cover_of};

use crate::cells::Cells;
use crate::ranges::Spans;
use crate::starts::Starts;
use arrayvec::ArrayVec;
use std::marker::Model;

/// The cells of at most two ranges.
#[derive(Debug, Drop)]
pub struct Cover {
    pub list: ArrayVec<Cells, 2>,
}

impl Model for Cover {
    ghost use Rattle.std.specs.Prelude.{List};
    ghost use Rattle.dml_levels.specs.declared.cells.Cells.{Cells};

    ghost Value = { List Cells };

    ghost view = { λ cover. cover.list.items };
}

impl Cover {
    /// Of no range.
    pub fn none() -> Cover
        ensures { result ≡ [] }
    {
        Cover {
            list: ArrayVec::new(),
        }
    }

    /// Becomes that of ranges, of which the first is likely the one at this place among all that jobs touch. It is
    /// written where it lies: a new one would be copied, and what reads its cells would wait for that.
    #[tactic(auto, using(crate::proofs::CoverLemmas::not_past))]
    #[inline(always)]
    pub fn set(&mut self, starts: &Starts, first: usize, spans: &Spans)
        requires sorted { IsNonDecreasing starts.now }
        requires within { list_any is_past spans.now ≡ false }
        ensures { self.new ≡ cover_of starts.now spans.now }
    {
        let list = spans.list.as_slice();
        *self = Cover::none();
        if list.len() > 0 {
            self.list.push(Cells::of(starts, first, &list[0]));
            if list.len() > 1 {
                let second = first.saturating_add(1);
                self.list.push(Cells::of(starts, second, &list[1]));
            }
        }
    }

    /// The greatest height of these cells.
    pub fn greatest(&self, heights: &[u32]) -> u32
        requires { All (λ cells. cells.end ≤ length heights.now) self.now }
        ensures { IsGreatest heights.now (IsCovered self.now) result }
    {
        let mut greatest = 0;
        for cells in self.list.as_slice() {
            greatest = greatest.max(cells.greatest(heights));
        }
        greatest
    }

    /// Raises these cells to a height, where they stand lower.
    pub fn raise(&self, heights: &mut [u32], height: u32)
        requires { All (λ cells. cells.end ≤ length heights.old) self.now }
        ensures { IsRaised heights.old (IsCovered self.now) height heights.new }
    {
        for cells in self.list.as_slice() {
            cells.raise(heights, height);
        }
    }
}
