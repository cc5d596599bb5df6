ghost use Rattle.std.specs.Prelude.{◌≡◌, ℕ, ◌<◌, ◌≤◌, ◌+◌, ◌%◌, ◌^◌, ◌++◌, [], IfOk, length, slice_index, true};
ghost use Rattle.std.specs.List.Sorted.{IsNonDecreasing, IsPermutation};
ghost use Rattle.dml_levels.specs.Cells.{all_starts, cell_of, starts_of};
ghost use Rattle.dml_levels.specs.Starts.{IsSought};

use crate::ranges::Spans;
use crate::touching::touches;
use dml_desc::Checked;
use std::alloc::{AllocError, Global};
use std::marker::Model;

/// Where a range starts.
#[derive(Clone, Copy, Debug)]
pub struct Start {
    pub address: u64,
    /// The place of the range among all ranges that jobs touch.
    pub range: u32,
    /// The likely cell of the range whose place among all is that of this start in the list.
    pub likely: u32,
}

/// The starts of ranges. The sort shows the likely cell of each, so that it is only looked at and not sought among
/// many, by branches that no processor can foresee.
#[derive(Debug, Drop)]
pub struct Starts {
    pub list: Vec<Start>,
}

impl Model for Starts {
    ghost use Rattle.std.specs.Prelude.{List, ℕ, map};
    ghost use Rattle.dml_levels.specs.declared.starts.Start.{Start};

    ghost Value = { List ℕ };

    ghost view = { λ starts. map (λ (start : Start). start.address) starts.list.items };
}

impl Starts {
    /// The starts of all ranges that jobs touch, in order.
    pub fn of(alloc: Global, jobs: &[Checked]) -> Result<Starts, AllocError>
        requires { length jobs.now ≤ 2 ^ 32 }
        ensures sorted { IfOk result (λ starts. IsNonDecreasing starts) }
        ensures all { IfOk result (λ starts. IsPermutation (all_starts jobs.now) starts) }
    {
        let mut starts = Starts::none(alloc, 3 * jobs.len())?;
        for job in jobs {
            let touched = touches(job);
            starts.push(&touched.reads)?;
            starts.push(&touched.writes)?;
        }
        starts.sort();
        starts.note_likely();
        Ok(starts)
    }

    /// No starts, with room for so many.
    fn none(alloc: Global, room: usize) -> Result<Starts, AllocError>
        ensures { IfOk result (λ starts. starts ≡ []) }
    {
        Ok(Starts {
            list: Vec::with_capacity(alloc, room)?,
        })
    }

    /// Appends the starts of some ranges.
    fn push(&mut self, spans: &Spans) -> Result<(), AllocError>
        ensures { IfOk result (λ _. self.new ≡ self.old ++ starts_of spans.now) }
    {
        for span in spans.list.as_slice() {
            self.list.push(Start {
                address: span.start,
                range: low_half(self.list.len()),
                likely: 0,
            })?;
        }
        Ok(())
    }

    /// Puts the starts in order.
    fn sort(&mut self)
        ensures sorted { IsNonDecreasing self.new }
        ensures all { IsPermutation self.old self.new }
    {
        self.list.sort_unstable_by_key(|start| start.address);
    }

    /// Notes the cell of each range, at the place of the range: behind the last start at its address.
    fn note_likely(&mut self)
        ensures { self.new ≡ self.old }
    {
        let count = self.list.len();
        let mut cell = count;
        let mut next = u64::MAX;
        let mut k = count;
        while k > 0 {
            k -= 1;
            let start = self.list[k];
            if start.address != next {
                cell = k + 1;
                next = start.address;
            }
            let range = start.range as usize;
            if range < count {
                self.list[range].likely = low_half(cell);
            }
        }
    }

    /// The cell that is likely that of the range at a place among all ranges that jobs touch.
    pub fn likely(&self, range: usize) -> usize
        ensures { result < 2 ^ 32 }
    {
        self.list
            .get(range)
            .map_or(0, |start| start.likely as usize)
    }

    /// The cell of an address: how many ranges start at it or before. It is sought only where it is not the likely one.
    #[tactic(auto, using(crate::proofs::CellLemmas::cell_is))]
    pub fn cell_at(&self, address: u64, likely: usize) -> usize
        requires sorted { IsNonDecreasing self.now }
        ensures { result ≡ cell_of self.now address }
    {
        let count = self.list.len();
        if likely <= count && self.follows(address, likely) && self.precedes(address, likely) {
            return likely;
        }
        self.search(address, 0, count)
    }

    /// The end of the cells up to that of an address, which lies in this cell or behind it.
    #[tactic(auto, using(crate::proofs::CellLemmas::cell_within))]
    pub fn end_at(&self, address: u64, cell: usize) -> usize
        requires sorted { IsNonDecreasing self.now }
        requires from { cell ≤ cell_of self.now address }
        ensures { result ≡ cell_of self.now address + 1 }
    {
        let (first, left) = self.part_from(address, cell);
        self.search(address, first, left) + 1
    }

    /// Whether an address is at the starts before a place or behind them.
    fn follows(&self, address: u64, place: usize) -> bool
        requires sorted { IsNonDecreasing self.now }
        requires within { place ≤ length self.now }
        ensures { result ≡ true → (k : ℕ) → k < place → slice_index self.now k ≤ address }
    {
        place == 0 || self.list[place - 1].address <= address
    }

    /// Whether an address lies before the starts from a place on.
    fn precedes(&self, address: u64, place: usize) -> bool
        requires sorted { IsNonDecreasing self.now }
        requires within { place ≤ length self.now }
        ensures { result ≡ true → (k : ℕ) → place ≤ k → k < length self.now → address < slice_index self.now k }
    {
        place == self.list.len() || address < self.list[place].address
    }

    /// From which place on the cell of an address is to be sought, and among how many: in steps that double.
    fn part_from(&self, address: u64, cell: usize) -> (usize, usize)
        requires sorted { IsNonDecreasing self.now }
        requires from { cell ≤ cell_of self.now address }
        ensures sought { IsSought self.now address result.0 result.1 }
        ensures few { length self.now < 2 ^ 63 }
    {
        let mut first = cell;
        let mut step = 1;
        while step <= self.list.len() - first && self.list[first + step - 1].address <= address {
            first += step;
            step *= 2;
        }
        (first, (step - 1).min(self.list.len() - first))
    }

    /// The cell of an address, by halves of what it is sought among.
    fn search(&self, address: u64, from: usize, among: usize) -> usize
        requires sorted { IsNonDecreasing self.now }
        requires sought { IsSought self.now address from among }
        ensures { result ≡ cell_of self.now address }
    {
        let mut first = from;
        let mut left = among;
        while left > 0 {
            let half = left - left / 2;
            first += half * usize::from(self.list[first + half - 1].address <= address);
            left -= half;
        }
        first
    }
}

/// The low half of the bits of a number.
fn low_half(number: usize) -> u32
    ensures { result ≡ number % 2 ^ 32 }
{
    (number % (1 << 32)) as u32
}
