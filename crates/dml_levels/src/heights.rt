ghost use Rattle.std.specs.Prelude.{◌≡◌, ◌≤◌, All, IfOk, length, replicate};
ghost use Rattle.dml_levels.specs.Cells.{IsCovered, IsLevelIn, IsRaised, IsTouched};

use crate::covers::Cover;
use std::alloc::{AllocError, Global};

/// How high the cells stand: one more than the greatest level of a job so far that touches the cell, and of one that
/// writes there.
#[derive(Drop)]
pub struct Heights {
    pub touched: Vec<u32>,
    pub written: Vec<u32>,
}

impl Heights {
    /// Of no job.
    pub fn new(alloc: Global, cells: usize) -> Result<Heights, AllocError>
        ensures touched { IfOk result (λ heights. heights.touched.items ≡ replicate cells 0) }
        ensures written { IfOk result (λ heights. heights.written.items ≡ replicate cells 0) }
    {
        Ok(Heights {
            touched: vec![in alloc; 0; cells]?,
            written: vec![in alloc; 0; cells]?,
        })
    }

    /// The level of a job behind those so far.
    pub fn level_of(&self, reads: &Cover, writes: &Cover) -> u32
        requires reads { All (λ cells. cells.end ≤ length self.now.written.items) reads.now }
        requires writes { All (λ cells. cells.end ≤ length self.now.touched.items) writes.now }
        ensures { IsLevelIn self.now (record { reads = reads.now; writes = writes.now }) result }
    {
        let below = reads.greatest(self.written.as_slice());
        below.max(writes.greatest(self.touched.as_slice()))
    }

    /// Raises the cells of a job to a height.
    pub fn raise(&mut self, reads: &Cover, writes: &Cover, height: u32)
        requires reads { All (λ cells. cells.end ≤ length self.old.touched.items) reads.now }
        requires writes { All (λ cells. cells.end ≤ length self.old.touched.items) writes.now }
        requires long { length self.old.written.items ≡ length self.old.touched.items }
        ensures touched { IsRaised self.old.touched.items
            (IsTouched (record { reads = reads.now; writes = writes.now })) height self.new.touched.items }
        ensures written { IsRaised self.old.written.items (IsCovered writes.now) height
            self.new.written.items }
    {
        reads.raise(self.touched.as_mut_slice(), height);
        writes.raise(self.touched.as_mut_slice(), height);
        writes.raise(self.written.as_mut_slice(), height);
    }
}
