//! The levels of a list of jobs, some of which may be fenced.
ghost use Rattle.std.specs.Prelude.{◌≡◌, ◌+◌, ℕ, ◌^◌, ◌<◌, ◌≤◌, ◌++◌, false, true, IfOk, OnOk, length, map};
ghost use Rattle.std.specs.List.{All};
ghost use Rattle.dml_types.specs.Job.{is_fenced};
ghost use Rattle.dml_types.specs.Conflict.{fenced_levels};
ghost use Rattle.dml_levels.specs.Waves.{job_at};

use crate::errors::LevelError;
use crate::leveling::find_levels;
use crate::waving::depth;
use dml_desc::Checked;
use std::alloc::{AllocError, Global};

/// The level of each job: 0 where it conflicts with no earlier one, and else one more than the greatest level of an
/// earlier job that it conflicts with. A job that is fenced, and each behind it, conflicts with all jobs before the
/// fence.
///
/// # Errors
/// `NoMemory` where there is no room for the list.
pub fn levels(alloc: Global, jobs: &[Checked]) -> Result<Vec<u32>, LevelError>
    requires { length jobs.now ≤ 2 ^ 32 }
    ensures { IfOk result (λ list. list.items ≡ fenced_levels jobs.now) }
{
    levels_by_pieces(alloc, jobs).map_err(|_| LevelError::NoMemory)
}

/// The levels, or want of memory: of each piece from a fence up to the next by themselves, above all levels before.
fn levels_by_pieces(alloc: Global, jobs: &[Checked]) -> Result<Vec<u32>, AllocError>
    requires { length jobs.now ≤ 2 ^ 32 }
    ensures { IfOk result (λ list. list.items ≡ fenced_levels jobs.now) }
{
    let mut from = next_fence(jobs, jobs.len().min(1));
    let mut levels = find_levels(alloc, &jobs[..from])?;
    while from < jobs.len() {
        let end = next_fence(jobs, from + 1);
        let piece = find_levels(alloc, &jobs[from..end])?;
        push_above(depth(&levels) as u32, &piece, &mut levels)?;
        from = end;
    }
    Ok(levels)
}

/// The first place from `start` on whose job is fenced, or the end of the list.
fn next_fence(jobs: &[Checked], start: usize) -> usize
    requires { start ≤ length jobs.now }
    ensures within { (start ≤ result) × (result ≤ length jobs.now) }
    ensures none_before { (i : ℕ) → start ≤ i → i < result → is_fenced (job_at jobs.now i) ≡ false }
    ensures fenced { result < length jobs.now → is_fenced (job_at jobs.now result) ≡ true }
{
    let mut place = start;
    while place < jobs.len() && !jobs[place].job().is_fenced() {
        place += 1;
    }
    place
}

/// Appends levels, each raised by so many.
fn push_above(base: u32, piece: &[u32], levels: &mut Vec<u32>) -> Result<(), AllocError>
    requires { All (λ level. base + level < 2 ^ 32) piece.now }
    ensures { OnOk result (levels.new.items ≡ levels.old.items ++ map (λ level. base + level) piece.now) }
{
    for level in piece {
        levels.push(base + *level)?;
    }
    Ok(())
}
