ghost use Rattle.std.specs.Prelude.{◌≡◌, ◌^◌, ◌<◌, ◌≤◌, IfOk, IfSome, length, map};
ghost use Rattle.dml_types.specs.Conflict.{clash_of, level_over, clash_levels};
ghost use Rattle.dml_types.specs.Conflict as word;
ghost use Rattle.std.specs.List.Sorted.{IsNonDecreasing, IsPermutation};
ghost use Rattle.dml_levels.specs.Cells.{all_starts};
ghost use Rattle.dml_levels.specs.Hulls.{reach_of};
ghost use Rattle.dml_levels.specs.Touched.{touched_by};

use crate::covers::Cover;
use crate::heights::Heights;
use crate::hulls::Reach;
use crate::starts::Starts;
use crate::touched::Touches;
use crate::touching::touches;
use dml_desc::Checked;
use std::alloc::{AllocError, Global};

/// Up to so many jobs, levels are found by pairs.
const FEW_JOBS: usize = 16;

/// Above so many jobs too.
const MANY_JOBS: usize = 65_536;

/// The level of each job by ranges alone: 0 where it conflicts with no earlier one, and else one more than the greatest
/// level of an earlier job that it conflicts with. By pairs of jobs, or by the cells of their ranges where that is
/// quicker.
pub(crate) fn find_levels(alloc: Global, jobs: &[Checked]) -> Result<Vec<u32>, AllocError>
    requires { length jobs.now ≤ 2 ^ 32 }
    ensures { IfOk result (λ list. list.items ≡ word.levels jobs.now) }
{
    if let Some(levels) = levels_apart(alloc, jobs)? {
        return Ok(levels);
    }
    if jobs.len() > FEW_JOBS && jobs.len() <= MANY_JOBS {
        return levels_by_cells(alloc, jobs, &Starts::of(alloc, jobs)?);
    }
    let reaches = find_reaches(alloc, jobs)?;
    levels_by_pairs(alloc, jobs, reaches.as_slice())
}

/// The levels of jobs by their hulls alone, where those of none meet those of one before it; `None` where some do.
fn levels_apart(alloc: Global, jobs: &[Checked]) -> Result<Option<Vec<u32>>, AllocError>
    requires few { length jobs.now ≤ 2 ^ 32 }
    ensures { IfOk result (λ found. IfSome found (λ list. list.items ≡ word.levels jobs.now)) }
{
    let mut levels = Vec::with_capacity(alloc, jobs.len())?;
    let mut seen = Reach::none();
    for i in 0..jobs.len() {
        let reach = Reach::of(&jobs[i]);
        if seen.meets(reach) {
            return Ok(None);
        }
        levels.push_reserved(0);
        seen = seen.both(reach);
    }
    Ok(Some(levels))
}

/// The levels by pairs of jobs.
fn levels_by_pairs(
    alloc: Global,
    jobs: &[Checked],
    reaches: &[Reach],
) -> Result<Vec<u32>, AllocError>
    requires few { length jobs.now ≤ 2 ^ 32 }
    requires reaches { reaches.now ≡ map reach_of jobs.now }
    ensures { IfOk result (λ list. list.items ≡ word.levels jobs.now) }
{
    let touched = find_touched(alloc, jobs)?;
    let mut levels = Vec::with_capacity(alloc, jobs.len())?;
    let mut seen = Reach::none();
    for i in 0..jobs.len() {
        let reach = reaches[i];
        let level = if seen.meets(reach) {
            searched_level(jobs, reaches, touched.as_slice(), levels.as_slice(), i)
        } else {
            0
        };
        levels.push(level)?;
        seen = seen.both(reach);
    }
    Ok(levels)
}

/// The levels by the cells of the jobs' ranges.
fn levels_by_cells(alloc: Global, jobs: &[Checked], starts: &Starts) -> Result<Vec<u32>, AllocError>
    requires few { length jobs.now < 2 ^ 32 }
    requires starts { IsPermutation (all_starts jobs.now) starts.now }
    requires sorted { IsNonDecreasing starts.now }
    ensures { IfOk result (λ list. list.items ≡ word.levels jobs.now) }
{
    let mut levels = Vec::with_capacity(alloc, jobs.len())?;
    let mut heights = Heights::new(alloc, starts.list.len() + 1)?;
    let mut reads = Cover::none();
    let mut writes = Cover::none();
    let mut ranges = 0_usize;
    for job in jobs {
        let touched = touches(job);
        reads.set(starts, ranges, &touched.reads);
        ranges = ranges.saturating_add(touched.reads.len());
        writes.set(starts, ranges, &touched.writes);
        ranges = ranges.saturating_add(touched.writes.len());
        let level = heights.level_of(&reads, &writes);
        heights.raise(&reads, &writes, level.saturating_add(1));
        levels.push(level)?;
    }
    Ok(levels)
}

/// The reach of each job.
fn find_reaches(alloc: Global, jobs: &[Checked]) -> Result<Vec<Reach>, AllocError>
    ensures { IfOk result (λ list. list.items ≡ map reach_of jobs.now) }
{
    jobs.iter().map(Reach::of).collect(alloc)
}

/// What each job touches.
fn find_touched(alloc: Global, jobs: &[Checked]) -> Result<Vec<Touches>, AllocError>
    ensures { IfOk result (λ list. list.items ≡ map touched_by jobs.now) }
{
    jobs.iter().map(Touches::of).collect(alloc)
}

/// The level of the job at a place, by those of the jobs before it: from the last of them down, as far as one may
/// stand as high.
#[tactic(auto, using(dml_order::proofs::LevelLemmas::length_levels_of, dml_order::proofs::LevelLemmas::level_le, crate::proofs::LevelLemmas::highest_raised))]
fn searched_level(
    jobs: &[Checked],
    reaches: &[Reach],
    touched: &[Touches],
    levels: &[u32],
    place: usize,
) -> u32
    requires in_bounds { place < length jobs.now }
    requires few { length jobs.now ≤ 2 ^ 32 }
    requires reaches { reaches.now ≡ map reach_of jobs.now }
    requires touched { touched.now ≡ map touched_by jobs.now }
    requires levels { levels.now ≡ clash_levels (clash_of jobs.now) place }
    ensures { result ≡ level_over (clash_of jobs.now) levels.now place }
{
    let mut level = 0;
    let mut k = place;
    while k > level as usize {
        k -= 1;
        if levels[k] >= level && clashes(jobs, reaches, touched, k, place) {
            level = levels[k] + 1;
        }
    }
    level
}

/// Whether the jobs at two places conflict.
#[tactic(auto, using(crate::proofs::HullLemmas::apart_at, crate::proofs::TouchedLemmas::clash_at))]
fn clashes(jobs: &[Checked], reaches: &[Reach], touched: &[Touches], i: usize, k: usize) -> bool
    requires first_in_bounds { i < length jobs.now }
    requires second_in_bounds { k < length jobs.now }
    requires reaches { reaches.now ≡ map reach_of jobs.now }
    requires touched { touched.now ≡ map touched_by jobs.now }
    ensures { result ≡ clash_of jobs.now i k }
{
    reaches[i].meets(reaches[k]) && touched[i].conflict_with(&touched[k])
}
