//! More calls whose growths of memory are refused: levels that are found by cells, and those behind fences.

use super::{STAGING, fills_in_turn, levels_or_refused};
use dml_desc::{Checked, check_in_batch};
use dml_types::Job;
use std::alloc::Global;

// The refused_* below hold whichever growth is refused: they are also run with each refused in turn, from the first one
// behind those that their set-up takes.

/// The jobs as a batch has them, checked; none where one is refused or memory is wanting.
fn checked_batch(alloc: Global, jobs: &[Job]) -> Option<Vec<Checked>> {
    let mut list = Vec::with_capacity(alloc, jobs.len()).ok()?;
    for job in jobs {
        list.push(check_in_batch(job, STAGING).ok()?).ok()?;
    }
    Some(list)
}

/// Twenty fills of five places in turn.
fn many_fills(alloc: Global) -> Option<Vec<Checked>> {
    checked_batch(alloc, &fills_in_turn(alloc)?)
}

#[test]
fn set_up_of_levels_by_cells(rt: HostRuntime) {
    let _ = many_fills(rt.alloc());
}

#[test]
fn refused_levels_by_cells(rt: HostRuntime) {
    let Some(jobs) = many_fills(rt.alloc()) else {
        return;
    };
    let want = [0, 0, 0, 0, 0, 1, 1, 1, 1, 1, 2, 2, 2, 2, 2, 3, 3, 3, 3, 3];
    levels_or_refused(&rt, rt.alloc(), &jobs, &want);
}

/// Two fills of one place, and two behind a fence.
fn fenced_fills(alloc: Global) -> Option<Vec<Checked>> {
    let jobs = [
        Job::fill(1, 0, 8),
        Job::fill(2, 0, 8),
        Job::fill(3, 8, 8).with_flags(1),
        Job::fill(4, 8, 8),
    ];
    checked_batch(alloc, &jobs)
}

#[test]
fn set_up_of_levels_behind_a_fence(rt: HostRuntime) {
    let _ = fenced_fills(rt.alloc());
}

#[test]
fn refused_levels_behind_a_fence(rt: HostRuntime) {
    let Some(jobs) = fenced_fills(rt.alloc()) else {
        return;
    };
    levels_or_refused(&rt, rt.alloc(), &jobs, &[0, 1, 2, 3]);
}
