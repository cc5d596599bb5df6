//! Waves of more than two levels, which are cut along links between the places of a level.
ghost use Rattle.std.specs.Prelude.{◌≤◌, All, IfSome};
ghost use Rattle.dml_types.specs.Refusal.{need};

use super::{checked, expect_numbers};
use dml_desc::Checked;
use dml_levels::{LevelError, Wave, levels, waves};
use dml_types::Job;
use std::alloc::Global;
use std::process::Abort;
use std::test::Fail;

/// Four moves, which need all the staging there is, and two fills, which need none; of three levels.
fn six_jobs(alloc: Global) -> Option<Vec<Checked>>
    ensures { IfSome result (λ list. All (λ job. need job ≤ 64) list.items) }
{
    let jobs = [
        Job::move_bytes(0, 256, 64),
        Job::move_bytes(0, 1024, 64),
        Job::move_bytes(256, 512, 64),
        Job::fill(1, 2048, 8),
        Job::move_bytes(512, 768, 64),
        Job::fill(2, 1024, 8),
    ];
    checked(alloc, 64, &jobs)
}

/// Checks the places of the waves.
fn expect_waves(rt: &impl Abort, list: &[Wave], want: &[&[u32]]) {
    assert_eq!(rt; list.len(), want.len());
    for (wave, places) in list.iter().zip(want) {
        expect_numbers(rt, wave.list.as_slice(), places);
    }
}

/// Checks the waves of the six jobs, or memory is wanting: the second move does not fit beside the first one.
fn expect_four_waves(rt: &impl Abort, alloc: Global, jobs: &[Checked]) -> Result<(), LevelError>
    requires { All (λ job. need job ≤ 64) jobs.now }
{
    assert!(rt; jobs.len() <= 1024);
    let found = levels(alloc, jobs)?;
    expect_numbers(rt, found.as_slice(), &[0, 0, 1, 0, 2, 1]);
    let list = waves(alloc, jobs, found.as_slice(), 64, 4096)?;
    expect_waves(rt, list.as_slice(), &[&[0], &[1, 3], &[2, 5], &[4]]);
    Ok(())
}

#[test]
fn waves_of_three_levels(rt: HostRuntime) -> Result<(), Fail> {
    let jobs = six_jobs(rt.alloc()).ok_or("no memory")?;
    expect_four_waves(&rt, rt.alloc(), jobs.as_slice())?;
    Ok(())
}

/// What is made before the call of `waves` in `refused_waves_of_three_levels`: the jobs and their levels.
#[test]
fn set_up_of_waves_of_three_levels(rt: HostRuntime) {
    let Some(jobs) = six_jobs(rt.alloc()) else {
        return;
    };
    assert!(rt; jobs.len() <= 1024);
    let _ = levels(rt.alloc(), jobs.as_slice());
}

/// To be run with each growth of memory refused in turn: the right waves, or want of memory.
#[test]
fn refused_waves_of_three_levels(rt: HostRuntime) {
    let Some(jobs) = six_jobs(rt.alloc()) else {
        return;
    };
    if let Err(error) = expect_four_waves(&rt, rt.alloc(), jobs.as_slice()) {
        assert_eq!(rt; error, LevelError::NoMemory);
    }
}
