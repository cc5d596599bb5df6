ghost use Rattle.std.specs.Prelude.{◌≤◌, All, IfSome};
ghost use Rattle.dml_types.specs.Refusal.{need};

mod growths;
mod linked;

use dml_desc::{Checked, check, check_in_batch};
use dml_levels::{LevelError, Wave, conflict, depth, levels, task_count, touches, waves};
use dml_types::{Job, Span, Status};
use std::alloc::Global;
use std::process::Abort;
use std::test::Fail;

/// The staging size of a run without options.
const STAGING: u32 = 1_048_576;

/// The jobs of a table, checked; none where one is refused or memory is wanting.
fn checked(alloc: Global, staging: u32, jobs: &[Job]) -> Option<Vec<Checked>>
    ensures { IfSome result (λ list. All (λ job. need job ≤ staging) list.items) }
{
    let mut list = Vec::with_capacity(alloc, jobs.len()).ok()?;
    for job in jobs {
        list.push(check(job, staging).ok()?).ok()?;
    }
    Some(list)
}

/// Two fills and two moves, of which the moves read what the fills write, and the last writes what the first reads.
fn four_jobs() -> [Job; 4] {
    [
        Job::fill(1, 0, 8),
        Job::move_bytes(0, 64, 8),
        Job::fill(2, 512, 8),
        Job::move_bytes(512, 0, 8),
    ]
}

/// Checks levels, or places.
fn expect_numbers(rt: &impl Abort, found: &[u32], want: &[u32]) {
    assert_eq!(rt; found, want);
}

/// Checks the levels of jobs that are checked, unless memory is wanting.
fn expect_found(
    rt: &impl Abort,
    alloc: Global,
    jobs: &[Checked],
    want: &[u32],
) -> Result<(), LevelError> {
    assert!(rt; jobs.len() <= 1024);
    let found = levels(alloc, jobs)?;
    expect_numbers(rt, found.as_slice(), want);
    Ok(())
}

/// Checks the levels of a list of jobs.
fn expect_levels(rt: &impl Abort, alloc: Global, jobs: &[Job], want: &[u32]) -> Option<()> {
    let jobs = checked(alloc, STAGING, jobs)?;
    expect_found(rt, alloc, &jobs, want).ok()
}

#[test]
fn conflict_chain(rt: HostRuntime) -> Result<(), Fail> {
    let jobs = [
        Job::move_bytes(0, 64, 16),
        Job::move_bytes(64, 128, 16),
        Job::fill(0xffff_ffff_ffff_ffff, 0, 16),
    ];
    expect_levels(&rt, rt.alloc(), &jobs, &[0, 1, 1]).ok_or("no memory")?;
    Ok(())
}

#[test]
fn levels_of_four_jobs(rt: HostRuntime) -> Result<(), Fail> {
    expect_levels(&rt, rt.alloc(), &four_jobs(), &[0, 1, 0, 2]).ok_or("no memory")?;
    Ok(())
}

#[test]
fn levels_are_counted(rt: HostRuntime) -> Result<(), Fail> {
    assert_eq!(rt; (depth(&[0, 1, 0, 2]), depth(&[0]), depth(&[])), (3, 1, 0));
    Ok(())
}

/// Fills of five ranges in turn, more jobs than are looked at by pairs: each waits for the one before it in its range.
fn fills_in_turn(alloc: Global) -> Option<Vec<Job>> {
    let mut jobs = Vec::with_capacity(alloc, 20).ok()?;
    for place in 0..20 {
        jobs.push(Job::fill(place, place % 5 * 64, 64)).ok()?;
    }
    Some(jobs)
}

#[test]
fn levels_of_fills_in_turn(rt: HostRuntime) -> Result<(), Fail> {
    let jobs = fills_in_turn(rt.alloc()).ok_or("no memory")?;
    let want = [0, 0, 0, 0, 0, 1, 1, 1, 1, 1, 2, 2, 2, 2, 2, 3, 3, 3, 3, 3];
    expect_levels(&rt, rt.alloc(), jobs.as_slice(), &want).ok_or("no memory")?;
    Ok(())
}

/// A job, checked.
fn accepted(job: &Job) -> Result<Checked, &'static str> {
    check(job, STAGING).ok().ok_or("refused")
}

#[test]
fn chunk_task_counts(rt: HostRuntime) -> Result<(), Fail> {
    let rows = [
        (Job::move_bytes(0, 4096, 100), 8, 13),
        (Job::create_delta(0, 64, 32, 128, 20), 16, 2),
        (Job::apply_delta(0, 30, 256, 32), 16, 2),
        (Job::fill(1, 0, 0), 8, 0),
        (Job::no_op(), 8, 0),
        (Job::move_bytes(0, 0, 1_048_576), 8, 131_072),
    ];
    for (job, chunk, want) in rows {
        let job = accepted(&job)?;
        assert!(rt; chunk >= 8 && chunk <= 1_048_576 && chunk % 8 == 0);
        assert_eq!(rt; task_count(&job, chunk), want);
    }
    Ok(())
}

/// The 100 bytes from an address on.
fn span(start: u64) -> Span {
    Span { start, len: 100 }
}

#[test]
fn touched_ranges(rt: HostRuntime) -> Result<(), Fail> {
    let touched = touches(&accepted(&Job::dualcast(0, 4096, 8192, 100))?);
    assert!(rt; touched.reads.list.as_slice() == [span(0)].as_slice());
    assert!(rt; touched.writes.list.as_slice() == [span(4096), span(8192)].as_slice());
    Ok(())
}

#[test]
fn conflicts(rt: HostRuntime) -> Result<(), Fail> {
    let rows = [
        (Job::compare(0, 64, 8), Job::compare(0, 64, 8), false),
        (Job::compare(0, 64, 8), Job::fill(1, 71, 1), true),
        (Job::compare(0, 64, 8), Job::fill(1, 72, 1), false),
        (Job::fill(1, 8, 8), Job::move_bytes(0, 64, 9), true),
        (Job::fill(1, 8, 8), Job::fill(2, 12, 0), false),
        (Job::fill(1, 8, 8), Job::no_op(), false),
    ];
    for (a, b, want) in rows {
        let (first, second) = (accepted(&a)?, accepted(&b)?);
        let both = [conflict(&first, &second), conflict(&second, &first)];
        assert!(rt; both == [want, want], "{a:?} and {b:?}");
    }
    Ok(())
}

/// Fills of 8 bytes at these addresses, each fenced or not, checked; none where one is refused or memory is wanting.
fn checked_fills(alloc: Global, fills: &[(u64, bool)]) -> Option<Vec<Checked>> {
    let mut jobs = Vec::with_capacity(alloc, fills.len()).ok()?;
    for (address, fenced) in fills {
        let job = Job::fill(1, *address, 8).with_flags(u32::from(*fenced));
        jobs.push(check_in_batch(&job, STAGING).ok()?).ok()?;
    }
    Some(jobs)
}

/// Checks the levels of such fills.
fn expect_fenced_levels(
    rt: &impl Abort,
    alloc: Global,
    fills: &[(u64, bool)],
    want: &[u32],
) -> Result<(), Fail> {
    let jobs = checked_fills(alloc, fills).ok_or("a fill is refused, or no memory")?;
    expect_found(rt, alloc, &jobs, want)?;
    Ok(())
}

/// Behind a fence stand the levels that its jobs have by themselves, above all before it; one at place 0 raises
/// nothing.
#[test]
fn levels_behind_fences(rt: HostRuntime) -> Result<(), Fail> {
    let alloc = rt.alloc();
    let (free, fenced) = (false, true);
    expect_fenced_levels(&rt, alloc, &[(0, fenced), (8, free)], &[0, 0])?;
    expect_fenced_levels(
        &rt,
        alloc,
        &[(0, free), (8, fenced), (16, free)],
        &[0, 1, 1],
    )?;
    expect_fenced_levels(
        &rt,
        alloc,
        &[(0, free), (0, free), (8, fenced), (8, free)],
        &[0, 1, 2, 3],
    )?;
    expect_fenced_levels(
        &rt,
        alloc,
        &[(0, free), (8, fenced), (16, fenced), (24, free)],
        &[0, 1, 2, 2],
    )?;
    Ok(())
}

/// Two moves that need all the staging there is.
fn two_moves(alloc: Global) -> Option<Vec<Checked>>
    ensures { IfSome result (λ list. All (λ job. need job ≤ 64) list.items) }
{
    let jobs = [Job::move_bytes(0, 256, 64), Job::move_bytes(0, 1024, 64)];
    checked(alloc, 64, &jobs)
}

/// Checks that there are two waves, of the first job and of the second.
fn expect_one_each(rt: &impl Abort, list: &[Wave]) {
    assert_eq!(rt; list.len(), 2);
    for (wave, place) in list.iter().zip(0..2) {
        expect_numbers(rt, wave.list.as_slice(), &[place]);
    }
}

/// Checks that two jobs of one level, which need 64 bytes of staging each, are two waves; or memory is wanting.
fn expect_two_waves(rt: &impl Abort, alloc: Global, jobs: &[Checked]) -> Result<(), LevelError>
    requires { All (λ job. need job ≤ 64) jobs.now }
{
    assert!(rt; jobs.len() <= 1024);
    let found = levels(alloc, jobs)?;
    expect_numbers(rt, found.as_slice(), &[0, 0]);
    let list = waves(alloc, jobs, found.as_slice(), 64, 4096)?;
    expect_one_each(rt, list.as_slice());
    Ok(())
}

#[test]
fn staging_refusal_and_two_waves(rt: HostRuntime) -> Result<(), Fail> {
    let refused = check(&Job::move_bytes(0, 512, 65), 64);
    assert!(rt; refused == Err(Status::StagingRefused));
    let jobs = two_moves(rt.alloc()).ok_or("no memory")?;
    expect_two_waves(&rt, rt.alloc(), jobs.as_slice())?;
    Ok(())
}

/// The right levels, or want of memory.
fn levels_or_refused(rt: &impl Abort, alloc: Global, jobs: &[Checked], want: &[u32]) {
    if let Err(error) = expect_found(rt, alloc, jobs, want) {
        assert_eq!(rt; error, LevelError::NoMemory);
    }
}

/// What is made before the call of `refused_levels`.
#[test]
fn set_up_of_levels(rt: HostRuntime) {
    let _ = checked(rt.alloc(), STAGING, &four_jobs());
}

/// To be run with each growth of memory refused in turn: the right levels, or want of memory.
#[test]
fn refused_levels(rt: HostRuntime) {
    let Some(jobs) = checked(rt.alloc(), STAGING, &four_jobs()) else {
        return;
    };
    levels_or_refused(&rt, rt.alloc(), &jobs, &[0, 1, 0, 2]);
}

/// What is made before the call of `waves` in `refused_waves`: the jobs and their levels.
#[test]
fn set_up_of_waves(rt: HostRuntime) {
    let Some(jobs) = two_moves(rt.alloc()) else {
        return;
    };
    assert!(rt; jobs.len() <= 1024);
    let _ = levels(rt.alloc(), jobs.as_slice());
}

/// To be run with each growth of memory refused in turn: the right waves, or want of memory.
#[test]
fn refused_waves(rt: HostRuntime) {
    let Some(jobs) = two_moves(rt.alloc()) else {
        return;
    };
    if let Err(error) = expect_two_waves(&rt, rt.alloc(), jobs.as_slice()) {
        assert_eq!(rt; error, LevelError::NoMemory);
    }
}
