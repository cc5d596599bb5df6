//! How much work jobs are, and how many workers they pay for.
ghost use Rattle.std.specs.Prelude.{◌≡◌, ◌↔◌, ◌<◌, ◌≤◌, IsTrue, length, map};
ghost use Rattle.std.specs.List.{All, range_with_len};
ghost use Rattle.dml_types.specs.Job.{op_of};
ghost use Rattle.dml_types.specs.Limits.{IsValid};
ghost use Rattle.dml_levels.specs.Tasks.{IsChunk};
ghost use Rattle.dml_levels.specs.Waves.{job_at};
ghost use Rattle.dml_engine.specs.Lists.{opened};
ghost use Rattle.dml_engine.specs.Loads.{capped, load_of, no_load, shareable, shareable_by, shared_at, with_job, workers_for};
ghost use Rattle.dml_engine.specs.Loads as word;

use crate::opening::{Fences, open};
use crate::submitting::MOST_JOBS;
use dml_desc::Checked;
use dml_levels::{depth, task_count};
use dml_types::{Job, Op, Settings};

/// Half of the bytes that workers have to share for one more of them to pay, as measured.
const HALF_OF_A_WORKER: u64 = 1 << 19;

/// The least bytes that are shared by two workers.
const LEAST_SHARED: u64 = 3 * HALF_OF_A_WORKER;

/// The bytes that are as dear as a task, as measured.
const TASK_BYTES: u64 = 2048;

/// How many tasks are taken off for a job: its check, its level and its place in a wave are some tenth as dear as
/// these, as measured.
const JOB_TASKS: u64 = 8;

/// The bytes that the cut of waves is counted as for each job at each level: twice what a look at a job for a level
/// cost where each level looked at all jobs, as measured.
const LOOK_BYTES: u64 = 32;

/// How many shared bytes make up for a byte that the calling thread writes alone behind a wave, as measured.
const STAGED_COST: u64 = 3;

/// The work of jobs, about. No answer depends on it.
#[derive(Clone, Copy, Debug)]
pub struct Load {
    /// The bytes that workers share, less what the tasks cost.
    pub shared: u64,
    /// The bytes that the calling thread would write alone behind a wave, at most.
    pub staged: u64,
}

impl Load {
    /// That of no job.
    pub fn none() -> Load
        ensures { result ≡ no_load }
    {
        Load {
            shared: 0,
            staged: 0,
        }
    }

    /// That of a list of jobs, as far as they do anything.
    pub fn of_list(jobs: &[Job], fences: Fences, settings: Settings) -> Load
        requires { IsValid settings }
        ensures { result ≡ load_of settings.chunk (map (opened fences settings.staging) jobs.now) }
    {
        let mut load = Load::none();
        for job in jobs {
            let (checked, _) = open(job, fences, settings.staging);
            load = load.with(&checked, settings.chunk);
        }
        load
    }

    /// That of the jobs at a wave's places.
    pub fn of_wave(jobs: &[Checked], wave: &[u32], chunk: u32) -> Load
        requires places { All (λ i. i < length jobs.now) wave.now }
        requires chunk { IsChunk chunk }
        ensures { result ≡ load_of chunk (map (job_at jobs.now) wave.now) }
    {
        let mut load = Load::none();
        for place in wave {
            load = load.with(&jobs[*place as usize], chunk);
        }
        load
    }

    /// That of one job more, in chunks of so many bytes.
    pub fn with(self, job: &Checked, chunk: u32) -> Load
        requires { IsChunk chunk }
        ensures { result ≡ with_job chunk self job.now }
    {
        let tasks = u64::from(task_count(job, chunk));
        let (size, delta_size) = (u64::from(job.job().size), u64::from(job.job().delta_size));
        let (shared, staged) = match job.op() {
            Op::NoOp => (0, 0),
            Op::Compare | Op::ComparePattern | Op::CreateDelta => {
                (size.saturating_sub(TASK_BYTES * (tasks + JOB_TASKS)), 0)
            }
            Op::Move | Op::Fill => (0, size),
            Op::ApplyDelta => (0, delta_size),
            Op::Dualcast => (0, 2 * size),
        };
        Load {
            shared: self.shared.saturating_add(shared),
            staged: self.staged.saturating_add(staged),
        }
    }

    /// How many workers a list of this work is given, of at most `most`, where no gate was given.
    pub fn list_workers(self, most: u32) -> u32
        requires { 1 ≤ most }
        ensures rule { result ≡ word.list_workers most self }
    {
        workers_for(self.shared, most)
    }

    /// How many workers a wave of this work is given; `watched` where a gate is to see all work.
    pub fn wave_workers(self, watched: bool, most: u32) -> u32
        requires { 1 ≤ most }
        ensures rule { result ≡ word.wave_workers watched most self }
        ensures least { 1 ≤ result }
        ensures most { result ≤ most }
    {
        if watched {
            most
        } else {
            let dear = self.staged.saturating_mul(STAGED_COST);
            workers_for(self.shared.saturating_sub(dear), most)
        }
    }
}

/// How many workers pay for sharing so many bytes, of at most `most`.
fn workers_for(bytes: u64, most: u32) -> u32
    requires { 1 ≤ most }
    ensures rule { result ≡ workers_for most bytes }
    ensures least { 1 ≤ result }
    ensures most { result ≤ most }
{
    let paid = (bytes / HALF_OF_A_WORKER).div_ceil(2);
    (paid.min(u64::from(most)) as u32).max(1)
}

/// Of a list that is worth a second worker, whether some of its levels are: whether they share enough bytes for one,
/// and these make up for the cut of its waves, counted as a look at every job for every level. No wave of another level
/// is given a second worker.
pub fn levels_pay(jobs: &[Checked], levels: &[u32], chunk: u32) -> bool
    requires { IsChunk chunk }
    ensures rule { result ≡ word.levels_pay chunk jobs.now levels.now }
{
    let depth = depth(levels);
    if depth <= 1 {
        return true;
    }
    let cut = depth.saturating_mul(LOOK_BYTES * jobs.len() as u64);
    brought_by_levels(jobs, levels, chunk) >= LEAST_SHARED.max(cut)
}

/// The bytes that the levels of a list share, as far as one of them shares enough for a second worker.
#[inline(never)]
fn brought_by_levels(jobs: &[Checked], levels: &[u32], chunk: u32) -> u64
    requires { IsChunk chunk }
    ensures { result ≡ word.brought_by_levels chunk jobs.now levels.now }
{
    let by_level = shared_by_level(jobs, levels, chunk);
    let mut all = 0_u64;
    for shared in &by_level {
        all = all.saturating_add(brought(*shared));
    }
    all
}

/// What a level brings whose jobs share so many bytes.
fn brought(shared: u64) -> u64
    ensures { result ≡ word.brought shared }
{
    if shared < LEAST_SHARED { 0 } else { shared }
}

/// The bytes that the jobs of each level share.
#[inline(always)]
fn shared_by_level(jobs: &[Checked], levels: &[u32], chunk: u32) -> [u64; MOST_JOBS]
    requires { IsChunk chunk }
    ensures { result ≡ map (λ level. capped (shared_at chunk jobs.now levels.now level)) (range_with_len 0 1024) }
{
    let mut by_level = [0_u64; MOST_JOBS];
    for place in 0..jobs.len().min(levels.len()) {
        let level = levels[place] as usize;
        if level < MOST_JOBS {
            let load = Load::none().with(&jobs[place], chunk);
            by_level[level] = by_level[level].saturating_add(load.shared);
        }
    }
    by_level
}

/// Whether the jobs name enough bytes for a second worker, before any of them is checked.
pub fn may_pay(jobs: &[Job]) -> bool
    ensures { IsTrue result ↔ (1572864 ≤ shareable jobs.now) }
{
    let mut left = LEAST_SHARED;
    for job in jobs {
        let bytes = shareable_bytes(job);
        if bytes >= left {
            return true;
        }
        left -= bytes;
    }
    false
}

/// The bytes that a job's workers share at most.
fn shareable_bytes(job: &Job) -> u64
    ensures { result ≡ shareable_by (op_of job.now) job.now }
{
    match job.op() {
        Some(Op::Compare | Op::ComparePattern | Op::CreateDelta) => {
            u64::from(job.size).saturating_sub(TASK_BYTES * JOB_TASKS)
        }
        _ => 0,
    }
}
