//! The tasks of a wave.
ghost use Rattle.std.specs.Prelude.{◌≡◌, ◌≤◌, ◌<◌, ◌++◌, All, IfOk, OnOk, length, map};
ghost use Rattle.std.specs.List.{range_with_len};
ghost use Rattle.dml_types.specs.Chunk as unit;
ghost use Rattle.dml_types.specs.Limits.{IsValid};
ghost use Rattle.dml_desc.specs.Checked.{operation_of};
ghost use Rattle.dml_levels.specs.Tasks.{IsChunk};
ghost use Rattle.dml_core.specs.Plan.{chunks_of, jobs_of, task_for};
ghost use Rattle.dml_core.specs.Plan as word;

use crate::planning::checked_at;
use crate::values::{Fetched, Task};
use dml_desc::Checked;
use dml_levels::task_count;
use dml_types::{Job, Op, Settings};
use std::alloc::{AllocError, Global};

/// The tasks of the jobs at a wave's places, job after job and upwards. A refused job has none.
#[tactic(auto, using(crate::proofs::LoopLemmas::tasks_more))]
pub(crate) fn tasks_of(
    alloc: Global,
    fetched: &[Fetched],
    settings: &Settings,
    wave: &[usize],
) -> Result<Vec<Task>, AllocError>
    requires valid { IsValid settings.now }
    requires inside { All (λ i. i < length fetched.now) wave.now }
    ensures { IfOk result (λ tasks. tasks.items
        ≡ word.tasks_of (jobs_of fetched.now) settings.now.staging settings.now.chunk wave.now) }
{
    let mut tasks = Vec::new(alloc);
    for place in wave {
        let job = checked_at(fetched, *place, settings.staging);
        push_tasks(&job, settings.chunk, *place, &mut tasks)?;
    }
    Ok(tasks)
}

/// Puts the tasks of the job at a place behind those of a list.
fn push_tasks(
    job: &Checked,
    chunk: u32,
    place: usize,
    tasks: &mut Vec<Task>,
) -> Result<(), AllocError>
    requires chunk { IsChunk chunk }
    ensures { OnOk result (tasks.new.items ≡ tasks.old.items ++ chunks_of (operation_of job.now) job.now chunk place) }
{
    let op = job.op();
    let size = chunk_units(op, chunk);
    push_chunks(
        place,
        size,
        units(op, job.job()),
        task_count(job, chunk),
        tasks,
    )
}

/// Puts so many chunks behind those of a list.
#[tactic(auto, using(crate::proofs::LoopLemmas::chunks_more))]
fn push_chunks(
    place: usize,
    size: u64,
    last: u64,
    count: u32,
    tasks: &mut Vec<Task>,
) -> Result<(), AllocError>
    requires size { size ≤ 1048576 }
    requires count { count ≤ 131072 }
    ensures { OnOk result (tasks.new.items ≡ tasks.old.items
        ++ map (task_for place size last) (range_with_len 0 count)) }
{
    for k in 0..count {
        let from = u64::from(k) * size;
        tasks.push(Task {
            place,
            from,
            to: (from + size).min(last),
        })?;
    }
    Ok(())
}

/// How many units a job is cut by: offsets, blocks of a create, entries of an apply.
fn units(op: Op, job: &Job) -> u64
    ensures { result ≡ unit.units op job.now }
{
    match op {
        Op::NoOp => 0,
        Op::CreateDelta => u64::from(job.size / 8),
        Op::ApplyDelta => u64::from(job.delta_size / 10),
        Op::Move | Op::Fill | Op::Compare | Op::ComparePattern | Op::Dualcast => u64::from(
            job.size,
        ),
    }
}

/// How many units a chunk of so many bytes has.
fn chunk_units(op: Op, chunk: u32) -> u64
    requires { chunk ≤ 1048576 }
    ensures count { result ≡ unit.chunk_units op chunk }
    ensures most { result ≤ 1048576 }
{
    match op {
        Op::CreateDelta | Op::ApplyDelta => u64::from(chunk / 8),
        Op::NoOp | Op::Move | Op::Fill | Op::Compare | Op::ComparePattern | Op::Dualcast =>
            u64::from(chunk),
    }
}
