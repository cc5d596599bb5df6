//! The tasks of a wave.
ghost use Rattle.std.specs.Prelude.{◌≡◌, ◌+◌, ◌<◌, ◌≤◌, [], length, IfOk};
ghost use Rattle.std.specs.List.{All};
ghost use Rattle.dml_types.specs.Refusal.{need};
ghost use Rattle.dml_levels.specs.Tasks.{IsChunk, task_count};
ghost use Rattle.dml_levels.specs.Waves.{most_tasks, needs_of, tasks_of};
ghost use Rattle.dml_pool.specs.Tasks.{IsRunnable};
ghost use Rattle.dml_wave.specs.Tasks.{AddsTasks, AreWaveTasks};

use crate::units::{chunk_units, room_for, units};
use dml_arena::Region;
use dml_desc::Checked;
use dml_levels::task_count;
use dml_pool::Queue;
use std::alloc::{AllocError, Global};

/// The tasks of the jobs at a wave's places, job after job in the wave's order, on the deque of their workers: each job
/// is cut in chunks of `chunk` bytes, and each chunk has its region of the room.
///
/// # Errors
///
/// Where the allocator has no memory left for the deque.
pub fn cut_tasks<'j, 'a>(
    alloc: Global,
    jobs: &'j [Checked],
    wave: &[u32],
    chunk: u32,
    room: Region<'a>,
) -> Result<Queue<'j, 'a>, AllocError>
    requires places { All (λ i. i < length jobs.now) wave.now }
    requires chunk { IsChunk chunk }
    requires empty { room.bytes ≡ [] }
    requires fits { needs_of jobs.now wave.now ≤ room.room }
    requires few { tasks_of jobs.now chunk wave.now ≤ most_tasks }
    ensures tasks { IfOk result (λ queue. AreWaveTasks jobs.now chunk wave.now queue.tasks) }
    ensures runnable { IfOk result (λ queue. All IsRunnable queue.tasks) }
    ensures count { IfOk result (λ queue. length queue.tasks ≡ tasks_of jobs.now chunk wave.now) }
{
    let mut queue = Queue::new(alloc, count_tasks(jobs, wave, chunk))?;
    let mut room = room;
    for place in wave {
        let rest = cut_job(&jobs[*place as usize], chunk, room, &mut queue);
        room = rest;
    }
    Ok(queue)
}

/// How many tasks the jobs of a wave have.
fn count_tasks(jobs: &[Checked], wave: &[u32], chunk: u32) -> u32
    requires places { All (λ i. i < length jobs.now) wave.now }
    requires chunk { IsChunk chunk }
    requires few { tasks_of jobs.now chunk wave.now ≤ most_tasks }
    ensures { result ≡ tasks_of jobs.now chunk wave.now }
{
    let mut count = 0;
    for place in wave {
        count += task_count(&jobs[*place as usize], chunk);
    }
    count
}

/// Puts the tasks of a job behind those that wait, each with its region of the room, and answers what is left of it.
fn cut_job<'j, 'a>(
    job: &'j Checked,
    chunk: u32,
    room: Region<'a>,
    queue: &mut Queue<'j, 'a>,
) -> Region<'a>
    requires chunk { IsChunk chunk }
    requires empty { room.bytes ≡ [] }
    requires fits { need job.now ≤ room.room }
    requires reserved { length queue.old.tasks + task_count job.now chunk ≤ queue.old.room }
    ensures tasks { AddsTasks job.now chunk queue.old.tasks queue.new.tasks }
    ensures capacity { queue.new.room ≡ queue.old.room }
    ensures rest { (result.bytes ≡ []) × (room.entry.room ≤ result.room + need job.now) }
{
    let op = job.op();
    let units = units(op, job.job());
    let step = chunk_units(op, chunk);
    let mut room = room;
    let mut from = 0;
    let count = task_count(job, chunk);
    for _ in 0..count {
        let to = units.min(from + step);
        let (front, rest) = room.cut(room_for(op, to - from));
        queue.push(job, from, to, front);
        room = rest;
        from = to;
    }
    room
}
