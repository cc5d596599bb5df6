//! Many small tasks on the workers' deque, and the same tasks without it.
ghost use Rattle.std.specs.Prelude.{◌<◌, ◌≤◌, IfOk, IfSome};
ghost use Rattle.std.specs.List.{All};
ghost use Rattle.dml_pool.specs.Tasks.{IsRunnable};

use dml_arena::{Arena, Region};
use dml_desc::{Checked, check};
use dml_image::Image;
use dml_pool::{Free, Task, run_wave};
use dml_scan::{Found, scan_fill};
use dml_types::{Job, Op};
use std::alloc::{AllocError, Global};
use std::io;
use std::rt::Clock;
use std::sync::Wait;
use std::thread::Threads;
use std::time::Instant;

/// The tasks of a wave, each a chunk of 8 bytes of one fill.
const TASKS: u32 = 8192;

/// The task of a chunk of a fill; none where it is no chunk of it.
fn task_of<'a>(job: Checked, from: u32, to: u32, room: Region<'a>) -> Option<Task<'a>>
    ensures { IfSome result IsRunnable }
{
    if job.op() != Op::Fill || from > to || to > job.job().size || !room.bytes().is_empty() {
        return None;
    }
    Some(Task {
        job,
        from,
        to,
        room,
    })
}

/// The tasks of a fill of 64 KiB.
fn tasks_of<'a>(
    alloc: Global,
    job: Checked,
    region: Region<'a>,
) -> Result<Vec<Task<'a>>, AllocError>
    ensures runnable { IfOk result (λ tasks. All IsRunnable tasks.items) }
{
    let mut tasks = Vec::with_capacity(alloc, TASKS as usize)?;
    let mut rest = region;
    for place in 0..TASKS {
        if !rest.bytes().is_empty() {
            break;
        }
        let (room, behind) = rest.cut(0);
        rest = behind;
        let Some(task) = task_of(job, 8 * place, 8 * place + 8, room) else {
            break;
        };
        tasks = with(tasks, task)?;
    }
    Ok(tasks)
}

/// Tasks, and one more behind them.
#[tactic(auto, using(crate::proofs::TaskLemmas::one_more))]
fn with<'a>(tasks: Vec<Task<'a>>, task: Task<'a>) -> Result<Vec<Task<'a>>, AllocError>
    requires so_far { All IsRunnable tasks.items }
    requires runnable { IsRunnable task }
    ensures { IfOk result (λ tasks. All IsRunnable tasks.items) }
{
    let mut tasks = tasks;
    tasks.push(task)?;
    Ok(tasks)
}

/// How many tasks find all their bytes, by one worker of a wave.
#[inline(never)]
fn in_a_wave<T: Threads + Wait + Sync>(
    rt: &T,
    alloc: Global,
    image: &Image,
    tasks: Vec<Task<'_>>,
) -> usize
    requires { All IsRunnable tasks.items }
{
    if tasks.len() > TASKS as usize {
        return 0;
    }
    match run_wave(rt, alloc, image, tasks, 1, &Free) {
        Ok(outcomes) => outcomes.len(),
        Err(_) => 0,
    }
}

/// How many tasks find all their bytes, one after another.
#[inline(never)]
fn alone(image: &Image, tasks: Vec<Task<'_>>) -> usize {
    let mut found = 0usize;
    for task in tasks {
        if has_all(image, task) {
            found = found.wrapping_add(1); // at most one a task
        }
    }
    found
}

/// Whether a task, the chunk of a fill, finds all its bytes.
fn has_all(image: &Image, task: Task<'_>) -> bool {
    let Task {
        job,
        from,
        to,
        room,
    } = task;
    let fits = from <= to && to <= job.job().size && room.bytes().is_empty();
    match job.op() {
        Op::Fill if fits => scan_fill(image, &job, from, to, room).found == Found::All,
        _ => false,
    }
}

/// Times a wave of small tasks with one worker, and their kernels alone: rows of a name, the number of tasks, and the
/// nanoseconds of all.
pub(crate) fn time_waves<T: Threads + Wait + Sync + Clock + Eprint>(
    rt: &T,
    alloc: Global,
    image: &Image,
    calls: u32,
) -> io::Result<()>
    requires { 0 < calls }
{
    let (Ok(mut arena), Ok(job)) = (Arena::new(alloc, 0), check(&Job::fill(1, 0, 8 * TASKS), 0))
    else {
        return Err(io::ErrorKind::OutOfMemory.into());
    };
    for in_wave in [true, false] {
        let mut nanoseconds = 0u128;
        for _ in 0..calls {
            let tasks = tasks_of(alloc, job, arena.open())?;
            let start = Instant::now(rt)?;
            let found = if in_wave {
                in_a_wave(rt, alloc, image, tasks)
            } else {
                alone(image, tasks)
            };
            nanoseconds = nanoseconds.saturating_add(start.elapsed(rt)?.as_nanos());
            if found != TASKS as usize {
                return Err(io::ErrorKind::InvalidData.into());
            }
        }
        let name = if in_wave { "tasks_wave" } else { "tasks_alone" };
        let mean = nanoseconds / u128::from(calls);
        eprintln!(rt; "{name} {TASKS} {mean}")?;
    }
    Ok(())
}
