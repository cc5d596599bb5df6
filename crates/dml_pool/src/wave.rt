//! A wave of tasks.
ghost use Rattle.std.specs.Prelude.{◌≡◌, ◌<◌, ◌≤◌, ◌++◌, [], length, map, vec_capacity, IfOk};
ghost use Rattle.std.specs.List.{All, range_with_len};
ghost use Rattle.crossbeam_deque.specs.Handles.{worker_view, worker_deque, stealer_deque, stealer_flavor};
ghost use Rattle.dml_pool.specs.Rule.{all_parts, hand, tasks_done, Accounts, AreTaskValues};
ghost use Rattle.dml_pool.specs.Slots.{HoldAll, all_held, held};
ghost use Rattle.dml_pool.specs.Tasks.{IsRunnable};

use crate::crew::crew;
use crate::order::{Outcomes, ordered};
use crate::posts::{Common, absorbed, gathered, posts_for};
use crate::rule::{Owner, Part, Thief, Whole};
use crate::worker::{Desk, work};
use crate::{Gate, Outcome, Queue, Task};
use dml_desc::Checked;
use dml_image::Image;
use std::alloc::{AllocError, Global};
use std::marker::Brand;
use std::sync::Wait;
use std::thread::Threads;
use thiserror::Error;

/// Why a wave has no outcomes.
#[derive(Clone, Copy, PartialEq, Eq, Debug, Error)]
pub enum PoolError {
    /// The allocator has no memory left for the jobs, the deque, the slots, the posts or a list.
    #[error("out of memory")]
    Refused,
}

impl From<AllocError> for PoolError {
    fn from(_refused: AllocError) -> PoolError {
        PoolError::Refused
    }
}

/// Carries out all tasks of a wave on the image, by at most `workers` threads, this one among them: the outcome of
/// each task, in the order of the tasks.
///
/// There are no more workers than tasks. One worker starts no thread. Each worker takes one task at a time, enters the
/// gate and carries the task out.
///
/// # Errors
///
/// `Refused` where the allocator has no memory left; the tasks are gone with their regions. All memory but that of the
/// threads is taken before the first worker starts.
#[tactic(auto, using(crate::proofs::Holds::all_within))]
pub fn run_wave<'a, R: Threads + Wait + Sync, G: Gate + Sync>(
    rt: &R,
    alloc: Global,
    image: &Image,
    tasks: Vec<Task<'a>>,
    workers: u32,
    gate: &G,
) -> Result<Vec<Outcome<'a>>, PoolError>
    requires least_workers { 1 ≤ workers }
    requires most_workers { workers ≤ 16 }
    requires most_tasks { length tasks.items ≤ 131072 }
    requires runnable { All IsRunnable tasks.items }
    ensures order { IfOk result (λ outcomes. tasks_done outcomes.items ≡ range_with_len 0 (length tasks.entry.items)) }
    ensures values { IfOk result (λ outcomes. AreTaskValues image.now tasks.entry.items outcomes.items) }
{
    let all = Vec::with_capacity(alloc, tasks.len())?;
    let slots = Vec::with_capacity(alloc, tasks.len())?;
    let jobs = jobs_of(alloc, &tasks)?;
    let queue = Queue::of_list(alloc, &jobs, tasks)?;
    let mut lists = run_wave_into_lists(rt, alloc, image, queue, workers, gate)?;
    Ok(ordered(lists.as_mut_slice(), slots, all))
}

/// The jobs of tasks.
fn jobs_of(alloc: Global, tasks: &[Task<'_>]) -> Result<Vec<Checked>, AllocError>
    ensures { IfOk result (λ jobs. jobs.items ≡ map (λ task. task.job) tasks.now) }
{
    let mut jobs = Vec::with_capacity(alloc, tasks.len())?;
    for task in tasks {
        jobs.push_reserved(task.job);
    }
    Ok(jobs)
}

/// As `run_wave`, but the tasks are on their deque already, and the outcomes stay in lists, one for each worker, where
/// they can be taken out.
///
/// # Errors
///
/// As of `run_wave`.
pub fn run_wave_into_lists<'j, 'a, R: Threads + Wait + Sync, G: Gate + Sync>(
    rt: &R,
    alloc: Global,
    image: &Image,
    queue: Queue<'j, 'a>,
    workers: u32,
    gate: &G,
) -> Result<Vec<Outcomes<'a>>, PoolError>
    requires least_workers { 1 ≤ workers }
    requires most_workers { workers ≤ 16 }
    requires runnable { All IsRunnable queue.tasks }
    ensures { IfOk result (λ lists. HoldAll image.now queue.entry.tasks lists.items) }
{
    let count = queue.len();
    let workers = workers.min(count).max(1);
    let owner = queue.into_owner();
    let thief = owner.stealer()?;
    all_done::<R, G, Brand>(rt, alloc, image, gate, workers, count, &thief, owner)
}

/// The outcomes of all `count` tasks of a deque, in lists.
///
/// # Errors
///
/// `Refused` where the allocator has no memory left for the posts or a list.
#[tactic(auto, using(crate::proofs::Keeps::forks, crate::proofs::Holds::none_so_far, crate::proofs::Holds::all_so_far))]
fn all_done<'j, 'a, R: Threads + Wait + Sync, G: Gate + Sync, W: Common + Send>(
    rt: &R,
    alloc: Global,
    image: &Image,
    gate: &G,
    workers: u32,
    count: u32,
    thief: &Thief<'j, 'a>,
    mut owner: Owner<'j, 'a>,
) -> Result<Vec<Outcomes<'a>>, PoolError>
    requires least_workers { 1 ≤ workers }
    requires most_workers { workers ≤ 16 }
    requires count { count ≡ length W.tasks }
    requires memory { image.now ≡ W.memory }
    requires deque { stealer_deque thief.now ≡ W.deque }
    requires owner { worker_deque owner ≡ W.deque }
    requires flavor { stealer_flavor thief.now ≡ 0 }
    requires tasks { worker_view owner ≡ hand W.tasks all_parts [] }
    requires runnable { All IsRunnable W.tasks }
    ensures { IfOk result (λ lists. HoldAll image.now W.tasks lists.items) }
{
    let lists = Vec::with_capacity(alloc, workers as usize)?;
    let done = Vec::with_capacity(alloc, count as usize)?;
    let posts = posts_for::<W>(alloc, &mut owner, workers - 1, count as usize)?;
    let place = owner.another::<Part>();
    let desk = Desk { thief, place, done };
    let (place, done) = crew(rt, alloc, image, gate, posts.as_slice(), desk);
    let (owner, lists) = gathered(owner, lists, posts);
    let owner = absorbed(owner, place);
    Ok(last_look(rt, image, gate, thief, owner, lists, done))
}

/// One more look, with all passes joined, finds the deque empty; a task that it held would be carried out here.
#[tactic(auto, using(crate::proofs::Keeps::forks_whole, crate::proofs::Works::longer))]
fn last_look<'j, 'a, R: Wait, G: Gate>(
    rt: &R,
    image: &Image,
    gate: &G,
    thief: &Thief<'j, 'a>,
    mut owner: Owner<'j, 'a>,
    mut lists: Vec<Outcomes<'a>>,
    done: Outcomes<'a>,
) -> Vec<Outcomes<'a>>
    requires deque { worker_deque owner ≡ stealer_deque thief.now }
    requires flavor { stealer_flavor thief.now ≡ 0 }
    requires parts { (worker_view owner).parts ≡ all_parts }
    requires runnable { All IsRunnable (worker_view owner).tasks }
    requires so_far { Accounts image.now (worker_view owner) (all_held lists.items ++ held done.items) }
    requires few { length done.items ≤ length (worker_view owner).taken }
    requires room { length (worker_view owner).tasks ≤ vec_capacity done }
    requires place { length lists.items < vec_capacity lists }
    ensures { HoldAll image.now (worker_view owner.entry).tasks result.items }
{
    let mut place = owner.another::<Whole>();
    let done = work(rt, image, gate, thief, &mut place, done);
    lists.push_reserved(done);
    lists
}
