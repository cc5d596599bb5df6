//! The deque of a wave before its start.
ghost use Rattle.std.specs.Prelude.{◌≡◌, ◌+◌, ◌^◌, ◌<◌, ◌≤◌, ◌++◌, ◌∷◌, [], length, map, IfOk};
ghost use Rattle.crossbeam_deque.specs.Handles.{worker_view, worker_index, worker_capacity, worker_flavor, SameWorker};
ghost use Rattle.dml_pool.specs.Rule.{hand, all_parts, task_of};
ghost use Rattle.dml_pool.specs.Tasks.{task_with};

use crate::Task;
use crate::rule::{Numbered, Owner, Pushed};
use dml_arena::Region;
use dml_desc::Checked;
use std::alloc::{AllocError, Global};
use std::marker::Model;

/// The tasks of a wave that has not started, on the deque that its workers steal from. Each has its place in the wave.
/// Their jobs stay where they are.
#[derive(Drop)]
pub struct Queue<'j, 'a> {
    owner: Owner<'j, 'a>,
    count: u32,
    room: u32,
}

impl<'j, 'a> Model for Queue<'j, 'a> {
    ghost use Rattle.dml_pool.specs.Queues.{Waiting};
    ghost use Rattle.crossbeam_deque.specs.Handles.{worker_view, worker_index, worker_capacity, worker_flavor};

    ghost Value = { Waiting };

    ghost view = { λ q. record { tasks = (worker_view q.owner).tasks; room = q.room } };

    ghost use Rattle.std.specs.Prelude.{◌≡◌, ◌^◌, ◌<◌, ◌≤◌, [], length};
    ghost use Rattle.dml_pool.specs.Rule.{hand, all_parts};

    ghost invariant = { λ q.
        (worker_view q.owner ≡ hand (worker_view q.owner).tasks all_parts [])
        × (worker_flavor q.owner ≡ 0)
        × (worker_index q.owner ≡ q.count)
        × (q.count ≡ length (worker_view q.owner).tasks)
        × (q.count ≤ q.room) × (q.room < 2 ^ 32)
        × (q.room ≤ worker_capacity q.owner) };
}

impl<'j, 'a> Queue<'j, 'a> {
    /// A queue that holds no task and has room for so many.
    ///
    /// # Errors
    ///
    /// Where the allocator has no memory left for it.
    pub fn new(alloc: Global, room: u32) -> Result<Queue<'j, 'a>, AllocError>
        ensures empty { IfOk result (λ queue. queue.tasks ≡ []) }
        ensures room { IfOk result (λ queue. queue.room ≡ room) }
    {
        let owner = Owner::fifo_as(alloc, room as usize)?;
        Ok(Queue {
            owner,
            count: 0,
            room,
        })
    }

    /// A queue of the tasks of a list. Their jobs lie in a list of their own.
    ///
    /// # Errors
    ///
    /// Where the allocator has no memory left for it.
    pub(crate) fn of_list(
        alloc: Global,
        jobs: &'j [Checked],
        tasks: Vec<Task<'a>>,
    ) -> Result<Queue<'j, 'a>, AllocError>
        requires most { length tasks.items ≤ 131072 }
        requires jobs { jobs.now ≡ map (λ task. task.job) tasks.items }
        ensures tasks { IfOk result (λ queue. queue.tasks ≡ tasks.entry.items) }
        ensures room { IfOk result (λ queue. queue.room ≡ length tasks.entry.items) }
    {
        let mut queue = Queue::new(alloc, tasks.len() as u32)?;
        let mut place = 0;
        for task in tasks {
            let Task { from, to, room, .. } = task;
            queue.push(&jobs[place], from, to, room);
            place += 1;
        }
        Ok(queue)
    }

    /// How many tasks it holds.
    pub fn len(&self) -> u32
        ensures { result ≡ length self.now.tasks }
    {
        self.count
    }

    /// How many tasks it has room for.
    pub fn room(&self) -> u32
        ensures { result ≡ self.now.room }
    {
        self.room
    }

    /// Puts the task that has this job, these offsets and this region behind those that it holds.
    pub fn push(&mut self, job: &'j Checked, from: u32, to: u32, room: Region<'a>)
        requires { length self.old.tasks < self.old.room }
        ensures tasks { self.new.tasks ≡ self.old.tasks ++ task_with job.now from to room.entry ∷ [] }
        ensures room { self.new.room ≡ self.old.room }
    {
        let number = self.count;
        push_next(
            &mut self.owner,
            Numbered {
                job,
                from,
                to,
                number,
                room,
            },
        );
        self.count = number + 1;
    }

    /// The end of the deque that pushes, with all tasks on it.
    pub(crate) fn into_owner(self) -> Owner<'j, 'a>
        ensures tasks { worker_view result ≡ hand self.entry.tasks all_parts [] }
        ensures flavor { worker_flavor result ≡ 0 }
    {
        let Queue { owner, .. } = self;
        owner
    }
}

/// Pushes the next task of a wave. There is room for it.
#[inline(always)]
#[tactic(auto, using(crate::proofs::Keeps::pushes))]
fn push_next<'j, 'a>(owner: &mut Owner<'j, 'a>, item: Numbered<'j, 'a>)
    requires whole { (worker_view owner.old).parts ≡ all_parts }
    requires next { item.number ≡ length (worker_view owner.old).tasks }
    requires room { worker_index owner.old < worker_capacity owner.old }
    ensures same { SameWorker owner.old owner.new × (worker_index owner.new ≡ worker_index owner.old + 1) }
    ensures pushed { worker_view owner.new ≡ hand ((worker_view owner.old).tasks ++ task_of item.entry ∷ []) all_parts (worker_view owner.old).taken }
{
    match owner.push_as::<Pushed>(item) {
        Ok(()) => {}
        Err(_) => unreachable!(),
    }
}
