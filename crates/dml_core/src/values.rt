use dml_types::{Job, Record};

/// A job that was fetched from a client, with its record once it is committed.
#[derive(Clone, Copy, PartialEq, Eq, Debug)]
pub struct Fetched {
    pub client: u32,
    pub job: Job,
    pub answer: Option<Record>,
}

/// One chunk of a fetched job.
#[derive(Clone, Copy, PartialEq, Eq, Debug)]
pub struct Task {
    /// The job's place in the fetched list.
    pub place: usize,
    /// The first offset of the chunk: in bytes, of a create in blocks, of an apply in entries.
    pub from: u64,
    /// The offset behind its last one.
    pub to: u64,
}

/// One step of the world, and when it is allowed. All but a take and a finish may meet want of memory.
#[derive(Clone, Copy, PartialEq, Eq, Debug)]
pub enum Step {
    /// A client sends a job. Allowed for each client of the world.
    Submit { client: u32, job: Job },
    /// The client's next job that was sent is fetched, and the jobs that are not committed are planned anew. Allowed
    /// where there is such a job, each hand is empty, no task is finished, and fewer than 1,024 jobs are not committed.
    Fetch { client: u32 },
    /// A worker takes the first task to do. Allowed where there is one and the worker's hand is empty.
    Take { worker: u32 },
    /// A worker finishes the task in its hand. Allowed where there is one.
    Finish { worker: u32 },
    /// The jobs of the first wave are carried out in list order. Allowed where there is a wave, no task is to do and
    /// each hand is empty.
    Commit,
}
