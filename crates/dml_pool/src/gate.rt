//! What stands between the taking of a task and its work.

/// What a worker enters after it has taken a task and before it carries the task out: a place to watch the workers
/// from, or to hold them. No outcome depends on it. A started worker calls it on a stack that is as large as the C
/// library makes one, and of 2 MiB where a wave starts more than four workers.
pub trait Gate {
    /// Called once for each task, with its place in the wave's list, by the worker that took it.
    fn enter(&self, task: usize);
}

/// The gate that does nothing.
#[derive(Clone, Copy, Debug)]
pub struct Free;

impl Gate for Free {
    fn enter(&self, _task: usize) {}
}
