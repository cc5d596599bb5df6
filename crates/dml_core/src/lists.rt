use dml_types::Job;
use std::alloc::{AllocError, Global};
use std::marker::Model;

/// The jobs that a client sent, in its order, and how many of them were fetched.
#[derive(Drop)]
pub(crate) struct SentJobs {
    list: Vec<Job>,
    count: usize,
}

impl Model for SentJobs {
    ghost use Rattle.dml_core.specs.Gather.{Counted, counted};

    ghost Value = { Counted };

    ghost view = { λ sent. counted sent.list.items sent.count };
}

impl SentJobs {
    ghost use Rattle.std.specs.Prelude.{◌≡◌, ◌+◌, ◌-◌, ◌<◌, ◌++◌, ◌∷◌, [], OnErr, OnOk, slice_get};
    ghost use Rattle.dml_core.specs.Gather.{counted, shorter};

    /// None yet.
    pub(crate) fn new(alloc: Global) -> SentJobs
        ensures { result ≡ counted [] 0 }
    {
        SentJobs {
            list: Vec::new(alloc),
            count: 0,
        }
    }

    /// One job more. Where the allocator has no memory left for it, nothing is changed.
    pub(crate) fn push(&mut self, job: Job) -> Result<(), AllocError>
        ensures ok { OnOk result (self.new ≡ counted (self.old.jobs ++ job ∷ []) self.old.count) }
        ensures err { OnErr result (self.new ≡ self.old) }
    {
        self.list.push(job)?;
        Ok(())
    }

    /// Takes back the last job.
    pub(crate) fn take_back(&mut self)
        ensures { self.new ≡ counted (shorter self.old.jobs) self.old.count }
    {
        self.list.truncate(self.list.len().saturating_sub(1));
    }

    /// The first job that was not fetched.
    pub(crate) fn next(&self) -> Option<Job>
        ensures { result ≡ slice_get self.now.jobs self.now.count }
    {
        self.list.get(self.count).copied()
    }

    /// One more of them was fetched.
    pub(crate) fn count_one(&mut self)
        requires { self.old.count < 18446744073709551615 }
        ensures { self.new ≡ counted self.old.jobs (self.old.count + 1) }
    {
        self.count += 1;
    }

    /// One less was, if there was one.
    pub(crate) fn uncount_one(&mut self)
        ensures { self.new ≡ counted self.old.jobs (self.old.count - 1) }
    {
        self.count = self.count.saturating_sub(1);
    }

    /// How many jobs there is room for.
    pub(crate) fn room(&self) -> usize {
        self.list.capacity()
    }

    /// Gives back the room for more jobs than so many, as far as they leave it.
    pub(crate) fn give_back(&mut self, room: usize)
        ensures { self.new ≡ self.old }
    {
        self.list.shrink_to(room);
    }

    /// The jobs.
    pub(crate) fn as_slice(&self) -> &[Job]
        ensures { result.now ≡ self.now.jobs }
    {
        self.list.as_slice()
    }
}

/// Places of the fetched list.
#[derive(Drop)]
pub(crate) struct Places {
    pub(crate) list: Vec<usize>,
}

impl Places {
    ghost use Rattle.std.specs.Prelude.{◌≡◌, []};

    /// Forgets the places, and gives their room back.
    pub(crate) fn forget(&mut self)
        ensures { self.new ≡ [] }
    {
        self.list.clear();
        self.list.shrink_to(0);
    }
}

impl Model for Places {
    ghost use Rattle.std.specs.Prelude.{ℕ, List};

    ghost Value = { List ℕ };

    ghost view = { λ places. places.list.items };
}
