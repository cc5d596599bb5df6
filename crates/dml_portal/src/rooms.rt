ghost use Rattle.std.specs.Prelude.{◌≡◌, ◌+◌, ◌≤◌, [], OnOk, length, vec_capacity};

use crate::logs::LogEntry;
use dml_types::{Job, Record};
use std::alloc::{AllocError, Global};

/// Lists for the jobs and the records of a round, which keep their room from round to round.
#[derive(Drop)]
pub(crate) struct Room {
    pub(crate) jobs: Vec<Job>,
    pub(crate) records: Vec<Record>,
}

impl Room {
    /// Lists with no room yet.
    pub(crate) fn new(alloc: Global) -> Room {
        Room {
            jobs: Vec::new(alloc),
            records: Vec::new(alloc),
        }
    }

    /// Empties the lists, and makes room for so many jobs in them and in the log.
    pub(crate) fn make(&mut self, log: &mut Vec<LogEntry>, most: usize) -> Result<(), AllocError>
        ensures log { log.new.items ≡ log.old.items }
        ensures log_room { OnOk result (length log.new.items + most ≤ vec_capacity log.new) }
        ensures empty { OnOk result ((self.new.jobs.items ≡ []) × (self.new.records.items ≡ [])) }
        ensures room { OnOk result ((most ≤ vec_capacity self.new.jobs) × (most ≤ vec_capacity self.new.records)) }
    {
        self.jobs.clear();
        self.records.clear();
        log.reserve(most)?;
        self.jobs.reserve(most)?;
        self.records.reserve(most)?;
        Ok(())
    }
}
