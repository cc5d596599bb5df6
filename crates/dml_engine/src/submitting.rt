//! The calls that submit jobs.
ghost use Rattle.std.specs.Prelude.{◌≡◌, ◌↔◌, ◌<◌, ◌≤◌, [], IfOk, IsErrOf, OnErr, OnOk, length, vec_capacity};
ghost use Rattle.dml_types.specs.Step.{memory_after, records_of, step};

use crate::engines::EngineOver;
use crate::errors::SubmitError;
use dml_effect::by_fields;
use dml_pool::Gate;
use dml_types::{Job, Record, Status};
use std::alloc::Global;
use std::sync::Wait;
use std::thread::Threads;

/// The most jobs of a list or a batch.
pub(crate) const MOST_JOBS: usize = dml_types::MOST_JOBS as usize;

impl<G: Gate + Sync> EngineOver<'_, G> {
    /// Carries out a job, and returns its completion record. A refused job changes nothing. One job pays for no worker,
    /// so it goes to them only where a gate was given by `with_gate`.
    pub fn submit<R: Threads + Wait + Sync>(&mut self, rt: &R, alloc: Global, job: Job) -> Record
        ensures image { self.new.image ≡ (step self.old.image job self.old.settings.staging).0 }
        ensures answer { result ≡ (step self.old.image job self.old.settings.staging).1 }
        ensures settings { self.new.settings ≡ self.old.settings }
        ensures watched { self.new.watched ≡ self.old.watched }
    {
        if !self.is_watched() {
            return by_fields(self.carry_out_alone(&job));
        }
        let mut records = [Record::refused(Status::Success)];
        self.carry_out_list(rt, alloc, &[job], &mut records);
        by_fields(records[0])
    }

    /// Carries out a list of at most 1,024 jobs, and returns their completion records: as one after another, in list
    /// order. Where a gate was given by `with_gate` the list is handed to the workers; else these are started where
    /// they pay by its bytes.
    ///
    /// # Errors
    /// `TooMany` where there are more jobs, and `NoMemory` where there is no room for the records.
    pub fn submit_list<R: Threads + Wait + Sync>(
        &mut self,
        rt: &R,
        alloc: Global,
        jobs: &[Job],
    ) -> Result<Vec<Record>, SubmitError>
        ensures image { OnOk result (self.new.image ≡ memory_after self.old.image jobs.now self.old.settings.staging) }
        ensures records { IfOk result (λ records.
            records.items ≡ records_of self.old.image jobs.now self.old.settings.staging) }
        ensures too_many { IsErrOf result SubmitError.TooMany ↔ (1024 < length jobs.now) }
        ensures unchanged { OnErr result (self.new.image ≡ self.old.image) }
        ensures settings { self.new.settings ≡ self.old.settings }
        ensures watched { self.new.watched ≡ self.old.watched }
    {
        if jobs.len() > MOST_JOBS {
            return Err(SubmitError::TooMany);
        }
        let Ok(mut records) = Vec::with_capacity(alloc, jobs.len()) else {
            return Err(SubmitError::NoMemory);
        };
        self.submit_into(rt, alloc, jobs, &mut records);
        Ok(records)
    }

    /// Carries out a list of at most 1,024 jobs as `submit_list` does, with the records in the caller's list, which is
    /// empty and has room for them.
    pub fn submit_into<R: Threads + Wait + Sync>(
        &mut self,
        rt: &R,
        alloc: Global,
        jobs: &[Job],
        records: &mut Vec<Record>,
    )
        requires few { length jobs.now ≤ 1024 }
        requires empty { records.old.items ≡ [] }
        requires room { length jobs.now ≤ vec_capacity records.old }
        ensures image { self.new.image ≡ memory_after self.old.image jobs.now self.old.settings.staging }
        ensures records { records.new.items ≡ records_of self.old.image jobs.now self.old.settings.staging }
        ensures settings { self.new.settings ≡ self.old.settings }
        ensures watched { self.new.watched ≡ self.old.watched }
    {
        for _ in jobs {
            records.push_reserved(Record::refused(Status::Success));
        }
        self.carry_out_list(rt, alloc, jobs, records.as_mut_slice());
    }
}
