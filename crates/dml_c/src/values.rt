ghost use Rattle.std.specs.Prelude.{◌≡◌};
ghost use Rattle.dml_c.specs.Values.{job_for_c, job_from_c, record_for_c, record_from_c};

use dml_types::{Job, Record, Status};

/// A job with the fields of a descriptor; `struct kazovuni_job` of C.
#[repr(C)]
#[derive(Clone, Copy, PartialEq, Eq, Debug)]
pub struct CJob {
    pub opcode: u8,
    pub expected: u8,
    pub flags: u32,
    pub source: u64,
    pub target: u64,
    pub extra: u64,
    pub size: u32,
    pub delta_size: u32,
}

impl CJob {
    /// The same job in the layout of C.
    pub fn of(job: &Job) -> CJob
        ensures { result ≡ job_for_c job.now }
    {
        CJob {
            opcode: job.opcode,
            expected: job.expected,
            flags: job.flags,
            source: job.source,
            target: job.target,
            extra: job.extra,
            size: job.size,
            delta_size: job.delta_size,
        }
    }

    /// The job of these fields.
    pub fn job(&self) -> Job
        ensures { result ≡ job_from_c self.now }
    {
        Job {
            opcode: self.opcode,
            flags: self.flags,
            source: self.source,
            target: self.target,
            size: self.size,
            extra: self.extra,
            delta_size: self.delta_size,
            expected: self.expected,
        }
    }
}

/// A job's completion record, with the code of its status; `struct kazovuni_record` of C.
#[repr(C)]
#[derive(Clone, Copy, PartialEq, Eq, Debug)]
pub struct CRecord {
    pub status: u8,
    pub result: u8,
    pub completed: u32,
    pub fault: u64,
    pub delta_size: u32,
}

impl CRecord {
    /// The same record in the layout of C.
    pub fn of(outcome: &Record) -> CRecord
        ensures { result ≡ record_for_c outcome.now }
    {
        CRecord {
            status: outcome.status.code(),
            result: outcome.result,
            completed: outcome.completed,
            fault: outcome.fault,
            delta_size: outcome.delta_size,
        }
    }

    /// The record of C's fields, or None where its status is the code of none.
    pub fn record(&self) -> Option<Record>
        ensures { result ≡ record_from_c self.now }
    {
        let status = Status::from_code(self.status)?;
        Some(Record {
            status,
            result: self.result,
            completed: self.completed,
            fault: self.fault,
            delta_size: self.delta_size,
        })
    }
}
