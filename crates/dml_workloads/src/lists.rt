//! Lists of jobs, carried out by each of the calls that take one.
ghost use Rattle.std.specs.Prelude.{◌≤◌, vec_len};

use crate::digests::Digest;
use dml_engine::Engine;
use dml_types::{Job, Record};
use std::alloc::Global;
use std::io;
use std::sync::Wait;
use std::thread::Threads;

/// The most jobs of a list.
pub(crate) const MOST: usize = 1024;

/// Which call carries a list out.
#[derive(Clone, Copy)]
pub(crate) enum Call {
    List,
    Batch,
    Into,
}

impl Call {
    /// One after another by the number of a round.
    pub(crate) fn of_round(round: u32) -> Call {
        match round % 3 {
            0 => Call::List,
            1 => Call::Batch,
            _ => Call::Into,
        }
    }
}

/// Carries out jobs, at most 1,024 in each list, and takes their records into a digest.
pub(crate) fn carried_out<T: Threads + Wait + Sync>(
    rt: &T,
    alloc: Global,
    engine: &mut Engine,
    call: Call,
    jobs: &[Job],
    digest: &mut Digest,
) -> io::Result<Vec<Record>> {
    let mut all = Vec::with_capacity(alloc, jobs.len())?;
    for list in jobs.chunks(MOST) {
        let records = listed(rt, alloc, engine, call, list, digest)?;
        digest.records(records.as_slice());
        all.extend_from_slice(records.as_slice())?;
    }
    Ok(all)
}

/// Carries out one list.
fn listed<T: Threads + Wait + Sync>(
    rt: &T,
    alloc: Global,
    engine: &mut Engine,
    call: Call,
    jobs: &[Job],
    digest: &mut Digest,
) -> io::Result<Vec<Record>> {
    match call {
        Call::List => match engine.submit_list(rt, alloc, jobs) {
            Ok(records) => Ok(records),
            Err(_) => Err(io::ErrorKind::OutOfMemory.into()),
        },
        Call::Batch => match engine.submit_batch(rt, alloc, jobs) {
            Ok((answer, records)) => {
                digest.batch(&answer);
                Ok(records)
            }
            Err(_) => Err(io::ErrorKind::OutOfMemory.into()),
        },
        Call::Into => {
            let mut records = Vec::with_capacity(alloc, jobs.len())?;
            if jobs.len() > MOST {
                return Err(io::ErrorKind::InvalidInput.into());
            }
            engine.submit_into(rt, alloc, jobs, &mut records);
            Ok(records)
        }
    }
}
