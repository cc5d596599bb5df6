//! A round that is held short, whose growths of memory are refused.

use super::claims::same;
use super::stays::Stay;
use super::{done, engine, expect_bytes};
use dml_portal::PortalError;
use dml_types::Job;
use std::alloc::Global;
use std::sync::Wait;
use std::thread::Threads;

impl Stay {
    /// Serves a round that fetches at most so many jobs of each client.
    fn serve_some<R: Threads + Wait + Sync>(
        &mut self,
        rt: &R,
        alloc: Global,
        jobs: usize,
    ) -> Result<usize, PortalError> {
        self.server.serve_some(rt, alloc, jobs)
    }
}

/// A portal of two clients whose server stays up, and which have submitted two jobs and one.
fn submitted(alloc: Global) -> Option<Stay> {
    let mut portal = Stay::open(alloc, engine(alloc)?, 4, 4)?;
    let taken = portal.submit_first(Job::fill(1, 0, 16))
        && portal.submit_first(Job::fill(2, 0, 8))
        && portal.submit_second(Job::fill(3, 64, 8));
    taken.then_some(portal)
}

/// What `refused_serve_some` does before its call.
#[test]
fn set_up_of_serve_some(rt: HostRuntime) {
    let mut portal = submitted(rt.alloc()).expect(&rt, "no memory");
    portal.expect_polled(&rt, &[], &[]);
}

/// A job of each client is fetched; where that is refused nothing was fetched, and the next round does it.
#[test]
fn refused_serve_some(rt: HostRuntime) {
    let mut portal = submitted(rt.alloc()).expect(&rt, "no memory");
    match portal.serve_some(&rt, rt.alloc(), 1) {
        Ok(jobs) => same(&rt, jobs, 2),
        Err(error) => {
            same(&rt, error, PortalError::NoMemory);
            portal.expect_polled(&rt, &[], &[]);
            same(&rt, portal.serve_some(&rt, rt.alloc(), 1), Ok(2));
        }
    }
    portal.expect_polled(&rt, &[done(16)], &[done(8)]);
    expect_bytes(&rt, portal.image(), &[(0, 1), (8, 1), (64, 3)]);
}
