//! Steps of a client and of a server, each with what it is to give.
ghost use Rattle.dml_portal.specs.Lanes.{AreSameLanes};
ghost use Rattle.dml_portal.specs.Seats.{IsSameSeat};

use super::claims::same;
use dml_pool::Gate;
use dml_portal::{LongServerOver, PortalError, Seat, ServerOver};
use dml_types::{Job, Record};
use std::alloc::Global;
use std::process::Abort;
use std::sync::Wait;
use std::thread::Threads;

/// The seat submits these jobs, for each of which there is room.
pub(super) fn submit_all(rt: &impl Abort, seat: &mut Seat, jobs: &[Job])
    ensures { IsSameSeat seat.old seat.new }
{
    for job in jobs {
        same(rt, seat.try_submit(*job), Ok(()));
    }
}

/// The seat polls these records, and no more.
pub(super) fn expect_polled(rt: &impl Abort, seat: &mut Seat, records: &[Record])
    ensures { IsSameSeat seat.old seat.new }
{
    for record in records {
        same(rt, seat.poll(), Some(*record));
    }
    same(rt, seat.poll(), None);
}

// What a call promises stands in its caller's proof from there on, and of a round that is much: the two functions below
// pass on what their callers need.

/// Serves a round.
pub(super) fn serve<R: Threads + Wait + Sync, G: Gate + Sync>(
    rt: &R,
    alloc: Global,
    server: &mut ServerOver<'_, G>,
) -> Result<usize, PortalError>
    ensures { AreSameLanes server.old.lanes.items server.new.lanes.items }
{
    server.serve_round(rt, alloc)
}

/// The same of a server that stays up.
pub(super) fn serve_long<R: Threads + Wait + Sync>(
    rt: &R,
    alloc: Global,
    server: &mut LongServerOver<'_>,
) -> Result<usize, PortalError>
    ensures { AreSameLanes server.old.lanes.items server.new.lanes.items }
{
    server.serve_round(rt, alloc)
}

/// A round is served, which fetches so many jobs.
pub(super) fn expect_served<R: Abort + Threads + Wait + Sync, G: Gate + Sync>(
    rt: &R,
    alloc: Global,
    server: &mut ServerOver<'_, G>,
    jobs: usize,
)
    ensures { AreSameLanes server.old.lanes.items server.new.lanes.items }
{
    same(rt, serve(rt, alloc, server), Ok(jobs));
}
