//! Portals of two clients whose server stays up.
ghost use Rattle.std.specs.Prelude.{IfOk};
ghost use Rattle.dml_portal.specs.Lanes.{IsSeatOf};
ghost use Rattle.dml_portal.specs.Whole.{AreWhole};

use super::claims::{holds, same};
use super::portals::Two;
use super::steps::{expect_polled, serve_long};
use dml_engine::Engine;
use dml_image::{Image, ImageError};
use dml_pool::Free;
use dml_portal::{Done, LogEntry, LongServer, PortalError, Seat, Settled};
use dml_types::{Job, Record, Settings};
use std::alloc::Global;
use std::process::Abort;
use std::sync::Wait;
use std::thread::Threads;

/// A portal of two clients whose server stays up.
#[derive(Drop)]
pub(super) struct Stay {
    pub(super) server: LongServer<Free>,
    pub(super) first: Seat,
    pub(super) second: Seat,
    ghost own_first: { IsSeatOf server.lanes.items first },
    ghost own_second: { IsSeatOf server.lanes.items second },
}

// What the methods ensure stands in each test that calls them, at each call, and makes its proof dearer: they ensure no
// more than their callers need.
impl Stay {
    /// A portal over an engine, whose rings have room for so many items, and which holds a client back for whom more
    /// records wait than `most`.
    pub(super) fn open(alloc: Global, engine: Engine, capacity: u32, most: usize) -> Option<Stay> {
        Stay::of(Two::open(alloc, engine, capacity)?, most).ok()
    }

    /// The same portal, with a server that holds a client back for whom more records wait.
    pub(super) fn of(portal: Two<'static>, most: usize) -> Result<Stay, (Two<'static>, PortalError)>
        ensures whole { IfOk result (λ stay. AreWhole stay.server.lanes.items stay.server.log.items) }
    {
        let Two {
            server,
            first,
            second,
        } = portal;
        match server.stay_up(most) {
            Ok(server) => Ok(Stay {
                server,
                first,
                second,
            }),
            Err((server, error)) => Err((
                Two {
                    server,
                    first,
                    second,
                },
                error,
            )),
        }
    }

    pub(super) fn submit_first(&mut self, job: Job) -> bool {
        self.first.try_submit(job).is_ok()
    }

    pub(super) fn submit_second(&mut self, job: Job) -> bool {
        self.second.try_submit(job).is_ok()
    }

    /// The first client submits a job, for which there is room.
    pub(super) fn first_submits(&mut self, rt: &impl Abort, job: Job) {
        holds(rt, self.submit_first(job));
    }

    /// The second client submits a job, for which there is room.
    pub(super) fn second_submits(&mut self, rt: &impl Abort, job: Job) {
        holds(rt, self.submit_second(job));
    }

    /// The first client polls these records of the first list, and the second one those of the second, and no more.
    pub(super) fn expect_polled(&mut self, rt: &impl Abort, first: &[Record], second: &[Record]) {
        expect_polled(rt, &mut self.first, first);
        expect_polled(rt, &mut self.second, second);
    }

    pub(super) fn serve<R: Threads + Wait + Sync>(
        &mut self,
        rt: &R,
        alloc: Global,
    ) -> Result<usize, PortalError> {
        serve_long(rt, alloc, &mut self.server)
    }

    /// A round is served, which fetches so many jobs.
    pub(super) fn expect_served<R: Abort + Threads + Wait + Sync>(
        &mut self,
        rt: &R,
        alloc: Global,
        jobs: usize,
    ) {
        same(rt, self.serve(rt, alloc), Ok(jobs));
    }

    pub(super) fn is_held_back(&self, client: u32) -> bool {
        self.server.is_held_back(client)
    }

    pub(super) fn image(&self) -> &Image<'static> {
        self.server.image()
    }

    pub(super) fn settings(&self) -> Settings {
        self.server.settings()
    }

    pub(super) fn bring(&mut self, page: u32, bytes: &[u8; 4096]) -> Result<(), ImageError> {
        self.server.bring(page, bytes)
    }

    pub(super) fn take_log(&mut self, into: &mut Vec<LogEntry>) -> Result<(), PortalError> {
        self.server.take_log(into)
    }

    pub(super) fn drop_log(&mut self) {
        self.server.drop_log();
    }

    /// Both clients finish, and the portal is settled.
    pub(super) fn settle<R: Threads + Wait + Sync>(self, rt: &R, alloc: Global) -> Option<Settled> {
        let Stay {
            server,
            first,
            second,
        } = self;
        let dones = vec![in alloc; first.finish(), second.finish()].ok()?;
        server.settle(rt, alloc, dones).ok()
    }
}
