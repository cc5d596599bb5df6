//! Portals with their seats, which they are settled with.
ghost use Rattle.std.specs.Prelude.{◌≡◌, ◌≤◌, [], vec_capacity};
ghost use Rattle.std.specs.List.{All};
ghost use Rattle.dml_portal.specs.Lanes.{IsSeatOf};

use super::claims::holds;
use super::engine;
use super::steps::{expect_polled, expect_served, serve, submit_all};
use dml_engine::EngineOver;
use dml_image::{Image, ImageError};
use dml_pool::Free;
use dml_portal::{Done, Full, Portal, PortalError, Seat, ServerOver, SettleFault, SettledOver};
use dml_types::{Job, Record, Settings};
use std::alloc::Global;
use std::process::Abort;
use std::sync::Wait;
use std::thread::Threads;

/// A portal of one client.
#[derive(Drop)]
pub(super) struct One<'a> {
    pub(super) server: ServerOver<'a, Free>,
    pub(super) seat: Seat,
    ghost own_seat: { IsSeatOf server.lanes.items seat },
}

/// A portal of two clients.
#[derive(Drop)]
pub(super) struct Two<'a> {
    pub(super) server: ServerOver<'a, Free>,
    pub(super) first: Seat,
    pub(super) second: Seat,
    ghost own_first: { IsSeatOf server.lanes.items first },
    ghost own_second: { IsSeatOf server.lanes.items second },
}

/// A portal of three clients.
#[derive(Drop)]
pub(super) struct Three<'a> {
    pub(super) server: ServerOver<'a, Free>,
    pub(super) first: Seat,
    pub(super) second: Seat,
    pub(super) third: Seat,
    ghost own_first: { IsSeatOf server.lanes.items first },
    ghost own_second: { IsSeatOf server.lanes.items second },
    ghost own_third: { IsSeatOf server.lanes.items third },
}

impl<'a> One<'a> {
    /// A portal over a page of zeros.
    pub(super) fn open(alloc: Global, capacity: u32) -> Option<One<'static>> {
        One::over(alloc, engine(alloc)?, capacity)
    }

    /// A portal over an engine.
    pub(super) fn over(alloc: Global, engine: EngineOver<'a>, capacity: u32) -> Option<One<'a>> {
        let Ok((server, mut seats)) = Portal::open(alloc, engine, 1, capacity) else {
            return None;
        };
        let seat = seats.pop()?;
        Some(One { server, seat })
    }

    pub(super) fn submit(&mut self, job: Job) -> Result<(), Full> {
        self.seat.try_submit(job)
    }

    pub(super) fn submit_all(&mut self, rt: &impl Abort, jobs: &[Job]) {
        submit_all(rt, &mut self.seat, jobs);
    }

    pub(super) fn expect_polled(&mut self, rt: &impl Abort, records: &[Record]) {
        expect_polled(rt, &mut self.seat, records);
    }

    pub(super) fn expect_served<R: Abort + Threads + Wait + Sync>(
        &mut self,
        rt: &R,
        alloc: Global,
        jobs: usize,
    ) {
        expect_served(rt, alloc, &mut self.server, jobs);
    }

    pub(super) fn image(&self) -> &Image<'a> {
        self.server.image()
    }

    pub(super) fn settings(&self) -> Settings {
        self.server.settings()
    }

    pub(super) fn bring(&mut self, page: u32, bytes: &[u8; 4096]) -> Result<(), ImageError> {
        self.server.bring(page, bytes)
    }

    /// The client finishes, and the portal is settled.
    pub(super) fn settle<R: Threads + Wait + Sync>(
        self,
        rt: &R,
        alloc: Global,
    ) -> Option<SettledOver<'a>> {
        let One { server, seat } = self;
        let dones = vec![in alloc; seat.finish()].ok()?;
        server.settle(rt, alloc, dones).ok()
    }
}

impl<'a> Two<'a> {
    pub(super) fn open(alloc: Global, engine: EngineOver<'a>, capacity: u32) -> Option<Two<'a>> {
        let Ok((server, seats)) = Portal::open(alloc, engine, 2, capacity) else {
            return None;
        };
        Two::of(server, seats)
    }

    /// The portal of a server and its two seats.
    pub(super) fn of(server: ServerOver<'a, Free>, seats: Vec<Seat>) -> Option<Two<'a>>
        requires { All (IsSeatOf server.lanes.items) seats.items }
    {
        let mut seats = seats;
        let second = seats.pop()?;
        let first = seats.pop()?;
        Some(Two {
            server,
            first,
            second,
        })
    }

    pub(super) fn submit_first(&mut self, job: Job) -> Result<(), Full> {
        self.first.try_submit(job)
    }

    pub(super) fn submit_second(&mut self, job: Job) -> Result<(), Full> {
        self.second.try_submit(job)
    }

    /// The first client submits a job, for which there is room.
    pub(super) fn first_submits(&mut self, rt: &impl Abort, job: Job) {
        holds(rt, self.submit_first(job).is_ok());
    }

    /// The second client submits a job, for which there is room.
    pub(super) fn second_submits(&mut self, rt: &impl Abort, job: Job) {
        holds(rt, self.submit_second(job).is_ok());
    }

    /// The first client polls these records of the first list, and the second one those of the second, and no more.
    pub(super) fn expect_polled(&mut self, rt: &impl Abort, first: &[Record], second: &[Record]) {
        expect_polled(rt, &mut self.first, first);
        expect_polled(rt, &mut self.second, second);
    }

    pub(super) fn serve<R: Threads + Wait + Sync>(
        &mut self,
        rt: &R,
        alloc: Global,
    ) -> Result<usize, PortalError> {
        serve(rt, alloc, &mut self.server)
    }

    /// A round is served, which fetches so many jobs.
    pub(super) fn expect_served<R: Abort + Threads + Wait + Sync>(
        &mut self,
        rt: &R,
        alloc: Global,
        jobs: usize,
    ) {
        expect_served(rt, alloc, &mut self.server, jobs);
    }

    /// Both clients finish, and the portal is settled.
    pub(super) fn settle<R: Threads + Wait + Sync>(
        self,
        rt: &R,
        alloc: Global,
    ) -> Option<SettledOver<'a>> {
        let Two {
            server,
            first,
            second,
        } = self;
        let dones = vec![in alloc; first.finish(), second.finish()].ok()?;
        server.settle(rt, alloc, dones).ok()
    }

    /// Both clients finish, and the portal is settled with a list that has room for their seats.
    pub(super) fn settle_into<R: Threads + Wait + Sync>(
        self,
        rt: &R,
        alloc: Global,
        dones: Vec<Done>,
    ) -> Option<SettledOver<'a>>
        requires empty { dones.items ≡ [] }
        requires room { 2 ≤ vec_capacity dones }
    {
        let Two {
            server,
            first,
            second,
        } = self;
        let mut dones = dones;
        dones.push_reserved(first.finish());
        dones.push_reserved(second.finish());
        server.settle(rt, alloc, dones).ok()
    }

    /// The portal is settled with the first client alone, which is refused with all handed back, and then with both.
    pub(super) fn settle_late<R: Threads + Wait + Sync>(
        self,
        rt: &R,
        alloc: Global,
    ) -> Option<SettledOver<'a>> {
        let Two {
            server,
            first,
            second,
        } = self;
        let dones = vec![in alloc; first.finish()].ok()?;
        let Err(kept) = server.settle(rt, alloc, dones) else {
            return None;
        };
        let (server, mut dones, fault) = kept;
        if fault != SettleFault::Strangers || dones.len() != 1 {
            return None;
        }
        let Ok(()) = dones.push(second.finish()) else {
            return None;
        };
        server.settle(rt, alloc, dones).ok()
    }
}

impl<'a> Three<'a> {
    /// A portal over a page of zeros.
    pub(super) fn open(alloc: Global, capacity: u32) -> Option<Three<'static>> {
        Three::over(alloc, engine(alloc)?, capacity)
    }

    /// A portal over an engine.
    pub(super) fn over(alloc: Global, engine: EngineOver<'a>, capacity: u32) -> Option<Three<'a>> {
        let Ok((server, mut seats)) = Portal::open(alloc, engine, 3, capacity) else {
            return None;
        };
        let third = seats.pop()?;
        let second = seats.pop()?;
        let first = seats.pop()?;
        Some(Three {
            server,
            first,
            second,
            third,
        })
    }

    /// A client submits a job; the third where the number is no other's.
    pub(super) fn submit(&mut self, client: u32, job: Job) -> Result<(), Full> {
        match client {
            0 => self.first.try_submit(job),
            1 => self.second.try_submit(job),
            _ => self.third.try_submit(job),
        }
    }

    /// A client polls; the third where the number is no other's.
    pub(super) fn poll(&mut self, client: u32) -> Option<Record> {
        match client {
            0 => self.first.poll(),
            1 => self.second.poll(),
            _ => self.third.poll(),
        }
    }

    pub(super) fn expect_served<R: Abort + Threads + Wait + Sync>(
        &mut self,
        rt: &R,
        alloc: Global,
        jobs: usize,
    ) {
        expect_served(rt, alloc, &mut self.server, jobs);
    }

    /// The clients finish, and the portal is settled.
    pub(super) fn settle<R: Threads + Wait + Sync>(
        self,
        rt: &R,
        alloc: Global,
    ) -> Option<SettledOver<'a>> {
        let Three {
            server,
            first,
            second,
            third,
        } = self;
        let dones = vec![in alloc; first.finish(), second.finish(), third.finish()].ok()?;
        server.settle(rt, alloc, dones).ok()
    }
}
