//! Clients of a portal: they submit small jobs and poll their records, round after round.
ghost use Rattle.std.specs.Prelude.{IfOk, List};
ghost use Rattle.std.specs.List.{All};
ghost use Rattle.dml_portal.specs.declared.lanes.Lane.{Lane};
ghost use Rattle.dml_portal.specs.Lanes.{AreSameLanes, IsSeatOf};
ghost use Rattle.dml_portal.specs.Seats.{IsSameSeat};
ghost use Rattle.dml_portal.specs.Servers.{lanes_of};
ghost use Rattle.dml_portal.specs.Settled.{AreSeatsOf};

use crate::Size;
use crate::content::{engine_of, image_of};
use crate::digests::Digest;
use crate::random::Random;
use dml_portal::{Done, Portal, Seat, Server};
use dml_types::Job;
use std::alloc::{AllocError, Global};
use std::io;
use std::sync::Wait;
use std::thread::Threads;

const PAGES: u32 = 256;

/// A client's job: of 0 to 4,096 bytes, mostly a few. One that begins in the last page may end behind the image.
fn job_of(random: &mut Random) -> Job {
    let word = random.word();
    let sizes = [0, 8, 16, 64, 64, 256, 1024, 4096];
    let (source, target) = (word % 1_048_576, (word >> 20) % 1_048_576);
    let size = sizes[((word >> 40) % 8) as usize];
    match (word >> 43) % 8 {
        0 => Job::no_op(),
        1..=3 => Job::move_bytes(source, target, size),
        4 => Job::fill(word, target, size),
        5 => Job::compare(source, target, size),
        6 => Job::compare_pattern(source, 0, size),
        _ => Job::dualcast(
            source,
            target,
            (word >> 46) % 256 * 4096 + target % 4096,
            size,
        ),
    }
}

/// A client submits so many jobs.
fn submit(seat: &mut Seat, random: &mut Random, count: u32, digest: &mut Digest)
    ensures { IsSameSeat seat.old seat.new }
{
    for _ in 0..count {
        if seat.try_submit(job_of(random)).is_err() {
            digest.word(2);
        }
    }
}

/// A client polls all its records.
fn poll(seat: &mut Seat, digest: &mut Digest)
    ensures { IsSameSeat seat.old seat.new }
{
    for _ in 0..1024 {
        match seat.poll() {
            Some(record) => digest.record(&record),
            None => break,
        }
    }
}

/// Each of the clients submits up to 16 jobs.
fn submitted(seats: &mut Vec<Seat>, random: &mut Random, digest: &mut Digest)
    ensures { (lanes : List Lane) → All (IsSeatOf lanes) seats.old.items → All (IsSeatOf lanes) seats.new.items }
{
    for seat in seats.iter_mut() {
        let count = 1 + random.below(16);
        submit(seat, random, count, digest);
    }
}

/// Each of the clients polls all its records.
fn polled(seats: &mut Vec<Seat>, digest: &mut Digest)
    ensures { (lanes : List Lane) → All (IsSeatOf lanes) seats.old.items → All (IsSeatOf lanes) seats.new.items }
{
    for seat in seats.iter_mut() {
        poll(seat, digest);
    }
}

/// All clients finish.
fn finished(alloc: Global, seats: Vec<Seat>) -> Result<Vec<Done>, AllocError>
    ensures { IfOk result (λ dones. (lanes : List Lane) → All (IsSeatOf lanes) seats.items → AreSeatsOf lanes dones.items) }
{
    seats.into_iter().map(|seat| seat.finish()).collect(alloc)
}

/// Serves a round, and says how many jobs it carried out.
fn served<T: Threads + Wait + Sync>(rt: &T, alloc: Global, server: &mut Server) -> io::Result<usize>
    ensures { AreSameLanes (lanes_of server.old) (lanes_of server.new) }
{
    match server.serve_round(rt, alloc) {
        Ok(number) => Ok(number),
        Err(_) => Err(io::ErrorKind::OutOfMemory.into()),
    }
}

/// Settles a portal, and digests what it leaves: the image and the log.
fn settle<T: Threads + Wait + Sync>(
    rt: &T,
    alloc: Global,
    server: Server,
    dones: Vec<Done>,
    digest: &mut Digest,
) -> io::Result<()>
    requires { AreSeatsOf (lanes_of server) dones.items }
{
    let Some(settled) = server.settle(rt, alloc, dones).ok() else {
        return Err(io::ErrorKind::OutOfMemory.into());
    };
    for entry in &settled.log.list {
        digest.word(u64::from(entry.client));
        digest.job(&entry.job);
        digest.record(&entry.answer);
    }
    digest.image(&settled.image);
    Ok(())
}

/// Rounds of some clients over an image in which a few pages are absent, and what their portal leaves.
fn rounds<T: Threads + Wait + Sync>(
    rt: &T,
    alloc: Global,
    random: &mut Random,
    clients: u32,
    turns: u32,
    digest: &mut Digest,
) -> io::Result<()> {
    let image = image_of(alloc, random, PAGES, 40)?;
    let engine = engine_of(alloc, image, 4096, 4)?;
    let Ok((mut server, mut seats)) = Portal::open(alloc, engine, clients, 128) else {
        return Err(io::ErrorKind::OutOfMemory.into());
    };
    for _ in 0..turns {
        submitted(&mut seats, random, digest);
        let number = served(rt, alloc, &mut server)?;
        digest.word(number as u64);
        polled(&mut seats, digest);
    }
    let dones = finished(alloc, seats)?;
    settle(rt, alloc, server, dones, digest)
}

/// A portal of one client.
#[derive(Drop)]
struct One {
    server: Server,
    seat: Seat,
    ghost own_seat: { IsSeatOf (lanes_of server) seat },
}

impl One {
    /// None where memory is wanting.
    fn open(alloc: Global, random: &mut Random) -> Option<One> {
        let image = image_of(alloc, random, PAGES, 40).ok()?;
        let engine = engine_of(alloc, image, 4096, 4).ok()?;
        let Ok((server, mut seats)) = Portal::open(alloc, engine, 1, 1024) else {
            return None;
        };
        let seat = seats.pop()?;
        Some(One { server, seat })
    }

    /// Serves a round, and polls some of its records.
    fn serve<T: Threads + Wait + Sync>(
        &mut self,
        rt: &T,
        alloc: Global,
        digest: &mut Digest,
    ) -> io::Result<()> {
        let Ok(number) = self.server.serve_round(rt, alloc) else {
            return Err(io::ErrorKind::OutOfMemory.into());
        };
        digest.word(number as u64);
        for _ in 0..64 {
            if let Some(record) = self.seat.poll() {
                digest.record(&record);
            }
        }
        Ok(())
    }

    /// The client finishes, and the portal is settled.
    fn settle<T: Threads + Wait + Sync>(
        self,
        rt: &T,
        alloc: Global,
        digest: &mut Digest,
    ) -> io::Result<()> {
        let One { server, seat } = self;
        let dones = vec![in alloc; seat.finish()]?;
        settle(rt, alloc, server, dones, digest)
    }
}

/// A client that polls half of its records, and a portal that is settled with jobs in the ring.
fn settled<T: Threads + Wait + Sync>(
    rt: &T,
    alloc: Global,
    random: &mut Random,
    turns: u32,
    digest: &mut Digest,
) -> io::Result<()> {
    let Some(mut one) = One::open(alloc, random) else {
        return Err(io::ErrorKind::OutOfMemory.into());
    };
    for _ in 0..turns {
        submit(&mut one.seat, random, 128, digest);
        one.serve(rt, alloc, digest)?;
    }
    submit(&mut one.seat, random, 1000, digest);
    one.settle(rt, alloc, digest)
}

/// Clients' rounds, and portals that are settled.
pub(crate) fn clients<T: Threads + Wait + Sync>(
    rt: &T,
    alloc: Global,
    seed: u32,
    size: Size,
) -> io::Result<Digest> {
    let mut digest = Digest::new();
    for round in 0..size.rounds {
        let mut random = Random::new(seed, round);
        let counts = [1, 2, 4, 8];
        let clients = counts[round as usize % 4].max(1);
        let turns = if size.small { 4 } else { 32_768 / clients };
        rounds(rt, alloc, &mut random, clients, turns, &mut digest)?;
        settled(rt, alloc, &mut random, turns / 8, &mut digest)?;
    }
    Ok(digest)
}
