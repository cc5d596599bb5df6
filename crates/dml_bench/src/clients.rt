//! The calls of a seat beside a bare ring, and rounds of a portal beside lists.
ghost use Rattle.std.specs.Prelude.{◌<◌};

use crate::shapes::{engine_of, listed};
use dml_image::Image;
use dml_portal::{Portal, Seat, Server};
use dml_types::{Job, Record, Status};
use rtrb::{Consumer, Producer, RingBuffer};
use std::alloc::Global;
use std::io;
use std::rt::Clock;
use std::sync::Wait;
use std::thread::Threads;
use std::time::Instant;

/// The items that a ring has room for, and the calls of a row.
const ROOM: u32 = 1024;

/// The jobs of a round, of all clients together.
pub(crate) const ROUND: u32 = 128;

/// The clients of a round, and the jobs of each.
const CLIENTS: u32 = 8;

const SHARE: u32 = 16;

const PAGE: u64 = 4096;

/// Fills a ring, by a call that the compiler keeps: how many items it took.
#[inline(never)]
fn pushed<T: Copy + Drop>(ring: &mut Producer<T>, item: T) -> u32 {
    for number in 0..ROOM {
        if ring.push(item).is_err() {
            return number;
        }
    }
    ROOM
}

/// Empties a ring, by a call that the compiler keeps: how many items it gave.
#[inline(never)]
fn popped<T: Drop>(ring: &mut Consumer<T>) -> u32 {
    for number in 0..ROOM {
        if ring.pop().is_err() {
            return number;
        }
    }
    ROOM
}

/// Submits jobs, by a call that the compiler keeps: how many were taken.
#[inline(never)]
fn submitted(seat: &mut Seat, job: Job) -> u32 {
    for number in 0..ROOM {
        if seat.try_submit(job).is_err() {
            return number;
        }
    }
    ROOM
}

/// Polls records, by a call that the compiler keeps: how many were there.
#[inline(never)]
fn polled(seat: &mut Seat) -> u32 {
    for number in 0..ROOM {
        if seat.poll().is_none() {
            return number;
        }
    }
    ROOM
}

/// Writes the row of so many turns, where each of their calls succeeded.
pub(crate) fn print_row(
    rt: &impl Eprint,
    name: &str,
    number: u32,
    nanoseconds: u128,
    turns: u32,
    all: bool,
) -> io::Result<()>
    requires { 0 < turns }
{
    if !all {
        return Err(io::ErrorKind::InvalidData.into());
    }
    let mean = nanoseconds / u128::from(turns);
    eprintln!(rt; "{name} {number} {mean}")
}

/// Times pushes to a bare ring of jobs.
fn time_pushes<T: Clock + Eprint>(rt: &T, alloc: Global, turns: u32) -> io::Result<()>
    requires { 0 < turns }
{
    let (mut producer, mut consumer) = RingBuffer::new(alloc, ROOM as usize)?;
    let (mut nanoseconds, mut all) = (0u128, true);
    for _ in 0..turns {
        let start = Instant::now(rt)?;
        all = pushed(&mut producer, Job::no_op()) == ROOM && all;
        nanoseconds = nanoseconds.saturating_add(start.elapsed(rt)?.as_nanos());
        all = popped(&mut consumer) == ROOM && all;
    }
    print_row(rt, "ring_push", ROOM, nanoseconds, turns, all)
}

/// Times pops from a bare ring of records.
fn time_pops<T: Clock + Eprint>(rt: &T, alloc: Global, turns: u32) -> io::Result<()>
    requires { 0 < turns }
{
    let (mut producer, mut consumer) = RingBuffer::new(alloc, ROOM as usize)?;
    let (mut nanoseconds, mut all) = (0u128, true);
    for _ in 0..turns {
        all = pushed(&mut producer, Record::refused(Status::Success)) == ROOM && all;
        let start = Instant::now(rt)?;
        all = popped(&mut consumer) == ROOM && all;
        nanoseconds = nanoseconds.saturating_add(start.elapsed(rt)?.as_nanos());
    }
    print_row(rt, "ring_pop", ROOM, nanoseconds, turns, all)
}

/// Opens a portal over an image.
pub(crate) fn portal_of(
    alloc: Global,
    image: Image<'static>,
    workers: u32,
    clients: u32,
) -> io::Result<(Server, Vec<Seat>)> {
    let engine = engine_of(alloc, image, workers, false)?;
    match Portal::open(alloc, engine, clients, ROOM) {
        Ok(opened) => Ok(opened),
        Err(_) => Err(io::ErrorKind::OutOfMemory.into()),
    }
}

/// Serves a round, by a call that the compiler keeps: how many jobs it carried out.
#[inline(never)]
fn served<T: Threads + Wait + Sync>(rt: &T, alloc: Global, server: &mut Server) -> u32 {
    match server.serve_round(rt, alloc) {
        Ok(number) => u32::try_from(number).unwrap_or(0),
        Err(_) => 0,
    }
}

/// Times the calls of a seat, and rounds of no-ops from one client.
fn time_seat<T: Threads + Wait + Sync + Clock + Eprint>(
    rt: &T,
    alloc: Global,
    turns: u32,
) -> io::Result<()>
    requires { 0 < turns }
{
    let Ok(image) = Image::new(alloc, 1) else {
        return Err(io::ErrorKind::OutOfMemory.into());
    };
    let (mut server, mut seats) = portal_of(alloc, image, 1, 1)?;
    let Some(mut seat) = seats.pop() else {
        return Err(io::ErrorKind::InvalidData.into());
    };
    let (mut submits, mut rounds, mut polls, mut all) = (0u128, 0u128, 0u128, true);
    for _ in 0..turns {
        let start = Instant::now(rt)?;
        all = submitted(&mut seat, Job::no_op()) == ROOM && all;
        submits = submits.saturating_add(start.elapsed(rt)?.as_nanos());
        for _ in 0..ROOM / ROUND {
            let start = Instant::now(rt)?;
            all = served(rt, alloc, &mut server) == ROUND && all;
            rounds = rounds.saturating_add(start.elapsed(rt)?.as_nanos());
        }
        let start = Instant::now(rt)?;
        all = polled(&mut seat) == ROOM && all;
        polls = polls.saturating_add(start.elapsed(rt)?.as_nanos());
    }
    print_row(rt, "seat_submit", ROOM, submits, turns, all)?;
    print_row(rt, "round_no_ops", ROOM, rounds, turns, all)?;
    print_row(rt, "seat_poll", ROOM, polls, turns, all)
}

/// The move of a page at a place of a list; none conflict.
fn page_move(place: u32) -> Job
    requires { place < 1024 }
{
    let page = u64::from(place) * 2 * PAGE;
    Job::move_bytes(page, page + PAGE, 4096)
}

/// The jobs of all clients, client by client.
fn share_jobs(alloc: Global) -> io::Result<Vec<Job>> {
    let mut jobs = Vec::new(alloc);
    for place in 0..ROUND {
        jobs.push(page_move(place))?;
    }
    Ok(jobs)
}

/// Each of the clients submits its share of the jobs: whether each job was taken.
fn shares_submitted(seats: &mut Vec<Seat>, jobs: &[Job]) -> bool {
    let mut all = true;
    for (seat, share) in seats.iter_mut().zip(jobs.chunks(SHARE as usize)) {
        for job in share {
            all = seat.try_submit(*job).is_ok() && all;
        }
    }
    all
}

/// Each of the clients polls the records of its share: whether each is a success.
fn shares_polled(seats: &mut Vec<Seat>) -> bool {
    let mut all = true;
    for seat in seats.iter_mut() {
        for _ in 0..SHARE {
            all = seat
                .poll()
                .is_some_and(|record| record.status == Status::Success)
                && all;
        }
    }
    all
}

/// Times rounds of eight clients with 16 moves of a page each, alone and with their submits and polls, once each ring was
/// filled to its end.
fn time_rounds<T: Threads + Wait + Sync + Clock + Eprint>(
    rt: &T,
    alloc: Global,
    image: Image<'static>,
    turns: u32,
) -> io::Result<()>
    requires { 0 < turns }
{
    let (mut server, mut seats) = portal_of(alloc, image, 4, CLIENTS)?;
    let jobs = share_jobs(alloc)?;
    let (mut rounds, mut whole, mut all) = (0u128, 0u128, true);
    for _ in 0..ROOM / SHARE {
        all = shares_submitted(&mut seats, jobs.as_slice()) && all;
        all = served(rt, alloc, &mut server) == ROUND && all;
        all = shares_polled(&mut seats) && all;
    }
    for _ in 0..turns {
        let start = Instant::now(rt)?;
        all = shares_submitted(&mut seats, jobs.as_slice()) && all;
        let round = Instant::now(rt)?;
        all = served(rt, alloc, &mut server) == ROUND && all;
        rounds = rounds.saturating_add(round.elapsed(rt)?.as_nanos());
        all = shares_polled(&mut seats) && all;
        whole = whole.saturating_add(start.elapsed(rt)?.as_nanos());
    }
    print_row(rt, "clients_round", ROUND, rounds, turns, all)?;
    print_row(rt, "clients_whole", ROUND, whole, turns, all)
}

/// Times the list of all jobs of those clients by `submit_list`, and then the rounds.
fn time_clients<T: Threads + Wait + Sync + Clock + Eprint>(
    rt: &T,
    alloc: Global,
    image: Image<'static>,
    turns: u32,
) -> io::Result<()>
    requires { 0 < turns }
{
    let mut engine = engine_of(alloc, image, 4, false)?;
    let list = share_jobs(alloc)?;
    listed(rt, alloc, &mut engine, list.as_slice())?;
    let start = Instant::now(rt)?;
    for _ in 0..turns {
        listed(rt, alloc, &mut engine, list.as_slice())?;
    }
    let nanoseconds = start.elapsed(rt)?.as_nanos();
    print_row(rt, "clients_list", ROUND, nanoseconds, turns, true)?;
    time_rounds(rt, alloc, engine.into_image(), turns)
}

/// Times rings, seats and rounds: rows of a name, the number of jobs, and the nanoseconds of all.
pub(crate) fn time_portals<T: Threads + Wait + Sync + Clock + Eprint>(
    rt: &T,
    alloc: Global,
    image: Image<'static>,
    turns: u32,
) -> io::Result<()>
    requires { 0 < turns }
{
    time_pushes(rt, alloc, turns)?;
    time_pops(rt, alloc, turns)?;
    time_seat(rt, alloc, turns)?;
    time_clients(rt, alloc, image, turns)
}
