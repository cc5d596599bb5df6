//! Rounds of a server whose log grows, beside those of one that stays up, whose log is taken off behind each.
ghost use Rattle.std.specs.Prelude.{◌<◌};

use crate::clients::{ROUND, portal_of, print_row};
use dml_image::Image;
use dml_portal::{LogEntry, LongServer, Seat, Server};
use dml_types::Job;
use std::alloc::Global;
use std::io;
use std::rt::Clock;
use std::sync::Wait;
use std::thread::Threads;
use std::time::Instant;

/// The rounds of a turn, each of 128 jobs that do nothing.
const ROUNDS: u32 = 800;

/// Submits the jobs of a round: whether each was taken.
fn submitted(seat: &mut Seat) -> bool {
    let mut all = true;
    for _ in 0..ROUND {
        all = seat.try_submit(Job::no_op()).is_ok() && all;
    }
    all
}

/// Polls the records of a round: whether each was there.
fn polled(seat: &mut Seat) -> bool {
    let mut all = true;
    for _ in 0..ROUND {
        all = seat.poll().is_some() && all;
    }
    all
}

/// A round with its submits and polls, by a call that the compiler keeps: whether all of it succeeded.
#[inline(never)]
fn served<T: Threads + Wait + Sync>(
    rt: &T,
    alloc: Global,
    server: &mut Server,
    seat: &mut Seat,
) -> bool {
    submitted(seat) && server.serve_round(rt, alloc).is_ok() && polled(seat)
}

/// The same with the log taken off behind it.
#[inline(never)]
fn served_and_taken<T: Threads + Wait + Sync>(
    rt: &T,
    alloc: Global,
    server: &mut LongServer,
    seat: &mut Seat,
    log: &mut Vec<LogEntry>,
) -> bool {
    let all = submitted(seat) && server.serve_round(rt, alloc).is_ok() && polled(seat);
    log.clear();
    server.take_log(log).is_ok() && all
}

/// A portal of one client over a page that is absent.
fn portal_of_one(alloc: Global) -> io::Result<(Server, Seat)> {
    let Ok(image) = Image::new(alloc, 1) else {
        return Err(io::ErrorKind::OutOfMemory.into());
    };
    let (server, mut seats) = portal_of(alloc, image, 1, 1)?;
    match seats.pop() {
        Some(seat) => Ok((server, seat)),
        None => Err(io::ErrorKind::InvalidData.into()),
    }
}

/// Times rounds whose log grows.
fn time_kept<T: Threads + Wait + Sync + Clock + Eprint>(
    rt: &T,
    alloc: Global,
    turns: u32,
) -> io::Result<()>
    requires { 0 < turns }
{
    let (mut server, mut seat) = portal_of_one(alloc)?;
    let mut all = true;
    let start = Instant::now(rt)?;
    for _ in 0..turns {
        for _ in 0..ROUNDS {
            all = served(rt, alloc, &mut server, &mut seat) && all;
        }
    }
    let nanoseconds = start.elapsed(rt)?.as_nanos();
    print_row(rt, "log_kept", ROUNDS, nanoseconds, turns, all)
}

/// Times rounds whose log is taken off.
fn time_taken<T: Threads + Wait + Sync + Clock + Eprint>(
    rt: &T,
    alloc: Global,
    turns: u32,
) -> io::Result<()>
    requires { 0 < turns }
{
    let (server, mut seat) = portal_of_one(alloc)?;
    let Some(mut server) = server.stay_up(ROUND as usize).ok() else {
        return Err(io::ErrorKind::OutOfMemory.into());
    };
    let (mut log, mut all) = (Vec::new(alloc), true);
    let start = Instant::now(rt)?;
    for _ in 0..turns {
        for _ in 0..ROUNDS {
            all = served_and_taken(rt, alloc, &mut server, &mut seat, &mut log) && all;
        }
    }
    let nanoseconds = start.elapsed(rt)?.as_nanos();
    print_row(rt, "log_taken", ROUNDS, nanoseconds, turns, all)
}

/// Times rounds of both: rows of a name, the number of rounds, and the nanoseconds of all. With 50 turns they are of
/// five million jobs.
pub(crate) fn time_logs<T: Threads + Wait + Sync + Clock + Eprint>(
    rt: &T,
    alloc: Global,
    turns: u32,
) -> io::Result<()>
    requires { 0 < turns }
{
    time_taken(rt, alloc, turns)?;
    time_kept(rt, alloc, turns)
}
