//! A server that stays up for a long time: four clients submit jobs and poll their records, and the log is taken off
//! behind each round. `tests/soak.sh` looks at how much memory it holds meanwhile.
//!
//! Its word is a number of parts, each of some hundred thousand jobs; behind each it prints how many jobs were carried
//! out so far, and behind how many rounds the last client was held back, the same at each run. Without a word it does
//! one part.
#![tactic(auto)]

use dml_engine::Engine;
use dml_image::Image;
use dml_portal::{LogEntry, LongServer, Portal, PortalError, Seat};
use dml_types::{Job, Settings};
use std::alloc::Global;
use std::env;
use std::sync::Wait;
use std::thread::Threads;

/// How many clients there are.
const CLIENTS: u32 = 4;

/// The number of the last client.
const LAST: u32 = CLIENTS - 1;

/// For how many items a ring has room.
const CAPACITY: u32 = 256;

/// How many jobs a client submits in a turn.
const JOBS: u32 = 64;

/// How many rounds a part has. In each three clients have all their jobs carried out.
const ROUNDS: u32 = 521;

/// How many records may wait with a client that is not held back.
const MOST: usize = 128;

/// A job by a number: one that does nothing, or of 64 bytes.
fn job_of(number: u32) -> Job {
    let target = u64::from(number % 60) * 64;
    match number % 4 {
        0 => Job::no_op(),
        1 => Job::fill(u64::from(number), target, 64),
        2 => Job::compare_pattern(target, u64::from(number), 64),
        _ => Job::move_bytes(target, target + 32, 64),
    }
}

/// A client's turn: it submits jobs while its ring has room, and polls all its records. The last client polls in each
/// eighth turn alone, and is held back meanwhile.
fn take_turn(seat: &mut Seat, turn: u32) {
    for number in 0..JOBS {
        if seat.try_submit(job_of(turn.wrapping_add(number))).is_err() {
            break;
        }
    }
    if seat.client() != LAST || turn % 8 == 0 {
        for _ in 0..CAPACITY {
            if seat.poll().is_none() {
                break;
            }
        }
    }
}

/// What was served so far.
#[derive(Clone, Copy)]
struct Served {
    /// How many jobs were carried out.
    jobs: u64,
    /// Behind how many rounds the last client was held back.
    held: u64,
}

/// A part: the clients take their turns, a round is served, and the log is taken off. What was served with it.
fn serve_part<R: Threads + Wait + Sync>(
    rt: &R,
    alloc: Global,
    server: &mut LongServer,
    seats: &mut Vec<Seat>,
    log: &mut Vec<LogEntry>,
    before: Served,
) -> Result<Served, PortalError> {
    let Served { mut jobs, mut held } = before;
    for turn in 0..ROUNDS {
        for seat in seats.iter_mut() {
            take_turn(seat, turn);
        }
        server.serve_round(rt, alloc)?;
        held = held.saturating_add(u64::from(server.is_held_back(LAST)));
        log.clear();
        server.take_log(log)?;
        jobs = jobs.saturating_add(log.len() as u64);
    }
    Ok(Served { jobs, held })
}

/// The number that the first word writes, or one.
fn parts(rt: &HostRuntime) -> anyhow::Result<u32> {
    match env::args(rt)?.nth(1) {
        None => Ok(1),
        Some(word) => Ok(word.parse::<u32>()?),
    }
}

fn main(rt: HostRuntime) -> anyhow::Result<()> {
    let alloc = rt.alloc();
    let mut image = Image::new(alloc, 1)?;
    image.bring(0, &[0; 4096])?;
    let settings = Settings {
        staging: 65_536,
        chunk: 4096,
        workers: 1,
    };
    let engine = Engine::new(alloc, image, settings).map_err(|(_, error)| error)?;
    let (server, mut seats) = Portal::open(alloc, engine, CLIENTS, CAPACITY).map_err(|(
        _,
        error,
    )| error)?;
    let mut server = server.stay_up(MOST).map_err(|(_, error)| error)?;
    let mut log = Vec::new(alloc);
    let mut served = Served { jobs: 0, held: 0 };
    for _ in 0..parts(&rt)? {
        served = serve_part(&rt, alloc, &mut server, &mut seats, &mut log, served)?;
        println!(rt;
            "{} jobs, the last client held back behind {} rounds",
            served.jobs, served.held
        )?;
    }
    Ok(())
}
