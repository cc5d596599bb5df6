//! The jobs that users wait for, on inputs that it makes itself: `bench/run` times them, by the lines of
//! `bench/workloads.txt`.
//!
//! Its words are a workload's name, how many rounds, each with an input of its own, and a number below 2^32, the seed.
//! It prints a digest of all results, the same at each run. Without words each workload goes one small round.
#![tactic(auto)]

mod awkward;
mod clients;
mod content;
mod digests;
mod lists;
mod logs;
mod mirrors;
mod pages;
mod random;
mod replicas;
mod runs;
mod texts;

use crate::digests::Digest;
use std::alloc::Global;
use std::sync::Wait;
use std::thread::Threads;
use std::{env, io};

/// How much of a workload is done.
#[derive(Clone, Copy)]
pub(crate) struct Size {
    pub(crate) rounds: u32,
    /// Whether the inputs are small ones.
    pub(crate) small: bool,
}

/// The names of all workloads.
const NAMES: [&str; 6] = ["logs", "pages", "replicas", "mirrors", "clients", "awkward"];

/// Does a workload.
fn done<T: Threads + Wait + Sync>(
    rt: &T,
    alloc: Global,
    name: &str,
    seed: u32,
    size: Size,
) -> io::Result<Digest> {
    match name {
        "logs" => logs::logs(rt, alloc, seed, size),
        "pages" => pages::pages(rt, alloc, seed, size),
        "replicas" => replicas::replicas(rt, alloc, seed, size),
        "mirrors" => mirrors::mirrors(rt, alloc, seed, size),
        "clients" => clients::clients(rt, alloc, seed, size),
        "awkward" => awkward::awkward(rt, alloc, seed, size),
        _ => Err(io::ErrorKind::InvalidInput.into()),
    }
}

/// The number that a word of the command line writes.
fn number_in(rt: &HostRuntime, place: usize) -> io::Result<u32> {
    match env::args(rt)?.nth(place) {
        None => Err(io::ErrorKind::InvalidInput.into()),
        Some(word) => word.parse().map_err(|_| io::ErrorKind::InvalidInput.into()),
    }
}

fn main(rt: HostRuntime) -> io::Result<()> {
    let alloc = rt.alloc();
    if let Some(name) = env::args(&rt)?.nth(1) {
        let (rounds, seed) = (number_in(&rt, 2)?, number_in(&rt, 3)?);
        let size = Size {
            rounds,
            small: false,
        };
        let digest = done(&rt, alloc, name.as_str(), seed, size)?.value();
        return println!(rt; "{name} {digest:016x}");
    }
    let size = Size {
        rounds: 1,
        small: true,
    };
    for name in NAMES {
        let digest = done(&rt, alloc, name, 1, size)?.value();
        println!(rt; "{name} {digest:016x}")?;
    }
    Ok(())
}
