//! Rings where nobody sleeps, and rings that wake.
ghost use Rattle.std.specs.Prelude.{◌<◌};

use dml_seats::Bell;
use std::alloc::Global;
use std::io;
use std::rt::Clock;
use std::sync::Wait;
use std::thread::{self, Threads};
use std::time::Instant;

/// Rings a bell on which nobody sleeps, so many times.
#[inline(never)]
fn rung(bell: &Bell, rings: u32) {
    for _ in 0..rings {
        bell.ring();
    }
}

/// Sleeps until its own bell is rung, and rings the other one, so many times.
fn answer<R: Wait>(rt: &R, own: &Bell, other: &Bell, turns: u32) {
    for _ in 0..turns {
        own.wait(rt);
        other.ring();
    }
}

/// Rings the other bell, and sleeps until its own is rung, so many times.
fn ask<R: Wait>(rt: &R, own: &Bell, other: &Bell, turns: u32) {
    for _ in 0..turns {
        other.ring();
        own.wait(rt);
    }
}

/// A new bell, and another handle to it.
fn bells(alloc: Global) -> io::Result<(Bell, Bell)> {
    let Ok(bell) = Bell::new(alloc) else {
        return Err(io::ErrorKind::OutOfMemory.into());
    };
    let Ok(other) = bell.another() else {
        return Err(io::ErrorKind::OutOfMemory.into());
    };
    Ok((bell, other))
}

/// Times a ring where nobody sleeps, and a ring with the wake and the sleep behind it, of two threads in turn.
pub(crate) fn time_bells<T: Threads + Wait + Clock + Eprint + Copy + Send + 'static>(
    rt: &T,
    alloc: Global,
    turns: u32,
) -> io::Result<()>
    requires { 0 < turns }
{
    let (own, ours) = bells(alloc)?;
    let (theirs, other) = bells(alloc)?;
    let start = Instant::now(rt)?;
    rung(&own, turns);
    let picoseconds = start.elapsed(rt)?.as_nanos() * 1000 / u128::from(turns);
    eprintln!(rt; "bell_ring_ps 1 {picoseconds}")?;
    own.wait(rt);
    let host = *rt;
    let Ok(thread) = thread::spawn(rt, move || answer(&host, &theirs, &ours, turns)) else {
        return Err(io::ErrorKind::OutOfMemory.into());
    };
    let start = Instant::now(rt)?;
    ask(rt, &own, &other, turns);
    let nanoseconds = start.elapsed(rt)?.as_nanos() / (2 * u128::from(turns));
    thread.join(rt);
    eprintln!(rt; "bell_wake 1 {nanoseconds}")
}
