//! Jobs by themselves, with no engine: over the caller's own pages, and on an image of its own ones.
ghost use Rattle.std.specs.Prelude.{◌<◌};

use dml_arena::Arena;
use dml_effect::{are_pages, submit_over, submit_to};
use dml_image::Image;
use dml_types::{Job, Status};
use std::io;
use std::time::Instant;

const MEBIBYTE: u32 = 1_048_576;

/// Submits a job, by a call that the compiler keeps; none where the bytes are no pages or the arena is too small.
#[inline(never)]
fn submitted_lent(content: &mut [u8], arena: &mut Arena, job: &Job) -> Option<Status> {
    if !are_pages(content) || arena.size() < MEBIBYTE {
        return None;
    }
    Some(submit_over(content, arena, job, MEBIBYTE).status)
}

/// Submits a job, by a call that the compiler keeps; none where the arena is too small.
#[inline(never)]
fn submitted_own(image: &mut Image, arena: &mut Arena, job: &Job) -> Option<Status> {
    if arena.size() < MEBIBYTE {
        return None;
    }
    Some(submit_to(image, arena, job, MEBIBYTE).status)
}

/// Times moves of 64 bytes and of a page over two mebibytes of the caller's.
pub(crate) fn time_lent(rt: &HostRuntime, calls: u32) -> io::Result<()>
    requires { 0 < calls }
{
    let Ok(mut arena) = Arena::new(rt.alloc(), MEBIBYTE) else {
        return Err(io::ErrorKind::OutOfMemory.into());
    };
    let mut content = Vec::from_elem(rt.alloc(), 0x5a, 2 * MEBIBYTE as usize)?;
    for size in [64, 4096] {
        let job = Job::move_bytes(0, u64::from(MEBIBYTE), size);
        submitted_lent(content.as_mut_slice(), &mut arena, &job);
        let start = Instant::now(rt)?;
        for _ in 0..calls {
            if submitted_lent(content.as_mut_slice(), &mut arena, &job) != Some(Status::Success) {
                return Err(io::ErrorKind::InvalidData.into());
            }
        }
        let nanoseconds = start.elapsed(rt)?.as_nanos() / u128::from(calls);
        eprintln!(rt; "over_move {size} {nanoseconds}")?;
    }
    Ok(())
}

/// Times the same moves on an image of its own pages.
pub(crate) fn time_own(rt: &HostRuntime, image: &mut Image, calls: u32) -> io::Result<()>
    requires { 0 < calls }
{
    let Ok(mut arena) = Arena::new(rt.alloc(), MEBIBYTE) else {
        return Err(io::ErrorKind::OutOfMemory.into());
    };
    for size in [64, 4096] {
        let job = Job::move_bytes(0, u64::from(MEBIBYTE), size);
        submitted_own(image, &mut arena, &job);
        let start = Instant::now(rt)?;
        for _ in 0..calls {
            if submitted_own(image, &mut arena, &job) != Some(Status::Success) {
                return Err(io::ErrorKind::InvalidData.into());
            }
        }
        let nanoseconds = start.elapsed(rt)?.as_nanos() / u128::from(calls);
        eprintln!(rt; "own_move {size} {nanoseconds}")?;
    }
    Ok(())
}
