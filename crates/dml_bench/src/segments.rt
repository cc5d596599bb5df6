//! Looks at presence, moves and fills over memory in segments, and the same over one piece.
ghost use Rattle.std.specs.Prelude.{◌+◌, ◌<◌, ◌≤◌, ◌^◌};

use dml_arena::Arena;
use dml_effect::submit_to;
use dml_image::{Image, Segment, Whole, are_segments};
use dml_types::{Job, Status};
use std::alloc::Global;
use std::io;
use std::time::{Duration, Instant};

const MEBIBYTE: u32 = 1_048_576;

/// How many looks are timed.
const LOOKS: u32 = 1 << 24;

/// Where an address of a segment is that looks and moves begin at: each of the eight has a mebibyte, and behind it is a
/// hole of as many bytes.
fn start(segment: u32) -> u64 {
    2 * u64::from(MEBIBYTE) * u64::from(segment)
}

/// Memory in eight segments: the first half of each 2 MiB.
fn eight_segments<'a>(alloc: Global, content: &'a mut [u8]) -> io::Result<Image<'a>> {
    let mut segments = Vec::with_capacity(alloc, 8)?;
    for (number, part) in content.chunks_exact_mut(2 * MEBIBYTE as usize).enumerate() {
        let (bytes, _) = part.split_at_mut(MEBIBYTE as usize);
        let Ok(number) = u32::try_from(number) else {
            return Err(io::ErrorKind::InvalidData.into());
        };
        if segments
            .push(Segment::new(number.wrapping_mul(512), bytes))
            .is_err()
        {
            return Err(io::ErrorKind::OutOfMemory.into());
        }
    }
    over(segments)
}

/// Memory in one segment.
fn one_segment<'a>(alloc: Global, content: &'a mut [u8]) -> io::Result<Image<'a>> {
    let mut segments = Vec::with_capacity(alloc, 1)?;
    if segments.push(Segment::new(0, content)).is_err() {
        return Err(io::ErrorKind::OutOfMemory.into());
    }
    over(segments)
}

/// An image over segments.
fn over<'a>(segments: Vec<Segment<'a>>) -> io::Result<Image<'a>> {
    if !are_segments(&segments) {
        return Err(io::ErrorKind::InvalidData.into());
    }
    Ok(Image::over_segments(segments))
}

/// An address of a look, among 16 MiB: of a segment, and a place in it, that nothing before tells.
fn place(look: u32) -> u64
    ensures { result + 64 ≤ 2 ^ 64 }
{
    let mixed = look.wrapping_mul(0x9e37_79b1);
    start(mixed >> 29).wrapping_add(u64::from(mixed >> 13 & 0x3fff) * 64) & 0xff_ffff
}

/// Makes the addresses of so many looks one after another, mixes them, and does not look. Answers how many there were, if
/// anything is left of them.
#[inline(never)]
fn addresses_of(looks: u32) -> u32 {
    let mut mixed = 0u64;
    for look in 0..looks {
        mixed = mixed.rotate_left(1) ^ place(look);
    }
    if mixed == 0 { 0 } else { looks }
}

/// How many bytes are present, of those at so many places.
#[inline(never)]
fn present_of(image: &Image, looks: u32) -> u32 {
    let mut present = 0u32;
    for look in 0..looks {
        if image.has(place(look)) {
            present = present.wrapping_add(1); // at most `looks`
        }
    }
    present
}

/// At how many of so many places 64 bytes are present.
#[inline(never)]
fn all_present_of(image: &Image, looks: u32) -> u32 {
    let mut present = 0u32;
    for look in 0..looks {
        if image.present_bytes(place(look), 64) == 64 {
            present = present.wrapping_add(1); // at most `looks`
        }
    }
    present
}

/// Times looks at a byte's presence, and at that of 64 bytes.
fn time_looks(rt: &HostRuntime, name: &str, image: &Image, looks: u32) -> io::Result<()> {
    let start = Instant::now(rt)?;
    let present = present_of(image, looks);
    let picoseconds = of_one(start.elapsed(rt)?, looks);
    eprintln!(rt; "{name}_has_ps {present} {picoseconds}")?;
    let start = Instant::now(rt)?;
    let present = all_present_of(image, looks);
    let picoseconds = of_one(start.elapsed(rt)?, looks);
    eprintln!(rt; "{name}_present_ps {present} {picoseconds}")
}

/// Times the making of as many addresses as there are looks, which the rows of looks have in them.
fn time_addresses(rt: &HostRuntime, looks: u32) -> io::Result<()> {
    let start = Instant::now(rt)?;
    let made = addresses_of(looks);
    let picoseconds = of_one(start.elapsed(rt)?, looks);
    eprintln!(rt; "addresses_ps {made} {picoseconds}")
}

/// The picoseconds of one look, of so many.
fn of_one(all: Duration, looks: u32) -> u128 {
    let picoseconds = all.as_nanos().saturating_mul(1000);
    picoseconds.checked_div(u128::from(looks)).unwrap_or(0)
}

/// Submits a job, by a call that the compiler keeps; none where the arena is too small.
#[inline(never)]
fn submitted(image: &mut Image, arena: &mut Arena, job: &Job) -> Option<Status> {
    if arena.size() < MEBIBYTE {
        return None;
    }
    Some(submit_to(image, arena, job, MEBIBYTE).status)
}

/// Times a job.
fn time_job(
    rt: &HostRuntime,
    name: &str,
    row: &str,
    image: &mut Image,
    job: &Job,
    calls: u32,
) -> io::Result<()>
    requires { 0 < calls }
{
    let Ok(mut arena) = Arena::new(rt.alloc(), MEBIBYTE) else {
        return Err(io::ErrorKind::OutOfMemory.into());
    };
    submitted(image, &mut arena, job);
    let begin = Instant::now(rt)?;
    for _ in 0..calls {
        if submitted(image, &mut arena, job) != Some(Status::Success) {
            return Err(io::ErrorKind::InvalidData.into());
        }
    }
    let nanoseconds = begin.elapsed(rt)?.as_nanos() / u128::from(calls);
    eprintln!(rt; "{name}_{row} {} {nanoseconds}", job.size)
}

/// Times moves from one segment to another, of a page over a page's edge too, and a fill.
fn time_jobs(rt: &HostRuntime, name: &str, image: &mut Image, measures: bool) -> io::Result<()> {
    let (source, target) = (start(2), start(5));
    let edge = source.wrapping_add(8);
    let few = if measures { 400 } else { 1 };
    let many = if measures { 200_000 } else { 1 };
    for (row, job, calls) in [
        ("move", Job::move_bytes(source, target, 64), many),
        ("move", Job::move_bytes(source, target, 4096), many),
        ("move", Job::move_bytes(source, target, MEBIBYTE), few),
        (
            "edge",
            Job::move_bytes(edge, target.wrapping_add(8), 4096),
            many,
        ),
        ("fill", Job::fill(7, target, 4096), many),
    ] {
        time_job(rt, name, row, image, &job, calls)?;
    }
    Ok(())
}

/// Times looks and jobs over one memory.
fn time_over(rt: &HostRuntime, name: &str, image: &mut Image, measures: bool) -> io::Result<()> {
    time_looks(rt, name, image, if measures { LOOKS } else { 1 })?;
    time_jobs(rt, name, image, measures)
}

/// The same over one piece.
fn time_piece(rt: &HostRuntime, content: &mut [u8], measures: bool) -> io::Result<()> {
    let mut whole = Whole::new(content);
    if !whole.is_memory() {
        return Err(io::ErrorKind::InvalidData.into());
    }
    let mut image = whole.take();
    time_over(rt, "piece", &mut image, measures)
}

/// The same over one segment.
fn time_one(rt: &HostRuntime, content: &mut [u8], measures: bool) -> io::Result<()> {
    let mut image = one_segment(rt.alloc(), content)?;
    time_over(rt, "one_segment", &mut image, measures)
}

/// The same over eight segments.
fn time_eight(rt: &HostRuntime, content: &mut [u8], measures: bool) -> io::Result<()> {
    let mut image = eight_segments(rt.alloc(), content)?;
    time_over(rt, "eight_segments", &mut image, measures)
}

/// Times looks and jobs over one piece, one segment and eight.
pub(crate) fn time_segments(rt: &HostRuntime, measures: bool) -> io::Result<()> {
    let mut content = Vec::from_elem(rt.alloc(), 0x5a, 16 * MEBIBYTE as usize)?;
    time_addresses(rt, if measures { LOOKS } else { 1 })?;
    time_piece(rt, content.as_mut_slice(), measures)?;
    time_one(rt, content.as_mut_slice(), measures)?;
    time_eight(rt, content.as_mut_slice(), measures)
}
