//! Engines and what their calls answer. The expected records and bytes are those of the jobs' definitions.

mod claims;
mod crowds;
mod entering;
mod fences;
mod gates;
mod growths;
mod kinds;
mod lent;
mod lists;
mod operations;
mod pieces;
mod refusals;
mod resuming;
mod resuming_segments;
mod rows;
mod segments;

use claims::{holds, same};
use dml_engine::{Engine, EngineError, SubmitError};
use dml_image::Image;
use dml_types::{Direction, Job, Record, Settings, Status};
use std::alloc::Global;
use std::process::Abort;
use std::sync::Wait;
use std::thread::Threads;

const USUAL: Settings = Settings {
    staging: 1_048_576,
    chunk: 4096,
    workers: 4,
};

/// Puts bytes at the front of a page or of a part of it.
fn put(part: &mut [u8], bytes: &[u8]) {
    for (byte, first) in part.iter_mut().zip(bytes) {
        *byte = *first;
    }
}

/// A page that begins with these bytes, the others being 0.
fn page_of(opening: &[u8]) -> [u8; 4096] {
    let mut page = [0; 4096];
    put(&mut page, opening);
    page
}

/// An image of so many pages, of which the first is present; none where memory is wanting.
fn image_of(alloc: Global, pages: u32) -> Option<Image<'static>> {
    let mut image = Image::new(alloc, pages).ok()?;
    image.bring(0, &[0; 4096]).ok()?;
    Some(image)
}

/// An image of so many pages, all full of the same byte.
fn full_image(alloc: Global, pages: u32, byte: u8) -> Option<Image<'static>> {
    let mut image = Image::new(alloc, pages).ok()?;
    for page in 0..pages {
        image.bring(page, &[byte; 4096]).ok()?;
    }
    Some(image)
}

/// An engine over an image of so many pages, of which the first is present.
fn engine_with(alloc: Global, pages: u32, settings: Settings) -> Option<Engine> {
    Engine::new(alloc, image_of(alloc, pages)?, settings).ok()
}

/// An engine over an image of two pages, of which the first is present.
fn engine(alloc: Global) -> Option<Engine> {
    engine_with(alloc, 2, USUAL)
}

/// A record by its five values.
fn answer(status: Status, outcome: u8, completed: u32, fault: u64) -> Record {
    Record {
        status,
        result: outcome,
        completed,
        fault,
        delta_size: 0,
    }
}

/// Expects that an engine was made, and the byte at an address, and drops it.
fn expect_made(rt: &impl Abort, made: Option<Engine>, addr: u64, byte: u8) {
    let engine = made.expect(rt, "no memory");
    same(rt, engine.image().byte(addr), Some(byte));
}

/// Makes the engine and drops it.
fn made_and_dropped(rt: &impl Abort, alloc: Global) {
    expect_made(rt, engine(alloc), 8, 0);
}

/// Expects bytes at some addresses.
fn expect_at(rt: &impl Abort, engine: &Engine, bytes: &[(u64, u8)]) {
    for (addr, byte) in bytes {
        assert_eq!(rt; engine.image().byte(*addr), Some(*byte), "{addr}");
    }
}

/// The list of records found no memory, and nothing was done.
fn expect_nothing(rt: &impl Abort, engine: &Engine, error: SubmitError) {
    same(rt, error, SubmitError::NoMemory);
    expect_at(rt, engine, &[(0, 0), (8, 0), (64, 0), (128, 0)]);
}

/// A list of records as a call takes it first.
fn no_records(rt: &impl Abort, alloc: Global, room: usize) {
    let records = Vec::<Record>::with_capacity(alloc, room).expect(rt, "no memory");
    holds(rt, records.is_empty());
}

#[test]
fn settings_out_of_range(rt: HostRuntime) {
    let image = Image::new(rt.alloc(), 1).expect(&rt, "no memory");
    let settings = Settings { chunk: 12, ..USUAL };
    match Engine::new(rt.alloc(), image, settings) {
        Ok(_) => rt.panic("the settings were taken"),
        Err((image, error)) => {
            same(&rt, error, EngineError::BadSettings);
            same(&rt, image.pages(), 1);
        }
    }
}

/// Writes bytes into the page that is present.
fn write_bytes(rt: &impl Abort, engine: &mut Engine) {
    let absent = engine.image().first_absent(8, 3, Direction::Forward);
    assert!(rt; absent.is_none());
    engine.write(8, &[1, 2, 3]);
}

/// Submits jobs one by one.
fn submit_each<R: Abort + Threads + Wait + Sync>(rt: &R, alloc: Global, engine: &mut Engine) {
    let table = [
        (Job::no_op(), answer(Status::Success, 0, 0, 0)),
        (
            Job::no_op().with_flags(0x10),
            answer(Status::BadFlags, 0, 0, 0),
        ),
        (Job::move_bytes(8, 10, 3), answer(Status::Success, 1, 3, 0)),
        (
            Job::dualcast(10, 4096, 8192, 3),
            answer(Status::WriteFault, 0, 0, 4096),
        ),
    ];
    for (job, want) in table {
        same(rt, engine.submit(rt, alloc, job), want);
    }
}

#[test]
fn each_call(rt: HostRuntime) {
    let mut engine = engine(rt.alloc()).expect(&rt, "no memory");
    write_bytes(&rt, &mut engine);
    submit_each(&rt, rt.alloc(), &mut engine);
    let image = engine.into_image();
    for (addr, byte) in [(10, 1), (12, 3), (13, 0)] {
        same(&rt, image.byte(addr), Some(byte));
    }
}
