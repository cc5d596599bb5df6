//! Calls whose growths of memory are refused.

use super::claims::{holds, same};
use super::gates::small_jobs;
use super::{
    USUAL, answer, engine, engine_with, expect_at, expect_nothing, full_image, made_and_dropped,
    no_records,
};
use dml_engine::{Engine, EngineError};
use dml_pool::Free;
use dml_types::{Job, Record, Settings, Status};
use std::alloc::Global;
use std::process::Abort;

// The refused_* below hold whichever growth is refused: they are also run with each refused in turn, from the first one
// behind those that their set-up takes.

/// What `refused_new` does before its call.
#[test]
fn set_up_of_new(rt: HostRuntime) {
    let image = full_image(rt.alloc(), 1, 7).expect(&rt, "no memory");
    same(&rt, image.byte(4095), Some(7));
}

/// The engine, or the image as it was.
#[test]
fn refused_new(rt: HostRuntime) {
    let image = full_image(rt.alloc(), 1, 7).expect(&rt, "no memory");
    let image = match Engine::new(rt.alloc(), image, USUAL) {
        Ok(engine) => engine.into_image(),
        Err((image, error)) => {
            same(&rt, error, EngineError::NoMemory);
            image
        }
    };
    same(&rt, image.pages(), 1);
    same(&rt, image.byte(4095), Some(7));
}

/// What `refused_submit` does before its calls.
#[test]
fn set_up_of_submit(rt: HostRuntime) {
    made_and_dropped(&rt, rt.alloc());
}

/// A job that is submitted is carried out.
#[test]
fn refused_submit(rt: HostRuntime) {
    let mut engine = engine(rt.alloc()).expect(&rt, "no memory");
    let moved = engine.submit(&rt, rt.alloc(), Job::move_bytes(0, 4090, 12));
    same(&rt, moved, answer(Status::WriteFault, 0, 6, 4096));
    same(
        &rt,
        engine.submit(&rt, rt.alloc(), Job::fill(1, 8, 8)),
        answer(Status::Success, 0, 8, 0),
    );
    same(&rt, engine.image().byte(8), Some(1));
}

/// An engine whose lists all go to three workers, and a list for records.
fn watched_engine(alloc: Global) -> Option<(Engine, Vec<Record>)> {
    let settings = Settings {
        chunk: 8,
        workers: 3,
        ..USUAL
    };
    let engine = engine_with(alloc, 2, settings)?.with_gate(Free);
    let records = Vec::with_capacity(alloc, small_jobs().len()).ok()?;
    Some((engine, records))
}

/// The records of the small jobs, and what they leave.
fn expect_small_jobs(rt: &impl Abort, engine: &Engine, records: &[Record]) {
    let want = [
        answer(Status::Success, 0, 16, 0),
        answer(Status::Success, 0, 8, 0),
        answer(Status::Success, 0, 16, 0),
    ];
    same(rt, records, want.as_slice());
    expect_at(rt, engine, &[(0, 1), (8, 1), (64, 2), (128, 1), (136, 1)]);
}

/// What the calls on a watched engine do before.
fn watched_set_up(rt: &impl Abort, alloc: Global) {
    let (engine, records) = watched_engine(alloc).expect(rt, "no memory");
    same(rt, engine.image().byte(8), Some(0));
    holds(rt, records.is_empty());
}

#[test]
fn set_up_of_submit_on_workers(rt: HostRuntime) {
    watched_set_up(&rt, rt.alloc());
}

/// A job is carried out, with workers or without.
#[test]
fn refused_submit_on_workers(rt: HostRuntime) {
    let (mut engine, _records) = watched_engine(rt.alloc()).expect(&rt, "no memory");
    let filled = engine.submit(&rt, rt.alloc(), Job::fill(1, 4080, 24));
    same(&rt, filled, answer(Status::WriteFault, 0, 16, 4096));
    expect_at(&rt, &engine, &[(4088, 1)]);
}

/// A list is carried out, with workers or without.
#[test]
fn refused_submit_into(rt: HostRuntime) {
    let (mut engine, mut records) = watched_engine(rt.alloc()).expect(&rt, "no memory");
    let jobs = small_jobs();
    assert!(rt; records.is_empty() && jobs.len() <= records.capacity());
    engine.submit_into(&rt, rt.alloc(), &jobs, &mut records);
    expect_small_jobs(&rt, &engine, &records);
}

/// The right records, or want of memory with nothing changed.
#[test]
fn refused_submit_list(rt: HostRuntime) {
    let (mut engine, _records) = watched_engine(rt.alloc()).expect(&rt, "no memory");
    match engine.submit_list(&rt, rt.alloc(), &small_jobs()) {
        Ok(records) => expect_small_jobs(&rt, &engine, &records),
        Err(error) => expect_nothing(&rt, &engine, error),
    }
}

/// The right records, or want of memory with nothing changed.
#[test]
fn refused_submit_batch(rt: HostRuntime) {
    let (mut engine, _records) = watched_engine(rt.alloc()).expect(&rt, "no memory");
    match engine.submit_batch(&rt, rt.alloc(), &small_jobs()) {
        Ok((batch, records)) => {
            same(&rt, (batch.status, batch.completed), (Status::Success, 3));
            expect_small_jobs(&rt, &engine, &records);
        }
        Err(error) => expect_nothing(&rt, &engine, error),
    }
}

/// The set-up, and a list of records as the call takes it first.
#[test]
fn set_up_of_later_growths(rt: HostRuntime) {
    watched_set_up(&rt, rt.alloc());
    no_records(&rt, rt.alloc(), small_jobs().len());
}

/// Behind the list of records no refusal changes the answer of a list.
#[test]
fn refused_later_growths(rt: HostRuntime) {
    let (mut engine, _records) = watched_engine(rt.alloc()).expect(&rt, "no memory");
    let records = engine.submit_list(&rt, rt.alloc(), &small_jobs());
    let records = records.expect(&rt, "refused");
    expect_small_jobs(&rt, &engine, &records);
}

/// Nor that of a batch.
#[test]
fn refused_later_growths_of_a_batch(rt: HostRuntime) {
    let (mut engine, _records) = watched_engine(rt.alloc()).expect(&rt, "no memory");
    let batch = engine.submit_batch(&rt, rt.alloc(), &small_jobs());
    let (batch, records) = batch.expect(&rt, "refused");
    same(&rt, (batch.status, batch.completed), (Status::Success, 3));
    expect_small_jobs(&rt, &engine, &records);
}
