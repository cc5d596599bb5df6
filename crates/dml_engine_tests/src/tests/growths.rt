//! More calls whose growths of memory are refused: a page brought, lists that one worker carries out, lists whose
//! levels are found by cells, and batches with fences.

use super::claims::same;
use super::{
    USUAL, answer, engine, engine_with, expect_at, expect_made, expect_nothing, no_records, page_of,
};
use dml_engine::Engine;
use dml_image::ImageError;
use dml_pool::Free;
use dml_types::{Job, Record, Settings, Status};
use std::alloc::Global;
use std::process::Abort;

// The refused_* below hold whichever growth is refused: they are also run with each refused in turn, from the first one
// behind those that their set-up takes.

/// Brings the second page, which is there then, or absent as before; the other page stays.
fn expect_brought(rt: &impl Abort, engine: &mut Engine) {
    let byte = match engine.bring(1, &[7; 4096]) {
        Ok(()) => Some(7),
        Err(error) => {
            same(rt, error, ImageError::NoMemory);
            None
        }
    };
    let bytes = [(0, Some(0)), (4095, Some(0)), (4096, byte), (8191, byte)];
    for (addr, want) in bytes {
        assert_eq!(rt; engine.image().byte(addr), want, "{addr}");
    }
}

#[test]
fn refused_bring(rt: HostRuntime) {
    let mut engine = engine(rt.alloc()).expect(&rt, "no memory");
    expect_brought(&rt, &mut engine);
}

/// A page that is present is overwritten without memory.
#[test]
fn refused_second_bring(rt: HostRuntime) {
    let mut engine = engine(rt.alloc()).expect(&rt, "no memory");
    same(&rt, engine.bring(0, &[7; 4096]), Ok(()));
    expect_at(&rt, &engine, &[(4095, 7)]);
}

/// Two fills, of which the second waits for the first where it is fenced.
fn two_fills(flags: u32) -> [Job; 2] {
    [Job::fill(1, 0, 8), Job::fill(2, 0, 8).with_flags(flags)]
}

/// The fills were done.
fn expect_two_fills(rt: &impl Abort, engine: &Engine, records: &[Record]) {
    let want = [answer(Status::Success, 0, 8, 0); 2];
    same(rt, records, want.as_slice());
    expect_at(rt, engine, &[(0, 2)]);
}

/// A list that is worth no worker takes memory for its records alone.
#[test]
fn refused_list_alone(rt: HostRuntime) {
    let mut engine = engine(rt.alloc()).expect(&rt, "no memory");
    match engine.submit_list(&rt, rt.alloc(), &two_fills(0)) {
        Ok(records) => expect_two_fills(&rt, &engine, &records),
        Err(error) => expect_nothing(&rt, &engine, error),
    }
}

/// Nor does a batch with a fence take more.
#[test]
fn refused_batch_alone(rt: HostRuntime) {
    let mut engine = engine(rt.alloc()).expect(&rt, "no memory");
    match engine.submit_batch(&rt, rt.alloc(), &two_fills(1)) {
        Ok((batch, records)) => {
            same(&rt, (batch.status, batch.completed), (Status::Success, 2));
            expect_two_fills(&rt, &engine, &records);
        }
        Err(error) => expect_nothing(&rt, &engine, error),
    }
}

/// An engine whose lists go to three workers in chunks of 8 bytes.
fn watched_engine(alloc: Global) -> Option<Engine> {
    let settings = Settings {
        chunk: 8,
        workers: 3,
        ..USUAL
    };
    Some(engine_with(alloc, 1, settings)?.with_gate(Free))
}

/// Eighteen fills of three places in turn, more than are looked at by pairs: six waves of three tasks.
fn fills_in_turn() -> [Job; 18] {
    let mut jobs = [Job::no_op(); 18];
    for (place, job) in jobs.iter_mut().enumerate() {
        let number = place as u64;
        *job = Job::fill(0x0101_0101_0101_0101 * (number + 1), number % 3 * 8, 8);
    }
    jobs
}

/// What the last fill of each place left.
fn expect_fills_in_turn(rt: &impl Abort, engine: &Engine, records: &[Record]) {
    let want = [answer(Status::Success, 0, 8, 0); 18];
    same(rt, records, want.as_slice());
    expect_at(rt, engine, &[(0, 16), (8, 17), (16, 18), (23, 18), (24, 0)]);
}

/// What the tests of a watched engine do before.
fn watched_set_up(rt: &impl Abort, alloc: Global) {
    expect_made(rt, watched_engine(alloc), 8, 0);
}

#[test]
fn set_up_of_list_by_cells(rt: HostRuntime) {
    watched_set_up(&rt, rt.alloc());
    no_records(&rt, rt.alloc(), 18);
}

/// Behind the list of records no refusal changes the answer of a list whose levels are found by cells.
#[test]
fn refused_list_by_cells(rt: HostRuntime) {
    let mut engine = watched_engine(rt.alloc()).expect(&rt, "no memory");
    let records = engine.submit_list(&rt, rt.alloc(), &fills_in_turn());
    let records = records.expect(&rt, "refused");
    expect_fills_in_turn(&rt, &engine, &records);
}

/// Two fills and then, behind a fence, a move of what the first wrote and a fill of it.
fn fenced_jobs() -> [Job; 4] {
    [
        Job::fill(0x0101_0101_0101_0101, 0, 16),
        Job::fill(0x0202_0202_0202_0202, 64, 8),
        Job::move_bytes(0, 128, 16).with_flags(1),
        Job::fill(0x0303_0303_0303_0303, 0, 8),
    ]
}

/// The batch was carried out.
fn expect_fenced_jobs(rt: &impl Abort, engine: &Engine, records: &[Record]) {
    let want = [
        answer(Status::Success, 0, 16, 0),
        answer(Status::Success, 0, 8, 0),
        answer(Status::Success, 0, 16, 0),
        answer(Status::Success, 0, 8, 0),
    ];
    same(rt, records, want.as_slice());
    let left = [(0, 3), (8, 1), (64, 2), (128, 1), (143, 1), (144, 0)];
    expect_at(rt, engine, &left);
}

#[test]
fn set_up_of_fenced_batch(rt: HostRuntime) {
    watched_set_up(&rt, rt.alloc());
}

/// The right records of a batch with a fence, or want of memory with nothing changed.
#[test]
fn refused_fenced_batch(rt: HostRuntime) {
    let mut engine = watched_engine(rt.alloc()).expect(&rt, "no memory");
    match engine.submit_batch(&rt, rt.alloc(), &fenced_jobs()) {
        Ok((batch, records)) => {
            same(&rt, (batch.status, batch.completed), (Status::Success, 4));
            expect_fenced_jobs(&rt, &engine, &records);
        }
        Err(error) => expect_nothing(&rt, &engine, error),
    }
}

#[test]
fn set_up_of_later_growths_of_a_fenced_batch(rt: HostRuntime) {
    watched_set_up(&rt, rt.alloc());
    no_records(&rt, rt.alloc(), fenced_jobs().len());
}

/// Behind the list of records no refusal changes the answer of a batch with a fence.
#[test]
fn refused_later_growths_of_a_fenced_batch(rt: HostRuntime) {
    let mut engine = watched_engine(rt.alloc()).expect(&rt, "no memory");
    let batch = engine.submit_batch(&rt, rt.alloc(), &fenced_jobs());
    let (batch, records) = batch.expect(&rt, "refused");
    same(&rt, (batch.status, batch.completed), (Status::Success, 4));
    expect_fenced_jobs(&rt, &engine, &records);
}

/// An engine over a page that begins with 1 to 8, whose lists go to sixteen workers.
fn crowded_engine(alloc: Global) -> Option<Engine> {
    let settings = Settings {
        chunk: 8,
        workers: 16,
        ..USUAL
    };
    let mut engine = engine_with(alloc, 1, settings)?;
    engine.bring(0, &page_of(&[1, 2, 3, 4, 5, 6, 7, 8])).ok()?;
    Some(engine.with_gate(Free))
}

#[test]
fn set_up_of_conflict_chain(rt: HostRuntime) {
    expect_made(&rt, crowded_engine(rt.alloc()), 7, 8);
    no_records(&rt, rt.alloc(), 3);
}

/// A move, a move of what it wrote, and a fill of what it read.
fn conflict_chain() -> [Job; 3] {
    [
        Job::move_bytes(0, 64, 16),
        Job::move_bytes(64, 128, 16),
        Job::fill(0xffff_ffff_ffff_ffff, 0, 16),
    ]
}

/// The chain was carried out.
fn expect_conflict_chain(rt: &impl Abort, engine: &Engine, records: &[Record]) {
    let want = [answer(Status::Success, 0, 16, 0); 3];
    same(rt, records, want.as_slice());
    let left = [
        (0, 0xff),
        (15, 0xff),
        (64, 1),
        (71, 8),
        (72, 0),
        (128, 1),
        (135, 8),
        (136, 0),
    ];
    expect_at(rt, engine, &left);
}

/// Behind the list of records no refusal changes the answer.
#[test]
fn refused_conflict_chain(rt: HostRuntime) {
    let mut engine = crowded_engine(rt.alloc()).expect(&rt, "no memory");
    let records = engine.submit_list(&rt, rt.alloc(), &conflict_chain());
    let records = records.expect(&rt, "refused");
    expect_conflict_chain(&rt, &engine, &records);
}
