//! Rows: an image, jobs on it, what they answer and what they leave. Each is submitted as a list and as a batch, at
//! many settings, all with the same answers.
ghost use Rattle.std.specs.Prelude.{◌≡◌};

use super::claims::same_in;
use super::kinds::everywhere;
use super::{USUAL, answer, put};
use dml_engine::{Engine, EngineOver};
use dml_image::Image;
use dml_pool::Free;
use dml_types::{BatchRecord, Job, Record, Settings, Status};
use std::alloc::Global;
use std::process::Abort;
use std::sync::Wait;
use std::thread::Threads;

/// A list of jobs on an image of so many pages, with those that are present and bytes that are put into them; what the
/// jobs and their batch answer, and bytes that they leave.
#[derive(Clone, Copy)]
pub(super) struct Row<'a> {
    pub name: &'a str,
    pub staging: u32,
    pub pages: u32,
    pub present: &'a [u32],
    pub bytes: &'a [(u64, &'a [u8])],
    pub jobs: &'a [Job],
    pub records: &'a [Record],
    pub status: Status,
    pub left: &'a [(u64, &'a [u8])],
}

/// No job on an image of one page of zeros.
pub(super) fn plain_row(name: &str) -> Row<'_> {
    Row {
        name,
        staging: USUAL.staging,
        pages: 1,
        present: &[0],
        bytes: &[],
        jobs: &[],
        records: &[],
        status: Status::Success,
        left: &[],
    }
}

/// The record of a create or an apply.
pub(super) fn delta_answer(
    status: Status,
    outcome: u8,
    completed: u32,
    fault: u64,
    delta_size: u32,
) -> Record {
    Record {
        delta_size,
        ..answer(status, outcome, completed, fault)
    }
}

/// A page of a row's image.
pub(super) fn page_of(row: &Row, page: u32) -> [u8; 4096] {
    let mut content = [0; 4096];
    for (addr, bytes) in row.bytes {
        if *addr / 4096 == u64::from(page) {
            put(&mut content[(*addr % 4096) as usize..], bytes);
        }
    }
    content
}

/// A row's image.
fn image_of(alloc: Global, row: &Row) -> Option<Image<'static>> {
    bring_pages(Image::new(alloc, row.pages).ok()?, row)
}

/// An image with the pages of a row that are present.
pub(super) fn bring_pages<'a>(image: Image<'a>, row: &Row) -> Option<Image<'a>> {
    let mut image = image;
    for page in row.present {
        image.bring(*page, &page_of(row, *page)).ok()?;
    }
    Some(image)
}

/// The settings of the rows.
pub(super) fn settings(staging: u32) -> [Settings; 15] {
    let mut all = [Settings { staging, ..USUAL }; 15];
    for (i, settings) in all.iter_mut().enumerate() {
        settings.chunk = [8, 16, 32, 4096, 1_048_576][i / 3];
        settings.workers = [1, 2, 16][i % 3];
    }
    all
}

/// How the jobs of a row are submitted.
#[derive(Clone, Copy, Debug)]
pub(super) enum Way {
    List,
    Batch,
}

/// Submits a row's jobs, and expects its answers.
pub(super) fn expect_from<R: Abort + Threads + Wait + Sync>(
    rt: &R,
    alloc: Global,
    row: &Row,
    way: Way,
    engine: &mut EngineOver<'_>,
) {
    match way {
        Way::List => {
            let records = engine.submit_list(rt, alloc, row.jobs);
            expect_records(rt, row.name, &records.expect(rt, row.name), row.records);
        }
        Way::Batch => {
            let batch = engine.submit_batch(rt, alloc, row.jobs);
            let (own, records) = batch.expect(rt, row.name);
            expect_records(rt, row.name, &records, row.records);
            expect_own(rt, row.name, own, row.status, row.jobs.len());
        }
    }
    expect_left(rt, row, engine.image());
}

/// Expects the records of a row's jobs.
pub(super) fn expect_records(rt: &impl Abort, name: &str, records: &[Record], want: &[Record]) {
    same_in(rt, name, records, want);
}

/// Expects the record of a row's batch: its status, and how many jobs are carried out.
pub(super) fn expect_own(
    rt: &impl Abort,
    name: &str,
    own: BatchRecord,
    status: Status,
    completed: usize,
) {
    let found = (own.status, own.completed as usize);
    same_in(rt, name, found, (status, completed));
}

/// Expects the bytes that a row leaves.
fn expect_left(rt: &impl Abort, row: &Row, image: &Image) {
    for (addr, bytes) in row.left {
        expect_bytes(rt, row.name, image, *addr, bytes);
    }
}

/// Expects bytes of an image, from an address on.
pub(super) fn expect_bytes(rt: &impl Abort, name: &str, image: &Image, addr: u64, bytes: &[u8]) {
    for (at, byte) in (addr..u64::MAX).zip(bytes) {
        assert_eq!(rt; image.byte(at), Some(*byte), "{name}: byte {at}");
    }
}

/// An engine over a row's image, with its own gate or with one given.
pub(super) fn engine_of(
    alloc: Global,
    row: &Row,
    settings: Settings,
    given: bool,
) -> Option<Engine> {
    let engine = Engine::new(alloc, image_of(alloc, row)?, settings).ok()?;
    Some(with_given(engine, given))
}

/// The engine with its own gate, or with one given.
pub(super) fn with_given(engine: EngineOver<'_>, given: bool) -> EngineOver<'_>
    ensures image { result.image ≡ engine.entry.image }
{
    if given {
        engine.with_gate(Free)
    } else {
        engine
    }
}

/// Expects a row's answers at all settings, as a list and as a batch.
pub(super) fn expect<R: Abort + Threads + Wait + Sync>(rt: &R, alloc: Global, row: &Row) {
    everywhere(rt, alloc, row, Way::List);
    everywhere(rt, alloc, row, Way::Batch);
}

/// Expects a row's answers at all settings, as a list alone.
pub(super) fn expect_as_list<R: Abort + Threads + Wait + Sync>(rt: &R, alloc: Global, row: &Row) {
    everywhere(rt, alloc, row, Way::List);
}
