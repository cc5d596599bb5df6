use crate::tests::{expect_byte, expect_submitted, image_with, poke, record, shows};
use dml_arena::Arena;
use dml_desc::rest;
use dml_image::Image;
use dml_types::{Job, Record, Status};
use std::alloc::Global;
use std::process::Abort;
use std::test::Fail;

/// The staging size of a run without options.
const STAGING: u32 = 1_048_576;

/// Checks what is left of a job.
fn expect_rest(rt: &impl Abort, job: &Job, answer: &Record, want: Option<Job>) {
    assert_eq!(rt; rest(job, answer), want, "{job:?}");
}

/// A job that a page fault stops, and what is left of it once the page is there.
#[derive(Drop)]
struct Row<'a> {
    pages: u32,
    present: &'a [u32],
    /// Bytes that are written before, from an address on.
    poked: (u64, &'a [u8]),
    job: Job,
    stopped: Record,
    /// The page that is brought, full of 0 but for one byte at an offset.
    page: u32,
    byte: (usize, u8),
    left: Job,
    resumed: Record,
    /// The record of the whole job where the page was there from the start.
    whole: Record,
    /// Bytes that stand there after both parts, from an address on.
    shown: (u64, &'a [u8]),
}

impl Row<'_> {
    /// The image before the job.
    fn image(&self, rt: &impl Abort, alloc: Global) -> Result<Image<'static>, Fail> {
        let mut image = image_with(alloc, self.pages, self.present)?;
        poke(rt, &mut image, self.poked.0, self.poked.1);
        Ok(image)
    }

    /// Brings the page.
    fn bring(&self, image: &mut Image) -> Result<(), Fail> {
        let mut bytes = [0; 4096];
        if let Some(byte) = bytes.get_mut(self.byte.0) {
            *byte = self.byte.1;
        }
        image.bring(self.page, &bytes)?;
        Ok(())
    }

    /// Carries out both parts, with the records and the rest of the row.
    fn in_parts(&self, rt: &impl Abort, alloc: Global) -> Result<Image<'static>, Fail> {
        let mut arena = Arena::new(alloc, STAGING)?;
        let mut image = self.image(rt, alloc)?;
        let stopped = expect_submitted(rt, &mut image, &mut arena, &self.job, self.stopped);
        self.bring(&mut image)?;
        expect_rest(rt, &self.job, &stopped, Some(self.left));
        expect_submitted(rt, &mut image, &mut arena, &self.left, self.resumed);
        assert!(rt; shows(&image, self.shown.0, self.shown.1), "{:?}", self.job);
        Ok(image)
    }

    /// Carries out the whole job where the page is there, with the row's record.
    fn at_once(&self, rt: &impl Abort, alloc: Global) -> Result<Image<'static>, Fail> {
        let mut arena = Arena::new(alloc, STAGING)?;
        let mut image = self.image(rt, alloc)?;
        self.bring(&mut image)?;
        expect_submitted(rt, &mut image, &mut arena, &self.job, self.whole);
        Ok(image)
    }
}

/// Carries out a row in both ways: the images are equal.
fn expect_row(rt: &impl Abort, alloc: Global, row: &Row) -> Result<(), Fail> {
    let parts = row.in_parts(rt, alloc)?;
    let whole = row.at_once(rt, alloc)?;
    for addr in 0..4096 * u64::from(row.pages) {
        expect_byte(rt, &parts, addr, whole.byte(addr));
    }
    Ok(())
}

#[test]
fn resume_a_fill(rt: HostRuntime) -> Result<(), Fail> {
    let row = Row {
        pages: 2,
        present: &[0],
        poked: (0, &[]),
        job: Job::fill(0x0807_0605_0403_0201, 4091, 9),
        stopped: record(Status::WriteFault, 0, 5, 4096),
        page: 1,
        byte: (0, 0),
        left: Job::fill(0x0504_0302_0108_0706, 4096, 4),
        resumed: record(Status::Success, 0, 4, 0),
        whole: record(Status::Success, 0, 9, 0),
        shown: (4096, &[6, 7, 8, 1]),
    };
    expect_row(&rt, rt.alloc(), &row)
}

#[test]
fn resume_a_compare(rt: HostRuntime) -> Result<(), Fail> {
    let row = Row {
        pages: 2,
        present: &[0],
        poked: (0, &[]),
        job: Job::compare(0, 4092, 8),
        stopped: record(Status::ReadFault, 0, 4, 4096),
        page: 1,
        byte: (1, 7),
        left: Job::compare(4, 4096, 4),
        resumed: record(Status::Success, 1, 1, 0),
        whole: record(Status::Success, 1, 5, 0),
        shown: (4096, &[0, 7]),
    };
    expect_row(&rt, rt.alloc(), &row)
}

#[test]
fn resume_a_backward_move(rt: HostRuntime) -> Result<(), Fail> {
    let row = Row {
        pages: 3,
        present: &[0, 2],
        poked: (8192, &[1, 2]),
        job: Job::move_bytes(0, 8, 12_272),
        stopped: record(Status::ReadFault, 1, 4080, 8191),
        page: 1,
        byte: (0, 0),
        left: Job::move_bytes(0, 8, 8192),
        resumed: record(Status::Success, 1, 8192, 0),
        whole: record(Status::Success, 1, 12_272, 0),
        shown: (8192, &[0, 0, 0, 0, 0, 0, 0, 0, 1, 2]),
    };
    expect_row(&rt, rt.alloc(), &row)
}

/// The one case that the law on resuming leaves out: what is left of a backward move goes forward, and is stopped
/// again. Both parts then end in another place than the whole move.
#[test]
fn front_that_turns_round(rt: HostRuntime) -> Result<(), Fail> {
    let row = Row {
        pages: 5,
        present: &[0, 2, 4],
        poked: (0, &[9]),
        job: Job::move_bytes(0, 8192, 8200),
        stopped: record(Status::ReadFault, 1, 8, 8191),
        page: 1,
        byte: (0, 0),
        left: Job::move_bytes(0, 8192, 8192),
        resumed: record(Status::WriteFault, 0, 4096, 12_288),
        whole: record(Status::WriteFault, 1, 8, 16_383),
        shown: (8192, &[9, 0]),
    };
    let parts = row.in_parts(&rt, rt.alloc())?;
    let whole = row.at_once(&rt, rt.alloc())?;
    expect_byte(&rt, &parts, 8192, Some(9));
    expect_byte(&rt, &whole, 8192, Some(0));
    Ok(())
}

/// Jobs on an image of 4,096 pages that are all absent, and what is left of each.
#[test]
fn every_page_absent(rt: HostRuntime) -> Result<(), Fail> {
    let mut image = image_with(rt.alloc(), 4096, &[])?;
    let mut arena = Arena::new(rt.alloc(), STAGING)?;
    let read = record(Status::ReadFault, 0, 0, 0);
    let table = [
        (
            Job::move_bytes(0, 8, 16),
            record(Status::ReadFault, 1, 0, 15),
            true,
        ),
        (
            Job::fill(1, 0, 8),
            record(Status::WriteFault, 0, 0, 0),
            true,
        ),
        (Job::compare(0, 8, 8), read, true),
        (Job::create_delta(0, 64, 8, 128, 10), read, false),
        (Job::apply_delta(0, 10, 256, 8), read, false),
        (Job::dualcast(0, 4096, 8192, 8), read, true),
        (Job::no_op(), record(Status::Success, 0, 0, 0), false),
    ];
    for (job, want, goes_on) in table {
        let answer = expect_submitted(&rt, &mut image, &mut arena, &job, want);
        expect_rest(&rt, &job, &answer, goes_on.then_some(job));
    }
    assert!(rt; (0..2).all(|addr| image.byte(addr).is_none()));
    Ok(())
}
