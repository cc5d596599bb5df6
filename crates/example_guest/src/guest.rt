//! A guest's memory in segments, and the engine over it.
ghost use Rattle.std.specs.Prelude.{IsTrue};
ghost use Rattle.dml_types.specs.Memory.{is_in_segments};

use anyhow::{bail, ensure};
use dml_desc::{decode, record_bytes, rest};
use dml_engine::EngineOver;
use dml_image::{Image, Segment, are_segments};
use dml_types::{BatchRecord, Direction, Job, Record, Settings, law_of_loans};
use std::alloc::Global;
use std::mem;
use std::sync::Wait;
use std::thread::Threads;

/// A mebibyte of staging, tasks of 64 KiB, at most four threads.
const SETTINGS: Settings = Settings {
    staging: 1_048_576,
    chunk: 65_536,
    workers: 4,
};

/// Where the ring's descriptors stand in the guest's memory, 64 bytes each.
pub(crate) const RING: u64 = 4096;

/// Memory that no guest has yet.
#[derive(Drop)]
pub(crate) struct Spare<'a> {
    bytes: &'a mut [u8],
}

impl<'a> Spare<'a> {
    pub(crate) fn new(bytes: &'a mut [u8]) -> Spare<'a> {
        Spare { bytes }
    }

    /// How many pages are left.
    pub(crate) fn pages(&self) -> usize {
        self.bytes.len() / 4096
    }

    /// One of them.
    pub(crate) fn page(&mut self) -> Option<&'a mut [u8]> {
        let (page, rest) = mem::take(&mut self.bytes).split_at_mut_checked(4096)?;
        self.bytes = rest;
        Some(page)
    }
}

/// An engine whose image lies over segments, so that they can be taken back.
#[derive(Drop)]
pub(crate) struct Guest<'a> {
    engine: EngineOver<'a>,
    ghost in_segments: { IsTrue (is_in_segments engine.image) },
}

impl<'a> Guest<'a> {
    /// A guest whose memory lies in these segments.
    pub(crate) fn over(alloc: Global, segments: Vec<Segment<'a>>) -> anyhow::Result<Guest<'a>> {
        ensure!(are_segments(&segments), "these segments are no memory");
        let image = Image::over_segments(segments);
        match EngineOver::new(alloc, image, SETTINGS) {
            Ok(engine) => Ok(Guest { engine }),
            Err((_, error)) => Err(error.into()),
        }
    }

    /// The same guest, whose memory has one segment more.
    pub(crate) fn with(self, alloc: Global, segment: Segment<'a>) -> anyhow::Result<Guest<'a>> {
        let Guest { engine } = self;
        let mut segments = engine.into_image().into_segments();
        if segments.push(segment).is_err() {
            bail!("no memory");
        }
        segments.sort_unstable_by_key(|segment| segment.first());
        Guest::over(alloc, segments)
    }

    /// The job of a descriptor in the ring.
    pub(crate) fn fetch(&self, number: u32) -> anyhow::Result<Job> {
        let image = self.engine.image();
        let addr = RING + 64 * u64::from(number);
        let mut bytes = [0; 64];
        ensure!(
            image.first_absent(addr, 64, Direction::Forward).is_none(),
            "the ring is not there"
        );
        image.read_into(addr, &mut bytes);
        Ok(decode(&bytes))
    }

    /// Carries out a job, and answers its record and what is left of it after a page fault.
    pub(crate) fn submit<R: Threads + Wait + Sync>(
        &mut self,
        rt: &R,
        alloc: Global,
        job: Job,
    ) -> (Record, Option<Job>) {
        law_of_loans();
        let record = self.engine.submit(rt, alloc, job);
        (record, rest(&job, &record))
    }

    /// Carries out jobs as a batch, on workers where they pay.
    pub(crate) fn submit_batch<R: Threads + Wait + Sync>(
        &mut self,
        rt: &R,
        alloc: Global,
        jobs: &[Job],
    ) -> anyhow::Result<(BatchRecord, Vec<Record>)> {
        law_of_loans();
        Ok(self.engine.submit_batch(rt, alloc, jobs)?)
    }
}
