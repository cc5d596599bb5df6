use crate::tests::{
    carried_over, expect_chunked, expect_record, expect_submitted, image_with, poke, record, shows,
    write_over,
};
use crate::uses::{applied_in_none, applied_in_three};
use dml_arena::Arena;
use dml_desc::check;
use dml_effect::commit;
use dml_image::{Image, ImageError};
use dml_types::{Job, Op, Record, Status};
use std::alloc::Global;
use std::process::Abort;
use std::test::Fail;

/// An apply on an image of `pages` pages, those of `brought` present, with entries of a place, a number and 8 equal
/// bytes; and its answer and 4 blocks of 8 equal bytes after it.
#[derive(Clone, Copy)]
struct AppliedRow {
    pages: u16,
    brought: [u32; 2],
    entries: [(u32, u16, u8); 3],
    job: Job,
    answer: Record,
    blocks: [(u32, u8); 4],
}

impl AppliedRow {
    /// How many bytes its pages have.
    fn len(self) -> usize {
        usize::from(self.pages) * 4096
    }

    /// The image before.
    fn image(&self, rt: &impl Abort, alloc: Global) -> Result<Image<'static>, ImageError> {
        let mut image = image_with(alloc, u32::from(self.pages), &self.brought)?;
        for (place, number, byte) in self.entries {
            let place = u64::from(place);
            poke(rt, &mut image, place, &number.to_le_bytes());
            poke(rt, &mut image, place + 2, &[byte; 8]);
        }
        Ok(image)
    }

    /// Whether the image is right after it.
    fn is_shown_by(&self, image: &Image) -> bool {
        self.blocks
            .iter()
            .all(|(addr, byte)| shows(image, u64::from(*addr), &[*byte; 8]))
    }
}

/// The rows apply_not_rising, apply_offset_range (of two jobs) and not_rising_before_fault.
fn applied_rows() -> [AppliedRow; 4] {
    let range_entries = [(0, 0xffff, 0xaa), (16, 4, 0xbb), (30, 0, 0)];
    [
        AppliedRow {
            pages: 1,
            brought: [0, 0],
            entries: [(0, 0, 0x11), (10, 2, 0x22), (20, 2, 0x33)],
            job: Job::apply_delta(0, 30, 256, 32),
            answer: record(Status::NotRising, 0, 20, 0),
            blocks: [(256, 0x11), (264, 0), (272, 0x22), (280, 0)],
        },
        AppliedRow {
            pages: 129,
            brought: [0, 128],
            entries: range_entries,
            job: Job::apply_delta(16, 10, 256, 32),
            answer: record(Status::OffsetRange, 0, 0, 0),
            blocks: [(256, 0), (264, 0), (272, 0), (280, 0)],
        },
        AppliedRow {
            pages: 129,
            brought: [0, 128],
            entries: range_entries,
            job: Job::apply_delta(0, 10, 4096, 0x80000),
            answer: record(Status::Success, 0, 10, 0),
            blocks: [(528_352, 0), (528_360, 0), (528_368, 0), (528_376, 0xaa)],
        },
        AppliedRow {
            pages: 3,
            brought: [0, 2],
            entries: [(0, 2, 0xaa), (10, 0, 0xbb), (20, 0, 0)],
            job: Job::apply_delta(0, 20, 8176, 32),
            answer: record(Status::NotRising, 0, 10, 0),
            blocks: [(8192, 0xaa), (8200, 0), (8208, 0), (8216, 0)],
        },
    ]
}

/// The row empty_ranges: of an empty target, and of an empty record.
fn empty_rows() -> [AppliedRow; 2] {
    let to_no_block = AppliedRow {
        pages: 1,
        brought: [0, 0],
        entries: [(0, 0, 0), (10, 0, 0), (20, 0, 0)],
        job: Job::apply_delta(0, 10, 256, 0),
        answer: record(Status::OffsetRange, 0, 0, 0),
        blocks: [(256, 0), (264, 0), (272, 0), (280, 0)],
    };
    [
        to_no_block,
        AppliedRow {
            job: Job::apply_delta(0, 0, 256, 32),
            answer: record(Status::Success, 0, 0, 0),
            ..to_no_block
        },
    ]
}

/// Carries out a row whole.
fn expect_whole(rt: &impl Abort, alloc: Global, row: AppliedRow) -> Result<(), Fail> {
    let mut image = row.image(rt, alloc)?;
    let mut arena = Arena::new(alloc, 30)?;
    expect_submitted(rt, &mut image, &mut arena, &row.job, row.answer);
    assert!(rt; row.is_shown_by(&image));
    Ok(())
}

#[test]
fn applies(rt: HostRuntime) -> Result<(), Fail> {
    for row in applied_rows() {
        expect_whole(&rt, rt.alloc(), row)?;
    }
    Ok(())
}

/// Carries out an apply that is scanned in chunks of `entries` entries, of which it has 3 at most.
#[tactic(auto, using(dml_desc::proofs::CheckedLemmas::need_within))]
fn applied_in_chunks(
    rt: &impl Abort,
    image: &mut Image,
    arena: &mut Arena,
    job: &Job,
    entries: u32,
) -> Record {
    let Ok(checked) = check(job, arena.size()) else {
        panic!(rt; "{job:?} is refused");
    };
    let count = job.delta_size / 10;
    assert!(rt; checked.op() == Op::ApplyDelta && job.delta_size <= arena.size());
    let low = entries.min(count);
    let high = entries.saturating_mul(2).min(count);
    let room = arena.open();
    let effect = applied_in_three(image, &checked, low, high, room);
    let answer = *effect.answer();
    assert_eq!(rt; commit(image, effect), answer);
    answer
}

/// Carries out a row in chunks of 8, 16, 32 and 4,096 bytes.
fn expect_in_chunks(rt: &impl Abort, alloc: Global, row: AppliedRow) -> Result<(), Fail> {
    let mut arena = Arena::new(alloc, 30)?;
    for chunk in [8, 16, 32, 4096] {
        let mut image = row.image(rt, alloc)?;
        let answer = applied_in_chunks(rt, &mut image, &mut arena, &row.job, chunk / 8);
        expect_chunked(rt, &row.job, chunk, answer, row.answer);
        assert!(rt; row.is_shown_by(&image));
    }
    Ok(())
}

#[test]
fn applies_in_chunks(rt: HostRuntime) -> Result<(), Fail> {
    for row in applied_rows() {
        expect_in_chunks(&rt, rt.alloc(), row)?;
    }
    Ok(())
}

/// Carries out an apply of an empty record, which has no chunk.
fn applied_in_no_chunk(rt: &impl Abort, image: &mut Image, job: &Job) -> Record {
    let Ok(checked) = check(job, 0) else {
        panic!(rt; "{job:?} is refused");
    };
    assert!(rt; checked.op() == Op::ApplyDelta && job.delta_size == 0);
    let effect = applied_in_none(image, &checked);
    let answer = *effect.answer();
    assert_eq!(rt; commit(image, effect), answer);
    answer
}

#[test]
fn empty_ranges(rt: HostRuntime) -> Result<(), Fail> {
    for row in empty_rows() {
        expect_whole(&rt, rt.alloc(), row)?;
        expect_in_chunks(&rt, rt.alloc(), row)?;
    }
    let [_, row] = empty_rows();
    let mut image = row.image(&rt, rt.alloc())?;
    let answer = applied_in_no_chunk(&rt, &mut image, &row.job);
    expect_record(&rt, &row.job, answer, row.answer);
    assert!(rt; row.is_shown_by(&image));
    Ok(())
}

#[test]
fn applies_over_lent_pages(rt: HostRuntime) -> Result<(), Fail> {
    let mut arena = Arena::new(rt.alloc(), 4096)?;
    for row in applied_rows() {
        let mut bytes = vec![in rt.alloc(); 0; row.len()]?;
        for (place, number, byte) in row.entries {
            let place = place as usize;
            write_over(&rt, &mut bytes, place, &number.to_le_bytes());
            write_over(&rt, &mut bytes, place + 2, &[byte; 8]);
        }
        let mut after = bytes.clone()?;
        for (addr, byte) in row.blocks {
            write_over(&rt, &mut after, addr as usize, &[byte; 8]);
        }
        let answer = carried_over(&rt, &mut bytes, &mut arena, &row.job);
        expect_record(&rt, &row.job, answer, row.answer);
        assert!(rt; bytes == after);
    }
    Ok(())
}
