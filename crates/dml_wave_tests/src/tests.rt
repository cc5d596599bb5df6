//! The tasks that the jobs of a wave are cut in, and waves that are carried out.
ghost use Rattle.std.specs.Prelude.{◌≡◌, ◌≤◌, [], ◌∷◌};
ghost use Rattle.dml_types.specs.Refusal.{need};
ghost use Rattle.dml_levels.specs.Tasks.{IsChunk};
ghost use Rattle.dml_levels.specs.Waves.{IsSmall};

mod waves;

use dml_arena::Arena;
use dml_desc::{Checked, check, need};
use dml_image::{Image, ImageError};
use dml_levels::{conflict, task_count};
use dml_pool::Free;
use dml_types::{Job, Record, Settings, Status};
use dml_wave::{WaveError, carry_out_wave};
use std::alloc::Global;
use std::process::Abort;
use std::sync::Wait;
use std::test::Fail;
use std::thread::Threads;
use waves::{Counting, carried_past};

/// The staging size of a run without options.
const STAGING: u32 = 1_048_576;

/// A chunk size that is valid.
fn valid_chunk(rt: &impl Abort, chunk: u32) -> u32
    ensures same { result ≡ chunk }
    ensures valid { IsChunk result }
{
    assert!(rt; chunk >= 8 && chunk <= 1_048_576 && chunk % 8 == 0);
    chunk
}

/// The staging that a job needs.
fn operation_need(rt: &impl Abort, job: &Checked) -> u64
    ensures count { result ≡ need job.now }
    ensures most { result ≤ 1048576 }
{
    let count = need(job.job());
    assert!(rt; count <= 1_048_576);
    count
}

/// A job, checked.
fn accepted(job: &Job) -> Result<Checked, &'static str> {
    check(job, STAGING).ok().ok_or("refused")
}

/// Carries out a list of jobs as one wave in an order of places: how many tasks there were, and the image and the records.
fn counted<R: Abort + Threads + Wait + Sync>(
    rt: &R,
    alloc: Global,
    settings: &Settings,
    table: &[Job],
    wave: &[u32],
) -> Option<(u64, Image<'static>, Vec<Record>)> {
    let (jobs, mut records) = waves::list_of(alloc, settings.staging, table)?;
    let mut image = waves::image(alloc).ok()?;
    let gate = Counting::new();
    carried_past(
        rt,
        alloc,
        &gate,
        settings,
        &mut image,
        &jobs,
        wave,
        &mut records,
    )
    .ok()?;
    Some((gate.count(), image, records))
}

#[test]
fn chunk_task_counts(rt: HostRuntime) -> Result<(), Fail> {
    let rows = [
        (Job::move_bytes(0, 4096, 100), 8, 13),
        (Job::create_delta(0, 64, 32, 128, 20), 16, 2),
        (Job::apply_delta(0, 30, 256, 32), 16, 2),
        (Job::fill(1, 0, 0), 8, 0),
        (Job::no_op(), 8, 0),
        (Job::move_bytes(0, 0, 1_048_576), 8, 131_072),
    ];
    for (job, chunk, count) in rows {
        let settings = Settings {
            staging: STAGING,
            chunk,
            workers: 1,
        };
        let (tasks, _, _) = counted(&rt, rt.alloc(), &settings, &[job], &[0]).ok_or("no memory")?;
        assert_eq!(rt; tasks, count);
    }
    Ok(())
}

/// A wave names its jobs in an order of its own; the regions of its chunks lie side by side in a room that just holds
/// them.
#[test]
fn chunks_side_by_side(rt: HostRuntime) -> Result<(), Fail> {
    let table = [
        Job::create_delta(0, 64, 24, 128, 30),
        Job::compare(0, 512, 20),
        Job::dualcast(0, 4096, 8192, 20),
    ];
    let settings = Settings {
        staging: 50,
        chunk: 16,
        workers: 1,
    };
    let (tasks, image, records) = counted(&rt, rt.alloc(), &settings, &table, &[2, 0, 1]).ok_or(
        "no memory",
    )?;
    assert_eq!(rt; tasks, 6);
    let differs = Record {
        result: 1,
        ..record(Status::Success, 0, 0)
    };
    let created = Record {
        result: 1,
        delta_size: 30,
        ..record(Status::Success, 24, 0)
    };
    let want = [created, differs, record(Status::Success, 20, 0)];
    assert_eq!(rt; records.as_slice(), want.as_slice());
    for i in 0..20 {
        expect_byte(&rt, &image, 4096 + u64::from(i), i);
        expect_byte(&rt, &image, 8192 + u64::from(i), i);
    }
    let delta = [
        0, 0, 64, 65, 66, 67, 68, 69, 70, 71, 1, 0, 72, 73, 74, 75, 76, 77, 78, 79, 2, 0, 80, 81,
        82, 83, 84, 85, 86, 87,
    ];
    for (addr, byte) in (128..158).zip(delta) {
        expect_byte(&rt, &image, addr, byte);
    }
    Ok(())
}

/// A page of the bytes 0 to 255 over and over, a page of zeros, and an absent one.
fn image(alloc: Global) -> Result<Image<'static>, ImageError> {
    let mut image = Image::new(alloc, 3)?;
    let mut bytes = [0; 4096];
    for (i, byte) in bytes.iter_mut().enumerate() {
        *byte = (i % 256) as u8;
    }
    image.bring(0, &bytes)?;
    image.bring(1, &[0; 4096])?;
    Ok(image)
}

/// A record that no job of these tests has.
const BLANK: Record = Record {
    status: Status::BadSize,
    result: 9,
    completed: 9,
    fault: 9,
    delta_size: 9,
};

/// A record without a delta.
fn record(status: Status, completed: u32, fault: u64) -> Record {
    Record {
        completed,
        fault,
        ..Record::refused(status)
    }
}

/// Checks that a wave of three jobs, the last of them first, fits.
fn expect_small(
    rt: &impl Abort,
    settings: &Settings,
    first: &Checked,
    second: &Checked,
    third: &Checked,
)
    ensures { IsSmall (first.now ∷ second.now ∷ third.now ∷ []) settings.now.staging settings.now.chunk (2 ∷ 0 ∷ 1 ∷ []) }
{
    let needs = operation_need(rt, third)
        + (operation_need(rt, first) + operation_need(rt, second));
    assert!(rt; needs <= u64::from(settings.staging));
    let chunk = valid_chunk(rt, settings.chunk);
    let count = task_count(third, chunk) + (task_count(first, chunk) + task_count(second, chunk));
    assert!(rt; count <= 131_072);
}

/// Carries out three jobs that do not conflict as one wave, the last of them first.
fn carried_together<R: Abort + Threads + Wait + Sync>(
    rt: &R,
    alloc: Global,
    settings: &Settings,
    image: &mut Image,
    arena: &mut Arena,
    jobs: (Checked, Checked, Checked),
    records: &mut [Record],
) -> Result<(), WaveError> {
    assert!(rt; settings.is_valid() && settings.staging <= arena.size() && records.len() == 3);
    let (first, second, third) = jobs;
    assert!(rt;
        !conflict(&third, &first) && !conflict(&third, &second) && !conflict(&first, &second)
    );
    expect_small(rt, settings, &first, &second, &third);
    let jobs = [first, second, third];
    carry_out_wave(
        rt,
        alloc,
        &Free,
        settings,
        image,
        arena,
        &jobs,
        &[2, 0, 1],
        records,
    )
}

/// A move, a compare, and a fill that runs into the absent page.
fn three_jobs() -> Result<(Checked, Checked, Checked), &'static str> {
    Ok((
        accepted(&Job::move_bytes(0, 4096, 20))?,
        accepted(&Job::compare(0, 256, 20))?,
        accepted(&Job::fill(0x0706_0504_0302_0100, 8184, 16))?,
    ))
}

/// Checks a record.
fn expect_record(rt: &impl Abort, found: Record, want: Record) {
    assert_eq!(rt; found, want);
}

/// Checks the byte at an address.
fn expect_byte(rt: &impl Abort, image: &Image, addr: u64, value: u8) {
    assert_eq!(rt; image.byte(addr), Some(value), "byte {addr}");
}

/// Checks what the three jobs leave.
fn expect_three(rt: &impl Abort, image: &Image, records: &[Record; 3]) {
    expect_record(rt, records[0], record(Status::Success, 20, 0));
    expect_record(rt, records[1], record(Status::Success, 20, 0));
    expect_record(rt, records[2], record(Status::WriteFault, 8, 8192));
    for i in 0..20 {
        expect_byte(rt, image, 4096 + u64::from(i), i);
    }
    expect_byte(rt, image, 4116, 0);
    expect_byte(rt, image, 8183, 0);
    for i in 0..8 {
        expect_byte(rt, image, 8184 + u64::from(i), i);
    }
}

#[test]
fn wave_of_three(rt: HostRuntime) -> Result<(), Fail> {
    for (chunk, workers) in [(8, 1), (8, 2), (8, 16), (16, 3), (4096, 1), (4096, 16)] {
        let jobs = three_jobs()?;
        let mut image = image(rt.alloc())?;
        let mut arena = Arena::new(rt.alloc(), 20)?;
        let mut records = [BLANK; 3];
        let settings = Settings {
            staging: 20,
            chunk,
            workers,
        };
        carried_together(
            &rt,
            rt.alloc(),
            &settings,
            &mut image,
            &mut arena,
            jobs,
            &mut records,
        )?;
        expect_three(&rt, &image, &records);
    }
    Ok(())
}

/// The record at a no-op's place stays as it is.
#[test]
fn no_op_in_a_wave(rt: HostRuntime) -> Result<(), Fail> {
    let (copy, _, fill) = three_jobs()?;
    let no_op = accepted(&Job::no_op())?;
    let mut image = image(rt.alloc())?;
    let mut arena = Arena::new(rt.alloc(), 20)?;
    let mut records = [BLANK; 3];
    let settings = Settings {
        staging: 20,
        chunk: 8,
        workers: 2,
    };
    carried_together(
        &rt,
        rt.alloc(),
        &settings,
        &mut image,
        &mut arena,
        (copy, no_op, fill),
        &mut records,
    )?;
    expect_record(&rt, records[1], BLANK);
    records[1] = record(Status::Success, 20, 0);
    expect_three(&rt, &image, &records);
    Ok(())
}

#[test]
fn text_of_no_memory(rt: HostRuntime) {
    let text = format!(in rt.alloc(); "{}", WaveError::NoMemory);
    assert!(rt; text.is_ok_and(|text| text.as_str() == "out of memory"));
}
