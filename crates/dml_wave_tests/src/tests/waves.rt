//! Waves that are carried out: the same images and records as by one job after another.
ghost use Rattle.std.specs.Prelude.{◌≡◌, ◌<◌, All, IsTrue, false, length};
ghost use Rattle.dml_types.specs.Limits.{IsValid};
ghost use Rattle.dml_types.specs.Conflict as word;
ghost use Rattle.dml_levels.specs.Waves.{IsSmall, job_at};
ghost use Rattle.dml_wave.specs.Waves.{AreApart};

use dml_arena::Arena;
use dml_desc::{Checked, check, need};
use dml_image::{Image, ImageError};
use dml_levels::{conflict, task_count};
use dml_pool::{Free, Gate};
use dml_types::{Job, Record, Settings, Status};
use dml_wave::{WaveError, carry_out_wave};
use std::alloc::Global;
use std::process::Abort;
use std::sync::Wait;
use std::sync::atomic::{AtomicU64, Ordering};
use std::test::Fail;
use std::thread::{self, Threads};
use std::time::{Clock, Duration};

/// The staging size of a run without options.
const STAGING: u32 = 1_048_576;

/// Whether a job conflicts with none of those at some places.
fn is_clear(jobs: &[Checked], job: &Checked, places: &[u32]) -> bool
    requires { All (λ i. i < length jobs.now) places.now }
    ensures { IsTrue result → All (λ k. word.conflict job.now (job_at jobs.now k) ≡ false) places.now }
{
    for place in places {
        if conflict(job, &jobs[*place as usize]) {
            return false;
        }
    }
    true
}

/// Whether no two jobs at a wave's places conflict.
fn are_apart(jobs: &[Checked], wave: &[u32]) -> bool
    requires { All (λ i. i < length jobs.now) wave.now }
    ensures { IsTrue result → AreApart jobs.now wave.now }
{
    for from in 0..wave.len() {
        if !is_clear(jobs, &jobs[wave[from] as usize], &wave[from + 1..]) {
            return false;
        }
    }
    true
}

/// Whether the jobs at a wave's places fit into one.
fn fits(jobs: &[Checked], wave: &[u32], settings: &Settings) -> bool
    requires places { All (λ i. i < length jobs.now) wave.now }
    requires valid { IsValid settings.now }
    ensures { IsTrue result → IsSmall jobs.now settings.now.staging settings.now.chunk wave.now }
{
    let (mut needs, mut tasks) = (0, 0);
    for place in wave {
        let job = &jobs[*place as usize];
        needs += need(job.job());
        tasks += task_count(job, settings.chunk);
        if needs > u64::from(settings.staging) || tasks > 131_072 {
            return false;
        }
    }
    true
}

/// Whether each place of a wave is one of the list.
fn is_within(count: usize, wave: &[u32]) -> bool
    ensures { IsTrue result → All (λ i. i < count) wave.now }
{
    for place in wave {
        if *place as usize >= count {
            return false;
        }
    }
    true
}

/// A record that no job of the tests has.
const BLANK: Record = Record {
    status: Status::BatchFailed,
    result: 7,
    completed: 7,
    fault: 7,
    delta_size: 7,
};

/// A gate that counts the tasks that enter.
#[derive(Drop)]
pub(super) struct Counting {
    entered: AtomicU64,
}

impl Counting {
    pub(super) fn new() -> Counting {
        Counting {
            entered: AtomicU64::new(0),
        }
    }

    pub(super) fn count(&self) -> u64 {
        self.entered.load(Ordering::SeqCst)
    }
}

impl Gate for Counting {
    fn enter(&self, _task: usize) {
        self.entered.fetch_add(1, Ordering::SeqCst);
    }
}

/// The turns after which a gate gives up.
const TURNS: u32 = 10_000;

/// A gate that counts the tasks that enter, and holds the first one until another one has entered.
#[derive(Drop)]
struct Meeting<'c, C> {
    clock: &'c C,
    entered: AtomicU64,
    given_up: AtomicU64,
}

impl<'c, C: Clock> Meeting<'c, C> {
    fn new(clock: &'c C) -> Meeting<'c, C> {
        Meeting {
            clock,
            entered: AtomicU64::new(0),
            given_up: AtomicU64::new(0),
        }
    }

    fn counts(&self) -> (u64, u64) {
        (
            self.entered.load(Ordering::SeqCst),
            self.given_up.load(Ordering::SeqCst),
        )
    }
}

impl<'c, C: Clock> Gate for Meeting<'c, C> {
    fn enter(&self, task: usize) {
        self.entered.fetch_add(1, Ordering::SeqCst);
        if task > 0 {
            return;
        }
        for _ in 0..TURNS {
            if self.entered.load(Ordering::SeqCst) > 1 {
                return;
            }
            thread::sleep(self.clock, Duration::from_millis(1));
        }
        self.given_up.fetch_add(1, Ordering::SeqCst);
    }
}

/// Carries out the jobs at a wave's places, each of whose tasks enters a gate.
pub(super) fn carried_past<R: Abort + Threads + Wait + Sync, G: Gate + Sync>(
    rt: &R,
    alloc: Global,
    gate: &G,
    settings: &Settings,
    image: &mut Image,
    jobs: &[Checked],
    wave: &[u32],
    records: &mut [Record],
) -> Result<(), WaveError> {
    let mut arena = Arena::new(alloc, settings.staging)
        .ok()
        .ok_or(WaveError::NoMemory)?;
    assert!(rt; settings.is_valid() && arena.size() == settings.staging);
    assert!(rt; records.len() == jobs.len() && is_within(jobs.len(), wave));
    assert!(rt; are_apart(jobs, wave) && fits(jobs, wave, settings));
    carry_out_wave(
        rt, alloc, gate, settings, image, &mut arena, jobs, wave, records,
    )
}

/// The same past no gate.
fn carried<R: Abort + Threads + Wait + Sync>(
    rt: &R,
    alloc: Global,
    settings: &Settings,
    image: &mut Image,
    jobs: &[Checked],
    wave: &[u32],
    records: &mut [Record],
) -> Result<(), WaveError> {
    carried_past(rt, alloc, &Free, settings, image, jobs, wave, records)
}

/// The jobs of a table, checked, with a no-op for each that is refused; its record is the refusal then, and blank else.
pub(super) fn list_of(
    alloc: Global,
    staging: u32,
    table: &[Job],
) -> Option<(Vec<Checked>, Vec<Record>)> {
    let idle = check(&Job::no_op(), staging).ok()?;
    let mut jobs = Vec::with_capacity(alloc, table.len()).ok()?;
    let mut records = Vec::with_capacity(alloc, table.len()).ok()?;
    for job in table {
        let (job, record) = match check(job, staging) {
            Ok(job) => (job, BLANK),
            Err(status) => (idle, Record::refused(status)),
        };
        jobs.push(job).ok()?;
        records.push(record).ok()?;
    }
    Some((jobs, records))
}

/// A record without a fault or a delta size.
fn done(status: Status, completed: u32) -> Record {
    Record {
        status,
        result: 0,
        completed,
        fault: 0,
        delta_size: 0,
    }
}

/// Eight pages: the bytes 0 to 250 over and over in pages 0 and 1, but for one byte, an apply's record in page 2,
/// zeros in the others, and page 5 absent.
pub(super) fn image(alloc: Global) -> Result<Image<'static>, ImageError> {
    let mut image = Image::new(alloc, 8)?;
    let mut bytes = [0; 4096];
    for (i, byte) in bytes.iter_mut().enumerate() {
        *byte = (i % 251) as u8;
    }
    image.bring(0, &bytes)?;
    bytes[1000] = 0xff;
    image.bring(1, &bytes)?;
    let mut record = [0; 4096];
    for (i, byte) in record.iter_mut().enumerate() {
        *byte = match i {
            0 => 1,
            10 => 3,
            20 => 30,
            1 | 11 | 21 => 0,
            _ => 9,
        };
    }
    image.bring(2, &record)?;
    for page in [3, 4, 6, 7] {
        image.bring(page, &[0; 4096])?;
    }
    Ok(image)
}

#[test]
fn staging_refusal_and_two_waves(rt: HostRuntime) -> Result<(), Fail> {
    let table = [
        Job::move_bytes(0, 256, 64),
        Job::move_bytes(0, 512, 65),
        Job::move_bytes(0, 1024, 64),
    ];
    for workers in [1, 2] {
        let settings = Settings {
            staging: 64,
            chunk: 16,
            workers,
        };
        let mut image = image(rt.alloc())?;
        let (jobs, mut records) = list_of(rt.alloc(), 64, &table).ok_or("no memory")?;
        for wave in [[0, 1].as_slice(), [2].as_slice()] {
            carried(
                &rt,
                rt.alloc(),
                &settings,
                &mut image,
                &jobs,
                wave,
                &mut records,
            )?;
        }
        let want = [
            done(Status::Success, 64),
            done(Status::StagingRefused, 0),
            done(Status::Success, 64),
        ];
        expect_records(&rt, &records, &want);
        for place in 0..64 {
            expect_byte(&rt, &image, 256 + place, image.byte(place));
            expect_byte(&rt, &image, 1024 + place, image.byte(place));
        }
    }
    Ok(())
}

/// A wave with each operation: a compare that differs, a backward move, and a fill and a dualcast that meet the absent
/// page among them.
fn mixed() -> [Job; 10] {
    [
        Job::move_bytes(0, 12_288, 100),
        Job::fill(0x0807_0605_0403_0201, 12_800, 77),
        Job::compare(0, 4096, 4096),
        Job::no_op(),
        Job::compare_pattern(24_576, 0, 64),
        Job::create_delta(0, 4096, 4096, 28_672, 100),
        Job::apply_delta(8192, 30, 14_336, 256),
        Job::dualcast(8, 17_408, 21_504, 48),
        Job::move_bytes(29_696, 29_704, 512),
        Job::fill(7, 20_400, 200),
    ]
}

/// What the mixed jobs answer; the record of the no-op is blank, since a wave passes it over.
fn mixed_records() -> [Record; 10] {
    let backward = Record {
        result: 1,
        ..done(Status::Success, 512)
    };
    [
        done(Status::Success, 100),
        done(Status::Success, 77),
        Record {
            result: 1,
            ..done(Status::Success, 1000)
        },
        BLANK,
        done(Status::Success, 64),
        Record {
            result: 1,
            delta_size: 10,
            ..done(Status::Success, 4096)
        },
        done(Status::Success, 30),
        Record {
            fault: 21_504,
            ..done(Status::WriteFault, 0)
        },
        backward,
        Record {
            fault: 20_480,
            ..done(Status::WriteFault, 80)
        },
    ]
}

/// The entry of the one block that the create finds: block 125, with the bytes of the second page.
const ENTRY: [u8; 10] = [125, 0, 255, 248, 249, 250, 0, 1, 2, 3];

/// The byte that the mixed jobs leave at an address: where none of them writes, that of the opening image.
fn byte_left(opening: &Image, addr: u64) -> Option<u8> {
    match addr {
        12_288..=12_387 => Some((addr - 12_288) as u8),
        12_800..=12_876 => Some((addr % 8 + 1) as u8),
        14_344..=14_351 | 14_360..=14_367 | 14_576..=14_583 => Some(9),
        20_400..=20_479 => Some(if addr % 8 == 0 { 7 } else { 0 }),
        28_672..=28_681 => Some(ENTRY[(addr - 28_672) as usize]),
        _ => opening.byte(addr),
    }
}

/// Checks the byte at an address.
fn expect_byte(rt: &impl Abort, image: &Image, addr: u64, value: Option<u8>) {
    assert_eq!(rt; image.byte(addr), value, "byte {addr}");
}

/// Checks records.
fn expect_records(rt: &impl Abort, found: &[Record], want: &[Record]) {
    assert_eq!(rt; found, want);
}

/// Checks that an image is what the mixed jobs leave.
fn expect_done(rt: &impl Abort, image: &Image, opening: &Image) {
    for addr in 0..32_768 {
        expect_byte(rt, image, addr, byte_left(opening, addr));
    }
}

#[test]
fn every_operation_in_one_wave(rt: HostRuntime) -> Result<(), Fail> {
    let table = mixed();
    let opening = image(rt.alloc())?;
    let want = mixed_records();
    for wave in [
        [0, 1, 2, 3, 4, 5, 6, 7, 8, 9],
        [9, 8, 7, 6, 5, 4, 3, 2, 1, 0],
    ] {
        for chunk in [8, 16, 4096] {
            for workers in [1, 2, 16] {
                let settings = Settings {
                    staging: STAGING,
                    chunk,
                    workers,
                };
                let mut image = image(rt.alloc())?;
                let (jobs, mut records) = list_of(rt.alloc(), STAGING, &table).ok_or("no memory")?;
                carried(
                    &rt,
                    rt.alloc(),
                    &settings,
                    &mut image,
                    &jobs,
                    &wave,
                    &mut records,
                )?;
                assert_eq!(rt; records.as_slice(), want.as_slice(), "{settings:?}");
                expect_done(&rt, &image, &opening);
            }
        }
    }
    Ok(())
}

/// What a wave whose growths are refused needs: the image it goes over, the same untouched, the jobs, and their records
/// before.
#[derive(Drop)]
struct Scene {
    image: Image<'static>,
    untouched: Image<'static>,
    jobs: Vec<Checked>,
    records: Vec<Record>,
}

impl Scene {
    fn new(alloc: Global) -> Option<Scene> {
        let table = mixed();
        let (jobs, records) = list_of(alloc, STAGING, &table)?;
        Some(Scene {
            image: image(alloc).ok()?,
            untouched: image(alloc).ok()?,
            jobs,
            records,
        })
    }
}

/// A wave of the mixed jobs on so many workers, or want of memory with no task begun and nothing changed.
fn wave_or_refused<R: Abort + Threads + Wait + Sync>(rt: &R, alloc: Global, workers: u32) {
    let Some(scene) = Scene::new(alloc) else {
        return;
    };
    let Scene {
        mut image,
        untouched,
        jobs,
        mut records,
    } = scene;
    let settings = Settings {
        staging: STAGING,
        chunk: 4096,
        workers,
    };
    let wave = [0, 1, 2, 3, 4, 5, 6, 7, 8, 9];
    let gate = Counting::new();
    let done = carried_past(
        rt,
        alloc,
        &gate,
        &settings,
        &mut image,
        &jobs,
        &wave,
        &mut records,
    );
    match done {
        Ok(()) => {
            assert!(rt; gate.count() > 0);
            expect_records(rt, &records, &mixed_records());
            expect_done(rt, &image, &untouched);
        }
        Err(WaveError::NoMemory) => {
            assert_eq!(rt; gate.count(), 0);
            assert!(rt; records.iter().all(|record| *record == BLANK));
            for addr in 0..32_768 {
                expect_byte(rt, &image, addr, untouched.byte(addr));
            }
        }
    }
}

#[test]
fn set_up_of_carry_out_wave(rt: HostRuntime) {
    let _scene = Scene::new(rt.alloc());
}

#[test]
fn refused_carry_out_wave(rt: HostRuntime) {
    wave_or_refused(&rt, rt.alloc(), 1);
}

#[test]
fn refused_carry_out_wave_of_three(rt: HostRuntime) {
    wave_or_refused(&rt, rt.alloc(), 3);
}

/// An image of 256 pages of zeros.
fn image_of_a_mebibyte(alloc: Global) -> Result<Image<'static>, ImageError> {
    let mut image = Image::new(alloc, 256)?;
    for page in 0..256 {
        image.bring(page, &[0; 4096])?;
    }
    Ok(image)
}

/// A wave of the most tasks is carried out by two workers and by sixteen, more than one of which work at once.
#[test]
fn most_tasks_on_workers(rt: HostRuntime) -> Result<(), Fail> {
    for workers in [2, 16] {
        let settings = Settings {
            staging: 0,
            chunk: 8,
            workers,
        };
        let mut image = image_of_a_mebibyte(rt.alloc())?;
        let table = [Job::fill(0x0807_0605_0403_0201, 0, 1_048_576)];
        let (jobs, mut records) = list_of(rt.alloc(), 0, &table).ok_or("no memory")?;
        let gate = Meeting::new(&rt);
        carried_past(
            &rt,
            rt.alloc(),
            &gate,
            &settings,
            &mut image,
            &jobs,
            &[0],
            &mut records,
        )?;
        assert_eq!(rt; gate.counts(), (131_072, 0), "{workers} workers");
        expect_records(&rt, &records, &[done(Status::Success, 1_048_576)]);
        expect_byte(&rt, &image, 0, Some(1));
        expect_byte(&rt, &image, 1_048_575, Some(8));
    }
    Ok(())
}

/// A wave of jobs without a task is carried out: none enters, and the records stay.
fn expect_no_task<R: Abort + Threads + Wait + Sync>(
    rt: &R,
    alloc: Global,
    table: &[Job],
    wave: &[u32],
) -> Result<(), Fail> {
    let settings = Settings {
        staging: 0,
        chunk: 8,
        workers: 2,
    };
    let mut image = image(alloc)?;
    let (jobs, mut records) = list_of(alloc, 0, table).ok_or("no memory")?;
    let gate = Counting::new();
    carried_past(
        rt,
        alloc,
        &gate,
        &settings,
        &mut image,
        &jobs,
        wave,
        &mut records,
    )?;
    assert_eq!(rt; gate.count(), 0);
    assert!(rt; records.iter().all(|record| *record == BLANK));
    Ok(())
}

#[test]
fn waves_of_no_task(rt: HostRuntime) -> Result<(), Fail> {
    expect_no_task(&rt, rt.alloc(), &[], &[])?;
    expect_no_task(&rt, rt.alloc(), &[Job::no_op()], &[])?;
    expect_no_task(&rt, rt.alloc(), &[Job::no_op()], &[0])
}
