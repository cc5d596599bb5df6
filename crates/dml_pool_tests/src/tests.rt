//! Waves that workers carry out side by side, and what they answer.
ghost use Rattle.std.specs.Prelude.{◌≡◌, ◌≤◌, [], length, IfOk};
ghost use Rattle.std.specs.List.{All};
ghost use Rattle.dml_desc.specs.Checked.{operation_of};
ghost use Rattle.dml_pool.specs.Tasks.{IsRunnable, task_with, units, room_for};

use dml_arena::{Arena, Region};
use dml_desc::{Checked, check};
use dml_image::{Image, ImageError};
use dml_pool::{
    Free, Gate, Outcome, Outcomes, Piece, PoolError, Queue, Slot, Task, run_wave,
    run_wave_into_lists,
};
use dml_scan::Found;
use dml_types::{Job, Op};
use std::alloc::{AllocError, Global};
use std::mem;
use std::process::Abort;
use std::sync::Wait;
use std::sync::atomic::{AtomicU64, Ordering};
use std::test::Fail;
use std::thread::{self, Threads};
use std::time::{Clock, Duration};

/// The staging size, in bytes.
const STAGING: u32 = 4096;

/// The turns after which a gate gives up.
const TURNS: u32 = 10_000;

/// What a gate has counted once each of its sixteen tasks has entered.
const ALL_ENTERED: u64 = 0x1111_1111_1111_1111;

/// A gate that holds each of sixteen tasks until others have entered, too. It counts four bits of a word for each.
#[derive(Drop)]
struct Meeting<'c, C> {
    clock: &'c C,
    /// For each task the marks of those that it waits for.
    waits_for: [u64; 16],
    /// How often each task entered.
    entered: AtomicU64,
    given_up: AtomicU64,
}

impl<'c, C: Clock> Meeting<'c, C> {
    fn new(clock: &'c C, waits_for: [u64; 16]) -> Meeting<'c, C> {
        Meeting {
            clock,
            waits_for,
            entered: AtomicU64::new(0),
            given_up: AtomicU64::new(0),
        }
    }

    fn counts(&self) -> (u64, u64) {
        (
            self.entered.load(Ordering::SeqCst),
            self.given_up.load(Ordering::SeqCst),
        )
    }
}

impl<'c, C: Clock> Gate for Meeting<'c, C> {
    fn enter(&self, task: usize) {
        let Some(wanted) = self.waits_for.get(task) else {
            return;
        };
        self.entered.fetch_add(1 << (4 * task), Ordering::SeqCst);
        for _ in 0..TURNS {
            if self.entered.load(Ordering::SeqCst) & *wanted == *wanted {
                return;
            }
            thread::sleep(self.clock, Duration::from_millis(1));
        }
        self.given_up.fetch_add(1, Ordering::SeqCst);
    }
}

/// How many offsets, blocks or entries a job has.
fn units_of(job: &Checked) -> u32
    ensures { result ≡ units (operation_of job.now) job.now }
{
    let fields = job.job();
    match job.op() {
        Op::NoOp => 0,
        Op::CreateDelta => fields.size / 8,
        Op::ApplyDelta => fields.delta_size / 10,
        Op::Move | Op::Fill | Op::Compare | Op::ComparePattern | Op::Dualcast => fields.size,
    }
}

/// How many bytes so many of them may stage.
fn room_of(job: &Checked, count: u32) -> u64
    ensures { result ≡ room_for (operation_of job.now) count }
{
    let count = u64::from(count);
    match job.op() {
        Op::Move | Op::Dualcast => count,
        Op::CreateDelta | Op::ApplyDelta => 10 * count,
        Op::NoOp | Op::Fill | Op::Compare | Op::ComparePattern => 0,
    }
}

/// Stops the test unless this is a chunk of a job, and the region is empty and has room for it.
fn want_chunk(rt: &impl Abort, job: &Checked, from: u32, to: u32, room: &Region<'_>)
    ensures { IsRunnable (task_with job.now from to room.now) }
{
    if let Op::NoOp = job.op() {
        panic!(rt; "a no-op has no chunk");
    }
    assert!(rt; from <= to && to <= units_of(job));
    assert!(rt; room.bytes().is_empty() && room_of(job, to - from) <= u64::from(room.room()));
}

/// The task of a chunk, in a region with room for it.
fn task_of<'a>(rt: &impl Abort, job: Checked, from: u32, to: u32, room: Region<'a>) -> Task<'a>
    ensures { IsRunnable result }
{
    want_chunk(rt, &job, from, to, &room);
    Task {
        job,
        from,
        to,
        room,
    }
}

/// The tasks of chunks of jobs, their regions side by side.
fn tasks_of<'a>(
    rt: &impl Abort,
    alloc: Global,
    chunks: &[(Job, u32, u32)],
    region: Region<'a>,
) -> Result<Vec<Task<'a>>, AllocError>
    ensures runnable { IfOk result (λ tasks. All IsRunnable tasks.items) }
    ensures count { IfOk result (λ tasks. length tasks.items ≡ length chunks.now) }
{
    let mut tasks = Vec::with_capacity(alloc, chunks.len())?;
    let mut rest = region;
    for (job, from, to) in chunks {
        let job = check(job, STAGING).expect(rt, "an accepted job");
        let need = room_of(&job, to.saturating_sub(*from));
        assert!(rt; rest.bytes().is_empty() && need <= u64::from(rest.room()));
        let (room, behind) = rest.cut(need as u32);
        tasks.push_reserved(task_of(rt, job, *from, *to, room));
        rest = behind;
    }
    Ok(tasks)
}

/// Four pages: the bytes 0 to 255 over and over in pages 0 and 1, but for one byte, an apply's record in page 2, and
/// page 3 absent.
fn image(alloc: Global) -> Result<Image<'static>, ImageError> {
    let mut image = Image::new(alloc, 4)?;
    let mut bytes = [0; 4096];
    for (i, byte) in bytes.iter_mut().enumerate() {
        *byte = (i % 256) as u8;
    }
    image.bring(0, &bytes)?;
    bytes[12] = 0xff;
    image.bring(1, &bytes)?;
    let mut record = [0; 4096];
    for (i, byte) in record.iter_mut().enumerate() {
        *byte = match i {
            0 | 1 | 11 => 0,
            2..10 => 1,
            _ => 2,
        };
    }
    image.bring(2, &record)?;
    Ok(image)
}

/// Of the outcome at a place that is a scan: its task, its chunk, how it ended, and what it staged from which place on.
fn scan_at<'o>(
    outcomes: &'o [Outcome<'_>],
    place: usize,
) -> Option<(u32, u32, u32, Found, u32, &'o [u8])> {
    let outcome = outcomes.get(place)?;
    match &outcome.piece {
        Piece::Scan(piece) => Some((
            outcome.task,
            piece.from,
            piece.to,
            piece.found,
            piece.staged.start(),
            piece.staged.bytes(),
        )),
        Piece::Create(_) | Piece::Apply(_) => None,
    }
}

/// What a fill of 8 bytes gives that is not stopped.
fn filled<'o>(task: u32) -> Option<(u32, u32, u32, Found, u32, &'o [u8])> {
    Some((task, 0, 8, Found::All, 0, [].as_slice()))
}

#[test]
fn two_tasks_at_once(rt: HostRuntime) -> Result<(), Fail> {
    let image = image(rt.alloc())?;
    let chunks = [(Job::fill(1, 0, 8), 0, 8), (Job::fill(2, 8, 8), 0, 8)];
    for turn in 0..10 {
        let mut arena = Arena::new(rt.alloc(), 0)?;
        let tasks = tasks_of(&rt, rt.alloc(), &chunks, arena.open())?;
        let gate = Meeting::new(&rt, [0x11; 16]);
        let outcomes = run_wave(&rt, rt.alloc(), &image, tasks, 2, &gate)?;
        assert_eq!(rt; outcomes.len(), 2, "turn {turn}");
        for task in 0..2 {
            assert_eq!(rt;
                scan_at(&outcomes, task as usize),
                filled(task),
                "turn {turn}"
            );
        }
        assert_eq!(rt; gate.counts(), (0x11, 0), "turn {turn}");
    }
    Ok(())
}

#[test]
fn as_many_tasks_as_workers_at_once(rt: HostRuntime) -> Result<(), Fail> {
    let image = image(rt.alloc())?;
    let chunks = [(Job::fill(1, 0, 8), 0, 8); 16];
    for turn in 0..10 {
        for (workers, all) in [(4, 0x1111), (16, ALL_ENTERED)] {
            let mut arena = Arena::new(rt.alloc(), 0)?;
            let count = workers as usize;
            let tasks = tasks_of(&rt, rt.alloc(), &chunks[..count], arena.open())?;
            let gate = Meeting::new(&rt, [all; 16]);
            let outcomes = run_wave(&rt, rt.alloc(), &image, tasks, workers, &gate)?;
            assert_eq!(rt; outcomes.len(), count, "turn {turn}: {workers} workers");
            assert_eq!(rt; gate.counts(), (all, 0), "turn {turn}: {workers} workers");
        }
    }
    Ok(())
}

#[test]
fn stealing_splits_freely(rt: HostRuntime) -> Result<(), Fail> {
    let image = image(rt.alloc())?;
    let chunks = [
        (Job::fill(1, 0, 8), 0, 8),
        (Job::fill(2, 8, 8), 0, 8),
        (Job::fill(3, 16, 8), 0, 8),
        (Job::fill(4, 24, 8), 0, 8),
    ];
    let mut waits_for = [0; 16];
    waits_for[0] = 0x1110;
    for turn in 0..10 {
        let mut arena = Arena::new(rt.alloc(), 0)?;
        let tasks = tasks_of(&rt, rt.alloc(), &chunks, arena.open())?;
        let gate = Meeting::new(&rt, waits_for);
        let outcomes = run_wave(&rt, rt.alloc(), &image, tasks, 2, &gate)?;
        assert_eq!(rt; outcomes.len(), 4, "turn {turn}");
        for task in 0..4 {
            assert_eq!(rt;
                scan_at(&outcomes, task as usize),
                filled(task),
                "turn {turn}"
            );
        }
        assert_eq!(rt; gate.counts(), (0x1111, 0), "turn {turn}");
    }
    Ok(())
}

#[test]
fn no_task_and_many_tasks(rt: HostRuntime) -> Result<(), Fail> {
    let image = image(rt.alloc())?;
    let chunks = [(Job::fill(1, 0, 8), 0, 8); 300];
    for (workers, count) in [(16, 0), (1, 300), (16, 300)] {
        let mut arena = Arena::new(rt.alloc(), 0)?;
        let tasks = tasks_of(&rt, rt.alloc(), &chunks[..count], arena.open())?;
        let outcomes = run_wave(&rt, rt.alloc(), &image, tasks, workers, &Free)?;
        assert_eq!(rt; outcomes.len(), count, "{workers} workers");
        for task in 0..count {
            assert_eq!(rt;
                scan_at(&outcomes, task),
                filled(task as u32),
                "{workers} workers"
            );
        }
    }
    Ok(())
}

/// A chunk of each operation that has chunks.
#[test]
fn every_operation(rt: HostRuntime) -> Result<(), Fail> {
    let image = image(rt.alloc())?;
    let chunks = [
        (Job::move_bytes(0, 64, 24), 8, 16),
        (Job::fill(1, 12_280, 16), 0, 16),
        (Job::create_delta(0, 4096, 24, 8192, 30), 1, 3),
        (Job::compare(0, 4096, 24), 8, 24),
        (Job::apply_delta(8192, 20, 0, 32), 1, 2),
        (Job::compare_pattern(0, 0x0706_0504_0302_0100, 16), 0, 16),
        (Job::dualcast(250, 512, 4608, 16), 4, 8),
    ];
    for workers in [1, 2, 3, 16] {
        let mut arena = Arena::new(rt.alloc(), STAGING)?;
        let tasks = tasks_of(&rt, rt.alloc(), &chunks, arena.open())?;
        let outcomes = run_wave(&rt, rt.alloc(), &image, tasks, workers, &Free)?;
        assert_eq!(rt; outcomes.len(), 7, "{workers} workers");
        expect_scans(&rt, &outcomes);
        expect_deltas(&rt, &outcomes);
    }
    Ok(())
}

/// The outcomes of the mixed wave that are scans.
fn expect_scans(rt: &impl Abort, outcomes: &[Outcome<'_>]) {
    let moved = [8, 9, 10, 11, 12, 13, 14, 15];
    assert_eq!(rt;
        scan_at(outcomes, 0),
        Some((0, 8, 16, Found::All, 0, moved.as_slice()))
    );
    let stop = Found::Fault {
        done: 8,
        place: 12_288,
        write: true,
    };
    assert_eq!(rt;
        scan_at(outcomes, 1),
        Some((1, 0, 16, stop, 8, [].as_slice()))
    );
    let differs = Found::Differs { done: 4 };
    assert_eq!(rt;
        scan_at(outcomes, 3),
        Some((3, 8, 24, differs, 28, [].as_slice()))
    );
    let differs = Found::Differs { done: 8 };
    assert_eq!(rt;
        scan_at(outcomes, 5),
        Some((5, 0, 16, differs, 38, [].as_slice()))
    );
    let cast = [254, 255, 0, 1];
    assert_eq!(rt;
        scan_at(outcomes, 6),
        Some((6, 4, 8, Found::All, 38, cast.as_slice()))
    );
}

/// Those that are a create and an apply.
fn expect_deltas(rt: &impl Abort, outcomes: &[Outcome<'_>]) {
    assert!(rt; outcomes.len() == 7);
    let Piece::Create(created) = &outcomes[2].piece else {
        panic!(rt; "the outcome of a create is one");
    };
    assert_eq!(rt; (outcomes[2].task, created.from, created.to), (2, 1, 3));
    assert_eq!(rt; created.fault, None);
    assert_eq!(rt; created.staged.start(), 8);
    assert_eq!(rt;
        created.staged.bytes(),
        [1, 0, 8, 9, 10, 11, 0xff, 13, 14, 15].as_slice()
    );
    let Piece::Apply(applied) = &outcomes[4].piece else {
        panic!(rt; "the outcome of an apply is one");
    };
    assert_eq!(rt; (outcomes[4].task, applied.from, applied.to), (4, 1, 2));
    assert_eq!(rt; applied.bad, None);
    assert_eq!(rt; (applied.first, applied.last), (Some(2), Some(2)));
    assert_eq!(rt; applied.staged.start(), 28);
    assert_eq!(rt;
        applied.staged.bytes(),
        [2, 0, 2, 2, 2, 2, 2, 2, 2, 2].as_slice()
    );
}

/// The chunks of the waves whose growths are refused.
fn fills() -> [(Job, u32, u32); 40] {
    [(Job::fill(1, 0, 8), 0, 8); 40]
}

/// That fill, checked.
fn accepted_fill(rt: &impl Abort) -> Checked {
    check(&Job::fill(1, 0, 8), STAGING).expect(rt, "an accepted job")
}

/// So many times the same fill of eight bytes on the deque.
fn queued_fills<'j, 'a>(
    rt: &impl Abort,
    alloc: Global,
    job: &'j Checked,
    count: u32,
    region: Region<'a>,
) -> Result<Queue<'j, 'a>, AllocError>
    requires { region.bytes ≡ [] }
    ensures runnable { IfOk result (λ queue. All IsRunnable queue.tasks) }
{
    let mut queue = Queue::new(alloc, count)?;
    let mut rest = region;
    for _ in 0..count {
        let (room, behind) = rest.cut(0);
        want_chunk(rt, job, 0, 8, &room);
        queue.push(job, 0, 8, room);
        rest = behind;
    }
    Ok(queue)
}

/// A wave of fills over an image and an arena of its own, dropped again.
fn made_and_dropped(rt: &impl Abort, alloc: Global) -> Result<(), Fail> {
    let _image = image(alloc)?;
    let mut arena = Arena::new(alloc, 0)?;
    let _tasks = tasks_of(rt, alloc, &fills(), arena.open())?;
    Ok(())
}

/// The outcomes of the fills on so many workers, or want of memory with no task begun.
fn wave_or_refused<R: Abort + Clock + Threads + Wait + Sync>(rt: &R, alloc: Global, workers: u32)
    requires { (1 ≤ workers) × (workers ≤ 16) }
{
    let Ok(image) = image(alloc) else {
        return;
    };
    let Ok(mut arena) = Arena::new(alloc, 0) else {
        return;
    };
    let Ok(tasks) = tasks_of(rt, alloc, &fills(), arena.open()) else {
        return;
    };
    let gate = Meeting::new(rt, [0; 16]);
    match run_wave(rt, alloc, &image, tasks, workers, &gate) {
        Ok(outcomes) => {
            assert_eq!(rt; outcomes.len(), 40);
            for task in 0..40 {
                assert_eq!(rt; scan_at(&outcomes, task as usize), filled(task));
            }
            assert_eq!(rt; gate.counts(), (ALL_ENTERED, 0));
        }
        Err(PoolError::Refused) => assert_eq!(rt; gate.counts(), (0, 0)),
    }
}

#[test]
fn set_up_of_run_wave(rt: HostRuntime) -> Result<(), Fail> {
    made_and_dropped(&rt, rt.alloc())
}

#[test]
fn refused_run_wave(rt: HostRuntime) {
    wave_or_refused(&rt, rt.alloc(), 1);
}

#[test]
fn refused_run_wave_of_three(rt: HostRuntime) {
    wave_or_refused(&rt, rt.alloc(), 3);
}

#[test]
fn set_up_of_queue(rt: HostRuntime) -> Result<(), Fail> {
    let _image = image(rt.alloc())?;
    let _arena = Arena::new(rt.alloc(), 0)?;
    Ok(())
}

/// Tasks on the deque, or want of memory.
#[test]
fn refused_queue(rt: HostRuntime) -> Result<(), Fail> {
    let _image = image(rt.alloc())?;
    let mut arena = Arena::new(rt.alloc(), 0)?;
    let job = accepted_fill(&rt);
    if let Ok(queue) = queued_fills(&rt, rt.alloc(), &job, 40, arena.open()) {
        assert_eq!(rt; (queue.len(), queue.room()), (40, 40));
    }
    Ok(())
}

#[test]
fn set_up_of_run_wave_into_lists(rt: HostRuntime) -> Result<(), Fail> {
    let _image = image(rt.alloc())?;
    let mut arena = Arena::new(rt.alloc(), 0)?;
    let job = accepted_fill(&rt);
    let _queue = queued_fills(&rt, rt.alloc(), &job, 40, arena.open())?;
    Ok(())
}

/// How many lists there are, how many outcomes in all, and the sum of their tasks' numbers.
fn numbers_in(lists: &[Outcomes<'_>]) -> (usize, u64, u64) {
    let (mut count, mut sum) = (0_u64, 0_u64);
    for list in lists {
        for place in list.as_slice() {
            if let Some(outcome) = place {
                count = count.wrapping_add(1);
                sum = sum.wrapping_add(u64::from(outcome.task));
            }
        }
    }
    (lists.len(), count, sum)
}

/// The outcome of each task in some list, or want of memory with no task begun.
#[test]
fn refused_run_wave_into_lists(rt: HostRuntime) -> Result<(), Fail> {
    let image = image(rt.alloc())?;
    let mut arena = Arena::new(rt.alloc(), 0)?;
    let job = accepted_fill(&rt);
    let queue = queued_fills(&rt, rt.alloc(), &job, 40, arena.open())?;
    let gate = Meeting::new(&rt, [0; 16]);
    match run_wave_into_lists(&rt, rt.alloc(), &image, queue, 3, &gate) {
        Ok(lists) => {
            assert_eq!(rt; numbers_in(&lists), (3, 40, 780));
            assert_eq!(rt; gate.counts(), (ALL_ENTERED, 0));
        }
        Err(PoolError::Refused) => assert_eq!(rt; gate.counts(), (0, 0)),
    }
    Ok(())
}

/// A wave of the most tasks is carried out by two workers and by sixteen, whose first tasks enter at once.
#[test]
fn most_tasks_on_workers(rt: HostRuntime) -> Result<(), Fail> {
    let image = image(rt.alloc())?;
    let job = accepted_fill(&rt);
    for (workers, first) in [(2, 0x11), (16, ALL_ENTERED)] {
        let mut arena = Arena::new(rt.alloc(), 0)?;
        let queue = queued_fills(&rt, rt.alloc(), &job, 131_072, arena.open())?;
        let gate = Meeting::new(&rt, [first; 16]);
        let lists = run_wave_into_lists(&rt, rt.alloc(), &image, queue, workers, &gate)?;
        let wanted = (workers as usize, 131_072, 8_589_869_056);
        assert_eq!(rt; numbers_in(&lists), wanted, "{workers} workers");
        assert_eq!(rt; gate.counts(), (ALL_ENTERED, 0), "{workers} workers");
    }
    Ok(())
}

/// What a list of outcomes takes is known, and what the slots do: 131,072 tasks with 16 workers ask for 178 MiB.
#[test]
fn bytes_of_an_outcome(rt: HostRuntime) {
    assert_eq!(rt; mem::size_of::<Option<Outcome<'static>>>(), 88);
    assert_eq!(rt; mem::size_of::<Slot<'static, 'static>>(), 16);
}

#[test]
fn text_of_refused(rt: HostRuntime) {
    let text = format!(in rt.alloc(); "{}", PoolError::Refused);
    assert!(rt; text.is_ok_and(|text| text.as_str() == "out of memory"));
}
