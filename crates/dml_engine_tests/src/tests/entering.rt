//! A gate that was given is entered once for each task of the accepted jobs that are not abandoned, with however many
//! workers.

use super::claims::same;
use super::engine_with;
use dml_desc::check;
use dml_engine::{Engine, SubmitError};
use dml_levels::task_count;
use dml_pool::Gate;
use dml_types::{Job, Settings};
use std::alloc::Global;
use std::process::Abort;
use std::sync::Wait;
use std::sync::atomic::{AtomicU64, Ordering};
use std::thread::Threads;

/// The most tasks of a wave here.
const MOST: usize = 1024;

/// How often a task of each number entered, and how often one of a greater number.
#[derive(Drop)]
struct Counts {
    numbers: Vec<AtomicU64>,
    others: AtomicU64,
}

impl Counts {
    fn new(alloc: Global) -> Option<Counts> {
        let mut numbers = Vec::with_capacity(alloc, MOST).ok()?;
        for _ in 0..MOST {
            numbers.push(AtomicU64::new(0)).ok()?;
        }
        Some(Counts {
            numbers,
            others: AtomicU64::new(0),
        })
    }

    /// How often tasks of a number entered, or of all numbers that are too great.
    fn of(&self, number: usize) -> &AtomicU64 {
        self.numbers.get(number).unwrap_or(&self.others)
    }
}

/// A gate that counts who enters.
#[derive(Drop)]
struct Counting<'c> {
    counts: &'c Counts,
}

impl<'c> Gate for Counting<'c> {
    fn enter(&self, task: usize) {
        self.counts.of(task).fetch_add(1, Ordering::SeqCst);
    }
}

/// The call that carries out the jobs of a row.
#[derive(Clone, Copy, Debug)]
enum Call {
    List,
    Into,
    Batch,
    Single,
}

/// Jobs over two pages of which the first is present, in chunks of 8 bytes, and how many tasks their waves have.
#[derive(Clone, Copy)]
struct Row<'a> {
    name: &'a str,
    jobs: &'a [Job],
    waves: &'a [usize],
}

/// Carries out at most 1,024 jobs with their records in a list of its own.
fn make_into<R: Threads + Wait + Sync, G: Gate + Sync>(
    rt: &R,
    alloc: Global,
    engine: &mut Engine<G>,
    jobs: &[Job],
) -> Result<(), SubmitError> {
    if jobs.len() > MOST {
        return Err(SubmitError::TooMany);
    }
    let Ok(mut records) = Vec::with_capacity(alloc, jobs.len()) else {
        return Err(SubmitError::NoMemory);
    };
    engine.submit_into(rt, alloc, jobs, &mut records);
    Ok(())
}

/// Makes the call; each job by itself where it is `Single`.
fn make<R: Threads + Wait + Sync, G: Gate + Sync>(
    rt: &R,
    alloc: Global,
    engine: &mut Engine<G>,
    call: Call,
    jobs: &[Job],
) -> Result<(), SubmitError> {
    match call {
        Call::List => {
            engine.submit_list(rt, alloc, jobs)?;
        }
        Call::Into => make_into(rt, alloc, engine, jobs)?,
        Call::Batch => {
            engine.submit_batch(rt, alloc, jobs)?;
        }
        Call::Single => {
            for job in jobs {
                engine.submit(rt, alloc, *job);
            }
        }
    }
    Ok(())
}

/// Each wave's tasks entered once, by their numbers from 0 on.
fn expect_entered(rt: &impl Abort, row: &Row, counts: &Counts, workers: u32, call: Call) {
    for number in 0..=MOST {
        let mut want = 0_u64;
        for size in row.waves {
            want = want.saturating_add(u64::from(number < *size));
        }
        let entered = counts.of(number).load(Ordering::SeqCst);
        assert_eq!(rt;
            entered,
            want,
            "{}: {call:?} with {workers} workers: task {number}",
            row.name
        );
    }
}

/// Expects what a row's jobs have enter at one number of workers.
fn expect_with<R: Abort + Threads + Wait + Sync>(
    rt: &R,
    alloc: Global,
    row: &Row,
    call: Call,
    workers: u32,
) {
    let settings = Settings {
        staging: 128,
        chunk: 8,
        workers,
    };
    let counts = Counts::new(alloc).expect(rt, "no memory");
    let engine = engine_with(alloc, 2, settings).expect(rt, "no memory");
    let mut engine = engine.with_gate(Counting { counts: &counts });
    make(rt, alloc, &mut engine, call, row.jobs).expect(rt, row.name);
    expect_entered(rt, row, &counts, workers, call);
}

/// Expects the same of rows at one worker, at two and at sixteen, by each of these calls.
fn expect<R: Abort + Threads + Wait + Sync>(rt: &R, alloc: Global, rows: &[Row], calls: &[Call]) {
    for row in rows {
        for call in calls {
            for workers in [1, 2, 16] {
                expect_with(rt, alloc, row, *call, workers);
            }
        }
    }
}

/// A job by itself, as a list, as a batch or submitted alone.
#[test]
fn tasks_of_a_job_enter_once(rt: HostRuntime) {
    let rows = [
        Row {
            name: "no task",
            jobs: &[Job::no_op()],
            waves: &[],
        },
        Row {
            name: "no byte",
            jobs: &[Job::fill(1, 0, 0)],
            waves: &[],
        },
        Row {
            name: "one task",
            jobs: &[Job::fill(1, 0, 8)],
            waves: &[1],
        },
        Row {
            name: "a short last task",
            jobs: &[Job::move_bytes(0, 512, 20)],
            waves: &[3],
        },
        Row {
            name: "an absent page",
            jobs: &[Job::fill(1, 4088, 24)],
            waves: &[3],
        },
        Row {
            name: "many tasks",
            jobs: &[Job::compare(0, 0, 4096)],
            waves: &[512],
        },
        Row {
            name: "refused",
            jobs: &[Job::fill(1, 0, 8).with_flags(0x10)],
            waves: &[],
        },
    ];
    expect(
        &rt,
        rt.alloc(),
        &rows,
        &[Call::List, Call::Into, Call::Batch, Call::Single],
    );
}

/// One job of each operation, which do not conflict: 3, 2, 2, 1, 3, 3, 2 and 0 tasks. Those of the apply are its
/// entries.
fn every_operation() -> [Job; 8] {
    [
        Job::move_bytes(0, 512, 20),
        Job::fill(1, 600, 9),
        Job::compare(0, 8, 16),
        Job::compare_pattern(16, 0, 8),
        Job::create_delta(0, 64, 24, 1024, 30),
        Job::apply_delta(128, 30, 2048, 64),
        Job::dualcast(0, 3072, 7168, 16),
        Job::no_op(),
    ]
}

#[test]
fn tasks_of_every_operation_enter_once(rt: HostRuntime) {
    let jobs = every_operation();
    let rows = [
        Row {
            name: "no job",
            jobs: &jobs[..0],
            waves: &[],
        },
        Row {
            name: "every operation",
            jobs: &jobs,
            waves: &[16],
        },
    ];
    let calls = [Call::List, Call::Into, Call::Batch];
    expect(&rt, rt.alloc(), &rows, &calls);
}

/// Jobs without a fence, whose waves are the same as a list and as a batch. Two moves of 100 bytes do not fit into the
/// staging of one wave.
#[test]
fn tasks_of_jobs_enter_once(rt: HostRuntime) {
    let rows = [
        Row {
            name: "waves of one task",
            jobs: &[Job::fill(1, 0, 8), Job::fill(2, 0, 8), Job::fill(3, 0, 8)],
            waves: &[1, 1, 1],
        },
        Row {
            name: "as many as fit",
            jobs: &[Job::move_bytes(0, 512, 100), Job::move_bytes(0, 1024, 100)],
            waves: &[13, 13],
        },
        Row {
            name: "a refused job",
            jobs: &[Job::fill(1, 0, 16), Job::fill(2, 0, 8).with_flags(0x10)],
            waves: &[2],
        },
        Row {
            name: "no byte beside a task",
            jobs: &[Job::fill(1, 0, 0), Job::fill(2, 8, 8)],
            waves: &[1],
        },
        Row {
            name: "no byte in the first of two waves",
            jobs: &[Job::fill(1, 0, 8), Job::fill(2, 0, 0), Job::fill(3, 0, 16)],
            waves: &[1, 2],
        },
        Row {
            name: "1,024 jobs",
            jobs: &[Job::compare(0, 8, 8); MOST],
            waves: &[MOST],
        },
    ];
    let calls = [Call::List, Call::Into, Call::Batch];
    expect(&rt, rt.alloc(), &rows, &calls);
}

/// Batches with fences: what is abandoned enters nowhere.
#[test]
fn tasks_about_a_fence_enter_once(rt: HostRuntime) {
    let fenced = Job::fill(2, 64, 16).with_flags(1);
    let stranger = Job {
        opcode: 0x10,
        ..fenced
    };
    let last = Job::fill(3, 128, 8);
    let rows = [
        Row {
            name: "a first fence",
            jobs: &[fenced],
            waves: &[2],
        },
        Row {
            name: "one task before",
            jobs: &[Job::fill(1, 0, 8), fenced, last],
            waves: &[1, 3],
        },
        Row {
            name: "a refused job at the fence",
            jobs: &[Job::fill(1, 0, 16), stranger, last],
            waves: &[2, 1],
        },
        Row {
            name: "abandoned behind a fault",
            jobs: &[Job::fill(1, 4096, 8), fenced, last],
            waves: &[1],
        },
        Row {
            name: "many tasks on both sides",
            jobs: &[
                Job::compare(0, 8, 256),
                Job::compare(0, 8, 160).with_flags(1),
                last,
            ],
            waves: &[32, 20, 1],
        },
        Row {
            name: "abandoned behind a second fence",
            jobs: &[last, fenced, Job::fill(1, 4096, 24), fenced, last],
            waves: &[1, 5],
        },
    ];
    expect(&rt, rt.alloc(), &rows, &[Call::Batch]);
}

/// In a list a fence is refused, and holds nothing back.
#[test]
fn tasks_beside_a_refused_fence_enter_once(rt: HostRuntime) {
    let rows = [Row {
        name: "a fence in a list",
        jobs: &[
            Job::fill(1, 4096, 8),
            Job::fill(2, 64, 16).with_flags(1),
            Job::fill(3, 128, 8),
        ],
        waves: &[2],
    }];
    expect(&rt, rt.alloc(), &rows, &[Call::List, Call::Into]);
}

/// How many tasks a job has in chunks of 32 bytes, and in chunks of 4,096; none where it is refused.
fn tasks_of(job: &Job) -> Option<(u32, u32)> {
    let checked = check(job, 4096).ok()?;
    Some((task_count(&checked, 32), task_count(&checked, 4096)))
}

/// How many all of them have.
fn tasks_in_all(rt: &impl Abort, jobs: &[Job]) -> (u64, u64) {
    let mut all = (0_u64, 0_u64);
    for job in jobs {
        let (small, large) = tasks_of(job).expect(rt, "a job was refused");
        all.0 = all.0.saturating_add(u64::from(small));
        all.1 = all.1.saturating_add(u64::from(large));
    }
    all
}

/// So many tasks entered with so many workers.
fn same_with(rt: &impl Abort, workers: u32, entered: Option<u64>, want: Option<u64>) {
    assert_eq!(rt; entered, want, "{workers} workers");
}

/// How often a list's tasks enter in all, in chunks of so many bytes.
fn entered_in_all<R: Threads + Wait + Sync>(
    rt: &R,
    alloc: Global,
    jobs: &[Job],
    chunk: u32,
    workers: u32,
) -> Option<u64> {
    let settings = Settings {
        staging: 4096,
        chunk,
        workers,
    };
    let counts = Counts::new(alloc)?;
    let engine = engine_with(alloc, 2, settings)?;
    let mut engine = engine.with_gate(Counting { counts: &counts });
    engine.submit_list(rt, alloc, jobs).ok()?;
    let mut all = counts.others.load(Ordering::SeqCst);
    for number in &counts.numbers {
        all = all.saturating_add(number.load(Ordering::SeqCst));
    }
    Some(all)
}

/// In larger chunks there are as many tasks as the jobs are cut into.
#[test]
fn as_many_enter_as_there_are_chunks(rt: HostRuntime) {
    let jobs = [
        Job::compare(0, 0, 4096),
        Job::fill(1, 4000, 200),
        Job::move_bytes(0, 2048, 1000),
        Job::create_delta(0, 64, 1024, 3000, 80),
        Job::no_op(),
        Job::dualcast(0, 3072, 7168, 33),
    ];
    let want = tasks_in_all(&rt, &jobs);
    same(&rt, want, (128 + 7 + 32 + 32 + 2, 5));
    for workers in [1, 2, 16] {
        let small = entered_in_all(&rt, rt.alloc(), &jobs, 32, workers);
        same_with(&rt, workers, small, Some(want.0));
        let large = entered_in_all(&rt, rt.alloc(), &jobs, 4096, workers);
        same_with(&rt, workers, large, Some(want.1));
    }
}
