//! Gates that hold the workers of an engine.

use super::claims::same;
use super::{USUAL, answer, engine_with, expect_made};
use dml_engine::{Engine, SubmitError};
use dml_pool::Gate;
use dml_types::{Job, Record, Settings, Status};
use std::alloc::Global;
use std::process::Abort;
use std::sync::Wait;
use std::sync::atomic::{AtomicU64, Ordering};
use std::thread::{self, Threads};
use std::time::{Clock, Duration};

/// The turns after which a gate gives up.
const TURNS: u32 = 10_000;

/// What is counted for each of three tasks: a byte of a word.
const MARKS: [u64; 3] = [0x1, 0x100, 0x1_0000];

/// Each of three tasks once.
const ALL_ONCE: u64 = 0x1_0101;

/// How often each task entered, and how often a task was let go before all had.
#[derive(Drop)]
struct Counts {
    entered: AtomicU64,
    given_up: AtomicU64,
}

impl Counts {
    fn new() -> Counts {
        Counts {
            entered: AtomicU64::new(0),
            given_up: AtomicU64::new(0),
        }
    }

    /// A gate that counts here.
    fn gate<'c, C>(&'c self, clock: &'c C, wanted: u64) -> Meeting<'c, C> {
        Meeting {
            clock,
            counts: self,
            wanted,
        }
    }

    fn both(&self) -> (u64, u64) {
        (
            self.entered.load(Ordering::SeqCst),
            self.given_up.load(Ordering::SeqCst),
        )
    }
}

/// A gate that holds each task until those of `wanted` have entered.
#[derive(Drop)]
struct Meeting<'c, C> {
    clock: &'c C,
    counts: &'c Counts,
    wanted: u64,
}

impl<'c, C: Clock> Gate for Meeting<'c, C> {
    fn enter(&self, task: usize) {
        let Some(mark) = MARKS.get(task) else {
            return;
        };
        self.counts.entered.fetch_add(*mark, Ordering::SeqCst);
        for _ in 0..TURNS {
            if self.counts.entered.load(Ordering::SeqCst) & self.wanted == self.wanted {
                return;
            }
            thread::sleep(self.clock, Duration::from_millis(1));
        }
        self.counts.given_up.fetch_add(1, Ordering::SeqCst);
    }
}

/// Two fills, and a move of what the first wrote.
pub(super) fn small_jobs() -> [Job; 3] {
    [
        Job::fill(0x0101_0101_0101_0101, 0, 16),
        Job::fill(0x0202_0202_0202_0202, 64, 8),
        Job::move_bytes(0, 128, 16),
    ]
}

/// An engine with one present page whose jobs are cut in chunks of 8 bytes.
fn engine_of_eight(alloc: Global, workers: u32) -> Option<Engine> {
    let settings = Settings {
        chunk: 8,
        workers,
        ..USUAL
    };
    engine_with(alloc, 1, settings)
}

/// The same with a gate.
fn gated_engine<'c, C: Clock>(
    alloc: Global,
    workers: u32,
    gate: Meeting<'c, C>,
) -> Option<Engine<Meeting<'c, C>>> {
    Some(engine_of_eight(alloc, workers)?.with_gate(gate))
}

/// The records of two fills.
fn filled() -> [Record; 2] {
    [
        answer(Status::Success, 0, 16, 0),
        answer(Status::Success, 0, 8, 0),
    ]
}

/// One call of an engine with a gate that holds three tasks until all have entered.
#[derive(Clone, Copy, Debug)]
enum Call {
    Submit,
    Into,
    List,
    Batch,
}

/// Carries out two fills with their records in a list of its own.
fn expect_into<R: Abort + Threads + Wait + Sync, G: Gate + Sync>(
    rt: &R,
    alloc: Global,
    engine: &mut Engine<G>,
    jobs: &[Job; 2],
) {
    let Ok(mut records) = Vec::with_capacity(alloc, 2) else {
        rt.panic("no memory");
    };
    engine.submit_into(rt, alloc, jobs, &mut records);
    same(rt, records.as_slice(), filled().as_slice());
}

/// Makes the call with jobs of three tasks, and expects its records.
fn expect_call<R: Abort + Threads + Wait + Sync, G: Gate + Sync>(
    rt: &R,
    alloc: Global,
    engine: &mut Engine<G>,
    call: Call,
) {
    let jobs = [Job::fill(1, 0, 16), Job::fill(2, 64, 8)];
    match call {
        Call::Submit => {
            let filled = engine.submit(rt, alloc, Job::fill(1, 0, 24));
            same(rt, filled, answer(Status::Success, 0, 24, 0));
        }
        Call::Into => expect_into(rt, alloc, engine, &jobs),
        Call::List => {
            let records = engine.submit_list(rt, alloc, &jobs).expect(rt, "refused");
            same(rt, records.as_slice(), filled().as_slice());
        }
        Call::Batch => {
            let (batch, records) = engine.submit_batch(rt, alloc, &jobs).expect(rt, "refused");
            same(rt, (batch.status, batch.completed), (Status::Success, 2));
            same(rt, records.as_slice(), filled().as_slice());
        }
    }
}

#[test]
fn every_submit_runs_at_once(rt: HostRuntime) {
    for turn in 0..10 {
        for call in [Call::Submit, Call::Into, Call::List, Call::Batch] {
            let counts = Counts::new();
            let gate = counts.gate(&rt, ALL_ONCE);
            let mut engine = gated_engine(rt.alloc(), 3, gate).expect(&rt, "no memory");
            expect_call(&rt, rt.alloc(), &mut engine, call);
            assert_eq!(rt; counts.both(), (ALL_ONCE, 0), "turn {turn}: {call:?}");
        }
    }
}

/// Expects these counts behind a turn.
fn expect_counts(rt: &impl Abort, counts: &Counts, want: (u64, u64), turn: u32) {
    assert_eq!(rt; counts.both(), want, "turn {turn}");
}

/// Submits a job, and two fills at and behind a fence.
fn expect_fenced<R: Abort + Threads + Wait + Sync, G: Gate + Sync>(
    rt: &R,
    alloc: Global,
    engine: &mut Engine<G>,
) {
    let jobs = [
        Job::no_op(),
        Job::fill(1, 0, 16).with_flags(1),
        Job::fill(2, 64, 8),
    ];
    let (batch, records) = engine.submit_batch(rt, alloc, &jobs).expect(rt, "refused");
    same(rt, (batch.status, batch.completed), (Status::Success, 3));
    let [first, second] = filled();
    let want = [answer(Status::Success, 0, 0, 0), first, second];
    same(rt, records.as_slice(), want.as_slice());
}

/// The jobs at and behind a fence enter at once, as those of a list do.
#[test]
fn fenced_jobs_enter_at_once(rt: HostRuntime) {
    for turn in 0..10 {
        let counts = Counts::new();
        let gate = counts.gate(&rt, ALL_ONCE);
        let mut engine = gated_engine(rt.alloc(), 3, gate).expect(&rt, "no memory");
        expect_fenced(&rt, rt.alloc(), &mut engine);
        expect_counts(&rt, &counts, (ALL_ONCE, 0), turn);
    }
}

/// Submits two fills of a task each.
fn expect_two_tasks<R: Abort + Threads + Wait + Sync, G: Gate + Sync>(
    rt: &R,
    alloc: Global,
    engine: &mut Engine<G>,
) {
    let jobs = [Job::fill(1, 0, 8), Job::fill(2, 8, 8)];
    let records = engine.submit_list(rt, alloc, &jobs).expect(rt, "refused");
    let want = [answer(Status::Success, 0, 8, 0); 2];
    same(rt, records.as_slice(), want.as_slice());
}

#[test]
fn two_tasks_at_once(rt: HostRuntime) {
    for turn in 0..10 {
        let counts = Counts::new();
        let gate = counts.gate(&rt, 0x101);
        let mut engine = gated_engine(rt.alloc(), 2, gate).expect(&rt, "no memory");
        expect_two_tasks(&rt, rt.alloc(), &mut engine);
        expect_counts(&rt, &counts, (0x101, 0), turn);
    }
}

/// What a gate that holds no task counts of a list that two workers carry out.
fn entered<R: Abort + Clock + Threads + Wait + Sync>(
    rt: &R,
    alloc: Global,
    jobs: &[Job],
) -> (u64, u64) {
    let counts = Counts::new();
    let gate = counts.gate(rt, 0);
    let mut engine = gated_engine(alloc, 2, gate).expect(rt, "no memory");
    engine.submit_list(rt, alloc, jobs).expect(rt, "refused");
    counts.both()
}

/// The jobs of a list of two levels enter the gate wave by wave, the first of each wave as its task 0.
#[test]
fn waves_enter_one_after_another(rt: HostRuntime) {
    let entered = entered(&rt, rt.alloc(), &small_jobs());
    same(&rt, entered, (0x1_0202, 0));
}

/// A gate that was given sees each wave of a list, also one of a single task.
#[test]
fn waves_of_one_task_enter(rt: HostRuntime) {
    let jobs = [Job::fill(1, 0, 8), Job::fill(2, 0, 8)];
    let entered = entered(&rt, rt.alloc(), &jobs);
    same(&rt, entered, (0x2, 0));
}

/// Makes the engine and drops it.
fn made_and_dropped(rt: &impl Abort, alloc: Global) {
    expect_made(rt, engine_of_eight(alloc, 2), 0, 0);
}

/// Submits two waves, of one task and of three, as a list or as a batch whose second job is fenced.
fn two_waves<R: Threads + Wait + Sync, G: Gate + Sync>(
    rt: &R,
    alloc: Global,
    engine: &mut Engine<G>,
    fenced: bool,
) -> Result<Vec<Record>, SubmitError> {
    let jobs = [
        Job::fill(1, 0, 8),
        Job::fill(2, 0, 24).with_flags(u32::from(fenced)),
    ];
    if fenced {
        let (_, records) = engine.submit_batch(rt, alloc, &jobs)?;
        Ok(records)
    } else {
        engine.submit_list(rt, alloc, &jobs)
    }
}

/// The waves were carried out, or the list of records found no memory.
fn expect_two_waves<R: Abort + Threads + Wait + Sync, G: Gate + Sync>(
    rt: &R,
    alloc: Global,
    engine: &mut Engine<G>,
    fenced: bool,
) {
    match two_waves(rt, alloc, engine, fenced) {
        Ok(records) => {
            let last = answer(Status::Success, 0, 24, 0);
            same(rt, records.last().copied(), Some(last));
            same(rt, engine.image().byte(0), Some(2));
        }
        Err(error) => same(rt, error, SubmitError::NoMemory),
    }
}

/// Once memory is refused to a wave, neither it nor a later one goes to the workers: tasks enter of both waves, of the
/// first alone, or of none.
fn expect_waves<R: Abort + Clock + Threads + Wait + Sync>(rt: &R, alloc: Global, fenced: bool) {
    let counts = Counts::new();
    let gate = counts.gate(rt, 0);
    let mut engine = gated_engine(alloc, 2, gate).expect(rt, "no memory");
    expect_two_waves(rt, alloc, &mut engine, fenced);
    let (entered, _) = counts.both();
    assert!(rt; [0, 0x1, 0x1_0102].contains(&entered), "{entered:x}");
}

#[test]
fn set_up_of_waves(rt: HostRuntime) {
    made_and_dropped(&rt, rt.alloc());
}

#[test]
fn refused_waves(rt: HostRuntime) {
    expect_waves(&rt, rt.alloc(), false);
}

#[test]
fn refused_waves_of_a_batch(rt: HostRuntime) {
    expect_waves(&rt, rt.alloc(), true);
}
