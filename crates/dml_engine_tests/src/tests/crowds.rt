//! As many tasks as workers, all of them in the gate at once.

use super::claims::same;
use super::{USUAL, answer, engine_with};
use dml_engine::Engine;
use dml_pool::Gate;
use dml_types::{Job, Settings, Status};
use std::alloc::Global;
use std::process::Abort;
use std::sync::Wait;
use std::sync::atomic::{AtomicU64, Ordering};
use std::thread::{self, Threads};
use std::time::{Clock, Duration};

/// The turns after which a gate gives up.
const TURNS: u32 = 10_000;

/// The most workers, and as many tasks.
const ALL: u32 = 16;

/// How many tasks entered, and how many were let go before all had.
#[derive(Drop)]
struct Counts {
    entered: AtomicU64,
    given_up: AtomicU64,
}

impl Counts {
    fn new() -> Counts {
        Counts {
            entered: AtomicU64::new(0),
            given_up: AtomicU64::new(0),
        }
    }

    fn both(&self) -> (u64, u64) {
        (
            self.entered.load(Ordering::SeqCst),
            self.given_up.load(Ordering::SeqCst),
        )
    }
}

/// A gate that holds each task until all have entered. Once one was let go before, it holds no other.
#[derive(Drop)]
struct Crowd<'c, C> {
    clock: &'c C,
    counts: &'c Counts,
}

impl<'c, C: Clock> Gate for Crowd<'c, C> {
    fn enter(&self, _: usize) {
        self.counts.entered.fetch_add(1, Ordering::SeqCst);
        for _ in 0..TURNS {
            let (entered, given_up) = self.counts.both();
            if entered >= u64::from(ALL) || given_up > 0 {
                return;
            }
            thread::sleep(self.clock, Duration::from_millis(1));
        }
        self.counts.given_up.fetch_add(1, Ordering::SeqCst);
    }
}

/// An engine with one present page and all workers, whose jobs are cut in chunks of 8 bytes.
fn crowded_engine<'c, C: Clock>(alloc: Global, gate: Crowd<'c, C>) -> Option<Engine<Crowd<'c, C>>> {
    let settings = Settings {
        chunk: 8,
        workers: ALL,
        ..USUAL
    };
    Some(engine_with(alloc, 1, settings)?.with_gate(gate))
}

/// One call of the engine.
#[derive(Clone, Copy, Debug)]
enum Call {
    Submit,
    List,
    Batch,
}

/// Makes the call with sixteen tasks: one job's, or one of each of sixteen jobs that do not conflict.
fn expect_call<R: Abort + Threads + Wait + Sync, G: Gate + Sync>(
    rt: &R,
    alloc: Global,
    engine: &mut Engine<G>,
    call: Call,
) {
    let jobs = [Job::compare(0, 8, 8); ALL as usize];
    let want = [answer(Status::Success, 0, 8, 0); ALL as usize];
    match call {
        Call::Submit => {
            let record = engine.submit(rt, alloc, Job::fill(1, 0, 8 * ALL));
            same(rt, record, answer(Status::Success, 0, 8 * ALL, 0));
        }
        Call::List => {
            let records = engine.submit_list(rt, alloc, &jobs).expect(rt, "refused");
            same(rt, records.as_slice(), want.as_slice());
        }
        Call::Batch => {
            let (batch, records) = engine.submit_batch(rt, alloc, &jobs).expect(rt, "refused");
            same(rt, (batch.status, batch.completed), (Status::Success, ALL));
            same(rt, records.as_slice(), want.as_slice());
        }
    }
}

/// None of sixteen tasks goes on before all are held, each by a worker of its own.
#[test]
fn as_many_tasks_as_workers_of_an_engine(rt: HostRuntime) {
    for turn in 0..10 {
        for call in [Call::Submit, Call::List, Call::Batch] {
            let counts = Counts::new();
            let gate = Crowd {
                clock: &rt,
                counts: &counts,
            };
            let mut engine = crowded_engine(rt.alloc(), gate).expect(&rt, "no memory");
            expect_call(&rt, rt.alloc(), &mut engine, call);
            assert_eq!(rt; counts.both(), (u64::from(ALL), 0), "turn {turn}: {call:?}");
        }
    }
}
