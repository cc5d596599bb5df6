//! Runs of scripts over readers and writers. The expected answers are the format's. Tables of scripts are in
//! `tests/rows` at the top, where the program is run on them.

mod broken_streams;
mod growths;
mod refusals;
mod streams;
mod texts;

use dml_script::{RunFault, Watched, run_script};
use dml_types::Settings;
use std::alloc::Global;
use std::fmt::Debug;
use std::io::{Read, Write};
use std::process::Abort;
use std::sync::Wait;
use std::thread::Threads;

const DEFAULTS: Settings = Settings {
    staging: 1_048_576,
    chunk: 4096,
    workers: 4,
};

const FILL: &str = "image 2\npage 0\nfill 0x0807060504030201 4090 12\nshow 4088 10\n";

const FILL_ANSWER: &str =
    "job 0 status 83 result 0 completed 6 fault 4096 delta 0\nshow 4088 0000010203040506----\n";

/// A batch with a bad opcode.
const BATCH: &str = "image 1\npage 0\nbatch\nfill 1 0 8\n\
     raw 00000000000000100000000000000000000000000000000000000000000000000000000000000000000000000000000000000000000000\
     000000000000000000\nfill 2 8 8\nend\n";

const BATCH_ANSWER: &str = "job 0 status 01 result 0 completed 8 fault 0 delta 0\n\
     job 1 status 10 result 0 completed 0 fault 0 delta 0\n\
     job 2 status 01 result 0 completed 8 fault 0 delta 0\n\
     batch status 05 completed 3\n";

/// Compares what is found at a place of a table with what is expected there.
fn expect_same<V: PartialEq + Debug>(rt: &impl Abort, place: &impl Debug, found: &V, expected: &V) {
    assert_eq!(rt; found, expected, "at {place:?}");
}

/// What a run from this reader answers, the reader as it leaves it, and what it writes.
fn run_from<T: Threads + Wait + Sync, R: Read>(
    rt: &T,
    alloc: Global,
    reader: R,
) -> (Result<(), RunFault>, Watched<R>, Vec<u8>) {
    let (outcome, reader, writer) = run_between(rt, alloc, reader, Vec::new(alloc));
    (outcome, reader, writer.into_inner())
}

/// What a script's run into this writer answers, and the writer as it leaves it.
fn run_into<T: Threads + Wait + Sync, W: Write>(
    rt: &T,
    alloc: Global,
    script: &[u8],
    writer: W,
) -> (Result<(), RunFault>, Watched<W>) {
    let (outcome, _, writer) = run_between(rt, alloc, script, writer);
    (outcome, writer)
}

/// What a run between these answers, and both as it leaves them.
fn run_between<T: Threads + Wait + Sync, R: Read, W: Write>(
    rt: &T,
    alloc: Global,
    reader: R,
    writer: W,
) -> (Result<(), RunFault>, Watched<R>, Watched<W>) {
    let mut reader = Watched::new(reader);
    let mut writer = Watched::new(writer);
    let outcome = run_script(rt, alloc, &mut reader, &mut writer, DEFAULTS);
    (outcome, reader, writer)
}
