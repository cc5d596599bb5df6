//! A list of jobs on workers, and a batch in which a fence holds back what a compare has made wrong.
#![tactic(auto)]

use dml_engine::Engine;
use dml_image::Image;
use dml_types::{Job, Record, Settings};
use std::io;

/// A mebibyte of staging, tasks of 64 KiB, at most four threads.
const SETTINGS: Settings = Settings {
    staging: 1_048_576,
    chunk: 65_536,
    workers: 4,
};

const MIB: u64 = 1_048_576;

const SIZE: u32 = 1_048_576;

fn print_all(rt: &impl Print, records: &[Record]) -> io::Result<()> {
    for record in records {
        let (code, result, done) = (record.status.code(), record.result, record.completed);
        println!(rt; "status {code:02x} result {result} completed {done}")?;
    }
    Ok(())
}

fn main(rt: HostRuntime) -> anyhow::Result<()> {
    let alloc = rt.alloc();
    let mut image = Image::new(alloc, 1024)?;
    for page in 0..1023 {
        image.bring(page, &[0; 4096])?;
    }
    image.bring(1023, &[0x61; 4096])?;
    let mut engine = Engine::new(alloc, image, SETTINGS).map_err(|(_, error)| error)?;

    // The first four only read, and may go side by side; the fill waits for the first one, which reads its bytes.
    let list = [
        Job::compare(0, MIB, SIZE),
        Job::compare(MIB, 2 * MIB, SIZE),
        Job::compare(2 * MIB, 3 * MIB, SIZE),
        Job::compare_pattern(3 * MIB, 0, SIZE),
        Job::fill(0x6161_6161_6161_6161, 0, SIZE),
    ];
    print_all(&rt, &engine.submit_list(&rt, alloc, &list)?)?;

    // The compare finds another result than 0: the move with the fence (flag 0x01), and all behind it, is abandoned.
    let batch = [
        Job::compare(0, MIB, SIZE).with_check(0),
        Job::move_bytes(0, 2 * MIB, SIZE).with_flags(0x01),
        Job::no_op(),
    ];
    let (answer, records) = engine.submit_batch(&rt, alloc, &batch)?;
    print_all(&rt, &records)?;
    let (code, done) = (answer.status.code(), answer.completed);
    println!(rt; "batch status {code:02x} completed {done}")?;
    Ok(())
}
