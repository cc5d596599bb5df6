//! One job on an image of memory: a page is brought, a fill is submitted, and its completion record is printed.
#![tactic(auto)]

use dml_engine::Engine;
use dml_image::Image;
use dml_types::{Job, Settings};

/// A mebibyte of staging, tasks of 4 KiB, at most four threads.
const SETTINGS: Settings = Settings {
    staging: 1_048_576,
    chunk: 4096,
    workers: 4,
};

fn main(rt: HostRuntime) -> anyhow::Result<()> {
    let alloc = rt.alloc();
    let image = Image::new(alloc, 2)?; // two pages, both absent
    let mut engine = Engine::new(alloc, image, SETTINGS).map_err(|(_, error)| error)?;
    engine.bring(0, &[0; 4096])?;

    let record = engine.submit(&rt, alloc, Job::fill(0x0807_0605_0403_0201, 4090, 12));

    let (code, done, fault) = (record.status.code(), record.completed, record.fault);
    println!(rt; "status {code:02x} completed {done} fault {fault}")?;
    for address in 4088..4098 {
        match engine.image().byte(address) {
            Some(byte) => println!(rt; "{address}: {byte:02x}")?,
            None => println!(rt; "{address}: absent")?,
        }
    }
    Ok(())
}
