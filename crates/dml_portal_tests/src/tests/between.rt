//! What happens to an image between rounds.
ghost use Rattle.std.specs.Prelude.{◌≡◌};

use super::claims::same;
use super::kinds::Kind;
use super::lent::{SETTINGS, expect_left};
use super::portals::One;
use super::stays::Stay;
use super::{done, expect_bytes};
use dml_desc::rest;
use dml_engine::{Engine, EngineOver};
use dml_image::{Image, ImageError};
use dml_pool::Free;
use dml_portal::{LongServer, ServerOver};
use dml_types::{Direction, Job, Record, Settings, Status};
use std::alloc::Global;
use std::process::Abort;
use std::sync::Wait;
use std::thread::Threads;

/// An engine over an image of two pages, of which the second is absent.
fn engine_of_two(alloc: Global) -> Option<Engine> {
    let mut image = Image::new(alloc, 2).ok()?;
    image.bring(0, &[0; 4096]).ok()?;
    let settings = Settings {
        staging: 1 << 20,
        chunk: 4096,
        workers: 4,
    };
    Engine::new(alloc, image, settings).ok()
}

/// A portal of one client over it.
fn portal_of_one(rt: &impl Abort, alloc: Global) -> One<'static> {
    let engine = engine_of_two(alloc).expect(rt, "no memory");
    One::over(alloc, engine, 4).expect(rt, "no memory")
}

/// A portal of two clients over it, whose server stays up.
fn portal_of_two(rt: &impl Abort, alloc: Global) -> Stay {
    let engine = engine_of_two(alloc).expect(rt, "no memory");
    Stay::open(alloc, engine, 4, 4).expect(rt, "no memory")
}

/// What a fill of 12 bytes writes across two pages, of which the second was full of 9.
const BYTES: [(u64, u8); 8] = [
    (4089, 0),
    (4090, 1),
    (4095, 6),
    (4096, 7),
    (4097, 8),
    (4098, 1),
    (4101, 4),
    (4102, 9),
];

/// This fill.
fn fill_across() -> Job {
    Job::fill(0x0807_0605_0403_0201, 4090, 12)
}

/// Its record where the second page is absent.
fn fault() -> Record {
    Record {
        completed: 6,
        fault: 4096,
        ..Record::refused(Status::WriteFault)
    }
}

/// What is left of it then.
fn rest_of_fill(rt: &impl Abort) -> Job {
    rest(&fill_across(), &fault()).expect(rt, "no rest")
}

/// A page that a client's job faulted on is brought between rounds, and the rest of the job goes through.
#[test]
fn fault_resumed(rt: HostRuntime) {
    let mut portal = portal_of_one(&rt, rt.alloc());
    portal.submit_all(&rt, &[fill_across()]);
    portal.expect_served(&rt, rt.alloc(), 1);
    portal.expect_polled(&rt, &[fault()]);
    same(&rt, portal.bring(1, &[9; 4096]), Ok(()));
    portal.submit_all(&rt, &[rest_of_fill(&rt)]);
    portal.expect_served(&rt, rt.alloc(), 1);
    portal.expect_polled(&rt, &[done(6)]);
    expect_bytes(&rt, portal.image(), &BYTES);
}

/// The same of a server that stays up.
#[test]
fn fault_resumed_while_up(rt: HostRuntime) {
    let mut portal = portal_of_two(&rt, rt.alloc());
    portal.first_submits(&rt, fill_across());
    portal.expect_served(&rt, rt.alloc(), 1);
    portal.expect_polled(&rt, &[fault()], &[]);
    same(&rt, portal.bring(1, &[9; 4096]), Ok(()));
    portal.first_submits(&rt, rest_of_fill(&rt));
    portal.expect_served(&rt, rt.alloc(), 1);
    portal.expect_polled(&rt, &[done(6)], &[]);
    expect_bytes(&rt, portal.image(), &BYTES);
}

/// Writes three bytes into the page that is present.
fn write_bytes(rt: &impl Abort, server: &mut ServerOver<'_, Free>)
    ensures { server.new.lanes.items ≡ server.old.lanes.items }
{
    let absent = server.image().first_absent(8, 3, Direction::Forward);
    assert!(rt; absent.is_none());
    server.write(8, &[1, 2, 3]);
}

/// The bytes that they leave once a client has moved them.
const MOVED: [(u64, u8); 5] = [(8, 1), (10, 3), (16, 1), (18, 3), (19, 0)];

/// The same at the front of the page, behind which all are 0.
const LEFT: [u8; 19] = [0, 0, 0, 0, 0, 0, 0, 0, 1, 2, 3, 0, 0, 0, 0, 0, 1, 2, 3];

/// Three bytes are written between rounds, and the next round finds them.
fn expect_written<R: Abort + Threads + Wait + Sync>(rt: &R, alloc: Global, portal: One<'_>) {
    let mut portal = portal;
    write_bytes(rt, &mut portal.server);
    portal.submit_all(rt, &[Job::move_bytes(8, 16, 3)]);
    portal.expect_served(rt, alloc, 1);
    expect_bytes(rt, portal.image(), &MOVED);
}

#[test]
fn bytes_written(rt: HostRuntime) {
    let engine = engine_of_two(rt.alloc()).expect(&rt, "no memory");
    let settings = engine.settings();
    let mut portal = One::over(rt.alloc(), engine, 4).expect(&rt, "no memory");
    same(&rt, portal.settings(), settings);
    same(
        &rt,
        portal.bring(2, &[0; 4096]),
        Err(ImageError::NoSuchPage),
    );
    expect_written(&rt, rt.alloc(), portal);
}

/// The same over memory of a kind, which is lent.
fn expect_written_over<R: Abort + Threads + Wait + Sync>(rt: &R, alloc: Global, kind: Kind) {
    let mut content = [0; 8192];
    let image = kind.image(rt, alloc, &mut content);
    let engine = EngineOver::new(alloc, image, SETTINGS).ok();
    let portal = One::over(alloc, engine.expect(rt, "no memory"), 4);
    let portal = portal.expect(rt, "no memory");
    same(rt, portal.settings(), SETTINGS);
    expect_written(rt, alloc, portal);
    expect_left(rt, &content, &LEFT);
}

/// What is written stands in the caller's memory, and so does what a client moves of it.
#[test]
fn bytes_written_over_lent_memory(rt: HostRuntime) {
    for kind in Kind::LENT {
        expect_written_over(&rt, rt.alloc(), kind);
    }
}

/// Writes them into that of a server that stays up.
fn write_bytes_while_up(rt: &impl Abort, server: &mut LongServer<Free>)
    ensures { server.new.lanes.items ≡ server.old.lanes.items }
{
    let absent = server.image().first_absent(8, 3, Direction::Forward);
    assert!(rt; absent.is_none());
    server.write(8, &[1, 2, 3]);
}

/// The same of a server that stays up.
#[test]
fn bytes_written_while_up(rt: HostRuntime) {
    let engine = engine_of_two(rt.alloc()).expect(&rt, "no memory");
    let settings = engine.settings();
    let mut portal = Stay::open(rt.alloc(), engine, 4, 4).expect(&rt, "no memory");
    same(&rt, portal.settings(), settings);
    write_bytes_while_up(&rt, &mut portal.server);
    portal.second_submits(&rt, Job::move_bytes(8, 16, 3));
    portal.expect_served(&rt, rt.alloc(), 1);
    expect_bytes(&rt, portal.image(), &MOVED);
}
