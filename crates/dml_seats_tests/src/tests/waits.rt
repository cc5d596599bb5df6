//! Records that wait while a round is carried out part by part.

use dml_engine::Engine;
use dml_image::Image;
use dml_portal::{LongServer, Portal, Seat};
use dml_types::{Job, Settings};
use std::alloc::Global;
use std::process::Abort;
use std::test::Fail;

/// The bytes of the first fill, of which eight are a part.
const MEBIBYTE: u32 = 1 << 20;

/// The server of a portal over a mebibyte, and its two seats, whose rings have room for eight items.
fn portal(alloc: Global) -> Option<(LongServer, Seat, Seat)> {
    let mut image = Image::new(alloc, 256).ok()?;
    for page in 0..256 {
        image.bring(page, &[0; 4096]).ok()?;
    }
    let settings = Settings {
        staging: 1 << 20,
        chunk: 65_536,
        workers: 1,
    };
    let engine = Engine::new(alloc, image, settings).ok()?;
    let Ok((server, mut seats)) = Portal::open(alloc, engine, 2, 8) else {
        return None;
    };
    let second = seats.pop()?;
    let first = seats.pop()?;
    let server = server.stay_up(8).ok()?;
    Some((server, first, second))
}

/// The bytes of a client's fill of this number: each is another one.
fn size(fill: u32) -> u32 {
    MEBIBYTE.saturating_sub(fill.saturating_mul(64))
}

/// Submits eight fills, from this number on.
fn submit_fills(rt: &impl Abort, seat: &mut Seat, from: u32) {
    for fill in 0..8 {
        let size = size(from.saturating_add(fill));
        assert!(rt; seat.try_submit(Job::fill(7, 0, size)).is_ok());
    }
}

/// The records of eight fills are there, from this number on and in their order, and no more.
fn expect_fills(rt: &impl Abort, seat: &mut Seat, from: u32) {
    for fill in 0..8 {
        let size = size(from.saturating_add(fill));
        assert_eq!(rt; seat.poll().map(|record| record.completed), Some(size));
    }
    assert!(rt; seat.poll().is_none());
}

/// Rounds of two parts, of the first client and of the second. The records of the second round wait, and come behind
/// those of the first once these are polled.
#[test]
fn records_of_parts_wait_in_order(rt: HostRuntime) -> Result<(), Fail> {
    let (mut server, mut first, mut second) = portal(rt.alloc()).ok_or("no memory")?;
    for from in [0, 8] {
        submit_fills(&rt, &mut first, from);
        submit_fills(&rt, &mut second, from);
        assert_eq!(rt; server.serve_round(&rt, rt.alloc()), Ok(16));
    }
    expect_fills(&rt, &mut first, 0);
    expect_fills(&rt, &mut second, 0);
    assert_eq!(rt; server.serve_round(&rt, rt.alloc()), Ok(0));
    expect_fills(&rt, &mut first, 8);
    expect_fills(&rt, &mut second, 8);
    Ok(())
}
