//! Portals over memory that a caller lends.

use super::claims::{holds, same};
use super::clients::{expect_polls_while_serving, expect_strangers, expect_two_seats};
use super::portals::{One, Three, Two};
use super::rounds::{
    FOUR_WORKERS, LEFT, expect_fetched_in_turn, expect_settled_in_turn, expect_three_seats,
    expect_two_fetched_in_turn, expect_worth_four_workers,
};
use super::steps::{expect_polled, serve_long, submit_all};
use super::{Row, done};
use dml_engine::EngineOver;
use dml_image::{Image, ImageError, Lent, Whole};
use dml_types::{Job, Record, Settings, Status};
use std::alloc::Global;
use std::process::Abort;
use std::sync::Wait;
use std::thread::Threads;

/// A mebibyte of staging, tasks of a page, four workers.
pub(super) const SETTINGS: Settings = Settings {
    staging: 1 << 20,
    chunk: 4096,
    workers: 4,
};

/// A client fills 12 bytes from 6 before an address on, behind which no page is, and moves 4 of them to address 8.
pub(super) fn expect_served<R: Abort + Threads + Wait + Sync>(
    rt: &R,
    alloc: Global,
    image: Image<'_>,
    end: u32,
) {
    let end = u64::from(end);
    let engine = EngineOver::new(alloc, image, SETTINGS).ok();
    let engine = engine.expect(rt, "no memory");
    let mut portal = One::over(alloc, engine, 4).expect(rt, "no memory");
    portal.submit_all(
        rt,
        &[
            Job::fill(0x0807_0605_0403_0201, end.saturating_sub(6), 12),
            Job::move_bytes(end.saturating_sub(4), 8, 4),
        ],
    );
    portal.expect_served(rt, alloc, 2);
    let fault = Record {
        completed: 6,
        fault: end,
        ..Record::refused(Status::WriteFault)
    };
    portal.expect_polled(rt, &[fault, done(4)]);
    holds(rt, portal.settle(rt, alloc).is_some());
}

/// Expects what that leaves in the caller's memory.
fn expect_content(rt: &impl Abort, content: &[u8], end: usize) {
    for (place, byte) in (8..12_usize).zip(3_u8..7) {
        same(rt, content.get(place), Some(&byte));
    }
    for (before, byte) in (1..7_usize).zip(1_u8..7) {
        same(
            rt,
            content.get(end.wrapping_sub(7).wrapping_add(before)),
            Some(&byte),
        );
    }
}

/// What a client's jobs write stands in the caller's memory, of which one page is present.
#[test]
fn portal_over_lent_memory(rt: HostRuntime) {
    let mut content = [0; 8192];
    let mut lent = Lent::new(&[true, false], &mut content);
    assert!(rt; lent.is_memory());
    expect_served(&rt, rt.alloc(), lent.take(), 4096);
    drop(lent);
    expect_content(&rt, &content, 4096);
    same(&rt, content[4096], 0);
}

/// So many pages of zeros.
pub(super) fn pages_of_zeros(rt: &impl Abort, alloc: Global, pages: u32) -> Vec<u8> {
    let bytes = 4096 * pages as usize;
    vec![in alloc; 0; bytes].expect(rt, "no memory")
}

/// The same in one piece of more pages than an image has of its own.
#[test]
fn portal_over_one_piece(rt: HostRuntime) {
    let mut content = pages_of_zeros(&rt, rt.alloc(), 4100);
    let mut whole = Whole::new(content.as_mut_slice());
    assert!(rt; whole.is_memory());
    expect_served(&rt, rt.alloc(), whole.take(), 4100 * 4096);
    drop(whole);
    expect_content(&rt, &content, 4100 * 4096);
}

/// Expects a row of a portal over an image.
pub(super) fn expect_row<R: Abort + Threads + Wait + Sync>(
    rt: &R,
    alloc: Global,
    image: Image<'_>,
    row: Row,
) {
    let engine = EngineOver::new(alloc, image, SETTINGS).ok();
    let portal = One::over(alloc, engine.expect(rt, "no memory"), row.capacity());
    row.expect(rt, alloc, portal.expect(rt, "no memory"));
}

/// The caller's bytes begin with these, and all behind them are 0.
pub(super) fn expect_left(rt: &impl Abort, content: &[u8], left: &[u8]) {
    let (front, behind) = content.split_at_checked(left.len()).expect(rt, "few bytes");
    same(rt, front, left);
    holds(rt, behind.iter().all(|byte| *byte == 0));
}

/// Expects a row over a page that is lent.
fn expect_row_over_lent_memory<R: Abort + Threads + Wait + Sync>(rt: &R, alloc: Global, row: Row) {
    let mut content = [0; 4096];
    let mut lent = Lent::new(&[true], &mut content);
    assert!(rt; lent.is_memory());
    expect_row(rt, alloc, lent.take(), row);
    drop(lent);
    expect_left(rt, &content, &row.left());
}

#[test]
fn rows_over_lent_memory(rt: HostRuntime) {
    for row in Row::ALL {
        expect_row_over_lent_memory(&rt, rt.alloc(), row);
    }
}

/// The same in one piece.
fn expect_row_over_one_piece<R: Abort + Threads + Wait + Sync>(rt: &R, alloc: Global, row: Row) {
    let mut content = [0; 4096];
    let mut whole = Whole::new(&mut content);
    assert!(rt; whole.is_memory());
    expect_row(rt, alloc, whole.take(), row);
    drop(whole);
    expect_left(rt, &content, &row.left());
}

#[test]
fn rows_over_one_piece(rt: HostRuntime) {
    for row in Row::ALL {
        expect_row_over_one_piece(&rt, rt.alloc(), row);
    }
}

/// A row of a portal of two clients over a page of zeros.
#[derive(Clone, Copy, Debug)]
pub(super) enum RowOfTwo {
    SubmitAtOnce,
    Strangers,
    FetchedInTurn,
    PollsWhileServing,
}

impl RowOfTwo {
    /// All of them.
    pub(super) const ALL: [RowOfTwo; 4] = [
        RowOfTwo::SubmitAtOnce,
        RowOfTwo::Strangers,
        RowOfTwo::FetchedInTurn,
        RowOfTwo::PollsWhileServing,
    ];

    /// The bytes that it leaves at the front of the page, behind which all are 0.
    pub(super) fn left(self) -> [u8; 257] {
        let mut left = [0; 257];
        match self {
            RowOfTwo::FetchedInTurn => left[0] = 4,
            RowOfTwo::SubmitAtOnce | RowOfTwo::Strangers | RowOfTwo::PollsWhileServing => {
                left[..64].fill(0xa5);
                left[256] = 1;
            }
        }
        left
    }

    /// Expects it of a portal.
    fn expect<R: Abort + Threads + Wait + Sync>(self, rt: &R, alloc: Global, portal: Two<'_>) {
        match self {
            RowOfTwo::SubmitAtOnce => expect_two_seats(rt, alloc, portal),
            RowOfTwo::Strangers => expect_strangers(rt, alloc, portal),
            RowOfTwo::FetchedInTurn => expect_two_fetched_in_turn(rt, alloc, portal),
            RowOfTwo::PollsWhileServing => expect_polls_while_serving(rt, alloc, portal),
        }
    }
}

/// Expects a row of two clients over an image.
pub(super) fn expect_row_of_two<R: Abort + Threads + Wait + Sync>(
    rt: &R,
    alloc: Global,
    image: Image<'_>,
    row: RowOfTwo,
) {
    let engine = EngineOver::new(alloc, image, SETTINGS).ok();
    let portal = Two::open(alloc, engine.expect(rt, "no memory"), 4);
    row.expect(rt, alloc, portal.expect(rt, "no memory"));
}

/// Expects such a row over a page that is lent.
fn expect_two_over_lent_memory<R: Abort + Threads + Wait + Sync>(
    rt: &R,
    alloc: Global,
    row: RowOfTwo,
) {
    let mut content = [0; 4096];
    let mut lent = Lent::new(&[true], &mut content);
    assert!(rt; lent.is_memory());
    expect_row_of_two(rt, alloc, lent.take(), row);
    drop(lent);
    expect_left(rt, &content, &row.left());
}

#[test]
fn rows_of_two_over_lent_memory(rt: HostRuntime) {
    for row in RowOfTwo::ALL {
        expect_two_over_lent_memory(&rt, rt.alloc(), row);
    }
}

/// The same in one piece.
fn expect_two_over_one_piece<R: Abort + Threads + Wait + Sync>(
    rt: &R,
    alloc: Global,
    row: RowOfTwo,
) {
    let mut content = [0; 4096];
    let mut whole = Whole::new(&mut content);
    assert!(rt; whole.is_memory());
    expect_row_of_two(rt, alloc, whole.take(), row);
    drop(whole);
    expect_left(rt, &content, &row.left());
}

#[test]
fn rows_of_two_over_one_piece(rt: HostRuntime) {
    for row in RowOfTwo::ALL {
        expect_two_over_one_piece(&rt, rt.alloc(), row);
    }
}

/// A row of a portal of three clients over a page of zeros. All leave the same bytes.
#[derive(Clone, Copy, Debug)]
pub(super) enum RowOfThree {
    FetchedInTurn,
    SettledInTurn,
    SubmitAtOnce,
}

impl RowOfThree {
    /// All of them.
    pub(super) const ALL: [RowOfThree; 3] = [
        RowOfThree::FetchedInTurn,
        RowOfThree::SettledInTurn,
        RowOfThree::SubmitAtOnce,
    ];

    /// The room of the clients' rings.
    fn capacity(self) -> u32 {
        match self {
            RowOfThree::FetchedInTurn | RowOfThree::SubmitAtOnce => 200,
            RowOfThree::SettledInTurn => 130,
        }
    }

    /// Expects it of a portal.
    fn expect<R: Abort + Threads + Wait + Sync>(self, rt: &R, alloc: Global, portal: Three<'_>) {
        match self {
            RowOfThree::FetchedInTurn => expect_fetched_in_turn(rt, alloc, portal),
            RowOfThree::SettledInTurn => expect_settled_in_turn(rt, alloc, portal),
            RowOfThree::SubmitAtOnce => expect_three_seats(rt, alloc, portal),
        }
    }
}

/// Expects a row of three clients over an image.
pub(super) fn expect_row_of_three<R: Abort + Threads + Wait + Sync>(
    rt: &R,
    alloc: Global,
    image: Image<'_>,
    row: RowOfThree,
) {
    let engine = EngineOver::new(alloc, image, SETTINGS).ok();
    let portal = Three::over(alloc, engine.expect(rt, "no memory"), row.capacity());
    row.expect(rt, alloc, portal.expect(rt, "no memory"));
}

/// Expects such a row over a page that is lent.
fn expect_three_over_lent_memory<R: Abort + Threads + Wait + Sync>(
    rt: &R,
    alloc: Global,
    row: RowOfThree,
) {
    let mut content = [0; 4096];
    let mut lent = Lent::new(&[true], &mut content);
    assert!(rt; lent.is_memory());
    expect_row_of_three(rt, alloc, lent.take(), row);
    drop(lent);
    expect_left(rt, &content, &LEFT);
}

#[test]
fn three_clients_over_lent_memory(rt: HostRuntime) {
    for row in RowOfThree::ALL {
        expect_three_over_lent_memory(&rt, rt.alloc(), row);
    }
}

/// The same in one piece.
fn expect_three_over_one_piece<R: Abort + Threads + Wait + Sync>(
    rt: &R,
    alloc: Global,
    row: RowOfThree,
) {
    let mut content = [0; 4096];
    let mut whole = Whole::new(&mut content);
    assert!(rt; whole.is_memory());
    expect_row_of_three(rt, alloc, whole.take(), row);
    drop(whole);
    expect_left(rt, &content, &LEFT);
}

#[test]
fn three_clients_over_one_piece(rt: HostRuntime) {
    for row in RowOfThree::ALL {
        expect_three_over_one_piece(&rt, rt.alloc(), row);
    }
}

/// A round that is worth four workers, over an image of two mebibytes of zeros.
pub(super) fn expect_four_workers<R: Abort + Threads + Wait + Sync>(
    rt: &R,
    alloc: Global,
    image: Image<'_>,
) {
    let engine = EngineOver::new(alloc, image, FOUR_WORKERS).ok();
    let portal = One::over(alloc, engine.expect(rt, "no memory"), 4);
    expect_worth_four_workers(rt, alloc, portal.expect(rt, "no memory"));
}

#[test]
fn four_workers_over_lent_memory(rt: HostRuntime) {
    let present = [true; 512];
    let mut content = pages_of_zeros(&rt, rt.alloc(), 512);
    let mut lent = Lent::new(&present, content.as_mut_slice());
    assert!(rt; lent.is_memory());
    expect_four_workers(&rt, rt.alloc(), lent.take());
    drop(lent);
    expect_left(&rt, &content, &[]);
}

/// The same in one piece.
#[test]
fn four_workers_over_one_piece(rt: HostRuntime) {
    let mut content = pages_of_zeros(&rt, rt.alloc(), 512);
    let mut whole = Whole::new(content.as_mut_slice());
    assert!(rt; whole.is_memory());
    expect_four_workers(&rt, rt.alloc(), whole.take());
    drop(whole);
    expect_left(&rt, &content, &[]);
}

/// A server that stays up over an image that a caller lends, whose second page is absent, brings no such page, and a
/// client's job faults on it.
pub(super) fn expect_stays_up<R: Abort + Threads + Wait + Sync>(
    rt: &R,
    alloc: Global,
    image: Image<'_>,
    refused: ImageError,
) {
    let engine = EngineOver::new(alloc, image, SETTINGS).ok();
    let portal = One::over(alloc, engine.expect(rt, "no memory"), 4).expect(rt, "no memory");
    let One { server, mut seat } = portal;
    let mut server = server.stay_up(4).ok().expect(rt, "no memory");
    same(rt, server.bring(1, &[0; 4096]), Err(refused));
    submit_all(rt, &mut seat, &[Job::fill(7, 4092, 8)]);
    same(rt, serve_long(rt, alloc, &mut server), Ok(1));
    let fault = Record {
        completed: 4,
        fault: 4096,
        ..Record::refused(Status::WriteFault)
    };
    expect_polled(rt, &mut seat, &[fault]);
    same(rt, server.give_up().log.list.len(), 1);
}

/// What a client's job writes stands in the caller's memory.
#[test]
fn stays_up_over_lent_memory(rt: HostRuntime) {
    let mut content = [0; 8192];
    let mut lent = Lent::new(&[true, false], &mut content);
    assert!(rt; lent.is_memory());
    expect_stays_up(&rt, rt.alloc(), lent.take(), ImageError::NoMemory);
    drop(lent);
    same(&rt, (content[4092], content[4096]), (7, 0));
}

/// The same in one piece, which ends where the job faults.
#[test]
fn stays_up_over_one_piece(rt: HostRuntime) {
    let mut content = [0; 4096];
    let mut whole = Whole::new(&mut content);
    assert!(rt; whole.is_memory());
    expect_stays_up(&rt, rt.alloc(), whole.take(), ImageError::NoSuchPage);
    drop(whole);
    same(&rt, content[4092], 7);
}
