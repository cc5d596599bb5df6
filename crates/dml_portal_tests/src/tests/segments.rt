//! Portals over memory in segments.

use super::Row;
use super::claims::{holds, same};
use super::lent::{
    RowOfThree, RowOfTwo, expect_four_workers, expect_left, expect_row, expect_row_of_three,
    expect_row_of_two, expect_served, expect_stays_up, pages_of_zeros,
};
use super::rounds::LEFT;
use dml_image::{Image, ImageError, Segment, are_segments};
use std::alloc::Global;
use std::process::Abort;
use std::sync::Wait;
use std::thread::Threads;

/// A memory of two segments that begin at these pages.
pub(super) fn memory<'a>(
    rt: &impl Abort,
    alloc: Global,
    low: (u32, &'a mut [u8]),
    high: (u32, &'a mut [u8]),
) -> Image<'a> {
    let mut list = Vec::with_capacity(alloc, 2).expect(rt, "no memory");
    holds(rt, list.push(Segment::new(low.0, low.1)).is_ok());
    holds(rt, list.push(Segment::new(high.0, high.1)).is_ok());
    assert!(rt; are_segments(&list));
    Image::over_segments(list)
}

/// Expects the bytes at the front of a page from address 8 on, and its last ones.
fn expect_page(rt: &impl Abort, page: &[u8; 4096], front: &[u8], back: &[u8]) {
    holds(rt, page[8..].starts_with(front));
    holds(rt, page.ends_with(back));
}

/// What a client moves to address 8, and what it fills up to an end.
const MOVED: [u8; 5] = [3, 4, 5, 6, 0];

const FILLED: [u8; 7] = [0, 1, 2, 3, 4, 5, 6];

/// What a client's jobs write stands in the caller's memory, up to the end of the second of two segments that touch.
fn expect_touching<R: Abort + Threads + Wait + Sync>(rt: &R, alloc: Global) {
    let (mut low, mut high) = ([0; 4096], [0; 4096]);
    let image = memory(rt, alloc, (0, &mut low), (1, &mut high));
    expect_served(rt, alloc, image, 8192);
    expect_page(rt, &low, &MOVED, &[0; 8]);
    expect_page(rt, &high, &[0; 8], &FILLED);
}

/// The same up to a hole behind the first.
fn expect_hole<R: Abort + Threads + Wait + Sync>(rt: &R, alloc: Global) {
    let (mut low, mut far) = ([0; 4096], [0; 4096]);
    let image = memory(rt, alloc, (0, &mut low), (1 << 24, &mut far));
    expect_served(rt, alloc, image, 4096);
    expect_page(rt, &low, &MOVED, &FILLED);
    holds(rt, far == [0; 4096]);
}

#[test]
fn portal_over_segments(rt: HostRuntime) {
    expect_touching(&rt, rt.alloc());
    expect_hole(&rt, rt.alloc());
}

/// Expects a row over two segments.
fn expect_row_over_segments<R: Abort + Threads + Wait + Sync>(rt: &R, alloc: Global, row: Row) {
    let (mut low, mut high) = ([0; 4096], [0; 4096]);
    let image = memory(rt, alloc, (0, &mut low), (3, &mut high));
    expect_row(rt, alloc, image, row);
    expect_left(rt, &low, &row.left());
    expect_left(rt, &high, &[]);
}

#[test]
fn rows_over_segments(rt: HostRuntime) {
    for row in Row::ALL {
        expect_row_over_segments(&rt, rt.alloc(), row);
    }
}

/// Expects a row of two clients over two segments.
fn expect_two_over_segments<R: Abort + Threads + Wait + Sync>(
    rt: &R,
    alloc: Global,
    row: RowOfTwo,
) {
    let (mut low, mut high) = ([0; 4096], [0; 4096]);
    let image = memory(rt, alloc, (0, &mut low), (3, &mut high));
    expect_row_of_two(rt, alloc, image, row);
    expect_left(rt, &low, &row.left());
    expect_left(rt, &high, &[]);
}

#[test]
fn rows_of_two_over_segments(rt: HostRuntime) {
    for row in RowOfTwo::ALL {
        expect_two_over_segments(&rt, rt.alloc(), row);
    }
}

/// Expects a row of three clients over two segments.
fn expect_three_over_segments<R: Abort + Threads + Wait + Sync>(
    rt: &R,
    alloc: Global,
    row: RowOfThree,
) {
    let (mut low, mut high) = ([0; 4096], [0; 4096]);
    let image = memory(rt, alloc, (0, &mut low), (3, &mut high));
    expect_row_of_three(rt, alloc, image, row);
    expect_left(rt, &low, &LEFT);
    expect_left(rt, &high, &[]);
}

#[test]
fn three_clients_over_segments(rt: HostRuntime) {
    for row in RowOfThree::ALL {
        expect_three_over_segments(&rt, rt.alloc(), row);
    }
}

/// A round that is worth four workers, over two segments of a mebibyte.
#[test]
fn four_workers_over_segments(rt: HostRuntime) {
    let mut low = pages_of_zeros(&rt, rt.alloc(), 256);
    let mut high = pages_of_zeros(&rt, rt.alloc(), 256);
    let (front, back) = (low.as_mut_slice(), high.as_mut_slice());
    let image = memory(&rt, rt.alloc(), (0, front), (256, back));
    expect_four_workers(&rt, rt.alloc(), image);
    expect_left(&rt, &low, &[]);
    expect_left(&rt, &high, &[]);
}

/// A server that stays up over segments brings no page into a hole, and a client's job faults there.
#[test]
fn stays_up_over_segments(rt: HostRuntime) {
    let (mut low, mut high) = ([0; 4096], [0; 4096]);
    let image = memory(&rt, rt.alloc(), (0, &mut low), (2, &mut high));
    expect_stays_up(&rt, rt.alloc(), image, ImageError::NoMemory);
    same(&rt, (low[4091], low[4092], high[0]), (0, 7, 0));
}
