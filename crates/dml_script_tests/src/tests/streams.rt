//! Readers and writers that give, take and fail as told.

use super::{BATCH, BATCH_ANSWER, FILL, FILL_ANSWER, expect_same, run_from, run_into};
use dml_script::{RunFault, Watched};
use std::alloc::Global;
use std::io;
use std::io::{ErrorKind, Read, Write};
use std::process::Abort;
use std::sync::Wait;
use std::thread::Threads;

/// Gives bytes, one a call, and fails at one call.
#[derive(Drop)]
struct Steps<'a> {
    bytes: &'a [u8],
    step: usize,
    calls: usize,
    fails_at: usize,
}

impl<'a> Steps<'a> {
    fn new(text: &'a str, fails_at: usize) -> Steps<'a> {
        Steps {
            bytes: text.as_bytes(),
            step: 1,
            calls: 0,
            fails_at,
        }
    }
}

impl Read for Steps<'_> {
    fn read(&mut self, buf: &mut [u8]) -> io::Result<usize> {
        let call = self.calls;
        self.calls = self.calls.saturating_add(1);
        if call == self.fails_at {
            return Err(io::Error::from(ErrorKind::Interrupted));
        }
        let count = self.step.min(buf.len()).min(self.bytes.len());
        let (now, after) = self.bytes.split_at(count);
        buf[..count].copy_from_slice(now);
        self.bytes = after;
        Ok(count)
    }
}

/// Runs a script from a reader that gives one byte a call and fails at one: what it answers, whether the reader
/// failed, its calls, and what is written.
fn expect_steps<T: Abort + Threads + Wait + Sync>(
    rt: &T,
    alloc: Global,
    fails_at: usize,
    expected: (Result<(), RunFault>, bool, usize, &[u8]),
) {
    let (outcome, reader, written) = run_from(rt, alloc, Steps::new(FILL, fails_at));
    let failed = reader.failed();
    let calls = reader.into_inner().calls;
    let found = (outcome, failed, calls, written.as_slice());
    expect_same(rt, &fails_at, &found, &expected);
}

#[test]
fn one_byte_a_call(rt: HostRuntime) {
    let expected = (Ok(()), false, FILL.len() + 1, FILL_ANSWER.as_bytes());
    expect_steps(&rt, rt.alloc(), usize::MAX, expected);
}

#[test]
fn a_reader_fails_at_each_call(rt: HostRuntime) {
    for fails_at in 0..FILL.len() + 1 {
        let expected = (Err(RunFault::Read), true, fails_at + 1, b"".as_slice());
        expect_steps(&rt, rt.alloc(), fails_at, expected);
    }
}

/// Gives one line feed a call, for ever.
#[derive(Drop)]
struct Endless {
    calls: u64,
}

impl Read for Endless {
    fn read(&mut self, buf: &mut [u8]) -> io::Result<usize> {
        self.calls = self.calls.saturating_add(1);
        if buf.is_empty() {
            return Ok(0);
        }
        buf[0] = b'\n';
        Ok(1)
    }
}

#[test]
fn a_reader_without_end(rt: HostRuntime) {
    let (outcome, reader, written) = run_from(&rt, rt.alloc(), Endless { calls: 0 });
    let failed = reader.failed();
    let found = (outcome, failed, reader.into_inner().calls, written.len());
    let expected = (Err(RunFault::TooLong), false, 4_194_305, 0);
    expect_same(&rt, &"the limit", &found, &expected);
}

/// Room for so many bytes: then one call fails, or takes none, and there is room again. It takes at most seven bytes
/// a call.
#[derive(Drop)]
pub struct Paper {
    bytes: [u8; 256],
    pub len: usize,
    room: usize,
    fails: bool,
}

impl Paper {
    pub(super) fn new(room: usize, fails: bool) -> Paper {
        Paper {
            bytes: [0; 256],
            len: 0,
            room,
            fails,
        }
    }

    /// Whether these bytes are written, and no other.
    pub(super) fn holds(&self, bytes: &[u8]) -> bool {
        self.bytes.get(..self.len) == Some(bytes)
    }
}

impl Write for Paper {
    fn write(&mut self, buf: &[u8]) -> io::Result<usize> {
        let most = self.room.min(256);
        if self.len >= most {
            self.room = 256;
            return if self.fails {
                Err(io::Error::from(ErrorKind::Other))
            } else {
                Ok(0)
            };
        }
        let count = buf.len().min(7).min(most - self.len);
        self.bytes[self.len..self.len + count].copy_from_slice(&buf[..count]);
        self.len += count;
        Ok(count)
    }

    fn flush(&mut self) -> io::Result<()> {
        Ok(())
    }
}

/// Runs a script into a paper with room for this text, which is written: what it answers, and whether the writer
/// failed.
fn expect_paper<T: Abort + Threads + Wait + Sync>(
    rt: &T,
    alloc: Global,
    script: &str,
    text: &[u8],
    fails: bool,
    expected: (Result<(), RunFault>, bool),
) {
    let room = text.len();
    let (outcome, writer) = run_into(rt, alloc, script.as_bytes(), Paper::new(room, fails));
    expect_same(rt, &room, &(outcome, writer.failed()), &expected);
    assert!(rt; writer.into_inner().holds(text), "at {room}");
}

#[test]
fn a_writer_fails_at_each_byte(rt: HostRuntime) {
    for (script, answer) in [(FILL, FILL_ANSWER), (BATCH, BATCH_ANSWER)] {
        let answer = answer.as_bytes();
        for fails in [true, false] {
            for room in 0..answer.len() {
                let fault = (Err(RunFault::Write), true);
                expect_paper(&rt, rt.alloc(), script, &answer[..room], fails, fault);
            }
            expect_paper(&rt, rt.alloc(), script, answer, fails, (Ok(()), false));
        }
    }
}

/// Takes all bytes, and fails at the first flush.
#[derive(Drop)]
struct Stuck {
    flushes: u32,
}

impl Write for Stuck {
    fn write(&mut self, buf: &[u8]) -> io::Result<usize> {
        Ok(buf.len())
    }

    fn flush(&mut self) -> io::Result<()> {
        self.flushes = self.flushes.saturating_add(1);
        if self.flushes == 1 {
            return Err(io::Error::from(ErrorKind::Other));
        }
        Ok(())
    }
}

#[test]
fn a_flush_that_fails(rt: HostRuntime) {
    let (outcome, writer) = run_into(&rt, rt.alloc(), FILL.as_bytes(), Stuck { flushes: 0 });
    let (failed, flushed) = (writer.failed(), writer.flushed());
    let found = (outcome, failed, flushed, writer.into_inner().flushes);
    let expected = (Err(RunFault::Write), true, false, 1);
    expect_same(&rt, &"the flush", &found, &expected);
}

/// Each call is passed on once, also after one that failed, and the failure is kept.
#[test]
fn watched_calls(rt: HostRuntime) {
    expect_watched_reads(&rt);
    for fails in [true, false] {
        expect_watched_write_of_none(&rt, fails);
        expect_watched_writes(&rt, fails);
    }
    expect_watched_flushes(&rt);
}

fn expect_watched_reads(rt: &impl Abort) {
    let mut reader = Watched::new(Steps::new("ab", 0));
    let mut buf = [0; 2];
    let first = (reader.read(&mut buf).is_err(), reader.failed());
    let second = (reader.read(&mut buf).ok(), reader.failed());
    let found = (first, second, reader.into_inner().calls);
    expect_same(rt, &"reads", &found, &((true, true), (Some(1), true), 2));
}

fn expect_watched_write_of_none(rt: &impl Abort, fails: bool) {
    let mut writer = Watched::new(Paper::new(0, fails));
    let found = (writer.write(b"").is_err(), writer.failed());
    expect_same(rt, &fails, &found, &(fails, fails));
}

fn expect_watched_writes(rt: &impl Abort, fails: bool) {
    let mut writer = Watched::new(Paper::new(0, fails));
    let first = (
        writer.write(b"ab").is_err(),
        writer.failed(),
        writer.flushed(),
    );
    let second = (writer.write(b"ab").ok(), writer.flushed());
    let third = (writer.flush().is_ok(), writer.flushed());
    let found = (first, second, third);
    let expected = ((fails, true, true), (Some(2), false), (true, true));
    expect_same(rt, &fails, &found, &expected);
    assert!(rt; writer.into_inner().holds(b"ab"));
}

fn expect_watched_flushes(rt: &impl Abort) {
    let mut writer = Watched::new(Stuck { flushes: 0 });
    let first = (writer.flush().is_err(), writer.failed());
    let second = writer.flush().is_ok();
    let found = (first, second, writer.into_inner().flushes);
    expect_same(rt, &"flushes", &found, &((true, true), true, 2));
}
