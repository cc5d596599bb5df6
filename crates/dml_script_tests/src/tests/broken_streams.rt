//! Readers and writers that fail, over more scripts: a batch, one with all kinds of lines, and one with a fault.

use super::{BATCH, BATCH_ANSWER, expect_same, run_from, run_into};
use dml_script::RunFault;
use std::alloc::Global;
use std::io;
use std::io::{ErrorKind, Read, Write};
use std::process::Abort;
use std::sync::Wait;
use std::thread::Threads;

/// A script with all kinds of lines.
const ALL: &str =
    "image 4\npage 0\npage 3\npoke 0 01\n# none\nnoop\nmove 0 8 8\nfill 1 16 8\ncompare 0 8 8\ncompare-pattern 16 1 8\n\
     create 0 16 8 64 10 check 0\napply 64 0 32 8\ndualcast 0 128 12416 4\n\
     raw 00000000000000000000000000000000000000000000000000000000000000000000000000000000000000000000000000000000000000\
     000000000000000000\nbatch\nnoop\nend\nshow 8 1\n";

const ALL_ANSWER: &str = "job 0 status 01 result 0 completed 0 fault 0 delta 0\n\
     job 1 status 01 result 0 completed 8 fault 0 delta 0\n\
     job 2 status 01 result 0 completed 8 fault 0 delta 0\n\
     job 3 status 01 result 0 completed 8 fault 0 delta 0\n\
     job 4 status 01 result 0 completed 8 fault 0 delta 0\n\
     job 5 status 02 result 0 completed 8 fault 0 delta 0\n\
     job 6 status 01 result 0 completed 0 fault 0 delta 0\n\
     job 7 status 01 result 0 completed 4 fault 0 delta 0\n\
     job 8 status 01 result 0 completed 0 fault 0 delta 0\n\
     job 9 status 01 result 0 completed 0 fault 0 delta 0\n\
     batch status 01 completed 1\n\
     show 8 01\n";

/// Gives its bytes, at most so many a call, and fails at one call; then it goes on.
#[derive(Drop)]
struct Failing<'a> {
    bytes: &'a [u8],
    step: usize,
    calls: usize,
    fails_at: usize,
}

impl<'a> Failing<'a> {
    fn new(text: &'a str, step: usize, fails_at: usize) -> Failing<'a> {
        Failing {
            bytes: text.as_bytes(),
            step,
            calls: 0,
            fails_at,
        }
    }
}

impl Read for Failing<'_> {
    fn read(&mut self, buf: &mut [u8]) -> io::Result<usize> {
        let call = self.calls;
        self.calls = self.calls.saturating_add(1);
        if call == self.fails_at {
            return Err(io::Error::from(ErrorKind::Other));
        }
        let count = self.step.min(buf.len()).min(self.bytes.len());
        let (now, after) = self.bytes.split_at(count);
        buf[..count].copy_from_slice(now);
        self.bytes = after;
        Ok(count)
    }
}

/// Runs a script from such a reader: what it answers, whether the reader failed, and what is written.
fn expect_pieces<T: Abort + Threads + Wait + Sync>(
    rt: &T,
    alloc: Global,
    reader: Failing<'_>,
    expected: (Result<(), RunFault>, bool, &[u8]),
) {
    let place = (reader.step, reader.fails_at);
    let (outcome, reader, written) = run_from(rt, alloc, reader);
    let found = (outcome, reader.failed(), written.as_slice());
    expect_same(rt, &place, &found, &expected);
}

/// Runs a script from such a reader: it answers by want of its input, and nothing is written.
fn expect_read_fault<T: Abort + Threads + Wait + Sync>(
    rt: &T,
    alloc: Global,
    text: &str,
    step: usize,
    fails_at: usize,
) {
    let reader = Failing::new(text, step, fails_at);
    let expected = (Err(RunFault::Read), true, b"".as_slice());
    expect_pieces(rt, alloc, reader, expected);
}

#[test]
fn pieces_of_any_length(rt: HostRuntime) {
    for (script, answer) in [(BATCH, BATCH_ANSWER), (ALL, ALL_ANSWER)] {
        for step in [1, 2, 3, 7, 64, 4096] {
            let reader = Failing::new(script, step, usize::MAX);
            let expected = (Ok(()), false, answer.as_bytes());
            expect_pieces(&rt, rt.alloc(), reader, expected);
        }
    }
}

#[test]
fn a_reader_fails_between_pieces(rt: HostRuntime) {
    for script in [BATCH, ALL] {
        for step in [1, 7] {
            for fails_at in 0..script.len() / step + 1 {
                expect_read_fault(&rt, rt.alloc(), script, step, fails_at);
            }
        }
    }
}

/// Whatever is wrong with the lines that came, the reader's failure is the answer.
#[test]
fn a_reader_fails_behind_a_fault(rt: HostRuntime) {
    for script in ["", "noop\n", "image 1\nfrob\n", "image 1\nbatch\n"] {
        expect_read_fault(&rt, rt.alloc(), script, 1, script.len());
    }
}

/// Fills each buffer with one letter, for ever.
#[derive(Drop)]
struct Flood {
    letter: u8,
}

impl Read for Flood {
    fn read(&mut self, buf: &mut [u8]) -> io::Result<usize> {
        for place in buf.iter_mut() {
            *place = self.letter;
        }
        Ok(buf.len())
    }
}

/// What comes without end is too long, whatever its lines say: skipped lines, a comment, a line that is no text.
#[test]
fn a_flood(rt: HostRuntime) {
    for letter in [b'\n', b'#', 0xff] {
        let (outcome, reader, written) = run_from(&rt, rt.alloc(), Flood { letter });
        let found = (outcome, reader.failed(), written.len());
        expect_same(&rt, &letter, &found, &(Err(RunFault::TooLong), false, 0));
    }
}

/// Takes at most so many bytes in all, and then fails, or takes none.
#[derive(Drop)]
struct Sheet {
    bytes: [u8; 1024],
    len: usize,
    room: usize,
    fails: bool,
}

impl Write for Sheet {
    fn write(&mut self, buf: &[u8]) -> io::Result<usize> {
        let most = self.room.min(1024);
        if self.len >= most {
            return if self.fails {
                Err(io::Error::from(ErrorKind::Other))
            } else {
                Ok(0)
            };
        }
        let count = buf.len().min(most - self.len);
        self.bytes[self.len..self.len + count].copy_from_slice(&buf[..count]);
        self.len += count;
        Ok(count)
    }

    fn flush(&mut self) -> io::Result<()> {
        Ok(())
    }
}

/// Runs the script with all kinds of lines into a sheet with so much room: what was taken is a front of the answer.
fn expect_front<T: Abort + Threads + Wait + Sync>(rt: &T, alloc: Global, room: usize, fails: bool) {
    let sheet = Sheet {
        bytes: [0; 1024],
        len: 0,
        room,
        fails,
    };
    let (outcome, writer) = run_into(rt, alloc, ALL.as_bytes(), sheet);
    let failed = writer.failed();
    let sheet = writer.into_inner();
    let found = (outcome, failed, sheet.bytes.get(..sheet.len));
    let front = ALL_ANSWER.as_bytes().get(..room);
    expect_same(rt, &room, &found, &(Err(RunFault::Write), true, front));
}

/// What was taken is a front of the answer, as long as there was room.
#[test]
fn a_writer_ends_at_each_byte(rt: HostRuntime) {
    for fails in [true, false] {
        for room in 0..ALL_ANSWER.len() {
            expect_front(&rt, rt.alloc(), room, fails);
        }
    }
}
