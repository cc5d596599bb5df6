//! Scripts as a driver's log gives them: short lines, all eight operations, batches, a few absent pages and refused
//! jobs.
ghost use Rattle.std.specs.Prelude.{◌<◌, ◌≤◌};

use crate::Size;
use crate::digests::Digest;
use crate::random::Random;
use crate::runs::answered;
use crate::texts::{push_bytes, push_field, push_number, push_pattern};
use dml_desc::encode;
use dml_types::Job;
use std::alloc::{AllocError, Global};
use std::io;
use std::sync::Wait;
use std::thread::Threads;

/// A log that is written.
#[derive(Drop)]
struct Log {
    text: Vec<u8>,
    random: Random,
    pages: u32,
    /// How long the text is to be.
    most: usize,
    ghost some: { 0 < pages },
    ghost few: { pages ≤ 4096 },
}

impl Log {
    /// The image of so many pages, of which a few are absent.
    fn begin(alloc: Global, random: Random, pages: u32, most: usize) -> Result<Log, AllocError>
        requires some { 0 < pages }
        requires few { pages ≤ 4096 }
    {
        let mut random = random;
        let mut text = Vec::with_capacity(alloc, most.saturating_add(65_536))?;
        text.extend_from_slice(b"# replayed\nimage ")?;
        push_number(&mut text, pages)?;
        for page in 0..pages {
            if random.one_in(37) {
                continue;
            }
            text.extend_from_slice(b"\npage ")?;
            push_number(&mut text, page)?;
            if random.one_in(16) {
                text.push(b' ')?;
                push_bytes(&mut text, &random.word().to_le_bytes())?;
            }
        }
        text.push(b'\n')?;
        Ok(Log {
            text,
            random,
            pages,
            most,
        })
    }

    /// Whether the text is as long as it is to be.
    fn is_full(&self) -> bool {
        self.text.len() >= self.most
    }

    fn addr(&mut self) -> u32
        ensures { result < 16777216 }
    {
        self.random.below(self.pages) * 4096 + self.random.below(4096)
    }

    fn aligned(&mut self) -> u32
        ensures { result < 16777216 }
    {
        self.addr() / 8 * 8
    }

    /// A size from 8 to 4,096, mostly a small one.
    fn size(&mut self) -> u32
        ensures { result ≤ 4096 }
    {
        let most = [8, 16, 64, 64, 256, 256, 512, 1024, 2048, 4088];
        let nth = self.random.below(10) as usize;
        most[nth] + self.random.below(9)
    }

    fn fields(&mut self, name: &[u8], fields: &[u32]) -> Result<(), AllocError> {
        self.text.extend_from_slice(name)?;
        for field in fields {
            push_field(&mut self.text, *field)?;
        }
        Ok(())
    }

    /// A check of the result now and then.
    fn check(&mut self) -> Result<(), AllocError> {
        if self.random.one_in(4) {
            self.text.extend_from_slice(b" check")?;
            let expected = self.random.below(3);
            push_field(&mut self.text, expected)?;
        }
        Ok(())
    }

    fn create(&mut self) -> Result<(), AllocError> {
        let (source, second, delta) = (self.aligned(), self.aligned(), self.addr());
        let size = self.size() / 8 * 8;
        let fields = [source, second, size, delta, size / 8 * 10 + 10];
        self.fields(b"create", &fields)?;
        self.check()
    }

    fn apply(&mut self) -> Result<(), AllocError> {
        let (delta, target, size) = (self.addr(), self.aligned(), self.size() / 8 * 8);
        let entries = self.random.below(4);
        self.fields(b"apply", &[delta, entries * 10, target, size])
    }

    /// A job by its descriptor, now and then one with a reserved field or an unknown opcode.
    fn raw(&mut self) -> Result<(), AllocError> {
        let (source, target, size) = (self.addr(), self.addr(), self.size());
        let job = Job::move_bytes(u64::from(source), u64::from(target), size).with_flags(0x0c);
        self.text.extend_from_slice(b"raw ")?;
        let mut bytes = encode(&job).unwrap_or([0; 64]);
        if self.random.one_in(8) {
            bytes[7] = 0x55;
        }
        push_bytes(&mut self.text, &bytes)
    }

    /// The line of a job, without its end.
    fn job(&mut self) -> Result<(), AllocError> {
        let (first, second, size) = (self.addr(), self.addr(), self.size());
        match self.random.below(32) {
            0..=1 => self.text.extend_from_slice(b"noop"),
            2..=11 => self.fields(b"move", &[first, second, size]),
            12..=16 => {
                self.text.extend_from_slice(b"fill")?;
                let pattern = self.random.word();
                push_pattern(&mut self.text, pattern)?;
                self.fields(b"", &[second, size])
            }
            17..=20 => {
                self.fields(b"compare", &[first, second, size])?;
                self.check()
            }
            21..=23 => {
                self.fields(b"compare-pattern", &[first, 0, size])?;
                self.check()
            }
            24..=25 => self.create(),
            26..=27 => self.apply(),
            28..=30 => {
                let third = self.random.below(self.pages) * 4096 + second % 4096;
                self.fields(b"dualcast", &[first, second, third, size])
            }
            _ => self.raw(),
        }
    }

    /// A batch of some jobs, a few of them fenced.
    fn batch(&mut self) -> Result<(), AllocError> {
        self.text.extend_from_slice(b"batch\n")?;
        let most = [1, 2, 4, 8, 16, 32, 64, 1024];
        let nth = self.random.below(8) as usize;
        let jobs = most[nth];
        for _ in 0..jobs {
            if self.random.one_in(12) {
                let (target, size) = (self.addr(), self.size());
                self.fields(b"fill", &[size, target, size])?;
                self.text.extend_from_slice(b" flags 0x01")?;
            } else {
                self.job()?;
            }
            self.text.push(b'\n')?;
        }
        self.text.extend_from_slice(b"end\n")
    }

    /// A line, or the lines of a batch.
    fn line(&mut self) -> Result<(), AllocError> {
        match self.random.below(256) {
            0 => self.batch(),
            1..=6 => {
                let (addr, len) = (self.addr(), 1 + self.random.below(64));
                self.fields(b"show", &[addr, len])?;
                self.text.extend_from_slice(b"\n")
            }
            7..=8 => self.text.extend_from_slice(b"\n"),
            9..=11 => self.text.extend_from_slice(b"  # as the trace has it\n"),
            _ => {
                self.job()?;
                self.text.extend_from_slice(b"\n")
            }
        }
    }
}

/// The text of a log.
fn log_of(alloc: Global, random: Random, pages: u32, most: usize) -> Result<Vec<u8>, AllocError>
    requires some { 0 < pages }
    requires few { pages ≤ 4096 }
{
    let mut log = Log::begin(alloc, random, pages, most)?;
    for _ in 0..1_000_000 {
        if log.is_full() {
            break;
        }
        log.line()?;
    }
    let Log { text, .. } = log;
    Ok(text)
}

/// Replays logs.
pub(crate) fn logs<T: Threads + Wait + Sync>(
    rt: &T,
    alloc: Global,
    seed: u32,
    size: Size,
) -> io::Result<Digest> {
    let mut digest = Digest::new();
    for round in 0..size.rounds {
        let pages = [64, 512, 4096];
        let pages = if size.small {
            64
        } else {
            pages[round as usize % 3]
        };
        let most = if size.small { 8192 } else { 3_800_000 };
        let text = log_of(alloc, Random::new(seed, round), pages, most)?;
        answered(rt, alloc, text.as_slice(), &mut digest)?;
    }
    Ok(digest)
}
