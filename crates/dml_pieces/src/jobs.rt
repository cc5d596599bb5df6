//! Random jobs over some pages: of each operation, with ranges that begin and end near the edges of pages, and some
//! that break a rule.
ghost use Rattle.std.specs.Prelude.{◌<◌, ◌^◌};

use crate::random::Random;
use dml_types::{Job, Op, Record};

/// A delta record that a create has written: where it stands, its size, and the transfer size.
#[derive(Clone, Copy)]
struct Delta {
    addr: u64,
    size: u32,
    of: u32,
}

/// A source of jobs over pages from address 0 on.
#[derive(Drop)]
pub(crate) struct Jobs {
    random: Random,
    pages: u32,
    last: Option<Delta>,
}

impl Jobs {
    /// Jobs over so many pages.
    pub(crate) fn new(random: Random, pages: u32) -> Jobs {
        Jobs {
            random,
            pages,
            last: None,
        }
    }

    /// The next job.
    pub(crate) fn next_job(&mut self) -> Job {
        let job = self.plain();
        match self.random.below(60) {
            0 => job.with_flags(self.random.below(512)),
            1 => Job {
                opcode: self.random.below(256) as u8,
                ..job
            },
            2 => Job {
                size: self.random.below(1 << 21),
                ..job
            },
            3 => Job {
                target: u64::MAX - u64::from(self.random.below(4096)),
                ..job
            },
            4..=8 => job.with_check(self.random.below(3) as u8),
            9 => Job {
                delta_size: self.random.below(1 << 20),
                ..job
            },
            _ => job,
        }
    }

    /// Keeps where a create has written a delta record, so that a later job applies it.
    pub(crate) fn keep(&mut self, job: &Job, answer: &Record) {
        if job.op() == Some(Op::CreateDelta) && answer.delta_size > 0 {
            self.last = Some(Delta {
                addr: job.extra,
                size: answer.delta_size,
                of: job.size,
            });
        }
    }

    /// A job that mostly breaks no rule.
    fn plain(&mut self) -> Job {
        let (source, target, size) = (self.address(), self.address(), self.size());
        match self.random.below(16) {
            0 => Job::no_op(),
            1 | 2 => Job::fill(self.random.word(), target, size),
            3 | 4 => Job::compare(source, target, size),
            5 => Job::compare_pattern(source, 0x0101_0101_0101_0101, size),
            6 | 7 => self.create(),
            8 | 9 => self.apply(),
            10 => self.dualcast(),
            11 => Job::move_bytes(source, self.near(source), size),
            _ => Job::move_bytes(source, target, size),
        }
    }

    /// An address in some page, or in one of the two behind the last.
    fn address(&mut self) -> u64
        ensures { result < 2 ^ 45 }
    {
        let page = u64::from(self.random.below(self.pages.saturating_add(2).max(1)));
        let offset = match self.random.below(4) {
            0 => 0,
            1 => 4096 - u64::from(self.random.below(64)),
            2 => u64::from(self.random.below(64)),
            _ => u64::from(self.random.below(4096)),
        };
        4096 * page + offset
    }

    /// An address less than 64 bytes from another, in either direction.
    fn near(&mut self, addr: u64) -> u64 {
        let off = u64::from(self.random.below(64));
        if self.random.one_in(2) {
            addr.saturating_add(off)
        } else {
            addr.saturating_sub(off)
        }
    }

    /// An address that is a multiple of 8, but for one in 30.
    fn aligned(&mut self) -> u64
        ensures { result < 2 ^ 45 }
    {
        let addr = self.address();
        if self.random.one_in(30) {
            addr
        } else {
            addr - addr % 8
        }
    }

    /// A transfer size: a few bytes, about a page, or up to five pages.
    fn size(&mut self) -> u32 {
        match self.random.below(4) {
            0 => self.random.below(80),
            1 => 4080 + self.random.below(32),
            _ => self.random.below(20_480),
        }
    }

    /// A create, whose record mostly has room for all entries.
    fn create(&mut self) -> Job {
        let (source, other, record) = (self.aligned(), self.aligned(), self.address());
        let size = 8 * self.random.below(1024);
        let entries = if self.random.one_in(3) {
            1 + self.random.below(16)
        } else {
            1 + size / 8
        };
        Job::create_delta(source, other, size, record, 10 * entries)
    }

    /// An apply: mostly of the record that a create has written, else of any bytes.
    fn apply(&mut self) -> Job {
        let target = self.aligned();
        match self.last {
            Some(delta) if !self.random.one_in(6) => {
                Job::apply_delta(delta.addr, delta.size, target, delta.of)
            }
            _ => {
                let (record, entries) = (self.address(), self.random.below(20));
                Job::apply_delta(record, 10 * entries, target, 8 * self.random.below(1024))
            }
        }
    }

    /// A dualcast, whose destinations mostly have the same low bits.
    fn dualcast(&mut self) -> Job {
        let (source, target, size) = (self.address(), self.address(), self.size());
        let other = self.address();
        let second = if self.random.one_in(20) {
            other
        } else {
            other - other % 4096 + target % 4096
        };
        Job::dualcast(source, target, second, size)
    }
}
