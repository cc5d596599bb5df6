//! Readers and writers that keep whether a call failed.

ghost use Rattle.std.specs.Prelude.{◌≡◌, ◌&&◌, ◌||◌, false, true, is_err, is_ok};
ghost use Rattle.std.specs.Io.{ReadsAtMost, WritesAtMost};
ghost use Rattle.std.specs.Io.KnownBytes.{ReadConsumes, WriteAppends, Keeps};
ghost use Rattle.dml_script.specs.Watching.{inner_of, has_failed, is_flushed, takes_none, write_fails};

use std::io;
use std::io::{Read, Write};

/// A reader or writer that keeps whether a call failed: whether one that it passed on answered an error, or a
/// write of at least one byte took none. It also keeps whether all bytes that were written are flushed.
#[derive(Debug, Drop)]
pub struct Watched<T> {
    inner: T,
    has_failed: bool,
    is_flushed: bool,
}

impl<T> Watched<T> {
    /// Watches `inner`, of which no call has failed yet, and to which nothing was written.
    pub fn new(inner: T) -> Watched<T>
        ensures inner { inner_of result ≡ inner }
        ensures failed { has_failed result ≡ false }
        ensures flushed { is_flushed result ≡ true }
    {
        Watched {
            inner,
            has_failed: false,
            is_flushed: true,
        }
    }

    /// Whether a call failed since it is watched.
    pub fn failed(&self) -> bool
        ensures { result ≡ has_failed self.now }
    {
        self.has_failed
    }

    /// Whether no byte was taken since the last flush that went well.
    pub fn flushed(&self) -> bool
        ensures { result ≡ is_flushed self.now }
    {
        self.is_flushed
    }

    /// Keeps whether a call failed.
    fn note(&mut self, is_failure: bool)
        ensures inner { inner_of self.new ≡ inner_of self.old }
        ensures failed { has_failed self.new ≡ (has_failed self.old || is_failure) }
        ensures flushed { is_flushed self.new ≡ is_flushed self.old }
    {
        self.has_failed |= is_failure;
    }

    /// What was watched.
    pub fn into_inner(self) -> T
        ensures { result ≡ inner_of self }
    {
        let Watched {
            inner,
            has_failed: _,
            is_flushed: _,
        } = self;
        inner
    }
}

impl<R: Read> Read for Watched<R> {
    ghost use Rattle.dml_script.specs.Watching.{inner_of};

    ghost remaining = { λ watched. R.remaining (inner_of watched) };

    fn read(&mut self, buf: &mut [u8]) -> io::Result<usize>
        ensures bound { ReadsAtMost result buf.new }
        ensures bytes { ReadConsumes (R.remaining (inner_of self.old))
            (R.remaining (inner_of self.new)) result buf.new }
        ensures failed { has_failed self.new ≡ (has_failed self.old || is_err result) }
        ensures flushed { is_flushed self.new ≡ is_flushed self.old }
    {
        let result = self.inner.read(buf);
        self.note(result.is_err());
        result
    }
}

impl<W: Write> Write for Watched<W> {
    ghost use Rattle.dml_script.specs.Watching.{inner_of};

    ghost contents = { λ watched. W.contents (inner_of watched) };

    fn write(&mut self, buf: &[u8]) -> io::Result<usize>
        ensures bound { WritesAtMost result buf.now }
        ensures bytes { WriteAppends (W.contents (inner_of self.old)) (W.contents (inner_of self.new)) result buf.now }
        ensures failed { has_failed self.new ≡ (has_failed self.old || write_fails buf.now result) }
        ensures flushed { is_flushed self.new ≡ (is_flushed self.old && takes_none result) }
    {
        let result = self.inner.write(buf);
        match &result {
            Ok(taken) => {
                self.note(*taken == 0 && !buf.is_empty());
                self.is_flushed &= *taken == 0;
            }
            Err(_) => self.note(true),
        }
        result
    }

    fn flush(&mut self) -> io::Result<()>
        ensures bytes { Keeps (W.contents (inner_of self.old)) (W.contents (inner_of self.new)) }
        ensures failed { has_failed self.new ≡ (has_failed self.old || is_err result) }
        ensures flushed { is_flushed self.new ≡ (is_flushed self.old || is_ok result) }
    {
        let result = self.inner.flush();
        self.note(result.is_err());
        self.is_flushed |= result.is_ok();
        result
    }
}
