//! Moves of bytes a part at a time, in the order in which no byte is overwritten before it is read.
ghost use Rattle.std.specs.Prelude.{◌≡◌, ◌+◌, ◌-◌, ◌<◌, ◌≤◌, ◌⊎◌, IsTrue};
ghost use Rattle.dml_types.specs.Memory.{Memory, IsMemory, has_all, bytes_at, put};

use crate::lent::Lent;
use crate::tables::Table;
use dml_segments::{Segments, at_once, begin_of_page, rest_of_page};
use dml_types::Direction;

/// Memory whose bytes are copied a part at a time. Contracts see it as what is held.
pub(crate) trait Parts {
    ghost held: { Self → Memory };

    /// Copies bytes from one address on to those from another on, as many as go at once, `most` at most. Returns how
    /// many.
    fn copy_behind(&mut self, from: u64, to: u64, most: usize) -> usize
        requires memory { IsMemory (held self.old) }
        requires some { 0 < most }
        requires from { IsTrue (has_all (held self.old) from most) }
        requires to { IsTrue (has_all (held self.old) to most) }
        ensures some { 0 < result }
        ensures most { result ≤ most }
        ensures copied { held self.new ≡ put (held self.old) to (bytes_at (held self.old) from result) };

    /// Copies bytes before one address to those before another, as many as go at once, `most` at most. Returns how
    /// many.
    fn copy_before(&mut self, from: u64, to: u64, most: usize) -> usize
        requires memory { IsMemory (held self.old) }
        requires some { 0 < most }
        requires within { (most ≤ from) × (most ≤ to) }
        requires from { IsTrue (has_all (held self.old) (from - most) most) }
        requires to { IsTrue (has_all (held self.old) (to - most) most) }
        ensures some { 0 < result }
        ensures most { result ≤ most }
        ensures copied { held self.new
            ≡ put (held self.old) (to - result) (bytes_at (held self.old) (from - result) result) };
}

impl Parts for Table {
    ghost held = { λ table. table };

    fn copy_behind(&mut self, from: u64, to: u64, most: usize) -> usize {
        let in_page = rest_of_page(from).min(rest_of_page(to));
        let part = at_once(from, to, most.min(in_page));
        self.copy_part(from, to, part);
        part
    }

    fn copy_before(&mut self, from: u64, to: u64, most: usize) -> usize {
        let in_page = begin_of_page(from).min(begin_of_page(to));
        let part = at_once(from, to, most.min(in_page));
        self.copy_part(from - part as u64, to - part as u64, part);
        part
    }
}

impl Parts for Lent<'_> {
    ghost use Rattle.dml_image.specs.Kept.{loan_memory};

    ghost held = { loan_memory };

    fn copy_behind(&mut self, from: u64, to: u64, most: usize) -> usize {
        let part = at_once(from, to, most);
        self.copy_part(from, to, part);
        part
    }

    fn copy_before(&mut self, from: u64, to: u64, most: usize) -> usize {
        let part = at_once(from, to, most);
        self.copy_part(from - part as u64, to - part as u64, part);
        part
    }
}

impl Parts for Segments<'_> {
    ghost held = { λ segments. segments };

    fn copy_behind(&mut self, from: u64, to: u64, most: usize) -> usize {
        Segments::copy_behind(self, from, to, most)
    }

    fn copy_before(&mut self, from: u64, to: u64, most: usize) -> usize {
        Segments::copy_before(self, from, to, most)
    }
}

/// Copies the bytes of one range to another; where the two overlap, the bytes as they stood.
pub(crate) fn move_range<P: Parts>(parts: &mut P, source: u64, target: u64, len: u32)
    requires memory { IsMemory (P.held parts.old) }
    requires source { IsTrue (has_all (P.held parts.old) source len) }
    requires target { IsTrue (has_all (P.held parts.old) target len) }
    ensures { P.held parts.new ≡ put (P.held parts.old) target (bytes_at (P.held parts.old) source len) }
{
    match Direction::of_move(source, target, len) {
        Direction::Backward => move_down(parts, source, target, len as usize),
        Direction::Forward => move_up(parts, source, target, len as usize),
    }
}

/// Copies from the first byte on.
fn move_up<P: Parts>(parts: &mut P, source: u64, target: u64, len: usize)
    requires memory { IsMemory (P.held parts.old) }
    requires source { IsTrue (has_all (P.held parts.old) source len) }
    requires target { IsTrue (has_all (P.held parts.old) target len) }
    requires order { (target ≤ source) ⊎ (source + len ≤ target) }
    ensures { P.held parts.new ≡ put (P.held parts.old) target (bytes_at (P.held parts.old) source len) }
{
    let mut done = 0;
    while done < len {
        let (from, to) = (source + done as u64, target + done as u64);
        let part = parts.copy_behind(from, to, len - done);
        done += part;
    }
}

/// Copies from the last byte on.
fn move_down<P: Parts>(parts: &mut P, source: u64, target: u64, len: usize)
    requires memory { IsMemory (P.held parts.old) }
    requires source { IsTrue (has_all (P.held parts.old) source len) }
    requires target { IsTrue (has_all (P.held parts.old) target len) }
    requires order { source ≤ target }
    ensures { P.held parts.new ≡ put (P.held parts.old) target (bytes_at (P.held parts.old) source len) }
{
    let mut left = len;
    while left > 0 {
        let part = parts.copy_before(source + left as u64, target + left as u64, left);
        left -= part;
    }
}
