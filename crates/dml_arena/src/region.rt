//! Parts of an opened arena.
ghost use Rattle.std.specs.Prelude.{◌≡◌, ◌+◌, ◌-◌, ◌^◌, ◌<◌, ◌≤◌, [], ◌++◌, length, take};

use crate::span::Span;
use std::marker::Model;

/// Neighbouring bytes of an arena's block, the first of which hold values. No other region has any of them.
///
/// It has a start in the block, a room, and the bytes that it holds from its start on. It may move to
/// another thread, and ends before the arena is opened again.
#[derive(Drop)]
pub struct Region<'a> {
    pub(crate) span: Span<'a>,
    pub(crate) start: u32,
    pub(crate) room: u32,
    pub(crate) len: u32,
}

impl<'a> Model for Region<'a> {
    ghost use Rattle.dml_arena.specs.Piece.{Piece};

    ghost Value = { Piece };

    ghost use Rattle.dml_arena.specs.Piece.{piece_of, IsCounted};

    ghost view = { piece_of };

    ghost invariant = { IsCounted };
}

impl<'a> Region<'a> {
    ghost use Rattle.dml_arena.specs.Piece.{SamePlace};

    /// Returns the place of its first byte in the block.
    pub fn start(&self) -> u32
        ensures { result ≡ self.now.start }
    {
        self.start
    }

    /// Returns how many bytes it has room for, those that it holds included.
    pub fn room(&self) -> u32
        ensures room { result ≡ self.now.room }
        ensures ends { self.now.start + result < 2 ^ 32 }
    {
        self.room
    }

    /// Returns the bytes that it holds, as a slice of the block.
    pub fn bytes(&self) -> &[u8]
        ensures bytes { result.now ≡ self.now.bytes }
        ensures fits { length result.now ≤ self.now.room }
    {
        self.span.bytes(self.len as usize)
    }

    /// Cuts an empty region in two, side by side: the first `n` bytes of its room, and the rest.
    pub fn cut(self, n: u32) -> (Region<'a>, Region<'a>)
        requires fits { n ≤ self.room }
        requires empty { self.bytes ≡ [] }
        ensures opening { (result.0.opening ≡ self.entry.opening) × (result.1.opening ≡ self.entry.opening) }
        ensures front { (result.0.start ≡ self.entry.start) × (result.0.room ≡ n) × (result.0.bytes ≡ []) }
        ensures back { (result.1.start ≡ self.entry.start + n) × (result.1.room ≡ self.entry.room - n)
            × (result.1.bytes ≡ []) }
    {
        let Region {
            span,
            start,
            room,
            len,
        } = self;
        let (front, back) = span.cut(n as usize);
        (
            Region {
                span: front,
                start,
                room: n,
                len,
            },
            Region {
                span: back,
                start: start + n,
                room: room - n,
                len,
            },
        )
    }

    /// Puts `bytes` behind those that it holds.
    pub fn push(&mut self, bytes: &[u8])
        requires { length self.old.bytes + length bytes.now ≤ self.old.room }
        ensures place { SamePlace self.old self.new }
        ensures bytes { self.new.bytes ≡ self.old.bytes ++ bytes.now }
    {
        self.span.extend(self.len as usize, bytes);
        self.len += bytes.len() as u32;
    }

    /// Keeps the first `len` bytes that it holds. The others become room again.
    pub fn shorten(&mut self, len: u32)
        requires { len ≤ length self.old.bytes }
        ensures place { SamePlace self.old self.new }
        ensures bytes { self.new.bytes ≡ take len self.old.bytes }
    {
        self.span.shorten(len as usize);
        self.len = len;
    }

    /// Makes one region of this one and `next`, the one right behind its room in the same opening. It holds
    /// the bytes of both, one after another, from this one's start.
    pub fn join(self, next: Region<'a>) -> Region<'a>
        requires opening { next.opening ≡ self.opening }
        requires beside { next.start ≡ self.start + self.room }
        ensures place { (result.opening ≡ self.entry.opening) × (result.start ≡ self.entry.start)
            × (result.room ≡ self.entry.room + next.entry.room) }
        ensures bytes { result.bytes ≡ self.entry.bytes ++ next.entry.bytes }
    {
        let Region {
            span,
            start,
            room,
            len,
        } = self;
        let Region {
            span: behind,
            start: _,
            room: more,
            len: count,
        } = next;
        let span = if len == room || count == 0 {
            span.meet(behind)
        } else {
            span.join(len as usize, behind, count as usize)
        };
        Region {
            span,
            start,
            room: room + more,
            len: len + count,
        }
    }
}
