ghost use Rattle.std.specs.Prelude.{◌≡◌, ◌+◌, ◌-◌, ◌/◌, ◌^◌, ◌≤◌, length, slice_range, IfOk};
ghost use Rattle.dml_types.specs.Memory.{overwrite};
ghost use Rattle.dml_types.specs.Bytewise.{pattern_bytes};
ghost use Rattle.dml_segments.specs.Blocks.{after_puts, block_puts_from, AreInside};
ghost use Rattle.dml_segments.specs.Copied.{IsOneCopy};

use dml_segments::{copy_at, fill_at, put_inside, write_at};
use std::alloc::{AllocError, Global};
use std::marker::Model;

/// The bytes of a page, in memory of their own.
#[derive(Drop)]
pub struct Page {
    bytes: Box<[u8; 4096]>,
}

impl Model for Page {
    ghost use Rattle.std.specs.Prelude.{List, ℕ, length, ◌≡◌};

    ghost Value = { List ℕ };

    ghost view = { λ p. p.bytes.value };

    ghost invariant = { λ p. length p.bytes.value ≡ 4096 };
}

impl Page {
    /// A page with these bytes.
    pub fn new(alloc: Global, bytes: &[u8; 4096]) -> Result<Page, AllocError>
        ensures bytes { IfOk result (λ page. page ≡ bytes.now) }
        ensures length { IfOk result (λ page. length page ≡ 4096) }
    {
        Ok(Page {
            bytes: Box::new(alloc, *bytes)?,
        })
    }

    /// The bytes.
    pub fn bytes(&self) -> &[u8]
        ensures bytes { result.now ≡ self.now }
        ensures length { length self.now ≡ 4096 }
    {
        self.bytes.as_slice()
    }

    /// Writes bytes over the page from a place on.
    pub fn write(&mut self, place: usize, bytes: &[u8])
        requires { place + length bytes.now ≤ 4096 }
        ensures bytes { self.new ≡ overwrite self.old place bytes.now }
        ensures length { length self.new ≡ 4096 }
    {
        write_at(self.bytes.as_mut_slice(), place, bytes);
    }

    /// Copies `len` bytes of the page from one place to another. Ranges that overlap are short.
    pub fn copy(&mut self, from: usize, to: usize, len: usize)
        requires within { (from + len ≤ 4096) × (to + len ≤ 4096) }
        requires apart { IsOneCopy from to len }
        ensures bytes { self.new ≡ overwrite self.old to (slice_range self.old from (from + len)) }
        ensures length { length self.new ≡ 4096 }
    {
        copy_at(self.bytes.as_mut_slice(), from, to, len);
    }

    /// Repeats the 8 bytes of a pattern, low byte first, over `len` bytes of the page.
    pub fn fill(&mut self, place: usize, len: usize, pattern: u64)
        requires { place + len ≤ 4096 }
        ensures bytes { self.new ≡ overwrite self.old place (pattern_bytes pattern len) }
        ensures length { length self.new ≡ 4096 }
    {
        fill_at(self.bytes.as_mut_slice(), place, len, pattern);
    }

    /// Puts blocks from entry `first` on into the page, which begins at the address `begin`, and stops before the first
    /// one that is not all in it. Returns how many entries there are up to there.
    pub fn put_blocks(&mut self, begin: u64, target: u64, entries: &[u8], first: usize) -> usize
        requires end { begin + 4096 ≤ 2 ^ 64 }
        requires target { target ≤ 17592186044416 }
        requires first { first ≤ length entries.now / 10 }
        ensures within { (first ≤ result) × (result ≤ length entries.now / 10) }
        ensures inside { AreInside begin 4096 (block_puts_from target entries.now first (result - first)) }
        ensures bytes { self.new ≡ after_puts begin self.old
            (block_puts_from target entries.now first (result - first)) }
        ensures length { length self.new ≡ 4096 }
    {
        put_inside(self.bytes.as_mut_slice(), begin, target, entries, first)
    }
}
