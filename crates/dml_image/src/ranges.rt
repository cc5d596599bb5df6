//! Ranges of an image's own pages, a part of a page at a time, and the blocks of a delta record's entries.
ghost use Rattle.std.specs.Prelude.{◌≡◌, ◌+◌, ◌-◌, ◌*◌, ◌/◌, ◌<◌, ◌≤◌, length, IsTrue};
ghost use Rattle.dml_types.specs.Memory.{IsMemory, has_all, bytes_at, put, puts_made};
ghost use Rattle.dml_types.specs.Bytewise.{pattern_bytes};
ghost use Rattle.dml_segments.specs.Blocks.{are_present, block_puts, block_puts_from};

use crate::tables::Table;
use dml_segments::{ENTRY, WORD_SIZE, entry_block, rest_of_page};
use dml_types::block_number;

impl Table {
    /// Reads bytes from this address on into the whole buffer.
    pub fn read_into(&self, addr: u64, buffer: &mut [u8])
        requires memory { IsMemory self.now }
        requires present { IsTrue (has_all self.now addr (length buffer.old)) }
        ensures { buffer.new ≡ bytes_at self.now addr (length buffer.old) }
    {
        let mut done = 0;
        while done < buffer.len() {
            let part = self.part(addr + done as u64, buffer.len() - done);
            let end = done + part.len();
            buffer[done..end].copy_from_slice(part);
            done = end;
        }
    }

    /// Writes bytes from this address on.
    pub fn write(&mut self, addr: u64, bytes: &[u8])
        requires memory { IsMemory self.old }
        requires present { IsTrue (has_all self.old addr (length bytes.now)) }
        ensures { self.new ≡ put self.old addr bytes.now }
    {
        let mut done = 0;
        while done < bytes.len() {
            let place = addr + done as u64;
            let end = done + rest_of_page(place).min(bytes.len() - done);
            self.write_part(place, &bytes[done..end]);
            done = end;
        }
    }

    /// Repeats the 8 bytes of a pattern, low byte first, over `len` bytes from this address on.
    pub fn fill(&mut self, addr: u64, len: usize, pattern: u64)
        requires memory { IsMemory self.old }
        requires present { IsTrue (has_all self.old addr len) }
        ensures { self.new ≡ put self.old addr (pattern_bytes pattern len) }
    {
        let mut done = 0;
        while done < len {
            let place = addr + done as u64;
            let (left, room) = (len - done, rest_of_page(place));
            let words = room - room % WORD_SIZE;
            if left <= room {
                self.fill_part(place, left, pattern);
                done = len;
            } else if words > 0 {
                self.fill_part(place, words, pattern);
                done += words;
            } else {
                let over_edge = left.min(WORD_SIZE);
                self.write(place, &pattern.to_le_bytes()[..over_edge]);
                done += over_edge;
            }
        }
    }

    /// Puts the blocks of all whole entries, a page at a time as long as the next one lies in the same page.
    pub fn put_blocks(&mut self, target: u64, entries: &[u8])
        requires memory { IsMemory self.old }
        requires present { IsTrue (are_present self.old (block_puts target entries.now)) }
        ensures { self.new ≡ puts_made self.old (block_puts target entries.now) }
    {
        let count = entries.len() / ENTRY;
        let mut done = 0;
        while done < count {
            done = self.put_some(target, entries, done);
        }
    }

    /// Puts blocks from entry `first` on as far as they lie in one page, or one that lies over the end of a page.
    /// Returns how many entries there are up to the last one that was put.
    fn put_some(&mut self, target: u64, entries: &[u8], first: usize) -> usize
        requires memory { IsMemory self.old }
        requires present { IsTrue (are_present self.old (block_puts target entries.now)) }
        requires first { first < length entries.now / 10 }
        ensures within { (first < result) × (result ≤ length entries.now / 10) }
        ensures made { self.new ≡ puts_made self.old (block_puts_from target entries.now first (result - first)) }
    {
        let addr = target + 8 * u64::from(block_number(entries, first));
        let end = self.put_in_page(addr, target, entries, first);
        if end > first {
            return end;
        }
        self.write(addr, &entry_block(entries, first));
        first + 1
    }
}
