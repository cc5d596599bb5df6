ghost use Rattle.std.specs.Prelude.{◌≡◌, ℕ, ◌+◌, ◌≤◌, List, [], ◌++◌, length};
ghost use Rattle.dml_arena.specs.Piece.{SamePlace};
ghost use Rattle.std.specs.Int.{to_le_bytes, w16};

use dml_arena::Region;
use std::marker::Model;

/// How many bytes of entries are gathered.
const ROOM: usize = 640;

/// Entries on their way to a region or to a record, at most 640 bytes of them, gathered so that many are written at
/// once.
#[derive(Drop)]
pub struct Entries {
    bytes: [u8; ROOM],
    len: usize,
}

impl Model for Entries {
    ghost use Rattle.std.specs.Prelude.{ℕ, ◌≤◌, List, take};

    ghost Value = { List ℕ };

    ghost view = { λ e. take e.len e.bytes };

    ghost invariant = { λ e. e.len ≤ 640 };
}

impl Entries {
    /// None yet.
    pub fn new() -> Entries
        ensures { result ≡ [] }
    {
        Entries {
            bytes: [0; ROOM],
            len: 0,
        }
    }

    /// The bytes of those that are here.
    pub fn bytes(&self) -> &[u8]
        ensures { result.now ≡ self.now }
    {
        &self.bytes[..self.len]
    }

    /// Forgets those that are here.
    pub fn clear(&mut self)
        ensures { self.new ≡ [] }
    {
        self.len = 0;
    }

    /// Adds the entry of a block.
    #[inline(always)]
    #[tactic(auto, using(crate::proofs::EntryLemmas::added))]
    pub fn add(&mut self, number: u16, block: [u8; 8])
        requires fits { length self.old + 10 ≤ 640 }
        ensures { self.new ≡ self.old ++ (to_le_bytes w16 number ++ block) }
    {
        let at = self.len;
        self.bytes[at..at + 2].copy_from_slice(&number.to_le_bytes());
        self.bytes[at + 2..at + 10].copy_from_slice(&block);
        self.len = at + 10;
    }

    /// Pushes those that are here, unless there is room for the entries of 8 more blocks.
    #[inline(always)]
    pub fn make_room(&mut self, room: &mut Region<'_>)
        requires fits { length room.old.bytes + length self.old ≤ room.old.room }
        ensures place { SamePlace room.old room.new }
        ensures bytes { room.new.bytes ++ self.new ≡ room.old.bytes ++ self.old }
        ensures free { length self.new + 80 ≤ 640 }
    {
        if self.len > ROOM - 80 {
            self.flush(room);
        }
    }

    /// Pushes those that are here.
    pub fn flush(&mut self, room: &mut Region<'_>)
        requires fits { length room.old.bytes + length self.old ≤ room.old.room }
        ensures place { SamePlace room.old room.new }
        ensures bytes { room.new.bytes ≡ room.old.bytes ++ self.old }
        ensures empty { self.new ≡ [] }
    {
        room.push(&self.bytes[..self.len]);
        self.len = 0;
    }
}
