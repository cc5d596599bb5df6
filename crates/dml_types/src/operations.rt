ghost use Rattle.std.specs.Prelude.{◌≡◌, ◌+◌, ◌≤◌};
ghost use Rattle.dml_types.specs.Bytewise as offsets;

/// What a job does, by its opcode.
#[derive(Clone, Copy, PartialEq, Eq, Debug)]
pub enum Op {
    /// Nothing (0x00).
    NoOp,
    /// Copies a range; the two ranges may overlap (0x03).
    Move,
    /// Repeats 8 pattern bytes over a range (0x04).
    Fill,
    /// Compares two ranges (0x05).
    Compare,
    /// Compares a range with 8 repeated pattern bytes (0x06).
    ComparePattern,
    /// Writes the blocks in which two ranges differ as a delta record (0x07).
    CreateDelta,
    /// Writes the blocks of a delta record over a range (0x08).
    ApplyDelta,
    /// Copies a range to two destinations (0x09).
    Dualcast,
}

/// The order in which the offsets of a range are worked on.
#[derive(Clone, Copy, PartialEq, Eq, Debug)]
pub enum Direction {
    /// From the first byte upwards.
    Forward,
    /// From the last byte downwards.
    Backward,
}

impl Direction {
    /// The direction of a move of `len` bytes: backward where its target begins inside its source, behind the first
    /// byte, and else forward.
    #[inline(always)]
    pub fn of_move(source: u64, target: u64, len: u32) -> Direction
        ensures { result ≡ offsets.move_direction source target len }
    {
        if source < target && target - source < u64::from(len) {
            Direction::Backward
        } else {
            Direction::Forward
        }
    }

    /// The lowest of the `done` offsets that come first where `len` offsets are worked on in this direction.
    #[inline(always)]
    pub fn lowest_done(self, len: u32, done: u32) -> u32
        requires { done ≤ len }
        ensures value { result ≡ offsets.lowest_done self len done }
        ensures within { result + done ≤ len }
    {
        match self {
            Direction::Forward => 0,
            Direction::Backward => len - done,
        }
    }
}
