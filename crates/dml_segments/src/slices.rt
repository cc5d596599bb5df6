ghost use Rattle.std.specs.Prelude.{◌≡◌, ◌+◌, ◌<◌, ◌≤◌, ◌↔◌, All, IsTrue, length, slice_range};
ghost use Rattle.dml_types.specs.Memory.{overwrite};
ghost use Rattle.dml_types.specs.Bytewise.{pattern_bytes};
ghost use Rattle.dml_segments.specs.Copied.{IsOneCopy};

/// The most bytes that are copied at once where two ranges overlap: they are held between reading and writing.
pub const SHORT: usize = 256;

// The bytes of a pattern.
pub const WORD_SIZE: usize = 8;

/// Writes bytes over a slice from a place on.
#[tactic(auto, using(crate::proofs::SliceLemmas::put_mid_overwrite))]
pub fn write_at(target: &mut [u8], place: usize, bytes: &[u8])
    requires { place + length bytes.now ≤ length target.old }
    ensures { target.new ≡ overwrite target.old place bytes.now }
{
    target[place..place + bytes.len()].copy_from_slice(bytes);
}

/// Copies `len` bytes of a slice from one place to another. Ranges that overlap have [`SHORT`] bytes at most.
#[tactic(auto, using(crate::proofs::SliceLemmas::put_mid_overwrite))]
pub fn copy_at(content: &mut [u8], from: usize, to: usize, len: usize)
    requires within { (from + len ≤ length content.old) × (to + len ≤ length content.old) }
    requires apart { IsOneCopy from to len }
    ensures { content.new ≡ overwrite content.old to (slice_range content.old from (from + len)) }
{
    if from + len <= to {
        let (front, behind) = content.split_at_mut(to);
        behind[..len].copy_from_slice(&front[from..from + len]);
    } else if to + len <= from {
        let (front, behind) = content.split_at_mut(from);
        front[to..to + len].copy_from_slice(&behind[..len]);
    } else {
        let mut held = [0; SHORT];
        held[..len].copy_from_slice(&content[from..from + len]);
        content[to..to + len].copy_from_slice(&held[..len]);
    }
}

/// How many bytes are copied at once from one address on to another, `most` at most.
#[inline(always)]
pub fn at_once(from: u64, to: u64, most: usize) -> usize
    requires { 0 < most }
    ensures some { 0 < result }
    ensures most { result ≤ most }
    ensures apart { IsOneCopy from to result }
    ensures goes { IsOneCopy from to most → result ≡ most }
{
    most.min(from.abs_diff(to).max(SHORT as u64) as usize)
}

/// Whether so many bytes go from one address on to another at once.
#[inline(always)]
pub fn is_one_copy(from: u64, to: u64, len: usize) -> bool
    ensures { IsTrue result ↔ IsOneCopy from to len }
{
    len <= SHORT || from.abs_diff(to) >= len as u64
}

/// Repeats the 8 bytes of a pattern, low byte first, over `len` bytes of a slice.
#[tactic(auto, using(crate::proofs::SliceLemmas::put_mid_overwrite))]
pub fn fill_at(target: &mut [u8], place: usize, len: usize, pattern: u64)
    requires { place + len ≤ length target.old }
    ensures { target.new ≡ overwrite target.old place (pattern_bytes pattern len) }
{
    repeat(&mut target[place..place + len], pattern);
}

/// Repeats the 8 bytes of a pattern, low byte first, over a slice.
#[tactic(auto, using(crate::proofs::PatternLemmas::repeat_steps))]
fn repeat(target: &mut [u8], pattern: u64)
    ensures { target.new ≡ pattern_bytes pattern (length target.old) }
{
    let word = pattern.to_le_bytes();
    let whole = target.len() / WORD_SIZE;
    for k in 0..whole {
        target[WORD_SIZE * k..WORD_SIZE * k + WORD_SIZE].copy_from_slice(&word);
    }
    repeat_short(&mut target[WORD_SIZE * whole..], pattern);
}

/// Writes the first bytes of a pattern, low byte first, over less than a word. It makes the word again: so no part of
/// that of `repeat` is ever borrowed, and it stays in registers.
#[tactic(auto, using(crate::proofs::PatternLemmas::none_to_fill, crate::proofs::PatternLemmas::word_front))]
fn repeat_short(target: &mut [u8], pattern: u64)
    requires { length target.old < 8 }
    ensures { target.new ≡ pattern_bytes pattern (length target.old) }
{
    let rest = target.len();
    if rest > 0 {
        target.copy_from_slice(&pattern.to_le_bytes()[..rest]);
    }
}

/// Whether each byte is 0.
pub fn is_blank(bytes: &[u8]) -> bool
    ensures { IsTrue result ↔ All (λ byte. byte ≡ 0) bytes.now }
{
    bytes.iter().all(|byte| *byte == 0)
}
