//! How the scan of a chunk of a compare ends, part of a page by part of a page.

ghost use Rattle.std.specs.Prelude.{◌≡◌, ◌<◌, ◌≤◌, Some, false, length, IsTrue, MatchOption};
ghost use Rattle.dml_types.specs.declared.operations.Op.TheVariants.{Compare, ComparePattern};
ghost use Rattle.dml_types.specs.Job.{op_of};
ghost use Rattle.dml_types.specs.Memory.{has};
ghost use Rattle.dml_types.specs.Chunk.{scan_found};
ghost use Rattle.dml_buffers.specs.Holds.{Holds};
ghost use Rattle.dml_scan.specs.Lanes as lanes;
ghost use Rattle.dml_scan.specs.Parts.{IsPartWithin};

use crate::lanes::{first_difference, first_unlike, first_unlike_long};
use crate::reach::read_fault;
use dml_desc::Checked;
use dml_image::Image;
use dml_types::Found;

/// How many bytes at the beginning of a long chunk are compared with a pattern step by step, where those behind them go
/// by blocks: pages that are looked through for zeros mostly differ in these.
const NEAR: u32 = 1024;

/// The next present bytes from an address on: what is left there of a part of a page that was begun, or else what the
/// page has from there on, at most `len` bytes. `None` where the byte there is absent.
#[inline(always)]
#[tactic(auto, using(crate::proofs::CompareLemmas::part_shown))]
fn next_part<'a>(image: &'a Image, rest: &'a [u8], addr: u64, len: u32) -> Option<&'a [u8]>
    requires some { 0 < len }
    requires part { Holds image.now addr rest.now }
    requires within { length rest.now ≤ len }
    ensures { MatchOption result (has image.now addr ≡ false) (λ part. IsPartWithin image.now addr len part.now) }
{
    if !rest.is_empty() {
        return Some(rest);
    }
    image.present_part(addr, len)
}

/// How the scan of a chunk of a compare ends: at one offset an absent byte comes before a difference, and that of the
/// first range before that of the second.
#[tactic(auto, using(crate::proofs::CompareLemmas::compare_steps))]
pub fn compare_found(image: &Image, job: &Checked, from: u32, to: u32) -> Found
    requires operation { op_of job.now ≡ Some Compare }
    requires order { from ≤ to }
    requires within { to ≤ job.now.size }
    ensures { result ≡ scan_found Compare image.now job.now from to }
{
    let job = job.job();
    let mut left: &[u8] = &[];
    let mut right: &[u8] = &[];
    let mut at = from;
    while at < to {
        let source = job.source + u64::from(at);
        let Some(one) = next_part(image, left, source, to - at) else {
            return read_fault(at - from, source);
        };
        let target = job.target + u64::from(at);
        let Some(other) = next_part(image, right, target, to - at) else {
            return read_fault(at - from, target);
        };
        let count = one.len().min(other.len());
        let same = first_difference(&one[..count], &other[..count]);
        at += same as u32;
        if same < count {
            return Found::Differs { done: at - from };
        }
        left = &one[count..];
        right = &other[count..];
    }
    Found::All
}

/// How many of the bytes left of a chunk are compared with a pattern next: [`NEAR`] at its beginning, where at least as
/// many lie behind them, else all.
#[inline(always)]
fn looked_at(left: u32, is_first: bool) -> u32
    requires { 0 < left }
    ensures some { 0 < result }
    ensures within { result ≤ left }
    ensures near { IsTrue is_first → 2048 ≤ left → result ≡ 1024 }
    ensures short { left < 2048 → result ≡ left }
    ensures later { is_first ≡ false → result ≡ left }
{
    if is_first && left >= 2 * NEAR {
        NEAR
    } else {
        left
    }
}

/// The first place at which a part of a chunk differs from a pattern; its length where there is none. A first part
/// often differs near its beginning, one behind it seldom.
#[inline(always)]
fn unlike_in_part(part: &[u8], pattern: u64, from: u32, is_first: bool) -> usize
    ensures value { result ≡ lanes.first_unlike part.now pattern from }
    ensures within { result ≤ length part.now }
{
    if is_first {
        first_unlike(part, pattern, from)
    } else {
        first_unlike_long(part, pattern, from)
    }
}

/// How the scan of a chunk of a compare with a pattern ends: at one offset an absent byte comes before a difference.
#[tactic(auto, using(crate::proofs::CompareLemmas::part_none, crate::proofs::CompareLemmas::passed_none))]
pub fn compare_pattern_found(image: &Image, job: &Checked, from: u32, to: u32) -> Found
    requires operation { op_of job.now ≡ Some ComparePattern }
    requires order { from ≤ to }
    requires within { to ≤ job.now.size }
    ensures { result ≡ scan_found ComparePattern image.now job.now from to }
{
    let job = job.job();
    let mut at = from;
    while at < to {
        let place = job.source + u64::from(at);
        let is_first = at == from;
        let Some(part) = next_part(image, &[], place, looked_at(to - at, is_first)) else {
            return read_fault(at - from, place);
        };
        let same = unlike_in_part(part, job.target, at, is_first);
        at += same as u32;
        if same < part.len() {
            return Found::Differs { done: at - from };
        }
    }
    Found::All
}
