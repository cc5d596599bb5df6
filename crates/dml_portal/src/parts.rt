//! A round's list, cut in parts.
ghost use Rattle.std.specs.Prelude.{◌≡◌, ◌+◌, ◌<◌, ◌≤◌, ◌⊎◌, length};
ghost use Rattle.dml_portal.specs.Parts.{bytes_of};

use dml_types::Job;

/// The most bytes of the jobs of a part that has more than one.
const MOST_BYTES: u64 = 8 << 20;

/// Where the part of a list ends that begins at `from`: it has as many jobs as have no more bytes than a part may have,
/// and at most `most`, but at least one.
pub(crate) fn part_end(jobs: &[Job], from: usize, most: usize) -> usize
    requires begin { from < length jobs.now }
    requires some { 1 ≤ most }
    ensures more { from < result }
    ensures within { result ≤ length jobs.now }
    ensures few { result ≤ from + most }
    ensures bytes { (result ≡ from + 1) ⊎ (bytes_of jobs.now from result ≤ 8388608) }
    ensures enough { (result ≡ length jobs.now) ⊎ (result ≡ from + most) ⊎ (8388608 < bytes_of jobs.now from (result + 1)) }
{
    let end = from + most.min(jobs.len() - from);
    let mut bytes = u64::from(jobs[from].size);
    for to in from + 1..end {
        bytes = bytes.saturating_add(u64::from(jobs[to].size));
        if bytes > MOST_BYTES {
            return to;
        }
    }
    end
}
