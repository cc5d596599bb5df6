ghost use Rattle.std.specs.Prelude.{◌≡◌, ◌||◌};
ghost use Rattle.dml_types.specs.Job.{any_shares};

use crate::ranges::Spans;

/// The ranges that a job touches, in its descriptor's order. Empty ranges are left out.
#[derive(Debug, Drop)]
pub struct Touches {
    /// What it reads.
    pub reads: Spans,
    /// What it writes.
    pub writes: Spans,
}

impl Touches {
    /// Whether what one of two jobs writes shares a byte with what the other touches.
    pub(crate) fn conflict_with(&self, other: &Touches) -> bool
        ensures { result ≡ (any_shares self.now.writes other.now.reads || any_shares self.now.writes other.now.writes
            || any_shares self.now.reads other.now.writes) }
    {
        self.writes.share_with(&other.reads)
            || self.writes.share_with(&other.writes)
            || self.reads.share_with(&other.writes)
    }
}
