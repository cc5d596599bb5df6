ghost use Rattle.std.specs.Prelude.{◌≡◌, false};
ghost use Rattle.std.specs.List.{list_any};
ghost use Rattle.dml_types.specs.Job.{is_past};
ghost use Rattle.dml_levels.specs.Hulls.{hull_both, hull_of, hulls_meet, no_hull, no_reach, reach_both, reaches_meet};
ghost use Rattle.dml_levels.specs.Hulls as word;

use crate::ranges::Spans;
use crate::touching::touches;
use dml_desc::Checked;

/// The least range around some ranges, by its first and its last address; around none, first and last are swapped.
#[derive(Clone, Copy, Debug)]
pub struct Hull {
    pub first: u64,
    pub last: u64,
}

impl Hull {
    /// Around no range.
    fn none() -> Hull
        ensures { result ≡ no_hull }
    {
        Hull {
            first: u64::MAX,
            last: 0,
        }
    }

    /// Around these ranges.
    fn of(spans: &Spans) -> Hull
        requires { list_any is_past spans.now ≡ false }
        ensures { result ≡ hull_of spans.now }
    {
        let mut hull = Hull::none();
        for span in spans.list.as_slice() {
            hull = Hull {
                first: hull.first.min(span.start),
                last: hull
                    .last
                    .max(span.start + u64::from(span.len.saturating_sub(1))),
            };
        }
        hull
    }

    /// Around both.
    fn both(self, other: Hull) -> Hull
        ensures { result ≡ hull_both self other }
    {
        Hull {
            first: self.first.min(other.first),
            last: self.last.max(other.last),
        }
    }

    /// Whether the two share an address.
    fn meets(self, other: Hull) -> bool
        ensures { result ≡ hulls_meet self other }
    {
        (self.first <= other.last) & (other.first <= self.last)
    }
}

/// The hulls of what some jobs read, and of what they write.
#[derive(Clone, Copy, Debug)]
pub struct Reach {
    pub reads: Hull,
    pub writes: Hull,
}

impl Reach {
    /// Of no job.
    pub fn none() -> Reach
        ensures { result ≡ no_reach }
    {
        Reach {
            reads: Hull::none(),
            writes: Hull::none(),
        }
    }

    /// Of a job.
    pub fn of(job: &Checked) -> Reach
        ensures { result ≡ word.reach_of job.now }
    {
        let touched = touches(job);
        Reach {
            reads: Hull::of(&touched.reads),
            writes: Hull::of(&touched.writes),
        }
    }

    /// Of both.
    pub fn both(self, other: Reach) -> Reach
        ensures { result ≡ reach_both self other }
    {
        Reach {
            reads: self.reads.both(other.reads),
            writes: self.writes.both(other.writes),
        }
    }

    /// Whether what one may write meets what the other may touch.
    pub fn meets(self, other: Reach) -> bool
        ensures { result ≡ reaches_meet self other }
    {
        self.writes.meets(other.reads)
            | self.writes.meets(other.writes)
            | self.reads.meets(other.writes)
    }
}
