ghost use Rattle.std.specs.Prelude.{◌≡◌, ◌++◌, false};
ghost use Rattle.std.specs.List.{list_any};
ghost use Rattle.dml_types.specs.Job.{is_past};
ghost use Rattle.dml_levels.specs.Touched.{read_spans, touched_by, written_spans};

use crate::ranges::Spans;
use crate::touched::Touches;
use dml_desc::Checked;
use dml_types::Op;

/// The ranges that a job touches, by its descriptor alone.
pub fn touches(job: &Checked) -> Touches
    ensures reads { result.reads ≡ read_spans job.now }
    ensures writes { result.writes ≡ written_spans job.now }
    ensures none_past_the_end { list_any is_past (result.reads ++ result.writes) ≡ false }
{
    let fields = *job.job();
    let (reads, writes) = match job.op() {
        Op::NoOp => (Spans::none(), Spans::none()),
        Op::Move => (
            Spans::one(fields.source, fields.size),
            Spans::one(fields.target, fields.size),
        ),
        Op::Fill => (Spans::none(), Spans::one(fields.target, fields.size)),
        Op::Compare => (
            Spans::two(fields.source, fields.target, fields.size),
            Spans::none(),
        ),
        Op::ComparePattern => (Spans::one(fields.source, fields.size), Spans::none()),
        Op::CreateDelta => (
            Spans::two(fields.source, fields.target, fields.size),
            Spans::one(fields.extra, fields.delta_size),
        ),
        Op::ApplyDelta => (
            Spans::one(fields.source, fields.delta_size),
            Spans::one(fields.target, fields.size),
        ),
        Op::Dualcast => (
            Spans::one(fields.source, fields.size),
            Spans::two(fields.target, fields.extra, fields.size),
        ),
    };
    Touches { reads, writes }
}

impl Touches {
    /// Of a job.
    pub(crate) fn of(job: &Checked) -> Touches
        ensures { result ≡ touched_by job.now }
    {
        touches(job)
    }
}
