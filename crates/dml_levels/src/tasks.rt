ghost use Rattle.std.specs.Prelude.{◌≡◌, ◌≤◌};
ghost use Rattle.dml_levels.specs.Tasks.{IsChunk};
ghost use Rattle.dml_levels.specs.Tasks as word;

use dml_desc::Checked;
use dml_types::{ENTRY, Op};

/// The bytes that one entry of an apply counts for in a chunk.
const BLOCK: u32 = 8;

/// How many chunks of `chunk` bytes a job has; in an apply a chunk has an entry for each 8 bytes. A job that does
/// nothing has none.
#[tactic(auto, using(crate::proofs::TaskLemmas::task_count_at, crate::proofs::TaskLemmas::few_tasks))]
pub fn task_count(job: &Checked, chunk: u32) -> u32
    requires { IsChunk chunk }
    ensures count { result ≡ word.task_count job.now chunk }
    ensures most { result ≤ 131072 }
{
    let fields = job.job();
    match job.op() {
        Op::NoOp => 0,
        Op::ApplyDelta => (fields.delta_size / ENTRY).div_ceil(chunk / BLOCK),
        Op::Move | Op::Fill | Op::Compare | Op::ComparePattern | Op::CreateDelta | Op::Dualcast =>
            fields.size.div_ceil(chunk),
    }
}
