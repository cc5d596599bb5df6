//! The units that a job is cut by: offsets, blocks of a create, entries of an apply.
ghost use Rattle.std.specs.Prelude.{◌≡◌, ◌≤◌};
ghost use Rattle.dml_types.specs.Chunk as unit;
ghost use Rattle.dml_desc.specs.Checked.{KeepsRules};
ghost use Rattle.dml_pool.specs.Tasks as word;

use dml_types::{ENTRY, Job, Op};

/// The bytes of a block.
const BLOCK: u32 = 8;

/// How many units a job has that keeps the rules of its operation.
pub fn units(op: Op, job: &Job) -> u32
    requires { KeepsRules op job.now }
    ensures count { result ≡ word.units op job.now }
    ensures most { result ≤ 1048576 }
{
    match op {
        Op::NoOp => 0,
        Op::CreateDelta => job.size / BLOCK,
        Op::ApplyDelta => job.delta_size / ENTRY,
        Op::Move | Op::Fill | Op::Compare | Op::ComparePattern | Op::Dualcast => job.size,
    }
}

/// How many units a chunk of so many bytes has.
pub fn chunk_units(op: Op, chunk: u32) -> u32
    ensures count { result ≡ unit.chunk_units op chunk }
    ensures most { result ≤ chunk }
{
    match op {
        Op::CreateDelta | Op::ApplyDelta => chunk / BLOCK,
        Op::NoOp | Op::Move | Op::Fill | Op::Compare | Op::ComparePattern | Op::Dualcast => chunk,
    }
}

/// How many bytes so many units may stage.
pub fn room_for(op: Op, count: u32) -> u32
    requires { count ≤ 1048576 }
    ensures { result ≡ word.room_for op count }
{
    match op {
        Op::Move | Op::Dualcast => count,
        Op::CreateDelta | Op::ApplyDelta => ENTRY * count,
        Op::NoOp | Op::Fill | Op::Compare | Op::ComparePattern => 0,
    }
}
