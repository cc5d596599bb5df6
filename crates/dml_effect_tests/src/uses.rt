//! What callers rest on.
ghost use Rattle.std.specs.Prelude.{◌≡◌, ◌/◌, ◌<◌, ◌≤◌, ◌⊎◌, [], Some, IfOk, IsTrue, OnOk};
ghost use Rattle.dml_types.specs.declared.operations.Op.TheVariants.{Compare, ComparePattern, Move};
ghost use Rattle.dml_types.specs.declared.operations.Op.TheVariants.{ApplyDelta, CreateDelta};
ghost use Rattle.dml_types.specs.Chunk.{scan_found, scan_staged};
ghost use Rattle.dml_types.specs.Job.{op_of};
ghost use Rattle.dml_types.specs.Memory.{puts_made};
ghost use Rattle.dml_types.specs.Refusal.{need};
ghost use Rattle.dml_types.specs.Step.{effect, step};
ghost use Rattle.dml_arena.specs.Piece.{SamePlace};
ghost use Rattle.dml_desc.specs.Checked.{checked_effect, checked_step};
ghost use Rattle.dml_image.specs.Pieces.{AreSegments, pieces_memory, segment_bytes};
ghost use Rattle.dml_image.specs.Two.{pieces_of_two};
ghost use Rattle.dml_effect.specs.Effects.{are_present, some_puts};
ghost use Rattle.dml_effect.specs.Straight.{TakesStaging};

use dml_arena::{Arena, Region};
use dml_delta::{scan_apply, scan_create};
use dml_desc::Checked;
use dml_effect::{Effect, join_apply, join_create, join_found, submit_to};
use dml_image::{Image, Two};
use dml_scan::{ScanPiece, scan_compare, scan_compare_pattern, scan_move};
use dml_types::{Job, Op, Record, law_of_loans};
use std::alloc::{AllocError, Global};
use std::iter;

/// The effect of a move that is scanned in two chunks, cut at an offset.
pub fn moved_in_two<'a>(image: &Image, job: &Checked, edge: u32, room: Region<'a>) -> Effect<'a>
    requires operation { op_of job.now ≡ Some Move }
    requires edge { edge ≤ job.now.size }
    requires empty { room.bytes ≡ [] }
    requires fits { job.now.size ≤ room.room }
    ensures answer { result.answer ≡ (checked_step image.now job.now).1 }
    ensures puts { result.puts ≡ some_puts (checked_effect image.now job.now).puts }
    ensures image { puts_made image.now result.puts ≡ (checked_step image.now job.now).0 }
    ensures present { IsTrue (are_present image.now result.puts) }
{
    let size = job.job().size;
    let (low, high) = room.cut(edge);
    let below = scan_move(image, job, 0, edge, low);
    let above = scan_move(image, job, edge, size, high);
    join_found(image, job, [below, above].into_iter())
}

/// The effect of a create that is scanned in chunks of so many blocks.
pub fn created_in_chunks<'a>(
    alloc: Global,
    image: &Image,
    job: &Checked,
    chunk: u32,
    room: Region<'a>,
) -> Result<Effect<'a>, AllocError>
    requires operation { op_of job.now ≡ Some CreateDelta }
    requires some { 0 < chunk }
    requires empty { room.bytes ≡ [] }
    requires fits { need job.now ≤ room.room }
    ensures answer { IfOk result (λ done. done.answer ≡ (checked_step image.now job.now).1) }
    ensures puts { IfOk result (λ done. done.puts ≡ some_puts (checked_effect image.now job.now).puts) }
    ensures present { IfOk result (λ done. IsTrue (are_present image.now done.puts)) }
{
    let blocks = job.job().size / 8;
    let mut pieces = Vec::new(alloc);
    let mut rest = room;
    let mut from = 0;
    while from < blocks {
        let to = from + chunk.min(blocks - from);
        let (low, high) = rest.cut(10 * (to - from));
        pieces.push(scan_create(image, job, from, to, low))?;
        rest = high;
        from = to;
    }
    Ok(join_create(image, job, pieces.into_iter()))
}

/// The effect of a compare, of two ranges or with a pattern, that is scanned in chunks of so many bytes.
pub fn compared_in_chunks<'a>(
    alloc: Global,
    image: &Image,
    job: &Checked,
    chunk: u32,
    room: Region<'a>,
) -> Result<Effect<'a>, AllocError>
    requires operation { (op_of job.now ≡ Some Compare) ⊎ (op_of job.now ≡ Some ComparePattern) }
    requires some { 0 < chunk }
    requires empty { room.bytes ≡ [] }
    ensures answer { IfOk result (λ done. done.answer ≡ (checked_step image.now job.now).1) }
    ensures puts { IfOk result (λ done. done.puts ≡ some_puts (checked_effect image.now job.now).puts) }
    ensures present { IfOk result (λ done. IsTrue (are_present image.now done.puts)) }
{
    let op = job.op();
    let size = job.job().size;
    let mut pieces = Vec::new(alloc);
    let mut rest = room;
    let mut from = 0;
    while from < size {
        let to = from + chunk.min(size - from);
        let (low, high) = rest.cut(0);
        pieces.push(scan_chunk(image, job, op, from, to, low))?;
        rest = high;
        from = to;
    }
    Ok(join_found(image, job, pieces.into_iter()))
}

/// Scans a chunk of a compare, of two ranges or with a pattern.
fn scan_chunk<'a>(
    image: &Image,
    job: &Checked,
    op: Op,
    from: u32,
    to: u32,
    room: Region<'a>,
) -> ScanPiece<'a>
    requires compare { (op_of job.now ≡ Some Compare) ⊎ (op_of job.now ≡ Some ComparePattern) }
    requires operation { op_of job.now ≡ Some op }
    requires order { from ≤ to }
    requires within { to ≤ job.now.size }
    requires empty { room.bytes ≡ [] }
    ensures chunk { (result.from ≡ from) × (result.to ≡ to) }
    ensures found { result.found ≡ scan_found op image.now job.now from to }
    ensures staged { result.staged.bytes ≡ scan_staged op image.now job.now from to }
    ensures place { SamePlace room.entry result.staged }
{
    match op {
        Op::Compare => scan_compare(image, job, from, to, room),
        _ => scan_compare_pattern(image, job, from, to, room),
    }
}

/// The effect of an apply that is scanned in three chunks, cut before two of its entries.
pub fn applied_in_three<'a>(
    image: &Image,
    job: &Checked,
    low: u32,
    high: u32,
    room: Region<'a>,
) -> Effect<'a>
    requires operation { op_of job.now ≡ Some ApplyDelta }
    requires edges { (low ≤ high) × (high ≤ job.now.delta_size / 10) }
    requires empty { room.bytes ≡ [] }
    requires fits { job.now.delta_size ≤ room.room }
    ensures answer { result.answer ≡ (checked_step image.now job.now).1 }
    ensures puts { result.puts ≡ some_puts (checked_effect image.now job.now).puts }
    ensures image { puts_made image.now result.puts ≡ (checked_step image.now job.now).0 }
    ensures present { IsTrue (are_present image.now result.puts) }
{
    let count = job.job().delta_size / 10;
    let (front, rest) = room.cut(10 * low);
    let (middle, back) = rest.cut(10 * (high - low));
    let first = scan_apply(image, job, 0, low, front);
    let second = scan_apply(image, job, low, high, middle);
    let third = scan_apply(image, job, high, count, back);
    join_apply(image, job, [first, second, third].into_iter())
}

/// The effect of an apply of an empty record, which has no chunk.
pub fn applied_in_none<'a>(image: &Image, job: &Checked) -> Effect<'a>
    requires operation { op_of job.now ≡ Some ApplyDelta }
    requires nothing { job.now.delta_size ≡ 0 }
    ensures answer { result.answer ≡ (checked_step image.now job.now).1 }
    ensures puts { result.puts ≡ some_puts (checked_effect image.now job.now).puts }
    ensures image { puts_made image.now result.puts ≡ (checked_step image.now job.now).0 }
    ensures present { IsTrue (are_present image.now result.puts) }
{
    join_apply(image, job, iter::empty())
}

/// The record of a job over two segments, which are taken for it and put back: they hold what the job leaves, and are
/// the caller's slices still.
pub fn submitted_over_two(
    alloc: Global,
    two: &mut Two<'_>,
    arena: &mut Arena,
    job: &Job,
    staging: u32,
) -> Result<Record, AllocError>
    requires segments { AreSegments (pieces_of_two two.old) }
    requires staging { TakesStaging job.now staging → need job.now ≤ arena.old.size }
    ensures answer { IfOk result (λ answer.
        answer ≡ (step (pieces_memory (pieces_of_two two.old)) job.now staging).1) }
    ensures low { OnOk result (two.new.low.content.now
        ≡ segment_bytes (step (pieces_memory (pieces_of_two two.old)) job.now staging).0 0) }
    ensures high { OnOk result (two.new.high.content.now
        ≡ segment_bytes (step (pieces_memory (pieces_of_two two.old)) job.now staging).0 1) }
    ensures same_low { OnOk result (two.new.low.content.ghost_name ≡ two.old.low.content.ghost_name) }
    ensures same_high { OnOk result (two.new.high.content.ghost_name ≡ two.old.high.content.ghost_name) }
{
    law_of_loans();
    let mut image = two.take(alloc)?;
    let answer = submit_to(&mut image, arena, job, staging);
    two.put(image);
    Ok(answer)
}
