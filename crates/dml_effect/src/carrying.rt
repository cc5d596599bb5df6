//! Jobs carried out on an image, each as one chunk.
ghost use Rattle.std.specs.Prelude.{◌≡◌, ◌≢◌, ◌↔◌, ◌⊎◌, ◌+◌, ◌%◌, ◌<◌, ◌≤◌, ℕ, List, [], None, Some, IsTrue, false};
ghost use Rattle.dml_types.specs.declared.operations.Op.TheVariants.{ApplyDelta, CreateDelta, Dualcast, Fill, Move};
ghost use Rattle.dml_types.specs.declared.findings.Found.TheVariants.{All};
ghost use Rattle.dml_types.specs.Job.{op_of, unfenced};
ghost use Rattle.dml_types.specs.Memory.{has, puts_made};
ghost use Rattle.dml_types.specs.Refusal.{need, refusal};
ghost use Rattle.dml_types.specs.Step.{step};
ghost use Rattle.dml_desc.specs.Checked.{checked_step};
ghost use Rattle.dml_types.specs.declared.operations.Direction.TheVariants.{Forward};
ghost use Rattle.dml_effect.specs.Effects.{are_present, puts_of};
ghost use Rattle.dml_effect.specs.Joined as joined;
ghost use Rattle.dml_effect.specs.Straight.{IsCompare, IsDelta, IsWholeFound, TakesStaging};

use crate::applying::{self, join_apply};
use crate::creating::{self, join_create};
use crate::effects::{Effect, Puts, commit};
use crate::records::{by_fields, compared_record, copied_record, ended, scanned_record};
use dml_arena::{Arena, Region};
use dml_delta::{scan_apply, scan_create};
use dml_desc::{Checked, check, check_in_batch};
use dml_image::Image;
use dml_scan::{
    compare_found, compare_pattern_found, dualcast_found, fill_found, move_found, work_direction,
};
use dml_types::{Direction, Found, Job, Op, Record, Status};
use std::iter;

/// Checks a job and carries it out on an image, or answers its refusal. A refused job changes nothing.
///
/// Room is asked for where the job takes staging: [`takes_staging`] is the test.
#[tactic(auto, using(crate::proofs::WholeLemmas::effect_at_need, crate::proofs::WholeLemmas::need_under))]
pub fn submit_to(image: &mut Image, arena: &mut Arena, job: &Job, staging: u32) -> Record
    requires staging { TakesStaging job.now staging → need job.now ≤ arena.old.size }
    ensures image { image.new ≡ (step image.old job.now staging).0 }
    ensures answer { result ≡ (step image.old job.now staging).1 }
    ensures arena { arena.new ≡ arena.old }
{
    match check(job, staging) {
        Ok(checked) => by_fields(carry_out(image, arena, &checked)),
        Err(status) => Record::refused(status),
    }
}

/// The same for a job of a batch, which may have the fence and is carried out without it.
#[tactic(auto, using(crate::proofs::WholeLemmas::effect_of_fenced))]
pub fn submit_in_batch_to(image: &mut Image, arena: &mut Arena, job: &Job, staging: u32) -> Record
    requires staging { TakesStaging (unfenced job.now) staging → need (unfenced job.now) ≤ arena.old.size }
    ensures image { image.new ≡ (step image.old (unfenced job.now) staging).0 }
    ensures answer { result ≡ (step image.old (unfenced job.now) staging).1 }
    ensures arena { arena.new ≡ arena.old }
{
    match check_in_batch(job, staging) {
        Ok(checked) => by_fields(carry_out(image, arena, &checked)),
        Err(reason) => Record::refused(reason),
    }
}

/// Checks a job that takes no staging and carries it out, or answers its refusal.
#[tactic(auto, using(crate::proofs::WholeLemmas::effect_at_need, crate::proofs::WholeLemmas::need_under))]
pub fn submit_straight_to(image: &mut Image, job: &Job, staging: u32) -> Record
    requires staging { TakesStaging job.now staging → ⊥ }
    ensures image { image.new ≡ (step image.old job.now staging).0 }
    ensures answer { result ≡ (step image.old job.now staging).1 }
{
    match check(job, staging) {
        Ok(checked) => by_fields(carry_out_straight(image, &checked)),
        Err(refusal) => Record::refused(refusal),
    }
}

/// Whether a job that is carried out as one chunk takes staging: it is a create or an apply that is not refused, and
/// has bytes to stage. Any other job goes straight within the image, or is refused.
#[inline(always)]
pub fn takes_staging(job: &Job, staging: u32) -> bool
    ensures { IsTrue result ↔ TakesStaging job.now staging }
{
    match job.op() {
        Some(Op::CreateDelta | Op::ApplyDelta) => needs_some(job, staging),
        _ => false,
    }
}

/// Whether a job is not refused, and needs a byte of staging at least. It stands apart, so that other jobs than creates
/// and applies go past it quickly.
#[tactic(auto, using(dml_desc::proofs::CheckedLemmas::need_within))]
fn needs_some(job: &Job, staging: u32) -> bool
    ensures { IsTrue result
        ↔ (refusal job.now staging ≡ None) × (0 < need job.now) × (need job.now ≤ staging) }
{
    dml_desc::need(job) > 0 && check(job, staging).is_ok()
}

/// Carries out a job as one chunk, and returns its completion record. Nothing is allocated.
///
/// A create and an apply stage their record in the arena; all else goes straight.
#[inline(always)]
pub fn carry_out(image: &mut Image, arena: &mut Arena, job: &Checked) -> Record
    requires staging { IsDelta job.now → need job.now ≤ arena.old.size }
    ensures image { image.new ≡ (checked_step image.old job.now).0 }
    ensures answer { result ≡ (checked_step image.old job.now).1 }
    ensures arena { arena.new ≡ arena.old }
{
    if job.op() == Op::Move {
        return move_straight(image, job);
    }
    let other = *job;
    by_fields(carry_out_other(image, arena, &other))
}

/// Carries out a job that is no move as one chunk. It is given a copy of the job: what it calls reads that from memory,
/// and a move, which needs neither the job nor its record there, keeps both in registers.
#[inline(always)]
fn carry_out_other(image: &mut Image, arena: &mut Arena, job: &Checked) -> Record
    requires operation { op_of job.now ≢ Some Move }
    requires staging { IsDelta job.now → need job.now ≤ arena.old.size }
    ensures image { image.new ≡ (checked_step image.old job.now).0 }
    ensures answer { result ≡ (checked_step image.old job.now).1 }
    ensures arena { arena.new ≡ arena.old }
{
    match job.op() {
        Op::CreateDelta | Op::ApplyDelta => carry_out_staged(image, arena, job),
        _ => carry_out_other_straight(image, job),
    }
}

/// Carries out a create or an apply as one chunk, staged in the arena. It stands apart, so that a job that goes
/// straight has none of its frame.
#[inline(never)]
fn carry_out_staged(image: &mut Image, arena: &mut Arena, job: &Checked) -> Record
    requires operation { IsDelta job.now }
    requires staging { need job.now ≤ arena.old.size }
    ensures image { image.new ≡ (checked_step image.old job.now).0 }
    ensures answer { result ≡ (checked_step image.old job.now).1 }
    ensures arena { arena.new ≡ arena.old }
{
    let room = arena.open();
    let effect = if job.op() == Op::CreateDelta {
        create_in(image, job, room)
    } else {
        apply_in(image, job, room)
    };
    by_fields(commit(image, effect))
}

/// Carries out a job that stages nothing as one chunk, within the image, and returns its completion record.
#[inline(always)]
pub fn carry_out_straight(image: &mut Image, job: &Checked) -> Record
    requires staging { IsDelta job.now → need job.now ≡ 0 }
    ensures image { image.new ≡ (checked_step image.old job.now).0 }
    ensures answer { result ≡ (checked_step image.old job.now).1 }
{
    if job.op() == Op::Move {
        return move_straight(image, job);
    }
    let other = *job;
    by_fields(carry_out_other_straight(image, &other))
}

/// The same for a job that is no move. It is given a copy of the job, as `carry_out_other` is.
#[inline(always)]
fn carry_out_other_straight(image: &mut Image, job: &Checked) -> Record
    requires operation { op_of job.now ≢ Some Move }
    requires staging { IsDelta job.now → need job.now ≡ 0 }
    ensures image { image.new ≡ (checked_step image.old job.now).0 }
    ensures answer { result ≡ (checked_step image.old job.now).1 }
{
    match job.op() {
        Op::NoOp => ended(Status::Success, 0, 0),
        Op::Move => unreachable!(),
        Op::Dualcast => {
            let found = dualcast_straight(image, job);
            copied_record(job.job().size, Direction::Forward, found)
        }
        Op::Fill => by_fields(fill_straight(image, job)),
        Op::Compare | Op::ComparePattern => by_fields(compare_straight(image, job)),
        Op::CreateDelta | Op::ApplyDelta => carry_out_effect(image, job),
    }
}

/// Carries out a fill, at once where it lies in one page.
#[inline(always)]
fn fill_straight(image: &mut Image, job: &Checked) -> Record
    requires operation { op_of job.now ≡ Some Fill }
    ensures image { image.new ≡ (checked_step image.old job.now).0 }
    ensures answer { result ≡ (checked_step image.old job.now).1 }
{
    let _pages = image.pages(); // says what every image keeps
    let given = job.job();
    if image.fill_in_page(given.target, given.size, given.source) {
        return scanned_record(Op::Fill, given, Direction::Forward, Found::All);
    }
    carry_out_effect(image, job)
}

/// Carries out a compare, which changes nothing.
#[inline(never)]
fn compare_straight(image: &Image, job: &Checked) -> Record
    requires operation { IsCompare job.now }
    ensures image { image.now ≡ (checked_step image.now job.now).0 }
    ensures answer { result ≡ (checked_step image.now job.now).1 }
{
    let found = whole_found(image, job);
    compared_record(job.job(), found)
}

/// How the scan of a whole compare ends.
fn whole_found(image: &Image, job: &Checked) -> Found
    requires operation { IsCompare job.now }
    ensures { IsWholeFound image.now job.now result }
{
    let size = job.job().size;
    match job.op() {
        Op::Compare => compare_found(image, job, 0, size),
        _ => compare_pattern_found(image, job, 0, size),
    }
}

/// Carries out a fill that does not lie in one page, or an empty create or apply.
#[inline(never)]
fn carry_out_effect(image: &mut Image, job: &Checked) -> Record
    requires operation { IsDelta job.now ⊎ (op_of job.now ≡ Some Fill) }
    requires staging { IsDelta job.now → need job.now ≡ 0 }
    ensures image { image.new ≡ (checked_step image.old job.now).0 }
    ensures answer { result ≡ (checked_step image.old job.now).1 }
{
    let effect = match job.op() {
        Op::CreateDelta | Op::ApplyDelta => empty_in(image, job),
        _ => fill_in(image, job),
    };
    by_fields(commit(image, effect))
}

/// Carries out a move within the image, with no stage.
#[inline(always)]
fn move_straight(image: &mut Image, job: &Checked) -> Record
    requires operation { op_of job.now ≡ Some Move }
    ensures image { image.new ≡ (checked_step image.old job.now).0 }
    ensures answer { result ≡ (checked_step image.old job.now).1 }
{
    let direction = work_direction(job);
    let &Job {
        source,
        target,
        size,
        ..
    } = job.job();
    if image.move_in_page(source, target, size) {
        return copied_record(size, direction, Found::All);
    }
    by_fields(move_scanned(image, job))
}

/// Carries out a move that meets a fault, or goes over a page's edge: first it is looked how far it comes.
#[inline(always)]
#[tactic(auto, using(crate::proofs::StraightLemmas::straight_places))]
fn move_scanned(image: &mut Image, job: &Checked) -> Record
    requires operation { op_of job.now ≡ Some Move }
    ensures image { image.new ≡ (checked_step image.old job.now).0 }
    ensures answer { result ≡ (checked_step image.old job.now).1 }
{
    let direction = work_direction(job);
    let &Job {
        source,
        target,
        size,
        ..
    } = job.job();
    let found = move_found(image, job, 0, size);
    let answer = copied_record(size, direction, found);
    let done = answer.completed;
    if done == 0 {
        return answer; // the ranges may end at 2^64
    }
    let first = u64::from(direction.lowest_done(size, done));
    image.move_within(source + first, target + first, done);
    answer
}

/// Carries out a dualcast within the image, with no stage: the first destination shares no byte with the source. It
/// answers how that ended, and its caller makes the record: one that a call answers is read again at once, and waits.
fn dualcast_straight(image: &mut Image, job: &Checked) -> Found
    requires operation { op_of job.now ≡ Some Dualcast }
    ensures answer { joined.copied_record job.now.size 0 result ≡ (checked_step image.old job.now).1 }
    ensures image { image.new ≡ (checked_step image.old job.now).0 }
{
    if dualcast_in_page(image, job) {
        return Found::All;
    }
    dualcast_scanned(image, job)
}

/// Carries out a dualcast at once where each of its ranges lies in one page, which is present. Answers whether it was
/// done; else nothing is changed.
fn dualcast_in_page(image: &mut Image, job: &Checked) -> bool
    requires operation { op_of job.now ≡ Some Dualcast }
    ensures answer { IsTrue result → joined.copied_record job.now.size 0 All ≡ (checked_step image.old job.now).1 }
    ensures image { IsTrue result → image.new ≡ (checked_step image.old job.now).0 }
    ensures goes { 0 < job.now.size → job.now.source % 4096 + job.now.size ≤ 4096
        → job.now.target % 4096 + job.now.size ≤ 4096 → job.now.extra % 4096 + job.now.size ≤ 4096
        → IsTrue (has image.old job.now.source) → IsTrue (has image.old job.now.target)
        → IsTrue (has image.old job.now.extra) → IsTrue result }
    ensures unchanged { result ≡ false → image.new ≡ image.old }
{
    let _pages = image.pages(); // says what every image keeps
    let &Job {
        source,
        target,
        size,
        extra,
        ..
    } = job.job();
    image.copy_twice_in_page(source, target, extra, size)
}

/// Carries out a dualcast that meets a fault, goes over a page's edge, or has no bytes: first it is looked how far it
/// comes. It stands apart, so that a dualcast within pages has none of its frame.
#[inline(never)]
fn dualcast_scanned(image: &mut Image, job: &Checked) -> Found
    requires operation { op_of job.now ≡ Some Dualcast }
    ensures answer { joined.copied_record job.now.size 0 result ≡ (checked_step image.old job.now).1 }
    ensures image { image.new ≡ (checked_step image.old job.now).0 }
{
    let &Job {
        source,
        target,
        size,
        extra,
        ..
    } = job.job();
    let found = dualcast_found(image, job, 0, size);
    let answer = copied_record(size, Direction::Forward, found);
    let done = answer.completed;
    if done > 0 {
        let _pages = image.pages(); // says what every image keeps
        image.move_within(source, target, done);
        image.move_within(source, extra, done);
    }
    found
}

/// The effect of a whole fill, which stages nothing.
fn fill_in<'a>(image: &Image, job: &Checked) -> Effect<'a>
    requires operation { op_of job.now ≡ Some Fill }
    ensures answer { result.answer ≡ (checked_step image.now job.now).1 }
    ensures image { puts_made image.now result.puts ≡ (checked_step image.now job.now).0 }
    ensures present { IsTrue (are_present image.now result.puts) }
{
    let _pages = image.pages(); // says what every image keeps
    let given = job.job();
    let found = fill_found(image, job, 0, given.size);
    let answer = scanned_record(Op::Fill, given, Direction::Forward, found);
    let puts = filled_puts(given, answer.completed);
    Effect { answer, puts }
}

/// The puts of a fill that did `done` bytes of its range.
fn filled_puts<'a>(job: &Job, done: u32) -> Puts<'a>
    ensures { (bytes : List ℕ) → puts_of result ≡ joined.scanned_puts Fill job.now Forward done bytes }
{
    if done > 0 {
        Puts::Pattern {
            addr: job.target,
            len: done,
            pattern: job.source,
        }
    } else {
        Puts::Nothing
    }
}

/// The effect of a create or an apply that has nothing to stage.
fn empty_in<'a>(image: &Image, job: &Checked) -> Effect<'a>
    requires operation { IsDelta job.now }
    requires empty { need job.now ≡ 0 }
    ensures answer { result.answer ≡ (checked_step image.now job.now).1 }
    ensures image { puts_made image.now result.puts ≡ (checked_step image.now job.now).0 }
    ensures present { IsTrue (are_present image.now result.puts) }
{
    match job.op() {
        Op::CreateDelta => creating::effect_of(image, job, None),
        _ => applying::effect_of(image, job, None),
    }
}

/// The effect of a whole create.
fn create_in<'a>(image: &Image, job: &Checked, room: Region<'a>) -> Effect<'a>
    requires operation { op_of job.now ≡ Some CreateDelta }
    requires empty { room.bytes ≡ [] }
    requires fits { need job.now ≤ room.room }
    ensures answer { result.answer ≡ (checked_step image.now job.now).1 }
    ensures image { puts_made image.now result.puts ≡ (checked_step image.now job.now).0 }
    ensures present { IsTrue (are_present image.now result.puts) }
{
    let blocks = job.job().size / 8;
    let piece = scan_create(image, job, 0, blocks, room);
    join_create(image, job, iter::once(piece))
}

/// The effect of a whole apply, whose record is staged.
fn apply_in<'a>(image: &Image, job: &Checked, room: Region<'a>) -> Effect<'a>
    requires operation { op_of job.now ≡ Some ApplyDelta }
    requires empty { room.bytes ≡ [] }
    requires fits { need job.now ≤ room.room }
    ensures answer { result.answer ≡ (checked_step image.now job.now).1 }
    ensures image { puts_made image.now result.puts ≡ (checked_step image.now job.now).0 }
    ensures present { IsTrue (are_present image.now result.puts) }
{
    let entries = job.job().delta_size / 10;
    let piece = scan_apply(image, job, 0, entries, room);
    join_apply(image, job, iter::once(piece))
}
