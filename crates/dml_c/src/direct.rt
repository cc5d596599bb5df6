//! Jobs over the caller's own buffers, wherever these lie. Each export takes the ranges of a descriptor's job as slices
//! of just these bytes; what the descriptor has as addresses is judged by the rules, and never followed.
ghost use Rattle.std.specs.Prelude.{◌≡◌, ◌≢◌, ◌↔◌, ◌⊎◌, ◌+◌, ◌-◌, ◌/◌, IfErr, IfOk, IsTrue, None, Some, length};
ghost use Rattle.std.specs.Prelude.{List, slice_range, take, ℕ};
ghost use Rattle.dml_types.specs.declared.operations.Op.TheVariants.{ApplyDelta, Compare, ComparePattern, CreateDelta};
ghost use Rattle.dml_types.specs.declared.operations.Op.TheVariants.{Dualcast, Fill, Move};
ghost use Rattle.dml_types.specs.declared.statuses.Status.{Status};
ghost use Rattle.dml_types.specs.declared.statuses.Status.TheVariants.{StagingRefused, Success};
ghost use Rattle.dml_types.specs.Bytewise.{operation_direction, pattern_bytes, result_of};
ghost use Rattle.dml_types.specs.Effect.{ended};
ghost use Rattle.dml_types.specs.Job.{op_of};
ghost use Rattle.dml_types.specs.Memory.{Memory, overwrite, put};
ghost use Rattle.dml_buffers.specs.Holds.{Holds};
ghost use Rattle.dml_desc.specs.Descriptor.{bytes_of_record, decoded};
ghost use Rattle.dml_scan.specs.Lanes.{first_difference, first_unlike};
ghost use Rattle.dml_effect.specs.Joined.{compared_record};
ghost use Rattle.dml_direct.specs.Buffers.{applied_bytes, applied_record, cause_in, created_answer, ended_at};
ghost use Rattle.dml_direct.specs.Buffers.{entries_of, good_in};
ghost use Rattle.dml_c.specs.Direct.{LiesIn, refusal_of, step_of};

use crate::codes::{DONE, OTHER_LENGTH, OTHER_OPERATION};
use dml_desc::{Checked, record_bytes};
use dml_direct::{
    apply_delta, compare, compare_pattern, create_delta, dualcast, fill, move_bytes, move_within,
};
use dml_types::{Job, Op, Record, Status};

// A mebibyte, the staging that is enough for every job. Nothing is staged here.
const ENOUGH: u32 = 1_048_576;

/// A mebibyte of staging is enough: no job over buffers is refused for want of it.
pub fn law_of_staging()
    ensures enough { (descriptor : List ℕ) → refusal_of descriptor ≢ Some StagingRefused }
{}

/// The job of a descriptor, where it breaks no rule, and else the status of the first rule that it breaks. It stands
/// apart, so that the rules of all operations are not in the library once for each export.
#[inline(never)]
fn checked(descriptor: &[u8; 64]) -> Result<Checked, Status>
    ensures same { IfOk result (λ job. job ≡ decoded descriptor.now) }
    ensures accepted { IfOk result (λ _. refusal_of descriptor.now ≡ None) }
    ensures refused { IfErr result (λ status. refusal_of descriptor.now ≡ Some status) }
{
    dml_desc::check(&dml_desc::decode(descriptor), ENOUGH)
}

/// The same, where the descriptor of an operation is expected: the rules of that one are put into the export.
#[inline(always)]
fn checked_as(op: Op, descriptor: &[u8; 64]) -> Result<Checked, Status>
    ensures same { IfOk result (λ job. job ≡ decoded descriptor.now) }
    ensures accepted { IfOk result (λ _. refusal_of descriptor.now ≡ None) }
    ensures refused { IfErr result (λ status. refusal_of descriptor.now ≡ Some status) }
{
    let job = dml_desc::decode(descriptor);
    if job.op() == Some(op) {
        dml_desc::check(&job, ENOUGH)
    } else {
        checked(descriptor)
    }
}

/// Compares two buffers, the ranges of a descriptor's compare, and writes its completion record. They may be the same,
/// or overlap.
#[unsafe(no_mangle)]
pub extern "C" fn kazovuni_compare(
    descriptor: &[u8; 64],
    one: &[u8],
    other: &[u8],
    answer: &mut [u8; 32],
) -> u8
    ensures codes { (result ≡ 0) ⊎ (result ≡ 10) ⊎ (result ≡ 11) }
    ensures refused { (status : Status) → refusal_of descriptor.now ≡ Some status →
        (result ≡ 0) × (answer.new ≡ bytes_of_record (ended status 0 0 0)) }
    ensures other_operation { refusal_of descriptor.now ≡ None →
        ((result ≢ 10) ↔ (op_of (decoded descriptor.now) ≡ Some Compare)) }
    ensures other_length { let job = decoded descriptor.now in
        refusal_of descriptor.now ≡ None → op_of job ≡ Some Compare →
        ((result ≢ 11) ↔ ((length one.now ≡ job.size) × (length other.now ≡ job.size))) }
    ensures record { let job = decoded descriptor.now in
        result ≡ 0 → (memory : Memory) → Holds memory job.source one.now → Holds memory job.target other.now →
        answer.new ≡ bytes_of_record (step_of memory descriptor.now).1 }
    ensures content { let job = decoded descriptor.now in
        result ≡ 0 → (memory : Memory) → Holds memory job.source one.now → Holds memory job.target other.now →
        (step_of memory descriptor.now).0 ≡ memory }
    ensures told { let job = decoded descriptor.now in
        result ≡ 0 → refusal_of descriptor.now ≡ None →
        answer.new ≡ bytes_of_record (compared_record job (ended_at job.size (first_difference one.now other.now))) }
    ensures unchanged { result ≢ 0 → answer.new ≡ answer.old }
{
    match checked_as(Op::Compare, descriptor) {
        Err(status) => {
            *answer = record_bytes(&Record::refused(status));
            DONE
        }
        Ok(job) => {
            if job.op() != Op::Compare {
                return OTHER_OPERATION;
            }
            let size = job.job().size as usize;
            if one.len() != size || other.len() != size {
                return OTHER_LENGTH;
            }
            *answer = record_bytes(&compare(&job, one, other));
            DONE
        }
    }
}

/// Compares a buffer, the range of a descriptor's compare with its pattern, and writes its completion record.
#[unsafe(no_mangle)]
pub extern "C" fn kazovuni_compare_pattern(
    descriptor: &[u8; 64],
    bytes: &[u8],
    answer: &mut [u8; 32],
) -> u8
    ensures codes { (result ≡ 0) ⊎ (result ≡ 10) ⊎ (result ≡ 11) }
    ensures refused { (status : Status) → refusal_of descriptor.now ≡ Some status →
        (result ≡ 0) × (answer.new ≡ bytes_of_record (ended status 0 0 0)) }
    ensures other_operation { refusal_of descriptor.now ≡ None →
        ((result ≢ 10) ↔ (op_of (decoded descriptor.now) ≡ Some ComparePattern)) }
    ensures other_length { let job = decoded descriptor.now in
        refusal_of descriptor.now ≡ None → op_of job ≡ Some ComparePattern →
        ((result ≢ 11) ↔ (length bytes.now ≡ job.size)) }
    ensures record { let job = decoded descriptor.now in
        result ≡ 0 → (memory : Memory) → Holds memory job.source bytes.now →
        answer.new ≡ bytes_of_record (step_of memory descriptor.now).1 }
    ensures content { let job = decoded descriptor.now in
        result ≡ 0 → (memory : Memory) → Holds memory job.source bytes.now →
        (step_of memory descriptor.now).0 ≡ memory }
    ensures told { let job = decoded descriptor.now in
        result ≡ 0 → refusal_of descriptor.now ≡ None →
        answer.new ≡ bytes_of_record (compared_record job (ended_at job.size (first_unlike bytes.now job.target 0))) }
    ensures unchanged { result ≢ 0 → answer.new ≡ answer.old }
{
    match checked_as(Op::ComparePattern, descriptor) {
        Err(status) => {
            *answer = record_bytes(&Record::refused(status));
            DONE
        }
        Ok(job) => {
            if job.op() != Op::ComparePattern {
                return OTHER_OPERATION;
            }
            let size = job.job().size as usize;
            if bytes.len() != size {
                return OTHER_LENGTH;
            }
            *answer = record_bytes(&compare_pattern(&job, bytes));
            DONE
        }
    }
}

/// Fills a buffer, the range of a descriptor's fill, and writes its completion record.
#[unsafe(no_mangle)]
pub extern "C" fn kazovuni_fill(
    descriptor: &[u8; 64],
    target: &mut [u8],
    answer: &mut [u8; 32],
) -> u8
    ensures codes { (result ≡ 0) ⊎ (result ≡ 10) ⊎ (result ≡ 11) }
    ensures refused { (status : Status) → refusal_of descriptor.now ≡ Some status →
        (result ≡ 0) × (target.new ≡ target.old) × (answer.new ≡ bytes_of_record (ended status 0 0 0)) }
    ensures other_operation { refusal_of descriptor.now ≡ None →
        ((result ≢ 10) ↔ (op_of (decoded descriptor.now) ≡ Some Fill)) }
    ensures other_length { let job = decoded descriptor.now in
        refusal_of descriptor.now ≡ None → op_of job ≡ Some Fill →
        ((result ≢ 11) ↔ (length target.old ≡ job.size)) }
    ensures record { let job = decoded descriptor.now in
        result ≡ 0 → (memory : Memory) → Holds memory job.target target.old →
        answer.new ≡ bytes_of_record (step_of memory descriptor.now).1 }
    ensures content { let job = decoded descriptor.now in
        result ≡ 0 → (memory : Memory) → Holds memory job.target target.old →
        (step_of memory descriptor.now).0 ≡ put memory job.target target.new }
    ensures told { let job = decoded descriptor.now in
        result ≡ 0 → refusal_of descriptor.now ≡ None →
        answer.new ≡ bytes_of_record (ended Success 0 job.size 0) }
    ensures filled { let job = decoded descriptor.now in
        result ≡ 0 → refusal_of descriptor.now ≡ None →
        target.new ≡ pattern_bytes job.source job.size }
    ensures unchanged { result ≢ 0 → (target.new ≡ target.old) × (answer.new ≡ answer.old) }
{
    match checked_as(Op::Fill, descriptor) {
        Err(status) => {
            *answer = record_bytes(&Record::refused(status));
            DONE
        }
        Ok(job) => {
            if job.op() != Op::Fill {
                return OTHER_OPERATION;
            }
            let size = job.job().size as usize;
            if target.len() != size {
                return OTHER_LENGTH;
            }
            *answer = record_bytes(&fill(&job, target));
            DONE
        }
    }
}

/// Copies a buffer over another one, the ranges of a descriptor's move, and writes its completion record.
#[unsafe(no_mangle)]
pub extern "C" fn kazovuni_move(
    descriptor: &[u8; 64],
    source: &[u8],
    target: &mut [u8],
    answer: &mut [u8; 32],
) -> u8
    ensures codes { (result ≡ 0) ⊎ (result ≡ 10) ⊎ (result ≡ 11) }
    ensures refused { (status : Status) → refusal_of descriptor.now ≡ Some status →
        (result ≡ 0) × (target.new ≡ target.old) × (answer.new ≡ bytes_of_record (ended status 0 0 0)) }
    ensures other_operation { refusal_of descriptor.now ≡ None →
        ((result ≢ 10) ↔ (op_of (decoded descriptor.now) ≡ Some Move)) }
    ensures other_length { let job = decoded descriptor.now in
        refusal_of descriptor.now ≡ None → op_of job ≡ Some Move →
        ((result ≢ 11) ↔ ((length source.now ≡ job.size) × (length target.old ≡ job.size))) }
    ensures record { let job = decoded descriptor.now in
        result ≡ 0 → (memory : Memory) → Holds memory job.source source.now → Holds memory job.target target.old →
        answer.new ≡ bytes_of_record (step_of memory descriptor.now).1 }
    ensures content { let job = decoded descriptor.now in
        result ≡ 0 → (memory : Memory) → Holds memory job.source source.now → Holds memory job.target target.old →
        (step_of memory descriptor.now).0 ≡ put memory job.target target.new }
    ensures told { let job = decoded descriptor.now in
        result ≡ 0 → refusal_of descriptor.now ≡ None →
        answer.new ≡ bytes_of_record (ended Success (result_of (operation_direction Move job)) job.size 0) }
    ensures copied { result ≡ 0 → refusal_of descriptor.now ≡ None → target.new ≡ source.now }
    ensures unchanged { result ≢ 0 → (target.new ≡ target.old) × (answer.new ≡ answer.old) }
{
    match checked_as(Op::Move, descriptor) {
        Err(status) => {
            *answer = record_bytes(&Record::refused(status));
            DONE
        }
        Ok(job) => {
            if job.op() != Op::Move {
                return OTHER_OPERATION;
            }
            let size = job.job().size as usize;
            if source.len() != size || target.len() != size {
                return OTHER_LENGTH;
            }
            *answer = record_bytes(&move_bytes(&job, source, target));
            DONE
        }
    }
}

/// Moves bytes inside a buffer that begins at an address and has both ranges of a descriptor's move, however these
/// overlap, and writes its completion record.
#[unsafe(no_mangle)]
pub extern "C" fn kazovuni_move_within(
    descriptor: &[u8; 64],
    start: u64,
    bytes: &mut [u8],
    answer: &mut [u8; 32],
) -> u8
    ensures codes { (result ≡ 0) ⊎ (result ≡ 10) ⊎ (result ≡ 11) }
    ensures refused { (status : Status) → refusal_of descriptor.now ≡ Some status →
        (result ≡ 0) × (bytes.new ≡ bytes.old) × (answer.new ≡ bytes_of_record (ended status 0 0 0)) }
    ensures other_operation { refusal_of descriptor.now ≡ None →
        ((result ≢ 10) ↔ (op_of (decoded descriptor.now) ≡ Some Move)) }
    ensures other_length { let job = decoded descriptor.now in
        refusal_of descriptor.now ≡ None → op_of job ≡ Some Move →
        ((result ≢ 11) ↔ LiesIn start (length bytes.old) job) }
    ensures record { result ≡ 0 → (memory : Memory) → Holds memory start bytes.old →
        answer.new ≡ bytes_of_record (step_of memory descriptor.now).1 }
    ensures content { result ≡ 0 → (memory : Memory) → Holds memory start bytes.old →
        (step_of memory descriptor.now).0 ≡ put memory start bytes.new }
    ensures told { let job = decoded descriptor.now in
        result ≡ 0 → refusal_of descriptor.now ≡ None →
        answer.new ≡ bytes_of_record (ended Success (result_of (operation_direction Move job)) job.size 0) }
    ensures moved { let job = decoded descriptor.now in
        result ≡ 0 → refusal_of descriptor.now ≡ None →
        (let source = job.source - start in
        bytes.new ≡ overwrite bytes.old (job.target - start) (slice_range bytes.old source (source + job.size))) }
    ensures unchanged { result ≢ 0 → (bytes.new ≡ bytes.old) × (answer.new ≡ answer.old) }
{
    match checked_as(Op::Move, descriptor) {
        Err(status) => {
            *answer = record_bytes(&Record::refused(status));
            DONE
        }
        Ok(job) => {
            if job.op() != Op::Move {
                return OTHER_OPERATION;
            }
            if !lies_in(start, bytes.len() as u64, job.job()) {
                return OTHER_LENGTH;
            }
            *answer = record_bytes(&move_within(&job, start, bytes));
            DONE
        }
    }
}

/// Whether both ranges of a move lie in so many bytes from an address on.
fn lies_in(start: u64, len: u64, job: &Job) -> bool
    ensures { IsTrue result ↔ LiesIn start len job.now }
{
    let size = u64::from(job.size);
    start <= job.source
        && start <= job.target
        && size <= len
        && job.source - start <= len - size
        && job.target - start <= len - size
}

/// Copies a buffer over two others, the ranges of a descriptor's dualcast, and writes its completion record.
#[unsafe(no_mangle)]
pub extern "C" fn kazovuni_dualcast(
    descriptor: &[u8; 64],
    source: &[u8],
    target: &mut [u8],
    second: &mut [u8],
    answer: &mut [u8; 32],
) -> u8
    ensures codes { (result ≡ 0) ⊎ (result ≡ 10) ⊎ (result ≡ 11) }
    ensures refused { (status : Status) → refusal_of descriptor.now ≡ Some status →
        (result ≡ 0) × (target.new ≡ target.old) × (second.new ≡ second.old)
        × (answer.new ≡ bytes_of_record (ended status 0 0 0)) }
    ensures other_operation { refusal_of descriptor.now ≡ None →
        ((result ≢ 10) ↔ (op_of (decoded descriptor.now) ≡ Some Dualcast)) }
    ensures other_length { let job = decoded descriptor.now in
        refusal_of descriptor.now ≡ None → op_of job ≡ Some Dualcast →
        ((result ≢ 11) ↔ ((length source.now ≡ job.size) × (length target.old ≡ job.size)
        × (length second.old ≡ job.size))) }
    ensures record { let job = decoded descriptor.now in
        result ≡ 0 → (memory : Memory) → Holds memory job.source source.now → Holds memory job.target target.old →
        Holds memory job.extra second.old →
        answer.new ≡ bytes_of_record (step_of memory descriptor.now).1 }
    ensures content { let job = decoded descriptor.now in
        result ≡ 0 → (memory : Memory) → Holds memory job.source source.now → Holds memory job.target target.old →
        Holds memory job.extra second.old →
        (step_of memory descriptor.now).0 ≡ put (put memory job.target target.new) job.extra second.new }
    ensures told { let job = decoded descriptor.now in
        result ≡ 0 → refusal_of descriptor.now ≡ None →
        answer.new ≡ bytes_of_record (ended Success 0 job.size 0) }
    ensures copied { result ≡ 0 → refusal_of descriptor.now ≡ None →
        (target.new ≡ source.now) × (second.new ≡ source.now) }
    ensures unchanged { result ≢ 0 → (target.new ≡ target.old) × (second.new ≡ second.old) × (answer.new ≡ answer.old) }
{
    match checked_as(Op::Dualcast, descriptor) {
        Err(status) => {
            *answer = record_bytes(&Record::refused(status));
            DONE
        }
        Ok(job) => {
            if job.op() != Op::Dualcast {
                return OTHER_OPERATION;
            }
            let size = job.job().size as usize;
            if source.len() != size || target.len() != size || second.len() != size {
                return OTHER_LENGTH;
            }
            *answer = record_bytes(&dualcast(&job, source, target, second));
            DONE
        }
    }
}

/// Writes the delta record of two buffers into a third, the ranges of a descriptor's create, and writes its completion
/// record. The first two may be the same, or overlap.
#[unsafe(no_mangle)]
pub extern "C" fn kazovuni_create_delta(
    descriptor: &[u8; 64],
    one: &[u8],
    other: &[u8],
    delta: &mut [u8],
    answer: &mut [u8; 32],
) -> u8
    ensures codes { (result ≡ 0) ⊎ (result ≡ 10) ⊎ (result ≡ 11) }
    ensures refused { (status : Status) → refusal_of descriptor.now ≡ Some status →
        (result ≡ 0) × (delta.new ≡ delta.old) × (answer.new ≡ bytes_of_record (ended status 0 0 0)) }
    ensures other_operation { refusal_of descriptor.now ≡ None →
        ((result ≢ 10) ↔ (op_of (decoded descriptor.now) ≡ Some CreateDelta)) }
    ensures other_length { let job = decoded descriptor.now in
        refusal_of descriptor.now ≡ None → op_of job ≡ Some CreateDelta →
        ((result ≢ 11) ↔ ((length one.now ≡ job.size) × (length other.now ≡ job.size)
        × (length delta.old ≡ job.delta_size))) }
    ensures record { let job = decoded descriptor.now in
        result ≡ 0 → (memory : Memory) → Holds memory job.source one.now → Holds memory job.target other.now →
        Holds memory job.extra delta.old →
        answer.new ≡ bytes_of_record (step_of memory descriptor.now).1 }
    ensures content { let job = decoded descriptor.now in
        result ≡ 0 → (memory : Memory) → Holds memory job.source one.now → Holds memory job.target other.now →
        Holds memory job.extra delta.old →
        (step_of memory descriptor.now).0 ≡ put memory job.extra delta.new }
    ensures told { let job = decoded descriptor.now in
        result ≡ 0 → refusal_of descriptor.now ≡ None →
        answer.new ≡ bytes_of_record (created_answer job (entries_of 0 one.now other.now)) }
    ensures entries { result ≡ 0 → refusal_of descriptor.now ≡ None →
        delta.new ≡ overwrite delta.old 0 (take (length delta.old) (entries_of 0 one.now other.now)) }
    ensures unchanged { result ≢ 0 → (delta.new ≡ delta.old) × (answer.new ≡ answer.old) }
{
    match checked_as(Op::CreateDelta, descriptor) {
        Err(status) => {
            *answer = record_bytes(&Record::refused(status));
            DONE
        }
        Ok(job) => {
            if job.op() != Op::CreateDelta {
                return OTHER_OPERATION;
            }
            let &Job {
                size,
                delta_size,
                ..
            } = job.job();
            if one.len() != size as usize
                || other.len() != size as usize
                || delta.len() != delta_size as usize
            {
                return OTHER_LENGTH;
            }
            *answer = record_bytes(&create_delta(&job, one, other, delta));
            DONE
        }
    }
}

/// Writes the blocks of a delta record over a buffer, the ranges of a descriptor's apply, and writes its completion
/// record.
#[unsafe(no_mangle)]
pub extern "C" fn kazovuni_apply_delta(
    descriptor: &[u8; 64],
    delta: &[u8],
    target: &mut [u8],
    answer: &mut [u8; 32],
) -> u8
    ensures codes { (result ≡ 0) ⊎ (result ≡ 10) ⊎ (result ≡ 11) }
    ensures refused { (status : Status) → refusal_of descriptor.now ≡ Some status →
        (result ≡ 0) × (target.new ≡ target.old) × (answer.new ≡ bytes_of_record (ended status 0 0 0)) }
    ensures other_operation { refusal_of descriptor.now ≡ None →
        ((result ≢ 10) ↔ (op_of (decoded descriptor.now) ≡ Some ApplyDelta)) }
    ensures other_length { let job = decoded descriptor.now in
        refusal_of descriptor.now ≡ None → op_of job ≡ Some ApplyDelta →
        ((result ≢ 11) ↔ ((length delta.now ≡ job.delta_size) × (length target.old ≡ job.size))) }
    ensures record { let job = decoded descriptor.now in
        result ≡ 0 → (memory : Memory) → Holds memory job.source delta.now → Holds memory job.target target.old →
        answer.new ≡ bytes_of_record (step_of memory descriptor.now).1 }
    ensures content { let job = decoded descriptor.now in
        result ≡ 0 → (memory : Memory) → Holds memory job.source delta.now → Holds memory job.target target.old →
        (step_of memory descriptor.now).0 ≡ put memory job.target target.new }
    ensures told { let job = decoded descriptor.now in
        result ≡ 0 → refusal_of descriptor.now ≡ None →
        answer.new ≡ bytes_of_record
        (applied_record (good_in delta.now (job.size / 8)) (cause_in delta.now (job.size / 8))) }
    ensures blocks { let job = decoded descriptor.now in
        result ≡ 0 → refusal_of descriptor.now ≡ None →
        target.new ≡ applied_bytes delta.now (good_in delta.now (job.size / 8)) target.old }
    ensures unchanged { result ≢ 0 → (target.new ≡ target.old) × (answer.new ≡ answer.old) }
{
    match checked_as(Op::ApplyDelta, descriptor) {
        Err(status) => {
            *answer = record_bytes(&Record::refused(status));
            DONE
        }
        Ok(job) => {
            if job.op() != Op::ApplyDelta {
                return OTHER_OPERATION;
            }
            let &Job {
                size,
                delta_size,
                ..
            } = job.job();
            if delta.len() != delta_size as usize || target.len() != size as usize {
                return OTHER_LENGTH;
            }
            *answer = record_bytes(&apply_delta(&job, delta, target));
            DONE
        }
    }
}
