//! How far a scan goes in a range, and what stops it.

ghost use Rattle.std.specs.Prelude.{◌≡◌, ◌+◌, ◌-◌, ◌^◌, ◌<◌, ◌≤◌, Some, true, false, if◌then◌else◌};
ghost use Rattle.dml_types.specs.declared.operations.Op.TheVariants.{Fill, Move, Dualcast};
ghost use Rattle.dml_types.specs.Job.{op_of};
ghost use Rattle.dml_types.specs.Bytewise.{operation_direction};
ghost use Rattle.dml_types.specs.Memory.{has, worked_offset, present_toward};
ghost use Rattle.dml_types.specs.Chunk.{scan_found};
ghost use Rattle.dml_scan.specs.Found.{done_count};
ghost use Rattle.dml_scan.specs.Work.{IsWorkDirection};

use dml_desc::Checked;
use dml_image::Image;
use dml_types::{Direction, Found, Job, Op};

/// How many of the `len` bytes of a chunk were done, where its scan ended so.
pub fn done_count(found: Found, len: u32) -> u32
    ensures { result ≡ done_count len found }
{
    match found {
        Found::All => len,
        Found::Differs { done } | Found::Fault { done, .. } => done,
    }
}

/// The end at an absent byte that was to be read.
pub fn read_fault(done: u32, place: u64) -> Found
    ensures { result ≡ Found.Fault done place false }
{
    Found::Fault {
        done,
        place,
        write: false,
    }
}

/// The end at an absent byte that was to be written.
fn write_fault(done: u32, place: u64) -> Found
    ensures { result ≡ Found.Fault done place true }
{
    Found::Fault {
        done,
        place,
        write: true,
    }
}

/// How the scan of a chunk of a fill ends.
#[tactic(auto, using(crate::proofs::ReachLemmas::fill_steps))]
pub fn fill_found(image: &Image, job: &Checked, from: u32, to: u32) -> Found
    requires operation { op_of job.now ≡ Some Fill }
    requires order { from ≤ to }
    requires within { to ≤ job.now.size }
    ensures { result ≡ scan_found Fill image.now job.now from to }
{
    if from == to {
        return Found::All; // its place may be 2^64
    }
    let job = job.job();
    let len = to - from;
    let addr = job.target + u64::from(from);
    let done = image.present_toward(addr, len, Direction::Forward);
    if done == len {
        return Found::All;
    }
    write_fault(done, addr + u64::from(done))
}

/// The order in which a job's offsets are worked on.
pub fn work_direction(job: &Checked) -> Direction
    ensures { IsWorkDirection job.now result }
{
    direction_of(job.op(), job.job())
}

/// The order in which an operation works on a job's offsets: downwards in a move whose destination begins inside its
/// source, behind the first byte, and else upwards.
pub fn direction_of(op: Op, job: &Job) -> Direction
    ensures { result ≡ operation_direction op job.now }
{
    if op == Op::Move {
        Direction::of_move(job.source, job.target, job.size)
    } else {
        Direction::Forward
    }
}

/// The offset in a range of `len` bytes that is next in a direction, once `done` bytes are done.
fn next_offset(direction: Direction, len: u32, done: u32) -> u64
    requires { done < len }
    ensures value { result ≡ worked_offset direction len done }
    ensures within { result < len }
{
    u64::from(match direction {
        Direction::Forward => done,
        Direction::Backward => len - 1 - done,
    })
}

/// How the scan of a chunk of a move ends: at one offset the read comes before the write.
#[tactic(auto, using(crate::proofs::ReachLemmas::move_steps))]
pub fn move_found(image: &Image, job: &Checked, from: u32, to: u32) -> Found
    requires operation { op_of job.now ≡ Some Move }
    requires order { from ≤ to }
    requires within { to ≤ job.now.size }
    ensures { result ≡ scan_found Move image.now job.now from to }
{
    if from == to {
        return Found::All; // its places may be 2^64
    }
    let job = job.job();
    let len = to - from;
    let direction = direction_of(Op::Move, job);
    let source = job.source + u64::from(from);
    let target = job.target + u64::from(from);
    let readable = image.present_toward(source, len, direction);
    let writable = image.present_toward(target, len, direction);
    let done = readable.min(writable);
    if done == len {
        return Found::All;
    }
    let offset = next_offset(direction, len, done);
    fault_at(image, done, source + offset, target + offset)
}

/// The end at a byte that cannot be moved: at its read, or else at its write. It stands apart, so that a scan without a
/// fault is small enough to be put into its caller.
#[inline(never)]
fn fault_at(image: &Image, done: u32, source: u64, target: u64) -> Found
    ensures { result ≡ (if has image.now source then Found.Fault done target true else Found.Fault done source false) }
{
    if image.has(source) {
        write_fault(done, target)
    } else {
        read_fault(done, source)
    }
}

/// How the scan of a chunk of a dualcast ends: at one offset the read comes first, and then the writes in their order.
#[tactic(auto, using(crate::proofs::ReachLemmas::dualcast_steps))]
pub fn dualcast_found(image: &Image, job: &Checked, from: u32, to: u32) -> Found
    requires operation { op_of job.now ≡ Some Dualcast }
    requires order { from ≤ to }
    requires within { to ≤ job.now.size }
    ensures { result ≡ scan_found Dualcast image.now job.now from to }
{
    if from == to {
        return Found::All; // its places may be 2^64
    }
    let job = job.job();
    let len = to - from;
    let source = job.source + u64::from(from);
    let target = job.target + u64::from(from);
    let extra = job.extra + u64::from(from);
    let done = image
        .present_toward(source, len, Direction::Forward)
        .min(image.present_toward(target, len, Direction::Forward))
        .min(image.present_toward(extra, len, Direction::Forward));
    if done == len {
        return Found::All;
    }
    let offset = u64::from(done);
    if !image.has(source + offset) {
        return read_fault(done, source + offset);
    }
    if !image.has(target + offset) {
        return write_fault(done, target + offset);
    }
    write_fault(done, extra + offset)
}
