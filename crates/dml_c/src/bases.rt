//! Jobs whose addresses are the caller's own pointers.
ghost use Rattle.std.specs.Prelude.{◌≡◌, ◌↔◌, ℕ, ◌+◌, ◌-◌, ◌^◌, ◌<◌, ◌≤◌, ◌⊎◌, true, false, List, length};
ghost use Rattle.dml_types.specs.Job.{is_past, span};
ghost use Rattle.dml_types.specs.Memory.{has};
ghost use Rattle.dml_effect.specs.Pages.{all_present};
ghost use Rattle.dml_c.specs.Bases as base;

use dml_effect::by_fields;
use dml_types::{Job, Op, Record, Status};

/// How far an address lies behind a base; it wraps where the address is below.
fn distance(start: u64, address: u64) -> u64
    ensures { result ≡ base.distance start address }
{
    address.wrapping_sub(start)
}

/// The address that lies so far behind a base.
fn address_at(start: u64, distance: u64) -> u64
    ensures { result ≡ base.address_at start distance }
{
    start.wrapping_add(distance)
}

/// The job with the addresses of its operation counted from a base.
pub fn counted(start: u64, job: &Job) -> Job
    ensures { result ≡ base.counted start job.now }
{
    let source = distance(start, job.source);
    let target = distance(start, job.target);
    let extra = distance(start, job.extra);
    match job.op() {
        Some(Op::Move | Op::Compare | Op::ApplyDelta) => Job {
            source,
            target,
            ..*job
        },
        Some(Op::Fill) => Job { target, ..*job },
        Some(Op::ComparePattern) => Job { source, ..*job },
        Some(Op::CreateDelta | Op::Dualcast) => Job {
            source,
            target,
            extra,
            ..*job
        },
        Some(Op::NoOp) | None => *job,
    }
}

/// The record with the caller's address of a page fault.
pub fn answered_at(start: u64, answer: &Record) -> Record
    ensures { result ≡ base.answered_at start answer.now }
{
    match answer.status {
        Status::ReadFault | Status::WriteFault => Record {
            fault: address_at(start, answer.fault),
            ..*answer
        },
        _ => by_fields(*answer),
    }
}

/// Addresses counted from a base: with the base put back they are the caller's again; from the base on they are the
/// distance. Of pages that end at 2^64 at most, each byte is present at its own address, and from an address below the
/// base, or behind the pages, on there is none. A range ends above 2^64 exactly where it goes on over the base.
pub fn law_of_bases()
    ensures back { (start address : ℕ) → start < 2 ^ 64 → address < 2 ^ 64 →
        base.address_at start (base.distance start address) ≡ address }
    ensures from_the_base { (start address : ℕ) → start ≤ address → address < 2 ^ 64 →
        base.distance start address ≡ address - start }
    ensures within { (start address : ℕ) (content : List ℕ) → base.ArePagesAt start content →
        start ≤ address → address < start + length content →
        has (all_present content) (base.distance start address) ≡ true }
    ensures outside { (start address i : ℕ) (content : List ℕ) → base.ArePagesAt start content →
        address < 2 ^ 64 → (address < start) ⊎ (start + length content ≤ address) →
        has (all_present content) (base.distance start address + i) ≡ false }
    ensures range { (start address n : ℕ) → start < 2 ^ 64 → address < 2 ^ 64 →
        (is_past (span (base.distance start address) n) ≡ true) ↔ base.GoesOver start address n }
{}
