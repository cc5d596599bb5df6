//! Lists in list order: each job one after another.
ghost use Rattle.std.specs.Prelude.{◌≡◌, length, map};
ghost use Rattle.dml_types.specs.Step.{memory_after, records_of};
ghost use Rattle.dml_desc.specs.Descriptor.{bytes_of_record, decoded};
ghost use Rattle.dml_effect.specs.Batches.{HaveRoom};

use crate::carrying::submit_to;
use crate::records::by_fields;
use dml_arena::Arena;
use dml_image::Image;
use dml_types::{Job, Record};

/// Carries out a list of jobs on an image one after another, and writes the record of each. A fenced job is refused in
/// a list. Nothing is allocated.
pub fn submit_list_to(
    image: &mut Image,
    arena: &mut Arena,
    jobs: &[Job],
    staging: u32,
    records: &mut [Record],
)
    requires size { length records.old ≡ length jobs.now }
    requires staging { HaveRoom jobs.now staging arena.old.size }
    ensures image { image.new ≡ memory_after image.old jobs.now staging }
    ensures records { records.new ≡ records_of image.old jobs.now staging }
    ensures arena { arena.new ≡ arena.old }
{
    for i in 0..jobs.len() {
        records[i] = by_fields(submit_to(image, arena, &jobs[i], staging));
    }
}

/// The same of descriptors, with the bytes of the records.
pub fn submit_list_bytes_to(
    image: &mut Image,
    arena: &mut Arena,
    descriptors: &[[u8; 64]],
    staging: u32,
    answers: &mut [[u8; 32]],
)
    requires size { length answers.old ≡ length descriptors.now }
    requires staging { HaveRoom (map decoded descriptors.now) staging arena.old.size }
    ensures image { image.new ≡ memory_after image.old (map decoded descriptors.now) staging }
    ensures records { answers.new
        ≡ map bytes_of_record (records_of image.old (map decoded descriptors.now) staging) }
    ensures arena { arena.new ≡ arena.old }
{
    for i in 0..descriptors.len() {
        let job = dml_desc::decode(&descriptors[i]);
        let outcome = submit_to(image, arena, &job, staging);
        answers[i] = dml_desc::record_bytes(&outcome);
    }
}
