//! The engine behind a handle.
ghost use Rattle.std.specs.Prelude.{◌≡◌, ◌≢◌, ◌↔◌, ◌+◌, ◌^◌, ◌<◌, ◌≤◌, IfOk, IsOk, IsTrue, OnErr, OnOk, Err, length, map, true};
ghost use Rattle.std.specs.Prelude.{if◌then◌else◌, None, IfSome, IsSome};
ghost use Rattle.std.specs.Bool.{OnFalse, OnTrue};
ghost use Rattle.dml_types.specs.Memory.{bytes_at, has_all, present_bytes, put};
ghost use Rattle.dml_types.specs.Step.{batch, memory_after, records_of, step};
ghost use Rattle.dml_desc.specs.Descriptor.{bytes_of_record, decoded};
ghost use Rattle.dml_image.specs.Brought.{brought, evicted, has_page};
ghost use Rattle.dml_effect.specs.Pages.{IsWholePages, all_present};
ghost use Rattle.dml_c.specs.Regions as table;
ghost use Rattle.dml_c.specs.State.{opened, with_image};

use crate::lending::submit_move;
use crate::regions::{CRegion, MOST_REGIONS, lend, settle};
use crate::room::Room;
use dml_arena::Arena;
use dml_effect::{
    by_fields, submit_batch_bytes_to, submit_batch_over, submit_list_bytes_to, submit_list_over,
    submit_over_whole, submit_to,
};
use dml_image::{Image, ImageError};
use dml_types::{BatchRecord, Op, Record};
use std::alloc::{AllocError, Global};
use std::marker::Model;

/// A memory image of 4,096 pages at most, the arena in which jobs stage bytes, and room for a table of regions. It has
/// one worker.
#[derive(Drop)]
pub struct Engine {
    image: Image<'static>,
    arena: Arena,
    staging: u32,
    room: Room,
}

impl Model for Engine {
    ghost use Rattle.std.specs.Prelude.{◌≡◌, ◌≤◌, length, true};
    ghost use Rattle.dml_types.specs.Memory.{is_own};
    ghost use Rattle.dml_c.specs.State.{State};

    ghost Value = { State };

    ghost view = { λ e. record { image = e.image; staging = e.staging } };

    ghost invariant = { λ e. (e.arena.size ≡ e.staging) × (length e.image.present ≤ 4096) × (is_own e.image ≡ true) };
}

impl Engine {
    /// An engine of so many pages, all absent, with so many bytes of staging.
    ///
    /// # Errors
    /// There is no memory.
    pub fn new(alloc: Global, pages: u32, staging: u32) -> Result<Box<Engine>, AllocError>
        requires { (1 ≤ pages) × (pages ≤ 4096) }
        ensures { IfOk result (λ engine. engine.value ≡ opened pages staging) }
    {
        let Ok(image) = Image::new(alloc, pages) else {
            return Err(AllocError);
        };
        let Ok(arena) = Arena::new(alloc, staging) else {
            return Err(AllocError);
        };
        let Ok(room) = Room::new(alloc, MOST_REGIONS) else {
            return Err(AllocError);
        };
        let engine = Engine {
            image,
            arena,
            staging,
            room,
        };
        match Box::new(alloc, engine) {
            Ok(engine) => Ok(engine),
            Err(_) => Err(AllocError),
        }
    }

    /// Makes a page present with these bytes; a page that is present is overwritten.
    ///
    /// # Errors
    /// `NoSuchPage`, and `NoMemory`, which a page that is present never meets.
    pub fn bring(&mut self, page: u32, bytes: &[u8; 4096]) -> Result<(), ImageError>
        ensures ok { OnOk result (self.new ≡ with_image self.old (brought self.old.image page bytes.now)) }
        ensures err { OnErr result (self.new ≡ self.old) }
        ensures no_such_page { (result ≡ Err ImageError.NoSuchPage) ↔ (length self.old.image.present ≤ page) }
        ensures again { IsTrue (has_page self.old.image page) → IsOk result }
    {
        self.image.bring(page, bytes)
    }

    /// Writes bytes from an address on, where all of them are present, and answers whether they are.
    pub fn write(&mut self, address: u64, bytes: &[u8]) -> bool
        ensures present { result ≡ has_all self.old.image address (length bytes.now) }
        ensures written { self.new
            ≡ (if result then with_image self.old (put self.old.image address bytes.now) else self.old) }
    {
        let is_present = has_range(&self.image, address, bytes.len());
        if is_present {
            self.image.write(address, bytes);
        }
        is_present
    }

    /// Reads bytes from an address on into the whole buffer, where all of them are present, and answers whether they
    /// are.
    pub fn read(&self, address: u64, buffer: &mut [u8]) -> bool
        ensures present { result ≡ has_all self.now.image address (length buffer.old) }
        ensures read { buffer.new
            ≡ (if result then bytes_at self.now.image address (length buffer.old) else buffer.old) }
    {
        let is_present = has_range(&self.image, address, buffer.len());
        if is_present {
            self.image.read_into(address, buffer);
        }
        is_present
    }

    /// Gives a page up, with its memory, and answers whether it was present.
    ///
    /// # Errors
    /// `NoSuchPage`.
    pub fn evict(&mut self, page: u32) -> Result<bool, ImageError>
        ensures page { page < length self.old.image.present → result ≡ Ok (has_page self.old.image page) }
        ensures no_such_page { length self.old.image.present ≤ page → result ≡ Err ImageError.NoSuchPage }
        ensures gone { result ≡ Ok true → self.new ≡ with_image self.old (evicted self.old.image page) }
        ensures kept { result ≢ Ok true → self.new ≡ self.old }
    {
        self.image.evict(page)
    }

    /// How many bytes of a range are present, from its first one on.
    pub fn present(&self, address: u64, len: u32) -> u32
        requires { address + len ≤ 2 ^ 64 }
        ensures { result ≡ present_bytes self.now.image address len }
    {
        self.image.present_bytes(address, len)
    }

    /// Carries out the job of a descriptor, and answers its record.
    pub fn submit(&mut self, descriptor: &[u8; 64]) -> Record
        ensures image { self.new
            ≡ with_image self.old (step self.old.image (decoded descriptor.now) self.old.staging).0 }
        ensures record { result ≡ (step self.old.image (decoded descriptor.now) self.old.staging).1 }
    {
        let job = dml_desc::decode(descriptor);
        by_fields(submit_to(&mut self.image, &mut self.arena, &job, self.staging))
    }

    /// Carries out the jobs of some descriptors one after another, and writes the bytes of their records.
    #[tactic(auto, using(dml_effect::proofs::BatchLemmas::room_of_limit))]
    pub fn submit_all(&mut self, descriptors: &[[u8; 64]], answers: &mut [[u8; 32]])
        requires { length answers.old ≡ length descriptors.now }
        ensures image { self.new
            ≡ with_image self.old (memory_after self.old.image (map decoded descriptors.now) self.old.staging) }
        ensures records { answers.new
            ≡ map bytes_of_record (records_of self.old.image (map decoded descriptors.now) self.old.staging) }
    {
        let staging = self.staging;
        submit_list_bytes_to(
            &mut self.image,
            &mut self.arena,
            descriptors,
            staging,
            answers,
        );
    }

    /// Carries out the jobs of some descriptors as a batch, writes the bytes of their records, and answers its own.
    #[tactic(auto, using(dml_effect::proofs::BatchLemmas::room_of_limit))]
    pub fn submit_batch(
        &mut self,
        descriptors: &[[u8; 64]],
        answers: &mut [[u8; 32]],
    ) -> BatchRecord
        requires few { length descriptors.now < 2 ^ 32 }
        requires as_many { length answers.old ≡ length descriptors.now }
        ensures image { self.new
            ≡ with_image self.old (batch self.old.image (map decoded descriptors.now) self.old.staging).0 }
        ensures answer { result ≡ (batch self.old.image (map decoded descriptors.now) self.old.staging).1 }
        ensures records { answers.new
            ≡ map bytes_of_record (batch self.old.image (map decoded descriptors.now) self.old.staging).2 }
    {
        let staging = self.staging;
        submit_batch_bytes_to(
            &mut self.image,
            &mut self.arena,
            descriptors,
            staging,
            answers,
        )
    }
}

// Jobs over memory of the caller's, with the staging of an engine, whose own image stays as it is.
impl Engine {
    /// Carries out the job of a descriptor over the caller's whole pages, and answers its record.
    pub fn submit_over(&mut self, content: &mut [u8], descriptor: &[u8; 64]) -> Record
        requires pages { IsWholePages content.old }
        ensures engine { self.new ≡ self.old }
        ensures content { content.new
            ≡ (step (all_present content.old) (decoded descriptor.now) self.old.staging).0.bytes }
        ensures record { result ≡ (step (all_present content.old) (decoded descriptor.now) self.old.staging).1 }
    {
        let job = dml_desc::decode(descriptor);
        if let Some(Op::Move) = job.op() {
            return submit_move(content, &job, self.staging);
        }
        // a copy, so that a move's job needs no place in memory
        let other = job;
        by_fields(submit_over_whole(content, &mut self.arena, &other, self.staging))
    }

    /// Carries out the job of a descriptor over the regions of a sound table, and answers its record; `None` where
    /// there is no memory for a list of them.
    pub fn submit_at(
        &mut self,
        alloc: Global,
        regions: &mut [CRegion<'_>],
        descriptor: &[u8; 64],
    ) -> Option<Record>
        requires { table.table_fault regions.old ≡ 0 }
        ensures engine { self.new ≡ self.old }
        ensures memory { IsSome result → table.memory_of_regions regions.new
            ≡ (step (table.memory_of_regions regions.old) (decoded descriptor.now) self.old.staging).0 }
        ensures record { IfSome result (λ r. r
            ≡ (step (table.memory_of_regions regions.old) (decoded descriptor.now) self.old.staging).1) }
        ensures addresses { table.addresses_of regions.new ≡ table.addresses_of regions.old }
        ensures unchanged { result ≡ None → regions.new ≡ regions.old }
    {
        let Some(mut image) = lend(alloc, &mut self.room, regions) else {
            return None;
        };
        let job = dml_desc::decode(descriptor);
        let answer = by_fields(submit_to(&mut image, &mut self.arena, &job, self.staging));
        settle(&mut self.room, regions, image);
        Some(answer)
    }

    /// Carries out the jobs of some descriptors one after another over the caller's whole pages, and writes the bytes
    /// of their records.
    #[tactic(auto, using(dml_effect::proofs::BatchLemmas::room_of_limit))]
    pub fn submit_all_over(
        &mut self,
        content: &mut [u8],
        descriptors: &[[u8; 64]],
        answers: &mut [[u8; 32]],
    )
        requires pages { IsWholePages content.old }
        requires as_many { length answers.old ≡ length descriptors.now }
        ensures engine { self.new ≡ self.old }
        ensures content { content.new
            ≡ (memory_after (all_present content.old) (map decoded descriptors.now) self.old.staging).bytes }
        ensures records { answers.new
            ≡ map bytes_of_record (records_of (all_present content.old) (map decoded descriptors.now) self.old.staging) }
    {
        let staging = self.staging;
        submit_list_over(content, &mut self.arena, descriptors, staging, answers);
    }

    /// Carries out the jobs of some descriptors as a batch over the caller's whole pages, writes the bytes of their
    /// records, and answers its own.
    #[tactic(auto, using(dml_effect::proofs::BatchLemmas::room_of_limit))]
    pub fn submit_batch_over(
        &mut self,
        content: &mut [u8],
        descriptors: &[[u8; 64]],
        answers: &mut [[u8; 32]],
    ) -> BatchRecord
        requires pages { IsWholePages content.old }
        requires few { length descriptors.now < 2 ^ 32 }
        requires as_many { length answers.old ≡ length descriptors.now }
        ensures engine { self.new ≡ self.old }
        ensures content { content.new
            ≡ (batch (all_present content.old) (map decoded descriptors.now) self.old.staging).0.bytes }
        ensures answer { result ≡ (batch (all_present content.old) (map decoded descriptors.now) self.old.staging).1 }
        ensures records { answers.new
            ≡ map bytes_of_record (batch (all_present content.old) (map decoded descriptors.now) self.old.staging).2 }
    {
        let staging = self.staging;
        submit_batch_over(content, &mut self.arena, descriptors, staging, answers)
    }

    /// Carries out the jobs of some descriptors one after another over the regions of a sound table, and writes the
    /// bytes of their records; false where there is no memory for a list of the regions.
    #[tactic(auto, using(dml_effect::proofs::BatchLemmas::room_of_limit))]
    pub fn submit_all_at(
        &mut self,
        alloc: Global,
        regions: &mut [CRegion<'_>],
        descriptors: &[[u8; 64]],
        answers: &mut [[u8; 32]],
    ) -> bool
        requires sound { table.table_fault regions.old ≡ 0 }
        requires as_many { length answers.old ≡ length descriptors.now }
        ensures engine { self.new ≡ self.old }
        ensures memory { OnTrue result (table.memory_of_regions regions.new
            ≡ memory_after (table.memory_of_regions regions.old) (map decoded descriptors.now) self.old.staging) }
        ensures records { OnTrue result (answers.new ≡ map bytes_of_record
            (records_of (table.memory_of_regions regions.old) (map decoded descriptors.now) self.old.staging)) }
        ensures addresses { table.addresses_of regions.new ≡ table.addresses_of regions.old }
        ensures unchanged { OnFalse result ((regions.new ≡ regions.old) × (answers.new ≡ answers.old)) }
    {
        let Some(mut image) = lend(alloc, &mut self.room, regions) else {
            return false;
        };
        let staging = self.staging;
        submit_list_bytes_to(&mut image, &mut self.arena, descriptors, staging, answers);
        settle(&mut self.room, regions, image);
        true
    }

    /// Carries out the jobs of some descriptors as a batch over the regions of a sound table, writes the bytes of their
    /// records, and answers its own; `None` where there is no memory for a list of the regions.
    #[tactic(auto, using(dml_effect::proofs::BatchLemmas::room_of_limit))]
    pub fn submit_batch_at(
        &mut self,
        alloc: Global,
        regions: &mut [CRegion<'_>],
        descriptors: &[[u8; 64]],
        answers: &mut [[u8; 32]],
    ) -> Option<BatchRecord>
        requires sound { table.table_fault regions.old ≡ 0 }
        requires few { length descriptors.now < 2 ^ 32 }
        requires as_many { length answers.old ≡ length descriptors.now }
        ensures engine { self.new ≡ self.old }
        ensures memory { IsSome result → table.memory_of_regions regions.new
            ≡ (batch (table.memory_of_regions regions.old) (map decoded descriptors.now) self.old.staging).0 }
        ensures answer { IfSome result (λ r. r
            ≡ (batch (table.memory_of_regions regions.old) (map decoded descriptors.now) self.old.staging).1) }
        ensures records { IsSome result → answers.new ≡ map bytes_of_record
            (batch (table.memory_of_regions regions.old) (map decoded descriptors.now) self.old.staging).2 }
        ensures addresses { table.addresses_of regions.new ≡ table.addresses_of regions.old }
        ensures unchanged { result ≡ None → (regions.new ≡ regions.old) × (answers.new ≡ answers.old) }
    {
        let Some(mut image) = lend(alloc, &mut self.room, regions) else {
            return None;
        };
        let staging = self.staging;
        let answer = submit_batch_bytes_to(
            &mut image,
            &mut self.arena,
            descriptors,
            staging,
            answers,
        );
        settle(&mut self.room, regions, image);
        Some(answer)
    }
}

/// Whether all bytes of a range are present.
#[tactic(auto, using(dml_types::proofs::MemoryLemmas::has_all_within))]
fn has_range(image: &Image, address: u64, len: usize) -> bool
    requires { length image.now.present ≤ 4096 }
    ensures { result ≡ has_all image.now address len }
{
    let _pages = image.pages(); // says what every image keeps
    if len == 0 {
        return true;
    }
    let Ok(bytes) = u32::try_from(len) else {
        return false; // more than an image has
    };
    if address.checked_add(u64::from(bytes)).is_none() {
        return false;
    }
    image.present_bytes(address, bytes) == bytes
}
