//! Batches: lists in which a fenced job waits for all jobs before it, and is carried out only where each succeeded.
ghost use Rattle.std.specs.Prelude.{◌≡◌, ◌↔◌, ◌<◌, ◌≤◌, ℕ, false, true, IfOk, IsErrOf, OnErr, OnOk, length, nat_le, replicate, slice_index_or};
ghost use Rattle.std.specs.List.{list_any};
ghost use Rattle.dml_types.specs.Job.{is_fenced, no_op_job};
ghost use Rattle.dml_types.specs.Effect.{ended};
ghost use Rattle.dml_types.specs.Step.{batch, batch_jobs, ends_before};
ghost use Rattle.dml_types.specs.declared.statuses.Status.TheVariants.{Abandoned};
ghost use Rattle.dml_effect.specs.Batches.{EndsAt, IsCarried};

use crate::engines::EngineOver;
use crate::errors::SubmitError;
use crate::lists::plan_waves;
use crate::opening::{Fences, open_all};
use crate::submitting::MOST_JOBS;
use dml_effect::{abandon, answer_of_batch, have_succeeded};
use dml_levels::law_of_fences;
use dml_pool::Gate;
use dml_types::{BatchRecord, Job, Record, Status};
use std::alloc::{AllocError, Global};
use std::sync::Wait;
use std::thread::Threads;

impl<G: Gate + Sync> EngineOver<'_, G> {
    /// Carries out a batch of at most 1,024 jobs as a list, and returns its own completion record and theirs. A fenced
    /// job, which is any with the fence's bit, refused or not, waits for all jobs before it; where one of them has
    /// another status than 0x01, it and all later jobs are abandoned, and their records are zeros.
    ///
    /// # Errors
    /// `TooMany` where there are more jobs, and `NoMemory` where there is no room for the records.
    pub fn submit_batch<R: Threads + Wait + Sync>(
        &mut self,
        rt: &R,
        alloc: Global,
        jobs: &[Job],
    ) -> Result<(BatchRecord, Vec<Record>), SubmitError>
        ensures image { OnOk result (self.new.image ≡ (batch self.old.image jobs.now self.old.settings.staging).0) }
        ensures answer { IfOk result (λ done. done.0 ≡ (batch self.old.image jobs.now self.old.settings.staging).1) }
        ensures records { IfOk result (λ done.
            done.1.items ≡ (batch self.old.image jobs.now self.old.settings.staging).2) }
        ensures too_many { IsErrOf result SubmitError.TooMany ↔ (1024 < length jobs.now) }
        ensures unchanged { OnErr result (self.new.image ≡ self.old.image) }
        ensures settings { self.new.settings ≡ self.old.settings }
        ensures watched { self.new.watched ≡ self.old.watched }
    {
        if jobs.len() > MOST_JOBS {
            return Err(SubmitError::TooMany);
        }
        let Ok(mut records) = abandoned(alloc, jobs) else {
            return Err(SubmitError::NoMemory);
        };
        let answer = self.batch_into(rt, alloc, jobs, records.as_mut_slice());
        Ok((answer, records))
    }

    /// Carries out a batch of at most 1,024 jobs, writes the record of each at its place, and returns the batch's own.
    #[tactic(auto, using(dml_effect::proofs::BatchLemmas::batch_answers))]
    pub(crate) fn batch_into<R: Threads + Wait + Sync>(
        &mut self,
        rt: &R,
        alloc: Global,
        jobs: &[Job],
        records: &mut [Record],
    ) -> BatchRecord
        requires few { length jobs.now ≤ 1024 }
        requires size { length records.old ≡ length jobs.now }
        ensures image { self.new.image ≡ (batch self.old.image jobs.now self.old.settings.staging).0 }
        ensures answer { result ≡ (batch self.old.image jobs.now self.old.settings.staging).1 }
        ensures records { records.new ≡ (batch self.old.image jobs.now self.old.settings.staging).2 }
        ensures settings { self.new.settings ≡ self.old.settings }
        ensures watched { self.new.watched ≡ self.old.watched }
    {
        let done = self.carry_out_or_abandon(rt, alloc, jobs, records);
        answer_of_batch(&records[..done])
    }

    /// Carries out the jobs of a batch as far as its fences let them, and abandons the others. Answers how many are
    /// carried out.
    fn carry_out_or_abandon<R: Threads + Wait + Sync>(
        &mut self,
        rt: &R,
        alloc: Global,
        jobs: &[Job],
        records: &mut [Record],
    ) -> usize
        requires few { length jobs.now ≤ 1024 }
        requires size { length records.old ≡ length jobs.now }
        ensures count { result ≡ length (batch_jobs self.old.image jobs.now self.old.settings.staging) }
        ensures within { result ≤ length jobs.now }
        ensures image { self.new.image ≡ (batch self.old.image jobs.now self.old.settings.staging).0 }
        ensures records { records.new ≡ (batch self.old.image jobs.now self.old.settings.staging).2 }
        ensures settings { self.new.settings ≡ self.old.settings }
        ensures watched { self.new.watched ≡ self.old.watched }
    {
        let done = self.carry_out_batch(rt, alloc, jobs, records);
        abandon(records, done);
        done
    }

    /// Carries out the jobs of a batch as far as its fences let them, and answers how many that are. The records of the
    /// others are of no account.
    fn carry_out_batch<R: Threads + Wait + Sync>(
        &mut self,
        rt: &R,
        alloc: Global,
        jobs: &[Job],
        records: &mut [Record],
    ) -> usize
        requires few { length jobs.now ≤ 1024 }
        requires size { length records.old ≡ length jobs.now }
        ensures carried { IsCarried self.old.image jobs.now self.old.settings.staging result
            self.new.image records.new }
        ensures ends { EndsAt jobs.now result records.new }
        ensures settings { self.new.settings ≡ self.old.settings }
        ensures watched { self.new.watched ≡ self.old.watched }
    {
        if self.goes_by_waves(jobs, Fences::Accepted) {
            self.batch_in_waves(rt, alloc, jobs, records)
        } else {
            self.batch_in_list_order(jobs, records)
        }
    }

    /// The same wave by wave. Before the first wave with a job at a fence or behind it the statuses of all jobs before
    /// the fence are looked at. Where no memory is left to find the waves, or where no gate is given and none pays for
    /// a second worker, the batch goes on in list order.
    fn batch_in_waves<R: Threads + Wait + Sync>(
        &mut self,
        rt: &R,
        alloc: Global,
        jobs: &[Job],
        records: &mut [Record],
    ) -> usize
        requires few { length jobs.now ≤ 1024 }
        requires size { length records.old ≡ length jobs.now }
        ensures carried { IsCarried self.old.image jobs.now self.old.settings.staging result
            self.new.image records.new }
        ensures ends { EndsAt jobs.now result records.new }
        ensures settings { self.new.settings ≡ self.old.settings }
        ensures watched { self.new.watched ≡ self.old.watched }
    {
        let settings = self.settings();
        let Ok(list) = open_all(alloc, jobs, Fences::Accepted, settings.staging, records) else {
            return self.batch_in_list_order(jobs, records);
        };
        let checked = list.as_slice();
        let Some(waves) = plan_waves(alloc, checked, settings, self.is_watched()) else {
            return self.batch_in_list_order(jobs, records);
        };
        // Its contract says that the image is whole, which the law asks for.
        let _pages = self.image().pages();
        law_of_fences();
        let mut fence = next_fence(jobs, 0);
        let mut alone = false;
        for wave in &waves {
            let places = wave.list.as_slice();
            if reaches(places, fence) {
                if ends_before(jobs, records, fence) {
                    return fence;
                }
                fence = next_fence(jobs, fence + 1);
            }
            alone = self.next_wave(rt, alloc, checked, places, records, alone);
        }
        jobs.len()
    }
}

/// A record for each job, all as of abandoned ones.
pub(crate) fn abandoned(alloc: Global, jobs: &[Job]) -> Result<Vec<Record>, AllocError>
    ensures { IfOk result (λ list. list.items ≡ replicate (length jobs.now) (ended Abandoned 0 0 0)) }
{
    let mut records = Vec::with_capacity(alloc, jobs.len())?;
    for _ in jobs {
        records.push_reserved(Record::refused(Status::Abandoned));
    }
    Ok(records)
}

/// The first place from `start` on whose job is fenced, or the end of the list.
fn next_fence(jobs: &[Job], start: usize) -> usize
    requires { start ≤ length jobs.now }
    ensures within { (start ≤ result) × (result ≤ length jobs.now) }
    ensures none_before { (i : ℕ) → start ≤ i → i < result → is_fenced (slice_index_or jobs.now i no_op_job) ≡ false }
    ensures fenced { result < length jobs.now → is_fenced (slice_index_or jobs.now result no_op_job) ≡ true }
{
    let mut place = start;
    while place < jobs.len() && !jobs[place].is_fenced() {
        place += 1;
    }
    place
}

/// Whether a wave has a job at a place or behind it.
fn reaches(wave: &[u32], place: usize) -> bool
    ensures { result ≡ list_any (λ i. nat_le place i) wave.now }
{
    wave.iter().any(|i| *i as usize >= place)
}

/// Whether a batch ends before the job at a place: it is fenced, and one of all those before it has not succeeded.
fn ends_before(jobs: &[Job], records: &[Record], place: usize) -> bool
    requires place { place < length jobs.now }
    requires records { place ≤ length records.now }
    ensures { result ≡ ends_before jobs.now records.now place }
{
    jobs[place].is_fenced() && !have_succeeded(&records[..place])
}
