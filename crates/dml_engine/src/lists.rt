//! Lists of jobs, carried out one after another or wave by wave.
ghost use Rattle.std.specs.Prelude.{◌≡◌, ◌↔◌, ◌<◌, ◌≤◌, ◌⊎◌, IfOk, IfSome, IsTrue, true, length, map};
ghost use Rattle.std.specs.List.{All};
ghost use Rattle.dml_types.specs.Job.{unfenced};
ghost use Rattle.dml_types.specs.Limits.{IsValid};
ghost use Rattle.dml_types.specs.Refusal.{need};
ghost use Rattle.dml_types.specs.Step.{memory_after, records_of};
ghost use Rattle.dml_order.specs.Order.{run_all};
ghost use Rattle.dml_levels.specs.Laws.{begun, carried};
ghost use Rattle.dml_levels.specs.Waves as word;
ghost use Rattle.dml_types.specs.Conflict as table;
ghost use Rattle.dml_wave.specs.Waves.{busy};
ghost use Rattle.dml_engine.specs.Lists.{IsReady};
ghost use Rattle.dml_engine.specs.Loads.{is_for_waves, shareable};

use crate::engines::EngineOver;
use crate::loads::{Load, levels_pay, may_pay};
use crate::opening::{Fences, open_all};
use dml_desc::Checked;
use dml_levels::{LevelError, Wave, law_of_conflicts, law_of_fences, law_of_waves, levels, waves};
use dml_pool::Gate;
use dml_types::{Job, Record, Settings};
use dml_wave::is_busy;
use std::alloc::Global;
use std::sync::Wait;
use std::thread::Threads;

impl<G: Gate + Sync> EngineOver<'_, G> {
    /// Carries out a list of jobs, and writes the record of each at its place.
    pub(crate) fn carry_out_list<R: Threads + Wait + Sync>(
        &mut self,
        rt: &R,
        alloc: Global,
        jobs: &[Job],
        records: &mut [Record],
    )
        requires few { length jobs.now ≤ 1024 }
        requires size { length records.old ≡ length jobs.now }
        ensures image { self.new.image ≡ memory_after self.old.image jobs.now self.old.settings.staging }
        ensures records { records.new ≡ records_of self.old.image jobs.now self.old.settings.staging }
        ensures settings { self.new.settings ≡ self.old.settings }
        ensures watched { self.new.watched ≡ self.old.watched }
    {
        if self.goes_by_waves(jobs, Fences::Refused) {
            self.in_waves(rt, alloc, jobs, records);
        } else {
            self.in_list_order(jobs, records);
        }
    }

    /// Carries out a list of jobs wave by wave; where no memory is left to find the waves, or where no gate is given
    /// and no wave pays for a second worker, one after another.
    fn in_waves<R: Threads + Wait + Sync>(
        &mut self,
        rt: &R,
        alloc: Global,
        jobs: &[Job],
        records: &mut [Record],
    )
        requires few { length jobs.now ≤ 1024 }
        requires size { length records.old ≡ length jobs.now }
        ensures image { self.new.image ≡ memory_after self.old.image jobs.now self.old.settings.staging }
        ensures records { records.new ≡ records_of self.old.image jobs.now self.old.settings.staging }
        ensures settings { self.new.settings ≡ self.old.settings }
        ensures watched { self.new.watched ≡ self.old.watched }
    {
        let settings = self.settings();
        let Ok(list) = open_all(alloc, jobs, Fences::Refused, settings.staging, records) else {
            return self.in_list_order(jobs, records);
        };
        let checked = list.as_slice();
        let Some(waves) = plan_waves(alloc, checked, settings, self.is_watched()) else {
            return self.in_list_order(jobs, records);
        };
        // Its contract says that the image is whole, which the laws ask for.
        let _pages = self.image().pages();
        law_of_conflicts();
        law_of_fences();
        law_of_waves();
        let mut alone = false;
        for wave in &waves {
            alone = self.next_wave(rt, alloc, checked, &wave.list, records, alone);
        }
    }

    /// Carries out the jobs of a wave that do anything, without their fences: on workers, where a gate is given on as
    /// many as the settings have, and else on as many as they pay for. Where no gate is given and they pay for one, or
    /// `alone`, one after another. Answers whether one worker is to go on alone from here, as it is once no memory is
    /// left.
    pub(crate) fn next_wave<R: Threads + Wait + Sync>(
        &mut self,
        rt: &R,
        alloc: Global,
        checked: &[Checked],
        wave: &[u32],
        records: &mut [Record],
        alone: bool,
    ) -> bool
        requires size { length records.old ≡ length checked.now }
        requires ready { IsReady checked.now self.old.settings.staging self.old.settings.chunk wave.now }
        ensures done { begun self.new.image records.new
            ≡ run_all (carried (map unfenced checked.now) self.old.settings.staging)
            (begun self.old.image records.old) (busy checked.now wave.now) }
        ensures settings { self.new.settings ≡ self.old.settings }
        ensures watched { self.new.watched ≡ self.old.watched }
    {
        let settings = self.settings();
        let load = Load::of_wave(checked, wave, settings.chunk);
        let workers = load.wave_workers(self.is_watched(), settings.workers);
        let shared = !alone && (self.is_watched() || workers > 1);
        if shared {
            if let Ok(()) = self.carry_out_together(rt, alloc, workers, checked, wave, records) {
                return false;
            }
        }
        self.carry_out_places(checked, wave, records);
        alone || shared
    }
}

impl<G> EngineOver<'_, G> {
    /// Whether a list of jobs goes wave by wave: a gate that was given is to see every task, with however many workers;
    /// else several workers have to pay.
    pub(crate) fn goes_by_waves(&self, jobs: &[Job], fences: Fences) -> bool
        ensures { IsTrue result ↔ ((self.now.watched ≡ true) ⊎ (is_for_waves self.now fences jobs.now ≡ true)) }
    {
        self.is_watched() || self.is_worth_waves(jobs, fences)
    }

    /// Whether a list of jobs may be given more than one worker where no gate was given, by what the jobs name, before
    /// any of them is checked.
    pub(crate) fn may_pay(&self, jobs: &[Job]) -> bool
        ensures { IsTrue result ↔ ((1 < self.now.settings.workers) × (1572864 ≤ shareable jobs.now)) }
    {
        self.settings().workers > 1 && may_pay(jobs)
    }

    /// Whether a list of jobs is given more than one worker where no gate was given.
    fn is_worth_waves(&self, jobs: &[Job], fences: Fences) -> bool
        ensures { result ≡ is_for_waves self.now fences jobs.now }
    {
        let settings = self.settings();
        self.may_pay(jobs)
            && Load::of_list(jobs, fences, settings).list_workers(settings.workers) > 1
    }

    /// Carries out the jobs at these places that do anything, without their fences and one after another, and writes
    /// the record of each at its place.
    fn carry_out_places(&mut self, jobs: &[Checked], places: &[u32], records: &mut [Record])
        requires places { All (λ i. i < length jobs.now) places.now }
        requires size { length records.old ≡ length jobs.now }
        ensures done { begun self.new.image records.new
            ≡ run_all (carried (map unfenced jobs.now) self.old.settings.staging)
            (begun self.old.image records.old) (busy jobs.now places.now) }
        ensures settings { self.new.settings ≡ self.old.settings }
        ensures watched { self.new.watched ≡ self.old.watched }
    {
        for place in places {
            let i = *place as usize;
            if is_busy(jobs[i].op()) {
                records[i] = self.carry_out_in_batch(jobs[i].job());
            }
        }
    }
}

/// The waves of a list of jobs; None where no memory is left to find them, or where no gate is given and no wave pays.
pub(crate) fn plan_waves(
    alloc: Global,
    jobs: &[Checked],
    settings: Settings,
    watched: bool,
) -> Option<Vec<Wave>>
    requires few { length jobs.now ≤ 1024 }
    requires needs { All (λ job. need job ≤ settings.staging) jobs.now }
    requires valid { IsValid settings }
    ensures cut { IfSome result (λ list.
        list.items ≡ word.waves jobs.now (table.fenced_levels jobs.now) settings.staging settings.chunk) }
    ensures ready { IfSome result (λ list. All (IsReady jobs.now settings.staging settings.chunk) list.items) }
{
    let levels = levels(alloc, jobs).ok()?;
    if !watched && !levels_pay(jobs, &levels, settings.chunk) {
        return None;
    }
    cut_waves(alloc, jobs, &levels, settings).ok()
}

/// The waves of jobs that have these levels.
fn cut_waves(
    alloc: Global,
    jobs: &[Checked],
    levels: &[u32],
    settings: Settings,
) -> Result<Vec<Wave>, LevelError>
    requires few { length jobs.now ≤ 1024 }
    requires needs { All (λ job. need job ≤ settings.staging) jobs.now }
    requires valid { IsValid settings }
    requires levels { levels.now ≡ table.fenced_levels jobs.now }
    ensures cut { IfOk result (λ list.
        list.items ≡ word.waves jobs.now (table.fenced_levels jobs.now) settings.staging settings.chunk) }
    ensures ready { IfOk result (λ list. All (IsReady jobs.now settings.staging settings.chunk) list.items) }
{
    match waves(alloc, jobs, levels, settings.staging, settings.chunk) {
        Ok(list) => Ok(list),
        Err(error) => Err(error),
    }
}
