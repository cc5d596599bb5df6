ghost use Rattle.std.specs.Prelude.{◌≡◌, ◌≢◌, ◌↔◌, ◌<◌, ◌≤◌, IfErr, IfOk, IsOk, IsSome, IsTrue, OnErr, OnOk, false, length, map, true};
ghost use Rattle.dml_types.specs.Memory.{has_all, is_in_segments, put};
ghost use Rattle.dml_types.specs.Job.{unfenced};
ghost use Rattle.dml_types.specs.Limits.{IsValid};
ghost use Rattle.dml_types.specs.Step.{memory_after, records_of, step};
ghost use Rattle.dml_effect.specs.Batches.{EndsAt, IsCarried};
ghost use Rattle.dml_image.specs.Brought.{brought, has_page};
ghost use Rattle.dml_levels.specs.Laws.{begun, carried};
ghost use Rattle.dml_order.specs.Order.{run_all};
ghost use Rattle.dml_wave.specs.Waves.{busy};
ghost use Rattle.dml_engine.specs.Lists.{IsReady};

use crate::errors::EngineError;
use dml_arena::Arena;
use dml_desc::Checked;
use dml_effect::{by_fields, carry_out_batch, submit_in_batch_to, submit_list_to, submit_to};
use dml_image::{Image, ImageError};
use dml_pool::{Free, Gate};
use dml_types::{Job, Record, Settings};
use dml_wave::{WaveError, carry_out_wave};
use std::alloc::Global;
use std::marker::Model;
use std::sync::Wait;
use std::thread::Threads;

/// A memory image, and what it takes to carry out jobs on it: a staging arena, which is taken when the engine is made,
/// and the gate that its workers enter before each task.
///
/// The image is one of any kind: its own pages, or memory that a caller lends for the engine's life, and that is the
/// engine's alone so long. [`Engine`] is this over an image that borrows nothing that ends.
#[derive(Drop)]
pub struct EngineOver<'a, G = Free> {
    image: Image<'a>,
    arena: Arena,
    settings: Settings,
    gate: G,
    /// Whether the gate was put in by `with_gate`: it then sees every task, however small it is and however many
    /// workers there are.
    watched: bool,
}

/// An engine over an image that borrows nothing that ends.
pub type Engine<G = Free> = EngineOver<'static, G>;

impl<'a, G> Model for EngineOver<'a, G> {
    ghost use Rattle.dml_engine.specs.State.{State};

    ghost Value = { State };

    ghost use Rattle.std.specs.Prelude.{◌≡◌};
    ghost use Rattle.dml_types.specs.Limits.{IsValid};

    ghost view = { λ e. record { image = e.image; settings = e.settings; watched = e.watched } };

    ghost invariant = { λ e. (e.arena.size ≡ e.settings.staging) × IsValid e.settings };
}

impl<'a> EngineOver<'a, Free> {
    /// An engine over an image, with a gate that does nothing. It starts workers where they pay by a list's bytes;
    /// `with_gate(Free)` behind it hands everything to them.
    ///
    /// # Errors
    /// `BadSettings` where a setting is out of its limits, and `NoMemory` where there is no room for the staging
    /// arena; both hand the image back as it was.
    pub fn new(
        alloc: Global,
        image: Image<'a>,
        settings: Settings,
    ) -> Result<EngineOver<'a, Free>, (Image<'a>, EngineError)>
        ensures image { IfOk result (λ engine. engine.image ≡ image.entry) }
        ensures settings { IfOk result (λ engine. engine.settings ≡ settings) }
        ensures valid { OnOk result (IsValid settings) }
        ensures watched { IfOk result (λ engine. engine.watched ≡ false) }
        ensures handed_back { IfErr result (λ refused. refused.0 ≡ image.entry) }
        ensures bad_settings { IfErr result (λ refused.
            (refused.1 ≡ EngineError.BadSettings) ↔ (IsValid settings → ⊥)) }
    {
        if !settings.is_valid() {
            return Err((image, EngineError::BadSettings));
        }
        EngineOver::of_valid(alloc, image, settings).map_err(|image| (image, EngineError::NoMemory))
    }

    /// The same with settings that are known to be valid. Where there is no room for the staging arena, the image comes
    /// back.
    pub(crate) fn of_valid(
        alloc: Global,
        image: Image<'a>,
        settings: Settings,
    ) -> Result<EngineOver<'a, Free>, Image<'a>>
        requires { IsValid settings }
        ensures image { IfOk result (λ engine. engine.image ≡ image.entry) }
        ensures settings { IfOk result (λ engine. engine.settings ≡ settings) }
        ensures watched { IfOk result (λ engine. engine.watched ≡ false) }
        ensures handed_back { IfErr result (λ refused. refused ≡ image.entry) }
    {
        match Arena::new(alloc, settings.staging) {
            Ok(arena) => Ok(EngineOver {
                image,
                arena,
                settings,
                gate: Free,
                watched: false,
            }),
            Err(_) => Err(image),
        }
    }
}

impl<'a, G: Drop> EngineOver<'a, G> {
    /// The same engine with another gate in place of its own. No memory is taken.
    ///
    /// From then on every task of every job, list and batch is handed to the workers, however small it is and however
    /// many workers there are, and one enters the gate before each; `with_gate(Free)` has workers whatever the load.
    /// Only where memory is refused does one worker go on alone, and enter no gate.
    pub fn with_gate<H>(self, gate: H) -> EngineOver<'a, H>
        ensures image { result.image ≡ self.entry.image }
        ensures settings { result.settings ≡ self.entry.settings }
        ensures watched { result.watched ≡ true }
    {
        let EngineOver {
            image,
            arena,
            settings,
            ..
        } = self;
        EngineOver {
            image,
            arena,
            settings,
            gate,
            watched: true,
        }
    }

    /// The image, for good.
    pub fn into_image(self) -> Image<'a>
        ensures { result ≡ self.entry.image }
    {
        let EngineOver { image, .. } = self;
        image
    }
}

impl<'a, G> EngineOver<'a, G> {
    /// The image.
    pub fn image(&self) -> &Image<'a>
        ensures { result.now ≡ self.now.image }
    {
        &self.image
    }

    /// Makes a page present with these bytes; a page that is present is overwritten.
    ///
    /// # Errors
    /// `NoSuchPage` where the image has no page of this number, and `NoMemory` where there is no room for a page that
    /// was absent, which is always so of lent memory, also of a page that lies in none of its segments. Nothing is
    /// changed then.
    pub fn bring(&mut self, page: u32, bytes: &[u8; 4096]) -> Result<(), ImageError>
        ensures ok { OnOk result (self.new.image ≡ brought self.old.image page bytes.now) }
        ensures err { OnErr result (self.new.image ≡ self.old.image) }
        ensures no_such_page { (result ≡ Err ImageError.NoSuchPage) ↔ (length self.old.image.present ≤ page) }
        ensures never_bad_pages { result ≢ Err ImageError.BadPages }
        ensures again { IsTrue (has_page self.old.image page) → IsOk result }
        ensures no_room { IsSome self.old.image.home → page < length self.old.image.present →
            has_page self.old.image page ≡ false → result ≡ Err ImageError.NoMemory }
        ensures hole { IsTrue (is_in_segments self.old.image) → page < length self.old.image.present
            → has_page self.old.image page ≡ false → result ≡ Err ImageError.NoMemory }
        ensures settings { self.new.settings ≡ self.old.settings }
        ensures watched { self.new.watched ≡ self.old.watched }
    {
        self.image.bring(page, bytes)
    }

    /// Writes bytes into the image, from an address on.
    pub fn write(&mut self, addr: u64, bytes: &[u8])
        requires { IsTrue (has_all self.old.image addr (length bytes.now)) }
        ensures image { self.new.image ≡ put self.old.image addr bytes.now }
        ensures settings { self.new.settings ≡ self.old.settings }
        ensures watched { self.new.watched ≡ self.old.watched }
    {
        self.image.write(addr, bytes);
    }

    /// The settings, which are valid.
    pub fn settings(&self) -> Settings
        ensures value { result ≡ self.now.settings }
        ensures valid { IsValid result }
    {
        self.settings
    }

    /// Whether the gate was given by `with_gate`.
    pub(crate) fn is_watched(&self) -> bool
        ensures { result ≡ self.now.watched }
    {
        self.watched
    }

    /// Carries out a job with this one worker.
    pub(crate) fn carry_out_alone(&mut self, job: &Job) -> Record
        ensures image { self.new.image ≡ (step self.old.image job.now self.old.settings.staging).0 }
        ensures answer { result ≡ (step self.old.image job.now self.old.settings.staging).1 }
        ensures settings { self.new.settings ≡ self.old.settings }
        ensures watched { self.new.watched ≡ self.old.watched }
    {
        by_fields(submit_to(&mut self.image, &mut self.arena, job, self.settings.staging))
    }

    /// Carries out a job of a batch, without its fence, with this one worker.
    pub(crate) fn carry_out_in_batch(&mut self, job: &Job) -> Record
        ensures image { self.new.image ≡ (step self.old.image (unfenced job.now) self.old.settings.staging).0 }
        ensures answer { result ≡ (step self.old.image (unfenced job.now) self.old.settings.staging).1 }
        ensures settings { self.new.settings ≡ self.old.settings }
        ensures watched { self.new.watched ≡ self.old.watched }
    {
        by_fields(submit_in_batch_to(&mut self.image, &mut self.arena, job, self.settings.staging))
    }

    /// Carries out a list of jobs one after another with this one worker, and writes the record of each at its place.
    #[tactic(auto, using(dml_effect::proofs::BatchLemmas::room_of_limit))]
    pub(crate) fn in_list_order(&mut self, jobs: &[Job], records: &mut [Record])
        requires size { length records.old ≡ length jobs.now }
        ensures image { self.new.image ≡ memory_after self.old.image jobs.now self.old.settings.staging }
        ensures records { records.new ≡ records_of self.old.image jobs.now self.old.settings.staging }
        ensures settings { self.new.settings ≡ self.old.settings }
        ensures watched { self.new.watched ≡ self.old.watched }
    {
        let staging = self.settings.staging;
        submit_list_to(&mut self.image, &mut self.arena, jobs, staging, records);
    }

    /// Carries out the jobs of a batch in list order with this one worker, as far as its fences let them, and answers
    /// how many that are. The records of the others are of no account.
    #[tactic(auto, using(dml_effect::proofs::BatchLemmas::room_of_limit))]
    pub(crate) fn batch_in_list_order(&mut self, jobs: &[Job], records: &mut [Record]) -> usize
        requires size { length records.old ≡ length jobs.now }
        ensures carried { IsCarried self.old.image jobs.now self.old.settings.staging result
            self.new.image records.new }
        ensures ends { EndsAt jobs.now result records.new }
        ensures settings { self.new.settings ≡ self.old.settings }
        ensures watched { self.new.watched ≡ self.old.watched }
    {
        let staging = self.settings.staging;
        carry_out_batch(&mut self.image, &mut self.arena, jobs, staging, records)
    }
}

impl<'a, G: Gate + Sync> EngineOver<'a, G> {
    /// Carries out a wave of jobs on so many workers.
    pub(crate) fn carry_out_together<R: Threads + Wait + Sync>(
        &mut self,
        rt: &R,
        alloc: Global,
        workers: u32,
        jobs: &[Checked],
        wave: &[u32],
        records: &mut [Record],
    ) -> Result<(), WaveError>
        requires workers { (1 ≤ workers) × (workers ≤ self.old.settings.workers) }
        requires records { length records.old ≡ length jobs.now }
        requires ready { IsReady jobs.now self.old.settings.staging self.old.settings.chunk wave.now }
        ensures done { OnOk result (begun self.new.image records.new
            ≡ run_all (carried (map unfenced jobs.now) self.old.settings.staging)
            (begun self.old.image records.old) (busy jobs.now wave.now)) }
        ensures unchanged { OnErr result ((self.new.image ≡ self.old.image) × (records.new ≡ records.old)) }
        ensures settings { self.new.settings ≡ self.old.settings }
        ensures watched { self.new.watched ≡ self.old.watched }
    {
        let settings = Settings {
            workers,
            ..self.settings
        };
        carry_out_wave(
            rt,
            alloc,
            &self.gate,
            &settings,
            &mut self.image,
            &mut self.arena,
            jobs,
            wave,
            records,
        )
    }
}
