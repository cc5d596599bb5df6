//! The settling of a portal.
ghost use Rattle.std.specs.Prelude.{◌≡◌};

use crate::errors::{PortalError, SettleFault};
use crate::logs::Log;
use crate::looking::{are_drained, have_finished};
use crate::seats::Done;
use crate::servers::ServerOver;
use dml_core::law_of_rounds;
use dml_image::Image;
use dml_pool::Gate;
use dml_types::law_of_folds;
use std::alloc::Global;
use std::sync::Wait;
use std::thread::Threads;

/// What a portal leaves: the engine's image, and the log of what was carried out.
#[derive(Drop)]
pub struct SettledOver<'a> {
    /// The image, as the rounds, and what was written and brought between them, have left it.
    pub image: Image<'a>,
    /// Every job that was carried out, with its client and its record; of a server that stays up, those that were not
    /// taken off its log.
    pub log: Log,
}

/// What a portal over an image that borrows nothing that ends leaves.
pub type Settled = SettledOver<'static>;

impl<G> ServerOver<'_, G> {
    ghost use Rattle.std.specs.Prelude.{IsFalse, IsTrue};
    ghost use Rattle.dml_portal.specs.Lanes.{AreSameLanes};
    ghost use Rattle.dml_portal.specs.Settled.{AreSeatsOf, AreUnusedSeats, EachDone, HasJobsLeft, IsSettled};

    /// Whether no job is left in any ring.
    fn is_drained(&mut self, dones: &mut Vec<Done>) -> bool
        requires { AreSeatsOf self.old.lanes.items dones.old.items }
        ensures settled { IsTrue result → EachDone (IsSettled self.new.log.items) dones.new.items }
        ensures left { IsFalse result → HasJobsLeft self.new.lanes.items dones.new.items }
        ensures seats { AreSeatsOf self.new.lanes.items dones.new.items }
        ensures engine { self.new.engine ≡ self.old.engine }
        ensures log { self.new.log.items ≡ self.old.log.items }
        ensures same { AreSameLanes self.old.lanes.items self.new.lanes.items }
        ensures unused { AreUnusedSeats dones.old.items dones.new.items }
    {
        are_drained(&mut self.lanes, dones)
    }
}

impl<'a, G: Drop> ServerOver<'a, G> {
    ghost use Rattle.dml_portal.specs.Servers.{image_of, log_of};

    /// What it leaves: the image, and the log of all that was carried out so far. Nothing is asked of the seats; jobs
    /// that wait in the rings are given up.
    pub fn into_settled(self) -> SettledOver<'a>
        ensures image { result.image ≡ image_of self.entry }
        ensures log { result.log ≡ log_of self.entry }
    {
        let ServerOver { engine, log, .. } = self;
        SettledOver {
            image: engine.into_image(),
            log: Log { list: log },
        }
    }
}

impl<G: Gate + Sync> ServerOver<'_, G> {
    ghost use Rattle.std.specs.Prelude.{OnErr, OnOk, length, take};
    ghost use Rattle.dml_types.specs.Step.{memory_after, records_of};
    ghost use Rattle.dml_portal.specs.Log.{added, answers_in, jobs_in};
    ghost use Rattle.dml_portal.specs.Lanes.{AreAnswered, AreSameLanes};
    ghost use Rattle.dml_portal.specs.Served.{RoundsHaveServed};
    ghost use Rattle.dml_portal.specs.Settled.{AreSeatsOf, AreUnusedSeats, EachDone, IsSettled};

    /// Serves rounds until no job is left in any ring; each takes at least one of those that are left.
    fn serve_rest<R: Threads + Wait + Sync>(
        &mut self,
        rt: &R,
        alloc: Global,
        dones: &mut Vec<Done>,
    ) -> Result<(), PortalError>
        requires { AreSeatsOf self.old.lanes.items dones.old.items }
        ensures settled { OnOk result (EachDone (IsSettled self.new.log.items) dones.new.items) }
        ensures earlier { take (length self.old.log.items) self.new.log.items ≡ self.old.log.items }
        ensures image { self.new.engine.image
            ≡ memory_after self.old.engine.image (jobs_in (added self.old.log.items self.new.log.items)) self.old.engine.settings.staging }
        ensures answers { answers_in (added self.old.log.items self.new.log.items)
            ≡ records_of self.old.engine.image (jobs_in (added self.old.log.items self.new.log.items)) self.old.engine.settings.staging }
        ensures steps { RoundsHaveServed self.old.engine.settings (length self.old.lanes.items) self.old.engine.image self.new.engine.image (added self.old.log.items self.new.log.items) }
        ensures answered { OnErr result (AreAnswered self.new.lanes.items self.new.log.items) }
        ensures settings { self.new.engine.settings ≡ self.old.engine.settings }
        ensures same { AreSameLanes self.old.lanes.items self.new.lanes.items }
        ensures seats { AreSeatsOf self.new.lanes.items dones.new.items }
        ensures unused { AreUnusedSeats dones.old.items dones.new.items }
    {
        law_of_rounds();
        law_of_folds();
        self.law_of_image();
        while !self.is_drained(dones) {
            self.serve_round(rt, alloc)?;
        }
        Ok(())
    }
}

impl<'a, G: Gate + Sync + Drop> ServerOver<'a, G> {
    ghost use Rattle.std.specs.Prelude.{◌↔◌, false, true, IfErr, IfOk, OnOk, length, take};
    ghost use Rattle.dml_types.specs.Step.{memory_after, records_of};
    ghost use Rattle.dml_portal.specs.Log.{added, answers_in, jobs_in};
    ghost use Rattle.dml_portal.specs.Lanes.{AreAnswered, AreSameLanes};
    ghost use Rattle.dml_portal.specs.Served.{RoundsHaveServed};
    ghost use Rattle.dml_portal.specs.Servers.{clients_of, image_of, lanes_of, log_of, settings_of};
    ghost use Rattle.dml_portal.specs.Settled.{AreSeatsOf, AreUnusedSeats, EachDone, IsSettled, have_finished};

    /// Serves rounds until the ring of each client is known to be empty, its seat being handed in, and gives the image
    /// and the log. Each seat that is handed in has to be one of this portal. Of each, the client's part of the log is
    /// then what the seat submitted, in that order, and what it polled is a front of that part's records.
    ///
    /// # Errors
    /// `Strangers` where there is a client whose seat is not among those handed in; nothing is changed then. `NoMemory`
    /// where there is no room for a round; the rounds before it are served. Both hand the same server and the same seats
    /// back, and it may be settled again, with the same promise.
    pub fn settle<R: Threads + Wait + Sync>(
        self,
        rt: &R,
        alloc: Global,
        dones: Vec<Done>,
    ) -> Result<SettledOver<'a>, (ServerOver<'a, G>, Vec<Done>, SettleFault)>
        requires seats { AreSeatsOf (lanes_of self) dones.items }
        ensures settled { IfOk result (λ settled. EachDone (IsSettled settled.log) dones.items) }
        ensures strangers { IfErr result (λ kept. (kept.2 ≡ SettleFault.Strangers) ↔ (have_finished (clients_of self.entry) dones.items ≡ false)) }
        ensures finished { OnOk result (have_finished (clients_of self.entry) dones.items ≡ true) }
        ensures unchanged { IfErr result (λ kept. kept.2 ≡ SettleFault.Strangers → (kept.0 ≡ self.entry) × (kept.1 ≡ dones)) }
        ensures earlier { IfOk result (λ settled. take (length (log_of self.entry)) settled.log ≡ log_of self.entry) }
        ensures image { IfOk result (λ settled. settled.image
            ≡ memory_after (image_of self.entry) (jobs_in (added (log_of self.entry) settled.log)) (settings_of self.entry).staging) }
        ensures answers { IfOk result (λ settled. answers_in (added (log_of self.entry) settled.log)
            ≡ records_of (image_of self.entry) (jobs_in (added (log_of self.entry) settled.log)) (settings_of self.entry).staging) }
        ensures steps { IfOk result (λ settled. RoundsHaveServed (settings_of self.entry) (clients_of self.entry) (image_of self.entry) settled.image (added (log_of self.entry) settled.log)) }
        ensures kept_log { IfErr result (λ kept. take (length (log_of self.entry)) (log_of kept.0) ≡ log_of self.entry) }
        ensures kept_image { IfErr result (λ kept. image_of kept.0
            ≡ memory_after (image_of self.entry) (jobs_in (added (log_of self.entry) (log_of kept.0))) (settings_of self.entry).staging) }
        ensures kept_answers { IfErr result (λ kept. answers_in (added (log_of self.entry) (log_of kept.0))
            ≡ records_of (image_of self.entry) (jobs_in (added (log_of self.entry) (log_of kept.0))) (settings_of self.entry).staging) }
        ensures kept_steps { IfErr result (λ kept. RoundsHaveServed (settings_of self.entry) (clients_of self.entry) (image_of self.entry) (image_of kept.0) (added (log_of self.entry) (log_of kept.0))) }
        ensures kept_answered { IfErr result (λ kept. kept.2 ≡ SettleFault.NoMemory → AreAnswered (lanes_of kept.0) (log_of kept.0)) }
        ensures kept_settings { IfErr result (λ kept. settings_of kept.0 ≡ settings_of self.entry) }
        ensures kept_lanes { IfErr result (λ kept. AreSameLanes (lanes_of self.entry) (lanes_of kept.0)) }
        ensures kept_finished { IfErr result (λ kept. have_finished (clients_of kept.0) kept.1.items ≡ have_finished (clients_of self.entry) dones.items) }
        ensures kept_seats { IfErr result (λ kept. AreSeatsOf (lanes_of kept.0) kept.1.items × AreUnusedSeats dones.items kept.1.items) }
    {
        let mut server = self;
        let mut dones = dones;
        law_of_rounds();
        server.law_of_image();
        if !have_finished(server.lanes.len() as u32, dones.as_slice()) {
            return Err((server, dones, SettleFault::Strangers));
        }
        let Ok(()) = server.serve_rest(rt, alloc, &mut dones) else {
            return Err((server, dones, SettleFault::NoMemory));
        };
        Ok(server.into_settled())
    }
}
