//! The settling of a server that stays up.
ghost use Rattle.std.specs.Prelude.{◌≡◌};

use crate::errors::{PortalError, SettleFault};
use crate::fetching::MOST_OF_A_CLIENT;
use crate::logs::Log;
use crate::long::LongServerOver;
use crate::looking::{are_drained, have_finished};
use crate::seats::Done;
use crate::settling::SettledOver;
use dml_core::law_of_rounds;
use dml_pool::Gate;
use dml_types::law_of_folds;
use std::alloc::Global;
use std::sync::Wait;
use std::thread::Threads;

impl<G> LongServerOver<'_, G> {
    ghost use Rattle.std.specs.Prelude.{IsFalse, IsTrue, ◌++◌, List};
    ghost use Rattle.dml_portal.specs.Types.{LogEntry as Entries};
    ghost use Rattle.dml_portal.specs.Lanes.{AreSameLanes};
    ghost use Rattle.dml_portal.specs.Settled.{AreSeatsOf, AreUnusedLanes, AreUnusedSeats, EachDone, HasJobsLeft, IsSettled};
    ghost use Rattle.dml_portal.specs.Whole.{AreWhole, StayWhole};

    /// Whether no job is left in any ring.
    fn is_drained(&mut self, dones: &mut Vec<Done>) -> bool
        requires { AreSeatsOf self.old.lanes.items dones.old.items }
        ensures settled { IsTrue result → (earlier : List Entries) → AreWhole self.old.lanes.items (earlier ++ self.old.log.items)
            → EachDone (IsSettled (earlier ++ self.old.log.items)) dones.new.items }
        ensures left { IsFalse result → HasJobsLeft self.new.lanes.items dones.new.items }
        ensures seats { AreSeatsOf self.new.lanes.items dones.new.items }
        ensures engine { self.new.engine ≡ self.old.engine }
        ensures bound { self.new.most ≡ self.old.most }
        ensures log { self.new.log.items ≡ self.old.log.items }
        ensures lanes { AreUnusedLanes self.old.lanes.items self.new.lanes.items }
        ensures whole { StayWhole self.old.lanes.items self.old.log.items self.new.lanes.items self.new.log.items }
        ensures same { AreSameLanes self.old.lanes.items self.new.lanes.items }
        ensures unused { AreUnusedSeats dones.old.items dones.new.items }
    {
        are_drained(&mut self.lanes, dones)
    }
}

impl<'a, G: Drop> LongServerOver<'a, G> {
    ghost use Rattle.dml_portal.specs.LongServers.{image_of, log_of};

    /// What it leaves: the image, and the entries that were not taken off the log. Nothing is asked of the seats; jobs
    /// that wait in the rings are given up.
    pub fn give_up(self) -> SettledOver<'a>
        ensures image { result.image ≡ image_of self.entry }
        ensures log { result.log ≡ log_of self.entry }
    {
        let LongServerOver { engine, log, .. } = self;
        SettledOver {
            image: engine.into_image(),
            log: Log { list: log },
        }
    }
}

impl<G: Gate + Sync> LongServerOver<'_, G> {
    ghost use Rattle.std.specs.Prelude.{OnErr, OnOk, ◌++◌, List, length, take};
    ghost use Rattle.dml_types.specs.Step.{memory_after, records_of};
    ghost use Rattle.dml_portal.specs.Types.{LogEntry as Entries};
    ghost use Rattle.dml_portal.specs.Log.{added, answers_in, jobs_in};
    ghost use Rattle.dml_portal.specs.Lanes.{AreSameLanes};
    ghost use Rattle.dml_portal.specs.Served.{RoundsHaveServed};
    ghost use Rattle.dml_portal.specs.Settled.{AreSeatsOf, AreUnusedSeats, EachDone, IsSettled};
    ghost use Rattle.dml_portal.specs.Whole.{AreWhole, HavePushed, StayWhole};

    /// Serves rounds until no job is left in any ring; each takes at least one of those that are left, since no client
    /// is held back.
    fn serve_rest<R: Threads + Wait + Sync>(
        &mut self,
        rt: &R,
        alloc: Global,
        dones: &mut Vec<Done>,
    ) -> Result<(), PortalError>
        requires { AreSeatsOf self.old.lanes.items dones.old.items }
        ensures settled { OnOk result ((earlier : List Entries) → AreWhole self.old.lanes.items (earlier ++ self.old.log.items)
            → EachDone (IsSettled (earlier ++ self.new.log.items)) dones.new.items) }
        ensures earlier { take (length self.old.log.items) self.new.log.items ≡ self.old.log.items }
        ensures image { self.new.engine.image
            ≡ memory_after self.old.engine.image (jobs_in (added self.old.log.items self.new.log.items)) self.old.engine.settings.staging }
        ensures answers { answers_in (added self.old.log.items self.new.log.items)
            ≡ records_of self.old.engine.image (jobs_in (added self.old.log.items self.new.log.items)) self.old.engine.settings.staging }
        ensures steps { RoundsHaveServed self.old.engine.settings (length self.old.lanes.items) self.old.engine.image self.new.engine.image (added self.old.log.items self.new.log.items) }
        ensures pushed { OnErr result (HavePushed self.new.lanes.items) }
        ensures whole { StayWhole self.old.lanes.items self.old.log.items self.new.lanes.items self.new.log.items }
        ensures settings { self.new.engine.settings ≡ self.old.engine.settings }
        ensures bound { self.new.most ≡ self.old.most }
        ensures same { AreSameLanes self.old.lanes.items self.new.lanes.items }
        ensures seats { AreSeatsOf self.new.lanes.items dones.new.items }
        ensures unused { AreUnusedSeats dones.old.items dones.new.items }
    {
        law_of_rounds();
        law_of_folds();
        self.law_of_image();
        while !self.is_drained(dones) {
            self.serve_up_to(rt, alloc, MOST_OF_A_CLIENT, None)?;
        }
        Ok(())
    }
}

impl<'a, G: Gate + Sync + Drop> LongServerOver<'a, G> {
    ghost use Rattle.std.specs.Prelude.{◌↔◌, false, true, IfErr, IfOk, OnOk, ◌++◌, List, length, take};
    ghost use Rattle.dml_types.specs.Step.{memory_after, records_of};
    ghost use Rattle.dml_portal.specs.Types.{LogEntry as Entries};
    ghost use Rattle.dml_portal.specs.Log.{added, answers_in, jobs_in};
    ghost use Rattle.dml_portal.specs.Lanes.{AreSameLanes};
    ghost use Rattle.dml_portal.specs.Served.{RoundsHaveServed};
    ghost use Rattle.dml_portal.specs.LongServers.{clients_of, image_of, lanes_of, log_of, most_of, settings_of};
    ghost use Rattle.dml_portal.specs.Settled.{AreSeatsOf, AreUnusedSeats, EachDone, IsSettled, have_finished};
    ghost use Rattle.dml_portal.specs.Whole.{AreWhole, HavePushed, StayWhole};

    /// Serves rounds until the ring of each client is known to be empty, its seat being handed in, and gives the image
    /// and the entries that were not taken off the log. No client is held back meanwhile, since nobody polls. Each seat
    /// that is handed in has to be one of this portal. Of each, the client's part of what was taken off the log,
    /// followed by what is left of it, is then what the seat submitted, in that order, and what it polled is a front of
    /// that part's records.
    ///
    /// # Errors
    /// `Strangers` where there is a client whose seat is not among those handed in; nothing is changed then. `NoMemory`
    /// where there is no room for a round; the rounds before it are served. Both hand the same server and the same
    /// seats back, and it may be settled again, with the same promise.
    pub fn settle<R: Threads + Wait + Sync>(
        self,
        rt: &R,
        alloc: Global,
        dones: Vec<Done>,
    ) -> Result<SettledOver<'a>, (LongServerOver<'a, G>, Vec<Done>, SettleFault)>
        requires seats { AreSeatsOf (lanes_of self) dones.items }
        ensures settled { IfOk result (λ settled. (earlier : List Entries) → AreWhole (lanes_of self.entry) (earlier ++ log_of self.entry)
            → EachDone (IsSettled (earlier ++ settled.log)) dones.items) }
        ensures strangers { IfErr result (λ kept. (kept.2 ≡ SettleFault.Strangers) ↔ (have_finished (clients_of self.entry) dones.items ≡ false)) }
        ensures finished { OnOk result (have_finished (clients_of self.entry) dones.items ≡ true) }
        ensures unchanged { IfErr result (λ kept. kept.2 ≡ SettleFault.Strangers → (kept.0 ≡ self.entry) × (kept.1 ≡ dones)) }
        ensures earlier { IfOk result (λ settled. take (length (log_of self.entry)) settled.log ≡ log_of self.entry) }
        ensures image { IfOk result (λ settled. settled.image
            ≡ memory_after (image_of self.entry) (jobs_in (added (log_of self.entry) settled.log)) (settings_of self.entry).staging) }
        ensures answers { IfOk result (λ settled. answers_in (added (log_of self.entry) settled.log)
            ≡ records_of (image_of self.entry) (jobs_in (added (log_of self.entry) settled.log)) (settings_of self.entry).staging) }
        ensures steps { IfOk result (λ settled. RoundsHaveServed (settings_of self.entry) (clients_of self.entry) (image_of self.entry) settled.image (added (log_of self.entry) settled.log)) }
        ensures kept_log { IfErr result (λ kept. take (length (log_of self.entry)) (log_of kept.0) ≡ log_of self.entry) }
        ensures kept_image { IfErr result (λ kept. image_of kept.0
            ≡ memory_after (image_of self.entry) (jobs_in (added (log_of self.entry) (log_of kept.0))) (settings_of self.entry).staging) }
        ensures kept_answers { IfErr result (λ kept. answers_in (added (log_of self.entry) (log_of kept.0))
            ≡ records_of (image_of self.entry) (jobs_in (added (log_of self.entry) (log_of kept.0))) (settings_of self.entry).staging) }
        ensures kept_steps { IfErr result (λ kept. RoundsHaveServed (settings_of self.entry) (clients_of self.entry) (image_of self.entry) (image_of kept.0) (added (log_of self.entry) (log_of kept.0))) }
        ensures kept_pushed { IfErr result (λ kept. kept.2 ≡ SettleFault.NoMemory → HavePushed (lanes_of kept.0)) }
        ensures kept_whole { IfErr result (λ kept. StayWhole (lanes_of self.entry) (log_of self.entry) (lanes_of kept.0) (log_of kept.0)) }
        ensures kept_settings { IfErr result (λ kept. settings_of kept.0 ≡ settings_of self.entry) }
        ensures kept_bound { IfErr result (λ kept. most_of kept.0 ≡ most_of self.entry) }
        ensures kept_lanes { IfErr result (λ kept. AreSameLanes (lanes_of self.entry) (lanes_of kept.0)) }
        ensures kept_finished { IfErr result (λ kept. have_finished (clients_of kept.0) kept.1.items ≡ have_finished (clients_of self.entry) dones.items) }
        ensures kept_seats { IfErr result (λ kept. AreSeatsOf (lanes_of kept.0) kept.1.items × AreUnusedSeats dones.items kept.1.items) }
    {
        let mut server = self;
        let mut dones = dones;
        law_of_rounds();
        server.law_of_image();
        if !have_finished(server.lanes.len() as u32, dones.as_slice()) {
            return Err((server, dones, SettleFault::Strangers));
        }
        let Ok(()) = server.serve_rest(rt, alloc, &mut dones) else {
            return Err((server, dones, SettleFault::NoMemory));
        };
        Ok(server.give_up())
    }
}
