//! Seats that go, and the end of such a server.
ghost use Rattle.std.specs.Prelude.{◌≡◌, ◌≤◌, ◌++◌, IsFalse, IsTrue, List, map};
ghost use Rattle.dml_portal.specs.declared.logs.LogEntry.{LogEntry as Entries};
ghost use Rattle.dml_portal.specs.Lanes.{AreSameLanes};
ghost use Rattle.dml_portal.specs.Whole.{AreWhole, StayWhole};

use crate::berths::Berths;
use crate::seats::OwnDone;
use crate::servers::OwnServerOver;
use dml_pool::Gate;
use dml_portal::{SettleFault, SettledOver};
use std::alloc::Global;
use std::sync::Wait;
use std::thread::Threads;

impl<B: Berths, G> OwnServerOver<'_, B, G> {
    ghost use Rattle.dml_portal.specs.Ending.{HasJobs};
    ghost use Rattle.dml_portal.specs.Seats.{seat_of};
    ghost use Rattle.dml_portal.specs.Settled.{AreUnusedLanes, IsSettled, IsUnusedSeat};
    ghost use Rattle.dml_portal.specs.Whole.{late_of, room_by};
    ghost use Rattle.dml_seats.specs.Own.{clients_of, done_in, dones_of, engine_of, lanes_of, log_of, most_of};

    /// Whether all that one seat submitted is carried out, while the server goes on. Its part of what was taken off the
    /// log, followed by what is left of it, is then what it submitted, in that order, and what it polled is a front of
    /// that part's records.
    pub fn is_served(&mut self, own: &mut OwnDone<B>) -> bool
        ensures settled { IsTrue result → (earlier : List Entries) → AreWhole (lanes_of self.old) (earlier ++ log_of self.old)
            → IsSettled (earlier ++ log_of self.new) (done_in own.new) }
        ensures left { IsFalse result → HasJobs (lanes_of self.new) (done_in own.new) }
        ensures unused { IsUnusedSeat (seat_of (done_in own.old)) (seat_of (done_in own.new)) }
        ensures engine { engine_of self.new ≡ engine_of self.old }
        ensures log { log_of self.new ≡ log_of self.old }
        ensures bound { most_of self.new ≡ most_of self.old }
        ensures lanes { AreUnusedLanes (lanes_of self.old) (lanes_of self.new) }
        ensures late { map late_of (lanes_of self.new) ≡ map late_of (lanes_of self.old) }
        ensures late_room { map room_by (lanes_of self.new) ≡ map room_by (lanes_of self.old) }
        ensures whole { StayWhole (lanes_of self.old) (log_of self.old) (lanes_of self.new) (log_of self.new) }
        ensures same { AreSameLanes (lanes_of self.old) (lanes_of self.new) }
        ensures seats { dones_of self.new ≡ dones_of self.old }
    {
        let long = &mut self.long;
        let done = &mut own.done;
        long.is_served(done)
    }

    /// Whether the seat of a client was dropped, so that it cannot be handed in: such a portal can be given up by
    /// `give_up`, and not settled. It is a hint, which no clause speaks of.
    pub fn is_seat_gone(&mut self, client: u32) -> bool
        ensures nobody { clients_of self.old ≤ client → IsFalse result }
        ensures engine { engine_of self.new ≡ engine_of self.old }
        ensures log { log_of self.new ≡ log_of self.old }
        ensures bound { most_of self.new ≡ most_of self.old }
        ensures lanes { AreUnusedLanes (lanes_of self.old) (lanes_of self.new) }
        ensures late { map late_of (lanes_of self.new) ≡ map late_of (lanes_of self.old) }
        ensures late_room { map room_by (lanes_of self.new) ≡ map room_by (lanes_of self.old) }
        ensures whole { StayWhole (lanes_of self.old) (log_of self.old) (lanes_of self.new) (log_of self.new) }
        ensures same { AreSameLanes (lanes_of self.old) (lanes_of self.new) }
        ensures seats { dones_of self.new ≡ dones_of self.old }
    {
        let long = &mut self.long;
        long.is_seat_gone(client)
    }
}

impl<'a, B: Berths, G: Drop> OwnServerOver<'a, B, G> {
    ghost use Rattle.dml_seats.specs.Own.{image_of, log_of};

    /// What it leaves: the image, and the entries that were not taken off the log. Nothing is asked of the seats; jobs
    /// that wait in the rings are given up.
    pub fn give_up(self) -> SettledOver<'a>
        ensures image { result.image ≡ image_of self.entry }
        ensures log { result.log ≡ log_of self.entry }
    {
        let OwnServerOver { long, .. } = self;
        long.give_up()
    }
}

impl<'a, B: Berths, G: Gate + Sync + Drop> OwnServerOver<'a, B, G> {
    ghost use Rattle.std.specs.Prelude.{◌↔◌, false, true, IfErr, IfOk, OnOk, length, take};
    ghost use Rattle.dml_types.specs.Step.{memory_after, records_of};
    ghost use Rattle.dml_portal.specs.Log.{added, answers_in, jobs_in};
    ghost use Rattle.dml_portal.specs.Served.{RoundsHaveServed};
    ghost use Rattle.dml_portal.specs.Settled.{AreUnusedSeats, EachDone, IsSettled, have_finished};
    ghost use Rattle.dml_portal.specs.Whole.{HavePushed};
    ghost use Rattle.dml_seats.specs.Own.{clients_of, dones_of, image_of, lanes_of, log_of, long_of, most_of, settings_of};

    /// Serves rounds until the ring of each client is known to be empty, its seat having been handed in, and gives the
    /// image and the entries that were not taken off the log. Nothing is asked of the seats: by their type they are of
    /// this portal. Of each, the client's part of what was taken off the log, followed by what is left of it, is then
    /// what the seat submitted, in that order, and what it polled is a front of that part's records.
    ///
    /// # Errors
    /// `Strangers` where there is a client whose seat was not handed in; nothing is changed then. `NoMemory` where there
    /// is no room for a round; the rounds before it are served. Both hand the same server back, and it may be settled
    /// again, with the same promise.
    pub fn settle<R: Threads + Wait + Sync>(
        self,
        rt: &R,
        alloc: Global,
    ) -> Result<SettledOver<'a>, (OwnServerOver<'a, B, G>, SettleFault)>
        ensures settled { IfOk result (λ settled. (earlier : List Entries) → AreWhole (lanes_of self.entry) (earlier ++ log_of self.entry)
            → EachDone (IsSettled (earlier ++ settled.log)) (dones_of self.entry)) }
        ensures strangers { IfErr result (λ kept. (kept.1 ≡ SettleFault.Strangers) ↔ (have_finished (clients_of self.entry) (dones_of self.entry) ≡ false)) }
        ensures finished { OnOk result (have_finished (clients_of self.entry) (dones_of self.entry) ≡ true) }
        ensures unchanged { IfErr result (λ kept. kept.1 ≡ SettleFault.Strangers → long_of kept.0 ≡ long_of self.entry) }
        ensures unchanged_seats { IfErr result (λ kept. kept.1 ≡ SettleFault.Strangers → dones_of kept.0 ≡ dones_of self.entry) }
        ensures earlier { IfOk result (λ settled. take (length (log_of self.entry)) settled.log ≡ log_of self.entry) }
        ensures image { IfOk result (λ settled. settled.image
            ≡ memory_after (image_of self.entry) (jobs_in (added (log_of self.entry) settled.log)) (settings_of self.entry).staging) }
        ensures answers { IfOk result (λ settled. answers_in (added (log_of self.entry) settled.log)
            ≡ records_of (image_of self.entry) (jobs_in (added (log_of self.entry) settled.log)) (settings_of self.entry).staging) }
        ensures steps { IfOk result (λ settled. RoundsHaveServed (settings_of self.entry) (clients_of self.entry) (image_of self.entry) settled.image (added (log_of self.entry) settled.log)) }
        ensures kept_log { IfErr result (λ kept. take (length (log_of self.entry)) (log_of kept.0) ≡ log_of self.entry) }
        ensures kept_image { IfErr result (λ kept. image_of kept.0
            ≡ memory_after (image_of self.entry) (jobs_in (added (log_of self.entry) (log_of kept.0))) (settings_of self.entry).staging) }
        ensures kept_answers { IfErr result (λ kept. answers_in (added (log_of self.entry) (log_of kept.0))
            ≡ records_of (image_of self.entry) (jobs_in (added (log_of self.entry) (log_of kept.0))) (settings_of self.entry).staging) }
        ensures kept_steps { IfErr result (λ kept. RoundsHaveServed (settings_of self.entry) (clients_of self.entry) (image_of self.entry) (image_of kept.0) (added (log_of self.entry) (log_of kept.0))) }
        ensures kept_pushed { IfErr result (λ kept. kept.1 ≡ SettleFault.NoMemory → HavePushed (lanes_of kept.0)) }
        ensures kept_whole { IfErr result (λ kept. StayWhole (lanes_of self.entry) (log_of self.entry) (lanes_of kept.0) (log_of kept.0)) }
        ensures kept_settings { IfErr result (λ kept. settings_of kept.0 ≡ settings_of self.entry) }
        ensures kept_bound { IfErr result (λ kept. most_of kept.0 ≡ most_of self.entry) }
        ensures kept_lanes { IfErr result (λ kept. AreSameLanes (lanes_of self.entry) (lanes_of kept.0)) }
        ensures kept_finished { IfErr result (λ kept. have_finished (clients_of kept.0) (dones_of kept.0) ≡ have_finished (clients_of self.entry) (dones_of self.entry)) }
        ensures kept_seats { IfErr result (λ kept. AreUnusedSeats (dones_of self.entry) (dones_of kept.0)) }
    {
        let OwnServerOver {
            long,
            dones,
            of,
            ..
        } = self;
        match long.settle(rt, alloc, dones) {
            Ok(settled) => Ok(settled),
            Err((long, dones, fault)) => Err((OwnServerOver { long, dones, of }, fault)),
        }
    }
}
