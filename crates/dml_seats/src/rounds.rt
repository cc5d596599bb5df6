//! The rounds of such a server.
ghost use Rattle.std.specs.Prelude.{◌≡◌, ◌*◌, ◌≤◌, IfErr, IfOk, OnErr, OnOk, Some, length, map, min, take};
ghost use Rattle.dml_types.specs.Step.{memory_after, records_of};
ghost use Rattle.dml_portal.specs.Log.{added, answers_in, jobs_in, sent_for};
ghost use Rattle.dml_portal.specs.Lanes.{AreSameLanes};
ghost use Rattle.dml_portal.specs.Served.{IsFetched, IsFetchedUpTo, RoundHasServed};
ghost use Rattle.dml_portal.specs.Whole.{HaveAnswered, HavePushed, HaveReceived, StayWhole};
ghost use Rattle.dml_portal.specs.Held.{AreBounded, AreTakenOrHeld, AreTakenOrHeldUpTo, HaveRoomWithin};

use crate::berths::Berths;
use crate::servers::OwnServerOver;
use dml_pool::Gate;
use dml_portal::PortalError;
use std::alloc::Global;
use std::sync::Wait;
use std::thread::Threads;

impl<B: Berths, G: Gate + Sync> OwnServerOver<'_, B, G> {
    ghost use Rattle.dml_seats.specs.Own.{clients_of, dones_of, image_of, lanes_of, log_of, most_of, settings_of};

    /// Serves a round: fetches at most 128 jobs of each client that is not held back, clients in order of their
    /// numbers, carries them out as one list, and answers how many they are. The list is carried out in parts of at most
    /// 8 MiB of its jobs' sizes, or of one job. Before the first and behind each, records are pushed as far as the rings
    /// have room, those that waited first; the others wait with the client, and more than the server's bound hold it
    /// back.
    ///
    /// # Errors
    /// `NoMemory` where there is no room for a whole round; then nothing was fetched. Records that waited may have been
    /// pushed to the clients. With the log taken or dropped, a round finds in it the room that earlier rounds had.
    pub fn serve_round<R: Threads + Wait + Sync>(
        &mut self,
        rt: &R,
        alloc: Global,
    ) -> Result<usize, PortalError>
        ensures earlier { take (length (log_of self.old)) (log_of self.new) ≡ log_of self.old }
        ensures number { IfOk result (λ number. number ≡ length (added (log_of self.old) (log_of self.new))) }
        ensures most { length (added (log_of self.old) (log_of self.new)) ≤ 128 * clients_of self.old }
        ensures fetched { IsFetched (clients_of self.old) (map sent_for (added (log_of self.old) (log_of self.new))) }
        ensures taken { OnOk result (AreTakenOrHeld (Some (most_of self.old)) (lanes_of self.old) (added (log_of self.old) (log_of self.new)) (lanes_of self.new)) }
        ensures image { image_of self.new
            ≡ memory_after (image_of self.old) (jobs_in (added (log_of self.old) (log_of self.new))) (settings_of self.old).staging }
        ensures answers { answers_in (added (log_of self.old) (log_of self.new))
            ≡ records_of (image_of self.old) (jobs_in (added (log_of self.old) (log_of self.new))) (settings_of self.old).staging }
        ensures steps { RoundHasServed (settings_of self.old) (clients_of self.old) (image_of self.old) (image_of self.new) (added (log_of self.old) (log_of self.new)) }
        ensures received { HaveReceived (lanes_of self.old) (added (log_of self.old) (log_of self.new)) (lanes_of self.new) }
        ensures answered { HaveAnswered (lanes_of self.old) (added (log_of self.old) (log_of self.new)) (lanes_of self.new) }
        ensures pushed { HavePushed (lanes_of self.new) }
        ensures bounded { AreBounded (most_of self.old) (lanes_of self.old) (lanes_of self.new) }
        ensures late_room { HaveRoomWithin (most_of self.old) (lanes_of self.old) (lanes_of self.new) }
        ensures whole { StayWhole (lanes_of self.old) (log_of self.old) (lanes_of self.new) (log_of self.new) }
        ensures no_memory { IfErr result (λ error. error ≡ PortalError.NoMemory) }
        ensures nothing_fetched { OnErr result (log_of self.new ≡ log_of self.old) }
        ensures settings { settings_of self.new ≡ settings_of self.old }
        ensures bound { most_of self.new ≡ most_of self.old }
        ensures same { AreSameLanes (lanes_of self.old) (lanes_of self.new) }
        ensures seats { dones_of self.new ≡ dones_of self.old }
    {
        let long = &mut self.long;
        long.serve_round(rt, alloc)
    }

    /// Serves a round that is held short: as `serve_round`, but it fetches at most so many jobs of each client, and 128
    /// where more are asked for.
    ///
    /// # Errors
    /// `NoMemory` where there is no room for a whole round, of 128 jobs a client; then nothing was fetched. Records that
    /// waited may have been pushed to the clients.
    pub fn serve_some<R: Threads + Wait + Sync>(
        &mut self,
        rt: &R,
        alloc: Global,
        jobs: usize,
    ) -> Result<usize, PortalError>
        ensures earlier { take (length (log_of self.old)) (log_of self.new) ≡ log_of self.old }
        ensures number { IfOk result (λ number. number ≡ length (added (log_of self.old) (log_of self.new))) }
        ensures most { length (added (log_of self.old) (log_of self.new)) ≤ 128 * clients_of self.old }
        ensures fetched { IsFetchedUpTo (min jobs 128) (clients_of self.old) (map sent_for (added (log_of self.old) (log_of self.new))) }
        ensures taken { OnOk result (AreTakenOrHeldUpTo (min jobs 128) (Some (most_of self.old)) (lanes_of self.old) (added (log_of self.old) (log_of self.new)) (lanes_of self.new)) }
        ensures image { image_of self.new
            ≡ memory_after (image_of self.old) (jobs_in (added (log_of self.old) (log_of self.new))) (settings_of self.old).staging }
        ensures answers { answers_in (added (log_of self.old) (log_of self.new))
            ≡ records_of (image_of self.old) (jobs_in (added (log_of self.old) (log_of self.new))) (settings_of self.old).staging }
        ensures steps { RoundHasServed (settings_of self.old) (clients_of self.old) (image_of self.old) (image_of self.new) (added (log_of self.old) (log_of self.new)) }
        ensures received { HaveReceived (lanes_of self.old) (added (log_of self.old) (log_of self.new)) (lanes_of self.new) }
        ensures answered { HaveAnswered (lanes_of self.old) (added (log_of self.old) (log_of self.new)) (lanes_of self.new) }
        ensures pushed { HavePushed (lanes_of self.new) }
        ensures bounded { AreBounded (most_of self.old) (lanes_of self.old) (lanes_of self.new) }
        ensures late_room { HaveRoomWithin (most_of self.old) (lanes_of self.old) (lanes_of self.new) }
        ensures whole { StayWhole (lanes_of self.old) (log_of self.old) (lanes_of self.new) (log_of self.new) }
        ensures no_memory { IfErr result (λ error. error ≡ PortalError.NoMemory) }
        ensures nothing_fetched { OnErr result (log_of self.new ≡ log_of self.old) }
        ensures settings { settings_of self.new ≡ settings_of self.old }
        ensures bound { most_of self.new ≡ most_of self.old }
        ensures same { AreSameLanes (lanes_of self.old) (lanes_of self.new) }
        ensures seats { dones_of self.new ≡ dones_of self.old }
    {
        let long = &mut self.long;
        long.serve_some(rt, alloc, jobs)
    }
}
