//! A server that stays up: its log is taken off in parts, so that what it holds follows what is alive.
ghost use Rattle.std.specs.Prelude.{◌≡◌, ℕ, ◌+◌, ◌*◌, ◌≤◌, [], IfOk, OnOk, Some, length, map, vec_capacity};
ghost use Rattle.dml_types.specs.Limits.{IsValid};
ghost use Rattle.dml_portal.specs.Lanes.{AreSameLanes, waiting};
ghost use Rattle.dml_portal.specs.Held.{HaveRoomOrAreHeld, HaveRoomWithin};
ghost use Rattle.dml_portal.specs.Whole.{HavePushed, HaveSentMore, kept_by, received_by, room_by};

use crate::errors::PortalError;
use crate::fetching::{MOST_OF_A_CLIENT, fetch_round, is_held_back};
use crate::lanes::Lane;
use crate::lates::{make_late, push_all_late};
use crate::logs::LogEntry;
use crate::rooms::Room;
use dml_core::law_of_rounds;
use dml_engine::EngineOver;
use dml_pool::{Free, Gate};
use std::alloc::{AllocError, Global};
use std::sync::Wait;
use std::thread::Threads;

/// An engine that carries out what the clients of a portal submit, and the log of that, as far as it was not taken off.
/// Records for which a client's ring has no room wait with that client, and not in the log.
#[derive(Drop)]
pub struct LongServerOver<'a, G = Free> {
    pub(crate) engine: EngineOver<'a, G>,
    pub(crate) lanes: Vec<Lane>,
    pub(crate) log: Vec<LogEntry>,
    pub(crate) room: Room,
    /// A client for whom more records wait is held back.
    pub(crate) most: usize,
    ghost ready: { IsValid engine.settings },
    ghost few: { length lanes.items ≤ 8 },
}

/// A server that stays up over an image that borrows nothing that ends.
pub type LongServer<G = Free> = LongServerOver<'static, G>;

/// Makes room for a round of so many jobs: in its lists, in the log, and beside the records that wait with a client
/// that is not held back.
fn make_room(
    room: &mut Room,
    log: &mut Vec<LogEntry>,
    lanes: &mut Vec<Lane>,
    jobs: usize,
    most: Option<usize>,
) -> Result<(), AllocError>
    requires clients { length lanes.old.items ≤ 8 }
    ensures log { log.new.items ≡ log.old.items }
    ensures log_room { OnOk result (length log.new.items + jobs ≤ vec_capacity log.new) }
    ensures empty { OnOk result ((room.new.jobs.items ≡ []) × (room.new.records.items ≡ [])) }
    ensures room { OnOk result ((jobs ≤ vec_capacity room.new.jobs) × (jobs ≤ vec_capacity room.new.records)) }
    ensures late { OnOk result (HaveRoomOrAreHeld most lanes.new.items) }
    ensures within { (bound : ℕ) → most ≡ Some bound → HaveRoomWithin bound lanes.old.items lanes.new.items }
    ensures kept { map kept_by lanes.new.items ≡ map kept_by lanes.old.items }
    ensures received { map received_by lanes.new.items ≡ map received_by lanes.old.items }
    ensures waiting { map waiting lanes.new.items ≡ map waiting lanes.old.items }
    ensures sent { HaveSentMore lanes.old.items lanes.new.items }
    ensures pushed { HavePushed lanes.old.items → HavePushed lanes.new.items }
    ensures same { AreSameLanes lanes.old.items lanes.new.items }
{
    make_late(lanes, most)?;
    room.make(log, jobs)
}

impl<G> LongServerOver<'_, G> {
    ghost use Rattle.std.specs.Prelude.{◌<◌, ◌↔◌, IsFalse, IsTrue, slice_index_or};
    ghost use Rattle.dml_types.specs.Memory.{IsWhole};
    ghost use Rattle.dml_portal.specs.Whole.{late_of};
    ghost use Rattle.dml_portal.specs.LongServers.{clients_of, lanes_of, most_of};
    ghost use Rattle.dml_portal.specs.declared.lanes.Lane.{Lane as Lanes};

    /// Whether more records wait with a client than the server's bound. While it is so, a round fetches nothing from
    /// it, unless the round first pushes enough of them.
    pub fn is_held_back(&self, client: u32) -> bool
        ensures held { (lane : Lanes) → client < clients_of self.now
            → (IsTrue result ↔ (most_of self.now < length (late_of (slice_index_or (lanes_of self.now) client lane)))) }
        ensures nobody { clients_of self.now ≤ client → IsFalse result }
    {
        match self.lanes.get(client as usize) {
            Some(lane) => is_held_back(lane, Some(self.most)),
            None => false,
        }
    }

    /// What is known of each engine's image.
    pub(crate) fn law_of_image(&self)
        ensures { IsWhole self.now.engine.image }
    {
        let _ = self.engine.image().pages();
    }
}

impl<G: Gate + Sync> LongServerOver<'_, G> {
    ghost use Rattle.std.specs.Prelude.{IfErr, OnErr, min, take};
    ghost use Rattle.dml_types.specs.Step.{memory_after, records_of};
    ghost use Rattle.dml_portal.specs.Log.{added, answers_in, jobs_in, sent_for};
    ghost use Rattle.dml_portal.specs.Served.{IsFetched, IsFetchedUpTo, RoundHasServed};
    ghost use Rattle.dml_portal.specs.Whole.{HaveAnswered, HaveReceived, StayWhole};
    ghost use Rattle.dml_portal.specs.Held.{AreBounded, AreTakenOrHeld, AreTakenOrHeldUpTo};
    ghost use Rattle.dml_portal.specs.LongServers.{clients_of, image_of, lanes_of, log_of, most_of, settings_of};

    /// Serves a round: fetches at most 128 jobs of each client that is not held back, clients in order of their
    /// numbers, carries them out as one list, and answers how many they are. The list is carried out in parts of at most
    /// 8 MiB of its jobs' sizes, or of one job. Before the first and behind each, records are pushed as far as the rings
    /// have room, those that waited first; the others wait with the client, and more than the server's bound hold it
    /// back.
    ///
    /// # Errors
    /// `NoMemory` where there is no room for a whole round; then nothing was fetched. Records that waited may have been
    /// pushed to the clients. With the log taken or dropped, a round finds in it the room that earlier rounds had.
    pub fn serve_round<R: Threads + Wait + Sync>(
        &mut self,
        rt: &R,
        alloc: Global,
    ) -> Result<usize, PortalError>
        ensures earlier { take (length (log_of self.old)) (log_of self.new) ≡ log_of self.old }
        ensures number { IfOk result (λ number. number ≡ length (added (log_of self.old) (log_of self.new))) }
        ensures most { length (added (log_of self.old) (log_of self.new)) ≤ 128 * clients_of self.old }
        ensures fetched { IsFetched (clients_of self.old) (map sent_for (added (log_of self.old) (log_of self.new))) }
        ensures taken { OnOk result (AreTakenOrHeld (Some (most_of self.old)) (lanes_of self.old) (added (log_of self.old) (log_of self.new)) (lanes_of self.new)) }
        ensures image { image_of self.new
            ≡ memory_after (image_of self.old) (jobs_in (added (log_of self.old) (log_of self.new))) (settings_of self.old).staging }
        ensures answers { answers_in (added (log_of self.old) (log_of self.new))
            ≡ records_of (image_of self.old) (jobs_in (added (log_of self.old) (log_of self.new))) (settings_of self.old).staging }
        ensures steps { RoundHasServed (settings_of self.old) (clients_of self.old) (image_of self.old) (image_of self.new) (added (log_of self.old) (log_of self.new)) }
        ensures received { HaveReceived (lanes_of self.old) (added (log_of self.old) (log_of self.new)) (lanes_of self.new) }
        ensures answered { HaveAnswered (lanes_of self.old) (added (log_of self.old) (log_of self.new)) (lanes_of self.new) }
        ensures pushed { HavePushed (lanes_of self.new) }
        ensures bounded { AreBounded (most_of self.old) (lanes_of self.old) (lanes_of self.new) }
        ensures late_room { HaveRoomWithin (most_of self.old) (lanes_of self.old) (lanes_of self.new) }
        ensures whole { StayWhole (lanes_of self.old) (log_of self.old) (lanes_of self.new) (log_of self.new) }
        ensures no_memory { IfErr result (λ error. error ≡ PortalError.NoMemory) }
        ensures nothing_fetched { OnErr result (log_of self.new ≡ log_of self.old) }
        ensures settings { settings_of self.new ≡ settings_of self.old }
        ensures bound { most_of self.new ≡ most_of self.old }
        ensures same { AreSameLanes (lanes_of self.old) (lanes_of self.new) }
    {
        self.serve_up_to(rt, alloc, MOST_OF_A_CLIENT, Some(self.most))
    }

    /// Serves a round that is held short: as `serve_round`, but it fetches at most so many jobs of each client, and 128
    /// where more are asked for.
    ///
    /// # Errors
    /// `NoMemory` where there is no room for a whole round, of 128 jobs a client; then nothing was fetched. Records that
    /// waited may have been pushed to the clients.
    pub fn serve_some<R: Threads + Wait + Sync>(
        &mut self,
        rt: &R,
        alloc: Global,
        jobs: usize,
    ) -> Result<usize, PortalError>
        ensures earlier { take (length (log_of self.old)) (log_of self.new) ≡ log_of self.old }
        ensures number { IfOk result (λ number. number ≡ length (added (log_of self.old) (log_of self.new))) }
        ensures most { length (added (log_of self.old) (log_of self.new)) ≤ 128 * clients_of self.old }
        ensures fetched { IsFetchedUpTo (min jobs 128) (clients_of self.old) (map sent_for (added (log_of self.old) (log_of self.new))) }
        ensures taken { OnOk result (AreTakenOrHeldUpTo (min jobs 128) (Some (most_of self.old)) (lanes_of self.old) (added (log_of self.old) (log_of self.new)) (lanes_of self.new)) }
        ensures image { image_of self.new
            ≡ memory_after (image_of self.old) (jobs_in (added (log_of self.old) (log_of self.new))) (settings_of self.old).staging }
        ensures answers { answers_in (added (log_of self.old) (log_of self.new))
            ≡ records_of (image_of self.old) (jobs_in (added (log_of self.old) (log_of self.new))) (settings_of self.old).staging }
        ensures steps { RoundHasServed (settings_of self.old) (clients_of self.old) (image_of self.old) (image_of self.new) (added (log_of self.old) (log_of self.new)) }
        ensures received { HaveReceived (lanes_of self.old) (added (log_of self.old) (log_of self.new)) (lanes_of self.new) }
        ensures answered { HaveAnswered (lanes_of self.old) (added (log_of self.old) (log_of self.new)) (lanes_of self.new) }
        ensures pushed { HavePushed (lanes_of self.new) }
        ensures bounded { AreBounded (most_of self.old) (lanes_of self.old) (lanes_of self.new) }
        ensures late_room { HaveRoomWithin (most_of self.old) (lanes_of self.old) (lanes_of self.new) }
        ensures whole { StayWhole (lanes_of self.old) (log_of self.old) (lanes_of self.new) (log_of self.new) }
        ensures no_memory { IfErr result (λ error. error ≡ PortalError.NoMemory) }
        ensures nothing_fetched { OnErr result (log_of self.new ≡ log_of self.old) }
        ensures settings { settings_of self.new ≡ settings_of self.old }
        ensures bound { most_of self.new ≡ most_of self.old }
        ensures same { AreSameLanes (lanes_of self.old) (lanes_of self.new) }
    {
        self.serve_up_to(rt, alloc, jobs.min(MOST_OF_A_CLIENT), Some(self.most))
    }

    /// Serves a round that fetches at most so many jobs of each client, and holds those clients back for whom more
    /// records wait than `most`, if it is given.
    pub(crate) fn serve_up_to<R: Threads + Wait + Sync>(
        &mut self,
        rt: &R,
        alloc: Global,
        number: usize,
        most: Option<usize>,
    ) -> Result<usize, PortalError>
        requires number { number ≤ 128 }
        ensures earlier { take (length self.old.log.items) self.new.log.items ≡ self.old.log.items }
        ensures number { IfOk result (λ number. number ≡ length (added self.old.log.items self.new.log.items)) }
        ensures most { length (added self.old.log.items self.new.log.items) ≤ 128 * length self.old.lanes.items }
        ensures fetched { IsFetchedUpTo number (length self.old.lanes.items) (map sent_for (added self.old.log.items self.new.log.items)) }
        ensures taken { OnOk result (AreTakenOrHeldUpTo number most self.old.lanes.items (added self.old.log.items self.new.log.items) self.new.lanes.items) }
        ensures image { self.new.engine.image
            ≡ memory_after self.old.engine.image (jobs_in (added self.old.log.items self.new.log.items)) self.old.engine.settings.staging }
        ensures answers { answers_in (added self.old.log.items self.new.log.items)
            ≡ records_of self.old.engine.image (jobs_in (added self.old.log.items self.new.log.items)) self.old.engine.settings.staging }
        ensures steps { RoundHasServed self.old.engine.settings (length self.old.lanes.items) self.old.engine.image self.new.engine.image (added self.old.log.items self.new.log.items) }
        ensures received { HaveReceived self.old.lanes.items (added self.old.log.items self.new.log.items) self.new.lanes.items }
        ensures answered { HaveAnswered self.old.lanes.items (added self.old.log.items self.new.log.items) self.new.lanes.items }
        ensures sent { HaveSentMore self.old.lanes.items self.new.lanes.items }
        ensures pushed { HavePushed self.new.lanes.items }
        ensures late_room { (bound : ℕ) → most ≡ Some bound → HaveRoomWithin bound self.old.lanes.items self.new.lanes.items }
        ensures no_memory { IfErr result (λ error. error ≡ PortalError.NoMemory) }
        ensures nothing_fetched { OnErr result (self.new.log.items ≡ self.old.log.items) }
        ensures settings { self.new.engine.settings ≡ self.old.engine.settings }
        ensures bound { self.new.most ≡ self.old.most }
        ensures same { AreSameLanes self.old.lanes.items self.new.lanes.items }
    {
        law_of_rounds();
        self.law_of_image();
        push_all_late(&mut self.lanes);
        let jobs = MOST_OF_A_CLIENT * self.lanes.len();
        let (log, lanes) = (&mut self.log, &mut self.lanes);
        let Ok(()) = make_room(&mut self.room, log, lanes, jobs, most) else {
            return Err(PortalError::NoMemory);
        };
        let fetched = self.serve_in_room(rt, alloc, number, most);
        Ok(fetched)
    }

    /// Serves such a round for which there is room, and answers how many jobs it fetched.
    fn serve_in_room<R: Threads + Wait + Sync>(
        &mut self,
        rt: &R,
        alloc: Global,
        number: usize,
        most: Option<usize>,
    ) -> usize
        requires number { number ≤ 128 }
        requires log_room { length self.old.log.items + 128 * length self.old.lanes.items ≤ vec_capacity self.old.log }
        requires empty { (self.old.room.jobs.items ≡ []) × (self.old.room.records.items ≡ []) }
        requires jobs_room { 128 * length self.old.lanes.items ≤ vec_capacity self.old.room.jobs }
        requires records_room { 128 * length self.old.lanes.items ≤ vec_capacity self.old.room.records }
        requires late_room { HaveRoomOrAreHeld most self.old.lanes.items }
        ensures earlier { take (length self.old.log.items) self.new.log.items ≡ self.old.log.items }
        ensures number { result ≡ length (added self.old.log.items self.new.log.items) }
        ensures most { length (added self.old.log.items self.new.log.items) ≤ 128 * length self.old.lanes.items }
        ensures fetched { IsFetchedUpTo number (length self.old.lanes.items) (map sent_for (added self.old.log.items self.new.log.items)) }
        ensures taken { AreTakenOrHeldUpTo number most self.old.lanes.items (added self.old.log.items self.new.log.items) self.new.lanes.items }
        ensures image { self.new.engine.image
            ≡ memory_after self.old.engine.image (jobs_in (added self.old.log.items self.new.log.items)) self.old.engine.settings.staging }
        ensures answers { answers_in (added self.old.log.items self.new.log.items)
            ≡ records_of self.old.engine.image (jobs_in (added self.old.log.items self.new.log.items)) self.old.engine.settings.staging }
        ensures steps { RoundHasServed self.old.engine.settings (length self.old.lanes.items) self.old.engine.image self.new.engine.image (added self.old.log.items self.new.log.items) }
        ensures received { HaveReceived self.old.lanes.items (added self.old.log.items self.new.log.items) self.new.lanes.items }
        ensures answered { HaveAnswered self.old.lanes.items (added self.old.log.items self.new.log.items) self.new.lanes.items }
        ensures sent { HaveSentMore self.old.lanes.items self.new.lanes.items }
        ensures pushed { HavePushed self.new.lanes.items }
        ensures late_room { map room_by self.new.lanes.items ≡ map room_by self.old.lanes.items }
        ensures settings { self.new.engine.settings ≡ self.old.engine.settings }
        ensures bound { self.new.most ≡ self.old.most }
        ensures same { AreSameLanes self.old.lanes.items self.new.lanes.items }
    {
        law_of_rounds();
        self.law_of_image();
        let start = self.log.len();
        let (log, jobs) = (&mut self.log, &mut self.room.jobs);
        fetch_round(&mut self.lanes, number, most, log, jobs);
        self.carry_out(rt, alloc, start);
        push_all_late(&mut self.lanes);
        self.room.jobs.len()
    }
}
