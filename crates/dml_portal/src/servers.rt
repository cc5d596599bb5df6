//! The server: it carries out what the clients submit, in rounds.
ghost use Rattle.std.specs.Prelude.{◌≡◌, ◌+◌, ◌*◌, ◌≤◌, [], IfOk, OnOk, length, vec_capacity};
ghost use Rattle.dml_types.specs.Limits.{IsValid};
ghost use Rattle.dml_portal.specs.Lanes.{ArePopped, ArePushed};

use crate::answering::{answer_round, push_all_answers, push_round};
use crate::errors::PortalError;
use crate::fetching::{MOST_OF_A_CLIENT, fetch_round};
use crate::lanes::Lane;
use crate::logs::LogEntry;
use crate::rooms::Room;
use dml_core::law_of_rounds;
use dml_engine::EngineOver;
use dml_pool::{Free, Gate};
use dml_types::law_of_folds;
use std::alloc::Global;
use std::sync::Wait;
use std::thread::Threads;

/// An engine that carries out what the clients of a portal submit, and the log of that. Its image may be memory that a
/// caller lends for the server's life.
#[derive(Drop)]
pub struct ServerOver<'a, G = Free> {
    pub(crate) engine: EngineOver<'a, G>,
    pub(crate) lanes: Vec<Lane>,
    pub(crate) log: Vec<LogEntry>,
    pub(crate) room: Room,
    ghost ready: { IsValid engine.settings },
    ghost few: { length lanes.items ≤ 8 },
    ghost popped: { ArePopped lanes.items log.items },
    ghost pushed: { ArePushed lanes.items log.items },
}

/// A server over an image that borrows nothing that ends.
pub type Server<G = Free> = ServerOver<'static, G>;

impl<'a, G> ServerOver<'a, G> {
    ghost use Rattle.dml_types.specs.Memory.{IsWhole};
    ghost use Rattle.dml_portal.specs.Lanes.{IsNewLane, EachLane};

    /// A server over lanes that were not used yet.
    pub(crate) fn new(
        alloc: Global,
        engine: EngineOver<'a, G>,
        lanes: Vec<Lane>,
    ) -> ServerOver<'a, G>
        requires few { length lanes.items ≤ 8 }
        requires unused { EachLane (λ _ lane. IsNewLane lane) lanes.items }
        ensures engine { result.engine ≡ engine.entry }
        ensures lanes { result.lanes.items ≡ lanes.items }
        ensures log { result.log.items ≡ [] }
    {
        let _ = engine.settings();
        ServerOver {
            engine,
            lanes,
            log: Vec::new(alloc),
            room: Room::new(alloc),
        }
    }

    /// What is known of each engine's image.
    pub(crate) fn law_of_image(&self)
        ensures { IsWhole self.now.engine.image }
    {
        let _ = self.engine.image().pages();
    }
}

impl<G: Gate + Sync> ServerOver<'_, G> {
    ghost use Rattle.std.specs.Prelude.{IfErr, OnErr, map, take};
    ghost use Rattle.dml_types.specs.Step.{memory_after, records_of};
    ghost use Rattle.dml_portal.specs.Log.{added, answers_in, jobs_in, sent_for};
    ghost use Rattle.dml_portal.specs.Lanes.{AreAnswered, AreSameLanes, AreTaken};
    ghost use Rattle.dml_portal.specs.Served.{IsFetched, RoundHasServed};
    ghost use Rattle.dml_portal.specs.Servers.{clients_of, image_of, lanes_of, log_of, settings_of};

    /// Serves a round: fetches at most 128 jobs of each client, clients in order of their numbers, carries them out as
    /// one list, and answers how many they are. Before and after, records are pushed to the clients as far as their
    /// rings have room; the others wait in the log.
    ///
    /// # Errors
    /// `NoMemory` where there is no room for a whole round; then nothing was fetched. Records that waited may have been
    /// pushed to the clients.
    pub fn serve_round<R: Threads + Wait + Sync>(
        &mut self,
        rt: &R,
        alloc: Global,
    ) -> Result<usize, PortalError>
        ensures earlier { take (length (log_of self.old)) (log_of self.new) ≡ log_of self.old }
        ensures number { IfOk result (λ number. number ≡ length (added (log_of self.old) (log_of self.new))) }
        ensures most { length (added (log_of self.old) (log_of self.new)) ≤ 128 * clients_of self.old }
        ensures fetched { IsFetched (clients_of self.old) (map sent_for (added (log_of self.old) (log_of self.new))) }
        ensures taken { OnOk result (AreTaken (lanes_of self.old) (added (log_of self.old) (log_of self.new)) (lanes_of self.new)) }
        ensures image { image_of self.new
            ≡ memory_after (image_of self.old) (jobs_in (added (log_of self.old) (log_of self.new))) (settings_of self.old).staging }
        ensures answers { answers_in (added (log_of self.old) (log_of self.new))
            ≡ records_of (image_of self.old) (jobs_in (added (log_of self.old) (log_of self.new))) (settings_of self.old).staging }
        ensures steps { RoundHasServed (settings_of self.old) (clients_of self.old) (image_of self.old) (image_of self.new) (added (log_of self.old) (log_of self.new)) }
        ensures answered { AreAnswered (lanes_of self.new) (log_of self.new) }
        ensures popped { ArePopped (lanes_of self.new) (log_of self.new) }
        ensures pushed { ArePushed (lanes_of self.new) (log_of self.new) }
        ensures no_memory { IfErr result (λ error. error ≡ PortalError.NoMemory) }
        ensures nothing_fetched { OnErr result (log_of self.new ≡ log_of self.old) }
        ensures settings { settings_of self.new ≡ settings_of self.old }
        ensures same { AreSameLanes (lanes_of self.old) (lanes_of self.new) }
    {
        law_of_rounds();
        self.law_of_image();
        push_all_answers(&mut self.lanes, self.log.as_slice());
        let most = MOST_OF_A_CLIENT * self.lanes.len();
        let Ok(()) = self.room.make(&mut self.log, most) else {
            return Err(PortalError::NoMemory);
        };
        let number = self.serve_in_room(rt, alloc);
        Ok(number)
    }

    /// Serves a round for which there is room, and answers how many jobs it fetched.
    fn serve_in_room<R: Threads + Wait + Sync>(&mut self, rt: &R, alloc: Global) -> usize
        requires log_room { length self.old.log.items + 128 * length self.old.lanes.items ≤ vec_capacity self.old.log }
        requires empty { (self.old.room.jobs.items ≡ []) × (self.old.room.records.items ≡ []) }
        requires jobs_room { 128 * length self.old.lanes.items ≤ vec_capacity self.old.room.jobs }
        requires records_room { 128 * length self.old.lanes.items ≤ vec_capacity self.old.room.records }
        ensures earlier { take (length self.old.log.items) self.new.log.items ≡ self.old.log.items }
        ensures number { result ≡ length (added self.old.log.items self.new.log.items) }
        ensures most { length (added self.old.log.items self.new.log.items) ≤ 128 * length self.old.lanes.items }
        ensures fetched { IsFetched (length self.old.lanes.items) (map sent_for (added self.old.log.items self.new.log.items)) }
        ensures taken { AreTaken self.old.lanes.items (added self.old.log.items self.new.log.items) self.new.lanes.items }
        ensures image { self.new.engine.image
            ≡ memory_after self.old.engine.image (jobs_in (added self.old.log.items self.new.log.items)) self.old.engine.settings.staging }
        ensures answers { answers_in (added self.old.log.items self.new.log.items)
            ≡ records_of self.old.engine.image (jobs_in (added self.old.log.items self.new.log.items)) self.old.engine.settings.staging }
        ensures steps { RoundHasServed self.old.engine.settings (length self.old.lanes.items) self.old.engine.image self.new.engine.image (added self.old.log.items self.new.log.items) }
        ensures answered { AreAnswered self.new.lanes.items self.new.log.items }
        ensures settings { self.new.engine.settings ≡ self.old.engine.settings }
        ensures same { AreSameLanes self.old.lanes.items self.new.lanes.items }
    {
        law_of_rounds();
        law_of_folds();
        self.law_of_image();
        let start = self.log.len();
        let (log, jobs) = (&mut self.log, &mut self.room.jobs);
        fetch_round(&mut self.lanes, MOST_OF_A_CLIENT, None, log, jobs);
        self.engine.submit_into(rt, alloc, self.room.jobs.as_slice(), &mut self.room.records);
        let records = self.room.records.as_slice();
        answer_round(&mut self.log, start, records);
        push_round(&mut self.lanes, self.log.as_slice(), start, records);
        push_all_answers(&mut self.lanes, self.log.as_slice());
        self.room.jobs.len()
    }
}
