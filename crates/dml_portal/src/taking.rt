//! Logs that are taken off a server that stays up.
ghost use Rattle.std.specs.Prelude.{◌≡◌, ◌+◌, ◌≤◌, ◌++◌, [], IfErr, IfOk, IsOk, List, OnErr, OnOk, length, vec_capacity};
ghost use Rattle.dml_portal.specs.Types.{LogEntry as Entries};
ghost use Rattle.dml_portal.specs.Whole.{AreWhole};

use crate::errors::PortalError;
use crate::lates::{keep_all, keep_none};
use crate::logs::LogEntry;
use crate::long::LongServerOver;
use crate::servers::ServerOver;
use std::alloc::AllocError;

impl<'a, G> ServerOver<'a, G> {
    ghost use Rattle.std.specs.Prelude.{map};
    ghost use Rattle.dml_portal.specs.Lanes.{AreSameLanes, waiting};
    ghost use Rattle.dml_portal.specs.Settled.{AreUnusedLanes};
    ghost use Rattle.dml_portal.specs.Servers.{engine_of, lanes_of, log_of};
    ghost use Rattle.dml_portal.specs.LongServers as long;

    /// Puts the records that wait with their clients.
    fn keep_late(&mut self) -> Result<(), AllocError>
        ensures engine { self.new.engine ≡ self.old.engine }
        ensures log { self.new.log.items ≡ self.old.log.items }
        ensures lanes { AreUnusedLanes self.old.lanes.items self.new.lanes.items }
        ensures waiting { map waiting self.new.lanes.items ≡ map waiting self.old.lanes.items }
        ensures whole { OnOk result (AreWhole self.new.lanes.items self.new.log.items) }
        ensures at_once { self.old.log.items ≡ [] → IsOk result }
    {
        let kept = keep_all(&mut self.lanes, self.log.as_slice());
        if kept.is_err() {
            keep_none(&mut self.lanes);
        }
        kept
    }

    /// The same server as one that stays up: its log can be taken off in parts, and a client for whom more records wait
    /// than `most` is held back. The records that wait are put with their clients; where the log is empty, that takes
    /// no memory.
    ///
    /// # Errors
    /// `NoMemory` where there is no room for them. The server is handed back; nothing was fetched, pushed or carried
    /// out.
    pub fn stay_up(
        self,
        most: usize,
    ) -> Result<LongServerOver<'a, G>, (ServerOver<'a, G>, PortalError)>
        ensures engine { IfOk result (λ server. long.engine_of server ≡ engine_of self.entry) }
        ensures log { IfOk result (λ server. long.log_of server ≡ log_of self.entry) }
        ensures lanes { IfOk result (λ server. AreUnusedLanes (lanes_of self.entry) (long.lanes_of server)) }
        ensures waiting { IfOk result (λ server. map waiting (long.lanes_of server) ≡ map waiting (lanes_of self.entry)) }
        ensures same { IfOk result (λ server. AreSameLanes (lanes_of self.entry) (long.lanes_of server)) }
        ensures whole { IfOk result (λ server. AreWhole (long.lanes_of server) (long.log_of server)) }
        ensures bound { IfOk result (λ server. long.most_of server ≡ most) }
        ensures at_once { log_of self.entry ≡ [] → IsOk result }
        ensures no_memory { IfErr result (λ kept. kept.1 ≡ PortalError.NoMemory) }
        ensures kept_engine { IfErr result (λ kept. engine_of kept.0 ≡ engine_of self.entry) }
        ensures kept_log { IfErr result (λ kept. log_of kept.0 ≡ log_of self.entry) }
        ensures kept_lanes { IfErr result (λ kept. AreUnusedLanes (lanes_of self.entry) (lanes_of kept.0)) }
        ensures kept_waiting { IfErr result (λ kept. map waiting (lanes_of kept.0) ≡ map waiting (lanes_of self.entry)) }
        ensures kept_same { IfErr result (λ kept. AreSameLanes (lanes_of self.entry) (lanes_of kept.0)) }
    {
        let mut server = self;
        let Ok(()) = server.keep_late() else {
            return Err((server, PortalError::NoMemory));
        };
        let ServerOver {
            engine,
            lanes,
            log,
            room,
        } = server;
        Ok(LongServerOver {
            engine,
            lanes,
            log,
            room,
            most,
        })
    }
}

impl<G> LongServerOver<'_, G> {
    ghost use Rattle.dml_portal.specs.LongServers.{engine_of, lanes_of, log_of, log_room_of, most_of};

    /// Takes off the whole log, behind the entries of a list, and keeps the room that the log has. The call takes no
    /// memory where the list has room.
    ///
    /// # Errors
    /// `NoMemory` where the list has no room for them; nothing is changed then.
    pub fn take_log(&mut self, into: &mut Vec<LogEntry>) -> Result<(), PortalError>
        ensures taken { OnOk result (into.new.items ≡ into.old.items ++ log_of self.old) }
        ensures left { OnOk result (log_of self.new ≡ []) }
        ensures whole { OnOk result ((earlier : List Entries) → AreWhole (lanes_of self.old) (earlier ++ log_of self.old)
            → AreWhole (lanes_of self.new) ((earlier ++ log_of self.old) ++ log_of self.new)) }
        ensures unchanged { OnErr result (log_of self.new ≡ log_of self.old) }
        ensures no_more { OnErr result (into.new.items ≡ into.old.items) }
        ensures no_memory { IfErr result (λ error. error ≡ PortalError.NoMemory) }
        ensures has_room { length into.old.items + length (log_of self.old) ≤ vec_capacity into.old → IsOk result }
        ensures lanes { lanes_of self.new ≡ lanes_of self.old }
        ensures engine { engine_of self.new ≡ engine_of self.old }
        ensures bound { most_of self.new ≡ most_of self.old }
        ensures capacity { log_room_of self.new ≡ log_room_of self.old }
    {
        if into.extend_from_slice(self.log.as_slice()).is_err() {
            return Err(PortalError::NoMemory);
        }
        self.drop_log();
        Ok(())
    }

    /// Drops the whole log, and keeps the room that it has. The call takes no memory.
    pub fn drop_log(&mut self)
        ensures left { log_of self.new ≡ [] }
        ensures whole { (earlier : List Entries) → AreWhole (lanes_of self.old) (earlier ++ log_of self.old)
            → AreWhole (lanes_of self.new) ((earlier ++ log_of self.old) ++ log_of self.new) }
        ensures lanes { lanes_of self.new ≡ lanes_of self.old }
        ensures engine { engine_of self.new ≡ engine_of self.old }
        ensures bound { most_of self.new ≡ most_of self.old }
        ensures capacity { log_room_of self.new ≡ log_room_of self.old }
    {
        self.log.clear();
    }
}
