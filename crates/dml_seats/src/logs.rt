//! Logs that are taken off such a server, and clients that it holds back.
ghost use Rattle.std.specs.Prelude.{◌≡◌, ◌+◌, ◌<◌, ◌≤◌, ◌↔◌, ◌++◌, [], IfErr, IsFalse, IsOk, IsTrue, List, OnErr, OnOk, length, slice_index_or, vec_capacity};
ghost use Rattle.dml_portal.specs.declared.logs.LogEntry.{LogEntry as Entries};
ghost use Rattle.dml_portal.specs.Whole.{AreWhole, late_of};
ghost use Rattle.dml_portal.specs.declared.lanes.Lane.{Lane as Lanes};

use crate::berths::Berths;
use crate::servers::OwnServerOver;
use dml_portal::{LogEntry, PortalError};

impl<B: Berths, G> OwnServerOver<'_, B, G> {
    ghost use Rattle.dml_seats.specs.Own.{clients_of, dones_of, engine_of, lanes_of, log_of, log_room_of, most_of};

    /// Takes off the whole log, behind the entries of a list, and keeps the room that the log has. The call takes no
    /// memory where the list has room.
    ///
    /// # Errors
    /// `NoMemory` where the list has no room for them; nothing is changed then.
    pub fn take_log(&mut self, into: &mut Vec<LogEntry>) -> Result<(), PortalError>
        ensures taken { OnOk result (into.new.items ≡ into.old.items ++ log_of self.old) }
        ensures left { OnOk result (log_of self.new ≡ []) }
        ensures whole { OnOk result ((earlier : List Entries) → AreWhole (lanes_of self.old) (earlier ++ log_of self.old)
            → AreWhole (lanes_of self.new) ((earlier ++ log_of self.old) ++ log_of self.new)) }
        ensures unchanged { OnErr result (log_of self.new ≡ log_of self.old) }
        ensures no_more { OnErr result (into.new.items ≡ into.old.items) }
        ensures no_memory { IfErr result (λ error. error ≡ PortalError.NoMemory) }
        ensures has_room { length into.old.items + length (log_of self.old) ≤ vec_capacity into.old → IsOk result }
        ensures lanes { lanes_of self.new ≡ lanes_of self.old }
        ensures engine { engine_of self.new ≡ engine_of self.old }
        ensures bound { most_of self.new ≡ most_of self.old }
        ensures capacity { log_room_of self.new ≡ log_room_of self.old }
        ensures seats { dones_of self.new ≡ dones_of self.old }
    {
        let long = &mut self.long;
        long.take_log(into)
    }

    /// Drops the whole log, and keeps the room that it has. The call takes no memory.
    pub fn drop_log(&mut self)
        ensures left { log_of self.new ≡ [] }
        ensures whole { (earlier : List Entries) → AreWhole (lanes_of self.old) (earlier ++ log_of self.old)
            → AreWhole (lanes_of self.new) ((earlier ++ log_of self.old) ++ log_of self.new) }
        ensures lanes { lanes_of self.new ≡ lanes_of self.old }
        ensures engine { engine_of self.new ≡ engine_of self.old }
        ensures bound { most_of self.new ≡ most_of self.old }
        ensures capacity { log_room_of self.new ≡ log_room_of self.old }
        ensures seats { dones_of self.new ≡ dones_of self.old }
    {
        let long = &mut self.long;
        long.drop_log();
    }

    /// Whether more records wait with a client than the server's bound. While it is so, a round fetches nothing from
    /// it, unless the round first pushes enough of them.
    pub fn is_held_back(&self, client: u32) -> bool
        ensures held { (lane : Lanes) → client < clients_of self.now
            → (IsTrue result ↔ (most_of self.now < length (late_of (slice_index_or (lanes_of self.now) client lane)))) }
        ensures nobody { clients_of self.now ≤ client → IsFalse result }
    {
        self.long.is_held_back(client)
    }
}
