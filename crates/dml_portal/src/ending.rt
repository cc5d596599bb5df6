//! Seats that go while their server stays.
ghost use Rattle.std.specs.Prelude.{◌≡◌, ◌≤◌, ◌++◌, IsFalse, IsTrue, List, map};
ghost use Rattle.dml_portal.specs.Types.{LogEntry as Entries};
ghost use Rattle.dml_portal.specs.Lanes.{AreSameLanes, IsSeatOf};
ghost use Rattle.dml_portal.specs.Seats.{seat_of};
ghost use Rattle.dml_portal.specs.Ending.{HasJobs};
ghost use Rattle.dml_portal.specs.Settled.{AreUnusedLanes, IsSettled, IsUnusedSeat};

use crate::long::LongServerOver;
use crate::looking::{is_drained, is_seat_gone};
use crate::seats::Done;
use crate::servers::ServerOver;

impl<G> ServerOver<'_, G> {
    ghost use Rattle.dml_portal.specs.Servers.{clients_of, engine_of, lanes_of, log_of};

    /// Whether all that one seat submitted is carried out, while the server goes on. Its part of the log is then what
    /// it submitted, in that order, and what it polled is a front of that part's records.
    pub fn is_served(&mut self, done: &mut Done) -> bool
        requires { IsSeatOf (lanes_of self.old) (seat_of done.old) }
        ensures settled { IsTrue result → IsSettled (log_of self.new) done.new }
        ensures left { IsFalse result → HasJobs (lanes_of self.new) done.new }
        ensures seat { IsSeatOf (lanes_of self.new) (seat_of done.new) }
        ensures unused { IsUnusedSeat (seat_of done.old) (seat_of done.new) }
        ensures engine { engine_of self.new ≡ engine_of self.old }
        ensures log { log_of self.new ≡ log_of self.old }
        ensures lanes { AreUnusedLanes (lanes_of self.old) (lanes_of self.new) }
        ensures same { AreSameLanes (lanes_of self.old) (lanes_of self.new) }
    {
        is_drained(&mut self.lanes, done)
    }

    /// Whether the seat of a client was dropped, so that it cannot be handed in: such a portal can be given up by
    /// `into_settled`, and not settled. It is a hint, which no clause speaks of.
    pub fn is_seat_gone(&mut self, client: u32) -> bool
        ensures nobody { clients_of self.old ≤ client → IsFalse result }
        ensures engine { engine_of self.new ≡ engine_of self.old }
        ensures log { log_of self.new ≡ log_of self.old }
        ensures lanes { AreUnusedLanes (lanes_of self.old) (lanes_of self.new) }
        ensures same { AreSameLanes (lanes_of self.old) (lanes_of self.new) }
    {
        is_seat_gone(&mut self.lanes, client)
    }
}

impl<G> LongServerOver<'_, G> {
    ghost use Rattle.dml_portal.specs.LongServers.{clients_of, engine_of, lanes_of, log_of, most_of};
    ghost use Rattle.dml_portal.specs.Whole.{AreWhole, StayWhole, late_of, room_by};

    /// Whether all that one seat submitted is carried out, while the server goes on. Its part of what was taken off the
    /// log, followed by what is left of it, is then what it submitted, in that order, and what it polled is a front of
    /// that part's records.
    pub fn is_served(&mut self, done: &mut Done) -> bool
        requires { IsSeatOf (lanes_of self.old) (seat_of done.old) }
        ensures settled { IsTrue result → (earlier : List Entries) → AreWhole (lanes_of self.old) (earlier ++ log_of self.old)
            → IsSettled (earlier ++ log_of self.new) done.new }
        ensures left { IsFalse result → HasJobs (lanes_of self.new) done.new }
        ensures seat { IsSeatOf (lanes_of self.new) (seat_of done.new) }
        ensures unused { IsUnusedSeat (seat_of done.old) (seat_of done.new) }
        ensures engine { engine_of self.new ≡ engine_of self.old }
        ensures log { log_of self.new ≡ log_of self.old }
        ensures bound { most_of self.new ≡ most_of self.old }
        ensures lanes { AreUnusedLanes (lanes_of self.old) (lanes_of self.new) }
        ensures late { map late_of (lanes_of self.new) ≡ map late_of (lanes_of self.old) }
        ensures late_room { map room_by (lanes_of self.new) ≡ map room_by (lanes_of self.old) }
        ensures whole { StayWhole (lanes_of self.old) (log_of self.old) (lanes_of self.new) (log_of self.new) }
        ensures same { AreSameLanes (lanes_of self.old) (lanes_of self.new) }
    {
        is_drained(&mut self.lanes, done)
    }

    /// Whether the seat of a client was dropped, so that it cannot be handed in: such a portal can be given up by
    /// `give_up`, and not settled. It is a hint, which no clause speaks of.
    pub fn is_seat_gone(&mut self, client: u32) -> bool
        ensures nobody { clients_of self.old ≤ client → IsFalse result }
        ensures engine { engine_of self.new ≡ engine_of self.old }
        ensures log { log_of self.new ≡ log_of self.old }
        ensures bound { most_of self.new ≡ most_of self.old }
        ensures lanes { AreUnusedLanes (lanes_of self.old) (lanes_of self.new) }
        ensures late { map late_of (lanes_of self.new) ≡ map late_of (lanes_of self.old) }
        ensures late_room { map room_by (lanes_of self.new) ≡ map room_by (lanes_of self.old) }
        ensures whole { StayWhole (lanes_of self.old) (log_of self.old) (lanes_of self.new) (log_of self.new) }
        ensures same { AreSameLanes (lanes_of self.old) (lanes_of self.new) }
    {
        is_seat_gone(&mut self.lanes, client)
    }
}
