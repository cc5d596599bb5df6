//! Looks at both ends of the clients' rings, once their seats are handed in.
ghost use Rattle.std.specs.Prelude.{◌≡◌, ◌≤◌, ◌++◌, IsFalse, IsTrue, length, map};
ghost use mathlib.Core.List.{IsPrefix};
ghost use Rattle.rtrb.specs.Ring.{received, sent};
ghost use Rattle.dml_portal.specs.Seats.{polled, submitted};
ghost use Rattle.dml_portal.specs.Lanes.{IsAcross, IsSeatOf, waiting};
ghost use Rattle.dml_portal.specs.Whole.{late_of, room_by};
ghost use Rattle.dml_portal.specs.Ending.{HasJobs};
ghost use Rattle.dml_portal.specs.Settled.{AreSeatsOf, AreUnusedLanes, AreUnusedSeats, EachDone, HasJobsLeft, IsDrained, IsUnusedLane, IsUnusedSeat, has_finished, have_finished};

use crate::lanes::Lane;
use crate::seats::{Done, Seat};

/// Whether the seat of a client is among these.
fn has_finished(client: u32, dones: &[Done]) -> bool
    ensures { result ≡ has_finished client dones.now }
{
    dones.iter().any(|done| done.seat.client() == client)
}

/// Whether the seats of so many clients are among these.
pub(crate) fn have_finished(clients: u32, dones: &[Done]) -> bool
    ensures { result ≡ have_finished clients dones.now }
{
    (0..clients).all(|client| has_finished(client, dones))
}

/// The number of jobs that are left in a client's ring.
fn look(lane: &mut Lane, seat: &mut Seat) -> usize
    requires { IsAcross seat.old lane.old }
    ensures left { received lane.new.jobs ++ waiting lane.new ≡ submitted seat.new }
    ensures number { result ≡ length (waiting lane.new) }
    ensures polled { IsPrefix (polled seat.new) (sent lane.new.records) }
    ensures lane { IsUnusedLane lane.old lane.new }
    ensures late { late_of lane.new ≡ late_of lane.old }
    ensures late_room { room_by lane.new ≡ room_by lane.old }
    ensures seat { IsUnusedSeat seat.old seat.new }
{
    seat.records.slots_beside(&mut lane.records);
    lane.jobs.slots_beside(&mut seat.jobs)
}

/// Whether no job is left in any ring.
pub(crate) fn are_drained(lanes: &mut Vec<Lane>, dones: &mut Vec<Done>) -> bool
    requires { AreSeatsOf lanes.old.items dones.old.items }
    ensures drained { IsTrue result → EachDone (IsDrained lanes.new.items) dones.new.items }
    ensures left { IsFalse result → HasJobsLeft lanes.new.items dones.new.items }
    ensures seats { AreSeatsOf lanes.new.items dones.new.items }
    ensures lanes { AreUnusedLanes lanes.old.items lanes.new.items }
    ensures late { map late_of lanes.new.items ≡ map late_of lanes.old.items }
    ensures dones { AreUnusedSeats dones.old.items dones.new.items }
{
    for place in 0..dones.len() {
        let seat = &mut dones[place].seat;
        let lane = &mut lanes[seat.client as usize];
        if look(lane, seat) > 0 {
            return false;
        }
    }
    true
}

/// Whether no job is left in the ring of one seat.
pub(crate) fn is_drained(lanes: &mut Vec<Lane>, done: &mut Done) -> bool
    requires { IsSeatOf lanes.old.items done.old.seat }
    ensures drained { IsTrue result → IsDrained lanes.new.items done.new }
    ensures left { IsFalse result → HasJobs lanes.new.items done.new }
    ensures seat { IsSeatOf lanes.new.items done.new.seat }
    ensures lanes { AreUnusedLanes lanes.old.items lanes.new.items }
    ensures late { map late_of lanes.new.items ≡ map late_of lanes.old.items }
    ensures late_room { map room_by lanes.new.items ≡ map room_by lanes.old.items }
    ensures unused { IsUnusedSeat done.old.seat done.new.seat }
{
    let lane = &mut lanes[done.seat.client as usize];
    look(lane, &mut done.seat) == 0
}

/// Whether the seat of a client was dropped.
pub(crate) fn is_seat_gone(lanes: &mut Vec<Lane>, client: u32) -> bool
    ensures nobody { length lanes.old.items ≤ client → IsFalse result }
    ensures lanes { AreUnusedLanes lanes.old.items lanes.new.items }
    ensures late { map late_of lanes.new.items ≡ map late_of lanes.old.items }
    ensures late_room { map room_by lanes.new.items ≡ map room_by lanes.old.items }
{
    let client = client as usize;
    if client >= lanes.len() {
        return false;
    }
    lanes[client].jobs.is_abandoned()
}
