//! Records that wait with their client, of a server that stays up.
ghost use Rattle.std.specs.Prelude.{◌≡◌, ℕ, ◌+◌, ◌≤◌, [], ◌++◌, IsOk, OnOk, Some, drop, length, map, max, take};
ghost use Rattle.dml_portal.specs.Lanes.{ArePushed, AreSameLanes, IsPushed, IsSameLane, waiting};
ghost use Rattle.dml_portal.specs.Settled.{AreUnusedLanes, IsUnusedLane};
ghost use Rattle.std.specs.VecDeque.{deque_capacity, deque_len};
ghost use Rattle.dml_portal.specs.Parts.{ArePartly, IsPartly};
ghost use Rattle.dml_portal.specs.Held.{HasRoomOrIsHeld, HasRoomWithin, HaveRoomOrAreHeld, HaveRoomWithin};
ghost use Rattle.dml_portal.specs.Whole.{AreKept, HasPushed, HasRoom, HasSentMore, HavePushed, HaveRoom, HaveSentMore, IsKept, kept_by, late_of, received_by, room_by};

use crate::fetching::{MOST_OF_A_CLIENT, is_held_back};
use crate::lanes::Lane;
use crate::logs::LogEntry;
use dml_types::Record;
use std::alloc::AllocError;
use std::collections::VecDeque;

/// Lets the client's records of a log wait that were not pushed yet.
fn keep_rest(client: u32, lane: &mut Lane, log: &[LogEntry]) -> Result<(), AllocError>
    requires { IsPushed log.now client lane.old }
    ensures jobs { lane.new.jobs ≡ lane.old.jobs }
    ensures kept { OnOk result (IsKept log.now client lane.new) }
    ensures at_once { log.now ≡ [] → IsOk result }
    ensures unused { IsUnusedLane lane.old lane.new }
{
    lane.late.clear();
    for i in lane.answered..log.len() {
        let entry = &log[i];
        if entry.client == client {
            lane.late.push_back(entry.answer)?;
        }
    }
    Ok(())
}

/// The same of each client.
pub(crate) fn keep_all(lanes: &mut Vec<Lane>, log: &[LogEntry]) -> Result<(), AllocError>
    requires clients { length lanes.old.items ≤ 8 }
    requires pushed { ArePushed lanes.old.items log.now }
    ensures waiting { map waiting lanes.new.items ≡ map waiting lanes.old.items }
    ensures kept { OnOk result (AreKept lanes.new.items log.now) }
    ensures at_once { log.now ≡ [] → IsOk result }
    ensures unused { AreUnusedLanes lanes.old.items lanes.new.items }
{
    for client in 0..lanes.len() {
        keep_rest(client as u32, &mut lanes[client], log)?;
    }
    Ok(())
}

/// Lets no record wait, of any client.
pub(crate) fn keep_none(lanes: &mut Vec<Lane>)
    requires clients { length lanes.old.items ≤ 8 }
    ensures waiting { map waiting lanes.new.items ≡ map waiting lanes.old.items }
    ensures unused { AreUnusedLanes lanes.old.items lanes.new.items }
{
    for client in 0..lanes.len() {
        lanes[client].late.clear();
    }
}

/// Makes room for the records of a round of each client that is not held back, beside those that wait.
pub(crate) fn make_late(lanes: &mut Vec<Lane>, most: Option<usize>) -> Result<(), AllocError>
    requires clients { length lanes.old.items ≤ 8 }
    ensures kept { map kept_by lanes.new.items ≡ map kept_by lanes.old.items }
    ensures received { map received_by lanes.new.items ≡ map received_by lanes.old.items }
    ensures waiting { map waiting lanes.new.items ≡ map waiting lanes.old.items }
    ensures sent { HaveSentMore lanes.old.items lanes.new.items }
    ensures pushed { HavePushed lanes.old.items → HavePushed lanes.new.items }
    ensures room { OnOk result (HaveRoomOrAreHeld most lanes.new.items) }
    ensures within { (bound : ℕ) → most ≡ Some bound → HaveRoomWithin bound lanes.old.items lanes.new.items }
    ensures same { AreSameLanes lanes.old.items lanes.new.items }
{
    for client in 0..lanes.len() {
        reserve_late(&mut lanes[client], most)?;
    }
    Ok(())
}

/// The same of one client.
fn reserve_late(lane: &mut Lane, most: Option<usize>) -> Result<(), AllocError>
    ensures kept { kept_by lane.new ≡ kept_by lane.old }
    ensures room { OnOk result (HasRoomOrIsHeld most lane.new) }
    ensures jobs { lane.new.jobs ≡ lane.old.jobs }
    ensures records { lane.new.records ≡ lane.old.records }
    ensures late { late_of lane.new ≡ late_of lane.old }
    ensures within { (bound : ℕ) → most ≡ Some bound → HasRoomWithin bound lane.old lane.new }
    ensures same { IsSameLane lane.old lane.new }
{
    if is_held_back(lane, most) {
        return Ok(());
    }
    match most {
        Some(most) => reserve_within(&mut lane.late, most),
        None => lane.late.reserve(MOST_OF_A_CLIENT),
    }
}

/// Makes room for the records of a round beside no more than `most` that wait. Where it is not there, room for twice as
/// many as wait is made, so that it seldom grows, and for no more than the bound and one round's.
fn reserve_within(late: &mut VecDeque<Record>, most: usize) -> Result<(), AllocError>
    requires { deque_len late.old ≤ most }
    ensures items { late.new.items ≡ late.old.items }
    ensures room { OnOk result (deque_len late.new + 128 ≤ deque_capacity late.new) }
    ensures within { deque_capacity late.new ≤ max (deque_capacity late.old) (most + 128) }
{
    let waiting = late.len();
    if late.capacity() - waiting >= MOST_OF_A_CLIENT {
        return Ok(());
    }
    late.reserve_exact(MOST_OF_A_CLIENT + waiting.min(most - waiting))
}

/// Pushes to a client the records that wait, the oldest first, as far as its ring has room.
fn push_late(lane: &mut Lane)
    ensures kept { kept_by lane.new ≡ kept_by lane.old }
    ensures fewer { deque_len lane.new.late ≤ deque_len lane.old.late }
    ensures pushed { HasPushed lane.new }
    ensures sent { HasSentMore lane.old lane.new }
    ensures before { lane.new.before ≡ lane.old.before }
    ensures fetched { lane.new.fetched ≡ lane.old.fetched }
    ensures jobs { lane.new.jobs ≡ lane.old.jobs }
    ensures late_room { room_by lane.new ≡ room_by lane.old }
    ensures same { IsSameLane lane.old lane.new }
{
    while let Some(record) = lane.late.front() {
        if lane.records.push(*record).is_err() {
            return;
        }
        lane.late.pop_front();
    }
}

/// Pushes to each client the records that wait, as far as its ring has room.
pub(crate) fn push_all_late(lanes: &mut Vec<Lane>)
    requires clients { length lanes.old.items ≤ 8 }
    ensures kept { map kept_by lanes.new.items ≡ map kept_by lanes.old.items }
    ensures pushed { HavePushed lanes.new.items }
    ensures sent { HaveSentMore lanes.old.items lanes.new.items }
    ensures received { map received_by lanes.new.items ≡ map received_by lanes.old.items }
    ensures waiting { map waiting lanes.new.items ≡ map waiting lanes.old.items }
    ensures late_room { map room_by lanes.new.items ≡ map room_by lanes.old.items }
    ensures same { AreSameLanes lanes.old.items lanes.new.items }
{
    for client in 0..lanes.len() {
        push_late(&mut lanes[client]);
    }
}

/// Lets records wait behind those of a client that wait.
fn add_late(lane: &mut Lane, block: &[Record])
    requires { deque_len lane.old.late + length block.now ≤ deque_capacity lane.old.late }
    ensures late { late_of lane.new ≡ late_of lane.old ++ block.now }
    ensures number { deque_len lane.new.late ≡ deque_len lane.old.late + length block.now }
    ensures before { lane.new.before ≡ lane.old.before }
    ensures fetched { lane.new.fetched ≡ lane.old.fetched }
    ensures jobs { lane.new.jobs ≡ lane.old.jobs }
    ensures records { lane.new.records ≡ lane.old.records }
    ensures late_room { room_by lane.new ≡ room_by lane.old }
    ensures same { IsSameLane lane.old lane.new }
{
    for record in block {
        lane.late.push_back_reserved(*record);
    }
}

/// Pushes to a client all its records of a part of a round, if no earlier one waits and there is room; else they wait.
fn push_whole_or_keep(lane: &mut Lane, records: &[Record])
    requires { HasRoom lane.old }
    ensures partly { IsPartly records.now lane.old lane.new }
    ensures room { HasRoom lane.new }
    ensures sent { HasSentMore lane.old lane.new }
    ensures jobs { lane.new.jobs ≡ lane.old.jobs }
    ensures late_room { room_by lane.new ≡ room_by lane.old }
    ensures same { IsSameLane lane.old lane.new }
{
    let start = lane.before.min(records.len());
    let end = start + lane.fetched.min(records.len() - start);
    let block = &records[start..end];
    lane.before -= start;
    lane.fetched -= block.len();
    if lane.late.is_empty() && lane.records.push_entire_slice(block).is_ok() {
        return;
    }
    add_late(lane, block);
}

/// Pushes to a client its records of a part of a round, behind those that wait, as far as its ring has room; the others
/// wait.
fn push_or_keep(lane: &mut Lane, records: &[Record])
    requires { HasRoom lane.old }
    ensures partly { IsPartly records.now lane.old lane.new }
    ensures pushed { HasPushed lane.new }
    ensures room { HasRoom lane.new }
    ensures sent { HasSentMore lane.old lane.new }
    ensures jobs { lane.new.jobs ≡ lane.old.jobs }
    ensures late_room { room_by lane.new ≡ room_by lane.old }
    ensures same { IsSameLane lane.old lane.new }
{
    push_whole_or_keep(lane, records);
    push_late(lane);
}

/// The same to each client.
pub(crate) fn push_or_keep_all(lanes: &mut Vec<Lane>, records: &[Record])
    requires clients { length lanes.old.items ≤ 8 }
    requires room { HaveRoom lanes.old.items }
    ensures blocks { ArePartly records.now lanes.old.items lanes.new.items }
    ensures room { HaveRoom lanes.new.items }
    ensures sent { HaveSentMore lanes.old.items lanes.new.items }
    ensures received { map received_by lanes.new.items ≡ map received_by lanes.old.items }
    ensures waiting { map waiting lanes.new.items ≡ map waiting lanes.old.items }
    ensures late_room { map room_by lanes.new.items ≡ map room_by lanes.old.items }
    ensures same { AreSameLanes lanes.old.items lanes.new.items }
{
    for client in 0..lanes.len() {
        push_or_keep(&mut lanes[client], records);
    }
}
