//! The records of a round: into the log, and to the clients.
ghost use Rattle.std.specs.Prelude.{◌≡◌, ◌+◌, ◌≤◌, drop, length, map, take};
ghost use Rattle.dml_portal.specs.Log.{answers_in, sent_for};
ghost use Rattle.dml_portal.specs.Lanes.{AreAnswered, ArePopped, ArePushed, AreSameLanes, IsAnswered, IsPushed, IsSameLane, waiting};
ghost use Rattle.dml_portal.specs.Blocks.{AreBlocks, IsBlock};

use crate::lanes::Lane;
use crate::logs::LogEntry;
use dml_types::Record;

/// Gives the entries of a log from `start` on their records.
pub(crate) fn answer_round(log: &mut Vec<LogEntry>, start: usize, records: &[Record])
    requires { length log.old.items ≡ start + length records.now }
    ensures sent { map sent_for log.new.items ≡ map sent_for log.old.items }
    ensures earlier { take start log.new.items ≡ take start log.old.items }
    ensures answers { answers_in (drop start log.new.items) ≡ records.now }
{
    set_answers(log.as_mut_slice(), start, records);
}

/// Gives as many entries of a log from `start` on their records.
pub(crate) fn answer_part(log: &mut Vec<LogEntry>, start: usize, records: &[Record])
    requires { start + length records.now ≤ length log.old.items }
    ensures sent { map sent_for log.new.items ≡ map sent_for log.old.items }
    ensures earlier { take start log.new.items ≡ take start log.old.items }
    ensures answers { answers_in (take (length records.now) (drop start log.new.items)) ≡ records.now }
{
    set_answers(log.as_mut_slice(), start, records);
}

/// The same of a slice.
fn set_answers(log: &mut [LogEntry], start: usize, records: &[Record])
    requires { start + length records.now ≤ length log.old }
    ensures sent { map sent_for log.new ≡ map sent_for log.old }
    ensures earlier { take start log.new ≡ take start log.old }
    ensures answers { answers_in (take (length records.now) (drop start log.new)) ≡ records.now }
{
    for i in 0..records.len() {
        log[start + i].answer = records[i];
    }
}

/// Pushes to a client those of its records that were not pushed yet, in log order, as far as its ring has room.
fn push_answers(client: u32, lane: &mut Lane, log: &[LogEntry])
    requires { IsPushed log.now client lane.old }
    ensures pushed { IsPushed log.now client lane.new }
    ensures answered { IsAnswered log.now client lane.new }
    ensures jobs { lane.new.jobs ≡ lane.old.jobs }
    ensures same { IsSameLane lane.old lane.new }
{
    for i in lane.answered..log.len() {
        let entry = &log[i];
        if entry.client == client && lane.records.push(entry.answer).is_err() {
            return;
        }
        lane.answered = i + 1;
    }
}

/// Pushes to a client all its records of the round that began at `start`, if no earlier one waits and there is room.
fn push_block(client: u32, lane: &mut Lane, log: &[LogEntry], start: usize, records: &[Record])
    requires start { start + length records.now ≡ length log.now }
    requires answers { answers_in (drop start log.now) ≡ records.now }
    requires block { IsBlock (drop start log.now) client lane.old }
    requires pushed { IsPushed log.now client lane.old }
    ensures block { IsBlock (drop start log.now) client lane.new }
    ensures pushed { IsPushed log.now client lane.new }
    ensures jobs { lane.new.jobs ≡ lane.old.jobs }
    ensures same { IsSameLane lane.old lane.new }
{
    if lane.answered == start {
        let block = &records[lane.before..lane.before + lane.fetched];
        if lane.records.push_entire_slice(block).is_ok() {
            lane.answered = log.len();
        }
    }
}

/// The same to each client.
pub(crate) fn push_round(lanes: &mut Vec<Lane>, log: &[LogEntry], start: usize, records: &[Record])
    requires clients { length lanes.old.items ≤ 8 }
    requires start { start + length records.now ≡ length log.now }
    requires answers { answers_in (drop start log.now) ≡ records.now }
    requires blocks { AreBlocks lanes.old.items (drop start log.now) }
    requires popped { ArePopped lanes.old.items log.now }
    requires pushed { ArePushed lanes.old.items log.now }
    ensures popped { ArePopped lanes.new.items log.now }
    ensures pushed { ArePushed lanes.new.items log.now }
    ensures waiting { map waiting lanes.new.items ≡ map waiting lanes.old.items }
    ensures same { AreSameLanes lanes.old.items lanes.new.items }
{
    for client in 0..lanes.len() {
        push_block(client as u32, &mut lanes[client], log, start, records);
    }
}

/// Pushes to each client those of its records that were not pushed yet, as far as its ring has room.
pub(crate) fn push_all_answers(lanes: &mut Vec<Lane>, log: &[LogEntry])
    requires clients { length lanes.old.items ≤ 8 }
    requires popped { ArePopped lanes.old.items log.now }
    requires pushed { ArePushed lanes.old.items log.now }
    ensures popped { ArePopped lanes.new.items log.now }
    ensures pushed { ArePushed lanes.new.items log.now }
    ensures answered { AreAnswered lanes.new.items log.now }
    ensures waiting { map waiting lanes.new.items ≡ map waiting lanes.old.items }
    ensures same { AreSameLanes lanes.old.items lanes.new.items }
{
    for client in 0..lanes.len() {
        push_answers(client as u32, &mut lanes[client], log);
    }
}
