//! A round's list, carried out part by part.
ghost use Rattle.std.specs.Prelude.{◌≡◌, ◌+◌, ◌≤◌, drop, length, map, take, vec_capacity};
ghost use Rattle.dml_types.specs.Step.{memory_after, records_of};
ghost use Rattle.dml_portal.specs.Log.{answers_in, sent_for};
ghost use Rattle.dml_portal.specs.Lanes.{AreSameLanes, waiting};
ghost use Rattle.dml_portal.specs.Whole.{HaveRoom, HaveSentMore, received_by, room_by};
ghost use Rattle.dml_portal.specs.Parts.{ArePartly};

use crate::answering::answer_part;
use crate::lates::push_or_keep_all;
use crate::long::LongServerOver;
use crate::parts::part_end;
use dml_pool::Gate;
use dml_types::law_of_folds;
use std::alloc::Global;
use std::sync::Wait;
use std::thread::Threads;

impl<G: Gate + Sync> LongServerOver<'_, G> {
    /// Carries out the jobs of a round part by part. Behind each part its records are put in the log, from `start` on,
    /// and pushed to the clients, or wait with them.
    pub(crate) fn carry_out<R: Threads + Wait + Sync>(
        &mut self,
        rt: &R,
        alloc: Global,
        start: usize,
    )
        requires few { length self.old.room.jobs.items ≤ 1024 }
        requires room { length self.old.room.jobs.items ≤ vec_capacity self.old.room.records }
        requires log { length self.old.log.items ≡ start + length self.old.room.jobs.items }
        requires late_room { HaveRoom self.old.lanes.items }
        ensures image { self.new.engine.image
            ≡ memory_after self.old.engine.image self.old.room.jobs.items self.old.engine.settings.staging }
        ensures answers { answers_in (drop start self.new.log.items)
            ≡ records_of self.old.engine.image self.old.room.jobs.items self.old.engine.settings.staging }
        ensures log { map sent_for self.new.log.items ≡ map sent_for self.old.log.items }
        ensures earlier { take start self.new.log.items ≡ take start self.old.log.items }
        ensures blocks { ArePartly (records_of self.old.engine.image self.old.room.jobs.items self.old.engine.settings.staging) self.old.lanes.items self.new.lanes.items }
        ensures sent { HaveSentMore self.old.lanes.items self.new.lanes.items }
        ensures received { map received_by self.new.lanes.items ≡ map received_by self.old.lanes.items }
        ensures waiting { map waiting self.new.lanes.items ≡ map waiting self.old.lanes.items }
        ensures late_room { map room_by self.new.lanes.items ≡ map room_by self.old.lanes.items }
        ensures jobs { self.new.room.jobs.items ≡ self.old.room.jobs.items }
        ensures settings { self.new.engine.settings ≡ self.old.engine.settings }
        ensures bound { self.new.most ≡ self.old.most }
        ensures same { AreSameLanes self.old.lanes.items self.new.lanes.items }
    {
        law_of_folds();
        let mut from = 0;
        while from < self.room.jobs.len() {
            let most = self.room.records.capacity();
            let to = part_end(self.room.jobs.as_slice(), from, most);
            let part = &self.room.jobs.as_slice()[from..to];
            self.room.records.clear();
            self.engine
                .submit_into(rt, alloc, part, &mut self.room.records);
            let records = self.room.records.as_slice();
            answer_part(&mut self.log, start + from, records);
            push_or_keep_all(&mut self.lanes, records);
            from = to;
        }
    }
}
