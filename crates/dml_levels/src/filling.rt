ghost use Rattle.std.specs.Prelude.{◌≡◌, ◌⊎◌, ℕ, ◌<◌, All, ◌≤◌, Bool, List, [], ◌∷◌, ◌++◌, OnOk, length};
ghost use Rattle.dml_types.specs.Refusal.{need};
ghost use Rattle.dml_order.specs.Waves.{cut_behind};
ghost use Rattle.dml_levels.specs.Tasks.{IsChunk};
ghost use Rattle.dml_levels.specs.Waves.{IsFilling, IsSmall, IsUnfilled, fits_wave, job_at};

use crate::rooms::Room;
use crate::tasks::task_count;
use dml_desc::{Checked, need};
use std::alloc::{AllocError, Global};
use std::marker::Model;

/// The most chunks of a wave.
const MOST_TASKS: u64 = 131_072;

/// Jobs that may be carried out together, by their places in the list.
#[derive(Debug, Drop)]
pub struct Wave {
    pub list: Vec<u32>,
}

impl Model for Wave {
    ghost use Rattle.std.specs.Prelude.{ℕ, List};

    ghost Value = { List ℕ };

    ghost view = { λ wave. wave.list.items };
}

/// A wave that is being filled, with the staging that its jobs need, and their chunks. Its room serves all waves.
#[derive(Drop)]
pub struct Filling {
    pub room: Room,
    pub needs: u64,
    pub tasks: u64,
}

impl Filling {
    /// No job yet; its room keeps these links, and has the places of the wave behind them.
    pub fn new(links: Vec<u32>) -> Filling
        ensures empty { IsUnfilled result }
        ensures links { result.room.links ≡ links.items }
    {
        Filling {
            room: Room::behind(links),
            needs: 0,
            tasks: 0,
        }
    }

    /// Takes the job at a place. Where it does not fit, the wave goes to the others, and the job begins the next.
    #[tactic(auto, using(crate::proofs::FillingLemmas::small_push))]
    #[inline(always)]
    pub fn take(
        &mut self,
        alloc: Global,
        jobs: &[Checked],
        place: u32,
        staging: u32,
        chunk: u32,
        waves: &mut Vec<Wave>,
    ) -> Result<(), AllocError>
        requires in_bounds { place < length jobs.now }
        requires small { need (job_at jobs.now place) ≤ staging }
        requires chunk { IsChunk chunk }
        requires filling { IsFilling jobs.now staging chunk self.old }
        ensures cut { OnOk result ((rest : List ℕ) →
            waves.new.items ++ cut_behind (fits_wave jobs.now staging chunk) self.new.room.wave rest
            ≡ waves.old.items ++ cut_behind (fits_wave jobs.now staging chunk) self.old.room.wave (place ∷ rest)) }
        ensures filling { OnOk result (IsFilling jobs.now staging chunk self.new) }
        ensures links { OnOk result (self.new.room.links ≡ self.old.room.links) }
        ensures small { OnOk result (All (IsSmall jobs.now staging chunk) waves.old.items →
            All (IsSmall jobs.now staging chunk) waves.new.items) }
    {
        let job = &jobs[place as usize];
        let own_needs = need(job.job());
        let own_tasks = u64::from(task_count(job, chunk));
        let needs = self.needs + own_needs;
        let tasks = self.tasks + own_tasks;
        if self.room.wave().is_empty() || needs <= u64::from(staging) && tasks <= MOST_TASKS {
            self.needs = needs;
            self.tasks = tasks;
        } else {
            self.hand_over(alloc, waves)?;
            self.needs = own_needs;
            self.tasks = own_tasks;
        }
        self.room.push(place)?;
        Ok(())
    }

    /// Hands over the last wave, unless it has no job, and is empty again.
    pub fn finish(&mut self, alloc: Global, waves: &mut Vec<Wave>) -> Result<(), AllocError>
        ensures cut { OnOk result ((fits : List ℕ → Bool) →
            waves.new.items ≡ waves.old.items ++ cut_behind fits self.old.room.wave []) }
        ensures pushed { OnOk result ((waves.new.items ≡ waves.old.items) ⊎
            (waves.new.items ≡ waves.old.items ++ self.old.room.wave ∷ [])) }
        ensures empty { OnOk result (IsUnfilled self.new) }
        ensures links { OnOk result (self.new.room.links ≡ self.old.room.links) }
    {
        if !self.room.wave().is_empty() {
            self.hand_over(alloc, waves)?;
        }
        self.needs = 0;
        self.tasks = 0;
        Ok(())
    }

    /// Hands over the wave, in a list with no room to spare.
    fn hand_over(&mut self, alloc: Global, waves: &mut Vec<Wave>) -> Result<(), AllocError>
        ensures handed { OnOk result (waves.new.items ≡ waves.old.items ++ self.old.room.wave ∷ []) }
        ensures empty { OnOk result (self.new.room.wave ≡ []) }
        ensures links { OnOk result (self.new.room.links ≡ self.old.room.links) }
    {
        let list = Vec::from_slice(alloc, self.room.wave())?;
        waves.push(Wave { list })?;
        self.room.clear();
        Ok(())
    }
}
