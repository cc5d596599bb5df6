//! The steps of a world.
ghost use Rattle.std.specs.Prelude.{◌≡◌, ◌≤◌, ◌<◌, All, IfOk, IfSome, OnErr, OnOk, OnSome, Some, false, filter, if◌then◌else◌, is_none, is_some, length, slice_index_or, take, true, []};
ghost use Rattle.std.specs.List.{list_all, range_with_len};
ghost use Rattle.dml_types.specs.Limits.{IsValid};
ghost use Rattle.dml_core.specs.Plan as word;
ghost use Rattle.dml_core.specs.Plan.{jobs_of, open_places, plan_of};
ghost use Rattle.dml_core.specs.Replay.{may_grow};
ghost use Rattle.dml_core.specs.Types.{Commit, Fetch, Finish, Submit, Take};
ghost use Rattle.dml_core.specs.Gather.{HoldOpen, is_idle};
ghost use Rattle.dml_core.specs.World as state;
ghost use Rattle.dml_core.specs.World.{after, is_allowed};

use crate::carrying::carry_out_wave;
use crate::counts::{count_one, next_counted};
use crate::lists::Places;
use crate::planning::{NoMemory, is_open, keep_open, plan, push_open};
use crate::tasks::tasks_of;
use crate::values::{Fetched, Step, Task};
use crate::worlds::World;
use dml_types::{Job, Settings};
use std::alloc::{AllocError, Global};

/// The most fetched jobs that are not committed.
pub(crate) const MAX_OPEN: usize = 1024;

/// Why a step is not taken.
#[derive(Clone, Copy, PartialEq, Eq)]
pub(crate) enum Refusal {
    NotAllowed,
    NoMemory,
}

/// A client's next job, and how many fetched jobs are open.
#[derive(Clone, Copy)]
pub(crate) struct Next {
    pub(crate) job: Job,
    pub(crate) open_jobs: usize,
}

impl World {
    /// Takes a step. Where it is refused, nothing is changed.
    // It has two callers, and a call would take half as long as the shortest step.
    #[inline(always)]
    pub(crate) fn take_step(&mut self, alloc: Global, step: &Step) -> Result<(), Refusal>
        ensures allowed { OnOk result (is_allowed self.old step.now ≡ true) }
        ensures ok { OnOk result (self.new ≡ after self.old step.now) }
        ensures err { OnErr result (self.new ≡ self.old) }
        ensures not_allowed { result ≡ Err Refusal.NotAllowed → is_allowed self.old step.now ≡ false }
        ensures no_memory { result ≡ Err Refusal.NoMemory → is_allowed self.old step.now ≡ true }
        ensures may_grow { result ≡ Err Refusal.NoMemory → may_grow step.now ≡ true }
    {
        match *step {
            Step::Submit { client, job } => self.submit(client, job),
            Step::Fetch { client } => self.fetch(alloc, client),
            Step::Take { worker } => self.take(worker),
            Step::Finish { worker } => self.finish(worker),
            Step::Commit => self.commit(alloc),
        }
    }

    /// Takes a step, or says that there is no memory for it where it was tried in vain and is allowed. Where it is
    /// refused, nothing is changed.
    pub(crate) fn take_alone(
        &mut self,
        alloc: Global,
        step: &Step,
        is_tried: bool,
    ) -> Result<(), Refusal>
        ensures allowed { OnOk result (is_allowed self.old step.now ≡ true) }
        ensures ok { OnOk result (self.new ≡ after self.old step.now) }
        ensures err { OnErr result (self.new ≡ self.old) }
        ensures not_allowed { result ≡ Err Refusal.NotAllowed → is_allowed self.old step.now ≡ false }
        ensures no_memory { result ≡ Err Refusal.NoMemory → is_allowed self.old step.now ≡ true }
        ensures may_grow { result ≡ Err Refusal.NoMemory → may_grow step.now ≡ true }
    {
        if is_tried && self.may_join(step) {
            return Err(Refusal::NoMemory);
        }
        self.take_step(alloc, step)
    }

    /// Whether a step is a submit or a fetch, and allowed.
    fn may_join(&self, step: &Step) -> bool
        ensures allowed { result ≡ true → is_allowed self.now step.now ≡ true }
        ensures may_grow { result ≡ true → may_grow step.now ≡ true }
    {
        match *step {
            Step::Submit { client, .. } => (client as usize) < self.sent.len(),
            Step::Fetch { client } => self.may_fetch(client),
            Step::Take { .. } | Step::Finish { .. } | Step::Commit => false,
        }
    }

    /// Whether a client's next job may be fetched.
    fn may_fetch(&self, client: u32) -> bool
        ensures { result ≡ is_allowed self.now (Fetch client) }
    {
        self.next_fetch(client).is_some()
    }

    /// A client's next job, where it may be fetched, and what was counted to judge that.
    pub(crate) fn next_fetch(&self, client: u32) -> Option<Next>
        ensures allowed { is_some result ≡ is_allowed self.now (Fetch client) }
        ensures job { IfSome result (λ next. state.next_job self.now client ≡ Some next.job) }
        ensures open_jobs { IfSome result (λ next. next.open_jobs ≡ length (open_places self.now.fetched)) }
        ensures idle { OnSome result (is_idle self.now ≡ true) }
        ensures few { OnSome result (length (open_places self.now.fetched) < 1024) }
    {
        let fetched = self.fetched.as_slice();
        let job = next_counted(self.sent.as_slice(), fetched, client)?;
        if !all_free(self.hands.as_slice()) || self.finished > 0 {
            return None;
        }
        let open_jobs = count_open(self.places.as_slice(), fetched);
        if open_jobs >= MAX_OPEN {
            return None;
        }
        Some(Next { job, open_jobs })
    }

    /// A client sends a job.
    fn submit(&mut self, client: u32, job: Job) -> Result<(), Refusal>
        ensures allowed { OnOk result (is_allowed self.old (Submit client job) ≡ true) }
        ensures ok { OnOk result (self.new ≡ after self.old (Submit client job)) }
        ensures err { OnErr result (self.new ≡ self.old) }
        ensures not_allowed { result ≡ Err Refusal.NotAllowed → is_allowed self.old (Submit client job) ≡ false }
        ensures no_memory { result ≡ Err Refusal.NoMemory → is_allowed self.old (Submit client job) ≡ true }
    {
        let client = client as usize;
        if client >= self.sent.len() {
            return Err(Refusal::NotAllowed);
        }
        let Ok(()) = self.sent[client].push(job) else {
            return Err(Refusal::NoMemory);
        };
        Ok(())
    }

    /// A client's next job is fetched, and the jobs that are not committed are planned anew.
    fn fetch(&mut self, alloc: Global, client: u32) -> Result<(), Refusal>
        ensures allowed { OnOk result (is_allowed self.old (Fetch client) ≡ true) }
        ensures ok { OnOk result (self.new ≡ after self.old (Fetch client)) }
        ensures err { OnErr result (self.new ≡ self.old) }
        ensures not_allowed { result ≡ Err Refusal.NotAllowed → is_allowed self.old (Fetch client) ≡ false }
        ensures no_memory { result ≡ Err Refusal.NoMemory → is_allowed self.old (Fetch client) ≡ true }
    {
        let Some(next) = self.next_fetch(client) else {
            return Err(Refusal::NotAllowed);
        };
        match self.fetch_job(alloc, client, next.job) {
            Ok(()) => Ok(()),
            Err(_) => Err(Refusal::NoMemory),
        }
    }

    /// A client's next job, which may be fetched, is fetched, and the jobs that are not committed are planned anew.
    #[tactic(auto, using(crate::proofs::StepFacts::few_open, std::proofs::lemmas::List::take_at))]
    fn fetch_job(&mut self, alloc: Global, client: u32, job: Job) -> Result<(), NoMemory>
        requires next { state.next_job self.old client ≡ Some job }
        requires idle { is_idle self.old ≡ true }
        requires few { length (open_places self.old.fetched) < 1024 }
        ensures ok { OnOk result (self.new ≡ after self.old (Fetch client)) }
        ensures err { OnErr result (self.new ≡ self.old) }
    {
        let (from, room) = (self.fetched.len(), self.fetched.capacity());
        let entry = Fetched {
            client,
            job,
            answer: None,
        };
        if self.fetched.push(entry).is_err() {
            return Err(NoMemory);
        }
        match set_out(alloc, &mut self.places, &self.fetched, from, &self.settings) {
            Ok(Outset { waves, tasks }) => {
                count_one(&mut self.sent, client);
                self.waves = waves;
                self.committed = 0;
                self.tasks = tasks;
                self.taken = 0;
                self.finished = 0;
                Ok(())
            }
            Err(error) => {
                self.fetched.truncate(from);
                self.fetched.shrink_to(room);
                Err(error)
            }
        }
    }

    /// A worker takes the first task to do.
    fn take(&mut self, worker: u32) -> Result<(), Refusal>
        ensures allowed { OnOk result (is_allowed self.old (Take worker) ≡ true) }
        ensures ok { OnOk result (self.new ≡ after self.old (Take worker)) }
        ensures err { OnErr result (self.new ≡ self.old) }
        ensures not_allowed { result ≡ Err Refusal.NotAllowed → is_allowed self.old (Take worker) ≡ false }
        ensures no_memory { result ≡ Err Refusal.NoMemory → ⊥ }
    {
        let worker = worker as usize;
        if worker >= self.hands.len() || self.hands[worker].is_some() {
            return Err(Refusal::NotAllowed);
        }
        if self.taken == self.tasks.len() {
            return Err(Refusal::NotAllowed);
        }
        let Task { place, from, to } = self.tasks[self.taken];
        self.hands[worker] = Some(Task { place, from, to });
        self.taken += 1;
        Ok(())
    }

    /// A worker finishes the task in its hand.
    fn finish(&mut self, worker: u32) -> Result<(), Refusal>
        ensures allowed { OnOk result (is_allowed self.old (Finish worker) ≡ true) }
        ensures ok { OnOk result (self.new ≡ after self.old (Finish worker)) }
        ensures err { OnErr result (self.new ≡ self.old) }
        ensures not_allowed { result ≡ Err Refusal.NotAllowed → is_allowed self.old (Finish worker) ≡ false }
        ensures no_memory { result ≡ Err Refusal.NoMemory → ⊥ }
    {
        let worker = worker as usize;
        if worker >= self.hands.len() {
            return Err(Refusal::NotAllowed);
        }
        let Some(task) = self.hands[worker] else {
            return Err(Refusal::NotAllowed);
        };
        self.tasks[self.finished] = task;
        self.finished += 1;
        self.hands[worker] = None;
        Ok(())
    }

    /// Lets the committed waves of the plan go, and the room that they took.
    pub(crate) fn forget_committed(&mut self)
        ensures { self.new ≡ self.old }
    {
        if self.committed > 0 {
            let committed = self.committed as usize;
            let left = self.waves.len() - committed;
            self.waves.rotate_left(committed);
            self.waves.truncate(left);
            self.waves.shrink_to(left);
            self.committed = 0;
        }
    }

    /// The jobs of the first wave are carried out in list order. The memory of its places is given back.
    #[tactic(auto, using(crate::proofs::StepFacts::next_tasks, crate::proofs::StepFacts::waves_left))]
    fn commit(&mut self, alloc: Global) -> Result<(), Refusal>
        ensures allowed { OnOk result (is_allowed self.old Commit ≡ true) }
        ensures ok { OnOk result (self.new ≡ after self.old Commit) }
        ensures err { OnErr result (self.new ≡ self.old) }
        ensures not_allowed { result ≡ Err Refusal.NotAllowed → is_allowed self.old Commit ≡ false }
        ensures no_memory { result ≡ Err Refusal.NoMemory → is_allowed self.old Commit ≡ true }
    {
        let committed = self.committed as usize;
        let free = all_free(self.hands.as_slice());
        if committed == self.waves.len() || self.taken < self.tasks.len() || !free {
            return Err(Refusal::NotAllowed);
        }
        let set_out = wave_tasks(
            alloc,
            self.fetched.as_slice(),
            &self.settings,
            self.waves.as_slice(),
            committed + 1,
        );
        let Ok(tasks) = set_out else {
            return Err(Refusal::NoMemory);
        };
        carry_out_wave(
            &mut self.image,
            &mut self.arena,
            &mut self.fetched,
            self.waves[committed].list.as_slice(),
            self.settings.staging,
        );
        self.waves[committed].forget();
        self.committed += 1;
        self.tasks = tasks;
        self.taken = 0;
        self.finished = 0;
        Ok(())
    }
}

/// The waves of a plan, and the tasks of the first.
#[derive(Drop)]
pub(crate) struct Outset {
    pub(crate) waves: Vec<Places>,
    pub(crate) tasks: Vec<Task>,
}

/// The waves of the fetched jobs that are not committed, and the tasks of the first. The open places below a place are
/// known; those from there on are put behind them. Where the allocator has no memory left, they are taken back, and the
/// room that they took.
pub(crate) fn set_out(
    alloc: Global,
    places: &mut Vec<usize>,
    fetched: &[Fetched],
    from: usize,
    settings: &Settings,
) -> Result<Outset, NoMemory>
    requires valid { IsValid settings.now }
    requires few { length (open_places fetched.now) ≤ 1024 }
    requires from { from ≤ length fetched.now }
    requires known { HoldOpen places.old.items fetched.now from }
    ensures waves { IfOk result (λ outset. outset.waves.items
        ≡ plan_of fetched.now settings.now.staging settings.now.chunk) }
    ensures inside { IfOk result (λ outset. All (All (λ i. i < length fetched.now)) outset.waves.items) }
    ensures tasks { IfOk result (λ outset. outset.tasks.items
        ≡ word.tasks_of (jobs_of fetched.now) settings.now.staging settings.now.chunk
        (slice_index_or outset.waves.items 0 [])) }
    ensures few_waves { IfOk result (λ outset. length outset.waves.items ≤ 1025) }
    ensures all_open { OnOk result (places.new.items ≡ open_places fetched.now) }
    ensures before { OnErr result (places.new.items
        ≡ filter (word.is_open fetched.now) (range_with_len 0 from)) }
{
    keep_open(places, fetched);
    let (count, room) = (places.len(), places.capacity());
    let outset = outset_from(alloc, places, fetched, from, settings);
    if outset.is_err() {
        places.truncate(count);
        places.shrink_to(room);
    }
    outset
}

/// The waves of the fetched jobs that are not committed, and the tasks of the first. The open places from a place on
/// are put behind those below it.
fn outset_from(
    alloc: Global,
    places: &mut Vec<usize>,
    fetched: &[Fetched],
    from: usize,
    settings: &Settings,
) -> Result<Outset, NoMemory>
    requires valid { IsValid settings.now }
    requires few { length (open_places fetched.now) ≤ 1024 }
    requires from { from ≤ length fetched.now }
    requires below { places.old.items ≡ filter (word.is_open fetched.now) (range_with_len 0 from) }
    ensures waves { IfOk result (λ outset. outset.waves.items
        ≡ plan_of fetched.now settings.now.staging settings.now.chunk) }
    ensures inside { IfOk result (λ outset. All (All (λ i. i < length fetched.now)) outset.waves.items) }
    ensures tasks { IfOk result (λ outset. outset.tasks.items
        ≡ word.tasks_of (jobs_of fetched.now) settings.now.staging settings.now.chunk
        (slice_index_or outset.waves.items 0 [])) }
    ensures few_waves { IfOk result (λ outset. length outset.waves.items ≤ 1025) }
    ensures all_open { OnOk result (places.new.items ≡ open_places fetched.now) }
    ensures front { take (length places.old.items) places.new.items ≡ places.old.items }
{
    push_open(places, fetched, from)?;
    let waves = plan(alloc, fetched, places.as_slice(), settings)?;
    let tasks = wave_tasks(alloc, fetched, settings, waves.as_slice(), 0)?;
    Ok(Outset { waves, tasks })
}

/// The tasks of a wave of the plan; none behind the last.
fn wave_tasks(
    alloc: Global,
    fetched: &[Fetched],
    settings: &Settings,
    waves: &[Places],
    index: usize,
) -> Result<Vec<Task>, AllocError>
    requires valid { IsValid settings.now }
    requires inside { All (All (λ i. i < length fetched.now)) waves.now }
    ensures { IfOk result (λ tasks. tasks.items
        ≡ word.tasks_of (jobs_of fetched.now) settings.now.staging settings.now.chunk
        (slice_index_or waves.now index [])) }
{
    match waves.get(index) {
        Some(wave) => tasks_of(alloc, fetched, settings, wave.list.as_slice()),
        None => Ok(Vec::new(alloc)),
    }
}

/// How many of some places are open.
fn count_open(places: &[usize], fetched: &[Fetched]) -> usize
    ensures { result ≡ length (filter (word.is_open fetched.now) places.now) }
{
    places
        .iter()
        .filter(|place| is_open(fetched, **place))
        .count()
}

/// 1 or 0.
pub(crate) fn one_if(holds: bool) -> usize
    ensures { result ≡ (if holds then 1 else 0) }
{
    if holds { 1 } else { 0 }
}

/// Whether each hand is empty.
fn all_free(hands: &[Option<Task>]) -> bool
    ensures { result ≡ list_all is_none hands.now }
{
    hands.iter().all(|hand| hand.is_none())
}
