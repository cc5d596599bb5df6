//! Submits and fetches in a row, with one plan behind the last of them.
ghost use Rattle.std.specs.Prelude.{◌≡◌, ◌⊎◌, ℕ, ◌||◌, ◌&&◌, ◌+◌, ◌-◌, ◌≤◌, ◌<◌, IfErr, IfOk, IfSome, OnSome, Some, drop, false, is_some, length, nat_lt, not, slice_get, slice_index_or, slice_set, take, true, []};
ghost use Rattle.dml_core.specs.Plan.{open_places};
ghost use Rattle.dml_core.specs.World.{Reaches, World};
ghost use Rattle.dml_core.specs.Replay.{StopsAt};
ghost use Rattle.dml_core.specs.Types.{Fetch};
ghost use Rattle.dml_core.specs.Gather.{AreGathered, AreParts, EndsWithLastFetch, FetchesAt, IsRefused, Lists, NoneFetches, fetch_follows, counts_of, gathered, grown, is_idle, jobs_sent, listed, may_fetch, may_join, more_fetched, more_sent, next_of, shorter, ungrown};
ghost use Rattle.dml_core.specs.Gather as word;

use crate::counts::{count_one, next_counted, uncount_one};
use crate::errors::StepFault;
use crate::lists::SentJobs;
use crate::rooms::Rooms;
use crate::stepping::{MAX_OPEN, Outset, Refusal, one_if, set_out};
use crate::values::{Fetched, Step};
use crate::worlds::World;
use dml_types::Job;
use std::alloc::Global;

/// The most steps of a row, those of as many submits and fetches as may be open: where its plan is refused, so many are
/// taken back, and taken again one at a time.
const MOST_STEPS: usize = 2 * MAX_OPEN;

/// How many steps were taken, and how many behind them are to be taken one at a time. Tried are those that were taken,
/// or those up to the last to be taken one at a time, where that was tried in vain: if it is allowed, there was no
/// memory for it. In a refused turn the step behind those taken is not allowed, and none is to be taken one at a time.
#[derive(Clone, Copy)]
struct Turn {
    taken: usize,
    alone: usize,
    tried: usize,
    is_refused: bool,
}

/// How many steps made the lists longer; the first of them fetches. Where they are not all, the step behind is neither
/// a submit nor a fetch, no fetch follows it, there was no memory for it, or it is not allowed. In front of the last
/// two alone submits stand behind the last fetch.
#[derive(Clone, Copy)]
struct Row {
    count: usize,
    wants_memory: bool,
    is_refused: bool,
}

impl World {
    /// Takes a fetch and what is to be taken with it: the fetches behind it and the submits in front of these, as far
    /// as they can be, with one plan, or one at a time. Answers the place behind them.
    ///
    /// # Errors
    /// The place of the first step that is not allowed, or for which the allocator has no memory left. The world is
    /// left as it was before that step.
    pub(crate) fn take_row(
        &mut self,
        alloc: Global,
        client: u32,
        steps: &[Step],
        place: usize,
    ) -> Result<usize, StepFault>
        requires within { place < length steps.now }
        requires fetch { slice_get steps.now place ≡ Some (Fetch client) }
        ensures within { IfOk result (λ end. end ≤ length steps.now) }
        ensures onward { IfOk result (λ end. place < end) }
        ensures ok { (first : World) → Reaches first (take place steps.now) self.old
            → IfOk result (λ end. Reaches first (take end steps.now) self.new) }
        ensures err { (first : World) → Reaches first (take place steps.now) self.old
            → IfErr result (λ fault. StopsAt first steps.now self.new fault) }
    {
        let turn = self.gather(alloc, client, &steps[place..]);
        let from = place + turn.taken;
        if turn.is_refused {
            return Err(StepFault::NotAllowed(from));
        }
        let end = from + turn.alone;
        for i in from..end {
            let is_tried = turn.taken < turn.tried && i + 1 == end;
            match self.take_alone(alloc, &steps[i], is_tried) {
                Ok(()) => {}
                Err(Refusal::NotAllowed) => return Err(StepFault::NotAllowed(i)),
                Err(Refusal::NoMemory) => return Err(StepFault::NoMemory(i)),
            }
        }
        Ok(end)
    }

    /// Takes the row at the front of some steps that begin with a fetch, as far as it can be taken: no step where the
    /// first is not allowed. What is committed of the plan goes first, so that the lists do not grow beside it.
    fn gather(&mut self, alloc: Global, client: u32, steps: &[Step]) -> Turn
        requires { slice_get steps.now 0 ≡ Some (Fetch client) }
        ensures within { result.taken + result.alone ≤ length steps.now }
        ensures onward { result.is_refused ≡ false → 0 < result.taken + result.alone }
        ensures reached { Reaches self.old (take result.taken steps.now) self.new }
        ensures refused { result.is_refused ≡ true → IsRefused self.new steps.now result.taken }
    {
        let Some(next) = self.next_fetch(client) else {
            return Turn::refused();
        };
        self.forget_committed();
        let most = steps.len().min(MOST_STEPS);
        self.gather_row(alloc, next.open_jobs, &steps[..most])
    }

    /// Takes submits and fetches, as far as they can be taken, up to the last fetch. So many of the fetched jobs are
    /// open. Only the plan behind the last fetch is made, since each fetch plans all open jobs anew; by then the lists
    /// hold no more than they do behind that fetch. Where the allocator has no memory left for it, the steps are taken
    /// back, and the room that the lists grew by.
    fn gather_row(&mut self, alloc: Global, open_jobs: usize, steps: &[Step]) -> Turn
        requires some { 0 < length steps.now }
        requires fetch { FetchesAt steps.now 0 }
        requires idle { is_idle self.old ≡ true }
        requires open_jobs { open_jobs ≡ length (open_places self.old.fetched) }
        ensures within { result.taken + result.alone ≤ length steps.now }
        ensures onward { result.is_refused ≡ false → 0 < result.taken + result.alone }
        ensures reached { Reaches self.old (take result.taken steps.now) self.new }
        ensures refused { result.is_refused ≡ true → IsRefused self.new steps.now result.taken }
        ensures last { 0 < result.taken → FetchesAt steps.now (result.taken - 1) }
        ensures tried { result.taken ≡ 0 → 0 < result.tried
            → EndsWithLastFetch (take result.tried steps.now) result.alone }
    {
        let from = self.fetched.len();
        let before = Rooms::of(&self.sent, &self.fetched);
        let mut rooms = before;
        let row = push_steps(
            &mut self.sent,
            &mut self.fetched,
            open_jobs,
            &mut rooms,
            steps,
        );
        if row.count == 0 {
            return Turn::first_alone(row.wants_memory);
        }
        let end = end_with_fetch(
            &mut self.sent,
            &mut self.fetched,
            &rooms,
            &steps[..row.count],
        );
        match set_out(alloc, &mut self.places, &self.fetched, from, &self.settings) {
            Ok(Outset { waves, tasks }) => {
                self.waves = waves;
                self.committed = 0;
                self.tasks = tasks;
                self.taken = 0;
                self.finished = 0;
                row.planned(end)
            }
            Err(_) => {
                take_back(&mut self.sent, &mut self.fetched, &steps[..end], 0);
                before.give_back(&mut self.sent, &mut self.fetched);
                Turn::without_plan(&steps[..end])
            }
        }
    }
}

impl Row {
    /// So many of the row's steps were taken, up to its last fetch. The submits behind it are to be taken one at a
    /// time, and the step for which there was no memory.
    fn planned(&self, end: usize) -> Turn
        requires within { end ≤ self.now.count }
        requires room { self.now.count < 18446744073709551615 }
        ensures taken { result.taken ≡ end }
        ensures alone { self.now.wants_memory ≡ false → end + result.alone ≡ self.now.count }
        ensures alone_more { self.now.wants_memory ≡ true → end + result.alone ≡ self.now.count + 1 }
        ensures tried { self.now.wants_memory ≡ true → result.tried ≡ self.now.count + 1 }
        ensures tried_taken { self.now.wants_memory ≡ false → result.tried ≡ end }
        ensures is_refused { result.is_refused ≡ true → self.now.is_refused ≡ true }
        ensures all { result.is_refused ≡ true → self.now.count ≡ end }
    {
        let is_whole = end == self.count;
        Turn {
            taken: end,
            alone: self.count - end + one_if(self.wants_memory),
            tried: if self.wants_memory {
                self.count + 1
            } else {
                end
            },
            is_refused: self.is_refused && is_whole,
        }
    }
}

impl Turn {
    /// No step was taken, and the first is not allowed.
    fn refused() -> Turn
        ensures taken { result.taken ≡ 0 }
        ensures alone { result.alone ≡ 0 }
        ensures is_refused { result.is_refused ≡ true }
    {
        Turn {
            taken: 0,
            alone: 0,
            tried: 0,
            is_refused: true,
        }
    }

    /// No step was taken. The first is to be taken by itself, and it may have been tried in vain.
    fn first_alone(is_tried: bool) -> Turn
        ensures taken { result.taken ≡ 0 }
        ensures alone { result.alone ≡ 1 }
        ensures tried { result.tried ≤ 1 }
        ensures is_refused { result.is_refused ≡ false }
    {
        Turn {
            taken: 0,
            alone: 1,
            tried: one_if(is_tried),
            is_refused: false,
        }
    }

    /// There was no memory for the plan of a row, whose steps are taken back: there is none for its last fetch, and
    /// those before it are to be taken one at a time.
    fn without_plan(row: &[Step]) -> Turn
        requires some { 0 < length row.now }
        requires fetch { FetchesAt row.now 0 }
        ensures taken { result.taken ≡ 0 }
        ensures alone { EndsWithLastFetch row.now result.alone }
        ensures tried { result.tried ≡ length row.now }
        ensures is_refused { result.is_refused ≡ false }
    {
        Turn {
            taken: 0,
            alone: fetch_end(row),
            tried: row.len(),
            is_refused: false,
        }
    }
}

/// Whether a step fetches.
fn is_fetch(step: &Step) -> bool
    ensures { result ≡ word.is_fetch step.now }
{
    match *step {
        Step::Fetch { .. } => true,
        Step::Submit { .. } | Step::Take { .. } | Step::Finish { .. } | Step::Commit => false,
    }
}

/// Whether a step is a submit or a fetch.
fn is_of_row(step: &Step) -> bool
    ensures { result ≡ word.is_of_row step.now }
{
    match *step {
        Step::Submit { .. } | Step::Fetch { .. } => true,
        Step::Take { .. } | Step::Finish { .. } | Step::Commit => false,
    }
}

/// How many steps stand at the front of some that begin with a fetch, up to the last fetch among them.
#[tactic(auto, using(crate::proofs::GatherLemmas::none_before, crate::proofs::GatherLemmas::fetches_here))]
fn fetch_end(steps: &[Step]) -> usize
    requires { 0 < length steps.now }
    ensures within { result ≤ length steps.now }
    ensures onward { 0 < result }
    ensures last { FetchesAt steps.now 0 → FetchesAt steps.now (result - 1) }
    ensures behind { NoneFetches steps.now result }
{
    let mut end = steps.len();
    while end > 1 && !is_fetch(&steps[end - 1]) {
        end -= 1;
    }
    end
}

/// Whether a step is a submit of one of so many clients.
fn is_sent(step: &Step, clients: usize) -> bool
    ensures { result ≡ word.is_sent clients step.now }
{
    match *step {
        Step::Submit { client, .. } => (client as usize) < clients,
        Step::Fetch { .. } | Step::Take { .. } | Step::Finish { .. } | Step::Commit => false,
    }
}

/// The place behind the next fetch from a place on, with nothing but submits of so many clients before it; that place
/// where there is no such fetch.
fn fetch_from(clients: usize, steps: &[Step], from: usize) -> usize
    requires { from < length steps.now }
    ensures within { result ≤ length steps.now }
    ensures onward { from ≤ result }
    ensures last { from < result → FetchesAt steps.now (result - 1) }
    ensures follows { (i : ℕ) → from ≤ i → i < result → fetch_follows clients (drop i steps.now) ≡ true }
    ensures none { result ≡ from → fetch_follows clients (drop from steps.now) ≡ false }
{
    for i in from..steps.len() {
        if is_fetch(&steps[i]) {
            return i + 1;
        }
        if !is_sent(&steps[i], clients) {
            return from;
        }
    }
    from
}

/// Makes the lists of an idle world longer by the steps, which begin with a fetch, up to the first that cannot be
/// taken, or that no fetch follows. So many of the fetched jobs are open; each fetch counts one more, and one more of
/// its client. Where submits follow a fetch, the room that the lists have is noted.
fn push_steps(
    sent: &mut Vec<SentJobs>,
    fetched: &mut Vec<Fetched>,
    open_jobs: usize,
    rooms: &mut Rooms,
    steps: &[Step],
) -> Row
    requires open_jobs { open_jobs ≡ length (open_places fetched.old.items) }
    requires parts { AreParts (counts_of sent.old.items) fetched.old.items }
    requires fetch { FetchesAt steps.now 0 }
    ensures within { result.count ≤ length steps.now }
    ensures stops { result.count ≡ length steps.now → (result.wants_memory || result.is_refused) ≡ false }
    ensures wants_memory { IfSome (slice_get steps.now result.count) (λ step. result.wants_memory
        ≡ (may_join (listed sent.new.items fetched.new.items) step
        && fetch_follows (length sent.old.items) (drop result.count steps.now))) }
    ensures refused { IfSome (slice_get steps.now result.count) (λ step. result.is_refused
        ≡ (word.is_of_row step && not (may_join (listed sent.new.items fetched.new.items) step))) }
    ensures last { 0 < result.count → (result.wants_memory || result.is_refused) ≡ false
        → FetchesAt steps.now (result.count - 1) }
    ensures gathered { AreGathered (listed sent.old.items fetched.old.items) (take result.count steps.now)
        (listed sent.new.items fetched.new.items) }
    ensures parts { AreParts (counts_of sent.new.items) fetched.new.items }
    ensures few { 0 < result.count → length (open_places fetched.new.items) ≤ 1024 }
    ensures fixed { result.count ≡ 0 → fetched.new.items ≡ fetched.old.items }
{
    let clients = sent.len();
    let mut open_jobs = open_jobs;
    let mut end = 0;
    for i in 0..steps.len() {
        if i == end {
            end = fetch_from(clients, steps, i);
            rooms.note(sent, fetched, end > i + 1);
        }
        if i == end || !push_step(sent, fetched, &mut open_jobs, &steps[i]) {
            let may = may_push(sent, fetched, open_jobs, &steps[i]);
            return Row {
                count: i,
                wants_memory: may && i < end,
                is_refused: is_denied(&steps[i], may),
            };
        }
    }
    Row {
        count: steps.len(),
        wants_memory: false,
        is_refused: false,
    }
}

/// Whether there is such a client, which may send a job.
fn is_known(sent: &[SentJobs], client: u32) -> bool
    ensures { result ≡ nat_lt client (length sent.now) }
{
    (client as usize) < sent.len()
}

/// A client's next job, where it may be fetched. So many of the fetched jobs are open.
fn next_to_join(
    sent: &[SentJobs],
    fetched: &[Fetched],
    open_jobs: usize,
    client: u32,
) -> Option<Job>
    requires open_jobs { open_jobs ≡ length (open_places fetched.now) }
    requires parts { AreParts (counts_of sent.now) fetched.now }
    ensures may { is_some result ≡ may_fetch (jobs_sent sent.now) fetched.now client }
    ensures next { IfSome result (λ job. next_of (jobs_sent sent.now) fetched.now client ≡ Some job) }
    ensures few { OnSome result (length (open_places fetched.now) < 1024) }
{
    if open_jobs >= MAX_OPEN {
        return None;
    }
    next_counted(sent, fetched, client)
}

/// Whether a step is a submit or a fetch, and not one that may be taken.
fn is_denied(step: &Step, may: bool) -> bool
    ensures { result ≡ (word.is_of_row step.now && not may) }
{
    is_of_row(step) && !may
}

/// Whether a step makes the lists of an idle world longer where there is memory for it.
fn may_push(sent: &[SentJobs], fetched: &[Fetched], open_jobs: usize, step: &Step) -> bool
    requires open_jobs { open_jobs ≡ length (open_places fetched.now) }
    requires parts { AreParts (counts_of sent.now) fetched.now }
    ensures { result ≡ may_join (listed sent.now fetched.now) step.now }
{
    match *step {
        Step::Submit { client, .. } => is_known(sent, client),
        Step::Fetch { client } => next_to_join(sent, fetched, open_jobs, client).is_some(),
        Step::Take { .. } | Step::Finish { .. } | Step::Commit => false,
    }
}

/// Makes the lists of an idle world longer by a step, and answers whether it could be taken. So many of the fetched
/// jobs are open, and so many each client's.
fn push_step(
    sent: &mut Vec<SentJobs>,
    fetched: &mut Vec<Fetched>,
    open_jobs: &mut usize,
    step: &Step,
) -> bool
    requires open_jobs { open_jobs.old ≡ length (open_places fetched.old.items) }
    requires parts { AreParts (counts_of sent.old.items) fetched.old.items }
    ensures open_jobs { open_jobs.new ≡ length (open_places fetched.new.items) }
    ensures parts { AreParts (counts_of sent.new.items) fetched.new.items }
    ensures taken { result ≡ true → may_join (listed sent.old.items fetched.old.items) step.now ≡ true }
    ensures more { result ≡ true → listed sent.new.items fetched.new.items
        ≡ grown (listed sent.old.items fetched.old.items) step.now }
    ensures same { result ≡ false → listed sent.new.items fetched.new.items
        ≡ listed sent.old.items fetched.old.items }
    ensures few { result ≡ true → word.is_fetch step.now ≡ true → length (open_places fetched.new.items) ≤ 1024 }
    ensures fixed { (word.is_fetch step.now ≡ true) ⊎ (fetched.new.items ≡ fetched.old.items) }
{
    match *step {
        Step::Submit { client, job } => push_sent(sent, client, job),
        Step::Fetch { client } => push_fetched(sent, fetched, open_jobs, client),
        Step::Take { .. } | Step::Finish { .. } | Step::Commit => false,
    }
}

/// Puts a job behind those that a client sent, and answers whether it could.
fn push_sent(sent: &mut Vec<SentJobs>, client: u32, job: Job) -> bool
    ensures counts { counts_of sent.new.items ≡ counts_of sent.old.items }
    ensures known { result ≡ true → nat_lt client (length (jobs_sent sent.old.items)) ≡ true }
    ensures more { result ≡ true → jobs_sent sent.new.items ≡ more_sent (jobs_sent sent.old.items) client job }
    ensures same { result ≡ false → jobs_sent sent.new.items ≡ jobs_sent sent.old.items }
{
    if !is_known(sent.as_slice(), client) {
        return false;
    }
    let client = client as usize;
    match sent[client].push(job) {
        Ok(()) => true,
        Err(_) => false,
    }
}

/// Puts a client's next job behind those that were fetched, of which so many are open, counts it of its client, and
/// answers whether it could.
#[tactic(auto, using(crate::proofs::StepFacts::few_open, crate::proofs::StepFacts::open_more))]
fn push_fetched(
    sent: &mut Vec<SentJobs>,
    fetched: &mut Vec<Fetched>,
    open_jobs: &mut usize,
    client: u32,
) -> bool
    requires open_jobs { open_jobs.old ≡ length (open_places fetched.old.items) }
    requires parts { AreParts (counts_of sent.old.items) fetched.old.items }
    ensures jobs { jobs_sent sent.new.items ≡ jobs_sent sent.old.items }
    ensures may { result ≡ true → may_fetch (jobs_sent sent.old.items) fetched.old.items client ≡ true }
    ensures more { result ≡ true
        → fetched.new.items ≡ more_fetched (jobs_sent sent.old.items) fetched.old.items client }
    ensures same { result ≡ false → fetched.new.items ≡ fetched.old.items }
    ensures few { result ≡ true → length (open_places fetched.new.items) ≤ 1024 }
    ensures open_jobs { open_jobs.new ≡ length (open_places fetched.new.items) }
    ensures parts { AreParts (counts_of sent.new.items) fetched.new.items }
{
    let next = next_to_join(sent.as_slice(), fetched.as_slice(), *open_jobs, client);
    let Some(job) = next else {
        return false;
    };
    let entry = Fetched {
        client,
        job,
        answer: None,
    };
    match fetched.push(entry) {
        Ok(()) => {
            *open_jobs += 1;
            count_one(sent, client);
            true
        }
        Err(_) => false,
    }
}

/// Takes back the submits behind the last fetch of the steps that made the lists longer, and the room that the lists
/// grew by since: they had so much behind that fetch. Answers the place behind it.
fn end_with_fetch(
    sent: &mut Vec<SentJobs>,
    fetched: &mut Vec<Fetched>,
    rooms: &Rooms,
    steps: &[Step],
) -> usize
    requires some { 0 < length steps.now }
    requires fetch { FetchesAt steps.now 0 }
    requires parts { AreParts (counts_of sent.old.items) fetched.old.items }
    ensures ends { EndsWithLastFetch steps.now result }
    ensures parts { AreParts (counts_of sent.new.items) fetched.new.items }
    ensures gathered { (first : Lists) → AreGathered first steps.now (listed sent.old.items fetched.old.items)
        → AreGathered first (take result steps.now) (listed sent.new.items fetched.new.items) }
    ensures fetched { fetched.new.items ≡ fetched.old.items }
    ensures whole { result ≡ length steps.now → sent.new.items ≡ sent.old.items }
{
    let end = fetch_end(steps);
    if end < steps.len() {
        take_back(sent, fetched, steps, end);
        rooms.give_back_sent(sent);
    }
    end
}

/// Takes back the steps that made the lists longer, from the last on, up to that at a place.
fn take_back(sent: &mut Vec<SentJobs>, fetched: &mut Vec<Fetched>, steps: &[Step], from: usize)
    requires from { from ≤ length steps.now }
    requires parts { AreParts (counts_of sent.old.items) fetched.old.items }
    ensures parts { AreParts (counts_of sent.new.items) fetched.new.items }
    ensures gathered { (first : Lists) → AreGathered first steps.now (listed sent.old.items fetched.old.items)
        → AreGathered first (take from steps.now) (listed sent.new.items fetched.new.items) }
    ensures fetched { NoneFetches steps.now from → fetched.new.items ≡ fetched.old.items }
{
    let mut left = steps.len();
    while left > from {
        left -= 1;
        take_back_step(sent, fetched, &steps[left]);
    }
}

/// Takes back the last step that made the lists longer.
fn take_back_step(sent: &mut Vec<SentJobs>, fetched: &mut Vec<Fetched>, step: &Step)
    requires parts { AreParts (counts_of sent.old.items) fetched.old.items }
    ensures lists { listed sent.new.items fetched.new.items
        ≡ ungrown (listed sent.old.items fetched.old.items) step.now }
    ensures parts { AreParts (counts_of sent.new.items) fetched.new.items }
{
    match *step {
        Step::Submit { client, .. } => take_back_sent(sent, client),
        Step::Fetch { .. } => take_back_fetched(sent, fetched),
        Step::Take { .. } | Step::Finish { .. } | Step::Commit => {}
    }
}

/// Takes back the last job that a client sent.
fn take_back_sent(sent: &mut Vec<SentJobs>, client: u32)
    ensures jobs { jobs_sent sent.new.items ≡ slice_set (jobs_sent sent.old.items) client
        (shorter (slice_index_or (jobs_sent sent.old.items) client [])) }
    ensures counts { counts_of sent.new.items ≡ counts_of sent.old.items }
{
    let client = client as usize;
    if client < sent.len() {
        sent[client].take_back();
    }
}

/// Takes back the last job that was fetched, which counts no more of its client.
fn take_back_fetched(sent: &mut Vec<SentJobs>, fetched: &mut Vec<Fetched>)
    requires parts { AreParts (counts_of sent.old.items) fetched.old.items }
    ensures jobs { jobs_sent sent.new.items ≡ jobs_sent sent.old.items }
    ensures less { fetched.new.items ≡ shorter fetched.old.items }
    ensures parts { AreParts (counts_of sent.new.items) fetched.new.items }
{
    if let Some(entry) = fetched.pop() {
        uncount_one(sent, entry.client);
    }
}
