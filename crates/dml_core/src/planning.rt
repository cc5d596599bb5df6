//! The waves of the jobs that are not committed.
ghost use Rattle.std.specs.Prelude.{◌≡◌, ◌≤◌, ◌<◌, ◌++◌, ◌∷◌, ◌||◌, [], All, IfOk, OnErr, OnOk, filter, if◌then◌else◌, is_some, length, map, slice_index, take, true};
ghost use Rattle.std.specs.List.{range_with_len};
ghost use Rattle.dml_types.specs.Job.{no_op_job};
ghost use Rattle.dml_types.specs.Limits.{IsValid};
ghost use Rattle.dml_types.specs.Refusal.{need, refusal};
ghost use Rattle.dml_order.specs.Order.{is_in};
ghost use Rattle.dml_levels.specs.Waves.{job_at};
ghost use Rattle.dml_levels.specs.Laws.{unless_refused};
ghost use Rattle.dml_core.specs.Plan.{jobs_of};
ghost use Rattle.dml_core.specs.Plan as word;

use crate::lists::Places;
use crate::stepping::one_if;
use crate::values::Fetched;
use dml_desc::{Checked, check};
use dml_levels::{LevelError, Wave, levels, waves};
use dml_types::{Job, Settings};
use std::alloc::{AllocError, Global};

/// The allocator has no memory left.
#[derive(Clone, Copy)]
pub(crate) struct NoMemory;

impl From<AllocError> for NoMemory {
    fn from(_refused: AllocError) -> NoMemory {
        NoMemory
    }
}

impl From<LevelError> for NoMemory {
    fn from(_refused: LevelError) -> NoMemory {
        NoMemory
    }
}

/// The waves of the fetched jobs that are not committed, which stand at these places.
#[tactic(auto, using(crate::proofs::PlanFacts::places_inside))]
pub(crate) fn plan(
    alloc: Global,
    fetched: &[Fetched],
    places: &[usize],
    settings: &Settings,
) -> Result<Vec<Places>, NoMemory>
    requires valid { IsValid settings.now }
    requires all_open { places.now ≡ word.open_places fetched.now }
    requires few { length (word.open_places fetched.now) ≤ 1024 }
    ensures waves { IfOk result (λ plan. plan.items
        ≡ word.plan_of fetched.now settings.now.staging settings.now.chunk) }
    ensures inside { IfOk result (λ plan. All (All (λ i. i < length fetched.now)) plan.items) }
    ensures few_waves { IfOk result (λ plan. length plan.items ≤ 1025) }
{
    let &Settings { staging, chunk, .. } = settings;
    let accepted = accepted_places(alloc, fetched, places, staging)?;
    let jobs = checked_jobs(alloc, fetched, accepted.as_slice(), staging)?;
    let levels = levels(alloc, jobs.as_slice())?;
    let waves = waves(alloc, jobs.as_slice(), levels.as_slice(), staging, chunk)?;
    let plan = to_places(alloc, accepted.as_slice(), waves.as_slice())?;
    Ok(with_refused(alloc, fetched, places, staging, plan)?)
}

/// Puts a place behind those of a list, if it is to stand there.
fn push_if(list: &mut Vec<usize>, place: usize, stands: bool) -> Result<(), AllocError>
    ensures ok { OnOk result (list.new.items ≡ list.old.items ++ (if stands then place ∷ [] else [])) }
    ensures err { OnErr result (list.new.items ≡ list.old.items) }
{
    if stands {
        list.push(place)?;
    }
    Ok(())
}

/// Whether the job at a place has no answer yet.
pub(crate) fn is_open(fetched: &[Fetched], place: usize) -> bool
    ensures { result ≡ word.is_open fetched.now place }
{
    match fetched.get(place) {
        Some(entry) => entry.answer.is_none(),
        None => true,
    }
}

/// Only those of the places stay whose jobs have no answer yet.
pub(crate) fn keep_open(places: &mut Vec<usize>, fetched: &[Fetched])
    ensures { places.new.items ≡ filter (word.is_open fetched.now) places.old.items }
{
    places.retain(|place| is_open(fetched, *place));
}

/// Puts the places from one on whose jobs have no answer yet behind those below it.
#[tactic(auto, using(crate::proofs::LoopLemmas::kept_more, crate::proofs::LoopLemmas::kept_front))]
pub(crate) fn push_open(
    places: &mut Vec<usize>,
    fetched: &[Fetched],
    from: usize,
) -> Result<(), AllocError>
    requires from { from ≤ length fetched.now }
    requires below { places.old.items ≡ filter (word.is_open fetched.now) (range_with_len 0 from) }
    ensures all_open { OnOk result (places.new.items ≡ word.open_places fetched.now) }
    ensures front { take (length places.old.items) places.new.items ≡ places.old.items }
{
    for i in from..fetched.len() {
        push_if(places, i, is_open(fetched, i))?;
    }
    Ok(())
}

/// Whether a job is refused.
fn is_refused(job: &Job, staging: u32) -> bool
    ensures { result ≡ is_some (refusal job.now staging) }
{
    check(job, staging).is_err()
}

/// Those of the places whose jobs are accepted.
#[tactic(auto, using(crate::proofs::FoldLemmas::job_entry, std::proofs::lemmas::List::Elements::filter_more))]
fn accepted_places(
    alloc: Global,
    fetched: &[Fetched],
    places: &[usize],
    staging: u32,
) -> Result<Vec<usize>, AllocError>
    requires inside { All (λ i. i < length fetched.now) places.now }
    ensures { IfOk result (λ accepted. accepted.items ≡ word.accepted_places (jobs_of fetched.now) staging places.now) }
{
    let mut accepted = Vec::new(alloc);
    for place in places {
        push_if(
            &mut accepted,
            *place,
            !is_refused(&fetched[*place].job, staging),
        )?;
    }
    Ok(accepted)
}

/// A job as far as it does anything.
fn checked(job: &Job, staging: u32) -> Checked
    ensures job { result ≡ unless_refused staging job.now }
    ensures need { need result ≤ staging }
{
    match check(job, staging) {
        Ok(checked) => checked,
        Err(_) => no_op(),
    }
}

/// The job at a place, as far as it does anything.
#[tactic(auto, using(crate::proofs::FoldLemmas::job_entry))]
pub(crate) fn checked_at(fetched: &[Fetched], place: usize, staging: u32) -> Checked
    requires { place < length fetched.now }
    ensures job { result ≡ unless_refused staging (job_at (jobs_of fetched.now) place) }
    ensures need { need result ≤ staging }
{
    checked(&fetched[place].job, staging)
}

/// A checked no-op.
fn no_op() -> Checked
    ensures { result ≡ no_op_job }
{
    match check(&Job::no_op(), 0) {
        Ok(checked) => checked,
        Err(_) => unreachable!(),
    }
}

/// The jobs at some places, as far as they do anything.
#[tactic(auto, using(std::proofs::lemmas::List::map_more))]
fn checked_jobs(
    alloc: Global,
    fetched: &[Fetched],
    places: &[usize],
    staging: u32,
) -> Result<Vec<Checked>, AllocError>
    requires inside { All (λ i. i < length fetched.now) places.now }
    ensures jobs { IfOk result (λ jobs. jobs.items
        ≡ map (λ i. unless_refused staging (job_at (jobs_of fetched.now) i)) places.now) }
    ensures needs { IfOk result (λ jobs. All (λ job. need job ≤ staging) jobs.items) }
{
    let mut jobs = Vec::new(alloc);
    for place in places {
        jobs.push(checked_at(fetched, *place, staging))?;
    }
    Ok(jobs)
}

/// Waves of indices, as waves of the places that they stand for.
fn to_places(alloc: Global, places: &[usize], waves: &[Wave]) -> Result<Vec<Places>, AllocError>
    requires inside { All (All (λ k. k < length places.now)) waves.now }
    ensures { IfOk result (λ plan. plan.items ≡ map (map (slice_index places.now)) waves.now) }
{
    let mut plan = Vec::new(alloc);
    for wave in waves {
        plan.push(wave_places(alloc, places, &wave.list)?)?;
    }
    Ok(plan)
}

/// A wave of indices, as the places that they stand for.
fn wave_places(alloc: Global, places: &[usize], wave: &[u32]) -> Result<Places, AllocError>
    requires inside { All (λ k. k < length places.now) wave.now }
    ensures { IfOk result (λ list. list ≡ map (slice_index places.now) wave.now) }
{
    let mut list = Vec::new(alloc);
    for k in wave {
        list.push(places[*k as usize])?;
    }
    Ok(Places { list })
}

/// The plan, with the places of refused jobs in its first wave.
fn with_refused(
    alloc: Global,
    fetched: &[Fetched],
    places: &[usize],
    staging: u32,
    plan: Vec<Places>,
) -> Result<Vec<Places>, AllocError>
    requires inside { All (λ i. i < length fetched.now) places.now }
    ensures { IfOk result (λ list. list.items ≡ word.with_refused (jobs_of fetched.now) staging places.now plan.items) }
{
    let mut plan = plan;
    let chosen = match plan.first() {
        Some(wave) => wave.list.as_slice(),
        None => &[],
    };
    let first = first_wave(alloc, fetched, places, staging, chosen)?;
    if !plan.is_empty() {
        plan[0] = first;
    } else if !first.list.is_empty() {
        plan.push(first)?;
    }
    Ok(plan)
}

/// Those of the places that are chosen, or whose jobs are refused.
#[tactic(auto, using(crate::proofs::FoldLemmas::job_entry, std::proofs::lemmas::List::Elements::filter_more))]
fn first_wave(
    alloc: Global,
    fetched: &[Fetched],
    places: &[usize],
    staging: u32,
    chosen: &[usize],
) -> Result<Places, AllocError>
    requires inside { All (λ i. i < length fetched.now) places.now }
    ensures { IfOk result (λ wave. wave ≡ word.first_wave (jobs_of fetched.now) staging places.now chosen.now) }
{
    let mut list = Vec::new(alloc);
    let mut seen = 0;
    for place in places {
        let is_known = is_next(*place, chosen, seen);
        seen += one_if(is_known);
        let job = &fetched[*place].job;
        push_if(
            &mut list,
            *place,
            stands(job, staging, *place, chosen, is_known),
        )?;
    }
    Ok(Places { list })
}

/// Whether a job at a place stands in the first wave, since it is refused or chosen; it may be known to be chosen. A
/// refused job is looked for among the chosen ones no further.
#[tactic(auto, using(crate::proofs::FoldLemmas::or_turned))]
fn stands(job: &Job, staging: u32, place: usize, chosen: &[usize], is_known: bool) -> bool
    requires { is_known ≡ true → is_in place chosen.now ≡ true }
    ensures { result ≡ (is_some (refusal job.now staging) || is_in place chosen.now) }
{
    is_known || is_refused(job, staging) || is_member(place, chosen)
}

/// Whether a place is the next chosen one, behind so many that were seen. They mostly stand in order, so it is looked
/// at before all others.
#[tactic(auto, using(crate::proofs::FoldLemmas::member_here))]
fn is_next(place: usize, chosen: &[usize], seen: usize) -> bool
    ensures { result ≡ true → is_in place chosen.now ≡ true }
{
    seen < chosen.len() && chosen[seen] == place
}

/// Whether a place is among some others.
fn is_member(place: usize, places: &[usize]) -> bool
    ensures { result ≡ is_in place places.now }
{
    places.iter().any(|other| place == *other)
}
