//! Rows of submits and fetches under a limit on all memory, which tests/refusals.sh sets from the first request on that
//! comes behind those of the schedule's making: taken by one call, and by calls of one step each. What both print is
//! compared there, also with what a world says that took as many steps with ample memory.

use super::rows::{Counts, expect_counts, replayed, row_end, wanting};
use super::{idle, world};
use dml_core::{Step, World};
use dml_types::Job;
use std::alloc::Global;
use std::env::Env;
use std::process::Abort;
use std::test::Fail;

/// A world, and the steps that it is to take. All of them are allowed, but for the last of `bad_end`.
#[derive(Drop)]
struct Schedule {
    world: World,
    before: Counts,
    steps: Vec<Step>,
}

/// Puts a client's submits behind some steps.
fn push_submits(steps: &mut Vec<Step>, client: u32, count: u32) -> Option<()> {
    for _ in 0..count {
        steps.push(idle(client)).ok()?;
    }
    Some(())
}

/// Puts a client's fetches behind some steps.
fn push_fetches(steps: &mut Vec<Step>, client: u32, count: u32) -> Option<()> {
    for _ in 0..count {
        steps.push(Step::Fetch { client }).ok()?;
    }
    Some(())
}

/// A world in which the first and the second client sent so many no-ops, and these steps to take.
fn schedule_of(alloc: Global, first: u32, second: u32, steps: Vec<Step>) -> Option<Schedule> {
    let mut sends = Vec::new(alloc);
    push_submits(&mut sends, 0, first)?;
    push_submits(&mut sends, 1, second)?;
    schedule_behind(alloc, &sends, steps)
}

/// A world that took the first steps, and those that it is to take.
fn schedule_behind(alloc: Global, first: &[Step], steps: Vec<Step>) -> Option<Schedule> {
    let mut before = Counts {
        sent: [0; 3],
        fetched: [0; 3],
    };
    before.count_all(first);
    let world = world(alloc, 3)?.replay(alloc, first).ok()?;
    Some(Schedule {
        world,
        before,
        steps,
    })
}

/// One row of a thousand fetches.
fn fetches(alloc: Global) -> Option<Schedule> {
    let mut steps = Vec::new(alloc);
    push_fetches(&mut steps, 0, 1000)?;
    schedule_of(alloc, 16_000, 0, steps)
}

/// A row that ends before a submit, since the list that it makes longer is full and large. The list of another client
/// grows before it, and more fetches stand behind it.
fn full_list(alloc: Global) -> Option<Schedule> {
    let mut steps = Vec::new(alloc);
    push_fetches(&mut steps, 0, 100)?;
    push_submits(&mut steps, 2, 100)?;
    push_fetches(&mut steps, 0, 200)?;
    push_submits(&mut steps, 2, 10)?;
    push_submits(&mut steps, 1, 1)?;
    push_fetches(&mut steps, 0, 100)?;
    schedule_of(alloc, 1000, 16_384, steps)
}

/// Two rows. Submits of two clients stand between the fetches of the first, and those of the third behind it.
fn two_rows(alloc: Global) -> Option<Schedule> {
    let mut steps = Vec::new(alloc);
    for client in 0..3 {
        push_fetches(&mut steps, 0, 200)?;
        push_submits(&mut steps, client, 500)?;
    }
    push_fetches(&mut steps, 0, 200)?;
    schedule_of(alloc, 1000, 0, steps)
}

/// A row of as many steps as one may have, almost all of them submits between two fetches, whose list grows ten times.
fn long_row(alloc: Global) -> Option<Schedule> {
    let mut steps = Vec::new(alloc);
    push_fetches(&mut steps, 0, 200)?;
    push_submits(&mut steps, 1, 1847)?;
    push_fetches(&mut steps, 0, 1)?;
    schedule_of(alloc, 1000, 0, steps)
}

/// A row that ends before a fetch that is not allowed, since its client sent nothing. The submits before it are not
/// followed by a fetch that is, and the plan of those that are is made without what they take.
fn bad_end(alloc: Global) -> Option<Schedule> {
    let mut steps = Vec::new(alloc);
    push_fetches(&mut steps, 0, 200)?;
    push_submits(&mut steps, 1, 1800)?;
    push_fetches(&mut steps, 2, 1)?;
    schedule_of(alloc, 1000, 0, steps)
}

/// A row behind a plan of a thousand jobs, all of which are committed.
fn old_plan(alloc: Global) -> Option<Schedule> {
    let mut first = Vec::new(alloc);
    push_submits(&mut first, 0, 1003)?;
    push_fetches(&mut first, 0, 1000)?;
    first.push(Step::Commit).ok()?;
    let mut steps = Vec::new(alloc);
    push_fetches(&mut steps, 0, 1)?;
    push_submits(&mut steps, 1, 1025)?;
    push_fetches(&mut steps, 0, 1)?;
    schedule_behind(alloc, &first, steps)
}

/// A row behind a plan of six hundred jobs, each with a wave of its own, of which ninety are committed.
fn part_plan(alloc: Global) -> Option<Schedule> {
    let mut first = Vec::new(alloc);
    let job = Job::fill(1, 0, 8);
    for _ in 0..603 {
        first.push(Step::Submit { client: 0, job }).ok()?;
    }
    push_fetches(&mut first, 0, 600)?;
    for _ in 0..90 {
        first.push(Step::Take { worker: 0 }).ok()?;
        first.push(Step::Finish { worker: 0 }).ok()?;
        first.push(Step::Commit).ok()?;
    }
    let mut steps = Vec::new(alloc);
    push_fetches(&mut steps, 0, 1)?;
    push_submits(&mut steps, 1, 1025)?;
    push_fetches(&mut steps, 0, 1)?;
    schedule_behind(alloc, &first, steps)
}

/// A fetch by itself from the world at which the steps ended: whether it was taken, and whether memory was wanting.
fn say_fetch(rt: &impl std::io::Print, alloc: Global, world: World) -> Option<()> {
    let (_, taken, is_short) = replayed(alloc, world, &[Step::Fetch { client: 0 }]);
    println!(rt; "then fetched {taken} short {}", u8::from(is_short)).ok()
}

/// The steps by one call, then, where memory was wanting, the one that it names alone, and a fetch by itself. The lists
/// are as long as they were before it.
fn expect_whole(
    rt: &(impl Abort + std::io::Print),
    alloc: Global,
    schedule: Schedule,
) -> Option<()> {
    let Schedule {
        world,
        before,
        steps,
    } = schedule;
    let (mut world, end, is_short) = replayed(alloc, world, &steps);
    println!(rt; "ended at {end}").ok()?;
    expect_counts(rt, &world, before, steps.get(..end)?);
    if is_short {
        let next = end.saturating_add(1);
        let (kept, more, _) = replayed(alloc, world, steps.get(end..next)?);
        println!(rt; "then took {more}").ok()?;
        expect_counts(rt, &kept, before, steps.get(..end.saturating_add(more))?);
        world = kept;
    }
    say_fetch(rt, alloc, world)
}

/// So many of the first steps by one call, and those behind them by calls of one step each, up to the first for which
/// memory is wanting, and then a fetch by itself.
fn expect_alone(
    rt: &(impl Abort + std::io::Print),
    alloc: Global,
    schedule: Schedule,
    count: usize,
) -> Option<()> {
    let Schedule {
        world,
        before,
        steps,
    } = schedule;
    let (mut world, mut end, _) = replayed(alloc, world, steps.get(..count)?);
    assert_eq!(rt; end, count);
    for i in count..steps.len() {
        let (next, more, _) = replayed(alloc, world, steps.get(i..i.saturating_add(1))?);
        world = next;
        if more == 0 {
            break;
        }
        end = i.saturating_add(1);
    }
    println!(rt; "ended at {end}").ok()?;
    expect_counts(rt, &world, before, steps.get(..end)?);
    say_fetch(rt, alloc, world)
}

/// So many of the first steps by one call, and then, where it is asked for, a fetch by itself.
fn expect_afresh(
    rt: &(impl Abort + std::io::Print),
    alloc: Global,
    schedule: Schedule,
    count: usize,
    is_fetched: bool,
) -> Option<()> {
    let Schedule {
        world,
        before,
        steps,
    } = schedule;
    let first = steps.get(..count)?;
    let (world, taken, _) = replayed(alloc, world, first);
    assert_eq!(rt; taken, count);
    expect_counts(rt, &world, before, first);
    if is_fetched {
        say_fetch(rt, alloc, world)?;
    }
    Some(())
}

/// Where the row begins in which this step lies, or the step itself where it lies in none; and whether its list grows.
fn say_row(
    rt: &impl std::io::Print,
    alloc: Global,
    schedule: &Schedule,
    step: usize,
) -> Option<()> {
    let steps = &schedule.steps;
    let mut begin = step;
    let mut end = 0;
    for (i, one) in steps.iter().enumerate().take(step.saturating_add(1)) {
        if i >= end && matches!(*one, Step::Fetch { .. }) {
            end = row_end(steps, i);
            if step < end {
                begin = i;
            }
        }
    }
    let (_, wants) = wanting(alloc, schedule.before, steps)?;
    let grows = wants.iter().any(|want| want.step == step && !want.plans);
    println!(rt; "row from {begin} grows {}", u8::from(grows)).ok()
}

/// The schedule of this name.
fn named(alloc: Global, name: &str) -> Option<Schedule> {
    match name {
        "fetches" => fetches(alloc),
        "full_list" => full_list(alloc),
        "two_rows" => two_rows(alloc),
        "long_row" => long_row(alloc),
        "bad_end" => bad_end(alloc),
        "old_plan" => old_plan(alloc),
        "part_plan" => part_plan(alloc),
        _ => None,
    }
}

/// Takes the steps of a schedule `by_one_call`, or, behind the first so many of them, `alone`; or these first ones
/// `afresh`, or `only_afresh`, which is without the fetch behind them; or says of which `row` a step is. A schedule
/// that is `only_made` takes none.
fn take(
    rt: &(impl Abort + std::io::Print),
    alloc: Global,
    name: &str,
    way: &str,
    count: usize,
) -> Option<()> {
    let schedule = named(alloc, name)?;
    match way {
        "by_one_call" => expect_whole(rt, alloc, schedule),
        "alone" => expect_alone(rt, alloc, schedule, count),
        "afresh" => expect_afresh(rt, alloc, schedule, count, true),
        "only_afresh" => expect_afresh(rt, alloc, schedule, count, false),
        "row" => say_row(rt, alloc, &schedule, count),
        "only_made" => {
            expect_counts(rt, &schedule.world, schedule.before, &[]);
            Some(())
        }
        _ => None,
    }
}

/// The schedule and the way that LIMITED has in the environment, as `two_rows alone` or `two_rows afresh 200`; without
/// it each by one call.
#[test]
fn limited(rt: HostRuntime) -> Result<(), Fail> {
    let mut words = [0; 64];
    if let Ok(len) = rt.var("LIMITED", &mut words) {
        let text = std::str::from_utf8(&words[..len])?;
        let (name, words) = text.split_once(' ').ok_or("no way is named")?;
        let (way, count) = words.split_once(' ').unwrap_or((words, "0"));
        let count = count.parse::<usize>().map_err(|_| "no number of steps")?;
        take(&rt, rt.alloc(), name, way, count).ok_or("no memory or no such way")?;
        return Ok(());
    }
    for name in [
        "fetches",
        "full_list",
        "two_rows",
        "long_row",
        "bad_end",
        "old_plan",
        "part_plan",
    ] {
        take(&rt, rt.alloc(), name, "by_one_call", 0).ok_or("no memory")?;
    }
    Ok(())
}
