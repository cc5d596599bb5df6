//! Rows of submits and fetches that were made by lot, with each request for memory refused in turn.
ghost use Rattle.std.specs.Prelude.{◌<◌};

use super::{idle, world};
use dml_core::{Step, StepFault, World};
use std::alloc::Global;
use std::process::Abort;
use std::test::Fail;

/// How many clients there are.
const CLIENTS: u32 = 3;

/// The most steps that have one plan.
const MOST_STEPS: usize = 2048;

/// Numbers that look thrown, the same at each run.
#[derive(Drop)]
struct Dice {
    state: u64,
}

impl Dice {
    /// A number below this one.
    fn roll(&mut self, sides: u32) -> u32
        requires { 0 < sides }
        ensures { result < sides }
    {
        self.state = self
            .state
            .wrapping_mul(6_364_136_223_846_793_005)
            .wrapping_add(1_442_695_040_888_963_407);
        (self.state >> 33) as u32 % sides
    }
}

/// How many jobs each client sent, and how many of them were fetched.
#[derive(Clone, Copy)]
pub(super) struct Counts {
    pub(super) sent: [usize; 3],
    pub(super) fetched: [usize; 3],
}

impl Counts {
    /// How many jobs a client sent, and how many of them were fetched.
    fn of(&self, client: u32) -> (usize, usize) {
        let client = client as usize;
        match (self.sent.get(client), self.fetched.get(client)) {
            (Some(sent), Some(fetched)) => (*sent, *fetched),
            _ => (0, 0),
        }
    }

    /// How many jobs were fetched.
    fn all_fetched(&self) -> usize {
        let [first, second, third] = self.fetched;
        first.saturating_add(second).saturating_add(third)
    }

    /// How long the list is that a step makes longer; none where the step is not allowed.
    fn length(&self, step: &Step) -> Option<usize> {
        match *step {
            Step::Submit { client, .. } => Some(self.of(client).0),
            Step::Fetch { client } => {
                let (sent, fetched) = self.of(client);
                (fetched < sent).then_some(self.all_fetched())
            }
            Step::Take { .. } | Step::Finish { .. } | Step::Commit => None,
        }
    }

    /// Counts a step.
    fn count(&mut self, step: &Step) {
        match *step {
            Step::Submit { client, .. } => add_one(&mut self.sent, client),
            Step::Fetch { client } => add_one(&mut self.fetched, client),
            Step::Take { .. } | Step::Finish { .. } | Step::Commit => {}
        }
    }

    /// Counts some steps.
    pub(super) fn count_all(&mut self, steps: &[Step]) {
        for step in steps {
            self.count(step);
        }
    }
}

/// Counts one more of a client.
fn add_one(counts: &mut [usize; 3], client: u32) {
    if let Some(count) = counts.get_mut(client as usize) {
        *count = count.saturating_add(1);
    }
}

/// A step that wants memory: since its list is full, or for the plan of the row whose last fetch it is.
#[derive(Clone, Copy)]
pub(super) struct Want {
    pub(super) step: usize,
    pub(super) plans: bool,
}

/// A world, the steps that it is to take, and what is expected of them.
#[derive(Drop)]
struct Row {
    world: World,
    before: Counts,
    steps: Vec<Step>,
    /// How many steps are allowed.
    allowed: usize,
    wants: Vec<Want>,
}

/// Whether a list of this length takes more memory for one entry more: it has room for 4, and then for twice as many
/// each time.
fn is_full(length: usize) -> bool {
    length == 0 || length >= 4 && length.is_power_of_two()
}

/// Three to eight jobs of each client, of which none, one or two are fetched.
fn steps_before(alloc: Global, dice: &mut Dice) -> Option<Vec<Step>> {
    let mut steps = Vec::new(alloc);
    for client in 0..CLIENTS {
        for _ in 0..3 + dice.roll(6) {
            steps.push(idle(client)).ok()?;
        }
    }
    for _ in 0..dice.roll(3) {
        for client in 0..CLIENTS {
            steps.push(Step::Fetch { client }).ok()?;
        }
    }
    Some(steps)
}

/// A fetch, and behind it up to 30 submits and fetches; at times, more than 2,000 submits between them.
fn steps_of_row(alloc: Global, dice: &mut Dice) -> Option<Vec<Step>> {
    let mut steps = Vec::new(alloc);
    steps.push(Step::Fetch { client: 0 }).ok()?;
    let long = dice.roll(24);
    for k in 0..dice.roll(31) {
        let client = dice.roll(CLIENTS);
        if k == long {
            for _ in 0..2030 + dice.roll(20) {
                steps.push(idle(client)).ok()?;
            }
        }
        if dice.roll(2) == 0 {
            steps.push(idle(client)).ok()?;
        } else {
            steps.push(Step::Fetch { client }).ok()?;
        }
    }
    Some(steps)
}

/// The place behind the row that begins at a place: behind the last fetch of as many steps as a row may have.
pub(super) fn row_end(steps: &[Step], first: usize) -> usize {
    let mut end = first;
    for (i, step) in steps.iter().enumerate().skip(first).take(MOST_STEPS) {
        if matches!(*step, Step::Fetch { .. }) {
            end = i.saturating_add(1);
        }
    }
    end
}

/// How many steps are allowed behind those that were counted, and which of them want memory, in the order in which they
/// do: the submits behind a row's last fetch want theirs behind its plan, and those in front of a fetch that is not
/// allowed once more there, since they are taken back before.
pub(super) fn wanting(alloc: Global, before: Counts, steps: &[Step]) -> Option<(usize, Vec<Want>)> {
    let mut counts = before;
    let mut wants = Vec::new(alloc);
    let mut row = 0..0;
    let mut last_fetch = None;
    let mut behind = Vec::new(alloc);
    let mut allowed = 0;
    for (i, step) in steps.iter().enumerate() {
        let fetches = matches!(*step, Step::Fetch { .. });
        if !row.contains(&i) {
            push_plan(&mut wants, last_fetch)?;
            last_fetch = None;
            behind.clear();
            row = if fetches { i..row_end(steps, i) } else { 0..0 };
        }
        let Some(length) = counts.length(step) else {
            break;
        };
        if is_full(length) {
            push_growth(&mut wants, i)?;
            behind.push(i).ok()?;
        }
        if fetches {
            last_fetch = Some(i);
            behind.clear();
        }
        counts.count(step);
        allowed = i.saturating_add(1);
    }
    push_plan(&mut wants, last_fetch)?;
    if row.contains(&allowed) {
        for &step in behind.iter() {
            push_growth(&mut wants, step)?;
        }
    }
    Some((allowed, wants))
}

/// A step whose list takes more memory.
fn push_growth(wants: &mut Vec<Want>, step: usize) -> Option<()> {
    wants.push(Want { step, plans: false }).ok()
}

/// The plan behind a row's last fetch, if there is one.
fn push_plan(wants: &mut Vec<Want>, last_fetch: Option<usize>) -> Option<()> {
    match last_fetch {
        Some(step) => wants.push(Want { step, plans: true }).ok(),
        None => Some(()),
    }
}

/// A row, and a world of its own.
fn made_row(alloc: Global, dice: &mut Dice) -> Option<Row> {
    let first = steps_before(alloc, dice)?;
    let mut before = Counts {
        sent: [0; 3],
        fetched: [0; 3],
    };
    before.count_all(&first);
    let world = world(alloc, CLIENTS)?.replay(alloc, &first).ok()?;
    let steps = steps_of_row(alloc, dice)?;
    let (allowed, wants) = wanting(alloc, before, &steps)?;
    Some(Row {
        world,
        before,
        steps,
        allowed,
        wants,
    })
}

/// Forty rows.
fn made_rows(alloc: Global) -> Option<Vec<Row>> {
    let mut dice = Dice { state: 1 };
    let mut rows = Vec::new(alloc);
    for _ in 0..40 {
        rows.push(made_row(alloc, &mut dice)?).ok()?;
    }
    Some(rows)
}

/// The world behind so many of the steps of a row.
pub(super) fn expect_counts(rt: &impl Abort, world: &World, before: Counts, steps: &[Step]) {
    let mut counts = before;
    counts.count_all(steps);
    for client in 0..CLIENTS {
        assert_eq!(rt; world.sent(client).len(), counts.of(client).0);
    }
    assert_eq!(rt; world.fetched().len(), counts.all_fetched());
}

/// Makes the rows, and says which of their steps want memory.
#[test]
fn set_up_of_made_rows(rt: HostRuntime) -> Result<(), Fail> {
    let rows = made_rows(rt.alloc()).ok_or("no memory")?;
    for (index, row) in rows.iter().enumerate() {
        for want in row.wants.iter() {
            let what = if want.plans { "plans" } else { "grows" };
            let step = want.step;
            println!(rt; "{what} at {index}:{step}").expect(&rt, "output");
        }
    }
    Ok(())
}

/// The world that a replay leaves, how many steps were taken, and whether memory was wanting for the next.
pub(super) fn replayed(alloc: Global, world: World, steps: &[Step]) -> (World, usize, bool) {
    match world.replay(alloc, steps) {
        Ok(world) => (world, steps.len(), false),
        Err((world, fault)) => match fault {
            StepFault::NotAllowed(at) => (world, at, false),
            StepFault::NoMemory(at) => (world, at, true),
        },
    }
}

/// Each row ends at the first step that is not allowed, or at one that wants memory, where that is refused. Then the
/// lists are as long as they were before this step, and the call that is made again from there on ends where the row
/// does.
#[test]
fn refused_made_rows(rt: HostRuntime) -> Result<(), Fail> {
    let rows = made_rows(rt.alloc()).ok_or("no memory")?;
    for (index, row) in rows.into_iter().enumerate() {
        let Row {
            world,
            before,
            steps,
            allowed,
            wants,
        } = row;
        let (world, end, is_short) = replayed(rt.alloc(), world, &steps);
        expect_counts(&rt, &world, before, steps.get(..end).ok_or("no step")?);
        if is_short {
            println!(rt; "ended at {index}:{end}").expect(&rt, "output");
            assert!(rt; wants.iter().any(|want| want.step == end));
            let rest = steps.get(end..).ok_or("no step")?;
            let (world, more, is_short) = replayed(rt.alloc(), world, rest);
            assert!(rt; !is_short);
            assert_eq!(rt; end.saturating_add(more), allowed);
            expect_counts(&rt, &world, before, steps.get(..allowed).ok_or("no step")?);
            return Ok(());
        }
        assert_eq!(rt; end, allowed);
    }
    Ok(())
}

/// The rows by calls of one step each, so that each fetch has a plan of its own: they end at the first step that is not
/// allowed, or at one for which memory is wanting. Then the lists are as long as they were before this step, and the
/// call that is made again takes it.
#[test]
fn refused_made_rows_by_steps(rt: HostRuntime) -> Result<(), Fail> {
    let rows = made_rows(rt.alloc()).ok_or("no memory")?;
    for (index, row) in rows.into_iter().enumerate() {
        let Row {
            world,
            before,
            steps,
            allowed,
            ..
        } = row;
        let mut world = world;
        for i in 0..allowed {
            let step = steps.get(i..i.saturating_add(1)).ok_or("no step")?;
            let (next, taken, is_short) = replayed(rt.alloc(), world, step);
            world = next;
            if is_short {
                println!(rt; "ended at {index}:{i}").expect(&rt, "output");
                expect_counts(&rt, &world, before, steps.get(..i).ok_or("no step")?);
                let (_, taken, _) = replayed(rt.alloc(), world, step);
                assert_eq!(rt; taken, 1);
                return Ok(());
            }
            assert_eq!(rt; taken, 1);
        }
        expect_counts(&rt, &world, before, steps.get(..allowed).ok_or("no step")?);
    }
    Ok(())
}
