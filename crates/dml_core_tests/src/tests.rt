//! Worlds and what their steps leave. The expected records and bytes are those of the jobs' definitions.

mod limits;
mod rows;

use dml_core::{Fetched, Step, StepFault, World, WorldError};
use dml_image::Image;
use dml_types::{Job, Record, Settings, Status};
use std::alloc::Global;
use std::process::Abort;
use std::test::Fail;

const SETTINGS: Settings = Settings {
    staging: 1_048_576,
    chunk: 4096,
    workers: 2,
};

/// The record of a fill of 8 bytes that was done.
const FILLED: Record = Record {
    status: Status::Success,
    result: 0,
    completed: 8,
    fault: 0,
    delta_size: 0,
};

/// An image of one page of zeros; none where memory is wanting.
fn image(alloc: Global) -> Option<Image<'static>> {
    let mut image = Image::new(alloc, 1).ok()?;
    image.bring(0, &[0; 4096]).ok()?;
    Some(image)
}

/// A new world with so many clients over one page of zeros; none where memory is wanting.
fn world(alloc: Global, clients: u32) -> Option<World> {
    World::new(alloc, image(alloc)?, SETTINGS, clients).ok()
}

/// Two clients' fills of the same 8 bytes, fetched in the other order, and the first task taken.
fn two_fills() -> [Step; 5] {
    [
        Step::Submit {
            client: 0,
            job: Job::fill(1, 0, 8),
        },
        Step::Submit {
            client: 1,
            job: Job::fill(2, 0, 8),
        },
        Step::Fetch { client: 1 },
        Step::Fetch { client: 0 },
        Step::Take { worker: 0 },
    ]
}

/// What both fills go on by: each task is done, and its wave committed.
fn two_commits() -> [Step; 5] {
    [
        Step::Finish { worker: 0 },
        Step::Commit,
        Step::Take { worker: 0 },
        Step::Finish { worker: 0 },
        Step::Commit,
    ]
}

#[test]
fn one_job_world(rt: HostRuntime) -> Result<(), Fail> {
    let steps = [
        Step::Submit {
            client: 0,
            job: Job::fill(1, 0, 8),
        },
        Step::Fetch { client: 0 },
        Step::Take { worker: 1 },
        Step::Finish { worker: 1 },
        Step::Commit,
    ];
    let world = world(rt.alloc(), 1).ok_or("no memory")?;
    let Ok(world) = world.replay(rt.alloc(), &steps) else {
        return Err("a step was refused".into());
    };
    assert_eq!(rt; world.image().byte(0), Some(1));
    assert_eq!(rt; world.sent(0), [Job::fill(1, 0, 8)].as_slice());
    assert_eq!(rt; world.sent(1).len(), 0);
    let want = Fetched {
        client: 0,
        job: Job::fill(1, 0, 8),
        answer: Some(FILLED),
    };
    assert_eq!(rt; world.fetched(), [want].as_slice());
    Ok(())
}

#[test]
fn nothing_to_fetch(rt: HostRuntime) -> Result<(), Fail> {
    let world = world(rt.alloc(), 1).ok_or("no memory")?;
    match world.replay(rt.alloc(), &[Step::Fetch { client: 0 }]) {
        Ok(_) => Err("the step was taken".into()),
        Err((world, fault)) => {
            assert_eq!(rt; fault, StepFault::NotAllowed(0));
            assert_eq!(rt; world.fetched().len(), 0);
            Ok(())
        }
    }
}

/// Two clients' fills, and other steps behind them.
fn two_fills_then(alloc: Global, steps: &[Step]) -> Option<Vec<Step>> {
    let mut all = Vec::from_array(alloc, two_fills()).ok()?;
    all.extend_from_slice(steps).ok()?;
    Some(all)
}

#[test]
fn commit_with_task_in_hand(rt: HostRuntime) -> Result<(), Fail> {
    let world = world(rt.alloc(), 2).ok_or("no memory")?;
    let steps = two_fills_then(rt.alloc(), &[Step::Commit]).ok_or("no memory")?;
    match world.replay(rt.alloc(), steps.as_slice()) {
        Ok(_) => Err("the wave was committed".into()),
        Err((world, fault)) => {
            assert_eq!(rt; fault, StepFault::NotAllowed(5));
            expect_before(&rt, &world, 5);
            let Ok(world) = world.replay(rt.alloc(), &two_commits()) else {
                return Err("a step was refused".into());
            };
            expect_before(&rt, &world, 10);
            Ok(())
        }
    }
}

#[test]
fn two_clients_fetched_in_turn(rt: HostRuntime) -> Result<(), Fail> {
    let world = world(rt.alloc(), 2).ok_or("no memory")?;
    let steps = two_fills_then(rt.alloc(), &two_commits()).ok_or("no memory")?;
    let Ok(world) = world.replay(rt.alloc(), steps.as_slice()) else {
        return Err("a step was refused".into());
    };
    assert_eq!(rt; world.image().byte(0), Some(1));
    let want = [
        Fetched {
            client: 1,
            job: Job::fill(2, 0, 8),
            answer: Some(FILLED),
        },
        Fetched {
            client: 0,
            job: Job::fill(1, 0, 8),
            answer: Some(FILLED),
        },
    ];
    assert_eq!(rt; world.fetched(), want.as_slice());
    Ok(())
}

/// Three clients' fills of the same 8 bytes, sent before any is fetched, are fetched in turn, twice each.
#[test]
fn three_clients_fetched_in_turn(rt: HostRuntime) -> Result<(), Fail> {
    let mut steps = Vec::new(rt.alloc());
    for (client, pattern) in [(0, 0), (1, 1), (2, 2), (0, 3), (1, 4), (2, 5)] {
        let job = Job::fill(pattern, 0, 8);
        steps
            .push(Step::Submit { client, job })
            .expect(&rt, "memory");
    }
    for client in [2, 0, 1, 2, 0, 1] {
        steps.push(Step::Fetch { client }).expect(&rt, "memory");
    }
    for _ in 0..6 {
        for step in [
            Step::Take { worker: 1 },
            Step::Finish { worker: 1 },
            Step::Commit,
        ] {
            steps.push(step).expect(&rt, "memory");
        }
    }
    let world = world(rt.alloc(), 3).ok_or("no memory")?;
    let Ok(world) = world.replay(rt.alloc(), steps.as_slice()) else {
        return Err("a step was refused".into());
    };
    assert_eq!(rt; world.image().byte(0), Some(4));
    let wanted = [(2, 2), (0, 0), (1, 1), (2, 5), (0, 3), (1, 4)];
    assert_eq!(rt; world.fetched().len(), wanted.len());
    for (entry, (client, pattern)) in world.fetched().iter().zip(wanted) {
        let want = Fetched {
            client,
            job: Job::fill(pattern, 0, 8),
            answer: Some(FILLED),
        };
        assert_eq!(rt; *entry, want);
    }
    Ok(())
}

#[test]
fn unknown_worker(rt: HostRuntime) -> Result<(), Fail> {
    let world = world(rt.alloc(), 2).ok_or("no memory")?;
    let [first, second, third, fourth, _] = two_fills();
    let steps = [first, second, third, fourth, Step::Take { worker: 2 }];
    match world.replay(rt.alloc(), &steps) {
        Ok(_) => Err("the step was taken".into()),
        Err((world, fault)) => {
            assert_eq!(rt; fault, StepFault::NotAllowed(4));
            expect_before(&rt, &world, 4);
            Ok(())
        }
    }
}

/// A client sends a fill of 8 bytes.
fn sent(client: u32, address: u64) -> Step {
    Step::Submit {
        client,
        job: Job::fill(1, address, 8),
    }
}

/// Checks that the last of the steps is not allowed, and that all before it are.
fn expect_last_refused(rt: &impl Abort, alloc: Global, steps: &[Step]) -> Option<()> {
    match world(alloc, 2)?.replay(alloc, steps) {
        Ok(_) => None,
        Err((world, fault)) => {
            let last = steps.len().saturating_sub(1);
            assert_eq!(rt; fault, StepFault::NotAllowed(last));
            assert_eq!(rt; world.sent(2).len(), 0);
            Some(())
        }
    }
}

/// Each cause for which a submit or a fetch is not allowed, but for 1,024 open jobs.
#[test]
fn submits_and_fetches_not_allowed(rt: HostRuntime) -> Result<(), Fail> {
    let (first, second) = (sent(0, 0), sent(1, 8));
    let (fetch, other) = (Step::Fetch { client: 0 }, Step::Fetch { client: 1 });
    let (take, finish) = (Step::Take { worker: 0 }, Step::Finish { worker: 0 });
    let (unknown_sent, unknown) = (sent(2, 0), Step::Fetch { client: 2 });
    let full_hand = [first, second, fetch, take, other];
    let finished = [first, second, fetch, take, finish, other];
    expect_last_refused(&rt, rt.alloc(), &[unknown_sent]).ok_or("unknown client's job")?;
    expect_last_refused(&rt, rt.alloc(), &[first, unknown]).ok_or("unknown client")?;
    expect_last_refused(&rt, rt.alloc(), &[first, fetch, fetch]).ok_or("nothing sent")?;
    expect_last_refused(&rt, rt.alloc(), &full_hand).ok_or("full hand")?;
    expect_last_refused(&rt, rt.alloc(), &finished).ok_or("finished task")?;
    Ok(())
}

/// Each cause for which a take, a finish or a commit is not allowed.
#[test]
fn work_not_allowed(rt: HostRuntime) -> Result<(), Fail> {
    let (first, second) = (sent(0, 0), sent(1, 8));
    let (fetch, other) = (Step::Fetch { client: 0 }, Step::Fetch { client: 1 });
    let (take, finish) = (Step::Take { worker: 0 }, Step::Finish { worker: 0 });
    let (second_take, unknown_take) = (Step::Take { worker: 1 }, Step::Take { worker: 2 });
    let unknown_finish = Step::Finish { worker: 2 };
    let commit = Step::Commit;
    let full_hand = [first, second, fetch, other, take, take];
    let all_committed = [first, fetch, take, finish, commit, commit];
    expect_last_refused(&rt, rt.alloc(), &full_hand).ok_or("full hand")?;
    expect_last_refused(&rt, rt.alloc(), &[take]).ok_or("nothing to do")?;
    expect_last_refused(&rt, rt.alloc(), &[first, fetch, take, second_take]).ok_or("all taken")?;
    expect_last_refused(&rt, rt.alloc(), &[first, fetch, unknown_take]).ok_or("unknown worker")?;
    expect_last_refused(&rt, rt.alloc(), &[first, fetch, finish]).ok_or("empty hand")?;
    expect_last_refused(&rt, rt.alloc(), &[first, fetch, take, unknown_finish]).ok_or("unknown")?;
    expect_last_refused(&rt, rt.alloc(), &[first, fetch, commit]).ok_or("tasks to do")?;
    expect_last_refused(&rt, rt.alloc(), &[first, fetch, take, commit]).ok_or("task in hand")?;
    expect_last_refused(&rt, rt.alloc(), &[commit]).ok_or("no wave")?;
    expect_last_refused(&rt, rt.alloc(), &all_committed).ok_or("no wave left")?;
    Ok(())
}

/// 1,024 fetched jobs may be open, and no more until a wave is committed. They are refused, so they are one wave.
#[test]
fn fetch_with_1024_open(rt: HostRuntime) -> Result<(), Fail> {
    let mut steps = Vec::new(rt.alloc());
    let job = Job::fill(1, 0, 8).with_flags(0x01);
    for _ in 0..1025 {
        steps
            .push(Step::Submit { client: 0, job })
            .expect(&rt, "memory");
    }
    for _ in 0..1025 {
        steps.push(Step::Fetch { client: 0 }).expect(&rt, "memory");
    }
    let world = world(rt.alloc(), 1).ok_or("no memory")?;
    let Err((world, fault)) = world.replay(rt.alloc(), steps.as_slice()) else {
        return Err("the step was taken".into());
    };
    assert_eq!(rt; fault, StepFault::NotAllowed(2049));
    assert_eq!(rt; world.fetched().len(), 1024);
    let more = [Step::Commit, Step::Fetch { client: 0 }];
    let Ok(world) = world.replay(rt.alloc(), &more) else {
        return Err("a step was refused".into());
    };
    assert_eq!(rt; world.fetched().len(), 1025);
    Ok(())
}

/// A record of this status whose other fields are 0.
fn bare(status: Status) -> Record {
    Record {
        status,
        result: 0,
        completed: 0,
        fault: 0,
        delta_size: 0,
    }
}

/// Checks that the steps are allowed, and which of the fetched jobs are then answered, and how.
fn expect_answers(
    rt: &impl Abort,
    alloc: Global,
    steps: &[Step],
    want: &[Option<Record>],
) -> Option<()> {
    let Ok(world) = world(alloc, 2)?.replay(alloc, steps) else {
        return None;
    };
    assert_eq!(rt; world.fetched().len(), want.len());
    for (entry, answer) in world.fetched().iter().zip(want) {
        assert_eq!(rt; entry.answer, *answer);
    }
    Some(())
}

/// Refused jobs, and waves without tasks. Fence and transfer size break rules; a wave without tasks is committed at
/// once; a refused job stands in the first wave.
#[test]
fn waves_of_idle_jobs(rt: HostRuntime) -> Result<(), Fail> {
    let fenced = Step::Submit {
        client: 1,
        job: Job::fill(1, 0, 8).with_flags(0x01),
    };
    let long = Step::Submit {
        client: 1,
        job: Job::fill(1, 0, 1_048_577),
    };
    let idle = Step::Submit {
        client: 0,
        job: Job::no_op(),
    };
    let (fetch, other) = (Step::Fetch { client: 0 }, Step::Fetch { client: 1 });
    let (take, finish) = (Step::Take { worker: 0 }, Step::Finish { worker: 0 });
    let commit = Step::Commit;
    let flags = Some(bare(Status::BadFlags));
    let size = Some(bare(Status::BadSize));
    let all = [fenced, long, other, other, commit];
    expect_answers(&rt, rt.alloc(), &all, &[flags, size]).ok_or("all refused")?;
    expect_last_refused(&rt, rt.alloc(), &[fenced, other, commit, commit]).ok_or("one wave")?;
    let fill = sent(0, 0);
    let beside = [
        fill, fill, fenced, fetch, fetch, other, take, finish, commit,
    ];
    expect_answers(&rt, rt.alloc(), &beside, &[Some(FILLED), None, flags]).ok_or("one refused")?;
    let nothing = Some(bare(Status::Success));
    expect_answers(&rt, rt.alloc(), &[idle, fetch, commit], &[nothing]).ok_or("a no-op")?;
    Ok(())
}

/// Checks that no world is made, and that the image comes back.
fn expect_refused(
    rt: &impl Abort,
    alloc: Global,
    settings: Settings,
    clients: u32,
    want: WorldError,
) -> Option<()> {
    match World::new(alloc, image(alloc)?, settings, clients) {
        Ok(_) => None,
        Err((image, error)) => {
            assert_eq!(rt; error, want);
            assert_eq!(rt; image.byte(4095), Some(0));
            Some(())
        }
    }
}

#[test]
fn world_arguments_refused(rt: HostRuntime) -> Result<(), Fail> {
    let odd = Settings {
        chunk: 12,
        ..SETTINGS
    };
    expect_refused(&rt, rt.alloc(), SETTINGS, 9, WorldError::BadClients).ok_or("made")?;
    expect_refused(&rt, rt.alloc(), SETTINGS, 0, WorldError::BadClients).ok_or("made")?;
    expect_refused(&rt, rt.alloc(), odd, 1, WorldError::BadSettings).ok_or("made")?;
    expect_refused(&rt, rt.alloc(), odd, 9, WorldError::BadSettings).ok_or("made")?;
    Ok(())
}

// The refused_* below hold whichever growth is refused: they are also run with each refused in turn, from the first one
// behind those that their set-up takes.

/// What `refused_new` does before its call.
#[test]
fn set_up_of_new(rt: HostRuntime) -> Result<(), Fail> {
    let image = image(rt.alloc()).ok_or("no memory")?;
    assert_eq!(rt; image.byte(0), Some(0));
    Ok(())
}

/// The world, or the image as it was.
#[test]
fn refused_new(rt: HostRuntime) -> Result<(), Fail> {
    let image = image(rt.alloc()).ok_or("no memory")?;
    match World::new(rt.alloc(), image, SETTINGS, 2) {
        Ok(world) => assert_eq!(rt; world.image().byte(0), Some(0)),
        Err((image, error)) => {
            assert_eq!(rt; error, WorldError::NoMemory);
            assert_eq!(rt; image.byte(0), Some(0));
        }
    }
    Ok(())
}

/// What `refused_replay` does before its call.
#[test]
fn set_up_of_replay(rt: HostRuntime) -> Result<(), Fail> {
    let world = world(rt.alloc(), 2).ok_or("no memory")?;
    assert_eq!(rt; world.fetched().len(), 0);
    Ok(())
}

/// The world before a step of `two_fills`, or of `two_commits` behind them.
fn expect_before(rt: &impl Abort, world: &World, step: usize) {
    assert_eq!(rt; world.sent(0).len(), step.min(1));
    assert_eq!(rt; world.sent(1).len(), step.saturating_sub(1).min(1));
    assert_eq!(rt; world.fetched().len(), step.saturating_sub(2).min(2));
    let (byte, answered) = match step {
        0..=6 => (0, 0),
        7..=9 => (2, 1),
        _ => (1, 2),
    };
    assert_eq!(rt; world.image().byte(0), Some(byte));
    let answers = world
        .fetched()
        .iter()
        .filter(|job| job.answer == Some(FILLED));
    assert_eq!(rt; answers.count(), answered);
}

/// The world behind the steps, or the one before the step that found no memory, and how many steps were done.
fn replayed(alloc: Global, world: World, steps: &[Step]) -> Option<(World, usize)> {
    match world.replay(alloc, steps) {
        Ok(world) => Some((world, steps.len())),
        Err((world, fault)) => match fault {
            StepFault::NoMemory(at) => Some((world, at)),
            StepFault::NotAllowed(_) => None,
        },
    }
}

#[test]
fn refused_replay(rt: HostRuntime) -> Result<(), Fail> {
    let world = world(rt.alloc(), 2).ok_or("no memory")?;
    let (world, done) = replayed(rt.alloc(), world, &two_fills()).ok_or("not allowed")?;
    if done < 5 {
        expect_before(&rt, &world, done);
        return Ok(());
    }
    let (world, done) = replayed(rt.alloc(), world, &two_commits()).ok_or("not allowed")?;
    expect_before(&rt, &world, done.saturating_add(5));
    Ok(())
}

/// A client sends a no-op.
fn idle(client: u32) -> Step {
    Step::Submit {
        client,
        job: Job::no_op(),
    }
}

/// A world in which the first of three clients sent four no-ops, and the steps of `refused_row`: a row of submits and
/// fetches, a submit behind it, and a commit of the six fetched jobs.
fn row(alloc: Global) -> Option<(World, Vec<Step>)> {
    let fetch = Step::Fetch { client: 0 };
    let row = [
        fetch,
        idle(2),
        Step::Fetch { client: 2 },
        fetch,
        fetch,
        fetch,
        idle(1),
        Step::Fetch { client: 1 },
        idle(2),
        Step::Commit,
    ];
    let steps = Vec::from_array(alloc, row).ok()?;
    let world = world(alloc, 3)?.replay(alloc, &[idle(0); 4]).ok()?;
    Some((world, steps))
}

/// Whether a step is a client's submit.
fn is_sent(step: &Step, own: u32) -> bool {
    matches!(*step, Step::Submit { client, .. } if client == own)
}

/// The world behind some of the steps of `row`.
fn expect_row(rt: &impl Abort, world: &World, steps: &[Step]) {
    for (client, before) in [(0, 4_usize), (1, 0), (2, 0)] {
        let more = steps.iter().filter(|step| is_sent(step, client)).count();
        assert_eq!(rt; world.sent(client).len(), before.saturating_add(more));
    }
    let fetches = steps
        .iter()
        .filter(|step| matches!(**step, Step::Fetch { .. }));
    assert_eq!(rt; world.fetched().len(), fetches.count());
    let is_committed = steps.iter().any(|step| *step == Step::Commit);
    let want = if is_committed {
        Some(bare(Status::Success))
    } else {
        None
    };
    for entry in world.fetched() {
        assert_eq!(rt; entry.answer, want);
    }
}

/// What `refused_row` does before its call.
#[test]
fn set_up_of_row(rt: HostRuntime) -> Result<(), Fail> {
    let (world, steps) = row(rt.alloc()).ok_or("no memory")?;
    expect_row(&rt, &world, &steps.as_slice()[..0]);
    Ok(())
}

/// Replays the steps of a row, and answers at which it ends for want of memory: the world is the one before that step
/// then, and the call that is made again from there on goes to the end.
fn end_of_row(rt: &impl Abort, alloc: Global, world: World, steps: &[Step]) -> Option<usize> {
    let (world, done) = replayed(alloc, world, steps)?;
    expect_row(rt, &world, steps.get(..done)?);
    let world = world.replay(alloc, steps.get(done..)?).ok()?;
    expect_row(rt, &world, steps);
    Some(done)
}

/// A row of submits and fetches has one plan, behind its last fetch, which is step 7. Where that is refused, the world
/// is the one before this fetch; a list that cannot grow at an earlier step, which are 0, 1, 5 and 6, leaves the one
/// before that step. The call that is made again from there on goes to the end. Each refusal ends the call, and that is
/// said.
#[test]
fn refused_row(rt: HostRuntime) -> Result<(), Fail> {
    let (world, steps) = row(rt.alloc()).ok_or("no memory")?;
    let end = end_of_row(&rt, rt.alloc(), world, steps.as_slice()).ok_or("refused")?;
    if end < steps.len() {
        println!(rt; "ended at {end}").expect(&rt, "output");
        assert!(rt; matches!(end, 0 | 1 | 5 | 6 | 7));
    }
    Ok(())
}

/// A world in which the first of three clients sent four no-ops, and steps of which the first and the last two before a
/// commit fetch them, with so many submits of another client between.
fn long_row(alloc: Global, submits: u32) -> Option<(World, Vec<Step>)> {
    let fetch = Step::Fetch { client: 0 };
    let mut steps = Vec::new(alloc);
    steps.push(fetch).ok()?;
    for _ in 0..submits {
        steps.push(idle(1)).ok()?;
    }
    steps.extend_from_slice(&[fetch, fetch, Step::Commit]).ok()?;
    let world = world(alloc, 3)?.replay(alloc, &[idle(0); 4]).ok()?;
    Some((world, steps))
}

/// What `refused_longest_row` does before its call.
#[test]
fn set_up_of_longest_row(rt: HostRuntime) -> Result<(), Fail> {
    let (world, steps) = long_row(rt.alloc(), 2045).ok_or("no memory")?;
    expect_row(&rt, &world, &steps.as_slice()[..0]);
    Ok(())
}

/// A row has at most 2,048 steps. This one has as many, so there is one plan, behind its last fetch, which is step
/// 2,047, and none behind the fetch before that.
#[test]
fn refused_longest_row(rt: HostRuntime) -> Result<(), Fail> {
    let (world, steps) = long_row(rt.alloc(), 2045).ok_or("no memory")?;
    let end = end_of_row(&rt, rt.alloc(), world, steps.as_slice()).ok_or("refused")?;
    if end < steps.len() {
        println!(rt; "ended at {end}").expect(&rt, "output");
        assert!(rt; end <= 1025 || end == 2047);
    }
    Ok(())
}

/// What `refused_longer_row` does before its call.
#[test]
fn set_up_of_longer_row(rt: HostRuntime) -> Result<(), Fail> {
    let (world, steps) = long_row(rt.alloc(), 2046).ok_or("no memory")?;
    expect_row(&rt, &world, &steps.as_slice()[..0]);
    Ok(())
}

/// One step more than a row may have: the last fetch, step 2,048, has a plan of its own behind that of the row, whose
/// last fetch is step 2,047.
#[test]
fn refused_longer_row(rt: HostRuntime) -> Result<(), Fail> {
    let (world, steps) = long_row(rt.alloc(), 2046).ok_or("no memory")?;
    let end = end_of_row(&rt, rt.alloc(), world, steps.as_slice()).ok_or("refused")?;
    if end < steps.len() {
        println!(rt; "ended at {end}").expect(&rt, "output");
        assert!(rt; end <= 1025 || end == 2047 || end == 2048);
    }
    Ok(())
}

/// A world in which the first of three clients sent four no-ops, and a row of which two are fetched, and a job of the
/// second client is sent, before a fetch from the third, which sent nothing.
fn cut_row(alloc: Global) -> Option<(World, [Step; 4])> {
    let fetch = Step::Fetch { client: 0 };
    let world = world(alloc, 3)?.replay(alloc, &[idle(0); 4]).ok()?;
    Some((world, [fetch, fetch, idle(1), Step::Fetch { client: 2 }]))
}

/// What `refused_cut_row` does before its call.
#[test]
fn set_up_of_cut_row(rt: HostRuntime) -> Result<(), Fail> {
    let (world, steps) = cut_row(rt.alloc()).ok_or("no memory")?;
    expect_row(&rt, &world, &steps[..0]);
    Ok(())
}

/// A row is taken up to a step that is not allowed. Its last fetch is step 1 then, which is named where the plan is
/// refused, and not the submit behind it.
#[test]
fn refused_cut_row(rt: HostRuntime) -> Result<(), Fail> {
    let (world, steps) = cut_row(rt.alloc()).ok_or("no memory")?;
    let Err((world, fault)) = world.replay(rt.alloc(), &steps) else {
        return Err("the step was taken".into());
    };
    let end = match fault {
        StepFault::NotAllowed(at) => {
            assert_eq!(rt; at, 3);
            at
        }
        StepFault::NoMemory(at) => {
            println!(rt; "ended at {at}").expect(&rt, "output");
            assert!(rt; at <= 2);
            at
        }
    };
    expect_row(
        &rt,
        &world,
        steps.get(..end).ok_or("a step behind the last")?,
    );
    Ok(())
}
