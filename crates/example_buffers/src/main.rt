//! Jobs straight over a program's own buffers: what changed between two versions of some bytes becomes a delta record,
//! and is applied to a copy of the older version. A list of such jobs is a loop of calls.
#![tactic(auto)]

ghost use Rattle.std.specs.Prelude.{◌≡◌, IfOk, Some};
ghost use Rattle.dml_types.specs.Job.{op_of};

use anyhow::bail;
use dml_desc::{Checked, check};
use dml_direct::{apply_delta, compare, create_delta};
use dml_types::{Job, Op};

/// The job of an operation, checked with staging enough for every job.
fn checked(job: &Job, op: Op) -> anyhow::Result<Checked>
    ensures same { IfOk result (λ checked. checked ≡ job.now) }
    ensures operation { IfOk result (λ checked. op_of checked ≡ Some op) }
{
    match check(job, 1_048_576) {
        Ok(checked) if checked.op() == op => Ok(checked),
        _ => bail!("the job is refused"),
    }
}

fn main(rt: HostRuntime) -> anyhow::Result<()> {
    // The rules judge these addresses; here any multiples of 8 will do whose ranges share no byte.
    let create = Job::create_delta(0x1000, 0x2000, 48, 0x3000, 60);
    let create = checked(&create, Op::CreateDelta)?;
    let compare_all = checked(&Job::compare(0x4000, 0x2000, 48), Op::Compare)?;
    let versions = [
        (
            *b"a job names ranges by address; these are 48 byte",
            *b"a job knows ranges by address; those are 48 byte",
        ),
        (
            *b"and in this one nothing has changed, none at all",
            *b"and in this one nothing has changed, none at all",
        ),
    ];
    for (old, new) in versions {
        let (mut delta, mut copy) = ([0; 60], old);
        let made = create_delta(&create, &old, &new, &mut delta);
        let Some(entries) = delta.get(..made.delta_size as usize) else {
            bail!("the record is longer than its maximum");
        };
        let apply = Job::apply_delta(0x3000, made.delta_size, 0x4000, 48);
        let done = apply_delta(&checked(&apply, Op::ApplyDelta)?, entries, &mut copy);
        let same = compare(&compare_all, &copy, &new);
        let (changed, equal) = (done.completed / 10, same.result == 0);
        println!(rt;
            "result {}, {changed} blocks, then equal: {equal}",
            made.result
        )?;
    }
    Ok(())
}
