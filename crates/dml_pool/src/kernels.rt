//! A task and its kernel.
ghost use Rattle.std.specs.Prelude.{◌≡◌};
ghost use Rattle.dml_pool.specs.Rule.{task_of};
ghost use Rattle.dml_pool.specs.Tasks.{IsRunnable, IsTaskValue};

use crate::rule::Numbered;
use crate::{Outcome, Piece};
use dml_delta::{scan_apply, scan_create};
use dml_image::Image;
use dml_scan::{scan_compare, scan_compare_pattern, scan_dualcast, scan_fill, scan_move};
use dml_types::Op;

/// Carries out a task, and answers its outcome.
pub fn outcome_of<'a>(image: &Image, item: Numbered<'_, 'a>) -> Outcome<'a>
    requires { IsRunnable (task_of item) }
    ensures task { result.task ≡ item.entry.number }
    ensures value { IsTaskValue image.now (task_of item.entry) result.piece }
{
    Outcome {
        task: item.number,
        piece: carried_out(image, item),
    }
}

/// The value of a task's chunk, staged into the task's region.
fn carried_out<'a>(image: &Image, item: Numbered<'_, 'a>) -> Piece<'a>
    requires { IsRunnable (task_of item) }
    ensures { IsTaskValue image.now (task_of item.entry) result }
{
    let Numbered {
        job,
        from,
        to,
        room,
        ..
    } = item;
    match job.op() {
        Op::Move => Piece::Scan(scan_move(image, job, from, to, room)),
        Op::Fill => Piece::Scan(scan_fill(image, job, from, to, room)),
        Op::Compare => Piece::Scan(scan_compare(image, job, from, to, room)),
        Op::ComparePattern => Piece::Scan(scan_compare_pattern(image, job, from, to, room)),
        Op::Dualcast => Piece::Scan(scan_dualcast(image, job, from, to, room)),
        Op::CreateDelta => Piece::Create(scan_create(image, job, from, to, room)),
        Op::ApplyDelta => Piece::Apply(scan_apply(image, job, from, to, room)),
        Op::NoOp => unreachable!(),
    }
}
