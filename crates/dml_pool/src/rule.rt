//! The deque of a wave, and the rule that it keeps.

use crate::Task;
use crossbeam_deque::protocol::{Join, Outcome, Protocol, Split};
use crossbeam_deque::{Pass, Stealer, Worker};
use dml_arena::Region;
use dml_desc::Checked;
use std::alloc::Global;
use std::collections::LinkedList;

/// A task with its place in the wave's list. Its job stays where it is, so that little is moved on and off the deque.
#[derive(Drop)]
pub struct Numbered<'j, 'a> {
    pub job: &'j Checked,
    pub from: u32,
    pub to: u32,
    pub number: u32,
    pub room: Region<'a>,
}

/// What a pass of the deque knows: the tasks pushed so far, how many parts it has of the right to know the whole, and
/// the numbers of the tasks that it took. No value of it is made.
pub struct Hand<'a> {
    pub tasks: LinkedList<Task<'a>>,
    pub parts: u64,
    pub taken: LinkedList<u32>,
}

/// The rule: each task is in the deque or was taken, once.
pub struct Wave;

impl<'j, 'a> Protocol<Numbered<'j, 'a>, Hand<'a>> for Wave {
    ghost use Rattle.std.specs.Prelude.{[]};
    ghost use Rattle.dml_pool.specs.Rule.{Kept, hand, all_parts};

    ghost holds = { Kept };

    ghost first = { hand [] all_parts [] };

    ghost guest = { hand [] 0 [] };
}

/// A push before the start.
pub struct Pushed;

impl<'j, 'a> Outcome<Numbered<'j, 'a>, Hand<'a>> for Pushed {
    ghost use Rattle.std.specs.Prelude.{◌≡◌, ◌++◌, map};
    ghost use Rattle.dml_pool.specs.Rule.{hand, task_of};

    ghost then = { λ v items w. w ≡ hand (v.tasks ++ map task_of items) v.parts v.taken };
}

/// A steal: one that takes, and one that finds the deque empty.
pub struct Taken;

impl<'j, 'a> Outcome<Numbered<'j, 'a>, Hand<'a>> for Taken {
    ghost use Rattle.dml_pool.specs.Rule.{HasTaken, HasTakenAll};

    ghost then = { HasTaken };

    ghost empty = { HasTakenAll };
}

/// A pass with one part, split off for a worker, and joined again.
pub struct Part;

impl<'a> Split<Hand<'a>> for Part {
    ghost use Rattle.std.specs.Prelude.{◌-◌, []};
    ghost use Rattle.dml_pool.specs.Rule.{hand};

    ghost left = { λ v. hand v.tasks (v.parts - 1) v.taken };

    ghost right = { λ v. hand v.tasks 1 [] };
}

impl<'a> Join<Hand<'a>> for Part {
    ghost use Rattle.std.specs.Prelude.{◌+◌, ◌++◌, []};
    ghost use Rattle.dml_pool.specs.Rule.{hand};

    ghost both = { λ v w. hand v.tasks (v.parts + w.parts) (v.taken ++ w.taken) };

    ghost spent = { hand [] 0 [] };
}

/// A pass with all that the owner knew, split off for the last look.
pub struct Whole;

impl<'a> Split<Hand<'a>> for Whole {
    ghost use Rattle.std.specs.Prelude.{[]};
    ghost use Rattle.dml_pool.specs.Rule.{hand};

    ghost left = { λ v. hand [] 0 [] };

    ghost right = { λ v. v };
}

/// The end that pushes.
pub type Owner<'j, 'a> = Worker<Numbered<'j, 'a>, Global, Hand<'a>, Wave>;

/// The end that steals.
pub type Thief<'j, 'a> = Stealer<Numbered<'j, 'a>, Global, Hand<'a>, Wave>;

/// What one thread knows of the deque.
pub type Place<'j, 'a> = Pass<Numbered<'j, 'a>, Hand<'a>>;
