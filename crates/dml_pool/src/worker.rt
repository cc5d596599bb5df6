//! What one worker does.
ghost use Rattle.std.specs.Prelude.{◌≡◌, ◌<◌, ◌≤◌, length, vec_capacity, MatchOption};
ghost use Rattle.std.specs.List.{All};
ghost use Rattle.dml_pool.specs.Crews.{HasWorked, TakesNext};
ghost use Rattle.dml_pool.specs.Rule.{HasTakenAll};
ghost use Rattle.dml_pool.specs.Tasks.{IsRunnable};
ghost use Rattle.crossbeam_deque.specs.Handles.{view, IsPassOf, SamePass, stealer_deque, stealer_flavor};

use crate::kernels::outcome_of;
use crate::order::Outcomes;
use crate::rule::{Place, Taken, Thief};
use crate::{Gate, Outcome};
use crossbeam_deque::Steal;
use dml_image::Image;
use std::sync::Wait;

/// Where the calling thread steals, what it knows of the deque, and its list of outcomes.
#[derive(Drop)]
pub struct Desk<'t, 'j, 'a> {
    pub thief: &'t Thief<'j, 'a>,
    pub place: Place<'j, 'a>,
    pub done: Outcomes<'a>,
}

/// Takes one task after another and carries it out, until none is left; the outcomes join those so far, in a list that
/// has room for those of all tasks. No memory is taken.
#[tactic(auto, using(crate::proofs::Works::worked_none, crate::proofs::Works::worked_more, crate::proofs::Works::longer))]
pub fn work<'j, 'a, R: Wait, G: Gate>(
    rt: &R,
    image: &Image,
    gate: &G,
    thief: &Thief<'j, 'a>,
    place: &mut Place<'j, 'a>,
    mut done: Outcomes<'a>,
) -> Outcomes<'a>
    requires table { IsPassOf (stealer_deque thief.now) place.old }
    requires flavor { stealer_flavor thief.now ≡ 0 }
    requires part { 0 < (view place.old).parts }
    requires runnable { All IsRunnable (view place.old).tasks }
    requires few { length done.items ≤ length (view place.old).taken }
    requires room { length (view place.old).tasks ≤ vec_capacity done }
    ensures same { SamePass place.old place.new }
    ensures done { HasWorked image.now (view place.old) (view place.new) done.entry.items result.items }
    ensures all { HasTakenAll (view place.new) }
    ensures room { vec_capacity result ≡ vec_capacity done.entry }
{
    while let Some(outcome) = next_outcome(rt, image, gate, thief, place) {
        done.push_reserved(Some(outcome));
    }
    done
}

/// Takes the next task and carries it out; none where no task is left.
#[tactic(auto, using(crate::proofs::Keeps::takes, crate::proofs::Works::finds))]
fn next_outcome<'j, 'a, R: Wait, G: Gate>(
    rt: &R,
    image: &Image,
    gate: &G,
    thief: &Thief<'j, 'a>,
    place: &mut Place<'j, 'a>,
) -> Option<Outcome<'a>>
    requires table { IsPassOf (stealer_deque thief.now) place.old }
    requires flavor { stealer_flavor thief.now ≡ 0 }
    requires part { 0 < (view place.old).parts }
    requires runnable { All IsRunnable (view place.old).tasks }
    ensures same { SamePass place.old place.new }
    ensures taken { MatchOption result ((view place.new ≡ view place.old) × HasTakenAll (view place.old))
        (TakesNext image.now (view place.old) (view place.new)) }
{
    for _ in rt.forever() {
        match thief.steal_as::<Taken>(place) {
            Steal::Success(item) => {
                gate.enter(item.number as usize);
                return Some(outcome_of(image, item));
            }
            Steal::Empty => return None,
            Steal::Retry => {}
        }
    }
    unreachable!()
}
