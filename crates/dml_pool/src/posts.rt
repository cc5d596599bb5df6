//! Where the started workers of a wave stand, and what they leave there.
ghost use Rattle.std.specs.Prelude.{◌≡◌, ◌+◌, ◌-◌, ◌<◌, ◌≤◌, ◌++◌, [], length, vec_capacity, IfOk};
ghost use Rattle.crossbeam_deque.specs.Handles.{view, worker_view, worker_deque, IsPassOf};
ghost use Rattle.dml_pool.specs.Props.{Accounts-prop, IsPassOf-prop, tasks_set};
ghost use Rattle.dml_pool.specs.Rule.{hand, Accounts};
ghost use Rattle.dml_pool.specs.Slots.{all_held, held};

use crate::order::Outcomes;
use crate::rule::{Owner, Part, Place};
use std::alloc::{AllocError, Global};
use std::marker::{Brand, PhantomData};
use std::sync::Mutex;

/// What the workers of a wave have in common: the image, the deque and its tasks. Contracts alone know it.
pub trait Common {
    ghost use Rattle.std.specs.Prelude.{ℕ, List};
    ghost use Rattle.std.specs.Global.{Global};
    ghost use Rattle.dml_types.specs.Memory.{Memory};
    ghost use Rattle.dml_pool.specs.declared.tasks.Task.{Task};

    ghost memory: { Memory };

    ghost deque: { (ℕ × ℕ) × Global };

    ghost tasks: { List Task };
}

impl Common for Brand {
    ghost use Rattle.std.specs.Prelude.{[], None};
    ghost use Rattle.dml_types.specs.Memory.{memory_of};

    ghost memory = { memory_of [] [] None };

    ghost deque = { ((0, 0), record { memory = record { seal = tt } }) };

    ghost tasks = { [] };
}

/// What a started worker knows of the deque, and its list of outcomes, which has room for those of all tasks, and for no
/// more.
#[derive(Drop)]
pub struct Post<'j, 'a, W: Common> {
    pub place: Place<'j, 'a>,
    pub done: Outcomes<'a>,
    pub of: PhantomData<W>,
    ghost table: { IsPassOf W.deque place } by { IsPassOf-prop W.deque place },
    ghost known: { (view place).tasks ≡ W.tasks } by { tasks_set _ _ },
    ghost part: { (view place).parts ≡ 1 },
    ghost room: { vec_capacity done ≡ length W.tasks },
    ghost count: { length done.items ≡ length (view place).taken },
    ghost accounts: { Accounts W.memory (view place) (held done.items) } by { Accounts-prop W.memory (view place) (held done.items) },
}

/// A post for each worker that is to be started. The thread that has its lock works there.
pub type Posts<'j, 'a, W> = Vec<Mutex<Post<'j, 'a, W>>>;

/// A post for each of so many workers, each with a part of the owner's pass and an empty list with room for so many
/// outcomes.
///
/// # Errors
///
/// Where the allocator has no memory left for the posts or a list.
pub fn posts_for<'j, 'a, W: Common>(
    alloc: Global,
    owner: &mut Owner<'j, 'a>,
    workers: u32,
    room: usize,
) -> Result<Posts<'j, 'a, W>, AllocError>
    requires workers { workers ≤ 16 }
    requires parts { workers < (worker_view owner.old).parts }
    requires deque { worker_deque owner.old ≡ W.deque }
    requires tasks { (worker_view owner.old).tasks ≡ W.tasks }
    requires room { room ≡ length W.tasks }
    ensures count { IfOk result (λ posts. length posts.items ≡ workers) }
    ensures deque { worker_deque owner.new ≡ worker_deque owner.old }
    ensures left { IfOk result (λ posts. worker_view owner.new
        ≡ hand (worker_view owner.old).tasks ((worker_view owner.old).parts - workers) (worker_view owner.old).taken) }
{
    let mut posts = Vec::with_capacity(alloc, workers as usize)?;
    for _ in 0..workers {
        let done = Vec::with_capacity(alloc, room)?;
        posts.push_reserved(Mutex::new(post_of(owner, done)));
    }
    Ok(posts)
}

/// A post with a part of the owner's pass and a list.
#[tactic(auto, using(crate::proofs::Keeps::forks, crate::proofs::Works::none_held))]
fn post_of<'j, 'a, W: Common>(owner: &mut Owner<'j, 'a>, done: Outcomes<'a>) -> Post<'j, 'a, W>
    requires parts { 1 < (worker_view owner.old).parts }
    requires deque { worker_deque owner.old ≡ W.deque }
    requires tasks { (worker_view owner.old).tasks ≡ W.tasks }
    requires room { vec_capacity done ≡ length W.tasks }
    requires empty { done.items ≡ [] }
    ensures deque { worker_deque owner.new ≡ worker_deque owner.old }
    ensures left { worker_view owner.new
        ≡ hand (worker_view owner.old).tasks ((worker_view owner.old).parts - 1) (worker_view owner.old).taken }
{
    let place = owner.another::<Part>();
    Post {
        place,
        done,
        of: PhantomData,
    }
}

/// Joins the passes of all posts, and puts their lists behind those so far.
pub fn gathered<'j, 'a, W: Common>(
    mut owner: Owner<'j, 'a>,
    mut lists: Vec<Outcomes<'a>>,
    mut posts: Posts<'j, 'a, W>,
) -> (Owner<'j, 'a>, Vec<Outcomes<'a>>)
    requires deque { worker_deque owner ≡ W.deque }
    requires tasks { (worker_view owner).tasks ≡ W.tasks }
    requires part { 0 < (worker_view owner).parts }
    requires so_far { Accounts W.memory (worker_view owner) (all_held lists.items) }
    requires room { length lists.items + length posts.items ≤ vec_capacity lists }
    ensures deque { worker_deque result.0 ≡ worker_deque owner.entry }
    ensures tasks { (worker_view result.0).tasks ≡ (worker_view owner.entry).tasks }
    ensures parts { (worker_view result.0).parts ≡ (worker_view owner.entry).parts + length posts.entry.items }
    ensures lists { Accounts W.memory (worker_view result.0) (all_held result.1.items) }
    ensures count { length result.1.items ≡ length lists.entry.items + length posts.entry.items }
    ensures room { vec_capacity result.1 ≡ vec_capacity lists.entry }
{
    while let Some(post) = posts.pop() {
        let (whole, more) = joined(owner, lists, post.into_inner());
        owner = whole;
        lists = more;
    }
    (owner, lists)
}

/// Joins the pass of a post, and puts its list behind those so far.
fn joined<'j, 'a, W: Common>(
    owner: Owner<'j, 'a>,
    mut lists: Vec<Outcomes<'a>>,
    post: Post<'j, 'a, W>,
) -> (Owner<'j, 'a>, Vec<Outcomes<'a>>)
    requires deque { worker_deque owner ≡ W.deque }
    requires tasks { (worker_view owner).tasks ≡ W.tasks }
    requires part { 0 < (worker_view owner).parts }
    requires so_far { Accounts W.memory (worker_view owner) (all_held lists.items) }
    requires room { length lists.items < vec_capacity lists }
    ensures deque { worker_deque result.0 ≡ worker_deque owner.entry }
    ensures tasks { (worker_view result.0).tasks ≡ (worker_view owner.entry).tasks }
    ensures parts { (worker_view result.0).parts ≡ (worker_view owner.entry).parts + 1 }
    ensures lists { Accounts W.memory (worker_view result.0) (all_held result.1.items) }
    ensures count { length result.1.items ≡ length lists.entry.items + 1 }
    ensures room { vec_capacity result.1 ≡ vec_capacity lists.entry }
{
    let Post { place, done, .. } = post;
    lists.push_reserved(done);
    (absorbed(owner, place), lists)
}

/// Joins a worker's pass.
#[tactic(auto, using(crate::proofs::Keeps::merges))]
pub fn absorbed<'j, 'a>(mut owner: Owner<'j, 'a>, place: Place<'j, 'a>) -> Owner<'j, 'a>
    requires table { IsPassOf (worker_deque owner) place }
    requires tasks { (view place).tasks ≡ (worker_view owner).tasks }
    requires part { 0 < (worker_view owner).parts }
    ensures table { worker_deque result ≡ worker_deque owner.entry }
    ensures tasks { (worker_view result).tasks ≡ (worker_view owner.entry).tasks }
    ensures parts { (worker_view result).parts ≡ (worker_view owner.entry).parts + (view place.entry).parts }
    ensures taken { (worker_view result).taken ≡ (worker_view owner.entry).taken ++ (view place.entry).taken }
{
    owner.absorb::<Part>(place);
    owner
}
