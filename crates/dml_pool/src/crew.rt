//! The workers of a wave: how they start, and how the calling thread awaits that they have left.
ghost use Rattle.dml_pool.specs.Crews.{AreCommon, HasLed, MayLead};

use crate::Gate;
use crate::order::Outcomes;
use crate::posts::{Common, Post};
use crate::rule::{Place, Thief};
use crate::worker::{Desk, work};
use dml_image::Image;
use std::alloc::Global;
use std::hint::spin_loop;
use std::mem;
use std::sync::{Mutex, Wait};
use std::thread::{Builder, Threads, scope, scope_env};

/// How often the calling thread looks whether all workers have left, some 20 ns for each post, before it sleeps.
const LOOKS: u32 = 200;

/// The GNU C library keeps the stacks of so many workers, at its usual 8 MiB each, from one wave to the next.
const KEPT: usize = 4;

/// The bytes of a worker's stack where more are started, as many as Rust gives its threads. Larger ones would in part
/// be mapped anew in each wave.
const STACK: usize = 2 << 20;

/// How the thread of one of so many workers starts.
fn builder(workers: usize) -> Builder {
    if workers > KEPT {
        Builder::new().stack_size(STACK)
    } else {
        Builder::new()
    }
}

/// Starts a worker at each post, works at the desk until no task is left, and waits until the workers have left their
/// posts. The ends of their threads are hardly ever waited for. A worker for which no thread can be made leaves its
/// tasks to the others.
pub fn crew<'j, 'a, R: Threads + Wait + Sync, G: Gate + Sync, W: Common + Send>(
    rt: &R,
    alloc: Global,
    image: &Image,
    gate: &G,
    posts: &[Mutex<Post<'j, 'a, W>>],
    desk: Desk<'_, 'j, 'a>,
) -> (Place<'j, 'a>, Outcomes<'a>)
    requires { MayLead W.memory W.deque W.tasks image.now desk }
    ensures { HasLed W.memory W.deque W.tasks result.0 result.1 }
{
    if posts.is_empty() {
        return lead::<R, G, W>(rt, image, gate, posts, desk);
    }
    let thief = desk.thief;
    scope(
        scope_env(),
        rt,
        |scope| -> (Place, Outcomes)
            requires { MayLead W.memory W.deque W.tasks image.now desk
                × AreCommon W.memory W.deque W.tasks image.now thief.now }
            ensures { HasLed W.memory W.deque W.tasks result.0 result.1 }
        {
            for post in posts {
                let _ = builder(posts.len()).spawn_scoped(
                    scope,
                    move || -> ()
                        requires { AreCommon W.memory W.deque W.tasks image.now thief.now }
                    { work_at(rt, alloc, image, gate, thief, post) },
                );
            }
            lead::<R, G, W>(rt, image, gate, posts, desk)
        },
    )
}

/// Works at the desk until no task is left, and looks for a while whether all workers have left their posts. A thread
/// that sleeps is woken late, and whoever waits for the scope's end sleeps.
fn lead<'j, 'a, R: Wait, G: Gate, W: Common>(
    rt: &R,
    image: &Image,
    gate: &G,
    posts: &[Mutex<Post<'j, 'a, W>>],
    desk: Desk<'_, 'j, 'a>,
) -> (Place<'j, 'a>, Outcomes<'a>)
    requires { MayLead W.memory W.deque W.tasks image.now desk }
    ensures { HasLed W.memory W.deque W.tasks result.0 result.1 }
{
    let Desk {
        thief,
        mut place,
        done,
    } = desk;
    let done = work(rt, image, gate, thief, &mut place, done);
    watch_posts(posts);
    (place, done)
}

/// Watches the posts for a while, until no worker is at one. A worker that has not come yet counts as one that has left:
/// it will find no task.
fn watch_posts<W: Common>(posts: &[Mutex<Post<'_, '_, W>>]) {
    for _ in 0..LOOKS {
        if have_left(posts) {
            return;
        }
        spin_loop();
    }
}

/// Works at a post until no task is left.
fn work_at<'j, 'a, R: Wait, G: Gate, W: Common>(
    rt: &R,
    alloc: Global,
    image: &Image,
    gate: &G,
    thief: &Thief<'j, 'a>,
    post: &Mutex<Post<'j, 'a, W>>,
)
    requires { AreCommon W.memory W.deque W.tasks image.now thief.now }
{
    let mut guard = post.lock(rt);
    let mine = &mut *guard;
    let done = mem::replace(&mut mine.done, Vec::new(alloc));
    mine.done = work(rt, image, gate, thief, &mut mine.place, done);
}

/// Whether no worker is at a post.
fn have_left<W: Common>(posts: &[Mutex<Post<'_, '_, W>>]) -> bool {
    let mut all = true;
    for post in posts {
        if post.try_lock().is_none() {
            all = false;
        }
    }
    all
}
