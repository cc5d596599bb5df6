//! Jobs over memory that a caller lends.
ghost use Rattle.std.specs.Prelude.{◌≡◌, ◌↔◌, ◌≤◌, true, replicate, IsTrue};
ghost use Rattle.dml_types.specs.Memory.{IsMemory};
ghost use Rattle.dml_types.specs.Refusal.{need};
ghost use Rattle.dml_types.specs.Step.{step};
ghost use Rattle.dml_effect.specs.Pages.{IsPages, all_present};
ghost use Rattle.dml_effect.specs.Straight.{TakesStaging};

use crate::carrying::{submit_straight_to, submit_to};
use dml_arena::Arena;
use dml_image::{Lent, MAX_PAGES, PAGE_SIZE};
use dml_types::{Job, Record};

/// The most pages.
const MOST: usize = MAX_PAGES as usize;

/// The presence of pages that are all present.
static PRESENT: [bool; MOST] = [true; MOST];

/// Whether these bytes are 1 to 4,096 whole pages.
pub fn are_pages(content: &[u8]) -> bool
    ensures { IsTrue result ↔ IsPages content.now }
{
    let len = content.len();
    len % PAGE_SIZE == 0 && len >= PAGE_SIZE && len <= MOST * PAGE_SIZE
}

/// Checks a job and carries it out over the caller's bytes, which are 1 to 4,096 whole pages from address 0 on, all
/// present; or answers its refusal, and changes nothing then.
///
/// [`are_pages`] is the test of the pages, and [`takes_staging`](crate::takes_staging) of whether room is asked for.
pub fn submit_over(content: &mut [u8], arena: &mut Arena, job: &Job, staging: u32) -> Record
    requires pages { IsPages content.old }
    requires staging { TakesStaging job.now staging → need job.now ≤ arena.old.size }
    ensures content { content.new ≡ (step (all_present content.old) job.now staging).0.bytes }
    ensures answer { result ≡ (step (all_present content.old) job.now staging).1 }
    ensures arena { arena.new ≡ arena.old }
{
    let present = all_of(content.len() / PAGE_SIZE);
    let mut lent = Lent::new(present, content);
    let mut image = lent.take();
    let answer = submit_to(&mut image, arena, job, staging);
    lent.put(image);
    answer
}

/// The same for a job that takes no staging.
pub fn submit_straight_over(content: &mut [u8], job: &Job, staging: u32) -> Record
    requires pages { IsPages content.old }
    requires staging { TakesStaging job.now staging → ⊥ }
    ensures content { content.new ≡ (step (all_present content.old) job.now staging).0.bytes }
    ensures answer { result ≡ (step (all_present content.old) job.now staging).1 }
{
    let present = all_of(content.len() / PAGE_SIZE);
    let mut pages = Lent::new(present, content);
    let mut image = pages.take();
    let answer = submit_straight_to(&mut image, job, staging);
    pages.put(image);
    answer
}

/// The presence of so many pages.
fn all_of<'a>(pages: usize) -> &'a [bool]
    requires { pages ≤ 4096 }
    ensures { result.now ≡ replicate pages true }
{
    &PRESENT[..pages]
}
