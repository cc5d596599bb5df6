//! A wave carried out.
ghost use Rattle.std.specs.Prelude.{◌≡◌, ◌≤◌, ◌<◌, All, length};
ghost use Rattle.dml_order.specs.Order.{run_all};
ghost use Rattle.dml_core.specs.World.{carry_out, progress};

use crate::values::Fetched;
use dml_arena::Arena;
use dml_effect::submit_to;
use dml_image::Image;

/// Carries out the job at a place, and sets its answer.
fn carry_out_place(
    image: &mut Image,
    arena: &mut Arena,
    fetched: &mut Vec<Fetched>,
    place: usize,
    staging: u32,
)
    requires inside { place < length fetched.old.items }
    requires staging { staging ≤ arena.old.size }
    ensures done { progress image.new fetched.new.items
        ≡ carry_out staging (progress image.old fetched.old.items) place }
    ensures count { length fetched.new.items ≡ length fetched.old.items }
    ensures arena { arena.new ≡ arena.old }
{
    let answer = submit_to(image, arena, &fetched[place].job, staging);
    fetched[place].answer = Some(answer);
}

/// Carries out the jobs at a wave's places in list order, and sets the answer of each.
pub(crate) fn carry_out_wave(
    image: &mut Image,
    arena: &mut Arena,
    fetched: &mut Vec<Fetched>,
    wave: &[usize],
    staging: u32,
)
    requires inside { All (λ i. i < length fetched.old.items) wave.now }
    requires staging { staging ≤ arena.old.size }
    ensures done { progress image.new fetched.new.items
        ≡ run_all (carry_out staging) (progress image.old fetched.old.items) wave.now }
    ensures count { length fetched.new.items ≡ length fetched.old.items }
    ensures arena { arena.new ≡ arena.old }
{
    for place in wave {
        carry_out_place(image, arena, fetched, *place, staging);
    }
}
