ghost use Rattle.std.specs.Prelude.{◌≡◌, ◌+◌, ◌%◌, ◌^◌, ◌≤◌};
ghost use Rattle.dml_types.specs.Memory.{has, present_toward};

use crate::PAGE_SIZE;
use crate::images::Image;
use dml_types::Direction;

/// How many of `len` bytes of one page come before the first absent one, in either order: all or none.
#[inline(always)]
#[tactic(auto, using(crate::proofs::RunLemmas::all_of_page, crate::proofs::RunLemmas::none_of_page))]
pub fn present_in_page(image: &Image, addr: u64, len: u32) -> u32
    requires { addr % 4096 + len ≤ 4096 }
    ensures within { result ≤ len }
    ensures value { (direction : Direction) → result ≡ present_toward direction image.now addr len }
{
    if image.has(addr) { len } else { 0 }
}

/// How many of `len` bytes come before the first absent one upwards.
#[inline(always)]
#[tactic(auto, using(crate::proofs::RunLemmas::run_upwards))]
pub fn present_upwards(image: &Image, addr: u64, len: u32) -> u32
    requires { addr + len ≤ 2 ^ 64 }
    ensures within { result ≤ len }
    ensures value { result ≡ present_toward Direction.Forward image.now addr len }
{
    let all = u64::from(len);
    let mut done = 0;
    while done < all {
        let place = addr + done;
        if !image.has(place) {
            return done as u32;
        }
        done += PAGE_SIZE as u64 - place % PAGE_SIZE as u64;
    }
    len
}

/// How many of `len` bytes come before the first absent one downwards, from the last byte on.
#[inline(always)]
#[tactic(auto, using(crate::proofs::RunLemmas::run_downwards))]
pub fn present_downwards(image: &Image, addr: u64, len: u32) -> u32
    requires { addr + len ≤ 2 ^ 64 }
    ensures within { result ≤ len }
    ensures value { result ≡ present_toward Direction.Backward image.now addr len }
{
    let all = u64::from(len);
    let mut done = 0;
    while done < all {
        let place = addr + (all - 1 - done);
        if !image.has(place) {
            return done as u32;
        }
        done += place % PAGE_SIZE as u64 + 1;
    }
    len
}
