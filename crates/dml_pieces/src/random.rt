//! Numbers for inputs: the same for the same seed.
ghost use Rattle.std.specs.Prelude.{◌<◌};

use rand_core::{Rng, SeedableRng};
use rand_xoshiro::Xoshiro256PlusPlus;

/// A source of numbers.
#[derive(Drop)]
pub(crate) struct Random {
    source: Xoshiro256PlusPlus,
}

impl Random {
    /// The numbers of a seed's part.
    pub(crate) fn new(seed: u32, part: u32) -> Random {
        Random {
            source: Xoshiro256PlusPlus::seed_from_u64(u64::from(seed) << 32 | u64::from(part)),
        }
    }

    /// Any number of 64 bits.
    pub(crate) fn word(&mut self) -> u64 {
        self.source.next_u64()
    }

    /// A number below a bound.
    pub(crate) fn below(&mut self, bound: u32) -> u32
        requires { 0 < bound }
        ensures { result < bound }
    {
        (self.word() >> 32) as u32 % bound
    }

    /// One number of `count`: whether it is the first.
    pub(crate) fn one_in(&mut self, count: u32) -> bool
        requires { 0 < count }
    {
        self.below(count) == 0
    }
}
