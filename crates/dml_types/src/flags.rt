ghost use Rattle.std.specs.Prelude.{⊤, [], ◌∷◌, codes};

use bitflags::{Flag, Flags, bitflag_items};

/// The flags of a job that are known, by their bits in `linux/idxd.h`.
#[derive(Clone, Copy, PartialEq, Eq, Debug)]
pub struct JobFlags(u32);

bitflag_items! {
    impl JobFlags: u32 {
        const FENCE = 0x01;
        const BLOCK_ON_FAULT = 0x02;
        const ADDRESS_VALID = 0x04;
        const REQUEST_RECORD = 0x08;
        const CHECK_RESULT = 0x80;
        const CACHE_CONTROL = 0x100;
    }
}

impl Flags for JobFlags {
    type Bits = u32;

    ghost use Rattle.std.specs.Prelude.{⊤};
    ghost use Rattle.dml_types.specs.Job.{flag_table};

    ghost exact = { ⊤ };

    ghost table = { flag_table };

    ghost set_of = { λ flags. flags.0 };

    fn flags<'a>() -> &'a [Flag<JobFlags>] {
        JobFlags::FLAGS
    }

    fn bits(&self) -> u32 {
        self.0
    }

    fn from_bits_retain(bits: u32) -> JobFlags {
        JobFlags(bits)
    }
}
