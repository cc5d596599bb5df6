ghost use Rattle.std.specs.Prelude.{◌↔◌, IsTrue};
ghost use Rattle.dml_types.specs.Limits.{IsValid};

/// The most jobs of a batch.
pub const MOST_JOBS: u32 = 1024;

/// How an engine works. `chunk` and `workers` are meant to change no answer.
#[derive(Clone, Copy, PartialEq, Eq, Debug)]
pub struct Settings {
    /// The bytes of the staging arena, 0 to 16,777,216.
    pub staging: u32,
    /// The bytes that one task covers, a multiple of 8 from 8 to 1,048,576.
    pub chunk: u32,
    /// The number of workers, 1 to 16.
    pub workers: u32,
}

impl Settings {
    /// Whether each setting is within its limits.
    pub fn is_valid(&self) -> bool
        ensures { IsTrue result ↔ IsValid self.now }
    {
        self.staging <= 16_777_216
            && (8..=1_048_576).contains(&self.chunk)
            && self.chunk % 8 == 0
            && (1..=16).contains(&self.workers)
    }
}
