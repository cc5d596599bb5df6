ghost use Rattle.std.specs.Prelude.{◌≡◌, ◌↔◌, IsTrue};
ghost use Rattle.dml_types.specs.declared.statuses.Status.TheVariants as status;
ghost use Rattle.dml_types.specs.Effect.{ended};

use crate::statuses::Status;

/// The completion record of a job.
#[derive(Clone, Copy, PartialEq, Eq, Debug)]
pub struct Record {
    pub status: Status,
    /// A compare's 0 or 1, a create's 0, 1 or 2, a move's direction (1 is backward); 0 for all else.
    pub result: u8,
    /// The bytes done.
    pub completed: u32,
    /// The address of the first absent byte after a page fault, else 0.
    pub fault: u64,
    /// The bytes of the delta record that a create wrote, else 0.
    pub delta_size: u32,
}

impl Record {
    /// The record of a job that did nothing, as a refused one: its status, and 0 in all else.
    pub fn refused(status: Status) -> Record
        ensures { result ≡ ended status 0 0 0 }
    {
        Record {
            status,
            result: 0,
            completed: 0,
            fault: 0,
            delta_size: 0,
        }
    }

    /// Whether the status is 0x01.
    pub fn is_success(&self) -> bool
        ensures { IsTrue result ↔ (self.now.status ≡ status.Success) }
    {
        self.status == Status::Success
    }
}

/// The completion record of a batch.
#[derive(Clone, Copy, PartialEq, Eq, Debug)]
pub struct BatchRecord {
    pub status: Status,
    /// The jobs carried out, refused ones included; abandoned ones are not.
    pub completed: u32,
}
