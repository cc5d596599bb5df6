use thiserror::Error;

/// Why no world was made.
#[derive(Clone, Copy, PartialEq, Eq, Debug, Error)]
pub enum WorldError {
    /// A setting is out of its limits.
    #[error("the settings are out of range")]
    BadSettings,
    /// There are not 1 to 8 clients.
    #[error("the number of clients is out of range")]
    BadClients,
    /// The allocator has no memory left.
    #[error("out of memory")]
    NoMemory,
}

/// Why a list of steps was not taken to its end, with the place of the first step that was not taken.
#[derive(Clone, Copy, PartialEq, Eq, Debug, Error)]
pub enum StepFault {
    /// The step is not allowed.
    #[error("step {0} is not allowed")]
    NotAllowed(usize),
    /// The allocator has no memory left for the step.
    #[error("out of memory at step {0}")]
    NoMemory(usize),
}
