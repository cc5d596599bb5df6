use thiserror::Error;

/// Why no engine was made.
#[derive(Clone, Copy, PartialEq, Eq, Debug, Error)]
pub enum EngineError {
    /// A setting is out of its limits.
    #[error("the settings are out of range")]
    BadSettings,
    /// The allocator has no memory left for the staging arena.
    #[error("out of memory")]
    NoMemory,
}

/// Why a list or a batch was not carried out. Nothing is changed then.
#[derive(Clone, Copy, PartialEq, Eq, Debug, Error)]
pub enum SubmitError {
    /// There are more than 1,024 jobs.
    #[error("too many jobs")]
    TooMany,
    /// The allocator has no memory left for the list of records.
    #[error("out of memory")]
    NoMemory,
}

/// Why a list or a batch was not carried out over memory that a caller lends. Nothing is changed then.
#[derive(Clone, Copy, PartialEq, Eq, Debug, Error)]
pub enum RunError {
    /// A setting is out of its limits.
    #[error("the settings are out of range")]
    BadSettings,
    /// There are more than 1,024 jobs.
    #[error("too many jobs")]
    TooMany,
    /// The allocator has no memory left for the records or the staging arena.
    #[error("out of memory")]
    NoMemory,
}
