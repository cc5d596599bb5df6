use thiserror::Error;

/// Why a wave was not carried out.
#[derive(Clone, Copy, PartialEq, Eq, Debug, Error)]
pub enum WaveError {
    /// The allocator has no memory left for the tasks, their outcomes or the effects.
    #[error("out of memory")]
    NoMemory,
}
