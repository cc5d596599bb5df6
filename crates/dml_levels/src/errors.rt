use thiserror::Error;

/// Why no levels, or no waves, were found.
#[derive(Clone, Copy, PartialEq, Eq, Debug, Error)]
pub enum LevelError {
    /// The allocator has no memory left for the list.
    #[error("out of memory")]
    NoMemory,
}
