use thiserror::Error;

/// Why a call of an image was refused.
#[derive(Clone, Copy, PartialEq, Eq, Debug, Error)]
pub enum ImageError {
    /// An image has 1 to 4,096 pages.
    #[error("an image has 1 to 4096 pages")]
    BadPages,
    /// The image has no page of this number.
    #[error("there is no such page")]
    NoSuchPage,
    /// A growth was refused, or an absent page was to be brought into lent memory, where no growth is made.
    #[error("out of memory")]
    NoMemory,
}
