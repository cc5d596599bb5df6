/// A range of addresses, `len` bytes from `start` on. It may be empty, and it may end above 2^64.
#[derive(Clone, Copy, PartialEq, Eq, Debug, Default)]
pub struct Span {
    /// The first address.
    pub start: u64,
    /// The number of bytes.
    pub len: u32,
}
