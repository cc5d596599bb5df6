/// How the scan of a chunk ended. `done` counts bytes of the chunk in the order of work.
#[derive(Clone, Copy, PartialEq, Eq, Debug)]
pub enum Found {
    /// All of the chunk was done.
    All,
    /// The two bytes at the next offset differ.
    Differs { done: u32 },
    /// A byte at the next offset is absent: at the address `place`, which was to be written or else read.
    Fault { done: u32, place: u64, write: bool },
}
