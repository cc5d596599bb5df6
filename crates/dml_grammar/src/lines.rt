//! The lines of a script.

use dml_types::Job;
use std::marker::Model;

/// Bytes that a line gives in hexadecimal.
#[derive(Debug, Drop)]
pub struct Bytes {
    pub list: Vec<u8>,
}

impl Model for Bytes {
    ghost use Rattle.std.specs.Prelude.{List, ℕ};

    ghost Value = { List ℕ };

    ghost view = { λ bytes. bytes.list.items };
}

/// A line of a script.
#[derive(Debug, Drop)]
pub enum Line {
    /// The image has this many pages, 1 to 4,096.
    Image { pages: u32 },
    /// The page is brought, with these bytes and then zeros.
    Page { page: u32, bytes: Bytes },
    /// Bytes are written, over present bytes.
    Poke { addr: u64, bytes: Bytes },
    /// A job.
    Job(Job),
    /// The jobs from here up to the end are one batch, 0 to 1,024 of them.
    Batch,
    /// The end of a batch.
    End,
    /// Bytes are shown, 1 to 65,536 of them.
    Show { addr: u64, len: u32 },
}
