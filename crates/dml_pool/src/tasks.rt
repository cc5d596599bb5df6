//! Tasks and their outcomes.

use dml_arena::Region;
use dml_delta::{ApplyPiece, CreatePiece};
use dml_desc::Checked;
use dml_scan::ScanPiece;

/// One chunk of a job, with room for what it stages.
#[derive(Drop)]
pub struct Task<'a> {
    /// The job, which is no no-op.
    pub job: Checked,
    /// The first offset of the chunk: in bytes, of a create in blocks, of an apply in entries.
    pub from: u32,
    /// The offset behind its last one.
    pub to: u32,
    /// An empty region with room for the chunk: its length for a move and a dualcast, 10 bytes for each block of
    /// a create and each entry of an apply, and any room for the others, which stage nothing.
    pub room: Region<'a>,
}

/// What a chunk gives, by its job's operation.
#[derive(Drop)]
pub enum Piece<'a> {
    /// Of a move, a fill, a dualcast or a compare.
    Scan(ScanPiece<'a>),
    Create(CreatePiece<'a>),
    Apply(ApplyPiece<'a>),
}

/// What a worker gives for a task.
#[derive(Drop)]
pub struct Outcome<'a> {
    /// The task's place in the wave's list.
    pub task: u32,
    pub piece: Piece<'a>,
}
