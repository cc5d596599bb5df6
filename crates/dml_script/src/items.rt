//! The lines of a script's answer.

use dml_types::{BatchRecord, Record};
use std::marker::Model;

/// What a range of memory shows: for each address a present byte, or None where the byte is absent.
#[derive(Debug, Drop)]
pub struct Shown {
    pub list: Vec<Option<u8>>,
}

impl Model for Shown {
    ghost use Rattle.std.specs.Prelude.{ℕ, List, Option};

    ghost Value = { List (Option ℕ) };

    ghost view = { λ shown. shown.list.items };
}

/// A line of a script's answer.
#[derive(Debug, Drop)]
pub enum Item {
    /// The completion record of a job. Jobs are numbered from 0 over the whole script.
    Job { number: u32, answer: Record },
    /// The record of a batch, after those of its jobs.
    Batch { answer: BatchRecord },
    /// The bytes from `addr` on.
    Show { addr: u64, bytes: Shown },
}
