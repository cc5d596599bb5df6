//! The lines of records, in a buffer that needs no memory.

ghost use Rattle.std.specs.Prelude.{◌≡◌, ◌≤◌, drop};
ghost use Rattle.dml_script.specs.Lines.{effects_text};
ghost use Rattle.dml_script.specs.Output.{batch_line, job_line};

use crate::digits::{put_byte, put_number, put_text};
use dml_types::{BatchRecord, Record};

/// Room for the longest line of a record, each of its numbers counted as one of 64 bits.
pub const RECORD_ROOM: usize = 160;

/// Puts the line of a job's record at the end of a buffer, and answers where it begins.
pub fn put_record(line: &mut [u8; RECORD_ROOM], number: u32, answer: &Record) -> usize
    ensures within { result ≤ RECORD_ROOM }
    ensures written { drop result line.new ≡ job_line number answer.now }
{
    let end = put_effects(line, answer);
    let at = put_byte(line, end, answer.status.code());
    let at = put_text(line, at, b" status ");
    let at = put_number(line, at, number as u64);
    put_text(line, at, b"job ")
}

/// Puts the part of a record's line that is behind its status.
#[inline(always)]
fn put_effects(line: &mut [u8; RECORD_ROOM], answer: &Record) -> usize
    ensures room { 40 ≤ result }
    ensures within { result ≤ RECORD_ROOM }
    ensures written { drop result line.new ≡ effects_text answer.now }
{
    let at = put_text(line, RECORD_ROOM, b"\n");
    let at = put_number(line, at, answer.delta_size as u64);
    let at = put_text(line, at, b" delta ");
    let at = put_number(line, at, answer.fault);
    let at = put_text(line, at, b" fault ");
    let at = put_number(line, at, answer.completed as u64);
    let at = put_text(line, at, b" completed ");
    let at = put_number(line, at, answer.result as u64);
    put_text(line, at, b" result ")
}

/// Puts the line of a batch's record at the end of a buffer, and answers where it begins.
pub fn put_batch(line: &mut [u8; RECORD_ROOM], answer: &BatchRecord) -> usize
    ensures within { result ≤ RECORD_ROOM }
    ensures written { drop result line.new ≡ batch_line answer.now }
{
    let at = put_text(line, RECORD_ROOM, b"\n");
    let at = put_number(line, at, answer.completed as u64);
    let at = put_text(line, at, b" completed ");
    let at = put_byte(line, at, answer.status.code());
    put_text(line, at, b"batch status ")
}
