//! Lists and batches of a script's jobs: they are gathered from their lines, carried out, and answered.

ghost use Rattle.std.specs.Prelude.{◌≡◌, ◌≢◌, ◌+◌, ◌^◌, ◌<◌, ◌≤◌, ◌++◌, false, true, length, map, vec_capacity, vec_len, Err, IfOk, IsErrOf, OnOk, OnErr};
ghost use Rattle.dml_types.specs.Step.{batch, memory_after, records_of};
ghost use Rattle.dml_grammar.specs.Grammar.{most_jobs};
ghost use Rattle.dml_script.specs.AnswerLaws.{batch_text, job_lines};
ghost use Rattle.dml_script.specs.Run.{IsJobLine, lines_from};
ghost use Rattle.dml_script.specs.Watching.{has_failed, Writes, WritesFront};

use crate::watching::Watched;
use crate::writing::{AnswerError, write_batch, write_records};
use dml_engine::Engine;
use dml_grammar::{Line, ScriptLines};
use dml_types::{Job, Record};
use std::alloc::{AllocError, Global};
use std::io::Write;
use std::sync::Wait;
use std::thread::Threads;

/// The most jobs of a list or a batch.
pub const MOST_JOBS: usize = dml_types::MOST_JOBS as usize;

/// Adds the jobs of job lines to a list that has room for them, until another line comes or the list has 1,024 jobs.
/// Answers the line behind them, which is read ahead.
#[tactic(auto, using(crate::proofs::ListLemmas::next_lines, crate::proofs::ListLemmas::gathered_more))]
pub fn gather(
    alloc: Global,
    lines: &mut ScriptLines<'_>,
    list: &mut Vec<Job>,
) -> Result<Option<Line>, AllocError>
    requires few { vec_len list.old ≤ most_jobs }
    requires room { most_jobs ≤ vec_capacity list.old }
    ensures lines { IfOk result (λ ahead. map Line.Job list.old.items ++ lines.old
        ≡ map Line.Job list.new.items ++ lines_from ahead lines.new) }
    ensures longer { vec_len list.old ≤ vec_len list.new }
    ensures few { vec_len list.new ≤ most_jobs }
    ensures all { IfOk result (λ ahead. IsJobLine ahead → vec_len list.new ≡ most_jobs) }
{
    while list.len() < MOST_JOBS {
        match lines.next_line(alloc)? {
            Some(Line::Job(job)) => list.push_reserved(job),
            ahead => return Ok(ahead),
        }
    }
    lines.next_line(alloc)
}

/// Carries out a list of jobs, and writes the lines of their records, numbered from a number on.
pub fn answer_jobs<T: Threads + Wait + Sync, W: Write>(
    rt: &T,
    alloc: Global,
    engine: &mut Engine,
    number: u32,
    jobs: &[Job],
    records: &mut Vec<Record>,
    writer: &mut Watched<W>,
) -> Result<(), AnswerError>
    requires few { length jobs.now ≤ most_jobs }
    requires counted { number + length jobs.now < 2 ^ 32 }
    requires writer { has_failed writer.old ≡ false }
    ensures image { OnOk result (engine.new.image
        ≡ memory_after engine.old.image jobs.now engine.old.settings.staging) }
    ensures settings { engine.new.settings ≡ engine.old.settings }
    ensures ok { OnOk result (Writes W.contents writer.old writer.new
        (job_lines number (records_of engine.old.image jobs.now engine.old.settings.staging))) }
    ensures passed { result ≢ Err AnswerError.Write → has_failed writer.new ≡ false }
    ensures front { OnErr result (WritesFront W.contents writer.old writer.new
        (job_lines number (records_of engine.old.image jobs.now engine.old.settings.staging))) }
    ensures failed { IsErrOf result AnswerError.Write → has_failed writer.new ≡ true }
{
    records.clear();
    records.reserve(jobs.len())?;
    engine.submit_into(rt, alloc, jobs, records);
    write_records(number, records, writer)
}

/// Carries out a batch, and writes the lines of its jobs' records, numbered from a number on, and its own.
pub fn answer_batch<T: Threads + Wait + Sync, W: Write>(
    rt: &T,
    alloc: Global,
    engine: &mut Engine,
    number: u32,
    jobs: &[Job],
    writer: &mut Watched<W>,
) -> Result<(), AnswerError>
    requires few { length jobs.now ≤ most_jobs }
    requires counted { number + length jobs.now < 2 ^ 32 }
    requires writer { has_failed writer.old ≡ false }
    ensures image { OnOk result (engine.new.image ≡ (batch engine.old.image jobs.now engine.old.settings.staging).0) }
    ensures settings { engine.new.settings ≡ engine.old.settings }
    ensures ok { OnOk result (Writes W.contents writer.old writer.new
        (batch_text number (batch engine.old.image jobs.now engine.old.settings.staging))) }
    ensures passed { result ≢ Err AnswerError.Write → has_failed writer.new ≡ false }
    ensures front { OnErr result (WritesFront W.contents writer.old writer.new
        (batch_text number (batch engine.old.image jobs.now engine.old.settings.staging))) }
    ensures failed { IsErrOf result AnswerError.Write → has_failed writer.new ≡ true }
{
    let (answer, records) = engine.submit_batch(rt, alloc, jobs)?;
    write_records(number, &records, writer)?;
    write_batch(&answer, writer)
}
