//! A script's lines carried out on an engine: successive jobs in lists, batches whole, other lines one by one.

ghost use Rattle.std.specs.Prelude.{◌≡◌, ◌≢◌, ◌<◌, ◌≤◌, ◌∷◌, false, true, length, Err, None, IfOk, IsErrOf, OnOk, OnErr};
ghost use Rattle.dml_image.specs.Brought.{brought, padded};
ghost use Rattle.dml_script.specs.Run.{added_text, after_line, answer_of, item_of, lines_from, outside};
ghost use Rattle.dml_script.specs.Runnable.{Fits, IsAlone, MayCome};
ghost use Rattle.dml_script.specs.Watching.{has_failed, WritesFront, WritesUpTo};

use crate::lists::{MOST_JOBS, answer_batch, answer_jobs, gather};
use crate::shows::shown_line;
use crate::watching::Watched;
use crate::writing::{AnswerError, write_all};
use dml_engine::Engine;
use dml_grammar::{Line, ScriptLines};
use dml_image::PAGE_SIZE;
use dml_types::{Job, Record};
use std::alloc::{AllocError, Global};
use std::io::Write;
use std::marker::Model;
use std::sync::Wait;
use std::thread::Threads;

/// The engine of a script's run, and the number of jobs so far. A batch is carried out whole, so none is ever open.
#[derive(Drop)]
pub struct Session {
    engine: Engine,
    jobs: u32,
    /// The list of jobs that is gathered, and the records of the last one; both lists keep their room.
    list: Vec<Job>,
    records: Vec<Record>,
}

impl Model for Session {
    ghost use Rattle.dml_script.specs.Run.{Running, outside};

    ghost Value = { Running };

    ghost view = { λ s. record { session = outside s.engine.image s.jobs; staging = s.engine.settings.staging } };
}

impl Session {
    pub fn new(alloc: Global, engine: Engine) -> Session
        ensures session { result.session ≡ outside engine.entry.image 0 }
        ensures staging { result.staging ≡ engine.entry.settings.staging }
    {
        Session {
            engine,
            jobs: 0,
            list: Vec::new(alloc),
            records: Vec::new(alloc),
        }
    }

    /// Answers a line that is not the first: a job line with the job lines behind it, as many as go in one list, and
    /// the first line of a batch with the whole batch. Answers the line behind these, which is read ahead.
    pub fn answer_line<T: Threads + Wait + Sync, W: Write>(
        &mut self,
        rt: &T,
        alloc: Global,
        line: Line,
        lines: &mut ScriptLines<'_>,
        writer: &mut Watched<W>,
    ) -> Result<Option<Line>, AnswerError>
        requires lines { MayCome self.old (line ∷ lines.old) }
        requires writer { has_failed writer.old ≡ false }
        ensures lines { IfOk result (λ ahead. MayCome self.new (lines_from ahead lines.new)) }
        ensures fewer { IfOk result (λ ahead. length (lines_from ahead lines.new) ≤ length lines.old) }
        ensures written { IfOk result (λ ahead. WritesUpTo W.contents writer.old writer.new
            (answer_of self.new (lines_from ahead lines.new)) (answer_of self.old (line ∷ lines.old))) }
        ensures passed { result ≢ Err AnswerError.Write → has_failed writer.new ≡ false }
        ensures front { OnErr result (WritesFront W.contents writer.old writer.new
            (answer_of self.old (line ∷ lines.old))) }
        ensures failed { IsErrOf result AnswerError.Write → has_failed writer.new ≡ true }
    {
        match line {
            Line::Job(job) => self.answer_list(rt, alloc, job, lines, writer),
            Line::Batch => self.answer_batch(rt, alloc, lines, writer),
            line => self.answer_alone(alloc, &line, lines, writer),
        }
    }

    /// Answers a job line and those behind it.
    fn answer_list<T: Threads + Wait + Sync, W: Write>(
        &mut self,
        rt: &T,
        alloc: Global,
        first: Job,
        lines: &mut ScriptLines<'_>,
        writer: &mut Watched<W>,
    ) -> Result<Option<Line>, AnswerError>
        requires lines { MayCome self.old (Line.Job first ∷ lines.old) }
        requires writer { has_failed writer.old ≡ false }
        ensures lines { IfOk result (λ ahead. MayCome self.new (lines_from ahead lines.new)) }
        ensures fewer { IfOk result (λ ahead. length (lines_from ahead lines.new) ≤ length lines.old) }
        ensures written { IfOk result (λ ahead. WritesUpTo W.contents writer.old writer.new
            (answer_of self.new (lines_from ahead lines.new)) (answer_of self.old (Line.Job first ∷ lines.old))) }
        ensures passed { result ≢ Err AnswerError.Write → has_failed writer.new ≡ false }
        ensures front { OnErr result (WritesFront W.contents writer.old writer.new
            (answer_of self.old (Line.Job first ∷ lines.old))) }
        ensures failed { IsErrOf result AnswerError.Write → has_failed writer.new ≡ true }
    {
        self.list.clear();
        self.list.reserve(MOST_JOBS)?;
        self.list.push_reserved(first);
        let ahead = gather(alloc, lines, &mut self.list)?;
        let (jobs, records) = (&self.list, &mut self.records);
        answer_jobs(
            rt,
            alloc,
            &mut self.engine,
            self.jobs,
            jobs,
            records,
            writer,
        )?;
        self.jobs += self.list.len() as u32;
        Ok(ahead)
    }

    /// Answers the lines of a batch, up to its end.
    fn answer_batch<T: Threads + Wait + Sync, W: Write>(
        &mut self,
        rt: &T,
        alloc: Global,
        lines: &mut ScriptLines<'_>,
        writer: &mut Watched<W>,
    ) -> Result<Option<Line>, AnswerError>
        requires lines { MayCome self.old (Line.Batch ∷ lines.old) }
        requires writer { has_failed writer.old ≡ false }
        ensures lines { IfOk result (λ ahead. MayCome self.new (lines_from ahead lines.new)) }
        ensures fewer { IfOk result (λ ahead. length (lines_from ahead lines.new) ≤ length lines.old) }
        ensures written { IfOk result (λ ahead. WritesUpTo W.contents writer.old writer.new
            (answer_of self.new (lines_from ahead lines.new)) (answer_of self.old (Line.Batch ∷ lines.old))) }
        ensures passed { result ≢ Err AnswerError.Write → has_failed writer.new ≡ false }
        ensures front { OnErr result (WritesFront W.contents writer.old writer.new
            (answer_of self.old (Line.Batch ∷ lines.old))) }
        ensures failed { IsErrOf result AnswerError.Write → has_failed writer.new ≡ true }
    {
        self.list.clear();
        self.list.reserve(MOST_JOBS)?;
        let _end = gather(alloc, lines, &mut self.list)?;
        answer_batch(rt, alloc, &mut self.engine, self.jobs, &self.list, writer)?;
        self.jobs += self.list.len() as u32;
        Ok(lines.next_line(alloc)?)
    }

    /// Answers a line that is neither a job's nor a batch's.
    fn answer_alone<W: Write>(
        &mut self,
        alloc: Global,
        line: &Line,
        lines: &mut ScriptLines<'_>,
        writer: &mut Watched<W>,
    ) -> Result<Option<Line>, AnswerError>
        requires alone { IsAlone line.now }
        requires lines { MayCome self.old (line.now ∷ lines.old) }
        requires writer { has_failed writer.old ≡ false }
        ensures lines { IfOk result (λ ahead. MayCome self.new (lines_from ahead lines.new)) }
        ensures fewer { IfOk result (λ ahead. length (lines_from ahead lines.new) ≤ length lines.old) }
        ensures written { IfOk result (λ ahead. WritesUpTo W.contents writer.old writer.new
            (answer_of self.new (lines_from ahead lines.new)) (answer_of self.old (line.now ∷ lines.old))) }
        ensures passed { result ≢ Err AnswerError.Write → has_failed writer.new ≡ false }
        ensures front { OnErr result (WritesFront W.contents writer.old writer.new
            (answer_of self.old (line.now ∷ lines.old))) }
        ensures failed { IsErrOf result AnswerError.Write → has_failed writer.new ≡ true }
    {
        let text = self.take(alloc, line)?;
        write_all(writer, &text)?;
        drop(text);
        Ok(lines.next_line(alloc)?)
    }

    /// Takes a line that is neither the first nor a job's nor a batch's, and answers the text that it adds. Where
    /// memory is refused, all is as it was.
    fn take(&mut self, alloc: Global, line: &Line) -> Result<Vec<u8>, AllocError>
        requires alone { IsAlone line.now }
        requires outside { self.old.session.batch ≡ None }
        requires fits { Fits self.old.session line.now }
        ensures text { IfOk result (λ text. text.items
            ≡ added_text (item_of self.old.staging self.old.session line.now)) }
        ensures after { IfOk result (λ _. self.new.session ≡ after_line self.old.staging self.old.session line.now) }
        ensures staging { self.new.staging ≡ self.old.staging }
        ensures unchanged { OnErr result (self.new.session ≡ self.old.session) }
    {
        match line {
            Line::Page { page, bytes } => self.bring(*page, &bytes.list)?,
            Line::Poke { addr, bytes } => self.engine.write(*addr, &bytes.list),
            Line::Show { addr, len } => {
                return shown_line(alloc, self.engine.image(), *addr, *len);
            }
            Line::Image { .. } | Line::Job(_) | Line::Batch | Line::End => unreachable!(),
        }
        Ok(Vec::new(alloc))
    }

    /// Brings a page: these bytes, and then zeros.
    fn bring(&mut self, page: u32, bytes: &[u8]) -> Result<(), AllocError>
        requires inside { page < length self.old.session.memory.present }
        requires short { length bytes.now ≤ PAGE_SIZE }
        ensures memory { OnOk result (self.new.session
            ≡ record self.old.session { memory = brought self.old.session.memory page (padded bytes.now) }) }
        ensures staging { self.new.staging ≡ self.old.staging }
        ensures unchanged { OnErr result (self.new.session ≡ self.old.session) }
    {
        self.engine
            .bring(page, &page_content(bytes))
            .map_err(|_| AllocError)
    }
}

/// A page of these bytes, and then zeros.
fn page_content(bytes: &[u8]) -> [u8; PAGE_SIZE]
    requires { length bytes.now ≤ PAGE_SIZE }
    ensures { result ≡ padded bytes.now }
{
    let mut content = [0; PAGE_SIZE];
    content[..bytes.len()].copy_from_slice(bytes);
    content
}
