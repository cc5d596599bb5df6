//! What the lines read so far say of the image's pages and of the batch that is open.

ghost use Rattle.std.specs.Prelude.{◌≡◌, ◌≤◌, unwrap_or};
ghost use Rattle.dml_grammar.specs.Grammar as grammar;

use crate::entries::Values;
use crate::table::Word;
use std::alloc::{AllocError, Global};
use std::marker::Model;

/// The image's pages after the lines read so far, present or absent, none before the `image` line; and the number of
/// jobs of the batch that is open, if one is. Contracts see the shortest lines that make this image and open this
/// batch, which answer each later line as those that were read.
#[derive(Drop)]
pub struct Progress {
    present: Vec<bool>,
    jobs: Option<u32>,
}

impl Model for Progress {
    ghost use Rattle.std.specs.Prelude.{◌≤◌, List, length};
    ghost use Rattle.dml_grammar.specs.declared.lines.Line.{Line};
    ghost use Rattle.dml_grammar.specs.Pages.{MayBeOpen, progress_lines};

    ghost Value = { List Line };

    ghost view = { λ progress. progress_lines progress.present.items progress.jobs };

    ghost invariant = { λ progress. (length progress.present.items ≤ 4096)
        × MayBeOpen progress.present.items progress.jobs };
}

impl Progress {
    ghost use Rattle.std.specs.Prelude.{◌≡◌, ◌≤◌, ◌∷◌, ◌++◌, [], length, nat_eq, nat_lt, OnOk, OnErr};
    ghost use Rattle.dml_grammar.specs.Grammar as grammar;
    ghost use Rattle.dml_grammar.specs.Pages.{Alike};
    ghost use Rattle.dml_grammar.specs.Reads.{IsNext, values_seen};

    /// No line yet.
    pub fn new(alloc: Global) -> Progress
        ensures { result ≡ [] }
    {
        Progress {
            present: Vec::new(alloc),
            jobs: None,
        }
    }

    /// Whether no line was read yet.
    #[tactic(auto, using(crate::proofs::PageLemmas::no_progress))]
    pub fn is_empty(&self) -> bool
        ensures { result ≡ nat_eq (length self.now) 0 }
    {
        self.present.is_empty()
    }

    /// Whether the image has a page of this number.
    #[tactic(auto, using(crate::proofs::PageLemmas::progress_pages))]
    pub fn has_page(&self, page: u64) -> bool
        ensures value { result ≡ nat_lt page (grammar.pages_of self.now) }
        ensures few { grammar.pages_of self.now ≤ 4096 }
    {
        page < self.present.len() as u64
    }

    /// Whether a page is present.
    #[tactic(auto, using(crate::proofs::PageLemmas::progress_present))]
    fn is_present(&self, page: u64) -> bool
        ensures { result ≡ grammar.is_present self.now page }
    {
        self.present.get(page as usize).copied().unwrap_or(false)
    }

    /// Whether all of `len` bytes from an address on are present.
    #[tactic(auto, using(crate::proofs::PresenceLemmas::bytes_of_two_pages))]
    pub fn has_bytes(&self, addr: u64, len: usize) -> bool
        requires { len ≤ 4096 }
        ensures { result ≡ grammar.has_bytes self.now addr len }
    {
        if len == 0 {
            return true;
        }
        let last = addr / 4096 + (addr % 4096 + (len as u64 - 1)) / 4096;
        self.is_present(addr / 4096) && self.is_present(last)
    }

    /// The number of jobs of the batch that is open, if one is.
    #[tactic(auto, using(crate::proofs::PageLemmas::progress_open))]
    pub fn open_jobs(&self) -> Option<u32>
        ensures { result ≡ grammar.open_jobs self.now }
    {
        self.jobs
    }

    /// Takes note of a line that may come next, by its first word and its values.
    #[tactic(auto, using(crate::proofs::PageLemmas::noted_same, crate::proofs::PageLemmas::open_behind))]
    pub fn note(&mut self, alloc: Global, word: Word, values: &Values) -> Result<(), AllocError>
        requires { IsNext self.old (grammar.line_of word (values_seen values.now)) }
        ensures noted { OnOk result (Alike self.new
            (self.old ++ grammar.line_of word (values_seen values.now) ∷ [])) }
        ensures unchanged { OnErr result (self.new ≡ self.old) }
    {
        let jobs = open_after(self.jobs, word);
        match word {
            Word::Image => {
                self.present = vec![in alloc; false; values.number_at(0) as usize]?;
                self.jobs = jobs;
            }
            Word::Page => {
                self.present[values.number_at(0) as usize] = true;
                self.jobs = jobs;
            }
            Word::Poke | Word::Job(_) | Word::Raw | Word::Batch | Word::End | Word::Show => {
                self.jobs = jobs;
            }
        }
        Ok(())
    }
}

/// The number of jobs of the open batch, if one is, behind another line with this first word.
fn open_after(jobs: Option<u32>, word: Word) -> Option<u32>
    requires { unwrap_or jobs 0 ≤ grammar.most_jobs }
    ensures { (values : grammar.Values) → result ≡ grammar.open_after jobs (grammar.line_of word values) }
{
    match word {
        Word::Batch => Some(0),
        Word::End => None,
        Word::Job(_) | Word::Raw => jobs.map(|jobs| jobs + 1),
        _ => jobs,
    }
}
