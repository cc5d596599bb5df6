//! One line of text: skipped, read, or faulty.

ghost use Rattle.std.specs.Prelude.{◌≡◌, ◌+◌, ◌<◌, [], length, IfOk, IfErr, IfSome, OnOk, Some, None, unwrap_or, true, false};
ghost use Rattle.dml_grammar.specs.Grammar as grammar;
ghost use Rattle.dml_grammar.specs.NumberLines.{has_digits};
ghost use Rattle.dml_grammar.specs.Reads.{Condemns, Fails, FitsAt, FitsFields, FitsJob, HasSizes, IsNext, line_seen, values_seen, fine_or_skipped};
ghost use Rattle.dml_grammar.specs.Table.{word_named};
ghost use Rattle.dml_grammar.specs.Text.{words};

use crate::entries::{Values, fit, read_entries, read_numbers};
use crate::faults::{Kind, ReadError};
use crate::lines::{Bytes, Line};
use crate::progress::Progress;
use crate::table::{MOST_PARTS, Word, parts_of, word_named};
use crate::text::is_text;
use crate::words::{from_word, split_word};
use dml_desc::decode;
use dml_types::{Job, MOST_JOBS, Op};
use std::alloc::Global;
use std::mem;

/// The most bytes of a line.
const LONGEST_LINE: usize = 16_384;

/// Whether a text that begins with a word begins with `#`.
fn is_comment(text: &[u8]) -> bool
    ensures { result ≡ grammar.is_comment text.now }
{
    matches!(text, [b'#', ..])
}

/// Whether a line's numbers are out of range.
fn is_out_of_range(word: Word, values: &Values, progress: &Progress) -> bool
    requires { HasSizes word (values_seen values.now) }
    ensures value { result ≡ grammar.is_out_of_range word (values_seen values.now) progress.now }
    ensures fields { result ≡ false → FitsFields word (values_seen values.now) }
{
    let first = values.number_at(0);
    match word {
        Word::Image => !(1..=4096).contains(&first),
        Word::Page => !progress.has_page(first),
        Word::Poke => !progress.has_bytes(first, values.bytes.len()),
        Word::Job(_) | Word::Raw | Word::Batch | Word::End => false,
        Word::Show => {
            let len = values.number_at(1);
            !(1..=65_536).contains(&len) || u128::from(first) + u128::from(len) > 1 << 64
        }
    }
}

/// A job with the flags of an entry.
fn flagged(job: Job, values: &Values, place: usize) -> Job
    requires { FitsAt (values_seen values.now) place 32 }
    ensures { result ≡ grammar.flagged job (values_seen values.now) place }
{
    job.with_flags(values.size_at(place))
}

/// A job with a check and then flags, from an entry on; both may have been left out.
fn suffixed(job: Job, values: &Values, place: usize) -> Job
    requires few { place < MOST_PARTS }
    requires check { FitsAt (values_seen values.now) place 8 }
    requires flags { FitsAt (values_seen values.now) (place + 1) 32 }
    ensures { result ≡ grammar.suffixed job (values_seen values.now) place }
{
    let job = flagged(job, values, place + 1);
    match values.numbers.get(place) {
        Some(Some(expected)) => job.with_check(*expected as u8),
        _ => job,
    }
}

/// The job of a line whose numbers fit its fields.
fn job_of(op: Op, values: &Values) -> Job
    requires { FitsJob op (values_seen values.now) }
    ensures { result ≡ grammar.job_of op (values_seen values.now) }
{
    let (first, second) = (values.number_at(0), values.number_at(1));
    match op {
        Op::NoOp => flagged(Job::no_op(), values, 0),
        Op::Move => flagged(Job::move_bytes(first, second, values.size_at(2)), values, 3),
        Op::Fill => flagged(Job::fill(first, second, values.size_at(2)), values, 3),
        Op::Compare => suffixed(Job::compare(first, second, values.size_at(2)), values, 3),
        Op::ComparePattern => {
            let job = Job::compare_pattern(first, second, values.size_at(2));
            suffixed(job, values, 3)
        }
        Op::CreateDelta => {
            let (size, most) = (values.size_at(2), values.size_at(4));
            let job = Job::create_delta(first, second, size, values.number_at(3), most);
            suffixed(job, values, 5)
        }
        Op::ApplyDelta => {
            let (delta_size, size) = (values.size_at(1), values.size_at(3));
            let job = Job::apply_delta(first, delta_size, values.number_at(2), size);
            flagged(job, values, 4)
        }
        Op::Dualcast => {
            let (third, size) = (values.number_at(2), values.size_at(3));
            flagged(Job::dualcast(first, second, third, size), values, 4)
        }
    }
}

/// The line of values that fit its fields. It reads them where they lie, since a line of a job wants few of them, and
/// takes the bytes out of them.
pub fn line_of(alloc: Global, word: Word, values: &mut Values) -> Line
    requires { FitsFields word (values_seen values.old) }
    ensures { result ≡ grammar.line_of word (values_seen values.old) }
{
    match word {
        Word::Job(op) => Line::Job(job_of(op, values)),
        Word::Raw => {
            let mut descriptor = [0; 64];
            descriptor.copy_from_slice(&values.bytes);
            Line::Job(decode(&descriptor))
        }
        Word::Batch => Line::Batch,
        Word::End => Line::End,
        Word::Image => Line::Image {
            pages: values.size_at(0),
        },
        Word::Page => Line::Page {
            page: values.size_at(0),
            bytes: bytes_of(alloc, values),
        },
        Word::Poke => Line::Poke {
            addr: values.number_at(0),
            bytes: bytes_of(alloc, values),
        },
        Word::Show => Line::Show {
            addr: values.number_at(0),
            len: values.size_at(1),
        },
    }
}

/// The bytes of values, taken out of them.
fn bytes_of(alloc: Global, values: &mut Values) -> Bytes
    ensures { result ≡ (values_seen values.old).bytes }
{
    Bytes {
        list: mem::replace(&mut values.bytes, Vec::new(alloc)),
    }
}

/// Reads the words after a known first word that may stand here, among which digits may be, to their values.
fn read_digit_words(
    alloc: Global,
    progress: &Progress,
    word: Word,
    rest: &[u8],
    values: &mut Values,
) -> Result<(), ReadError>
    requires image { grammar.is_image word ≡ true → progress.now ≡ [] }
    requires others { grammar.is_image word ≡ false → 0 < length progress.now }
    requires room { grammar.is_job word ≡ true → unwrap_or (grammar.open_jobs progress.now) 0 < grammar.most_jobs }
    ensures fine { OnOk result (grammar.first_of (grammar.rest_faults word (words rest.now) progress.now) ≡ None) }
    ensures line { OnOk result (grammar.accepted (Some word) (words rest.now)
        ≡ grammar.Fine (grammar.line_of word (values_seen values.new))) }
    ensures fits { OnOk result (FitsFields word (values_seen values.new)) }
    ensures next { OnOk result (IsNext progress.now (grammar.line_of word (values_seen values.new))) }
    ensures err { IfErr result (λ e. Fails e (grammar.first_of
        (grammar.rest_faults word (words rest.now) progress.now))) }
{
    let Some(entries) = fit(parts_of(word), rest) else {
        return Err(ReadError::Fault(Kind::WrongWords));
    };
    read_entries(alloc, entries.as_slice(), values)?;
    if is_out_of_range(word, values, progress) {
        return Err(ReadError::Fault(Kind::BadRange));
    }
    Ok(())
}

/// Whether a line with this first word may have hexadecimal digits.
fn has_digits(word: Word) -> bool
    ensures { result ≡ has_digits word }
{
    matches!(word, Word::Page | Word::Poke | Word::Raw)
}

/// Reads the words after a known first word that may stand here, which are all numbers, to their values.
fn read_plain_words(
    progress: &Progress,
    word: Word,
    rest: &[u8],
    values: &mut Values,
) -> Result<(), ReadError>
    requires plain { has_digits word ≡ false }
    requires image { grammar.is_image word ≡ true → progress.now ≡ [] }
    requires others { grammar.is_image word ≡ false → 0 < length progress.now }
    requires room { grammar.is_job word ≡ true → unwrap_or (grammar.open_jobs progress.now) 0 < grammar.most_jobs }
    ensures fine { OnOk result (grammar.first_of (grammar.rest_faults word (words rest.now) progress.now) ≡ None) }
    ensures line { OnOk result (grammar.accepted (Some word) (words rest.now)
        ≡ grammar.Fine (grammar.line_of word (values_seen values.new))) }
    ensures fits { OnOk result (FitsFields word (values_seen values.new)) }
    ensures next { OnOk result (IsNext progress.now (grammar.line_of word (values_seen values.new))) }
    ensures err { IfErr result (λ e. Fails e (grammar.first_of
        (grammar.rest_faults word (words rest.now) progress.now))) }
{
    values.numbers.clear();
    values.bytes.clear();
    if let Some(kind) = read_numbers(parts_of(word), rest, &mut values.numbers) {
        return Err(ReadError::Fault(kind));
    }
    if is_out_of_range(word, values, progress) {
        return Err(ReadError::Fault(Kind::BadRange));
    }
    Ok(())
}

/// Reads the words after a known first word that may stand here to their values.
fn read_words(
    alloc: Global,
    progress: &Progress,
    word: Word,
    rest: &[u8],
    values: &mut Values,
) -> Result<(), ReadError>
    requires image { grammar.is_image word ≡ true → progress.now ≡ [] }
    requires others { grammar.is_image word ≡ false → 0 < length progress.now }
    requires room { grammar.is_job word ≡ true → unwrap_or (grammar.open_jobs progress.now) 0 < grammar.most_jobs }
    ensures fine { OnOk result (grammar.first_of (grammar.rest_faults word (words rest.now) progress.now) ≡ None) }
    ensures line { OnOk result (grammar.accepted (Some word) (words rest.now)
        ≡ grammar.Fine (grammar.line_of word (values_seen values.new))) }
    ensures fits { OnOk result (FitsFields word (values_seen values.new)) }
    ensures next { OnOk result (IsNext progress.now (grammar.line_of word (values_seen values.new))) }
    ensures err { IfErr result (λ e. Fails e (grammar.first_of
        (grammar.rest_faults word (words rest.now) progress.now))) }
{
    if has_digits(word) {
        return read_digit_words(alloc, progress, word, rest, values);
    }
    read_plain_words(progress, word, rest, values)
}

/// Whether a first word may not stand here: the first line is the `image` line, and the only one; and in a batch there
/// are few jobs, and no other lines.
fn misplaced(word: Word, progress: &Progress) -> Option<Kind>
    ensures kind { result ≡ grammar.first_of (grammar.place_faults word progress.now) }
    ensures image { result ≡ None → grammar.is_image word ≡ true → progress.now ≡ [] }
    ensures others { result ≡ None → grammar.is_image word ≡ false → 0 < length progress.now }
    ensures room { result ≡ None → grammar.is_job word ≡ true →
        unwrap_or (grammar.open_jobs progress.now) 0 < grammar.most_jobs }
{
    match (progress.is_empty(), word == Word::Image) {
        (true, false) => Some(Kind::MissingImage),
        (false, true) => Some(Kind::SecondImage),
        _ => misplaced_by_batch(word, progress.open_jobs()),
    }
}

/// Whether a first word may not stand where a batch of so many jobs is open, or none is.
fn misplaced_by_batch(word: Word, jobs: Option<u32>) -> Option<Kind>
    ensures kind { result ≡ grammar.first_of (grammar.batch_faults word jobs) }
    ensures room { result ≡ None → grammar.is_job word ≡ true → unwrap_or jobs 0 < grammar.most_jobs }
{
    match (word, jobs) {
        (Word::Job(_) | Word::Raw, Some(MOST_JOBS..)) => Some(Kind::TooManyJobs),
        (Word::Job(_) | Word::Raw, _) | (Word::End, Some(_)) => None,
        (Word::End, None) => Some(Kind::StrayEnd),
        (_, Some(_)) => Some(Kind::InBatch),
        (_, None) => None,
    }
}

/// Reads a line of text with this first word and what follows it, after the lines read so far: the word that it names,
/// and the values of what follows.
#[tactic(auto, using(crate::proofs::LineLemmas::misplaced_first, crate::proofs::LineLemmas::placed_rest))]
fn read_line(
    alloc: Global,
    progress: &Progress,
    text: &[u8],
    first: &[u8],
    rest: &[u8],
    values: &mut Values,
) -> Result<Word, ReadError>
    ensures fine { let faults = grammar.faults_of text.now first.now (words rest.now) progress.now in
        OnOk result (grammar.first_of faults ≡ None) }
    ensures line { IfOk result (λ word. grammar.accepted (word_named first.now) (words rest.now)
        ≡ grammar.Fine (grammar.line_of word (values_seen values.new))) }
    ensures fits { IfOk result (λ word. FitsFields word (values_seen values.new)) }
    ensures next { IfOk result (λ word. IsNext progress.now (grammar.line_of word (values_seen values.new))) }
    ensures err { let faults = grammar.faults_of text.now first.now (words rest.now) progress.now in
        IfErr result (λ e. Fails e (grammar.first_of faults)) }
{
    if text.len() > LONGEST_LINE {
        return Err(ReadError::Fault(Kind::LongLine));
    }
    if !is_text(text) {
        return Err(ReadError::Fault(Kind::NotAscii));
    }
    let Some(word) = word_named(first) else {
        return Err(ReadError::Fault(Kind::UnknownWord));
    };
    if let Some(kind) = misplaced(word, progress) {
        return Err(ReadError::Fault(kind));
    }
    read_words(alloc, progress, word, rest, values)?;
    Ok(word)
}

/// What a line of text is after the lines read so far: its first word, and what the others write; None where it is
/// skipped.
#[tactic(auto, using(crate::proofs::LineLemmas::comment_skipped, crate::proofs::LineLemmas::judged_words, crate::proofs::WordLemmas::no_words))]
pub fn judge(
    alloc: Global,
    progress: &Progress,
    text: &[u8],
    values: &mut Values,
) -> Result<Option<Word>, ReadError>
    ensures ok { IfOk result (λ word. grammar.verdict text.now progress.now
        ≡ fine_or_skipped (line_seen word values.new)) }
    ensures fits { IfOk result (λ word. IfSome word (λ word. FitsFields word (values_seen values.new))) }
    ensures next { IfOk result (λ word. IfSome word (λ word.
        IsNext progress.now (grammar.line_of word (values_seen values.new)))) }
    ensures err { IfErr result (λ e. Condemns e (grammar.verdict text.now progress.now)) }
{
    let words = from_word(text);
    if words.is_empty() || is_comment(words) {
        return Ok(None);
    }
    let (first, rest) = split_word(words);
    let word = read_line(alloc, progress, text, first, rest, values)?;
    Ok(Some(word))
}
