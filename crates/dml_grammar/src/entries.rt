//! The words of a line, fitted to the parts that its first word has, and what they write.

ghost use Rattle.std.specs.Prelude.{◌≡◌, ◌<◌, ◌≤◌, ◌∷◌, ◌++◌, [], length, IfErr, IfSome, OnOk, Some, None, true, false};
ghost use Rattle.std.specs.Option.{option_map};
ghost use Rattle.dml_grammar.specs.Grammar as grammar;
ghost use Rattle.dml_grammar.specs.NumberLines.{is_number, are_numbers, entries_fault, entries_numbers, Takes};
ghost use Rattle.dml_grammar.specs.Reads.{word_seen, entries_seen, values_seen, slot_faults, Fails};
ghost use Rattle.dml_grammar.specs.Text.{words};

use crate::faults::{Kind, ReadError};
use crate::leading::next_number;
use crate::numbers::{at_most, bounded_number, word_bytes};
use crate::table::{MOST_PARTS, Part, Slot, name_of};
use crate::words::next_word;
use arrayvec::ArrayVec;
use std::alloc::{AllocError, Global};

/// What a part of a line is, and the word that stands there, if any.
pub type Entry<'a> = (Slot, Option<&'a [u8]>);

/// What a part is.
fn slot_of(part: Part) -> Slot
    ensures { result ≡ grammar.slot_of part }
{
    match part {
        Part::One(slot) | Part::Maybe(slot) | Part::Named(_, slot) => slot,
    }
}

/// The word that has to come next, and what follows it.
#[inline(always)]
fn word_after(line: &[u8]) -> Option<(Option<&[u8]>, &[u8])>
    ensures { option_map (λ t. (word_seen t.0, words t.1.now)) result ≡ grammar.word_after (words line.now) }
{
    let (word, rest) = next_word(line)?;
    Some((Some(word), rest))
}

/// What a part takes of a line's words, and what follows; None where its word is missing.
#[inline(always)]
fn taken(part: Part, line: &[u8]) -> Option<(Option<&[u8]>, &[u8])>
    ensures { option_map (λ t. (word_seen t.0, words t.1.now)) result ≡ grammar.taken part (words line.now) }
{
    let Some((word, rest)) = next_word(line) else {
        return match part {
            Part::One(_) => None,
            Part::Maybe(_) | Part::Named(..) => Some((None, line)),
        };
    };
    match part {
        Part::One(_) | Part::Maybe(_) => Some((Some(word), rest)),
        Part::Named(suffix, _) if word == name_of(suffix) => word_after(rest),
        Part::Named(..) => Some((None, line)),
    }
}

/// The words of a line, fitted to its parts; None where a word is missing or left over.
pub fn fit<'a>(parts: &[Part], line: &'a [u8]) -> Option<ArrayVec<Entry<'a>, MOST_PARTS>>
    requires { length parts.now ≤ MOST_PARTS }
    ensures { option_map (λ v. entries_seen v.items) result ≡ grammar.fitted parts.now (words line.now) }
{
    let mut entries = ArrayVec::new();
    let mut rest = line;
    for part in parts {
        let (word, after) = taken(*part, rest)?;
        entries.push((slot_of(*part), word));
        rest = after;
    }
    match next_word(rest) {
        Some(_) => None,
        None => Some(entries),
    }
}

/// What the words of a line write: the number of each entry, and the bytes of the hexadecimal one.
#[derive(Drop)]
pub struct Values {
    pub numbers: ArrayVec<Option<u64>, MOST_PARTS>,
    pub bytes: Vec<u8>,
}

impl Values {
    ghost use Rattle.std.specs.Prelude.{◌≡◌, []};
    ghost use Rattle.dml_grammar.specs.Grammar as grammar;
    ghost use Rattle.dml_grammar.specs.Reads.{FitsAt, values_seen};

    /// No value yet.
    pub fn new(alloc: Global) -> Values
        ensures numbers { result.numbers.items ≡ [] }
        ensures bytes { result.bytes.items ≡ [] }
    {
        Values {
            numbers: ArrayVec::new(),
            bytes: Vec::new(alloc),
        }
    }

    /// The number of an entry, or 0 where its word was left out.
    pub fn number_at(&self, place: usize) -> u64
        ensures { result ≡ grammar.number_at (values_seen self.now) place }
    {
        match self.numbers.get(place) {
            Some(Some(number)) => *number,
            _ => 0,
        }
    }

    /// The number of an entry that fits a field of 32 bits.
    pub fn size_at(&self, place: usize) -> u32
        requires { FitsAt (values_seen self.now) place 32 }
        ensures { result ≡ grammar.number_at (values_seen self.now) place }
    {
        self.number_at(place) as u32
    }
}

/// Adds what a word writes, as its slot says: a number, or bytes.
fn read_word(alloc: Global, slot: Slot, word: &[u8], values: &mut Values) -> Result<(), ReadError>
    requires { length values.old.numbers.items < MOST_PARTS }
    ensures number { OnOk result (values.new.numbers.items
        ≡ values.old.numbers.items ++ grammar.slot_number slot (Some word.now) ∷ []) }
    ensures bytes { OnOk result (values.new.bytes.items
        ≡ values.old.bytes.items ++ grammar.slot_bytes slot (Some word.now)) }
    ensures fine { OnOk result ((grammar.slot_fault slot (Some word.now)).0 ≡ false) }
    ensures err { IfErr result (λ e. Fails e (grammar.first_of (grammar.slot_fault slot (Some word.now) ∷ []))) }
{
    match slot {
        Slot::Number(largest) => {
            let Some(number) = bounded_number(largest, word) else {
                return Err(ReadError::Fault(Kind::BadNumber));
            };
            values.numbers.push(Some(number));
        }
        Slot::Digits(least, most) => {
            let Some(bytes) = word_bytes(alloc, least, most, word)? else {
                return Err(ReadError::Fault(Kind::BadHex));
            };
            values.numbers.push(None);
            join(&mut values.bytes, bytes)?;
        }
    }
    Ok(())
}

/// Adds more bytes.
fn join(bytes: &mut Vec<u8>, more: Vec<u8>) -> Result<(), AllocError>
    ensures { OnOk result (bytes.new.items ≡ bytes.old.items ++ more.items) }
{
    if bytes.is_empty() {
        *bytes = more;
        return Ok(());
    }
    bytes.extend_from_slice(more.as_slice())
}

/// Reads what the words of a line write, in place of the values before. After an error the values are of no line.
pub fn read_entries(alloc: Global, entries: &[Entry], values: &mut Values) -> Result<(), ReadError>
    requires { length entries.now ≤ MOST_PARTS }
    ensures values { OnOk result (values_seen values.new ≡ grammar.values_of (entries_seen entries.now)) }
    ensures fine { OnOk result (grammar.first_of (slot_faults entries.now) ≡ None) }
    ensures err { IfErr result (λ e. Fails e (grammar.first_of (slot_faults entries.now))) }
{
    values.numbers.clear();
    values.bytes.clear();
    for (slot, word) in entries {
        match *word {
            None => values.numbers.push(None),
            Some(word) => read_word(alloc, *slot, word, values)?,
        }
    }
    Ok(())
}

/// The largest number of a part that is one.
fn largest_of(part: Part) -> u64
    requires { is_number (grammar.slot_of part) ≡ true }
    ensures { grammar.slot_of part ≡ Slot.Number result }
{
    match slot_of(part) {
        Slot::Number(largest) => largest,
        Slot::Digits(..) => unreachable!(),
    }
}

/// The number that a part's word writes, if one stands there, and whether it is a fault.
fn read_number(part: Part, word: Option<&[u8]>) -> (Option<u64>, bool)
    requires { is_number (grammar.slot_of part) ≡ true }
    ensures number { result.0 ≡ grammar.slot_number (grammar.slot_of part) (word_seen word.entry) }
    ensures fault { grammar.slot_fault (grammar.slot_of part) (word_seen word.entry) ≡ (result.1, Kind.BadNumber) }
{
    let Some(word) = word else {
        return (None, false);
    };
    let number = bounded_number(largest_of(part), word);
    (number, number.is_none())
}

/// What a part that is a number takes of a line: the number of its word, if one stands there, whether it is a fault,
/// and what follows; None where its word is missing.
#[inline(never)]
fn read_any_part<'a>(part: &Part, line: &'a [u8]) -> Option<(Option<u64>, bool, &'a [u8])>
    requires { is_number (grammar.slot_of part.now) ≡ true }
    ensures none { result ≡ None → grammar.taken part.now (words line.now) ≡ None }
    ensures some { IfSome result (λ r. Takes part.now (words line.now) r.0 r.1 (words r.2.now)) }
{
    let (word, rest) = taken(*part, line)?;
    let (number, is_fault) = read_number(*part, word);
    Some((number, is_fault, rest))
}

/// The same, where most words are read and cut off in one pass: a short number, or no suffix at the end of a line.
#[inline(always)]
fn read_part<'a>(part: &Part, line: &'a [u8]) -> Option<(Option<u64>, bool, &'a [u8])>
    requires { is_number (grammar.slot_of part.now) ≡ true }
    ensures none { result ≡ None → grammar.taken part.now (words line.now) ≡ None }
    ensures some { IfSome result (λ r. Takes part.now (words line.now) r.0 r.1 (words r.2.now)) }
{
    if let Part::Named(..) = *part
        && line.is_empty()
    {
        return Some((None, false, line));
    }
    if let Part::One(Slot::Number(largest)) = *part
        && let Some((number, rest)) = next_number(line)
    {
        let number = at_most(largest, Some(number));
        return Some((number, number.is_none(), rest));
    }
    read_any_part(part, line)
}

/// Reads the words of a line whose parts are all numbers, in one pass and without a list of its entries: the number of
/// each part, or the line's first fault.
#[inline(never)]
pub fn read_numbers(
    parts: &[Part],
    line: &[u8],
    numbers: &mut ArrayVec<Option<u64>, MOST_PARTS>,
) -> Option<Kind>
    requires few { length parts.now ≤ MOST_PARTS }
    requires plain { are_numbers parts.now ≡ true }
    requires empty { numbers.old.items ≡ [] }
    ensures fault { result ≡ entries_fault (grammar.fitted parts.now (words line.now)) }
    ensures numbers { result ≡ None
        → Some numbers.new.items ≡ entries_numbers (grammar.fitted parts.now (words line.now)) }
{
    let mut rest = line;
    let mut is_bad = false;
    for part in parts {
        let Some((number, is_fault, after)) = read_part(part, rest) else {
            return Some(Kind::WrongWords);
        };
        numbers.push(number);
        is_bad = is_bad || is_fault;
        rest = after;
    }
    match next_word(rest) {
        Some(_) => Some(Kind::WrongWords),
        None if is_bad => Some(Kind::BadNumber),
        None => None,
    }
}
