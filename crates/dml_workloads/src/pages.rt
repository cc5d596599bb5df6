//! Scripts that carry memory in and out as hexadecimal text.

use crate::Size;
use crate::content::content_of;
use crate::digests::Digest;
use crate::random::Random;
use crate::runs::answered;
use crate::texts::{push_bytes, push_field};
use std::alloc::{AllocError, Global};
use std::io;
use std::sync::Wait;
use std::thread::Threads;

/// The pages of a script's image.
const PAGES: u32 = 512;

/// Adds a line that gives bytes.
fn push_page(text: &mut Vec<u8>, name: &[u8], number: u32, bytes: &[u8]) -> Result<(), AllocError> {
    text.extend_from_slice(name)?;
    push_field(text, number)?;
    text.push(b' ')?;
    push_bytes(text, bytes)?;
    text.push(b'\n').map_err(AllocError::from)
}

/// Adds a line of two numbers.
fn push_pair(text: &mut Vec<u8>, name: &[u8], first: u32, second: u32) -> Result<(), AllocError> {
    text.extend_from_slice(name)?;
    push_field(text, first)?;
    push_field(text, second)?;
    text.push(b'\n').map_err(AllocError::from)
}

/// The text of a script: it brings pages with their bytes, writes over some of them, moves some, and shows large ranges.
/// Pages from `given` on are absent.
fn script_of(alloc: Global, random: Random, given: u32, shows: u32) -> Result<Vec<u8>, AllocError> {
    let mut random = random;
    let given = given.min(PAGES);
    let mut text = Vec::with_capacity(alloc, 4 << 20)?;
    text.extend_from_slice(b"image 512\n")?;
    for page in 0..given {
        push_page(&mut text, b"page", page, &content_of(&mut random, page))?;
    }
    for _ in 0..given / 16 {
        let addr = random.below(given.max(1)) * 4096 + random.below(2048);
        let content = content_of(&mut random, 3);
        push_page(&mut text, b"poke", addr, content.get(..1200).unwrap_or(&[]))?;
    }
    for _ in 0..shows {
        let (from, to) = (random.below(PAGES), random.below(PAGES));
        text.extend_from_slice(b"move")?;
        push_field(&mut text, from * 4096)?;
        push_pair(&mut text, b"", to * 4096, 4096)?;
        let addr = random.below(PAGES - 17) * 4096 + random.below(4096);
        let len = if random.one_in(4) { 256 } else { 65_536 };
        push_pair(&mut text, b"show", addr, len)?;
    }
    Ok(text)
}

/// Runs such scripts.
pub(crate) fn pages<T: Threads + Wait + Sync>(
    rt: &T,
    alloc: Global,
    seed: u32,
    size: Size,
) -> io::Result<Digest> {
    let mut digest = Digest::new();
    for round in 0..size.rounds {
        let (given, shows) = if size.small { (2, 2) } else { (440, 130) };
        let text = script_of(alloc, Random::new(seed, round), given, shows)?;
        answered(rt, alloc, text.as_slice(), &mut digest)?;
    }
    Ok(digest)
}
