//! The line of a show, made straight from the pages of the image.

ghost use Rattle.std.specs.Prelude.{◌≡◌, ◌+◌, ◌*◌, ◌^◌, ◌<◌, ◌≤◌, ◌∷◌, ◌++◌, [], length, drop, IfOk};
ghost use Rattle.std.specs.List.{flat_map};
ghost use Rattle.dml_script.specs.Lines.{head_text};
ghost use Rattle.dml_script.specs.Output.{show_line, shown_text};
ghost use Rattle.dml_script.specs.Run.{IsInPage, shown_bytes};

use crate::digits::{put_bytes, put_number, put_text};
use dml_image::{Image, PAGE_SIZE};
use std::alloc::{AllocError, Global};

/// Room for the longest part of a show's line that is before its bytes.
const HEAD_ROOM: usize = 32;

/// The line of a show, with its line feed. Room for all of it is taken at once.
pub fn shown_line(alloc: Global, image: &Image, addr: u64, len: u32) -> Result<Vec<u8>, AllocError>
    requires { addr + len ≤ 2 ^ 64 }
    ensures { IfOk result (λ line. line.items ≡ show_line addr (shown_bytes image.now addr len)) }
{
    let mut head = [0; HEAD_ROOM];
    let at = put_head(&mut head, addr);
    let head = &head[at..];
    let size = head.len() + 2 * len as usize + 1;
    let mut line = Vec::with_capacity(alloc, size)?;
    line.resize(size, 0)?;
    put_line(line.as_mut_slice(), head, image, addr, len as usize);
    Ok(line)
}

/// Puts a head, what a range shows, and a line feed.
fn put_line(line: &mut [u8], head: &[u8], image: &Image, addr: u64, len: usize)
    requires inside { addr + len ≤ 2 ^ 64 }
    requires room { length line.old ≡ length head.now + 2 * len + 1 }
    ensures { line.new ≡ head.now ++ flat_map shown_text (shown_bytes image.now addr len) ++ 10 ∷ [] }
{
    let end = head.len() + 2 * len;
    line[..head.len()].copy_from_slice(head);
    put_range(&mut line[head.len()..end], image, addr, len);
    line[end] = b'\n';
}

/// Puts the part of a show's line that is before its bytes at the end of a buffer, and answers where it begins.
fn put_head(head: &mut [u8; HEAD_ROOM], addr: u64) -> usize
    ensures within { result ≤ HEAD_ROOM }
    ensures written { drop result head.new ≡ head_text addr }
{
    let at = put_text(head, HEAD_ROOM, b" ");
    let at = put_number(head, at, addr);
    put_text(head, at, b"show ")
}

/// Puts what a range shows, page by page.
fn put_range(text: &mut [u8], image: &Image, addr: u64, len: usize)
    requires inside { addr + len ≤ 2 ^ 64 }
    requires room { length text.old ≡ 2 * len }
    ensures { text.new ≡ flat_map shown_text (shown_bytes image.now addr len) }
{
    let mut done = 0;
    while done < len {
        let (at, count) = next_part(addr, len, done);
        put_part(&mut text[2 * done..2 * (done + count)], image, at, count);
        done += count;
    }
}

/// The part of a range behind its first `done` bytes that is in one page: where it begins, and its length.
fn next_part(addr: u64, len: usize, done: usize) -> (u64, usize)
    requires inside { addr + len ≤ 2 ^ 64 }
    requires left { done < len }
    ensures place { result.0 ≡ addr + done }
    ensures in_page { IsInPage result.0 result.1 }
    ensures some { 0 < result.1 }
    ensures within { done + result.1 ≤ len }
{
    let at = addr + done as u64;
    (at, (len - done).min(PAGE_SIZE - at as usize % PAGE_SIZE))
}

/// Puts what a range in one page shows.
#[tactic(auto, using(crate::proofs::ShowLemmas::present_text, crate::proofs::ShowLemmas::absent_text))]
fn put_part(text: &mut [u8], image: &Image, addr: u64, len: usize)
    requires in_page { IsInPage addr len }
    requires room { length text.old ≡ 2 * len }
    ensures { text.new ≡ flat_map shown_text (shown_bytes image.now addr len) }
{
    if image.has(addr) {
        put_bytes(text, image.part(addr, len as u32));
    } else {
        text.fill(b'-');
    }
}
