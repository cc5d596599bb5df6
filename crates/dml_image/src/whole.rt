ghost use Rattle.std.specs.Prelude.{◌≡◌, ◌*◌, ◌%◌, ◌≤◌, ◌↔◌, IsTrue};
ghost use Rattle.dml_types.specs.Memory.{InOnePiece, IsMemory, is_in_one_piece};
ghost use Rattle.dml_image.specs.Kept.{whole_memory};

use crate::images::{Image, Pages};
use crate::lent::Lent;
use crate::{MAX_WHOLE_PAGES, PAGE_SIZE};

/// The most pages.
const MOST: usize = MAX_WHOLE_PAGES as usize;

/// Whether so many bytes are 1 to 2^32 - 1 whole pages.
pub fn are_whole(len: usize) -> bool
    ensures { IsTrue result ↔ ((len % 4096 ≡ 0) × (4096 ≤ len) × (len ≤ 4294967295 * 4096)) }
{
    len % PAGE_SIZE == 0 && len >= PAGE_SIZE && len <= MOST * PAGE_SIZE
}

/// Memory of the caller's that is lent to an image in one piece: 1 to 2^32 - 1 whole pages, all present.
///
/// `take` lends it as an image, and `put` takes the image back; afterwards the caller's bytes are those of the image.
#[derive(Drop)]
pub struct Whole<'a> {
    content: &'a mut [u8],
}

impl<'a> Whole<'a> {
    /// The memory to be lent: the bytes of all pages.
    pub fn new(content: &'a mut [u8]) -> Whole<'a>
        ensures content { result.content.now ≡ content.old }
        ensures same_reference { result.content.ghost_name ≡ content.entry.ghost_name }
    {
        Whole { content }
    }

    /// Whether it may be taken: 1 to 2^32 - 1 whole pages.
    #[tactic(auto, using(crate::proofs::LentLemmas::piece_kept, crate::proofs::LentLemmas::piece_is))]
    pub fn is_memory(&self) -> bool
        ensures { IsTrue result ↔ IsMemory (whole_memory self.now) }
    {
        are_whole(self.content.len())
    }

    /// The memory as an image; until it is put back, nothing is left here.
    pub fn take(&mut self) -> Image<'a>
        requires { IsMemory (whole_memory self.old) }
        ensures { result ≡ whole_memory self.old }
    {
        Image::over(Lent::new(&[], std::mem::take(&mut self.content)))
    }

    /// Takes an image over memory that was lent in one piece back.
    pub fn put(&mut self, image: Image<'a>)
        requires { IsTrue (is_in_one_piece image) }
        ensures content { self.new.content.now ≡ image.entry.bytes }
        ensures same_reference { InOnePiece self.new.content.ghost_name ≡ image.entry.loan }
    {
        match image.into_pages() {
            Pages::Lent(lent) => self.content = lent.content,
            Pages::Own(_) => unreachable!(),
            Pages::Segments(_) => unreachable!(),
        }
    }
}
