ghost use Rattle.std.specs.Prelude.{◌≡◌, ◌∷◌, [], ◌↔◌, IfOk, IsTrue, OnErr};
ghost use Rattle.dml_segments.specs.Pieces.{AreSegments, piece_of, pieces_memory, place_at, segment_bytes};
ghost use Rattle.dml_image.specs.Two.{has_two_segments, pieces_of_two};

use crate::images::Image;
use crate::{MAX_WHOLE_PAGES, PAGE_SIZE};
use dml_segments::Segment;
use std::alloc::{AllocError, Global};

/// Two segments of a caller's memory that are lent to an image together.
///
/// `take` lends them as an image, and `put` takes the image back; afterwards the caller's bytes are those of the image,
/// in the same slices.
#[derive(Drop)]
pub struct Two<'a> {
    low: Segment<'a>,
    high: Segment<'a>,
}

impl<'a> Two<'a> {
    /// The segments to be lent, the lower one first.
    pub fn new(low: Segment<'a>, high: Segment<'a>) -> Two<'a>
        ensures { pieces_of_two result ≡ piece_of low.entry ∷ piece_of high.entry ∷ [] }
    {
        Two { low, high }
    }

    /// Whether they may be taken: whole pages, the higher segment behind the lower one, and 1 to 2^32 - 1 pages up to
    /// its end.
    #[tactic(auto, using(dml_segments::proofs::PieceLemmas::two_are, dml_segments::proofs::PieceLemmas::two_is))]
    pub fn is_memory(&self) -> bool
        ensures { IsTrue result ↔ AreSegments (pieces_of_two self.now) }
    {
        let (low, high) = (self.low.bytes().len(), self.high.bytes().len());
        let behind_low = u64::from(self.low.first()) + (low / PAGE_SIZE) as u64;
        let begin = u64::from(self.high.first());
        let end = begin + (high / PAGE_SIZE) as u64;
        low % PAGE_SIZE == 0
            && high % PAGE_SIZE == 0
            && behind_low <= begin
            && end >= 1
            && end <= u64::from(MAX_WHOLE_PAGES)
    }

    /// The two as an image; until it is put back, nothing is left here.
    ///
    /// # Errors
    /// There is no memory for a list of the two; then they stay as they were.
    pub fn take(&mut self, alloc: Global) -> Result<Image<'a>, AllocError>
        requires { AreSegments (pieces_of_two self.old) }
        ensures ok { IfOk result (λ image. image ≡ pieces_memory (pieces_of_two self.old)) }
        ensures err { OnErr result (pieces_of_two self.new ≡ pieces_of_two self.old) }
    {
        let Ok(mut list) = Vec::with_capacity(alloc, 2) else {
            return Err(AllocError);
        };
        let first = self.low.first();
        let content = self.low.take();
        list.push_reserved(Segment::new(first, content));
        let first = self.high.first();
        let content = self.high.take();
        list.push_reserved(Segment::new(first, content));
        Ok(Image::over_segments(list))
    }

    /// Takes an image over two segments back.
    pub fn put(&mut self, image: Image<'a>)
        requires { IsTrue (has_two_segments image) }
        ensures segments { AreSegments (pieces_of_two self.new) }
        ensures memory { pieces_memory (pieces_of_two self.new) ≡ image.entry }
        ensures low { self.new.low.content.now ≡ segment_bytes image.entry 0 }
        ensures high { self.new.high.content.now ≡ segment_bytes image.entry 1 }
        ensures same_low { self.new.low.content.ghost_name ≡ (place_at image.entry 0).name }
        ensures same_high { self.new.high.content.ghost_name ≡ (place_at image.entry 1).name }
    {
        let mut list = image.into_segments();
        match list.pop() {
            Some(high) => self.high = high,
            None => unreachable!(),
        }
        match list.pop() {
            Some(low) => self.low = low,
            None => unreachable!(),
        }
    }
}
