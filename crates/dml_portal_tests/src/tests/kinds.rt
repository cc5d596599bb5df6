//! The kinds of memory that an image is of: a page of its own, or what a caller lends.

use super::lent::expect_left;
use super::page_of_zeros;
use super::segments::memory;
use dml_image::{Image, Lent, Whole};
use std::alloc::Global;
use std::process::Abort;

/// Pages of an image's own, or memory that is lent with marks, in one piece or in segments.
#[derive(Clone, Copy, Debug)]
pub(super) enum Kind {
    Own,
    Marked,
    OnePiece,
    Segments,
}

/// Two pages, of which the first is present.
fn marked<'a>(rt: &impl Abort, content: &'a mut [u8]) -> Image<'a> {
    let mut lent = Lent::new(&[true, false], content);
    assert!(rt; lent.is_memory());
    lent.take()
}

/// The first page, behind which there is none.
fn in_one_piece<'a>(rt: &impl Abort, content: &'a mut [u8]) -> Image<'a> {
    let (front, _) = content.split_at_mut_checked(4096).expect(rt, "few bytes");
    let mut whole = Whole::new(front);
    assert!(rt; whole.is_memory());
    whole.take()
}

/// Both pages, with a hole of two between them.
fn in_segments<'a>(rt: &impl Abort, alloc: Global, content: &'a mut [u8]) -> Image<'a> {
    let (front, back) = content.split_at_mut_checked(4096).expect(rt, "few bytes");
    memory(rt, alloc, (0, front), (3, back))
}

impl Kind {
    /// All of them.
    pub(super) const ALL: [Kind; 4] = [Kind::Own, Kind::Marked, Kind::OnePiece, Kind::Segments];

    /// Those that a caller lends.
    pub(super) const LENT: [Kind; 3] = [Kind::Marked, Kind::OnePiece, Kind::Segments];

    /// An image whose first page is present, all of it 0, and whose second one is not: a page of its own, or two pages
    /// of zeros that are lent.
    pub(super) fn image<'a>(
        self,
        rt: &impl Abort,
        alloc: Global,
        content: &'a mut [u8],
    ) -> Image<'a> {
        match self {
            Kind::Own => page_of_zeros(alloc).expect(rt, "no memory"),
            Kind::Marked => marked(rt, content),
            Kind::OnePiece => in_one_piece(rt, content),
            Kind::Segments => in_segments(rt, alloc, content),
        }
    }

    /// Where the two pages were lent they begin with these bytes, and all others are 0.
    pub(super) fn expect_left(self, rt: &impl Abort, content: &[u8], left: &[u8]) {
        match self {
            Kind::Own => expect_left(rt, content, &[]),
            Kind::Marked | Kind::OnePiece | Kind::Segments => expect_left(rt, content, left),
        }
    }
}
