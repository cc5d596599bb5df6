//! Segments that stand in a caller's slice: taken out for an image, and put back.
ghost use Rattle.std.specs.Prelude.{◌≡◌, ◌≤◌, [], length, vec_capacity, EachIndex};
ghost use Rattle.dml_segments.specs.Pieces.{IsTakenOut, piece_at, pieces_of};

use crate::segments::Segment;

/// Takes the bytes of segments that stand in a slice into an empty list with room for them. Until the list is put back,
/// the segments of the slice have no bytes.
pub fn take_out<'a>(segments: &mut [Segment<'a>], list: &mut Vec<Segment<'a>>)
    requires empty { list.old.items ≡ [] }
    requires room { length segments.old ≤ vec_capacity list.old }
    ensures taken { pieces_of list.new.items ≡ pieces_of segments.old }
    ensures as_many { length segments.new ≡ length segments.old }
    ensures left { EachIndex segments.new (λ k.
        IsTakenOut (piece_at (pieces_of segments.new) k) (piece_at (pieces_of segments.old) k)) }
{
    for k in 0..segments.len() {
        let first = segments[k].first();
        let content = segments[k].take();
        list.push_reserved(Segment::new(first, content));
    }
}

/// Puts segments back into the slice that they were taken out of.
pub fn put_back<'a>(segments: &mut [Segment<'a>], list: Vec<Segment<'a>>)
    requires { length list.items ≡ length segments.old }
    ensures { pieces_of segments.new ≡ pieces_of list.entry.items }
{
    let mut list = list;
    let mut k = segments.len();
    while k > 0 {
        k -= 1;
        match list.pop() {
            Some(segment) => segments[k] = segment,
            None => unreachable!(),
        }
    }
}
