//! Room for lists of segments, which an engine keeps from call to call.
ghost use Rattle.std.specs.Prelude.{◌≡◌, ◌≤◌, [], IfOk, vec_capacity};

use crate::parts::Parts;
use dml_image::Segment;
use std::alloc::{AllocError, Global};

/// The block of a list of segments. It is taken for a call and kept for the next one, so that no call asks for memory.
#[derive(Drop)]
pub struct Room {
    list: Option<Box<Vec<Segment<'static>>>>,
}

impl Room {
    /// Room for so many segments.
    ///
    /// # Errors
    /// There is no memory.
    pub fn new(alloc: Global, segments: usize) -> Result<Room, AllocError> {
        let Ok(list) = Vec::with_capacity(alloc, segments) else {
            return Err(AllocError);
        };
        match Box::new(alloc, list) {
            Ok(list) => Ok(Room { list: Some(list) }),
            Err(_) => Err(AllocError),
        }
    }

    /// An empty list with room for so many segments.
    ///
    /// # Errors
    /// There is less room than that, and no memory for more.
    pub fn take<'a>(
        &mut self,
        alloc: Global,
        segments: usize,
    ) -> Result<Vec<Segment<'a>>, AllocError>
        ensures empty { IfOk result (λ list. list.items ≡ []) }
        ensures room { IfOk result (λ list. segments ≤ vec_capacity list) }
    {
        let mut list = shortened(self.lasting_list(alloc));
        list.clear();
        match list.reserve(segments) {
            Ok(()) => Ok(list),
            Err(AllocError) => Err(AllocError),
        }
    }

    /// The list, out of its box.
    fn lasting_list(&mut self, alloc: Global) -> Vec<Segment<'static>> {
        match &mut self.list {
            Some(kept) => std::mem::replace(&mut **kept, Vec::new(alloc)),
            None => Vec::new(alloc),
        }
    }

    /// Takes the block of a list back; what stands in the list is let go.
    pub fn keep(&mut self, list: Vec<Segment<'_>>) {
        let mut list = list;
        list.clear();
        if let Some(kept) = self.list.take() {
            self.list = Some(settled(kept, list));
        }
    }
}

/// The same list, for segments that end.
fn shortened<'a>(list: Vec<Segment<'static>>) -> Vec<Segment<'a>> {
    list
}

/// The box with the block of an empty list.
fn settled<'a>(
    kept: Box<Vec<Segment<'static>>>,
    list: Vec<Segment<'a>>,
) -> Box<Vec<Segment<'static>>>
    requires { list.items ≡ [] }
{
    let mut kept = kept;
    kept.clear();
    let mut home: Box<Vec<Segment<'a>>> = aged(Parts::of(kept)).into_box();
    *home = list;
    aged(Parts::of(home)).into_box()
}

/// An empty list in a box, for segments of another lifetime: it has none that ends.
fn aged<'a, 'b>(parts: Parts<Vec<Segment<'a>>, Global>) -> Parts<Vec<Segment<'b>>, Global>
    requires { parts.value.items ≡ [] }
    ensures { (result.value.items ≡ []) × (vec_capacity result.value ≡ vec_capacity parts.entry.value) }
{
    let Parts { at, alloc } = parts;
    let at = at as *mut Vec<Segment<'b>>;
    Parts { at, alloc }
}
