//! Regions of the caller's memory, in tables as C has them.
ghost use Rattle.std.specs.Prelude.{◌≡◌, ◌↔◌, ◌*◌, ◌^◌, ◌<◌, ◌≤◌, ◌⊎◌, [], None, IfSome, IsTrue, length, map, vec_capacity};
ghost use Rattle.dml_types.specs.Memory.{is_in_segments};
ghost use Rattle.dml_image.specs.Pieces.{piece_of, pieces_of, places_of};
ghost use Rattle.dml_c.specs.Regions as table;

use crate::codes::{
    BAD_ADDRESS, BAD_LENGTH, DONE, NO_REGIONS, NOT_RISING, REGION_PAST, TOO_MANY_REGIONS,
};
use crate::room::Room;
use dml_image::{Image, MAX_WHOLE_PAGES, PAGE_SIZE, Segment};
use std::alloc::Global;

/// The most regions of a table, for which an engine has room.
pub const MOST_REGIONS: usize = 64;

/// The bytes of a page, and the most that the address behind a region may be.
const PAGE: u64 = PAGE_SIZE as u64;

const MOST_END: u64 = MAX_WHOLE_PAGES as u64 * PAGE;

/// A region of the caller's memory; `struct kazovuni_region` of C.
#[repr(C)]
#[derive(Drop)]
pub struct CRegion<'a> {
    pub address: u64,
    pub bytes: &'a mut [u8],
}

impl<'a> CRegion<'a> {
    /// Its bytes as a segment; until they are put back, none are left here.
    fn lend(&mut self) -> Segment<'a>
        requires { self.old.address < 2 ^ 44 }
        ensures piece { piece_of result ≡ table.piece_of_region self.old }
        ensures address { self.new.address ≡ self.old.address }
    {
        let first = (self.address / PAGE) as u32;
        Segment::new(first, std::mem::take(&mut self.bytes))
    }

    /// Takes the bytes of a segment back that begins at its address.
    fn put(&mut self, segment: Segment<'a>)
        requires { self.old.address ≡ 4096 * segment.first }
        ensures piece { table.piece_of_region self.new ≡ piece_of segment.entry }
        ensures address { self.new.address ≡ self.old.address }
    {
        let mut segment = segment;
        self.bytes = segment.take();
    }

    /// The code of the first rule that it breaks where the regions before it end at an address, or 0.
    fn fault(&self, end: u64) -> u8
        ensures fault { result ≡ table.region_fault end self.now }
        ensures codes { (result ≡ 0) ⊎ ((14 ≤ result) × (result ≤ 17)) }
    {
        let len = self.bytes.len() as u64;
        if len == 0 || len % PAGE != 0 {
            return BAD_LENGTH;
        }
        if self.address % PAGE != 0 {
            return BAD_ADDRESS;
        }
        if self.address > MOST_END || len > MOST_END - self.address {
            return REGION_PAST;
        }
        if self.address < end {
            return NOT_RISING;
        }
        DONE
    }
}

/// The code of what is wrong with a table, or 0.
pub fn judged(regions: &[CRegion<'_>]) -> u8
    ensures fault { result ≡ table.table_fault regions.now }
    ensures codes { (result ≡ 0) ⊎ ((12 ≤ result) × (result ≤ 17)) }
{
    if regions.is_empty() {
        return NO_REGIONS;
    }
    if regions.len() > MOST_REGIONS {
        return TOO_MANY_REGIONS;
    }
    if are_sound(regions) {
        return DONE;
    }
    let mut end = 0;
    for region in regions {
        let code = region.fault(end);
        if code != DONE {
            return code;
        }
        end = region.address + region.bytes.len() as u64;
    }
    DONE
}

/// Whether no region breaks a rule, by fewer tests than tell which one does: each rises and has bytes, all begin and end
/// at pages, and the last ends within the most.
fn are_sound(regions: &[CRegion<'_>]) -> bool
    ensures sound { IsTrue result ↔ table.first_fault 0 regions.now ≡ 0 }
{
    let mut end = 0;
    let mut bits = 0;
    for region in regions {
        let next = region.address.wrapping_add(region.bytes.len() as u64);
        if region.address < end || next <= region.address {
            return false;
        }
        bits |= region.address | next;
        end = next;
    }
    bits % PAGE == 0 && end <= MOST_END
}

/// A sound table as an image, over a list in an engine's room; `None` where there is no memory for it. Until the image
/// is put back, the regions have no bytes.
pub fn lend<'a>(alloc: Global, room: &mut Room, regions: &mut [CRegion<'a>]) -> Option<Image<'a>>
    requires { table.table_fault regions.old ≡ 0 }
    ensures image { IfSome result (λ image. image ≡ table.memory_of_regions regions.old) }
    ensures as_many { length regions.new ≡ length regions.old }
    ensures addresses { table.addresses_of regions.new ≡ table.addresses_of regions.old }
    ensures unchanged { result ≡ None → regions.new ≡ regions.old }
{
    let Ok(mut list) = room.take(alloc, regions.len()) else {
        return None;
    };
    take_out(regions, &mut list);
    Some(Image::over_segments(list))
}

/// Puts the segments of an image back into the table that they were taken out of, and the list into the room.
pub fn settle<'a>(room: &mut Room, regions: &mut [CRegion<'a>], image: Image<'a>)
    requires segments { IsTrue (is_in_segments image) }
    requires as_many { length (places_of image.loan) ≡ length regions.old }
    requires addresses { table.addresses_of regions.old ≡ map (λ p. 4096 * p.first) (places_of image.loan) }
    ensures memory { table.memory_of_regions regions.new ≡ image.entry }
    ensures addresses { table.addresses_of regions.new ≡ table.addresses_of regions.old }
{
    let mut list = image.into_segments();
    put_back(regions, &mut list);
    room.keep(list);
}

/// Takes the bytes of a sound table's regions into an empty list with room for them.
fn take_out<'a>(regions: &mut [CRegion<'a>], list: &mut Vec<Segment<'a>>)
    requires sound { table.first_fault 0 regions.old ≡ 0 }
    requires empty { list.old.items ≡ [] }
    requires room { length regions.old ≤ vec_capacity list.old }
    ensures taken { pieces_of list.new.items ≡ table.pieces_of_regions regions.old }
    ensures as_many { length regions.new ≡ length regions.old }
    ensures addresses { table.addresses_of regions.new ≡ table.addresses_of regions.old }
{
    for k in 0..regions.len() {
        let segment = regions[k].lend();
        list.push_reserved(segment);
    }
}

/// Puts the segments of a list into the regions of a table that they were taken out of.
fn put_back<'a>(regions: &mut [CRegion<'a>], list: &mut Vec<Segment<'a>>)
    requires as_many { length list.old.items ≡ length regions.old }
    requires addresses { table.addresses_of regions.old ≡ map (λ p. 4096 * p.first) (pieces_of list.old.items) }
    ensures given { table.pieces_of_regions regions.new ≡ pieces_of list.old.items }
    ensures addresses { table.addresses_of regions.new ≡ table.addresses_of regions.old }
{
    let mut k = regions.len();
    while k > 0 {
        k -= 1;
        match list.pop() {
            Some(segment) => regions[k].put(segment),
            None => unreachable!(),
        }
    }
}
