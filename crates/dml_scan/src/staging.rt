//! Bytes of the image on their way into the staging arena.

ghost use Rattle.std.specs.Prelude.{◌≡◌, ◌+◌, ◌++◌, ◌≤◌, length, IsTrue};
ghost use Rattle.dml_types.specs.Memory.{has_all, bytes_at};
ghost use Rattle.dml_arena.specs.Piece.{SamePlace};

use dml_arena::Region;
use dml_image::Image;

/// Puts the `len` bytes of the image from an address on behind those that a region holds, a page part at a time.
pub fn stage(image: &Image, addr: u64, len: u32, room: &mut Region<'_>)
    requires present { IsTrue (has_all image.now addr len) }
    requires fits { length room.old.bytes + len ≤ room.old.room }
    ensures place { SamePlace room.old room.new }
    ensures bytes { room.new.bytes ≡ room.old.bytes ++ bytes_at image.now addr len }
{
    let mut place = addr;
    let mut left = len;
    while left > 0 {
        let part = image.part(place, left);
        room.push(part);
        place += part.len() as u64;
        left -= part.len() as u32;
    }
}
