//! Where a page begins and ends.
ghost use Rattle.std.specs.Prelude.{◌≡◌, ◌+◌, ◌-◌, ◌%◌, ◌<◌};

use crate::PAGE_SIZE;

/// How many bytes of a page there are from an address on.
pub fn rest_of_page(addr: u64) -> usize
    ensures { result ≡ 4096 - addr % 4096 }
{
    PAGE_SIZE - addr as usize % PAGE_SIZE
}

/// How many bytes of a page there are before an address, a whole page at an edge.
pub fn begin_of_page(addr: u64) -> usize
    requires { 0 < addr }
    ensures { result ≡ (addr - 1) % 4096 + 1 }
{
    (addr as usize - 1) % PAGE_SIZE + 1
}
