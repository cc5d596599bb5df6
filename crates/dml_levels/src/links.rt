ghost use Rattle.std.specs.Prelude.{◌≡◌, ◌^◌, ◌<◌, ◌≤◌, IfOk, length};
ghost use Rattle.dml_order.specs.Waves.{depth};
ghost use Rattle.dml_levels.specs.Links.{AreLinked};

use std::alloc::{AllocError, Global};

/// For each place of a list the next one of its level, and behind these for each level its first one; the length of
/// the list where there is none. There is room for all places once more.
pub fn link_places(
    alloc: Global,
    levels: &[u32],
    level_count: usize,
) -> Result<Vec<u32>, AllocError>
    requires few { length levels.now < 2 ^ 32 }
    requires level_count { level_count ≡ depth levels.now }
    requires dense { level_count ≤ length levels.now }
    ensures { IfOk result (λ links. AreLinked levels.now links.items 0) }
{
    let places = levels.len();
    let mut links = Vec::with_capacity(alloc, 2 * places + level_count)?;
    links.resize(places + level_count, places as u32)?;
    let mut place = places;
    while place > 0 {
        place -= 1;
        let first = places + levels[place] as usize;
        links[place] = links[first];
        links[first] = place as u32;
    }
    Ok(links)
}
