ghost use Rattle.std.specs.Prelude.{◌≡◌, ◌<◌, [], ◌∷◌, ◌++◌, OnOk, length, slice_index};

use std::alloc::AllocError;
use std::marker::Model;

/// Links between the places of a list, and behind them the places of a wave: one list of numbers has both, so that
/// memory is asked for once.
#[derive(Drop)]
pub struct Room {
    numbers: Vec<u32>,
    links: usize,
}

impl Model for Room {
    ghost use Rattle.std.specs.Prelude.{◌≤◌, drop, length, take};
    ghost use Rattle.dml_levels.specs.Rooms.{Parts};

    ghost Value = { Parts };

    ghost view = { λ room. record {
      links = take room.links room.numbers.items;
      wave = drop room.links room.numbers.items;
    } };

    ghost invariant = { λ room. room.links ≤ length room.numbers.items };
}

impl Room {
    /// These links, and no place of a wave.
    pub fn behind(links: Vec<u32>) -> Room
        ensures links { result.links ≡ links.items }
        ensures wave { result.wave ≡ [] }
    {
        Room {
            links: links.len(),
            numbers: links,
        }
    }

    /// The link at a place.
    pub fn link(&self, place: usize) -> u32
        requires { place < length self.now.links }
        ensures { result ≡ slice_index self.now.links place }
    {
        self.numbers[place]
    }

    /// The places of the wave.
    pub fn wave(&self) -> &[u32]
        ensures { result.now ≡ self.now.wave }
    {
        &self.numbers.as_slice()[self.links..]
    }

    /// Appends a place to the wave.
    pub fn push(&mut self, place: u32) -> Result<(), AllocError>
        ensures links { OnOk result (self.new.links ≡ self.old.links) }
        ensures wave { OnOk result (self.new.wave ≡ self.old.wave ++ place ∷ []) }
    {
        self.numbers.push(place)?;
        Ok(())
    }

    /// Leaves no place of a wave.
    pub fn clear(&mut self)
        ensures links { self.new.links ≡ self.old.links }
        ensures wave { self.new.wave ≡ [] }
    {
        self.numbers.truncate(self.links);
    }
}
