//! Effects, and their commit.
ghost use Rattle.std.specs.Prelude.{◌≡◌, IsTrue};
ghost use Rattle.dml_types.specs.Memory.{puts_made};
ghost use Rattle.dml_effect.specs.Effects.{are_present, puts_of};

use crate::records::by_fields;
use dml_arena::Region;
use dml_image::Image;
use dml_types::Record;
use std::marker::Model;

/// What a job does: its completion record, and the bytes that it puts.
///
/// Staged bytes stand in the region that they were staged into.
#[derive(Drop)]
pub struct Effect<'a> {
    pub(crate) answer: Record,
    pub(crate) puts: Puts<'a>,
}

/// Bytes to be put.
#[derive(Drop)]
pub(crate) enum Puts<'a> {
    Nothing,
    /// Staged bytes, from one address on, or from two.
    Staged {
        first: u64,
        second: Option<u64>,
        bytes: Region<'a>,
    },
    /// The 8 bytes of a pattern, low byte first, repeated over `len` bytes.
    Pattern {
        addr: u64,
        len: u32,
        pattern: u64,
    },
    /// The 8 bytes of each staged entry of a delta record, at the block from `target` on that it numbers.
    Entries {
        target: u64,
        entries: Region<'a>,
    },
}

impl<'a> Model for Effect<'a> {
    ghost use Rattle.dml_types.specs.Effect.{Effect};

    ghost Value = { Effect };

    ghost use Rattle.dml_effect.specs.Effects.{effect_view};

    ghost view = { effect_view };
}

impl<'a> Effect<'a> {
    /// The completion record.
    pub fn answer(&self) -> &Record
        ensures { result.now ≡ self.now.answer }
    {
        &self.answer
    }
}

/// Makes the puts of an effect, and returns its completion record.
pub fn commit(image: &mut Image, effect: Effect<'_>) -> Record
    requires present { IsTrue (are_present image.old effect.puts) }
    ensures image { image.new ≡ puts_made image.old effect.entry.puts }
    ensures answer { result ≡ effect.entry.answer }
{
    let Effect { answer, puts } = effect;
    match puts {
        Puts::Nothing => {}
        Puts::Staged {
            first,
            second,
            bytes,
        } => {
            image.write(first, bytes.bytes());
            if let Some(second) = second {
                image.write(second, bytes.bytes());
            }
        }
        Puts::Pattern { addr, len, pattern } => image.fill(addr, len, pattern),
        Puts::Entries { target, entries } => image.put_blocks(target, entries.bytes()),
    }
    by_fields(answer)
}
