//! The commit of a wave's effects.
ghost use Rattle.std.specs.Prelude.{◌≡◌, ◌<◌, length, fold, IsTrue};
ghost use Rattle.std.specs.List.{All};
ghost use Rattle.dml_effect.specs.Effects.{are_present};
ghost use Rattle.dml_levels.specs.Laws.{begun};
ghost use Rattle.dml_wave.specs.Effects.{committed};

use crate::effects::JobEffect;
use dml_effect::commit;
use dml_image::Image;
use dml_types::Record;

/// Commits effects one after another, and writes each record at its job's place.
pub(crate) fn commit_all(image: &mut Image, effects: Vec<JobEffect<'_>>, records: &mut [Record])
    requires places { All (λ done. done.place < length records.old) effects.items }
    requires present { All (λ done. IsTrue (are_present image.old done.effect.puts)) effects.items }
    ensures done { begun image.new records.new ≡ fold committed (begun image.old records.old) effects.entry.items }
    ensures count { length records.new ≡ length records.old }
{
    for JobEffect { place, effect } in effects {
        records[place as usize] = commit(image, effect);
    }
}
