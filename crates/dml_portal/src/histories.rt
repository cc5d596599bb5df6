//! The law of a portal's histories.
ghost use Rattle.dml_portal.specs.History.{Begins, GoesOn, RoundsAreOneFold};

use dml_types::law_of_folds;

/// What became of an image since a portal was opened over it: each round, each write and each page that is brought adds
/// an event; where there are rounds alone, image and answers are the fold over the whole log.
pub fn law_of_histories()
    ensures begins { Begins }
    ensures goes_on { GoesOn }
    ensures one_fold { RoundsAreOneFold }
{
    law_of_folds();
}
