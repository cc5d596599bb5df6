ghost use Rattle.std.specs.Prelude.{◌≡◌};
ghost use Rattle.dml_types.specs.Conflict as word;

use crate::touching::touches;
use dml_desc::Checked;

/// Whether two jobs conflict: a range that one of them writes shares a byte with a range that the other touches.
#[tactic(auto, using(crate::proofs::TouchedLemmas::any_shares_some))]
pub fn conflict(a: &Checked, b: &Checked) -> bool
    ensures { result ≡ word.conflict a.now b.now }
{
    touches(a).conflict_with(&touches(b))
}
