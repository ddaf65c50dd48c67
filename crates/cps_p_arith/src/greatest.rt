//! When no value is the greatest of others.
ghost use Rattle.std.specs.Prelude.{◌≡◌, ◌↔◌, ◌<ℤ◌, ℤ, false, List, All, Any, IsTrue};
ghost use Rattle.cps_model.specs.Arithmetic.{IsGreatest};
ghost use Rattle.cps_p_arith.specs.Ranges.{IsIn, AreIn, IsAt, AreAt};
ghost use Rattle.cps_p_arith.specs.Maxima.{MayReach};

use crate::ends::Ends;

/// Whether some of the values is always greater than the target.
fn some_passes(target: Ends, members: &[Ends]) -> bool
    ensures { IsTrue result ↔ Any (λ e. target.high <ℤ e.low) members.now }
{
    members.iter().any(|each| target.high < each.low)
}

/// Whether all the values are always less than the target.
fn all_fall_short(target: Ends, members: &[Ends]) -> bool
    ensures { IsTrue result ↔ All (λ e. e.high <ℤ target.low) members.now }
{
    members.iter().all(|each| each.high < target.low)
}

/// Whether no value of the target is the greatest of values of the members. Where all are fixed it says which.
pub(crate) fn excludes_greatest(target: Ends, members: &[Ends]) -> bool
    ensures sound { IsTrue result → (v : ℤ) (ns : List ℤ) → IsIn target v → AreIn members.now ns → IsGreatest v ns → ⊥ }
    ensures exact { result ≡ false → (v : ℤ) (ns : List ℤ) → IsAt target v → AreAt members.now ns → IsGreatest v ns }
    ensures possible { result ≡ false → MayReach target members.now }
{
    some_passes(target, members) || all_fall_short(target, members)
}
