//! Assumptions that a claim may rest on.
ghost use Rattle.std.specs.Prelude.{◌≡◌, ◌↔◌, IsTrue, IsSomeAnd, slice_get};
ghost use Rattle.cps_cert.specs.Accepting.{MayAssume};

use crate::claim::Claim;

/// Whether a claim may rest on a literal: one of infeasibility only on those that it lists.
fn may_assume(claim: &Claim, literal: i32) -> bool
    ensures { IsTrue result ↔ MayAssume claim.now literal }
{
    match claim {
        Claim::Optimal(_) => true,
        Claim::Infeasible(literals) => literals.as_slice().contains(&literal),
    }
}

/// Whether the assumption with this number is one that a claim may rest on.
pub(crate) fn is_assumed(assumptions: &[i32], number: u32, claim: &Claim) -> bool
    ensures { IsTrue result ↔ IsSomeAnd (slice_get assumptions.now number) (MayAssume claim.now) }
{
    match assumptions.get(number as usize) {
        Some(literal) => may_assume(claim, *literal),
        None => false,
    }
}
