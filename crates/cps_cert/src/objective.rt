//! What the objective's domain and its bound say of a box.
ghost use Rattle.std.specs.Prelude.{◌≡◌, ◌↔◌, ◌&&◌, ◌≤ℤ◌, ℤ, true, IsTrue, length, pos};
ghost use Rattle.cps_model.specs.Within.{is_allowed};
ghost use Rattle.cps_log.specs.Boxes.{NoneBetween, IsSumOutside};
ghost use Rattle.cps_cert.specs.Accepting.{is_at_issue, IsObjectiveRefuted};
ghost use Rattle.cps_rup.specs.Domains.{box_in};
ghost use Rattle.cps_subjects.specs.Domains.{IsSmallSum};
ghost use Rattle.cps_cert.specs.Domains.{IsSmallObjective, IsNearClaim};

use crate::claim::Claim;
use crate::intervals::none_between;
use cps_domain::Domain;
use cps_model::Objective;
use cps_subjects::sum_ends;

/// Whether no number from `low` to `high` is one that the bounds allow, where no bounds allow every number.
fn none_allowed(bounds: &[i64], low: i64, high: i64) -> bool
    ensures { IsTrue result ↔ NoneBetween low high (is_allowed bounds.now) }
{
    if bounds.is_empty() {
        high < low
    } else {
        none_between(bounds, low, high)
    }
}

/// Whether a claim leaves it open that the objective is `value`.
fn is_at_issue(claim: &Claim, value: i64) -> bool
    ensures { result ≡ is_at_issue claim.now value }
{
    match claim {
        Claim::Optimal(optimum) => value < *optimum,
        Claim::Infeasible(_) => true,
    }
}

/// The greatest objective up to `high` that a claim leaves open.
fn greatest_at_issue(claim: &Claim, high: i64) -> i64
    requires { IsNearClaim claim.now }
    ensures below { (x : ℤ) → x ≤ℤ result → (x ≤ℤ high) × (is_at_issue claim.now x ≡ true) }
    ensures above { (x : ℤ) → x ≤ℤ high → is_at_issue claim.now x ≡ true → x ≤ℤ result }
{
    match claim {
        Claim::Optimal(optimum) => high.min(*optimum - 1),
        Claim::Infeasible(_) => high,
    }
}

/// Whether over the domains no objective is between its ends that its domain allows and the claim leaves open.
fn is_objective_outside(domains: &[Domain], objective: &Objective, claim: &Claim) -> bool
    requires small { IsSmallSum (box_in domains.now) (length domains.now) objective.now.vars objective.now.coeffs }
    requires near { IsNearClaim claim.now }
    ensures { IsTrue result ↔ IsSumOutside (box_in domains.now) objective.now.vars objective.now.coeffs
        (λ x. is_allowed objective.now.domain x && is_at_issue claim.now x) }
{
    let ends = sum_ends(
        domains,
        objective.vars.as_slice(),
        objective.coeffs.as_slice(),
    );
    let high = greatest_at_issue(claim, ends.high);
    none_allowed(objective.domain.as_slice(), ends.low, high)
}

/// Whether the objective refutes what the domains leave. Without an objective the value is 0.
pub(crate) fn is_objective_refuted(
    domains: &[Domain],
    objective: &Option<Objective>,
    claim: &Claim,
) -> bool
    requires small { IsSmallObjective (box_in domains.now) (length domains.now) objective.now }
    requires near { IsNearClaim claim.now }
    ensures { IsTrue result ↔ IsObjectiveRefuted objective.now claim.now (box_in domains.now) }
{
    match objective {
        Some(objective) => is_objective_outside(domains, objective, claim),
        None => !is_at_issue(claim, 0),
    }
}
