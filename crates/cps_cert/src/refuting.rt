//! Constraints that cannot hold in what the domains leave: sums and Boolean kinds, by ends and fixed literals.
ghost use Rattle.std.specs.Prelude.{◌≡◌, ◌↔◌, ◌⊎◌, ◌<◌, ◌^◌, ◌+ℤ◌, ◌<ℤ◌, unsigned_abs, List, false, true, IsTrue, All, MatchOption, length};
ghost use Rattle.std.specs.List.{list_all};
ghost use Rattle.cps_model.specs.declared.model.CpModel.{CpModel};
ghost use Rattle.cps_model.specs.declared.model.LinearExpr.{LinearExpr as SumOf};
ghost use Rattle.cps_model.specs.Within.{is_within};
ghost use Rattle.cps_model.specs.Rules.{names, literals_of, sums_of};
ghost use Rattle.cps_literal.specs.declared.atom.Atom.{Atom};
ghost use Rattle.cps_log.specs.Boxes.{IsFixedFalse, IsFixedTrue, IsSumOutside};
ghost use Rattle.cps_log.specs.Subjects.{IsNear};
ghost use Rattle.cps_cert.specs.Accepting.{AreEndsApart};
ghost use Rattle.cps_unit.specs.Boxes.{HasValues};
ghost use Rattle.cps_rup.specs.Domains.{box_in};
ghost use Rattle.cps_subjects.specs.Domains.{IsSmallSum};
ghost use Rattle.cps_cert.specs.Refuting.{AtTwo, is_direct, IsDemandRefuted, IsRefutedAs};

use crate::fixed::{
    all_fixed_false, all_fixed_true, any_fixed_false, has_even_count, two_fixed_true,
};
use crate::intervals::none_between;
use cps_domain::Domain;
use cps_model::{Constraint, Kind, LinearExpr};
use cps_subjects::sum_ends;

/// Whether no number between the ends of a sum is in a list of bounds.
fn is_sum_outside(domains: &[Domain], vars: &[i32], coeffs: &[i64], bounds: &[i64]) -> bool
    requires { IsSmallSum (box_in domains.now) (length domains.now) vars.now coeffs.now }
    ensures { IsTrue result ↔ IsSumOutside (box_in domains.now) vars.now coeffs.now (is_within bounds.now) }
{
    let ends = sum_ends(domains, vars, coeffs);
    none_between(bounds, ends.low, ends.high)
}

/// Whether all literals are fixed to false, or two to true.
fn is_not_one(domains: &[Domain], literals: &[i32]) -> bool
    requires { IsTrue (list_all (names (length domains.now)) literals.now) }
    ensures { IsTrue result ↔ (All (IsFixedFalse (box_in domains.now)) literals.now
        ⊎ AtTwo (IsFixedTrue (box_in domains.now)) literals.now) }
{
    all_fixed_false(domains, literals) || two_fixed_true(domains, literals)
}

/// Whether what a kind demands cannot hold in what the domains leave; `None` for a kind that is judged by trying
/// assignments.
fn is_demand_refuted(domains: &[Domain], kind: &Kind) -> Option<bool>
    requires named { IsTrue (list_all (names (length domains.now)) (literals_of kind.now)) }
    requires sums { All (λ (e : SumOf). IsSmallSum (box_in domains.now) (length domains.now) e.vars e.coeffs) (sums_of kind.now) }
    requires values { HasValues (length domains.now) (box_in domains.now) }
    ensures { MatchOption result (is_direct kind.now ≡ false) (λ yes. (is_direct kind.now ≡ true)
        × (IsTrue yes ↔ IsDemandRefuted (box_in domains.now) kind.now)) }
{
    match kind {
        Kind::Linear {
            vars,
            coeffs,
            domain,
        } => Some(is_sum_outside(
            domains,
            vars.as_slice(),
            coeffs.as_slice(),
            domain.as_slice(),
        )),
        Kind::BoolOr(literals) => Some(all_fixed_false(domains, literals.as_slice())),
        Kind::BoolAnd(literals) => Some(any_fixed_false(domains, literals.as_slice())),
        Kind::AtMostOne(literals) => Some(two_fixed_true(domains, literals.as_slice())),
        Kind::ExactlyOne(literals) => Some(is_not_one(domains, literals.as_slice())),
        Kind::BoolXor(literals) => Some(has_even_count(domains, literals.as_slice())),
        _ => None,
    }
}

/// Whether a constraint refutes what the domains leave; `None` for one that is judged by trying assignments.
pub(crate) fn refutes(domains: &[Domain], constraint: &Constraint) -> Option<bool>
    requires enforcement { IsTrue (list_all (names (length domains.now)) constraint.now.enforcement) }
    requires named { IsTrue (list_all (names (length domains.now)) (literals_of constraint.now.kind)) }
    requires sums { All (λ (e : SumOf). IsSmallSum (box_in domains.now) (length domains.now) e.vars e.coeffs) (sums_of constraint.now.kind) }
    requires values { HasValues (length domains.now) (box_in domains.now) }
    ensures { MatchOption result (is_direct constraint.now.kind ≡ false) (λ yes. (m : CpModel) (sums : List SumOf)
        (clause : List Atom) → IsTrue yes ↔ IsRefutedAs m sums clause (box_in domains.now) constraint.now constraint.now.kind) }
{
    let Some(refuted) = is_demand_refuted(domains, &constraint.kind) else {
        return None;
    };
    Some(refuted && all_fixed_true(domains, constraint.enforcement.as_slice()))
}

/// Whether a sum with its offset stays below a value.
fn stays_below(high: i64, offset: i64, least: i64) -> bool
    requires high { unsigned_abs high < 2 ^ 62 }
    requires offset { IsNear offset }
    ensures { IsTrue result ↔ ((high +ℤ offset) <ℤ least) }
{
    high + offset < least
}

/// Whether a sum with its offset stays above a value.
fn stays_above(low: i64, offset: i64, greatest: i64) -> bool
    requires low { unsigned_abs low < 2 ^ 62 }
    requires offset { IsNear offset }
    ensures { IsTrue result ↔ (greatest <ℤ (low +ℤ offset)) }
{
    greatest < low + offset
}

/// Whether the ends of a subject's sum are apart from those of its domain.
pub(crate) fn are_ends_apart(domains: &[Domain], subject: u32, sum: &LinearExpr) -> bool
    requires subject { subject < length domains.now }
    requires small { IsSmallSum (box_in domains.now) (length domains.now) sum.now.vars sum.now.coeffs }
    requires near { IsNear sum.now.offset }
    ensures { IsTrue result ↔ AreEndsApart (box_in domains.now) subject sum.now }
{
    let ends = sum_ends(domains, sum.vars.as_slice(), sum.coeffs.as_slice());
    let domain = &domains[subject as usize];
    let least = domain.min();
    let greatest = domain.max();
    stays_below(ends.high, sum.offset, least) || stays_above(ends.low, sum.offset, greatest)
}
