//! Which sums a log may define, and the domain of each.
ghost use Rattle.std.specs.Prelude.{◌≡◌, ◌↔◌, ◌+◌, ◌<◌, ◌^◌, ◌+ℤ◌, ◌≤ℤ◌, [], ◌∷◌, ℤ, pos, None, IsTrue, All, IfOk, unsigned_abs};
ghost use Rattle.std.specs.List.{list_all};
ghost use Rattle.cps_model.specs.Rules.{names};
ghost use Rattle.cps_domain.specs.Window.{contains};
ghost use Rattle.cps_model.specs.Validity.{variable_fault};
ghost use Rattle.cps_model.specs.Within.{is_within};
ghost use Rattle.cps_log.specs.Subjects.{IsNear, IsDefinable, sum_domain};
ghost use Rattle.cps_subjects.specs.Domains.{HasDomainsOf};

use crate::atoms::FARTHEST;
use crate::sums::sum_ends;
use cps_domain::Domain;
use cps_model::{LinearExpr, Variable, variable_of};
use cps_validate::has_small_reach;
use std::alloc::{AllocError, Global};

/// Whether each reference is that of a variable itself.
fn are_variables(vars: &[i32]) -> bool
    ensures { IsTrue result ↔ All (λ r. pos 0 ≤ℤ r) vars.now }
{
    for variable in vars {
        if *variable < 0 {
            return false;
        }
    }
    true
}

/// Whether each reference names one of the first `count` variables.
fn are_named(vars: &[i32], count: usize) -> bool
    ensures { result ≡ list_all (names count) vars.now }
{
    vars.iter().all(|variable| variable_of(*variable) < count)
}

/// Whether each number has magnitude at most 2^62.
fn are_near(numbers: &[i64]) -> bool
    ensures { IsTrue result ↔ All IsNear numbers.now }
{
    for number in numbers {
        if number.unsigned_abs() > FARTHEST {
            return false;
        }
    }
    true
}

/// Whether a log may define a sum.
pub fn is_definable(variables: &[Variable], sum: &LinearExpr) -> bool
    ensures { IsTrue result ↔ IsDefinable variables.now sum.now }
{
    let vars = sum.vars.as_slice();
    let coeffs = sum.coeffs.as_slice();
    are_variables(vars)
        && are_named(vars, variables.len())
        && vars.len() == coeffs.len()
        && has_small_reach(variables, vars, coeffs, sum.offset)
        && are_near(coeffs)
}

/// An end of a sum with the offset.
fn with_offset(end: i64, offset: i64) -> i64
    requires { unsigned_abs (end +ℤ offset) < 2 ^ 62 }
    ensures { result ≡ end +ℤ offset }
{
    end + offset
}

/// The domain of each number from `low` to `high`.
fn domain_between(alloc: Global, low: i64, high: i64) -> Result<Domain, AllocError>
    requires ordered { low ≤ℤ high }
    requires low { unsigned_abs low < 2 ^ 62 }
    requires high { unsigned_abs high < 2 ^ 62 }
    ensures { IfOk result (λ domain. (x : ℤ) → contains domain x ≡ is_within (low ∷ high ∷ []) x) }
{
    let domain = Domain::of_bounds(alloc, &[low, high])?;
    Ok(domain)
}

/// The domain of a sum: each number from its least to its greatest value by the variables' domains.
pub fn sum_domain(
    alloc: Global,
    variables: &[Variable],
    domains: &[Domain],
    sum: &LinearExpr,
) -> Result<Domain, AllocError>
    requires valid { All (λ v. variable_fault v ≡ None) variables.now }
    requires definable { IsDefinable variables.now sum.now }
    requires whole { HasDomainsOf domains.now variables.now }
    ensures { IfOk result (λ domain. (x : ℤ) → contains domain x
        ≡ is_within (sum_domain variables.now sum.now) x) }
{
    let ends = sum_ends(domains, sum.vars.as_slice(), sum.coeffs.as_slice());
    let low = with_offset(ends.low, sum.offset);
    let high = with_offset(ends.high, sum.offset);
    let domain = domain_between(alloc, low, high)?;
    Ok(domain)
}
