//! The ends of sums over what is left to their variables.
ghost use Rattle.std.specs.Prelude.{◌≡◌, ◌+◌, ◌-◌, ◌<◌, ◌≤◌, ◌^◌, ◌+ℤ◌, ◌*ℤ◌, true, ℤ, IsTrue, length, unsigned_abs};
ghost use Rattle.cps_domain.specs.Window.{contains};
ghost use Rattle.cps_model.specs.Values.{variable_of};
ghost use Rattle.cps_validate.specs.Signs.{with_sign_of};
ghost use Rattle.cps_log.specs.Boxes.{Spans, HasEnds};
ghost use Rattle.cps_rup.specs.Domains.{box_in};
ghost use Rattle.cps_subjects.specs.Domains.{IsSmallSum};

use cps_domain::Domain;
use cps_model::variable_of;

/// The least and the greatest value of a sum, each term by itself.
#[derive(Clone, Copy)]
pub struct Ends {
    pub low: i64,
    pub high: i64,
}

/// The ends of one term.
fn term_ends(domain: &Domain, variable: i32, coefficient: i64) -> Ends
    requires fits { (x : ℤ) → contains domain.now x ≡ true → unsigned_abs (coefficient *ℤ x) < 2 ^ 62 }
    ensures { Spans (contains domain.now) (λ x. coefficient *ℤ with_sign_of variable x) result.low result.high }
{
    let first = coefficient * domain.min();
    let second = coefficient * domain.max();
    let low = first.min(second);
    let high = first.max(second);
    if variable < 0 {
        Ends {
            low: -high,
            high: -low,
        }
    } else {
        Ends { low, high }
    }
}

/// The ends of one term over the domains.
fn term_over(domains: &[Domain], variable: i32, coefficient: i64) -> Ends
    requires named { variable_of variable < length domains.now }
    requires fits { (x : ℤ) → box_in domains.now (variable_of variable) x ≡ true
        → unsigned_abs (coefficient *ℤ x) < 2 ^ 62 }
    ensures { Spans (box_in domains.now (variable_of variable)) (λ x. coefficient *ℤ with_sign_of variable x)
        result.low result.high }
{
    term_ends(&domains[variable_of(variable)], variable, coefficient)
}

/// The ends of a sum with one term more.
fn with_term(ends: Ends, term: Ends) -> Ends
    requires low { unsigned_abs ends.low + unsigned_abs term.low < 2 ^ 62 }
    requires high { unsigned_abs ends.high + unsigned_abs term.high < 2 ^ 62 }
    ensures low { result.low ≡ ends.low +ℤ term.low }
    ensures high { result.high ≡ ends.high +ℤ term.high }
{
    Ends {
        low: ends.low + term.low,
        high: ends.high + term.high,
    }
}

/// The ends of a sum over the domains. Its reach keeps each partial sum small.
pub fn sum_ends(domains: &[Domain], vars: &[i32], coeffs: &[i64]) -> Ends
    requires { IsSmallSum (box_in domains.now) (length domains.now) vars.now coeffs.now }
    ensures ends { HasEnds (box_in domains.now) vars.now coeffs.now result.low result.high }
    ensures low { unsigned_abs result.low < 2 ^ 62 }
    ensures high { unsigned_abs result.high < 2 ^ 62 }
{
    let mut ends = Ends { low: 0, high: 0 };
    for (k, variable) in vars.iter().enumerate() {
        ends = with_term(ends, term_over(domains, *variable, coeffs[k]));
    }
    ends
}
