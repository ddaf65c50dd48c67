//! What the values that are left say of literals.
ghost use Rattle.std.specs.Prelude.{◌≡◌, ◌↔◌, ◌<◌, ℤ, true, false, IsTrue, All, Any, length};
ghost use Rattle.std.specs.List.{list_all};
ghost use Rattle.cps_domain.specs.Window.{contains};
ghost use Rattle.cps_model.specs.Rules.{names};
ghost use Rattle.cps_model.specs.Values.{variable_of};
ghost use Rattle.cps_log.specs.Boxes.{literal_at, IsFixedTrue, IsFixedFalse};
ghost use Rattle.cps_unit.specs.Boxes.{HasValues};
ghost use Rattle.cps_rup.specs.Domains.{box_in};
ghost use Rattle.cps_cert.specs.Refuting.{AtTwo, HasEvenCount};

use cps_domain::Domain;
use cps_model::variable_of;

/// Whether each value of its variable's domain makes a literal true.
fn is_true_on(domain: &Domain, literal: i32) -> bool
    ensures { IsTrue result ↔ ((x : ℤ) → contains domain.now x ≡ true → literal_at literal x ≡ true) }
{
    if literal >= 0 {
        domain.min() >= 1
    } else {
        domain.max() <= 0
    }
}

/// Whether each value of its variable's domain makes a literal false.
fn is_false_on(domain: &Domain, literal: i32) -> bool
    ensures { IsTrue result ↔ ((x : ℤ) → contains domain.now x ≡ true → literal_at literal x ≡ false) }
{
    if literal >= 0 {
        domain.max() <= 0
    } else {
        domain.min() >= 1
    }
}

/// Whether a literal is fixed to true.
fn is_fixed_true(domains: &[Domain], literal: i32) -> bool
    requires { IsTrue (names (length domains.now) literal) }
    ensures { IsTrue result ↔ IsFixedTrue (box_in domains.now) literal }
{
    is_true_on(&domains[variable_of(literal)], literal)
}

/// Whether a literal is fixed to false.
fn is_fixed_false(domains: &[Domain], literal: i32) -> bool
    requires { IsTrue (names (length domains.now) literal) }
    ensures { IsTrue result ↔ IsFixedFalse (box_in domains.now) literal }
{
    is_false_on(&domains[variable_of(literal)], literal)
}

/// Whether all literals are fixed to true.
pub(crate) fn all_fixed_true(domains: &[Domain], literals: &[i32]) -> bool
    requires { IsTrue (list_all (names (length domains.now)) literals.now) }
    ensures { IsTrue result ↔ All (IsFixedTrue (box_in domains.now)) literals.now }
{
    for literal in literals {
        if !is_fixed_true(domains, *literal) {
            return false;
        }
    }
    true
}

/// Whether all literals are fixed to false.
pub(crate) fn all_fixed_false(domains: &[Domain], literals: &[i32]) -> bool
    requires { IsTrue (list_all (names (length domains.now)) literals.now) }
    ensures { IsTrue result ↔ All (IsFixedFalse (box_in domains.now)) literals.now }
{
    for literal in literals {
        if !is_fixed_false(domains, *literal) {
            return false;
        }
    }
    true
}

/// Whether some literal is fixed to false.
pub(crate) fn any_fixed_false(domains: &[Domain], literals: &[i32]) -> bool
    requires { IsTrue (list_all (names (length domains.now)) literals.now) }
    ensures { IsTrue result ↔ Any (IsFixedFalse (box_in domains.now)) literals.now }
{
    for literal in literals {
        if is_fixed_false(domains, *literal) {
            return true;
        }
    }
    false
}

/// Whether literals at two places are fixed to true.
pub(crate) fn two_fixed_true(domains: &[Domain], literals: &[i32]) -> bool
    requires { IsTrue (list_all (names (length domains.now)) literals.now) }
    ensures { IsTrue result ↔ AtTwo (IsFixedTrue (box_in domains.now)) literals.now }
{
    let mut found = false;
    for literal in literals {
        if is_fixed_true(domains, *literal) {
            if found {
                return true;
            }
            found = true;
        }
    }
    false
}

/// Whether all literals are fixed, an even number of them to true.
pub(crate) fn has_even_count(domains: &[Domain], literals: &[i32]) -> bool
    requires named { IsTrue (list_all (names (length domains.now)) literals.now) }
    requires values { HasValues (length domains.now) (box_in domains.now) }
    ensures { IsTrue result ↔ HasEvenCount (box_in domains.now) literals.now }
{
    let mut count: usize = 0;
    for literal in literals {
        if is_fixed_true(domains, *literal) {
            count += 1;
        } else if !is_fixed_false(domains, *literal) {
            return false;
        }
    }
    count % 2 == 0
}
