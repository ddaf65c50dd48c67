//! The terms of an objective, and how great its sum can be.

ghost use Rattle.std.specs.Prelude.{◌≡◌, ◌+◌, ◌*◌, ◌<◌, ◌^◌, ◌++◌, ◌*ℤ◌, unsigned_abs, map, All, length, IfOk, OnOk};
ghost use Rattle.std.specs.Int.{int_max};
ghost use Rattle.cps_domain.specs.Window.{intervals};
ghost use Rattle.cps_instance.specs.Posting.{objective_terms, IsPairedObjective};
ghost use Rattle.cps_instance.specs.Terms.{greatest_of, greatest_of_terms, least_of, magnitude, terms_reach};
ghost use Rattle.cps_instance.specs.Writing.{terms_of, terms_of_reference};

use cps_domain::Domain;
use cps_instance::{Instance, Term};
use cps_model::Objective;
use std::alloc::{AllocError, Global};

/// Half of the one coefficient that is the opposite of another and not in its type.
const HALF: i64 = 1 << 62;

/// Adds the term of a reference. A reference below 0 is its variable with the opposite coefficient.
fn push_reference(terms: &mut Vec<Term>, coeff: i64, reference: i32) -> Result<(), AllocError>
    ensures { OnOk result (terms.new.items ≡ terms.old.items ++ terms_of_reference coeff reference) }
{
    if reference >= 0 {
        let subject = reference as u32;
        terms.push(Term { coeff, subject })?;
        return Ok(());
    }
    let subject = (-1 - reference) as u32;
    if coeff == i64::MIN {
        let half = Term {
            coeff: HALF,
            subject,
        };
        terms.push(half)?;
        terms.push(half)?;
        return Ok(());
    }
    terms.push(Term {
        coeff: -coeff,
        subject,
    })?;
    Ok(())
}

/// The terms of references, each with its coefficient.
fn terms_of(alloc: Global, vars: &[i32], coeffs: &[i64]) -> Result<Vec<Term>, AllocError>
    requires { length vars.now ≡ length coeffs.now }
    ensures { IfOk result (λ terms. terms.items ≡ terms_of vars.now coeffs.now) }
{
    let mut terms = Vec::with_capacity(alloc, vars.len())?;
    for (k, reference) in vars.iter().enumerate() {
        push_reference(&mut terms, coeffs[k], *reference)?;
    }
    Ok(terms)
}

/// The terms of an objective's sum; none without an objective.
fn terms_of_objective(alloc: Global, objective: &Option<Objective>) -> Result<Vec<Term>, AllocError>
    requires { IsPairedObjective objective.now }
    ensures { IfOk result (λ terms. terms.items ≡ objective_terms objective.now) }
{
    match objective {
        None => Ok(Vec::new(alloc)),
        Some(objective) => terms_of(
            alloc,
            objective.vars.as_slice(),
            objective.coeffs.as_slice(),
        ),
    }
}

/// The terms of the sum of an instance's objective, each over a variable; none without an objective.
pub fn objective_terms(alloc: Global, instance: &Instance<'_>) -> Result<Vec<Term>, AllocError>
    ensures { IfOk result (λ terms. terms.items ≡ objective_terms instance.now.model.objective) }
{
    // Reading the domains gives the proof the instance's invariant.
    let _ = instance.domains();
    terms_of_objective(alloc, instance.objective())
}

/// The greater of a coefficient times the one end of a domain and times the other.
fn greatest_part(domain: &Domain, coeff: i64) -> i64
    requires { unsigned_abs coeff * magnitude (intervals domain.now) < 2 ^ 62 }
    ensures { result ≡ int_max (coeff *ℤ least_of (intervals domain.now))
        (coeff *ℤ greatest_of (intervals domain.now)) }
{
    let first = coeff * domain.min();
    let second = coeff * domain.max();
    first.max(second)
}

/// The greatest value of a sum by the domains.
pub fn greatest_sum(domains: &[Domain], terms: &[Term]) -> i64
    requires subjects { All (λ t. t.subject < length domains.now) terms.now }
    requires small { terms_reach (map intervals domains.now) terms.now < 2 ^ 62 }
    ensures is { result ≡ greatest_of_terms (map intervals domains.now) terms.now }
    ensures small { unsigned_abs result < 2 ^ 62 }
{
    let mut sum: i64 = 0;
    for term in terms {
        sum += greatest_part(&domains[term.subject as usize], term.coeff);
    }
    sum
}
